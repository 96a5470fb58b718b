//! Before which token a nonterminal goes on by which production.

use frame_grammar::{Production as P, TokenKind as K};

pub const ITEMS: [(K, P); 27] = [
    (K::Line, P::ItemsLine),
    (K::Job, P::ItemsKernel),
    (K::Parallel, P::ItemsKernel),
    (K::Array, P::ItemsStatement),
    (K::List, P::ItemsStatement),
    (K::Map, P::ItemsStatement),
    (K::Stream, P::ItemsStatement),
    (K::Add, P::ItemsStatement),
    (K::Remove, P::ItemsStatement),
    (K::Clear, P::ItemsStatement),
    (K::Column, P::ItemsStatement),
    (K::Reference, P::ItemsStatement),
    (K::Slice, P::ItemsStatement),
    (K::View, P::ItemsStatement),
    (K::Copy, P::ItemsStatement),
    (K::Set, P::ItemsStatement),
    (K::Put, P::ItemsStatement),
    (K::SetCapacity, P::ItemsStatement),
    (K::Schedule, P::ItemsStatement),
    (K::Combine, P::ItemsStatement),
    (K::Complete, P::ItemsStatement),
    (K::Dispose, P::ItemsStatement),
    (K::Print, P::ItemsStatement),
    (K::Flush, P::ItemsStatement),
    (K::Repeat, P::ItemsStatement),
    (K::Frame, P::ItemsStatement),
    (K::When, P::ItemsStatement),
];

pub const AFTER_ITEM: [(K, P); 1] = [(K::Line, P::AfterItemLine)];

pub const LINES: [(K, P); 1] = [(K::Line, P::LinesMore)];

pub const OPEN_KERNEL: [(K, P); 2] = [(K::Job, P::OpenJob), (K::Parallel, P::OpenParallel)];

pub const PARAMETERS: [(K, P); 1] = [(K::Name, P::ParametersSome)];

pub const MORE_PARAMETERS: [(K, P); 1] = [(K::Comma, P::MoreParameters)];

pub const PARAMETER_KIND: [(K, P); 4] = [
    (K::Int, P::IntParameter),
    (K::Ro, P::ReadParameter),
    (K::Wo, P::WriteParameter),
    (K::Rw, P::ReadWriteParameter),
];

pub const CONTAINER: [(K, P); 5] = [
    (K::Array, P::ArrayContainer),
    (K::List, P::ListContainer),
    (K::Ref, P::RefContainer),
    (K::Map, P::MapContainer),
    (K::Stream, P::StreamContainer),
];

pub const WIDTH: [(K, P); 1] = [(K::By, P::WidthSome)];

pub const STATEMENTS: [(K, P); 10] = [
    (K::Name, P::StatementsMore),
    (K::Var, P::StatementsMore),
    (K::If, P::StatementsMore),
    (K::For, P::StatementsMore),
    (K::While, P::StatementsMore),
    (K::Begin, P::StatementsMore),
    (K::Write, P::StatementsMore),
    (K::Add, P::StatementsMore),
    (K::Remove, P::StatementsMore),
    (K::Clear, P::StatementsMore),
];

pub const KERNEL_STATEMENT: [(K, P); 10] = [
    (K::Var, P::VarStatement),
    (K::Name, P::NameStatement),
    (K::Add, P::AddStatement),
    (K::Remove, P::RemoveStatement),
    (K::Clear, P::ClearStatement),
    (K::Write, P::WriteStatement),
    (K::Begin, P::BeginStatement),
    (K::If, P::IfStatement),
    (K::For, P::ForStatement),
    (K::While, P::WhileStatement),
];

pub const TARGET: [(K, P); 2] = [(K::Assign, P::TargetName), (K::OpenBracket, P::TargetPlace)];

pub const VALUE: [(K, P); 2] = [(K::TryAdd, P::ValueTryAdd), (K::Remove, P::ValueRemove)];

pub const ADDED_VALUE: [(K, P); 1] = [(K::Comma, P::AddedValueSome)];

pub const ELSE_PART: [(K, P); 1] = [(K::Else, P::ElseSome)];

pub const MORE_OR: [(K, P); 1] = [(K::OrOr, P::MoreOrSome)];

pub const MORE_AND: [(K, P); 1] = [(K::AndAnd, P::MoreAndSome)];

pub const COMPARED: [(K, P); 6] = [
    (K::Equal, P::ComparedEqual),
    (K::NotEqual, P::ComparedNotEqual),
    (K::Less, P::ComparedLess),
    (K::LessEqual, P::ComparedLessEqual),
    (K::Greater, P::ComparedGreater),
    (K::GreaterEqual, P::ComparedGreaterEqual),
];

pub const MORE_SUM: [(K, P); 2] = [(K::Plus, P::MoreSumPlus), (K::Minus, P::MoreSumMinus)];

pub const MORE_TERM: [(K, P); 3] = [
    (K::Star, P::MoreTermTimes),
    (K::Slash, P::MoreTermOver),
    (K::Percent, P::MoreTermRemainder),
];

pub const UNARY: [(K, P); 2] = [(K::Minus, P::UnaryMinus), (K::Not, P::UnaryNot)];

pub const ATOM: [(K, P); 8] = [
    (K::Number, P::AtomNumber),
    (K::Index, P::AtomIndex),
    (K::Name, P::AtomName),
    (K::OpenParen, P::AtomParens),
    (K::Len, P::AtomLen),
    (K::Has, P::AtomHas),
    (K::Count, P::AtomCount),
    (K::At, P::AtomAt),
];

pub const PLACE: [(K, P); 1] = [(K::OpenBracket, P::PlaceSome)];

// TO ADD A STATEMENT: 4, its first token, here, in ITEMS and in LINED.

pub const STATEMENT: [(K, P); 24] = [
    (K::Array, P::ArrayStatement),
    (K::Column, P::ColumnStatement),
    (K::List, P::ListStatement),
    (K::Reference, P::ReferenceStatement),
    (K::Map, P::MapStatement),
    (K::Stream, P::StreamStatement),
    (K::Slice, P::SliceStatement),
    (K::View, P::ViewStatement),
    (K::Copy, P::CopyStatement),
    (K::Set, P::SetStatement),
    (K::Add, P::AddToStatement),
    (K::Put, P::PutStatement),
    (K::Remove, P::RemoveFromStatement),
    (K::Clear, P::ClearOutStatement),
    (K::SetCapacity, P::SetCapacityStatement),
    (K::Schedule, P::ScheduleStatement),
    (K::Combine, P::CombineStatement),
    (K::Complete, P::CompleteStatement),
    (K::Dispose, P::DisposeStatement),
    (K::Print, P::PrintStatement),
    (K::Flush, P::FlushStatement),
    (K::Frame, P::FrameStatement),
    (K::Repeat, P::RepeatStatement),
    (K::When, P::WhenStatement),
];

pub const LIFE: [(K, P); 3] = [
    (K::Temp, P::LifeTemp),
    (K::TempJob, P::LifeTempJob),
    (K::Persistent, P::LifePersistent),
];

pub const SIGNED: [(K, P); 2] = [(K::Minus, P::SignedMinus), (K::Number, P::SignedPlain)];

pub const MAYBE_SIGNED: [(K, P); 2] = [
    (K::Number, P::MaybeSignedSome),
    (K::Minus, P::MaybeSignedSome),
];

pub const ARRAY_VALUES: [(K, P); 1] = [(K::Assign, P::ArrayValuesSome)];

pub const MORE_VALUES: [(K, P); 2] = [
    (K::Number, P::MoreValuesSome),
    (K::Minus, P::MoreValuesSome),
];

pub const REFERENCE_VALUE: [(K, P); 1] = [(K::Assign, P::ReferenceValueSome)];

pub const ARGUMENTS: [(K, P); 3] = [
    (K::Name, P::ArgumentsSome),
    (K::Number, P::ArgumentsSome),
    (K::Minus, P::ArgumentsSome),
];

pub const MORE_ARGUMENTS: [(K, P); 1] = [(K::Comma, P::MoreArgumentsSome)];

pub const ARGUMENT: [(K, P); 1] = [(K::Name, P::ArgumentName)];

pub const AUTO: [(K, P); 1] = [(K::Auto, P::AutoSome)];

pub const SIZES: [(K, P); 2] = [(K::Number, P::SizesLength), (K::Defer, P::SizesDefer)];

pub const WAIVED: [(K, P); 1] = [(K::Waive, P::WaivedSome)];

pub const AFTER_NAMES: [(K, P); 1] = [(K::After, P::AfterSome)];

pub const NAMES: [(K, P); 1] = [(K::Name, P::NamesMore)];

pub const DISPOSAL: [(K, P); 2] = [(K::Name, P::DisposalNamed), (K::Auto, P::DisposalAuto)];

pub const DISPOSED_AFTER: [(K, P); 1] = [(K::After, P::DisposedLater)];

pub const TEST: [(K, P); 6] = [
    (K::Equal, P::TestEqual),
    (K::NotEqual, P::TestNotEqual),
    (K::Less, P::TestLess),
    (K::LessEqual, P::TestLessEqual),
    (K::Greater, P::TestGreater),
    (K::GreaterEqual, P::TestGreaterEqual),
];

pub const LINED: [(K, P); 25] = [
    (K::Line, P::LinedLine),
    (K::Array, P::LinedStatement),
    (K::List, P::LinedStatement),
    (K::Map, P::LinedStatement),
    (K::Stream, P::LinedStatement),
    (K::Add, P::LinedStatement),
    (K::Remove, P::LinedStatement),
    (K::Clear, P::LinedStatement),
    (K::Column, P::LinedStatement),
    (K::Reference, P::LinedStatement),
    (K::Slice, P::LinedStatement),
    (K::View, P::LinedStatement),
    (K::Copy, P::LinedStatement),
    (K::Set, P::LinedStatement),
    (K::Put, P::LinedStatement),
    (K::SetCapacity, P::LinedStatement),
    (K::Schedule, P::LinedStatement),
    (K::Combine, P::LinedStatement),
    (K::Complete, P::LinedStatement),
    (K::Dispose, P::LinedStatement),
    (K::Print, P::LinedStatement),
    (K::Flush, P::LinedStatement),
    (K::Repeat, P::LinedStatement),
    (K::Frame, P::LinedStatement),
    (K::When, P::LinedStatement),
];

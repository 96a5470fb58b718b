//! What the statements of a script are made of.

use crate::TokenKind as K;
use crate::symbols::Symbol::{self, Action, Nonterminal, Terminal};
use crate::symbols::{Action as A, Nonterminal as N};

// TO ADD A STATEMENT: 3, its body.

/// Statement: 'array' Name Number Life ArrayValues
pub const ARRAY_STATEMENT: [Symbol; 8] = [
    Terminal(K::Array),
    Action(A::Name),
    Terminal(K::Name),
    Action(A::Number),
    Terminal(K::Number),
    Nonterminal(N::Life),
    Nonterminal(N::ArrayValues),
    Action(A::ArrayStatement),
];

/// Statement: 'column' Name Text Life
pub const COLUMN_STATEMENT: [Symbol; 7] = [
    Terminal(K::Column),
    Action(A::Name),
    Terminal(K::Name),
    Action(A::Text),
    Terminal(K::Text),
    Nonterminal(N::Life),
    Action(A::ColumnStatement),
];

/// Statement: 'list' Name Number Life
pub const LIST_STATEMENT: [Symbol; 7] = [
    Terminal(K::List),
    Action(A::Name),
    Terminal(K::Name),
    Action(A::Number),
    Terminal(K::Number),
    Nonterminal(N::Life),
    Action(A::ListStatement),
];

/// Statement: 'reference' Name Life ReferenceValue
pub const REFERENCE_STATEMENT: [Symbol; 6] = [
    Terminal(K::Reference),
    Action(A::Name),
    Terminal(K::Name),
    Nonterminal(N::Life),
    Nonterminal(N::ReferenceValue),
    Action(A::ReferenceStatement),
];

/// Statement: 'map' Name Number Life
pub const MAP_STATEMENT: [Symbol; 7] = [
    Terminal(K::Map),
    Action(A::Name),
    Terminal(K::Name),
    Action(A::Number),
    Terminal(K::Number),
    Nonterminal(N::Life),
    Action(A::MapStatement),
];

/// Statement: 'stream' Name Number Number Life
pub const STREAM_STATEMENT: [Symbol; 9] = [
    Terminal(K::Stream),
    Action(A::Name),
    Terminal(K::Name),
    Action(A::Number),
    Terminal(K::Number),
    Action(A::Number),
    Terminal(K::Number),
    Nonterminal(N::Life),
    Action(A::StreamStatement),
];

/// Statement: 'slice' Name Name Number Number
pub const SLICE_STATEMENT: [Symbol; 10] = [
    Terminal(K::Slice),
    Action(A::Name),
    Terminal(K::Name),
    Action(A::Name),
    Terminal(K::Name),
    Action(A::Number),
    Terminal(K::Number),
    Action(A::Number),
    Terminal(K::Number),
    Action(A::SliceStatement),
];

/// Statement: 'view' Name Name
pub const VIEW_STATEMENT: [Symbol; 6] = [
    Terminal(K::View),
    Action(A::Name),
    Terminal(K::Name),
    Action(A::Name),
    Terminal(K::Name),
    Action(A::ViewStatement),
];

/// Statement: 'copy' Name Name
pub const COPY_STATEMENT: [Symbol; 6] = [
    Terminal(K::Copy),
    Action(A::Name),
    Terminal(K::Name),
    Action(A::Name),
    Terminal(K::Name),
    Action(A::CopyStatement),
];

/// Statement: 'set' Name MaybeSigned '=' Signed
pub const SET_STATEMENT: [Symbol; 7] = [
    Terminal(K::Set),
    Action(A::Name),
    Terminal(K::Name),
    Nonterminal(N::MaybeSigned),
    Terminal(K::Assign),
    Nonterminal(N::Signed),
    Action(A::SetStatement),
];

/// Statement: 'add' Name Signed MaybeSigned
pub const ADD_TO_STATEMENT: [Symbol; 6] = [
    Terminal(K::Add),
    Action(A::Name),
    Terminal(K::Name),
    Nonterminal(N::Signed),
    Nonterminal(N::MaybeSigned),
    Action(A::AddToStatement),
];

/// Statement: 'put' Name Signed Signed
pub const PUT_STATEMENT: [Symbol; 6] = [
    Terminal(K::Put),
    Action(A::Name),
    Terminal(K::Name),
    Nonterminal(N::Signed),
    Nonterminal(N::Signed),
    Action(A::PutStatement),
];

/// Statement: 'remove' Name Signed
pub const REMOVE_FROM_STATEMENT: [Symbol; 5] = [
    Terminal(K::Remove),
    Action(A::Name),
    Terminal(K::Name),
    Nonterminal(N::Signed),
    Action(A::RemoveFromStatement),
];

/// Statement: 'clear' Name
pub const CLEAR_OUT_STATEMENT: [Symbol; 4] = [
    Terminal(K::Clear),
    Action(A::Name),
    Terminal(K::Name),
    Action(A::ClearOutStatement),
];

/// Statement: 'setcapacity' Name Number
pub const SET_CAPACITY_STATEMENT: [Symbol; 6] = [
    Terminal(K::SetCapacity),
    Action(A::Name),
    Terminal(K::Name),
    Action(A::Number),
    Terminal(K::Number),
    Action(A::SetCapacityStatement),
];

/// Statement: 'schedule' Auto Name Name '(' Arguments ')' Sizes Waived AfterNames
pub const SCHEDULE_STATEMENT: [Symbol; 15] = [
    Terminal(K::Schedule),
    Nonterminal(N::Auto),
    Action(A::Name),
    Terminal(K::Name),
    Action(A::Name),
    Terminal(K::Name),
    Terminal(K::OpenParen),
    Action(A::OpenArguments),
    Nonterminal(N::Arguments),
    Action(A::CloseArguments),
    Terminal(K::CloseParen),
    Nonterminal(N::Sizes),
    Nonterminal(N::Waived),
    Nonterminal(N::AfterNames),
    Action(A::ScheduleStatement),
];

/// Statement: 'combine' Name Names
pub const COMBINE_STATEMENT: [Symbol; 6] = [
    Terminal(K::Combine),
    Action(A::Name),
    Terminal(K::Name),
    Action(A::OpenNames),
    Nonterminal(N::Names),
    Action(A::CombineStatement),
];

/// Statement: 'complete' Auto Name
pub const COMPLETE_STATEMENT: [Symbol; 5] = [
    Terminal(K::Complete),
    Nonterminal(N::Auto),
    Action(A::Name),
    Terminal(K::Name),
    Action(A::CompleteStatement),
];

/// Statement: 'dispose' Disposal
pub const DISPOSE_STATEMENT: [Symbol; 2] = [Terminal(K::Dispose), Nonterminal(N::Disposal)];

/// Statement: 'print' Name
pub const PRINT_STATEMENT: [Symbol; 4] = [
    Terminal(K::Print),
    Action(A::Name),
    Terminal(K::Name),
    Action(A::PrintStatement),
];

/// Statement: 'flush'
pub const FLUSH_STATEMENT: [Symbol; 2] = [Terminal(K::Flush), Action(A::FlushStatement)];

/// Statement: 'frame'
pub const FRAME_STATEMENT: [Symbol; 2] = [Terminal(K::Frame), Action(A::FrameStatement)];

/// Statement: 'repeat' Number '{' Line Lined '}'
pub const REPEAT_STATEMENT: [Symbol; 9] = [
    Terminal(K::Repeat),
    Action(A::Number),
    Terminal(K::Number),
    Action(A::OpenRepeat),
    Terminal(K::OpenBrace),
    Terminal(K::Line),
    Nonterminal(N::Lined),
    Terminal(K::CloseBrace),
    Action(A::RepeatStatement),
];

/// Statement: 'when' Name Test Signed '{' Line Lined '}'
pub const WHEN_STATEMENT: [Symbol; 11] = [
    Terminal(K::When),
    Action(A::Name),
    Terminal(K::Name),
    Nonterminal(N::Test),
    Nonterminal(N::Signed),
    Action(A::OpenWhen),
    Terminal(K::OpenBrace),
    Terminal(K::Line),
    Nonterminal(N::Lined),
    Terminal(K::CloseBrace),
    Action(A::WhenStatement),
];

//! The bodies of all productions, the one place where the grammar stands, and which body is whose.

ghost use Rattle.std.specs.Prelude.{◌≡◌, true, false};
ghost use Rattle.frame_grammar.specs.Bodies.{body_of, written};

use crate::symbols::{Production, Symbol};

pub mod clause;
pub mod expression;
pub mod file;
pub mod kernel;
pub mod statement;

/// The body of a production.
#[derive(Clone, Copy)]
pub struct ProductionBody {
    pub symbols: &'static [Symbol],
    /// Whether line ends may follow each terminal.
    pub has_lines: bool,
}

fn in_kernel(symbols: &'static [Symbol]) -> ProductionBody
    ensures symbols { result.symbols.now ≡ symbols.entry.now }
    ensures lines { result.has_lines ≡ true }
{
    ProductionBody {
        symbols,
        has_lines: true,
    }
}

fn in_script(symbols: &'static [Symbol]) -> ProductionBody
    ensures symbols { result.symbols.now ≡ symbols.entry.now }
    ensures lines { result.has_lines ≡ false }
{
    ProductionBody {
        symbols,
        has_lines: false,
    }
}

// TO ADD A STATEMENT: 5, its body's name.

/// What a production's head is made of by it.
#[tactic(auto, unfolding(crate::specs::Bodies::body_of))]
pub fn body(production: Production) -> ProductionBody
    ensures { written result.has_lines result.symbols.now ≡ body_of production }
{
    match production {
        Production::File => in_script(&file::FILE),
        Production::ItemsEnd => in_script(&file::ITEMS_END),
        Production::ItemsLine => in_script(&file::ITEMS_LINE),
        Production::ItemsKernel => in_script(&file::ITEMS_KERNEL),
        Production::ItemsStatement => in_script(&file::ITEMS_STATEMENT),
        Production::AfterItemEnd => in_script(&file::AFTER_ITEM_END),
        Production::AfterItemLine => in_script(&file::AFTER_ITEM_LINE),
        Production::Kernel => in_script(&file::KERNEL),
        Production::LinesEnd => in_script(&file::LINES_END),
        Production::LinesMore => in_script(&file::LINES_MORE),
        Production::OpenJob => in_kernel(&kernel::OPEN_JOB),
        Production::OpenParallel => in_kernel(&kernel::OPEN_PARALLEL),
        Production::ParametersNone => in_kernel(&kernel::PARAMETERS_NONE),
        Production::ParametersSome => in_kernel(&kernel::PARAMETERS_SOME),
        Production::MoreParametersEnd => in_kernel(&kernel::MORE_PARAMETERS_END),
        Production::MoreParameters => in_kernel(&kernel::MORE_PARAMETERS),
        Production::Parameter => in_kernel(&kernel::PARAMETER),
        Production::IntParameter => in_kernel(&kernel::INT_PARAMETER),
        Production::ReadParameter => in_kernel(&kernel::READ_PARAMETER),
        Production::WriteParameter => in_kernel(&kernel::WRITE_PARAMETER),
        Production::ReadWriteParameter => in_kernel(&kernel::READ_WRITE_PARAMETER),
        Production::ArrayContainer => in_kernel(&kernel::ARRAY_CONTAINER),
        Production::ListContainer => in_kernel(&kernel::LIST_CONTAINER),
        Production::RefContainer => in_kernel(&kernel::REF_CONTAINER),
        Production::MapContainer => in_kernel(&kernel::MAP_CONTAINER),
        Production::StreamContainer => in_kernel(&kernel::STREAM_CONTAINER),
        Production::WidthNone => in_kernel(&kernel::WIDTH_NONE),
        Production::WidthSome => in_kernel(&kernel::WIDTH_SOME),
        Production::Block => in_kernel(&kernel::BLOCK),
        Production::StatementsEnd => in_kernel(&kernel::STATEMENTS_END),
        Production::StatementsMore => in_kernel(&kernel::STATEMENTS_MORE),
        Production::VarStatement => in_kernel(&kernel::VAR_STATEMENT),
        Production::NameStatement => in_kernel(&kernel::NAME_STATEMENT),
        Production::AddStatement => in_kernel(&kernel::ADD_STATEMENT),
        Production::RemoveStatement => in_kernel(&kernel::REMOVE_STATEMENT),
        Production::ClearStatement => in_kernel(&kernel::CLEAR_STATEMENT),
        Production::WriteStatement => in_kernel(&kernel::WRITE_STATEMENT),
        Production::BeginStatement => in_kernel(&kernel::BEGIN_STATEMENT),
        Production::IfStatement => in_kernel(&kernel::IF_STATEMENT),
        Production::ForStatement => in_kernel(&kernel::FOR_STATEMENT),
        Production::WhileStatement => in_kernel(&kernel::WHILE_STATEMENT),
        Production::TargetName => in_kernel(&kernel::TARGET_NAME),
        Production::TargetPlace => in_kernel(&kernel::TARGET_PLACE),
        Production::ValueExpression => in_kernel(&kernel::VALUE_EXPRESSION),
        Production::ValueTryAdd => in_kernel(&kernel::VALUE_TRY_ADD),
        Production::ValueRemove => in_kernel(&kernel::VALUE_REMOVE),
        Production::AddedValueNone => in_kernel(&kernel::ADDED_VALUE_NONE),
        Production::AddedValueSome => in_kernel(&kernel::ADDED_VALUE_SOME),
        Production::ElseNone => in_kernel(&kernel::ELSE_NONE),
        Production::ElseSome => in_kernel(&kernel::ELSE_SOME),
        Production::Expression => in_kernel(&expression::EXPRESSION),
        Production::MoreOrEnd => in_kernel(&expression::MORE_OR_END),
        Production::MoreOrSome => in_kernel(&expression::MORE_OR_SOME),
        Production::Both => in_kernel(&expression::BOTH),
        Production::MoreAndEnd => in_kernel(&expression::MORE_AND_END),
        Production::MoreAndSome => in_kernel(&expression::MORE_AND_SOME),
        Production::Comparison => in_kernel(&expression::COMPARISON),
        Production::ComparedNone => in_kernel(&expression::COMPARED_NONE),
        Production::ComparedEqual => in_kernel(&expression::COMPARED_EQUAL),
        Production::ComparedNotEqual => in_kernel(&expression::COMPARED_NOT_EQUAL),
        Production::ComparedLess => in_kernel(&expression::COMPARED_LESS),
        Production::ComparedLessEqual => in_kernel(&expression::COMPARED_LESS_EQUAL),
        Production::ComparedGreater => in_kernel(&expression::COMPARED_GREATER),
        Production::ComparedGreaterEqual => in_kernel(&expression::COMPARED_GREATER_EQUAL),
        Production::Sum => in_kernel(&expression::SUM),
        Production::MoreSumEnd => in_kernel(&expression::MORE_SUM_END),
        Production::MoreSumPlus => in_kernel(&expression::MORE_SUM_PLUS),
        Production::MoreSumMinus => in_kernel(&expression::MORE_SUM_MINUS),
        Production::Term => in_kernel(&expression::TERM),
        Production::MoreTermEnd => in_kernel(&expression::MORE_TERM_END),
        Production::MoreTermTimes => in_kernel(&expression::MORE_TERM_TIMES),
        Production::MoreTermOver => in_kernel(&expression::MORE_TERM_OVER),
        Production::MoreTermRemainder => in_kernel(&expression::MORE_TERM_REMAINDER),
        Production::UnaryMinus => in_kernel(&expression::UNARY_MINUS),
        Production::UnaryNot => in_kernel(&expression::UNARY_NOT),
        Production::UnaryAtom => in_kernel(&expression::UNARY_ATOM),
        Production::AtomNumber => in_kernel(&expression::ATOM_NUMBER),
        Production::AtomIndex => in_kernel(&expression::ATOM_INDEX),
        Production::AtomName => in_kernel(&expression::ATOM_NAME),
        Production::AtomParens => in_kernel(&expression::ATOM_PARENS),
        Production::AtomLen => in_kernel(&expression::ATOM_LEN),
        Production::AtomHas => in_kernel(&expression::ATOM_HAS),
        Production::AtomCount => in_kernel(&expression::ATOM_COUNT),
        Production::AtomAt => in_kernel(&expression::ATOM_AT),
        Production::PlaceNone => in_kernel(&expression::PLACE_NONE),
        Production::PlaceSome => in_kernel(&expression::PLACE_SOME),
        Production::ArrayStatement => in_script(&statement::ARRAY_STATEMENT),
        Production::ColumnStatement => in_script(&statement::COLUMN_STATEMENT),
        Production::ListStatement => in_script(&statement::LIST_STATEMENT),
        Production::ReferenceStatement => in_script(&statement::REFERENCE_STATEMENT),
        Production::MapStatement => in_script(&statement::MAP_STATEMENT),
        Production::StreamStatement => in_script(&statement::STREAM_STATEMENT),
        Production::SliceStatement => in_script(&statement::SLICE_STATEMENT),
        Production::ViewStatement => in_script(&statement::VIEW_STATEMENT),
        Production::CopyStatement => in_script(&statement::COPY_STATEMENT),
        Production::SetStatement => in_script(&statement::SET_STATEMENT),
        Production::AddToStatement => in_script(&statement::ADD_TO_STATEMENT),
        Production::PutStatement => in_script(&statement::PUT_STATEMENT),
        Production::RemoveFromStatement => in_script(&statement::REMOVE_FROM_STATEMENT),
        Production::ClearOutStatement => in_script(&statement::CLEAR_OUT_STATEMENT),
        Production::SetCapacityStatement => in_script(&statement::SET_CAPACITY_STATEMENT),
        Production::ScheduleStatement => in_script(&statement::SCHEDULE_STATEMENT),
        Production::CombineStatement => in_script(&statement::COMBINE_STATEMENT),
        Production::CompleteStatement => in_script(&statement::COMPLETE_STATEMENT),
        Production::DisposeStatement => in_script(&statement::DISPOSE_STATEMENT),
        Production::PrintStatement => in_script(&statement::PRINT_STATEMENT),
        Production::FlushStatement => in_script(&statement::FLUSH_STATEMENT),
        Production::FrameStatement => in_script(&statement::FRAME_STATEMENT),
        Production::RepeatStatement => in_script(&statement::REPEAT_STATEMENT),
        Production::WhenStatement => in_script(&statement::WHEN_STATEMENT),
        Production::LifeNone => in_script(&clause::LIFE_NONE),
        Production::LifeTemp => in_script(&clause::LIFE_TEMP),
        Production::LifeTempJob => in_script(&clause::LIFE_TEMP_JOB),
        Production::LifePersistent => in_script(&clause::LIFE_PERSISTENT),
        Production::SignedMinus => in_script(&clause::SIGNED_MINUS),
        Production::SignedPlain => in_script(&clause::SIGNED_PLAIN),
        Production::MaybeSignedNone => in_script(&clause::MAYBE_SIGNED_NONE),
        Production::MaybeSignedSome => in_script(&clause::MAYBE_SIGNED_SOME),
        Production::ArrayValuesNone => in_script(&clause::ARRAY_VALUES_NONE),
        Production::ArrayValuesSome => in_script(&clause::ARRAY_VALUES_SOME),
        Production::MoreValuesEnd => in_script(&clause::MORE_VALUES_END),
        Production::MoreValuesSome => in_script(&clause::MORE_VALUES_SOME),
        Production::ReferenceValueNone => in_script(&clause::REFERENCE_VALUE_NONE),
        Production::ReferenceValueSome => in_script(&clause::REFERENCE_VALUE_SOME),
        Production::ArgumentsNone => in_script(&clause::ARGUMENTS_NONE),
        Production::ArgumentsSome => in_script(&clause::ARGUMENTS_SOME),
        Production::MoreArgumentsEnd => in_script(&clause::MORE_ARGUMENTS_END),
        Production::MoreArgumentsSome => in_script(&clause::MORE_ARGUMENTS_SOME),
        Production::ArgumentName => in_script(&clause::ARGUMENT_NAME),
        Production::ArgumentSigned => in_script(&clause::ARGUMENT_SIGNED),
        Production::AutoNone => in_script(&clause::AUTO_NONE),
        Production::AutoSome => in_script(&clause::AUTO_SOME),
        Production::SizesNone => in_script(&clause::SIZES_NONE),
        Production::SizesLength => in_script(&clause::SIZES_LENGTH),
        Production::SizesDefer => in_script(&clause::SIZES_DEFER),
        Production::WaivedNone => in_script(&clause::WAIVED_NONE),
        Production::WaivedSome => in_script(&clause::WAIVED_SOME),
        Production::AfterNone => in_script(&clause::AFTER_NONE),
        Production::AfterSome => in_script(&clause::AFTER_SOME),
        Production::NamesEnd => in_script(&clause::NAMES_END),
        Production::NamesMore => in_script(&clause::NAMES_MORE),
        Production::DisposalNamed => in_script(&clause::DISPOSAL_NAMED),
        Production::DisposalAuto => in_script(&clause::DISPOSAL_AUTO),
        Production::DisposedNow => in_script(&clause::DISPOSED_NOW),
        Production::DisposedLater => in_script(&clause::DISPOSED_LATER),
        Production::TestEqual => in_script(&clause::TEST_EQUAL),
        Production::TestNotEqual => in_script(&clause::TEST_NOT_EQUAL),
        Production::TestLess => in_script(&clause::TEST_LESS),
        Production::TestLessEqual => in_script(&clause::TEST_LESS_EQUAL),
        Production::TestGreater => in_script(&clause::TEST_GREATER),
        Production::TestGreaterEqual => in_script(&clause::TEST_GREATER_EQUAL),
        Production::LinedEnd => in_script(&clause::LINED_END),
        Production::LinedLine => in_script(&clause::LINED_LINE),
        Production::LinedStatement => in_script(&clause::LINED_STATEMENT),
    }
}

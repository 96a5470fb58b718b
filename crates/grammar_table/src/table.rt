//! The table by which a nonterminal goes on.

ghost use Rattle.std.specs.Prelude.{◌≡◌};
ghost use Rattle.grammar_table.specs.Table.{choices_of, default_of};

use crate::choices;
use frame_grammar::{Nonterminal, Production, TokenKind};

/// The productions by which a nonterminal goes on before certain tokens.
#[tactic(auto, unfolding(crate::specs::Table::choices_of))]
pub fn choices(nonterminal: Nonterminal) -> &'static [(TokenKind, Production)]
    ensures { result.now ≡ choices_of nonterminal }
{
    match nonterminal {
        Nonterminal::File => &[],
        Nonterminal::Items => &choices::ITEMS,
        Nonterminal::AfterItem => &choices::AFTER_ITEM,
        Nonterminal::Kernel => &[],
        Nonterminal::Lines => &choices::LINES,
        Nonterminal::OpenKernel => &choices::OPEN_KERNEL,
        Nonterminal::Parameters => &choices::PARAMETERS,
        Nonterminal::MoreParameters => &choices::MORE_PARAMETERS,
        Nonterminal::Parameter => &[],
        Nonterminal::ParameterKind => &choices::PARAMETER_KIND,
        Nonterminal::Container => &choices::CONTAINER,
        Nonterminal::Width => &choices::WIDTH,
        Nonterminal::Block => &[],
        Nonterminal::Statements => &choices::STATEMENTS,
        Nonterminal::KernelStatement => &choices::KERNEL_STATEMENT,
        Nonterminal::Target => &choices::TARGET,
        Nonterminal::Value => &choices::VALUE,
        Nonterminal::AddedValue => &choices::ADDED_VALUE,
        Nonterminal::ElsePart => &choices::ELSE_PART,
        Nonterminal::Expression => &[],
        Nonterminal::MoreOr => &choices::MORE_OR,
        Nonterminal::Both => &[],
        Nonterminal::MoreAnd => &choices::MORE_AND,
        Nonterminal::Comparison => &[],
        Nonterminal::Compared => &choices::COMPARED,
        Nonterminal::Sum => &[],
        Nonterminal::MoreSum => &choices::MORE_SUM,
        Nonterminal::Term => &[],
        Nonterminal::MoreTerm => &choices::MORE_TERM,
        Nonterminal::Unary => &choices::UNARY,
        Nonterminal::Atom => &choices::ATOM,
        Nonterminal::Place => &choices::PLACE,
        Nonterminal::Statement => &choices::STATEMENT,
        Nonterminal::Life => &choices::LIFE,
        Nonterminal::Signed => &choices::SIGNED,
        Nonterminal::MaybeSigned => &choices::MAYBE_SIGNED,
        Nonterminal::ArrayValues => &choices::ARRAY_VALUES,
        Nonterminal::MoreValues => &choices::MORE_VALUES,
        Nonterminal::ReferenceValue => &choices::REFERENCE_VALUE,
        Nonterminal::Arguments => &choices::ARGUMENTS,
        Nonterminal::MoreArguments => &choices::MORE_ARGUMENTS,
        Nonterminal::Argument => &choices::ARGUMENT,
        Nonterminal::Auto => &choices::AUTO,
        Nonterminal::Sizes => &choices::SIZES,
        Nonterminal::Waived => &choices::WAIVED,
        Nonterminal::AfterNames => &choices::AFTER_NAMES,
        Nonterminal::Names => &choices::NAMES,
        Nonterminal::Disposal => &choices::DISPOSAL,
        Nonterminal::DisposedAfter => &choices::DISPOSED_AFTER,
        Nonterminal::Test => &choices::TEST,
        Nonterminal::Lined => &choices::LINED,
    }
}

/// The production by which it goes on before every other token, if there is one.
#[tactic(auto, unfolding(crate::specs::Table::default_of))]
pub fn default_production(nonterminal: Nonterminal) -> Option<Production>
    ensures { result ≡ default_of nonterminal }
{
    match nonterminal {
        Nonterminal::File => Some(Production::File),
        Nonterminal::Items => Some(Production::ItemsEnd),
        Nonterminal::AfterItem => Some(Production::AfterItemEnd),
        Nonterminal::Kernel => Some(Production::Kernel),
        Nonterminal::Lines => Some(Production::LinesEnd),
        Nonterminal::OpenKernel => None,
        Nonterminal::Parameters => Some(Production::ParametersNone),
        Nonterminal::MoreParameters => Some(Production::MoreParametersEnd),
        Nonterminal::Parameter => Some(Production::Parameter),
        Nonterminal::ParameterKind => None,
        Nonterminal::Container => None,
        Nonterminal::Width => Some(Production::WidthNone),
        Nonterminal::Block => Some(Production::Block),
        Nonterminal::Statements => Some(Production::StatementsEnd),
        Nonterminal::KernelStatement => None,
        Nonterminal::Target => None,
        Nonterminal::Value => Some(Production::ValueExpression),
        Nonterminal::AddedValue => Some(Production::AddedValueNone),
        Nonterminal::ElsePart => Some(Production::ElseNone),
        Nonterminal::Expression => Some(Production::Expression),
        Nonterminal::MoreOr => Some(Production::MoreOrEnd),
        Nonterminal::Both => Some(Production::Both),
        Nonterminal::MoreAnd => Some(Production::MoreAndEnd),
        Nonterminal::Comparison => Some(Production::Comparison),
        Nonterminal::Compared => Some(Production::ComparedNone),
        Nonterminal::Sum => Some(Production::Sum),
        Nonterminal::MoreSum => Some(Production::MoreSumEnd),
        Nonterminal::Term => Some(Production::Term),
        Nonterminal::MoreTerm => Some(Production::MoreTermEnd),
        Nonterminal::Unary => Some(Production::UnaryAtom),
        Nonterminal::Atom => None,
        Nonterminal::Place => Some(Production::PlaceNone),
        Nonterminal::Statement => None,
        Nonterminal::Life => Some(Production::LifeNone),
        Nonterminal::Signed => None,
        Nonterminal::MaybeSigned => Some(Production::MaybeSignedNone),
        Nonterminal::ArrayValues => Some(Production::ArrayValuesNone),
        Nonterminal::MoreValues => Some(Production::MoreValuesEnd),
        Nonterminal::ReferenceValue => Some(Production::ReferenceValueNone),
        Nonterminal::Arguments => Some(Production::ArgumentsNone),
        Nonterminal::MoreArguments => Some(Production::MoreArgumentsEnd),
        Nonterminal::Argument => Some(Production::ArgumentSigned),
        Nonterminal::Auto => Some(Production::AutoNone),
        Nonterminal::Sizes => Some(Production::SizesNone),
        Nonterminal::Waived => Some(Production::WaivedNone),
        Nonterminal::AfterNames => Some(Production::AfterNone),
        Nonterminal::Names => Some(Production::NamesEnd),
        Nonterminal::Disposal => None,
        Nonterminal::DisposedAfter => Some(Production::DisposedNow),
        Nonterminal::Test => None,
        Nonterminal::Lined => Some(Production::LinedEnd),
    }
}

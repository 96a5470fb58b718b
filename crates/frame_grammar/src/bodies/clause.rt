//! What the parts of a statement are made of.

use crate::TokenKind as K;
use crate::symbols::Symbol::{self, Action, Nonterminal, Terminal};
use crate::symbols::{Action as A, Nonterminal as N};

/// Life: nothing
pub const LIFE_NONE: [Symbol; 1] = [Action(A::LifeNone)];

/// Life: 'temp'
pub const LIFE_TEMP: [Symbol; 2] = [Terminal(K::Temp), Action(A::LifeTemp)];

/// Life: 'tempjob'
pub const LIFE_TEMP_JOB: [Symbol; 2] = [Terminal(K::TempJob), Action(A::LifeTempJob)];

/// Life: 'persistent'
pub const LIFE_PERSISTENT: [Symbol; 2] = [Terminal(K::Persistent), Action(A::LifePersistent)];

/// Signed: '-' Number
pub const SIGNED_MINUS: [Symbol; 5] = [
    Action(A::Operator),
    Terminal(K::Minus),
    Action(A::Number),
    Terminal(K::Number),
    Action(A::MinusNumber),
];

/// Signed: Number
pub const SIGNED_PLAIN: [Symbol; 3] = [
    Action(A::Number),
    Terminal(K::Number),
    Action(A::PlainNumber),
];

/// MaybeSigned: nothing
pub const MAYBE_SIGNED_NONE: [Symbol; 1] = [Action(A::NoNumber)];

/// MaybeSigned: Signed
pub const MAYBE_SIGNED_SOME: [Symbol; 1] = [Nonterminal(N::Signed)];

/// ArrayValues: nothing
pub const ARRAY_VALUES_NONE: [Symbol; 1] = [Action(A::NoValues)];

/// ArrayValues: '=' Signed MoreValues
pub const ARRAY_VALUES_SOME: [Symbol; 5] = [
    Terminal(K::Assign),
    Action(A::OpenValues),
    Nonterminal(N::Signed),
    Nonterminal(N::MoreValues),
    Action(A::CloseValues),
];

/// MoreValues: nothing
pub const MORE_VALUES_END: [Symbol; 0] = [];

/// MoreValues: Signed MoreValues
pub const MORE_VALUES_SOME: [Symbol; 2] = [Nonterminal(N::Signed), Nonterminal(N::MoreValues)];

/// ReferenceValue: nothing
pub const REFERENCE_VALUE_NONE: [Symbol; 1] = [Action(A::NoNumber)];

/// ReferenceValue: '=' Signed
pub const REFERENCE_VALUE_SOME: [Symbol; 2] = [Terminal(K::Assign), Nonterminal(N::Signed)];

/// Arguments: nothing
pub const ARGUMENTS_NONE: [Symbol; 0] = [];

/// Arguments: Argument MoreArguments
pub const ARGUMENTS_SOME: [Symbol; 2] = [Nonterminal(N::Argument), Nonterminal(N::MoreArguments)];

/// MoreArguments: nothing
pub const MORE_ARGUMENTS_END: [Symbol; 0] = [];

/// MoreArguments: ',' Argument MoreArguments
pub const MORE_ARGUMENTS_SOME: [Symbol; 3] = [
    Terminal(K::Comma),
    Nonterminal(N::Argument),
    Nonterminal(N::MoreArguments),
];

/// Argument: Name
pub const ARGUMENT_NAME: [Symbol; 3] = [
    Action(A::Name),
    Terminal(K::Name),
    Action(A::NameArgument),
];

/// Argument: Signed
pub const ARGUMENT_SIGNED: [Symbol; 2] = [Nonterminal(N::Signed), Action(A::NumberArgument)];

/// Auto: nothing
pub const AUTO_NONE: [Symbol; 1] = [Action(A::NotAuto)];

/// Auto: 'auto'
pub const AUTO_SOME: [Symbol; 2] = [Terminal(K::Auto), Action(A::Auto)];

/// Sizes: nothing
pub const SIZES_NONE: [Symbol; 1] = [Action(A::SizesNone)];

/// Sizes: Number Number
pub const SIZES_LENGTH: [Symbol; 5] = [
    Action(A::Number),
    Terminal(K::Number),
    Action(A::Number),
    Terminal(K::Number),
    Action(A::SizesLength),
];

/// Sizes: 'defer' Name Number
pub const SIZES_DEFER: [Symbol; 6] = [
    Terminal(K::Defer),
    Action(A::Name),
    Terminal(K::Name),
    Action(A::Number),
    Terminal(K::Number),
    Action(A::SizesDefer),
];

/// Waived: nothing
pub const WAIVED_NONE: [Symbol; 1] = [Action(A::WaivedNone)];

/// Waived: 'waive' Name Names
pub const WAIVED_SOME: [Symbol; 6] = [
    Terminal(K::Waive),
    Action(A::OpenNames),
    Action(A::Name),
    Terminal(K::Name),
    Nonterminal(N::Names),
    Action(A::Waived),
];

/// AfterNames: nothing
pub const AFTER_NONE: [Symbol; 1] = [Action(A::AfterNone)];

/// AfterNames: 'after' Name Names
pub const AFTER_SOME: [Symbol; 6] = [
    Terminal(K::After),
    Action(A::OpenNames),
    Action(A::Name),
    Terminal(K::Name),
    Nonterminal(N::Names),
    Action(A::After),
];

/// Names: nothing
pub const NAMES_END: [Symbol; 0] = [];

/// Names: Name Names
pub const NAMES_MORE: [Symbol; 3] = [Action(A::Name), Terminal(K::Name), Nonterminal(N::Names)];

/// Disposal: Name DisposedAfter
pub const DISPOSAL_NAMED: [Symbol; 3] = [
    Action(A::Name),
    Terminal(K::Name),
    Nonterminal(N::DisposedAfter),
];

/// Disposal: 'auto' Name 'as' Name
pub const DISPOSAL_AUTO: [Symbol; 7] = [
    Terminal(K::Auto),
    Action(A::Name),
    Terminal(K::Name),
    Terminal(K::As),
    Action(A::Name),
    Terminal(K::Name),
    Action(A::DisposeAutoStatement),
];

/// DisposedAfter: nothing
pub const DISPOSED_NOW: [Symbol; 1] = [Action(A::DisposeStatement)];

/// DisposedAfter: 'after' Name Names 'as' Name
pub const DISPOSED_LATER: [Symbol; 10] = [
    Terminal(K::After),
    Action(A::OpenNames),
    Action(A::Name),
    Terminal(K::Name),
    Nonterminal(N::Names),
    Action(A::After),
    Terminal(K::As),
    Action(A::Name),
    Terminal(K::Name),
    Action(A::DisposeAfterStatement),
];

/// Test: '=='
pub const TEST_EQUAL: [Symbol; 2] = [Action(A::Operator), Terminal(K::Equal)];

/// Test: '!='
pub const TEST_NOT_EQUAL: [Symbol; 2] = [Action(A::Operator), Terminal(K::NotEqual)];

/// Test: '<'
pub const TEST_LESS: [Symbol; 2] = [Action(A::Operator), Terminal(K::Less)];

/// Test: '<='
pub const TEST_LESS_EQUAL: [Symbol; 2] = [Action(A::Operator), Terminal(K::LessEqual)];

/// Test: '>'
pub const TEST_GREATER: [Symbol; 2] = [Action(A::Operator), Terminal(K::Greater)];

/// Test: '>='
pub const TEST_GREATER_EQUAL: [Symbol; 2] = [Action(A::Operator), Terminal(K::GreaterEqual)];

/// Lined: nothing
pub const LINED_END: [Symbol; 0] = [];

/// Lined: Line Lined
pub const LINED_LINE: [Symbol; 2] = [Terminal(K::Line), Nonterminal(N::Lined)];

/// Lined: Statement Line Lined
pub const LINED_STATEMENT: [Symbol; 4] = [
    Action(A::StartStatement),
    Nonterminal(N::Statement),
    Terminal(K::Line),
    Nonterminal(N::Lined),
];

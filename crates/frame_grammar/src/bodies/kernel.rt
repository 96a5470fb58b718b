//! What kernels are made of. Line ends may follow each terminal.

use crate::TokenKind as K;
use crate::symbols::Symbol::{self, Action, Nonterminal, Terminal};
use crate::symbols::{Action as A, Nonterminal as N};

/// OpenKernel: 'job' Name '(' Parameters ')' '{' Statements
pub const OPEN_JOB: [Symbol; 11] = [
    Action(A::OpenJob),
    Terminal(K::Job),
    Action(A::Name),
    Terminal(K::Name),
    Terminal(K::OpenParen),
    Nonterminal(N::Parameters),
    Terminal(K::CloseParen),
    Terminal(K::OpenBrace),
    Action(A::OpenBody),
    Nonterminal(N::Statements),
    Action(A::CloseKernel),
];

/// OpenKernel: 'parallel' Name '(' Parameters ')' '{' Statements
pub const OPEN_PARALLEL: [Symbol; 11] = [
    Action(A::OpenParallel),
    Terminal(K::Parallel),
    Action(A::Name),
    Terminal(K::Name),
    Terminal(K::OpenParen),
    Nonterminal(N::Parameters),
    Terminal(K::CloseParen),
    Terminal(K::OpenBrace),
    Action(A::OpenBody),
    Nonterminal(N::Statements),
    Action(A::CloseKernel),
];

/// Parameters: nothing
pub const PARAMETERS_NONE: [Symbol; 0] = [];

/// Parameters: Parameter MoreParameters
pub const PARAMETERS_SOME: [Symbol; 2] = [
    Nonterminal(N::Parameter),
    Nonterminal(N::MoreParameters),
];

/// MoreParameters: nothing
pub const MORE_PARAMETERS_END: [Symbol; 0] = [];

/// MoreParameters: ',' Parameter MoreParameters
pub const MORE_PARAMETERS: [Symbol; 3] = [
    Terminal(K::Comma),
    Nonterminal(N::Parameter),
    Nonterminal(N::MoreParameters),
];

/// Parameter: Name ':' ParameterKind
pub const PARAMETER: [Symbol; 5] = [
    Action(A::Name),
    Terminal(K::Name),
    Terminal(K::Colon),
    Nonterminal(N::ParameterKind),
    Action(A::Parameter),
];

/// ParameterKind: 'int'
pub const INT_PARAMETER: [Symbol; 2] = [Terminal(K::Int), Action(A::IntParameter)];

/// ParameterKind: 'ro' Container
pub const READ_PARAMETER: [Symbol; 3] = [
    Terminal(K::Ro),
    Action(A::ReadParameter),
    Nonterminal(N::Container),
];

/// ParameterKind: 'wo' Container
pub const WRITE_PARAMETER: [Symbol; 3] = [
    Terminal(K::Wo),
    Action(A::WriteParameter),
    Nonterminal(N::Container),
];

/// ParameterKind: 'rw' Container
pub const READ_WRITE_PARAMETER: [Symbol; 3] = [
    Terminal(K::Rw),
    Action(A::ReadWriteParameter),
    Nonterminal(N::Container),
];

/// Container: 'array' Width
pub const ARRAY_CONTAINER: [Symbol; 3] = [
    Terminal(K::Array),
    Action(A::ArrayContainer),
    Nonterminal(N::Width),
];

/// Container: 'list'
pub const LIST_CONTAINER: [Symbol; 2] = [Terminal(K::List), Action(A::ListContainer)];

/// Container: 'ref'
pub const REF_CONTAINER: [Symbol; 2] = [Terminal(K::Ref), Action(A::RefContainer)];

/// Container: 'map'
pub const MAP_CONTAINER: [Symbol; 2] = [Terminal(K::Map), Action(A::MapContainer)];

/// Container: 'stream'
pub const STREAM_CONTAINER: [Symbol; 2] = [Action(A::StreamContainer), Terminal(K::Stream)];

/// Width: nothing
pub const WIDTH_NONE: [Symbol; 0] = [];

/// Width: 'by' Number
pub const WIDTH_SOME: [Symbol; 4] = [
    Action(A::Width),
    Terminal(K::By),
    Action(A::Number),
    Terminal(K::Number),
];

/// Block: '{' Statements '}'
pub const BLOCK: [Symbol; 5] = [
    Terminal(K::OpenBrace),
    Action(A::OpenBlock),
    Nonterminal(N::Statements),
    Action(A::CloseBlock),
    Terminal(K::CloseBrace),
];

/// Statements: nothing
pub const STATEMENTS_END: [Symbol; 0] = [];

/// Statements: KernelStatement Statements
pub const STATEMENTS_MORE: [Symbol; 3] = [
    Action(A::StartStatement),
    Nonterminal(N::KernelStatement),
    Nonterminal(N::Statements),
];

/// KernelStatement: 'var' Name '=' Expression ';'
pub const VAR_STATEMENT: [Symbol; 7] = [
    Terminal(K::Var),
    Action(A::Name),
    Terminal(K::Name),
    Terminal(K::Assign),
    Nonterminal(N::Expression),
    Terminal(K::Semicolon),
    Action(A::VarStatement),
];

/// KernelStatement: Name Target ';'
pub const NAME_STATEMENT: [Symbol; 4] = [
    Action(A::Name),
    Terminal(K::Name),
    Nonterminal(N::Target),
    Terminal(K::Semicolon),
];

/// KernelStatement: 'add' '(' Name ',' Expression AddedValue ')' ';'
pub const ADD_STATEMENT: [Symbol; 9] = [
    Terminal(K::Add),
    Terminal(K::OpenParen),
    Action(A::Name),
    Terminal(K::Name),
    Terminal(K::Comma),
    Nonterminal(N::Expression),
    Nonterminal(N::AddedValue),
    Terminal(K::CloseParen),
    Terminal(K::Semicolon),
];

/// KernelStatement: 'remove' '(' Name ',' Expression ')' ';'
pub const REMOVE_STATEMENT: [Symbol; 9] = [
    Terminal(K::Remove),
    Terminal(K::OpenParen),
    Action(A::Name),
    Terminal(K::Name),
    Terminal(K::Comma),
    Nonterminal(N::Expression),
    Terminal(K::CloseParen),
    Terminal(K::Semicolon),
    Action(A::RemoveStatement),
];

/// KernelStatement: 'clear' '(' Name ')' ';'
pub const CLEAR_STATEMENT: [Symbol; 7] = [
    Terminal(K::Clear),
    Terminal(K::OpenParen),
    Action(A::Name),
    Terminal(K::Name),
    Terminal(K::CloseParen),
    Terminal(K::Semicolon),
    Action(A::ClearStatement),
];

/// KernelStatement: 'write' '(' Name ',' Expression ')' ';'
pub const WRITE_STATEMENT: [Symbol; 9] = [
    Terminal(K::Write),
    Terminal(K::OpenParen),
    Action(A::Name),
    Terminal(K::Name),
    Terminal(K::Comma),
    Nonterminal(N::Expression),
    Terminal(K::CloseParen),
    Terminal(K::Semicolon),
    Action(A::WriteStatement),
];

/// KernelStatement: 'begin' Name '[' Expression ']' Block
pub const BEGIN_STATEMENT: [Symbol; 9] = [
    Terminal(K::Begin),
    Action(A::Name),
    Terminal(K::Name),
    Terminal(K::OpenBracket),
    Nonterminal(N::Expression),
    Terminal(K::CloseBracket),
    Action(A::BeginHead),
    Nonterminal(N::Block),
    Action(A::BeginStatement),
];

/// KernelStatement: 'if' Expression Block ElsePart
pub const IF_STATEMENT: [Symbol; 5] = [
    Terminal(K::If),
    Nonterminal(N::Expression),
    Action(A::IfHead),
    Nonterminal(N::Block),
    Nonterminal(N::ElsePart),
];

/// KernelStatement: 'for' Name 'in' Expression '..' Expression Block
pub const FOR_STATEMENT: [Symbol; 10] = [
    Terminal(K::For),
    Action(A::Name),
    Terminal(K::Name),
    Terminal(K::In),
    Nonterminal(N::Expression),
    Terminal(K::DotDot),
    Nonterminal(N::Expression),
    Action(A::ForHead),
    Nonterminal(N::Block),
    Action(A::ForStatement),
];

/// KernelStatement: 'while' Expression Block
pub const WHILE_STATEMENT: [Symbol; 5] = [
    Terminal(K::While),
    Nonterminal(N::Expression),
    Action(A::WhileHead),
    Nonterminal(N::Block),
    Action(A::WhileStatement),
];

/// Target: '=' Value
pub const TARGET_NAME: [Symbol; 2] = [Terminal(K::Assign), Nonterminal(N::Value)];

/// Target: '[' Expression ']' '=' Expression
pub const TARGET_PLACE: [Symbol; 6] = [
    Terminal(K::OpenBracket),
    Nonterminal(N::Expression),
    Terminal(K::CloseBracket),
    Terminal(K::Assign),
    Nonterminal(N::Expression),
    Action(A::SetPlace),
];

/// Value: Expression
pub const VALUE_EXPRESSION: [Symbol; 2] = [Nonterminal(N::Expression), Action(A::SetName)];

/// Value: 'try_add' '(' Name ',' Expression ',' Expression ')'
pub const VALUE_TRY_ADD: [Symbol; 10] = [
    Terminal(K::TryAdd),
    Terminal(K::OpenParen),
    Action(A::Name),
    Terminal(K::Name),
    Terminal(K::Comma),
    Nonterminal(N::Expression),
    Terminal(K::Comma),
    Nonterminal(N::Expression),
    Terminal(K::CloseParen),
    Action(A::SetTryAdd),
];

/// Value: 'remove' '(' Name ',' Expression ')'
pub const VALUE_REMOVE: [Symbol; 8] = [
    Terminal(K::Remove),
    Terminal(K::OpenParen),
    Action(A::Name),
    Terminal(K::Name),
    Terminal(K::Comma),
    Nonterminal(N::Expression),
    Terminal(K::CloseParen),
    Action(A::SetRemove),
];

/// AddedValue: nothing
pub const ADDED_VALUE_NONE: [Symbol; 1] = [Action(A::AddItem)];

/// AddedValue: ',' Expression
pub const ADDED_VALUE_SOME: [Symbol; 3] = [
    Terminal(K::Comma),
    Nonterminal(N::Expression),
    Action(A::AddPair),
];

/// ElsePart: nothing
pub const ELSE_NONE: [Symbol; 1] = [Action(A::IfStatement)];

/// ElsePart: 'else' Block
pub const ELSE_SOME: [Symbol; 3] = [
    Terminal(K::Else),
    Nonterminal(N::Block),
    Action(A::IfElseStatement),
];

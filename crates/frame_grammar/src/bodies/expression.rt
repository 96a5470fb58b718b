//! What expressions are made of. Line ends may follow each terminal.

use crate::TokenKind as K;
use crate::symbols::Symbol::{self, Action, Nonterminal, Terminal};
use crate::symbols::{Action as A, Nonterminal as N};

/// Expression: Both MoreOr
pub const EXPRESSION: [Symbol; 2] = [Nonterminal(N::Both), Nonterminal(N::MoreOr)];

/// MoreOr: nothing
pub const MORE_OR_END: [Symbol; 0] = [];

/// MoreOr: '||' Both MoreOr
pub const MORE_OR_SOME: [Symbol; 5] = [
    Action(A::Operator),
    Terminal(K::OrOr),
    Nonterminal(N::Both),
    Action(A::Binary),
    Nonterminal(N::MoreOr),
];

/// Both: Comparison MoreAnd
pub const BOTH: [Symbol; 2] = [Nonterminal(N::Comparison), Nonterminal(N::MoreAnd)];

/// MoreAnd: nothing
pub const MORE_AND_END: [Symbol; 0] = [];

/// MoreAnd: '&&' Comparison MoreAnd
pub const MORE_AND_SOME: [Symbol; 5] = [
    Action(A::Operator),
    Terminal(K::AndAnd),
    Nonterminal(N::Comparison),
    Action(A::Binary),
    Nonterminal(N::MoreAnd),
];

/// Comparison: Sum Compared
pub const COMPARISON: [Symbol; 2] = [Nonterminal(N::Sum), Nonterminal(N::Compared)];

/// Compared: nothing
pub const COMPARED_NONE: [Symbol; 0] = [];

/// Compared: '==' Sum
pub const COMPARED_EQUAL: [Symbol; 4] = [
    Action(A::Operator),
    Terminal(K::Equal),
    Nonterminal(N::Sum),
    Action(A::Binary),
];

/// Compared: '!=' Sum
pub const COMPARED_NOT_EQUAL: [Symbol; 4] = [
    Action(A::Operator),
    Terminal(K::NotEqual),
    Nonterminal(N::Sum),
    Action(A::Binary),
];

/// Compared: '<' Sum
pub const COMPARED_LESS: [Symbol; 4] = [
    Action(A::Operator),
    Terminal(K::Less),
    Nonterminal(N::Sum),
    Action(A::Binary),
];

/// Compared: '<=' Sum
pub const COMPARED_LESS_EQUAL: [Symbol; 4] = [
    Action(A::Operator),
    Terminal(K::LessEqual),
    Nonterminal(N::Sum),
    Action(A::Binary),
];

/// Compared: '>' Sum
pub const COMPARED_GREATER: [Symbol; 4] = [
    Action(A::Operator),
    Terminal(K::Greater),
    Nonterminal(N::Sum),
    Action(A::Binary),
];

/// Compared: '>=' Sum
pub const COMPARED_GREATER_EQUAL: [Symbol; 4] = [
    Action(A::Operator),
    Terminal(K::GreaterEqual),
    Nonterminal(N::Sum),
    Action(A::Binary),
];

/// Sum: Term MoreSum
pub const SUM: [Symbol; 2] = [Nonterminal(N::Term), Nonterminal(N::MoreSum)];

/// MoreSum: nothing
pub const MORE_SUM_END: [Symbol; 0] = [];

/// MoreSum: '+' Term MoreSum
pub const MORE_SUM_PLUS: [Symbol; 5] = [
    Action(A::Operator),
    Terminal(K::Plus),
    Nonterminal(N::Term),
    Action(A::Binary),
    Nonterminal(N::MoreSum),
];

/// MoreSum: '-' Term MoreSum
pub const MORE_SUM_MINUS: [Symbol; 5] = [
    Action(A::Operator),
    Terminal(K::Minus),
    Nonterminal(N::Term),
    Action(A::Binary),
    Nonterminal(N::MoreSum),
];

/// Term: Unary MoreTerm
pub const TERM: [Symbol; 2] = [Nonterminal(N::Unary), Nonterminal(N::MoreTerm)];

/// MoreTerm: nothing
pub const MORE_TERM_END: [Symbol; 0] = [];

/// MoreTerm: '*' Unary MoreTerm
pub const MORE_TERM_TIMES: [Symbol; 5] = [
    Action(A::Operator),
    Terminal(K::Star),
    Nonterminal(N::Unary),
    Action(A::Binary),
    Nonterminal(N::MoreTerm),
];

/// MoreTerm: '/' Unary MoreTerm
pub const MORE_TERM_OVER: [Symbol; 5] = [
    Action(A::Operator),
    Terminal(K::Slash),
    Nonterminal(N::Unary),
    Action(A::Binary),
    Nonterminal(N::MoreTerm),
];

/// MoreTerm: '%' Unary MoreTerm
pub const MORE_TERM_REMAINDER: [Symbol; 5] = [
    Action(A::Operator),
    Terminal(K::Percent),
    Nonterminal(N::Unary),
    Action(A::Binary),
    Nonterminal(N::MoreTerm),
];

/// Unary: '-' Unary
pub const UNARY_MINUS: [Symbol; 4] = [
    Action(A::Operator),
    Terminal(K::Minus),
    Nonterminal(N::Unary),
    Action(A::Unary),
];

/// Unary: '!' Unary
pub const UNARY_NOT: [Symbol; 4] = [
    Action(A::Operator),
    Terminal(K::Not),
    Nonterminal(N::Unary),
    Action(A::Unary),
];

/// Unary: Atom
pub const UNARY_ATOM: [Symbol; 1] = [Nonterminal(N::Atom)];

/// Atom: Number
pub const ATOM_NUMBER: [Symbol; 3] = [
    Action(A::Number),
    Terminal(K::Number),
    Action(A::NumberAtom),
];

/// Atom: 'index'
pub const ATOM_INDEX: [Symbol; 3] = [
    Action(A::StartAtom),
    Terminal(K::Index),
    Action(A::IndexAtom),
];

/// Atom: Name Place
pub const ATOM_NAME: [Symbol; 4] = [
    Action(A::StartAtom),
    Action(A::Name),
    Terminal(K::Name),
    Nonterminal(N::Place),
];

/// Atom: '(' Expression ')'
pub const ATOM_PARENS: [Symbol; 3] = [
    Terminal(K::OpenParen),
    Nonterminal(N::Expression),
    Terminal(K::CloseParen),
];

/// Atom: 'len' '(' Name ')'
pub const ATOM_LEN: [Symbol; 7] = [
    Action(A::StartAtom),
    Terminal(K::Len),
    Terminal(K::OpenParen),
    Action(A::Name),
    Terminal(K::Name),
    Terminal(K::CloseParen),
    Action(A::LenAtom),
];

/// Atom: 'has' '(' Name ',' Expression ')'
pub const ATOM_HAS: [Symbol; 9] = [
    Action(A::StartAtom),
    Terminal(K::Has),
    Terminal(K::OpenParen),
    Action(A::Name),
    Terminal(K::Name),
    Terminal(K::Comma),
    Nonterminal(N::Expression),
    Terminal(K::CloseParen),
    Action(A::HasAtom),
];

/// Atom: 'count' '(' Name ',' Expression ')'
pub const ATOM_COUNT: [Symbol; 9] = [
    Action(A::StartAtom),
    Terminal(K::Count),
    Terminal(K::OpenParen),
    Action(A::Name),
    Terminal(K::Name),
    Terminal(K::Comma),
    Nonterminal(N::Expression),
    Terminal(K::CloseParen),
    Action(A::CountAtom),
];

/// Atom: 'at' '(' Name ',' Expression ',' Expression ')'
pub const ATOM_AT: [Symbol; 11] = [
    Action(A::StartAtom),
    Terminal(K::At),
    Terminal(K::OpenParen),
    Action(A::Name),
    Terminal(K::Name),
    Terminal(K::Comma),
    Nonterminal(N::Expression),
    Terminal(K::Comma),
    Nonterminal(N::Expression),
    Terminal(K::CloseParen),
    Action(A::AtAtom),
];

/// Place: nothing
pub const PLACE_NONE: [Symbol; 1] = [Action(A::NameAtom)];

/// Place: '[' Expression ']'
pub const PLACE_SOME: [Symbol; 4] = [
    Terminal(K::OpenBracket),
    Nonterminal(N::Expression),
    Terminal(K::CloseBracket),
    Action(A::PlaceAtom),
];

//! The grammar of files, kernels and scripts alike: the kinds of tokens, the symbols, and the productions with what
//! each of them makes its nonterminal of.
//!
//! What a sentence is, and which events it has, follows from these alone (specs/Grammar, Sentences). By which
//! production a parser goes on stands in `grammar_table`. Nothing is allocated here.
#![tactic(auto)]

mod bodies;
mod symbols;
mod token_at;
mod token_kind;

pub use bodies::{ProductionBody, body};
pub use symbols::{Action, Event, Nonterminal, Production, Symbol};
pub use token_at::TokenAt;
pub use token_kind::{HasKind, TokenKind};

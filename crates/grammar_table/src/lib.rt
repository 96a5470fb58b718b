//! The grammar as a table: by which production a nonterminal goes on before a token, and the stack that a parser goes
//! on with.
//!
//! A file is parsed with one token ahead and no way back. That the table says enough for it is computed: what each
//! nonterminal may begin with, and what may follow it, is checked against every production (proofs/Checks). What a
//! parser's stack stands for, and what a step may do to it, is said here too (specs/Stack); the parser itself stands in
//! `frame_parser`.
#![tactic(auto)]

mod choices;
mod prediction;
mod stack;
mod stack_symbol;
mod table;

pub use prediction::predict;
pub use stack::{push_body, push_rest};
pub use stack_symbol::{StackSymbol, alone, takes_line};

//! The tokens of a file.
//!
//! `lex` finds the tokens of a file, from left to right, at each place the longest that begins there. A token is kept
//! as a `Mark` of 32 bits: its kind and the place of its first byte. Where it ends is read again in the file, and its
//! line is counted. Lexing ends after the first byte that begins no token, since no sentence goes on there. It takes
//! time in the number of bytes, and four bytes of memory for each token, however the file is made.
#![tactic(auto)]

mod decimal;
mod lexer;
mod mark;
mod spelling;
mod token;
mod word;

pub use lexer::lex;
pub use mark::{Mark, is_same, line_at, lines_in};
pub use token::Token;

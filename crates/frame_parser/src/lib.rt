//! A predictive parser of files and kernels, with a stack of its own and no recursion.
//!
//! `parse` answers the one sentence that tokens begin with and its events, each as a `Note` of 32 bits, or the first
//! token after which no sentence can follow. What a production does to the stack it takes from the table of
//! `grammar_table`; the steps that long files are made of it knows without the table (`shortcuts`, `levels`,
//! `statements`, `operands`). Whole lines it takes at once (`lines`), some of them phrase by phrase (`schedules`,
//! `arrays`), and in any other line the values of an array (`values`). Each of these is proved to do what the table
//! would. The stack and the notes grow with the tokens, so a deep text takes memory and no call stack.
#![tactic(auto)]

mod arrays;
mod levels;
mod lines;
mod note;
mod operands;
mod parser;
mod phrases;
mod schedules;
mod shortcuts;
mod stack;
mod statements;
mod values;

pub use note::Note;
pub use parser::{ParseError, Sentence, parse};

//! The words of the command: a script with or without a table, or a script that is made from two numbers.
//!
//! [`read_words`] first tests the words, from left to right and without memory, and only then has `clap` read them. So
//! a faulty command is never answered as out of memory, and of accepted words `clap` refuses none for another cause.
//! Both are exact: `specs/Words` says which words are of the command and which it is, and says nothing of `clap`.
//!
//! `--workers`, `--gen` and `--jobs` take a value, as the next word or after `=`; `--depth` takes none. Each may stand
//! anywhere, once. Two other words at most are names of files; none begins with `-`.
#![tactic(auto)]

mod command;
mod parsing;
mod place;
mod progress;
mod reading;
mod spelling;

pub use command::{Command, WordsFault};
pub use reading::read_words;

//! The lines of a script that a parser may take at once: their tokens, and what is noted of them.
//!
//! Most lines of long scripts are one of few, but for their names and numbers: `set a 5 = 6`, `print a`. They stand
//! here whole (`statements`). The lines of `schedule` have any number of arguments, and wait for any number of jobs,
//! and those of `array` may have any number of values, so they stand here phrase by phrase (`schedules`, `arrays`).
//! That the table of `grammar_table` does the same with their tokens is computed for each of them
//! (proofs/StatementLines, SchedulePhrases, ArrayPhrases); what follows from it for a parser is said in specs/Lines.
//! The parser itself stands in `frame_parser`. Nothing is allocated here.
#![tactic(auto)]

pub mod arrays;
mod kinds;
pub mod schedules;
pub mod statements;

pub use kinds::are_at;

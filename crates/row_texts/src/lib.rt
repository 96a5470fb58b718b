//! Tables of tests as texts: a row a line, its halves parted by a bar, and escapes for what can't stand in a line.
//!
//! A test goes through the lines of a constant. Each with a bar is a row: what is wanted, a bar, and what it is wanted
//! of, or the other way round. Empty lines and comments are passed over; any other line is no row, and fails the test,
//! as a table without a row does. A table of pairs would say the same, but the checker goes through an array row by
//! row, and a row costs it 30 times what a line of a constant does.
//!
//! `specs/Bars` says where the halves part, `specs/Rows` which lines are passed over, `specs/Tables` which texts have a
//! row, `specs/Escapes` what bytes a text stands for.
#![tactic(auto)]

mod bars;
mod escapes;
mod rows;
mod tables;
#[cfg(test)]
mod tests;

pub use bars::halves;
pub use escapes::unescaped;
pub use rows::{row, same};
pub use tables::table;

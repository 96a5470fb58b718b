//! Scripts made from two numbers: large frames to run and to measure, of which each is the same everywhere.
//!
//! A script makes eight arrays of 1,024 elements and fills them. Then come so many jobs as the second number says, each
//! of which reads one array and writes another; which ones, and in what batches, is drawn from the first number. In the
//! end all elements are added up and printed. Such a script has sixteen jobs more, and no statement of it is refused.
//!
//! `specs/` says which text this is: `Draws` (the numbers), `Lines` (each line) and `Scripts` (all of them). `Worked`
//! has the numbers of one script, which were worked out by hand.
#![tactic(auto)]

mod draws;
pub mod laws;
mod lines;
mod mix;
mod script;

pub use script::gen_script;

//! What runs a plan on a memory and says its lines.
//!
//! [`run_segment`] runs the operations between two jobs, on whatever memory the segment was lent, and says their lines.
//! It doesn't care who runs the jobs: `steal_pool` does so with workers, and [`run_alone`] runs a whole plan on the
//! caller's own thread, its pieces in script order, one after another.
//!
//! **Lines wait.** They are put into one buffer of the run, which goes to the sink when it is full and where
//! [`flush_lines`] is called. Whoever runs a plan flushes it before he waits, and at the end.
//!
//! **Cells.** A run alone begins on the cells that the plan has at first, and on 0 behind them ([`fresh_cells`]). These
//! are what the section before a test left, so a section after one costs one pass over the words.
//!
//! **Faults.** A mark that is handed on says whether a write failed. After that nothing is written, what waited is
//! lost, and all pieces are run all the same: the report is that of the whole run. `specs/Says` says so of each step,
//! and two steps one after the other are one of the joined text.
//!
//! **Cost.** An operation costs what it does, and the bytes of its line are copied once. At the last segment the own
//! words of each piece of a job are read, for the traps. [`run_alone`] goes through the pieces of a job where a segment
//! starts it. Nothing here waits or starts a thread, and only [`fresh_cells`] takes memory, where the list is short.
//!
//! A script reaches this crate as a well ordered plan alone, so the operations fit their containers, the counts fit
//! their types, and nothing is tested twice.
#![tactic(auto)]

mod alone;
mod flush;
mod fresh;
mod lines;
mod run_end;
mod segment;
mod tally;

pub use alone::run_alone;
pub use flush::{flush_lines, say_traps};
pub use fresh::fresh_cells;
pub use run_end::RunEnd;
pub use segment::run_segment;
pub use tally::{no_traps, with_refused};

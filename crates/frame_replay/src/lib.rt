//! Runs of a plan as lists of events, replayed one after another on plain memory.
//!
//! [`CoreState`] has what is ended, what is leased and the cells; its `step` does what an event says where that is
//! legal, and [`replay`] goes through a list. Each state stands for a state of the laws (`specs/States`), so after any
//! legal list the merge holds, and a run that ended has the cells of script order. It is for tests and for readers of
//! the laws: boards run plans. A whole run takes time that grows with the square of the number of pieces, and a Take
//! copies all cells.
#![tactic(auto)]

mod order;
mod replaying;
mod state;
mod steps;
mod writing;

pub use replaying::replay;
pub use state::CoreState;

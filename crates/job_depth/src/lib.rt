//! How deep a planned frame is: how many rounds it takes where the pieces of a round run at once.
//!
//! [`depth`] gives each job its level, which is the number of jobs of the longest chain that ends with it. The pieces
//! of one level wait for nothing of that level, so a frame takes as many rounds as its highest level where there is a
//! worker for each piece, and no plan takes fewer. With fewer workers the report says how many rounds the levels take
//! one after another, and a number below which no plan goes. [`print_depth`] writes it as four lines.
//!
//! A job waits directly for its dependencies, and for every job that was completed before it was scheduled. Levels are
//! found in one pass over the segments, in time linear in the jobs, what they depend on and what segments wait for, and
//! each job's own pieces are counted once. Nothing is run.
//!
//! `specs/` says what is promised: `Rounds` (plans of rounds), `Chains` (chains and levels), `Depths` (the report) and
//! `Texts` (its lines). These definitions speak of pieces and of what leads to what, not of how a level is found.
#![tactic(auto)]

mod chain;
mod levels;
mod measure;
mod printing;
mod report;
mod rounds;

pub use measure::depth;
pub use printing::print_depth;
pub use report::Depth;

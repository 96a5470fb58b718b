//! The core of the runtime: a planned frame, what its pieces touch and do, and the boards on which workers run them.
//!
//! A [`Plan`] is plain data. Its pieces are the batches of its jobs, and the segments of the script between them.
//! [`apply_op`] does one statement of a segment over any memory; `piece_run` runs a piece of a job, and notes its traps
//! by [`write_notes`]. A [`Board`] is where workers begin, count and open pieces, and a [`Lease`] is the memory of a
//! piece that was begun. A plan has the code of its kernels beside them, so that what runs it compiles nothing.
//!
//! A piece has three names, which give one another (`laws::pieces_are_named`): most calls take its number, the laws of
//! the merge its place in script order, and definitions what it is of ([`Piece`]).
//!
//! [`touches`] alone takes memory. [`apply_op`] is one match. [`write_notes`] writes one word where an index trapped
//! and none else. A lease tests nothing: what a piece may touch is known before.
//!
//! A script reaches this crate as a plan alone, and that the plan is well ordered is a condition of the calls. `specs/`
//! says what a plan means, in this order: `Names` and `Pieces` (what its numbers name, script order, places), `Touches`
//! and `Operations` (what an operation touches, does and answers), `Effects` (what a piece touches and makes of the
//! cells), `Graphs` (the run in script order), `Reading` and `Output` (lines, refused statements, traps), `Ordered`
//! (when a plan is well ordered), `Know` (what a seat knows) and `Laws`, `Framed`, `Touched`, `Tallies` (what follows).
#![tactic(auto)]

mod board;
mod event;
mod footprint;
pub mod laws;
mod lease;
mod lookup;
mod notes;
mod operations;
mod piece;
mod plan;
mod plan_name;
mod report;
mod spans;
mod touch;
mod trap_numbers;

pub use board::Board;
pub use event::{CoreFault, Event};
pub use footprint::touches;
pub use lease::{Holding, Lease};
pub use notes::{read_notes, write_notes};
pub use operations::apply_op;
pub use piece::Piece;
pub use plan::{Act, JobPlan, Op, Plan, Segment};
pub use plan_name::PlanName;
pub use report::Report;
pub use touch::Touch;

//! The run of one piece of a job of a plan, over any memory: the code of the job's kernel at the piece's indexes.
//!
//! A visit of a job ([`visit_job`]) has what its pieces have in common, and [`run_visited`] runs one piece after
//! another on it. It leaves the cells that `frame_core`'s definition of the piece makes of them (`piece_cells`), and
//! needs no more rights than the piece's footprint gives. [`run_piece`] is the same on a visit of its own.
//!
//! A visit costs what the kernel's arguments and its numbers cost, whatever the number of pieces that it is made for.
//! Beside the run of the code a piece writes three words where an index trapped, and none else; nothing takes memory.
//! An enemy's piece has no more than 1,000,000 steps for each of its indexes.
//!
//! It stands apart from `frame_core` so that what makes plans stands on no machine, and what runs them on no planner.
#![tactic(auto)]

mod running;

pub use running::{JobVisit, run_piece, run_visited, visit_job};

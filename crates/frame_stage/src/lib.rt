//! The stage of a section that is run by turns: its board, what its workers share, and a place for each of them.
//!
//! A stage is its section's alone until a helper is given out, and stands behind an `Arc` from then on ([`Hold`]), so
//! whoever helps owns a part of it ([`FrameHelper`]), and it can be taken apart again once nobody else has one. What a
//! turn borrows is made on the spot ([`Stage::turns`]).
//!
//! *Promise.* A stage fits its section: its board is one of the section's plan, its places are the board's seats as
//! they were made, exactly as many as `places_for` says, and a helper keeps its place from turn to turn. A helper
//! answers that its section is over only where its seat saw each job finished (`specs/Stages`).
//!
//! *Cost.* All that the run of a section needs is made with its stage, as large as the plan asks for: a board, and for
//! each place a deque and scratch. A turn takes no memory. To see that a section is over a helper looks at each of its
//! jobs once, one load a job, when the script's thread is through.
#![tactic(auto)]

mod helper;
mod hold;
mod stage;

pub use helper::FrameHelper;
pub use hold::{Hold, Part};
pub use stage::{Stage, Staged, room_for, set_stage};

//! How the schedules of a script are written in the boxes of a picture.
//!
//! A box of an accepted schedule has the number of its job and the name of its handle, the call as the script has it,
//! its line with what the plan made of its length, and the containers that it uses by access. A box of a refused one
//! has the call, the line, and the cause in the words of the line that the run prints.
//!
//! `specs/Boxes` says each line byte for byte, from the script's own statement.
#![tactic(auto)]

mod boxes;
mod calls;
mod causes;
mod names;
mod usage;

pub use boxes::{Size, job_lines, refused_lines};
pub use names::name_of;

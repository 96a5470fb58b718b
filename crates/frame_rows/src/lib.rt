//! Worked scripts, planned by `frame_plan` and run on any board: what rows and benchmarks share.
//!
//! `section_in` plans the first section of a script, `section_of` that of one that may use the worked kernels.
//! `run_on` runs a plan on any board, `run_kind` on a new board of a kind.
#![tactic(auto)]

mod running;
mod section;
pub mod texts;

pub use running::{BoardKind, run_kind, run_lock, run_on, run_words};
pub use section::{
    KERNELS, script_in, script_of, section_in, section_of, section_with, with_kernels,
};

//! Worked scripts, each with what it gives at every number of workers: constants alone.
//!
//! A table for each subject, made of the files in rows by a tool, so that tests and tools read the same; there a row is
//! changed or added.
#![tactic(auto)]

mod automatic_dependencies;
mod blocks;
mod kernels;
mod limits;
mod parts;
mod pending_jobs;
mod widths_and_lives;

pub use automatic_dependencies::AUTOMATIC_DEPENDENCIES;
pub use blocks::BLOCKS;
pub use kernels::KERNELS;
pub use limits::LIMITS;
pub use parts::PARTS;
pub use pending_jobs::PENDING_JOBS;
pub use widths_and_lives::WIDTHS_AND_LIVES;

/// A script, its exit status and its output.
#[derive(Clone, Copy)]
pub struct Row {
    pub name: &'static str,
    pub script: &'static str,
    pub status: u8,
    pub output: &'static str,
}

//! Who runs a script.

use std::alloc::Global;

/// The workers of a run, and where the memory comes from that they need.
#[derive(Drop)]
pub struct Workers<'a, R> {
    /// What starts their threads.
    pub rt: &'a R,
    pub alloc: Global,
    /// How many there are, the script's thread among them: from 1 to [`MOST_WORKERS`](job_base::limits::MOST_WORKERS).
    pub count: u32,
}

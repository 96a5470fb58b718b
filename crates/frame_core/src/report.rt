// What is said of a whole run at its end.

use job_base::{JobId, Trap};

/// What a run reports at its end: its traps, and its refused statements.
#[derive(Clone, Copy, Debug, PartialEq, Eq)]
pub struct Report {
    /// How many runs of a kernel trapped.
    pub traps: u64,
    /// How many statements were refused.
    pub refused: u64,
    /// The job of the first trap. It says nothing where there is none.
    pub job: JobId,
    /// The index of the first trap. It says nothing where there is none.
    pub index: u32,
    /// The first trap. It says nothing where there is none.
    pub trap: Trap,
}

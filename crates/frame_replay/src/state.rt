// What is running.

use job_base::FlatMem;

/// The state of a run: the ended pieces, the leases and the cells.
#[derive(Drop)]
pub struct CoreState {
    // By the numbers of pieces.
    pub(crate) ended: Vec<bool>,
    // By seats.
    pub(crate) leases: Vec<Option<CoreLease>>,
    pub(crate) cells: Vec<i64>,
}

// A piece that was begun and isn't ended, with its own copy of the cells.
#[derive(Drop)]
pub(crate) struct CoreLease {
    pub(crate) piece: u32,
    pub(crate) local: FlatMem,
}

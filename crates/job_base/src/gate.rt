// Where a test can hold a worker up.

use crate::PieceId;

/// What a worker calls round each piece that it runs, on its own thread. A gate has no meaning and no promise: a run
/// gives the same answer through every gate, and a test forces an order of pieces by one that waits.
///
/// Several workers call it at once, so where workers run it has to be `Sync`.
pub trait Gate {
    /// The worker is about to run the piece.
    fn enter(&self, worker: u32, piece: PieceId);

    /// The worker has run the piece.
    fn leave(&self, worker: u32, piece: PieceId);
}

/// The gate that holds nobody up.
#[derive(Clone, Copy, Debug, Default)]
pub struct OpenGate;

impl Gate for OpenGate {
    fn enter(&self, _worker: u32, _piece: PieceId) {}

    fn leave(&self, _worker: u32, _piece: PieceId) {}
}

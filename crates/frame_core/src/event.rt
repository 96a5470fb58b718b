//! The events of a run, as lists of them are replayed.

use job_base::PieceId;

/// A seat takes a piece or steals one, or finishes the piece that it has.
#[derive(Clone, Copy, Debug, PartialEq, Eq)]
pub enum Event {
    Take {
        seat: u32,
        piece: PieceId,
    },
    Steal {
        seat: u32,
        victim: u32,
        piece: PieceId,
    },
    Finish {
        seat: u32,
        piece: PieceId,
    },
}

/// Why a run didn't go on.
#[derive(Clone, Copy, Debug, PartialEq, Eq)]
pub enum CoreFault {
    /// The event isn't legal where it stands.
    Illegal,
    NoMemory,
}

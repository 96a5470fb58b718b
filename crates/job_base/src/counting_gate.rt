// A gate at which one piece waits for another.

use crate::{Gate, PieceId};
use std::sync::atomic::{AtomicBool, Ordering};
use std::thread;

/// Holds the worker of one piece up until another piece is entered, so that a test sees two workers at once.
///
/// The wait is bounded: `enter` of the first piece returns after so many turns at the latest, 0 of them included, and
/// each turn gives way to another thread. Every other `enter`, and every `leave`, returns at once.
#[derive(Debug, Drop)]
pub struct CountingGate {
    first: PieceId,
    second: PieceId,
    turns: u64,
    entered: AtomicBool,
    met: AtomicBool,
}

impl CountingGate {
    /// Any two pieces, and how many turns the first one waits for the second.
    pub fn new(first: PieceId, second: PieceId, turns: u64) -> CountingGate {
        CountingGate {
            first,
            second,
            turns,
            entered: AtomicBool::new(false),
            met: AtomicBool::new(false),
        }
    }

    /// Whether the first piece saw, in one of its turns, that the second one had entered.
    pub fn met(&self) -> bool {
        self.met.load(Ordering::SeqCst)
    }

    fn await_second(&self) {
        for _ in 0..self.turns {
            if self.entered.load(Ordering::SeqCst) {
                self.met.store(true, Ordering::SeqCst);
                return;
            }
            thread::yield_now();
        }
    }
}

impl Gate for CountingGate {
    fn enter(&self, _worker: u32, piece: PieceId) {
        if piece == self.second {
            self.entered.store(true, Ordering::SeqCst);
        }
        if piece == self.first {
            self.await_second();
        }
    }

    fn leave(&self, _worker: u32, _piece: PieceId) {}
}

// A gate that lets pieces in one after another.
ghost use Rattle.std.specs.Prelude.{◌<◌, IfSome, vec_len};

use crate::{Gate, NoMemory, PieceId};
use std::alloc::Global;
use std::sync::atomic::{AtomicBool, Ordering};
use std::thread;

/// Holds workers up so that the pieces of a list are entered in its order, however they were found.
///
/// The wait is bounded: `enter` of a listed piece returns once each piece before it in the list has entered, and after
/// so many turns at the latest, 0 of them included. Each turn gives way to another thread. Every other `enter`, and
/// every `leave`, returns at once.
#[derive(Drop)]
pub struct OrderGate {
    places: Vec<Listed>,
    turns: u64,
    late: AtomicBool,
}

// A piece of the list, and whether it was let in.
#[derive(Drop)]
struct Listed {
    piece: PieceId,
    entered: AtomicBool,
}

impl OrderGate {
    /// The pieces in the order in which they are to enter, and how many turns each of them waits at most. Each is
    /// listed once: nothing enters at a second place of a piece, so what stands after it runs out of turns.
    pub fn new(alloc: Global, order: Vec<PieceId>, turns: u64) -> Result<OrderGate, NoMemory> {
        let mut places = Vec::with_capacity(alloc, order.len())?;
        for piece in order {
            let entered = AtomicBool::new(false);
            places.push(Listed { piece, entered })?;
        }
        Ok(OrderGate {
            places,
            turns,
            late: AtomicBool::new(false),
        })
    }

    /// Whether no piece ran out of turns so far, so that all pieces entered in the order of the list.
    pub fn kept(&self) -> bool {
        !self.late.load(Ordering::SeqCst)
    }

    fn place_of(&self, piece: PieceId) -> Option<usize>
        ensures { IfSome result (λ place. place < vec_len self.now.places) }
    {
        self.places.iter().position(|listed| listed.piece == piece)
    }

    // Waits until these have entered. The answer is false where the turns ran out before.
    fn await_all(&self, before: &[Listed]) -> bool {
        for _ in 0..self.turns {
            if have_entered(before) {
                return true;
            }
            thread::yield_now();
        }
        have_entered(before)
    }
}

fn have_entered(places: &[Listed]) -> bool {
    places
        .iter()
        .all(|listed| listed.entered.load(Ordering::SeqCst))
}

impl Gate for OrderGate {
    fn enter(&self, _worker: u32, piece: PieceId) {
        let Some(place) = self.place_of(piece) else {
            return;
        };
        if !self.await_all(&self.places[..place]) {
            self.late.store(true, Ordering::SeqCst);
        }
        // Only now, so that the next one can't overtake this one while it waits.
        self.places[place].entered.store(true, Ordering::SeqCst);
    }

    fn leave(&self, _worker: u32, _piece: PieceId) {}
}

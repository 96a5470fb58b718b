// When each piece of a section was entered and left, and by whom.

use job_base::{Gate, NoMemory, PieceId};
use std::alloc::Global;
use std::rt::Clock;
use std::sync::atomic::{AtomicU32, AtomicU64, Ordering};
use std::time::Duration;

// The slot of a piece. The worker that runs it writes it, once.
#[derive(Drop)]
struct Slot {
    worker: AtomicU32,
    entered: AtomicU64,
    left: AtomicU64,
}

/// What was noted of a piece. Times are in nanoseconds of the clock.
#[derive(Clone, Copy, Debug, Default, PartialEq, Eq)]
pub struct Found {
    pub worker: u32,
    pub entered: u64,
    pub left: u64,
}

impl Slot {
    fn found(&self) -> Found {
        Found {
            worker: self.worker.load(Ordering::SeqCst),
            entered: self.entered.load(Ordering::SeqCst),
            left: self.left.load(Ordering::SeqCst),
        }
    }
}

/// The gate that notes. A piece that has no slot goes by unnoted.
#[derive(Drop)]
pub struct Recorder<'a, C> {
    clock: &'a C,
    slots: Vec<Slot>,
}

fn nanoseconds(time: Duration) -> u64 {
    time.as_secs()
        .saturating_mul(1_000_000_000)
        .saturating_add(u64::from(time.subsec_nanos()))
}

impl<'a, C: Clock> Recorder<'a, C> {
    /// With no slots.
    pub fn new(alloc: Global, clock: &'a C) -> Recorder<'a, C> {
        Recorder {
            clock,
            slots: Vec::new(alloc),
        }
    }

    /// The time, and 0 where the clock can't be read.
    pub fn now(&self) -> u64 {
        match self.clock.monotonic() {
            Ok(time) => nanoseconds(time),
            Err(_) => 0,
        }
    }

    /// Makes slots for so many pieces, of which nothing is noted yet. Where no memory is found the old ones stay.
    pub fn prepare(&mut self, alloc: Global, pieces: u32) -> Result<(), NoMemory> {
        let mut slots = Vec::with_capacity(alloc, pieces as usize)?;
        for _ in 0..pieces {
            slots.push(Slot {
                worker: AtomicU32::new(0),
                entered: AtomicU64::new(0),
                left: AtomicU64::new(0),
            })?;
        }
        self.slots = slots;
        Ok(())
    }

    /// What was noted of each piece: zeros where nothing was.
    pub fn noted(&self, alloc: Global) -> Result<Vec<Found>, NoMemory> {
        let mut found = Vec::with_capacity(alloc, self.slots.len())?;
        for slot in &self.slots {
            found.push(slot.found())?;
        }
        Ok(found)
    }
}

impl<C: Clock> Gate for Recorder<'_, C> {
    fn enter(&self, worker: u32, piece: PieceId) {
        if let Some(slot) = self.slots.get(piece.0 as usize) {
            slot.worker.store(worker, Ordering::SeqCst);
            slot.entered.store(self.now(), Ordering::SeqCst);
        }
    }

    fn leave(&self, _worker: u32, piece: PieceId) {
        let now = self.now();
        if let Some(slot) = self.slots.get(piece.0 as usize) {
            slot.left.store(now, Ordering::SeqCst);
        }
    }
}

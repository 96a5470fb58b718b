// What was noted of a section's pieces.

use frame_record::Found;
use trace_text::{End, Stretch};

/// What was noted of the pieces of a section, those of its jobs and after them its segments, in their order.
#[derive(Clone, Copy)]
pub struct Notes<'a> {
    pub found: &'a [Found],
    /// When the first section was about to be run: times are told from here on.
    pub start: u64,
}

impl Notes<'_> {
    /// What was noted of a piece: zeros where nothing was.
    pub(crate) fn of(&self, piece: u32) -> Found {
        match self.found.get(piece as usize) {
            Some(found) => *found,
            None => Found {
                worker: 0,
                entered: 0,
                left: 0,
            },
        }
    }

    /// The time of a worker from one reading of the clock to another.
    pub fn stretch(&self, worker: u32, from: u64, to: u64) -> Stretch {
        Stretch {
            worker,
            from: from.saturating_sub(self.start),
            long: to.saturating_sub(from),
        }
    }

    /// The time that a piece took.
    pub(crate) fn ran(&self, found: Found) -> Stretch {
        self.stretch(found.worker, found.entered, found.left)
    }

    /// An end of an arrow, where a piece begins.
    pub(crate) fn end_at(&self, found: Found) -> End {
        End {
            worker: found.worker,
            at: found.entered.saturating_sub(self.start),
        }
    }
}

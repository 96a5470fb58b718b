//! The calls of a board. Each takes the lock once, and runs one method of the content under it, which says what becomes
//! of the content. A call that locks can't name what it found; so a call says here what becomes of the seat.

use crate::board::LockBoard;
use crate::board_name::BoardName;
use crate::copying::{place_in, read_cell, write_cell};
use crate::seat::LockSeat;
use crate::waiting::wait_for_good;
use frame_core::{Board, PlanName};
use job_base::{FlatMem, JobId, Mem, PieceId, Word};
use std::sync::Wait;

impl<R: Wait + Drop, K: PlanName + BoardName> Board for LockBoard<R, K> {
    ghost use Rattle.std.specs.Prelude.{[], ◌∷◌};
    ghost use Rattle.lock_board.specs.Seats.{know_of};

    type Seat = LockSeat<R, K>;

    ghost plan = { λ _. K.plan };

    ghost name = { λ _. K.board ∷ [] };

    ghost home = { λ _. K.board ∷ [] };

    ghost know = { λ seat. know_of K.plan seat.held };

    /// True where the piece was open, which is begun now. The cells of its footprint are copied out.
    fn begin(&self, seat: &mut LockSeat<R, K>, p: PieceId) -> bool {
        let begun = self
            .content
            .lock(&seat.rt)
            .begin(&self.layout, seat.held.number, p.0, &mut seat.held.room);
        if begun {
            seat.held.lease = Some(p);
        }
        begun
    }

    /// One load from the seat's copy.
    fn load(&self, seat: &mut LockSeat<R, K>, w: Word) -> i64 {
        let Some(p) = seat.held.lease else {
            unreachable!()
        };
        let at = place_in(&self.layout.spans[p.0 as usize], w.0);
        read_cell(&seat.held.room, at)
    }

    /// One store into the seat's copy.
    fn store(&self, seat: &mut LockSeat<R, K>, w: Word, v: i64) {
        let Some(p) = seat.held.lease else {
            unreachable!()
        };
        let at = place_in(&self.layout.spans[p.0 as usize], w.0);
        write_cell(&mut seat.held.room, at, v);
    }

    /// The words that the piece writes are copied back. It waits for good where the seat doesn't lease the piece.
    fn end(&self, seat: &mut LockSeat<R, K>) {
        let Some(p) = seat.held.lease else {
            unreachable!()
        };
        let leased = self
            .content
            .lock(&seat.rt)
            .end(&self.layout, seat.held.number, p.0, &seat.held.room);
        if !leased || !seat.held.end(&self.layout, p) {
            wait_for_good(&seat.rt);
        }
    }

    /// It waits for good where no count of the piece is owed.
    fn count(&self, seat: &mut LockSeat<R, K>) -> Option<JobId> {
        let Some(job) = seat.held.owed else {
            unreachable!()
        };
        let counted = self
            .content
            .lock(&seat.rt)
            .count(&self.layout, seat.held.ended_piece, job.0);
        match counted {
            None => wait_for_good(&seat.rt),
            Some(last) => {
                if !seat.held.count(&self.layout, job, last) {
                    wait_for_good(&seat.rt);
                }
                if last { Some(job) } else { None }
            }
        }
    }

    /// It waits for good where nobody has to release the job.
    fn release(&self, seat: &mut LockSeat<R, K>, j: JobId) -> bool {
        match self.content.lock(&seat.rt).release(j.0 - 1) {
            None => wait_for_good(&seat.rt),
            Some(last) => {
                seat.held.release(&self.layout, j, last);
                last
            }
        }
    }

    /// It waits for good where the piece isn't closed, or something that comes before it isn't ended.
    fn open_piece(&self, seat: &mut LockSeat<R, K>, p: PieceId) {
        if !self.content.lock(&seat.rt).open_piece(&self.layout, p.0) {
            wait_for_good(&seat.rt);
        }
        if p.0 < self.layout.parts {
            seat.held.rights[p.0 as usize] = false;
        } else {
            seat.held.opened = true;
        }
    }

    /// True where nothing of the job is left to count.
    fn finished(&self, seat: &mut LockSeat<R, K>, j: JobId) -> bool {
        let done = self.content.lock(&seat.rt).is_finished(j.0 - 1);
        if done {
            seat.held.seen[(j.0 - 1) as usize] = true;
        }
        done
    }

    /// It waits for good where some piece isn't ended.
    fn close(self, first: LockSeat<R, K>, into: &mut FlatMem) {
        let LockBoard {
            content,
            layout,
            of: _,
        } = self;
        let content = content.into_inner();
        if !content.is_ended() {
            wait_for_good(&first.rt);
        }
        for w in 0..layout.words {
            into.store(Word(w), read_cell(&content.cells, w as usize));
        }
    }
}

//! What the calls make of what a seat holds.
ghost use Rattle.std.specs.Prelude.{◌≡◌, ◌<◌, ◌+◌, ◌^◌, ◌≤◌, ℕ, suc, true, false, length, slice_index, slice_index_or, Some, None, if◌then◌else◌};
ghost use Rattle.frame_core.specs.Names.{job_pieces};
ghost use Rattle.frame_core.specs.Know.{counted, ended, piece_count, released};
ghost use Rattle.lock_board.specs.Layouts.{LeasesPiece, OwesJob};
ghost use Rattle.lock_board.specs.Seats.{know_of};

use crate::layout::{Layout, add_due, can_add_due};
use crate::seat::Held;
use frame_core::PlanName;
use job_base::{JobId, PieceId};

impl Held {
    /// The lease ended. False where the seat can't note it: it would have ended too many segments, or have too many
    /// duties.
    pub(crate) fn end<K: PlanName>(&mut self, layout: &Layout<K>, p: PieceId) -> bool
        requires piece { p.0 < piece_count K.plan }
        requires dues { length self.old.dues.items ≡ length K.plan.jobs.items }

        ensures know { result ≡ true → know_of K.plan self.new ≡ ended K.plan (know_of K.plan self.old) p.0 }
        ensures owed { OwesJob K.plan self.old.owed → OwesJob K.plan self.new.owed }
        ensures lease { LeasesPiece K.plan self.old.lease → LeasesPiece K.plan self.new.lease }
        ensures room { self.new.room.items ≡ self.old.room.items }
        ensures sizes { (length self.new.dues.items ≡ length self.old.dues.items)
            × (self.new.rights.items ≡ self.old.rights.items) × (self.new.seen.items ≡ self.old.seen.items) }
    {
        if p.0 < layout.parts {
            self.lease = None;
            self.owed = Some(JobId(layout.jobs[p.0 as usize]));
            self.ended_piece = p.0;
            return true;
        }
        let started = layout.started_by(p.0);
        if self.ended == u32::MAX || !can_add_due(&self.dues, started) {
            return false;
        }
        add_due(&mut self.dues, started);
        self.lease = None;
        self.ended += 1;
        self.opened = false;
        true
    }

    /// A piece was counted, which may have been the last one of the job. False where the seat has too many duties.
    pub(crate) fn count<K: PlanName>(&mut self, layout: &Layout<K>, job: JobId, last: bool) -> bool
        requires job { (0 < job.0) × (job.0 < length K.plan.jobs.items + 1) }
        requires dues { length self.old.dues.items ≡ length K.plan.jobs.items }

        ensures know { result ≡ true → know_of K.plan self.new
            ≡ counted K.plan (know_of K.plan self.old) (if last then Some job else None) }
        ensures owed { OwesJob K.plan self.old.owed → OwesJob K.plan self.new.owed }
        ensures lease { self.new.lease ≡ self.old.lease }
        ensures room { self.new.room.items ≡ self.old.room.items }
        ensures sizes { (length self.new.dues.items ≡ length self.old.dues.items)
            × (self.new.rights.items ≡ self.old.rights.items) × (self.new.seen.items ≡ self.old.seen.items) }
    {
        if last {
            if !layout.can_add_dues(job.0, &self.dues) {
                return false;
            }
            layout.add_dues(job.0, &mut self.dues);
        }
        self.owed = None;
        true
    }

    /// A duty ended, which may have been that of the job's last predecessor.
    pub(crate) fn release<K: PlanName>(&mut self, layout: &Layout<K>, j: JobId, last: bool)
        requires job { (0 < j.0) × (j.0 < length K.plan.jobs.items + 1) }
        requires dues { length self.old.dues.items ≡ length K.plan.jobs.items }
        requires due { 0 < (know_of K.plan self.old).dues j.0 }
        requires rights { length self.old.rights.items ≡ job_pieces K.plan }

        ensures know { know_of K.plan self.new ≡ released K.plan (know_of K.plan self.old) j.0 last }
        ensures still { (self.new.owed ≡ self.old.owed) × (self.new.lease ≡ self.old.lease) }
        ensures room { self.new.room.items ≡ self.old.room.items }
        ensures sizes { (length self.new.dues.items ≡ length self.old.dues.items)
            × (length self.new.rights.items ≡ length self.old.rights.items)
            × (self.new.seen.items ≡ self.old.seen.items) }
    {
        self.dues[(j.0 - 1) as usize] -= 1;
        if last {
            allow(
                &mut self.rights,
                layout.ends[(j.0 - 1) as usize],
                layout.ends[j.0 as usize],
            );
        }
    }
}

// Gives the rights to the pieces of a range.
fn allow(rights: &mut [bool], from: u32, end: u32)
    requires within { (from ≤ end) × (end ≤ length rights.old) }

    ensures inside { (p : ℕ) → from ≤ p → p < end → slice_index_or rights.new p false ≡ true }
    ensures before { (p : ℕ) → p < from → slice_index_or rights.new p false ≡ slice_index_or rights.old p false }
    ensures behind { (p : ℕ) → end ≤ p → slice_index_or rights.new p false ≡ slice_index_or rights.old p false }
{
    for p in from..end {
        rights[p as usize] = true;
    }
}

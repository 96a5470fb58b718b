//! What lies under the lock.
ghost use Rattle.std.specs.Prelude.{◌≡◌, ℕ, suc, ◌+◌, ◌-◌, ◌<◌, ◌≤◌, ◌↔◌, true, false, not, nat_eq, length, slice_index, slice_set, None, IfSome, is_some};
ghost use Rattle.job_base.specs.Cells.{cells_of};
ghost use Rattle.frame_core.specs.Names.{has_job, job_pieces, segment_at, waits_in};
ghost use Rattle.frame_core.specs.Effects.{piece_cells};
ghost use Rattle.frame_core.specs.Graphs.{before_number, cells_after};
ghost use Rattle.frame_core.specs.Know.{piece_count, reads, writes};
ghost use Rattle.frame_core.specs.Pieces.{piece_numbered};
ghost use Rattle.lock_board.specs.declared.state.State.TheVariants.{Begun, Counted, Ended, Open};
ghost use Rattle.lock_board.specs.Locked.{AllAreCounted, IsKept, MayOpenNow, OthersAreCounted, is_owed, locked, unreleased};
ghost use Rattle.lock_board.specs.Rooms.{HasRoom, place_of};
ghost use Rattle.lock_board.specs.Started.{started_by};
ghost use Rattle.lock_board.specs.States.{is_begun_by, is_closed, is_open, is_over, state_of};

use crate::board_name::BoardName;
use crate::copying::{copy_in, copy_out};
use crate::layout::{Layout, add_due};
use crate::state::State;
use frame_core::PlanName;
use std::marker::PhantomData;
use std::sync::ledger::Blank;

/// What lies under the lock of a board: the cells, and how far each piece has come.
#[derive(Drop)]
pub struct Content<K: PlanName + BoardName> {
    /// By the numbers of pieces.
    pub(crate) states: Vec<State>,
    pub(crate) cells: Vec<i64>,
    /// Of each job, how many of its pieces aren't counted.
    pub(crate) rests: Vec<u32>,
    /// How many of its predecessors aren't released.
    pub(crate) waits: Vec<u32>,
    /// How many of these are finished, so that somebody has to release it.
    pub(crate) dues: Vec<u32>,
    /// It names the board.
    pub(crate) token: Blank,
    pub(crate) of: PhantomData<K>,
    pub(crate) ghost named: { token.name ≡ K.board },
    pub(crate) ghost state_count: { length states.items ≡ piece_count K.plan },
    pub(crate) ghost cell_count: { length cells.items ≡ K.plan.words },
    pub(crate) ghost rest_count: { length rests.items ≡ length K.plan.jobs.items },
    pub(crate) ghost wait_count: { length waits.items ≡ length K.plan.jobs.items },
    pub(crate) ghost due_count: { length dues.items ≡ length K.plan.jobs.items },
    pub(crate) ghost kept: { ∥ IsKept K.plan (locked states.items cells.items rests.items waits.items dues.items) ∥₁ },
}

impl<K: PlanName + BoardName> Content<K> {
    /// Begins a piece, if it is open, and copies its footprint out. The answer true gives the seat of that number the
    /// lease.
    pub fn begin(&mut self, layout: &Layout<K>, seat: u32, p: u32, room: &mut [i64]) -> bool
        requires piece { p < piece_count K.plan }
        requires room { HasRoom K.plan (length room.old) }

        ensures open { result ≡ is_open (state_of self.old.states.items p) }
        ensures begun { result ≡ true → self.new.states.items ≡ slice_set self.old.states.items p (Begun seat) }
        ensures room { result ≡ true → (w : ℕ) → reads K.plan p w ≡ true
            → cells_of room.new (place_of K.plan p w) ≡ before_number K.plan p w }
        ensures refused { result ≡ false → (self.new.states.items ≡ self.old.states.items) × (room.new ≡ room.old) }

        ensures cells { self.new.cells.items ≡ self.old.cells.items }
        ensures counts { (self.new.rests.items ≡ self.old.rests.items) × (self.new.waits.items ≡ self.old.waits.items)
            × (self.new.dues.items ≡ self.old.dues.items) }
    {
        let piece = p as usize;
        if !self.states[piece].is_open() {
            return false;
        }
        self.states[piece] = State::Begun(seat);
        copy_in(&layout.spans[piece], &self.cells, room);
        true
    }

    /// Ends a piece that the seat of that number began, and copies its written words back. The answer says whether the
    /// seat leases the piece; where it doesn't, nothing changes.
    pub fn end(&mut self, layout: &Layout<K>, seat: u32, p: u32, room: &[i64]) -> bool
        requires piece { p < piece_count K.plan }
        requires room { HasRoom K.plan (length room.now) }
        requires cells { (w : ℕ) → writes K.plan p w ≡ true → cells_of room.now (place_of K.plan p w)
            ≡ piece_cells K.plan (piece_numbered K.plan p) (before_number K.plan p) w }

        ensures leased { result ≡ is_begun_by seat (state_of self.old.states.items p) }
        ensures ended { result ≡ true → self.new.states.items ≡ slice_set self.old.states.items p Ended }
        ensures dues { result ≡ true → (j : ℕ) → j < length K.plan.jobs.items
            → slice_index self.new.dues.items j ≡ slice_index self.old.dues.items j + started_by K.plan p (suc j) }
        ensures refused { result ≡ false → (self.new.states.items ≡ self.old.states.items)
            × (self.new.cells.items ≡ self.old.cells.items) × (self.new.dues.items ≡ self.old.dues.items) }

        ensures counts { (self.new.rests.items ≡ self.old.rests.items)
            × (self.new.waits.items ≡ self.old.waits.items) }
    {
        let piece = p as usize;
        if !self.states[piece].is_begun_by(seat) {
            return false;
        }
        add_due(&mut self.dues, layout.started_by(p));
        self.states[piece] = State::Ended;
        copy_out(&layout.spans[piece], room, &mut self.cells);
        true
    }

    // Whether a count of the piece is owed, as one of the job of that number.
    fn is_owed(&self, layout: &Layout<K>, p: u32, job: u32) -> bool
        requires job { (0 < job) × (job < length K.plan.jobs.items + 1) }

        ensures { result ≡ is_owed K.plan self.now.states.items p job }
    {
        if p >= layout.parts {
            return false;
        }
        if layout.jobs[p as usize] != job {
            return false;
        }
        self.states[p as usize].is_uncounted()
    }

    /// Counts an ended piece of the job of that number. `Some(true)` says that this was the last piece of it, and
    /// `None` that no count of the piece is owed; then nothing changes.
    pub fn count(&mut self, layout: &Layout<K>, p: u32, job: u32) -> Option<bool>
        requires job { (0 < job) × (job < length K.plan.jobs.items + 1) }

        ensures owed { is_some result ≡ is_owed K.plan self.old.states.items p job }
        ensures last { IfSome result (λ last. (last ≡ true) ↔ OthersAreCounted K.plan self.old.states.items job p) }
        ensures counted { IfSome result (λ _. self.new.states.items ≡ slice_set self.old.states.items p Counted) }
        ensures refused { result ≡ None → (self.new.states.items ≡ self.old.states.items)
            × (self.new.rests.items ≡ self.old.rests.items) × (self.new.dues.items ≡ self.old.dues.items) }

        ensures cells { self.new.cells.items ≡ self.old.cells.items }
        ensures waits { self.new.waits.items ≡ self.old.waits.items }
    {
        if !self.is_owed(layout, p, job) {
            return None;
        }
        let place = (job - 1) as usize;
        let left = self.rests[place] - 1;
        self.states[p as usize] = State::Counted;
        self.rests[place] = left;
        if left > 0 {
            return Some(false);
        }
        layout.add_dues(job, &mut self.dues);
        Some(true)
    }

    /// Releases the job at a place, from 0, by one predecessor. `Some(true)` says that this was the last predecessor,
    /// and
    /// `None` that nobody has the duty; then nothing changes.
    pub fn release(&mut self, j: u32) -> Option<bool>
        requires job { j < length K.plan.jobs.items }

        ensures due { is_some result ≡ not (nat_eq (slice_index self.old.dues.items j) 0) }
        ensures last { IfSome result (λ last. (last ≡ true)
            ↔ (unreleased K.plan self.old.states.items self.old.rests.items self.old.dues.items j ≡ 1)) }
        ensures released { IfSome result (λ _. self.new.dues.items
            ≡ slice_set self.old.dues.items j (slice_index self.old.dues.items j - 1)) }
        ensures refused { result ≡ None → (self.new.waits.items ≡ self.old.waits.items)
            × (self.new.dues.items ≡ self.old.dues.items) }

        ensures states { self.new.states.items ≡ self.old.states.items }
        ensures cells { self.new.cells.items ≡ self.old.cells.items }
        ensures rests { self.new.rests.items ≡ self.old.rests.items }
    {
        let job = j as usize;
        if self.dues[job] == 0 {
            return None;
        }
        let left = self.waits[job] - 1;
        self.dues[job] -= 1;
        self.waits[job] = left;
        Some(left == 0)
    }

    // Whether the jobs that a segment waits for are all counted.
    fn has_waited(&self, layout: &Layout<K>, k: u32) -> bool
        requires segment { k < length K.plan.segments.items }

        ensures { result ≡ true → (i : ℕ) → has_job (waits_in (segment_at K.plan k)) (suc i) ≡ true
            → slice_index self.now.rests.items i ≡ 0 }
    {
        let waits = &layout.waits[k as usize];
        for i in 0..waits.len() {
            if self.rests[(waits[i].0 - 1) as usize] != 0 {
                return false;
            }
        }
        true
    }

    // Whether the segment before one is ended, by the numbers of their pieces.
    fn has_followed(&self, layout: &Layout<K>, p: u32) -> bool
        requires piece { p < piece_count K.plan }
        requires segment { job_pieces K.plan ≤ p }

        ensures { result ≡ true → (l : ℕ) → job_pieces K.plan + suc l ≡ p
            → is_over (state_of self.now.states.items (job_pieces K.plan + l)) ≡ true }
    {
        if p == layout.parts {
            return true;
        }
        self.states[(p - 1) as usize].is_over()
    }

    // Whether a piece that is closed may be opened: its job waits for nothing more, or it is a segment, the one before
    // it is ended, and so are all jobs that it waits for.
    fn may_open(&self, layout: &Layout<K>, p: u32) -> bool
        requires piece { p < piece_count K.plan }

        ensures { result ≡ true → MayOpenNow K.plan self.now.states.items self.now.rests.items self.now.waits.items
            (piece_numbered K.plan p) }
    {
        if p < layout.parts {
            let job = layout.jobs[p as usize];
            return self.waits[(job - 1) as usize] == 0;
        }
        if !self.has_followed(layout, p) {
            return false;
        }
        self.has_waited(layout, p - layout.parts)
    }

    /// Opens a piece, where it is closed and all that comes before it is ended. Else nothing changes.
    pub fn open_piece(&mut self, layout: &Layout<K>, p: u32) -> bool
        requires piece { p < piece_count K.plan }

        ensures opened { result ≡ true → is_closed (state_of self.old.states.items p) ≡ true
            × (self.new.states.items ≡ slice_set self.old.states.items p Open) }
        ensures may { result ≡ true → MayOpenNow K.plan self.old.states.items self.old.rests.items
            self.old.waits.items (piece_numbered K.plan p) }
        ensures refused { result ≡ false → self.new.states.items ≡ self.old.states.items }

        ensures cells { self.new.cells.items ≡ self.old.cells.items }
        ensures counts { (self.new.rests.items ≡ self.old.rests.items) × (self.new.waits.items ≡ self.old.waits.items)
            × (self.new.dues.items ≡ self.old.dues.items) }
    {
        if !self.states[p as usize].is_closed() || !self.may_open(layout, p) {
            return false;
        }
        self.states[p as usize] = State::Open;
        true
    }

    /// Whether all pieces of the job at a place, from 0, were counted.
    pub fn is_finished(&self, j: u32) -> bool
        requires job { j < length K.plan.jobs.items }

        ensures { (result ≡ true) ↔ AllAreCounted K.plan self.now.states.items (suc j) }
    {
        self.rests[j as usize] == 0
    }

    /// Whether all pieces are ended. Then the cells are those after the run in script order.
    pub fn is_ended(&self) -> bool
        ensures ended { (result ≡ true) ↔ ((p : ℕ) → p < piece_count K.plan
            → is_over (state_of self.now.states.items p) ≡ true) }
        ensures cells { result ≡ true → (w : ℕ) → cells_of self.now.cells.items w ≡ cells_after K.plan w }
    {
        for p in 0..self.states.len() {
            if !self.states[p].is_over() {
                return false;
            }
        }
        true
    }
}

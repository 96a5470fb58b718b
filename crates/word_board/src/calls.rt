//! The calls of a board. Each but `close` is one atomic step, and says so: in `step` the number of steps rises by one,
//! and the kind, the word and the finding are those of this step. So no call answers by an older finding.
//!
//! The other clauses are those of every board.

use crate::board::WordBoard;
use crate::seat::WordSeat;
use crate::steps;
use frame_core::Board;
use job_base::{FlatMem, JobId, Mem, PieceId, Word};

impl Board for WordBoard {
    ghost use Rattle.std.specs.Prelude.{◌≡◌, ℕ, suc, ◌+◌, ◌-◌, ◌<◌, true, nat_eq, length, None, Some, IfSome, is_some};
    ghost use Rattle.std.specs.Int.{cast_signed};
    ghost use mir.Syntax.{w64};
    ghost use Rattle.merge_laws.specs.Countdowns.{begun_state, open_state};
    ghost use Rattle.frame_core.specs.Effects.{piece_cells};
    ghost use Rattle.frame_core.specs.Graphs.{before_number};
    ghost use Rattle.frame_core.specs.Know.{IsFree, MayBegin, MayOpen, begun, counted, ended, found, opened, piece_count, reads, released, stored, writes};
    ghost use Rattle.frame_core.specs.Pieces.{piece_numbered};
    ghost use Rattle.word_board.specs.declared.view.Kind.TheVariants.{Load};
    ghost use Rattle.word_board.specs.Boards.{home_of, know_of, name_of, plan_of, view_of};
    ghost use Rattle.word_board.specs.Views.{begun_view, counted_view, ended_view, opened_view, released_view, seen_view, stepped, stored_view};
    ghost use Rattle.word_board.specs.Words.{cell_word, rest_word, state_word, wait_word};

    type Seat = WordSeat;

    ghost plan = { plan_of };

    ghost name = { name_of };

    ghost home = { home_of };

    ghost know = { know_of };

    /// True where the piece was open, which is begun now. One compare-and-exchange.
    fn begin(&self, seat: &mut WordSeat, p: PieceId) -> bool
        requires home { home_of seat.old ≡ name_of self.now }
        requires piece { p.0 < piece_count (plan_of self.now) }
        requires free { IsFree (know_of seat.old) }
        requires first { MayBegin (know_of seat.old) (piece_numbered (plan_of self.now) p.0) }

        ensures found { result ≡ nat_eq (view_of seat.new).found open_state }
        ensures step { view_of seat.new
            ≡ begun_view (view_of seat.old) p.0 result (state_word (plan_of self.now) p.0) (view_of seat.new).found }
        ensures know { know_of seat.new ≡ begun (plan_of self.now) (know_of seat.old) p.0 result }
        ensures home { home_of seat.new ≡ home_of seat.old }
    {
        let word = self.states + p.0 as usize;
        let begun = steps::begin(&self.table.shared, &mut seat.token, word, p.0);
        if begun {
            seat.piece = p.0;
        }
        begun
    }

    /// One load, and no test of the index.
    fn load(&self, seat: &mut WordSeat, w: Word) -> i64
        requires home { home_of seat.old ≡ name_of self.now }
        requires word { (p : ℕ) × ((know_of seat.old).lease ≡ Some p) × (reads (plan_of self.now) p w.0 ≡ true) }

        ensures cell { result ≡ (know_of seat.old).cells w.0 }
        ensures found { result ≡ cast_signed w64 (view_of seat.new).found }
        ensures step { view_of seat.new ≡ stepped (view_of seat.old) Load (cell_word w.0) (view_of seat.new).found }
        ensures know { know_of seat.new ≡ know_of seat.old }
        ensures home { home_of seat.new ≡ home_of seat.old }
    {
        steps::load(&self.table.shared, &mut seat.token, w.0)
    }

    /// One store, and no test of the index.
    fn store(&self, seat: &mut WordSeat, w: Word, v: i64)
        requires home { home_of seat.old ≡ name_of self.now }
        requires word { (p : ℕ) × ((know_of seat.old).lease ≡ Some p) × (writes (plan_of self.now) p w.0 ≡ true) }

        ensures found { v ≡ cast_signed w64 (view_of seat.new).found }
        ensures step { view_of seat.new
            ≡ stored_view (view_of seat.old) w.0 v (cell_word w.0) (view_of seat.new).found }
        ensures know { know_of seat.new ≡ stored (know_of seat.old) w.0 v }
        ensures home { home_of seat.new ≡ home_of seat.old }
    {
        steps::store(&self.table.shared, &mut seat.token, w.0, v)
    }

    /// One load: the word of the piece says that it was begun, and goes on to say so.
    fn end(&self, seat: &mut WordSeat)
        requires home { home_of seat.old ≡ name_of self.now }
        requires counted { (know_of seat.old).owed ≡ None }
        requires cells { (p : ℕ) × ((know_of seat.old).lease ≡ Some p)
            × ((w : ℕ) → writes (plan_of self.now) p w ≡ true → (know_of seat.old).cells w
            ≡ piece_cells (plan_of self.now) (piece_numbered (plan_of self.now) p)
            (before_number (plan_of self.now) p) w) }

        ensures step { (p : ℕ) × ((know_of seat.old).lease ≡ Some p)
            × (view_of seat.new
            ≡ ended_view (view_of seat.old) (piece_numbered (plan_of self.now) p)
            (state_word (plan_of self.now) p) begun_state) }
        ensures know { (p : ℕ) × ((know_of seat.old).lease ≡ Some p)
            × (know_of seat.new ≡ ended (plan_of self.now) (know_of seat.old) p) }
        ensures home { home_of seat.new ≡ home_of seat.old }
    {
        let piece = seat.piece;
        let word = self.states + piece as usize;
        steps::end(&self.table.shared, &mut seat.token, word, piece)
    }

    /// `rest` falls by one, and the answer is Some where it was 1. One plain load and one fetch-and-sub.
    fn count(&self, seat: &mut WordSeat) -> Option<JobId>
        requires home { home_of seat.old ≡ name_of self.now }
        requires owed { (j : ℕ) × ((know_of seat.old).owed ≡ Some j) }

        ensures found { is_some result ≡ nat_eq (view_of seat.new).found 1 }
        ensures step { (j : ℕ) × ((view_of seat.old).owed ≡ Some (suc j))
            × (view_of seat.new ≡ counted_view (view_of seat.old) (suc j) (is_some result)
            (rest_word (plan_of self.now) j) (view_of seat.new).found) }
        ensures job { IfSome result (λ id. (know_of seat.old).owed ≡ Some id.0) }
        ensures know { know_of seat.new ≡ counted (plan_of self.now) (know_of seat.old) result }
        ensures home { home_of seat.new ≡ home_of seat.old }
    {
        let job = self.jobs[seat.piece as usize];
        let word = self.rests + (job - 1) as usize;
        if steps::count(&self.table.shared, &mut seat.token, word, job - 1) {
            Some(JobId(job))
        } else {
            None
        }
    }

    /// `wait` falls by one, and the answer is true where it was 1. One fetch-and-sub.
    fn release(&self, seat: &mut WordSeat, j: JobId) -> bool
        requires home { home_of seat.old ≡ name_of self.now }
        requires job { (0 < j.0) × (j.0 < length (plan_of self.now).jobs.items + 1) }
        requires due { 0 < (know_of seat.old).dues j.0 }

        ensures found { result ≡ nat_eq (view_of seat.new).found 1 }
        ensures step { view_of seat.new
            ≡ released_view (view_of seat.old) j.0 result (wait_word (plan_of self.now) (j.0 - 1))
            (view_of seat.new).found }
        ensures know { know_of seat.new ≡ released (plan_of self.now) (know_of seat.old) j.0 result }
        ensures home { home_of seat.new ≡ home_of seat.old }
    {
        let word = self.waits + (j.0 - 1) as usize;
        steps::release(&self.table.shared, &mut seat.token, word, j.0 - 1)
    }

    /// One store.
    fn open_piece(&self, seat: &mut WordSeat, p: PieceId)
        requires home { home_of seat.old ≡ name_of self.now }
        requires piece { p.0 < piece_count (plan_of self.now) }
        requires may { MayOpen (plan_of self.now) (know_of seat.old) p.0 (piece_numbered (plan_of self.now) p.0) }

        ensures step { view_of seat.new
            ≡ opened_view (view_of seat.old) p.0 (piece_numbered (plan_of self.now) p.0)
            (state_word (plan_of self.now) p.0) open_state }
        ensures know { know_of seat.new ≡ opened (plan_of self.now) (know_of seat.old) p.0 }
        ensures home { home_of seat.new ≡ home_of seat.old }
    {
        let word = self.states + p.0 as usize;
        steps::open_piece(&self.table.shared, &mut seat.token, word, p.0)
    }

    /// True where `rest` is 0: nothing of the job is left to count. One load.
    fn finished(&self, seat: &mut WordSeat, j: JobId) -> bool
        requires home { home_of seat.old ≡ name_of self.now }
        requires job { (0 < j.0) × (j.0 < length (plan_of self.now).jobs.items + 1) }

        ensures found { result ≡ nat_eq (view_of seat.new).found 0 }
        ensures step { view_of seat.new
            ≡ seen_view (view_of seat.old) j.0 result (rest_word (plan_of self.now) (j.0 - 1))
            (view_of seat.new).found }
        ensures know { know_of seat.new ≡ found (know_of seat.old) j.0 result }
        ensures home { home_of seat.new ≡ home_of seat.old }
    {
        let word = self.rests + (j.0 - 1) as usize;
        steps::finished(&self.table.shared, &mut seat.token, word, j.0 - 1)
    }

    /// One plain read and one plain write a cell.
    fn close(self, first: WordSeat, into: &mut FlatMem) {
        let WordBoard {
            table,
            jobs: _,
            cells,
            states: _,
            rests: _,
            waits: _,
        } = self;
        let WordSeat { token, piece: _ } = first;
        let closed = table.close_with(token);
        for w in 0..cells {
            into.store(Word(w), closed.word(1 + w as usize).cast_signed());
        }
        closed.free();
    }
}

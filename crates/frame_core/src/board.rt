//! Boards, on which workers run a plan, each through a seat of its own.
ghost use Rattle.std.specs.Prelude.{◌≡◌, ℕ, ◌+◌, ◌<◌, List, Some, None, IfSome, true, length};
ghost use Rattle.job_base.specs.Cells.{cells_of};
ghost use Rattle.frame_core.specs.declared.plan.Plan.{Plan};
ghost use Rattle.frame_core.specs.Effects.{piece_cells};
ghost use Rattle.frame_core.specs.Graphs.{before_number, cells_after};
ghost use Rattle.frame_core.specs.Pieces.{piece_numbered};
ghost use Rattle.frame_core.specs.Know.{Know, IsFree, MayBegin, MayOpen, reads, writes, piece_count, begun, stored, ended, counted, released, opened, found};

use job_base::{FlatMem, JobId, PieceId, Word};

/// A board on which workers run the pieces of a plan, each through a seat of its own.
///
/// What a seat knows is a record, and each call says what it makes of that record. So what a call doesn't speak of
/// stays. A seat comes from the making of one board, and is of use on this one alone.
pub trait Board: Sized {
    /// What a worker holds.
    type Seat;

    ghost plan: { Self → Plan };

    // What names a board, and the board of a seat.
    ghost name: { Self → List ℕ };

    ghost home: { Self.Seat → List ℕ };

    ghost know: { Self.Seat → Know };

    /// Begins a piece, if it is open. The answer true gives the lease.
    fn begin(&self, seat: &mut Self::Seat, p: PieceId) -> bool
        requires home { home seat.old ≡ name self.now }
        requires piece { p.0 < piece_count (plan self.now) }
        requires free { IsFree (know seat.old) }
        requires first { MayBegin (know seat.old) (piece_numbered (plan self.now) p.0) }
        ensures home { home seat.new ≡ home seat.old }
        ensures know { know seat.new ≡ begun (plan self.now) (know seat.old) p.0 result };

    fn load(&self, seat: &mut Self::Seat, w: Word) -> i64
        requires home { home seat.old ≡ name self.now }
        requires word { (p : ℕ) × ((know seat.old).lease ≡ Some p) × (reads (plan self.now) p w.0 ≡ true) }
        ensures home { home seat.new ≡ home seat.old }
        ensures know { know seat.new ≡ know seat.old }
        ensures cell { result ≡ (know seat.old).cells w.0 };

    fn store(&self, seat: &mut Self::Seat, w: Word, v: i64)
        requires home { home seat.old ≡ name self.now }
        requires word { (p : ℕ) × ((know seat.old).lease ≡ Some p) × (writes (plan self.now) p w.0 ≡ true) }
        ensures home { home seat.new ≡ home seat.old }
        ensures know { know seat.new ≡ stored (know seat.old) w.0 v };

    /// Ends the lease. The cells that its piece writes have to be those after it in script order.
    fn end(&self, seat: &mut Self::Seat)
        requires home { home seat.old ≡ name self.now }
        requires counted { (know seat.old).owed ≡ None }
        requires cells { (p : ℕ) × ((know seat.old).lease ≡ Some p) × ((w : ℕ) → writes (plan self.now) p w ≡ true
            → (know seat.old).cells w
            ≡ piece_cells (plan self.now) (piece_numbered (plan self.now) p) (before_number (plan self.now) p) w) }
        ensures home { home seat.new ≡ home seat.old }
        ensures know { (p : ℕ) × ((know seat.old).lease ≡ Some p)
            × (know seat.new ≡ ended (plan self.now) (know seat.old) p) };

    /// Counts a piece that the seat ended. `Some` names its job where this was the last piece of it.
    fn count(&self, seat: &mut Self::Seat) -> Option<JobId>
        requires home { home seat.old ≡ name self.now }
        requires owed { (j : ℕ) × ((know seat.old).owed ≡ Some j) }
        ensures home { home seat.new ≡ home seat.old }
        ensures job { IfSome result (λ id. (know seat.old).owed ≡ Some id.0) }
        ensures know { know seat.new ≡ counted (plan self.now) (know seat.old) result };

    /// Ends a duty. The answer is true where this was the last predecessor of the job.
    fn release(&self, seat: &mut Self::Seat, j: JobId) -> bool
        requires home { home seat.old ≡ name self.now }
        requires job { (0 < j.0) × (j.0 < length (plan self.now).jobs.items + 1) }
        requires due { 0 < (know seat.old).dues j.0 }
        ensures home { home seat.new ≡ home seat.old }
        ensures know { know seat.new ≡ released (plan self.now) (know seat.old) j.0 result };

    fn open_piece(&self, seat: &mut Self::Seat, p: PieceId)
        requires home { home seat.old ≡ name self.now }
        requires piece { p.0 < piece_count (plan self.now) }
        requires may { MayOpen (plan self.now) (know seat.old) p.0 (piece_numbered (plan self.now) p.0) }
        ensures home { home seat.new ≡ home seat.old }
        ensures know { know seat.new ≡ opened (plan self.now) (know seat.old) p.0 };

    /// Whether all pieces of a job were counted.
    fn finished(&self, seat: &mut Self::Seat, j: JobId) -> bool
        requires home { home seat.old ≡ name self.now }
        requires job { (0 < j.0) × (j.0 < length (plan self.now).jobs.items + 1) }
        ensures home { home seat.new ≡ home seat.old }
        ensures know { know seat.new ≡ found (know seat.old) j.0 result };

    /// Ends the board, and gives the cells after the run.
    fn close(self, first: Self::Seat, into: &mut FlatMem)
        requires home { home first ≡ name self }
        requires first { (know first).first ≡ true }
        requires ended { (know first).ended ≡ length (plan self).segments.items }
        requires free { (know first).lease ≡ None }
        requires room { length into.old ≡ (plan self).words }
        ensures room { length into.new ≡ length into.old }
        ensures cells { (w : ℕ) → w < (plan self).words → cells_of into.new w ≡ cells_after (plan self) w };
}

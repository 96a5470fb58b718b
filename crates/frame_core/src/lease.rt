//! A lease as a memory.
ghost use Rattle.std.specs.Prelude.{◌≡◌, ℕ, Bool, List, [], Some, false};
ghost use Rattle.frame_core.specs.Know.{Know, IsStill, reads, writes, new_seat};

use crate::board::Board;
use job_base::{Mem, Word};
use std::marker::{Brand, PhantomData};

/// Names what a lease leaves as it is.
pub trait Holding {
    ghost name: { List ℕ };

    ghost piece: { ℕ };

    ghost held: { Know };

    ghost read: { ℕ → Bool };

    ghost write: { ℕ → Bool };
}

impl Holding for Brand {
    ghost name = { [] };

    ghost piece = { 0 };

    ghost held = { new_seat false };

    ghost read = { λ _. false };

    ghost write = { λ _. false };
}

/// A seat with a lease, as a memory of the words that the leased piece may read and write.
///
/// It takes the seat and hands it back: a memory that only borrowed the seat would lose what the seat knows.
pub struct Lease<'a, B: Board, K: Holding> {
    pub board: &'a B,
    pub seat: B::Seat,
    pub of: PhantomData<K>,
    pub ghost board_is: { B.name board.now ≡ K.name },
    pub ghost seat_is: { B.home seat ≡ K.name },
    pub ghost still: { IsStill K.held (B.know seat) },
    pub ghost leased: { K.held.lease ≡ Some K.piece },
    pub ghost read: { reads (B.plan board.now) K.piece ≡ K.read },
    pub ghost write: { writes (B.plan board.now) K.piece ≡ K.write },
}

impl<'a, B: Board, K: Holding> Lease<'a, B, K> {
    /// A memory over a held lease.
    pub fn over(board: &'a B, seat: B::Seat) -> Lease<'a, B, K>
        requires name { B.name board.now ≡ K.name }
        requires home { B.home seat ≡ K.name }
        requires held { B.know seat ≡ K.held }
        requires lease { K.held.lease ≡ Some K.piece }
        requires read { reads (B.plan board.now) K.piece ≡ K.read }
        requires write { writes (B.plan board.now) K.piece ≡ K.write }
        ensures cells { (B.know result.seat).cells ≡ (B.know seat).cells }
    {
        Lease {
            board,
            seat,
            of: PhantomData,
        }
    }

    /// The seat, whose lease has the cells that the memory had.
    pub fn into_seat(self) -> B::Seat
        ensures home { B.home result ≡ K.name }
        ensures still { IsStill K.held (B.know result) }
        ensures cells { (B.know result).cells ≡ (B.know self.entry.seat).cells }
    {
        let Lease {
            board: _,
            seat,
            of: _,
        } = self;
        seat
    }
}

impl<B: Board, K: Holding> Mem for Lease<'_, B, K> {
    ghost cells = { λ l. (B.know l.seat).cells };

    ghost readable = { λ l. K.read };

    ghost writable = { λ l. K.write };

    fn load(&mut self, w: Word) -> i64 {
        self.board.load(&mut self.seat, w)
    }

    fn store(&mut self, w: Word, v: i64) {
        self.board.store(&mut self.seat, w, v)
    }
}

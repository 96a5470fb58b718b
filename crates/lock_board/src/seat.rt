//! The seat of a worker.
ghost use Rattle.std.specs.Prelude.{◌≡◌, length};
ghost use Rattle.frame_core.specs.Names.{job_pieces};
ghost use Rattle.lock_board.specs.Layouts.{LeasesPiece, OwesJob};
ghost use Rattle.lock_board.specs.Rooms.{HasRoom};

use frame_core::PlanName;
use job_base::{JobId, PieceId};
use std::marker::PhantomData;
use std::sync::Wait;

/// What a seat holds, and so knows.
#[derive(Drop)]
pub struct Held {
    pub number: u32,
    pub lease: Option<PieceId>,
    /// The copy of the cells that a leased piece reads, each at its place. Others are left over.
    pub room: Vec<i64>,
    /// The job of a piece that it ended and hasn't counted, and that piece.
    pub owed: Option<JobId>,
    pub ended_piece: u32,
    /// How often it has to release each job.
    pub dues: Vec<u32>,
    /// The pieces of jobs that it may open.
    pub rights: Vec<bool>,
    /// The jobs that it saw finished.
    pub seen: Vec<bool>,
    /// It is the first seat, which runs the segments.
    pub first: bool,
    /// Of the first seat: how many segments it ended, and whether it opened the next one.
    pub ended: u32,
    pub opened: bool,
}

/// What a worker holds: the runtime, by which its calls wait for the lock, and what it knows.
#[derive(Drop)]
pub struct LockSeat<R: Wait, K: PlanName> {
    pub(crate) rt: R,
    pub(crate) held: Held,
    pub(crate) of: PhantomData<K>,
    pub(crate) ghost room: { HasRoom K.plan (length held.room.items) },
    pub(crate) ghost dues: { length held.dues.items ≡ length K.plan.jobs.items },
    pub(crate) ghost rights: { length held.rights.items ≡ job_pieces K.plan },
    pub(crate) ghost leased: { LeasesPiece K.plan held.lease },
    pub(crate) ghost owed: { OwesJob K.plan held.owed },
    pub(crate) ghost seen: { length held.seen.items ≡ length K.plan.jobs.items },
}

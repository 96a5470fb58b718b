// The room of a pool: what its workers have.
ghost use Rattle.std.specs.Prelude.{◌≡◌, ◌<◌, ◌≤◌, IfOk, IsSome, Some, vec_len};
ghost use Rattle.job_base.specs.declared.limits.TheConstants.{MOST_WORKERS};
ghost use Rattle.frame_core.specs.Ordered.{IsWellOrderedPlan};
ghost use Rattle.steal_pool.specs.Rooms.{HasSeats};

use crate::crew::Shared;
use crate::place::Place;
use crossbeam_utils::atomic::AtomicCell;
use frame_core::Plan;
use idle_workers::IdleWorkers;
use job_base::NoMemory;
use piece_claims::{Claims, Followers};
use std::alloc::Global;

/// What the workers of a run have: a place for each, the first one that of the script thread, and what they share. A
/// run takes no memory beside it.
#[derive(Drop)]
pub struct PoolRoom<T> {
    pub first: Place<T>,
    pub others: Vec<Place<T>>,
    pub shared: Shared,
}

impl<T: Drop> PoolRoom<T> {
    /// A place for each seat, in their order. Each deque has room for every job twice.
    pub fn make(alloc: Global, plan: &Plan, seats: Vec<T>) -> Result<PoolRoom<T>, NoMemory>
        requires well { IsWellOrderedPlan plan.now }
        requires some { 0 < vec_len seats }
        requires many { vec_len seats ≤ MOST_WORKERS }
        ensures { IfOk result (HasSeats plan.now seats.items) }
    {
        let followers = Followers::of_plan(alloc, plan)?;
        let claims = Claims::of_plan(alloc, plan, seats.len() as u32)?;
        let capacity = 2 * plan.jobs.len();
        let mut rest = seats;
        let first = Place::new(alloc, 0, rest.remove(0), capacity)?;
        let mut thieves = Vec::with_capacity(alloc, rest.len() + 1)?;
        thieves.push(first.tools.queue.own.stealer()?)?;
        let mut others = Vec::with_capacity(alloc, rest.len())?;
        while !rest.is_empty() {
            let place = Place::new(alloc, others.len() as u32 + 1, rest.remove(0), capacity)?;
            thieves.push(place.tools.queue.own.stealer()?)?;
            others.push(place)?;
        }
        Ok(PoolRoom {
            first,
            others,
            shared: Shared {
                followers,
                claims,
                thieves,
                idle: IdleWorkers::new(),
                awaited: AtomicCell::new(0),
                over: AtomicCell::new(false),
            },
        })
    }

    /// The seat of the first place. The others are dropped.
    pub fn into_first(self) -> T
        requires seat { IsSome self.first.seat }
        ensures { self.first.seat ≡ Some result }
    {
        let PoolRoom {
            first,
            others: _,
            shared: _,
        } = self;
        first.into_seat()
    }
}

// A worker's own open jobs, which other workers may steal.
ghost use Rattle.std.specs.Prelude.{◌≡◌, ◌≤◌, IfOk};
ghost use Rattle.crossbeam_deque.specs.Handles.{worker_capacity, worker_index};

use crossbeam_deque::protocol::Free;
use crossbeam_deque::{Steal, Stealer, Worker};
use frame_core::Board;
use job_base::{JobId, NoMemory};
use std::alloc::Global;

/// A deque of jobs that takes no memory: it has as many slots as its worker makes pushes.
///
/// Fewer slots don't do. Where the slots are used again, a push that meets a thief halfway through its steal makes the
/// deque grow, also where it isn't full.
#[derive(Drop)]
pub struct Queue {
    pub own: Worker<JobId>,
    pub pushes: u64,
    pub capacity: u64,
    pub ghost room: { capacity ≤ worker_capacity own },
    pub ghost index: { worker_index own ≤ pushes },
}

impl Queue {
    ghost use Rattle.steal_pool.specs.Seats.{MayOpenNone};

    /// An empty deque with room for so many pushes, whatever is popped in between.
    pub fn new(alloc: Global, capacity: usize) -> Result<Queue, NoMemory>
        ensures room { IfOk result (λ queue. queue.capacity ≡ capacity) }
    {
        let own = Worker::new_lifo(alloc, capacity)?;
        Ok(Queue {
            own,
            pushes: 0,
            capacity: capacity as u64,
        })
    }

    /// Offers a job to all workers, by the worker of that seat, which has no piece left to open: whoever finds the job
    /// can begin its pieces. A push past the capacity would be left out. There is none: the capacity is twice the
    /// number of jobs, and a worker opens a job at most once, and offers it again at most once.
    pub fn offer<B: Board>(&mut self, _seat: &B::Seat, job: JobId)
        requires opened { MayOpenNone (B.know _seat.now) }
    {
        if self.pushes < self.capacity {
            let pushed = self.own.push_as::<Free>(job);
            self.pushes += 1;
            match pushed {
                Ok(()) => {}
                Err(_) => unreachable!(),
            }
        }
    }

    /// The newest job of its own, or else the oldest one of another's. It looks at the others in turn from the place
    /// after its own on, so that thieves don't all meet at the first one.
    pub fn find(&mut self, worker: u32, thieves: &[Stealer<JobId>]) -> Option<JobId> {
        if let Some(job) = self.own.pop() {
            return Some(job);
        }
        let behind = thieves.len().min(worker as usize + 1);
        steal(&thieves[behind..]).or_else(|| steal(&thieves[..behind]))
    }
}

// The oldest job of the first of them that has one.
fn steal(thieves: &[Stealer<JobId>]) -> Option<JobId> {
    for thief in thieves {
        if let Steal::Success(job) = thief.steal() {
            return Some(job);
        }
    }
    None
}

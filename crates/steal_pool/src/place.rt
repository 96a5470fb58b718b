// What one worker has.
ghost use Rattle.std.specs.Prelude.{◌≡◌, IfOk, IsSome, Some};

use crate::queue::Queue;
use job_base::{JobId, NoMemory};
use kernel_machine::Scratch;
use std::alloc::Global;

/// What a worker works with.
#[derive(Drop)]
pub struct Tools {
    pub number: u32,
    pub queue: Queue,
    /// The job whose pieces it runs, one after another, while it has some left.
    pub at_hand: Option<JobId>,
    /// It found no piece, and counts among those who search.
    pub searching: bool,
    pub scratch: Scratch,
}

/// The place of a worker. Its seat is away while the worker runs.
#[derive(Drop)]
pub struct Place<S> {
    pub seat: Option<S>,
    pub tools: Tools,
}

impl<S: Drop> Place<S> {
    /// The place of that number, whose deque has room for so many pushes.
    pub fn new(alloc: Global, number: u32, seat: S, capacity: usize) -> Result<Place<S>, NoMemory>
        ensures seat { IfOk result (λ place. place.seat ≡ Some seat) }
        ensures room { IfOk result (λ place. place.tools.queue.capacity ≡ capacity) }
    {
        let queue = Queue::new(alloc, capacity)?;
        let scratch = Scratch::new(alloc)?;
        Ok(Place {
            seat: Some(seat),
            tools: Tools {
                number,
                queue,
                at_hand: None,
                searching: false,
                scratch,
            },
        })
    }

    /// Its seat.
    pub fn into_seat(self) -> S
        requires { IsSome self.seat }
        ensures { self.seat ≡ Some result }
    {
        let Place { seat, tools: _ } = self;
        match seat {
            Some(held) => held,
            None => unreachable!(),
        }
    }
}

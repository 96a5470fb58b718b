// What a worker does while it finds no piece: it searches, and after some turns it sleeps. No clause speaks of this.
ghost use Rattle.std.specs.Prelude.{◌≡◌, ◌<◌};
ghost use Rattle.frame_core.specs.Ordered.{IsWellOrderedPlan};
ghost use Rattle.steal_pool.specs.Crews.{IsCrewOf};
ghost use Rattle.frame_core.specs.Names.{IsJobOf};
ghost use Rattle.steal_pool.specs.Seats.{IsIdle, IsOn};

use crate::crew::{Crew, Shared};
use crate::place::Tools;
use crossbeam_deque::Stealer;
use crossbeam_utils::Backoff;
use frame_core::Board;
use job_base::{Gate, JobId};
use std::sync::Wait;

// Whether a job is offered in one of the deques.
fn is_any_offered(thieves: &[Stealer<JobId>]) -> bool {
    for thief in thieves {
        if !thief.is_empty() {
            return true;
        }
    }
    false
}

// This worker counts among those who search.
fn begin_search(shared: &Shared, tools: &mut Tools) {
    if !tools.searching {
        tools.searching = true;
        shared.idle.search();
    }
}

/// This worker turns to something else than looking for jobs. Where somebody sleeps, nobody searches, and a job is
/// offered, it wakes a sleeper first.
pub fn leave_search(shared: &Shared, tools: &mut Tools) {
    let needed = if tools.searching {
        tools.searching = false;
        shared.idle.found()
    } else {
        shared.idle.is_needed()
    };
    if needed && is_any_offered(&shared.thieves) {
        shared.idle.wake_one();
    }
}

/// A job is finished. If the script's thread sleeps for it, all sleepers are woken, since none can be picked.
pub fn wake_script(shared: &Shared, job: JobId) {
    if shared.awaited.load() == job.0 {
        shared.idle.wake_all();
    }
}

// How many small pieces of a job a worker takes at once. Few more would gain little, and be held back from others.
const MOST_AT_ONCE: u32 = 16;

/// Whom a worker tells that there is something to do, and how much it takes at once. No clause speaks of whom it tells.
pub trait Waking {
    /// How many small pieces of a job this worker takes at once, at most.
    fn most_pieces() -> u32
        ensures some { 0 < result };

    /// This worker turns to something else than looking for jobs.
    fn leave_search(shared: &Shared, tools: &mut Tools);

    /// A job is finished.
    fn end_job(shared: &Shared, job: JobId);
}

/// Those who sleep: a worker that finds no piece sleeps, until it is woken.
pub struct Sleepers;

impl Waking for Sleepers {
    fn most_pieces() -> u32 {
        MOST_AT_ONCE
    }

    fn leave_search(shared: &Shared, tools: &mut Tools) {
        leave_search(shared, tools);
    }

    fn end_job(shared: &Shared, job: JobId) {
        wake_script(shared, job);
    }
}

/// Nobody: who finds no piece goes back to its caller. In a library that other languages link a call that could wake
/// somebody can't be stated, not even where nobody sleeps.
pub struct NoSleepers;

impl Waking for NoSleepers {
    /// One, since its caller waits for the turn.
    fn most_pieces() -> u32 {
        1
    }

    fn leave_search(_shared: &Shared, _tools: &mut Tools) {}

    fn end_job(_shared: &Shared, _job: JobId) {}
}

/// The script is through. The workers end as soon as they find nothing more.
pub fn end_workers(shared: &Shared) {
    shared.over.store(true);
    shared.idle.wake_all();
}

/// What a worker does after a turn in which it found no piece.
pub fn pause<R: Wait>(rt: &R, shared: &Shared, tools: &mut Tools, backoff: &Backoff) {
    begin_search(shared, tools);
    if !backoff.is_completed() {
        backoff.snooze();
        return;
    }
    backoff.reset();
    let announced = shared.idle.announce();
    if is_any_offered(&shared.thieves) || shared.over.load() {
        shared.idle.stay(announced);
    } else {
        shared.idle.sleep(rt, announced);
    }
}

/// What the script's thread does, while it waits for a job, after a turn in which it found no piece.
pub fn pause_for<R: Wait, B: Board, G: Gate>(
    crew: &Crew<R, B, G>,
    tools: &mut Tools,
    seat: B::Seat,
    job: JobId,
    backoff: &Backoff,
) -> B::Seat
    requires crew { IsCrewOf crew.now.plan.now (B.plan crew.now.board.now) crew.now.shared.now }
    requires home { B.home seat ≡ B.name crew.now.board.now }
    requires idle { IsIdle (B.know seat) }
    requires job { IsJobOf crew.now.plan.now job }
    ensures home { B.home result ≡ B.home seat }
    ensures idle { IsIdle (B.know result) }
    ensures on { IsOn (B.know seat) (B.know result) }
{
    let shared = crew.shared;
    begin_search(shared, tools);
    if !backoff.is_completed() {
        backoff.snooze();
        return seat;
    }
    backoff.reset();
    shared.awaited.store(job.0);
    let announced = shared.idle.announce();
    let mut own = seat;
    let finished = crew.board.finished(&mut own, job);
    if finished || is_any_offered(&shared.thieves) {
        shared.idle.stay(announced);
    } else {
        shared.idle.sleep(crew.rt, announced);
    }
    shared.awaited.store(0);
    own
}

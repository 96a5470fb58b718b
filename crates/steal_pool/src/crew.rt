// What the workers of a run share.

use crossbeam_deque::Stealer;
use crossbeam_utils::atomic::AtomicCell;
use frame_core::Plan;
use idle_workers::IdleWorkers;
use job_base::JobId;
use piece_claims::{Claims, Followers};

/// What all workers of a room share.
#[derive(Drop)]
pub struct Shared {
    pub followers: Followers,
    pub claims: Claims,
    /// The other ends of all deques, in the order of their places.
    pub thieves: Vec<Stealer<JobId>>,
    /// Who searches for pieces and who sleeps. No clause speaks of this, nor of what follows.
    pub idle: IdleWorkers,
    /// The job for which the script's thread sleeps, or 0, which is the number of no job.
    pub awaited: AtomicCell<u32>,
    /// The script is through, so the workers may end.
    pub over: AtomicCell<bool>,
}

/// What a worker has of a run, beside its own place.
#[derive(Drop)]
pub struct Crew<'a, R, B, G> {
    pub rt: &'a R,
    pub plan: &'a Plan,
    pub board: &'a B,
    pub gate: &'a G,
    pub shared: &'a Shared,
}

// Which job a held range still waits for.
ghost use Rattle.std.specs.Prelude.{◌≡◌, ℕ, ◌<◌, ◌≤◌, true, false, IfSome, IfNone};
ghost use Rattle.job_handle.specs.Sets.{jobs_of};

use job_base::JobId;
use job_base::limits::MOST_JOBS;
use job_handle::Handle;

// How many jobs below the one that was noted are looked at, before all are.
const NEAR: u32 = 8;

/// A user that isn't completed: one just below the job that was noted, or else the latest. Where jobs are completed
/// from the latest down, the next one is near, and a set of jobs is seldom gone through.
pub(crate) fn pending_of(users: &Handle, completed: &Handle, noted: u32) -> Option<JobId>
    requires { noted ≤ MOST_JOBS }
    ensures some { IfSome result (λ j. (0 < j.0) × (jobs_of users.now j.0 ≡ true)
        × (jobs_of completed.now j.0 ≡ false)) }
    ensures none { IfNone result ((j : ℕ) → jobs_of users.now j ≡ true → jobs_of completed.now j ≡ true) }
{
    match pending_near(users, completed, noted) {
        Some(job) => Some(job),
        None => users.latest_outside(completed),
    }
}

/// A user just below a job that isn't completed, or none where it is further off.
fn pending_near(users: &Handle, completed: &Handle, noted: u32) -> Option<JobId>
    requires { noted ≤ MOST_JOBS }
    ensures { IfSome result (λ j. (0 < j.0) × (jobs_of users.now j.0 ≡ true) × (jobs_of completed.now j.0 ≡ false)) }
{
    for k in 0..NEAR.min(noted.saturating_sub(1)) {
        let job = JobId(noted - 1 - k);
        if users.has(job) && !completed.has(job) {
            return Some(job);
        }
    }
    None
}

//! Sets of jobs from lists of them.
ghost use Rattle.std.specs.Prelude.{◌≡◌, ◌<◌, ◌≤◌, ◌||◌, ℕ, All};
ghost use Rattle.job_base.specs.declared.JobId.{JobId};
ghost use Rattle.job_base.specs.declared.limits.TheConstants.{MOST_JOBS};
ghost use Rattle.frame_core.specs.Names.{has_job};
ghost use Rattle.job_handle.specs.Sets.{jobs_of};

use job_base::JobId;
use job_handle::Handle;

/// A set with some jobs more.
pub(crate) fn with_all(set: &Handle, jobs: &[JobId]) -> Handle
    requires { All (λ (id : JobId). (0 < id.0) × (id.0 ≤ MOST_JOBS)) jobs.now }
    ensures { (n : ℕ) → jobs_of result n ≡ (jobs_of set.now n || has_job jobs.now n) }
{
    let mut all = *set;
    for id in jobs {
        all = all.combine(&Handle::of(*id));
    }
    all
}

// How long the script's thread waited.
ghost use Rattle.std.specs.Prelude.{◌<◌, ◌≤◌, All};
ghost use Rattle.job_base.specs.declared.JobId.{JobId};
ghost use Rattle.job_base.specs.declared.limits.TheConstants.{MOST_JOBS};

use crate::notes::Notes;
use frame_record::Found;
use job_base::JobId;
use job_handle::Handle;
use trace_text::Wait;

/// Adds some jobs to a set, and says how many of them it hadn't.
pub(crate) fn add_fresh(set: &mut Handle, jobs: &[JobId]) -> u32
    requires { All (λ (id : JobId). (0 < id.0) × (id.0 ≤ MOST_JOBS)) jobs.now }
{
    let mut count = 0u32;
    for id in jobs {
        if !set.has(*id) {
            count = count.saturating_add(1);
            set.insert(*id);
        }
    }
    count
}

/// The wait between two segments for so many jobs, where there are some.
pub(crate) fn wait_between(
    notes: Notes<'_>,
    earlier: Option<Found>,
    later: Found,
    jobs: u32,
) -> Option<Wait> {
    let Some(earlier) = earlier else {
        return None;
    };
    if jobs == 0 {
        return None;
    }
    Some(Wait {
        jobs,
        waited: notes.stretch(later.worker, earlier.left, later.entered),
    })
}

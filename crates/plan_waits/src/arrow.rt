//! A wait, and why it is there.
ghost use Rattle.std.specs.Prelude.{◌≡◌, ◌<◌, ◌≤◌, All, IfOk, map};
ghost use Rattle.job_base.specs.declared.JobId.{JobId};
ghost use Rattle.job_base.specs.declared.limits.TheConstants.{MOST_JOBS};
ghost use Rattle.job_handle.specs.Sets.{jobs_of};
ghost use Rattle.plan_waits.specs.Marks.{arrow_of};

use job_base::{JobId, NoMemory};
use job_handle::Handle;
use std::alloc::Global;

/// Why a job waits for another one.
#[derive(Clone, Copy, Debug, PartialEq, Eq)]
pub enum Cause {
    /// It is among its dependencies, and the script hadn't completed it.
    Depends,
    /// The script had completed it before it scheduled the job.
    ///
    /// <https://docs.unity3d.com/ScriptReference/Unity.Jobs.JobHandle.Complete.html>
    Completed,
}

/// A wait of a job that none of its other waits implies.
#[derive(Clone, Copy, Debug, PartialEq, Eq)]
pub struct Arrow {
    /// The job that is waited for.
    pub from: JobId,
    pub cause: Cause,
}

/// An arrow from each of some jobs. Those of a set were completed.
pub(crate) fn mark(
    alloc: Global,
    completed: &Handle,
    jobs: &[JobId],
) -> Result<Vec<Arrow>, NoMemory>
    requires { All (λ (id : JobId). (0 < id.0) × (id.0 ≤ MOST_JOBS)) jobs.now }
    ensures { IfOk result (λ found. found.items ≡ map (arrow_of (jobs_of completed.now)) jobs.now) }
{
    let mut arrows = Vec::new(alloc);
    for id in jobs {
        let cause = if completed.has(*id) {
            Cause::Completed
        } else {
            Cause::Depends
        };
        arrows.push(Arrow { from: *id, cause })?;
    }
    Ok(arrows)
}

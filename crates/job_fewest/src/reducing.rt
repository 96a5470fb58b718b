//! The fewest jobs of a set that lead to all of it.
ghost use Rattle.std.specs.Prelude.{◌≤◌, ◌≡◌, IfOk, length};
ghost use Rattle.job_base.specs.declared.limits.TheConstants.{MOST_JOBS};
ghost use Rattle.frame_ast.specs.Laws.{AreUpTo};
ghost use Rattle.job_handle.specs.Sets.{jobs_of, HaveOwnJobs};
ghost use Rattle.job_fewest.specs.Fewest.{IsFewest, IsClosure};

use job_base::{JobId, NoMemory};
use job_handle::Handle;
use std::alloc::Global;

/// The fewest jobs of a set that lead to all of it.
#[derive(Drop)]
pub struct Reduction {
    /// In falling order.
    pub jobs: Vec<JobId>,
    /// These jobs and all that they wait for.
    pub closure: Handle,
}

/// Of some jobs the fewest that lead to all the others. Row j - 1 has job j and all that it waits for, which are
/// earlier jobs. It costs a step for each row, and a union for each job that is answered.
///
/// <https://en.wikipedia.org/wiki/Transitive_reduction>
pub fn fewest(alloc: Global, wanted: &Handle, rows: &[Handle]) -> Result<Reduction, NoMemory>
    requires few { length rows.now ≤ MOST_JOBS }
    requires own { HaveOwnJobs (length rows.now) rows.now }
    requires known { AreUpTo (length rows.now) (jobs_of wanted.now) }
    ensures fewest { IfOk result (λ found. IsFewest rows.now (jobs_of wanted.now) found.jobs.items) }
    ensures closure { IfOk result (λ found. IsClosure rows.now found.jobs.items (jobs_of found.closure)) }
{
    let mut closure = Handle::empty();
    let mut jobs = Vec::new(alloc);
    let count = rows.len() as u32;
    for back in 0..count {
        let job = JobId(count - back);
        if wanted.has(job) && !closure.has(job) {
            jobs.push(job)?;
            closure = closure.combine(&rows[job.0 as usize - 1]);
        }
    }
    Ok(Reduction { jobs, closure })
}

// What is known of a new job before its plan has it: how it is cut, and what it waits for.
ghost use Rattle.std.specs.Prelude.{◌≡◌, ◌≤◌, true, IfOk, slice_get};
ghost use Rattle.job_base.specs.declared.limits.TheConstants.{MOST_INDEXES};
ghost use Rattle.frame_ast.specs.Accepted.{cut_fits};
ghost use Rattle.frame_ast.specs.Laws.{AreUpTo};
ghost use Rattle.job_handle.specs.Books.{count_of};
ghost use Rattle.job_handle.specs.Sets.{jobs_of};
ghost use Rattle.plan_state.specs.Works.{batch_for, is_small};
ghost use Rattle.plan_schedules.specs.Starting.{AreLater, IsCutBy};

use batch_cut::{Cut, cut};
use job_base::{JobId, NoMemory};
use job_handle::Handle;
use plan_state::{SMALL_WORK, World};
use std::alloc::Global;

// How a kernel that isn't parallel is cut: one index, in one piece.
const ONE: Cut = Cut { n: 1, step: 1 };

/// The cut of the two numbers of a schedule, by what is kept of the work of kernels.
pub(crate) fn cut_of(works: &[Option<u32>], kernel: u32, given: Option<(u32, u32)>) -> Cut
    requires { cut_fits given ≡ true }
    ensures { IsCutBy works.now kernel given result }
{
    match given {
        None => ONE,
        Some((n, batch)) => cut(n, batch_for(works, kernel, n, batch)),
    }
}

/// The batch with which so many indexes of a kernel are cut: all of them, where they are little work.
fn batch_for(works: &[Option<u32>], kernel: u32, n: u32, batch: u32) -> u32
    requires indexes { n ≤ MOST_INDEXES }
    requires batch { (1 ≤ batch) × (batch ≤ MOST_INDEXES) }
    ensures batch { result ≡ batch_for works.now kernel n batch }
    ensures fits { (1 ≤ result) × (result ≤ MOST_INDEXES) }
{
    if is_small(works, kernel, n) {
        n.max(batch)
    } else {
        batch
    }
}

/// Whether so many indexes of a kernel are little work.
fn is_small(works: &[Option<u32>], kernel: u32, n: u32) -> bool
    ensures { result ≡ is_small (slice_get works.now kernel) n }
{
    match works.get(kernel as usize) {
        Some(Some(work)) => u64::from(*work) * u64::from(n) <= u64::from(SMALL_WORK),
        Some(None) | None => false,
    }
}

/// The jobs of this section among some jobs, by their numbers in the plan.
pub(crate) fn later_jobs(
    world: &World,
    alloc: Global,
    jobs: &Handle,
) -> Result<Vec<JobId>, NoMemory>
    requires before { world.now.jobs_before ≤ count_of world.now.jobs }
    requires jobs { AreUpTo (count_of world.now.jobs) (jobs_of jobs.now) }
    ensures { IfOk result (λ later.
        AreLater world.now.jobs_before (count_of world.now.jobs) (jobs_of jobs.now) later.items) }
{
    let none = world.jobs.nobody();
    let mut later = Vec::new(alloc);
    let mut at = world.jobs_before;
    while let Some(job) = jobs.next_outside(none, at, world.jobs.count()) {
        later.push(JobId(job.0 - world.jobs_before))?;
        at = job.0;
    }
    Ok(later)
}

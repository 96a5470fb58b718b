// Whether jobs of little work are cut, and what the planner keeps for it.
ghost use Rattle.std.specs.Prelude.{◌≡◌, IfOk};
ghost use Rattle.frame_ast.specs.Accepted.{IsAccepted};
ghost use Rattle.frame_plan.specs.Works.{works_by};

use frame_ast::script::Script;
use job_base::NoMemory;
use plan_state::work_of;
use std::alloc::Global;

/// How jobs of little work are cut: those whose indexes have at most [`plan_state::SMALL_WORK`] nodes together, where
/// that is known of their kernels. What a script prints is the same either way.
#[derive(Clone, Copy, Debug, PartialEq, Eq)]
pub enum SmallJobs {
    /// As their schedules say, like each other job: so who looks at the pieces sees them as they are scheduled.
    Cut,
    /// Not at all: each is one piece, since to share it among workers costs more than it gains.
    Whole,
}

/// How much work an index of each kernel is, where jobs of little work aren't cut.
pub(crate) fn works_of(
    alloc: Global,
    script: &Script,
    small_jobs: SmallJobs,
) -> Result<Vec<Option<u32>>, NoMemory>
    requires accepted { IsAccepted script.now }
    ensures { IfOk result (λ works. works.items ≡ works_by small_jobs script.now.kernels.items) }
{
    match small_jobs {
        SmallJobs::Cut => Ok(Vec::new(alloc)),
        SmallJobs::Whole => each_work(alloc, script),
    }
}

/// How much work an index of each kernel is.
fn each_work(alloc: Global, script: &Script) -> Result<Vec<Option<u32>>, NoMemory>
    requires accepted { IsAccepted script.now }
    ensures { IfOk result (λ works. works.items ≡ works_by SmallJobs.Whole script.now.kernels.items) }
{
    let mut works = Vec::new(alloc);
    for kernel in &script.kernels {
        works.push(work_of(kernel))?;
    }
    Ok(works)
}

// `complete`: jobs are completed with their ancestors, and what follows waits for those that weren't before.
ghost use Rattle.std.specs.Prelude.{◌≡◌, ◌≤◌, ℕ, IfOk, IfErr};
ghost use Rattle.frame_ast.specs.declared.script.Order.TheVariants.{Complete as CompleteOf};
ghost use Rattle.frame_ast.specs.Laws.{AreUpTo};
ghost use Rattle.job_handle.specs.Books.{count_of};
ghost use Rattle.job_handle.specs.Sets.{jobs_of};
ghost use Rattle.slot_store.specs.Places.{users_of};
ghost use Rattle.slot_store.specs.Stores.{place_of};
ghost use Rattle.plan_state.specs.declared.state.PlanFault.TheVariants as fault;
ghost use Rattle.plan_state.specs.Answers.{Answers, IsReadyFor};
ghost use Rattle.plan_statements.specs.Completions.{AreNotCompleted, IsCompletion};

use job_base::{JobId, NoMemory};
use job_handle::Handle;
use plan_state::{Answer, PlanFault, World};
use std::alloc::Global;

/// `complete`, which is never refused.
pub fn complete(world: &mut World, alloc: Global, name: u32) -> Result<Answer, PlanFault>
    requires ready { IsReadyFor world.old (CompleteOf name) }
    ensures answers { IfOk result (Answers world.old world.new (CompleteOf name)) }
    ensures memory { IfErr result (λ f. f ≡ fault.NoMemory) }
{
    let value = world.values[name as usize];
    let jobs = world.jobs_of(value);
    complete_jobs(world, alloc, &jobs)
}

/// Some jobs are completed with their ancestors, and ranges come back that were held for them. Where all are completed
/// already, so are their ancestors, and nothing is left to do.
pub(crate) fn complete_jobs(
    world: &mut World,
    alloc: Global,
    jobs: &Handle,
) -> Result<Answer, PlanFault>
    requires known { AreUpTo (count_of world.old.jobs) (jobs_of jobs.now) }
    requires before { world.old.jobs_before ≤ count_of world.old.jobs }
    requires users { (k : ℕ) → AreUpTo (count_of world.old.jobs) (users_of (place_of world.old.store k).state) }
    ensures completion { IfOk result (IsCompletion world.old world.new (jobs_of jobs.now)) }
    ensures memory { IfErr result (λ f. f ≡ fault.NoMemory) }
{
    if world.jobs.next_open(jobs, world.jobs_before).is_none() {
        return Ok(Answer::Nothing);
    }
    let all = world.jobs.closure(jobs);
    let newly = not_completed(world, alloc, &all)?;
    world.jobs.complete(jobs);
    world.store.settle(&world.jobs);
    Ok(Answer::Waits { jobs: newly })
}

/// The jobs of a set that aren't completed, in rising order and numbered as in the plan.
fn not_completed(world: &World, alloc: Global, all: &Handle) -> Result<Vec<JobId>, NoMemory>
    requires { world.now.jobs_before ≤ count_of world.now.jobs }
    ensures { IfOk result (λ ids. AreNotCompleted world.now (jobs_of all.now) ids.items) }
{
    let mut ids = Vec::new(alloc);
    let mut at = world.jobs_before;
    while let Some(job) = world.jobs.next_open(all, at) {
        ids.push(JobId(job.0 - world.jobs_before))?;
        at = job.0;
    }
    Ok(ids)
}

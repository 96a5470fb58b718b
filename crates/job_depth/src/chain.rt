// The chain that ends with a job.
ghost use Rattle.std.specs.Prelude.{◌≡◌, ◌<◌, ◌≤◌, ℕ, [], Some, None, IfOk, IfSome};
ghost use Rattle.frame_core.specs.Ordered.{IsWellOrderedPlan};
ghost use Rattle.job_depth.specs.Chains.{job_count, number_of_job, ChosenTo};
ghost use Rattle.job_depth.specs.Direct.{AreFound};

use crate::levels::Found;
use frame_core::Plan;
use job_base::{JobId, NoMemory};
use std::alloc::Global;

/// The chosen chain that ends with a job, and an empty one for none.
pub(crate) fn chain_to(
    alloc: Global,
    plan: &Plan,
    found: &Found,
    last: Option<JobId>,
) -> Result<Vec<JobId>, NoMemory>
    requires well { IsWellOrderedPlan plan.now }
    requires found { AreFound plan.now found.now.levels.items found.now.before.items }
    requires job { IfSome last (λ id. (0 < id.0) × (id.0 ≤ job_count plan.now)) }
    ensures none { IfOk result (λ chain. last ≡ None → chain.items ≡ []) }
    ensures some { IfOk result (λ chain. (j : ℕ) → last ≡ Some (number_of_job j)
        → ChosenTo plan.now found.now.levels.items chain.items j) }
{
    let mut chain = Vec::new(alloc);
    let mut job = last;
    while let Some(id) = job {
        chain.push(id)?;
        job = found.before[id.0 as usize - 1];
    }
    chain.reverse();
    Ok(chain)
}

// How a report is made.
ghost use Rattle.std.specs.Prelude.{◌≡◌, ◌≤◌, IfOk};
ghost use Rattle.job_base.specs.declared.limits.TheConstants.{MOST_WORKERS};
ghost use Rattle.frame_core.specs.Ordered.{IsWellOrderedPlan};
ghost use Rattle.job_depth.specs.Depths.{IsDepthOf};

use crate::chain::chain_to;
use crate::levels::{highest, level_jobs};
use crate::report::Depth;
use crate::rounds::{pack, widths_of};
use frame_core::Plan;
use job_base::NoMemory;
use std::alloc::Global;

/// How many rounds a planned frame takes, and why no fewer.
///
/// <https://docs.unity3d.com/Manual/job-system-job-dependencies.html>
pub fn depth(alloc: Global, plan: &Plan, workers: u32) -> Result<Depth, NoMemory>
    requires well { IsWellOrderedPlan plan.now }
    requires workers { (1 ≤ workers) × (workers ≤ MOST_WORKERS) }
    ensures { IfOk result (IsDepthOf plan.now workers) }
{
    let found = level_jobs(alloc, plan)?;
    let top = highest(&found.levels);
    let widths = widths_of(alloc, plan, &found.levels, top.level)?;
    let packing = pack(&widths, workers);
    let chain = chain_to(alloc, plan, &found, top.job)?;
    let enough = plan.job_pieces().div_ceil(workers);
    Ok(Depth {
        rounds: top.level,
        levels: found.levels,
        widest: packing.widest,
        workers,
        packed: packing.rounds,
        least: enough.max(top.level),
        chain,
    })
}

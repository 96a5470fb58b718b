//! The arrows of all jobs, along the segments.
ghost use Rattle.std.specs.Prelude.{IfOk};
ghost use Rattle.frame_core.specs.Ordered.{IsWellOrderedPlan};
ghost use Rattle.plan_waits.specs.Arrows.{AreArrows};

use crate::arrow::{Arrow, mark};
use crate::sets::with_all;
use frame_core::Plan;
use job_base::NoMemory;
use job_fewest::fewest;
use job_handle::Handle;
use std::alloc::Global;

/// For each job of a plan, job 1 first, the fewest waits that imply all others: its arrows, from the latest job on.
pub fn arrows(alloc: Global, plan: &Plan) -> Result<Vec<Vec<Arrow>>, NoMemory>
    requires { IsWellOrderedPlan plan.now }
    ensures { IfOk result (λ found. AreArrows plan.now found.items) }
{
    let mut rows = Vec::new(alloc);
    let mut found = Vec::new(alloc);
    let mut completed = Handle::empty();
    for segment in &plan.segments {
        completed = with_all(&completed, &segment.waits);
        if let Some(id) = segment.starts {
            let job = &plan.jobs[id.0 as usize - 1];
            let wanted = with_all(&completed, &job.deps);
            let least = fewest(alloc, &wanted, &rows)?;
            let own = mark(alloc, &completed, &least.jobs)?;
            found.push(own)?;
            rows.push(least.closure.combine(&Handle::of(id)))?;
        }
    }
    Ok(found)
}

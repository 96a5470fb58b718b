// The plan so far becomes a whole one.
ghost use Rattle.std.specs.Prelude.{◌≡◌, IfOk, OnOk};
ghost use Rattle.job_base.specs.declared.limits.TheConstants.{MOST_JOBS};
ghost use Rattle.frame_ast.specs.declared.script.Script.{Script};
ghost use Rattle.plan_state.specs.Growth.{first_jobs};
ghost use Rattle.frame_plan.specs.Names.{AreNamesOf};
ghost use Rattle.frame_plan.specs.Runs.{IsInside, IsFinished, IsEmptied};

use frame_ast::NameTexts;
use frame_core::{Plan, Segment};
use job_base::{JobId, NoMemory};
use plan_state::{Draft, Planner};
use std::alloc::Global;
use std::mem;

/// The plan so far as a whole one: the segment at hand is closed, and a last one waits for every job. The planner
/// keeps all else that it knows, and the places of kernels' copies.
pub(crate) fn finish(
    planner: &mut Planner,
    alloc: Global,
    names: NameTexts,
) -> Result<Plan, NoMemory>
    requires { (script : Script) × IsInside script planner.old }
    ensures plan { (script : Script) → AreNamesOf script names → IfOk result (IsFinished script planner.old) }
    ensures names { IfOk result (λ plan. plan.names ≡ names) }
    ensures emptied { OnOk result (IsEmptied planner.old planner.new) }
{
    let all = all_jobs(alloc, planner.draft.jobs.len() as u32)?;
    let cells = planner.world.store.peak();
    let Draft {
        kernels,
        codes,
        literals,
        mut segments,
        jobs,
        waits,
        ops,
        pieces,
        first,
        copies_of,
        guards_of,
    } = mem::replace(&mut planner.draft, Draft::none(alloc));
    // The next section begins with the kernels of this one.
    planner.draft.copies_of = copies_of;
    planner.draft.guards_of = guards_of;
    segments.push(Segment {
        waits,
        ops,
        starts: None,
    })?;
    segments.push(Segment {
        waits: all,
        ops: Vec::new(alloc),
        starts: None,
    })?;
    Ok(Plan {
        kernels,
        codes,
        names,
        literals,
        jobs,
        segments,
        first,
        cells,
        words: cells + pieces,
    })
}

/// So many jobs, in their order.
fn all_jobs(alloc: Global, count: u32) -> Result<Vec<JobId>, NoMemory>
    ensures { IfOk result (λ ids. ids.items ≡ first_jobs count) }
{
    let mut ids = Vec::new(alloc);
    for j in 0..count {
        ids.push(JobId(j + 1))?;
    }
    Ok(ids)
}

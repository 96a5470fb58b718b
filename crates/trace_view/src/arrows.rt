// The arrows of a section.
ghost use Rattle.std.specs.Prelude.{◌≡◌, ◌++◌, ◌<◌, ◌≤◌, IfOk, OnOk, length, map};
ghost use Rattle.job_base.specs.declared.limits.TheConstants.{MOST_JOBS};
ghost use Rattle.frame_core.specs.Ordered.{IsWellOrderedPlan};
ghost use Rattle.trace_view.specs.Shapes.{arrow_shape, arrow_shape_of, arrow_shapes};

use crate::ends::{Ends, ends_at, ends_by_job};
use crate::notes::Notes;
use frame_core::Plan;
use job_base::{JobId, NoMemory};
use plan_waits::Arrow;
use std::alloc::Global;
use trace_text::ArrowTrace;

// The number of an arrow after so many of this section, and so many of earlier ones.
fn number_after(before: u32, count: usize) -> u32 {
    match u32::try_from(count) {
        Ok(count) => before.saturating_add(count),
        Err(_) => u32::MAX,
    }
}

// The arrow of a wait of a job, with the number after those of the arrows before it.
fn arrow_trace(
    notes: Notes<'_>,
    ends: &[Ends],
    number: u32,
    later: JobId,
    arrow: Arrow,
) -> ArrowTrace
    ensures { arrow_shape result ≡ arrow_shape_of later.0 arrow }
{
    ArrowTrace {
        number,
        earlier: arrow.from.0,
        later: later.0,
        from: notes.end_at(ends_at(ends, arrow.from).last),
        to: notes.end_at(ends_at(ends, later).first),
    }
}

// Adds the arrows of a job. `before` is how many arrows earlier sections have.
fn add_arrows(
    notes: Notes<'_>,
    ends: &[Ends],
    before: u32,
    later: JobId,
    arrows: &[Arrow],
    traces: &mut Vec<ArrowTrace>,
) -> Result<(), NoMemory>
    ensures { OnOk result (map arrow_shape traces.new.items ≡ map arrow_shape traces.old.items
        ++ map (arrow_shape_of later.0) arrows.now) }
{
    for arrow in arrows {
        let number = number_after(before, traces.len());
        traces.push(arrow_trace(notes, ends, number, later, *arrow))?;
    }
    Ok(())
}

/// The arrows of all jobs, job 1 first.
pub(crate) fn arrow_traces(
    alloc: Global,
    plan: &Plan,
    notes: Notes<'_>,
    before: u32,
    found: &[Vec<Arrow>],
) -> Result<Vec<ArrowTrace>, NoMemory>
    requires well { IsWellOrderedPlan plan.now }
    requires few { length found.now ≤ MOST_JOBS }
    ensures { IfOk result (λ traces. map arrow_shape traces.items ≡ arrow_shapes 1 found.now) }
{
    let ends = ends_by_job(alloc, plan, notes)?;
    let mut traces = Vec::new(alloc);
    for j in 0..found.len() {
        let later = JobId(j as u32 + 1);
        add_arrows(notes, &ends, before, later, &found[j], &mut traces)?;
    }
    Ok(traces)
}

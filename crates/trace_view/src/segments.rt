// The segments of a section.
ghost use Rattle.std.specs.Prelude.{◌≡◌, ◌<◌, ◌^◌, IfOk, length, map};
ghost use Rattle.frame_core.specs.Names.{numbers_from};
ghost use Rattle.frame_core.specs.Ordered.{IsWellOrderedPlan};
ghost use Rattle.trace_view.specs.Shapes.{segment_number, shown_numbers};

use crate::jobs::line_of;
use crate::notes::Notes;
use crate::waits::{add_fresh, wait_between};
use frame_ast::script::Script;
use frame_core::{Op, Plan, Segment};
use frame_record::Found;
use frame_view::Story;
use job_base::{JobId, NoMemory};
use job_handle::Handle;
use std::alloc::Global;
use trace_text::{Lines, SegmentTrace};

// The line of the schedule that ends a segment, where it is known.
fn scheduled_line(script: &Script, story: &Story, starts: Option<JobId>) -> Option<u32> {
    let id = starts?;
    line_of(script, story, id.0.checked_sub(1)? as usize)
}

fn lines_between(first: u32, last: u32) -> Lines {
    if first == last {
        Lines::One(first)
    } else {
        Lines::Between { first, last }
    }
}

fn first_line(ops: &[Op]) -> Option<u32> {
    Some(ops.first()?.line)
}

fn last_line(ops: &[Op]) -> Option<u32> {
    Some(ops.last()?.line)
}

// The lines of the first and of the last statement of a segment that left something to do.
fn lines_of(segment: &Segment, scheduled: Option<u32>) -> Lines {
    let first = first_line(&segment.ops);
    match (first, last_line(&segment.ops), scheduled) {
        (Some(first), _, Some(line)) => lines_between(first, line),
        (Some(first), Some(last), None) => lines_between(first, last),
        (_, _, Some(line)) => Lines::One(line),
        (_, _, None) => Lines::Nothing,
    }
}

// All segments of a plan, in their order.
fn segment_traces(
    alloc: Global,
    script: &Script,
    plan: &Plan,
    story: &Story,
    notes: Notes<'_>,
) -> Result<Vec<SegmentTrace>, NoMemory>
    requires well { IsWellOrderedPlan plan.now }
    ensures { IfOk result (λ traces. map segment_number traces.items
        ≡ numbers_from 1 (length plan.now.segments.items)) }
{
    let pieces = plan.job_pieces();
    let mut awaited = Handle::empty();
    let mut earlier: Option<Found> = None;
    let mut traces = Vec::with_capacity(alloc, plan.segments.len())?;
    for k in 0..plan.segments.len() {
        let segment = &plan.segments[k];
        let found = notes.of(pieces + k as u32);
        let jobs = add_fresh(&mut awaited, &segment.waits);
        traces.push(SegmentTrace {
            number: k as u32 + 1,
            lines: lines_of(segment, scheduled_line(script, story, segment.starts)),
            wait: wait_between(notes, earlier, found, jobs),
            ran: notes.ran(found),
        })?;
        earlier = Some(found);
    }
    Ok(traces)
}

/// The segments that are shown: all of a plan with jobs, and else none.
pub(crate) fn shown_segments(
    alloc: Global,
    script: &Script,
    plan: &Plan,
    story: &Story,
    notes: Notes<'_>,
) -> Result<Vec<SegmentTrace>, NoMemory>
    requires well { IsWellOrderedPlan plan.now }
    ensures { IfOk result (λ traces. map segment_number traces.items
        ≡ shown_numbers plan.now.jobs.items (length plan.now.segments.items)) }
{
    if plan.jobs.is_empty() {
        return Ok(Vec::new(alloc));
    }
    segment_traces(alloc, script, plan, story, notes)
}

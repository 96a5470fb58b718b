// A section of a run.
ghost use Rattle.std.specs.Prelude.{◌≡◌, IfOk};
ghost use Rattle.frame_core.specs.Ordered.{IsWellOrderedPlan};
ghost use Rattle.trace_view.specs.Timelines.{IsTimelineOf};

use crate::arrows::arrow_traces;
use crate::jobs::job_traces;
use crate::notes::Notes;
use crate::segments::shown_segments;
use frame_ast::script::Script;
use frame_core::Plan;
use frame_view::Story;
use job_base::NoMemory;
use plan_waits::arrows;
use std::alloc::Global;
use trace_text::{SectionTrace, Stretch};

/// Where a section stands among those of a run.
#[derive(Clone, Copy)]
pub struct Place {
    /// From 1.
    pub number: u32,
    /// How many jobs and how many arrows earlier sections have.
    pub jobs: u32,
    pub arrows: u32,
    /// When it was planned, where a section was run before it.
    pub planned: Option<Stretch>,
    /// How long it took.
    pub ran: Stretch,
}

// A section without jobs is run at one go, and nothing is noted of its segments.
fn alone(plan: &Plan, ran: Stretch) -> Option<Stretch> {
    if plan.jobs.is_empty() {
        Some(ran)
    } else {
        None
    }
}

/// What is shown of a section's run. `story` is what became of its schedules.
pub fn section_trace(
    alloc: Global,
    script: &Script,
    plan: &Plan,
    story: &Story,
    place: Place,
    notes: Notes<'_>,
) -> Result<SectionTrace, NoMemory>
    requires well { IsWellOrderedPlan plan.now }
    ensures timeline { IfOk result (IsTimelineOf script.now plan.now story.now) }
    ensures jobs { IfOk result (λ s. s.jobs_before ≡ place.jobs) }
{
    let found = arrows(alloc, plan)?;
    Ok(SectionTrace {
        number: place.number,
        jobs_before: place.jobs,
        planned: place.planned,
        alone: alone(plan, place.ran),
        segments: shown_segments(alloc, script, plan, story, notes)?,
        jobs: job_traces(alloc, script, plan, story, notes)?,
        arrows: arrow_traces(alloc, plan, notes, place.arrows, &found)?,
    })
}

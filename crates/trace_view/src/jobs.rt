// The jobs of a section.
ghost use Rattle.std.specs.Prelude.{◌≡◌, ◌<◌, IfOk, length, map, slice_index, string_bytes};
ghost use Rattle.job_base.specs.declared.limits.TheConstants.{MOST_JOBS};
ghost use Rattle.frame_core.specs.Ordered.{IsCutIn, IsWellOrderedPlan};
ghost use Rattle.frame_view.specs.Boxes.{maker_of};
ghost use Rattle.trace_view.specs.Shapes.{job_shape, job_shapes, kernel_name, line_by, shape_of_job};

use crate::notes::Notes;
use crate::pieces::piece_traces;
use frame_ast::script::Script;
use frame_core::{JobPlan, Plan};
use frame_view::Story;
use job_base::NoMemory;
use std::alloc::{AllocError, Global};
use trace_text::JobTrace;

// A copy of the name of a job's kernel.
fn kernel_name(alloc: Global, plan: &Plan, job: &JobPlan) -> Result<String, AllocError>
    ensures { IfOk result (λ name. string_bytes name ≡ kernel_name plan.now job.now) }
{
    match plan.kernels.get(job.kernel as usize) {
        Some(kernel) => String::from_str(alloc, kernel.name.as_str()),
        None => Ok(String::new(alloc)),
    }
}

/// The line of the schedule that made the job at a place, where the story has it.
pub(crate) fn line_of(script: &Script, story: &Story, j: usize) -> Option<u32>
    ensures { result ≡ line_by (maker_of script.now story.now j) }
{
    match story.made.get(j) {
        Some(at) => match script.statements.get(*at) {
            Some(statement) => Some(statement.line),
            None => None,
        },
        None => None,
    }
}

// The job at a place among the plan's jobs.
fn job_trace(
    alloc: Global,
    script: &Script,
    plan: &Plan,
    story: &Story,
    notes: Notes<'_>,
    j: usize,
    job: &JobPlan,
) -> Result<JobTrace, NoMemory>
    requires few { j < MOST_JOBS }
    requires cut { IsCutIn job.now }
    ensures { IfOk result (λ t. job_shape t ≡ shape_of_job script.now plan.now story.now j job.now) }
{
    let kernel = kernel_name(alloc, plan, job)?;
    let pieces = piece_traces(alloc, notes, job)?;
    Ok(JobTrace {
        kernel,
        number: j as u32 + 1,
        line: line_of(script, story, j),
        pieces,
    })
}

/// All jobs of a plan, in their order.
pub(crate) fn job_traces(
    alloc: Global,
    script: &Script,
    plan: &Plan,
    story: &Story,
    notes: Notes<'_>,
) -> Result<Vec<JobTrace>, NoMemory>
    requires well { IsWellOrderedPlan plan.now }
    ensures { IfOk result (λ traces. map job_shape traces.items
        ≡ job_shapes script.now plan.now story.now 0 plan.now.jobs.items) }
{
    let mut traces = Vec::with_capacity(alloc, plan.jobs.len())?;
    for j in 0..plan.jobs.len() {
        let trace = job_trace(alloc, script, plan, story, notes, j, &plan.jobs[j])?;
        traces.push(trace)?;
    }
    Ok(traces)
}

// The boxes of jobs.
ghost use Rattle.std.specs.Prelude.{◌≡◌, ◌<◌, IfOk, map, option_and_then, slice_get, string_bytes};
ghost use Rattle.job_base.specs.declared.limits.TheConstants.{MOST_JOBS};
ghost use Rattle.frame_core.specs.Ordered.{IsCutIn, IsWellOrderedPlan};
ghost use Rattle.frame_view.specs.Boxes.{box_of, job_box, job_boxes, lines_by, lines_in, plain_lines};

use crate::chain::kind_of;
use crate::story::Story;
use frame_ast::script::{Order, Script, Statement};
use frame_core::{JobPlan, Plan};
use job_base::{JobId, NoMemory};
use job_depth::Depth;
use schedule_text::{Size, job_lines};
use std::alloc::Global;
use view_text::Node;

// The line of a job whose schedule isn't known.
fn plain_lines(alloc: Global, number: u32) -> Result<Vec<String>, NoMemory>
    ensures { IfOk result (λ lines. map (λ v. string_bytes v) lines.items ≡ plain_lines number) }
{
    let mut lines = Vec::new(alloc);
    lines.push(format!(in alloc; "job {number}")?)?;
    Ok(lines)
}

// The lines of a job's box, where its schedule is this statement.
fn lines_in(
    alloc: Global,
    script: &Script,
    statement: &Statement,
    number: u32,
    size: Size,
) -> Result<Vec<String>, NoMemory>
    ensures { IfOk result (λ lines. map (λ v. string_bytes v) lines.items
        ≡ lines_in script.now number size statement.now.line statement.now.act) }
{
    if let Order::Schedule(job) = &statement.act {
        job_lines(alloc, script, statement.line, job, number, size)
    } else {
        plain_lines(alloc, number)
    }
}

// The lines of a job's box, where the place of its schedule may be known.
fn lines_of(
    alloc: Global,
    script: &Script,
    at: Option<usize>,
    number: u32,
    size: Size,
) -> Result<Vec<String>, NoMemory>
    ensures { IfOk result (λ lines. map (λ v. string_bytes v) lines.items
        ≡ lines_by script.now number size (option_and_then (slice_get script.now.statements.items) at)) }
{
    let statement = match at {
        Some(at) => script.statements.get(at),
        None => None,
    };
    match statement {
        Some(statement) => lines_in(alloc, script, statement, number, size),
        None => plain_lines(alloc, number),
    }
}

// The box of the job at a place among the plan's jobs, before which the script has so many.
fn job_node(
    alloc: Global,
    script: &Script,
    story: &Story,
    depth: &Depth,
    before: u32,
    j: usize,
    job: &JobPlan,
) -> Result<Node, NoMemory>
    requires few { j < MOST_JOBS }
    requires cut { IsCutIn job.now }
    ensures { IfOk result (λ node. box_of node ≡ job_box script.now story.now depth.now before j job.now) }
{
    let number = before.saturating_add(j as u32 + 1);
    let size = Size {
        indexes: job.cut.n,
        pieces: job.pieces(),
    };
    let lines = lines_of(alloc, script, story.made.get(j).copied(), number, size)?;
    Ok(Node {
        number,
        kind: kind_of(&depth.chain, JobId(j as u32 + 1)),
        level: depth.levels.get(j).copied().unwrap_or(0),
        lines,
    })
}

/// The boxes of a plan's jobs, in their order. `before` is how many jobs earlier sections have.
pub(crate) fn job_nodes(
    alloc: Global,
    script: &Script,
    plan: &Plan,
    story: &Story,
    depth: &Depth,
    before: u32,
) -> Result<Vec<Node>, NoMemory>
    requires well { IsWellOrderedPlan plan.now }
    ensures { IfOk result (λ nodes. map box_of nodes.items
        ≡ job_boxes script.now story.now depth.now before 0 plan.now.jobs.items) }
{
    let mut nodes = Vec::new(alloc);
    for j in 0..plan.jobs.len() {
        let node = job_node(alloc, script, story, depth, before, j, &plan.jobs[j])?;
        nodes.push(node)?;
    }
    Ok(nodes)
}

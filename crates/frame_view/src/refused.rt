// The boxes of refused schedules, and the arrows from the jobs that block them.
ghost use Rattle.std.specs.Prelude.{◌≡◌, ◌++◌, ◌<◌, ◌≤◌, IfOk, OnOk, length, map, slice_get, string_bytes};
ghost use Rattle.job_base.specs.declared.limits.TheConstants.{MOST_STATEMENTS};
ghost use Rattle.frame_view.specs.Arrows.{block_lines, line_of};
ghost use Rattle.frame_view.specs.Boxes.{blocker_in, blocker_of, box_of, level_after, refused_box, refused_boxes, refused_lines_in, refused_lines_by};

use crate::story::{Refused, Story};
use frame_ast::script::{Order, Script, Statement};
use job_base::{JobId, NoMemory, Refusal};
use job_depth::Depth;
use schedule_text::{name_of, refused_lines};
use std::alloc::Global;
use view_text::{Kind, Link, Node, Tie};

// The job that blocks a schedule.
fn blocker_of(refusal: Refusal) -> Option<JobId>
    ensures { result ≡ blocker_of refusal }
{
    match refusal {
        Refusal::Pending(job) => Some(job),
        Refusal::Disposed
        | Refusal::StaleView
        | Refusal::NotParallel
        | Refusal::Alias
        | Refusal::StoreFull
        | Refusal::Range
        | Refusal::Full
        | Refusal::MissingKey
        | Refusal::PresentKey
        | Refusal::TempInJob
        | Refusal::Busy(_) => None,
    }
}

// The same where it is a job of the plan, before which the script has so many.
fn blocker_in(refusal: Refusal, before: u32) -> Option<JobId>
    ensures { result ≡ blocker_in before refusal }
{
    match blocker_of(refusal) {
        Some(id) => { if before < id.0 { Some(id) } else { None } }
        None => None,
    }
}

// The level of a refused schedule: after that of the job of the plan that blocks it, and else 1.
fn level_of(depth: &Depth, refusal: Refusal, before: u32) -> u32
    ensures { result ≡ level_after depth.now.levels.items before (blocker_in before refusal) }
{
    match blocker_in(refusal, before) {
        Some(id) => match id.0.saturating_sub(before).checked_sub(1) {
            Some(j) => depth
                .levels
                .get(j as usize)
                .copied()
                .unwrap_or(0)
                .saturating_add(1),
            None => 1,
        },
        None => 1,
    }
}

// The lines of a refused schedule's box, where it is this statement.
fn lines_in(
    alloc: Global,
    script: &Script,
    statement: &Statement,
    refused: Refused,
) -> Result<Vec<String>, NoMemory>
    ensures { IfOk result (λ lines. map (λ v. string_bytes v) lines.items
        ≡ refused_lines_in script.now refused statement.now.line statement.now.act) }
{
    if let Order::Schedule(job) = &statement.act {
        refused_lines(
            alloc,
            script,
            statement.line,
            job,
            refused.refusal,
            refused.name,
        )
    } else {
        Ok(Vec::new(alloc))
    }
}

// The lines of a refused schedule's box.
fn lines_of(alloc: Global, script: &Script, refused: Refused) -> Result<Vec<String>, NoMemory>
    ensures { IfOk result (λ lines. map (λ v. string_bytes v) lines.items
        ≡ refused_lines_by script.now refused (slice_get script.now.statements.items refused.at)) }
{
    match script.statements.get(refused.at) {
        Some(statement) => lines_in(alloc, script, statement, refused),
        None => Ok(Vec::new(alloc)),
    }
}

// The box of a refused schedule of that number.
fn refused_node(
    alloc: Global,
    script: &Script,
    depth: &Depth,
    refused: Refused,
    before: u32,
    number: u32,
) -> Result<Node, NoMemory>
    ensures { IfOk result (λ node. box_of node ≡ refused_box script.now depth.now before number refused) }
{
    let lines = lines_of(alloc, script, refused)?;
    Ok(Node {
        number,
        kind: Kind::Refused,
        level: level_of(depth, refused.refusal, before),
        lines,
    })
}

/// Adds the boxes of the refused schedules, in their order. `before` is how many jobs earlier sections have.
pub(crate) fn add_refused(
    alloc: Global,
    script: &Script,
    story: &Story,
    depth: &Depth,
    before: u32,
    nodes: &mut Vec<Node>,
) -> Result<(), NoMemory>
    requires few { length story.now.refused.items ≤ MOST_STATEMENTS }
    ensures { OnOk result (map box_of nodes.new.items ≡ map box_of nodes.old.items
        ++ refused_boxes script.now depth.now before 1 story.now.refused.items) }
{
    for i in 0..story.refused.len() {
        let node = refused_node(alloc, script, depth, story.refused[i], before, i as u32 + 1)?;
        nodes.push(node)?;
    }
    Ok(())
}

/// Adds an arrow from each job that blocks a schedule, where it is a job of the plan: an earlier one has no box.
pub(crate) fn add_blocks(
    alloc: Global,
    script: &Script,
    story: &Story,
    before: u32,
    links: &mut Vec<Link>,
) -> Result<(), NoMemory>
    requires few { length story.now.refused.items ≤ MOST_STATEMENTS }
    ensures { OnOk result (map line_of links.new.items ≡ map line_of links.old.items
        ++ block_lines before 1 story.now.refused.items) }
{
    for i in 0..story.refused.len() {
        let refused = story.refused[i];
        if let Some(id) = blocker_in(refused.refusal, before) {
            links.push(Link {
                from: id.0,
                to: i as u32 + 1,
                tie: Tie::Blocks,
                label: String::from_str(alloc, name_of(script, refused.name))?,
            })?;
        }
    }
    Ok(())
}

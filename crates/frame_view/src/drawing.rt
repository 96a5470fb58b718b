// The picture of a plan.
ghost use Rattle.std.specs.Prelude.{◌≡◌, ◌≤◌, IfOk, length, map};
ghost use Rattle.job_base.specs.declared.limits.TheConstants.{MOST_STATEMENTS, MOST_WORKERS};
ghost use Rattle.frame_core.specs.Ordered.{IsWellOrderedPlan};
ghost use Rattle.frame_view.specs.Boxes.{box_of, greatest_level};
ghost use Rattle.frame_view.specs.Pictures.{IsPictureAt, IsPictureOf};

use crate::boxes::job_nodes;
use crate::head::head_text;
use crate::links::links_of;
use crate::place::Place;
use crate::refused::{add_blocks, add_refused};
use crate::story::Story;
use frame_ast::script::Script;
use frame_core::Plan;
use job_base::NoMemory;
use job_depth::depth;
use plan_waits::arrows;
use std::alloc::Global;
use view_text::{Node, Picture};

// The greatest level of some boxes.
fn greatest_level(nodes: &[Node]) -> u32
    ensures { result ≡ greatest_level 0 (map box_of nodes.now) }
{
    let mut greatest = 0;
    for node in nodes {
        greatest = node.level.max(greatest);
    }
    greatest
}

/// The picture of a script's plan, with the levels and the chain that its depth report has for so many workers. `story`
/// is what [`follow_part`](crate::follow_part) found of both, and `place` where the plan stands in the script.
pub fn draw_at(
    alloc: Global,
    script: &Script,
    plan: &Plan,
    story: &Story,
    place: Place,
    workers: u32,
) -> Result<Picture, NoMemory>
    requires well { IsWellOrderedPlan plan.now }
    requires few { length story.now.refused.items ≤ MOST_STATEMENTS }
    requires workers { (1 ≤ workers) × (workers ≤ MOST_WORKERS) }
    ensures { IfOk result (IsPictureAt script.now plan.now story.now place workers) }
{
    let depth = depth(alloc, plan, workers)?;
    let found = arrows(alloc, plan)?;
    let mut nodes = job_nodes(alloc, script, plan, story, &depth, place.before)?;
    add_refused(alloc, script, story, &depth, place.before, &mut nodes)?;
    let mut links = links_of(alloc, script, plan, story, &depth, place.before, &found)?;
    add_blocks(alloc, script, story, place.before, &mut links)?;
    Ok(Picture {
        number: place.number,
        head: head_text(alloc, plan, story, &depth)?,
        levels: greatest_level(&nodes),
        nodes,
        links,
    })
}

/// The same of a script without a `when`, which is one section.
pub fn draw(
    alloc: Global,
    script: &Script,
    plan: &Plan,
    story: &Story,
    workers: u32,
) -> Result<Picture, NoMemory>
    requires well { IsWellOrderedPlan plan.now }
    requires few { length story.now.refused.items ≤ MOST_STATEMENTS }
    requires workers { (1 ≤ workers) × (workers ≤ MOST_WORKERS) }
    ensures { IfOk result (IsPictureOf script.now plan.now story.now workers) }
{
    let place = Place {
        number: 1,
        before: 0,
    };
    draw_at(alloc, script, plan, story, place, workers)
}

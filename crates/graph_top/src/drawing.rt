// The texts of pictures.
ghost use Rattle.std.specs.Prelude.{◌≤◌, ◌≡◌, IfOk, length, string_bytes};
ghost use Rattle.job_base.specs.declared.limits.TheConstants.{MOST_WORKERS};
ghost use Rattle.frame_ast.specs.Accepted.{IsAccepted};
ghost use Rattle.frame_core.specs.Ordered.{IsWellOrderedPlan};
ghost use Rattle.frame_view.specs.Parts.{whole};
ghost use Rattle.frame_view.specs.Pictures.{only_place};
ghost use Rattle.graph_top.specs.Drawn.{IsDrawn, IsDrawnAt, IsTextOf, head_of};

use frame_ast::script::Script;
use frame_core::Plan;
use frame_view::{Part, Place, draw, draw_at, follow, follow_part};
use job_base::NoMemory;
use std::alloc::{AllocError, Global};
use view_text::{PAGE_HEAD, Picture, dot_text, svg_text};

/// What comes before all pictures: the head of a page, and nothing in the language of Graphviz.
pub(crate) fn head_text(alloc: Global, dot: bool) -> Result<String, AllocError>
    ensures { IfOk result (λ s. string_bytes s ≡ head_of dot) }
{
    if dot {
        Ok(String::new(alloc))
    } else {
        String::from_str(alloc, PAGE_HEAD)
    }
}

// A picture in the language of Graphviz, or as a part of a page.
fn text_of(alloc: Global, picture: &Picture, dot: bool) -> Result<String, AllocError>
    ensures { IfOk result (λ s. IsTextOf dot picture.now (string_bytes s)) }
{
    if dot {
        dot_text(alloc, picture)
    } else {
        svg_text(alloc, picture)
    }
}

/// The text of the picture of a section's plan. `part` has its statements, and `place` says where it stands in the
/// script.
pub(crate) fn section_text(
    alloc: Global,
    script: &Script,
    part: Part,
    plan: &Plan,
    place: Place,
    workers: u32,
    dot: bool,
) -> Result<String, NoMemory>
    requires accepted { IsAccepted script.now }
    requires well { IsWellOrderedPlan plan.now }
    requires within { part.to ≤ length script.now.statements.items }
    requires workers { (1 ≤ workers) × (workers ≤ MOST_WORKERS) }
    ensures { IfOk result (λ s. IsDrawnAt script.now part plan.now place workers dot (string_bytes s)) }
{
    let story = follow_part(alloc, script, part, plan)?;
    let picture = draw_at(alloc, script, plan, &story, place, workers)?;
    let text = text_of(alloc, &picture, dot)?;
    Ok(text)
}

// The text of the picture of a plan of the whole script.
fn plan_text(
    alloc: Global,
    script: &Script,
    plan: &Plan,
    workers: u32,
    dot: bool,
) -> Result<String, NoMemory>
    requires accepted { IsAccepted script.now }
    requires well { IsWellOrderedPlan plan.now }
    requires workers { (1 ≤ workers) × (workers ≤ MOST_WORKERS) }
    ensures { IfOk result (λ s. IsDrawnAt script.now (whole script.now) plan.now only_place workers dot
        (string_bytes s)) }
{
    let story = follow(alloc, script, plan)?;
    let picture = draw(alloc, script, plan, &story, workers)?;
    let text = text_of(alloc, &picture, dot)?;
    Ok(text)
}

/// The whole text of the picture of a script's plan.
pub(crate) fn picture_text(
    alloc: Global,
    script: &Script,
    plan: &Plan,
    workers: u32,
    dot: bool,
) -> Result<String, NoMemory>
    requires accepted { IsAccepted script.now }
    requires well { IsWellOrderedPlan plan.now }
    requires workers { (1 ≤ workers) × (workers ≤ MOST_WORKERS) }
    ensures { IfOk result (λ s. IsDrawn script.now plan.now workers dot (string_bytes s)) }
{
    let picture = plan_text(alloc, script, plan, workers, dot)?;
    let mut text = head_text(alloc, dot)?;
    text.push_str(picture.as_str())?;
    Ok(text)
}

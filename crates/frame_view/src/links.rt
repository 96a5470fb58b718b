// The arrows between jobs.
ghost use Rattle.std.specs.Prelude.{◌≡◌, ◌++◌, ◌<◌, ◌≤◌, IfOk, OnOk, length, map};
ghost use Rattle.job_base.specs.declared.limits.TheConstants.{MOST_JOBS};
ghost use Rattle.frame_view.specs.Arrows.{arrow_line, arrow_lines, is_step, line_of, tie_of};

use crate::chain::is_step;
use crate::labels::label_of;
use crate::looks::args_at;
use crate::story::Story;
use frame_ast::script::{Arg, Script};
use frame_core::Plan;
use job_base::{JobId, NoMemory};
use job_depth::Depth;
use plan_waits::{Arrow, Cause};
use std::alloc::Global;
use view_text::{Link, Tie};

// What the arrows of a plan are drawn from. Before its jobs the script has so many others.
#[derive(Clone, Copy)]
struct Scene<'a> {
    script: &'a Script,
    plan: &'a Plan,
    depth: &'a Depth,
    before: u32,
}

fn tie_of(cause: Cause, is_step: bool) -> Tie
    ensures { result ≡ tie_of cause is_step }
{
    match (cause, is_step) {
        (Cause::Depends, false) => Tie::Depends,
        (Cause::Depends, true) => Tie::DependsOnChain,
        (Cause::Completed, false) => Tie::Completed,
        (Cause::Completed, true) => Tie::CompletedOnChain,
    }
}

// The arguments of the schedule that made the job at a place.
fn args_of<'a>(script: &'a Script, story: &Story, j: usize) -> &'a [Arg] {
    match story.made.get(j) {
        Some(at) => args_at(script, *at),
        None => &[],
    }
}

// The arrow of a wait. What the script completed may have given its words back, so such an arrow names no containers.
fn link_of(
    alloc: Global,
    scene: &Scene<'_>,
    args: &[Arg],
    later: JobId,
    arrow: Arrow,
) -> Result<Link, NoMemory>
    ensures { IfOk result (λ link. line_of link ≡ arrow_line scene.now.depth.now scene.now.before later.0 arrow) }
{
    let label = match arrow.cause {
        Cause::Depends => label_of(alloc, scene.script, scene.plan, arrow.from, later, args)?,
        Cause::Completed => String::new(alloc),
    };
    Ok(Link {
        from: scene.before.saturating_add(arrow.from.0),
        to: scene.before.saturating_add(later.0),
        tie: tie_of(arrow.cause, is_step(&scene.depth.chain, arrow.from, later)),
        label,
    })
}

// Adds the arrows of a job.
fn add_arrows(
    alloc: Global,
    scene: &Scene<'_>,
    args: &[Arg],
    later: JobId,
    arrows: &[Arrow],
    links: &mut Vec<Link>,
) -> Result<(), NoMemory>
    ensures { OnOk result (map line_of links.new.items ≡ map line_of links.old.items
        ++ map (arrow_line scene.now.depth.now scene.now.before later.0) arrows.now) }
{
    for arrow in arrows {
        let link = link_of(alloc, scene, args, later, *arrow)?;
        links.push(link)?;
    }
    Ok(())
}

/// The arrows of all jobs, the first one first. `before` is how many jobs earlier sections have.
pub(crate) fn links_of(
    alloc: Global,
    script: &Script,
    plan: &Plan,
    story: &Story,
    depth: &Depth,
    before: u32,
    found: &[Vec<Arrow>],
) -> Result<Vec<Link>, NoMemory>
    requires few { length found.now ≤ MOST_JOBS }
    ensures { IfOk result (λ links. map line_of links.items ≡ arrow_lines depth.now before 1 found.now) }
{
    let scene = Scene {
        script,
        plan,
        depth,
        before,
    };
    let mut links = Vec::new(alloc);
    for j in 0..found.len() {
        let later = JobId(j as u32 + 1);
        let args = args_of(script, story, j);
        add_arrows(alloc, &scene, args, later, &found[j], &mut links)?;
    }
    Ok(links)
}

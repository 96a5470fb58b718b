// What a picture says of the whole plan.
ghost use Rattle.std.specs.Prelude.{◌≡◌, IfOk, string_bytes};
ghost use Rattle.frame_core.specs.Ordered.{IsWellOrderedPlan};
ghost use Rattle.frame_view.specs.Pictures.{head_text, counts_text, rounds_text, workers_text};

use crate::story::Story;
use frame_core::Plan;
use job_depth::Depth;
use std::alloc::{AllocError, Global};

#[tactic(auto, unfolding(crate::specs::Pictures::counts_text))]
fn counts_text(
    alloc: Global,
    jobs: usize,
    pieces: u32,
    refused: usize,
) -> Result<String, AllocError>
    ensures { IfOk result (λ s. string_bytes s ≡ counts_text jobs pieces refused) }
{
    format!(in alloc; "jobs {jobs}, pieces {pieces}, refused {refused}")
}

#[tactic(auto, unfolding(crate::specs::Pictures::rounds_text))]
fn rounds_text(alloc: Global, depth: &Depth) -> Result<String, AllocError>
    ensures { IfOk result (λ s. string_bytes s ≡ rounds_text depth.now) }
{
    let rounds = depth.rounds;
    let widest = depth.widest;
    format!(in alloc; "; rounds {rounds}, widest {widest}")
}

#[tactic(auto, unfolding(crate::specs::Pictures::workers_text))]
fn workers_text(alloc: Global, depth: &Depth) -> Result<String, AllocError>
    ensures { IfOk result (λ s. string_bytes s ≡ workers_text depth.now) }
{
    let workers = depth.workers;
    let packed = depth.packed;
    let least = depth.least;
    format!(in alloc; ", workers {workers}: {packed} rounds, at least {least}")
}

/// How many jobs, pieces and refused schedules there are, and the numbers of the depth report.
pub(crate) fn head_text(
    alloc: Global,
    plan: &Plan,
    story: &Story,
    depth: &Depth,
) -> Result<String, AllocError>
    requires well { IsWellOrderedPlan plan.now }
    ensures { IfOk result (λ s. string_bytes s ≡ head_text plan.now story.now depth.now) }
{
    let counts = counts_text(
        alloc,
        plan.jobs.len(),
        plan.job_pieces(),
        story.refused.len(),
    )?;
    let rounds = rounds_text(alloc, depth)?;
    let workers = workers_text(alloc, depth)?;
    format!(in alloc; "{counts}{rounds}{workers}")
}

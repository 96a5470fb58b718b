// How many pieces each level has, and the rounds that workers take for them.
ghost use Rattle.std.specs.Prelude.{◌≡◌, ◌<◌, ◌≤◌, ◌^◌, ℕ, suc, length, get_or, IfOk};
ghost use Rattle.frame_core.specs.Names.{job_pieces};
ghost use Rattle.frame_core.specs.Ordered.{IsWellOrderedPlan};
ghost use Rattle.job_depth.specs.Rounds.{pieces_in, level_plan};
ghost use Rattle.job_depth.specs.Chains.{job_count};
ghost use Rattle.job_depth.specs.Packing.{AreLevels, IsGreatestOf, ceils, total};

use frame_core::Plan;
use job_base::NoMemory;
use std::alloc::Global;

/// The widest of some rounds, and how many rounds they take where the workers run so many pieces at once.
#[derive(Clone, Copy, Debug, PartialEq, Eq)]
pub(crate) struct Packing {
    pub(crate) widest: u32,
    pub(crate) rounds: u32,
}

/// How many pieces each level has, level 1 first.
pub(crate) fn widths_of(
    alloc: Global,
    plan: &Plan,
    levels: &[u32],
    highest: u32,
) -> Result<Vec<u32>, NoMemory>
    requires well { IsWellOrderedPlan plan.now }
    requires levels { AreLevels plan.now levels.now highest }
    ensures count { IfOk result (λ widths. length widths.items ≡ highest) }
    ensures widths { IfOk result (λ widths. (r : ℕ) → r < highest
        → get_or widths.items r 0 ≡ pieces_in plan.now (level_plan plan.now levels.now) (suc r)) }
{
    let mut widths = vec![in alloc; 0; highest as usize]?;
    for (j, job) in plan.jobs.iter().enumerate() {
        let place = levels[j] as usize - 1;
        widths[place] += job.pieces();
    }
    Ok(widths)
}

/// Goes through some widths.
pub(crate) fn pack(widths: &[u32], workers: u32) -> Packing
    requires fits { total widths.now < 2 ^ 32 }
    requires workers { 1 ≤ workers }
    ensures widest { IsGreatestOf widths.now result.widest }
    ensures rounds { result.rounds ≡ ceils workers widths.now }
{
    let mut widest = 0;
    let mut rounds = 0;
    for width in widths {
        widest = widest.max(*width);
        rounds += width.div_ceil(workers);
    }
    Packing { widest, rounds }
}

// Whole runs.
ghost use Rattle.std.specs.Prelude.{IfOk, MatchResult, ◌≡◌, ℕ, take};
ghost use Rattle.merge_laws.specs.Runs.{IsEnded, IsKept};
ghost use Rattle.frame_core.specs.Graphs.{graph_of, cells_after};
ghost use Rattle.frame_core.specs.Ordered.{IsWellOrderedPlan};
ghost use Rattle.frame_replay.specs.States.{IsReachedBy, AreLegal, RefusesRun, cells_in, state_after};

use crate::state::CoreState;
use frame_core::{CoreFault, Event, Plan};
use std::alloc::Global;

/// The state after some events, where each of them is legal where it stands.
pub fn replay(alloc: Global, plan: &Plan, events: &[Event]) -> Result<CoreState, CoreFault>
    requires well { IsWellOrderedPlan plan.now }
    ensures run { MatchResult result (IsReachedBy plan.now events.now)
        (λ fault. RefusesRun fault (AreLegal plan.now events.now)) }
    ensures merge { IfOk result (λ _. (n : ℕ)
        → IsKept (graph_of plan.now) (state_after plan.now (take n events.now))) }
    ensures ended { IfOk result (λ c. IsEnded (graph_of plan.now) (state_after plan.now events.now)
        → (w : ℕ) → cells_in c w ≡ cells_after plan.now w) }
{
    let Ok(mut state) = CoreState::start(alloc, plan) else {
        return Err(CoreFault::NoMemory);
    };
    for i in 0..events.len() {
        match state.step(alloc, plan, events[i]) {
            Ok(()) => {}
            Err(fault) => return Err(fault),
        }
    }
    Ok(state)
}

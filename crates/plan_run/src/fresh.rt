// The memory on which a plan begins.
ghost use Rattle.std.specs.Prelude.{◌≡◌, IfOk, length};
ghost use Rattle.job_base.specs.Cells.{cells_of};
ghost use Rattle.frame_core.specs.Ordered.{IsWellOrderedPlan};
ghost use Rattle.plan_run.specs.ScriptOrder.{AreFresh};

use frame_core::Plan;
use job_base::{FlatMem, NoMemory};

/// Fresh cells for a run of the plan, in a list that is needed no more: a copy of the plan's first cells, and zeros
/// behind them. The plan is lent, so that its first cells can't be run on in place.
pub fn fresh_cells(plan: &Plan, spare: Vec<i64>) -> Result<FlatMem, NoMemory>
    requires well { IsWellOrderedPlan plan.now }
    ensures size { IfOk result (λ m. length m ≡ plan.now.words) }
    ensures fresh { IfOk result (λ m. AreFresh plan.now (cells_of m)) }
{
    let mut cells = spare;
    cells.clear();
    cells.reserve(plan.words as usize)?;
    cells.extend_from_slice(&plan.first)?;
    cells.resize(plan.words as usize, 0)?;
    Ok(FlatMem::of(cells))
}

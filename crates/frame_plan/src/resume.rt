// A section begins after a test, with the words that the sections before it left.
ghost use Rattle.std.specs.Prelude.{◌≡◌, ◌≤◌, ℤ, List, length};
ghost use Rattle.job_base.specs.Cells.{cells_of, cell_list};
ghost use Rattle.slot_store.specs.Stores.{peak_of};
ghost use Rattle.frame_plan.specs.Resuming.{IsResumed};

use job_base::FlatMem;
use plan_state::Planner;

/// A section begins: its plan finds in the words so far what the last section left.
pub(crate) fn begin(planner: &mut Planner, cells: FlatMem)
    requires words { peak_of planner.old.world.store ≤ length cells }
    ensures resumed { IsResumed planner.old planner.new cells }
{
    let len = planner.world.store.peak();
    planner.world.jobs_before = planner.world.jobs.count();
    planner.draft.first = first_cells(cells, len);
}

/// The first cells of a memory, in its own list: none is moved.
fn first_cells(cells: FlatMem, len: u32) -> Vec<i64>
    requires { len ≤ length cells }
    ensures { result.items ≡ cell_list (cells_of cells) 0 len }
{
    let mut list = cells.into_cells();
    list.truncate(len as usize);
    list
}

// The run of a section without jobs: on plain cells, by the caller's own thread.
ghost use Rattle.std.specs.Prelude.{◌≡◌, ◌≤◌, Bool, IfOk, OnErr};
ghost use Rattle.frame_core.specs.Ordered.{IsWellOrderedPlan};
ghost use Rattle.frame_top.specs.Cells.{HasRunPlan};

use crate::section::SectionRun;
use frame_core::Plan;
use frame_print::Outgoing;
use job_base::{NoMemory, Sink};
use kernel_machine::Scratch;
use plan_run::{fresh_cells, run_alone};
use std::alloc::Global;

/// Runs a plan, and lets its lines wait in `out`, unless a write has `failed` before. It leaves its cells in `spare`, a
/// list that is needed no more. A section after a test copies the cells that the last one left once.
pub fn run_on_cells<S: Sink>(
    alloc: Global,
    plan: &Plan,
    failed: bool,
    spare: Vec<i64>,
    out: &mut Outgoing,
    sink: &mut S,
) -> Result<SectionRun, NoMemory>
    requires well { IsWellOrderedPlan plan.now }
    ensures run { (keeps : Bool)
        → IfOk result (HasRunPlan S.taken S.faults plan.now keeps sink.old out.old failed sink.new out.new) }
    ensures none { OnErr result ((sink.new ≡ sink.old) × (out.new ≡ out.old)) }
    ensures later { S.faults sink.old ≤ S.faults sink.new }
{
    let mut scratch = Scratch::new(alloc)?;
    let mut left = fresh_cells(plan, spare)?;
    let mut failed = failed;
    let report = run_alone(plan, &mut scratch, &mut left, out, sink, &mut failed);
    Ok(SectionRun {
        report,
        failed,
        left,
    })
}

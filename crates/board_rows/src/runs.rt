// Runs of a plan on either board.
ghost use Rattle.frame_core.specs.Ordered.{IsWellOrderedPlan};

use frame_core::Plan;
use frame_rows::{BoardKind, run_kind};
use job_base::{Gate, MemSink};
use plan_run::RunEnd;
use std::alloc::Global;
use std::sync::Wait;
use std::test::Fail;
use std::thread::Threads;

/// The boards and the numbers of workers that give the same.
pub const RUNS: [(BoardKind, u32); 6] = [
    (BoardKind::Words, 1),
    (BoardKind::Words, 4),
    (BoardKind::Words, 64),
    (BoardKind::Lock, 1),
    (BoardKind::Lock, 4),
    (BoardKind::Lock, 64),
];

// The exit status of a run.
fn status_of(end: RunEnd) -> u8 {
    let report = end.report();
    if end.is_fault() {
        7
    } else if report.traps > 0 {
        5
    } else if report.refused > 0 {
        1
    } else {
        0
    }
}

/// Runs a plan on a new board, with so many workers, and gives the exit status.
pub fn run_plan<R: Threads + Wait + Send + Sync + Copy + Drop, G: Gate + Sync>(
    rt: R,
    alloc: Global,
    plan: &Plan,
    kind: BoardKind,
    workers: u32,
    sink: &mut MemSink,
    gate: &G,
) -> Result<u8, Fail>
    requires well { IsWellOrderedPlan plan.now }
{
    let (end, _left) = run_kind(rt, alloc, plan, kind, workers, sink, gate)?;
    Ok(status_of(end))
}

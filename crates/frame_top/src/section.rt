// The run of one section.
ghost use Rattle.std.specs.Prelude.{◌≡◌, ◌≤◌, IfOk, OnErr};
ghost use Rattle.job_base.specs.declared.limits.TheConstants.{MOST_WORKERS};
ghost use Rattle.frame_core.specs.Ordered.{IsWellOrderedPlan};
ghost use Rattle.frame_top.specs.Cells.{HasRunPlan};

use crate::on_board::run_on_board;
use crate::on_cells::run_on_cells;
use crate::workers::Workers;
use frame_core::{Plan, Report};
use frame_print::Outgoing;
use job_base::{FlatMem, Gate, NoMemory, Sink};
use std::mem;
use std::sync::Wait;
use std::thread::Threads;

/// Lists that go from the run of one section to that of the next, so that large ones are taken once. What stands in
/// them is of no use.
#[derive(Drop)]
pub struct SpareLists {
    /// For the cells that a section leaves.
    pub cells: Vec<i64>,
    /// For the words of which a board is made.
    pub words: Vec<u64>,
}

/// What is asked of the run of a section.
#[derive(Clone, Copy)]
pub struct Asked {
    /// Its cells are needed afterwards.
    pub keeps: bool,
    /// A write failed before it, so nothing more is written.
    pub failed: bool,
}

/// What the run of a section comes to.
#[derive(Drop)]
pub struct SectionRun {
    /// Of the whole section, whatever was written.
    pub report: Report,
    /// A write failed, of this section or of an earlier one.
    pub failed: bool,
    /// The cells, where they were asked for.
    pub left: FlatMem,
}

/// Runs the plan of a section as it is [`Asked`], and lets its lines wait in `out`. Where it has jobs, these workers
/// run it on a board; else the caller's thread runs it, which is all that it needs. Large lists are those of `spare`.
pub fn run_section<R: Threads + Wait + Sync, S: Sink, G: Gate + Sync>(
    workers: &Workers<R>,
    plan: &Plan,
    asked: Asked,
    spare: &mut SpareLists,
    out: &mut Outgoing,
    sink: &mut S,
    gate: &G,
) -> Result<SectionRun, NoMemory>
    requires well { IsWellOrderedPlan plan.now }
    requires workers { (1 ≤ workers.now.count) × (workers.now.count ≤ MOST_WORKERS) }
    ensures run { IfOk result (HasRunPlan S.taken S.faults plan.now asked.keeps sink.old out.old asked.failed
        sink.new out.new) }
    ensures none { OnErr result ((sink.new ≡ sink.old) × (out.new ≡ out.old)) }
    ensures later { S.faults sink.old ≤ S.faults sink.new }
{
    if plan.jobs.is_empty() {
        let alloc = workers.alloc;
        let cells = mem::replace(&mut spare.cells, Vec::new(alloc));
        run_on_cells(alloc, plan, asked.failed, cells, out, sink)
    } else {
        run_on_board(workers, plan, asked, spare, out, sink, gate)
    }
}

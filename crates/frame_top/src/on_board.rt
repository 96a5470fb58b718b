// The run of a section with jobs: on a board of its own, by as many workers as have work.
ghost use Rattle.std.specs.Prelude.{◌≡◌, ◌≤◌, length, min, ◌+◌, false, true, IfOk, OnErr};
ghost use Rattle.job_base.specs.declared.limits.TheConstants.{MOST_WORKERS};
ghost use Rattle.frame_core.specs.Names.{job_pieces};
ghost use Rattle.frame_core.specs.Ordered.{IsWellOrderedPlan};
ghost use Rattle.frame_core.specs.Output.{plan_lines};
ghost use Rattle.plan_run.specs.Runs.{RunsBetween};
ghost use Rattle.frame_top.specs.Cells.{AreCellsOf, HasRunPlan};

use crate::section::{Asked, SectionRun, SpareLists};
use crate::workers::Workers;
use frame_core::{Board, Plan};
use frame_print::Outgoing;
use job_base::{FlatMem, Gate, NoMemory, NullSink, Sink};
use plan_run::RunEnd;
use std::alloc::Global;
use std::mem;
use std::sync::Wait;
use std::thread::Threads;
use steal_pool::laws::rooms_are_ready;
use steal_pool::{PoolRoom, ShowsPlan, run_lines};
use word_board::WordBoard;

// How a plan ended on its board, and the cells that it left, where they were asked for.
#[derive(Drop)]
struct BoardRun {
    end: RunEnd,
    left: FlatMem,
}

// How many workers have work in a plan: the script's thread, and one for each piece of a job.
fn busy_workers(plan: &Plan, workers: u32) -> u32
    requires well { IsWellOrderedPlan plan.now }
    requires workers { 1 ≤ workers }
    ensures busy { result ≡ min workers (job_pieces plan.now + 1) }
    ensures some { 1 ≤ result }
    ensures most { result ≤ workers }
{
    let pieces = plan.job_pieces();
    if pieces < workers {
        pieces + 1
    } else {
        workers
    }
}

// Cells for what a plan leaves, where they are asked for, in a list that is needed no more.
fn cells_for(plan: &Plan, keeps: bool, spare: Vec<i64>) -> Result<FlatMem, NoMemory>
    ensures { IfOk result (λ left. keeps ≡ true → length left ≡ plan.now.words) }
{
    let mut cells = spare;
    if keeps {
        cells.resize(plan.words as usize, 0)?;
    }
    Ok(FlatMem::of(cells))
}

// Runs a plan with these workers. All that the run needs is made before its first piece is begun, and is as large as
// the plan asks for.
//
// The plan stands behind a type parameter: beside a board and a room the checker can't show that threads may share it.
fn run_shown<R: Threads + Wait + Sync, P: ShowsPlan + Sync, S: Sink, G: Gate + Sync>(
    workers: &Workers<R>,
    plan: &P,
    keeps: bool,
    spare: &mut SpareLists,
    out: &mut Outgoing,
    sink: &mut S,
    gate: &G,
) -> Result<BoardRun, NoMemory>
    requires well { IsWellOrderedPlan (P.shown plan.now) }
    requires workers { (1 ≤ workers.now.count) × (workers.now.count ≤ MOST_WORKERS) }
    ensures run { IfOk result (λ r. RunsBetween S.taken S.faults (P.shown plan.now) (plan_lines (P.shown plan.now))
        sink.old out.old sink.new out.new r.end) }
    ensures left { IfOk result (λ r. keeps ≡ true → AreCellsOf (P.shown plan.now) r.left) }
    ensures none { OnErr result ((sink.new ≡ sink.old) × (out.new ≡ out.old)) }
    ensures later { S.faults sink.old ≤ S.faults sink.new }
{
    let alloc = workers.alloc;
    let cells = mem::replace(&mut spare.cells, Vec::new(alloc));
    let mut left = cells_for(plan.plan(), keeps, cells)?;
    let seats = busy_workers(plan.plan(), workers.count);
    let (board, made) = WordBoard::make_in(alloc, plan.plan(), seats, &mut spare.words)?;
    if !keeps {
        // No section comes after this one, so the list would only take memory while it runs.
        spare.words = Vec::new(alloc);
    }
    let mut room = PoolRoom::make(alloc, plan.plan(), made)?;
    rooms_are_ready::<WordBoard>();
    let end = run_lines(workers.rt, plan, &board, &mut room, out, sink, gate);
    if !keeps {
        return Ok(BoardRun { end, left });
    }
    board.close(room.into_first(), &mut left);
    Ok(BoardRun { end, left })
}

// Runs a plan with these workers. A failed write doesn't end the run, and is part of what it comes to.
fn run_plan<R: Threads + Wait + Sync, S: Sink, G: Gate + Sync>(
    workers: &Workers<R>,
    plan: &Plan,
    keeps: bool,
    spare: &mut SpareLists,
    out: &mut Outgoing,
    sink: &mut S,
    gate: &G,
) -> Result<SectionRun, NoMemory>
    requires well { IsWellOrderedPlan plan.now }
    requires workers { (1 ≤ workers.now.count) × (workers.now.count ≤ MOST_WORKERS) }
    ensures run { IfOk result (HasRunPlan S.taken S.faults plan.now keeps sink.old out.old false sink.new out.new) }
    ensures none { OnErr result ((sink.new ≡ sink.old) × (out.new ≡ out.old)) }
    ensures later { S.faults sink.old ≤ S.faults sink.new }
{
    let BoardRun { end, left } = run_shown(workers, plan, keeps, spare, out, sink, gate)?;
    match end {
        RunEnd::Done(report) => Ok(SectionRun {
            report,
            failed: false,
            left,
        }),
        RunEnd::WriteFault(report) => Ok(SectionRun {
            report,
            failed: true,
            left,
        }),
    }
}

/// Runs a plan with these workers as it is [`Asked`], and lets its lines wait in `out`. Large lists are those of
/// `spare`.
pub fn run_on_board<R: Threads + Wait + Sync, S: Sink, G: Gate + Sync>(
    workers: &Workers<R>,
    plan: &Plan,
    asked: Asked,
    spare: &mut SpareLists,
    out: &mut Outgoing,
    sink: &mut S,
    gate: &G,
) -> Result<SectionRun, NoMemory>
    requires well { IsWellOrderedPlan plan.now }
    requires workers { (1 ≤ workers.now.count) × (workers.now.count ≤ MOST_WORKERS) }
    ensures run { IfOk result (HasRunPlan S.taken S.faults plan.now asked.keeps sink.old out.old asked.failed
        sink.new out.new) }
    ensures none { OnErr result ((sink.new ≡ sink.old) × (out.new ≡ out.old)) }
    ensures later { S.faults sink.old ≤ S.faults sink.new }
{
    if !asked.failed {
        return run_plan(workers, plan, asked.keeps, spare, out, sink, gate);
    }
    let mut nowhere = NullSink::new();
    let run = run_plan(workers, plan, asked.keeps, spare, out, &mut nowhere, gate)?;
    Ok(SectionRun {
        report: run.report,
        failed: true,
        left: run.left,
    })
}

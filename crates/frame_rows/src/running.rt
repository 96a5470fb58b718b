// Plans that are run on a new board.
ghost use Rattle.std.specs.Prelude.{◌≡◌, ◌≤◌, IfOk, length};
ghost use Rattle.job_base.specs.declared.limits.TheConstants.{MOST_WORKERS};
ghost use Rattle.frame_core.specs.Ordered.{IsWellOrderedPlan};
ghost use Rattle.frame_rows.specs.Between.{AreCellsOf};
ghost use Rattle.frame_rows.specs.NewSeats.{AreNewSeats};

use frame_core::{Board, Plan, PlanName};
use frame_print::Outgoing;
use job_base::limits::MOST_WORKERS;
use job_base::{FlatMem, Gate, MemSink};
use lock_board::{BoardName, LockBoard};
use plan_run::RunEnd;
use std::alloc::Global;
use std::marker::Brand;
use std::sync::Wait;
use std::sync::ledger::Blank;
use std::test::Fail;
use std::thread::Threads;
use steal_pool::laws::rooms_are_ready;
use steal_pool::{PoolRoom, ShowsPlan, run};
use word_board::WordBoard;

/// Runs a plan on a board of it, whose seats are as they were made, and writes its output. It gives how the run ended,
/// and the cells that it left.
///
/// The plan stands behind a type parameter: beside a board and a room the checker can't show that threads may share it.
pub fn run_on<R: Threads + Wait + Sync, P: ShowsPlan + Sync, B: Board + Sync, G: Gate + Sync>(
    rt: &R,
    alloc: Global,
    plan: &P,
    board: B,
    seats: Vec<B::Seat>,
    sink: &mut MemSink,
    gate: &G,
) -> Result<(RunEnd, FlatMem), Fail>
where
    B: Drop,
    B::Seat: Send + Drop,
    requires plan { P.shown plan.now ≡ B.plan board }
    requires well { IsWellOrderedPlan (P.shown plan.now) }
    requires seats { AreNewSeats B.home B.know (B.name board) seats.items }
    requires count { (1 ≤ length seats.items) × (length seats.items ≤ MOST_WORKERS) }
    ensures left { IfOk result (λ r. AreCellsOf (P.shown plan.now) r.1) }
{
    let mut left = FlatMem::new(alloc, plan.plan().words)?;
    let mut out = Outgoing::new(alloc)?;
    let mut room = PoolRoom::make(alloc, plan.plan(), seats)?;
    rooms_are_ready::<B>();
    let end = run(rt, plan, &board, &mut room, &mut out, sink, gate);
    board.close(room.into_first(), &mut left);
    Ok((end, left))
}

fn run_shown_words<R: Threads + Wait + Sync, P: ShowsPlan + Sync, G: Gate + Sync>(
    rt: &R,
    alloc: Global,
    plan: &P,
    workers: u32,
    sink: &mut MemSink,
    gate: &G,
) -> Result<(RunEnd, FlatMem), Fail>
    requires well { IsWellOrderedPlan (P.shown plan.now) }
    requires workers { (1 ≤ workers) × (workers ≤ MOST_WORKERS) }
    ensures left { IfOk result (λ r. AreCellsOf (P.shown plan.now) r.1) }
{
    let (board, seats) = WordBoard::make(alloc, plan.plan(), workers)?;
    run_on(rt, alloc, plan, board, seats, sink, gate)
}

/// The same on a new board without locks, with so many workers.
pub fn run_words<R: Threads + Wait + Sync, G: Gate + Sync>(
    rt: &R,
    alloc: Global,
    plan: &Plan,
    workers: u32,
    sink: &mut MemSink,
    gate: &G,
) -> Result<(RunEnd, FlatMem), Fail>
    requires well { IsWellOrderedPlan plan.now }
    ensures left { IfOk result (λ r. AreCellsOf plan.now r.1) }
{
    if workers == 0 || workers > MOST_WORKERS {
        return Err(Fail::new("no such number of workers"));
    }
    run_shown_words(rt, alloc, plan, workers, sink, gate)
}

// On a board with a lock whose plan and name K names.
fn run_named_lock<
    K: PlanName + BoardName + Send + Sync,
    R: Threads + Wait + Send + Sync + Copy + Drop,
    P: ShowsPlan + Sync,
    G: Gate + Sync,
>(
    rt: R,
    alloc: Global,
    plan: &P,
    workers: u32,
    token: Blank,
    sink: &mut MemSink,
    gate: &G,
) -> Result<(RunEnd, FlatMem), Fail>
    requires named { P.shown plan.now ≡ K.plan }
    requires token { token.name ≡ K.board }
    requires well { IsWellOrderedPlan (P.shown plan.now) }
    requires workers { (1 ≤ workers) × (workers ≤ MOST_WORKERS) }
    ensures left { IfOk result (λ r. AreCellsOf (P.shown plan.now) r.1) }
{
    let (board, seats) = LockBoard::<R, K>::make(rt, alloc, plan.plan(), workers, token)?;
    run_on(&rt, alloc, plan, board, seats, sink, gate)
}

fn run_shown_lock<
    R: Threads + Wait + Send + Sync + Copy + Drop,
    P: ShowsPlan + Sync,
    G: Gate + Sync,
>(
    rt: R,
    alloc: Global,
    plan: &P,
    workers: u32,
    sink: &mut MemSink,
    gate: &G,
) -> Result<(RunEnd, FlatMem), Fail>
    requires well { IsWellOrderedPlan (P.shown plan.now) }
    requires workers { (1 ≤ workers) × (workers ≤ MOST_WORKERS) }
    ensures left { IfOk result (λ r. AreCellsOf (P.shown plan.now) r.1) }
{
    run_named_lock::<Brand, R, P, G>(rt, alloc, plan, workers, Blank::new(1), sink, gate)
}

/// The same on a new board with a lock.
pub fn run_lock<R: Threads + Wait + Send + Sync + Copy + Drop, G: Gate + Sync>(
    rt: R,
    alloc: Global,
    plan: &Plan,
    workers: u32,
    sink: &mut MemSink,
    gate: &G,
) -> Result<(RunEnd, FlatMem), Fail>
    requires well { IsWellOrderedPlan plan.now }
    ensures left { IfOk result (λ r. AreCellsOf plan.now r.1) }
{
    if workers == 0 || workers > MOST_WORKERS {
        return Err(Fail::new("no such number of workers"));
    }
    run_shown_lock(rt, alloc, plan, workers, sink, gate)
}

/// The kinds of boards: that without locks, on which the program runs, and that with one.
#[derive(Clone, Copy, Debug)]
pub enum BoardKind {
    Words,
    Lock,
}

/// The same on a new board of this kind.
pub fn run_kind<R: Threads + Wait + Send + Sync + Copy + Drop, G: Gate + Sync>(
    rt: R,
    alloc: Global,
    plan: &Plan,
    kind: BoardKind,
    workers: u32,
    sink: &mut MemSink,
    gate: &G,
) -> Result<(RunEnd, FlatMem), Fail>
    requires well { IsWellOrderedPlan plan.now }
    ensures left { IfOk result (λ r. AreCellsOf plan.now r.1) }
{
    match kind {
        BoardKind::Words => run_words(&rt, alloc, plan, workers, sink, gate),
        BoardKind::Lock => run_lock(rt, alloc, plan, workers, sink, gate),
    }
}

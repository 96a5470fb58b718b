// A run in a room.
ghost use Rattle.std.specs.Prelude.{◌≡◌, ◌≤◌, [], false, length};
ghost use Rattle.frame_core.specs.Output.{plan_lines, plan_output};
ghost use Rattle.frame_core.specs.Ordered.{IsWellOrderedPlan};
ghost use Rattle.plan_run.specs.Runs.{RunsBetween, RunsTo, is_fault};
ghost use Rattle.steal_pool.specs.Rooms.{IsRoomOf, IsRunRoom};

use crate::room::PoolRoom;
use crate::shown_plan::ShowsPlan;
use crate::threads::run_places;
use frame_core::Board;
use frame_print::Outgoing;
use job_base::{Gate, Sink};
use plan_run::{RunEnd, flush_lines, say_traps};
use std::sync::Wait;
use std::thread::Threads;

/// Runs a plan and says its lines, after those that wait in `out`, and without those of its traps: these are said once,
/// after the last section of a frame. What waits is written before the script waits for a job.
pub fn run_lines<
    R: Threads + Wait + Sync,
    P: ShowsPlan + Sync,
    B: Board + Sync,
    S: Sink,
    G: Gate + Sync,
>(
    rt: &R,
    plan: &P,
    board: &B,
    room: &mut PoolRoom<B::Seat>,
    out: &mut Outgoing,
    sink: &mut S,
    gate: &G,
) -> RunEnd
where
    B::Seat: Send + Drop,
    requires plan { P.shown plan.now ≡ B.plan board.now }
    requires well { IsWellOrderedPlan (P.shown plan.now) }
    requires room { IsRoomOf B.home B.know (P.shown plan.now) (B.name board.now) room.old }
    ensures room { IsRunRoom B.home B.know (P.shown plan.now) (B.name board.now) room.new }
    ensures run { RunsBetween S.taken S.faults (P.shown plan.now) (plan_lines (P.shown plan.now))
        sink.old out.old sink.new out.new result }
    ensures sink_later { S.faults sink.old ≤ S.faults sink.new }
{
    run_places(rt, plan, board, gate, room, out, sink)
}

/// Runs a plan and writes its output: its lines, and where it has traps the two lines of those. Nothing waits before
/// it, and nothing after it where all was written.
///
/// Everything that is written is that of the run in script order, however many workers there are. After a fault nothing
/// more is written, and the plan is run to its end all the same. It takes no memory.
pub fn run<R: Threads + Wait + Sync, P: ShowsPlan + Sync, B: Board + Sync, S: Sink, G: Gate + Sync>(
    rt: &R,
    plan: &P,
    board: &B,
    room: &mut PoolRoom<B::Seat>,
    out: &mut Outgoing,
    sink: &mut S,
    gate: &G,
) -> RunEnd
where
    B::Seat: Send + Drop,
    requires plan { P.shown plan.now ≡ B.plan board.now }
    requires well { IsWellOrderedPlan (P.shown plan.now) }
    requires room { IsRoomOf B.home B.know (P.shown plan.now) (B.name board.now) room.old }
    requires empty { out.old ≡ [] }
    ensures room { IsRunRoom B.home B.know (P.shown plan.now) (B.name board.now) room.new }
    ensures run { RunsTo S.taken S.faults (P.shown plan.now) (plan_output (P.shown plan.now)) sink.old sink.new result }
    ensures none { is_fault result ≡ false → out.new ≡ [] }
    ensures sink_later { S.faults sink.old ≤ S.faults sink.new }
{
    let lines = run_lines(rt, plan, board, room, out, sink, gate);
    let report = lines.report();
    let mut failed = lines.is_fault();
    say_traps(&report, out, sink, &mut failed);
    flush_lines(out, sink, &mut failed);
    RunEnd::of(failed, report)
}

// The script thread: the segments one after another.
ghost use Rattle.std.specs.Prelude.{◌≡◌, ◌<◌, ◌≤◌, ◌+◌, ◌^◌, None, IfSome, ℕ, length};
ghost use Rattle.frame_core.specs.Reports.{IsReportOf};
ghost use Rattle.frame_core.specs.Know.{due_once};
ghost use Rattle.frame_core.specs.Output.{plan_lines, plan_traps, segment_lines, segment_refused};
ghost use Rattle.frame_core.specs.Ordered.{IsWellOrderedPlan};
ghost use Rattle.plan_run.specs.Runs.{RunsBetween};
ghost use Rattle.plan_run.specs.Says.{SaysTo};
ghost use Rattle.frame_core.specs.Names.{IsJobOf};
ghost use Rattle.steal_pool.specs.Crews.{IsCrewOf};
ghost use Rattle.steal_pool.specs.Seats.{IsIdle, IsOn, IsAt, IsBegun, MayOpenNone};

use crate::crew::Crew;
use crate::held::{Said, SegmentRun, run_segment_leased};
use crate::idling::leave_search;
use crate::pieces::release_job;
use crate::place::Tools;
use crate::queue::Queue;
use crate::waiting::{begin_opened, wait_all};
use frame_core::{Board, Plan};
use frame_print::Outgoing;
use job_base::{Gate, JobId, PieceId, Sink};
use plan_run::{RunEnd, no_traps, with_refused};
use std::sync::Wait;

// Releases the job that a segment starts.
fn start_job<B: Board>(
    plan: &Plan,
    board: &B,
    seat: &mut B::Seat,
    queue: &mut Queue,
    starts: Option<JobId>,
)
    requires plan { plan.now ≡ B.plan board.now }
    requires well { IsWellOrderedPlan plan.now }
    requires job { IfSome starts (IsJobOf plan.now) }
    requires home { B.home seat.old ≡ B.name board.now }
    requires lease { (B.know seat.old).lease ≡ None }
    requires owed { (B.know seat.old).owed ≡ None }
    requires dues { (j : ℕ) → (B.know seat.old).dues j ≡ due_once starts j }
    requires none { MayOpenNone (B.know seat.old) }
    ensures home { B.home seat.new ≡ B.home seat.old }
    ensures idle { IsIdle (B.know seat.new) }
    ensures on { IsOn (B.know seat.old) (B.know seat.new) }
{
    if let Some(job) = starts {
        release_job(plan, board, seat, queue, job);
    }
}

/// Runs the next segment on its lease, ends it and starts its job.
pub fn run_begun<R, B: Board, S: Sink, G: Gate>(
    crew: &Crew<R, B, G>,
    tools: &mut Tools,
    seat: B::Seat,
    out: &mut Outgoing,
    sink: &mut S,
    said: &mut Said,
    i: u32,
) -> SegmentRun<B::Seat>
    requires crew { IsCrewOf crew.now.plan.now (B.plan crew.now.board.now) crew.now.shared.now }
    requires home { B.home seat ≡ B.name crew.now.board.now }
    requires begun { IsBegun crew.now.plan.now i (B.know seat) }
    requires index { i < length crew.now.plan.now.segments.items }
    requires few { said.old.refused + segment_refused crew.now.plan.now i < 2 ^ 64 }
    ensures home { B.home result.seat ≡ B.home seat }
    ensures at { IsAt (i + 1) (B.know result.seat) }
    ensures text { SaysTo S.taken S.faults sink.old out.old said.old.failed sink.new out.new said.new.failed
        (segment_lines crew.now.plan.now i) }
    ensures later { S.faults sink.old ≤ S.faults sink.new }
    ensures refused { said.new.refused ≡ said.old.refused + segment_refused crew.now.plan.now i }
    ensures traps { i + 1 ≡ length crew.now.plan.now.segments.items
        → IsReportOf (plan_traps crew.now.plan.now) result.traps }
{
    let plan = crew.plan;
    let board = crew.board;
    let segment = &plan.segments[i as usize];
    let piece = PieceId(plan.job_pieces() + i);
    crew.gate.enter(tools.number, piece);
    let SegmentRun {
        seat: mut own,
        traps,
    } = run_segment_leased(plan, board, seat, i, out, sink, said);
    crew.gate.leave(tools.number, piece);
    board.end(&mut own);
    start_job(plan, board, &mut own, &mut tools.queue, segment.starts);
    SegmentRun { seat: own, traps }
}

// Runs the next segment: waits for its jobs, opens it, runs it and starts its job.
fn run_next_segment<R: Wait, B: Board, S: Sink, G: Gate>(
    crew: &Crew<R, B, G>,
    tools: &mut Tools,
    seat: B::Seat,
    out: &mut Outgoing,
    sink: &mut S,
    said: &mut Said,
    i: u32,
) -> SegmentRun<B::Seat>
    requires crew { IsCrewOf crew.now.plan.now (B.plan crew.now.board.now) crew.now.shared.now }
    requires home { B.home seat ≡ B.name crew.now.board.now }
    requires at { IsAt i (B.know seat) }
    requires index { i < length crew.now.plan.now.segments.items }
    requires few { said.old.refused + segment_refused crew.now.plan.now i < 2 ^ 64 }
    ensures home { B.home result.seat ≡ B.home seat }
    ensures at { IsAt (i + 1) (B.know result.seat) }
    ensures text { SaysTo S.taken S.faults sink.old out.old said.old.failed sink.new out.new said.new.failed
        (segment_lines crew.now.plan.now i) }
    ensures later { S.faults sink.old ≤ S.faults sink.new }
    ensures refused { said.new.refused ≡ said.old.refused + segment_refused crew.now.plan.now i }
    ensures traps { i + 1 ≡ length crew.now.plan.now.segments.items
        → IsReportOf (plan_traps crew.now.plan.now) result.traps }
{
    let plan = crew.plan;
    let board = crew.board;
    let segment = &plan.segments[i as usize];
    let piece = PieceId(plan.job_pieces() + i);
    let mut own = wait_all(
        crew,
        tools,
        seat,
        &segment.waits,
        out,
        sink,
        &mut said.failed,
    );
    board.open_piece(&mut own, piece);
    let own = begin_opened(crew.rt, board, own, piece);
    let run = run_begun(crew, tools, own, out, sink, said, i);
    leave_search(crew.shared, tools);
    run
}

/// A seat, and how the run ended.
pub struct ScriptRun<S> {
    pub seat: S,
    pub end: RunEnd,
}

/// Runs all segments in order, and says their lines.
pub fn run_script_thread<R: Wait, B: Board, S: Sink, G: Gate>(
    crew: &Crew<R, B, G>,
    tools: &mut Tools,
    seat: B::Seat,
    out: &mut Outgoing,
    sink: &mut S,
) -> ScriptRun<B::Seat>
    requires crew { IsCrewOf crew.now.plan.now (B.plan crew.now.board.now) crew.now.shared.now }
    requires home { B.home seat ≡ B.name crew.now.board.now }
    requires at { IsAt 0 (B.know seat) }
    ensures home { B.home result.seat ≡ B.home seat }
    ensures at { IsAt (length crew.now.plan.now.segments.items) (B.know result.seat) }
    ensures run { RunsBetween S.taken S.faults crew.now.plan.now (plan_lines crew.now.plan.now)
        sink.old out.old sink.new out.new result.end }
    ensures later { S.faults sink.old ≤ S.faults sink.new }
{
    let mut own = seat;
    let mut said = Said {
        failed: false,
        refused: 0,
    };
    let mut last = no_traps();
    for i in 0..crew.plan.segments.len() as u32 {
        let SegmentRun { seat: next, traps } = run_next_segment(
            crew, tools, own, out, sink, &mut said, i,
        );
        own = next;
        last = traps;
    }
    ScriptRun {
        seat: own,
        end: RunEnd::of(said.failed, with_refused(&last, said.refused)),
    }
}

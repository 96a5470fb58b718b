// Waiting for others: the script thread helps meanwhile.
ghost use Rattle.std.specs.Prelude.{◌≡◌, ◌<◌, ◌≤◌, ℕ, [], true, All};
ghost use Rattle.frame_core.specs.Names.{has_job, IsJobOf};
ghost use Rattle.frame_core.specs.Pieces.{piece_numbered};
ghost use Rattle.frame_core.specs.Know.{IsFree, MayBegin, begun, piece_count};
ghost use Rattle.frame_core.specs.Ordered.{IsWellOrderedPlan};
ghost use Rattle.plan_run.specs.Says.{SaysTo};
ghost use Rattle.steal_pool.specs.Crews.{IsCrewOf};
ghost use Rattle.steal_pool.specs.Seats.{IsIdle, IsOn};

use crate::crew::Crew;
use crate::idling::{Sleepers, leave_search, pause_for};
use crate::pieces::{Turn, help};
use crate::place::Tools;
use crossbeam_utils::Backoff;
use frame_core::Board;
use frame_print::Outgoing;
use job_base::{Gate, JobId, PieceId, Sink};
use plan_run::flush_lines;
use std::sync::Wait;

// Helps until a job is finished. The script thread never gives up: it may be the only one.
fn help_until<R: Wait, B: Board, G: Gate>(
    crew: &Crew<R, B, G>,
    tools: &mut Tools,
    seat: B::Seat,
    job: JobId,
) -> B::Seat
    requires crew { IsCrewOf crew.now.plan.now (B.plan crew.now.board.now) crew.now.shared.now }
    requires home { B.home seat ≡ B.name crew.now.board.now }
    requires idle { IsIdle (B.know seat) }
    requires job { IsJobOf crew.now.plan.now job }
    ensures home { B.home result ≡ B.home seat }
    ensures idle { IsIdle (B.know result) }
    ensures on { IsOn (B.know seat) (B.know result) }
    ensures seen { (B.know result).seen job.0 ≡ true }
{
    let backoff = Backoff::new();
    let mut own = seat;
    for _ in crew.rt.forever() {
        if crew.board.finished(&mut own, job) {
            leave_search(crew.shared, tools);
            return own;
        }
        let Turn { seat: next, ran } = help::<Sleepers, R, B, G>(crew, tools, own);
        own = next;
        if ran {
            backoff.reset();
        } else {
            own = pause_for(crew, tools, own, job, &backoff);
        }
    }
    unreachable!()
}

// Waits for a job. Where it isn't finished the lines that wait are written first: they are to be seen meanwhile.
fn wait_one<R: Wait, B: Board, S: Sink, G: Gate>(
    crew: &Crew<R, B, G>,
    tools: &mut Tools,
    seat: B::Seat,
    job: JobId,
    out: &mut Outgoing,
    sink: &mut S,
    failed: &mut bool,
) -> B::Seat
    requires crew { IsCrewOf crew.now.plan.now (B.plan crew.now.board.now) crew.now.shared.now }
    requires home { B.home seat ≡ B.name crew.now.board.now }
    requires idle { IsIdle (B.know seat) }
    requires job { IsJobOf crew.now.plan.now job }
    ensures home { B.home result ≡ B.home seat }
    ensures idle { IsIdle (B.know result) }
    ensures on { IsOn (B.know seat) (B.know result) }
    ensures seen { (B.know result).seen job.0 ≡ true }
    ensures text { SaysTo S.taken S.faults sink.old out.old failed.old sink.new out.new failed.new [] }
    ensures later { S.faults sink.old ≤ S.faults sink.new }
{
    let mut own = seat;
    if !crew.board.finished(&mut own, job) {
        flush_lines(out, sink, failed);
        own = help_until(crew, tools, own, job);
    }
    own
}

/// Waits until jobs are finished. It says nothing, and writes what was said before.
pub fn wait_all<R: Wait, B: Board, S: Sink, G: Gate>(
    crew: &Crew<R, B, G>,
    tools: &mut Tools,
    seat: B::Seat,
    waits: &[JobId],
    out: &mut Outgoing,
    sink: &mut S,
    failed: &mut bool,
) -> B::Seat
    requires crew { IsCrewOf crew.now.plan.now (B.plan crew.now.board.now) crew.now.shared.now }
    requires home { B.home seat ≡ B.name crew.now.board.now }
    requires idle { IsIdle (B.know seat) }
    requires jobs { All (IsJobOf crew.now.plan.now) waits.now }
    ensures home { B.home result ≡ B.home seat }
    ensures idle { IsIdle (B.know result) }
    ensures on { IsOn (B.know seat) (B.know result) }
    ensures seen { (j : ℕ) → has_job waits.now j ≡ true → (B.know result).seen j ≡ true }
    ensures text { SaysTo S.taken S.faults sink.old out.old failed.old sink.new out.new failed.new [] }
    ensures later { S.faults sink.old ≤ S.faults sink.new }
{
    let mut own = seat;
    let mut rest = waits;
    while let Some((job, tail)) = rest.split_first() {
        own = wait_one(crew, tools, own, *job, out, sink, failed);
        rest = tail;
    }
    own
}

/// Begins a piece that this seat opened. A board may say no for a while.
pub fn begin_opened<R: Wait, B: Board>(rt: &R, board: &B, seat: B::Seat, piece: PieceId) -> B::Seat
    requires home { B.home seat ≡ B.name board.now }
    requires piece { piece.0 < piece_count (B.plan board.now) }
    requires free { IsFree (B.know seat) }
    requires first { MayBegin (B.know seat) (piece_numbered (B.plan board.now) piece.0) }
    ensures home { B.home result ≡ B.home seat }
    ensures know { B.know result ≡ begun (B.plan board.now) (B.know seat) piece.0 true }
{
    let backoff = Backoff::new();
    let mut own = seat;
    for _ in rt.forever() {
        if board.begin(&mut own, piece) {
            return own;
        }
        backoff.snooze();
    }
    unreachable!()
}

// The threads of a run.
ghost use Rattle.std.specs.Prelude.{◌≡◌, ◌<◌, ◌≤◌, All, length};
ghost use Rattle.std.specs.Thread.{IsSync};
ghost use Rattle.job_base.specs.declared.limits.TheConstants.{MOST_WORKERS};
ghost use Rattle.frame_core.specs.Ordered.{IsWellOrderedPlan};
ghost use Rattle.frame_core.specs.Output.{plan_lines};
ghost use Rattle.plan_run.specs.Runs.{RunsBetween};
ghost use Rattle.steal_pool.specs.Crews.{IsCrewOf};
ghost use Rattle.steal_pool.specs.Rooms.{IsRoomOf, IsRunRoom};
ghost use Rattle.steal_pool.specs.Seats.{IsReady, IsFirst};

use crate::crew::{Crew, Shared};
use crate::idling::{Sleepers, end_workers, leave_search, pause};
use crate::pieces::{Turn, help};
use crate::place::Place;
use crate::room::PoolRoom;
use crate::script::{ScriptRun, run_script_thread};
use crate::shown_plan::ShowsPlan;
use crossbeam_utils::Backoff;
use frame_core::{Board, Plan};
use frame_print::Outgoing;
use job_base::{Gate, Sink};
use plan_run::RunEnd;
use std::sync::Wait;
use std::thread;
use std::thread::{Threads, join_mut};

// One worker, until it finds no piece once the script is through.
fn work<R: Wait, B: Board, G: Gate>(
    rt: &R,
    plan: &Plan,
    board: &B,
    gate: &G,
    shared: &Shared,
    place: &mut Place<B::Seat>,
)
where
    B::Seat: Drop,
    requires crew { IsCrewOf plan.now (B.plan board.now) shared.now }
    requires ready { IsReady B.home B.know (B.name board.now) place.old }
{
    let crew = Crew {
        rt,
        plan,
        board,
        gate,
        shared,
    };
    let Some(seat) = place.seat.take() else {
        return;
    };
    let backoff = Backoff::new();
    let mut own = seat;
    for _ in rt.forever() {
        let Turn { seat: next, ran } = help::<Sleepers, R, B, G>(&crew, &mut place.tools, own);
        own = next;
        if ran {
            backoff.reset();
        } else if shared.over.load() {
            break;
        } else {
            pause(rt, shared, &mut place.tools, &backoff);
        }
    }
    leave_search(shared, &mut place.tools);
    place.seat = Some(own);
}

// The script, on its place. At its end it lets the workers go.
fn run_script_on<R: Wait, B: Board, S: Sink, G: Gate>(
    crew: &Crew<R, B, G>,
    place: &mut Place<B::Seat>,
    out: &mut Outgoing,
    sink: &mut S,
) -> RunEnd
where
    B::Seat: Drop,
    requires crew { IsCrewOf crew.now.plan.now (B.plan crew.now.board.now) crew.now.shared.now }
    requires first { IsFirst B.home B.know (B.name crew.now.board.now) 0 place.old }
    ensures first { IsFirst B.home B.know (B.name crew.now.board.now) (length crew.now.plan.now.segments.items)
        place.new }
    ensures run { RunsBetween S.taken S.faults crew.now.plan.now (plan_lines crew.now.plan.now)
        sink.old out.old sink.new out.new result }
    ensures later { S.faults sink.old ≤ S.faults sink.new }
{
    let Some(seat) = place.seat.take() else {
        unreachable!()
    };
    let ScriptRun { seat: own, end } = run_script_thread(crew, &mut place.tools, seat, out, sink);
    place.seat = Some(own);
    end_workers(crew.shared);
    end
}

// Runs a worker on each place.
fn run_workers<R: Threads + Wait + Sync, P: ShowsPlan + Sync, B: Board + Sync, G: Gate + Sync>(
    rt: &R,
    plan: &P,
    board: &B,
    gate: &G,
    shared: &Shared,
    others: &mut [Place<B::Seat>],
)
where
    B::Seat: Send + Drop,
    requires crew { IsCrewOf (P.shown plan.now) (B.plan board.now) shared.now }
    requires others { All (IsReady B.home B.know (B.name board.now)) others.old }
    requires many { length others.old < MOST_WORKERS }
{
    let threads = others.len();
    if threads == 0 {
        return;
    }
    thread::for_each_mut(
        rt,
        others,
        threads,
        &|_, place|
            requires { IsSync R.row
                × IsCrewOf (P.shown plan.now) (B.plan board.now) shared.now
                × IsReady B.home B.know (B.name board.now) place.old }
        { work(rt, plan.plan(), board, gate, shared, place) },
    );
}

/// Runs a plan: the script on the first place, and workers on the others, of which no more are started than there are
/// pieces of jobs. Where there are none, no thread is started.
pub(crate) fn run_places<
    'x,
    R: Threads + Wait + Sync,
    P: ShowsPlan + Sync,
    B: Board + Sync,
    S: Sink,
    G: Gate + Sync,
>(
    rt: &'x R,
    plan: &'x P,
    board: &'x B,
    gate: &'x G,
    room: &'x mut PoolRoom<B::Seat>,
    out: &mut Outgoing,
    sink: &mut S,
) -> RunEnd
where
    B::Seat: Send + Drop,
    requires plan { P.shown plan.now ≡ B.plan board.now }
    requires well { IsWellOrderedPlan (P.shown plan.now) }
    requires room { IsRoomOf B.home B.know (P.shown plan.now) (B.name board.now) room.old }
    ensures room { IsRunRoom B.home B.know (P.shown plan.now) (B.name board.now) room.new }
    ensures run { RunsBetween S.taken S.faults (P.shown plan.now) (plan_lines (P.shown plan.now))
        sink.old out.old sink.new out.new result }
    ensures later { S.faults sink.old ≤ S.faults sink.new }
{
    let shared = &room.shared;
    let first = &mut room.first;
    let busy = room.others.len().min(plan.plan().job_pieces() as usize);
    if busy == 0 {
        let crew = Crew {
            rt,
            plan: plan.plan(),
            board,
            gate,
            shared,
        };
        return run_script_on(&crew, first, out, sink);
    }
    let workers = &mut room.others[..busy];
    let mut f = ||
        requires { IsSync R.row
            × IsCrewOf (P.shown plan.now) (B.plan board.now) shared.now
            × All (IsReady B.home B.know (B.name board.now)) workers.now
            × (length workers.now < MOST_WORKERS) }
    { run_workers(rt, plan, board, gate, shared, workers) };
    let mut g = ||
        requires { IsCrewOf (P.shown plan.now) (B.plan board.now) shared.now
            × IsFirst B.home B.know (B.name board.now) 0 first.now }
        ensures first { IsFirst B.home B.know (B.name board.entry.now)
            (length (P.shown plan.entry.now).segments.items) first.exit.now }
        ensures run { RunsBetween S.taken S.faults (P.shown plan.entry.now) (plan_lines (P.shown plan.entry.now))
            sink.entry.now out.entry.now sink.exit.now out.exit.now result }
        ensures later { S.faults sink.entry.now ≤ S.faults sink.exit.now }
    {
        let crew = Crew {
            rt,
            plan: plan.plan(),
            board,
            gate,
            shared,
        };
        run_script_on(&crew, first, out, sink)
    };
    let (_, end) = join_mut(rt, &mut f, &mut g);
    end
}

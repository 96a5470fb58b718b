// Runs by turns: each call returns at once, and the threads are those of the test, or one alone.
ghost use Rattle.std.specs.Prelude.{◌≡◌, ◌<◌, ◌≤◌, All, IfOk, length};
ghost use Rattle.std.specs.Thread.{IsSync};
ghost use Rattle.job_base.specs.declared.limits.TheConstants.{MOST_WORKERS};
ghost use Rattle.frame_core.specs.Output.{plan_lines};
ghost use Rattle.frame_core.specs.Ordered.{IsWellOrderedPlan};
ghost use Rattle.plan_run.specs.Runs.{RunsBetween};
ghost use Rattle.steal_pool.specs.Crews.{IsCrewOf};
ghost use Rattle.steal_pool.specs.Rooms.{IsRoomOf, IsRunRoom};
ghost use Rattle.steal_pool.specs.Seats.{IsFirst, IsReady};
ghost use Rattle.frame_rows.specs.Between.{AreCellsOf};
ghost use Rattle.frame_rows.specs.NewSeats.{AreNewSeats};

use frame_core::{Board, Plan};
use frame_plan::Section;
use frame_print::Outgoing;
use frame_rows::texts::TOTAL;
use frame_rows::{section_in, section_of};
use job_base::limits::MOST_WORKERS;
use job_base::{FlatMem, MemSink, OpenGate, Sink};
use plan_run::{RunEnd, flush_lines};
use std::alloc::Global;
use std::sync::Wait;
use std::test::Fail;
use std::thread;
use std::thread::{Threads, join_mut};
use steal_pool::laws::rooms_are_ready;
use steal_pool::{HelperTurn, Place, PoolRoom, ScriptTurn, Shared, ShowsPlan, Turns};
use table_in::Table;
use word_board::WordBoard;

// Two jobs, each of many pieces, of which the second waits for the first.
const MANY: &str = "parallel rise(a: rw array) { a[index] = a[index] + index; }
parallel twice(a: rw array) { a[index] = a[index] * 2; }
array x 1000
set x 3 = 5
schedule h rise(x) 1000 16
schedule k twice(x) 1000 16 after h
complete k
slice s x 0 4
print s
";

// Turns of the script's thread, until the run is over.
fn run_script<R: Wait, B: Board, S: Sink>(
    rt: &R,
    plan: &Plan,
    board: &B,
    shared: &Shared,
    place: &mut Place<B::Seat>,
    out: &mut Outgoing,
    sink: &mut S,
) -> RunEnd
where
    B::Seat: Drop,
    requires crew { IsCrewOf plan.now (B.plan board.now) shared.now }
    requires first { IsFirst B.home B.know (B.name board.now) 0 place.old }
    ensures first { IsFirst B.home B.know (B.name board.now) (length plan.now.segments.items) place.new }
    ensures run { RunsBetween S.taken S.faults plan.now (plan_lines plan.now)
        sink.old out.old sink.new out.new result }
{
    let turns = Turns {
        plan,
        board,
        gate: &OpenGate,
        shared,
    };
    let mut at = turns.begin(place, out, sink);
    for _ in rt.forever() {
        match turns.script_turn(place, &mut at, out, sink) {
            ScriptTurn::Again => {}
            ScriptTurn::Over(end) => return end,
        }
    }
    unreachable!()
}

// Turns of a helper, until the run is over.
fn help_script<R: Wait, B: Board>(
    rt: &R,
    plan: &Plan,
    board: &B,
    shared: &Shared,
    place: &mut Place<B::Seat>,
)
where
    B::Seat: Drop,
    requires crew { IsCrewOf plan.now (B.plan board.now) shared.now }
    requires ready { IsReady B.home B.know (B.name board.now) place.old }
{
    let turns = Turns {
        plan,
        board,
        gate: &OpenGate,
        shared,
    };
    for _ in rt.forever() {
        if turns.helper_turn(place) == HelperTurn::Over {
            return;
        }
    }
}

// Turns of helpers, one on each place.
fn help_on_all<R: Threads + Wait + Sync, P: ShowsPlan + Sync, B: Board + Sync>(
    rt: &R,
    plan: &P,
    board: &B,
    shared: &Shared,
    others: &mut [Place<B::Seat>],
)
where
    B::Seat: Send + Drop,
    requires crew { IsCrewOf (P.shown plan.now) (B.plan board.now) shared.now }
    requires others { All (IsReady B.home B.know (B.name board.now)) others.old }
    requires many { length others.old < MOST_WORKERS }
{
    let threads = others.len();
    if threads == 0 {
        return;
    }
    thread::for_each_mut(
        rt,
        others,
        threads,
        &|_, place|
            requires { IsSync R.row
                × IsCrewOf (P.shown plan.now) (B.plan board.now) shared.now
                × IsReady B.home B.know (B.name board.now) place.old }
        { help_script(rt, plan.plan(), board, shared, place) },
    );
}

// Runs a plan by turns in a room: those of the script on this thread, and those of a helper on one thread for each
// other place.
fn run_room<'x, R: Threads + Wait + Sync, P: ShowsPlan + Sync, B: Board + Sync, S: Sink>(
    rt: &'x R,
    plan: &'x P,
    board: &'x B,
    room: &'x mut PoolRoom<B::Seat>,
    out: &mut Outgoing,
    sink: &mut S,
) -> RunEnd
where
    B::Seat: Send + Drop,
    requires plan { P.shown plan.now ≡ B.plan board.now }
    requires well { IsWellOrderedPlan (P.shown plan.now) }
    requires room { IsRoomOf B.home B.know (P.shown plan.now) (B.name board.now) room.old }
    ensures room { IsRunRoom B.home B.know (P.shown plan.now) (B.name board.now) room.new }
    ensures run { RunsBetween S.taken S.faults (P.shown plan.now) (plan_lines (P.shown plan.now))
        sink.old out.old sink.new out.new result }
{
    let shared = &room.shared;
    let first = &mut room.first;
    let others = &mut room.others[..];
    let mut f = ||
        requires { IsSync R.row
            × IsCrewOf (P.shown plan.now) (B.plan board.now) shared.now
            × All (IsReady B.home B.know (B.name board.now)) others.now
            × (length others.now < MOST_WORKERS) }
    { help_on_all(rt, plan, board, shared, others) };
    let mut g = ||
        requires { IsCrewOf (P.shown plan.now) (B.plan board.now) shared.now
            × IsFirst B.home B.know (B.name board.now) 0 first.now }
        ensures first { IsFirst B.home B.know (B.name board.entry.now)
            (length (P.shown plan.entry.now).segments.items) first.exit.now }
        ensures run { RunsBetween S.taken S.faults (P.shown plan.entry.now) (plan_lines (P.shown plan.entry.now))
            sink.entry.now out.entry.now sink.exit.now out.exit.now result }
    { run_script(rt, plan.plan(), board, shared, first, out, sink) };
    let (_, end) = join_mut(rt, &mut f, &mut g);
    end
}

// Runs a plan by turns on a new board, whose seats are as they were made, and gives the cells that it left.
fn run_turns_on<R: Threads + Wait + Sync, P: ShowsPlan + Sync, B: Board + Sync>(
    rt: &R,
    alloc: Global,
    plan: &P,
    board: B,
    seats: Vec<B::Seat>,
    sink: &mut MemSink,
) -> Result<FlatMem, Fail>
where
    B: Drop,
    B::Seat: Send + Drop,
    requires plan { P.shown plan.now ≡ B.plan board }
    requires well { IsWellOrderedPlan (P.shown plan.now) }
    requires seats { AreNewSeats B.home B.know (B.name board) seats.items }
    requires count { (1 ≤ length seats.items) × (length seats.items ≤ MOST_WORKERS) }
    ensures left { IfOk result (AreCellsOf (P.shown plan.now)) }
{
    let mut left = FlatMem::new(alloc, plan.plan().words)?;
    let mut out = Outgoing::new(alloc)?;
    let mut room = PoolRoom::make(alloc, plan.plan(), seats)?;
    rooms_are_ready::<B>();
    let end = run_room(rt, plan, &board, &mut room, &mut out, sink);
    let mut failed = end.is_fault();
    flush_lines(&mut out, sink, &mut failed);
    board.close(room.into_first(), &mut left);
    Ok(left)
}

// The same on a board without locks, with so many places.
fn run_turns<R: Threads + Wait + Sync, P: ShowsPlan + Sync>(
    rt: &R,
    alloc: Global,
    plan: &P,
    places: u32,
    sink: &mut MemSink,
) -> Result<FlatMem, Fail>
    requires well { IsWellOrderedPlan (P.shown plan.now) }
    ensures left { IfOk result (AreCellsOf (P.shown plan.now)) }
{
    if places == 0 || places > MOST_WORKERS {
        return Err(Fail::new("no such number of places"));
    }
    let (board, seats) = WordBoard::make(alloc, plan.plan(), places)?;
    run_turns_on(rt, alloc, plan, board, seats, sink)
}

// The same of a plan as it is, which threads may share.
fn run_plan_turns<R: Threads + Wait + Sync>(
    rt: &R,
    alloc: Global,
    plan: &Plan,
    places: u32,
    sink: &mut MemSink,
) -> Result<FlatMem, Fail>
    requires well { IsWellOrderedPlan plan.now }
    ensures left { IfOk result (AreCellsOf plan.now) }
{
    run_turns(rt, alloc, plan, places, sink)
}

// On one thread, and on four.
#[test]
fn by_turns(rt: HostRuntime) -> Result<(), Fail> {
    let alloc = rt.alloc();
    let section = section_of(alloc, TOTAL)?;
    for places in [1, 4] {
        for _ in 0..20 {
            let mut sink = MemSink::new(alloc, 100, 100, Vec::new(alloc))?;
            run_plan_turns(&rt, alloc, &section.plan, places, &mut sink)?;
            assert_eq!(rt; sink.bytes(), b"t = 30\n".as_slice());
        }
    }
    Ok(())
}

// The first section of a whole text, without a table.
fn section_by(alloc: Global, text: &str) -> Result<Section, Fail>
    ensures { IfOk result (λ section. IsWellOrderedPlan section.plan) }
{
    section_in(alloc, text, &Table::none(alloc))
}

// Pieces of two jobs by four threads, of which the script's own waits for the second.
#[test]
fn many_pieces(rt: HostRuntime) -> Result<(), Fail> {
    let alloc = rt.alloc();
    let section = section_by(alloc, MANY)?;
    for _ in 0..20 {
        let mut sink = MemSink::new(alloc, 10_000, 10_000, Vec::new(alloc))?;
        run_plan_turns(&rt, alloc, &section.plan, 4, &mut sink)?;
        assert_eq!(rt; sink.bytes(), b"s = [0, 2, 4, 16]\n".as_slice());
    }
    Ok(())
}

// The plan of a worked script on a board, before a run and after runs.
//
// The board of `TOTAL` has the pieces 0 to 2 of its jobs, and then five segments.
ghost use Rattle.std.specs.Prelude.{◌≡◌, ◌≤◌, ◌<◌, ◌+◌, ℕ, true, length, IfOk};
ghost use Rattle.frame_core.specs.Know.{IsFree, MayBegin, piece_count};
ghost use Rattle.frame_core.specs.Names.{job_pieces};
ghost use Rattle.frame_core.specs.Ordered.{IsWellOrderedPlan};
ghost use Rattle.frame_core.specs.Pieces.{piece_numbered};
ghost use Rattle.word_board.specs.Boards.{home_of, know_of, name_of, plan_of};
ghost use Rattle.frame_rows.specs.Between.{AreCellsOf};

use frame_core::{Board, Plan};
use frame_rows::texts::TOTAL;
use frame_rows::{run_words, section_of};
use job_base::{FlatMem, Mem, MemSink, OpenGate, PieceId, Word};
use plan_run::RunEnd;
use std::alloc::Global;
use std::sync::Wait;
use std::test::Fail;
use std::thread::{Threads, join_mut};
use word_board::{WordBoard, WordSeat};

// Whether a seat can begin one of the first pieces of a board.
fn begins_any(board: &WordBoard, seat: &mut WordSeat, pieces: u32) -> bool
    requires home { home_of seat.old ≡ name_of board.now }
    requires free { IsFree (know_of seat.old) }
    requires pieces { pieces ≤ piece_count (plan_of board.now) }
    requires may { (p : ℕ) → p < pieces → MayBegin (know_of seat.old) (piece_numbered (plan_of board.now) p) }
{
    for p in 0..pieces {
        if board.begin(seat, PieceId(p)) {
            return true;
        }
    }
    false
}

// The same of two seats at once: of the first for all pieces, and of the other one for those of jobs.
fn begin_any<R: Threads>(
    rt: &R,
    board: &WordBoard,
    first: &mut WordSeat,
    second: &mut WordSeat,
    all: u32,
    parts: u32,
) -> (bool, bool)
    requires homes { (home_of first.old ≡ name_of board.now) × (home_of second.old ≡ name_of board.now) }
    requires free { IsFree (know_of first.old) × IsFree (know_of second.old) }
    requires first { (know_of first.old).first ≡ true }
    requires all { all ≤ piece_count (plan_of board.now) }
    requires parts { parts ≤ job_pieces (plan_of board.now) }
{
    let mut f = ||
        requires { (home_of first.now ≡ name_of board.now)
            × IsFree (know_of first.now)
            × ((know_of first.now).first ≡ true)
            × (all ≤ piece_count (plan_of board.now)) }
    { begins_any(board, first, all) };
    let mut g = ||
        requires { (home_of second.now ≡ name_of board.now)
            × IsFree (know_of second.now)
            × (parts ≤ job_pieces (plan_of board.now)) }
    { begins_any(board, second, parts) };
    join_mut(rt, &mut f, &mut g)
}

// Whether one of the pieces of a new board can be begun.
fn begins_early<R: Threads>(rt: &R, alloc: Global, plan: &Plan) -> Result<bool, Fail>
    requires { IsWellOrderedPlan plan.now }
{
    let (board, mut seats) = WordBoard::make(alloc, plan, 2)?;
    let parts = plan.job_pieces();
    let all = parts + plan.segments.len() as u32;
    let mut first = seats.remove(0);
    let mut second = seats.remove(0);
    let (one, other) = begin_any(rt, &board, &mut first, &mut second, all, parts);
    Ok(one || other)
}

#[test]
fn nothing_begins_before_it_is_opened(rt: HostRuntime) -> Result<(), Fail> {
    let alloc = rt.alloc();
    let section = section_of(alloc, TOTAL)?;
    assert!(rt; !begins_early(&rt, alloc, &section.plan)?);
    Ok(())
}

/// Runs a plan with so many workers on the board without locks, writes its output, and gives the cells that it leaves.
pub fn run_plan<R: Threads + Wait + Sync>(
    rt: &R,
    alloc: Global,
    plan: &Plan,
    workers: u32,
    sink: &mut MemSink,
) -> Result<FlatMem, Fail>
    requires well { IsWellOrderedPlan plan.now }
    ensures left { IfOk result (AreCellsOf plan.now) }
{
    let (end, left) = run_words(rt, alloc, plan, workers, sink, &OpenGate)?;
    match end {
        RunEnd::Done(_) => Ok(left),
        RunEnd::WriteFault(_) => Err(Fail::new("a write failed")),
    }
}

// What a run of `TOTAL` writes, and its word 8, which is the reference.
fn total_of<R: Threads + Wait + Sync>(
    rt: &R,
    alloc: Global,
    plan: &Plan,
    workers: u32,
    sink: &mut MemSink,
) -> Result<i64, Fail>
    requires well { IsWellOrderedPlan plan.now }
{
    let mut cells = run_plan(rt, alloc, plan, workers, sink)?;
    if plan.words <= 8 {
        return Err(Fail::new("the plan has no word 8"));
    }
    Ok(cells.load(Word(8)))
}

#[test]
fn runs_agree(rt: HostRuntime) -> Result<(), Fail> {
    let alloc = rt.alloc();
    let section = section_of(alloc, TOTAL)?;
    for (workers, rounds) in [(1, 1), (2, 200), (4, 1)] {
        for _ in 0..rounds {
            let mut sink = MemSink::new(alloc, 100, 100, Vec::new(alloc))?;
            let total = total_of(&rt, alloc, &section.plan, workers, &mut sink)?;
            assert_eq!(rt; total, 30);
            assert_eq!(rt; sink.bytes(), b"t = 30\n".as_slice());
        }
    }
    Ok(())
}

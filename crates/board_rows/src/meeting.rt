// Two workers that run at once.

use crate::runs::run_plan;
use frame_rows::texts::TWO_BUMPS;
use frame_rows::{BoardKind, section_of};
use job_base::{CountingGate, MemSink, PieceId};
use std::sync::Wait;
use std::test::Fail;
use std::thread::Threads;

// Runs two pieces of which the first waits inside until the second has begun, and says whether they met.
fn meets<R: Threads + Wait + Send + Sync + Copy + Drop + AllocGlobal>(
    rt: R,
    kind: BoardKind,
    workers: u32,
    first: u32,
    second: u32,
) -> Result<bool, Fail> {
    let alloc = rt.alloc();
    let section = section_of(alloc, TWO_BUMPS)?;
    let gate = CountingGate::new(PieceId(first), PieceId(second), 10_000_000);
    let mut sink = MemSink::new(alloc, 100, 100, Vec::new(alloc))?;
    let status = run_plan(rt, alloc, &section.plan, kind, workers, &mut sink, &gate)?;
    if status != 0 || sink.bytes() != b"b = [1]\n".as_slice() {
        return Err(Fail::new("another status or another text"));
    }
    Ok(gate.met())
}

// One worker alone would run one of the two pieces to its end first, so in one of both orders they wouldn't meet.
#[test]
fn on_the_board_without_locks(rt: HostRuntime) -> Result<(), Fail> {
    for workers in [2, 4] {
        assert!(rt; meets(rt, BoardKind::Words, workers, 0, 1)?);
        assert!(rt; meets(rt, BoardKind::Words, workers, 1, 0)?);
    }
    Ok(())
}

#[test]
fn on_the_board_with_a_lock(rt: HostRuntime) -> Result<(), Fail> {
    for workers in [2, 4] {
        assert!(rt; meets(rt, BoardKind::Lock, workers, 0, 1)?);
        assert!(rt; meets(rt, BoardKind::Lock, workers, 1, 0)?);
    }
    Ok(())
}

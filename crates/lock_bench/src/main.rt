//! Times three frames on both boards at 1, 2 and 4 workers: a heavy kernel, a chain of small jobs, many small pieces.
//!
//! A word is how many rounds each runs, 1 where none is given. Standard output says which frames wrote what they have
//! to in every round; standard error tells the least time of a run by the clock, in microseconds. It is that of making
//! the board and the room of its workers, of running and of closing. Planning isn't in it.
#![tactic(auto)]

ghost use Rattle.frame_core.specs.Ordered.{IsWellOrderedPlan};

mod frames;

use crate::frames::{Frame, chain, heavy, pieces};
use frame_core::Plan;
use frame_rows::{BoardKind, run_kind, section_in};
use job_base::{MemSink, OpenGate};
use std::alloc::Global;
use std::env;
use std::rt::{Clock, Env};
use std::sync::Wait;
use std::test::Fail;
use std::thread::Threads;
use std::time::{Duration, Instant};
use table_in::Table;

const RUNS: [(BoardKind, u32); 6] = [
    (BoardKind::Words, 1),
    (BoardKind::Words, 2),
    (BoardKind::Words, 4),
    (BoardKind::Lock, 1),
    (BoardKind::Lock, 2),
    (BoardKind::Lock, 4),
];

// How long a run takes, which has to write this.
fn time_run<R: Threads + Wait + Clock + Send + Sync + Copy + Drop>(
    rt: R,
    alloc: Global,
    plan: &Plan,
    kind: BoardKind,
    workers: u32,
    output: &str,
) -> Result<Duration, Fail>
    requires well { IsWellOrderedPlan plan.now }
{
    let mut sink = MemSink::new(alloc, 4096, 4096, Vec::new(alloc))?;
    let start = Instant::now(&rt)?;
    run_kind(rt, alloc, plan, kind, workers, &mut sink, &OpenGate)?;
    let took = start.elapsed(&rt)?;
    if sink.bytes() != output.as_bytes() {
        return Err(Fail::new("a run wrote something else"));
    }
    Ok(took)
}

// The least time of so many runs.
fn least_time<R: Threads + Wait + Clock + Send + Sync + Copy + Drop>(
    rt: R,
    alloc: Global,
    plan: &Plan,
    kind: BoardKind,
    workers: u32,
    output: &str,
    rounds: u32,
) -> Result<Duration, Fail>
    requires well { IsWellOrderedPlan plan.now }
{
    let mut least = Duration::MAX;
    for _ in 0..rounds {
        let took = time_run(rt, alloc, plan, kind, workers, output)?;
        if took < least {
            least = took;
        }
    }
    Ok(least)
}

// Times a frame on each board.
fn time_frame<R: Threads + Wait + Clock + Print + Eprint + Send + Sync + Copy + Drop>(
    rt: R,
    alloc: Global,
    frame: &Frame,
    rounds: u32,
) -> Result<(), Fail> {
    let section = section_in(alloc, frame.text.as_str(), &Table::none(alloc))?;
    for (kind, workers) in RUNS {
        let least = least_time(
            rt,
            alloc,
            &section.plan,
            kind,
            workers,
            frame.output,
            rounds,
        )?;
        eprintln!(rt; "{} {kind:?} {workers} {}", frame.name, least.as_micros())?;
    }
    println!(rt; "{} done", frame.name)?;
    Ok(())
}

// A word that is a number, and 1 where there is none.
fn rounds<R: Env + AllocGlobal>(rt: &R) -> u32 {
    let Ok(args) = env::args(rt) else {
        return 1;
    };
    for word in args.skip(1) {
        return word.parse::<u32>().unwrap_or(1);
    }
    1
}

fn main(rt: HostRuntime) -> Result<(), Fail> {
    let alloc = rt.alloc();
    let rounds = rounds(&rt);
    time_frame(rt, alloc, &heavy(alloc)?, rounds)?;
    time_frame(rt, alloc, &chain(alloc)?, rounds)?;
    time_frame(rt, alloc, &pieces(alloc)?, rounds)
}

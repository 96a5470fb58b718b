//! The text of a report, to a sink that takes a few bytes at a time and to one that fails.

use frame_print::Outgoing;
use job_base::{JobId, MemSink, NoMemory};
use job_depth::{Depth, print_depth};
use std::alloc::Global;
use std::test::Fail;

fn diamond(alloc: Global) -> Result<Depth, NoMemory> {
    Ok(Depth {
        rounds: 2,
        levels: vec![in alloc; 1, 2]?,
        widest: 2,
        workers: 4,
        packed: 2,
        least: 2,
        chain: vec![in alloc; JobId(1), JobId(2)]?,
    })
}

fn no_job(alloc: Global) -> Depth {
    Depth {
        rounds: 0,
        levels: Vec::new(alloc),
        widest: 0,
        workers: 4,
        packed: 0,
        least: 0,
        chain: Vec::new(alloc),
    }
}

// Whether a report is taken whole by a sink with so much room, and what of it is taken.
fn take(alloc: Global, depth: &Depth, room: u32) -> Result<(bool, MemSink), Fail> {
    let mut out = Outgoing::new(alloc)?;
    let mut sink = MemSink::new(alloc, room, 7, Vec::new(alloc))?;
    let written = print_depth(depth, &mut out, &mut sink);
    Ok((written.is_ok(), sink))
}

const WHOLE: &str = "rounds 2\nwidest 2\nworkers 4: 2 rounds, at least 2\nchain 1 2\n";

const OF_NONE: &str = "rounds 0\nwidest 0\nworkers 4: 0 rounds, at least 0\nchain\n";

#[test]
fn reports(rt: HostRuntime) -> Result<(), Fail> {
    let alloc = rt.alloc();
    let (is_whole, sink) = take(alloc, &diamond(alloc)?, 200)?;
    assert!(rt;
        is_whole && sink.bytes() == WHOLE.as_bytes(),
        "two jobs in a row"
    );
    let (is_whole, sink) = take(alloc, &diamond(alloc)?, 20)?;
    assert!(rt;
        !is_whole && sink.bytes() == &WHOLE.as_bytes()[..20],
        "a sink without room"
    );
    let (is_whole, sink) = take(alloc, &no_job(alloc), 200)?;
    assert!(rt; is_whole && sink.bytes() == OF_NONE.as_bytes(), "no job");
    Ok(())
}

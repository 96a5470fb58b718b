// How deep worked scripts are.

use frame_print::Outgoing;
use frame_rows::section_of;
use frame_rows::texts::{BUMPS, TOTAL};
use job_base::MemSink;
use job_base::limits::MOST_WORKERS;
use job_depth::{depth, print_depth};
use std::alloc::Global;
use std::test::Fail;

// The report of a script for so many workers.
fn report_of(alloc: Global, lines: &str, workers: u32) -> Result<MemSink, Fail> {
    if workers == 0 || workers > MOST_WORKERS {
        return Err(Fail::new("no such number of workers"));
    }
    let section = section_of(alloc, lines)?;
    let report = depth(alloc, &section.plan, workers)?;
    let mut sink = MemSink::new(alloc, 200, 200, Vec::new(alloc))?;
    let mut out = Outgoing::new(alloc)?;
    print_depth(&report, &mut out, &mut sink)?;
    Ok(sink)
}

#[test]
fn depths(rt: HostRuntime) -> Result<(), Fail> {
    let alloc = rt.alloc();
    let rows: [(&str, u32, &str); 4] = [
        (
            TOTAL,
            4,
            "rounds 2\nwidest 2\nworkers 4: 2 rounds, at least 2\nchain 1 2\n",
        ),
        (
            TOTAL,
            1,
            "rounds 2\nwidest 2\nworkers 1: 3 rounds, at least 3\nchain 1 2\n",
        ),
        (
            BUMPS,
            4,
            "rounds 3\nwidest 1\nworkers 4: 3 rounds, at least 3\nchain 1 2 3\n",
        ),
        (
            "",
            4,
            "rounds 0\nwidest 0\nworkers 4: 0 rounds, at least 0\nchain\n",
        ),
    ];
    for (lines, workers, want) in rows {
        let sink = report_of(alloc, lines, workers)?;
        assert_eq!(rt; sink.bytes(), want.as_bytes());
    }
    Ok(())
}

// Sinks that fail: a first part of the text is written, and the status is that of a write that failed.

use crate::runs::{RUNS, run_plan};
use frame_rows::section_of;
use frame_rows::texts::TOTAL;
use job_base::{MemSink, OpenGate};
use std::test::Fail;

// A sink that takes a byte at each write, and fails at the third one.
#[test]
fn a_write_fails(rt: HostRuntime) -> Result<(), Fail> {
    let alloc = rt.alloc();
    let section = section_of(alloc, TOTAL)?;
    for (kind, workers) in RUNS {
        let mut sink = MemSink::new(alloc, 100, 1, vec![in alloc; 2u64]?)?;
        let status = run_plan(
            rt,
            alloc,
            &section.plan,
            kind,
            workers,
            &mut sink,
            &OpenGate,
        )?;
        assert_eq!(rt; status, 7, "{kind:?} at {workers} workers");
        assert_eq!(rt; sink.bytes(), b"t ".as_slice());
    }
    Ok(())
}

#[test]
fn nothing_fits(rt: HostRuntime) -> Result<(), Fail> {
    let alloc = rt.alloc();
    let section = section_of(alloc, TOTAL)?;
    for (kind, workers) in RUNS {
        let mut sink = MemSink::new(alloc, 0, 100, Vec::new(alloc))?;
        let status = run_plan(
            rt,
            alloc,
            &section.plan,
            kind,
            workers,
            &mut sink,
            &OpenGate,
        )?;
        assert_eq!(rt; status, 7, "{kind:?} at {workers} workers");
        assert_eq!(rt; sink.bytes(), b"".as_slice());
    }
    Ok(())
}

// Worked scripts, each with its output and status on both boards at 1, 4 and 64 workers.
ghost use Rattle.frame_core.specs.Ordered.{IsWellOrderedPlan};

use crate::runs::{RUNS, run_plan};
use frame_core::Plan;
use frame_rows::texts::ADDED_COLUMN;
use frame_rows::{section_in, section_with};
use job_base::{MemSink, OpenGate};
use std::alloc::Global;
use std::sync::Wait;
use std::test::Fail;
use std::thread::Threads;
use table_in::{Table, read_table};
use worked_rows::{AUTOMATIC_DEPENDENCIES, KERNELS, PARTS, PENDING_JOBS, Row, WIDTHS_AND_LIVES};

// Where a plan gives something else than this status and output, and what.
fn difference_of<R: Threads + Wait + Send + Sync + Copy + Drop>(
    rt: R,
    alloc: Global,
    plan: &Plan,
    status: u8,
    output: &str,
) -> Result<Option<String>, Fail>
    requires well { IsWellOrderedPlan plan.now }
{
    for (kind, workers) in RUNS {
        let mut sink = MemSink::new(alloc, 4096, 4096, Vec::new(alloc))?;
        let got = run_plan(rt, alloc, plan, kind, workers, &mut sink, &OpenGate)?;
        if got != status || sink.bytes() != output.as_bytes() {
            let told = format!(in alloc;
                "{:?} at {} workers: status {} and {:?}",
                kind,
                workers,
                got,
                sink.bytes()
            )?;
            return Ok(Some(told));
        }
    }
    Ok(None)
}

// The same of the first row that gives something else.
fn difference<R: Threads + Wait + Send + Sync + Copy + Drop>(
    rt: R,
    alloc: Global,
    rows: &[Row],
) -> Result<Option<String>, Fail> {
    for row in rows {
        let section = section_in(alloc, row.script, &Table::none(alloc))?;
        if section.test.is_some() {
            return Err(Fail::new("the script has more than one plan"));
        }
        if let Some(told) = difference_of(rt, alloc, &section.plan, row.status, row.output)? {
            return Ok(Some(told));
        }
    }
    Ok(None)
}

#[test]
fn pending_jobs(rt: HostRuntime) -> Result<(), Fail> {
    assert_eq!(rt; difference(rt, rt.alloc(), PENDING_JOBS)?, None);
    Ok(())
}

#[test]
fn parts(rt: HostRuntime) -> Result<(), Fail> {
    assert_eq!(rt; difference(rt, rt.alloc(), PARTS)?, None);
    Ok(())
}

#[test]
fn kernels(rt: HostRuntime) -> Result<(), Fail> {
    assert_eq!(rt; difference(rt, rt.alloc(), KERNELS)?, None);
    Ok(())
}

#[test]
fn widths_and_lives(rt: HostRuntime) -> Result<(), Fail> {
    assert_eq!(rt; difference(rt, rt.alloc(), WIDTHS_AND_LIVES)?, None);
    Ok(())
}

#[test]
fn automatic_dependencies(rt: HostRuntime) -> Result<(), Fail> {
    assert_eq!(rt; difference(rt, rt.alloc(), AUTOMATIC_DEPENDENCIES)?, None);
    Ok(())
}

#[test]
fn a_column(rt: HostRuntime) -> Result<(), Fail> {
    let alloc = rt.alloc();
    let table = read_table(alloc, b"item,price\n1,250\n2,-30\n3,80\n")?;
    let section = section_with(alloc, ADDED_COLUMN, &table)?;
    assert_eq!(rt;
        difference_of(rt, alloc, &section.plan, 0, "t = 300\n")?,
        None
    );
    Ok(())
}

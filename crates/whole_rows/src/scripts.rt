// Worked scripts, each with its output and status at 1, 4 and 64 workers.

use crate::frames::{Given, difference as difference_of};
use std::sync::Wait;
use std::test::Fail;
use std::thread::Threads;
use worked_rows::{
    AUTOMATIC_DEPENDENCIES, BLOCKS, KERNELS, PARTS, PENDING_JOBS, Row, WIDTHS_AND_LIVES,
};

// What the first row that gives something else gives.
fn difference<R: Threads + Wait + Sync + AllocGlobal>(
    rt: &R,
    rows: &[Row],
) -> Result<Option<String>, Fail> {
    for row in rows {
        let given = Given::script(row.script);
        if let Some(told) = difference_of(rt, &["s"], &given, row.status, row.output)? {
            return Ok(Some(format!(in rt.alloc(); "{told} of {}", row.name)?));
        }
    }
    Ok(None)
}

#[test]
fn pending_jobs_are_named(rt: HostRuntime) -> Result<(), Fail> {
    assert_eq!(rt; difference(&rt, PENDING_JOBS)?, None);
    Ok(())
}

#[test]
fn containers_and_their_parts(rt: HostRuntime) -> Result<(), Fail> {
    assert_eq!(rt; difference(&rt, PARTS)?, None);
    Ok(())
}

#[test]
fn kernels_and_their_traps(rt: HostRuntime) -> Result<(), Fail> {
    assert_eq!(rt; difference(&rt, KERNELS)?, None);
    Ok(())
}

#[test]
fn widths_lives_and_lengths(rt: HostRuntime) -> Result<(), Fail> {
    assert_eq!(rt; difference(&rt, WIDTHS_AND_LIVES)?, None);
    Ok(())
}

#[test]
fn automatic_dependencies_and_blocks(rt: HostRuntime) -> Result<(), Fail> {
    assert_eq!(rt; difference(&rt, AUTOMATIC_DEPENDENCIES)?, None);
    assert_eq!(rt; difference(&rt, BLOCKS)?, None);
    Ok(())
}

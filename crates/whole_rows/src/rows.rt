// Worked command lines, each with its status and text at each number of workers.

use crate::frames::{Given, difference, difference_at, with_kernels};
use crate::texts::row_of;
use frame_rows::texts::{BUMPS, TOTAL};
use std::sync::Wait;
use std::test::Fail;
use std::thread::Threads;
use worked_rows::LIMITS;

const USAGE: &str =
    "usage: frame_run [--workers N] [--depth] SCRIPT [TABLE] or frame_run [--workers N] [--depth] \
                     --gen NUMBER --jobs K\n";

// What a row of words gives at some number of workers instead of its status and its text, if it gives something else.
fn difference_in<R: Threads + Wait + Sync + AllocGlobal>(
    rt: &R,
    row: &str,
) -> Result<Option<String>, Fail> {
    let alloc = rt.alloc();
    let (status, text, words) = row_of(alloc, row)?;
    let words: Vec<&str> = words.split_whitespace().collect(alloc)?;
    let text = if text.as_str() == "usage" {
        USAGE
    } else {
        text.as_str()
    };
    difference(rt, &words, &Given::script(""), status, text)
}

const WORDS: &str = r"0 | s
2 usage |
2 usage | --workers 4 s
2 usage | --gen 1
2 usage | s --gen 1 --jobs 1
2 usage | --gen 1 --jobs 4001
0 t = 68160\n | --gen 1 --jobs 1
6 cannot read script\n | u
6 cannot read table\n | s u
";

#[test]
fn words(rt: HostRuntime) -> Result<(), Fail> {
    for row in WORDS.lines() {
        assert_eq!(rt; difference_in(&rt, row)?, None, "{row}");
    }
    for workers in ["0", "65"] {
        let given = Given::script("");
        assert_eq!(rt;
            difference_at(&rt, workers, &["s"], &given, 2, USAGE)?,
            None
        );
    }
    Ok(())
}

// The sum is that of another program, in another language.
#[test]
fn a_large_frame(rt: HostRuntime) -> Result<(), Fail> {
    let words = ["--gen", "1", "--jobs", "4000"];
    let given = Given::script("");
    assert_eq!(rt; difference(&rt, &words, &given, 0, "t = 486144\n")?, None);
    Ok(())
}

#[test]
fn scripts_at_a_limit(rt: HostRuntime) -> Result<(), Fail> {
    for row in LIMITS {
        let given = Given::script(row.script);
        assert_eq!(rt;
            difference(&rt, &["s"], &given, row.status, row.output)?,
            None,
            "{}",
            row.name
        );
    }
    Ok(())
}

// The same number of workers in the report as in the words.
const DEPTHS_OF_TOTAL: &str =
    r"0 rounds 2\nwidest 2\nworkers 1: 3 rounds, at least 3\nchain 1 2\n | 1
0 rounds 2\nwidest 2\nworkers 4: 2 rounds, at least 2\nchain 1 2\n | 4
0 rounds 2\nwidest 2\nworkers 64: 2 rounds, at least 2\nchain 1 2\n | 64
";

const DEPTHS_OF_BUMPS: &str =
    r"0 rounds 3\nwidest 1\nworkers 1: 3 rounds, at least 3\nchain 1 2 3\n | 1
0 rounds 3\nwidest 1\nworkers 4: 3 rounds, at least 3\nchain 1 2 3\n | 4
0 rounds 3\nwidest 1\nworkers 64: 3 rounds, at least 3\nchain 1 2 3\n | 64
";

const DEPTHS_OF_NONE: &str = r"0 rounds 0\nwidest 0\nworkers 1: 0 rounds, at least 0\nchain\n | 1
0 rounds 0\nwidest 0\nworkers 4: 0 rounds, at least 0\nchain\n | 4
0 rounds 0\nwidest 0\nworkers 64: 0 rounds, at least 0\nchain\n | 64
";

// What a script's report says instead at the number of workers of a row, if it says something else.
fn depth_difference<R: Threads + Wait + Sync + AllocGlobal>(
    rt: &R,
    lines: &str,
    rows: &str,
) -> Result<Option<String>, Fail> {
    let alloc = rt.alloc();
    let script = with_kernels(alloc, lines)?;
    for row in rows.lines() {
        let (status, text, workers) = row_of(alloc, row)?;
        let given = Given::script(&script);
        let words = ["--depth", "s"];
        if let Some(told) = difference_at(rt, workers, &words, &given, status, &text)? {
            return Ok(Some(told));
        }
    }
    Ok(None)
}

#[test]
fn depths(rt: HostRuntime) -> Result<(), Fail> {
    assert_eq!(rt; depth_difference(&rt, TOTAL, DEPTHS_OF_TOTAL)?, None);
    assert_eq!(rt; depth_difference(&rt, BUMPS, DEPTHS_OF_BUMPS)?, None);
    assert_eq!(rt; depth_difference(&rt, "", DEPTHS_OF_NONE)?, None);
    Ok(())
}

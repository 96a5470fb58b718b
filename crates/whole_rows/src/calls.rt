// Whole runs, over files and a sink in memory.

use crate::frames::{Given, answer, difference_of, sink_of, with_kernels};
use crate::texts::{row_of, unescaped};
use frame_rows::texts::{ADDED_COLUMN, TOTAL, TWO_BUMPS};
use job_base::{CountingGate, MemSink, OpenGate, PieceId};
use std::sync::Wait;
use std::test::Fail;
use std::thread::Threads;

const USAGE: &str =
    "usage: frame_run [--workers N] [--depth] SCRIPT [TABLE] or frame_run [--workers N] [--depth] --gen NUMBER --jobs \
     K\n";

// What a row of words gives instead of its status and its text, over a script, if it gives something else.
fn difference_in<R: Threads + Wait + Sync + AllocGlobal>(
    rt: &R,
    script: &str,
    row: &str,
) -> Result<Option<String>, Fail> {
    let alloc = rt.alloc();
    let (status, text, words) = row_of(alloc, row)?;
    let words: Vec<&str> = words.split_whitespace().collect(alloc)?;
    let text = if text.as_str() == "usage" {
        USAGE
    } else {
        text.as_str()
    };
    difference_of(rt, &words, &Given::script(script), status, text)
}

const WORDS: &str = r"0 | s
0 | --workers 64 s
2 usage |
2 usage | --workers 0 s
2 usage | --gen 1
2 usage | s --gen 1 --jobs 1
6 cannot read script\n | u
6 cannot read table\n | s u
0 t = 68160\n | --gen 1 --jobs 1
";

#[test]
fn the_words_of_the_command(rt: HostRuntime) -> Result<(), Fail> {
    for row in WORDS.lines() {
        assert_eq!(rt; difference_in(&rt, "", row)?, None, "{row}");
    }
    Ok(())
}

const REFUSED: &str = r"3 script refused line 13: syntax\n | array a
3 script refused line 13: kind mismatch\n | array a 2 = 1
3 script refused line 15: limit\n | array x 1\narray y 1\nschedule h scale(x, y) 4 0
9 limit: jobs\n | array a 1\ncombine h\nrepeat 4097 {\nschedule h bump(a) after h\n}\ncomplete h\nprint a
9 limit: statements\n | repeat 65536 {\nflush\n}\nflush
0 a = [4096]\n | array a 1\ncombine h\nrepeat 4096 {\nschedule h bump(a) after h\n}\ncomplete h\nprint a
";

#[test]
fn scripts_that_are_refused(rt: HostRuntime) -> Result<(), Fail> {
    let alloc = rt.alloc();
    for row in REFUSED.lines() {
        let (status, text, lines) = row_of(alloc, row)?;
        let script = with_kernels(alloc, &unescaped(alloc, lines)?)?;
        let told = difference_of(&rt, &["s"], &Given::script(&script), status, &text)?;
        assert_eq!(rt; told, None, "{row}");
    }
    Ok(())
}

const TABLES: &str = r"0 t = 300\n | item,price\n1,250\n2,-30\n3,80\n
4 table refused row 3: not a number\n | item,price\n1,250\nx,80\n
4 table refused row 2: unequal row\n | item,price\n1\n
4 table refused: empty\n |
4 table refused: no column price\n | item,cost\n1,250\n
";

// A column of a table, added up, and what is answered where there is no table.
#[test]
fn tables(rt: HostRuntime) -> Result<(), Fail> {
    let alloc = rt.alloc();
    let script = with_kernels(alloc, ADDED_COLUMN)?;
    for row in TABLES.lines() {
        let (status, text, table) = row_of(alloc, row)?;
        let table = unescaped(alloc, table)?;
        let given = Given::both(&script, &table);
        let told = difference_of(&rt, &["s", "t"], &given, status, &text)?;
        assert_eq!(rt; told, None, "{row}");
    }
    let row = r"4 table refused: no column price\n | s";
    assert_eq!(rt; difference_in(&rt, &script, row)?, None, "{row}");
    Ok(())
}

const AGAIN: &str = "array a 1 = 1
repeat 3 {
schedule h bump(a)
complete h
}
print a
";

const TESTED: &str = "reference t
flush
when t == 1 {
print t
}
";

const DEPTHS_OF_TOTAL: &str =
    r"0 rounds 2\nwidest 2\nworkers 4: 2 rounds, at least 2\nchain 1 2\n | s --depth
0 rounds 2\nwidest 2\nworkers 1: 3 rounds, at least 3\nchain 1 2\n | --depth --workers 1 s
";

const DEPTH_OF_AGAIN: &str =
    r"0 rounds 3\nwidest 1\nworkers 4: 3 rounds, at least 3\nchain 1 2 3\n | --depth s";

const DEPTH_OF_NONE: &str =
    r"0 rounds 0\nwidest 0\nworkers 4: 0 rounds, at least 0\nchain\n | --depth s";

const DEPTH_OF_TESTED: &str = r"3 script refused line 15: limit\n | --depth s";

// What some rows of words give instead of their statuses and texts, over the script that has these lines.
fn difference_after_kernels<R: Threads + Wait + Sync + AllocGlobal>(
    rt: &R,
    lines: &str,
    rows: &str,
) -> Result<Option<String>, Fail> {
    let script = with_kernels(rt.alloc(), lines)?;
    for row in rows.lines() {
        if let Some(told) = difference_in(rt, &script, row)? {
            return Ok(Some(format!(in rt.alloc(); "{told} of {row}")?));
        }
    }
    Ok(None)
}

#[test]
fn the_report_of_the_depth(rt: HostRuntime) -> Result<(), Fail> {
    assert_eq!(rt;
        difference_after_kernels(&rt, TOTAL, DEPTHS_OF_TOTAL)?,
        None
    );
    assert_eq!(rt; difference_after_kernels(&rt, AGAIN, DEPTH_OF_AGAIN)?, None);
    assert_eq!(rt; difference_after_kernels(&rt, "", DEPTH_OF_NONE)?, None);
    assert_eq!(rt;
        difference_after_kernels(&rt, TESTED, DEPTH_OF_TESTED)?,
        None
    );
    Ok(())
}

#[test]
fn a_sink_that_fails(rt: HostRuntime) -> Result<(), Fail> {
    let alloc = rt.alloc();
    let script = with_kernels(alloc, TOTAL)?;
    let given = Given::script(&script);
    let failing = vec![in alloc; 2u64]?;
    let mut sink = MemSink::new(alloc, 100, 1, failing).ok().ok_or("memory")?;
    assert_eq!(rt; answer(&rt, &["s"], &given, &mut sink, &OpenGate)?, 7);
    assert_eq!(rt; sink.bytes(), b"t ".as_slice());
    let mut full = MemSink::new(alloc, 0, 1, Vec::new(alloc))
        .ok()
        .ok_or("memory")?;
    assert_eq!(rt; answer(&rt, &["s"], &given, &mut full, &OpenGate)?, 7);
    assert_eq!(rt; full.bytes(), b"".as_slice());
    Ok(())
}

// Two pieces that wait for each other are run by two workers.
#[test]
fn pieces_run_side_by_side(rt: HostRuntime) -> Result<(), Fail> {
    let script = with_kernels(rt.alloc(), TWO_BUMPS)?;
    let given = Given::script(&script);
    for (first, second) in [(0, 1), (1, 0)] {
        let gate = CountingGate::new(PieceId(first), PieceId(second), 10_000_000);
        let mut sink = sink_of(&rt)?;
        let words = ["--workers", "2", "s"];
        assert_eq!(rt; answer(&rt, &words, &given, &mut sink, &gate)?, 0);
        assert_eq!(rt; sink.bytes(), b"b = [1]\n".as_slice());
        assert!(rt; gate.met());
    }
    Ok(())
}

// The jobs are run although a write failed before they were scheduled: that of a line which is too long to wait.
#[test]
fn jobs_run_after_a_fault(rt: HostRuntime) -> Result<(), Fail> {
    let alloc = rt.alloc();
    let lines =
        "array x 30000\nprint x\narray a 1\narray b 1\nschedule h1 bump(a)\nschedule h2 bump(b)\ncombine h h1 h2\n\
         complete h\n";
    let script = with_kernels(alloc, lines)?;
    let given = Given::script(&script);
    let gate = CountingGate::new(PieceId(0), PieceId(1), 10_000_000);
    let mut sink = MemSink::new(alloc, 0, 1, Vec::new(alloc))
        .ok()
        .ok_or("memory")?;
    let words = ["--workers", "2", "s"];
    assert_eq!(rt; answer(&rt, &words, &given, &mut sink, &gate)?, 7);
    assert_eq!(rt; sink.bytes(), b"".as_slice());
    assert!(rt; gate.met());
    Ok(())
}

#[test]
fn a_file_that_is_too_long(rt: HostRuntime) -> Result<(), Fail> {
    let alloc = rt.alloc();
    let rows = [
        (16_777_216usize, 0u8, ""),
        (16_777_217, 9, "limit: script size\n"),
    ];
    for (size, status, text) in rows {
        let source = vec![in alloc; b'#'; size]?;
        let given = Given {
            script: &source,
            table: b"",
            failing: &[],
        };
        let told = difference_of(&rt, &["s"], &given, status, text)?;
        assert_eq!(rt; told, None, "{size}");
    }
    Ok(())
}

// Frames whose files or sink fail.

use crate::frames::{Given, WORKERS, difference, status_of, with_kernels};
use crate::texts::row_of;
use frame_rows::texts::TOTAL;
use job_base::{CountingGate, MemSink, OpenGate, PieceId};
use std::sync::Wait;
use std::test::Fail;
use std::thread::Threads;

const TRIPLE: &str =
    "job triple(x: ro array, y: wo array) { for k in 0..len(x) { y[k] = x[k] * 3; } }
array x 4 = 1 2 3 4
array y 4
schedule h triple(x, y)
complete h
print y
";

// What is left of a script's output at each number of workers, if something else is: a sink that takes a byte at each
// write fails at the write of this number.
fn difference_after<R: Threads + Wait + Sync + AllocGlobal>(
    rt: &R,
    script: &str,
    row: &str,
) -> Result<Option<String>, Fail> {
    let alloc = rt.alloc();
    let (status, text, failing) = row_of(alloc, row)?;
    let failing = failing.parse::<u64>().ok().ok_or("no number")?;
    let given = Given::script(script);
    for workers in WORKERS {
        let mut sink = MemSink::new(alloc, 100, 1, vec![in alloc; failing]?)?;
        let got = status_of(rt, workers, &["s"], &given, &mut sink, &OpenGate)?;
        if got != status || sink.bytes() != text.as_bytes() {
            return Ok(Some(format!(in alloc; "status {} and {:?}", got, sink.bytes())?));
        }
    }
    Ok(None)
}

const FAILING_WRITES: &str = r"7 | 0
7 t | 1
7 t  | 2
7 t = | 3
7 t =  | 4
7 t = 3 | 5
7 t = 30 | 6
0 t = 30\n | 7
";

// Each write in turn, and none.
#[test]
fn writes_that_fail(rt: HostRuntime) -> Result<(), Fail> {
    let total = with_kernels(rt.alloc(), TOTAL)?;
    for row in FAILING_WRITES.lines() {
        assert_eq!(rt; difference_after(&rt, &total, row)?, None, "{row}");
    }
    assert_eq!(rt; difference_after(&rt, TRIPLE, "7 y  | 2")?, None);
    Ok(())
}

// A sink with no room at all, and a refusal that can't be written.
#[test]
fn nothing_is_written(rt: HostRuntime) -> Result<(), Fail> {
    let alloc = rt.alloc();
    let total = with_kernels(alloc, TOTAL)?;
    let rows: [(&[u8], u32, &[u64]); 2] = [(total.as_bytes(), 0, &[]), (b"\xFF", 100, &[0])];
    for (script, room, failing) in rows {
        let given = Given {
            script,
            table: b"",
            failing: &[],
        };
        for workers in WORKERS {
            let mut sink = MemSink::new(alloc, room, 100, Vec::from_slice(alloc, failing)?)?;
            let got = status_of(&rt, workers, &["s"], &given, &mut sink, &OpenGate)?;
            assert_eq!(rt; got, 7);
            assert_eq!(rt; sink.bytes(), b"".as_slice());
        }
    }
    Ok(())
}

// Three jobs in the section after a test, before which more is printed than can wait for the sink.
const TESTED: &str = "array x 30000
print x
reference t
array a 1
array b 1
array c 1
when t == 0 {
schedule h1 bump(a)
schedule h2 bump(b)
schedule h3 bump(c)
}
";

// After a write that failed the later sections are run all the same: two pieces of the second one, whose numbers the
// first one hasn't, meet.
#[test]
fn sections_after_a_failed_write(rt: HostRuntime) -> Result<(), Fail> {
    let alloc = rt.alloc();
    let script = with_kernels(alloc, TESTED)?;
    let given = Given::script(&script);
    for (first, second) in [(1, 2), (2, 1)] {
        let gate = CountingGate::new(PieceId(first), PieceId(second), 10_000_000);
        let mut sink = MemSink::new(alloc, 0, 100, Vec::new(alloc))?;
        let got = status_of(&rt, "2", &["s"], &given, &mut sink, &gate)?;
        assert_eq!(rt; got, 7);
        assert_eq!(rt; sink.bytes(), b"".as_slice());
        assert!(rt; gate.met());
    }
    Ok(())
}

#[test]
fn reads_that_fail(rt: HostRuntime) -> Result<(), Fail> {
    let script = with_kernels(
        rt.alloc(),
        "column p \"price\"\nreference t\nschedule h total(p, t)\ncomplete h\nprint t\n",
    )?;
    let rows: [(&[u64], u8, &str); 3] = [
        (&[0], 6, "cannot read script\n"),
        (&[1], 6, "cannot read table\n"),
        (&[2], 0, "t = 300\n"),
    ];
    for (failing, status, text) in rows {
        let given = Given {
            script: script.as_bytes(),
            table: b"item,price\n1,250\n2,-30\n3,80\n",
            failing,
        };
        assert_eq!(rt;
            difference(&rt, &["s", "t"], &given, status, text)?,
            None,
            "{text}"
        );
    }
    Ok(())
}

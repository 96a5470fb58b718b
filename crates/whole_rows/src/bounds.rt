// Hostile texts, and texts at their limits and one past them. Each is a whole file.

use crate::frames::{Given, difference_at};
use crate::texts::{row_of, unescaped};
use std::alloc::Global;
use std::sync::Wait;
use std::test::Fail;
use std::thread::Threads;

// Some bytes so many times between a head and a tail.
fn repeated(
    alloc: Global,
    head: &str,
    parts: &[(&str, usize)],
    tail: &str,
) -> Result<String, Fail> {
    let mut text = String::from_str(alloc, head)?;
    for (part, times) in parts {
        for _ in 0..*times {
            text.push_str(part)?;
        }
    }
    text.push_str(tail)?;
    Ok(text)
}

// A script at four workers.
fn check<R: Threads + Wait + Sync + AllocGlobal>(
    rt: &R,
    script: &[u8],
    status: u8,
    text: &str,
) -> Result<Option<String>, Fail> {
    let given = Given {
        script,
        table: b"",
        failing: &[],
    };
    difference_at(rt, "4", &["s"], &given, status, text)
}

const SHORT_TEXTS: &str = r"3 script refused line 1: limit\n | array a 9223372036854775808
3 script refused line 2: kind mismatch\n | array a 1\nlist a 1
3 script refused line 1: unknown name\n | print x
3 script refused line 1: read of write-only\n | job f(a: wo array) { a[0] = a[0]; }
3 script refused line 1: write of read-only\n | job f(a: ro array) { a[0] = 1; }
3 script refused line 1: duplicate name\n | job f(i: int, i: int) { }
3 script refused line 1: limit\n | parallel over(a: wo array by 0) { a[index * 2] = 7; }
0 | parallel over(a: wo array by 1024) { a[index * 2] = 7; }
3 script refused line 1: limit\n | parallel over(a: wo array by 1025) { a[index * 2] = 7; }
0 | repeat 8 {\narray a 1048576\ndispose a\n}\n
9 limit: words\n | repeat 8 {\narray a 1048576\ndispose a\n}\narray b 1\n
";

// A kernel without an end.
const SPINS: &str = "job spin(a: rw array) { a[0] = 1; while 1 { } }
array a 1
schedule h spin(a)
complete h
print a
";

#[test]
fn short_texts(rt: HostRuntime) -> Result<(), Fail> {
    let alloc = rt.alloc();
    for row in SHORT_TEXTS.lines() {
        let (status, text, script) = row_of(alloc, row)?;
        let script = unescaped(alloc, script)?;
        assert_eq!(rt;
            check(&rt, script.as_bytes(), status, &text)?,
            None,
            "{row}"
        );
    }
    let syntax = "script refused line 1: syntax\n";
    assert_eq!(rt; check(&rt, b"\xFF", 3, syntax)?, None, "{syntax}");
    let budget = "a = [1]\ntrap job 1 index 0: budget\ntraps 1\n";
    assert_eq!(rt; check(&rt, SPINS.as_bytes(), 5, budget)?, None, "{budget}");
    Ok(())
}

// Blocks of statements, parentheses and signs, one in another.
#[test]
fn deep_texts(rt: HostRuntime) -> Result<(), Fail> {
    let kernel = "job f(t: wo ref) { t = ";
    let rows: [(&str, &[(&str, usize)], &str, u8, &str); 4] = [
        (
            "",
            &[("repeat 1 {\n", 9), ("flush\n", 1), ("}\n", 9)],
            "",
            3,
            "script refused line 9: limit\n",
        ),
        (
            "",
            &[("repeat 1 {\n", 8), ("flush\n", 1), ("}\n", 8)],
            "",
            0,
            "",
        ),
        (
            kernel,
            &[("(", 1_000_000), ("1", 1), (")", 1_000_000)],
            "; }",
            0,
            "",
        ),
        (
            kernel,
            &[("-", 1_000_000)],
            "1; }",
            3,
            "script refused line 1: limit\n",
        ),
    ];
    for (head, parts, tail, status, text) in rows {
        let script = repeated(rt.alloc(), head, parts, tail)?;
        assert_eq!(rt;
            check(&rt, script.as_bytes(), status, text)?,
            None,
            "{text}"
        );
    }
    Ok(())
}

// A table of line ends alone, which has no record.
#[test]
fn long_tables(rt: HostRuntime) -> Result<(), Fail> {
    let rows = [
        (67_108_864usize, 4u8, "table refused: empty\n"),
        (67_108_865, 9, "limit: table size\n"),
    ];
    for (size, status, text) in rows {
        let table = vec![in rt.alloc(); b'\n'; size]?;
        let given = Given {
            script: b"",
            table: &table,
            failing: &[],
        };
        assert_eq!(rt;
            difference_at(&rt, "4", &["s", "t"], &given, status, text)?,
            None,
            "{text}"
        );
    }
    Ok(())
}

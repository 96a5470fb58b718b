//! Whole files: the line and kind of the first fault of each.

use crate::scripts::{outcome, try_rows};
use row_texts::{halves, row, same, table, unescaped};
use std::alloc::Global;
use std::test::Fail;

const FAULTS: &str = r"
# Unknown names, and kinds
4: UnknownName | print x
5: UnknownName | array a 1\nprint x
4: UnknownName | copy b a
4: UnknownName | combine g g
5: UnknownName | repeat 2 {\nprint a\narray a 1\n}
4: UnknownName | schedule h none()
4: UnknownName | schedule h late()\njob late() { }
5: UnknownName | array a 1\nschedule h fill(a, 1) after g
5: UnknownName | array a 1\nschedule h scale(a, a) 1 1 waive a
5: UnknownName | array a 1\nschedule h scale(a, a) defer l 1
4: UnknownName | job bad() { var x = y; }\nprint x
4: UnknownName | print x\njob bad() { var x = y; }
4: DuplicateName | job fill() { }
5: KindMismatch | array a 1\nlist a 1
4: KindMismatch | array a 2 = 1
4: KindMismatch | array a 99999999999999999999 = 1
5: KindMismatch | array a 1\nschedule h fill(a)
5: KindMismatch | array a 1\nschedule h fill(a, 1) 1 1
5: KindMismatch | array a 1\nschedule h scale(a, a)
5: KindMismatch | array a 1\nschedule h scale(a, 1) 1 1
5: KindMismatch | array a 1\nschedule h fill(a, a)
5: KindMismatch | list l 1\nschedule h scale(l, l) 1 1
5: KindMismatch | array a 1\nschedule h scale(a, a) 1 1 waive x
5: KindMismatch | array a 1\nschedule h scale(a, a) defer a 1
5: KindMismatch | array a 1\nschedule a fill(a, 1)
5: KindMismatch | array a 1\ncomplete a
5: KindMismatch | combine h\nprint h
5: KindMismatch | combine h\ncopy g h
5: KindMismatch | reference r\nset r 0 = 1
5: KindMismatch | array a 1\nset a = 1
5: KindMismatch | list l 1\nadd l 1 2
5: KindMismatch | map m 1\nadd m 1
5: KindMismatch | list l 1\nput l 1 2
5: KindMismatch | array a 1\nremove a 0
5: KindMismatch | reference r\nclear r
5: KindMismatch | map m 1\nsetcapacity m 1
5: KindMismatch | list l 1\nslice s l 0 0
5: KindMismatch | array a 1\nview v a
6: KindMismatch | list l 1\nview v l\ndispose v
6: KindMismatch | list l 1\ncopy m l\nmap m 1
5: KindMismatch | array a 1\nwhen a == 1 {\nflush\n}

# Limits
4: Limit | array a 1048577
4: Limit | list l 1048577
4: Limit | map m 4097
4: Limit | stream s 65537 1
4: Limit | stream s 1 1025
5: Limit | array a 1\nslice b a 1048577 0
4: Limit | reference r = 9223372036854775808
4: Limit | reference r = -9223372036854775809
4: Limit | array a 18446744073709551617
4: Limit | repeat 0 {\n}
4: Limit | repeat 65537 {\nprint x\n}
5: Limit | array a 1\nschedule h scale(a, a) 4 0
5: Limit | array a 1\nschedule h scale(a, a) 1048577 1
5: Limit | array a 1\nschedule h scale(a, a) 1 1048577
5: Limit | list l 1\nschedule h scale(l, l) defer l 0
6: Limit | reference r\nwhen r == 1 {\nwhen r == 1 {\n}\n}
7: TooLong | repeat 65536 {\nflush\n}\nframe
8: UnknownName | repeat 65536 {\nflush\n}\nframe\nprint x
7: TooLong | reference r\nrepeat 1025 {\nflush\nwhen r == 0 {\n}\n}

# Syntax, which comes before every other fault
4: Syntax | array a
5: Syntax | print x\narray
5: Syntax | print x\narray\n
4: Syntax | repeat 2 { flush\n}
5: Syntax | repeat 2 {\nflush }
6: Syntax | repeat 2 {\nflush\n
5: Syntax | repeat 1 {\njob x() { }\n}
4: Syntax | }
4: Syntax | flush flush
4: Syntax | array a 1 =
4: Syntax | array a 1 = - - 1
4: Syntax | array a 1 = 1 temp
4: Syntax | column c p
4: Syntax | combine
5: Syntax | array a 1\ndispose a as d
5: Syntax | array a 1\ndispose a after as d
4: Syntax | schedule h fill(1,)
4: Syntax | schedule h fill(1) 1
5: Syntax | reference r\nwhen r = 1 {\n}
4: Syntax | print if
4: Syntax | print x $
5: Syntax | flush\n$
6: Syntax | print x\n\n$ }\n$
4: Syntax | array\nflush $
4: Syntax | job bad() {
4: Syntax | job bad() { } flush
";

const LONG_LIMITS: &str = "
12: flush; | repeat 1 {\\nrepeat 1 {\\nrepeat 1 {\\nrepeat 1 {\\nrepeat 1 {\\nrepeat 1 {\\nrepeat 1 {\\n\
    repeat 1 {\\nflush\\n}\\n}\\n}\\n}\\n}\\n}\\n}\\n}
12: Limit | repeat 1 {\\nrepeat 1 {\\nrepeat 1 {\\nrepeat 1 {\\nrepeat 1 {\\nrepeat 1 {\\nrepeat 1 {\\n\
    repeat 1 {\\nrepeat 1 {\\n}\\n}\\n}\\n}\\n}\\n}\\n}\\n}\\n}
13: Limit | reference r\\nrepeat 1 {\\nrepeat 1 {\\nrepeat 1 {\\nrepeat 1 {\\nrepeat 1 {\\nrepeat 1 {\\n\
    repeat 1 {\\nrepeat 1 {\\nwhen r == 0 {\\n}\\n}\\n}\\n}\\n}\\n}\\n}\\n}\\n}
| repeat 65536 {\\nrepeat 65536 {\\nrepeat 65536 {\\nrepeat 65536 {\\nrepeat 65536 {\\nrepeat 65536 {\\n\
    repeat 65536 {\\nrepeat 65536 {\\n}\\n}\\n}\\n}\\n}\\n}\\n}\\n}
12: TooLong | repeat 65536 {\\nrepeat 65536 {\\nrepeat 65536 {\\nrepeat 65536 {\\nrepeat 65536 {\\n\
    repeat 65536 {\\nrepeat 65536 {\\nrepeat 65536 {\\nflush\\n}\\n}\\n}\\n}\\n}\\n}\\n}\\n}
";

#[test]
fn faults(rt: HostRuntime) -> Result<(), Fail> {
    try_rows(rt.alloc(), FAULTS)?;
    try_rows(rt.alloc(), LONG_LIMITS)
}

/// A text with a part so many times: the row's number, the text before the parts, the part and the text after them.
pub fn repeated(alloc: Global, row: &str) -> Result<Vec<u8>, Fail> {
    let (count, texts) = halves(row).ok_or("a number")?;
    let (head, parts) = halves(texts).ok_or("a head")?;
    let (part, tail) = halves(parts).ok_or("a part")?;
    let part = unescaped(alloc, part)?;
    let mut text = unescaped(alloc, head)?;
    for _ in 0..count.parse::<u32>().ok().ok_or("a number")? {
        text.extend_from_slice(&part)?;
    }
    text.extend_from_slice(&unescaped(alloc, tail)?)?;
    Ok(text)
}

const LENGTHS: &str = r#"
1: Limit | 65 | list\x20 | a | \x201
1: UnknownName | 65 | print\x20 | a |
c 1: column 0 256 Persistent; | 256 | column c " | a | "
1: Limit | 257 | column c " | a | "
65537: TooLong | 65537 |  | flush\n |
2: DuplicateName | 2 |  | job k() { }\n |
4: flush; | 3 | \xEF\xBB\xBF | \n | flush
1: Syntax | 1 |  | \xFF |
"#;

const LONG_LENGTHS: &str = "
3: Limit | 0 | parallel k( |  | a: ro array, b: ro array, c: ro array, d: ro array, e: ro array, f: ro array, \
    g: ro array, h: ro array, i: ro array, j: ro array, k: ro array, l: ro array, m: ro array, n: ro array, \
    o: ro array, p: ro array) { }\\nlist z 1\\nschedule q k(z, z, z, z, z, z, z, z, z, z, z, z, z, z, z, z) \
    defer z 1
";

fn try_lengths(alloc: Global, rows: &str) -> Result<(), Fail> {
    for line in table(rows)?.lines() {
        if let Some((wanted, parts)) = row(line)? {
            let told = outcome(alloc, &repeated(alloc, parts)?)?;
            same(line, told.as_str().trim_end(), wanted)?;
        }
    }
    Ok(())
}

#[test]
fn limits_of_length_are_met_at_one_more(rt: HostRuntime) -> Result<(), Fail> {
    try_lengths(rt.alloc(), LENGTHS)?;
    try_lengths(rt.alloc(), LONG_LENGTHS)
}

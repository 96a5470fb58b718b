// Kernels and what they have to do, in rows: values that were worked out by hand, in the words where containers keep
// them.

use crate::rows::{CELLS, Row, array, list, map, run_text, show, single, stream, try_rows, view};
use job_base::FlatMem;
use std::alloc::Global;
use std::process::Abort;
use std::test::Fail;

// The places that an index owns.
#[test]
fn own_places(rt: HostRuntime) -> Result<(), Fail> {
    let shift = "job one(b: wo array) { b[0] = 1; }
        parallel shift(b: rw array) { b[index + 1] = b[index] + 1; }";
    let scale = "job count_up(x: wo array) { for k in 0..5 { x[k] = k + 1; } }
        parallel scale(x: ro array, y: wo array) { y[index] = x[index] * 3; }";
    let pairs =
        "parallel pairs(a: rw array by 2) { a[index * 2] = index; a[index * 2 + 1] = index + 10; }";
    let over = "parallel over(a: wo array by 2) { a[index * 2] = 7; a[index * 2 + 2] = 8; }";
    let emit =
        "parallel emit(s: wo stream) { begin s[index] { for k in 0..index % 4 { write(s, index); } } }";
    let others = "parallel own(s: wo stream) { begin s[index] { } }
        parallel others(s: wo stream) { begin s[1 - index] { } }";
    let outside = "parallel outside(a: wo array, s: wo stream) { a[index] = 1; begin s[4] { } }";
    let rows: [Row<'_>; 8] = [
        (
            shift,
            &[array(0, 4, 1)],
            3,
            0,
            4,
            "0 OwnIndex; 1 OwnIndex; 2 OwnIndex; 1 0 0 0 ",
        ),
        (shift, &[array(0, 4, 0)], 3, 0, 4, "1 2 3 4 "),
        (
            scale,
            &[array(0, 5, 0), array(5, 4, 1)],
            5,
            5,
            9,
            "4 Range; 3 6 9 12 ",
        ),
        (pairs, &[array(0, 6, 2)], 3, 0, 6, "0 10 1 11 2 12 "),
        (
            over,
            &[array(0, 6, 2)],
            3,
            0,
            6,
            "0 OwnIndex; 1 OwnIndex; 2 Range; 7 0 7 0 7 0 ",
        ),
        (
            emit,
            &[stream(0, 4, 2, true)],
            4,
            0,
            12,
            "3 Full; 1 0 0 2 1 0 3 2 2 3 3 3 ",
        ),
        (
            others,
            &[stream(0, 2, 0, true)],
            2,
            0,
            2,
            "0 OwnIndex; 1 OwnIndex; 1 1 ",
        ),
        (
            outside,
            &[array(0, 2, 1), stream(2, 4, 0, true)],
            1,
            0,
            6,
            "0 Range; 1 0 0 0 0 0 ",
        ),
    ];
    try_rows(&rt, rt.alloc(), &rows)
}

// Each trap, after a store that stays and before one that isn't done.
#[test]
fn traps(rt: HostRuntime) -> Result<(), Fail> {
    let overflow =
        "job edge(a: rw array) { a[0] = 9223372036854775807; a[1] = -9223372036854775807 - 1; a[2] = 0; }
        job edge_of(a: rw array) { a[1] = 5; a[0] = a[0] + 1; a[2] = 9; }";
    let divisor = "job divisor(a: wo array) { a[0] = 1; a[1] = 1 % 0; }";
    let slow = "job slow(a: rw array) { var k = 0; while k < 300000 { k = k + 1; } a[0] = 1 / 0; }";
    let quick = "job quick(a: rw array) { a[9] = 1; }";
    let range = "job range(a: wo array) { a[0] = 1; a[-1] = 1; a[1] = 1; }";
    let own = "parallel own(a: wo array) { a[index] = 1; a[1 - index] = 2; a[index] = 3; }";
    let full = "job full(a: wo array, l: rw list) { add(l, 7); a[0] = 1; add(l, 8); a[1] = 1; }";
    let missing = "job missing(a: wo array, m: rw map) { a[0] = 1; a[1] = m[5]; }";
    let present =
        "job present(a: wo array, m: rw map) { add(m, 1, 2); a[0] = 1; add(m, 1, 3); a[1] = 1; }";
    let written =
        "job written(a: wo array, s: wo stream) { begin s[0] { write(s, 4); } a[0] = 1; begin s[0] { } a[1] = 1; }";
    let twice =
        "job twice(s: wo stream) { begin s[0] { write(s, 5); } begin s[2] { } begin s[0] { } }";
    let budget = "job budget(a: wo array) { a[0] = 1; while 1 { } a[1] = 1; }";
    let rows: [Row<'_>; 12] = [
        (
            overflow,
            &[array(0, 3, 0)],
            0,
            0,
            3,
            "Overflow; 9223372036854775807 5 0 ",
        ),
        (divisor, &[array(0, 2, 0)], 0, 0, 2, "ZeroDivisor; 1 0 "),
        (slow, &[array(0, 1, 0)], 0, 0, 1, "ZeroDivisor; 0 "),
        (quick, &[array(0, 1, 0)], 0, 0, 1, "Range; 0 "),
        (range, &[array(0, 2, 0)], 0, 0, 2, "Range; 1 0 "),
        (own, &[array(0, 2, 1)], 1, 0, 2, "0 OwnIndex; 1 0 "),
        (
            full,
            &[array(0, 2, 0), list(2, 1)],
            0,
            0,
            4,
            "Full; 1 0 1 7 ",
        ),
        (
            missing,
            &[array(0, 2, 0), map(2, 1)],
            0,
            0,
            2,
            "MissingKey; 1 0 ",
        ),
        (
            present,
            &[array(0, 2, 0), map(2, 1)],
            0,
            0,
            2,
            "PresentKey; 1 0 ",
        ),
        (
            written,
            &[array(0, 2, 0), stream(2, 1, 1, false)],
            0,
            0,
            4,
            "Written; 1 0 2 4 ",
        ),
        (
            twice,
            &[stream(0, 3, 1, false)],
            0,
            0,
            6,
            "Written; 2 5 0 0 1 0 ",
        ),
        (budget, &[array(0, 2, 0)], 0, 0, 2, "Budget; 1 0 "),
    ];
    try_rows(&rt, rt.alloc(), &rows)
}

// Two parts that would trap: the left one is told, a place before its value, and a value before the store.
#[test]
fn first_trap(rt: HostRuntime) -> Result<(), Fail> {
    let divisor = "job divisor(a: rw array) { a[0] = 1; a[1] = 1 / 0 + a[9]; a[0] = 9; }";
    let range = "job range(a: rw array) { a[0] = 1; a[1] = a[9] + 1 / 0; a[0] = 9; }";
    let deep = "job deep(a: rw array) { a[0] = 1; a[1] = (a[0] + a[9]) * (1 % 0); a[0] = 9; }";
    let place = "job place(a: rw array) { a[0] = 1; a[1 / 0] = a[9]; a[0] = 9; }";
    let value = "job value(a: rw array) { a[0] = 1; a[9] = 1 / 0; a[0] = 9; }";
    let bounds = "job bounds(a: rw array) { a[0] = 1; for k in a[9]..1 / 0 { } a[0] = 9; }";
    let key = "job key(a: rw array, m: rw map) { a[0] = 1; add(m, a[9], 1 / 0); a[0] = 9; }";
    let both = "job both(a: rw array) { a[0] = 1; a[1] = a[9] && 1 / 0; a[0] = 9; }";
    let neither = "job neither(a: rw array) { a[0] = 1; a[1] = 0 && 1 / 0; a[1] = 2 || 1 / 0; }";
    let two = [array(0, 2, 0), map(2, 1)];
    let rows: [Row<'_>; 9] = [
        (divisor, &two, 0, 0, 2, "ZeroDivisor; 1 0 "),
        (range, &two, 0, 0, 2, "Range; 1 0 "),
        (deep, &two, 0, 0, 2, "Range; 1 0 "),
        (place, &two, 0, 0, 2, "ZeroDivisor; 1 0 "),
        (value, &two, 0, 0, 2, "ZeroDivisor; 1 0 "),
        (bounds, &two, 0, 0, 2, "Range; 1 0 "),
        (key, &two, 0, 0, 2, "Range; 1 0 "),
        (both, &two, 0, 0, 2, "Range; 1 0 "),
        (neither, &two, 0, 0, 2, "1 1 "),
    ];
    try_rows(&rt, rt.alloc(), &rows)
}

// The ends of 64 bits, and quotients and remainders of either sign, each also by a divisor that came before.
#[test]
fn ends(rt: HostRuntime) -> Result<(), Fail> {
    let quotients =
        "job quotients(a: wo array) { var l = -9223372036854775807 - 1; var m = 9223372036854775807;
        a[0] = l / m; a[1] = l % m; a[2] = m / 3; a[3] = m / 3; a[4] = m % 10; a[5] = m % 10; a[6] = -7 / 2;
        a[7] = -7 % 2; a[8] = 7 / -2; a[9] = 7 % -2; a[10] = m / m; a[11] = l / l; }";
    let compared =
        "job compared(a: wo array) { var l = -9223372036854775807 - 1; var m = 9223372036854775807;
        a[0] = l == l; a[1] = l != m; a[2] = l < m; a[3] = m <= l; a[4] = m > l; a[5] = l >= m; a[6] = m + l;
        a[7] = -1 - l; a[8] = 4294967296 * -2147483648; a[9] = m % 1000003; a[10] = m % m; a[11] = 7 % -2; }";
    let same =
        "job same(a: wo array) { for k in 0..3 { a[k] = 100 / 7 * 1000 + 100 % 7 * 100 + (99 - k) % 23; } }";
    let less = "job less(a: rw array) { a[0] = 1; a[1] = -9223372036854775807 - 2; a[0] = 9; }";
    let more = "job more(a: rw array) { a[0] = 1; a[1] = 9223372036854775807 + 1; a[0] = 9; }";
    let square = "job square(a: rw array) { a[0] = 1; a[1] = 3037000500 * 3037000500; a[0] = 9; }";
    let product =
        "job product(a: rw array) { a[0] = 1; a[1] = 4294967296 * 2147483648; a[0] = 9; }";
    let minus =
        "job minus(a: rw array) { a[0] = 1; a[1] = -(-9223372036854775807 - 1); a[0] = 9; }";
    let quotient =
        "job quotient(a: rw array) { a[0] = 1; a[1] = (-9223372036854775807 - 1) / -1; a[0] = 9; }";
    let rest =
        "job rest(a: rw array) { a[0] = 1; a[1] = (-9223372036854775807 - 1) % -1; a[0] = 9; }";
    let least =
        "job least(a: rw array) { a[0] = 1; a[1] = (-9223372036854775807 - 1) / 0; a[0] = 9; }";
    let rows: [Row<'_>; 11] = [
        (
            compared,
            &[array(0, 12, 0)],
            0,
            0,
            12,
            "1 1 1 0 1 0 -1 9223372036854775807 -9223372036854775808 675344 0 1 ",
        ),
        (
            quotients,
            &[array(0, 12, 0)],
            0,
            0,
            12,
            "-1 -1 3074457345618258602 3074457345618258602 7 7 -3 -1 -3 1 1 1 ",
        ),
        (same, &[array(0, 3, 0)], 0, 0, 3, "14207 14206 14205 "),
        (less, &[array(0, 2, 0)], 0, 0, 2, "Overflow; 1 0 "),
        (more, &[array(0, 2, 0)], 0, 0, 2, "Overflow; 1 0 "),
        (square, &[array(0, 2, 0)], 0, 0, 2, "Overflow; 1 0 "),
        (product, &[array(0, 2, 0)], 0, 0, 2, "Overflow; 1 0 "),
        (minus, &[array(0, 2, 0)], 0, 0, 2, "Overflow; 1 0 "),
        (quotient, &[array(0, 2, 0)], 0, 0, 2, "Overflow; 1 0 "),
        (rest, &[array(0, 2, 0)], 0, 0, 2, "Overflow; 1 0 "),
        (least, &[array(0, 2, 0)], 0, 0, 2, "ZeroDivisor; 1 0 "),
    ];
    try_rows(&rt, rt.alloc(), &rows)
}

// The traps of every other form on a container.
#[test]
fn traps_of_forms(rt: HostRuntime) -> Result<(), Fail> {
    let read =
        "parallel reading(a: rw array) { a[index] = 1; a[index] = a[1 - index]; a[index] = 9; }";
    let remove =
        "job removing(a: wo array, l: rw list) { add(l, 5); a[0] = 1; remove(l, 1); a[0] = 9; }";
    let element = "job element_of(a: wo array, l: rw list) { a[0] = 1; a[1] = l[0]; a[0] = 9; }";
    let set = "job setting(a: wo array, l: rw list) { a[0] = 1; l[0] = 2; a[0] = 9; }";
    let try_add =
        "job tried(a: wo array, m: rw map) { var y = 0; y = try_add(m, 1, 2); a[0] = y; y = try_add(m, 2, 3); a[0] = \
         9; }";
    let put = "job putting(a: wo array, m: rw map) { m[1] = 2; a[0] = 1; m[2] = 3; a[0] = 9; }";
    let begin = "job begin_at(a: wo array, s: wo stream) { a[0] = 1; begin s[1] { a[0] = 9; } }";
    let count =
        "job count_at(a: wo array, s: ro stream) { a[0] = 1; a[1] = count(s, 1); a[0] = 9; }";
    let item = "job item_at(a: wo array, s: ro stream) { a[0] = 1; a[1] = at(s, 0, 0); a[0] = 9; }";
    let test = "job test_of(a: wo array) { a[0] = 1; if 1 / 0 { a[0] = 9; } a[0] = 9; }";
    let turn =
        "job turning(a: wo array) { for k in 0..3 { a[0] = k; a[1] = 1 / (1 - k); } a[0] = 9; }";
    let endless = "job endless(a: wo array) { a[0] = 1; while 1 { while 0 { } } a[0] = 9; }";
    let rows: [Row<'_>; 12] = [
        (read, &[array(0, 2, 1)], 1, 0, 2, "0 OwnIndex; 1 0 "),
        (
            remove,
            &[array(0, 2, 0), list(2, 1)],
            0,
            0,
            4,
            "Range; 1 0 1 5 ",
        ),
        (
            element,
            &[array(0, 2, 0), list(2, 1)],
            0,
            0,
            2,
            "Range; 1 0 ",
        ),
        (set, &[array(0, 2, 0), list(2, 1)], 0, 0, 2, "Range; 1 0 "),
        (try_add, &[array(0, 2, 0), map(2, 1)], 0, 0, 2, "Full; 1 0 "),
        (put, &[array(0, 2, 0), map(2, 1)], 0, 0, 2, "Full; 1 0 "),
        (
            begin,
            &[array(0, 2, 0), stream(2, 1, 1, false)],
            0,
            0,
            2,
            "Range; 1 0 ",
        ),
        (
            count,
            &[array(0, 2, 0), stream(2, 1, 1, false)],
            0,
            0,
            2,
            "Range; 1 0 ",
        ),
        (
            item,
            &[array(0, 2, 0), stream(2, 1, 1, false)],
            0,
            0,
            2,
            "Range; 1 0 ",
        ),
        (test, &[array(0, 2, 0)], 0, 0, 2, "ZeroDivisor; 1 0 "),
        (turn, &[array(0, 2, 0)], 0, 0, 2, "ZeroDivisor; 1 1 "),
        (endless, &[array(0, 2, 0)], 0, 0, 2, "Budget; 1 0 "),
    ];
    try_rows(&rt, rt.alloc(), &rows)
}

// A step before each statement and before each test of a loop, the last one included: 1,000,000 in all.
#[test]
fn steps(rt: HostRuntime) -> Result<(), Fail> {
    let exact = "job steps(r: wo ref) { for k in 0..999997 { } r = 1; }";
    let store = "job steps(r: wo ref) { for k in 0..999998 { } r = 1; }";
    let test = "job steps(r: wo ref) { for k in 0..999999 { } r = 1; }";
    let turns = "job steps(r: wo ref) { var k = 0; while k < 499998 { k = k + 1; } r = 1; }";
    let more =
        "job steps(r: wo ref) { var k = 0; var j = 0; while k < 499998 { k = k + 1; } r = 1; }";
    let rows: [Row<'_>; 5] = [
        (exact, &[single(0)], 0, 0, 1, "1 "),
        (store, &[single(0)], 0, 0, 1, "Budget; 0 "),
        (test, &[single(0)], 0, 0, 1, "Budget; 0 "),
        (turns, &[single(0)], 0, 0, 1, "1 "),
        (more, &[single(0)], 0, 0, 1, "Budget; 0 "),
    ];
    try_rows(&rt, rt.alloc(), &rows)
}

// Forms on lists, maps and streams.
#[test]
fn containers(rt: HostRuntime) -> Result<(), Fail> {
    let keys = "job fill(m: rw map, t: wo ref) { t = 7; add(m, 1, 5); add(m, 2, 6); }
        job keys(m: rw map, t: wo ref) { var r = 0; r = try_add(m, 1, 9); t = r; add(m, 3, 3); }
        job tell(m: ro map, t: ro ref, o: wo array) { o[0] = len(m); o[1] = m[1]; o[2] = m[2]; o[3] = has(m, 3); }";
    let removal =
        "job removal(m: rw map, t: wo ref, o: wo array) { var y = 9; add(m, 1, 5); y = remove(m, 1); o[0] = y;
            y = remove(m, 1); o[1] = y; o[2] = len(m); y = try_add(m, 4, 8); o[3] = y; clear(m); t = has(m, 4);
            m[4] = 1; m[4] = 2; t = m[4]; t = m[3]; }";
    let items =
        "job items(l: rw list, o: wo array) { add(l, 5); add(l, 6); add(l, 7); remove(l, 0); o[0] = len(l);
            o[1] = l[0]; o[2] = l[1]; o[3] = l[2]; }";
    let cleared =
        "job cleared(l: rw list, o: wo array) { add(l, 5); l[0] = 6; o[0] = l[0]; clear(l); o[1] = len(l) + 1;
            remove(l, 0); }";
    let entries = "job entries(s: wo stream) { begin s[1] { write(s, 8); write(s, 9); } }
        job tell(s: ro stream, o: wo array) { o[0] = count(s, 0) + 1; o[1] = count(s, 1);
            o[2] = at(s, 1, 1); o[3] = at(s, 1, 2); }";
    let indexes = "job tell(s: ro stream, o: wo array) { o[0] = len(s); o[1] = count(s, 2); }";
    let rows: [Row<'_>; 6] = [
        (
            keys,
            &[map(0, 2), single(13), array(14, 4, 0)],
            0,
            13,
            18,
            "Full; 0 2 5 6 0 ",
        ),
        (
            removal,
            &[map(0, 2), single(13), array(14, 4, 0)],
            0,
            13,
            18,
            "MissingKey; 2 1 0 0 1 ",
        ),
        (
            items,
            &[list(0, 4), array(5, 4, 0)],
            0,
            5,
            9,
            "Range; 2 7 6 0 ",
        ),
        (
            cleared,
            &[list(0, 4), array(5, 4, 0)],
            0,
            5,
            9,
            "Range; 6 1 0 0 ",
        ),
        (
            entries,
            &[stream(0, 2, 2, false), array(6, 4, 0)],
            0,
            6,
            10,
            "Range; 1 2 9 0 ",
        ),
        (
            indexes,
            &[stream(0, 2, 2, false), array(6, 4, 0)],
            0,
            6,
            10,
            "Range; 2 0 0 0 ",
        ),
    ];
    try_rows(&rt, rt.alloc(), &rows)
}

// What a kernel does through views of a list that has two elements.
fn told_through_view(alloc: Global) -> Result<String, Fail> {
    let mut told = String::new(alloc);
    let mut mem = FlatMem::new(alloc, CELLS)?;
    let fill = "job fill(l: rw list) { add(l, 5); add(l, 6); }";
    run_text(alloc, fill, &[list(0, 4)], 0, &mut mem, &mut told)?;
    let double =
        "parallel double(v: rw array, o: wo array) { v[index] = v[index] * 2; o[index] = len(v); }";
    let binds = [view(0, 4, 1), array(5, 4, 1)];
    run_text(alloc, double, &binds, 3, &mut mem, &mut told)?;
    show(&mut mem, 0, 9, &mut told)?;
    Ok(told)
}

#[test]
fn views(rt: HostRuntime) -> Result<(), Fail> {
    let told = told_through_view(rt.alloc())?;
    assert_eq!(&rt; told.as_str(), "2 Range; 2 10 12 0 0 2 2 0 0 ");
    Ok(())
}

// Bounds of arrays and slices, and a reference, over flat memory.
ghost use Rattle.std.specs.Prelude.{◌≡◌, ◌^◌, ◌<◌, ◌≤◌};
ghost use Rattle.job_base.specs.Forms.{AreAllowed};
ghost use Rattle.native_array.specs.Layout.{end_of};

use crate::calls::{number, place, told};
use job_base::{FlatMem, Mem, Word};
use native_array::{ArrayAt, RefAt};
use row_texts::{row, same, table};
use std::alloc::Global;
use std::fmt::Write;
use std::test::Fail;

// The words 0 to 5, one after another.
fn tell_words<M: Mem>(mem: &mut M, told: &mut String) -> Result<(), Fail>
    requires readable { AreAllowed 0 6 (M.readable mem.old) }
    ensures readable { M.readable mem.new ≡ M.readable mem.old }
    ensures writable { M.writable mem.new ≡ M.writable mem.old }
{
    told.push_str(":")?;
    for w in 0..6 {
        let word = mem.load(Word(w));
        write!(told, " {word}")?;
    }
    Ok(())
}

// Makes a call on an array or on the reference in word 1, and says what it answers.
fn perform<M: Mem>(alloc: Global, mem: &mut M, at: ArrayAt, call: &str) -> Result<String, Fail>
    requires within { end_of at ≤ 6 }
    requires readable { AreAllowed 0 6 (M.readable mem.old) }
    requires writable { AreAllowed 0 6 (M.writable mem.old) }
    ensures readable { M.readable mem.new ≡ M.readable mem.old }
    ensures writable { M.writable mem.new ≡ M.writable mem.old }
{
    let words: Vec<&str> = call.split_whitespace().collect(alloc)?;
    let reference = RefAt { start: 1 };
    match *words {
        ["get", i] => told(alloc, at.get(mem, number(i)?)),
        ["set", i, v] => told(alloc, at.set(mem, number(i)?, number(v)?)),
        ["value"] => told(alloc, reference.value(mem)),
        ["set_value", v] => told(alloc, reference.set_value(mem, number(v)?)),
        _ => Err(Fail::new("no such call")),
    }
}

fn compare<M: Mem>(alloc: Global, mem: &mut M, at: ArrayAt, rows: &str) -> Result<(), Fail>
    requires within { end_of at ≤ 6 }
    requires readable { AreAllowed 0 6 (M.readable mem.old) }
    requires writable { AreAllowed 0 6 (M.writable mem.old) }
    ensures readable { M.readable mem.new ≡ M.readable mem.old }
    ensures writable { M.writable mem.new ≡ M.writable mem.old }
{
    for line in table(rows)?.lines() {
        if let Some((call, wanted)) = row(line)? {
            let mut told = perform(alloc, mem, at, call)?;
            tell_words(mem, &mut told)?;
            same(line, &told, wanted)?;
        }
    }
    Ok(())
}

const ALL: &str = "
value | 0: 0 0 0 0 0 0
set_value -7 | (): 0 -7 0 0 0 0
value | -7: 0 -7 0 0 0 0
set 0 10 | Ok(()): 10 -7 0 0 0 0
set 1 11 | Ok(()): 10 11 0 0 0 0
set 2 12 | Ok(()): 10 11 12 0 0 0
set 3 13 | Ok(()): 10 11 12 13 0 0
set 4 14 | Ok(()): 10 11 12 13 14 0
set 5 15 | Ok(()): 10 11 12 13 14 15
";

const PLACES_OF_THREE: &str = "
get 0 | Ok(12): 10 11 12 13 14 15
set 0 77 | Ok(()): 10 11 77 13 14 15
set 0 12 | Ok(()): 10 11 12 13 14 15
get 2 | Ok(14): 10 11 12 13 14 15
set 2 77 | Ok(()): 10 11 12 13 77 15
set 2 14 | Ok(()): 10 11 12 13 14 15
get -1 | Err(Range): 10 11 12 13 14 15
set -1 77 | Err(Range): 10 11 12 13 14 15
get 3 | Err(Range): 10 11 12 13 14 15
set 3 77 | Err(Range): 10 11 12 13 14 15
get 4294967296 | Err(Range): 10 11 12 13 14 15
set 4294967296 77 | Err(Range): 10 11 12 13 14 15
get -9223372036854775808 | Err(Range): 10 11 12 13 14 15
set -9223372036854775808 77 | Err(Range): 10 11 12 13 14 15
get 9223372036854775807 | Err(Range): 10 11 12 13 14 15
set 9223372036854775807 77 | Err(Range): 10 11 12 13 14 15
";

const PLACES_OF_NONE: &str = "
get 0 | Err(Range): 10 11 12 13 14 15
set 0 77 | Err(Range): 10 11 12 13 14 15
";

fn places<M: Mem>(alloc: Global, mem: &mut M) -> Result<(), Fail>
    requires readable { AreAllowed 0 6 (M.readable mem.old) }
    requires writable { AreAllowed 0 6 (M.writable mem.old) }
{
    compare(alloc, mem, ArrayAt { start: 0, len: 6 }, ALL)?;
    compare(alloc, mem, ArrayAt { start: 2, len: 3 }, PLACES_OF_THREE)?;
    compare(alloc, mem, ArrayAt { start: 6, len: 0 }, PLACES_OF_NONE)
}

// Rows of a place and a length, and the part of an array that so many elements from there on are.
fn compare_slices(alloc: Global, at: ArrayAt, rows: &str) -> Result<(), Fail>
    requires { end_of at < 2 ^ 32 }
{
    for line in table(rows)?.lines() {
        if let Some((of, wanted)) = row(line)? {
            let (start, len) = of.split_once(' ').ok_or("no length")?;
            let part = at.slice(place(start)?, place(len)?);
            same(line, &told(alloc, part)?, wanted)?;
        }
    }
    Ok(())
}

const SLICES_OF_THREE: &str = "
0 3 | Some(ArrayAt { start: 2, len: 3 })
1 2 | Some(ArrayAt { start: 3, len: 2 })
3 0 | Some(ArrayAt { start: 5, len: 0 })
1 3 | None
4 0 | None
1 4294967295 | None
4294967295 1 | None
";

const SLICES_OF_A_PART: &str = "
1 1 | Some(ArrayAt { start: 4, len: 1 })
1 2 | None
";

const SLICES_OF_ALL: &str = "
4294967293 1 | Some(ArrayAt { start: 4294967294, len: 1 })
4294967294 0 | Some(ArrayAt { start: 4294967295, len: 0 })
4294967293 2 | None
";

#[test]
fn arrays(rt: HostRuntime) -> Result<(), Fail> {
    let alloc = rt.alloc();
    let mut mem = FlatMem::new(alloc, 6)?;
    places(alloc, &mut mem)?;
    compare_slices(alloc, ArrayAt { start: 2, len: 3 }, SLICES_OF_THREE)?;
    compare_slices(alloc, ArrayAt { start: 3, len: 2 }, SLICES_OF_A_PART)?;
    let all = ArrayAt {
        start: 1,
        len: u32::MAX - 1,
    };
    compare_slices(alloc, all, SLICES_OF_ALL)
}

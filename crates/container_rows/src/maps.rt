// Calls on maps over flat memory, one after another, each with what it answers.
ghost use Rattle.std.specs.Prelude.{◌≡◌, ◌^◌, ◌<◌, ◌≤◌};
ghost use Rattle.job_base.specs.Forms.{AreAllowed};
ghost use Rattle.native_map.specs.Table.{end_of};

use crate::calls::{number, place, told};
use job_base::{FlatMem, Mem};
use native_map::{MapAt, words_of};
use row_texts::{row, same, table};
use std::alloc::Global;
use std::test::Fail;

fn key(i: i64) -> i64 {
    i.wrapping_mul(1000003)
}

// Adds 4,096 keys, each with its number.
fn fill<M: Mem>(mem: &mut M, map: MapAt) -> bool
    requires fits { end_of map < 2 ^ 32 }
    requires readable { AreAllowed map.start (end_of map) (M.readable mem.old) }
    requires writable { AreAllowed map.start (end_of map) (M.writable mem.old) }
    ensures readable { M.readable mem.new ≡ M.readable mem.old }
    ensures writable { M.writable mem.new ≡ M.writable mem.old }
{
    for i in 0..4096i64 {
        if map.try_add(mem, key(i), i) != Ok(true) {
            return false;
        }
    }
    true
}

// Removes them in another order than that in which they were added.
fn empty<M: Mem>(mem: &mut M, map: MapAt) -> bool
    requires fits { end_of map < 2 ^ 32 }
    requires readable { AreAllowed map.start (end_of map) (M.readable mem.old) }
    requires writable { AreAllowed map.start (end_of map) (M.writable mem.old) }
    ensures readable { M.readable mem.new ≡ M.readable mem.old }
    ensures writable { M.writable mem.new ≡ M.writable mem.old }
{
    for i in 0..4096i64 {
        let j = i.wrapping_mul(1237) & 4095;
        let found = map.get(mem, key(j));
        let removed = map.remove(mem, key(j));
        let stays = map.has(mem, key(j));
        if found != Ok(j) || !removed || stays {
            return false;
        }
    }
    true
}

// Makes a call, and says what it answers.
fn perform<M: Mem>(alloc: Global, mem: &mut M, map: MapAt, call: &str) -> Result<String, Fail>
    requires fits { end_of map < 2 ^ 32 }
    requires readable { AreAllowed map.start (end_of map) (M.readable mem.old) }
    requires writable { AreAllowed map.start (end_of map) (M.writable mem.old) }
    ensures readable { M.readable mem.new ≡ M.readable mem.old }
    ensures writable { M.writable mem.new ≡ M.writable mem.old }
{
    let words: Vec<&str> = call.split_whitespace().collect(alloc)?;
    match *words {
        ["put", k, v] => told(alloc, map.put(mem, number(k)?, number(v)?)),
        ["add", k, v] => told(alloc, map.add(mem, number(k)?, number(v)?)),
        ["try_add", k, v] => told(alloc, map.try_add(mem, number(k)?, number(v)?)),
        ["get", k] => told(alloc, map.get(mem, number(k)?)),
        ["has", k] => told(alloc, map.has(mem, number(k)?)),
        ["remove", k] => told(alloc, map.remove(mem, number(k)?)),
        ["clear"] => told(alloc, map.clear(mem)),
        ["count"] => told(alloc, map.count(mem)),
        ["first"] => told(alloc, map.next_after(mem, None)),
        ["next", k] => told(alloc, map.next_after(mem, Some(number(k)?))),
        ["words", cap] => told(alloc, words_of(place(cap)?)),
        ["fill"] => told(alloc, fill(mem, map)),
        ["empty"] => told(alloc, empty(mem, map)),
        _ => Err(Fail::new("no such call")),
    }
}

fn compare<M: Mem>(alloc: Global, mem: &mut M, map: MapAt, rows: &str) -> Result<(), Fail>
    requires fits { end_of map < 2 ^ 32 }
    requires readable { AreAllowed map.start (end_of map) (M.readable mem.old) }
    requires writable { AreAllowed map.start (end_of map) (M.writable mem.old) }
{
    for line in table(rows)?.lines() {
        if let Some((call, wanted)) = row(line)? {
            let told = perform(alloc, mem, map, call)?;
            same(line, &told, wanted)?;
        }
    }
    Ok(())
}

// Calls on an empty map, which has three cells before it and one behind it that aren't its own.
fn compare_new(alloc: Global, cap: u32, rows: &str) -> Result<(), Fail>
    requires { cap ≤ 4096 }
{
    let mut mem = FlatMem::new(alloc, 4 + words_of(cap) as u32)?;
    compare(alloc, &mut mem, MapAt::new(3, cap), rows)
}

const LEAST_AND_GREATEST_KEYS: &str = "
count | 0
get 0 | Err(MissingKey)
first | None
put 0 10 | Ok(())
add -1 11 | Ok(())
try_add -9223372036854775808 12 | Ok(true)
put 9223372036854775807 13 | Ok(())
count | 4
put 5 1 | Err(Full)
add 5 1 | Err(Full)
try_add 5 1 | Err(Full)
add 0 1 | Err(PresentKey)
try_add -1 1 | Ok(false)
put 0 20 | Ok(())
count | 4
get 0 | Ok(20)
get -1 | Ok(11)
first | Some((-9223372036854775808, 12))
next -9223372036854775808 | Some((-1, 11))
next -1 | Some((0, 20))
next 0 | Some((9223372036854775807, 13))
next 9223372036854775807 | None
remove 5 | false
remove -1 | true
has -1 | false
has -9223372036854775808 | true
count | 3
clear | ()
count | 0
has 0 | false
first | None
";

// The map has 8 places. By the hash, worked out apart from the program, the home place of 9, 19 and 33 is 7, that of 0
// is 0 and that of 10 is 1. So each cluster here wraps round the end; 10 stands at its home place, and stays there.
const CLUSTERS: &str = "
put 9 1 | Ok(())
put 19 2 | Ok(())
put 33 3 | Ok(())
put 0 4 | Ok(())
remove 9 | true
get 19 | Ok(2)
get 33 | Ok(3)
get 0 | Ok(4)
remove 33 | true
get 19 | Ok(2)
get 0 | Ok(4)
has 33 | false
clear | ()
put 9 1 | Ok(())
put 19 2 | Ok(())
put 10 3 | Ok(())
put 33 4 | Ok(())
remove 9 | true
get 19 | Ok(2)
get 10 | Ok(3)
get 33 | Ok(4)
count | 3
next 10 | Some((19, 2))
";

// A map of T places has 1 + 3 T words, T being 2, 2, 8, 8 and 8,192.
const NO_ROOM: &str = "
put 0 1 | Err(Full)
add 0 1 | Err(Full)
try_add 0 1 | Err(Full)
get 0 | Err(MissingKey)
remove 0 | false
clear | ()
count | 0
first | None
words 0 | 7
words 1 | 7
words 3 | 25
words 4 | 25
words 4096 | 24577
";

// As many keys as the language lets a map have.
const MANY_KEYS: &str = "
fill | true
count | 4096
put -1 0 | Err(Full)
empty | true
count | 0
";

#[test]
fn maps(rt: HostRuntime) -> Result<(), Fail> {
    let alloc = rt.alloc();
    compare_new(alloc, 4, LEAST_AND_GREATEST_KEYS)?;
    compare_new(alloc, 4, CLUSTERS)?;
    compare_new(alloc, 0, NO_ROOM)?;
    compare_new(alloc, 4096, MANY_KEYS)
}

// Calls on lists over flat memory, one after another: what each answers, and the elements afterwards.
ghost use Rattle.std.specs.Prelude.{◌≡◌, ◌^◌, ◌<◌, ◌≤◌};
ghost use Rattle.job_base.specs.Forms.{AreAllowed};
ghost use Rattle.native_list.specs.Layout.{end_of};

use crate::calls::{number, told};
use job_base::{FlatMem, Mem, Word};
use native_list::ListAt;
use row_texts::{row, same, table};
use std::alloc::Global;
use std::fmt::Write;
use std::test::Fail;

// Makes a call, and says what it answers.
fn perform<M: Mem>(alloc: Global, mem: &mut M, list: ListAt, call: &str) -> Result<String, Fail>
    requires fits { end_of list < 2 ^ 32 }
    requires readable { AreAllowed list.start (end_of list) (M.readable mem.old) }
    requires writable { AreAllowed list.start (end_of list) (M.writable mem.old) }
    ensures readable { M.readable mem.new ≡ M.readable mem.old }
    ensures writable { M.writable mem.new ≡ M.writable mem.old }
{
    let words: Vec<&str> = call.split_whitespace().collect(alloc)?;
    match *words {
        ["add", v] => told(alloc, list.add(mem, number(v)?)),
        ["get", i] => told(alloc, list.get(mem, number(i)?)),
        ["set", i, v] => told(alloc, list.set(mem, number(i)?, number(v)?)),
        ["remove", i] => told(alloc, list.remove_swap_back(mem, number(i)?)),
        ["clear"] => told(alloc, list.clear(mem)),
        ["array"] => told(alloc, list.as_array(mem)),
        ["len"] => told(alloc, list.len(mem)),
        _ => Err(Fail::new("no such call")),
    }
}

// The elements, one after another.
fn tell_elements<M: Mem>(mem: &mut M, list: ListAt, told: &mut String) -> Result<(), Fail>
    requires fits { end_of list < 2 ^ 32 }
    requires readable { AreAllowed list.start (end_of list) (M.readable mem.old) }
    ensures readable { M.readable mem.new ≡ M.readable mem.old }
    ensures writable { M.writable mem.new ≡ M.writable mem.old }
{
    told.push_str(":")?;
    for i in 0..list.len(mem) {
        let element = list.get(mem, i64::from(i))?;
        write!(told, " {element}")?;
    }
    Ok(())
}

fn compare<M: Mem>(alloc: Global, mem: &mut M, list: ListAt, rows: &str) -> Result<(), Fail>
    requires fits { end_of list < 2 ^ 32 }
    requires readable { AreAllowed list.start (end_of list) (M.readable mem.old) }
    requires writable { AreAllowed list.start (end_of list) (M.writable mem.old) }
    ensures readable { M.readable mem.new ≡ M.readable mem.old }
    ensures writable { M.writable mem.new ≡ M.writable mem.old }
{
    for line in table(rows)?.lines() {
        if let Some((call, wanted)) = row(line)? {
            let mut told = perform(alloc, mem, list, call)?;
            tell_elements(mem, list, &mut told)?;
            same(line, &told, wanted)?;
        }
    }
    Ok(())
}

const OF_NO_ROOM: &str = "
add 1 | Err(Full):
";

const THREE: &str = "
get 0 | Err(Range):
remove 0 | Err(Range):
add 7 | Ok(()): 7
add 8 | Ok(()): 7 8
add 9 | Ok(()): 7 8 9
add 10 | Err(Full): 7 8 9
get -1 | Err(Range): 7 8 9
set -1 1 | Err(Range): 7 8 9
remove -1 | Err(Range): 7 8 9
get 3 | Err(Range): 7 8 9
set 3 1 | Err(Range): 7 8 9
remove 3 | Err(Range): 7 8 9
get -9223372036854775808 | Err(Range): 7 8 9
set -9223372036854775808 1 | Err(Range): 7 8 9
remove -9223372036854775808 | Err(Range): 7 8 9
get 9223372036854775807 | Err(Range): 7 8 9
set 9223372036854775807 1 | Err(Range): 7 8 9
remove 9223372036854775807 | Err(Range): 7 8 9
array | ArrayAt { start: 2, len: 3 }: 7 8 9
remove 0 | Ok(()): 9 8
get 2 | Err(Range): 9 8
set 1 -8 | Ok(()): 9 -8
remove 1 | Ok(()): 9
clear | ():
array | ArrayAt { start: 2, len: 0 }:
add -9223372036854775808 | Ok(()): -9223372036854775808
";

// A length word that is no length counts as the nearest one.
const SHORTER_THAN_NONE: &str = "
len | 0:
";

const LONGER_THAN_ITS_ROOM: &str = "
len | 1: 4
add 1 | Err(Full): 4
remove 0 | Ok(()):
";

// The words beside the lists, which none of these calls changes.
fn calls<M: Mem>(alloc: Global, mem: &mut M) -> Result<(i64, i64), Fail>
    requires readable { AreAllowed 0 6 (M.readable mem.old) }
    requires writable { AreAllowed 0 6 (M.writable mem.old) }
{
    mem.store(Word(0), -1);
    mem.store(Word(5), -2);
    compare(alloc, mem, ListAt { start: 1, cap: 0 }, OF_NO_ROOM)?;
    compare(alloc, mem, ListAt { start: 1, cap: 3 }, THREE)?;
    let one = ListAt { start: 1, cap: 1 };
    mem.store(Word(2), 4);
    mem.store(Word(1), -9);
    compare(alloc, mem, one, SHORTER_THAN_NONE)?;
    mem.store(Word(1), 9);
    compare(alloc, mem, one, LONGER_THAN_ITS_ROOM)?;
    Ok((mem.load(Word(0)), mem.load(Word(5))))
}

#[test]
fn lists(rt: HostRuntime) -> Result<(), Fail> {
    let mut mem = FlatMem::new(rt.alloc(), 6)?;
    assert_eq!(rt; calls(rt.alloc(), &mut mem)?, (-1, -2));
    Ok(())
}

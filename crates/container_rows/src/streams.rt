// Calls on streams over flat memory, one after another, each with what it answers.
ghost use Rattle.std.specs.Prelude.{◌≡◌, ◌+◌, ◌*◌, ◌^◌, ◌<◌, ◌≤◌};
ghost use Rattle.job_base.specs.Forms.{AreAllowed};
ghost use Rattle.native_stream.specs.Layout.{end_of};

use crate::calls::{number, place, told};
use job_base::{FlatMem, Mem, Trap, Word};
use native_stream::{StreamAt, words_of};
use row_texts::{row, same, table};
use std::alloc::Global;
use std::test::Fail;

// Writes to an index. A write to one that the stream doesn't have isn't made, and has the answer of such an index.
fn write<M: Mem>(mem: &mut M, stream: StreamAt, i: u32, v: i64) -> Result<(), Trap>
    requires fits { end_of stream < 2 ^ 32 }
    requires readable { AreAllowed stream.start (end_of stream) (M.readable mem.old) }
    requires writable { AreAllowed stream.start (end_of stream) (M.writable mem.old) }
    ensures readable { M.readable mem.new ≡ M.readable mem.old }
    ensures writable { M.writable mem.new ≡ M.writable mem.old }
{
    if i >= stream.count {
        return Err(Trap::Range);
    }
    stream.write(mem, i, v)
}

// Makes a call, and says what it answers.
fn perform<M: Mem>(alloc: Global, mem: &mut M, stream: StreamAt, call: &str) -> Result<String, Fail>
    requires fits { end_of stream < 2 ^ 32 }
    requires readable { AreAllowed stream.start (end_of stream) (M.readable mem.old) }
    requires writable { AreAllowed stream.start (end_of stream) (M.writable mem.old) }
    ensures readable { M.readable mem.new ≡ M.readable mem.old }
    ensures writable { M.writable mem.new ≡ M.writable mem.old }
{
    let words: Vec<&str> = call.split_whitespace().collect(alloc)?;
    match *words {
        ["begin", i] => told(alloc, stream.begin(mem, number(i)?)),
        ["write", i, v] => told(alloc, write(mem, stream, place(i)?, number(v)?)),
        ["items", i] => told(alloc, stream.items(mem, number(i)?)),
        ["at", i, k] => told(alloc, stream.at(mem, number(i)?, number(k)?)),
        ["clear"] => told(alloc, stream.clear(mem)),
        ["words", count, room] => told(alloc, words_of(place(count)?, place(room)?)),
        _ => Err(Fail::new("no such call")),
    }
}

fn compare<M: Mem>(alloc: Global, mem: &mut M, stream: StreamAt, rows: &str) -> Result<(), Fail>
    requires fits { end_of stream < 2 ^ 32 }
    requires readable { AreAllowed stream.start (end_of stream) (M.readable mem.old) }
    requires writable { AreAllowed stream.start (end_of stream) (M.writable mem.old) }
    ensures readable { M.readable mem.new ≡ M.readable mem.old }
    ensures writable { M.writable mem.new ≡ M.writable mem.old }
{
    for line in table(rows)?.lines() {
        if let Some((call, wanted)) = row(line)? {
            let told = perform(alloc, mem, stream, call)?;
            same(line, &told, wanted)?;
        }
    }
    Ok(())
}

// Calls on a new stream, which has three cells before it and one behind it that aren't its own.
fn compare_new(alloc: Global, count: u32, room: u32, rows: &str) -> Result<(), Fail>
    requires { count * (room + 1) ≤ 4096 }
{
    let mut mem = FlatMem::new(alloc, 4 + words_of(count, room) as u32)?;
    let stream = StreamAt {
        start: 3,
        count,
        room,
    };
    compare(alloc, &mut mem, stream, rows)
}

const TWO_INDEXES: &str = "
items 0 | Ok(0)
at 0 0 | Err(Range)
begin -1 | Err(Range)
begin 2 | Err(Range)
begin 4294967296 | Err(Range)
begin -9223372036854775808 | Err(Range)
begin 9223372036854775807 | Err(Range)
begin 0 | Ok(())
begin 0 | Err(Written)
items 0 | Ok(0)
at 0 0 | Err(Range)
write 0 7 | Ok(())
begin 0 | Err(Written)
write 0 8 | Ok(())
write 0 9 | Err(Full)
items 0 | Ok(2)
items 1 | Ok(0)
begin 1 | Ok(())
write 1 -9223372036854775808 | Ok(())
items 0 | Ok(2)
items 1 | Ok(1)
items -1 | Err(Range)
items 2 | Err(Range)
items -9223372036854775808 | Err(Range)
items 9223372036854775807 | Err(Range)
at 0 0 | Ok(7)
at 0 1 | Ok(8)
at 0 2 | Err(Range)
at 0 -1 | Err(Range)
at 0 -9223372036854775808 | Err(Range)
at 0 9223372036854775807 | Err(Range)
at 1 0 | Ok(-9223372036854775808)
at 1 1 | Err(Range)
at -1 0 | Err(Range)
at 2 0 | Err(Range)
clear | ()
items 0 | Ok(0)
items 1 | Ok(0)
at 1 0 | Err(Range)
begin 1 | Ok(())
items 1 | Ok(0)
begin 0 | Ok(())
";

const FIRST_ITEM_BEGINS: &str = "
write 1 5 | Ok(())
begin 1 | Err(Written)
write 1 6 | Err(Full)
at 1 0 | Ok(5)
items 0 | Ok(0)
items 2 | Ok(0)
";

const NO_INDEX: &str = "
begin 0 | Err(Range)
items 0 | Err(Range)
at 0 0 | Err(Range)
clear | ()
";

const NO_ROOM: &str = "
write 1 1 | Err(Full)
begin 1 | Ok(())
begin 1 | Err(Written)
write 1 1 | Err(Full)
items 1 | Ok(0)
at 1 0 | Err(Range)
begin 0 | Ok(())
words 4 2 | 12
words 0 4294967295 | 0
words 4294967295 0 | 4294967295
words 4294967295 4294967295 | 18446744069414584320
";

const BROKEN: &str = "
items 0 | Ok(0)
items 1 | Ok(1)
at 1 0 | Ok(0)
write 1 4 | Err(Full)
begin 1 | Err(Written)
begin 0 | Ok(())
write 0 3 | Ok(())
at 0 0 | Ok(3)
";

// A mark that is none counts as the nearest one, and no word beside the stream changes: what these are afterwards.
fn broken<M: Mem>(alloc: Global, mem: &mut M) -> Result<(i64, i64), Fail>
    requires readable { AreAllowed 0 6 (M.readable mem.old) }
    requires writable { AreAllowed 0 6 (M.writable mem.old) }
{
    mem.store(Word(0), -1);
    mem.store(Word(1), i64::MIN);
    mem.store(Word(3), i64::MAX);
    mem.store(Word(5), -2);
    let stream = StreamAt {
        start: 1,
        count: 2,
        room: 1,
    };
    compare(alloc, mem, stream, BROKEN)?;
    Ok((mem.load(Word(0)), mem.load(Word(5))))
}

#[test]
fn streams(rt: HostRuntime) -> Result<(), Fail> {
    let alloc = rt.alloc();
    compare_new(alloc, 2, 2, TWO_INDEXES)?;
    compare_new(alloc, 3, 1, FIRST_ITEM_BEGINS)?;
    compare_new(alloc, 0, 5, NO_INDEX)?;
    compare_new(alloc, 2, 0, NO_ROOM)?;
    let mut mem = FlatMem::new(alloc, 6)?;
    assert_eq!(rt; broken(alloc, &mut mem)?, (-1, -2));
    Ok(())
}

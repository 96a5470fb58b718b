// Scripts and arrays.
ghost use Rattle.std.specs.Prelude.{◌≡◌, IfSome, None, Some};
ghost use Rattle.frame_host.specs.Scripts.{tree_of};
ghost use Rattle.frame_calls.specs.Holding.{IsSound, IsSoundHeld, columns_held};
ghost use Rattle.frame_calls.specs.Hosting.{Adds, IsAdded, IsOpened, IsShared, Opens, Shares};
ghost use Rattle.frame_calls.specs.declared.held.Held.TheVariants.{Read};

use crate::held::Held;
use crate::host::HostHandle;
use crate::status::NOT_NOW;
use frame_host::{FrameScript, OpenFault};
use frame_top::status::{DONE, NO_MEMORY, PAST_LIMIT, SCRIPT_REFUSED};
use std::alloc::Global;
use table_in::Table;

// The script of these bytes.
fn read_script(alloc: Global, source: &[u8], line: &mut u32) -> (Option<Held>, u8)
    ensures opened { IsOpened source.now line.new result.1 result.0 }
    ensures sound { IsSound result.0 }
{
    match FrameScript::open(alloc, source) {
        Ok(script) => (Some(Held::Read(script)), DONE),
        Err(OpenFault::TooLong) => (None, PAST_LIMIT),
        Err(OpenFault::Refused { line: at, .. }) => {
            *line = at;
            (None, SCRIPT_REFUSED)
        }
        Err(OpenFault::NoMemory) => (None, NO_MEMORY),
    }
}

/// Reads a script into an empty handle. Where it is refused, `line` is that of the faulty token.
pub fn open(alloc: Global, source: &[u8], script: &mut HostHandle, line: &mut u32) -> u8
    ensures { Opens source.now script.old.value line.new result script.new.value }
{
    if let Some((block, held)) = script.take_out(alloc) {
        script.put_back(block, Some(held));
        return NOT_NOW;
    }
    let (held, status) = read_script(alloc, source, line);
    script.put(alloc, held, status)
}

// The same script once more.
fn shared(script: &FrameScript) -> (Option<Held>, u8)
    requires sound { IsSoundHeld (Read script.now) }
    ensures shared { IsShared (tree_of script.now) result.1 result.0 }
    ensures sound { IsSound result.0 }
{
    match script.share() {
        Ok(other) => (Some(Held::Read(other)), DONE),
        Err(_) => (None, NO_MEMORY),
    }
}

// The script of what a handle has, in another one.
fn share_with(alloc: Global, held: &Held, other: &mut HostHandle) -> u8
    requires sound { IsSoundHeld held.now }
    ensures { Shares (Some held.now) other.old.value result other.new.value }
{
    let Held::Read(script) = held else {
        return NOT_NOW;
    };
    if let Some((block, held)) = other.take_out(alloc) {
        other.put_back(block, Some(held));
        return NOT_NOW;
    }
    let (held, status) = shared(script);
    other.put(alloc, held, status)
}

/// Gives an empty handle the script of another one, for another thread. Both are closed.
pub fn share(alloc: Global, script: &mut HostHandle, other: &mut HostHandle) -> u8
    ensures same { script.new.value ≡ script.old.value }
    ensures shares { Shares script.old.value other.old.value result other.new.value }
{
    let Some((block, held)) = script.take_out(alloc) else {
        return NOT_NOW;
    };
    let status = share_with(alloc, &held, other);
    script.put_back(block, Some(held));
    status
}

/// The arrays of a handle for them, which is empty afterwards; or none, where it has something else, and is as it was.
pub fn take_columns(alloc: Global, columns: &mut HostHandle) -> Option<Table>
    ensures taken { columns_held columns.old.value ≡ result }
    ensures empty { IfSome result (λ table. columns.new.value ≡ None) }
    ensures same { result ≡ None → columns.new.value ≡ columns.old.value }
{
    let Some((block, held)) = columns.take_out(alloc) else {
        return Some(Table::none(alloc));
    };
    match held {
        Held::Columns(table) => {
            drop(block);
            Some(table)
        }
        other => {
            columns.put_back(block, Some(other));
            None
        }
    }
}

// One array more.
fn added(alloc: Global, table: Table, name: &[u8], values: &[i64]) -> (Option<Held>, u8)
    ensures added { IsAdded table name.now values.now result.1 result.0 }
    ensures sound { IsSound result.0 }
{
    let mut table = table;
    match table.push_column(alloc, name, values) {
        Ok(()) => (Some(Held::Columns(table)), DONE),
        Err(_) => (None, NO_MEMORY),
    }
}

/// Puts a copy of an array into a handle for arrays, or into an empty one. A script's `column` finds it by its name.
pub fn add_column(alloc: Global, columns: &mut HostHandle, name: &[u8], values: &[i64]) -> u8
    ensures { Adds name.now values.now columns.old.value result columns.new.value }
{
    let Some(table) = take_columns(alloc, columns) else {
        return NOT_NOW;
    };
    let (held, status) = added(alloc, table, name, values);
    columns.put(alloc, held, status)
}

/// Gives up what a handle has, which is empty afterwards. An empty one stays so.
pub fn close(alloc: Global, handle: &mut HostHandle)
    ensures { handle.new.value ≡ None }
{
    drop(handle.take_out(alloc));
}

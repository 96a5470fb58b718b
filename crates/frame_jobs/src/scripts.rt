// Scripts and arrays, and the end of any handle.
ghost use Rattle.std.specs.Prelude.{◌≡◌, None};
ghost use Rattle.frame_calls.specs.Hosting.{Adds, Opens, Shares};

use frame_calls::HostHandle;
use std::alloc::Global;

/// Reads a script into an empty handle. Where it is refused, `line` is that of the faulty token.
#[unsafe(no_mangle)]
pub extern "C" fn frame_open(
    alloc: Global,
    source: &[u8],
    script: &mut HostHandle,
    line: &mut u32,
) -> u8
    ensures { Opens source.now script.old.value line.new result script.new.value }
{
    frame_calls::open(alloc, source, script, line)
}

/// Gives an empty handle the script of another one, for another thread. Both are closed.
#[unsafe(no_mangle)]
pub extern "C" fn frame_share(alloc: Global, script: &mut HostHandle, other: &mut HostHandle) -> u8
    ensures same { script.new.value ≡ script.old.value }
    ensures shares { Shares script.old.value other.old.value result other.new.value }
{
    frame_calls::share(alloc, script, other)
}

/// Puts a copy of an array into a handle for arrays, or into an empty one. A script's `column` finds it by its name.
#[unsafe(no_mangle)]
pub extern "C" fn frame_column(
    alloc: Global,
    columns: &mut HostHandle,
    name: &[u8],
    values: &[i64],
) -> u8
    ensures { Adds name.now values.now columns.old.value result columns.new.value }
{
    frame_calls::add_column(alloc, columns, name, values)
}

/// Gives up what a handle has, which is empty afterwards. An empty one stays so.
#[unsafe(no_mangle)]
pub extern "C" fn frame_close(alloc: Global, handle: &mut HostHandle)
    ensures { handle.new.value ≡ None }
{
    frame_calls::close(alloc, handle)
}

// Frames, from their beginning to their end.
ghost use Rattle.std.specs.Prelude.{◌≡◌};
ghost use Rattle.frame_calls.specs.Hosting.{Begins, Ends, Makes, Turns};

use frame_calls::HostHandle;
use std::alloc::Global;

/// Begins a frame of a script in an empty handle, with the arrays of a handle for them, which is empty afterwards.
#[unsafe(no_mangle)]
pub extern "C" fn frame_begin(
    alloc: Global,
    script: &mut HostHandle,
    columns: &mut HostHandle,
    frame: &mut HostHandle,
) -> u8
    ensures same { script.new.value ≡ script.old.value }
    ensures begins { Begins frame.old.value script.old.value columns.old.value result frame.new.value
        columns.new.value }
{
    frame_calls::begin(alloc, script, columns, frame)
}

/// Makes the next section of a frame, with a place for each of so many helpers; but for no more than it has pieces of
/// jobs, nor than 63.
#[unsafe(no_mangle)]
pub extern "C" fn frame_next(alloc: Global, frame: &mut HostHandle, helpers: u32) -> u8
    ensures { Makes frame.old.value helpers result frame.new.value }
{
    frame_calls::next(alloc, frame, helpers)
}

/// Runs a segment of the script at most, or a piece of a job while the script waits for one, and returns at once.
#[unsafe(no_mangle)]
pub extern "C" fn frame_turn(alloc: Global, frame: &mut HostHandle) -> u8
    ensures { Turns frame.old.value result frame.new.value }
{
    frame_calls::turn(alloc, frame)
}

/// Ends a section that is run and whose helpers are given back. What follows is its frame's next section or its answer.
#[unsafe(no_mangle)]
pub extern "C" fn frame_end(alloc: Global, frame: &mut HostHandle) -> u8
    ensures { Ends frame.old.value result frame.new.value }
{
    frame_calls::end(alloc, frame)
}

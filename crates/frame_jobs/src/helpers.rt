// Helpers: what each other thread has that runs pieces of a section.
ghost use Rattle.frame_calls.specs.Hosting.{HandsOut, Helps};

use frame_calls::HostHandle;
use std::alloc::Global;

/// Gives an empty handle a helper of a section, for another thread. It answers `NONE` exactly where all places are
/// given out.
#[unsafe(no_mangle)]
pub extern "C" fn frame_helper(alloc: Global, frame: &mut HostHandle, helper: &mut HostHandle) -> u8
    ensures { HandsOut frame.old.value helper.old.value result frame.new.value helper.new.value }
{
    frame_calls::give_helper(alloc, frame, helper)
}

/// Runs a piece of a job, if one is found, and returns at once. It answers that the section is over only where the
/// helper has seen that each of its jobs is finished, and from then on always.
#[unsafe(no_mangle)]
pub extern "C" fn frame_help(alloc: Global, helper: &mut HostHandle) -> u8
    ensures { Helps helper.old.value result helper.new.value }
{
    frame_calls::help(alloc, helper)
}

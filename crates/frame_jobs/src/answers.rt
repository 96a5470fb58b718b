// What a frame came to.
ghost use Rattle.std.specs.Prelude.{◌≡◌};
ghost use Rattle.frame_calls.specs.Hosting.{Prints, Reads, Reports};

use frame_calls::{HostHandle, HostReport};
use std::alloc::Global;

/// Copies to `out` what the container of a name holds at the script's end: the elements of an array or a list, or the
/// value of a reference.
#[unsafe(no_mangle)]
pub extern "C" fn frame_read(
    alloc: Global,
    frame: &mut HostHandle,
    name: &[u8],
    out: &mut [i64],
    out_len: &mut usize,
) -> u8
    ensures same { frame.new.value ≡ frame.old.value }
    ensures reads { Reads frame.old.value name.now out.new out_len.new result }
{
    frame_calls::read(alloc, frame, name, out, out_len)
}

/// Copies to `out` what the script prints, with the lines of its refusals and traps.
#[unsafe(no_mangle)]
pub extern "C" fn frame_text(
    alloc: Global,
    frame: &mut HostHandle,
    out: &mut [u8],
    out_len: &mut usize,
) -> u8
    ensures same { frame.new.value ≡ frame.old.value }
    ensures prints { Prints frame.old.value out.new out_len.new result }
{
    frame_calls::text(alloc, frame, out, out_len)
}

/// Copies to `report` how many statements were refused, how many runs of kernels trapped, and the first trap.
#[unsafe(no_mangle)]
pub extern "C" fn frame_report(alloc: Global, frame: &mut HostHandle, report: &mut HostReport) -> u8
    ensures same { frame.new.value ≡ frame.old.value }
    ensures reports { Reports frame.old.value report.new result }
{
    frame_calls::report(alloc, frame, report)
}

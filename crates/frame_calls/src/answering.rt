// What a frame came to.
ghost use Rattle.std.specs.Prelude.{◌≡◌, Some};
ghost use Rattle.frame_ast.specs.States.{ScriptState};
ghost use Rattle.frame_host.specs.Reports.{IsFrameReport};
ghost use Rattle.frame_calls.specs.Holding.{IsSoundHeld};
ghost use Rattle.frame_calls.specs.Hosting.{IsLeft, IsReported, Prints, Reads, Reports, trap_number};

use crate::copying::copy_items;
use crate::held::Held;
use crate::host::HostHandle;
use crate::status::{NONE, NOT_NOW};
use frame_host::FrameReport;
use frame_top::status::{DONE, UNWRITTEN};
use job_base::Trap;
use std::alloc::Global;

/// The refused statements and the traps of a frame, and its first trap.
#[repr(C)]
#[derive(Clone, Copy)]
pub struct HostReport {
    /// How many statements were refused.
    pub refused: u64,
    /// How many runs of kernels trapped.
    pub traps: u64,
    /// The job of the first trap, and its index. 0 where there is none.
    pub job: u32,
    pub index: u32,
    /// What stands for the trap: 1 to 9, in the order of the header, or 0 where there is none.
    pub trap: u32,
}

// Leaves items in a buffer, or the first of them where it has no room for all.
fn leave<T: Copy>(items: &[T], out: &mut [T], out_len: &mut usize) -> u8
    ensures left { IsLeft items.now out.new out_len.new result }
{
    *out_len = items.len();
    let room = out.len();
    if items.len() > room {
        copy_items(&items[..room], 0, out);
        return UNWRITTEN;
    }
    copy_items(items, 0, out);
    DONE
}

// What stands for a trap.
fn number_of_trap(trap: Trap) -> u32
    ensures { result ≡ trap_number trap }
{
    match trap {
        Trap::Overflow => 1,
        Trap::ZeroDivisor => 2,
        Trap::Range => 3,
        Trap::OwnIndex => 4,
        Trap::Full => 5,
        Trap::MissingKey => 6,
        Trap::PresentKey => 7,
        Trap::Written => 8,
        Trap::Budget => 9,
    }
}

// The numbers of a name.
fn read_numbers(held: &Held, name: &[u8], out: &mut [i64], out_len: &mut usize) -> u8
    requires sound { IsSoundHeld held.now }
    ensures { Reads (Some held.now) name.now out.new out_len.new result }
{
    let Held::Answered(answer) = held else {
        return NOT_NOW;
    };
    match answer.numbers(name) {
        Some(numbers) => leave(numbers, out, out_len),
        None => NONE,
    }
}

/// Copies to `out` what the container of a name holds at the script's end: the elements of an array or a list, or the
/// value of a reference.
pub fn read(
    alloc: Global,
    frame: &mut HostHandle,
    name: &[u8],
    out: &mut [i64],
    out_len: &mut usize,
) -> u8
    ensures same { frame.new.value ≡ frame.old.value }
    ensures reads { Reads frame.old.value name.now out.new out_len.new result }
{
    let Some((block, held)) = frame.take_out(alloc) else {
        return NOT_NOW;
    };
    let status = read_numbers(&held, name, out, out_len);
    frame.put_back(block, Some(held));
    status
}

// The text of an answer.
fn read_text(held: &Held, out: &mut [u8], out_len: &mut usize) -> u8
    requires sound { IsSoundHeld held.now }
    ensures { Prints (Some held.now) out.new out_len.new result }
{
    match held {
        Held::Answered(answer) => leave(&answer.text, out, out_len),
        Held::Lost
        | Held::Columns(_)
        | Held::Read(_)
        | Held::Between(_)
        | Held::Underway(_)
        | Held::Helping(_) => NOT_NOW,
    }
}

/// Copies to `out` what the script prints, with the lines of its refusals and traps.
pub fn text(alloc: Global, frame: &mut HostHandle, out: &mut [u8], out_len: &mut usize) -> u8
    ensures same { frame.new.value ≡ frame.old.value }
    ensures prints { Prints frame.old.value out.new out_len.new result }
{
    let Some((block, held)) = frame.take_out(alloc) else {
        return NOT_NOW;
    };
    let status = read_text(&held, out, out_len);
    frame.put_back(block, Some(held));
    status
}

// A report as C has it.
fn report_for_host(report: &FrameReport) -> HostReport
    ensures { (s : ScriptState) → IsFrameReport s report.now → IsReported s result }
{
    let none = HostReport {
        refused: report.refused,
        traps: report.traps,
        job: 0,
        index: 0,
        trap: 0,
    };
    match report.first {
        Some(first) => HostReport {
            job: first.job.0,
            index: first.index,
            trap: number_of_trap(first.trap),
            ..none
        },
        None => none,
    }
}

// The report of an answer.
fn read_report(held: &Held, report: &mut HostReport) -> u8
    requires sound { IsSoundHeld held.now }
    ensures { Reports (Some held.now) report.new result }
{
    let Held::Answered(answer) = held else {
        return NOT_NOW;
    };
    *report = report_for_host(&answer.report);
    DONE
}

/// Copies to `report` how many statements were refused, how many runs of kernels trapped, and the first trap.
pub fn report(alloc: Global, frame: &mut HostHandle, report: &mut HostReport) -> u8
    ensures same { frame.new.value ≡ frame.old.value }
    ensures reports { Reports frame.old.value report.new result }
{
    let Some((block, held)) = frame.take_out(alloc) else {
        return NOT_NOW;
    };
    let status = read_report(&held, report);
    frame.put_back(block, Some(held));
    status
}

// Frames, from their beginning to their end.
ghost use Rattle.std.specs.Prelude.{◌≡◌, Some};
ghost use Rattle.frame_ast.specs.Accepted.{IsAccepted};
ghost use Rattle.frame_host.specs.Scripts.{tree_of};
ghost use Rattle.frame_calls.specs.Holding.{IsSound, IsSoundHeld};
ghost use Rattle.frame_calls.specs.Hosting.{Begins, Ends, IsBegun, Makes, Turns};

use crate::held::Held;
use crate::host::HostHandle;
use crate::opening::take_columns;
use crate::status::{AGAIN, BUSY, NEXT, NOT_NOW, OVER};
use frame_host::{BeginFault, Frame, FrameEnd, FrameScript};
use frame_plan::PlanFault;
use frame_top::status::{DONE, NO_MEMORY, PAST_LIMIT, TABLE_REFUSED};
use std::alloc::Global;
use table_in::Table;

// A frame of a script with these columns.
fn begun(alloc: Global, script: &FrameScript, table: Table) -> (Option<Held>, u8)
    requires accepted { IsAccepted (tree_of script.now) }
    ensures begun { IsBegun (tree_of script.now) table result.1 result.0 }
    ensures sound { IsSound result.0 }
{
    match Frame::begin(alloc, script, table) {
        Ok(frame) => (Some(Held::Between(frame)), DONE),
        Err(BeginFault::NoColumn { .. }) => (None, TABLE_REFUSED),
        Err(BeginFault::Plan(PlanFault::Jobs | PlanFault::Words)) => (None, PAST_LIMIT),
        Err(BeginFault::Plan(PlanFault::NoMemory)) => (None, NO_MEMORY),
    }
}

// A frame of the script that a handle has, with the arrays of another one.
fn begin_with(alloc: Global, held: &Held, columns: &mut HostHandle, frame: &mut HostHandle) -> u8
    requires sound { IsSoundHeld held.now }
    ensures { Begins frame.old.value (Some held.now) columns.old.value result frame.new.value columns.new.value }
{
    if let Some((block, there)) = frame.take_out(alloc) {
        frame.put_back(block, Some(there));
        return NOT_NOW;
    }
    let Held::Read(script) = held else {
        return NOT_NOW;
    };
    let Some(table) = take_columns(alloc, columns) else {
        return NOT_NOW;
    };
    let (held, status) = begun(alloc, script, table);
    frame.put(alloc, held, status)
}

/// Begins a frame of a script in an empty handle, with the arrays of a handle for them, which is empty afterwards.
pub fn begin(
    alloc: Global,
    script: &mut HostHandle,
    columns: &mut HostHandle,
    frame: &mut HostHandle,
) -> u8
    ensures same { script.new.value ≡ script.old.value }
    ensures begins { Begins frame.old.value script.old.value columns.old.value result frame.new.value
        columns.new.value }
{
    let Some((block, held)) = script.take_out(alloc) else {
        return NOT_NOW;
    };
    let status = begin_with(alloc, &held, columns, frame);
    script.put_back(block, Some(held));
    status
}

// The next section of a frame.
fn next_section(alloc: Global, held: Held, helpers: u32) -> (Option<Held>, u8)
    requires sound { IsSoundHeld held }
    ensures made { Makes (Some held) helpers result.1 result.0 }
    ensures sound { IsSound result.0 }
{
    match held {
        Held::Between(frame) => match frame.next(alloc, helpers) {
            Ok(section) => (Some(Held::Underway(section)), DONE),
            Err(_) => (None, NO_MEMORY),
        },
        other => (Some(other), NOT_NOW),
    }
}

/// Makes the next section of a frame, with a place for each of so many helpers; but for no more than it has pieces of
/// jobs, nor than 63.
pub fn next(alloc: Global, frame: &mut HostHandle, helpers: u32) -> u8
    ensures { Makes frame.old.value helpers result frame.new.value }
{
    let Some((block, held)) = frame.take_out(alloc) else {
        return NOT_NOW;
    };
    let (held, status) = next_section(alloc, held, helpers);
    frame.put_back(block, held);
    status
}

// A turn of the thread that owns the frame.
fn turned(held: Held) -> (Option<Held>, u8)
    requires sound { IsSoundHeld held }
    ensures turned { Turns (Some held) result.1 result.0 }
    ensures sound { IsSound result.0 }
{
    match held {
        Held::Underway(section) => {
            let mut section = section;
            if section.turn() {
                return (Some(Held::Underway(section)), AGAIN);
            }
            (Some(Held::Underway(section)), OVER)
        }
        other => (Some(other), NOT_NOW),
    }
}

/// Runs a segment of the script at most, or a piece of a job while the script waits for one, and returns at once.
pub fn turn(alloc: Global, frame: &mut HostHandle) -> u8
    ensures { Turns frame.old.value result frame.new.value }
{
    let Some((block, held)) = frame.take_out(alloc) else {
        return NOT_NOW;
    };
    let (held, status) = turned(held);
    frame.put_back(block, held);
    status
}

// What comes after a section.
fn ended(alloc: Global, held: Held) -> (Option<Held>, u8)
    requires sound { IsSoundHeld held }
    ensures ended { Ends (Some held) result.1 result.0 }
    ensures sound { IsSound result.0 }
{
    match held {
        Held::Underway(section) => match section.end(alloc) {
            Ok(FrameEnd::Next(frame)) => (Some(Held::Between(frame)), NEXT),
            Ok(FrameEnd::Over(answer)) => {
                let status = answer.status;
                (Some(Held::Answered(answer)), status)
            }
            Ok(FrameEnd::NoMemory) => (None, NO_MEMORY),
            Err(section) => (Some(Held::Underway(section)), BUSY),
        },
        other => (Some(other), NOT_NOW),
    }
}

/// Ends a section that is run and whose helpers are given back. What follows is its frame's next section or its answer.
pub fn end(alloc: Global, frame: &mut HostHandle) -> u8
    ensures { Ends frame.old.value result frame.new.value }
{
    let Some((block, held)) = frame.take_out(alloc) else {
        return NOT_NOW;
    };
    let (held, status) = ended(alloc, held);
    frame.put_back(block, held);
    status
}

// Helpers: what each other thread has that runs pieces of a section.
ghost use Rattle.std.specs.Prelude.{◌≡◌, None, Some};
ghost use Rattle.frame_calls.specs.Holding.{IsSound, IsSoundHeld};
ghost use Rattle.frame_calls.specs.Hosting.{HandsOut, Helps};
ghost use Rattle.frame_calls.specs.declared.held.Held.TheVariants.{Underway};

use crate::held::Held;
use crate::host::HostHandle;
use crate::status::{AGAIN, IDLE, NONE, NOT_NOW, OVER};
use frame_host::FrameSection;
use frame_top::status::{DONE, NO_MEMORY};
use std::alloc::Global;
use steal_pool::HelperTurn;

// A helper of a section, for an empty handle. Its block is made before its place is taken, so that none is lost.
fn give(alloc: Global, section: FrameSection, helper: &mut HostHandle) -> (Option<Held>, u8)
    requires empty { helper.old.value ≡ None }
    requires sound { IsSoundHeld (Underway section) }
    ensures handed { HandsOut (Some (Underway section)) None result.1 result.0 helper.new.value }
    ensures sound { IsSound result.0 }
{
    if section.places() == 0 {
        return (Some(Held::Underway(section)), NONE);
    }
    let Ok(block) = Box::new(alloc, Held::Lost) else {
        return (Some(Held::Underway(section)), NO_MEMORY);
    };
    let (section, given) = section.helper(alloc);
    match given {
        Ok(given) => {
            helper.put_back(block, Some(Held::Helping(given)));
            (Some(Held::Underway(section)), DONE)
        }
        Err(_) => (Some(Held::Underway(section)), NO_MEMORY),
    }
}

// A helper of the section that a handle has, for another handle, which is empty.
fn hand_out(alloc: Global, held: Held, helper: &mut HostHandle) -> (Option<Held>, u8)
    requires sound { IsSoundHeld held }
    ensures handed { HandsOut (Some held) helper.old.value result.1 result.0 helper.new.value }
    ensures sound { IsSound result.0 }
{
    match held {
        Held::Underway(section) => {
            if let Some((block, there)) = helper.take_out(alloc) {
                helper.put_back(block, Some(there));
                return (Some(Held::Underway(section)), NOT_NOW);
            }
            give(alloc, section, helper)
        }
        other => (Some(other), NOT_NOW),
    }
}

/// Gives an empty handle a helper of a section, for another thread. It answers `NONE` exactly where all places are
/// given out.
pub fn give_helper(alloc: Global, frame: &mut HostHandle, helper: &mut HostHandle) -> u8
    ensures { HandsOut frame.old.value helper.old.value result frame.new.value helper.new.value }
{
    let Some((block, held)) = frame.take_out(alloc) else {
        return NOT_NOW;
    };
    let (held, status) = hand_out(alloc, held, helper);
    frame.put_back(block, held);
    status
}

// A turn of a helper.
fn helped(held: Held) -> (Option<Held>, u8)
    requires sound { IsSoundHeld held }
    ensures helped { Helps (Some held) result.1 result.0 }
    ensures sound { IsSound result.0 }
{
    match held {
        Held::Helping(helper) => {
            let mut helper = helper;
            match helper.turn() {
                HelperTurn::Ran => (Some(Held::Helping(helper)), AGAIN),
                HelperTurn::Idle => (Some(Held::Helping(helper)), IDLE),
                HelperTurn::Over => (Some(Held::Helping(helper)), OVER),
            }
        }
        other => (Some(other), NOT_NOW),
    }
}

/// Runs a piece of a job, if one is found, and returns at once. It answers that the section is over only where the
/// helper has seen that each of its jobs is finished, and from then on always.
pub fn help(alloc: Global, helper: &mut HostHandle) -> u8
    ensures { Helps helper.old.value result helper.new.value }
{
    let Some((block, held)) = helper.take_out(alloc) else {
        return NOT_NOW;
    };
    let (held, status) = helped(held);
    helper.put_back(block, held);
    status
}

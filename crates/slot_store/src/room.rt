// Room in the lists of a store.
ghost use Rattle.std.specs.Prelude.{◌≡◌, ℕ, ◌+◌, ◌<◌, ◌≤◌, OnOk, vec_len, vec_capacity};
ghost use Rattle.slot_store.specs.Kept.{IsGrown};
ghost use Rattle.slot_store.specs.Places.{set_at};

use crate::place::Waiting;
use crate::space::FreeSpace;
use job_base::NoMemory;
use job_handle::Handle;

/// Makes room for so many ranges and slots to come back, and for so many slots to be held.
pub(crate) fn reserve_all(
    words: &mut FreeSpace,
    slots: &mut FreeSpace,
    held: &mut Vec<Waiting>,
    most: usize,
) -> Result<(), NoMemory>
    ensures words { IsGrown words.old words.new }
    ensures slots { IsGrown slots.old slots.new }
    ensures held { (held.new.items ≡ held.old.items) × (vec_len held.new ≡ vec_len held.old)
        × (vec_capacity held.old ≤ vec_capacity held.new) }
    ensures ready { OnOk result ((vec_len words.new.holes + most ≤ vec_capacity words.new.holes)
        × (vec_len slots.new.holes + most ≤ vec_capacity slots.new.holes)
        × (vec_len held.new + most ≤ vec_capacity held.new)) }
{
    words.reserve(most)?;
    slots.reserve(most)?;
    held.reserve(most)?;
    Ok(())
}

/// Makes sets up to that of a slot, in room that there is. What sets slots have stays the same.
pub(crate) fn add_sets(users: &mut Vec<Handle>, none: &Handle, at: usize)
    requires { at < vec_capacity users.old }
    ensures there { at < vec_len users.new }
    ensures same { (s : ℕ) → set_at users.new.items none.now s ≡ set_at users.old.items none.now s }
    ensures room { vec_capacity users.old ≤ vec_capacity users.new }
{
    while users.len() <= at {
        match users.push(*none) {
            Ok(()) => {}
            Err(_) => unreachable!(),
        }
    }
}

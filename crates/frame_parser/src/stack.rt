//! What steps of the parser put on its stack, and what they note.

ghost use Rattle.std.specs.Prelude.{◌≡◌, ◌<◌, ◌^◌, ◌∷◌, ◌++◌, [], IfOk};
ghost use Rattle.frame_parser.specs.Notes.{events_of};

use crate::note::Note;
use frame_grammar::Action;
use std::alloc::AllocError;

// Adds these to a list. Room for all is made once, and where it stands in line no loop is left of it.
#[inline(always)]
pub fn put<T: Copy>(list: &mut Vec<T>, items: &[T]) -> Result<(), AllocError>
    ensures { IfOk result (λ _. list.new.items ≡ list.old.items ++ items.now) }
{
    if list.capacity() - list.len() < items.len() {
        list.reserve(items.len())?;
    }
    for item in items {
        list.push_reserved(*item);
    }
    Ok(())
}

// Out of line, since there is seldom no room, and a call would keep registers for it each time.
#[inline(never)]
fn note_growing(events: &mut Vec<Note>, action: Action, place: u32) -> Result<(), AllocError>
    requires { place < 2 ^ 25 }
    ensures { IfOk result (λ _. events_of events.new.items ≡
        events_of events.old.items ++ record { action = action; place = place } ∷ []) }
{
    put(events, &[Note::of(action, place)])
}

// Out of line: where it stands in line, the compiler makes what it writes ready at each token, for every action.
#[inline(never)]
pub fn note(events: &mut Vec<Note>, action: Action, place: u32) -> Result<(), AllocError>
    requires { place < 2 ^ 25 }
    ensures { IfOk result (λ _. events_of events.new.items ≡
        events_of events.old.items ++ record { action = action; place = place } ∷ []) }
{
    if events.len() == events.capacity() {
        return note_growing(events, action, place);
    }
    events.push_reserved(Note::of(action, place));
    Ok(())
}

#[inline(always)]
pub fn note_both(
    events: &mut Vec<Note>,
    first: Action,
    second: Action,
    place: u32,
) -> Result<(), AllocError>
    requires { place < 2 ^ 25 }
    ensures { IfOk result (λ _. events_of events.new.items ≡ events_of events.old.items
        ++ record { action = first; place = place } ∷ record { action = second; place = place } ∷ []) }
{
    put(events, &[Note::of(first, place), Note::of(second, place)])
}

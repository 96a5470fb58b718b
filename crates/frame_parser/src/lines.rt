//! Lines of a script that are taken at once.
//!
//! Most lines of long scripts are one of few, but for their names and numbers: `set a 5 = 6`, `print a`. By the table
//! each of their tokens takes some steps. Here stands what all steps together note. Any other line is taken token by
//! token.

ghost use Rattle.std.specs.Prelude.{◌<◌, ◌≤◌, ◌+◌, ◌^◌, length, map, IfOk};
ghost use Rattle.known_lines.specs.Lines.{IsLine, TakesLines};
ghost use Rattle.frame_parser.specs.Notes.{events_of};

use crate::arrays::take_array;
use crate::note::Note;
use crate::phrases::note_at;
use crate::schedules::take_schedule;
use frame_grammar::{Action as A, HasKind, TokenKind as K};
use known_lines::are_at;
use known_lines::statements::{
    ADD, ADD_NOTES, ADD_PAIR, ADD_PAIR_NOTES, ARRAY, ARRAY_NOTES, CLEAR, CLEAR_NOTES, COMPLETE,
    COMPLETE_NOTES, COPY, COPY_NOTES, DISPOSE, DISPOSE_NOTES, EMPTY, EMPTY_NOTES, FLUSH,
    FLUSH_NOTES, FRAME, FRAME_NOTES, LIST, LIST_NOTES, MAP, MAP_NOTES, PRINT, PRINT_NOTES, PUT,
    PUT_NOTES, REFERENCE, REFERENCE_NOTES, REFERENCE_VALUE, REFERENCE_VALUE_NOTES, REMOVE,
    REMOVE_NOTES, SET, SET_AT, SET_AT_NOTES, SET_CAPACITY, SET_CAPACITY_NOTES, SET_NOTES, SLICE,
    SLICE_NOTES, STREAM, STREAM_NOTES, VIEW, VIEW_NOTES,
};
use std::alloc::AllocError;

/// Takes this line, if it stands at this place. Answers how many tokens it took.
// In line where the line is a constant, so that nothing of it is looked up in a table.
#[inline(always)]
fn take_if_here<T: HasKind>(
    events: &mut Vec<Note>,
    tokens: &[T],
    place: usize,
    kinds: &[K],
    notes: &[(A, u32)],
) -> Result<usize, AllocError>
    requires line { IsLine kinds.now notes.now }
    requires within { place ≤ length tokens.now }
    requires few { length tokens.now < 2 ^ 25 }
    ensures { IfOk result (λ taken. TakesLines (map T.kind_of tokens.now) place (place + taken)
        (events_of events.old.items) (events_of events.new.items)) }
{
    if are_at(kinds, tokens, place) {
        note_at(events, notes, place as u32)?;
        Ok(kinds.len())
    } else {
        Ok(0)
    }
}

/// The same of two lines that begin with one token. The longer one is looked for first.
#[inline(always)]
fn take_either<T: HasKind>(
    events: &mut Vec<Note>,
    tokens: &[T],
    place: usize,
    longer: (&[K], &[(A, u32)]),
    other: (&[K], &[(A, u32)]),
) -> Result<usize, AllocError>
    requires longer { IsLine longer.0.now longer.1.now }
    requires other { IsLine other.0.now other.1.now }
    requires within { place ≤ length tokens.now }
    requires few { length tokens.now < 2 ^ 25 }
    ensures { IfOk result (λ taken. TakesLines (map T.kind_of tokens.now) place (place + taken)
        (events_of events.old.items) (events_of events.new.items)) }
{
    let taken = take_if_here(events, tokens, place, longer.0, longer.1)?;
    if taken > 0 {
        return Ok(taken);
    }
    take_if_here(events, tokens, place, other.0, other.1)
}

/// The same of a line of `array`, without values or with some.
// A line without values is told here, since most arrays have none, and a call takes as much as the line itself.
#[inline(always)]
fn take_either_array<T: HasKind>(
    events: &mut Vec<Note>,
    tokens: &[T],
    place: usize,
) -> Result<usize, AllocError>
    requires within { place ≤ length tokens.now }
    requires few { length tokens.now < 2 ^ 25 }
    ensures { IfOk result (λ taken. TakesLines (map T.kind_of tokens.now) place (place + taken)
        (events_of events.old.items) (events_of events.new.items)) }
{
    let taken = take_if_here(events, tokens, place, &ARRAY, &ARRAY_NOTES)?;
    if taken > 0 {
        return Ok(taken);
    }
    take_array(events, tokens, place)
}

/// Takes the line at a place, if it is one that is known. Answers how many tokens it took.
#[inline(always)]
fn take_line<T: HasKind>(
    events: &mut Vec<Note>,
    tokens: &[T],
    place: usize,
) -> Result<usize, AllocError>
    requires within { place < length tokens.now }
    requires few { length tokens.now < 2 ^ 25 }
    ensures { IfOk result (λ taken. TakesLines (map T.kind_of tokens.now) place (place + taken)
        (events_of events.old.items) (events_of events.new.items)) }
{
    match tokens[place].kind() {
        K::Array => take_either_array(events, tokens, place),
        K::List => take_if_here(events, tokens, place, &LIST, &LIST_NOTES),
        K::Map => take_if_here(events, tokens, place, &MAP, &MAP_NOTES),
        K::Reference => take_either(
            events,
            tokens,
            place,
            (&REFERENCE_VALUE, &REFERENCE_VALUE_NOTES),
            (&REFERENCE, &REFERENCE_NOTES),
        ),
        K::Stream => take_if_here(events, tokens, place, &STREAM, &STREAM_NOTES),
        K::Slice => take_if_here(events, tokens, place, &SLICE, &SLICE_NOTES),
        K::View => take_if_here(events, tokens, place, &VIEW, &VIEW_NOTES),
        K::Copy => take_if_here(events, tokens, place, &COPY, &COPY_NOTES),
        K::Set => take_either(
            events,
            tokens,
            place,
            (&SET_AT, &SET_AT_NOTES),
            (&SET, &SET_NOTES),
        ),
        K::Add => take_either(
            events,
            tokens,
            place,
            (&ADD_PAIR, &ADD_PAIR_NOTES),
            (&ADD, &ADD_NOTES),
        ),
        K::Put => take_if_here(events, tokens, place, &PUT, &PUT_NOTES),
        K::Remove => take_if_here(events, tokens, place, &REMOVE, &REMOVE_NOTES),
        K::Clear => take_if_here(events, tokens, place, &CLEAR, &CLEAR_NOTES),
        K::SetCapacity => take_if_here(events, tokens, place, &SET_CAPACITY, &SET_CAPACITY_NOTES),
        K::Schedule => take_schedule(events, tokens, place),
        K::Complete => take_if_here(events, tokens, place, &COMPLETE, &COMPLETE_NOTES),
        K::Dispose => take_if_here(events, tokens, place, &DISPOSE, &DISPOSE_NOTES),
        K::Print => take_if_here(events, tokens, place, &PRINT, &PRINT_NOTES),
        K::Flush => take_if_here(events, tokens, place, &FLUSH, &FLUSH_NOTES),
        K::Frame => take_if_here(events, tokens, place, &FRAME, &FRAME_NOTES),
        K::Line => take_if_here(events, tokens, place, &EMPTY, &EMPTY_NOTES),
        _ => Ok(0),
    }
}

/// Takes the lines from a place on that are known, where items are on top of the stack. Answers the place after them.
#[inline(never)]
pub fn take_lines<T: HasKind>(
    events: &mut Vec<Note>,
    tokens: &[T],
    from: usize,
) -> Result<usize, AllocError>
    requires within { from ≤ length tokens.now }
    requires few { length tokens.now < 2 ^ 25 }
    ensures { IfOk result (λ place. TakesLines (map T.kind_of tokens.now) from place
        (events_of events.old.items) (events_of events.new.items)) }
{
    let mut place = from;
    while place < tokens.len() {
        let taken = take_line(events, tokens, place)?;
        if taken == 0 {
            return Ok(place);
        }
        place += taken;
    }
    Ok(place)
}

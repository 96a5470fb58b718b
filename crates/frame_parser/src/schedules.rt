//! Lines of `schedule`, which are taken at once, phrase by phrase.
//!
//! They are the commonest lines of long frames: a name, a kernel, its arguments, and what the job waits for. Where a
//! phrase is another than those that are known here (a sum as an argument, `defer`, `waive`), what was noted of the
//! line is taken back, and the line is taken token by token.

ghost use Rattle.std.specs.Prelude.{◌<◌, ◌≤◌, ◌+◌, ◌^◌, length, map, IfOk};
ghost use Rattle.known_lines.specs.Lines.{MayTakeAll, TakesLines, TakesPhrase, items_on};
ghost use Rattle.known_lines.specs.Schedules.{arguments_on, more_arguments_on, names_on, sizes_on};
ghost use Rattle.frame_parser.specs.Notes.{events_of};

use crate::note::Note;
use crate::phrases::{take_one_of, take_phrase, taken_or_back};
use frame_grammar::HasKind;
use known_lines::schedules::{
    AFTER, AFTER_NOTES, AUTO_HEAD, AUTO_HEAD_NOTES, CLOSE, CLOSE_NOTES, END, END_NOTES, HEAD,
    HEAD_NOTES, NAMED, NAMED_NOTES, NAMES_END, NAMES_END_NOTES, NEXT_NAME, NEXT_NAME_NOTES,
    NEXT_NAMED, NEXT_NAMED_NOTES, NEXT_NUMBERED, NEXT_NUMBERED_NOTES, NUMBERED, NUMBERED_NOTES,
    SIZES_AFTER, SIZES_AFTER_NOTES, SIZES_END, SIZES_END_NOTES,
};
use std::alloc::AllocError;

/// Takes the arguments behind the first. Answers the place after them.
#[inline(always)]
fn take_more<T: HasKind>(
    events: &mut Vec<Note>,
    tokens: &[T],
    from: usize,
) -> Result<usize, AllocError>
    requires within { from ≤ length tokens.now }
    requires few { length tokens.now < 2 ^ 25 }
    ensures { IfOk result (λ place. TakesPhrase more_arguments_on more_arguments_on (map T.kind_of tokens.now)
        from place (events_of events.old.items) (events_of events.new.items)) }
{
    let mut place = from;
    while let Some(next) = take_one_of(
        events,
        tokens,
        place,
        (&NEXT_NAMED, &NEXT_NAMED_NOTES),
        (&NEXT_NUMBERED, &NEXT_NUMBERED_NOTES),
    )? {
        place = next;
    }
    Ok(place)
}

/// Takes the arguments and what closes them.
#[inline(always)]
fn take_arguments<T: HasKind>(
    events: &mut Vec<Note>,
    tokens: &[T],
    place: usize,
) -> Result<Option<usize>, AllocError>
    requires within { place ≤ length tokens.now }
    requires few { length tokens.now < 2 ^ 25 }
    ensures { IfOk result (λ next. MayTakeAll arguments_on sizes_on (map T.kind_of tokens.now) place next
        (events_of events.old.items) (events_of events.new.items)) }
{
    let Some(first) = take_one_of(
        events,
        tokens,
        place,
        (&NAMED, &NAMED_NOTES),
        (&NUMBERED, &NUMBERED_NOTES),
    )?
    else {
        return Ok(None);
    };
    let last = take_more(events, tokens, first)?;
    take_phrase(events, tokens, last, &CLOSE, &CLOSE_NOTES)
}

/// Takes the names of more jobs to wait for. Answers the place after them.
#[inline(always)]
fn take_names<T: HasKind>(
    events: &mut Vec<Note>,
    tokens: &[T],
    from: usize,
) -> Result<usize, AllocError>
    requires within { from ≤ length tokens.now }
    requires few { length tokens.now < 2 ^ 25 }
    ensures { IfOk result (λ place. TakesPhrase names_on names_on (map T.kind_of tokens.now) from place
        (events_of events.old.items) (events_of events.new.items)) }
{
    let mut place = from;
    while let Some(next) = take_phrase(events, tokens, place, &NEXT_NAME, &NEXT_NAME_NOTES)? {
        place = next;
    }
    Ok(place)
}

/// Takes what stands behind the arguments.
#[inline(always)]
fn take_rest<T: HasKind>(
    events: &mut Vec<Note>,
    tokens: &[T],
    place: usize,
) -> Result<Option<usize>, AllocError>
    requires within { place ≤ length tokens.now }
    requires few { length tokens.now < 2 ^ 25 }
    ensures { IfOk result (λ next. MayTakeAll sizes_on items_on (map T.kind_of tokens.now) place next
        (events_of events.old.items) (events_of events.new.items)) }
{
    if let Some(next) = take_one_of(
        events,
        tokens,
        place,
        (&END, &END_NOTES),
        (&SIZES_END, &SIZES_END_NOTES),
    )? {
        return Ok(Some(next));
    }
    let Some(named) = take_one_of(
        events,
        tokens,
        place,
        (&AFTER, &AFTER_NOTES),
        (&SIZES_AFTER, &SIZES_AFTER_NOTES),
    )?
    else {
        return Ok(None);
    };
    let last = take_names(events, tokens, named)?;
    take_phrase(events, tokens, last, &NAMES_END, &NAMES_END_NOTES)
}

/// Takes the whole line. Answers the place after it, or none where a phrase isn't known.
#[inline(always)]
fn take_known<T: HasKind>(
    events: &mut Vec<Note>,
    tokens: &[T],
    place: usize,
) -> Result<Option<usize>, AllocError>
    requires within { place ≤ length tokens.now }
    requires few { length tokens.now < 2 ^ 25 }
    ensures { IfOk result (λ next. MayTakeAll items_on items_on (map T.kind_of tokens.now) place next
        (events_of events.old.items) (events_of events.new.items)) }
{
    let Some(open) = take_one_of(
        events,
        tokens,
        place,
        (&HEAD, &HEAD_NOTES),
        (&AUTO_HEAD, &AUTO_HEAD_NOTES),
    )?
    else {
        return Ok(None);
    };
    let Some(closed) = take_arguments(events, tokens, open)? else {
        return Ok(None);
    };
    take_rest(events, tokens, closed)
}

/// Takes the line of `schedule` at a place, if all of it is known. Answers how many tokens it took.
#[inline(never)]
pub fn take_schedule<T: HasKind>(
    events: &mut Vec<Note>,
    tokens: &[T],
    place: usize,
) -> Result<usize, AllocError>
    requires within { place ≤ length tokens.now }
    requires few { length tokens.now < 2 ^ 25 }
    ensures { IfOk result (λ taken. TakesLines (map T.kind_of tokens.now) place (place + taken)
        (events_of events.old.items) (events_of events.new.items)) }
{
    let noted = events.len();
    let next = take_known(events, tokens, place)?;
    Ok(taken_or_back(events, noted, place, next))
}

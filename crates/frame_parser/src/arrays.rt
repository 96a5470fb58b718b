//! Lines of `array` with values, which are taken at once, phrase by phrase.
//!
//! An array may have a million values, so a plain one costs one test of its kind and two notes. Where a phrase is
//! another than those that are known here (`temp`, a file that ends within the line), what was noted of the line is
//! taken back, and the line is taken token by token. The notes keep their room then, so as many more of them need no
//! memory.

ghost use Rattle.std.specs.Prelude.{◌<◌, ◌≤◌, ◌+◌, ◌^◌, length, map, IfOk};
ghost use Rattle.known_lines.specs.Lines.{MayTakeAll, TakesLines, TakesPhrase, items_on};
ghost use Rattle.known_lines.specs.Arrays.{more_values_on, values_on};
ghost use Rattle.frame_parser.specs.Notes.{events_of};

use crate::note::Note;
use crate::phrases::{take_one_of, take_phrase, taken_or_back};
use frame_grammar::HasKind;
use known_lines::arrays::{
    END, END_NOTES, HEAD, HEAD_NOTES, NEGATIVE, NEGATIVE_NOTES, PLAIN, PLAIN_NOTES,
};
use std::alloc::AllocError;

/// Takes the values behind the first. Answers the place after them.
#[inline(always)]
fn take_more<T: HasKind>(
    events: &mut Vec<Note>,
    tokens: &[T],
    from: usize,
) -> Result<usize, AllocError>
    requires within { from ≤ length tokens.now }
    requires few { length tokens.now < 2 ^ 25 }
    ensures { IfOk result (λ place. TakesPhrase more_values_on more_values_on (map T.kind_of tokens.now) from place
        (events_of events.old.items) (events_of events.new.items)) }
{
    let mut place = from;
    while let Some(next) = take_one_of(
        events,
        tokens,
        place,
        (&PLAIN, &PLAIN_NOTES),
        (&NEGATIVE, &NEGATIVE_NOTES),
    )? {
        place = next;
    }
    Ok(place)
}

/// Takes the values and the end of the line.
#[inline(always)]
fn take_all_values<T: HasKind>(
    events: &mut Vec<Note>,
    tokens: &[T],
    place: usize,
) -> Result<Option<usize>, AllocError>
    requires within { place ≤ length tokens.now }
    requires few { length tokens.now < 2 ^ 25 }
    ensures { IfOk result (λ next. MayTakeAll values_on items_on (map T.kind_of tokens.now) place next
        (events_of events.old.items) (events_of events.new.items)) }
{
    let Some(first) = take_one_of(
        events,
        tokens,
        place,
        (&PLAIN, &PLAIN_NOTES),
        (&NEGATIVE, &NEGATIVE_NOTES),
    )?
    else {
        return Ok(None);
    };
    let last = take_more(events, tokens, first)?;
    take_phrase(events, tokens, last, &END, &END_NOTES)
}

/// Takes the whole line. Answers the place after it, or none where a phrase isn't known.
#[inline(always)]
fn take_known<T: HasKind>(
    events: &mut Vec<Note>,
    tokens: &[T],
    place: usize,
) -> Result<Option<usize>, AllocError>
    requires within { place ≤ length tokens.now }
    requires few { length tokens.now < 2 ^ 25 }
    ensures { IfOk result (λ next. MayTakeAll items_on items_on (map T.kind_of tokens.now) place next
        (events_of events.old.items) (events_of events.new.items)) }
{
    let Some(open) = take_phrase(events, tokens, place, &HEAD, &HEAD_NOTES)? else {
        return Ok(None);
    };
    take_all_values(events, tokens, open)
}

/// Takes the line of `array` with values at a place, if all of it is known. Answers how many tokens it took.
#[inline(never)]
pub fn take_array<T: HasKind>(
    events: &mut Vec<Note>,
    tokens: &[T],
    place: usize,
) -> Result<usize, AllocError>
    requires within { place ≤ length tokens.now }
    requires few { length tokens.now < 2 ^ 25 }
    ensures { IfOk result (λ taken. TakesLines (map T.kind_of tokens.now) place (place + taken)
        (events_of events.old.items) (events_of events.new.items)) }
{
    let noted = events.len();
    let next = take_known(events, tokens, place)?;
    Ok(taken_or_back(events, noted, place, next))
}

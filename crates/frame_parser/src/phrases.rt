//! Phrases of a line, which are taken at once.

ghost use Rattle.std.specs.Prelude.{◌≡◌, ◌<◌, ◌≤◌, ◌+◌, ◌^◌, List, ◌++◌, All, length, map, IfOk, IfSome};
ghost use Rattle.frame_grammar.specs.declared.token_kind.TokenKind.{TokenKind};
ghost use Rattle.frame_grammar.specs.declared.symbols.Symbol.{Symbol};
ghost use Rattle.known_lines.specs.Lines.{events_at, Fits, IsPhrase, items_on, MayTake, MayTakeAll, TakesLines};
ghost use Rattle.frame_parser.specs.Notes.{events_of};

use crate::note::Note;
use frame_grammar::{Action as A, HasKind, TokenKind as K};
use known_lines::are_at;
use std::alloc::AllocError;

/// Notes these actions, each so many tokens behind a place.
#[inline(always)]
pub fn note_at(events: &mut Vec<Note>, notes: &[(A, u32)], place: u32) -> Result<(), AllocError>
    requires { All (λ note. place + note.1 < 2 ^ 25) notes.now }
    ensures { IfOk result (λ _. events_of events.new.items ≡ events_of events.old.items ++ events_at place notes.now) }
{
    if events.capacity() - events.len() < notes.len() {
        events.reserve(notes.len())?;
    }
    for (action, after) in notes {
        events.push_reserved(Note::of(*action, place + *after));
    }
    Ok(())
}

/// Takes this phrase, if it stands at this place. Answers the place after it.
// In line where the phrase is a constant, so that nothing of it is looked up in a table.
#[inline(always)]
pub fn take_phrase<T: HasKind>(
    events: &mut Vec<Note>,
    tokens: &[T],
    place: usize,
    kinds: &[K],
    notes: &[(A, u32)],
) -> Result<Option<usize>, AllocError>
    requires fits { Fits kinds.now notes.now }
    requires within { place ≤ length tokens.now }
    requires few { length tokens.now < 2 ^ 25 }
    ensures { IfOk result (λ next. (from to : List Symbol) → IsPhrase from to kinds.now notes.now →
        MayTake from to (map T.kind_of tokens.now) place next
        (events_of events.old.items) (events_of events.new.items)) }
{
    if are_at(kinds, tokens, place) {
        note_at(events, notes, place as u32)?;
        Ok(Some(place + kinds.len()))
    } else {
        Ok(None)
    }
}

/// The same of two phrases, one of which may stand there.
#[inline(always)]
pub fn take_one_of<T: HasKind>(
    events: &mut Vec<Note>,
    tokens: &[T],
    place: usize,
    first: (&[K], &[(A, u32)]),
    second: (&[K], &[(A, u32)]),
) -> Result<Option<usize>, AllocError>
    requires first { Fits first.0.now first.1.now }
    requires second { Fits second.0.now second.1.now }
    requires within { place ≤ length tokens.now }
    requires few { length tokens.now < 2 ^ 25 }
    ensures { IfOk result (λ next. (from to : List Symbol) → IsPhrase from to first.entry.0.now first.entry.1.now →
        IsPhrase from to second.entry.0.now second.entry.1.now →
        MayTake from to (map T.kind_of tokens.now) place next
        (events_of events.old.items) (events_of events.new.items)) }
{
    match take_phrase(events, tokens, place, first.0, first.1)? {
        Some(next) => Ok(Some(next)),
        None => take_phrase(events, tokens, place, second.0, second.1),
    }
}

/// How many tokens the phrases of a line took from a place on, up to the next. Where a phrase wasn't known, there is no
/// next, and the notes are cut to as many as they were before the line.
#[inline(always)]
pub fn taken_or_back(
    events: &mut Vec<Note>,
    noted: usize,
    place: usize,
    next: Option<usize>,
) -> usize
    requires { IfSome next (λ next. place ≤ next) }
    ensures { (tokens : List TokenKind) (before : List Note) → noted ≡ length before → place ≤ length tokens →
        MayTakeAll items_on items_on tokens place next (events_of before) (events_of events.old.items) →
        TakesLines tokens place (place + result) (events_of before) (events_of events.new.items) }
{
    match next {
        Some(next) => next - place,
        None => {
            events.truncate(noted);
            0
        }
    }
}

//! Takes the events of a kernel, several at once where they are of one node and all that is known of it.
//!
//! Most nodes are atoms with nothing under them, or have a name right where they begin. Such a node is made as it
//! stays, and not made first and then looked up and changed.

ghost use Rattle.std.specs.Prelude.{◌≡◌, ◌<◌, IfOk, Some, length, slice_get};
ghost use Rattle.frame_grammar.specs.declared.symbols.Action.TheVariants as action;
ghost use Rattle.frame_parser.specs.Notes.{events_of};
ghost use Rattle.kernel_raw.specs.declared.raw.TheConstants.{MOST_KEPT};
ghost use Rattle.kernel_raw.specs.RawEvents.{on};
ghost use Rattle.kernel_raw.specs.Keeping.{kept_of, HasSpace, TakesFirst};

use crate::RawForm;
use crate::reader::Reader;
use frame_grammar::{Action, Event, TokenAt};
use frame_parser::Note;
use std::alloc::AllocError;

// The event at a place.
#[inline(always)]
fn event_at(notes: &[Note], place: usize) -> Option<Event>
    ensures { result ≡ slice_get (events_of notes.now) place }
{
    match notes.get(place) {
        Some(note) => Some(note.event()),
        None => None,
    }
}

// Takes the first event, which is this one.
#[inline(always)]
fn take_one(reader: &mut Reader, notes: &[Note], event: Event) -> Result<usize, AllocError>
    requires first { slice_get (events_of notes.now) 0 ≡ Some event }
    requires space { HasSpace (kept_of reader.old) }
    ensures { IfOk result (λ n. TakesFirst n (events_of notes.now) (kept_of reader.old) (kept_of reader.new)) }
{
    reader.take(event)?;
    Ok(1)
}

// Takes a Number, which is an atom or the width of a parameter.
#[inline(always)]
fn take_number(reader: &mut Reader, notes: &[Note], at: TokenAt) -> Result<usize, AllocError>
    requires first { slice_get (events_of notes.now) 0 ≡ Some (on action.Number at) }
    requires space { HasSpace (kept_of reader.old) }
    ensures { IfOk result (λ n. TakesFirst n (events_of notes.now) (kept_of reader.old) (kept_of reader.new)) }
{
    if reader.has_room() && !reader.is_outside() {
        if let Some(
            Event {
                action: Action::NumberAtom,
                ..
            },
        ) = event_at(notes, 1)
        {
            reader.add_leaf(RawForm::Number, at, at)?;
            return Ok(2);
        }
    }
    take_one(
        reader,
        notes,
        Event {
            action: Action::Number,
            place: at,
        },
    )
}

// Takes an atom that begins with this name, and that is kept.
#[inline(always)]
fn take_named(
    reader: &mut Reader,
    notes: &[Note],
    at: TokenAt,
    name: TokenAt,
) -> Result<usize, AllocError>
    requires first { slice_get (events_of notes.now) 0 ≡ Some (on action.StartAtom at) }
    requires second { slice_get (events_of notes.now) 1 ≡ Some (on action.Name name) }
    requires space { HasSpace (kept_of reader.old) }
    requires room { (kept_of reader.old).count < MOST_KEPT }
    ensures { IfOk result (λ n. TakesFirst n (events_of notes.now) (kept_of reader.old) (kept_of reader.new)) }
{
    if let Some(
        Event {
            action: Action::NameAtom,
            ..
        },
    ) = event_at(notes, 2)
    {
        reader.add_leaf(RawForm::Name, at, name)?;
        return Ok(3);
    }
    reader.begin_named(at, None, name)?;
    Ok(2)
}

// Takes an atom that begins.
#[inline(always)]
fn take_atom(reader: &mut Reader, notes: &[Note], at: TokenAt) -> Result<usize, AllocError>
    requires first { slice_get (events_of notes.now) 0 ≡ Some (on action.StartAtom at) }
    requires space { HasSpace (kept_of reader.old) }
    ensures { IfOk result (λ n. TakesFirst n (events_of notes.now) (kept_of reader.old) (kept_of reader.new)) }
{
    if reader.has_room() {
        match event_at(notes, 1) {
            Some(
                Event {
                    action: Action::Name,
                    place,
                },
            ) => return take_named(reader, notes, at, place),
            Some(
                Event {
                    action: Action::IndexAtom,
                    ..
                },
            ) => {
                reader.add_leaf(RawForm::Index, at, at)?;
                return Ok(2);
            }
            _ => {}
        }
    }
    take_one(
        reader,
        notes,
        Event {
            action: Action::StartAtom,
            place: at,
        },
    )
}

// Takes a statement that begins with this name, and that is kept.
#[inline(always)]
fn take_named_statement(
    reader: &mut Reader,
    notes: &[Note],
    at: TokenAt,
    name: TokenAt,
) -> Result<usize, AllocError>
    requires first { slice_get (events_of notes.now) 0 ≡ Some (on action.StartStatement at) }
    requires second { slice_get (events_of notes.now) 1 ≡ Some (on action.Name name) }
    requires space { HasSpace (kept_of reader.old) }
    requires room { (kept_of reader.old).count < MOST_KEPT }
    ensures { IfOk result (λ n. TakesFirst n (events_of notes.now) (kept_of reader.old) (kept_of reader.new)) }
{
    let owner = reader.innermost();
    reader.begin_named(at, owner, name)?;
    Ok(2)
}

// Takes a statement that begins.
#[inline(always)]
fn take_statement(reader: &mut Reader, notes: &[Note], at: TokenAt) -> Result<usize, AllocError>
    requires first { slice_get (events_of notes.now) 0 ≡ Some (on action.StartStatement at) }
    requires space { HasSpace (kept_of reader.old) }
    ensures { IfOk result (λ n. TakesFirst n (events_of notes.now) (kept_of reader.old) (kept_of reader.new)) }
{
    if reader.has_room() {
        if let Some(
            Event {
                action: Action::Name,
                place,
            },
        ) = event_at(notes, 1)
        {
            return take_named_statement(reader, notes, at, place);
        }
    }
    take_one(
        reader,
        notes,
        Event {
            action: Action::StartStatement,
            place: at,
        },
    )
}

/// Takes the first of these events, and answers how many it took.
#[inline(always)]
pub fn take_first(reader: &mut Reader, notes: &[Note]) -> Result<usize, AllocError>
    requires some { 0 < length notes.now }
    requires space { HasSpace (kept_of reader.old) }
    ensures { IfOk result (λ n. TakesFirst n (events_of notes.now) (kept_of reader.old) (kept_of reader.new)) }
{
    let event = notes[0].event();
    let place = event.place;
    match event.action {
        Action::Number => take_number(reader, notes, place),
        Action::StartAtom => take_atom(reader, notes, place),
        Action::StartStatement => take_statement(reader, notes, place),
        _ => take_one(reader, notes, event),
    }
}

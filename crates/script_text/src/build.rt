//! Puts the events of a statement together into its raw form.

ghost use Rattle.std.specs.Prelude.{◌≡◌, ◌≤◌, ◌+◌, true, Some, IfOk, length, take, drop};
ghost use Rattle.frame_parser.specs.Notes.{events_of};
ghost use Rattle.script_text.specs.Raw.{form_of, values_of, NewArray};
ghost use Rattle.script_text.specs.Events.{BeginsOrder};
ghost use Rattle.script_text.specs.Reading.{reading_of, only_scalars, nothing_read, opens_values, order_from, values_len, step, ends, finished};

use crate::build_scalars::{Scalars, ends_flat, signed_of};
use crate::raw::{RawArg, RawOrder};
use crate::values::values_len;
use frame_grammar::{Action, Event, TokenAt};
use frame_parser::Note;
use std::alloc::{AllocError, Global};

// Whether the values of an array stand after this event.
fn opens_values(action: Action) -> bool
    ensures { result ≡ opens_values action }
{
    matches!(action, Action::OpenValues)
}

/// Whether a statement, or what stands before its brace, is whole with this event.
fn ends(action: Action) -> bool
    ensures { result ≡ ends action }
{
    matches!(
        action,
        Action::ScheduleStatement
            | Action::CombineStatement
            | Action::DisposeStatement
            | Action::DisposeAfterStatement
    ) || ends_flat(action)
}

/// What has been read of a statement. Its lists allocate nothing while they are empty.
#[derive(Drop)]
struct Reader {
    scalars: Scalars,
    args: Vec<RawArg>,
    /// The list of names that is being read, or was last.
    names: Vec<TokenAt>,
    waive: Vec<TokenAt>,
}

impl Reader {
    // Of a statement whose lists begin after these scalars.
    fn new(alloc: Global, scalars: Scalars) -> Self
        ensures { reading_of result ≡ only_scalars scalars }
    {
        Reader {
            scalars,
            args: Vec::new(alloc),
            names: Vec::new(alloc),
            waive: Vec::new(alloc),
        }
    }

    /// Takes the next event of a statement, and not its last.
    fn take(&mut self, event: Event) -> Result<(), AllocError>
        ensures { IfOk result (λ _. reading_of self.new ≡ step event.action event.place (reading_of self.old)) }
    {
        let Event { action, place } = event;
        self.scalars.take(action, place);
        match action {
            Action::Name => {
                if self.scalars.is_listing {
                    self.names.push(place)?;
                }
            }
            Action::NameArgument => self.args.push(RawArg::Name(self.scalars.names.last))?,
            Action::NumberArgument => {
                let number = signed_of(self.scalars.numbers.signed);
                self.args.push(RawArg::Number(number))?;
            }
            Action::Waived => std::mem::swap(&mut self.names, &mut self.waive),
            // No other event says a part of a list.
            _ => {}
        }
        Ok(())
    }

    /// The statement that is whole with this event.
    fn finish<'a>(self, action: Action) -> RawOrder<'a>
        requires { ends action ≡ true }
        ensures { form_of result ≡ finished action (reading_of self) }
    {
        let Reader {
            scalars,
            args,
            names,
            waive,
        } = self;
        let scalars = &scalars;
        let name = scalars.names.last;
        match action {
            Action::ScheduleStatement => RawOrder::Schedule {
                auto: scalars.auto,
                handle: scalars.names.handle,
                kernel: scalars.names.kernel,
                args,
                sizes: scalars.sizes,
                waive,
                after: names,
            },
            Action::CombineStatement => RawOrder::Combine {
                name: scalars.names.opener,
                of: names,
            },
            Action::DisposeStatement => RawOrder::Dispose {
                name,
                after: names,
                handle: None,
            },
            Action::DisposeAfterStatement => RawOrder::Dispose {
                name: scalars.names.opener,
                after: names,
                handle: Some(name),
            },
            _ => scalars.finish(action),
        }
    }
}

/// A statement, and how many events it has. Of `repeat` and `when` that is what stands before the
/// brace.
#[derive(Drop)]
pub struct ReadOrder<'a> {
    pub order: RawOrder<'a>,
    pub read: usize,
}

/// The array with these scalars whose values begin at a note. Two events stand after its values: the one that closes
/// them, and the one that ends the statement.
fn array_with<'a>(scalars: &Scalars, notes: &'a [Note], from: usize) -> ReadOrder<'a>
    requires { from ≤ length notes.now }
    ensures form { form_of result.order ≡ NewArray scalars.now.names.last scalars.now.numbers.last scalars.now.life
        (Some (values_of (take (values_len (drop from (events_of notes.now))) (drop from (events_of notes.now))))) }
    ensures read { result.read ≡ from + values_len (drop from (events_of notes.now)) + 2 }
{
    let end = from + values_len(&notes[from..]);
    ReadOrder {
        order: RawOrder::Array {
            name: scalars.names.last,
            len: scalars.numbers.last,
            life: scalars.life,
            values: Some(&notes[from..end]),
        },
        read: end + 2,
    }
}

// The statement that the events begin with, where these scalars are read of those before a place.
fn listed_order<'a>(
    alloc: Global,
    scalars: Scalars,
    notes: &'a [Note],
    from: usize,
) -> Result<ReadOrder<'a>, AllocError>
    requires begun { BeginsOrder (events_of notes.now) }
    requires scalars { order_from (only_scalars scalars) (drop from (events_of notes.now))
        ≡ order_from nothing_read (events_of notes.now) }
    ensures form { IfOk result
        (λ found. (begun : BeginsOrder (events_of notes.now)) → form_of found.order ≡ begun.form) }
    ensures read { IfOk result
        (λ found. (begun : BeginsOrder (events_of notes.now)) → found.read ≡ length begun.events) }
{
    let mut reader = Reader::new(alloc, scalars);
    for index in from..notes.len() {
        let event = notes[index].event();
        if opens_values(event.action) {
            return Ok(array_with(&reader.scalars, notes, index + 1));
        }
        if ends(event.action) {
            return Ok(ReadOrder {
                order: reader.finish(event.action),
                read: index + 1,
            });
        }
        reader.take(event)?;
    }
    unreachable!()
}

/// The statement that the events begin with, from the event after its `StartStatement` on.
// Most statements are known ones. Most others have no lists: those are read by their scalars alone, and no list is made
// and dropped for them.
pub fn raw_order<'a>(alloc: Global, notes: &'a [Note]) -> Result<ReadOrder<'a>, AllocError>
    requires { BeginsOrder (events_of notes.now) }
    ensures form { IfOk result
        (λ found. (begun : BeginsOrder (events_of notes.now)) → form_of found.order ≡ begun.form) }
    ensures read { IfOk result
        (λ found. (begun : BeginsOrder (events_of notes.now)) → found.read ≡ length begun.events) }
{
    let mut scalars = Scalars::new();
    for (index, note) in notes.iter().enumerate() {
        let event = note.event();
        if !scalars.take_scalar(event.action, event.place) {
            if ends_flat(event.action) {
                return Ok(ReadOrder {
                    order: scalars.finish(event.action),
                    read: index + 1,
                });
            }
            return listed_order(alloc, scalars, notes, index);
        }
    }
    unreachable!()
}

//! The values of an array, as signed numbers.

ghost use Rattle.std.specs.Prelude.{◌≡◌, map};
ghost use Rattle.frame_ast.specs.Lists.{first_some};
ghost use Rattle.frame_parser.specs.Notes.{events_of};
ghost use Rattle.script_text.specs.Raw.{values_of};
ghost use Rattle.script_text.specs.Sources.{signed_at};
ghost use Rattle.script_checks.specs.Faults.{signed_fault};
ghost use Rattle.script_checks.specs.Checks.{Gives};

use crate::OrderFault;
use crate::checks::signed_number;
use frame_grammar::{Action, TokenAt};
use frame_parser::Note;
use script_text::{RawNumber, Source};
use std::alloc::Global;

/// The values as signed numbers of 64 bits; `count` is how many there are.
pub fn signed_values(
    alloc: Global,
    source: Source<'_>,
    notes: &[Note],
    count: u32,
) -> Result<Vec<i64>, OrderFault>
    ensures { Gives (first_some (map (signed_fault source.entry) (values_of (events_of notes.now))))
        (λ values. values.items ≡ map (signed_at source.entry) (values_of (events_of notes.now))) result }
{
    let mut values = Vec::with_capacity(alloc, count as usize)?;
    let mut at = TokenAt::of(0);
    for note in notes {
        let event = note.event();
        match event.action {
            Action::Number => at = event.place,
            Action::PlainNumber => {
                let value = signed_number(source, RawNumber { minus: false, at })?;
                values.push(value)?;
            }
            Action::MinusNumber => {
                let value = signed_number(source, RawNumber { minus: true, at })?;
                values.push(value)?;
            }
            _ => {}
        }
    }
    Ok(values)
}

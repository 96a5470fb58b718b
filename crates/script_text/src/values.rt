//! The values of an array among the events of the grammar: where they end, and how many there are.

ghost use Rattle.std.specs.Prelude.{◌≡◌, ◌≤◌, length};
ghost use Rattle.frame_parser.specs.Notes.{events_of};
ghost use Rattle.script_text.specs.Raw.{values_of};
ghost use Rattle.script_text.specs.Reading.{closes_values, ends_number, values_len};

use frame_grammar::Action;
use frame_parser::Note;

fn closes_values(action: Action) -> bool
    ensures { result ≡ closes_values action }
{
    matches!(action, Action::CloseValues)
}

/// How many events stand before the one that closes the values of an array.
pub fn values_len(notes: &[Note]) -> usize
    ensures { result ≡ values_len (events_of notes.now) }
{
    for (index, note) in notes.iter().enumerate() {
        if closes_values(note.event().action) {
            return index;
        }
    }
    notes.len()
}

// Whether a signed number is whole with this event.
fn ends_number(action: Action) -> bool
    ensures { result ≡ ends_number action }
{
    matches!(action, Action::PlainNumber | Action::MinusNumber)
}

/// How many values there are.
pub fn count_values(notes: &[Note]) -> usize
    ensures count { result ≡ length (values_of (events_of notes.now)) }
    ensures few { result ≤ length notes.now }
{
    let mut count = 0;
    for note in notes {
        if ends_number(note.event().action) {
            count += 1;
        }
    }
    count
}

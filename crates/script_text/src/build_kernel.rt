//! Finds the end of a kernel among events.

ghost use Rattle.std.specs.Prelude.{◌≡◌, length};
ghost use Rattle.frame_parser.specs.Notes.{events_of};
ghost use Rattle.script_text.specs.Events.{BeginsKernel};
ghost use Rattle.script_text.specs.Reading.{closes};

use frame_grammar::Action;
use frame_parser::Note;

fn closes(action: Action) -> bool
    ensures { result ≡ closes action }
{
    matches!(action, Action::CloseKernel)
}

/// How many events the kernel has that the events begin with.
pub fn kernel_len(notes: &[Note]) -> usize
    requires { BeginsKernel (events_of notes.now) }
    ensures { (begun : BeginsKernel (events_of notes.now)) → result ≡ length begun.events }
{
    for (index, note) in notes.iter().enumerate() {
        if closes(note.event().action) {
            return index + 1;
        }
    }
    unreachable!()
}

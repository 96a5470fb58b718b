//! Goes over the events of a file, item by item.

ghost use Rattle.std.specs.Prelude.{◌≡◌, ◌≤◌, List, length, drop, IfOk};
ghost use Rattle.frame_parser.specs.Notes.{events_of};
ghost use Rattle.script_text.specs.Raw.{RawItems};
ghost use Rattle.script_text.specs.Items.{SpellsOpen, IsOpen, Leads};

use crate::build::raw_order;
use crate::build_kernel::kernel_len;
use crate::raw::RawOrder;
use frame_grammar::{Action, TokenAt};
use frame_parser::Note;
use std::alloc::{AllocError, Global};

/// What begins or ends at an event, with the event after it.
#[derive(Drop)]
pub enum RawItem<'a> {
    /// No event is left.
    None,
    Kernel {
        next: usize,
    },
    /// A statement with the place of its first token; of `repeat` and `when`, what stands before
    /// the brace.
    Order {
        first: TokenAt,
        order: RawOrder<'a>,
        next: usize,
    },
    /// The innermost open block ends.
    End {
        next: usize,
    },
}

/// How many events there are.
fn count(notes: &[Note]) -> usize
    ensures { result ≡ length (events_of notes.now) }
{
    notes.len()
}

/// The item that the events of a file have at this one.
pub fn raw_item<'a>(alloc: Global, notes: &'a [Note], at: usize) -> Result<RawItem<'a>, AllocError>
    requires within { at ≤ length (events_of notes.now) }
    requires spelled { IsOpen (drop at (events_of notes.now)) }
    ensures { IfOk result (λ item. (items : List RawItems) → SpellsOpen (drop at (events_of notes.now)) items →
        Leads (events_of notes.now) at item items) }
{
    if at == count(notes) {
        return Ok(RawItem::None);
    }
    let event = notes[at].event();
    match event.action {
        Action::StartStatement => {
            let found = raw_order(alloc, &notes[at + 1..])?;
            Ok(RawItem::Order {
                first: event.place,
                order: found.order,
                next: at + 1 + found.read,
            })
        }
        Action::OpenJob | Action::OpenParallel => Ok(RawItem::Kernel {
            next: at + kernel_len(&notes[at..]),
        }),
        Action::RepeatStatement | Action::WhenStatement => Ok(RawItem::End { next: at + 1 }),
        _ => unreachable!(),
    }
}

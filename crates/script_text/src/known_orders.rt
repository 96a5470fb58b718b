//! Statements that most lines of long scripts are: what their notes say, taken at once.

ghost use Rattle.std.specs.Prelude.{◌≡◌, List, IfSome, length, drop};
ghost use Rattle.frame_parser.specs.Notes.{events_of};
ghost use Rattle.script_text.specs.Raw.{RawItems};
ghost use Rattle.script_text.specs.Known.{known_form};
ghost use Rattle.script_text.specs.Events.{BeginsOrder};
ghost use Rattle.script_text.specs.Items.{SpellsOpen, IsOpen, LeadsOrder};

use frame_grammar::{Action as A, TokenAt};
use frame_parser::Note;

/// A statement that many lines of long scripts are, by the places of its tokens. None of its numbers has a `-`, and
/// what a statement may leave out is left out.
///
/// It is much smaller than a `RawOrder`, which may have lists, and so is handed on faster.
#[derive(Clone, Copy, Debug, PartialEq, Eq)]
pub enum KnownOrder {
    /// `array a 5`
    Array {
        name: TokenAt,
        len: TokenAt,
    },
    /// `list a 5`
    List {
        name: TokenAt,
        cap: TokenAt,
    },
    /// `reference a = 5`
    Reference {
        name: TokenAt,
        value: TokenAt,
    },
    /// `map a 5`
    Map {
        name: TokenAt,
        cap: TokenAt,
    },
    /// `slice a b 5 6`
    Slice {
        name: TokenAt,
        of: TokenAt,
        start: TokenAt,
        len: TokenAt,
    },
    /// `view a b`
    View {
        name: TokenAt,
        of: TokenAt,
    },
    /// `set a 5 = 6`
    Set {
        name: TokenAt,
        at: TokenAt,
        value: TokenAt,
    },
    /// `add a 5`
    Add {
        name: TokenAt,
        value: TokenAt,
    },
    /// `put a 5 6`
    Put {
        name: TokenAt,
        key: TokenAt,
        value: TokenAt,
    },
    /// `remove a 5`
    Remove {
        name: TokenAt,
        at: TokenAt,
    },
    /// `dispose a`
    Dispose {
        name: TokenAt,
    },
    /// `print a`
    Print {
        name: TokenAt,
    },
    /// `flush`
    Flush,
}

/// Such a statement with the place of its first token, and the event after it.
#[derive(Clone, Copy, Debug, PartialEq, Eq)]
pub struct KnownItem {
    pub first: TokenAt,
    pub order: KnownOrder,
    pub next: usize,
}

/// The statement that the notes begin with, where it is one of those that many lines of long scripts are, and how many
/// events it has. None also where fewer notes are left than such a statement can have.
// What it says is taken from its places at once. Read one by one into scalars, its events take more than twice as long.
#[inline(always)]
fn known_order(notes: &[Note]) -> Option<(KnownOrder, usize)>
    ensures form { IfSome result
        (λ found. (begun : BeginsOrder (events_of notes.now)) → known_form found.0 ≡ begun.form) }
    ensures read { IfSome result
        (λ found. (begun : BeginsOrder (events_of notes.now)) → found.1 ≡ length begun.events) }
{
    if notes.len() < 6 {
        return None;
    }
    let first = notes[0].event();
    let second = notes[1].event();
    let third = notes[2].event();
    let fourth = notes[3].event();
    let fifth = notes[4].event();
    let sixth = notes[5].event();
    let name = first.place;
    match (
        first.action,
        second.action,
        third.action,
        fourth.action,
        fifth.action,
        sixth.action,
    ) {
        (A::Name, A::Number, A::LifeNone, A::NoValues, A::ArrayStatement, _) => Some((
            KnownOrder::Array {
                name,
                len: second.place,
            },
            5,
        )),
        (A::Name, A::Number, A::LifeNone, A::ListStatement, _, _) => Some((
            KnownOrder::List {
                name,
                cap: second.place,
            },
            4,
        )),
        (A::Name, A::LifeNone, A::Number, A::PlainNumber, A::ReferenceStatement, _) => Some((
            KnownOrder::Reference {
                name,
                value: third.place,
            },
            5,
        )),
        (A::Name, A::Number, A::LifeNone, A::MapStatement, _, _) => Some((
            KnownOrder::Map {
                name,
                cap: second.place,
            },
            4,
        )),
        (A::Name, A::Name, A::Number, A::Number, A::SliceStatement, _) => Some((
            KnownOrder::Slice {
                name,
                of: second.place,
                start: third.place,
                len: fourth.place,
            },
            5,
        )),
        (A::Name, A::Name, A::ViewStatement, _, _, _) => Some((
            KnownOrder::View {
                name,
                of: second.place,
            },
            3,
        )),
        (A::Name, A::Number, A::PlainNumber, A::Number, A::PlainNumber, A::SetStatement) => Some((
            KnownOrder::Set {
                name,
                at: second.place,
                value: fourth.place,
            },
            6,
        )),
        (A::Name, A::Number, A::PlainNumber, A::NoNumber, A::AddToStatement, _) => Some((
            KnownOrder::Add {
                name,
                value: second.place,
            },
            5,
        )),
        (A::Name, A::Number, A::PlainNumber, A::Number, A::PlainNumber, A::PutStatement) => Some((
            KnownOrder::Put {
                name,
                key: second.place,
                value: fourth.place,
            },
            6,
        )),
        (A::Name, A::Number, A::PlainNumber, A::RemoveFromStatement, _, _) => Some((
            KnownOrder::Remove {
                name,
                at: second.place,
            },
            4,
        )),
        (A::Name, A::DisposeStatement, _, _, _, _) => Some((KnownOrder::Dispose { name }, 2)),
        (A::Name, A::PrintStatement, _, _, _, _) => Some((KnownOrder::Print { name }, 2)),
        (A::FlushStatement, _, _, _, _, _) => Some((KnownOrder::Flush, 1)),
        _ => None,
    }
}

/// The statement that the events of a file have at this one, where it is such a one that is known.
#[inline(always)]
pub fn known_item(notes: &[Note], at: usize) -> Option<KnownItem>
    requires spelled { IsOpen (drop at (events_of notes.now)) }
    ensures { IfSome result (λ item. (items : List RawItems) → SpellsOpen (drop at (events_of notes.now)) items →
        LeadsOrder (events_of notes.now) at item.first (known_form item.order) item.next items) }
{
    if at >= notes.len() {
        return None;
    }
    let event = notes[at].event();
    match event.action {
        A::StartStatement => {
            let (order, read) = known_order(&notes[at + 1..])?;
            Some(KnownItem {
                first: event.place,
                order,
                next: at + 1 + read,
            })
        }
        _ => None,
    }
}

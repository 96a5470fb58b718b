//! Events in 32 bits.
//!
//! The events of a whole file stand in memory, so each takes as little as it can: a file has fewer than 2^25 tokens,
//! and there are fewer than 2^7 actions.

ghost use Rattle.std.specs.Prelude.{◌≡◌, ◌<◌, ◌^◌};
ghost use Rattle.frame_parser.specs.declared.note.TheConstants.{ACTIONS};
ghost use Rattle.frame_parser.specs.Notes.{action_of, event_of};

use frame_grammar::{Action, Event, TokenAt};

/// How many actions a note could tell from each other.
const MOST_ACTIONS: u32 = 128;

/// An event, as it is kept: in 32 bits.
#[derive(Clone, Copy, Debug, PartialEq, Eq)]
pub struct Note {
    /// The place, times 128, and the number of the action.
    word: u32,
}

/// The number of an action, counted from 0 in the order of `Action`.
fn number_of(action: Action) -> u32
    ensures number { action_of result ≡ action }
    ensures few { result < 128 }
{
    action as u32
}

// TO ADD A STATEMENT: 3, the actions that it adds, in the order of `Action`.

/// The actions in the order of their numbers, and after them the first one for each number that is left.
// Of so many that no number has to be compared with how many there are.
const ACTIONS: [Action; 128] = [
    Action::StartStatement,
    Action::OpenJob,
    Action::Name,
    Action::OpenBody,
    Action::CloseKernel,
    Action::OpenParallel,
    Action::Parameter,
    Action::IntParameter,
    Action::ReadParameter,
    Action::WriteParameter,
    Action::ReadWriteParameter,
    Action::ArrayContainer,
    Action::ListContainer,
    Action::RefContainer,
    Action::MapContainer,
    Action::StreamContainer,
    Action::Width,
    Action::Number,
    Action::OpenBlock,
    Action::CloseBlock,
    Action::VarStatement,
    Action::RemoveStatement,
    Action::ClearStatement,
    Action::WriteStatement,
    Action::BeginHead,
    Action::BeginStatement,
    Action::IfHead,
    Action::ForHead,
    Action::ForStatement,
    Action::WhileHead,
    Action::WhileStatement,
    Action::SetPlace,
    Action::SetName,
    Action::SetTryAdd,
    Action::SetRemove,
    Action::AddItem,
    Action::AddPair,
    Action::IfStatement,
    Action::IfElseStatement,
    Action::Operator,
    Action::Binary,
    Action::Unary,
    Action::NumberAtom,
    Action::StartAtom,
    Action::IndexAtom,
    Action::LenAtom,
    Action::HasAtom,
    Action::CountAtom,
    Action::AtAtom,
    Action::NameAtom,
    Action::PlaceAtom,
    Action::ArrayStatement,
    Action::Text,
    Action::ColumnStatement,
    Action::ListStatement,
    Action::ReferenceStatement,
    Action::MapStatement,
    Action::StreamStatement,
    Action::SliceStatement,
    Action::ViewStatement,
    Action::CopyStatement,
    Action::SetStatement,
    Action::AddToStatement,
    Action::PutStatement,
    Action::RemoveFromStatement,
    Action::ClearOutStatement,
    Action::SetCapacityStatement,
    Action::OpenArguments,
    Action::CloseArguments,
    Action::ScheduleStatement,
    Action::OpenNames,
    Action::CombineStatement,
    Action::CompleteStatement,
    Action::PrintStatement,
    Action::FlushStatement,
    Action::FrameStatement,
    Action::OpenRepeat,
    Action::RepeatStatement,
    Action::OpenWhen,
    Action::WhenStatement,
    Action::LifeNone,
    Action::LifeTemp,
    Action::LifeTempJob,
    Action::LifePersistent,
    Action::MinusNumber,
    Action::PlainNumber,
    Action::NoNumber,
    Action::NoValues,
    Action::OpenValues,
    Action::CloseValues,
    Action::NameArgument,
    Action::NumberArgument,
    Action::NotAuto,
    Action::Auto,
    Action::SizesNone,
    Action::SizesLength,
    Action::SizesDefer,
    Action::WaivedNone,
    Action::Waived,
    Action::AfterNone,
    Action::After,
    Action::DisposeAutoStatement,
    Action::DisposeStatement,
    Action::DisposeAfterStatement,
    Action::StartStatement,
    Action::StartStatement,
    Action::StartStatement,
    Action::StartStatement,
    Action::StartStatement,
    Action::StartStatement,
    Action::StartStatement,
    Action::StartStatement,
    Action::StartStatement,
    Action::StartStatement,
    Action::StartStatement,
    Action::StartStatement,
    Action::StartStatement,
    Action::StartStatement,
    Action::StartStatement,
    Action::StartStatement,
    Action::StartStatement,
    Action::StartStatement,
    Action::StartStatement,
    Action::StartStatement,
    Action::StartStatement,
    Action::StartStatement,
    Action::StartStatement,
    Action::StartStatement,
];

fn actions() -> &'static [Action]
    ensures { result.now ≡ ACTIONS }
{
    &ACTIONS
}

/// The action of a number; the first one where there are not so many.
#[inline(always)]
#[tactic(auto, unfolding(crate::specs::Notes::action_of))]
fn action_of(number: u32) -> Action
    requires { number < 128 }
    ensures { result ≡ action_of number }
{
    actions()[number as usize]
}

impl Note {
    /// The note of an event, whose place is below 2^25.
    #[inline(always)]
    pub fn of(action: Action, place: u32) -> Self
        requires { place < 2 ^ 25 }
        ensures { event_of result ≡ record { action = action; place = place } }
    {
        Note {
            word: place * MOST_ACTIONS + number_of(action),
        }
    }

    /// The event that it is the note of.
    #[inline(always)]
    pub fn event(self) -> Event
        ensures { result ≡ event_of self }
    {
        Event {
            action: action_of(self.word % MOST_ACTIONS),
            place: TokenAt::of(self.word / MOST_ACTIONS),
        }
    }
}

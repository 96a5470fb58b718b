//! Steps that the parser takes at once for the statements of a script, as those of `shortcuts`.
//!
//! Most lines of long scripts are short statements, whose first token is looked for among more than twenty.

ghost use Rattle.std.specs.Prelude.{◌≡◌, ◌<◌, ◌^◌, ℕ, List, Some, IfOk, IfSome};
ghost use Rattle.frame_grammar.specs.declared.symbols.Nonterminal.TheVariants as nonterminal;
ghost use Rattle.frame_grammar.specs.declared.symbols.Symbol.{Symbol};
ghost use Rattle.frame_grammar.specs.declared.symbols.Event.{Event};
ghost use Rattle.frame_parser.specs.Notes.{events_of};
ghost use Rattle.grammar_table.specs.StackSymbols.{standing};
ghost use Rattle.frame_parser.specs.Parser.{IsStep};
ghost use Rattle.grammar_table.specs.Predict.{predicted};
ghost use Rattle.frame_parser.specs.Shortcuts.{tells_life};

use crate::note::Note;
use crate::shortcuts::Step;
use crate::stack::{note, put};
use frame_grammar::{Action as A, Nonterminal as N, Production as P, TokenKind as K};
use grammar_table::StackSymbol::{self, Nonterminal, Terminal};
use grammar_table::push_rest;
use std::alloc::AllocError;

// TO ADD A STATEMENT: 4, its first token, here and in `choices` of grammar_table.

/// The production of the statements that begin with this token.
#[tactic(auto, unfolding(grammar_table::specs::Table::choices_of, grammar_table::specs::Predict::same_kind))]
fn statement_with(ahead: K) -> Option<P>
    ensures { IfSome result (λ production. predicted nonterminal.Statement ahead ≡ Some production) }
{
    match ahead {
        K::Array => Some(P::ArrayStatement),
        K::Column => Some(P::ColumnStatement),
        K::List => Some(P::ListStatement),
        K::Reference => Some(P::ReferenceStatement),
        K::Map => Some(P::MapStatement),
        K::Stream => Some(P::StreamStatement),
        K::Slice => Some(P::SliceStatement),
        K::View => Some(P::ViewStatement),
        K::Copy => Some(P::CopyStatement),
        K::Set => Some(P::SetStatement),
        K::Add => Some(P::AddToStatement),
        K::Put => Some(P::PutStatement),
        K::Remove => Some(P::RemoveFromStatement),
        K::Clear => Some(P::ClearOutStatement),
        K::SetCapacity => Some(P::SetCapacityStatement),
        K::Schedule => Some(P::ScheduleStatement),
        K::Combine => Some(P::CombineStatement),
        K::Complete => Some(P::CompleteStatement),
        K::Dispose => Some(P::DisposeStatement),
        K::Print => Some(P::PrintStatement),
        K::Flush => Some(P::FlushStatement),
        K::Frame => Some(P::FrameStatement),
        K::Repeat => Some(P::RepeatStatement),
        K::When => Some(P::WhenStatement),
        _ => None,
    }
}

pub fn statement(stack: &mut Vec<StackSymbol>, ahead: K) -> Result<Step, AllocError>
    ensures { IfOk result (λ step. (place : ℕ) (done : List Event) →
        IsStep step ahead place nonterminal.Statement done (standing stack.old.items) done (standing stack.new.items)) }
{
    match statement_with(ahead) {
        Some(production) => {
            push_rest(stack, production)?;
            Ok(Step::Took)
        }
        None => Ok(Step::Unknown),
    }
}

pub fn items(
    stack: &mut Vec<StackSymbol>,
    events: &mut Vec<Note>,
    ahead: K,
    place: u32,
) -> Result<Step, AllocError>
    requires { place < 2 ^ 25 }
    ensures { IfOk result (λ step. IsStep step ahead place nonterminal.Items (events_of events.old.items)
        (standing stack.old.items) (events_of events.new.items) (standing stack.new.items)) }
{
    match statement_with(ahead) {
        Some(production) => {
            note(events, A::StartStatement, place)?;
            put(stack, &[Nonterminal(N::AfterItem)])?;
            push_rest(stack, production)?;
            Ok(Step::Took)
        }
        None => Ok(Step::Unknown),
    }
}

pub fn after_item(stack: &mut Vec<StackSymbol>, ahead: K) -> Result<Step, AllocError>
    ensures { IfOk result (λ step. (place : ℕ) (done : List Event) →
        IsStep step ahead place nonterminal.AfterItem done (standing stack.old.items) done (standing stack.new.items)) }
{
    if ahead == K::Line {
        put(stack, &[Nonterminal(N::Items)])?;
        Ok(Step::Took)
    } else {
        Ok(Step::WentOn)
    }
}

pub fn signed(
    stack: &mut Vec<StackSymbol>,
    events: &mut Vec<Note>,
    ahead: K,
    place: u32,
) -> Result<Step, AllocError>
    requires { place < 2 ^ 25 }
    ensures { IfOk result (λ step. IsStep step ahead place nonterminal.Signed (events_of events.old.items)
        (standing stack.old.items) (events_of events.new.items) (standing stack.new.items)) }
{
    match ahead {
        K::Number => {
            note(events, A::Number, place)?;
            put(stack, &[StackSymbol::Action(A::PlainNumber)])?;
            Ok(Step::Took)
        }
        K::Minus => {
            note(events, A::Operator, place)?;
            put(
                stack,
                &[
                    StackSymbol::Action(A::MinusNumber),
                    Terminal(K::Number),
                    StackSymbol::Action(A::Number),
                ],
            )?;
            Ok(Step::Took)
        }
        _ => Ok(Step::Unknown),
    }
}

pub fn maybe_signed(
    stack: &mut Vec<StackSymbol>,
    events: &mut Vec<Note>,
    ahead: K,
    place: u32,
) -> Result<Step, AllocError>
    requires { place < 2 ^ 25 }
    ensures { IfOk result (λ step. IsStep step ahead place nonterminal.MaybeSigned (events_of events.old.items)
        (standing stack.old.items) (events_of events.new.items) (standing stack.new.items)) }
{
    match ahead {
        K::Number => {
            note(events, A::Number, place)?;
            put(stack, &[StackSymbol::Action(A::PlainNumber)])?;
            Ok(Step::Took)
        }
        _ => Ok(Step::Unknown),
    }
}

/// Whether a token tells how long a container lives.
fn tells_life(kind: K) -> bool
    ensures { result ≡ tells_life kind }
{
    matches!(kind, K::Temp | K::TempJob | K::Persistent)
}

pub fn life(events: &mut Vec<Note>, ahead: K, place: u32) -> Result<Step, AllocError>
    requires { place < 2 ^ 25 }
    ensures { IfOk result (λ step. (ss : List Symbol) →
        IsStep step ahead place nonterminal.Life (events_of events.old.items) ss (events_of events.new.items) ss) }
{
    if tells_life(ahead) {
        Ok(Step::Unknown)
    } else {
        note(events, A::LifeNone, place)?;
        Ok(Step::WentOn)
    }
}

pub fn array_values(events: &mut Vec<Note>, ahead: K, place: u32) -> Result<Step, AllocError>
    requires { place < 2 ^ 25 }
    ensures { IfOk result (λ step. (ss : List Symbol) → IsStep step ahead place nonterminal.ArrayValues
        (events_of events.old.items) ss (events_of events.new.items) ss) }
{
    if ahead == K::Assign {
        Ok(Step::Unknown)
    } else {
        note(events, A::NoValues, place)?;
        Ok(Step::WentOn)
    }
}

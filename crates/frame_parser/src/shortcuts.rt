//! Steps that the parser takes at once: several productions and actions, or one that derives nothing. Each does what
//! the table says.
//!
//! Most tokens of long files are such ones: assignments and expressions in kernels, the values of arrays. To look up
//! their productions, and to push and pop all symbols between, costs twice as much. What a step puts on the stack
//! stands here from the bottom up.

ghost use Rattle.std.specs.Prelude.{◌≡◌, ◌<◌, ◌^◌, ℕ, List, IfOk};
ghost use Rattle.frame_grammar.specs.declared.token_kind.TokenKind.{TokenKind};
ghost use Rattle.frame_grammar.specs.declared.symbols.Nonterminal.TheVariants as nonterminal;
ghost use Rattle.frame_grammar.specs.declared.symbols.Event.{Event};
ghost use Rattle.frame_parser.specs.Notes.{events_of};
ghost use Rattle.grammar_table.specs.StackSymbols.{standing};
ghost use Rattle.frame_parser.specs.Shortcuts.{begins_effect};
ghost use Rattle.frame_parser.specs.Parser.{IsStep};

use crate::levels::{compared, expression, more_and, more_factors, more_or, more_terms, term};
use crate::note::Note;
use crate::operands::{Expected, Side};
use crate::stack::{note, note_both, put};
use crate::statements::{after_item, array_values, items, life, maybe_signed, signed, statement};
use frame_grammar::{Action as A, Nonterminal as N, TokenKind as K};
use grammar_table::StackSymbol::{self, LinedAction, LinedNonterminal, Nonterminal, Terminal};
use std::alloc::AllocError;

/// What was done with the nonterminal that was on top of the stack.
#[derive(Clone, Copy, Debug, PartialEq, Eq)]
pub enum Step {
    /// It begins with the token ahead, which is taken.
    Took,
    /// The same, and this is to come behind the token. It isn't on the stack.
    TookBefore(Expected),
    /// It went on by productions and actions, and took no token.
    WentOn,
    /// Nothing: the table has to tell.
    Unknown,
}

// Steps of each nonterminal

fn lines(stack: &mut Vec<StackSymbol>, ahead: K) -> Result<Step, AllocError>
    ensures { IfOk result (λ step. (place : ℕ) (done : List Event) →
        IsStep step ahead place nonterminal.Lines done (standing stack.old.items) done (standing stack.new.items)) }
{
    if ahead == K::Line {
        put(stack, &[Nonterminal(N::Lines)])?;
        Ok(Step::Took)
    } else {
        Ok(Step::WentOn)
    }
}

fn statements(
    stack: &mut Vec<StackSymbol>,
    events: &mut Vec<Note>,
    ahead: K,
    place: u32,
) -> Result<Step, AllocError>
    requires { place < 2 ^ 25 }
    ensures { IfOk result (λ step. IsStep step ahead place nonterminal.Statements (events_of events.old.items)
        (standing stack.old.items) (events_of events.new.items) (standing stack.new.items)) }
{
    match ahead {
        K::Name => {
            note_both(events, A::StartStatement, A::Name, place)?;
            put(
                stack,
                &[LinedNonterminal(N::Statements), Terminal(K::Semicolon)],
            )?;
            Ok(Step::TookBefore(Expected::Target))
        }
        _ => Ok(Step::Unknown),
    }
}

fn target(stack: &mut Vec<StackSymbol>, ahead: K) -> Result<Step, AllocError>
    ensures { IfOk result (λ step. (place : ℕ) (done : List Event) →
        IsStep step ahead place nonterminal.Target done (standing stack.old.items) done (standing stack.new.items)) }
{
    match ahead {
        K::Assign => Ok(Step::TookBefore(Expected::Side(Side::Value))),
        K::OpenBracket => {
            put(
                stack,
                &[
                    StackSymbol::Action(A::SetPlace),
                    LinedNonterminal(N::Expression),
                    Terminal(K::Assign),
                    Nonterminal(N::Lines),
                    Terminal(K::CloseBracket),
                ],
            )?;
            Ok(Step::TookBefore(Expected::Side(Side::Expression)))
        }
        _ => Ok(Step::Unknown),
    }
}

fn begins_effect(kind: K) -> bool
    ensures { result ≡ begins_effect kind }
{
    matches!(kind, K::TryAdd | K::Remove)
}

// What is assigned to a name: an expression, or what an effect answers.
fn value(stack: &mut Vec<StackSymbol>, ahead: K) -> Result<Step, AllocError>
    ensures { IfOk result (λ step. (place : ℕ) (done : List Event) →
        IsStep step ahead place nonterminal.Value done (standing stack.old.items) done (standing stack.new.items)) }
{
    if begins_effect(ahead) {
        return Ok(Step::Unknown);
    }
    put(
        stack,
        &[
            StackSymbol::Action(A::SetName),
            StackSymbol::AfterFactor,
            Nonterminal(N::Unary),
        ],
    )?;
    Ok(Step::WentOn)
}

fn operand(
    stack: &mut Vec<StackSymbol>,
    events: &mut Vec<Note>,
    ahead: K,
    place: u32,
) -> Result<Step, AllocError>
    requires { place < 2 ^ 25 }
    ensures { IfOk result (λ step. IsStep step ahead place nonterminal.Unary (events_of events.old.items)
        (standing stack.old.items) (events_of events.new.items) (standing stack.new.items)) }
{
    match ahead {
        K::Name => {
            note_both(events, A::StartAtom, A::Name, place)?;
            Ok(Step::TookBefore(Expected::Place))
        }
        K::Number => {
            note(events, A::Number, place)?;
            put(stack, &[LinedAction(A::NumberAtom)])?;
            Ok(Step::Took)
        }
        K::Index => {
            note(events, A::StartAtom, place)?;
            put(stack, &[LinedAction(A::IndexAtom)])?;
            Ok(Step::Took)
        }
        K::OpenParen => {
            put(stack, &[Nonterminal(N::Lines), Terminal(K::CloseParen)])?;
            Ok(Step::TookBefore(Expected::Side(Side::Expression)))
        }
        _ => Ok(Step::Unknown),
    }
}

// What may stand after the name of an operand.
fn place_of_name(
    stack: &mut Vec<StackSymbol>,
    events: &mut Vec<Note>,
    ahead: K,
    place: u32,
) -> Result<Step, AllocError>
    requires { place < 2 ^ 25 }
    ensures { IfOk result (λ step. IsStep step ahead place nonterminal.Place (events_of events.old.items)
        (standing stack.old.items) (events_of events.new.items) (standing stack.new.items)) }
{
    if ahead == K::OpenBracket {
        put(
            stack,
            &[LinedAction(A::PlaceAtom), Terminal(K::CloseBracket)],
        )?;
        Ok(Step::TookBefore(Expected::Side(Side::Expression)))
    } else {
        note(events, A::NameAtom, place)?;
        Ok(Step::WentOn)
    }
}

fn more_values(
    stack: &mut Vec<StackSymbol>,
    events: &mut Vec<Note>,
    ahead: K,
    place: u32,
) -> Result<Step, AllocError>
    requires { place < 2 ^ 25 }
    ensures { IfOk result (λ step. IsStep step ahead place nonterminal.MoreValues (events_of events.old.items)
        (standing stack.old.items) (events_of events.new.items) (standing stack.new.items)) }
{
    match ahead {
        K::Number => {
            note(events, A::Number, place)?;
            put(
                stack,
                &[
                    Nonterminal(N::MoreValues),
                    StackSymbol::Action(A::PlainNumber),
                ],
            )?;
            Ok(Step::Took)
        }
        K::Minus => {
            note(events, A::Operator, place)?;
            put(
                stack,
                &[
                    Nonterminal(N::MoreValues),
                    StackSymbol::Action(A::MinusNumber),
                    Terminal(K::Number),
                    StackSymbol::Action(A::Number),
                ],
            )?;
            Ok(Step::Took)
        }
        _ => Ok(Step::Unknown),
    }
}

/// Goes on with a nonterminal that was on top of the stack, where what it does before the token ahead is known.
pub fn known_step(
    stack: &mut Vec<StackSymbol>,
    events: &mut Vec<Note>,
    nonterminal: N,
    ahead: K,
    place: u32,
) -> Result<Step, AllocError>
    requires { place < 2 ^ 25 }
    ensures { IfOk result (λ step. IsStep step ahead place nonterminal (events_of events.old.items)
        (standing stack.old.items) (events_of events.new.items) (standing stack.new.items)) }
{
    match nonterminal {
        N::Lines => lines(stack, ahead),
        N::Statements => statements(stack, events, ahead, place),
        N::Target => target(stack, ahead),
        N::Expression => expression(stack),
        N::Value => value(stack, ahead),
        N::Term => term(stack),
        N::Unary => operand(stack, events, ahead, place),
        N::Place => place_of_name(stack, events, ahead, place),
        N::MoreTerm => more_factors(stack, events, ahead, place),
        N::MoreSum => more_terms(stack, events, ahead, place),
        N::Compared => Ok(compared(ahead)),
        N::MoreAnd => Ok(more_and(ahead)),
        N::MoreOr => Ok(more_or(ahead)),
        N::MoreValues => more_values(stack, events, ahead, place),
        N::Items => items(stack, events, ahead, place),
        N::AfterItem => after_item(stack, ahead),
        N::Statement => statement(stack, ahead),
        N::Signed => signed(stack, events, ahead, place),
        N::MaybeSigned => maybe_signed(stack, events, ahead, place),
        N::Life => life(events, ahead, place),
        N::ArrayValues => array_values(events, ahead, place),
        _ => Ok(Step::Unknown),
    }
}

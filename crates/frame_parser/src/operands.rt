//! Operands that are taken at once, with what stands before them: the side of an operator or of an assignment begins
//! with a name, a number or `index`, and behind a name mostly stands `[index]`.
//!
//! What is to come behind the token that was taken isn't put on the stack before it is known whether the next tokens
//! are such ones, and most of what would wait there is never put.

ghost use Rattle.std.specs.Prelude.{◌≡◌, ◌≤◌, ◌<◌, ◌^◌, ◌++◌, map, length, slice_get, IfOk};
ghost use Rattle.frame_parser.specs.Notes.{events_of};
ghost use Rattle.frame_parser.specs.Operands.{nonterminal_of, to_come, behind_of};
ghost use Rattle.frame_parser.specs.Parser.{TakesOn};
ghost use Rattle.grammar_table.specs.StackSymbols.{standing};

use crate::note::Note;
use crate::phrases::note_at;
use crate::stack::{note, note_both, put};
use frame_grammar::{Action as A, HasKind, Nonterminal as N, TokenKind as K};
use grammar_table::StackSymbol::{self, LinedAction, LinedNonterminal};
use known_lines::are_at;
use std::alloc::AllocError;

/// A side of an operator or of an assignment, which begins with an operand.
#[derive(Clone, Copy, Debug, PartialEq, Eq)]
pub enum Side {
    /// Behind an operator of a term.
    Factor,
    /// Behind an operator of a sum.
    Term,
    /// A whole expression.
    Expression,
    /// What is assigned to a name.
    Value,
}

/// What is to come behind the token that was taken, and behind line ends. It isn't on the stack.
#[derive(Clone, Copy, Debug, PartialEq, Eq)]
pub enum Expected {
    /// What may follow the name of an operand.
    Place,
    /// What follows the name that a statement begins with.
    Target,
    Side(Side),
}

/// `[index]`
const INDEX: [K; 3] = [K::OpenBracket, K::Index, K::CloseBracket];

/// `[index] =`
const INDEX_ASSIGN: [K; 4] = [K::OpenBracket, K::Index, K::CloseBracket, K::Assign];

/// What is noted of both before the token behind them.
const INDEX_NOTES: [(A, u32); 2] = [(A::StartAtom, 1), (A::IndexAtom, 2)];

fn nonterminal_of(expected: Expected) -> N
    ensures { result ≡ nonterminal_of expected }
{
    match expected {
        Expected::Place => N::Place,
        Expected::Target => N::Target,
        Expected::Side(Side::Factor) => N::Unary,
        Expected::Side(Side::Term) => N::Term,
        Expected::Side(Side::Expression) => N::Expression,
        Expected::Side(Side::Value) => N::Value,
    }
}

// Nothing of it is taken at once: it waits on the stack.
fn put_expected(stack: &mut Vec<StackSymbol>, expected: Expected) -> Result<(), AllocError>
    ensures { IfOk result (λ _. standing stack.new.items ≡ to_come expected ++ standing stack.old.items) }
{
    put(stack, &[LinedNonterminal(nonterminal_of(expected))])
}

// What waits behind the operand that a side begins with.
#[inline(always)]
fn put_behind(stack: &mut Vec<StackSymbol>, side: Side) -> Result<(), AllocError>
    ensures { IfOk result (λ _. standing stack.new.items ≡ behind_of side ++ standing stack.old.items) }
{
    match side {
        Side::Factor => Ok(()),
        Side::Term => put(stack, &[StackSymbol::Nonterminal(N::MoreTerm)]),
        Side::Expression => put(stack, &[StackSymbol::AfterFactor]),
        Side::Value => put(
            stack,
            &[StackSymbol::Action(A::SetName), StackSymbol::AfterFactor],
        ),
    }
}

// The kind of the token at a place.
#[inline(always)]
fn kind_at<T: HasKind>(tokens: &[T], place: usize) -> Option<K>
    ensures { result ≡ slice_get (map T.kind_of tokens.now) place }
{
    match tokens.get(place) {
        Some(token) => Some(token.kind()),
        None => None,
    }
}

// Goes on behind the name of an operand.
#[inline(always)]
fn after_name<T: HasKind>(
    stack: &mut Vec<StackSymbol>,
    events: &mut Vec<Note>,
    tokens: &[T],
    from: usize,
) -> Result<usize, AllocError>
    requires within { from ≤ length tokens.now }
    requires few { length tokens.now < 2 ^ 25 }
    ensures { IfOk result (λ place. TakesOn (map T.kind_of tokens.now) from place
        (events_of events.old.items) (to_come Expected.Place ++ standing stack.old.items)
        (events_of events.new.items) (standing stack.new.items)) }
{
    if are_at(&INDEX, tokens, from) {
        note_at(events, &INDEX_NOTES, from as u32)?;
        put(stack, &[LinedAction(A::PlaceAtom)])?;
        Ok(from + INDEX.len())
    } else {
        put_expected(stack, Expected::Place)?;
        Ok(from)
    }
}

// Goes on with a side.
#[inline(always)]
fn take_side<T: HasKind>(
    stack: &mut Vec<StackSymbol>,
    events: &mut Vec<Note>,
    tokens: &[T],
    from: usize,
    side: Side,
) -> Result<usize, AllocError>
    requires within { from ≤ length tokens.now }
    requires few { length tokens.now < 2 ^ 25 }
    ensures { IfOk result (λ place. TakesOn (map T.kind_of tokens.now) from place
        (events_of events.old.items) (to_come (Expected.Side side) ++ standing stack.old.items)
        (events_of events.new.items) (standing stack.new.items)) }
{
    match kind_at(tokens, from) {
        Some(K::Name) => {
            put_behind(stack, side)?;
            note_both(events, A::StartAtom, A::Name, from as u32)?;
            after_name(stack, events, tokens, from + 1)
        }
        Some(K::Number) => {
            put_behind(stack, side)?;
            note(events, A::Number, from as u32)?;
            put(stack, &[LinedAction(A::NumberAtom)])?;
            Ok(from + 1)
        }
        Some(K::Index) => {
            put_behind(stack, side)?;
            note(events, A::StartAtom, from as u32)?;
            put(stack, &[LinedAction(A::IndexAtom)])?;
            Ok(from + 1)
        }
        _ => {
            put_expected(stack, Expected::Side(side))?;
            Ok(from)
        }
    }
}

// Goes on behind the name that a statement begins with.
#[inline(always)]
fn take_target<T: HasKind>(
    stack: &mut Vec<StackSymbol>,
    events: &mut Vec<Note>,
    tokens: &[T],
    from: usize,
) -> Result<usize, AllocError>
    requires within { from ≤ length tokens.now }
    requires few { length tokens.now < 2 ^ 25 }
    ensures { IfOk result (λ place. TakesOn (map T.kind_of tokens.now) from place
        (events_of events.old.items) (to_come Expected.Target ++ standing stack.old.items)
        (events_of events.new.items) (standing stack.new.items)) }
{
    match kind_at(tokens, from) {
        Some(K::Assign) => take_side(stack, events, tokens, from + 1, Side::Value),
        Some(K::OpenBracket) if are_at(&INDEX_ASSIGN, tokens, from) => {
            note_at(events, &INDEX_NOTES, from as u32)?;
            put(stack, &[StackSymbol::Action(A::SetPlace)])?;
            let side = from + INDEX_ASSIGN.len();
            take_side(stack, events, tokens, side, Side::Expression)
        }
        _ => {
            put_expected(stack, Expected::Target)?;
            Ok(from)
        }
    }
}

/// Goes on with what is to come: takes the tokens from a place on that are known, and puts on the stack what is to come
/// then. Answers the place after them.
#[inline(never)]
pub fn take_expected<T: HasKind>(
    stack: &mut Vec<StackSymbol>,
    events: &mut Vec<Note>,
    tokens: &[T],
    from: usize,
    expected: Expected,
) -> Result<usize, AllocError>
    requires within { from ≤ length tokens.now }
    requires few { length tokens.now < 2 ^ 25 }
    ensures { IfOk result (λ place. TakesOn (map T.kind_of tokens.now) from place
        (events_of events.old.items) (to_come expected ++ standing stack.old.items)
        (events_of events.new.items) (standing stack.new.items)) }
{
    match expected {
        Expected::Place => after_name(stack, events, tokens, from),
        Expected::Target => take_target(stack, events, tokens, from),
        Expected::Side(side) => take_side(stack, events, tokens, from, side),
    }
}

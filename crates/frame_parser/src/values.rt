//! The values of an array, which are taken one after another in a loop of their own: an array may have a million.
//!
//! Where a value is whole, the next token is a value's too, or ends them. So it is enough to know how far a value is
//! read, and the parser's stack may rest.

ghost use Rattle.std.specs.Prelude.{true, ◌≡◌, ◌-◌, ◌<◌, ◌≤◌, ◌^◌, List, [], ◌∷◌, ◌++◌, length, map, slice_get, Some, IfOk, IfSome, MatchOption};
ghost use Rattle.frame_grammar.specs.declared.symbols.Nonterminal.TheVariants.{MoreValues};
ghost use Rattle.frame_grammar.specs.declared.symbols.Symbol.{Symbol};
ghost use Rattle.frame_grammar.specs.declared.symbols.Symbol.TheVariants as symbol;
ghost use Rattle.frame_parser.specs.Notes.{events_of};
ghost use Rattle.grammar_table.specs.Stack.{Takes};
ghost use Rattle.frame_parser.specs.Values.{ended_by, next_value, are_values, value_after, rest_of, in_values, TakesValues};
ghost use Rattle.grammar_table.specs.StackSymbols.{standing};

use crate::note::Note;
use crate::stack::{note, note_both, put};
use frame_grammar::{Action as A, HasKind, Nonterminal as N, TokenKind as K};
use grammar_table::StackSymbol;
use std::alloc::AllocError;

/// How far a value is read.
#[derive(Clone, Copy, Debug, PartialEq, Eq)]
pub enum Value {
    /// Its `-`.
    Sign,
    /// All of it, and it has no `-`.
    Plain,
    /// All of it, and it has a `-`.
    Negative,
}

// The value that is whole with an action.
fn ended_by(action: A) -> Option<Value>
    ensures value { result ≡ ended_by action }
    ensures rest { IfSome result (λ value. rest_of value ≡ symbol.Action action ∷ []) }
{
    match action {
        A::PlainNumber => Some(Value::Plain),
        A::MinusNumber => Some(Value::Negative),
        _ => None,
    }
}

// Takes the token ahead behind a value that is read so far, if it is of this value or of one after it. Answers how far
// that one is read then.
#[inline(always)]
fn take_part(
    events: &mut Vec<Note>,
    value: Value,
    ahead: K,
    place: u32,
) -> Result<Option<Value>, AllocError>
    requires { place < 2 ^ 25 }
    ensures next { IfOk result (λ next. next ≡ next_value value ahead) }
    ensures taken { IfOk result (λ next. MatchOption next (events_of events.new.items ≡ events_of events.old.items)
        (λ next. (ss : List Symbol) → Takes ahead place (events_of events.old.items) (in_values value ss)
        (events_of events.new.items) (in_values next ss))) }
{
    match (value, ahead) {
        (Value::Sign, K::Number) => {
            note(events, A::Number, place)?;
            Ok(Some(Value::Negative))
        }
        (Value::Plain, K::Number) => {
            note_both(events, A::PlainNumber, A::Number, place)?;
            Ok(Some(Value::Plain))
        }
        (Value::Plain, K::Minus) => {
            note_both(events, A::PlainNumber, A::Operator, place)?;
            Ok(Some(Value::Sign))
        }
        (Value::Negative, K::Number) => {
            note_both(events, A::MinusNumber, A::Number, place)?;
            Ok(Some(Value::Plain))
        }
        (Value::Negative, K::Minus) => {
            note_both(events, A::MinusNumber, A::Operator, place)?;
            Ok(Some(Value::Sign))
        }
        _ => Ok(None),
    }
}

// Whether values of an array are what is on top of the stack.
fn has_values_on_top(stack: &[StackSymbol]) -> bool
    ensures { result ≡ are_values (slice_get stack.now (length stack.now - 1)) }
{
    match stack.last().copied() {
        Some(StackSymbol::Nonterminal(N::MoreValues)) => true,
        _ => false,
    }
}

/// Takes the token ahead, if it is of a value behind the one that is whole with this action, which was on top of the
/// stack. Answers how far the value is read then, whose rest isn't on the stack.
pub fn take_next_value(
    stack: &[StackSymbol],
    events: &mut Vec<Note>,
    action: A,
    ahead: K,
    place: u32,
) -> Result<Option<Value>, AllocError>
    requires { place < 2 ^ 25 }
    ensures next { IfOk result (λ next.
        next ≡ value_after (slice_get stack.now (length stack.now - 1)) (ended_by action) ahead) }
    ensures taken { IfOk result (λ next. MatchOption next (events_of events.new.items ≡ events_of events.old.items)
        (λ next. (ss : List Symbol) × (standing stack.now ≡ symbol.Nonterminal MoreValues ∷ ss)
        × Takes ahead place (events_of events.old.items) (symbol.Action action ∷ standing stack.now)
        (events_of events.new.items) (in_values next ss))) }
{
    match ended_by(action) {
        Some(value) if has_values_on_top(stack) => take_part(events, value, ahead, place),
        _ => Ok(None),
    }
}

// Puts on the stack what is still to come of a value.
fn put_rest(stack: &mut Vec<StackSymbol>, value: Value) -> Result<(), AllocError>
    ensures { IfOk result (λ _. standing stack.new.items ≡ rest_of value ++ standing stack.old.items) }
{
    match value {
        Value::Sign => put(
            stack,
            &[
                StackSymbol::Action(A::MinusNumber),
                StackSymbol::Terminal(K::Number),
                StackSymbol::Action(A::Number),
            ],
        ),
        Value::Plain => put(stack, &[StackSymbol::Action(A::PlainNumber)]),
        Value::Negative => put(stack, &[StackSymbol::Action(A::MinusNumber)]),
    }
}

/// Takes the tokens from a place on that are of values, behind a value that is read so far and whose rest isn't on the
/// stack. Answers the place after them; what is still to come of the last value is on the stack then.
#[inline(never)]
pub fn take_values<T: HasKind>(
    stack: &mut Vec<StackSymbol>,
    events: &mut Vec<Note>,
    tokens: &[T],
    from: usize,
    first: Value,
) -> Result<usize, AllocError>
    requires within { from ≤ length tokens.now }
    requires few { length tokens.now < 2 ^ 25 }
    ensures { IfOk result (λ place. (last : Value)
        × TakesValues (map T.kind_of tokens.now) from place first last (events_of events.old.items)
        (events_of events.new.items)
        × (standing stack.new.items ≡ rest_of last ++ standing stack.old.items)) }
{
    let mut value = first;
    let mut place = from;
    while place < tokens.len() {
        match take_part(events, value, tokens[place].kind(), place as u32)? {
            Some(next) => {
                value = next;
                place += 1;
            }
            None => break,
        }
    }
    put_rest(stack, value)?;
    Ok(place)
}

//! A predictive parser with a stack of its own.

ghost use Rattle.std.specs.Prelude.{true, Some, slice_get, ◌≡◌, ◌-◌, ℕ, ◌<◌, ◌^◌, length, map, IfOk, MatchOption};
ghost use Rattle.frame_grammar.specs.declared.symbols.Nonterminal.TheVariants.{Items};
ghost use Rattle.grammar_table.specs.declared.stack_symbol.StackSymbol.TheVariants as waiting;
ghost use Rattle.frame_grammar.specs.Sentences.{IsStart, IsEnded, IsOnlySentence, IsFault};
ghost use Rattle.frame_parser.specs.Notes.{events_of};
ghost use Rattle.grammar_table.specs.StackSymbols.{standing};
ghost use Rattle.frame_parser.specs.Parser.{StopsFrom, TakesFrom};
ghost use Rattle.frame_parser.specs.Values.{IsTaken};

use crate::levels::{after_factor, after_term};
use crate::lines::take_lines;
use crate::note::Note;
use crate::operands::{Expected, take_expected};
use crate::shortcuts::{Step, known_step};
use crate::values::{Value, take_next_value, take_values};
use frame_grammar::{HasKind, Nonterminal, TokenAt, TokenKind};
use grammar_table::{StackSymbol, predict, push_body, takes_line};
use std::alloc::{AllocError, AllocFailed, Global};

/// A sentence that tokens begin with.
#[derive(Debug, Drop)]
pub struct Sentence {
    /// The actions of its derivation, in their order.
    pub events: Vec<Note>,
    /// How many tokens it has.
    pub read: u32,
}

/// Why tokens begin with no sentence.
#[derive(Clone, Copy, Debug, PartialEq, Eq)]
pub enum ParseError {
    /// There is no memory.
    Memory,
    /// The token at this place is the first that no sentence has there.
    Syntax(TokenAt),
}

impl From<AllocError> for ParseError {
    ghost use Rattle.frame_parser.specs.declared.parser.ParseError.TheVariants.{Memory};

    ghost from_gives = { λ _ e. e ≡ Memory };

    fn from(_error: AllocError) -> Self {
        ParseError::Memory
    }
}

impl<T: Drop> From<AllocFailed<T>> for ParseError {
    ghost use Rattle.frame_parser.specs.declared.parser.ParseError.TheVariants.{Memory};

    ghost from_gives = { λ _ e. e ≡ Memory };

    fn from(_error: AllocFailed<T>) -> Self {
        ParseError::Memory
    }
}

/// What was done with the token ahead.
#[derive(Clone, Copy, Debug, PartialEq, Eq)]
enum Taken {
    /// Nothing: no sentence has it there.
    None,
    Token,
    /// The same, and this is to come behind it. It isn't on the stack.
    Before(Expected),
    /// It is of a value of an array, which is read so far. Its rest isn't on the stack.
    Value(Value),
}

/// Goes on by productions until the token ahead is on top of the stack, and takes it. Says whether it could.
fn advance(
    stack: &mut Vec<StackSymbol>,
    events: &mut Vec<Note>,
    ahead: TokenKind,
    place: u32,
) -> Result<Taken, AllocError>
    requires { place < 2 ^ 25 }
    ensures { IfOk result (λ taken. IsTaken taken ahead place (events_of events.old.items) (standing stack.old.items)
        (events_of events.new.items) (standing stack.new.items)) }
{
    while let Some(next) = stack.pop() {
        if takes_line(next, ahead) {
            stack.push(next)?;
            return Ok(Taken::Token);
        }
        match next {
            StackSymbol::Terminal(kind) => {
                if kind == ahead {
                    return Ok(Taken::Token);
                }
                return Ok(Taken::None);
            }
            StackSymbol::Action(action) | StackSymbol::LinedAction(action) => {
                if let Some(value) = take_next_value(stack, events, action, ahead, place)? {
                    return Ok(Taken::Value(value));
                }
                events.push(Note::of(action, place))?;
            }
            StackSymbol::Nonterminal(nonterminal) | StackSymbol::LinedNonterminal(nonterminal) => {
                match known_step(stack, events, nonterminal, ahead, place)? {
                    Step::Took => return Ok(Taken::Token),
                    Step::TookBefore(expected) => return Ok(Taken::Before(expected)),
                    Step::WentOn => {}
                    Step::Unknown => match predict(nonterminal, ahead) {
                        None => return Ok(Taken::None),
                        Some(production) => {
                            push_body(stack, production)?;
                        }
                    },
                }
            }
            StackSymbol::AfterFactor => {
                if let Some(expected) = after_factor(stack, events, ahead, place)? {
                    return Ok(Taken::Before(expected));
                }
            }
            StackSymbol::AfterTerm => {
                if let Some(expected) = after_term(stack, events, ahead, place)? {
                    return Ok(Taken::Before(expected));
                }
            }
        }
    }
    Ok(Taken::None)
}

/// Takes the token at a place, and those after it that are taken at once: what is to come behind it, or the values of
/// an array after its first. Answers the place of the next token, or none where no sentence has the token there.
fn take_from<T: HasKind>(
    stack: &mut Vec<StackSymbol>,
    events: &mut Vec<Note>,
    tokens: &[T],
    place: usize,
) -> Result<Option<usize>, AllocError>
    requires within { place < length tokens.now }
    requires few { length tokens.now < 2 ^ 25 }
    ensures { IfOk result (λ next. MatchOption next
        (StopsFrom (map T.kind_of tokens.now) place (events_of events.old.items) (standing stack.old.items))
        (λ next. TakesFrom (map T.kind_of tokens.now) place next (events_of events.old.items)
        (standing stack.old.items) (events_of events.new.items) (standing stack.new.items))) }
{
    match advance(stack, events, tokens[place].kind(), place as u32)? {
        Taken::None => Ok(None),
        Taken::Token => Ok(Some(place + 1)),
        Taken::Before(expected) => {
            let next = take_expected(stack, events, tokens, place + 1, expected)?;
            Ok(Some(next))
        }
        Taken::Value(value) => {
            let next = take_values(stack, events, tokens, place + 1, value)?;
            Ok(Some(next))
        }
    }
}

// Whether items of a file are next, and stand in no block. Within kernels the stack is never so low.
#[inline(always)]
fn is_at_items(stack: &[StackSymbol]) -> bool
    ensures { result ≡ true → slice_get stack.now (length stack.now - 1) ≡ Some (waiting.Nonterminal Items) }
{
    if stack.len() > 2 {
        return false;
    }
    match stack.last().copied() {
        Some(StackSymbol::Nonterminal(Nonterminal::Items)) => true,
        _ => false,
    }
}

/// The sentence of the start symbol that the tokens begin with.
///
/// A whole file is all of the tokens, since no other token of it is `End`. A kernel is as many as it
/// takes. The tokens may be of any type that has a kind.
pub fn parse<T: HasKind>(
    alloc: Global,
    start: Nonterminal,
    tokens: &[T],
) -> Result<Sentence, ParseError>
    requires start { IsStart start }
    requires few { length tokens.now < 2 ^ 25 }
    requires ended { IsEnded (map T.kind_of tokens.now) }
    ensures sentence { IfOk result
        (λ found. IsOnlySentence start (map T.kind_of tokens.now) found.read (events_of found.events.items)) }
    ensures fault { (place : ℕ) → result ≡ Err (ParseError.Syntax place) →
        IsFault start (map T.kind_of tokens.now) place }
{
    let mut stack = Vec::new(alloc);
    stack.push(StackSymbol::Nonterminal(start))?;
    let mut events = Vec::new(alloc);
    let mut place = 0;
    while place < tokens.len() {
        let Some(next) = take_from(&mut stack, &mut events, tokens, place)? else {
            return Err(ParseError::Syntax(TokenAt::of(place as u32)));
        };
        place = next;
        if stack.is_empty() {
            return Ok(Sentence {
                events,
                read: place as u32,
            });
        }
        if is_at_items(&stack) {
            place = take_lines(&mut events, tokens, place)?;
        }
    }
    unreachable!()
}

//! Steps of the parser in expressions: a part at each level, and what may follow it there.

ghost use Rattle.std.specs.Prelude.{◌≡◌, ℕ, ◌<◌, ◌^◌, List, ◌∷◌, ◌++◌, [], IfOk};
ghost use Rattle.frame_grammar.specs.declared.token_kind.TokenKind.{TokenKind};
ghost use Rattle.frame_grammar.specs.declared.symbols.Action.TheVariants as action;
ghost use Rattle.frame_grammar.specs.declared.symbols.Nonterminal.TheVariants as nonterminal;
ghost use Rattle.frame_grammar.specs.declared.symbols.Symbol.{Symbol};
ghost use Rattle.frame_grammar.specs.declared.symbols.Event.{Event};
ghost use Rattle.grammar_table.specs.declared.stack_symbol.StackSymbol.TheVariants as waiting;
ghost use Rattle.frame_parser.specs.Notes.{events_of};
ghost use Rattle.frame_parser.specs.Parser.{IsStep, IsPart};
ghost use Rattle.frame_parser.specs.Shortcuts.{multiplies, adds, compares, is_and_or, joins};
ghost use Rattle.grammar_table.specs.StackSymbols.{standing, symbols_of};

use crate::note::Note;
use crate::operands::{Expected, Side};
use crate::shortcuts::Step;
use crate::stack::{note, put};
use frame_grammar::{Action as A, Nonterminal as N, TokenKind as K};
use grammar_table::StackSymbol::{self, Nonterminal};
use std::alloc::AllocError;

// The operators of each level

fn multiplies(kind: K) -> bool
    ensures { result ≡ multiplies kind }
{
    matches!(kind, K::Star | K::Slash | K::Percent)
}

fn adds(kind: K) -> bool
    ensures { result ≡ adds kind }
{
    matches!(kind, K::Plus | K::Minus)
}

fn compares(kind: K) -> bool
    ensures { result ≡ compares kind }
{
    matches!(
        kind,
        K::Equal | K::NotEqual | K::Less | K::LessEqual | K::Greater | K::GreaterEqual
    )
}

fn is_and_or(kind: K) -> bool
    ensures { result ≡ is_and_or kind }
{
    matches!(kind, K::AndAnd | K::OrOr)
}

// Operators of the levels above a sum.
fn joins(kind: K) -> bool
    ensures { result ≡ joins kind }
{
    compares(kind) || is_and_or(kind)
}

// Takes an operator. Behind its right side, which is to come, waits what may follow the whole.
#[inline(always)]
fn take_operator(
    stack: &mut Vec<StackSymbol>,
    events: &mut Vec<Note>,
    more: StackSymbol,
    place: u32,
) -> Result<(), AllocError>
    requires { place < 2 ^ 25 }
    ensures events { IfOk result (λ _. events_of events.new.items ≡ events_of events.old.items
        ++ record { action = action.Operator; place = place } ∷ []) }
    ensures stack { IfOk result (λ _. stack.new.items ≡ stack.old.items
        ++ more ∷ waiting.Action action.Binary ∷ []) }
{
    note(events, A::Operator, place)?;
    put(stack, &[more, StackSymbol::Action(A::Binary)])
}

// Steps of each nonterminal

// Goes through all levels, since no token decides between them.
pub fn expression(stack: &mut Vec<StackSymbol>) -> Result<Step, AllocError>
    ensures { IfOk result (λ step. (ahead : TokenKind) (place : ℕ) (done : List Event) →
        IsStep step ahead place nonterminal.Expression done (standing stack.old.items)
        done (standing stack.new.items)) }
{
    put(stack, &[StackSymbol::AfterFactor, Nonterminal(N::Unary)])?;
    Ok(Step::WentOn)
}

// A term begins with a factor, whatever token is ahead.
pub fn term(stack: &mut Vec<StackSymbol>) -> Result<Step, AllocError>
    ensures { IfOk result (λ step. (ahead : TokenKind) (place : ℕ) (done : List Event) →
        IsStep step ahead place nonterminal.Term done (standing stack.old.items) done (standing stack.new.items)) }
{
    put(stack, &[Nonterminal(N::MoreTerm), Nonterminal(N::Unary)])?;
    Ok(Step::WentOn)
}

pub fn more_factors(
    stack: &mut Vec<StackSymbol>,
    events: &mut Vec<Note>,
    ahead: K,
    place: u32,
) -> Result<Step, AllocError>
    requires { place < 2 ^ 25 }
    ensures { IfOk result (λ step. IsStep step ahead place nonterminal.MoreTerm (events_of events.old.items)
        (standing stack.old.items) (events_of events.new.items) (standing stack.new.items)) }
{
    if multiplies(ahead) {
        take_operator(stack, events, Nonterminal(N::MoreTerm), place)?;
        Ok(Step::TookBefore(Expected::Side(Side::Factor)))
    } else {
        Ok(Step::WentOn)
    }
}

pub fn more_terms(
    stack: &mut Vec<StackSymbol>,
    events: &mut Vec<Note>,
    ahead: K,
    place: u32,
) -> Result<Step, AllocError>
    requires { place < 2 ^ 25 }
    ensures { IfOk result (λ step. IsStep step ahead place nonterminal.MoreSum (events_of events.old.items)
        (standing stack.old.items) (events_of events.new.items) (standing stack.new.items)) }
{
    if adds(ahead) {
        take_operator(stack, events, Nonterminal(N::MoreSum), place)?;
        Ok(Step::TookBefore(Expected::Side(Side::Term)))
    } else {
        Ok(Step::WentOn)
    }
}

// The levels above sums are seldom more than a sum.

pub fn compared(ahead: K) -> Step
    ensures { (place : ℕ) (done : List Event) (ss : List Symbol) →
        IsStep result ahead place nonterminal.Compared done ss done ss }
{
    if compares(ahead) {
        Step::Unknown
    } else {
        Step::WentOn
    }
}

pub fn more_and(ahead: K) -> Step
    ensures { (place : ℕ) (done : List Event) (ss : List Symbol) →
        IsStep result ahead place nonterminal.MoreAnd done ss done ss }
{
    if ahead == K::AndAnd {
        Step::Unknown
    } else {
        Step::WentOn
    }
}

pub fn more_or(ahead: K) -> Step
    ensures { (place : ℕ) (done : List Event) (ss : List Symbol) →
        IsStep result ahead place nonterminal.MoreOr done ss done ss }
{
    if ahead == K::OrOr {
        Step::Unknown
    } else {
        Step::WentOn
    }
}

/// Goes on with what may follow a term: by an operator of its sum, which is taken, by an operator of a level above, or
/// by none. Answers what is to come, where it took the token ahead.
#[inline(always)]
pub fn after_term(
    stack: &mut Vec<StackSymbol>,
    events: &mut Vec<Note>,
    ahead: K,
    place: u32,
) -> Result<Option<Expected>, AllocError>
    requires { place < 2 ^ 25 }
    ensures { IfOk result (λ expected. IsPart expected ahead place (symbols_of waiting.AfterTerm)
        (events_of events.old.items)
        (standing stack.old.items) (events_of events.new.items) (standing stack.new.items)) }
{
    if adds(ahead) {
        take_operator(stack, events, StackSymbol::AfterTerm, place)?;
        Ok(Some(Expected::Side(Side::Term)))
    } else if joins(ahead) {
        put(
            stack,
            &[
                Nonterminal(N::MoreOr),
                Nonterminal(N::MoreAnd),
                Nonterminal(N::Compared),
            ],
        )?;
        Ok(None)
    } else {
        Ok(None)
    }
}

/// Goes on with what may follow a factor: by an operator of its term, which is taken, or as after a term. Answers
/// what is to come, where it took the token ahead.
#[inline(always)]
pub fn after_factor(
    stack: &mut Vec<StackSymbol>,
    events: &mut Vec<Note>,
    ahead: K,
    place: u32,
) -> Result<Option<Expected>, AllocError>
    requires { place < 2 ^ 25 }
    ensures { IfOk result (λ expected. IsPart expected ahead place (symbols_of waiting.AfterFactor)
        (events_of events.old.items) (standing stack.old.items) (events_of events.new.items)
        (standing stack.new.items)) }
{
    if multiplies(ahead) {
        take_operator(stack, events, StackSymbol::AfterFactor, place)?;
        Ok(Some(Expected::Side(Side::Factor)))
    } else {
        after_term(stack, events, ahead, place)
    }
}

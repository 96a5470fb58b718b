//! What productions put on a parser's stack.

ghost use Rattle.std.specs.Prelude.{true, false, ◌≡◌, List, ◌∷◌, ◌++◌, [], map, reverse, IfOk};
ghost use Rattle.frame_grammar.specs.declared.symbols.Symbol.{Symbol};
ghost use Rattle.frame_grammar.specs.Bodies.{body_of, written};
ghost use Rattle.grammar_table.specs.StackSymbols.{alone, standing};

use crate::stack_symbol::{StackSymbol, alone};
use frame_grammar::{Nonterminal, Production, Symbol, body};
use std::alloc::AllocError;

// A symbol of a kernel: line ends may follow each terminal, and wait behind it.
fn push_symbol(stack: &mut Vec<StackSymbol>, symbol: Symbol) -> Result<(), AllocError>
    ensures { IfOk result (λ _. stack.new.items ≡ stack.old.items ++ map alone (reverse (written true (symbol ∷ [])))) }
{
    if matches!(symbol, Symbol::Terminal(_)) {
        stack.push(StackSymbol::Nonterminal(Nonterminal::Lines))?;
    }
    stack.push(alone(symbol))?;
    Ok(())
}

fn push_in_kernel(stack: &mut Vec<StackSymbol>, symbols: &[Symbol]) -> Result<(), AllocError>
    ensures { IfOk result (λ _. stack.new.items ≡ stack.old.items ++ map alone (reverse (written true symbols.now))) }
{
    for symbol in symbols.iter().rev() {
        push_symbol(stack, *symbol)?;
    }
    Ok(())
}

// Room for all is made once.
fn push_in_script(stack: &mut Vec<StackSymbol>, symbols: &[Symbol]) -> Result<(), AllocError>
    ensures { IfOk result (λ _. stack.new.items ≡ stack.old.items ++ map alone (reverse (written false symbols.now))) }
{
    if stack.capacity() - stack.len() < symbols.len() {
        stack.reserve(symbols.len())?;
    }
    for symbol in symbols.iter().rev() {
        stack.push_reserved(alone(*symbol));
    }
    Ok(())
}

/// Puts on the stack what a production makes its head of, the first symbol on top.
pub fn push_body(stack: &mut Vec<StackSymbol>, production: Production) -> Result<(), AllocError>
    ensures { IfOk result (λ _. stack.new.items ≡ stack.old.items ++ map alone (reverse (body_of production))) }
{
    let body = body(production);
    if body.has_lines {
        push_in_kernel(stack, body.symbols)
    } else {
        push_in_script(stack, body.symbols)
    }
}

/// Puts on the stack what a production makes its head of, but for the first symbol.
pub fn push_rest(stack: &mut Vec<StackSymbol>, production: Production) -> Result<(), AllocError>
    ensures { IfOk result (λ _. (first : Symbol) (rest : List Symbol) → body_of production ≡ first ∷ rest →
        standing stack.new.items ≡ rest ++ standing stack.old.items) }
{
    push_body(stack, production)?;
    stack.pop();
    Ok(())
}

//! What waits on the parser's stack.

ghost use Rattle.std.specs.Prelude.{◌≡◌};
ghost use Rattle.grammar_table.specs.StackSymbols.{alone, is_lined, ends_line, takes_line};

use frame_grammar::{Action, Nonterminal, Symbol, TokenKind};

/// What waits to be derived or done: a symbol, or several that wait as one, since mostly the first of them derive
/// nothing.
///
/// Behind most tokens of a kernel line ends may stand, and after a factor five nonterminals wait, one for each level of
/// an expression.
#[derive(Clone, Copy, Debug, PartialEq, Eq)]
pub enum StackSymbol {
    Terminal(TokenKind),
    Nonterminal(Nonterminal),
    Action(Action),
    /// The same behind line ends, of which any number may stand there.
    LinedNonterminal(Nonterminal),
    LinedAction(Action),
    /// The rest of a term, and all of `AfterTerm`.
    AfterFactor,
    /// The rest of a sum, of a comparison, and the other sides of `&&` and of `||`.
    AfterTerm,
}

/// A symbol that waits by itself.
#[inline(always)]
pub fn alone(symbol: Symbol) -> StackSymbol
    ensures { result ≡ alone symbol }
{
    match symbol {
        Symbol::Terminal(kind) => StackSymbol::Terminal(kind),
        Symbol::Nonterminal(nonterminal) => StackSymbol::Nonterminal(nonterminal),
        Symbol::Action(action) => StackSymbol::Action(action),
    }
}

fn is_lined(waiting: StackSymbol) -> bool
    ensures { result ≡ is_lined waiting }
{
    matches!(
        waiting,
        StackSymbol::LinedNonterminal(_) | StackSymbol::LinedAction(_)
    )
}

fn ends_line(kind: TokenKind) -> bool
    ensures { result ≡ ends_line kind }
{
    matches!(kind, TokenKind::Line)
}

/// Whether the token ahead is a line end that stands before it.
#[inline(always)]
pub fn takes_line(waiting: StackSymbol, ahead: TokenKind) -> bool
    ensures { result ≡ takes_line waiting ahead }
{
    ends_line(ahead) && is_lined(waiting)
}

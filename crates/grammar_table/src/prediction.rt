//! By which production a nonterminal goes on before a token.

ghost use Rattle.std.specs.Prelude.{◌≡◌};
ghost use Rattle.grammar_table.specs.Predict.{found, predicted};

use crate::table::{choices, default_production};
use frame_grammar::{Nonterminal, Production, TokenKind};

fn choice(choices: &[(TokenKind, Production)], kind: TokenKind) -> Option<Production>
    ensures { result ≡ found choices.now kind }
{
    for &(first, production) in choices {
        if first == kind {
            return Some(production);
        }
    }
    None
}

/// The production by which a nonterminal goes on before this token.
pub fn predict(nonterminal: Nonterminal, ahead: TokenKind) -> Option<Production>
    ensures { result ≡ predicted nonterminal ahead }
{
    if let Some(production) = choice(choices(nonterminal), ahead) {
        return Some(production);
    }
    default_production(nonterminal)
}

//! Reads the items of a file as events of the grammar.

ghost use Rattle.std.specs.Prelude.{◌≡◌, ℕ, ◌<◌, ◌^◌, length, map, IfOk};
ghost use Rattle.frame_grammar.specs.declared.symbols.Nonterminal.TheVariants.{File};
ghost use Rattle.frame_parser.specs.Notes.{events_of};
ghost use Rattle.frame_grammar.specs.Sentences.{IsEnded, IsOnlySentence, IsFault};
ghost use Rattle.kernel_text.specs.Marks.{kind_of};
ghost use Rattle.kernel_raw.specs.Legible.{NamesStand};
ghost use Rattle.script_text.specs.Places.{IsFile};

use frame_grammar::Nonterminal;
use frame_parser::{ParseError, Sentence, parse};
use kernel_text::Mark;
use std::alloc::Global;

/// The events of the file that the tokens are. They are those of its items, one after another.
pub fn file_events(alloc: Global, marks: &[Mark]) -> Result<Sentence, ParseError>
    requires few { length marks.now < 2 ^ 25 }
    requires ended { IsEnded (map kind_of marks.now) }
    ensures items { IfOk result (λ found. IsFile (map kind_of marks.now) (events_of found.events.items)) }
    ensures sentence { IfOk result
        (λ found. IsOnlySentence File (map kind_of marks.now) found.read (events_of found.events.items)) }
    ensures named { IfOk result (λ found. NamesStand (map kind_of marks.now) (events_of found.events.items)) }
    ensures fault { (place : ℕ) → result ≡ Err (ParseError.Syntax place) →
        IsFault File (map kind_of marks.now) place }
{
    parse(alloc, Nonterminal::File, marks)
}

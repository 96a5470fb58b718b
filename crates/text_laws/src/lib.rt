//! The bytes of a file parse to at most one script, but for where its parts lie in memory, or are refused
//! for one fault at one line, and never both.
//!
//! A function here does nothing: its contract is the law.
#![tactic(auto)]

ghost use Rattle.text_laws.specs.Once.{RefusalsAreOnce, ScriptsAreSpelledOnce, SpelledIsNotRefused};

/// Two scripts that the bytes of a file parse to are the same, but for where their parts lie in memory.
pub fn scripts_are_spelled_once()
    ensures { ScriptsAreSpelledOnce }
{}

/// The bytes of a file are refused for one kind of fault, at one line.
pub fn refusals_are_once()
    ensures { RefusalsAreOnce }
{}

/// Bytes that parse to a script are not refused.
pub fn spelled_is_not_refused()
    ensures { SpelledIsNotRefused }
{}

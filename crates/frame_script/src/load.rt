//! Reads a file as a script.

ghost use Rattle.std.specs.Prelude.{◌≡◌, ◌≤◌, ◌<◌, ◌+◌, ◌^◌, ℕ, List, Some, All, length, IfOk, IsUtf8};
ghost use Rattle.job_base.specs.declared.limits.TheConstants.{MOST_SCRIPT_BYTES};
ghost use Rattle.frame_ast.specs.declared.kernel.FaultKind.{FaultKind};
ghost use Rattle.frame_ast.specs.declared.kernel.FaultKind.TheVariants.{TooLong};
ghost use Rattle.frame_ast.specs.Accepted.{IsAccepted};
ghost use Rattle.kernel_text.specs.Marks.{tokens_in};
ghost use Rattle.frame_script.specs.Loading.{Spells, IsRefused, refusal_of};
ghost use Rattle.frame_script.specs.Walking.{Gathers};

use crate::LoadFault;
use crate::walk::{Walk, walk_file};
use frame_ast::kernel::FaultKind;
use frame_ast::script::Script;
use frame_parser::ParseError;
use kernel_code::{Mark, lex, line_at};
use script_text::{Source, file_events};
use std::alloc::Global;

/// The script that was written out, or its first statement too many.
fn script_of(alloc: Global, walk: Walk<'_>) -> Result<Script, LoadFault>
    requires { All (λ name. IsUtf8 name.text) walk.names }
    ensures script { IfOk result (λ script. Gathers walk.entry script) }
    ensures excess { (line : ℕ) (kind : FaultKind) → result ≡ Err (LoadFault.Refused line kind) → (kind ≡ TooLong)
        × (walk.entry.written.over ≡ Some line) }
{
    let names = walk.names.texts(alloc)?;
    match walk.written.finish() {
        Ok(statements) => Ok(Script {
            kernels: walk.kernels.into_vec(),
            names,
            literals: walk.literals,
            statements,
        }),
        Err(line) => Err(LoadFault::Refused {
            line,
            kind: FaultKind::TooLong,
        }),
    }
}

// Why the bytes of these tokens are refused, where the parser finds no file among them.
fn refusal(error: ParseError, marks: &[Mark]) -> LoadFault
    requires { 1 + length marks.now < 2 ^ 32 }
    ensures { (source : List ℕ) → result ≡ refusal_of error (tokens_in source 1 marks.now) }
{
    match error {
        ParseError::Syntax(place) => LoadFault::Refused {
            line: line_at(marks, 1, place),
            kind: FaultKind::Syntax,
        },
        ParseError::Memory => LoadFault::NoMemory,
    }
}

/// The script that the bytes of a file parse to.
///
/// A file is refused for its first fault: of syntax, else the first static fault in the order of the
/// tokens, else `TooLong` where it stands for more than `MOST_STATEMENTS` statements or more than
/// `MOST_TESTS` of `when`, each `repeat` written out.
pub fn parse_script(alloc: Global, source: &[u8]) -> Result<Script, LoadFault>
    requires { length source.now ≤ MOST_SCRIPT_BYTES }
    ensures script { IfOk result (λ script. Spells source.now script) }
    ensures accepted { IfOk result IsAccepted }
    ensures refused { (line : ℕ) (kind : FaultKind) → result ≡ Err (LoadFault.Refused line kind) →
        IsRefused source.now line kind }
{
    let marks = lex(alloc, source)?;
    let found = match file_events(alloc, &marks) {
        Ok(found) => found,
        Err(error) => return Err(refusal(error, &marks)),
    };
    let file = Source {
        bytes: source,
        marks: &marks,
    };
    let walk = walk_file(alloc, file, &found.events)?;
    script_of(alloc, walk)
}

//! Kernels as the grammar reads them.

ghost use Rattle.std.specs.Prelude.{◌≡◌, ◌<◌, ◌≤◌, ◌+◌, ◌^◌, ℕ, List, length, IfOk};
ghost use Rattle.frame_ast.specs.declared.kernel.FaultKind.{FaultKind};
ghost use Rattle.frame_ast.specs.declared.kernel.FaultKind.TheVariants.{Syntax};
ghost use Rattle.frame_parser.specs.Notes.{events_of};
ghost use Rattle.job_base.specs.declared.limits.TheConstants.{MOST_SCRIPT_BYTES};
ghost use Rattle.kernel_raw.specs.RawEvents.{SpellsRaw, IsKernel};
ghost use Rattle.kernel_raw.specs.Reading.{is_parallel};
ghost use Rattle.kernel_text.specs.Marks.{tokens_in};
ghost use Rattle.kernel_text.specs.Tokens.{tokens_of, up_to_bad, kinds, NamesAreText};
ghost use Rattle.kernel_raw.specs.Parsing.{StandsAt, StopsAt, refusal_of};
ghost use Rattle.kernel_raw.specs.Legible.{NamesStand, IsParsed};

use crate::depths::kept_depths;
use crate::first::take_first;
use crate::raw::MOST_KEPT;
use crate::reader::Reader;
use crate::{KernelFault, RawKernel};
use frame_ast::kernel::FaultKind;
use frame_grammar::{Action, Nonterminal, TokenAt};
use frame_parser::{Note, ParseError, parse};
use job_base::NoMemory;
use kernel_text::{Mark, line_at};
use std::alloc::Global;

/// Whether an action opens a parallel kernel.
fn is_parallel(action: Action) -> bool
    ensures { result ≡ is_parallel action }
{
    matches!(action, Action::OpenParallel)
}

/// The raw form of the kernel that these notes of the grammar are of. They give its parts by the
/// places of these tokens, of which the first lies on this line.
pub fn raw_kernel<'a>(
    alloc: Global,
    source: &'a [u8],
    marks: &'a [Mark],
    line: u32,
    notes: &[Note],
) -> Result<RawKernel<'a>, NoMemory>
    requires few { line + length marks.now < 2 ^ 32 }
    requires kernel { IsKernel (events_of notes.now) (length (tokens_in source.now line marks.now)) }
    requires text { NamesAreText source.now (tokens_in source.now line marks.now) }
    requires named { NamesStand (kinds (tokens_in source.now line marks.now)) (events_of notes.now) }
    ensures spelled { IfOk result (λ raw. SpellsRaw (events_of notes.now) raw) }
    ensures parsed { IfOk result (λ raw. IsParsed raw) }
    ensures source { IfOk result (λ raw. raw.source.now ≡ source.now) }
    ensures marks { IfOk result (λ raw. raw.marks.now ≡ marks.now) }
    ensures line { IfOk result (λ raw. raw.line ≡ line) }
{
    let parts = &notes[2..];
    // Each node has two events of its own.
    let room = (parts.len() / 2).min(MOST_KEPT as usize);
    let mut reader = Reader::new(alloc, room)?;
    let mut at = 0;
    while at < parts.len() {
        at += take_first(&mut reader, &parts[at..])?;
    }
    let nodes = reader.nodes;
    let depths = kept_depths(alloc, &nodes, reader.joined)?;
    Ok(RawKernel {
        source,
        marks,
        line,
        parallel: is_parallel(notes[0].event().action),
        name: notes[1].event().place,
        params: reader.params,
        nodes,
        depths,
    })
}

/// How what the parser finds among these tokens is reported, of which the first lies on this line.
fn refusal(error: ParseError, ahead: &[Mark], line: u32) -> KernelFault
    requires { line + length ahead.now < 2 ^ 32 }
    ensures { (source : List ℕ) → result ≡ refusal_of error (tokens_in source line ahead.now) }
{
    match error {
        ParseError::Memory => KernelFault::NoMemory,
        ParseError::Syntax(place) => KernelFault::Refused {
            line: line_at(ahead, line, place),
            kind: FaultKind::Syntax,
        },
    }
}

/// The kernel that begins at a token of a file, and the place of the token after it.
///
/// Line ends after a token of a kernel are of the kernel, those after its last `}` are not. What
/// follows the kernel says nothing. The raw form gives its tokens by their places from `at` on.
///
/// A refusal is of syntax. Its line is that of the first token with which no kernel goes on.
pub fn parse_kernel<'a>(
    alloc: Global,
    source: &'a [u8],
    marks: &'a [Mark],
    at: TokenAt,
) -> Result<(RawKernel<'a>, TokenAt), KernelFault>
    requires few { length source.now ≤ MOST_SCRIPT_BYTES }
    requires lexed { tokens_in source.now 1 marks.now ≡ up_to_bad (tokens_of source.now) }
    requires within { at < length marks.now }
    ensures kernel { IfOk result (λ found. StandsAt source.now (tokens_in source.now 1 marks.now) at found.1 found.0) }
    ensures parsed { IfOk result (λ found. IsParsed found.0) }
    ensures fault { (line : ℕ) (kind : FaultKind) → result ≡ Err (KernelFault.Refused line kind) → (kind ≡ Syntax)
        × StopsAt (tokens_in source.now 1 marks.now) at line }
{
    let ahead = &marks[at.index()..];
    let line = line_at(marks, 1, at);
    let sentence = match parse(alloc, Nonterminal::Kernel, ahead) {
        Ok(sentence) => sentence,
        Err(error) => return Err(refusal(error, ahead, line)),
    };
    let raw = raw_kernel(alloc, source, ahead, line, &sentence.events)?;
    Ok((raw, TokenAt::of(at.place() + sentence.read)))
}

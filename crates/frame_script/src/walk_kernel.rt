//! One kernel of a file: it is checked, and then known.

ghost use Rattle.std.specs.Prelude.{◌≡◌, ◌-◌, ◌<◌, ◌^◌, ℕ, length, IfOk};
ghost use Rattle.frame_ast.specs.declared.kernel.FaultKind.{FaultKind};
ghost use Rattle.frame_parser.specs.Notes.{events_of};
ghost use Rattle.kernel_raw.specs.RawEvents.{IsKernel};
ghost use Rattle.kernel_text.specs.Tokens.{kinds, NamesAreText};
ghost use Rattle.kernel_raw.specs.Legible.{NamesStand};
ghost use Rattle.script_text.specs.Sources.{file_tokens};
ghost use Rattle.frame_script.specs.Walking.{AddsKernel, RefusesKernel};

use crate::LoadFault;
use crate::guard_room::has_guard_room;
use frame_parser::Note;
use kernel_code::{KernelFault, check_kernel, raw_kernel};
use script_checks::Kernels;
use script_text::Source;
use std::alloc::Global;

/// Checks the kernel that these notes of the grammar are of, after those that are known, and adds it to them.
#[inline(never)]
pub fn add_kernel<'a>(
    alloc: Global,
    source: Source<'a>,
    kernels: &mut Kernels<'a>,
    notes: &[Note],
) -> Result<(), LoadFault>
    requires few { length source.marks.now < 2 ^ 32 - 1 }
    requires kernel { IsKernel (events_of notes.now) (length (file_tokens source)) }
    requires text { NamesAreText source.bytes.now (file_tokens source) }
    requires named { NamesStand (kinds (file_tokens source)) (events_of notes.now) }
    ensures added { IfOk result (λ _. AddsKernel source.entry (events_of notes.now) kernels.old kernels.new) }
    ensures refused { (line : ℕ) (kind : FaultKind) → result ≡ Err (LoadFault.Refused line kind) →
        RefusesKernel source.entry (events_of notes.now) kernels.old line kind }
{
    let raw = raw_kernel(alloc, source.bytes, source.marks, 1, notes)?;
    let kernel = match check_kernel(alloc, &raw, kernels.as_slice()) {
        Ok(kernel) => kernel,
        Err(KernelFault::Refused { line, kind }) => {
            return Err(LoadFault::Refused { line, kind });
        }
        Err(KernelFault::NoMemory) => return Err(LoadFault::NoMemory),
    };
    let has_room = has_guard_room(&raw, &kernel);
    kernels.add(source.text(raw.name), kernel, has_room)?;
    Ok(())
}

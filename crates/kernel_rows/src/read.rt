// Kernels from texts.
ghost use Rattle.std.specs.Prelude.{◌≡◌, ◌≤◌, ◌<◌, ℕ, length, IfOk};
ghost use Rattle.job_base.specs.declared.limits.TheConstants.{MOST_SCRIPT_BYTES};
ghost use Rattle.frame_ast.specs.declared.kernel.FaultKind.{FaultKind};
ghost use Rattle.frame_ast.specs.Checked.{IsChecked};
ghost use Rattle.kernel_text.specs.Marks.{tokens_in};
ghost use Rattle.kernel_text.specs.Tokens.{tokens_of, up_to_bad};
ghost use Rattle.kernel_rows.specs.Texts.{IsKernelAt, IsRefusedAt};

use frame_ast::kernel::Kernel;
use kernel_code::{KernelFault, Mark, TokenAt, check_kernel, parse_kernel};
use std::alloc::Global;

/// The kernel that begins at a token of a file with no earlier kernels, and the place of the token after it.
pub fn kernel_at(
    alloc: Global,
    source: &[u8],
    marks: &[Mark],
    at: u32,
) -> Result<(Kernel, u32), KernelFault>
    requires few { length source.now ≤ MOST_SCRIPT_BYTES }
    requires lexed { tokens_in source.now 1 marks.now ≡ up_to_bad (tokens_of source.now) }
    requires within { at < length marks.now }
    ensures checked { IfOk result (λ found. IsChecked found.0) }
    ensures kernel { IfOk result (λ found.
        IsKernelAt source.now (tokens_in source.now 1 marks.now) at found.1 found.0) }
    ensures refused { (line : ℕ) (kind : FaultKind) → result ≡ Err (KernelFault.Refused line kind)
        → IsRefusedAt source.now (tokens_in source.now 1 marks.now) at line kind }
{
    let (raw, next) = parse_kernel(alloc, source, marks, TokenAt::of(at))?;
    let kernel = check_kernel(alloc, &raw, &[])?;
    Ok((kernel, next.place()))
}

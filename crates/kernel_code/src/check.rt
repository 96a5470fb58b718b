//! Checks a kernel: what its names are, whether they fit where they stand, and its limits.
ghost use Rattle.std.specs.Prelude.{◌≡◌, ◌<◌, ◌+◌, ◌^◌, ℕ, length, None, Some, IfOk, IfErr, OnOk};
ghost use Rattle.std.specs.Option.{option_or};
ghost use Rattle.frame_ast.specs.Checked.{IsChecked};
ghost use Rattle.kernel_raw.specs.RawTexts.{text_at};
ghost use Rattle.kernel_code.specs.StaticFaults.{fault_at, kernel_name_fault, params_fault, first_fault, TellsFault};
ghost use Rattle.kernel_code.specs.Trees.{IsKernelOf};
ghost use Rattle.kernel_raw.specs.Legible.{IsParsed};

mod demands;
mod expressions;
mod forms;
mod kernels;
mod names;
mod nodes;
mod operators;
mod params;
mod plain;
mod resolve;
mod statements;
mod streams;

use crate::check::kernels::kernel_of;
use crate::check::params::{fault_at, kernel_name_fault, params_fault};
use crate::check::resolve::resolve;
use frame_ast::kernel::Kernel;
use kernel_raw::{KernelFault, RawKernel, StaticFault, line_at, text_at};
use std::alloc::Global;

// The first fault of a kernel's name and parameters.
fn head_fault(raw: &RawKernel<'_>, earlier: &[Kernel]) -> Option<StaticFault>
    ensures { result ≡ option_or (fault_at raw.now.name (kernel_name_fault earlier.now (text_at raw.now raw.now.name)))
        (params_fault raw.now 0 raw.now.params.items) }
{
    let name = text_at(raw, raw.name);
    fault_at(raw.name, kernel_name_fault(earlier, name)).or(params_fault(raw))
}

// The refusal for a fault.
fn refusal(raw: &RawKernel<'_>, fault: StaticFault) -> KernelFault
    requires { raw.now.line + length raw.now.marks.now < 2 ^ 32 }
    ensures { TellsFault raw.now (Some fault) result }
{
    KernelFault::Refused {
        line: line_at(raw, fault.at),
        kind: fault.kind,
    }
}

/// The kernel that a raw kernel after earlier ones is.
///
/// Its names are looked up: each becomes the number of a parameter or of a local. It is refused for
/// its first fault in the order of the tokens; of the faults of one token, for the one of the lowest
/// number in the order of `FaultKind`.
pub fn check_kernel(
    alloc: Global,
    raw: &RawKernel<'_>,
    earlier: &[Kernel],
) -> Result<Kernel, KernelFault>
    requires { IsParsed raw.now }
    ensures faultless { OnOk result (first_fault raw.now earlier.now ≡ None) }
    ensures refused { IfErr result (TellsFault raw.now (first_fault raw.now earlier.now)) }
    ensures kernel { IfOk result (λ k. IsKernelOf raw.now k) }
    ensures checked { IfOk result IsChecked }
{
    if let Some(fault) = head_fault(raw, earlier) {
        return Err(refusal(raw, fault));
    }
    match resolve(alloc, raw)? {
        Ok(meanings) => Ok(kernel_of(alloc, raw, meanings)?),
        Err(fault) => Err(refusal(raw, fault)),
    }
}

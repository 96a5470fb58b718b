//! The faults of a kernel's name and of its parameters.

ghost use Rattle.std.specs.Prelude.{◌≡◌, ◌≤◌, ◌<◌, ℕ, length};
ghost use Rattle.kernel_code.specs.StaticFaults.{length_fault, kernel_name_fault, param_name_fault, stream_fault, width_word_fault, width_fault, param_kind_fault, param_fault, params_fault, fault_at};
ghost use Rattle.kernel_raw.specs.RawTexts.{text_at, value_at};
ghost use Rattle.std.specs.List.{list_any};
ghost use Rattle.std.specs.Str.{bytes_eq};
ghost use Rattle.std.specs.String.{string_bytes};

use crate::check::demands::{fault_if, lowest};
use frame_ast::kernel::{FaultKind, Kernel, ParamKind};
use frame_grammar::TokenAt;
use job_base::Access;
use job_base::limits::{MOST_KERNELS, MOST_NAME_BYTES, MOST_PARAMS, MOST_WIDTH};
use kernel_raw::{RawKernel, RawParam, StaticFault, is_spelled, text_at, value_at};

/// A fault of the token at a place.
pub fn fault_at(at: TokenAt, kind: Option<FaultKind>) -> Option<StaticFault>
    ensures { result ≡ fault_at at kind }
{
    match kind {
        Some(kind) => Some(StaticFault { at, kind }),
        None => None,
    }
}

/// The fault of a name that is too long.
pub fn length_fault(name: &[u8]) -> Option<FaultKind>
    ensures { result ≡ length_fault name.now }
{
    fault_if(FaultKind::Limit, name.len() > MOST_NAME_BYTES as usize)
}

// Whether one of these kernels has a name.
fn is_kernel(earlier: &[Kernel], name: &[u8]) -> bool
    ensures { result ≡ list_any (λ k. bytes_eq (string_bytes k.name) name.now) earlier.now }
{
    earlier.iter().any(|k| k.name.as_bytes() == name)
}

// Whether one of these parameters has a name.
fn is_param(raw: &RawKernel<'_>, params: &[RawParam], name: &[u8]) -> bool
    ensures { result ≡ list_any (λ p. bytes_eq (text_at raw.now p.name) name.now) params.now }
{
    params.iter().any(|p| is_spelled(raw, p.name, name))
}

/// The fault of a kernel's own name.
pub fn kernel_name_fault(earlier: &[Kernel], name: &[u8]) -> Option<FaultKind>
    ensures { result ≡ kernel_name_fault earlier.now name.now }
{
    lowest(
        fault_if(FaultKind::DuplicateName, is_kernel(earlier, name)),
        lowest(
            fault_if(FaultKind::Limit, earlier.len() >= MOST_KERNELS as usize),
            length_fault(name),
        ),
    )
}

// The fault of the name of a parameter.
fn param_name_fault(raw: &RawKernel<'_>, number: usize, name: &[u8]) -> Option<FaultKind>
    requires { number ≤ length raw.now.params.items }
    ensures { result ≡ param_name_fault raw.now number name.now }
{
    let is_taken = is_param(raw, &raw.params[..number], name);
    lowest(
        fault_if(FaultKind::DuplicateName, is_taken),
        lowest(
            fault_if(FaultKind::Limit, number >= MOST_PARAMS as usize),
            length_fault(name),
        ),
    )
}

fn stream_fault(kind: ParamKind, access: Access) -> Option<FaultKind>
    ensures { result ≡ stream_fault kind access }
{
    let is_both = matches!(kind, ParamKind::Stream) && matches!(access, Access::Both);
    fault_if(FaultKind::KindMismatch, is_both)
}

fn width_word_fault(parallel: bool, access: Access) -> Option<FaultKind>
    ensures { result ≡ width_word_fault parallel access }
{
    match access {
        Access::Read => Some(FaultKind::KindMismatch),
        Access::Write | Access::Both => fault_if(FaultKind::KindMismatch, !parallel),
    }
}

fn width_fault(raw: &RawKernel<'_>, at: TokenAt) -> Option<FaultKind>
    ensures { result ≡ width_fault (value_at raw.now at) }
{
    let width = value_at(raw, at);
    fault_if(
        FaultKind::Limit,
        width == 0 || width > u64::from(MOST_WIDTH),
    )
}

// The first fault of what stands behind the name of a parameter.
fn param_kind_fault(raw: &RawKernel<'_>, param: RawParam) -> Option<StaticFault>
    ensures { result ≡ param_kind_fault raw.now param param.width }
{
    match param.width {
        Some(at) => fault_at(param.word, width_word_fault(raw.parallel, param.access)).or(fault_at(
            at,
            width_fault(raw, at),
        )),
        None => fault_at(param.word, stream_fault(param.kind, param.access)),
    }
}

// The first fault of a parameter.
fn param_fault(raw: &RawKernel<'_>, number: usize, param: RawParam) -> Option<StaticFault>
    requires { number ≤ length raw.now.params.items }
    ensures { result ≡ param_fault raw.now number param }
{
    let name = text_at(raw, param.name);
    fault_at(param.name, param_name_fault(raw, number, name)).or(param_kind_fault(raw, param))
}

/// The first fault of the parameters.
pub fn params_fault(raw: &RawKernel<'_>) -> Option<StaticFault>
    ensures { result ≡ params_fault raw.now 0 raw.now.params.items }
{
    for (number, param) in raw.params.iter().enumerate() {
        if let Some(fault) = param_fault(raw, number, *param) {
            return Some(fault);
        }
    }
    None
}

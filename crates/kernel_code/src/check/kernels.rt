//! The kernel that a raw kernel without faults is.

ghost use Rattle.std.specs.Prelude.{◌≡◌, ◌≤◌, ℕ, None, Some, length, map, slice_get, string_bytes, IfOk, IsUtf8};
ghost use Rattle.job_base.specs.declared.limits.TheConstants.{MOST_WIDTH};
ghost use Rattle.kernel_raw.specs.RawTexts.{text_at};
ghost use Rattle.kernel_code.specs.StaticFaults.{params_fault};
ghost use Rattle.kernel_code.specs.Scopes.{locals_of};
ghost use Rattle.kernel_code.specs.Trees.{param_text, raw_param_text, width_at, IsKernelOf};
ghost use Rattle.kernel_code.specs.Places.{IsResolved};
ghost use Rattle.kernel_raw.specs.Legible.{IsLegible, IsParsed};

use crate::check::resolve::Meanings;
use crate::check::statements::block;
use frame_ast::kernel::{Body, Kernel, Param};
use frame_grammar::TokenAt;
use job_base::NoMemory;
use kernel_raw::{RawKernel, text_at, value_at};
use std::alloc::Global;
use std::str;

// The name at a place.
fn name_at(alloc: Global, raw: &RawKernel<'_>, at: TokenAt) -> Result<String, NoMemory>
    requires { IsUtf8 (text_at raw.now at) }
    ensures { IfOk result (λ name. string_bytes name ≡ text_at raw.now at) }
{
    match str::from_utf8(text_at(raw, at)) {
        Ok(name) => Ok(String::from_str(alloc, name)?),
        Err(_) => unreachable!(),
    }
}

// The Number after `by`, or 1 where none is written.
fn width_of(raw: &RawKernel<'_>, width: Option<TokenAt>) -> u32
    requires { width_at raw.now width ≤ MOST_WIDTH }
    ensures { result ≡ width_at raw.now width }
{
    match width {
        Some(at) => value_at(raw, at) as u32,
        None => 1,
    }
}

fn params_of(alloc: Global, raw: &RawKernel<'_>) -> Result<Vec<Param>, NoMemory>
    requires legible { IsLegible raw.now }
    requires faultless { params_fault raw.now 0 raw.now.params.items ≡ None }
    ensures { IfOk result (λ v. map param_text v.items ≡ map (raw_param_text raw.now) raw.now.params.items) }
{
    let mut params = Vec::new(alloc);
    for i in 0..raw.params.len() {
        let param = raw.params[i];
        params.push(Param {
            name: name_at(alloc, raw, param.name)?,
            kind: param.kind,
            access: param.access,
            by: width_of(raw, param.width),
        })?;
    }
    Ok(params)
}

/// The kernel that a raw kernel is, by what its names stand for.
pub fn kernel_of(alloc: Global, raw: &RawKernel<'_>, meanings: Meanings) -> Result<Kernel, NoMemory>
    requires raw { IsParsed raw.now }
    requires params { params_fault raw.now 0 raw.now.params.items ≡ None }
    requires resolved { IsResolved raw.now meanings.of_nodes.items }
    requires locals { meanings.locals ≡ length (locals_of raw.now.nodes.items) }
    ensures { IfOk result (λ k. IsKernelOf raw.now k) }
{
    let name = name_at(alloc, raw, raw.name)?;
    let params = params_of(alloc, raw)?;
    let statements = block(alloc, raw, &meanings.of_nodes, 0, raw.nodes.len())?;
    Ok(Kernel {
        name,
        parallel: raw.parallel,
        params,
        locals: meanings.locals,
        body: Body { statements },
    })
}

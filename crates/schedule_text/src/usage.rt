//! The containers that a schedule hands over, by access.
ghost use Rattle.std.specs.Prelude.{◌≡◌, ◌++◌, IfOk, OnOk, string_bytes};
ghost use Rattle.schedule_text.specs.Boxes.{access_word, is_used, used_part, used_text, usage_text};

use crate::names::arg_text;
use frame_ast::kernel::{Param, ParamKind};
use frame_ast::script::{Arg, Script};
use job_base::Access;
use std::alloc::{AllocError, Global};

fn access_word(access: Access) -> &'static str
    ensures { result.now ≡ access_word access }
{
    match access {
        Access::Read => "ro",
        Access::Write => "wo",
        Access::Both => "rw",
    }
}

// Whether a parameter takes a container with this access.
fn is_used(param: &Param, wanted: Access) -> bool
    ensures { result ≡ is_used param.now wanted }
{
    param.kind != ParamKind::Int && param.access == wanted
}

// Adds an argument after a space, if it is of this access.
fn push_used(
    alloc: Global,
    script: &Script,
    arg: Arg,
    param: &Param,
    wanted: Access,
    text: &mut String,
) -> Result<(), AllocError>
    ensures { OnOk result (string_bytes text.new ≡ string_bytes text.old ++ used_part script.now wanted arg param.now) }
{
    if is_used(param, wanted) {
        let part = arg_text(alloc, script, arg)?;
        text.push_str(" ")?;
        text.push_str(part.as_str())?;
    }
    Ok(())
}

// The arguments of this access.
fn used_text(
    alloc: Global,
    script: &Script,
    args: &[Arg],
    params: &[Param],
    wanted: Access,
) -> Result<String, AllocError>
    ensures { IfOk result (λ s. string_bytes s ≡ used_text script.now wanted args.now params.now) }
{
    let mut text = String::new(alloc);
    let count = args.len().min(params.len());
    for i in 0..count {
        push_used(alloc, script, args[i], &params[i], wanted, &mut text)?;
    }
    Ok(text)
}

/// The word of an access and the arguments of it, or nothing where there is none.
pub(crate) fn usage_text(
    alloc: Global,
    script: &Script,
    args: &[Arg],
    params: &[Param],
    wanted: Access,
) -> Result<String, AllocError>
    ensures { IfOk result (λ s. string_bytes s ≡ usage_text script.now wanted args.now params.now) }
{
    let used = used_text(alloc, script, args, params, wanted)?;
    if used.as_str().is_empty() {
        return Ok(used);
    }
    let word = access_word(wanted);
    format!(in alloc; "{word}{used}")
}

//! The call of a schedule, as a script has it.
ghost use Rattle.std.specs.Prelude.{◌≡◌, IfOk, string_bytes};
ghost use Rattle.frame_ast.specs.Texts.{listed};
ghost use Rattle.schedule_text.specs.Boxes.{arg_text as text_of_arg, kernel_name, call_text};

use crate::names::arg_text;
use frame_ast::script::{Arg, NewJob, Script};
use std::alloc::{AllocError, Global};

fn kernel_name(script: &Script, kernel: u32) -> &str
    ensures { result.now ≡ kernel_name script.now kernel }
{
    match script.kernels.get(kernel as usize) {
        Some(kernel) => kernel.name.as_str(),
        None => "",
    }
}

fn args_text(alloc: Global, script: &Script, args: &[Arg]) -> Result<String, AllocError>
    ensures { IfOk result (λ s. string_bytes s ≡ listed (text_of_arg script.now) args.now) }
{
    let Some((first, more)) = args.split_first() else {
        return Ok(String::new(alloc));
    };
    let mut text = arg_text(alloc, script, *first)?;
    for arg in more {
        let part = arg_text(alloc, script, *arg)?;
        text.push_str(", ")?;
        text.push_str(part.as_str())?;
    }
    Ok(text)
}

/// `kernel(a, b)`
pub(crate) fn call_text(alloc: Global, script: &Script, job: &NewJob) -> Result<String, AllocError>
    ensures { IfOk result (λ s. string_bytes s ≡ call_text script.now job.now) }
{
    let name = kernel_name(script, job.kernel);
    let args = args_text(alloc, script, &job.args)?;
    format!(in alloc; "{name}({args})")
}

// The names of contested containers.
ghost use Rattle.std.specs.Prelude.{◌≡◌, IfOk, string_bytes};
ghost use Rattle.frame_ast.specs.Texts.{listed};
ghost use Rattle.schedule_text.specs.Boxes.{name_text};

use crate::contest::is_contested;
use frame_ast::kernel::Param;
use frame_ast::script::{Arg, Script};
use frame_core::Plan;
use job_base::{JobId, NoMemory};
use kernel_exec::Bind;
use schedule_text::name_of;
use std::alloc::{AllocError, Global};

/// An earlier job: its kernel's parameters and its arguments.
#[derive(Clone, Copy)]
pub(crate) struct Uses<'a> {
    pub(crate) params: &'a [Param],
    pub(crate) binds: &'a [Bind],
}

/// The uses of the job of that number.
pub(crate) fn uses_of(plan: &Plan, id: JobId) -> Option<Uses<'_>> {
    let job = plan.jobs.get(id.0.checked_sub(1)? as usize)?;
    let kernel = plan.kernels.get(job.kernel as usize)?;
    Some(Uses {
        params: &kernel.params,
        binds: &job.binds,
    })
}

// The name of an argument, if the earlier job contests it.
fn contested_name(
    earlier: Uses<'_>,
    arg: Arg,
    param: Option<&Param>,
    bind: Option<&Bind>,
) -> Option<u32> {
    match arg {
        Arg::Name(name) => {
            if is_contested(earlier.params, earlier.binds, param?.access, *bind?) {
                Some(name)
            } else {
                None
            }
        }
        Arg::Number(_) => None,
    }
}

// The names of the arguments of a later job that an earlier one contests.
fn contested_names(
    alloc: Global,
    earlier: Uses<'_>,
    later: Uses<'_>,
    args: &[Arg],
) -> Result<Vec<u32>, NoMemory> {
    let mut names = Vec::new(alloc);
    for i in 0..args.len() {
        if let Some(name) = contested_name(
            earlier,
            args[i],
            later.params.get(i),
            later.binds.get(i),
        ) {
            names.push(name)?;
        }
    }
    Ok(names)
}

// Some names, one after another.
fn names_text(alloc: Global, script: &Script, names: &[u32]) -> Result<String, AllocError>
    ensures { IfOk result (λ s. string_bytes s ≡ listed (name_text script.now) names.now) }
{
    let Some((first, more)) = names.split_first() else {
        return Ok(String::new(alloc));
    };
    let mut text = String::from_str(alloc, name_of(script, *first))?;
    for name in more {
        text.push_str(", ")?;
        text.push_str(name_of(script, *name))?;
    }
    Ok(text)
}

/// The label of an arrow between two jobs, of which the later one was made by this schedule.
pub(crate) fn label_of(
    alloc: Global,
    script: &Script,
    plan: &Plan,
    earlier: JobId,
    later: JobId,
    args: &[Arg],
) -> Result<String, NoMemory> {
    let (Some(earlier), Some(later)) = (uses_of(plan, earlier), uses_of(plan, later)) else {
        return Ok(String::new(alloc));
    };
    let names = contested_names(alloc, earlier, later, args)?;
    Ok(names_text(alloc, script, &names)?)
}

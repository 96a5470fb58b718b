//! The lines of a box.
ghost use Rattle.std.specs.Prelude.{◌≡◌, ◌++◌, IfOk, OnOk, map, string_bytes};
ghost use Rattle.schedule_text.specs.Boxes.{size_text, usage_of, line_of, job_lines, refused_lines};

use crate::calls::call_text;
use crate::causes::cause_text;
use crate::names::name_of;
use crate::usage::usage_text;
use frame_ast::script::{NewJob, Script};
use job_base::{Access, NoMemory, Refusal};
use std::alloc::{AllocError, Global};

/// What a plan made of the length and the batch of a schedule.
#[derive(Clone, Copy, Debug, PartialEq, Eq)]
pub struct Size {
    /// Of a `defer` the most that there may be.
    pub indexes: u32,
    pub pieces: u32,
}

// What follows the number of the line: nothing where the schedule has no length.
fn size_text(alloc: Global, script: &Script, job: &NewJob, size: Size) -> Result<String, AllocError>
    ensures { IfOk result (λ s. string_bytes s ≡ size_text script.now job.now size) }
{
    let indexes = size.indexes;
    let pieces = size.pieces;
    match job.defer {
        Some((list, _)) => {
            let name = name_of(script, list);
            format!(in alloc; ", as long as {name}, at most {indexes}, pieces {pieces}")
        }
        None => match job.cut {
            Some(_) => format!(in alloc; ", indexes {indexes}, pieces {pieces}"),
            None => Ok(String::new(alloc)),
        },
    }
}

// The containers that a schedule uses with an access; nothing where its kernel isn't known.
fn usage_of(
    alloc: Global,
    script: &Script,
    job: &NewJob,
    wanted: Access,
) -> Result<String, AllocError>
    ensures { IfOk result (λ s. string_bytes s ≡ usage_of script.now job.now wanted) }
{
    match script.kernels.get(job.kernel as usize) {
        Some(kernel) => usage_text(alloc, script, &job.args, &kernel.params, wanted),
        None => Ok(String::new(alloc)),
    }
}

// Adds a line, unless it is empty.
fn push_line(line: String, lines: &mut Vec<String>) -> Result<(), NoMemory>
    ensures { OnOk result (map (λ v. string_bytes v) lines.new.items
        ≡ map (λ v. string_bytes v) lines.old.items ++ line_of (string_bytes line)) }
{
    if !line.as_str().is_empty() {
        lines.push(line)?;
    }
    Ok(())
}

/// The lines of the box of an accepted schedule on line `line`, whose job has that number in the script.
pub fn job_lines(
    alloc: Global,
    script: &Script,
    line: u32,
    job: &NewJob,
    number: u32,
    size: Size,
) -> Result<Vec<String>, NoMemory>
    ensures { IfOk result (λ lines. map (λ v. string_bytes v) lines.items
        ≡ job_lines script.now line job.now number size) }
{
    let handle = name_of(script, job.handle);
    let length = size_text(alloc, script, job, size)?;
    let mut lines = Vec::new(alloc);
    lines.push(format!(in alloc; "job {number} {handle}")?)?;
    lines.push(call_text(alloc, script, job)?)?;
    lines.push(format!(in alloc; "line {line}{length}")?)?;
    push_line(usage_of(alloc, script, job, Access::Read)?, &mut lines)?;
    push_line(usage_of(alloc, script, job, Access::Write)?, &mut lines)?;
    push_line(usage_of(alloc, script, job, Access::Both)?, &mut lines)?;
    Ok(lines)
}

/// The lines of the box of a refused schedule on line `line`. `name` is the value that the refusal names, where it
/// names one.
pub fn refused_lines(
    alloc: Global,
    script: &Script,
    line: u32,
    job: &NewJob,
    refusal: Refusal,
    name: u32,
) -> Result<Vec<String>, NoMemory>
    ensures { IfOk result (λ lines. map (λ v. string_bytes v) lines.items
        ≡ refused_lines script.now line job.now refusal name) }
{
    let handle = name_of(script, job.handle);
    let mut lines = Vec::new(alloc);
    lines.push(format!(in alloc; "refused {handle}")?)?;
    lines.push(call_text(alloc, script, job)?)?;
    lines.push(format!(in alloc; "line {line}")?)?;
    lines.push(cause_text(alloc, refusal, name_of(script, name))?)?;
    Ok(lines)
}

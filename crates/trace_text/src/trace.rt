// The text of a whole run.
ghost use Rattle.std.specs.Prelude.{◌≡◌, ◌++◌, ◌-◌, string_bytes, IfOk, OnOk};
ghost use Rattle.trace_text.specs.Events.{row_text};
ghost use Rattle.trace_text.specs.Traces.{rows_text, section_text, sections_text, trace_text};

use crate::arrows::arrows_text;
use crate::data::SectionTrace;
use crate::jobs::jobs_text;
use crate::segments::{alone_part, plan_part, segments_text};
use std::alloc::{AllocError, Global};

/// What a trace begins with: the name of the script's row.
pub const TRACE_HEAD: &str =
    "[\n{\"name\":\"thread_name\",\"ph\":\"M\",\"pid\":1,\"tid\":0,\"args\":{\"name\":\"script\"}}";

/// What it ends with.
pub const TRACE_END: &str = "\n]\n";

// The name of a worker's row.
fn row_text(alloc: Global, worker: u32) -> Result<String, AllocError>
    ensures { IfOk result (λ s. string_bytes s ≡ row_text worker) }
{
    format!(in alloc;
        ",\n{{\"name\":\"thread_name\",\"ph\":\"M\",\"pid\":1,\"tid\":{worker},\
         \"args\":{{\"name\":\"worker {worker}\"}}}}"
    )
}

// The names of the rows of all workers but the first, which is the script's thread.
fn rows_text(alloc: Global, workers: u32) -> Result<String, AllocError>
    ensures { IfOk result (λ s. string_bytes s ≡ rows_text (workers - 1) 1) }
{
    let mut text = String::new(alloc);
    for worker in 1..workers {
        let part = row_text(alloc, worker)?;
        text.push_str(part.as_str())?;
    }
    Ok(text)
}

// The events of a section.
fn section_text(alloc: Global, section: &SectionTrace) -> Result<String, AllocError>
    ensures { IfOk result (λ s. string_bytes s ≡ section_text section.now) }
{
    let planned = plan_part(alloc, section.number, section.planned)?;
    let alone = alone_part(alloc, section.number, section.alone)?;
    let segments = segments_text(alloc, section.number, &section.segments)?;
    let jobs = jobs_text(alloc, section.jobs_before, &section.jobs)?;
    let arrows = arrows_text(alloc, &section.arrows)?;
    format!(in alloc; "{planned}{alone}{segments}{jobs}{arrows}")
}

// The events of all sections.
fn sections_text(alloc: Global, sections: &[SectionTrace]) -> Result<String, AllocError>
    ensures { IfOk result (λ s. string_bytes s ≡ sections_text sections.now) }
{
    let mut text = String::new(alloc);
    for section in sections {
        let part = section_text(alloc, section)?;
        text.push_str(part.as_str())?;
    }
    Ok(text)
}

/// The trace of a run with so many workers.
pub fn trace_text(
    alloc: Global,
    workers: u32,
    sections: &[SectionTrace],
) -> Result<String, AllocError>
    ensures { IfOk result (λ s. string_bytes s ≡ trace_text workers sections.now) }
{
    let rows = rows_text(alloc, workers)?;
    let events = sections_text(alloc, sections)?;
    let mut text = String::from_str(alloc, TRACE_HEAD)?;
    text.push_str(rows.as_str())?;
    text.push_str(events.as_str())?;
    text.push_str(TRACE_END)?;
    Ok(text)
}

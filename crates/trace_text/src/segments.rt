// The events of the script's thread.
ghost use Rattle.std.specs.Prelude.{◌≡◌, string_bytes, IfOk};
ghost use Rattle.trace_text.specs.Events.{lines_name, segment_args, segment_text, wait_text, wait_part, plan_text, plan_part, alone_text, alone_part};
ghost use Rattle.trace_text.specs.Traces.{segments_text};

use crate::data::{Lines, SegmentTrace, Stretch, Wait};
use crate::times::stretch_text;
use std::alloc::{AllocError, Global};

// The name of a segment: its lines.
fn lines_name(alloc: Global, lines: Lines) -> Result<String, AllocError>
    ensures { IfOk result (λ s. string_bytes s ≡ lines_name lines) }
{
    match lines {
        Lines::Nothing => String::from_str(alloc, "script"),
        Lines::One(line) => format!(in alloc; "line {line}"),
        Lines::Between { first, last } => format!(in alloc; "lines {first} to {last}"),
    }
}

// Which segment of which section it is.
#[tactic(auto, unfolding(crate::specs::Events::segment_args))]
fn segment_args(alloc: Global, section: u32, number: u32) -> Result<String, AllocError>
    ensures { IfOk result (λ s. string_bytes s ≡ segment_args section number) }
{
    format!(in alloc; "\"section\":{section},\"segment\":{number}")
}

// The event of a wait.
fn wait_text(alloc: Global, wait: Wait) -> Result<String, AllocError>
    ensures { IfOk result (λ s. string_bytes s ≡ wait_text wait) }
{
    let jobs = wait.jobs;
    let when = stretch_text(alloc, wait.waited)?;
    format!(in alloc;
        ",\n{{\"name\":\"wait\",\"cat\":\"wait\",{when},\"args\":{{\"jobs\":{jobs}}}}}"
    )
}

// The event of the wait before a segment, where there is one.
fn wait_part(alloc: Global, wait: Option<Wait>) -> Result<String, AllocError>
    ensures { IfOk result (λ s. string_bytes s ≡ wait_part wait) }
{
    match wait {
        Some(wait) => wait_text(alloc, wait),
        None => Ok(String::new(alloc)),
    }
}

// The event of a segment, after that of its wait.
fn segment_text(alloc: Global, section: u32, segment: SegmentTrace) -> Result<String, AllocError>
    ensures { IfOk result (λ s. string_bytes s ≡ segment_text section segment) }
{
    let before = wait_part(alloc, segment.wait)?;
    let name = lines_name(alloc, segment.lines)?;
    let when = stretch_text(alloc, segment.ran)?;
    let which = segment_args(alloc, section, segment.number)?;
    format!(in alloc;
        "{before},\n{{\"name\":\"{name}\",\"cat\":\"script\",{when},\"args\":{{{which}}}}}"
    )
}

/// The events of a section's segments.
pub(crate) fn segments_text(
    alloc: Global,
    section: u32,
    segments: &[SegmentTrace],
) -> Result<String, AllocError>
    ensures { IfOk result (λ s. string_bytes s ≡ segments_text section segments.now) }
{
    let mut text = String::new(alloc);
    for segment in segments {
        let part = segment_text(alloc, section, *segment)?;
        text.push_str(part.as_str())?;
    }
    Ok(text)
}

// The event of the planning of a section.
fn plan_text(alloc: Global, section: u32, planned: Stretch) -> Result<String, AllocError>
    ensures { IfOk result (λ s. string_bytes s ≡ plan_text section planned) }
{
    let when = stretch_text(alloc, planned)?;
    format!(in alloc;
        ",\n{{\"name\":\"plan\",\"cat\":\"plan\",{when},\"args\":{{\"section\":{section}}}}}"
    )
}

/// The event of the planning of a section, where there is one.
pub(crate) fn plan_part(
    alloc: Global,
    section: u32,
    planned: Option<Stretch>,
) -> Result<String, AllocError>
    ensures { IfOk result (λ s. string_bytes s ≡ plan_part section planned) }
{
    match planned {
        Some(planned) => plan_text(alloc, section, planned),
        None => Ok(String::new(alloc)),
    }
}

// The event of a section without jobs.
fn alone_text(alloc: Global, section: u32, ran: Stretch) -> Result<String, AllocError>
    ensures { IfOk result (λ s. string_bytes s ≡ alone_text section ran) }
{
    let when = stretch_text(alloc, ran)?;
    format!(in alloc;
        ",\n{{\"name\":\"section\",\"cat\":\"script\",{when},\"args\":{{\"section\":{section}}}}}"
    )
}

/// The event of a section without jobs, where it is one.
pub(crate) fn alone_part(
    alloc: Global,
    section: u32,
    ran: Option<Stretch>,
) -> Result<String, AllocError>
    ensures { IfOk result (λ s. string_bytes s ≡ alone_part section ran) }
{
    match ran {
        Some(ran) => alone_text(alloc, section, ran),
        None => Ok(String::new(alloc)),
    }
}

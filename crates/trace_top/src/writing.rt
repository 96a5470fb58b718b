// The text of a trace.
ghost use Rattle.std.specs.Prelude.{◌≡◌, ◌≤◌, Some, option_copied};
ghost use Rattle.trace_top.specs.Traced.{TracesTo, WritesTo};

use frame_print::print_text;
use frame_top::status::{NO_MEMORY, UNWRITTEN, has_run};
use job_base::Sink;
use std::alloc::Global;
use trace_text::{SectionTrace, trace_text};

// Writes the trace of some sections after a run that ended with a status, and answers that status, or what hindered it.
fn write_trace<S: Sink>(
    alloc: Global,
    workers: u32,
    sections: &[SectionTrace],
    status: u8,
    sink: &mut S,
) -> u8
    ensures written { WritesTo (λ traces. traces ≡ sections.now) S.taken S.faults sink.old sink.new workers status
        result }
    ensures later { S.faults sink.old ≤ S.faults sink.new }
{
    let Ok(text) = trace_text(alloc, workers, sections) else {
        return NO_MEMORY;
    };
    match print_text(text.as_bytes(), sink) {
        Ok(()) => status,
        Err(_) => UNWRITTEN,
    }
}

// The same where memory for the sections may not have been found.
fn write_known<S: Sink>(
    alloc: Global,
    workers: u32,
    sections: Option<&[SectionTrace]>,
    status: u8,
    sink: &mut S,
) -> u8
    ensures written { WritesTo (λ traces. option_copied sections.entry ≡ Some traces) S.taken S.faults sink.old
        sink.new workers status result }
    ensures later { S.faults sink.old ≤ S.faults sink.new }
{
    match sections {
        Some(sections) => write_trace(alloc, workers, sections, status, sink),
        None => NO_MEMORY,
    }
}

/// Ends a run with this status: where the script ran, its trace is written.
pub(crate) fn end_run<S: Sink>(
    alloc: Global,
    workers: u32,
    sections: Option<&[SectionTrace]>,
    status: u8,
    sink: &mut S,
) -> u8
    ensures traced { TracesTo (λ traces. option_copied sections.entry ≡ Some traces) S.taken S.faults sink.old
        sink.new workers status result }
    ensures later { S.faults sink.old ≤ S.faults sink.new }
{
    if has_run(status) {
        write_known(alloc, workers, sections, status, sink)
    } else {
        status
    }
}

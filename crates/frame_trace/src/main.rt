//! The program that traces: runs a frame script, writes when its pieces ran to standard output, and what the script
//! prints to standard error.
//!
//! What it reads and writes is the system's, by the adapters of `system_edge`, and so is the clock; no contract says
//! it.
#![tactic(auto)]

use std::alloc::Global;
use std::io;
use std::process::ExitCode;
use system_edge::{DiskFiles, WriterSink, program_words};
use trace_top::trace_frame;

fn main(rt: HostRuntime) -> ExitCode {
    let Some(words) = program_words(&rt) else {
        return ExitCode::from(8);
    };
    let mut files = DiskFiles::new(&rt);
    let mut lines = WriterSink::new(rt.stderr());
    let mut sink = WriterSink::new(io::writer(&rt));
    ExitCode::from(trace_frame(
        &rt,
        rt.alloc(),
        &rt,
        &words,
        &mut files,
        &mut lines,
        &mut sink,
    ))
}

//! The program that draws: writes the picture of a planned frame, or of a run, to standard output, and the text of a
//! refusal to standard error.
//!
//! What it reads and writes is the system's, by the adapters of `system_edge`, and no contract says it.
#![tactic(auto)]

use graph_top::graph_frame;
use std::alloc::Global;
use std::io;
use std::process::ExitCode;
use system_edge::{DiskFiles, WriterSink, program_words};

fn main(rt: HostRuntime) -> ExitCode {
    let Some(words) = program_words(&rt) else {
        return ExitCode::from(8);
    };
    let mut files = DiskFiles::new(&rt);
    let mut sink = WriterSink::new(io::writer(&rt));
    let mut notes = WriterSink::new(rt.stderr());
    ExitCode::from(graph_frame(&rt, rt.alloc(), words, &mut files, &mut sink, &mut notes))
}

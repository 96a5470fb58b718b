//! The program: does what its words ask for, over real files and standard output, on threads of the system.
//!
//! What it reads and writes is the system's, by the adapters of `system_edge`, and no contract says it.
#![tactic(auto)]

use frame_top::run_frame;
use job_base::OpenGate;
use std::alloc::Global;
use std::io;
use std::process::ExitCode;
use system_edge::{DiskFiles, WriterSink, program_words};

fn main(rt: HostRuntime) -> ExitCode {
    let Some(words) = program_words(&rt) else {
        return ExitCode::from(8);
    };
    let mut files = DiskFiles::new(&rt);
    let mut sink = WriterSink::new(io::writer(&rt));
    ExitCode::from(run_frame(&rt, rt.alloc(), &words, &mut files, &mut sink, &OpenGate))
}

// Whole frames: command lines that are answered over files and a sink in memory.

use frame_plan::SmallJobs;
use frame_rows::KERNELS;
use frame_top::{GateAlone, run_frame, run_watched};
use job_base::{Gate, MemFiles, MemSink, OpenGate};
use std::alloc::Global;
use std::sync::Wait;
use std::test::Fail;
use std::thread::Threads;

/// The numbers of workers at which each frame gives the same.
pub const WORKERS: [&str; 3] = ["1", "4", "64"];

/// What lies in the files `s` and `t`, and which reads of them fail, counted from 0.
#[derive(Clone, Copy)]
pub struct Given<'a> {
    pub script: &'a [u8],
    pub table: &'a [u8],
    pub failing: &'a [u64],
}

impl<'a> Given<'a> {
    /// A script and an empty file, both of which can be read.
    pub fn script(text: &'a str) -> Given<'a> {
        Given {
            script: text.as_bytes(),
            table: b"",
            failing: &[],
        }
    }

    /// A script and a table, both of which can be read.
    pub fn both(script: &'a str, table: &'a str) -> Given<'a> {
        Given {
            script: script.as_bytes(),
            table: table.as_bytes(),
            failing: &[],
        }
    }
}

/// The worked kernels, and then these lines.
pub fn with_kernels(alloc: Global, lines: &str) -> Result<String, Fail> {
    Ok(format!(in alloc; "{}{}", KERNELS, lines)?)
}

// The files of a run.
fn files_of(alloc: Global, given: &Given) -> Result<MemFiles, Fail> {
    let mut names = Vec::new(alloc);
    names.push(String::from_str(alloc, "s")?)?;
    names.push(String::from_str(alloc, "t")?)?;
    let mut contents = Vec::new(alloc);
    contents.push(Vec::from_slice(alloc, given.script)?)?;
    contents.push(Vec::from_slice(alloc, given.table)?)?;
    let failing = Vec::from_slice(alloc, given.failing)?;
    let files = MemFiles::new(alloc, names, contents, failing);
    Ok(files.ok().ok_or("memory")?)
}

// The words of a command line, each in memory of its own.
fn owned(alloc: Global, words: &[&str]) -> Result<Vec<String>, Fail> {
    let mut all = Vec::new(alloc);
    for word in words {
        all.push(String::from_str(alloc, *word)?)?;
    }
    Ok(all)
}

/// The status of a command line.
pub fn answer<R: Threads + Wait + Sync + AllocGlobal, G: Gate + Sync>(
    rt: &R,
    words: &[&str],
    given: &Given,
    sink: &mut MemSink,
    gate: &G,
) -> Result<u8, Fail> {
    let alloc = rt.alloc();
    let all = owned(alloc, words)?;
    let mut files = files_of(alloc, given)?;
    Ok(run_frame(rt, alloc, &all, &mut files, sink, gate))
}

// The words of a command line with so many workers.
fn with_workers<'a>(
    alloc: Global,
    workers: &'a str,
    words: &[&'a str],
) -> Result<Vec<&'a str>, Fail> {
    let mut all = Vec::new(alloc);
    all.push("--workers")?;
    all.push(workers)?;
    for word in words {
        all.push(*word)?;
    }
    Ok(all)
}

/// The status of a command line with so many workers.
pub fn status_of<R: Threads + Wait + Sync + AllocGlobal, G: Gate + Sync>(
    rt: &R,
    workers: &str,
    words: &[&str],
    given: &Given,
    sink: &mut MemSink,
    gate: &G,
) -> Result<u8, Fail> {
    let all = with_workers(rt.alloc(), workers, words)?;
    answer(rt, &all, given, sink, gate)
}

/// The same where jobs of little work are cut too, so that the gate sees all pieces that are scheduled.
pub fn status_of_cut<R: Threads + Wait + Sync + AllocGlobal, G: Gate + Sync>(
    rt: &R,
    workers: &str,
    words: &[&str],
    given: &Given,
    sink: &mut MemSink,
    gate: &G,
) -> Result<u8, Fail> {
    let alloc = rt.alloc();
    let all = with_workers(alloc, workers, words)?;
    let all = owned(alloc, &all)?;
    let mut files = files_of(alloc, given)?;
    let mut watch = GateAlone {
        gate,
        small_jobs: SmallJobs::Cut,
    };
    Ok(run_watched(rt, alloc, &all, &mut files, sink, &mut watch))
}

/// A sink with room for all that a frame writes here.
pub fn sink_of<R: AllocGlobal>(rt: &R) -> Result<MemSink, Fail> {
    let sink = MemSink::new(rt.alloc(), 4096, 4096, Vec::new(rt.alloc()));
    Ok(sink.ok().ok_or("memory")?)
}

/// What a command line gives instead of a status and a text, if it gives something else.
pub fn difference_of<R: Threads + Wait + Sync + AllocGlobal>(
    rt: &R,
    words: &[&str],
    given: &Given,
    status: u8,
    text: &str,
) -> Result<Option<String>, Fail> {
    let mut sink = sink_of(rt)?;
    let got = answer(rt, words, given, &mut sink, &OpenGate)?;
    if got == status && sink.bytes() == text.as_bytes() {
        return Ok(None);
    }
    let told = format!(in rt.alloc(); "status {} and {:?}", got, sink.bytes())?;
    Ok(Some(told))
}

/// The same with so many workers.
pub fn difference_at<R: Threads + Wait + Sync + AllocGlobal>(
    rt: &R,
    workers: &str,
    words: &[&str],
    given: &Given,
    status: u8,
    text: &str,
) -> Result<Option<String>, Fail> {
    let all = with_workers(rt.alloc(), workers, words)?;
    match difference_of(rt, &all, given, status, text)? {
        Some(told) => Ok(Some(format!(in rt.alloc(); "at {workers} workers {told}")?)),
        None => Ok(None),
    }
}

/// The same at the first number of workers at which it does.
pub fn difference<R: Threads + Wait + Sync + AllocGlobal>(
    rt: &R,
    words: &[&str],
    given: &Given,
    status: u8,
    text: &str,
) -> Result<Option<String>, Fail> {
    for workers in WORKERS {
        if let Some(told) = difference_at(rt, workers, words, given, status, text)? {
            return Ok(Some(told));
        }
    }
    Ok(None)
}

//! Runs each example at 1, 4 and 64 workers, and says whether it prints what is stored beside it.
//!
//! The folder `data` has the files of `examples` at the top of the repository, and `.ci/run` compares the two.
#![tactic(auto)]

use frame_top::run_frame;
use job_base::{MemFiles, MemSink, OpenGate};
use std::alloc::Global;
use std::fs;
use std::rt::Files;
use std::sync::Wait;
use std::thread::Threads;

// The examples, and which of them have a table.
const EXAMPLES: [(&str, bool); 19] = [
    ("auto", false),
    ("deferred", false),
    ("events", false),
    ("fall", false),
    ("frame", false),
    ("frames", false),
    ("guide_first_job", false),
    ("guide_frames", false),
    ("guide_lists", false),
    ("guide_order", false),
    ("guide_parallel", false),
    ("guide_race", false),
    ("guide_streams", false),
    ("guide_when", false),
    ("hash", false),
    ("prices", true),
    ("race", false),
    ("settle", false),
    ("triple", false),
];

// The bytes of a file of an example, where they can be read.
fn bytes_of<R: Files + AllocGlobal>(rt: &R, name: &str, kind: &str) -> Option<Vec<u8>> {
    let path = format!(in rt.alloc(); "{}.{}", name, kind).ok()?;
    fs::read(rt, path.as_str()).ok()
}

// The command line for so many workers. The script is the file `s`, and the table the file `t`.
fn words_of(alloc: Global, workers: &str, has_table: bool) -> Option<Vec<String>> {
    let mut words = Vec::new(alloc);
    words.push(String::from_str(alloc, "--workers").ok()?).ok()?;
    words.push(String::from_str(alloc, workers).ok()?).ok()?;
    words.push(String::from_str(alloc, "s").ok()?).ok()?;
    if has_table {
        words.push(String::from_str(alloc, "t").ok()?).ok()?;
    }
    Some(words)
}

// The files of an example.
fn files_of<R: Files + AllocGlobal>(rt: &R, name: &str, has_table: bool) -> Option<MemFiles> {
    let alloc = rt.alloc();
    let mut names = Vec::new(alloc);
    let mut contents = Vec::new(alloc);
    names.push(String::from_str(alloc, "s").ok()?).ok()?;
    contents.push(bytes_of(rt, name, "frame")?).ok()?;
    if has_table {
        names.push(String::from_str(alloc, "t").ok()?).ok()?;
        contents.push(bytes_of(rt, name, "csv")?).ok()?;
    }
    MemFiles::new(alloc, names, contents, Vec::new(alloc)).ok()
}

// Whether an example prints with so many workers what is stored. There is no answer where a file or memory is missing.
fn is_as_stored<R: Threads + Wait + Sync + Files + AllocGlobal>(
    rt: &R,
    name: &str,
    has_table: bool,
    workers: &str,
) -> Option<bool> {
    let alloc = rt.alloc();
    let stored = bytes_of(rt, name, "out")?;
    let words = words_of(alloc, workers, has_table)?;
    let mut files = files_of(rt, name, has_table)?;
    let mut sink = MemSink::new(alloc, 65_536, 65_536, Vec::new(alloc)).ok()?;
    run_frame(rt, alloc, &words, &mut files, &mut sink, &OpenGate);
    Some(sink.bytes() == stored.as_slice())
}

// What an example is.
fn verdict_on<R: Threads + Wait + Sync + Files + AllocGlobal>(
    rt: &R,
    name: &str,
    has_table: bool,
) -> &'static str {
    for workers in ["1", "4", "64"] {
        match is_as_stored(rt, name, has_table, workers) {
            Some(true) => {}
            Some(false) => return "something else than is stored",
            None => return "not run",
        }
    }
    "as stored"
}

fn main(rt: HostRuntime) {
    for (name, has_table) in EXAMPLES {
        let verdict = verdict_on(&rt, name, has_table);
        let _told = println!(rt; "{name}: {verdict}");
    }
}

// Scripts and their traces, and what is refused.

use job_base::{MemFiles, MemSink};
use std::alloc::Global;
use std::io;
use std::rt::Clock;
use std::sync::Wait;
use std::sync::atomic::{AtomicU64, Ordering};
use std::test::Fail;
use std::thread::Threads;
use std::time::Duration;
use trace_top::trace_frame;

// Each reading is a microsecond later.
#[derive(Drop)]
struct Counter {
    readings: AtomicU64,
}

impl Clock for Counter {
    fn monotonic(&self) -> io::Result<Duration> {
        Ok(Duration::from_nanos(self.readings.fetch_add(1_000, Ordering::SeqCst)))
    }

    fn since_1970(&self) -> io::Result<Duration> {
        Ok(Duration::from_nanos(0))
    }
}

const ROW: &str = "parallel scale(x: ro array, y: wo array) { y[index] = x[index] * 3; }\n\
     job total(y: ro array, t: wo ref) { var s = 0; for k in 0..len(y) { s = s + y[k]; } t = s; }\n\
     array x 4 = 1 2 3 4\n\
     array y 4\n\
     reference t\n\
     schedule h1 scale(x, y) 4 2\n\
     schedule h2 total(y, t) after h1\n\
     complete h2\n\
     print t\n";

const ROW_TRACE: &str = "[\n\
     {\"name\":\"thread_name\",\"ph\":\"M\",\"pid\":1,\"tid\":0,\"args\":{\"name\":\"script\"}},\n\
     {\"name\":\"lines 3 to 6\",\"cat\":\"script\",\"ph\":\"X\",\"pid\":1,\"tid\":0,\"ts\":1.000,\"dur\":1.000,\
     \"args\":{\"section\":1,\"segment\":1}},\n\
     {\"name\":\"line 7\",\"cat\":\"script\",\"ph\":\"X\",\"pid\":1,\"tid\":0,\"ts\":3.000,\"dur\":1.000,\
     \"args\":{\"section\":1,\"segment\":2}},\n\
     {\"name\":\"script\",\"cat\":\"script\",\"ph\":\"X\",\"pid\":1,\"tid\":0,\"ts\":5.000,\"dur\":1.000,\
     \"args\":{\"section\":1,\"segment\":3}},\n\
     {\"name\":\"wait\",\"cat\":\"wait\",\"ph\":\"X\",\"pid\":1,\"tid\":0,\"ts\":6.000,\"dur\":7.000,\
     \"args\":{\"jobs\":2}},\n\
     {\"name\":\"line 9\",\"cat\":\"script\",\"ph\":\"X\",\"pid\":1,\"tid\":0,\"ts\":13.000,\"dur\":1.000,\
     \"args\":{\"section\":1,\"segment\":4}},\n\
     {\"name\":\"script\",\"cat\":\"script\",\"ph\":\"X\",\"pid\":1,\"tid\":0,\"ts\":15.000,\"dur\":1.000,\
     \"args\":{\"section\":1,\"segment\":5}},\n\
     {\"name\":\"scale\",\"cat\":\"job\",\"ph\":\"X\",\"pid\":1,\"tid\":0,\"ts\":7.000,\"dur\":1.000,\
     \"args\":{\"job\":1,\"line\":6,\"piece\":1,\"pieces\":2,\"first\":0,\"count\":2}},\n\
     {\"name\":\"scale\",\"cat\":\"job\",\"ph\":\"X\",\"pid\":1,\"tid\":0,\"ts\":9.000,\"dur\":1.000,\
     \"args\":{\"job\":1,\"line\":6,\"piece\":2,\"pieces\":2,\"first\":2,\"count\":2}},\n\
     {\"name\":\"total\",\"cat\":\"job\",\"ph\":\"X\",\"pid\":1,\"tid\":0,\"ts\":11.000,\"dur\":1.000,\
     \"args\":{\"job\":2,\"line\":7,\"piece\":1,\"pieces\":1,\"first\":0,\"count\":1}},\n\
     {\"name\":\"waits\",\"cat\":\"waits\",\"ph\":\"s\",\"id\":0,\"pid\":1,\"tid\":0,\"ts\":9.000},\n\
     {\"name\":\"waits\",\"cat\":\"waits\",\"ph\":\"f\",\"bp\":\"e\",\"id\":0,\"pid\":1,\"tid\":0,\"ts\":11.000}\n\
     ]\n";

const TESTED: &str = "reference r = 1\n\
     when r < 2 {\n\
     print r\n\
     }\n";

const TESTED_TRACE: &str = "[\n\
     {\"name\":\"thread_name\",\"ph\":\"M\",\"pid\":1,\"tid\":0,\"args\":{\"name\":\"script\"}},\n\
     {\"name\":\"section\",\"cat\":\"script\",\"ph\":\"X\",\"pid\":1,\"tid\":0,\"ts\":0.000,\"dur\":1.000,\
     \"args\":{\"section\":1}},\n\
     {\"name\":\"plan\",\"cat\":\"plan\",\"ph\":\"X\",\"pid\":1,\"tid\":0,\"ts\":2.000,\"dur\":1.000,\
     \"args\":{\"section\":2}},\n\
     {\"name\":\"section\",\"cat\":\"script\",\"ph\":\"X\",\"pid\":1,\"tid\":0,\"ts\":3.000,\"dur\":1.000,\
     \"args\":{\"section\":2}}\n\
     ]\n";

const BLOCK: &str = "parallel scale(x: ro array, y: wo array) { y[index] = x[index] * 3; }\n\
     array x 2 = 1 2\n\
     array y 2\n\
     reference r = 1\n\
     when r < 2 {\n\
     schedule h scale(x, y) 2 1\n\
     complete h\n\
     print y\n\
     }\n";

const BLOCK_TRACE: &str = "[\n\
     {\"name\":\"thread_name\",\"ph\":\"M\",\"pid\":1,\"tid\":0,\"args\":{\"name\":\"script\"}},\n\
     {\"name\":\"section\",\"cat\":\"script\",\"ph\":\"X\",\"pid\":1,\"tid\":0,\"ts\":0.000,\"dur\":1.000,\
     \"args\":{\"section\":1}},\n\
     {\"name\":\"plan\",\"cat\":\"plan\",\"ph\":\"X\",\"pid\":1,\"tid\":0,\"ts\":2.000,\"dur\":1.000,\
     \"args\":{\"section\":2}},\n\
     {\"name\":\"line 6\",\"cat\":\"script\",\"ph\":\"X\",\"pid\":1,\"tid\":0,\"ts\":4.000,\"dur\":1.000,\
     \"args\":{\"section\":2,\"segment\":1}},\n\
     {\"name\":\"script\",\"cat\":\"script\",\"ph\":\"X\",\"pid\":1,\"tid\":0,\"ts\":6.000,\"dur\":1.000,\
     \"args\":{\"section\":2,\"segment\":2}},\n\
     {\"name\":\"wait\",\"cat\":\"wait\",\"ph\":\"X\",\"pid\":1,\"tid\":0,\"ts\":7.000,\"dur\":5.000,\
     \"args\":{\"jobs\":1}},\n\
     {\"name\":\"line 8\",\"cat\":\"script\",\"ph\":\"X\",\"pid\":1,\"tid\":0,\"ts\":12.000,\"dur\":1.000,\
     \"args\":{\"section\":2,\"segment\":3}},\n\
     {\"name\":\"script\",\"cat\":\"script\",\"ph\":\"X\",\"pid\":1,\"tid\":0,\"ts\":14.000,\"dur\":1.000,\
     \"args\":{\"section\":2,\"segment\":4}},\n\
     {\"name\":\"scale\",\"cat\":\"job\",\"ph\":\"X\",\"pid\":1,\"tid\":0,\"ts\":8.000,\"dur\":1.000,\
     \"args\":{\"job\":1,\"line\":6,\"piece\":1,\"pieces\":2,\"first\":0,\"count\":1}},\n\
     {\"name\":\"scale\",\"cat\":\"job\",\"ph\":\"X\",\"pid\":1,\"tid\":0,\"ts\":10.000,\"dur\":1.000,\
     \"args\":{\"job\":1,\"line\":6,\"piece\":2,\"pieces\":2,\"first\":1,\"count\":1}}\n\
     ]\n";

const USAGE: &str =
    "usage: frame_trace [--workers N] SCRIPT [TABLE] or frame_trace [--workers N] --gen NUMBER --jobs K\n";

// What the words give on a file `s`: the status, the lines and the trace.
fn answer<R: Threads + Wait + Sync + AllocGlobal>(
    rt: &R,
    words: &[&str],
    script: &str,
) -> Result<(u8, MemSink, MemSink), Fail> {
    let alloc = rt.alloc();
    let mut all = Vec::new(alloc);
    for word in words {
        all.push(String::from_str(alloc, *word)?)?;
    }
    let mut names = Vec::new(alloc);
    names.push(String::from_str(alloc, "s")?)?;
    let mut contents = Vec::new(alloc);
    contents.push(Vec::from_slice(alloc, script.as_bytes())?)?;
    let mut files = MemFiles::new(alloc, names, contents, Vec::new(alloc))
        .ok()
        .ok_or("memory")?;
    let lines = MemSink::new(alloc, 4_096, 4_096, Vec::new(alloc));
    let mut lines = lines.ok().ok_or("memory")?;
    let sink = MemSink::new(alloc, 65_536, 4_096, Vec::new(alloc));
    let mut sink = sink.ok().ok_or("memory")?;
    let clock = Counter {
        readings: AtomicU64::new(5_000),
    };
    let status = trace_frame(rt, alloc, &clock, &all, &mut files, &mut lines, &mut sink);
    Ok((status, lines, sink))
}

// Words and a script, with the status, the lines and the trace that they give.
const CASES: [(&[&str], &str, u8, &str, &str); 7] = [
    (&["--workers=1", "s"], ROW, 0, "t = 30\n", ROW_TRACE),
    (&["s", "--workers", "1"], TESTED, 0, "r = 1\n", TESTED_TRACE),
    (&["--workers=1", "s"], BLOCK, 0, "y = [3, 6]\n", BLOCK_TRACE),
    (&["--depth", "s"], ROW, 2, USAGE, ""),
    (&[], ROW, 2, USAGE, ""),
    (&["t"], ROW, 6, "cannot read script\n", ""),
    (
        &["s"],
        "print x\n",
        3,
        "script refused line 1: unknown name\n",
        "",
    ),
];

#[test]
fn traces(rt: HostRuntime) -> Result<(), Fail> {
    for (words, script, want, text, trace) in CASES {
        let (status, lines, sink) = answer(&rt, words, script)?;
        assert_eq!(rt; status, want, "of {script}");
        assert_eq!(rt; lines.bytes(), text.as_bytes());
        assert_eq!(rt; sink.bytes(), trace.as_bytes(), "of {script}");
    }
    Ok(())
}

// Scripts and their pictures in the language of Graphviz, and what is refused.

use graph_top::graph_frame;
use job_base::{MemFiles, MemSink};
use std::sync::Wait;
use std::test::Fail;
use std::thread::Threads;

const ROW: &str = "parallel scale(x: ro array, y: wo array) { y[index] = x[index] * 3; }\n\
     job total(y: ro array, t: wo ref) { var s = 0; for k in 0..len(y) { s = s + y[k]; } t = s; }\n\
     array x 4 = 1 2 3 4\n\
     array y 4\n\
     reference t\n\
     schedule h1 scale(x, y) 4 2\n\
     schedule h2 total(y, t) after h1\n\
     complete h2\n\
     print t\n";

const ROW_GRAPH: &str = "digraph section1 {\n  \
     label=\"jobs 2, pieces 3, refused 0; rounds 2, widest 2, workers 4: 2 rounds, at least 2\" labelloc=t\n  \
     node [shape=box fontname=monospace fontsize=11]\n  \
     edge [fontname=monospace fontsize=10]\n  \
     j1 [label=\"job 1 h1\\lscale(x, y)\\lline 6, indexes 4, pieces 2\\lro x\\lwo y\\l\" penwidth=2.5]\n  \
     j2 [label=\"job 2 h2\\ltotal(y, t)\\lline 7\\lro y\\lwo t\\l\" penwidth=2.5]\n  \
     j1 -> j2 [label=\"y\" penwidth=2.5]\n\
     }\n";

const RACE: &str = "parallel move(p: rw array, v: ro array) { p[index] = p[index] + v[index]; }\n\
     job sum(p: ro array, t: wo ref) { var s = 0; for k in 0..len(p) { s = s + p[k]; } t = s; }\n\
     array p 6 = 0 10 20 30 40 50\n\
     array v 6 = 1 2 3 4 5 6\n\
     reference t\n\
     schedule moved move(p, v) 6 2\n\
     schedule done sum(p, t)\n\
     schedule done sum(p, t) after moved\n\
     complete done\n\
     print t\n\
     \n\
     # Line 7 would race with `move`, so it is refused. Line 8 waits for it. So does a schedule that finds by \
     itself what it\n\
     # has to wait for:\n\
     \n\
     set p 0 = 100\n\
     schedule moved move(p, v) 6 2\n\
     schedule auto done sum(p, t)\n\
     complete done\n\
     print t\n";

const RACE_GRAPH: &str = "digraph section1 {\n  \
     label=\"jobs 4, pieces 8, refused 1; rounds 4, widest 3, workers 4: 4 rounds, at least 4\" labelloc=t\n  \
     node [shape=box fontname=monospace fontsize=11]\n  \
     edge [fontname=monospace fontsize=10]\n  \
     j1 [label=\"job 1 moved\\lmove(p, v)\\lline 6, indexes 6, pieces 3\\lro v\\lrw p\\l\" penwidth=2.5]\n  \
     j2 [label=\"job 2 done\\lsum(p, t)\\lline 8\\lro p\\lwo t\\l\" penwidth=2.5]\n  \
     j3 [label=\"job 3 moved\\lmove(p, v)\\lline 16, indexes 6, pieces 3\\lro v\\lrw p\\l\" penwidth=2.5]\n  \
     j4 [label=\"job 4 done\\lsum(p, t)\\lline 17\\lro p\\lwo t\\l\" penwidth=2.5]\n  \
     r1 [label=\"refused done\\lsum(p, t)\\lline 7\\lpending job 1 on p\\l\" color=red fontcolor=red \
     style=dashed]\n  \
     j1 -> j2 [label=\"p\" penwidth=2.5]\n  \
     j2 -> j3 [label=\"\" style=dashed penwidth=2.5]\n  \
     j3 -> j4 [label=\"p\" penwidth=2.5]\n  \
     j1 -> r1 [label=\"p\" style=dashed color=red fontcolor=red arrowhead=tee]\n\
     }\n";

const AUTO: &str =
    "# Automatic dependencies: each schedule waits for the jobs that conflict with it, and for no other.\n\
     #\n\
     # `left` and `right` share no container, so they may run side by side; `join` waits for both.\n\
     \n\
     parallel fill(y: wo array, c: int) { y[index] = index * c; }\n\
     job join(a: ro array, b: ro array, t: wo ref) {\n    \
     var s = 0;\n    \
     for k in 0..len(a) { s = s + a[k] * b[k]; }\n    \
     t = s;\n\
     }\n\
     \n\
     array a 100\n\
     array b 100\n\
     reference t\n\
     \n\
     schedule auto left fill(a, 1) 100 16\n\
     schedule auto right fill(b, 2) 100 16\n\
     schedule auto joined join(a, b, t)\n\
     complete auto t\n\
     print t\n\
     dispose auto a as gone\n\
     dispose auto b as gone\n";

const AUTO_GRAPH: &str = "digraph section1 {\n  \
     label=\"jobs 3, pieces 15, refused 0; rounds 2, widest 14, workers 4: 5 rounds, at least 4\" labelloc=t\n  \
     node [shape=box fontname=monospace fontsize=11]\n  \
     edge [fontname=monospace fontsize=10]\n  \
     j1 [label=\"job 1 left\\lfill(a, 1)\\lline 16, indexes 100, pieces 7\\lwo a\\l\" penwidth=2.5]\n  \
     j2 [label=\"job 2 right\\lfill(b, 2)\\lline 17, indexes 100, pieces 7\\lwo b\\l\"]\n  \
     j3 [label=\"job 3 joined\\ljoin(a, b, t)\\lline 18\\lro a b\\lwo t\\l\" penwidth=2.5]\n  \
     j2 -> j3 [label=\"b\"]\n  \
     j1 -> j3 [label=\"a\" penwidth=2.5]\n\
     }\n";

const TESTED: &str = "parallel scale(x: ro array, y: wo array) { y[index] = x[index] * 3; }\n\
     job total(y: ro array, t: wo ref) { var s = 0; for k in 0..len(y) { s = s + y[k]; } t = s; }\n\
     array x 4 = 1 2 3 4\n\
     array y 4\n\
     reference t\n\
     schedule h1 scale(x, y) 4 2\n\
     schedule h2 total(y, t) after h1\n\
     complete h2\n\
     when t > 20 {\n    \
     schedule h3 scale(y, x) 4 2\n    \
     schedule h4 total(x, t)\n    \
     complete h3\n\
     }\n\
     when t < 20 {\n    \
     schedule h5 scale(x, y) 4 2\n    \
     complete h5\n\
     }\n\
     print x\n";

// A graph for each section: the first block is run, and in it a schedule is refused; the second one is passed by.
const TESTED_GRAPH: &str = "digraph section1 {\n  \
     label=\"jobs 2, pieces 3, refused 0; rounds 2, widest 2, workers 4: 2 rounds, at least 2\" labelloc=t\n  \
     node [shape=box fontname=monospace fontsize=11]\n  \
     edge [fontname=monospace fontsize=10]\n  \
     j1 [label=\"job 1 h1\\lscale(x, y)\\lline 6, indexes 4, pieces 2\\lro x\\lwo y\\l\" penwidth=2.5]\n  \
     j2 [label=\"job 2 h2\\ltotal(y, t)\\lline 7\\lro y\\lwo t\\l\" penwidth=2.5]\n  \
     j1 -> j2 [label=\"y\" penwidth=2.5]\n\
     }\n\
     digraph section2 {\n  \
     label=\"jobs 1, pieces 2, refused 1; rounds 1, widest 2, workers 4: 1 rounds, at least 1\" labelloc=t\n  \
     node [shape=box fontname=monospace fontsize=11]\n  \
     edge [fontname=monospace fontsize=10]\n  \
     j3 [label=\"job 3 h3\\lscale(y, x)\\lline 10, indexes 4, pieces 2\\lro y\\lwo x\\l\" penwidth=2.5]\n  \
     r1 [label=\"refused h4\\ltotal(x, t)\\lline 11\\lpending job 3 on x\\l\" color=red fontcolor=red \
     style=dashed]\n  \
     j3 -> r1 [label=\"x\" style=dashed color=red fontcolor=red arrowhead=tee]\n\
     }\n\
     digraph section3 {\n  \
     label=\"jobs 0, pieces 0, refused 0; rounds 0, widest 0, workers 4: 0 rounds, at least 0\" labelloc=t\n  \
     node [shape=box fontname=monospace fontsize=11]\n  \
     edge [fontname=monospace fontsize=10]\n\
     }\n";

const USAGE: &str =
    "usage: frame_graph [--workers N] [--dot] SCRIPT [TABLE] or frame_graph [--workers N] [--dot] --gen NUMBER \
     --jobs K\n";

// What the words give on a file `s`: the status, the picture and the notes.
fn answer<R: Threads + Wait + Sync + AllocGlobal>(
    rt: &R,
    words: &[&str],
    script: &str,
) -> Result<(u8, MemSink, MemSink), Fail> {
    let alloc = rt.alloc();
    let mut all = Vec::new(alloc);
    for word in words {
        all.push(String::from_str(alloc, *word)?)?;
    }
    let mut names = Vec::new(alloc);
    names.push(String::from_str(alloc, "s")?)?;
    let mut contents = Vec::new(alloc);
    contents.push(Vec::from_slice(alloc, script.as_bytes())?)?;
    let mut files = MemFiles::new(alloc, names, contents, Vec::new(alloc))
        .ok()
        .ok_or("memory")?;
    let sink = MemSink::new(alloc, 65_536, 4_096, Vec::new(alloc));
    let mut sink = sink.ok().ok_or("memory")?;
    let notes = MemSink::new(alloc, 4_096, 4_096, Vec::new(alloc));
    let mut notes = notes.ok().ok_or("memory")?;
    let status = graph_frame(rt, alloc, all, &mut files, &mut sink, &mut notes);
    Ok((status, sink, notes))
}

// A row of the table below: the script, and its graph.
const GRAPHS: [(&str, &str); 4] = [
    (ROW, ROW_GRAPH),
    (RACE, RACE_GRAPH),
    (AUTO, AUTO_GRAPH),
    (TESTED, TESTED_GRAPH),
];

#[test]
fn graphs(rt: HostRuntime) -> Result<(), Fail> {
    for (script, want) in GRAPHS {
        let (status, sink, notes) = answer(&rt, &["--dot", "s"], script)?;
        assert_eq!(rt; status, 0);
        assert_eq!(rt; sink.bytes(), want.as_bytes());
        assert_eq!(rt; notes.bytes(), b"".as_slice());
    }
    Ok(())
}

// Words and a script, with the status and the notes that they give.
const REFUSED: [(&str, &str, u8, &str); 3] = [
    ("--depth", "", 2, USAGE),
    ("t", "", 6, "cannot read script\n"),
    ("s", "print x\n", 3, "script refused line 1: unknown name\n"),
];

#[test]
fn refused(rt: HostRuntime) -> Result<(), Fail> {
    for (word, script, want, text) in REFUSED {
        let (status, sink, notes) = answer(&rt, &[word], script)?;
        assert_eq!(rt; status, want, "of {word} and {script}");
        assert_eq!(rt; sink.bytes(), b"".as_slice());
        assert_eq!(rt; notes.bytes(), text.as_bytes());
    }
    Ok(())
}

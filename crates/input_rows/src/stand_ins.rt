// What stands in for the outside: cells, files, sinks and gates in memory.
ghost use Rattle.std.specs.Prelude.{◌≤◌};

use job_base::{
    CountingGate, FileFault, Files, FlatMem, Gate, Mem, MemFiles, MemSink, NullSink, OpenGate,
    OrderGate, PieceId, Sink, Word,
};
use row_texts::{row, same, table};
use std::alloc::Global;
use std::test::Fail;

#[test]
fn flat_cells(rt: HostRuntime) -> Result<(), Fail> {
    let mut mem = FlatMem::new(rt.alloc(), 3)?;
    let before = [mem.load(Word(0)), mem.load(Word(1)), mem.load(Word(2))];
    mem.store(Word(1), -7);
    let after = [mem.load(Word(0)), mem.load(Word(1)), mem.load(Word(2))];
    let mut again = FlatMem::of(mem.into_cells());
    let kept = [
        again.load(Word(0)),
        again.load(Word(1)),
        again.load(Word(2)),
    ];
    assert!(rt; before == [0, 0, 0] && after == [0, -7, 0] && kept == [0, -7, 0]);
    Ok(())
}

// The files `a`, `b` and once more `a`. Read 2 is named as one that fails, and the second `a` is never seen.
fn three_files(alloc: Global) -> Result<MemFiles, Fail> {
    let mut names = Vec::new(alloc);
    let mut contents = Vec::new(alloc);
    for (name, text) in [("a", "first"), ("b", ""), ("a", "third")] {
        names.push(String::from_str(alloc, name)?)?;
        contents.push(Vec::from_slice(alloc, text.as_bytes())?)?;
    }
    let mut failing = Vec::new(alloc);
    failing.push(2u64)?;
    Ok(MemFiles::new(alloc, names, contents, failing)?)
}

// A name and a limit, and what a read gives: bytes, or a fault.
const READS: &str = "
a 5 | first
a 4 | TooLong
a 5 | Failed
c 5 | Failed
b 0 |
";

fn read(alloc: Global, files: &mut MemFiles, of: &str) -> Result<String, Fail> {
    let (name, limit) = of.split_once(' ').ok_or("no limit")?;
    let limit = limit.parse::<u64>().ok().ok_or("no limit")?;
    match files.read(alloc, name, limit) {
        Ok(bytes) => Ok(String::from_utf8(bytes).ok().ok_or("no text")?),
        Err(fault) => Ok(format!(in alloc; "{fault:?}")?),
    }
}

#[test]
fn files_in_memory(rt: HostRuntime) -> Result<(), Fail> {
    let mut files = three_files(rt.alloc())?;
    for line in table(READS)?.lines() {
        if let Some((of, wanted)) = row(line)? {
            same(line, &read(rt.alloc(), &mut files, of)?, wanted)?;
        }
    }
    Ok(())
}

// What a write of seven bytes to a new sink answers, what is taken then, and how many writes failed.
fn written(alloc: Global, room: u32, step: u32, failing: &[u64]) -> Result<String, Fail>
    requires { 1 ≤ step }
{
    let mut sink = MemSink::new(alloc, room, step, Vec::from_slice(alloc, failing)?)?;
    let answer = sink.write(b"t = 30\n");
    let taken = str::from_utf8(sink.bytes()).ok().ok_or("no text")?;
    Ok(format!(in alloc; "{answer:?} {taken:?} {}", sink.faults())?)
}

#[test]
fn sinks_in_memory(rt: HostRuntime) -> Result<(), Fail> {
    let alloc = rt.alloc();
    same("a byte", &written(alloc, 100, 1, &[])?, r#"Ok(1) "t" 0"#)?;
    same(
        "a fault",
        &written(alloc, 100, 100, &[0])?,
        r#"Err(SinkFault) "" 1"#,
    )?;
    same(
        "a later fault",
        &written(alloc, 100, 3, &[3])?,
        r#"Ok(3) "t =" 0"#,
    )?;
    same(
        "no room",
        &written(alloc, 0, 1, &[])?,
        r#"Err(SinkFault) "" 1"#,
    )?;
    same(
        "little room",
        &written(alloc, 5, 9, &[])?,
        r#"Ok(5) "t = 3" 0"#,
    )?;
    same("all", &written(alloc, 7, 7, &[])?, r#"Ok(7) "t = 30\n" 0"#)?;
    assert!(rt; NullSink::new().write(b"t = 30\n") == Ok(7));
    Ok(())
}

// One thread alone: what comes second is seen only where it has come already.
#[test]
fn gates_in_one_thread(rt: HostRuntime) -> Result<(), Fail> {
    OpenGate.enter(0, PieceId(0));
    OpenGate.leave(0, PieceId(0));
    for (order, met) in [([0, 1], true), ([1, 0], false)] {
        let gate = CountingGate::new(PieceId(1), PieceId(0), 3);
        let kept = OrderGate::new(rt.alloc(), vec![in rt.alloc(); PieceId(0), PieceId(1)]?, 3)?;
        for piece in order {
            gate.enter(0, PieceId(piece));
            gate.leave(0, PieceId(piece));
            kept.enter(0, PieceId(piece));
            kept.leave(0, PieceId(piece));
        }
        kept.enter(0, PieceId(2));
        assert!(rt; gate.met() == met && kept.kept() == met, "{order:?}");
    }
    Ok(())
}

fn may_move<T: Send>(_: &T) {}

fn may_be_shared<T: Sync>(_: &T) {}

// Workers share a gate, and the one that runs the script takes the sink.
#[test]
fn threads_may_have_them(rt: HostRuntime) -> Result<(), Fail> {
    may_be_shared(&OpenGate);
    let counting = CountingGate::new(PieceId(0), PieceId(1), 0);
    may_be_shared(&counting);
    may_move(&counting);
    let ordering = OrderGate::new(rt.alloc(), Vec::new(rt.alloc()), 0)?;
    may_be_shared(&ordering);
    may_move(&ordering);
    may_move(&NullSink::new());
    may_move(&MemSink::new(rt.alloc(), 1, 1, Vec::new(rt.alloc()))?);
    Ok(())
}

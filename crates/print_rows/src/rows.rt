// Every text once, sinks that take a few bytes at a time or fail, and a large array.
ghost use Rattle.std.specs.Prelude.{◌≡◌, ◌≢◌, ◌+◌, ◌^◌, ◌<◌, ◌≤◌, ℕ, pos, None, length, IfOk};
ghost use Rattle.job_base.specs.Cells.{cells_of};
ghost use Rattle.job_base.specs.Forms.{AreAllowed};
ghost use Rattle.frame_ast.specs.declared.kernel.ParamKind.TheVariants.{Int as IntKind};
ghost use Rattle.frame_ast.specs.Contents.{Contents};
ghost use Rattle.kernel_exec.specs.Binds.{kind_of, start_of, end_of};
ghost use Rattle.kernel_exec.specs.Layout.{Holds};

use frame_ast::kernel::FaultKind;
use frame_core::Report;
use frame_print::{Outgoing, print_parts, print_script_refusal, print_text};
use job_base::{FlatMem, JobId, Mem, MemSink, NoMemory, Refusal, Sink, SinkFault, Trap, Word};
use kernel_exec::Bind;
use native_array::{ArrayAt, RefAt};
use native_list::ListAt;
use native_map::MapAt;
use native_stream::StreamAt;
use std::alloc::Global;
use std::test::Fail;

// Cells of 0.
fn zeros(alloc: Global, n: u32) -> Result<FlatMem, NoMemory>
    ensures length { IfOk result (λ m. length m ≡ n) }
    ensures zero { IfOk result (λ m. (w : ℕ) → cells_of m w ≡ pos 0) }
{
    FlatMem::new(alloc, n)
}

// A sink for short lines, that takes 7 bytes at a time.
fn sevens(alloc: Global) -> Result<MemSink, NoMemory> {
    MemSink::new(alloc, 1000, 7, Vec::new(alloc))
}

// The line of a container named `x`.
fn line<M: Mem>(
    at: &Bind,
    mem: &mut M,
    out: &mut Outgoing,
    sink: &mut MemSink,
) -> Result<(), SinkFault>
    requires container { kind_of at.now ≢ IntKind }
    requires fits { end_of at.now < 2 ^ 32 }
    requires readable { AreAllowed (start_of at.now) (end_of at.now) (M.readable mem.old) }
    requires stands { (contents : Contents) × Holds (M.cells mem.old) at.now contents }
    ensures cells { M.cells mem.new ≡ M.cells mem.old }
    ensures readable { M.readable mem.new ≡ M.readable mem.old }
{
    out.put_container(b"x", at, mem, sink)?;
    out.flush(sink)
}

fn array(alloc: Global, values: &[i64], out: &mut Outgoing, sink: &mut MemSink) -> Result<(), Fail>
    requires { length values.now < 10 }
{
    let len = values.len() as u32;
    let mut mem = zeros(alloc, len)?;
    for (i, value) in values.iter().enumerate() {
        mem.store(Word(i as u32), *value);
    }
    let at = ArrayAt { start: 0, len };
    line(&Bind::Array { at, own: 0 }, &mut mem, out, sink)?;
    Ok(())
}

fn reference(
    alloc: Global,
    value: i64,
    out: &mut Outgoing,
    sink: &mut MemSink,
) -> Result<(), Fail> {
    let mut mem = zeros(alloc, 2)?;
    mem.store(Word(1), value);
    line(&Bind::Ref(RefAt { start: 1 }), &mut mem, out, sink)?;
    Ok(())
}

// A list, and a view of it.
fn list(
    alloc: Global,
    cap: u32,
    values: &[i64],
    out: &mut Outgoing,
    sink: &mut MemSink,
) -> Result<(), Fail>
    requires { cap < 10 }
{
    native_list::laws::zero_words_are_empty();
    let at = ListAt { start: 0, cap };
    let mut mem = zeros(alloc, cap + 1)?;
    for value in values {
        at.add(&mut mem, *value)?;
    }
    line(&Bind::List(at), &mut mem, out, sink)?;
    line(&Bind::View { at, own: 0 }, &mut mem, out, sink)?;
    Ok(())
}

fn map(
    alloc: Global,
    cap: u32,
    pairs: &[(i64, i64)],
    out: &mut Outgoing,
    sink: &mut MemSink,
) -> Result<(), Fail>
    requires { cap < 10 }
{
    let at = MapAt::new(0, cap);
    let mut mem = zeros(alloc, native_map::words_of(cap) as u32)?;
    for (key, value) in pairs {
        at.put(&mut mem, *key, *value)?;
    }
    line(&Bind::Map(at), &mut mem, out, sink)?;
    Ok(())
}

// A stream of 3 indexes. Each of `begun` is begun, and then each item is written to its index.
fn stream(
    alloc: Global,
    begun: &[i64],
    items: &[(u32, i64)],
    out: &mut Outgoing,
    sink: &mut MemSink,
) -> Result<(), Fail> {
    let at = StreamAt {
        start: 0,
        count: 3,
        room: 2,
    };
    let mut mem = zeros(alloc, native_stream::words_of(3, 2) as u32)?;
    for i in begun {
        at.begin(&mut mem, *i)?;
    }
    for (i, item) in items {
        at.write(&mut mem, *i % 3, *item)?;
    }
    line(&Bind::Stream { at, own: true }, &mut mem, out, sink)?;
    Ok(())
}

// Numbers of each length that is written in place, and the first that isn't, are among those of the third array.
const CONTAINERS: &str = "x = [-9223372036854775808, 0, 9223372036854775807]
x = []
x = [0, 9, 10, 99, 100, 999, 1000, 9999, 10000]
x = -5
x = [8, -7]
x = [8, -7]
x = []
x = []
x = {-2: 21, 7: 0, 9223372036854775807: 1}
x = {}
x = [[7], [], [9, 8]]
x = [[], [], []]
";

#[test]
fn containers(rt: HostRuntime) -> Result<(), Fail> {
    let alloc = rt.alloc();
    let (least, greatest) = (i64::MIN, i64::MAX);
    let numbers = [0, 9, 10, 99, 100, 999, 1_000, 9_999, 10_000];
    let mut out = Outgoing::new(alloc)?;
    let mut sink = sevens(alloc)?;
    array(alloc, &[least, 0, greatest], &mut out, &mut sink)?;
    array(alloc, &[], &mut out, &mut sink)?;
    array(alloc, &numbers, &mut out, &mut sink)?;
    reference(alloc, -5, &mut out, &mut sink)?;
    list(alloc, 3, &[8, -7], &mut out, &mut sink)?;
    list(alloc, 0, &[], &mut out, &mut sink)?;
    let pairs = [(greatest, 1), (-2, 20), (7, 0), (-2, 21)];
    map(alloc, 3, &pairs, &mut out, &mut sink)?;
    map(alloc, 0, &[], &mut out, &mut sink)?;
    let items = [(2, 9), (0, 7), (2, 8)];
    stream(alloc, &[2, 0], &items, &mut out, &mut sink)?;
    stream(alloc, &[], &[], &mut out, &mut sink)?;
    assert_eq!(rt; sink.bytes(), CONTAINERS.as_bytes());
    Ok(())
}

const REFUSALS: [Refusal; 12] = [
    Refusal::Disposed,
    Refusal::StaleView,
    Refusal::NotParallel,
    Refusal::Alias,
    Refusal::Pending(JobId(4096)),
    Refusal::StoreFull,
    Refusal::Range,
    Refusal::Full,
    Refusal::MissingKey,
    Refusal::PresentKey,
    Refusal::TempInJob,
    Refusal::Busy(JobId(2)),
];

const REFUSED: &str = "refused 15: disposed x
refused 15: stale view x
refused 15: not parallel x
refused 15: alias x
refused 15: pending job 4096 on x
refused 15: store full
refused 15: range
refused 15: full
refused 15: missing key
refused 15: present key
refused 15: temp x
refused 15: busy job 2
";

const FAULTS: [FaultKind; 7] = [
    FaultKind::Syntax,
    FaultKind::UnknownName,
    FaultKind::DuplicateName,
    FaultKind::KindMismatch,
    FaultKind::ReadOfWriteOnly,
    FaultKind::WriteOfReadOnly,
    FaultKind::Limit,
];

const FAULTY: &str = "script refused line 12: syntax
script refused line 12: unknown name
script refused line 12: duplicate name
script refused line 12: kind mismatch
script refused line 12: read of write-only
script refused line 12: write of read-only
script refused line 12: limit
";

// A line of each kind.
#[test]
fn refusals(rt: HostRuntime) -> Result<(), Fail> {
    let alloc = rt.alloc();
    let mut out = Outgoing::new(alloc)?;
    let mut sink = sevens(alloc)?;
    for refusal in REFUSALS {
        out.put_refusal(15, refusal, b"x", &mut sink)?;
        out.flush(&mut sink)?;
    }
    assert_eq!(rt; sink.bytes(), REFUSED.as_bytes());
    let mut sink = sevens(alloc)?;
    for kind in FAULTS {
        print_script_refusal(12, kind, &mut sink)?;
    }
    assert_eq!(rt; sink.bytes(), FAULTY.as_bytes());
    Ok(())
}

const TRAPS: [Trap; 9] = [
    Trap::Overflow,
    Trap::ZeroDivisor,
    Trap::Range,
    Trap::OwnIndex,
    Trap::Full,
    Trap::MissingKey,
    Trap::PresentKey,
    Trap::Written,
    Trap::Budget,
];

const TRAPPED: &str = "trap job 3 index 7: overflow
traps 1
trap job 3 index 7: overflow
traps 2
trap job 3 index 7: zero-divisor
traps 2
trap job 3 index 7: range
traps 2
trap job 3 index 7: own-index
traps 2
trap job 3 index 7: full
traps 2
trap job 3 index 7: missing-key
traps 2
trap job 3 index 7: present-key
traps 2
trap job 3 index 7: written
traps 2
trap job 3 index 7: budget
traps 2
trap job 3 index 7: budget
traps 40
";

fn trapped(
    traps: u64,
    trap: Trap,
    out: &mut Outgoing,
    sink: &mut MemSink,
) -> Result<(), SinkFault> {
    let report = Report {
        traps,
        refused: 5,
        job: JobId(3),
        index: 7,
        trap,
    };
    out.put_traps(&report, sink)?;
    out.flush(sink)
}

// No trap, one, two of each kind, and many.
#[test]
fn traps(rt: HostRuntime) -> Result<(), Fail> {
    let alloc = rt.alloc();
    let mut out = Outgoing::new(alloc)?;
    let mut sink = sevens(alloc)?;
    trapped(0, Trap::Overflow, &mut out, &mut sink)?;
    trapped(1, Trap::Overflow, &mut out, &mut sink)?;
    for trap in TRAPS {
        trapped(2, trap, &mut out, &mut sink)?;
    }
    trapped(40, Trap::Budget, &mut out, &mut sink)?;
    assert_eq!(rt; sink.bytes(), TRAPPED.as_bytes());
    Ok(())
}

#[test]
fn other_texts(rt: HostRuntime) -> Result<(), Fail> {
    let alloc = rt.alloc();
    let mut out = Outgoing::new(alloc)?;
    let mut sink = sevens(alloc)?;
    out.put_overdue(18, b"a", 13, &mut sink)?;
    print_text(b"table refused: empty\n", &mut sink)?;
    out.flush(&mut sink)?;
    print_parts(&[b"no", b" ", b"more\n"], &mut sink)?;
    assert_eq!(rt;
        sink.bytes(),
        b"table refused: empty\noverdue 18: a made on line 13\nno more\n".as_slice()
    );
    Ok(())
}

// Of a line whose write of a number fails, at steps of so many bytes, just what fits before that write is taken.
fn fails_there(alloc: Global, step: u32, failing: u64) -> Result<bool, Fail>
    requires { (1 ≤ step) × (step ≤ 100) × (failing < 25) }
{
    let text = b"refused 9: alias ab\n".as_slice();
    let mut out = Outgoing::new(alloc)?;
    let mut sink = MemSink::new(alloc, 200, step, [failing].to_vec(alloc)?)?;
    out.put_refusal(9, Refusal::Alias, b"ab", &mut sink)?;
    let waits = sink.bytes().is_empty();
    let written = out.flush(&mut sink);
    let before = failing as usize * step as usize;
    let fails = before < text.len();
    let taken = text.len().min(before);
    Ok(
        waits
            && written.is_err() == fails
            && sink.faults() == u64::from(fails)
            && sink.bytes() == &text[..taken],
    )
}

// A write of each number fails, at steps of 1, of 2 and of more than the text.
#[test]
fn faults(rt: HostRuntime) -> Result<(), Fail> {
    for failing in 0..25u64 {
        for step in [1, 2, 100] {
            assert!(rt;
                fails_there(rt.alloc(), step, failing)?,
                "write {failing} in steps of {step}"
            );
        }
    }
    Ok(())
}

// Takes all that comes, and counts it.
#[derive(Drop)]
struct Counter {
    writes: u64,
    bytes: u64,
}

impl Sink for Counter {
    ghost taken = { λ _. None };

    ghost faults = { λ _. 0 };

    fn write(&mut self, bytes: &[u8]) -> Result<usize, SinkFault> {
        self.writes = self.writes.saturating_add(1);
        self.bytes = self.bytes.saturating_add(bytes.len() as u64);
        Ok(bytes.len())
    }
}

// Prints an array of the numbers from 0 on.
fn count(alloc: Global, len: u32) -> Result<Counter, Fail> {
    let mut mem = zeros(alloc, len)?;
    for i in 0..len {
        mem.store(Word(i), i64::from(i));
    }
    let at = ArrayAt { start: 0, len };
    let mut out = Outgoing::new(alloc)?;
    let mut sink = Counter {
        writes: 0,
        bytes: 0,
    };
    out.put_container(b"x", &Bind::Array { at, own: 0 }, &mut mem, &mut sink)?;
    out.flush(&mut sink)?;
    Ok(sink)
}

// The numbers 0 to 1,048,575 have 6,228,922 digits. A short line is one write, and so are many lines.
#[test]
fn few_writes(rt: HostRuntime) -> Result<(), Fail> {
    let line = count(rt.alloc(), 20)?;
    assert!(rt; line.writes == 1 && line.bytes == 30 + 2 * 19 + 7);
    let long = count(rt.alloc(), 1_048_576)?;
    assert!(rt; long.bytes == 6_228_922 + 2 * 1_048_575 + 7 && long.writes < 140);
    let mut out = Outgoing::new(rt.alloc())?;
    let mut sink = Counter {
        writes: 0,
        bytes: 0,
    };
    for line in 0..1_000 {
        out.put_overdue(line, b"a", 1, &mut sink)?;
    }
    assert!(rt; sink.writes == 0);
    out.flush(&mut sink)?;
    assert!(rt; sink.writes == 1);
    Ok(())
}

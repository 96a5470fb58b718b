//! Times two kernels over a million elements: a mix of operators over three arrays, and a heavy one over one array.
//!
//! Two words are how many rounds each runs, 1 where none is given. Checksums of what they wrote go to standard output;
//! the processor time of an index, in nanoseconds, on standard error. `tools/instructions` counts instructions.
#![tactic(auto)]

ghost use Rattle.std.specs.Prelude.{◌≡◌, ◌<◌, ◌≤◌, ◌+◌, ◌^◌, length, IfSome};
ghost use Rattle.frame_ast.specs.Checked.{IsChecked};
ghost use Rattle.kernel_bytecode.specs.Codes.{IsCodeOf};

use frame_ast::kernel::Kernel;
use job_base::{FlatMem, Mem, Span, Word};
use kernel_bytecode::{Code, compile};
use kernel_code::lex;
use kernel_exec::Bind;
use kernel_machine::Scratch;
use kernel_rows::{fits, kernel_at, run_indexes};
use native_array::ArrayAt;
use std::alloc::Global;
use std::rt::Env;
use std::time::{CpuClock, Duration};
use std::{env, io};

// Twelve operators, two remainders among them.
const MIX: &str = "parallel mix(x: ro array, y: ro array, z: wo array) {
    var a = x[index] * 3 + y[index];
    var b = a * a % 1000003;
    if b > 500000 { b = b - x[index]; } else { b = b + y[index] * 2; }
    z[index] = b + a % 7;
}";

// Five statements and fourteen operators, of which an index runs one less.
const HEAVY: &str = "parallel heavy(x: rw array) {
    var a = x[index] * 3 + 7;
    var b = (a * a + x[index]) % 1000003;
    if b > 500000 { b = b - a; } else { b = b + a * 2; }
    var c = (b - a) * 7 + index;
    x[index] = (b + c * 2) % 1000003;
}";

const ELEMENTS: u32 = 1_048_576;

fn array(start: u32, own: u32) -> Bind {
    Bind::Array {
        at: ArrayAt {
            start,
            len: ELEMENTS,
        },
        own,
    }
}

// So many cells with numbers in them, where memory is found.
fn filled(alloc: Global, cells: u32) -> Option<FlatMem>
    ensures { IfSome result (λ mem. length mem ≡ cells) }
{
    let mut mem = FlatMem::new(alloc, cells).ok()?;
    for w in 0..cells {
        mem.store(Word(w), i64::from(w) * 7919 % 100_003);
    }
    Some(mem)
}

// A checksum of the cells from one on.
fn checksum(mem: &mut FlatMem, from: u32, cells: u32) -> i64
    requires { length mem.old ≡ cells }
{
    let mut sum = 0i64;
    for w in from..cells {
        sum = sum.wrapping_mul(31).wrapping_add(mem.load(Word(w)));
    }
    sum
}

// A kernel with its code.
#[derive(Drop)]
struct Compiled {
    kernel: Kernel,
    code: Code,
}

// The kernel of a text.
fn kernel_of(alloc: Global, text: &str) -> Option<Compiled>
    ensures checked { IfSome result (λ compiled. IsChecked compiled.kernel) }
    ensures code { IfSome result (λ compiled. IsCodeOf compiled.kernel compiled.code) }
{
    let source = text.as_bytes();
    if source.len() > 1000 {
        return None;
    }
    let marks = lex(alloc, source).ok()?;
    if marks.is_empty() {
        return None;
    }
    let Ok((kernel, _)) = kernel_at(alloc, source, &marks, 0) else {
        return None;
    };
    let code = compile(alloc, &kernel).ok()?;
    Some(Compiled { kernel, code })
}

// Runs a kernel so often at these indexes, and says whether nothing trapped.
fn run_all(
    compiled: &Compiled,
    binds: &[Bind],
    span: &Span,
    cells: u32,
    rounds: u32,
    scratch: &mut Scratch,
    mem: &mut FlatMem,
) -> bool
    requires checked { IsChecked compiled.now.kernel }
    requires code { IsCodeOf compiled.now.kernel compiled.now.code }
    requires few { span.now.start + span.now.len < 2 ^ 32 }
    requires cells { length mem.old ≡ cells }
    ensures { length mem.new ≡ cells }
{
    let kernel = &compiled.kernel;
    if !kernel.parallel || !fits(kernel, binds, cells) {
        return false;
    }
    for _ in 0..rounds {
        if run_indexes(kernel, &compiled.code, binds, span, scratch, mem).count != 0 {
            return false;
        }
    }
    true
}

// Nanoseconds an index of so many rounds.
fn nanoseconds(took: Duration, rounds: u32) -> u128 {
    let indexes = u128::from(rounds) * u128::from(ELEMENTS);
    took.as_nanos().checked_div(indexes).unwrap_or(0)
}

// Runs the kernel of a text on cells with numbers in them; prints its time, and gives the checksum of the last array.
// None where no memory is found or something traps.
fn time<R: CpuClock + Eprint>(
    rt: &R,
    alloc: Global,
    text: &str,
    binds: &[Bind],
    cells: u32,
    rounds: u32,
) -> io::Result<Option<i64>>
    requires { ELEMENTS ≤ cells }
{
    let Some(compiled) = kernel_of(alloc, text) else {
        return Ok(None);
    };
    let Some(mut mem) = filled(alloc, cells) else {
        return Ok(None);
    };
    let Ok(mut scratch) = Scratch::new(alloc) else {
        return Ok(None);
    };
    let span = Span {
        start: 0,
        len: ELEMENTS,
    };
    let start = rt.thread_cpu_time()?;
    let ran = run_all(
        &compiled,
        binds,
        &span,
        cells,
        rounds,
        &mut scratch,
        &mut mem,
    );
    let end = rt.thread_cpu_time()?;
    if !ran {
        return Ok(None);
    }
    let took = end.checked_sub(start).unwrap_or(Duration::ZERO);
    eprintln!(rt; "{} ns an index", nanoseconds(took, rounds))?;
    Ok(Some(checksum(&mut mem, cells - ELEMENTS, cells)))
}

// A word that is a number, and 1 where there is none.
fn rounds<R: Env + AllocGlobal>(rt: &R, at: usize) -> u32 {
    let Ok(args) = env::args(rt) else {
        return 1;
    };
    for word in args.skip(at) {
        return word.parse::<u32>().unwrap_or(1);
    }
    1
}

fn main(rt: HostRuntime) -> io::Result<()> {
    let three = [array(0, 0), array(ELEMENTS, 0), array(2 * ELEMENTS, 1)];
    match time(&rt, rt.alloc(), MIX, &three, 3 * ELEMENTS, rounds(&rt, 1))? {
        Some(sum) => println!(rt; "mix {sum}")?,
        None => println!(rt; "mix: no memory")?,
    }
    match time(
        &rt,
        rt.alloc(),
        HEAVY,
        &[array(0, 1)],
        ELEMENTS,
        rounds(&rt, 2),
    )? {
        Some(sum) => println!(rt; "heavy {sum}"),
        None => println!(rt; "heavy: no memory"),
    }
}

// What a row is, and how it is tried.
ghost use Rattle.std.specs.Prelude.{◌≡◌, ◌≤◌, length, is_some};
ghost use Rattle.frame_ast.specs.Checked.{IsChecked};
ghost use Rattle.kernel_bytecode.specs.Codes.{IsCodeOf};
ghost use Rattle.kernel_exec.specs.Conditions.{BindsFit};
ghost use Rattle.kernel_rows.specs.Standing.{AreBelow};

use crate::{fits, kernel_at, run};
use frame_ast::kernel::Kernel;
use job_base::limits::MOST_SCRIPT_BYTES;
use job_base::{FlatMem, Mem, Trap, Word};
use kernel_bytecode::{Code, compile};
use kernel_code::{TokenKind, lex};
use kernel_exec::Bind;
use kernel_machine::Scratch;
use native_array::{ArrayAt, RefAt};
use native_list::ListAt;
use native_map::MapAt;
use native_stream::StreamAt;
use std::alloc::Global;
use std::fmt::Write;
use std::process::Abort;
use std::test::Fail;

// The cells of every row.
pub const CELLS: u32 = 64;

// Kernels, the binds of which each takes as many as it has parameters, how many indexes parallel ones have, the words
// from one on to before another that are shown after them, and what is told then: the traps, and the cells.
pub type Row<'a> = (&'a str, &'a [Bind], u32, u32, u32, &'a str);

pub fn array(start: u32, len: u32, own: u32) -> Bind {
    Bind::Array {
        at: ArrayAt { start, len },
        own,
    }
}

pub fn single(start: u32) -> Bind {
    Bind::Ref(RefAt { start })
}

pub fn list(start: u32, cap: u32) -> Bind {
    Bind::List(ListAt { start, cap })
}

pub fn map(start: u32, cap: u32) -> Bind {
    Bind::Map(MapAt::new(start, cap))
}

pub fn view(start: u32, cap: u32, own: u32) -> Bind {
    Bind::View {
        at: ListAt { start, cap },
        own,
    }
}

pub fn stream(start: u32, count: u32, room: u32, own: bool) -> Bind {
    Bind::Stream {
        at: StreamAt { start, count, room },
        own,
    }
}

// Number i, where a kernel is parallel.
fn index_at(parallel: bool, i: u32) -> Option<u32>
    ensures { is_some result ≡ parallel }
{
    if parallel { Some(i) } else { None }
}

fn tell(index: Option<u32>, ended: Result<(), Trap>, told: &mut String) -> Result<(), Fail> {
    if let Err(trap) = ended {
        match index {
            Some(i) => write!(told, "{i} {trap:?}; ")?,
            None => write!(told, "{trap:?}; ")?,
        }
    }
    Ok(())
}

// Runs a kernel once, or at each index in order.
fn run_all(
    kernel: &Kernel,
    code: &Code,
    binds: &[Bind],
    indexes: u32,
    mem: &mut FlatMem,
    scratch: &mut Scratch,
    told: &mut String,
) -> Result<(), Fail>
    requires checked { IsChecked kernel.now }
    requires code { IsCodeOf kernel.now code.now }
    requires fit { BindsFit kernel.now binds.now }
    requires below { AreBelow binds.now (length mem.old) }
    ensures { length mem.new ≡ length mem.old }
{
    let turns = if kernel.parallel { indexes } else { 1 };
    for i in 0..turns {
        let index = index_at(kernel.parallel, i);
        let ended = run(kernel, code, binds, index, scratch, mem);
        tell(index, ended, told)?;
    }
    Ok(())
}

// Runs the kernels of a text, in order.
pub fn run_text(
    alloc: Global,
    text: &str,
    binds: &[Bind],
    indexes: u32,
    mem: &mut FlatMem,
    told: &mut String,
) -> Result<(), Fail>
    requires { length mem.old ≡ 64 }
    ensures { length mem.new ≡ 64 }
{
    let source = text.as_bytes();
    if source.len() > MOST_SCRIPT_BYTES as usize {
        return Ok(());
    }
    let marks = lex(alloc, source)?;
    let mut scratch = Scratch::new(alloc)?;
    let mut at = 0u32;
    for _ in 0..8 {
        if at as usize >= marks.len().saturating_sub(1) {
            break;
        }
        if matches!(marks[at as usize].kind(), TokenKind::Line) {
            at = at.saturating_add(1);
            continue;
        }
        let (kernel, next) = kernel_at(alloc, source, &marks, at)?;
        let taken = &binds[..kernel.params.len().min(binds.len())];
        if fits(&kernel, taken, CELLS) {
            let code = compile(alloc, &kernel)?;
            run_all(&kernel, &code, taken, indexes, mem, &mut scratch, told)?;
        } else {
            told.push_str("no fit; ")?;
        }
        at = next;
    }
    Ok(())
}

pub fn show(mem: &mut FlatMem, from: u32, to: u32, told: &mut String) -> Result<(), Fail>
    requires { length mem.old ≡ 64 }
{
    for w in from..to.min(CELLS) {
        let cell = mem.load(Word(w));
        write!(told, "{cell} ")?;
    }
    Ok(())
}

// What a row's kernels do.
fn told(alloc: Global, row: &Row<'_>) -> Result<String, Fail> {
    let (text, binds, indexes, from, to, _) = *row;
    let mut told = String::new(alloc);
    let mut mem = FlatMem::new(alloc, CELLS)?;
    run_text(alloc, text, binds, indexes, &mut mem, &mut told)?;
    show(&mut mem, from, to, &mut told)?;
    Ok(told)
}

pub fn try_rows(rt: &impl Abort, alloc: Global, rows: &[Row<'_>]) -> Result<(), Fail> {
    for row in rows {
        assert_eq!(rt; told(alloc, row)?.as_str(), row.5, "{}", row.0);
    }
    Ok(())
}

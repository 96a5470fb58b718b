//! What is left of a statement when a plan is run, done to the words of its containers.
ghost use Rattle.std.specs.Prelude.{◌≡◌, ◌^◌, ◌<◌, ◌≤◌, ◌+◌, length, replicate, pos, IsTrue};
ghost use Rattle.job_base.specs.Cells.{with_cell, cell_list, write_cells};
ghost use Rattle.job_base.specs.Forms.{AreAllowed};
ghost use Rattle.frame_ast.specs.Refusals.{refusal_of};
ghost use Rattle.kernel_exec.specs.Binds.{start_of, end_of, own_of};
ghost use Rattle.kernel_exec.specs.Words.{put_word, clear_word};
ghost use Rattle.frame_core.specs.Touches.{act_touches};
ghost use Rattle.frame_core.specs.Operations.{set_cells, add_cells, remove_cells, first_cells, act_cells, act_answer, cells_or, op_cells, op_answer, refused_as, Does};
ghost use Rattle.frame_core.specs.Ordered.{AreApart, MayBeSet, IsListOrMap, IsMap, MayBeCleared, IsLiteral, ActFits, OpFits, IsSized};
ghost use Rattle.frame_core.specs.Rights.{MayReadIn, MayWriteIn};

use crate::plan::{Act, Op, Plan};
use job_base::{Mem, Refusal, Span, Trap, Word};
use kernel_exec::Bind;

// `set x i = v`, and `set x = v` of a reference.
fn set<M: Mem>(at: &Bind, i: i64, v: i64, mem: &mut M) -> Result<(), Trap>
    requires kind { MayBeSet at.now }
    requires own { own_of at.now ≡ 0 }
    requires fits { end_of at.now < 2 ^ 32 }
    requires readable { AreAllowed (start_of at.now) (end_of at.now) (M.readable mem.old) }
    requires writable { AreAllowed (start_of at.now) (end_of at.now) (M.writable mem.old) }
    ensures does { Does result (M.cells mem.old) (M.cells mem.new) (set_cells at.now i v (M.cells mem.old)) }
    ensures readable { M.readable mem.new ≡ M.readable mem.old }
    ensures writable { M.writable mem.new ≡ M.writable mem.old }
{
    match at {
        Bind::Array { at, .. } => at.set(mem, i, v),
        Bind::View { at, .. } => at.set(mem, i, v),
        Bind::List(at) => at.set(mem, i, v),
        Bind::Ref(at) => {
            at.set_value(mem, v);
            Ok(())
        }
        Bind::Int(_) | Bind::Map(_) | Bind::Stream { .. } => unreachable!(),
    }
}

// `add m k v` and `add l v`.
fn add<M: Mem>(at: &Bind, k: i64, v: i64, mem: &mut M) -> Result<(), Trap>
    requires kind { IsListOrMap at.now }
    requires fits { end_of at.now < 2 ^ 32 }
    requires readable { AreAllowed (start_of at.now) (end_of at.now) (M.readable mem.old) }
    requires writable { AreAllowed (start_of at.now) (end_of at.now) (M.writable mem.old) }
    ensures does { Does result (M.cells mem.old) (M.cells mem.new) (add_cells at.now k v (M.cells mem.old)) }
    ensures readable { M.readable mem.new ≡ M.readable mem.old }
    ensures writable { M.writable mem.new ≡ M.writable mem.old }
{
    match at {
        Bind::List(at) => at.add(mem, v),
        Bind::Map(at) => at.add(mem, k, v),
        _ => unreachable!(),
    }
}

// `put m k v`.
fn put<M: Mem>(at: &Bind, k: i64, v: i64, mem: &mut M) -> Result<(), Trap>
    requires kind { IsMap at.now }
    requires fits { end_of at.now < 2 ^ 32 }
    requires readable { AreAllowed (start_of at.now) (end_of at.now) (M.readable mem.old) }
    requires writable { AreAllowed (start_of at.now) (end_of at.now) (M.writable mem.old) }
    ensures does { Does result (M.cells mem.old) (M.cells mem.new) (put_word 0 k v at.now (M.cells mem.old)) }
    ensures readable { M.readable mem.new ≡ M.readable mem.old }
    ensures writable { M.writable mem.new ≡ M.writable mem.old }
{
    match at {
        Bind::Map(at) => at.put(mem, k, v),
        _ => unreachable!(),
    }
}

// `remove l i` and `remove m i`.
fn remove<M: Mem>(at: &Bind, i: i64, mem: &mut M) -> Result<(), Trap>
    requires kind { IsListOrMap at.now }
    requires fits { end_of at.now < 2 ^ 32 }
    requires readable { AreAllowed (start_of at.now) (end_of at.now) (M.readable mem.old) }
    requires writable { AreAllowed (start_of at.now) (end_of at.now) (M.writable mem.old) }
    ensures does { Does result (M.cells mem.old) (M.cells mem.new) (remove_cells at.now i (M.cells mem.old)) }
    ensures readable { M.readable mem.new ≡ M.readable mem.old }
    ensures writable { M.writable mem.new ≡ M.writable mem.old }
{
    match at {
        Bind::List(at) => at.remove_swap_back(mem, i),
        Bind::Map(at) => {
            if at.remove(mem, i) {
                Ok(())
            } else {
                Err(Trap::MissingKey)
            }
        }
        _ => unreachable!(),
    }
}

fn clear<M: Mem>(at: &Bind, mem: &mut M)
    requires kind { MayBeCleared at.now }
    requires fits { end_of at.now < 2 ^ 32 }
    requires readable { AreAllowed (start_of at.now) (end_of at.now) (M.readable mem.old) }
    requires writable { AreAllowed (start_of at.now) (end_of at.now) (M.writable mem.old) }
    ensures cells { M.cells mem.new ≡ clear_word at.now (M.cells mem.old) }
    ensures readable { M.readable mem.new ≡ M.readable mem.old }
    ensures writable { M.writable mem.new ≡ M.writable mem.old }
{
    match at {
        Bind::List(at) => at.clear(mem),
        Bind::Map(at) => at.clear(mem),
        Bind::Stream { at, .. } => at.clear(mem),
        _ => unreachable!(),
    }
}

// Writes numbers to the words from `start` on.
fn write_all<M: Mem>(start: u32, values: &[i64], mem: &mut M)
    requires fits { start + length values.now < 2 ^ 32 }
    requires writable { AreAllowed start (start + length values.now) (M.writable mem.old) }
    ensures cells { M.cells mem.new ≡ write_cells (M.cells mem.old) start values.now }
    ensures readable { M.readable mem.new ≡ M.readable mem.old }
    ensures writable { M.writable mem.new ≡ M.writable mem.old }
{
    let mut w = start;
    for v in values {
        mem.store(Word(w), *v);
        w += 1;
    }
}

fn copy_word<M: Mem>(from: Word, to: Word, mem: &mut M)
    requires readable { IsTrue (M.readable mem.old from.0) }
    requires writable { IsTrue (M.writable mem.old to.0) }
    ensures cells { M.cells mem.new ≡ with_cell (M.cells mem.old) to.0 (M.cells mem.old from.0) }
    ensures readable { M.readable mem.new ≡ M.readable mem.old }
    ensures writable { M.writable mem.new ≡ M.writable mem.old }
{
    let v = mem.load(from);
    mem.store(to, v);
}

// Copies the words of one span to another, apart from it, that is at least as long.
fn copy<M: Mem>(from: &Span, to: &Span, mem: &mut M)
    requires from { from.now.start + from.now.len < 2 ^ 32 }
    requires to { to.now.start + to.now.len < 2 ^ 32 }
    requires long { from.now.len ≤ to.now.len }
    requires apart { AreApart from.now to.now }
    requires readable { AreAllowed from.now.start (from.now.start + from.now.len) (M.readable mem.old) }
    requires writable { AreAllowed to.now.start (to.now.start + to.now.len) (M.writable mem.old) }
    ensures cells { M.cells mem.new
        ≡ write_cells (M.cells mem.old) to.now.start (cell_list (M.cells mem.old) from.now.start from.now.len) }
    ensures readable { M.readable mem.new ≡ M.readable mem.old }
    ensures writable { M.writable mem.new ≡ M.writable mem.old }
{
    for i in 0..from.len {
        copy_word(Word(from.start + i), Word(to.start + i), mem);
    }
}

// Writes zeros to a span.
fn blank<M: Mem>(span: &Span, mem: &mut M)
    requires fits { span.now.start + span.now.len < 2 ^ 32 }
    requires writable { AreAllowed span.now.start (span.now.start + span.now.len) (M.writable mem.old) }
    ensures cells { M.cells mem.new ≡ write_cells (M.cells mem.old) span.now.start (replicate span.now.len (pos 0)) }
    ensures readable { M.readable mem.new ≡ M.readable mem.old }
    ensures writable { M.writable mem.new ≡ M.writable mem.old }
{
    for i in 0..span.len {
        mem.store(Word(span.start + i), 0);
    }
}

// Why a statement is refused that would trap.
fn refusal_by(done: Result<(), Trap>) -> Option<Refusal>
    ensures { result ≡ refused_as done }
{
    match done {
        Ok(()) => None,
        Err(Trap::Full) => Some(Refusal::Full),
        Err(Trap::MissingKey) => Some(Refusal::MissingKey),
        Err(Trap::PresentKey) => Some(Refusal::PresentKey),
        Err(
            Trap::Overflow
            | Trap::ZeroDivisor
            | Trap::Range
            | Trap::OwnIndex
            | Trap::Written
            | Trap::Budget,
        ) => Some(Refusal::Range),
    }
}

// Gives the words of a new container their first cells.
fn fill<M: Mem>(plan: &Plan, span: &Span, literal: Option<u32>, mem: &mut M)
    requires fits { span.now.start + span.now.len < 2 ^ 32 }
    requires literal { IsLiteral plan.now span.now literal }
    requires writable { AreAllowed span.now.start (span.now.start + span.now.len) (M.writable mem.old) }
    ensures cells { M.cells mem.new
        ≡ write_cells (M.cells mem.old) span.now.start (first_cells plan.now span.now literal) }
    ensures readable { M.readable mem.new ≡ M.readable mem.old }
    ensures writable { M.writable mem.new ≡ M.writable mem.old }
{
    match literal {
        None => blank(span, mem),
        Some(n) => write_all(span.start, &plan.literals[n as usize], mem),
    }
}

/// Does what is left of a statement to the words of its containers. `Some` says why it is refused, and then nothing
/// changed.
pub fn apply_op<M: Mem>(plan: &Plan, op: &Op, mem: &mut M) -> Option<Refusal>
    requires sized { IsSized plan.now }
    requires fits { OpFits plan.now op.now }
    requires readable { MayReadIn (act_touches op.now.act) (M.readable mem.old) }
    requires writable { MayWriteIn (act_touches op.now.act) (M.writable mem.old) }
    ensures answer { result ≡ op_answer plan.now op.now (M.cells mem.old) }
    ensures cells { M.cells mem.new ≡ op_cells plan.now op.now (M.cells mem.old) }
    ensures readable { M.readable mem.new ≡ M.readable mem.old }
    ensures writable { M.writable mem.new ≡ M.writable mem.old }
{
    apply_act(plan, &op.act, mem)
}

// The same of what the statement does.
fn apply_act<M: Mem>(plan: &Plan, act: &Act, mem: &mut M) -> Option<Refusal>
    requires sized { IsSized plan.now }
    requires fits { ActFits plan.now act.now }
    requires readable { MayReadIn (act_touches act.now) (M.readable mem.old) }
    requires writable { MayWriteIn (act_touches act.now) (M.writable mem.old) }
    ensures answer { result ≡ act_answer act.now (act_cells plan.now act.now (M.cells mem.old)) }
    ensures cells { M.cells mem.new ≡ cells_or (M.cells mem.old) (act_cells plan.now act.now (M.cells mem.old)) }
    ensures readable { M.readable mem.new ≡ M.readable mem.old }
    ensures writable { M.writable mem.new ≡ M.writable mem.old }
{
    match act {
        Act::Set { at, i, v } => return refusal_by(set(at, *i, *v, mem)),
        Act::AddTo { at, k, v } => return refusal_by(add(at, *k, *v, mem)),
        Act::Put { at, k, v } => return refusal_by(put(at, *k, *v, mem)),
        Act::Remove { at, i } => return refusal_by(remove(at, *i, mem)),
        Act::Say { refusal } => return Some(*refusal),
        Act::Fill { span, literal } => fill(plan, span, *literal, mem),
        Act::Move { from, to } => copy(from, to, mem),
        Act::Clear { at } => clear(at, mem),
        Act::Print { .. } | Act::Report { .. } => {}
    }
    None
}

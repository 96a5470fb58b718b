// A lease's cells: copied at its begin, run on, and written back.
ghost use Rattle.std.specs.Prelude.{IfOk, ◌≡◌, ◌≤◌, ◌<◌, ◌+◌, ◌^◌, ◌∷◌, [], ℕ, length, true, if◌then◌else◌, IsTrue, All};
ghost use Rattle.job_base.specs.Cells.{cells_of};
ghost use Rattle.frame_core.specs.declared.touch.Touch.{Touch};
ghost use Rattle.frame_core.specs.declared.piece.Piece.TheVariants.{OfScript};
ghost use Rattle.frame_core.specs.Touches.{has_word, reads_in, writes_in};
ghost use Rattle.frame_core.specs.Pieces.{piece_numbered};
ghost use Rattle.frame_core.specs.Effects.{touches, piece_cells};
ghost use Rattle.frame_core.specs.Rights.{MayReadIn, MayWriteIn};
ghost use Rattle.frame_core.specs.Know.{piece_count};
ghost use Rattle.frame_core.specs.Ordered.{IsWellOrderedPlan};

use frame_core::{Piece, Plan, Touch, apply_op};
use job_base::{FlatMem, Mem, NoMemory, PieceId, Word};
use kernel_machine::Scratch;
use piece_run::run_piece;
use std::alloc::Global;

pub(crate) fn copy_of(alloc: Global, cells: &[i64]) -> Result<FlatMem, NoMemory>
    requires { length cells.now < 2 ^ 32 }
    ensures { IfOk result (λ m. m ≡ cells.now) }
{
    let mut mem = FlatMem::new(alloc, cells.len() as u32)?;
    for w in 0..cells.len() {
        mem.store(Word(w as u32), cells[w]);
    }
    Ok(mem)
}

// Runs the operations of a segment.
fn run_segment<M: Mem>(plan: &Plan, k: u32, mem: &mut M)
    requires well { IsWellOrderedPlan plan.now }
    requires segment { k < length plan.now.segments.items }
    requires readable { MayReadIn (touches plan.now (OfScript k)) (M.readable mem.old) }
    requires writable { MayWriteIn (touches plan.now (OfScript k)) (M.writable mem.old) }
    ensures cells { M.cells mem.new ≡ piece_cells plan.now (OfScript k) (M.cells mem.old) }
    ensures readable { M.readable mem.new ≡ M.readable mem.old }
    ensures writable { M.writable mem.new ≡ M.writable mem.old }
{
    let ops = &plan.segments[k as usize].ops;
    for i in 0..ops.len() {
        apply_op(plan, &ops[i], mem);
    }
}

fn run_any<M: Mem>(plan: &Plan, p: u32, scratch: &mut Scratch, mem: &mut M)
    requires well { IsWellOrderedPlan plan.now }
    requires piece { p < piece_count plan.now }
    requires readable { MayReadIn (touches plan.now (piece_numbered plan.now p)) (M.readable mem.old) }
    requires writable { MayWriteIn (touches plan.now (piece_numbered plan.now p)) (M.writable mem.old) }
    ensures cells { M.cells mem.new ≡ piece_cells plan.now (piece_numbered plan.now p) (M.cells mem.old) }
    ensures readable { M.readable mem.new ≡ M.readable mem.old }
    ensures writable { M.writable mem.new ≡ M.writable mem.old }
{
    match plan.piece(PieceId(p)) {
        Piece::OfJob(j, i) => run_piece(plan, j, i, scratch, mem),
        Piece::OfScript(k) => run_segment(plan, k, mem),
    }
}

// Runs a piece on a lease's cells.
pub(crate) fn run_on(plan: &Plan, p: u32, scratch: &mut Scratch, local: &mut FlatMem)
    requires well { IsWellOrderedPlan plan.now }
    requires piece { p < piece_count plan.now }
    requires words { length local.old ≡ plan.now.words }
    ensures words { length local.new ≡ length local.old }
    ensures cells { cells_of local.new ≡ piece_cells plan.now (piece_numbered plan.now p) (cells_of local.old) }
{
    run_any(plan, p, scratch, local);
}

// Writes the words of a span back.
fn copy_span(from: u32, end: u32, local: &mut FlatMem, cells: &mut [i64])
    requires within { from < end → end ≤ length local.old }
    requires words { length cells.old ≡ length local.old }
    ensures local { local.new ≡ local.old }
    ensures inside { (u : ℕ) → from ≤ u → u < end → cells_of cells.new u ≡ cells_of local.old u }
    ensures before { (u : ℕ) → u < from → cells_of cells.new u ≡ cells_of cells.old u }
    ensures behind { (u : ℕ) → end ≤ u → cells_of cells.new u ≡ cells_of cells.old u }
{
    for w in from..end {
        cells[w as usize] = local.load(Word(w));
    }
}

// Writes back what a touch may write.
fn write_touch(t: &Touch, local: &mut FlatMem, cells: &mut [i64])
    requires within { t.now.from < t.now.end → t.now.end ≤ length local.old }
    requires words { length cells.old ≡ length local.old }
    ensures local { local.new ≡ local.old }
    ensures cells { (u : ℕ)
        → cells_of cells.new u ≡ (if writes_in (t.now ∷ []) u then cells_of local.old u else cells_of cells.old u) }
{
    if t.written {
        copy_span(t.from, t.end, local, cells);
    }
}

// Writes back what a piece may write.
pub(crate) fn write_back(ts: &[Touch], local: &mut FlatMem, cells: &mut [i64])
    requires within { All (λ (t : Touch). t.from < t.end → t.end ≤ length local.old) ts.now }
    requires words { length cells.old ≡ length local.old }
    ensures local { local.new ≡ local.old }
    ensures cells { (u : ℕ)
        → cells_of cells.new u ≡ (if writes_in ts.now u then cells_of local.old u else cells_of cells.old u) }
{
    for i in 0..ts.len() {
        write_touch(&ts[i], local, cells);
    }
}

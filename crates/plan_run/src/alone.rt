// A run without threads: the pieces in script order, one after another, on any memory.
ghost use Rattle.std.specs.Prelude.{◌≡◌, ◌<◌, ◌≤◌, ◌+◌, Some, length};
ghost use Rattle.frame_core.specs.declared.piece.Piece.TheVariants.{OfScript};
ghost use Rattle.frame_core.specs.Graphs.{before_piece, cells_after};
ghost use Rattle.frame_core.specs.Names.{segment_at, starts_in, IsJobOf};
ghost use Rattle.frame_core.specs.Ordered.{IsWellOrderedPlan};
ghost use Rattle.frame_core.specs.Output.{plan_lines};
ghost use Rattle.plan_run.specs.Lines.{segment_cells};
ghost use Rattle.plan_run.specs.Runs.{IsReport};
ghost use Rattle.plan_run.specs.Says.{SaysTo};
ghost use Rattle.plan_run.specs.ScriptOrder.{AllowsAll, AreFresh, before_part};

use crate::segment::run_segment;
use crate::tally::{no_traps, with_refused};
use frame_core::{Plan, Report};
use frame_print::Outgoing;
use job_base::{JobId, Mem, Sink};
use kernel_machine::Scratch;
use piece_run::run_piece;

// Runs the pieces of the job that a segment starts.
fn run_parts<M: Mem>(plan: &Plan, k: u32, job: JobId, scratch: &mut Scratch, mem: &mut M)
    requires well { IsWellOrderedPlan plan.now }
    requires index { k < length plan.now.segments.items }
    requires starts { starts_in (segment_at plan.now k) ≡ Some job }
    requires job { IsJobOf plan.now job }
    requires cells { M.cells mem.old ≡ before_part plan.now k 0 }
    requires readable { AllowsAll plan.now (M.readable mem.old) }
    requires writable { AllowsAll plan.now (M.writable mem.old) }
    ensures cells { M.cells mem.new ≡ before_piece plan.now (OfScript (k + 1)) }
    ensures readable { M.readable mem.new ≡ M.readable mem.old }
    ensures writable { M.writable mem.new ≡ M.writable mem.old }
{
    let j = job.0 - 1;
    let entry = &plan.jobs[j as usize];
    for i in 0..entry.pieces() {
        run_piece(plan, j, i, scratch, mem);
    }
}

// Runs the job that a segment starts, if it starts one.
fn run_started<M: Mem>(plan: &Plan, k: u32, scratch: &mut Scratch, mem: &mut M)
    requires well { IsWellOrderedPlan plan.now }
    requires index { k < length plan.now.segments.items }
    requires cells { M.cells mem.old ≡ segment_cells plan.now k }
    requires readable { AllowsAll plan.now (M.readable mem.old) }
    requires writable { AllowsAll plan.now (M.writable mem.old) }
    ensures cells { M.cells mem.new ≡ before_piece plan.now (OfScript (k + 1)) }
    ensures readable { M.readable mem.new ≡ M.readable mem.old }
    ensures writable { M.writable mem.new ≡ M.writable mem.old }
{
    if let Some(job) = plan.segments[k as usize].starts {
        run_parts(plan, k, job, scratch, mem);
    }
}

/// Runs a plan on the caller's own thread, on fresh cells, and says its lines, without those of its traps: these are
/// said once, after the last section of a frame. It waits for nobody, starts no thread and takes no memory.
pub fn run_alone<M: Mem, S: Sink>(
    plan: &Plan,
    scratch: &mut Scratch,
    mem: &mut M,
    out: &mut Outgoing,
    sink: &mut S,
    failed: &mut bool,
) -> Report
    requires well { IsWellOrderedPlan plan.now }
    requires fresh { AreFresh plan.now (M.cells mem.old) }
    requires readable { AllowsAll plan.now (M.readable mem.old) }
    requires writable { AllowsAll plan.now (M.writable mem.old) }
    ensures report { IsReport plan.now result }
    ensures text { SaysTo S.taken S.faults sink.old out.old failed.old sink.new out.new failed.new
        (plan_lines plan.now) }
    ensures later { S.faults sink.old ≤ S.faults sink.new }
    ensures cells { M.cells mem.new ≡ cells_after plan.now }
    ensures readable { M.readable mem.new ≡ M.readable mem.old }
    ensures writable { M.writable mem.new ≡ M.writable mem.old }
{
    let mut refused = 0u64;
    let mut last = no_traps();
    for i in 0..plan.segments.len() as u32 {
        last = run_segment(plan, i, mem, out, sink, failed, &mut refused);
        run_started(plan, i, scratch, mem);
    }
    with_refused(&last, refused)
}

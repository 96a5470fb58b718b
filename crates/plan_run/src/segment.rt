// A segment, on any memory.
ghost use Rattle.std.specs.Prelude.{◌≡◌, ◌<◌, ◌≤◌, ◌+◌, ◌^◌, true, length};
ghost use Rattle.frame_core.specs.Reports.{IsReportOf};
ghost use Rattle.frame_core.specs.declared.piece.Piece.TheVariants.{OfScript};
ghost use Rattle.frame_core.specs.Effects.{touches};
ghost use Rattle.frame_core.specs.Graphs.{before_piece};
ghost use Rattle.frame_core.specs.Output.{plan_traps, segment_lines, segment_refused};
ghost use Rattle.frame_core.specs.Ordered.{IsWellOrderedPlan};
ghost use Rattle.frame_core.specs.Rights.{MayReadIn, MayWriteIn};
ghost use Rattle.plan_run.specs.Lines.{segment_cells, MayReadOwn, TellAll};
ghost use Rattle.plan_run.specs.Says.{SaysTo};

use crate::lines::run_ops;
use crate::tally::{count_traps, no_traps};
use frame_core::{Plan, Report};
use frame_print::Outgoing;
use job_base::{Mem, Sink};

// Counts the traps, at the last segment alone.
fn look<M: Mem>(plan: &Plan, last: bool, mem: &mut M) -> Report
    requires well { IsWellOrderedPlan plan.now }
    requires readable { last ≡ true → MayReadOwn plan.now (M.readable mem.old) }
    requires told { last ≡ true → TellAll plan.now (M.cells mem.old) }
    ensures traps { last ≡ true → IsReportOf (plan_traps plan.now) result }
    ensures cells { M.cells mem.new ≡ M.cells mem.old }
    ensures readable { M.readable mem.new ≡ M.readable mem.old }
    ensures writable { M.writable mem.new ≡ M.writable mem.old }
{
    if last {
        count_traps(plan, mem)
    } else {
        no_traps()
    }
}

/// Runs a segment where the memory has the cells before it, and says its lines. At the last segment it answers the
/// traps of the whole run, since then all pieces of jobs are through.
pub fn run_segment<M: Mem, S: Sink>(
    plan: &Plan,
    i: u32,
    mem: &mut M,
    out: &mut Outgoing,
    sink: &mut S,
    failed: &mut bool,
    refused: &mut u64,
) -> Report
    requires well { IsWellOrderedPlan plan.now }
    requires index { i < length plan.now.segments.items }
    requires few { refused.old + segment_refused plan.now i < 2 ^ 64 }
    requires cells { M.cells mem.old ≡ before_piece plan.now (OfScript i) }
    requires readable { MayReadIn (touches plan.now (OfScript i)) (M.readable mem.old) }
    requires writable { MayWriteIn (touches plan.now (OfScript i)) (M.writable mem.old) }
    ensures cells { M.cells mem.new ≡ segment_cells plan.now i }
    ensures text { SaysTo S.taken S.faults sink.old out.old failed.old sink.new out.new failed.new
        (segment_lines plan.now i) }
    ensures later { S.faults sink.old ≤ S.faults sink.new }
    ensures refused { refused.new ≡ refused.old + segment_refused plan.now i }
    ensures traps { i + 1 ≡ length plan.now.segments.items → IsReportOf (plan_traps plan.now) result }
    ensures readable { M.readable mem.new ≡ M.readable mem.old }
    ensures writable { M.writable mem.new ≡ M.writable mem.old }
{
    let traps = look(plan, i as usize + 1 == plan.segments.len(), mem);
    run_ops(
        plan,
        &plan.segments[i as usize].ops,
        mem,
        out,
        sink,
        failed,
        refused,
    );
    traps
}

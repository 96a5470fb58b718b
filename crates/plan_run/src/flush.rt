// What ends a run's lines: those of its traps, and the write of all that waits.
ghost use Rattle.std.specs.Prelude.{◌≡◌, ◌≤◌, List, [], false};
ghost use Rattle.frame_ast.specs.States.{JobTrap};
ghost use Rattle.frame_ast.specs.Texts.{traps_text};
ghost use Rattle.frame_core.specs.Reports.{IsReportOf};
ghost use Rattle.plan_run.specs.Says.{SaysTo};

use frame_core::Report;
use frame_print::Outgoing;
use job_base::{Sink, SinkFault};

/// Writes the lines that wait, unless a write failed before.
pub fn flush_lines<S: Sink>(out: &mut Outgoing, sink: &mut S, failed: &mut bool)
    ensures text { SaysTo S.taken S.faults sink.old out.old failed.old sink.new out.new failed.new [] }
    ensures none { failed.new ≡ false → out.new ≡ [] }
    ensures later { S.faults sink.old ≤ S.faults sink.new }
{
    if *failed {
        return;
    }
    match out.flush(sink) {
        Ok(()) => {}
        Err(SinkFault) => *failed = true,
    }
}

/// Says the two lines of the traps that a report has, unless a write failed before. Without a trap it says nothing.
pub fn say_traps<S: Sink>(report: &Report, out: &mut Outgoing, sink: &mut S, failed: &mut bool)
    ensures text { (traps : List JobTrap) → IsReportOf traps report.now
        → SaysTo S.taken S.faults sink.old out.old failed.old sink.new out.new failed.new (traps_text traps) }
    ensures later { S.faults sink.old ≤ S.faults sink.new }
{
    if *failed {
        return;
    }
    match out.put_traps(report, sink) {
        Ok(()) => {}
        Err(SinkFault) => *failed = true,
    }
}

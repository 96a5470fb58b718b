// The words that aren't of the command that traces.
ghost use Rattle.std.specs.Prelude.{◌≡◌, ◌≤◌};
ghost use Rattle.frame_top.specs.Answers.{SaidTo};
ghost use Rattle.frame_top.specs.Refusals.{answer};
ghost use Rattle.frame_top.specs.declared.status.TheConstants.{USAGE};
ghost use Rattle.trace_top.specs.Traced.{trace_usage_line};

use frame_top::say;
use frame_top::status::USAGE;
use job_base::Sink;

/// Writes what the words are.
pub(crate) fn say_usage<L: Sink>(lines: &mut L) -> u8
    ensures said { SaidTo L.taken L.faults lines.old lines.new (answer USAGE trace_usage_line) result }
    ensures later { L.faults lines.old ≤ L.faults lines.new }
{
    say(
        USAGE,
        b"usage: frame_trace [--workers N] SCRIPT [TABLE] or frame_trace [--workers N] --gen NUMBER --jobs K\n",
        lines,
    )
}

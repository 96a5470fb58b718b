// The run of a command, with its trace.
ghost use Rattle.std.specs.Prelude.{◌≡◌, ◌≤◌, List};
ghost use Rattle.command_words.specs.Words.{Text};
ghost use Rattle.frame_top.specs.Asking.{IsAsked};
ghost use Rattle.trace_top.specs.Traced.{EndsTo};

use crate::usage::say_usage;
use crate::watch::TraceWatch;
use crate::writing::end_run;
use command_words::Command;
use frame_top::{answer_command, options_of};
use job_base::{Files, Sink};
use std::alloc::Global;
use std::rt::Clock;
use std::sync::Wait;
use std::thread::Threads;

/// Answers a command that was read. One that asks for a depth isn't of the command that traces.
pub(crate) fn trace_command<R: Threads + Wait + Sync, C: Clock + Sync, F: Files, L: Sink, S: Sink>(
    rt: &R,
    alloc: Global,
    clock: &C,
    command: &Command,
    files: &mut F,
    lines: &mut L,
    sink: &mut S,
) -> u8
    requires asked { (words : List Text) × IsAsked words command.now }
    ensures ends { (words : List Text) → IsAsked words command.now → EndsTo F.bytes F.faults F.last_failed L.taken
        L.faults S.taken S.faults words files.old files.new lines.old lines.new sink.old sink.new result }
    ensures files_later { F.faults files.old ≤ F.faults files.new }
    ensures lines_later { L.faults lines.old ≤ L.faults lines.new }
    ensures sink_later { S.faults sink.old ≤ S.faults sink.new }
{
    let options = options_of(command);
    if options.depth {
        return say_usage(lines);
    }
    let mut watch = TraceWatch::new(alloc, clock);
    let status = answer_command(rt, alloc, command, files, lines, &mut watch);
    end_run(alloc, options.workers, watch.sections(), status, sink)
}

// The top call.
ghost use Rattle.std.specs.Prelude.{◌≡◌, ◌≤◌, Option, None, Some, false, true};
ghost use Rattle.frame_ast.specs.declared.script.Script.{Script as ScriptTree};
ghost use Rattle.frame_ast.specs.Scripts.{status_of, output_of};
ghost use Rattle.command_words.specs.Words.{Text, is_of_command};
ghost use Rattle.frame_top.specs.Answers.{IsFrame};
ghost use Rattle.frame_top.specs.Inputs.{IsGiven, IsSource};
ghost use Rattle.frame_top.specs.Refusals.{Answer, answer, Refuses, frame_refusal, table_of, table_refusal};
ghost use Rattle.frame_top.specs.Words.{asks_depth, bytes_of, workers_in};
ghost use Rattle.frame_top.specs.declared.status.TheConstants.{NO_MEMORY, USAGE};
ghost use Rattle.trace_top.specs.Traced.{AreTracesOf, EndsTo, GivesTraced, IsTracedTo, is_of_trace, trace_usage_line};

use crate::run::trace_command;
use crate::usage::say_usage;
use command_words::{WordsFault, read_words};
use frame_top::status::NO_MEMORY;
use job_base::{Files, Sink};
use std::alloc::Global;
use std::rt::Clock;
use std::sync::Wait;
use std::thread::Threads;

// The work of `trace_frame`.
fn trace_words<R: Threads + Wait + Sync, C: Clock + Sync, F: Files, L: Sink, S: Sink>(
    rt: &R,
    alloc: Global,
    clock: &C,
    words: &[String],
    files: &mut F,
    lines: &mut L,
    sink: &mut S,
) -> u8
    ensures ends { EndsTo F.bytes F.faults F.last_failed L.taken L.faults S.taken S.faults (bytes_of words.now)
        files.old files.new lines.old lines.new sink.old sink.new result }
    ensures files_later { F.faults files.old ≤ F.faults files.new }
    ensures lines_later { L.faults lines.old ≤ L.faults lines.new }
    ensures sink_later { S.faults sink.old ≤ S.faults sink.new }
{
    match read_words(alloc, words) {
        Ok(command) => trace_command(rt, alloc, clock, &command, files, lines, sink),
        Err(WordsFault::Usage) => say_usage(lines),
        Err(WordsFault::NoMemory) => NO_MEMORY,
    }
}

/// Answers a command line of the program that traces: runs the script that its words ask for as `run_frame` does, on
/// that clock. Its lines, and the text of every refusal, go to `lines`, and the trace of the run to `sink`. The answer
/// is the exit status of the program.
///
/// | Status | Comes |
/// |---|---|
/// | 0, 1, 5 | as of `run_frame`, and the whole trace was written |
/// | 2 | the words are not of the command, which asks for no depth |
/// | 3, 4, 6, 9 | as of `run_frame`; no trace is written |
/// | 7 | the lines or the trace couldn't be written |
/// | 8 | memory was not found, for the run or for its trace |
pub fn trace_frame<R: Threads + Wait + Sync, C: Clock + Sync, F: Files, L: Sink, S: Sink>(
    rt: &R,
    alloc: Global,
    clock: &C,
    words: &[String],
    files: &mut F,
    lines: &mut L,
    sink: &mut S,
) -> u8
    // THE HEADLINE. Where the words ask for a script and a table whose bytes are known, and these are accepted, the
    // status and the lines are those of the script's meaning, unless a read failed, one of the sinks failed or memory
    // ran out.
    ensures headline { (script : ScriptTree) (table : Option Text)
        → IsFrame (bytes_of words.now) (F.bytes files.old) script table
        → asks_depth (bytes_of words.now) ≡ false
        → GivesTraced F.faults L.taken L.faults S.faults files.old files.new lines.old lines.new sink.old sink.new
        (answer (status_of script (table_of table)) (output_of script (table_of table))) result }

    // Where the status is that of a run, the whole text of a trace was written; where a write failed, some first part
    // of one may have been; else nothing was. The trace is of exactly the sections of the script's run.
    ensures trace { IsTracedTo (AreTracesOf (bytes_of words.now) (F.bytes files.old)) S.taken S.faults sink.old sink.new
        (workers_in (bytes_of words.now)) result }

    // Memory isn't wanting for words that aren't of the command that runs.
    ensures no_memory { result ≡ NO_MEMORY → is_of_command (bytes_of words.now) ≡ true }

    // When another status is due, with its text.
    ensures usage_due { is_of_trace (bytes_of words.now) ≡ false
        → GivesTraced F.faults L.taken L.faults S.faults files.old files.new lines.old lines.new sink.old sink.new
        (answer USAGE trace_usage_line) result }
    ensures script_due { (source : Text) (a : Answer) → asks_depth (bytes_of words.now) ≡ false
        → IsSource (bytes_of words.now) (F.bytes files.old) source → Refuses source a
        → GivesTraced F.faults L.taken L.faults S.faults files.old files.new lines.old lines.new sink.old sink.new
        a result }
    ensures table_due { (script : ScriptTree) (table : Option Text) (a : Answer)
        → asks_depth (bytes_of words.now) ≡ false → IsGiven (bytes_of words.now) (F.bytes files.old) script table
        → table_refusal table ≡ Some a
        → GivesTraced F.faults L.taken L.faults S.faults files.old files.new lines.old lines.new sink.old sink.new
        a result }
    ensures frame_due { (script : ScriptTree) (table : Option Text) (a : Answer)
        → asks_depth (bytes_of words.now) ≡ false → IsGiven (bytes_of words.now) (F.bytes files.old) script table
        → table_refusal table ≡ None → frame_refusal script (table_of table) false ≡ Some a
        → GivesTraced F.faults L.taken L.faults S.faults files.old files.new lines.old lines.new sink.old sink.new
        a result }

    // What stays.
    ensures files_later { F.faults files.old ≤ F.faults files.new }
    ensures lines_later { L.faults lines.old ≤ L.faults lines.new }
    ensures sink_later { S.faults sink.old ≤ S.faults sink.new }
{
    trace_words(rt, alloc, clock, words, files, lines, sink)
}

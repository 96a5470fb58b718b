// The top call.
ghost use Rattle.std.specs.Prelude.{◌⊎◌, ◌≡◌, ◌≢◌, ◌≤◌, List, [], Option, None, Some, true, false};
ghost use Rattle.std.specs.Io.KnownBytes.{Appends};
ghost use Rattle.job_base.specs.Faults.{Rose};
ghost use Rattle.frame_ast.specs.declared.script.Script.{Script as ScriptTree};
ghost use Rattle.frame_ast.specs.Accepted.{IsAccepted};
ghost use Rattle.frame_ast.specs.Answers.{usage_line};
ghost use Rattle.frame_ast.specs.Scripts.{status_of, output_of};
ghost use Rattle.command_words.specs.Words.{Text, is_of_command};
ghost use Rattle.frame_top.specs.Answers.{AnswersTo, CanBeCut, CauseBy, Gives, GivesDepth, IsFrame, TakesCut, TakesPart};
ghost use Rattle.frame_top.specs.Asking.{IsAsked};
ghost use Rattle.frame_top.specs.Inputs.{HasUnread, IsGiven, IsSource, ReadFails, ReadsScript};
ghost use Rattle.frame_top.specs.Refusals.{Answer, answer, Refuses, frame_refusal, table_of, table_refusal};
ghost use Rattle.frame_top.specs.Seen.{HasSeenAsked, has_run};
ghost use Rattle.frame_top.specs.Words.{asks_depth, bytes_of};
ghost use Rattle.frame_top.specs.declared.status.TheConstants.{NO_MEMORY, PAST_LIMIT, UNREAD, UNWRITTEN, USAGE};

use crate::frame::answer_frame;
use crate::inputs::{options_of, parse_table_for, read_source, read_table_file};
use crate::status::{NO_MEMORY, PAST_LIMIT, UNREAD, USAGE};
use crate::texts::{refuse_source, refuse_table, say};
use crate::watch::{GateAlone, Watch};
use command_words::{Command, WordsFault, read_words};
use frame_ast::script::Script;
use frame_plan::SmallJobs;
use frame_script::{LoadFault, parse_script};
use job_base::{FileFault, Files, Gate, Sink};
use std::alloc::Global;
use std::sync::Wait;
use std::thread::Threads;

// Answers for a script that was accepted: reads the table, and goes on with both.
fn answer_script<R: Threads + Wait + Sync, F: Files, S: Sink, W: Watch>(
    rt: &R,
    alloc: Global,
    command: &Command,
    script: &Script,
    files: &mut F,
    sink: &mut S,
    watch: &mut W,
) -> u8
    requires accepted { IsAccepted script.now }
    requires read { (words : List Text) × IsAsked words command.now × ReadsScript words (F.bytes files.old) script.now }

    ensures answer { (words : List Text) → IsAsked words command.now → ReadsScript words (F.bytes files.old) script.now
        → AnswersTo S.taken S.faults sink.old sink.new
        (CauseBy F.bytes F.faults F.last_failed words files.old files.new) (CanBeCut words (F.bytes files.old)) result }

    ensures seen { (words : List Text) → IsAsked words command.now → ReadsScript words (F.bytes files.old) script.now
        → asks_depth words ≡ false → W.Saw script.now watch.old watch.old [] → has_run result ≡ true
        → HasSeenAsked (λ tree. W.Saw tree watch.old watch.new) words (F.bytes files.old) }
    ensures reads { (words : List Text) → IsAsked words command.now
        → ReadFails F.faults F.last_failed words files.old files.new }
    ensures memory { result ≡ NO_MEMORY → F.faults files.new ≡ F.faults files.old }
    ensures read_all { result ≢ UNREAD → result ≢ UNWRITTEN → F.faults files.new ≡ F.faults files.old }
    ensures same { F.bytes files.new ≡ F.bytes files.old }
    ensures files_later { F.faults files.old ≤ F.faults files.new }
    ensures sink_later { S.faults sink.old ≤ S.faults sink.new }
{
    let bytes = match read_table_file(alloc, command, files) {
        Ok(bytes) => bytes,
        Err(FileFault::Failed) => return say(UNREAD, b"cannot read table\n", sink),
        Err(FileFault::TooLong) => return say(PAST_LIMIT, b"limit: table size\n", sink),
        Err(FileFault::NoMemory) => return NO_MEMORY,
    };
    match parse_table_for(alloc, script, &bytes) {
        Ok(table) => answer_frame(rt, alloc, script, &table, options_of(command), sink, watch),
        Err(fault) => refuse_table(fault, sink),
    }
}

/// Answers a command that was read: reads the script, and goes on with it as [`run_watched`] does.
pub fn answer_command<R: Threads + Wait + Sync, F: Files, S: Sink, W: Watch>(
    rt: &R,
    alloc: Global,
    command: &Command,
    files: &mut F,
    sink: &mut S,
    watch: &mut W,
) -> u8
    requires asked { (words : List Text) × IsAsked words command.now }

    ensures answer { (words : List Text) → IsAsked words command.now → AnswersTo S.taken S.faults sink.old sink.new
        (CauseBy F.bytes F.faults F.last_failed words files.old files.new) (CanBeCut words (F.bytes files.old)) result }

    // Whoever looks on saw exactly the sections of the script, where it ran.
    ensures seen { (words : List Text) → IsAsked words command.now → asks_depth words ≡ false
        → ((tree : ScriptTree) → W.Saw tree watch.old watch.old []) → has_run result ≡ true
        → HasSeenAsked (λ tree. W.Saw tree watch.old watch.new) words (F.bytes files.old) }
    ensures reads { (words : List Text) → IsAsked words command.now
        → ReadFails F.faults F.last_failed words files.old files.new }
    ensures memory { result ≡ NO_MEMORY → F.faults files.new ≡ F.faults files.old }
    ensures read_all { result ≢ UNREAD → result ≢ UNWRITTEN → F.faults files.new ≡ F.faults files.old }
    ensures same { F.bytes files.new ≡ F.bytes files.old }
    ensures files_later { F.faults files.old ≤ F.faults files.new }
    ensures sink_later { S.faults sink.old ≤ S.faults sink.new }
{
    let source = match read_source(alloc, command, files) {
        Ok(source) => source,
        Err(FileFault::Failed) => return say(UNREAD, b"cannot read script\n", sink),
        Err(FileFault::TooLong) => return say(PAST_LIMIT, b"limit: script size\n", sink),
        Err(FileFault::NoMemory) => return NO_MEMORY,
    };
    match parse_script(alloc, &source) {
        Ok(script) => answer_script(rt, alloc, command, &script, files, sink, watch),
        Err(LoadFault::Refused { line, kind }) => refuse_source(line, kind, sink),
        Err(LoadFault::NoMemory) => NO_MEMORY,
    }
}

// Answers the words of a command line: reads them, and goes on with their command. The clauses of `run_watched` follow
// from those here.
fn answer_words<R: Threads + Wait + Sync, F: Files, S: Sink, W: Watch>(
    rt: &R,
    alloc: Global,
    words: &[String],
    files: &mut F,
    sink: &mut S,
    watch: &mut W,
) -> u8
    ensures answer { AnswersTo S.taken S.faults sink.old sink.new
        (CauseBy F.bytes F.faults F.last_failed (bytes_of words.now) files.old files.new)
        (CanBeCut (bytes_of words.now) (F.bytes files.old)) result }

    ensures seen { asks_depth (bytes_of words.now) ≡ false → ((tree : ScriptTree) → W.Saw tree watch.old watch.old [])
        → has_run result ≡ true
        → HasSeenAsked (λ tree. W.Saw tree watch.old watch.new) (bytes_of words.now) (F.bytes files.old) }
    ensures reads { ReadFails F.faults F.last_failed (bytes_of words.now) files.old files.new }
    ensures memory { result ≡ NO_MEMORY → (is_of_command (bytes_of words.now) ≡ true)
        × (F.faults files.new ≡ F.faults files.old) }
    ensures read_all { result ≢ UNREAD → result ≢ UNWRITTEN → F.faults files.new ≡ F.faults files.old }
    ensures same { F.bytes files.new ≡ F.bytes files.old }
    ensures files_later { F.faults files.old ≤ F.faults files.new }
    ensures sink_later { S.faults sink.old ≤ S.faults sink.new }
{
    match read_words(alloc, words) {
        Ok(command) => answer_command(rt, alloc, &command, files, sink, watch),
        Err(WordsFault::Usage) => say(
            USAGE,
            b"usage: frame_run [--workers N] [--depth] SCRIPT [TABLE] or frame_run [--workers N] [--depth] --gen \
             NUMBER --jobs K\n",
            sink,
        ),
        Err(WordsFault::NoMemory) => NO_MEMORY,
    }
}

/// Does what [`run_frame`] does while something looks on: it is told of each section before its first piece is entered
/// and after its last one was left, of no other, and gives the gate round the pieces. The answer is the same whoever
/// looks on.
pub fn run_watched<R: Threads + Wait + Sync, F: Files, S: Sink, W: Watch>(
    rt: &R,
    alloc: Global,
    words: &[String],
    files: &mut F,
    sink: &mut S,
    watch: &mut W,
) -> u8
    // THE HEADLINE. Where the words ask for a script and a table whose bytes are known, and these are accepted, the
    // status and the bytes are those of the script's meaning, unless a read failed, the sink failed or memory ran
    // out.
    ensures headline { (script : ScriptTree) (table : Option Text)
        → IsFrame (bytes_of words.now) (F.bytes files.old) script table
        → asks_depth (bytes_of words.now) ≡ false
        → Gives F.faults S.taken S.faults files.old files.new sink.old sink.new
        (answer (status_of script (table_of table)) (output_of script (table_of table))) result }

    // Whoever looks on saw exactly the sections of the script, each once, in their order, where it ran.
    ensures seen { asks_depth (bytes_of words.now) ≡ false → ((tree : ScriptTree) → W.Saw tree watch.old watch.old [])
        → has_run result ≡ true
        → HasSeenAsked (λ tree. W.Saw tree watch.old watch.new) (bytes_of words.now) (F.bytes files.old) }

    // What is so where a status comes: it has its cause, and the text that goes with it was written whole.
    ensures statuses { result ≤ PAST_LIMIT }
    ensures caused { result ≢ UNWRITTEN → result ≢ NO_MEMORY → (text : Text)
        × CauseBy F.bytes F.faults F.last_failed (bytes_of words.now) files.old files.new (answer result text)
        × Appends (S.taken sink.old) (S.taken sink.new) text }
    ensures usage { result ≡ USAGE → is_of_command (bytes_of words.now) ≡ false }
    ensures unread { result ≡ UNREAD → HasUnread F.faults F.last_failed (bytes_of words.now) files.old files.new }
    ensures unwritten { result ≡ UNWRITTEN → Rose (S.faults sink.old) (S.faults sink.new)
        × TakesPart S.taken sink.old sink.new
        (CauseBy F.bytes F.faults F.last_failed (bytes_of words.now) files.old files.new) }
    ensures no_memory { result ≡ NO_MEMORY → Appends (S.taken sink.old) (S.taken sink.new) []
        ⊎ TakesCut S.taken sink.old sink.new (CanBeCut (bytes_of words.now) (F.bytes files.old)) }
    ensures no_memory_early { result ≡ NO_MEMORY → (is_of_command (bytes_of words.now) ≡ true)
        × (F.faults files.new ≡ F.faults files.old) }

    // When a status is due, with its text.
    ensures usage_due { is_of_command (bytes_of words.now) ≡ false
        → (result ≡ USAGE) × Appends (S.taken sink.old) (S.taken sink.new) usage_line
        ⊎ (result ≡ UNWRITTEN) × Rose (S.faults sink.old) (S.faults sink.new) }
    ensures script_due { (source : Text) (a : Answer) → IsSource (bytes_of words.now) (F.bytes files.old) source
        → Refuses source a → Gives F.faults S.taken S.faults files.old files.new sink.old sink.new a result }
    ensures table_due { (script : ScriptTree) (table : Option Text) (a : Answer)
        → IsGiven (bytes_of words.now) (F.bytes files.old) script table → table_refusal table ≡ Some a
        → Gives F.faults S.taken S.faults files.old files.new sink.old sink.new a result }
    ensures frame_due { (script : ScriptTree) (table : Option Text) (a : Answer)
        → IsGiven (bytes_of words.now) (F.bytes files.old) script table → table_refusal table ≡ None
        → frame_refusal script (table_of table) (asks_depth (bytes_of words.now)) ≡ Some a
        → Gives F.faults S.taken S.faults files.old files.new sink.old sink.new a result }
    ensures depth_due { (script : ScriptTree) (table : Option Text)
        → IsFrame (bytes_of words.now) (F.bytes files.old) script table
        → asks_depth (bytes_of words.now) ≡ true
        → GivesDepth F.faults S.taken S.faults files.old files.new sink.old sink.new
        (bytes_of words.now) (F.bytes files.old) result }

    // What stays.
    ensures same { F.bytes files.new ≡ F.bytes files.old }
    ensures files_later { F.faults files.old ≤ F.faults files.new }
    ensures sink_later { S.faults sink.old ≤ S.faults sink.new }
    ensures reads { ReadFails F.faults F.last_failed (bytes_of words.now) files.old files.new }
    ensures taken_all { result ≢ UNWRITTEN → S.faults sink.new ≡ S.faults sink.old }
    ensures read_all { result ≢ UNREAD → result ≢ UNWRITTEN → F.faults files.new ≡ F.faults files.old }
{
    answer_words(rt, alloc, words, files, sink, watch)
}

/// Answers a command line: reads or makes the script that its words ask for, reads the table, and runs the script with
/// so many workers, or reports how deep it is. The answer is the exit status of the program.
///
/// The work is done in this order: the words; the script's bytes; what they parse to; the table's bytes; what they
/// hold; the columns that the script names; with `--depth`, whether it has a `when`; the limits on jobs and words; the
/// run. The first step that refuses decides the status. A job of little work is run as one piece, so `gate` may see
/// fewer pieces than are scheduled.
///
/// | Status | Text |
/// |---|---|
/// | 0 | what the script prints; with `--depth` the report of its depth |
/// | 1 | what the script prints, where a statement was refused and no job trapped |
/// | 2 | the usage line: the words are not of the command |
/// | 3 | `script refused line L: KIND` |
/// | 4 | `table refused: WHAT` or `table refused row R: WHAT` |
/// | 5 | what the script prints, and the lines of its traps |
/// | 6 | `cannot read script` or `cannot read table`: a read failed, which `files` counts |
/// | 7 | some first bytes of another text: `sink` failed, which it counts |
/// | 8 | nothing: memory was not found. Where the script has a `when`, some first bytes of what it prints |
/// | 9 | `limit: WHAT` |
pub fn run_frame<R: Threads + Wait + Sync, F: Files, S: Sink, G: Gate + Sync>(
    rt: &R,
    alloc: Global,
    words: &[String],
    files: &mut F,
    sink: &mut S,
    gate: &G,
) -> u8
    // THE HEADLINE. Where the words ask for a script and a table whose bytes are known, and these are accepted, the
    // status and the bytes are those of the script's meaning, unless a read failed, the sink failed or memory ran
    // out.
    ensures headline { (script : ScriptTree) (table : Option Text)
        → IsFrame (bytes_of words.now) (F.bytes files.old) script table
        → asks_depth (bytes_of words.now) ≡ false
        → Gives F.faults S.taken S.faults files.old files.new sink.old sink.new
        (answer (status_of script (table_of table)) (output_of script (table_of table))) result }

    // What is so where a status comes: it has its cause, and the text that goes with it was written whole.
    ensures statuses { result ≤ PAST_LIMIT }
    ensures caused { result ≢ UNWRITTEN → result ≢ NO_MEMORY → (text : Text)
        × CauseBy F.bytes F.faults F.last_failed (bytes_of words.now) files.old files.new (answer result text)
        × Appends (S.taken sink.old) (S.taken sink.new) text }
    ensures usage { result ≡ USAGE → is_of_command (bytes_of words.now) ≡ false }
    ensures unread { result ≡ UNREAD → HasUnread F.faults F.last_failed (bytes_of words.now) files.old files.new }
    ensures unwritten { result ≡ UNWRITTEN → Rose (S.faults sink.old) (S.faults sink.new)
        × TakesPart S.taken sink.old sink.new
        (CauseBy F.bytes F.faults F.last_failed (bytes_of words.now) files.old files.new) }
    ensures no_memory { result ≡ NO_MEMORY → Appends (S.taken sink.old) (S.taken sink.new) []
        ⊎ TakesCut S.taken sink.old sink.new (CanBeCut (bytes_of words.now) (F.bytes files.old)) }
    ensures no_memory_early { result ≡ NO_MEMORY → (is_of_command (bytes_of words.now) ≡ true)
        × (F.faults files.new ≡ F.faults files.old) }

    // When a status is due, with its text.
    ensures usage_due { is_of_command (bytes_of words.now) ≡ false
        → (result ≡ USAGE) × Appends (S.taken sink.old) (S.taken sink.new) usage_line
        ⊎ (result ≡ UNWRITTEN) × Rose (S.faults sink.old) (S.faults sink.new) }
    ensures script_due { (source : Text) (a : Answer) → IsSource (bytes_of words.now) (F.bytes files.old) source
        → Refuses source a → Gives F.faults S.taken S.faults files.old files.new sink.old sink.new a result }
    ensures table_due { (script : ScriptTree) (table : Option Text) (a : Answer)
        → IsGiven (bytes_of words.now) (F.bytes files.old) script table → table_refusal table ≡ Some a
        → Gives F.faults S.taken S.faults files.old files.new sink.old sink.new a result }
    ensures frame_due { (script : ScriptTree) (table : Option Text) (a : Answer)
        → IsGiven (bytes_of words.now) (F.bytes files.old) script table → table_refusal table ≡ None
        → frame_refusal script (table_of table) (asks_depth (bytes_of words.now)) ≡ Some a
        → Gives F.faults S.taken S.faults files.old files.new sink.old sink.new a result }
    ensures depth_due { (script : ScriptTree) (table : Option Text)
        → IsFrame (bytes_of words.now) (F.bytes files.old) script table
        → asks_depth (bytes_of words.now) ≡ true
        → GivesDepth F.faults S.taken S.faults files.old files.new sink.old sink.new
        (bytes_of words.now) (F.bytes files.old) result }

    // What stays.
    ensures same { F.bytes files.new ≡ F.bytes files.old }
    ensures files_later { F.faults files.old ≤ F.faults files.new }
    ensures sink_later { S.faults sink.old ≤ S.faults sink.new }
    ensures reads { ReadFails F.faults F.last_failed (bytes_of words.now) files.old files.new }
    ensures taken_all { result ≢ UNWRITTEN → S.faults sink.new ≡ S.faults sink.old }
    ensures read_all { result ≢ UNREAD → result ≢ UNWRITTEN → F.faults files.new ≡ F.faults files.old }
{
    let mut watch = GateAlone {
        gate,
        small_jobs: SmallJobs::Whole,
    };
    run_watched(rt, alloc, words, files, sink, &mut watch)
}

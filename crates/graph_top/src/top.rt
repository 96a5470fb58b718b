// The top call.
ghost use Rattle.std.specs.Prelude.{◌≡◌, ◌≤◌, List, Option, None, Some, false, is_some, map, string_bytes, true};
ghost use Rattle.frame_ast.specs.declared.script.Script.{Script as ScriptTree};
ghost use Rattle.frame_ast.specs.Accepted.{IsAccepted};
ghost use Rattle.command_words.specs.Words.{Text};
ghost use Rattle.frame_top.specs.Asking.{IsAsked};
ghost use Rattle.frame_top.specs.Inputs.{IsGiven, IsSource, ReadsScript};
ghost use Rattle.frame_top.specs.Refusals.{Answer, answer, Refuses, frame_refusal, table_of, table_refusal};
ghost use Rattle.frame_top.specs.declared.status.TheConstants.{NO_MEMORY, USAGE};
ghost use Rattle.graph_words.specs.GraphWords.{flag_place, is_of_graph, plain_words};
ghost use Rattle.graph_top.specs.Drawn.{DrawsTo, IsFrameDrawing};
ghost use Rattle.graph_top.specs.Due.{CommandEndsTo, GivesNote, GivesPicture, GraphEndsTo, IsDrawable, graph_usage_line};

use crate::frame::{Style, answer_frame};
use command_words::WordsFault;
use frame_ast::script::Script;
use frame_script::{LoadFault, parse_script};
use frame_top::status::{NO_MEMORY, PAST_LIMIT, UNREAD, USAGE};
use frame_top::{
    options_of, parse_table, read_source, read_table_file, refuse_source, refuse_table, say,
};
use graph_words::{GraphCommand, read_graph_words};
use job_base::{FileFault, Files, Sink};
use std::alloc::Global;
use std::sync::Wait;
use std::thread::Threads;

// Answers for a script that was accepted: reads the table, and goes on with both.
fn answer_script<R: Threads + Wait + Sync, F: Files, S: Sink, E: Sink>(
    rt: &R,
    alloc: Global,
    graph: &GraphCommand,
    script: &Script,
    files: &mut F,
    sink: &mut S,
    notes: &mut E,
) -> u8
    requires accepted { IsAccepted script.now }
    requires read { (words : List Text) × IsAsked words graph.now.command
        × ReadsScript words (F.bytes files.old) script.now }
    ensures drawn { (words : List Text) → IsAsked words graph.now.command
        → ReadsScript words (F.bytes files.old) script.now
        → DrawsTo S.taken S.faults sink.old sink.new (IsFrameDrawing words (F.bytes files.old) graph.now.dot) result }
    ensures ends { (words : List Text) → IsAsked words graph.now.command
        → ReadsScript words (F.bytes files.old) script.now
        → CommandEndsTo F.bytes F.faults F.last_failed S.faults E.taken E.faults files.old files.new sink.old sink.new
        notes.old notes.new words result }
    ensures sink_later { S.faults sink.old ≤ S.faults sink.new }
    ensures notes_later { E.faults notes.old ≤ E.faults notes.new }
    ensures files_later { F.faults files.old ≤ F.faults files.new }
{
    let bytes = match read_table_file(alloc, &graph.command, files) {
        Ok(bytes) => bytes,
        Err(FileFault::Failed) => return say(UNREAD, b"cannot read table\n", notes),
        Err(FileFault::TooLong) => return say(PAST_LIMIT, b"limit: table size\n", notes),
        Err(FileFault::NoMemory) => return NO_MEMORY,
    };
    let style = Style {
        workers: options_of(&graph.command).workers,
        dot: graph.dot,
    };
    match parse_table(alloc, &bytes) {
        Ok(table) => answer_frame(rt, alloc, script, &table, style, sink, notes),
        Err(fault) => refuse_table(fault, notes),
    }
}

// Answers a command: reads the script, and goes on with it.
fn answer_command<R: Threads + Wait + Sync, F: Files, S: Sink, E: Sink>(
    rt: &R,
    alloc: Global,
    graph: &GraphCommand,
    files: &mut F,
    sink: &mut S,
    notes: &mut E,
) -> u8
    requires asked { (words : List Text) × IsAsked words graph.now.command }
    ensures drawn { (words : List Text) → IsAsked words graph.now.command
        → DrawsTo S.taken S.faults sink.old sink.new (IsFrameDrawing words (F.bytes files.old) graph.now.dot) result }
    ensures ends { (words : List Text) → IsAsked words graph.now.command
        → CommandEndsTo F.bytes F.faults F.last_failed S.faults E.taken E.faults files.old files.new sink.old sink.new
        notes.old notes.new words result }
    ensures sink_later { S.faults sink.old ≤ S.faults sink.new }
    ensures notes_later { E.faults notes.old ≤ E.faults notes.new }
    ensures files_later { F.faults files.old ≤ F.faults files.new }
{
    let source = match read_source(alloc, &graph.command, files) {
        Ok(source) => source,
        Err(FileFault::Failed) => return say(UNREAD, b"cannot read script\n", notes),
        Err(FileFault::TooLong) => return say(PAST_LIMIT, b"limit: script size\n", notes),
        Err(FileFault::NoMemory) => return NO_MEMORY,
    };
    match parse_script(alloc, &source) {
        Ok(script) => answer_script(rt, alloc, graph, &script, files, sink, notes),
        Err(LoadFault::Refused { line, kind }) => refuse_source(line, kind, notes),
        Err(LoadFault::NoMemory) => NO_MEMORY,
    }
}

// The work of `graph_frame`.
fn answer_words<R: Threads + Wait + Sync, F: Files, S: Sink, E: Sink>(
    rt: &R,
    alloc: Global,
    words: Vec<String>,
    files: &mut F,
    sink: &mut S,
    notes: &mut E,
) -> u8
    ensures drawn { DrawsTo S.taken S.faults sink.old sink.new
        (IsFrameDrawing (plain_words (map string_bytes words.items)) (F.bytes files.old)
        (is_some (flag_place (map string_bytes words.items)))) result }
    ensures ends { GraphEndsTo F.bytes F.faults F.last_failed S.faults E.taken E.faults files.old files.new sink.old
        sink.new notes.old notes.new (map string_bytes words.items) result }
    ensures sink_later { S.faults sink.old ≤ S.faults sink.new }
    ensures notes_later { E.faults notes.old ≤ E.faults notes.new }
    ensures files_later { F.faults files.old ≤ F.faults files.new }
{
    match read_graph_words(alloc, words) {
        Ok(graph) => answer_command(rt, alloc, &graph, files, sink, notes),
        Err(WordsFault::Usage) => say(
            USAGE,
            b"usage: frame_graph [--workers N] [--dot] SCRIPT [TABLE] or frame_graph [--workers N] [--dot] --gen \
             NUMBER --jobs K\n",
            notes,
        ),
        Err(WordsFault::NoMemory) => NO_MEMORY,
    }
}

/// Answers a command line of the program that draws: reads or makes the script that its words ask for, reads the table,
/// plans the script, and writes the plan's picture to `sink`; a script with a `when` is run, by so many workers as the
/// words ask for, and the pictures of its sections are written. The answer is the exit status of the program. The text
/// of every status but 0 goes to `notes`.
///
/// | Status | Text |
/// |---|---|
/// | 0 | the picture, whatever statements were refused and jobs trapped |
/// | 2 | the usage line: the words are not of the command |
/// | 3 | `script refused line L: KIND` |
/// | 4 | `table refused: WHAT` or `table refused row R: WHAT` |
/// | 6 | `cannot read script` or `cannot read table` |
/// | 7 | some first bytes of another text: a sink failed |
/// | 8 | nothing: memory was not found |
/// | 9 | `limit: WHAT` |
pub fn graph_frame<R: Threads + Wait + Sync, F: Files, S: Sink, E: Sink>(
    rt: &R,
    alloc: Global,
    words: Vec<String>,
    files: &mut F,
    sink: &mut S,
    notes: &mut E,
) -> u8
    // Where the status is 0, the whole text of a picture was written: that of the script and the table that the words
    // ask for. Where a write of it failed, some first part of such a text was. Else nothing was written, and the status
    // isn't 0.
    ensures drawn { DrawsTo S.taken S.faults sink.old sink.new
        (IsFrameDrawing (plain_words (map string_bytes words.items)) (F.bytes files.old)
        (is_some (flag_place (map string_bytes words.items)))) result }

    // THE HEADLINE. Where the words ask for a script and a table whose bytes are known, and these are accepted, their
    // picture is given, unless a read failed, a sink failed or memory ran out.
    ensures headline { (script : ScriptTree) (table : Option Text)
        → IsDrawable (map string_bytes words.items) (F.bytes files.old) script table
        → GivesPicture F.faults S.faults E.faults files.old files.new sink.old sink.new notes.old notes.new result }

    // Memory isn't wanting for words that aren't of the command.
    ensures no_memory { result ≡ NO_MEMORY → is_of_graph (map string_bytes words.items) ≡ true }

    // When another status is due, with its text.
    ensures usage_due { is_of_graph (map string_bytes words.items) ≡ false
        → GivesNote F.faults S.faults E.taken E.faults files.old files.new sink.old sink.new notes.old notes.new
        (answer USAGE graph_usage_line) result }
    ensures script_due { (source : Text) (a : Answer) → is_of_graph (map string_bytes words.items) ≡ true
        → IsSource (plain_words (map string_bytes words.items)) (F.bytes files.old) source → Refuses source a
        → GivesNote F.faults S.faults E.taken E.faults files.old files.new sink.old sink.new notes.old notes.new
        a result }
    ensures table_due { (script : ScriptTree) (table : Option Text) (a : Answer)
        → is_of_graph (map string_bytes words.items) ≡ true
        → IsGiven (plain_words (map string_bytes words.items)) (F.bytes files.old) script table
        → table_refusal table ≡ Some a
        → GivesNote F.faults S.faults E.taken E.faults files.old files.new sink.old sink.new notes.old notes.new
        a result }
    ensures frame_due { (script : ScriptTree) (table : Option Text) (a : Answer)
        → is_of_graph (map string_bytes words.items) ≡ true
        → IsGiven (plain_words (map string_bytes words.items)) (F.bytes files.old) script table
        → table_refusal table ≡ None → frame_refusal script (table_of table) false ≡ Some a
        → GivesNote F.faults S.faults E.taken E.faults files.old files.new sink.old sink.new notes.old notes.new
        a result }

    // What stays.
    ensures sink_later { S.faults sink.old ≤ S.faults sink.new }
    ensures notes_later { E.faults notes.old ≤ E.faults notes.new }
    ensures files_later { F.faults files.old ≤ F.faults files.new }
{
    answer_words(rt, alloc, words, files, sink, notes)
}

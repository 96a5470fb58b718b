//! The run of a script on the caller's own thread: it takes bytes and no files, starts no thread and waits for nobody.
ghost use Rattle.std.specs.Prelude.{◌≡◌, ◌≢◌, ◌≤◌, ◌⊎◌, ℕ, length, option_copied, OnErr, IfErr, IfOk, IfSome, None, Some, false, true};
ghost use Rattle.job_base.specs.declared.limits.TheConstants.{MOST_TABLE_BYTES, MOST_TESTS};
ghost use Rattle.frame_ast.specs.declared.script.Script.{Script as ScriptTree};
ghost use Rattle.frame_ast.specs.Accepted.{IsAccepted};
ghost use Rattle.frame_ast.specs.Answers.{table_size_line};
ghost use Rattle.frame_ast.specs.Scripts.{output_of, status_of};
ghost use Rattle.merge_laws.specs.Graph.{Cells};
ghost use Rattle.frame_plan.specs.Sections.{IsAt};
ghost use Rattle.plan_statements.specs.Tables.{columns_of};
ghost use Rattle.table_laws.specs.Laws.{AnswerAllAlike};
ghost use Rattle.command_words.specs.Words.{Text};
ghost use Rattle.frame_top.specs.Answers.{AnswersTo, FrameCause, IsCut, has_when};
ghost use Rattle.frame_top.specs.Inputs.{Accepts};
ghost use Rattle.frame_top.specs.Refusals.{Answer, Refuses, answer, frame_refusal, refused_table, table_of, table_refusal};
ghost use Rattle.frame_top.specs.Running.{HasRun, RunsOn};
ghost use Rattle.frame_top.specs.Sources.{CanBeCutOf, GivesSource, Grows, IsAcceptedFrame, SourceCause};
ghost use Rattle.frame_top.specs.declared.status.TheConstants.{PAST_LIMIT};

use crate::columns::read_for;
use crate::frame::refuse_missing;
use crate::on_cells::run_on_cells;
use crate::sections::{Progress, begin_frame, close, finish, next_section, take_run};
use crate::status::{NO_MEMORY, PAST_LIMIT};
use crate::texts::{refuse_plan, refuse_source, refuse_table, say};
use frame_ast::script::Script;
use frame_plan::{SectionBook, SmallJobs};
use frame_script::{LoadFault, parse_script};
use job_base::limits::{MOST_SCRIPT_BYTES, MOST_TABLE_BYTES, MOST_TESTS};
use job_base::{FlatMem, NoMemory, Sink};
use std::alloc::Global;
use std::mem;
use table_in::{Table, TableFault};

// Runs the next section, and says whether there is one after it.
fn run_next_section<S: Sink>(
    alloc: Global,
    script: &Script,
    table: &Table,
    book: &mut SectionBook,
    progress: &mut Progress,
    sink: &mut S,
) -> Result<bool, NoMemory>
    requires accepted { IsAccepted script.now }
    requires here { (sections : ℕ) × (from : ℕ) × (sections ≤ MOST_TESTS)
        × HasRun script.now (columns_of table.now) sections from book.old progress.old }
    ensures next { (sections from : ℕ) → HasRun script.now (columns_of table.now) sections from book.old progress.old
        → IfOk result (RunsOn S.taken S.faults script.now (columns_of table.now) sections from sink.old progress.old
        sink.new book.new progress.new) }
    ensures later { S.faults sink.old ≤ S.faults sink.new }
    ensures sink { OnErr result (sink.new ≡ sink.old) }
    ensures waits { OnErr result (progress.new.out ≡ progress.old.out) }
    ensures failed { OnErr result (progress.new.failed ≡ progress.old.failed) }
{
    let section = next_section(alloc, script, table, book, progress)?;
    let spare = mem::replace(&mut progress.cells, FlatMem::of(Vec::new(alloc)));
    let ran = run_on_cells(
        alloc,
        &section.plan,
        progress.failed,
        spare.into_cells(),
        &mut progress.out,
        sink,
    )?;
    Ok(take_run(section, ran, book, progress))
}

// Runs the sections of a script one after another, and then writes the lines of its traps.
fn run_sections<S: Sink>(
    alloc: Global,
    script: &Script,
    table: &Table,
    first: SectionBook,
    sink: &mut S,
) -> u8
    requires accepted { IsAccepted script.now }
    requires begins { (carried : Cells) (len : ℕ) → IsAt first script.now (columns_of table.now) 0 carried len }
    ensures answer { AnswersTo S.taken S.faults sink.old sink.new
        (λ a. a ≡ answer (status_of script.now (columns_of table.now)) (output_of script.now (columns_of table.now)))
        (λ text. (has_when script.now ≡ true) × (text ≡ output_of script.now (columns_of table.now))) result }
    ensures later { S.faults sink.old ≤ S.faults sink.new }
{
    let Ok(mut progress) = begin_frame(alloc) else {
        return NO_MEMORY;
    };
    let mut book = first;
    for _section in 0..MOST_TESTS + 1 {
        match run_next_section(alloc, script, table, &mut book, &mut progress, sink) {
            Ok(true) => {}
            Ok(false) => return finish(&mut progress, sink),
            Err(NoMemory) => return close(&mut progress, NO_MEMORY, sink),
        }
    }
    // Each section but the last one ends at another `when`, of which a script has at most so many.
    unreachable!()
}

// Answers for a script that was accepted and its table: looks for its columns, and then runs it.
fn answer_frame<S: Sink>(alloc: Global, script: &Script, table: &Table, sink: &mut S) -> u8
    requires accepted { IsAccepted script.now }
    ensures answer { AnswersTo S.taken S.faults sink.old sink.new
        (FrameCause script.now (columns_of table.now) false 1)
        (IsCut script.now (columns_of table.now) false) result }
    ensures later { S.faults sink.old ≤ S.faults sink.new }
{
    if let Some(status) = refuse_missing(script, table, sink) {
        return status;
    }
    match SectionBook::new(alloc, script, table, SmallJobs::Whole) {
        Ok(book) => run_sections(alloc, script, table, book, sink),
        Err(fault) => refuse_plan(fault, sink),
    }
}

// The table of these bytes for a script; one without columns where none are given.
fn read_given(alloc: Global, script: &Script, table: Option<&[u8]>) -> Result<Table, TableFault>
    requires within { IfSome (option_copied table) (λ bytes. length bytes ≤ MOST_TABLE_BYTES) }
    ensures sound { IfOk result (λ t. table_refusal (option_copied table.entry) ≡ None) }
    ensures columns { IfOk result (λ t. AnswerAllAlike (columns_of t) (table_of (option_copied table.entry))
        script.now.statements.items) }
    ensures fault { IfErr result (λ fault. (fault ≡ TableFault.NoMemory)
        ⊎ (fault ≢ TableFault.NoMemory) × (table_refusal (option_copied table.entry) ≡ Some (refused_table fault))) }
{
    match table {
        None => Ok(Table::none(alloc)),
        Some(bytes) => read_for(alloc, script, bytes),
    }
}

// Whether a table has more bytes than one may have.
fn is_too_long(table: Option<&[u8]>) -> bool
    ensures long { result ≡ true
        → table_refusal (option_copied table.entry) ≡ Some (answer PAST_LIMIT table_size_line) }
    ensures within { result ≡ false
        → IfSome (option_copied table.entry) (λ bytes. length bytes ≤ MOST_TABLE_BYTES) }
{
    match table {
        None => false,
        Some(bytes) => bytes.len() > MOST_TABLE_BYTES as usize,
    }
}

// Answers for a script that was accepted: reads the table, and goes on with both.
fn answer_script<S: Sink>(alloc: Global, script: &Script, table: Option<&[u8]>, sink: &mut S) -> u8
    requires accepted { IsAccepted script.now }
    ensures answer { (source : Text) → Accepts source script.now → AnswersTo S.taken S.faults sink.old sink.new
        (SourceCause source (option_copied table.entry)) (CanBeCutOf source (option_copied table.entry)) result }
    ensures later { S.faults sink.old ≤ S.faults sink.new }
{
    if is_too_long(table) {
        return say(PAST_LIMIT, b"limit: table size\n", sink);
    }
    match read_given(alloc, script, table) {
        Ok(columns) => answer_frame(alloc, script, &columns, sink),
        Err(fault) => refuse_table(fault, sink),
    }
}

// Answers for the bytes of a script: reads them, and goes on with what they parse to. From its clause `answer` follow
// those of `run_source`.
fn answer_source<S: Sink>(alloc: Global, source: &[u8], table: Option<&[u8]>, sink: &mut S) -> u8
    ensures answer { AnswersTo S.taken S.faults sink.old sink.new (SourceCause source.now (option_copied table.entry))
        (CanBeCutOf source.now (option_copied table.entry)) result }
    ensures later { S.faults sink.old ≤ S.faults sink.new }
{
    if source.len() > MOST_SCRIPT_BYTES as usize {
        return say(PAST_LIMIT, b"limit: script size\n", sink);
    }
    match parse_script(alloc, source) {
        Ok(script) => answer_script(alloc, &script, table, sink),
        Err(LoadFault::Refused { line, kind }) => refuse_source(line, kind, sink),
        Err(LoadFault::NoMemory) => NO_MEMORY,
    }
}

/// Runs the script of these bytes on the caller's own thread, with the table of those bytes where it has one, and
/// writes what the script prints. The answer is the status that `run_frame` answers for files with these bytes.
///
/// Nothing is kept from one call to the next. Memory is taken from `alloc` and given back before it returns.
pub fn run_source<S: Sink>(alloc: Global, source: &[u8], table: Option<&[u8]>, sink: &mut S) -> u8
    // Where script and table are accepted, the status and the bytes are those of the script's meaning, unless the sink
    // failed or memory ran out.
    ensures headline { (script : ScriptTree) → IsAcceptedFrame source.now (option_copied table.entry) script
        → GivesSource S.taken S.faults sink.old sink.new
        (answer (status_of script (table_of (option_copied table.entry)))
        (output_of script (table_of (option_copied table.entry)))) result }

    // Else they are those of the first refusal.
    ensures script_due { (a : Answer) → Refuses source.now a
        → GivesSource S.taken S.faults sink.old sink.new a result }
    ensures table_due { (script : ScriptTree) (a : Answer) → Accepts source.now script
        → table_refusal (option_copied table.entry) ≡ Some a
        → GivesSource S.taken S.faults sink.old sink.new a result }
    ensures frame_due { (script : ScriptTree) (a : Answer) → Accepts source.now script
        → table_refusal (option_copied table.entry) ≡ None
        → frame_refusal script (table_of (option_copied table.entry)) false ≡ Some a
        → GivesSource S.taken S.faults sink.old sink.new a result }

    // Whatever is answered, after a fault too.
    ensures grows { Grows S.taken sink.old sink.new }
    ensures later { S.faults sink.old ≤ S.faults sink.new }
{
    answer_source(alloc, source, table, sink)
}

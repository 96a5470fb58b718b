// The run of a script, section after section.
ghost use Rattle.std.specs.Prelude.{◌≡◌, ◌<◌, ◌≤◌, ℕ, List, [], length, OnErr, IfOk, IsSome, None, is_some, true, false};
ghost use Rattle.job_base.specs.declared.limits.TheConstants.{MOST_TESTS, MOST_WORKERS};
ghost use Rattle.job_base.specs.Cells.{cells_of};
ghost use Rattle.frame_ast.specs.declared.script.Script.{Script as ScriptTree};
ghost use Rattle.frame_ast.specs.Accepted.{IsAccepted};
ghost use Rattle.frame_ast.specs.Orders.{Table as Columns, compares};
ghost use Rattle.frame_ast.specs.Scripts.{output_of, status_by, status_of};
ghost use Rattle.frame_ast.specs.States.{ScriptState};
ghost use Rattle.frame_ast.specs.Texts.{traps_text};
ghost use Rattle.merge_laws.specs.Graph.{Cells};
ghost use Rattle.frame_core.specs.Output.{plan_lines};
ghost use Rattle.plan_run.specs.Runs.{IsReport};
ghost use Rattle.frame_plan.specs.Sections.{IsAt, place_of};
ghost use Rattle.plan_statements.specs.Tables.{columns_of};
ghost use Rattle.frame_top.specs.Answers.{AnswersTo, has_when};
ghost use Rattle.frame_top.specs.Cells.{AreCellsOf};
ghost use Rattle.frame_top.specs.Refusals.{answer};
ghost use Rattle.frame_top.specs.Running.{Closes, GoesOn, HasRun, IsMade, IsReportAt, RunsOn};
ghost use Rattle.frame_top.specs.Seen.{HasSeen, SectionAt, SeesOne, has_run};
ghost use Rattle.frame_top.specs.declared.status.TheConstants.{NO_MEMORY, UNWRITTEN};

use crate::extent::Extent;
use crate::section::{Asked, SectionRun, SpareLists, run_section};
use crate::status::{DONE, NO_MEMORY, STATEMENT_REFUSED, TRAPPED, UNWRITTEN};
use crate::watch::Watch;
use crate::workers::Workers;
use frame_ast::script::Script;
use frame_core::Report;
use frame_plan::{Section, SectionBook, Test};
use frame_print::Outgoing;
use job_base::limits::MOST_TESTS;
use job_base::{FlatMem, JobId, Mem, NoMemory, Sink, Trap, Word};
use plan_run::{flush_lines, say_traps};
use std::alloc::Global;
use std::mem;
use std::sync::Wait;
use std::thread::Threads;
use steal_pool::join_reports;
use steal_pool::laws::reports_are_within;
use table_in::Table;

/// What is known of a frame between two of its sections.
#[derive(Drop)]
pub struct Progress {
    /// Whether the test holds at which the last section ended.
    pub held: Option<bool>,
    /// The cells that it left, with which the next one begins; once that is planned, memory for those that it leaves.
    pub cells: FlatMem,
    /// A list for the words of the next section's board.
    pub words: Vec<u64>,
    /// Of all sections so far.
    pub report: Report,
    /// Their lines that wait before the sink takes them.
    pub out: Outgoing,
    /// A write failed, and nothing was written since.
    pub failed: bool,
}

/// Whether a test holds of these cells.
fn holds(test: &Test, cells: &mut FlatMem) -> bool
    requires reach { test.now.at.start < length cells.old }
    ensures held { result ≡ compares test.now.sign (cells_of cells.old test.now.at.start) test.now.bound }
    ensures cells { cells.new ≡ cells.old }
{
    let number = cells.load(Word(test.at.start));
    test.sign.holds(number, test.bound)
}

/// The status of a run that was written whole.
fn status_of_report(report: &Report) -> u8
    ensures { (s : ScriptState) → IsReportAt s report.now → result ≡ status_by s.traps s.refused }
{
    if report.traps > 0 {
        TRAPPED
    } else if report.refused > 0 {
        STATEMENT_REFUSED
    } else {
        DONE
    }
}

/// What is known of a frame before its first section.
pub fn begin_frame(alloc: Global) -> Result<Progress, NoMemory>
    ensures held { IfOk result (λ p. p.held ≡ None) }
    ensures waits { IfOk result (λ p. p.out ≡ []) }
    ensures failed { IfOk result (λ p. p.failed ≡ false) }
    ensures report { IfOk result (λ p. (s : ScriptState) → s.traps ≡ [] → s.refused ≡ 0 → IsReportAt s p.report) }
{
    let out = Outgoing::new(alloc)?;
    Ok(Progress {
        held: None,
        cells: FlatMem::of(Vec::new(alloc)),
        words: Vec::new(alloc),
        report: no_report(),
        out,
        failed: false,
    })
}

// The place at which the next section begins: the first statement, or the test at which the last section ended.
fn next_place(book: &SectionBook, progress: &Progress) -> u32
    ensures { (script : ScriptTree) (columns : Columns) (sections from : ℕ)
        → HasRun script columns sections from book.now progress.now → result ≡ from }
{
    if progress.held.is_some() {
        book.place()
    } else {
        0
    }
}

/// Makes the next section of a frame out of what the last one left.
pub fn next_section(
    alloc: Global,
    script: &Script,
    table: &Table,
    book: &mut SectionBook,
    progress: &mut Progress,
) -> Result<Section, NoMemory>
    requires here { (sections : ℕ) × (from : ℕ)
        × HasRun script.now (columns_of table.now) sections from book.old progress.old }
    ensures made { (sections from : ℕ) → HasRun script.now (columns_of table.now) sections from book.old progress.old
        → IfOk result (λ section. IsMade script.now (columns_of table.now) sections from book.new section
        progress.new.report) }
    ensures held { progress.new.held ≡ progress.old.held }
    ensures waits { progress.new.out ≡ progress.old.out }
    ensures failed { progress.new.failed ≡ progress.old.failed }
{
    book.next(alloc, script, table, progress.held, &mut progress.cells)
}

/// Takes over what the run of a section came to, and says whether there is a section after it. Then the book takes back
/// the plan.
pub fn take_run(
    section: Section,
    ran: SectionRun,
    book: &mut SectionBook,
    progress: &mut Progress,
) -> bool
    requires made { (script : ScriptTree) × (columns : Columns) × (sections : ℕ) × (from : ℕ)
        × IsAccepted script × (sections ≤ MOST_TESTS)
        × IsMade script columns sections from book.old section progress.old.report }
    requires report { IsReport section.plan ran.report }
    requires cells { IsSome section.test → AreCellsOf section.plan ran.left }
    ensures goes { (script : ScriptTree) (columns : Columns) (sections from : ℕ)
        → IsMade script columns sections from book.old section progress.old.report
        → GoesOn script columns sections from (plan_lines section.plan) book.new progress.new result }
    ensures more { result ≡ is_some section.test }
    ensures book { result ≡ false → book.new ≡ book.old }
    ensures place { place_of book.new ≡ place_of book.old }
    ensures waits { progress.new.out ≡ progress.old.out }
    ensures failed { progress.new.failed ≡ ran.failed }
{
    reports_are_within();
    progress.failed = ran.failed;
    progress.report = join_reports(&progress.report, section.jobs_before, &ran.report);
    progress.cells = ran.left;
    let Section { plan, test, .. } = section;
    match test {
        None => false,
        Some(test) => {
            book.take_back(plan);
            progress.held = Some(holds(&test, &mut progress.cells));
            true
        }
    }
}

// Runs the next section, and says whether there is one after it.
fn run_next_section<R: Threads + Wait + Sync, S: Sink, W: Watch>(
    workers: &Workers<R>,
    script: &Script,
    table: &Table,
    book: &mut SectionBook,
    progress: &mut Progress,
    sink: &mut S,
    watch: &mut W,
) -> Result<bool, NoMemory>
    requires accepted { IsAccepted script.now }
    requires workers { (1 ≤ workers.now.count) × (workers.now.count ≤ MOST_WORKERS) }
    requires here { (sections : ℕ) × (from : ℕ) × (sections ≤ MOST_TESTS)
        × HasRun script.now (columns_of table.now) sections from book.old progress.old }
    ensures next { (sections from : ℕ) → HasRun script.now (columns_of table.now) sections from book.old progress.old
        → IfOk result (RunsOn S.taken S.faults script.now (columns_of table.now) sections from sink.old progress.old
        sink.new book.new progress.new) }
    ensures seen { (sections from : ℕ) → HasRun script.now (columns_of table.now) sections from book.old progress.old
        → (first : W) (earlier : List SectionAt) → W.Saw script.now first watch.old earlier
        → IfOk result (SeesOne (W.Saw script.now first watch.new) script.now (columns_of table.now) from book.new
        earlier) }
    ensures later { S.faults sink.old ≤ S.faults sink.new }
    ensures sink { OnErr result (sink.new ≡ sink.old) }
    ensures waits { OnErr result (progress.new.out ≡ progress.old.out) }
    ensures failed { OnErr result (progress.new.failed ≡ progress.old.failed) }
{
    let alloc = workers.alloc;
    let from = next_place(book, progress) as usize;
    let section = next_section(alloc, script, table, book, progress)?;
    let extent = Extent {
        from,
        to: book.place() as usize,
        held: progress.held,
    };
    watch.begin(alloc, script, extent, &section)?;
    let asked = Asked {
        keeps: section.test.is_some(),
        failed: progress.failed,
    };
    let cells = mem::replace(&mut progress.cells, FlatMem::of(Vec::new(alloc)));
    let words = mem::replace(&mut progress.words, Vec::new(alloc));
    let mut spare = SpareLists {
        cells: cells.into_cells(),
        words,
    };
    let ran = run_section(
        workers,
        &section.plan,
        asked,
        &mut spare,
        &mut progress.out,
        sink,
        watch.gate(),
    )?;
    progress.words = spare.words;
    watch.end(script, extent, &section);
    Ok(take_run(section, ran, book, progress))
}

/// Writes what waits, and answers this status, unless a write failed.
pub fn close<S: Sink>(progress: &mut Progress, status: u8, sink: &mut S) -> u8
    ensures closed { Closes S.taken S.faults sink.old progress.old sink.new progress.new [] status result }
    ensures later { S.faults sink.old ≤ S.faults sink.new }
{
    flush_lines(&mut progress.out, sink, &mut progress.failed);
    if progress.failed { UNWRITTEN } else { status }
}

/// Writes what waits and the lines of the traps, and answers the status.
pub fn finish<S: Sink>(progress: &mut Progress, sink: &mut S) -> u8
    ensures closed { (s : ScriptState) → IsReportAt s progress.old.report
        → Closes S.taken S.faults sink.old progress.old sink.new progress.new (traps_text s.traps)
        (status_by s.traps s.refused) result }
    ensures later { S.faults sink.old ≤ S.faults sink.new }
{
    say_traps(
        &progress.report,
        &mut progress.out,
        sink,
        &mut progress.failed,
    );
    let status = status_of_report(&progress.report);
    close(progress, status, sink)
}

/// The report of a frame of which no section was run yet.
fn no_report() -> Report
    ensures { (s : ScriptState) → s.traps ≡ [] → s.refused ≡ 0 → IsReportAt s result }
{
    Report {
        traps: 0,
        refused: 0,
        job: JobId(0),
        index: 0,
        trap: Trap::Overflow,
    }
}

/// Runs the sections of a script one after another, and then writes the lines of its traps.
///
/// All that a section needs is made before its first piece is begun; of the first section, before the first byte is
/// written. Lines wait in one buffer, from one section to the next; where memory for a section runs out, those that
/// wait are still written. After a failed write the other sections are run all the same, and nothing more is written.
pub fn run_sections<R: Threads + Wait + Sync, S: Sink, W: Watch>(
    workers: &Workers<R>,
    script: &Script,
    table: &Table,
    first: SectionBook,
    sink: &mut S,
    watch: &mut W,
) -> u8
    requires accepted { IsAccepted script.now }
    requires workers { (1 ≤ workers.now.count) × (workers.now.count ≤ MOST_WORKERS) }
    requires begins { (carried : Cells) (len : ℕ) → IsAt first script.now (columns_of table.now) 0 carried len }
    ensures answer { AnswersTo S.taken S.faults sink.old sink.new
        (λ a. a ≡ answer (status_of script.now (columns_of table.now)) (output_of script.now (columns_of table.now)))
        (λ text. (has_when script.now ≡ true) × (text ≡ output_of script.now (columns_of table.now))) result }
    // Whoever looks on saw exactly the sections of the script, where it ran.
    ensures seen { W.Saw script.now watch.old watch.old [] → has_run result ≡ true
        → HasSeen (W.Saw script.now watch.old watch.new) script.now (columns_of table.now) }
    ensures later { S.faults sink.old ≤ S.faults sink.new }
{
    let Ok(mut progress) = begin_frame(workers.alloc) else {
        return NO_MEMORY;
    };
    let mut book = first;
    for _section in 0..MOST_TESTS + 1 {
        match run_next_section(
            workers,
            script,
            table,
            &mut book,
            &mut progress,
            sink,
            watch,
        ) {
            Ok(true) => {}
            Ok(false) => return finish(&mut progress, sink),
            Err(NoMemory) => return close(&mut progress, NO_MEMORY, sink),
        }
    }
    // Each section but the last one ends at another `when`, of which a script has at most so many.
    unreachable!()
}

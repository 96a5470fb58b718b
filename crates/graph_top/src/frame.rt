// What a script and its table answer.
ghost use Rattle.std.specs.Prelude.{◌≡◌, ◌≤◌, ℕ, IfOk, None, false, string_bytes, true};
ghost use Rattle.job_base.specs.declared.limits.TheConstants.{MOST_WORKERS};
ghost use Rattle.job_base.specs.Faults.{Rose};
ghost use Rattle.frame_ast.specs.Accepted.{IsAccepted};
ghost use Rattle.frame_top.specs.Answers.{has_when};
ghost use Rattle.frame_top.specs.Refusals.{column_refusal};
ghost use Rattle.merge_laws.specs.Graph.{Cells};
ghost use Rattle.frame_plan.specs.Sections.{IsAt};
ghost use Rattle.plan_statements.specs.Tables.{columns_of};
ghost use Rattle.graph_top.specs.Drawn.{DrawsTo, IsDrawing, IsRunDrawn};
ghost use Rattle.graph_top.specs.Due.{FrameEndsTo, IsShown};

use crate::drawing::picture_text;
use crate::watch::DrawingWatch;
use frame_ast::script::Script;
use frame_plan::{SectionBook, SmallJobs, plan};
use frame_print::print_text;
use frame_top::status::{DONE, NO_MEMORY, UNWRITTEN, has_run};
use frame_top::{Workers, first_when, refuse_missing, refuse_plan, run_sections};
use job_base::{NoMemory, NullSink, Sink};
use std::alloc::Global;
use std::sync::Wait;
use std::thread::Threads;
use table_in::Table;

/// How a frame is to be drawn.
#[derive(Clone, Copy)]
pub(crate) struct Style {
    pub(crate) workers: u32,
    /// In the language of Graphviz, and not as a page.
    pub(crate) dot: bool,
}

// Writes the text of a picture.
fn show<S: Sink>(text: &str, sink: &mut S) -> u8
    ensures drawn { DrawsTo S.taken S.faults sink.old sink.new (λ t. t ≡ text.now) result }
    ensures shown { IsShown (Rose (S.faults sink.old) (S.faults sink.new)) result }
    ensures later { S.faults sink.old ≤ S.faults sink.new }
{
    match print_text(text.as_bytes(), sink) {
        Ok(()) => DONE,
        Err(_) => UNWRITTEN,
    }
}

// Plans a script without a `when`, and draws the plan.
fn draw_plan<S: Sink, E: Sink>(
    alloc: Global,
    script: &Script,
    table: &Table,
    style: Style,
    sink: &mut S,
    notes: &mut E,
) -> u8
    requires accepted { IsAccepted script.now }
    requires columns { column_refusal (columns_of table.now) script.now.statements.items ≡ None }
    requires whole { has_when script.now ≡ false }
    requires workers { (1 ≤ style.workers) × (style.workers ≤ MOST_WORKERS) }
    ensures drawn { DrawsTo S.taken S.faults sink.old sink.new
        (IsDrawing script.now (columns_of table.now) style.workers style.dot) result }
    ensures ends { FrameEndsTo S.faults E.taken E.faults sink.old sink.new notes.old notes.new script.now
        (columns_of table.now) result }
    ensures later { S.faults sink.old ≤ S.faults sink.new }
    ensures notes_later { E.faults notes.old ≤ E.faults notes.new }
{
    let plan = match plan(alloc, script, table) {
        Ok(plan) => plan,
        Err(fault) => return refuse_plan(fault, notes),
    };
    match picture_text(alloc, script, &plan, style.workers, style.dot) {
        Ok(text) => show(text.as_str(), sink),
        Err(NoMemory) => NO_MEMORY,
    }
}

// The text of the pictures of a script's sections. What the script prints goes nowhere.
fn run_text<R: Threads + Wait + Sync>(
    rt: &R,
    alloc: Global,
    script: &Script,
    table: &Table,
    style: Style,
    first: SectionBook,
) -> Result<String, NoMemory>
    requires accepted { IsAccepted script.now }
    requires workers { (1 ≤ style.workers) × (style.workers ≤ MOST_WORKERS) }
    requires begins { (carried : Cells) (len : ℕ) → IsAt first script.now (columns_of table.now) 0 carried len }
    ensures drawn { IfOk result (λ s. IsRunDrawn script.now (columns_of table.now) style.workers style.dot
        (string_bytes s)) }
{
    let mut watch = DrawingWatch::new(alloc, style.workers, style.dot)?;
    let mut nowhere = NullSink::new();
    let workers = Workers {
        rt,
        alloc,
        count: style.workers,
    };
    let status = run_sections(&workers, script, table, first, &mut nowhere, &mut watch);
    if has_run(status) {
        Ok(watch.into_text())
    } else {
        Err(NoMemory)
    }
}

// Runs a script with a `when`, whose sections are known only then, and draws them.
fn draw_run<R: Threads + Wait + Sync, S: Sink, E: Sink>(
    rt: &R,
    alloc: Global,
    script: &Script,
    table: &Table,
    style: Style,
    sink: &mut S,
    notes: &mut E,
) -> u8
    requires accepted { IsAccepted script.now }
    requires columns { column_refusal (columns_of table.now) script.now.statements.items ≡ None }
    requires tested { has_when script.now ≡ true }
    requires workers { (1 ≤ style.workers) × (style.workers ≤ MOST_WORKERS) }
    ensures drawn { DrawsTo S.taken S.faults sink.old sink.new
        (IsDrawing script.now (columns_of table.now) style.workers style.dot) result }
    ensures ends { FrameEndsTo S.faults E.taken E.faults sink.old sink.new notes.old notes.new script.now
        (columns_of table.now) result }
    ensures later { S.faults sink.old ≤ S.faults sink.new }
    ensures notes_later { E.faults notes.old ≤ E.faults notes.new }
{
    let book = match SectionBook::new(alloc, script, table, SmallJobs::Cut) {
        Ok(book) => book,
        Err(fault) => return refuse_plan(fault, notes),
    };
    match run_text(rt, alloc, script, table, style, book) {
        Ok(text) => show(text.as_str(), sink),
        Err(NoMemory) => NO_MEMORY,
    }
}

/// Answers for a script that was accepted and its table: looks for its columns, plans it and draws the plan; or, where
/// it has a `when`, runs it and draws its sections.
pub(crate) fn answer_frame<R: Threads + Wait + Sync, S: Sink, E: Sink>(
    rt: &R,
    alloc: Global,
    script: &Script,
    table: &Table,
    style: Style,
    sink: &mut S,
    notes: &mut E,
) -> u8
    requires accepted { IsAccepted script.now }
    requires workers { (1 ≤ style.workers) × (style.workers ≤ MOST_WORKERS) }
    ensures drawn { DrawsTo S.taken S.faults sink.old sink.new
        (IsDrawing script.now (columns_of table.now) style.workers style.dot) result }
    ensures ends { FrameEndsTo S.faults E.taken E.faults sink.old sink.new notes.old notes.new script.now
        (columns_of table.now) result }
    ensures later { S.faults sink.old ≤ S.faults sink.new }
    ensures notes_later { E.faults notes.old ≤ E.faults notes.new }
{
    if let Some(status) = refuse_missing(script, table, notes) {
        return status;
    }
    match first_when(script) {
        None => draw_plan(alloc, script, table, style, sink, notes),
        Some(_) => draw_run(rt, alloc, script, table, style, sink, notes),
    }
}

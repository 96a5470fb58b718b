// What a script and its table answer.
ghost use Rattle.std.specs.Prelude.{◌≡◌, ◌≤◌, ◌⊎◌, ℕ, Bool, [], None, Some, IfSome, false, true};
ghost use Rattle.job_base.specs.declared.limits.TheConstants.{MOST_WORKERS};
ghost use Rattle.frame_ast.specs.Accepted.{IsAccepted};
ghost use Rattle.plan_statements.specs.Tables.{columns_of};
ghost use Rattle.frame_top.specs.Answers.{AnswersTo, FrameCause, IsCut, SaidTo};
ghost use Rattle.frame_top.specs.Refusals.{Answer, column_name, column_refusal, first_when};
ghost use Rattle.frame_top.specs.Seen.{HasSeen, has_run};
ghost use Rattle.frame_top.specs.declared.status.TheConstants.{TABLE_REFUSED, UNWRITTEN};

use crate::inputs::Options;
use crate::sections::run_sections;
use crate::status::{DONE, NO_MEMORY, UNWRITTEN};
use crate::texts::{refuse_column, refuse_plan, refuse_script};
use crate::watch::Watch;
use crate::workers::Workers;
use frame_ast::kernel::FaultKind;
use frame_ast::script::{Order, Script};
use frame_plan::{SectionBook, missing_column, plan};
use frame_print::Outgoing;
use job_base::{NoMemory, Sink};
use job_depth::{depth, print_depth};
use std::alloc::Global;
use std::sync::Wait;
use std::thread::Threads;
use table_in::Table;

/// The line of the first `when` of a script.
pub fn first_when(script: &Script) -> Option<u32>
    ensures { result ≡ first_when script.now.statements.items }
{
    for i in 0..script.statements.len() {
        if script.statements[i].act.is_when() {
            return Some(script.statements[i].line);
        }
    }
    None
}

/// The column that a statement asks for.
fn column_name(act: &Order) -> &[u8]
    ensures { result.now ≡ column_name act.now }
{
    if let Order::Column { column, .. } = act {
        column
    } else {
        b""
    }
}

/// Refuses a table that lacks a column of the script, and answers nothing for any other.
pub fn refuse_missing<S: Sink>(script: &Script, table: &Table, sink: &mut S) -> Option<u8>
    requires accepted { IsAccepted script.now }
    ensures missing { (depth : Bool) (workers : ℕ) → IfSome result (AnswersTo S.taken S.faults sink.old sink.new
        (FrameCause script.now (columns_of table.now) depth workers)
        (IsCut script.now (columns_of table.now) depth)) }
    ensures said { IfSome result (λ s. (a : Answer)
        × (column_refusal (columns_of table.now) script.now.statements.items ≡ Some a)
        × SaidTo S.taken S.faults sink.old sink.new a s) }
    ensures none { result ≡ None → column_refusal (columns_of table.now) script.now.statements.items ≡ None }
    ensures same { result ≡ None → sink.new ≡ sink.old }
    ensures status { IfSome result (λ s. (s ≡ TABLE_REFUSED) ⊎ (s ≡ UNWRITTEN)) }
    ensures later { S.faults sink.old ≤ S.faults sink.new }
{
    if let Some(place) = missing_column(script, table) {
        let name = column_name(&script.statements[place as usize].act);
        return Some(refuse_column(name, sink));
    }
    None
}

/// Reports how deep the plan of a script is, and runs nothing.
fn report_depth<S: Sink>(
    alloc: Global,
    script: &Script,
    table: &Table,
    workers: u32,
    sink: &mut S,
) -> u8
    requires accepted { IsAccepted script.now }
    requires columns { column_refusal (columns_of table.now) script.now.statements.items ≡ None }
    requires workers { (1 ≤ workers) × (workers ≤ MOST_WORKERS) }
    ensures answer { AnswersTo S.taken S.faults sink.old sink.new
        (FrameCause script.now (columns_of table.now) true workers)
        (IsCut script.now (columns_of table.now) true) result }
    ensures later { S.faults sink.old ≤ S.faults sink.new }
{
    if let Some(line) = first_when(script) {
        return refuse_script(line, FaultKind::Limit, sink);
    }
    let plan = match plan(alloc, script, table) {
        Ok(plan) => plan,
        Err(fault) => return refuse_plan(fault, sink),
    };
    let Ok(depth) = depth(alloc, &plan, workers) else {
        return NO_MEMORY;
    };
    let Ok(mut out) = Outgoing::new(alloc) else {
        return NO_MEMORY;
    };
    match print_depth(&depth, &mut out, sink) {
        Ok(()) => DONE,
        Err(_) => UNWRITTEN,
    }
}

/// Runs a script section by section, or writes which limit it passes.
fn answer_run<R: Threads + Wait + Sync, S: Sink, W: Watch>(
    rt: &R,
    alloc: Global,
    script: &Script,
    table: &Table,
    workers: u32,
    sink: &mut S,
    watch: &mut W,
) -> u8
    requires accepted { IsAccepted script.now }
    requires columns { column_refusal (columns_of table.now) script.now.statements.items ≡ None }
    requires workers { (1 ≤ workers) × (workers ≤ MOST_WORKERS) }
    ensures answer { AnswersTo S.taken S.faults sink.old sink.new
        (FrameCause script.now (columns_of table.now) false workers)
        (IsCut script.now (columns_of table.now) false) result }
    ensures seen { W.Saw script.now watch.old watch.old [] → has_run result ≡ true
        → HasSeen (W.Saw script.now watch.old watch.new) script.now (columns_of table.now) }
    ensures later { S.faults sink.old ≤ S.faults sink.new }
{
    let workers = Workers {
        rt,
        alloc,
        count: workers,
    };
    match SectionBook::new(alloc, script, table, watch.small_jobs()) {
        Ok(book) => run_sections(&workers, script, table, book, sink, watch),
        Err(fault) => refuse_plan(fault, sink),
    }
}

/// Answers for a script that was accepted and its table: looks for its columns, and then runs it, or reports its depth.
pub fn answer_frame<R: Threads + Wait + Sync, S: Sink, W: Watch>(
    rt: &R,
    alloc: Global,
    script: &Script,
    table: &Table,
    options: Options,
    sink: &mut S,
    watch: &mut W,
) -> u8
    requires accepted { IsAccepted script.now }
    requires workers { (1 ≤ options.workers) × (options.workers ≤ MOST_WORKERS) }
    ensures answer { AnswersTo S.taken S.faults sink.old sink.new
        (FrameCause script.now (columns_of table.now) options.depth options.workers)
        (IsCut script.now (columns_of table.now) options.depth) result }
    ensures seen { options.depth ≡ false → W.Saw script.now watch.old watch.old [] → has_run result ≡ true
        → HasSeen (W.Saw script.now watch.old watch.new) script.now (columns_of table.now) }
    ensures later { S.faults sink.old ≤ S.faults sink.new }
{
    if let Some(status) = refuse_missing(script, table, sink) {
        return status;
    }
    if options.depth {
        report_depth(alloc, script, table, options.workers, sink)
    } else {
        answer_run(rt, alloc, script, table, options.workers, sink, watch)
    }
}

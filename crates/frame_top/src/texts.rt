// The texts of the answers that run no script.
ghost use Rattle.std.specs.Prelude.{◌≡◌, ◌≢◌, ◌≤◌, ◌⊎◌, ◌++◌, codes, decimal, None, Some};
ghost use Rattle.frame_ast.specs.declared.kernel.FaultKind.TheVariants.{TooLong};
ghost use Rattle.frame_ast.specs.Answers.{script_refused_line, statements_line, no_column_line, limit_line};
ghost use Rattle.frame_ast.specs.Limits.{Limit};
ghost use Rattle.frame_print.specs.Gathering.{joined};
ghost use Rattle.frame_plan.specs.Sections.{limit_told};
ghost use Rattle.frame_top.specs.Answers.{SaidTo};
ghost use Rattle.frame_top.specs.Refusals.{answer, refused_table};
ghost use Rattle.frame_top.specs.declared.status.TheConstants.{NO_MEMORY, PAST_LIMIT, SCRIPT_REFUSED, TABLE_REFUSED, UNWRITTEN};

use crate::status::{NO_MEMORY, PAST_LIMIT, SCRIPT_REFUSED, TABLE_REFUSED, UNWRITTEN};
use frame_ast::kernel::FaultKind;
use frame_plan::PlanFault;
use frame_print::{print_parts, print_script_refusal, print_text};
use itoa::Buffer;
use job_base::{Sink, SinkFault};
use table_in::TableFault;

/// Writes the text of a status.
pub fn say<S: Sink>(status: u8, text: &[u8], sink: &mut S) -> u8
    ensures said { SaidTo S.taken S.faults sink.old sink.new (answer status text.now) result }
    ensures status { (result ≡ status) ⊎ (result ≡ UNWRITTEN) }
    ensures later { S.faults sink.old ≤ S.faults sink.new }
{
    match print_text(text, sink) {
        Ok(()) => status,
        Err(_) => UNWRITTEN,
    }
}

// Writes the text of a status, which comes in parts.
fn say_parts<S: Sink>(status: u8, parts: &[&[u8]], sink: &mut S) -> u8
    ensures said { SaidTo S.taken S.faults sink.old sink.new (answer status (joined parts.now)) result }
    ensures status { (result ≡ status) ⊎ (result ≡ UNWRITTEN) }
    ensures later { S.faults sink.old ≤ S.faults sink.new }
{
    match print_parts(parts, sink) {
        Ok(()) => status,
        Err(_) => UNWRITTEN,
    }
}

/// Writes where and for what a script is refused.
pub fn refuse_script<S: Sink>(line: u32, kind: FaultKind, sink: &mut S) -> u8
    ensures said { SaidTo S.taken S.faults sink.old sink.new (answer SCRIPT_REFUSED (script_refused_line line kind))
        result }
    ensures status { (result ≡ SCRIPT_REFUSED) ⊎ (result ≡ UNWRITTEN) }
    ensures later { S.faults sink.old ≤ S.faults sink.new }
{
    match print_script_refusal(line, kind, sink) {
        Ok(()) => SCRIPT_REFUSED,
        Err(_) => UNWRITTEN,
    }
}

/// Writes why the bytes of a script are refused.
pub fn refuse_source<S: Sink>(line: u32, kind: FaultKind, sink: &mut S) -> u8
    ensures fault { kind ≢ TooLong → SaidTo S.taken S.faults sink.old sink.new
        (answer SCRIPT_REFUSED (script_refused_line line kind)) result }
    ensures many { kind ≡ TooLong → SaidTo S.taken S.faults sink.old sink.new
        (answer PAST_LIMIT statements_line) result }
    ensures status { (result ≡ SCRIPT_REFUSED) ⊎ ((result ≡ PAST_LIMIT) ⊎ (result ≡ UNWRITTEN)) }
    ensures later { S.faults sink.old ≤ S.faults sink.new }
{
    match kind {
        FaultKind::TooLong => say(PAST_LIMIT, b"limit: statements\n", sink),
        FaultKind::Syntax
        | FaultKind::UnknownName
        | FaultKind::DuplicateName
        | FaultKind::KindMismatch
        | FaultKind::ReadOfWriteOnly
        | FaultKind::WriteOfReadOnly
        | FaultKind::Limit => refuse_script(line, kind, sink),
    }
}

// Writes for what a record of a table is refused.
fn refuse_row<S: Sink>(row: u32, why: &[u8], sink: &mut S) -> u8
    ensures said { SaidTo S.taken S.faults sink.old sink.new
        (answer TABLE_REFUSED (codes "table refused row " ++ decimal row ++ codes ": " ++ why.now ++ codes "\n"))
        result }
    ensures status { (result ≡ TABLE_REFUSED) ⊎ (result ≡ UNWRITTEN) }
    ensures later { S.faults sink.old ≤ S.faults sink.new }
{
    let mut digits = Buffer::new();
    let row_text = digits.format(row).as_bytes();
    let parts = [b"table refused row ", row_text, b": ", why, b"\n"];
    say_parts(TABLE_REFUSED, &parts, sink)
}

/// Writes why the bytes of a table are refused. Memory is no reason.
pub fn refuse_table<S: Sink>(fault: TableFault, sink: &mut S) -> u8
    ensures said { fault ≢ TableFault.NoMemory
        → SaidTo S.taken S.faults sink.old sink.new (refused_table fault) result }
    ensures none { fault ≡ TableFault.NoMemory → (result ≡ NO_MEMORY) × (sink.new ≡ sink.old) }
    ensures status { fault ≢ TableFault.NoMemory → (result ≡ TABLE_REFUSED) ⊎ (result ≡ UNWRITTEN) }
    ensures later { S.faults sink.old ≤ S.faults sink.new }
{
    match fault {
        TableFault::Empty => say(TABLE_REFUSED, b"table refused: empty\n", sink),
        TableFault::Unequal { row } => refuse_row(row, b"unequal row", sink),
        TableFault::NotNumber { row } => refuse_row(row, b"not a number", sink),
        TableFault::NoMemory => NO_MEMORY,
    }
}

/// Writes which column a table lacks.
pub fn refuse_column<S: Sink>(name: &[u8], sink: &mut S) -> u8
    ensures said { SaidTo S.taken S.faults sink.old sink.new (answer TABLE_REFUSED (no_column_line name.now)) result }
    ensures status { (result ≡ TABLE_REFUSED) ⊎ (result ≡ UNWRITTEN) }
    ensures later { S.faults sink.old ≤ S.faults sink.new }
{
    let parts = [b"table refused: no column ", name, b"\n"];
    say_parts(TABLE_REFUSED, &parts, sink)
}

/// Writes which limit a script passes, where one is the reason for which there is no plan.
pub fn refuse_plan<S: Sink>(fault: PlanFault, sink: &mut S) -> u8
    ensures said { (limit : Limit) → limit_told fault ≡ Some limit
        → SaidTo S.taken S.faults sink.old sink.new (answer PAST_LIMIT (limit_line limit)) result }
    ensures none { limit_told fault ≡ None → (result ≡ NO_MEMORY) × (sink.new ≡ sink.old) }
    ensures status { (result ≡ PAST_LIMIT) ⊎ ((result ≡ NO_MEMORY) ⊎ (result ≡ UNWRITTEN)) }
    ensures later { S.faults sink.old ≤ S.faults sink.new }
{
    match fault {
        PlanFault::Jobs => say(PAST_LIMIT, b"limit: jobs\n", sink),
        PlanFault::Words => say(PAST_LIMIT, b"limit: words\n", sink),
        PlanFault::NoMemory => NO_MEMORY,
    }
}

// The limits of a script with a `when`: what its statements would make and take, whether they act or not.
ghost use Rattle.std.specs.Prelude.{◌≡◌, None, MatchResult};
ghost use Rattle.std.specs.List.{list_any};
ghost use Rattle.frame_ast.specs.Accepted.{is_when};
ghost use Rattle.frame_ast.specs.Contents.{words_of as words_kept};
ghost use Rattle.frame_ast.specs.Limits.{limit_by_text, job_of, words_by};
ghost use Rattle.frame_ast.specs.Orders.{no_table, setting, new_array};
ghost use Rattle.frame_plan.specs.Sections.{limit_told};
ghost use Rattle.plan_statements.specs.Tables.{columns_of};

use frame_ast::script::{Order, Script};
use job_base::limits::{MOST_CREATED_WORDS, MOST_JOBS};
use plan_state::PlanFault;
use table_in::Table;

/// Whether the script has a `when`.
pub(crate) fn has_test(script: &Script) -> bool
    ensures { result ≡ list_any (λ x. is_when x.act) script.now.statements.items }
{
    script.statements.iter().any(|x| x.act.is_when())
}

/// The first limit that the written-out statements pass, if they pass one.
pub(crate) fn check_text(script: &Script, table: &Table) -> Result<(), PlanFault>
    ensures { MatchResult result
        (λ ok. limit_by_text (setting script.now (columns_of table.now)) script.now.statements.items 0 0 ≡ None)
        (λ fault. limit_by_text (setting script.now (columns_of table.now)) script.now.statements.items 0 0
        ≡ limit_told fault) }
{
    let mut jobs: u32 = 0;
    let mut words: u64 = 0;
    for statement in &script.statements {
        let more = words_of(&statement.act, script, table);
        jobs += jobs_of(&statement.act);
        if jobs > MOST_JOBS {
            return Err(PlanFault::Jobs);
        }
        if more > u64::from(MOST_CREATED_WORDS) - words {
            return Err(PlanFault::Words);
        }
        words += more;
    }
    Ok(())
}

/// How many jobs the statement makes, if it acts.
fn jobs_of(act: &Order) -> u32
    ensures { result ≡ job_of act.now }
{
    match act {
        Order::Schedule(_) => 1,
        Order::Array { .. }
        | Order::Column { .. }
        | Order::List { .. }
        | Order::Reference { .. }
        | Order::Map { .. }
        | Order::Stream { .. }
        | Order::Slice { .. }
        | Order::View { .. }
        | Order::Copy { .. }
        | Order::Set { .. }
        | Order::Add { .. }
        | Order::Put { .. }
        | Order::Remove { .. }
        | Order::Clear { .. }
        | Order::SetCapacity { .. }
        | Order::Combine { .. }
        | Order::Complete { .. }
        | Order::CompleteAuto { .. }
        | Order::Dispose { .. }
        | Order::DisposeAuto { .. }
        | Order::Print { .. }
        | Order::Flush
        | Order::Frame
        | Order::When { .. } => 0,
    }
}

/// How many words the statement takes, if it acts.
fn words_of(act: &Order, script: &Script, table: &Table) -> u64
    ensures { result ≡ words_by (setting script.now (columns_of table.now)) act.now }
{
    match act {
        Order::Array { len, values, .. } => elements_of(*len, *values, script),
        Order::Column { column, .. } => match table.column(column) {
            Some(values) => values.len() as u64,
            None => 0,
        },
        Order::List { cap, .. } | Order::SetCapacity { cap, .. } => u64::from(*cap) + 1,
        Order::Reference { .. } => 1,
        Order::Map { cap, .. } => native_map::words_of(*cap),
        Order::Stream { count, room, .. } => native_stream::words_of(*count, *room),
        Order::Slice { .. }
        | Order::View { .. }
        | Order::Copy { .. }
        | Order::Set { .. }
        | Order::Add { .. }
        | Order::Put { .. }
        | Order::Remove { .. }
        | Order::Clear { .. }
        | Order::Schedule(_)
        | Order::Combine { .. }
        | Order::Complete { .. }
        | Order::CompleteAuto { .. }
        | Order::Dispose { .. }
        | Order::DisposeAuto { .. }
        | Order::Print { .. }
        | Order::Flush
        | Order::Frame
        | Order::When { .. } => 0,
    }
}

/// How many elements an array is made with: of zeros so many, of a literal as many as it has.
fn elements_of(len: u32, literal: Option<u32>, script: &Script) -> u64
    ensures { result ≡ words_kept (new_array (setting script.now no_table) len literal) }
{
    match literal {
        None => u64::from(len),
        Some(number) => match script.literals.get(number as usize) {
            Some(values) => values.len() as u64,
            None => 0,
        },
    }
}

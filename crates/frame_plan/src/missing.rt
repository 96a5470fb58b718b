// Columns that a script asks for and its table lacks.
ghost use Rattle.std.specs.Prelude.{◌≡◌};
ghost use Rattle.frame_ast.specs.Accepted.{IsAccepted};
ghost use Rattle.frame_plan.specs.Missing.{lacks_column, missing_from};
ghost use Rattle.plan_statements.specs.Tables.{columns_of};

use frame_ast::script::{Order, Script};
use table_in::Table;

/// The place, from 0, of the first statement whose column the table lacks.
pub fn missing_column(script: &Script, table: &Table) -> Option<u32>
    requires { IsAccepted script.now }
    ensures { result ≡ missing_from (columns_of table.now) 0 script.now.statements.items }
{
    for i in 0..script.statements.len() {
        if is_missing(&script.statements[i].act, table) {
            return Some(i as u32);
        }
    }
    None
}

// Whether a statement asks for a column that the table lacks.
fn is_missing(act: &Order, table: &Table) -> bool
    ensures { result ≡ lacks_column (columns_of table.now) act.now }
{
    match act {
        Order::Column { column, .. } => table.column(column).is_none(),
        Order::Array { .. }
        | Order::List { .. }
        | Order::Reference { .. }
        | Order::Map { .. }
        | Order::Stream { .. }
        | Order::Slice { .. }
        | Order::View { .. }
        | Order::Copy { .. }
        | Order::Set { .. }
        | Order::Add { .. }
        | Order::Put { .. }
        | Order::Remove { .. }
        | Order::Clear { .. }
        | Order::SetCapacity { .. }
        | Order::Schedule(_)
        | Order::Combine { .. }
        | Order::Complete { .. }
        | Order::CompleteAuto { .. }
        | Order::Dispose { .. }
        | Order::DisposeAuto { .. }
        | Order::Print { .. }
        | Order::Flush
        | Order::Frame
        | Order::When { .. } => false,
    }
}

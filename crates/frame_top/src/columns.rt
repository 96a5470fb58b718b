// The columns that a script names: a table is read for these alone, since no other is asked for.
ghost use Rattle.std.specs.Prelude.{◌≡◌, ◌≢◌, ◌≤◌, ◌⊎◌, ◌++◌, length, map, IfErr, IfOk, OnOk, None, Some};
ghost use Rattle.job_base.specs.declared.limits.TheConstants.{MOST_TABLE_BYTES};
ghost use Rattle.plan_statements.specs.Tables.{columns_of};
ghost use Rattle.table_laws.specs.Laws.{AnswerAllAlike};
ghost use Rattle.frame_top.specs.Columns.{columns_by, column_names};
ghost use Rattle.frame_top.specs.Refusals.{refused_table, table_of, table_refusal};

use frame_ast::script::{Order, Script};
use std::alloc::{AllocError, Global};
use table_in::{Table, TableFault, read_columns};

// Adds the name of the column that a statement names.
fn push_column(alloc: Global, act: &Order, names: &mut Vec<Vec<u8>>) -> Result<(), AllocError>
    ensures { OnOk result (map (λ v. v.items) names.new.items
        ≡ map (λ v. v.items) names.old.items ++ columns_by act.now) }
{
    if let Order::Column { column, .. } = act {
        let name = column.as_slice().to_vec(alloc)?;
        names.push(name)?;
    }
    Ok(())
}

// The names of the columns of a script.
fn column_names(alloc: Global, script: &Script) -> Result<Vec<Vec<u8>>, AllocError>
    ensures { IfOk result (λ names. map (λ v. v.items) names.items ≡ column_names script.now.statements.items) }
{
    let mut names = Vec::new(alloc);
    for i in 0..script.statements.len() {
        push_column(alloc, &script.statements[i].act, &mut names)?;
    }
    Ok(names)
}

/// Reads a table for a script: it answers as the table of these bytes does for each column that the script names.
pub fn read_for(alloc: Global, script: &Script, bytes: &[u8]) -> Result<Table, TableFault>
    requires within { length bytes.now ≤ MOST_TABLE_BYTES }
    ensures sound { IfOk result (λ t. table_refusal (Some bytes.now) ≡ None) }
    ensures columns { IfOk result (λ t. AnswerAllAlike (columns_of t) (table_of (Some bytes.now))
        script.now.statements.items) }
    ensures fault { IfErr result (λ fault. (fault ≡ TableFault.NoMemory)
        ⊎ (fault ≢ TableFault.NoMemory) × (table_refusal (Some bytes.now) ≡ Some (refused_table fault))) }
{
    let Ok(names) = column_names(alloc, script) else {
        return Err(TableFault::NoMemory);
    };
    match read_columns(alloc, bytes, &names) {
        Ok(table) => Ok(table),
        Err(fault) => Err(fault),
    }
}

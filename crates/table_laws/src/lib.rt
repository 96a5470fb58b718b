//! What a script means with a table depends only on the columns that its statements name.
//!
//! A table answers for every name, and a script asks for some of them. `specs/Laws` says when two tables answer alike
//! for a script, and what is then the same with both: so who reads a table for one script needs no other column. A
//! function here does nothing: its contract is a law.
#![tactic(auto)]

ghost use Rattle.table_laws.specs.Laws.{StatementsSeeTheirColumns, ScriptsSeeTheirColumns};

/// A statement does the same with each table that answers alike for the column that it names.
pub fn statements_see_their_columns()
    ensures { StatementsSeeTheirColumns }
{}

/// A script means the same with each table that answers alike for the columns that it names.
pub fn scripts_see_their_columns()
    ensures { ScriptsSeeTheirColumns }
{}

// A script without a `when`: it is one section, and so one plan.
ghost use Rattle.std.specs.Prelude.{◌≡◌, ◌⊎◌, IfOk, IfErr, None, false};
ghost use Rattle.std.specs.List.{list_any};
ghost use Rattle.frame_ast.specs.Accepted.{IsAccepted, is_when};
ghost use Rattle.frame_ast.specs.Limits.{limit_of};
ghost use Rattle.frame_ast.specs.Orders.{setting};
ghost use Rattle.frame_plan.specs.Sections.{limit_told, IsPlanOf};
ghost use Rattle.plan_statements.specs.Tables.{columns_of};

use crate::section::Section;
use crate::sections::SectionBook;
use crate::small_jobs::SmallJobs;
use frame_ast::script::Script;
use frame_core::Plan;
use plan_state::PlanFault;
use std::alloc::Global;
use table_in::Table;

/// The plan of a script without a `when`, if it stays within the limits of the language. Each job is cut as its
/// schedule says.
pub fn plan(alloc: Global, script: &Script, table: &Table) -> Result<Plan, PlanFault>
    requires accepted { IsAccepted script.now }
    requires whole { list_any (λ x. is_when x.act) script.now.statements.items ≡ false }
    ensures limit { IfErr result (λ fault. (fault ≡ PlanFault.NoMemory)
        ⊎ (limit_of (setting script.now (columns_of table.now)) script.now.statements.items ≡ limit_told fault)) }
    ensures within { IfOk result (λ plan.
        limit_of (setting script.now (columns_of table.now)) script.now.statements.items ≡ None) }
    ensures plan { IfOk result (IsPlanOf script.now (columns_of table.now)) }
{
    let mut book = SectionBook::new(alloc, script, table, SmallJobs::Cut)?;
    let Section {
        plan,
        jobs_before: _,
        small_jobs: _,
        test: _,
    } = book.hand_out(alloc, script)?;
    Ok(plan)
}

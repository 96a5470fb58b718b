// What statements answer that are no schedules: they change what statements see, and leave the draft to their caller.
ghost use Rattle.std.specs.Prelude.{◌≡◌, true, IfOk, IfErr};
ghost use Rattle.frame_ast.specs.Orders.{Table as Columns};
ghost use Rattle.frame_plan.specs.Runs.{adds_no_job};
ghost use Rattle.plan_state.specs.declared.state.Planner.{Planner};
ghost use Rattle.plan_state.specs.Answers.{AnswersIn, ExceedsIn};
ghost use Rattle.plan_state.specs.Steps.{IsBefore};
ghost use Rattle.plan_statements.specs.Tables.{columns_of};

use frame_ast::script::{Order, Script, Statement};
use plan_state::{Answer, PlanFault, World};
use std::alloc::Global;
use table_in::Table;

/// What a statement answers that is neither passed by nor a `when` or a schedule.
pub(crate) fn answer(
    world: &mut World,
    alloc: Global,
    script: &Script,
    table: &Table,
    statement: &Statement,
) -> Result<Answer, PlanFault>
    requires ready { (p : Planner) × (columns : Columns)
        × IsBefore script.now columns (record p { world = world.old }) statement.now }
    requires other { adds_no_job statement.now.act ≡ true }
    ensures answers { IfOk result (AnswersIn script.now (columns_of table.now) world.old world.new statement.now) }
    ensures fails { IfErr result (λ fault.
        ExceedsIn script.now (columns_of table.now) fault world.old statement.now) }
{
    let line = statement.line;
    match &statement.act {
        Order::Array {
            name,
            len,
            life,
            values,
        } => plan_statements::array(world, line, *name, *len, *life, *values, script),
        Order::Column { name, column, life } => plan_statements::column(
            world, alloc, line, *name, column, *life, table,
        ),
        Order::List { name, cap, life } => plan_statements::list(world, line, *name, *cap, *life),
        Order::Reference { name, life, value } => plan_statements::reference(
            world, alloc, line, *name, *life, *value,
        ),
        Order::Map { name, cap, life } => plan_statements::map(world, line, *name, *cap, *life),
        Order::Stream {
            name,
            count,
            room,
            life,
        } => plan_statements::stream(world, line, *name, *count, *room, *life),
        Order::Slice {
            name,
            of,
            start,
            len,
        } => Ok(plan_statements::slice(world, *name, *of, *start, *len)),
        Order::View { name, of } => Ok(plan_statements::view(world, *name, *of)),
        Order::Copy { name, of } => Ok(plan_statements::copy(world, *name, *of)),
        Order::Set { name, at, value } => Ok(plan_statements::set(world, *name, *at, *value)),
        Order::Add {
            name,
            first,
            second,
        } => Ok(plan_statements::add(world, *name, *first, *second)),
        Order::Put { name, key, value } => Ok(plan_statements::put(world, *name, *key, *value)),
        Order::Remove { name, at } => Ok(plan_statements::remove(world, *name, *at)),
        Order::Clear { name } => Ok(plan_statements::clear(world, *name)),
        Order::SetCapacity { name, cap } => plan_statements::set_capacity(world, *name, *cap),
        Order::Combine { name, of } => plan_statements::combine(world, *name, of),
        Order::Complete { name } => plan_statements::complete(world, alloc, *name),
        Order::CompleteAuto { name } => plan_statements::complete_auto(world, alloc, *name),
        Order::Dispose {
            name,
            after,
            handle,
        } => match *handle {
            None => Ok(plan_statements::dispose(world, *name)),
            Some(handle) => plan_statements::dispose_after(world, *name, after, handle),
        },
        Order::DisposeAuto { name, handle } => plan_statements::dispose_auto(world, *name, *handle),
        Order::Print { name } => Ok(plan_statements::print(world, *name)),
        Order::Flush => Ok(plan_statements::flush(world)),
        Order::Frame => plan_statements::frame(world, alloc, line),
        Order::Schedule(_) | Order::When { .. } => unreachable!(),
    }
}

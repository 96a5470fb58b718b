// The statements that make a container: each takes its words, enters it, and answers what fills them.
ghost use Rattle.std.specs.Prelude.{◌≡◌, [], length, option_map, unwrap_or, IfOk, IfErr};
ghost use Rattle.frame_ast.specs.declared.script.Order.TheVariants.{Array, Column, List as NewList, Reference, Map, Stream};
ghost use Rattle.frame_ast.specs.declared.script.Script.{Script as File};
ghost use Rattle.frame_ast.specs.Orders.{Table as Columns};
ghost use Rattle.plan_statements.specs.Tables.{columns_of};
ghost use Rattle.plan_state.specs.declared.state.Planner.{Planner};
ghost use Rattle.plan_state.specs.Answers.{AnswersIn, ExceedsIn};
ghost use Rattle.plan_state.specs.Steps.{IsBefore, IsReady};

use crate::containers::{copy_column, copy_literal, enter, one_value, refuse_full, take_words};
use frame_ast::script::{Life, Script};
use kernel_exec::Bind;
use native_array::{ArrayAt, RefAt};
use native_list::ListAt;
use native_map::MapAt;
use native_stream::StreamAt;
use plan_state::{Answer, PlanFault, World};
use std::alloc::Global;
use table_in::Table;

/// `array`: zeros, or a copy of one of the script's literals.
pub fn array(
    world: &mut World,
    line: u32,
    name: u32,
    len: u32,
    life: Life,
    values: Option<u32>,
    script: &Script,
) -> Result<Answer, PlanFault>
    requires ready { (p : Planner) × (table : Columns) × IsBefore script.now table (record p { world = world.old })
        (record { line = line; act = Array name len life values }) }
    ensures answers { IfOk result (λ answer. (table : Columns) → AnswersIn script.now table world.old world.new
        (record { line = line; act = Array name len life values }) answer) }
    ensures fails { IfErr result (λ fault. (table : Columns) → ExceedsIn script.now table fault world.old
        (record { line = line; act = Array name len life values })) }
{
    match take_words(world, u64::from(len))? {
        None => Ok(refuse_full(world, name)),
        Some(taken) => {
            let elements = copy_literal(values, script)?;
            let at = ArrayAt {
                start: taken.span.start,
                len,
            };
            enter(world, line, name, life, taken, Bind::Array { at, own: 0 })?;
            Ok(Answer::Fills {
                name,
                span: taken.span,
                values: elements,
            })
        }
    }
}

/// `column`: a copy of the table's column, or an array without elements where the table has none of the name.
pub fn column(
    world: &mut World,
    alloc: Global,
    line: u32,
    name: u32,
    column: &Vec<u8>,
    life: Life,
    table: &Table,
) -> Result<Answer, PlanFault>
    requires ready { (p : Planner) × IsReady (record p { world = world.old })
        (record { line = line; act = Column name column.now life }) }
    ensures answers { IfOk result (λ answer. (script : File)
        → AnswersIn script (columns_of table.now) world.old world.new
        (record { line = line; act = Column name column.now life }) answer) }
    ensures fails { IfErr result (λ fault. (script : File) → ExceedsIn script (columns_of table.now) fault world.old
        (record { line = line; act = Column name column.now life })) }
{
    let values = table.column(column.as_slice());
    match take_words(world, len_of(values))? {
        None => Ok(refuse_full(world, name)),
        Some(taken) => {
            let elements = copy_column(alloc, values)?;
            let at = ArrayAt {
                start: taken.span.start,
                len: taken.span.len,
            };
            enter(world, line, name, life, taken, Bind::Array { at, own: 0 })?;
            Ok(Answer::Fills {
                name,
                span: taken.span,
                values: elements,
            })
        }
    }
}

/// `list`: without elements, with room for `cap` of them.
pub fn list(
    world: &mut World,
    line: u32,
    name: u32,
    cap: u32,
    life: Life,
) -> Result<Answer, PlanFault>
    requires ready { (p : Planner) × IsReady (record p { world = world.old })
        (record { line = line; act = NewList name cap life }) }
    ensures answers { IfOk result (λ answer. (script : File) (table : Columns)
        → AnswersIn script table world.old world.new (record { line = line; act = NewList name cap life }) answer) }
    ensures fails { IfErr result (λ fault. (script : File) (table : Columns)
        → ExceedsIn script table fault world.old (record { line = line; act = NewList name cap life })) }
{
    match take_words(world, u64::from(cap) + 1)? {
        None => Ok(refuse_full(world, name)),
        Some(taken) => {
            let at = ListAt {
                start: taken.span.start,
                cap,
            };
            enter(world, line, name, life, taken, Bind::List(at))?;
            Ok(Answer::Fills {
                name,
                span: taken.span,
                values: None,
            })
        }
    }
}

/// `reference`: 0, or a value, which the plan has as a literal of one element.
pub fn reference(
    world: &mut World,
    alloc: Global,
    line: u32,
    name: u32,
    life: Life,
    value: Option<i64>,
) -> Result<Answer, PlanFault>
    requires ready { (p : Planner) × IsReady (record p { world = world.old })
        (record { line = line; act = Reference name life value }) }
    ensures answers { IfOk result (λ answer. (script : File) (table : Columns)
        → AnswersIn script table world.old world.new (record { line = line; act = Reference name life value }) answer) }
    ensures fails { IfErr result (λ fault. (script : File) (table : Columns)
        → ExceedsIn script table fault world.old (record { line = line; act = Reference name life value })) }
{
    match take_words(world, 1)? {
        None => Ok(refuse_full(world, name)),
        Some(taken) => {
            let elements = one_value(alloc, value)?;
            let at = RefAt {
                start: taken.span.start,
            };
            enter(world, line, name, life, taken, Bind::Ref(at))?;
            Ok(Answer::Fills {
                name,
                span: taken.span,
                values: elements,
            })
        }
    }
}

/// `map`: without keys, with room for `cap` of them.
pub fn map(
    world: &mut World,
    line: u32,
    name: u32,
    cap: u32,
    life: Life,
) -> Result<Answer, PlanFault>
    requires ready { (p : Planner) × IsReady (record p { world = world.old })
        (record { line = line; act = Map name cap life }) }
    ensures answers { IfOk result (λ answer. (script : File) (table : Columns)
        → AnswersIn script table world.old world.new (record { line = line; act = Map name cap life }) answer) }
    ensures fails { IfErr result (λ fault. (script : File) (table : Columns)
        → ExceedsIn script table fault world.old (record { line = line; act = Map name cap life })) }
{
    match take_words(world, native_map::words_of(cap))? {
        None => Ok(refuse_full(world, name)),
        Some(taken) => {
            let at = MapAt::new(taken.span.start, cap);
            enter(world, line, name, life, taken, Bind::Map(at))?;
            Ok(Answer::Fills {
                name,
                span: taken.span,
                values: None,
            })
        }
    }
}

/// `stream`: of `count` indexes, with room for `room` items each.
pub fn stream(
    world: &mut World,
    line: u32,
    name: u32,
    count: u32,
    room: u32,
    life: Life,
) -> Result<Answer, PlanFault>
    requires ready { (p : Planner) × IsReady (record p { world = world.old })
        (record { line = line; act = Stream name count room life }) }
    ensures answers { IfOk result (λ answer. (script : File) (table : Columns)
        → AnswersIn script table world.old world.new
        (record { line = line; act = Stream name count room life }) answer) }
    ensures fails { IfErr result (λ fault. (script : File) (table : Columns)
        → ExceedsIn script table fault world.old (record { line = line; act = Stream name count room life })) }
{
    match take_words(world, native_stream::words_of(count, room))? {
        None => Ok(refuse_full(world, name)),
        Some(taken) => {
            let at = StreamAt {
                start: taken.span.start,
                count,
                room,
            };
            enter(
                world,
                line,
                name,
                life,
                taken,
                Bind::Stream { at, own: false },
            )?;
            Ok(Answer::Fills {
                name,
                span: taken.span,
                values: None,
            })
        }
    }
}

/// How many elements a column has.
fn len_of(values: Option<&[i64]>) -> u64
    ensures { result ≡ length (unwrap_or (option_map (λ s. s.now) values.entry) []) }
{
    match values {
        None => 0,
        Some(values) => values.len() as u64,
    }
}

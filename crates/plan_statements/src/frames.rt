// `frame`: containers that live for one frame end, and those that are overdue are reported.
ghost use Rattle.std.specs.Prelude.{◌≡◌, ◌+◌, ◌-◌, ◌^◌, ◌<◌, Some, All, IfOk, IfErr, OnOk, slice_get, vec_len};
ghost use Rattle.frame_ast.specs.declared.script.Order.TheVariants.{Frame as FrameOf};
ghost use Rattle.frame_ast.specs.declared.script.Script.{Script};
ghost use Rattle.frame_ast.specs.Orders.{Table};
ghost use Rattle.plan_state.specs.declared.state.PlanFault.TheVariants as fault;
ghost use Rattle.plan_state.specs.declared.state.Planner.{Planner};
ghost use Rattle.plan_state.specs.Answers.{AnswersIn};
ghost use Rattle.plan_state.specs.Steps.{IsReady};
ghost use Rattle.plan_statements.specs.Frames.{AreOver, AreReported, AreSmall, HaveRoom, IsNextDue, IsOver, IsReported};

use crate::disposing::give_back;
use frame_core::{Act, Op};
use job_base::NoMemory;
use plan_state::{Answer, Container, PlanFault, World};
use std::alloc::Global;

/// `frame`: what is overdue from now on is reported, and the `temp` containers end.
pub fn frame(world: &mut World, alloc: Global, line: u32) -> Result<Answer, PlanFault>
    requires ready { (p : Planner) × IsReady (record p { world = world.old })
        (record { line = line; act = FrameOf }) }
    ensures answers { IfOk result (λ answer. (script : Script) (table : Table)
        → AnswersIn script table world.old world.new (record { line = line; act = FrameOf }) answer) }
    ensures memory { IfErr result (λ f. f ≡ fault.NoMemory) }
{
    let ops = report_overdue(world, alloc, line)?;
    end_temps(world);
    world.frame += 1;
    Ok(Answer::Reports { ops })
}

/// A report of each container that becomes overdue, where it is alive.
fn report_overdue(world: &mut World, alloc: Global, line: u32) -> Result<Vec<Op>, NoMemory>
    requires numbers { All (λ c. c < vec_len world.old.containers) world.old.tempjobs.items }
    requires small { AreSmall world.old.containers.items }
    requires room { HaveRoom world.old.tempjobs.items }
    ensures { IfOk result (λ ops. AreReported world.old world.new line ops.items) }
{
    let mut ops = Vec::new(alloc);
    while let Some(container) = next_due(world) {
        report(world, line, container, &mut ops)?;
        world.overdue += 1;
    }
    Ok(ops)
}

/// The next container that was made so long ago that it is overdue from now on, if there is one.
fn next_due(world: &World) -> Option<Container>
    requires numbers { All (λ c. c < vec_len world.now.containers) world.now.tempjobs.items }
    requires small { AreSmall world.now.containers.items }
    ensures { IsNextDue world.now result }
{
    if world.overdue as usize >= world.tempjobs.len() {
        return None;
    }
    let number = world.tempjobs[world.overdue as usize];
    let container = world.containers[number as usize];
    if container.frame + 3 > world.frame {
        return None;
    }
    Some(container)
}

/// A container is reported, where it is alive.
fn report(world: &World, line: u32, container: Container, ops: &mut Vec<Op>) -> Result<(), NoMemory>
    ensures { OnOk result (IsReported world.now ops.old.items ops.new.items line container) }
{
    if world.store.live(container.slot, container.version) {
        ops.push(Op {
            line,
            name: container.name,
            act: Act::Report {
                made: container.line,
            },
        })?;
    }
    Ok(())
}

/// The containers end that were made for this frame. No job uses them.
fn end_temps(world: &mut World)
    requires numbers { All (λ c. c < vec_len world.old.containers) world.old.temps.items }
    requires small { AreSmall world.old.containers.items }
    ensures { AreOver world.old world.new }
{
    for at in 0..world.temps.len() {
        let number = world.temps[at];
        let container = world.containers[number as usize];
        end_temp(world, number, container);
    }
    world.temps.clear();
}

/// A container ends, where it is alive.
fn end_temp(world: &mut World, number: u32, container: Container)
    requires has { slice_get world.old.containers.items number ≡ Some container }
    requires small { container.version.0 < 2 ^ 32 - 1 }
    ensures { IsOver world.old world.new number container }
{
    if world.store.live(container.slot, container.version) {
        give_back(world, number);
    }
}

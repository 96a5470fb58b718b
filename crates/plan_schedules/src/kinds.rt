// A schedule of either kind: without `defer`, or with it.
ghost use Rattle.std.specs.Prelude.{Box, ℕ, IfErr, IfOk};
ghost use Rattle.std.specs.declared.alloc.Global.{Global};
ghost use Rattle.frame_ast.specs.declared.script.NewJob.{NewJob};
ghost use Rattle.frame_ast.specs.Orders.{Table};
ghost use Rattle.plan_state.specs.declared.state.Planner.{Planner};
ghost use Rattle.plan_state.specs.Answers.{ExceedsIn};
ghost use Rattle.plan_state.specs.Starts.{MayBeTaken, SchedulesIn};
ghost use Rattle.plan_state.specs.Steps.{IsBefore};
ghost use Rattle.plan_schedules.specs.Starting.{asking};

use crate::deferring::schedule_deferred;
use crate::gathered::Gathered;
use crate::scheduling::schedule_plain;
use frame_ast::script::{NewJob, Script};
use plan_state::{JobAnswer, PlanFault, World};
use std::alloc::Global;

/// A schedule: a job that is refused, or that the plan is to start.
///
/// <https://docs.unity3d.com/ScriptReference/Unity.Jobs.IJobExtensions.Schedule.html>
pub fn schedule(
    world: &mut World,
    alloc: Global,
    script: &Script,
    job: &NewJob,
    gathered: &mut Gathered,
) -> Result<JobAnswer, PlanFault>
    // The statement has its job in a box, whichever that is.
    requires ready { (line : ℕ) × (home : Box NewJob Global) × (p : Planner) × (table : Table)
        × IsBefore script.now table (record p { world = world.old }) (asking line home job.now) }

    ensures answers { IfOk result (λ answer. (line : ℕ) (home : Box NewJob Global) (table : Table)
        → SchedulesIn script.now table world.old world.new (asking line home job.now) answer) }
    ensures takes { IfOk result (λ answer. (line : ℕ) (home : Box NewJob Global)
        → MayBeTaken script.now world.old (asking line home job.now) answer) }
    ensures fails { IfErr result (λ fault. (line : ℕ) (home : Box NewJob Global) (table : Table)
        → ExceedsIn script.now table fault world.old (asking line home job.now)) }
{
    match job.defer {
        None => schedule_plain(world, alloc, script, job, gathered),
        Some(defer) => schedule_deferred(world, alloc, script, job, defer),
    }
}

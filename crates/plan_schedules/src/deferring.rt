// `schedule` with `defer`: a job with as many indexes as a list can have, of which those below the list's length act.
ghost use Rattle.std.specs.Prelude.{Box, ◌≡◌, ◌<◌, ◌≤◌, ℕ, slice_get, ◌++◌, ◌∷◌, [], length, vec_len, IfErr, IfOk, None, Some};
ghost use Rattle.job_base.specs.declared.limits.TheConstants.{MOST_INDEXES, MOST_PARAMS};
ghost use Rattle.frame_ast.specs.declared.kernel.Kernel.{Kernel};
ghost use Rattle.std.specs.declared.alloc.Global.{Global};
ghost use Rattle.frame_ast.specs.declared.script.NewJob.{NewJob};
ghost use Rattle.frame_ast.specs.Orders.{Table};
ghost use Rattle.defer_laws.specs.GuardedRuns as deferred;
ghost use Rattle.plan_schedules.specs.Deferring.{IsGuardedRun, IsListName, deferring};
ghost use Rattle.plan_state.specs.Accesses.{AreThere};
ghost use Rattle.plan_schedules.specs.JobBinds.{job_binds};
ghost use Rattle.plan_state.specs.declared.state.Planner.{Planner};
ghost use Rattle.plan_state.specs.Answers.{ExceedsIn};
ghost use Rattle.plan_state.specs.Starts.{MayBeTaken, SchedulesIn};
ghost use Rattle.plan_state.specs.Steps.{IsBefore};
ghost use Rattle.plan_schedules.specs.Uses.{AreNamesBelow};

use crate::accepting::{Run, add_job};
use crate::deferred_uses::{deferred_refusal, length_use, list_at, noted_uses, with_length};
use crate::job_binds::job_binds;
use crate::new_job::cut_of;
use crate::scheduling::{add_automatic, is_split, refuse_schedule};
use crate::uses::uses;
use frame_ast::kernel::Kernel;
use frame_ast::script::{Arg, NewJob, Script};
use job_base::NoMemory;
use job_handle::Handle;
use kernel_exec::Bind;
use native_array::ArrayAt;
use native_list::ListAt;
use plan_state::{JobAnswer, PlanFault, World};
use std::alloc::Global;

/// `schedule [auto] handle kernel(args) defer list BATCH [waive p ..] [after h ..]`
///
/// `cut` is none: an accepted script has no length beside a `defer`.
///
/// <https://docs.unity3d.com/ScriptReference/Unity.Jobs.IJobParallelForDefer.html>
pub(crate) fn schedule_deferred(
    world: &mut World,
    alloc: Global,
    script: &Script,
    job: &NewJob,
    defer: (u32, u32),
) -> Result<JobAnswer, PlanFault>
    // The statement has its job in a box, whichever that is.
    requires ready { (line : ℕ) × (home : Box NewJob Global) × (p : Planner) × (table : Table)
        × IsBefore script.now table (record p { world = world.old }) (deferring line home job.now job.now.cut defer) }

    ensures answers { IfOk result (λ answer. (line : ℕ) (home : Box NewJob Global) (table : Table)
        → SchedulesIn script.now table world.old world.new (deferring line home job.now job.now.cut defer) answer) }
    ensures takes { IfOk result (λ answer. (line : ℕ) (home : Box NewJob Global)
        → MayBeTaken script.now world.old (deferring line home job.now job.now.cut defer) answer) }
    ensures fails { IfErr result (λ fault. (line : ℕ) (home : Box NewJob Global) (table : Table)
        → ExceedsIn script.now table fault world.old (deferring line home job.now job.now.cut defer)) }
{
    schedule_by_list(world, alloc, script, job, defer.0, defer.1)
}

/// The same, by the name of the list and the batch.
fn schedule_by_list(
    world: &mut World,
    alloc: Global,
    script: &Script,
    job: &NewJob,
    list: u32,
    batch: u32,
) -> Result<JobAnswer, PlanFault>
    requires ready { (line : ℕ) × (home : Box NewJob Global) × (p : Planner) × (table : Table)
        × IsBefore script.now table (record p { world = world.old }) (deferring line home job.now None (list, batch)) }

    ensures answers { IfOk result (λ answer. (line : ℕ) (home : Box NewJob Global) (table : Table)
        → SchedulesIn script.now table world.old world.new (deferring line home job.now None (list, batch)) answer) }
    ensures takes { IfOk result (λ answer. (line : ℕ) (home : Box NewJob Global)
        → MayBeTaken script.now world.old (deferring line home job.now None (list, batch)) answer) }
    ensures fails { IfErr result (λ fault. (line : ℕ) (home : Box NewJob Global) (table : Table)
        → ExceedsIn script.now table fault world.old (deferring line home job.now None (list, batch))) }
{
    let params = &script.kernels[job.kernel as usize].params;
    let parallel = script.kernels[job.kernel as usize].parallel;
    let mut deps = Handle::empty();
    world.set_to_jobs_of(&mut deps, &job.after);
    let uses = uses(world, alloc, params, &job.args, &deps)?;
    let length = length_use(world, list, &deps);
    let all = with_length(alloc, &uses, &length)?;
    if let Some(cause) = deferred_refusal(&uses, &length, &all, parallel, job.auto) {
        return Ok(refuse_schedule(world, job.handle, cause)?);
    }
    add_automatic(world, alloc, job.auto, &mut deps, &all)?;
    let noted = noted_uses(uses, all, &length);
    let run = guarded_run(
        world,
        alloc,
        script,
        job.kernel,
        &job.args,
        &job.waive,
        (list, batch),
    )?;
    add_job(world, alloc, job.handle, run, &noted, &deps)
}

/// The binds of the arguments, and the word that holds the length of the list.
fn deferred_binds(
    world: &World,
    alloc: Global,
    kernel: &Kernel,
    args: &[Arg],
    waive: &[u32],
    at: ListAt,
) -> Result<Vec<Bind>, NoMemory>
    requires each { length args.now ≡ vec_len kernel.now.params }
    requires few { length args.now ≤ MOST_PARAMS }
    requires names { AreNamesBelow (vec_len world.now.values) args.now }
    requires there { AreThere (vec_len world.now.containers) (vec_len world.now.handles)
        world.now.values.items }
    ensures { IfOk result (λ binds. binds.items
        ≡ job_binds world.now kernel.now.parallel waive.now 0 kernel.now.params.items args.now
        ++ deferred.word_at at.start ∷ []) }
{
    let mut binds = job_binds(world, alloc, kernel, args, waive)?;
    binds.push(word_at(at.start))?;
    Ok(binds)
}

/// What the job of a schedule with `defer` runs: its kernel with a guard, on the words of its arguments and that of the
/// list's length.
fn guarded_run(
    world: &World,
    alloc: Global,
    script: &Script,
    kernel: u32,
    args: &[Arg],
    waive: &[u32],
    defer: (u32, u32),
) -> Result<Run, NoMemory>
    requires kernel { kernel < vec_len script.now.kernels }
    requires each { (k : Kernel) → slice_get script.now.kernels.items kernel ≡ Some k
        → length args.now ≡ length k.params.items }
    requires args { length args.now ≤ MOST_PARAMS }
    requires names { AreNamesBelow (vec_len world.now.values) args.now }
    requires there { AreThere (vec_len world.now.containers) (vec_len world.now.handles) world.now.values.items }
    requires list { defer.0 < vec_len world.now.values }
    requires is_list { IsListName world.now defer.0 }
    requires batch { (1 ≤ defer.1) × (defer.1 ≤ MOST_INDEXES) }
    ensures { IfOk result (λ run. IsGuardedRun script.now world.now kernel args.now waive.now defer.0 defer.1 run) }
{
    let of = &script.kernels[kernel as usize];
    let at = list_at(world, defer.0);
    let binds = deferred_binds(world, alloc, of, args, waive, at)?;
    Ok(Run {
        kernel,
        guarded: true,
        binds,
        cut: cut_of(&world.works, kernel, Some((at.cap, defer.1))),
        parallel: is_split(of.parallel, waive),
    })
}

/// One word, as an array of one element: a list begins with the word that holds its length.
fn word_at(start: u32) -> Bind
    ensures { result ≡ deferred.word_at start }
{
    Bind::Array {
        at: ArrayAt { start, len: 1 },
        own: 0,
    }
}

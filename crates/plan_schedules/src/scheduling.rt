// `schedule` without `defer`: a job that is refused, or that the segment at hand is to start.
ghost use Rattle.std.specs.Prelude.{Box, ◌≡◌, ◌<◌, ◌≤◌, ◌^◌, ℕ, true, ◌&&◌, IfErr, IfOk, OnOk, Some, slice_get, vec_len, length};
ghost use Rattle.frame_ast.specs.declared.kernel.Kernel.{Kernel};
ghost use Rattle.job_base.specs.declared.limits.TheConstants.{MOST_PARAMS};
ghost use Rattle.std.specs.declared.alloc.Global.{Global};
ghost use Rattle.frame_ast.specs.declared.script.NewJob.{NewJob};
ghost use Rattle.frame_ast.specs.Orders.{Table};
ghost use Rattle.frame_ast.specs.Accepted.{cut_fits};
ghost use Rattle.frame_ast.specs.Jobs.{nobody};
ghost use Rattle.auto_deps.specs.Needs.{conflicting_with};
ghost use Rattle.plan_state.specs.declared.start.JobAnswer.TheVariants.{Refused};
ghost use Rattle.plan_state.specs.declared.state.Planner.{Planner};
ghost use Rattle.plan_state.specs.Accesses.{AreThere, HasHandle};
ghost use Rattle.plan_state.specs.Answers.{ExceedsIn};
ghost use Rattle.plan_state.specs.Growth.{is_none};
ghost use Rattle.plan_state.specs.Starts.{MayBeTaken, SchedulesIn};
ghost use Rattle.plan_state.specs.Steps.{IsBefore};
ghost use Rattle.plan_schedules.specs.Starting.{AreDeps, IsPlainRun, scheduling};
ghost use Rattle.frame_ast.specs.Laws.{AreUpTo};
ghost use Rattle.job_handle.specs.Sets.{jobs_of};
ghost use Rattle.job_handle.specs.Books.{count_of};
ghost use Rattle.plan_schedules.specs.Uses.{AreNamesBelow, tags_of};

use crate::accepting::{Run, add_job};
use crate::causes::{Cause, refusal_of};
use crate::gathered::Gathered;
use crate::job_binds::job_binds;
use crate::new_job::cut_of;
use crate::uses::{NamedUse, gather};
use auto_deps::automatic;
use frame_ast::script::{Arg, NewJob, Script};
use job_base::{Access, NoMemory};
use job_handle::Handle;
use plan_state::{JobAnswer, PlanFault, World};
use safety_handle::Tag;
use std::alloc::Global;

/// `schedule [auto] handle kernel(args) [N BATCH] [waive p ..] [after h ..]`
pub(crate) fn schedule_plain(
    world: &mut World,
    alloc: Global,
    script: &Script,
    job: &NewJob,
    gathered: &mut Gathered,
) -> Result<JobAnswer, PlanFault>
    // The statement has its job in a box, whichever that is.
    requires ready { (line : ℕ) × (home : Box NewJob Global) × (p : Planner) × (table : Table)
        × IsBefore script.now table (record p { world = world.old }) (scheduling line home job.now) }

    ensures answers { IfOk result (λ answer. (line : ℕ) (home : Box NewJob Global) (table : Table)
        → SchedulesIn script.now table world.old world.new (scheduling line home job.now) answer) }
    ensures takes { IfOk result (λ answer. (line : ℕ) (home : Box NewJob Global)
        → MayBeTaken script.now world.old (scheduling line home job.now) answer) }
    ensures fails { IfErr result (λ fault. (line : ℕ) (home : Box NewJob Global) (table : Table)
        → ExceedsIn script.now table fault world.old (scheduling line home job.now)) }
{
    let params = &script.kernels[job.kernel as usize].params;
    let parallel = script.kernels[job.kernel as usize].parallel;
    world.set_to_jobs_of(&mut gathered.deps, &job.after);
    gather(world, params, &job.args, &gathered.deps, &mut gathered.uses)?;
    if let Some(cause) = refusal_of(&gathered.uses, parallel, job.auto) {
        return Ok(refuse_schedule(world, job.handle, cause)?);
    }
    add_automatic(world, alloc, job.auto, &mut gathered.deps, &gathered.uses)?;
    let run = plain_run(
        world, alloc, script, job.kernel, &job.args, job.cut, &job.waive,
    )?;
    add_job(
        world,
        alloc,
        job.handle,
        run,
        &gathered.uses,
        &gathered.deps,
    )
}

/// A refused schedule makes no job.
pub(crate) fn refuse_schedule(
    world: &mut World,
    handle: u32,
    cause: Cause,
) -> Result<JobAnswer, NoMemory>
    requires name { handle < vec_len world.old.values }
    requires there { AreThere (vec_len world.old.containers) (vec_len world.old.handles) world.old.values.items }
    requires few { vec_len world.old.handles < 2 ^ 32 }
    ensures refuses { IfOk result (λ answer. answer ≡ Refused cause.name cause.refusal) }
    ensures nobody { OnOk result (HasHandle world.old world.new handle nobody) }
{
    world.clear_handle(handle)?;
    Ok(JobAnswer::Refused {
        name: cause.name,
        refusal: cause.refusal,
    })
}

/// What the job waits for: the named jobs, and with `auto` all others that it has to, which are added to them.
pub(crate) fn add_automatic(
    world: &World,
    alloc: Global,
    auto: bool,
    deps: &mut Handle,
    uses: &[NamedUse],
) -> Result<(), NoMemory>
    requires named { AreUpTo (count_of world.now.jobs) (jobs_of deps.old) }
    requires noted { AreUpTo (count_of world.now.jobs) (conflicting_with world.now.safety
        (tags_of uses.now)) }
    ensures { OnOk result (
        AreDeps auto (jobs_of deps.old) world.now.jobs world.now.safety (tags_of uses.now)
        (jobs_of deps.new)) }
{
    if auto {
        add_needed(world, alloc, deps, uses)
    } else {
        Ok(())
    }
}

/// What a job with `auto` waits for beside the named jobs is added to them. Inlined, its set of jobs would be cleared
/// without `auto` too.
#[inline(never)]
fn add_needed(
    world: &World,
    alloc: Global,
    deps: &mut Handle,
    uses: &[NamedUse],
) -> Result<(), NoMemory>
    requires named { AreUpTo (count_of world.now.jobs) (jobs_of deps.old) }
    requires noted { AreUpTo (count_of world.now.jobs) (conflicting_with world.now.safety
        (tags_of uses.now)) }
    ensures { OnOk result (
        AreDeps true (jobs_of deps.old) world.now.jobs world.now.safety (tags_of uses.now)
        (jobs_of deps.new)) }
{
    let tags = tags(alloc, uses)?;
    let more = automatic(&tags, deps, &world.safety, &world.jobs);
    deps.add_all(&more);
    Ok(())
}

/// What the job of a schedule without `defer` runs: its kernel, on the words of its arguments.
fn plain_run(
    world: &World,
    alloc: Global,
    script: &Script,
    kernel: u32,
    args: &[Arg],
    cut: Option<(u32, u32)>,
    waive: &[u32],
) -> Result<Run, NoMemory>
    requires kernel { kernel < vec_len script.now.kernels }
    requires each { (k : Kernel) → slice_get script.now.kernels.items kernel ≡ Some k
        → length args.now ≡ length k.params.items }
    requires args { length args.now ≤ MOST_PARAMS }
    requires names { AreNamesBelow (vec_len world.now.values) args.now }
    requires there { AreThere (vec_len world.now.containers) (vec_len world.now.handles) world.now.values.items }
    requires cut { cut_fits cut ≡ true }
    ensures { IfOk result (λ run. IsPlainRun script.now world.now kernel args.now cut waive.now run) }
{
    let of = &script.kernels[kernel as usize];
    let binds = job_binds(world, alloc, of, args, waive)?;
    Ok(Run {
        kernel,
        guarded: false,
        binds,
        cut: cut_of(&world.works, kernel, cut),
        parallel: is_split(of.parallel, waive),
    })
}

/// Whether the pieces of a job may run at once: where nothing is waived, each index owns what it writes.
pub(crate) fn is_split(parallel: bool, waive: &[u32]) -> bool
    ensures { result ≡ (parallel && is_none waive.now) }
{
    parallel && waive.is_empty()
}

/// How the safety book knows the containers, and how they are used.
fn tags(alloc: Global, uses: &[NamedUse]) -> Result<Vec<(Tag, Access)>, NoMemory>
    ensures { IfOk result (λ tags. tags.items ≡ tags_of uses.now) }
{
    let mut tags = Vec::new(alloc);
    for i in 0..uses.len() {
        if let Some(tag) = uses[i].tag {
            tags.push((tag, uses[i].access))?;
        }
    }
    Ok(tags)
}

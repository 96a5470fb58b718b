// An accepted schedule: the books have its job, and what it answers is for the segment at hand to start.
ghost use Rattle.std.specs.Prelude.{◌≡◌, ◌<◌, ◌≤◌, ◌^◌, IfErr, IfOk, OnOk, vec_len};
ghost use Rattle.frame_ast.specs.Laws.{AreUpTo};
ghost use Rattle.job_handle.specs.Books.{count_of};
ghost use Rattle.job_handle.specs.Sets.{jobs_of};
ghost use Rattle.safety_handle.specs.Entries.{state_of};
ghost use Rattle.plan_state.specs.Accesses.{AreThere};
ghost use Rattle.plan_schedules.specs.Noting.{MayNoteAll};
ghost use Rattle.plan_schedules.specs.Starting.{IsFull, IsInBooks, IsStartOf};

use crate::new_job::later_jobs;
use crate::note_uses::note_all;
use crate::uses::NamedUse;
use batch_cut::Cut;
use job_handle::{BookFault, Handle};
use kernel_exec::Bind;
use plan_state::{JobAnswer, PlanFault, Start, World};
use std::alloc::Global;

/// What the job of an accepted schedule runs.
#[derive(Drop)]
pub(crate) struct Run {
    /// Its kernel, by the script's.
    pub(crate) kernel: u32,
    /// Whether it runs the guarded copy.
    pub(crate) guarded: bool,
    pub(crate) binds: Vec<Bind>,
    pub(crate) cut: Cut,
    /// Whether its pieces may run at once.
    pub(crate) parallel: bool,
}

/// A job that runs this, has these uses and waits for these jobs. Its handle's name stands for it, and the answer is
/// that the plan starts it.
pub(crate) fn add_job(
    world: &mut World,
    alloc: Global,
    handle: u32,
    run: Run,
    uses: &[NamedUse],
    deps: &Handle,
) -> Result<JobAnswer, PlanFault>
    requires handle { handle < vec_len world.old.values }
    requires there { AreThere (vec_len world.old.containers) (vec_len world.old.handles) world.old.values.items }
    requires handles { vec_len world.old.handles < 2 ^ 32 }
    requires uses { MayNoteAll uses.now (state_of world.old.safety) }
    requires deps { AreUpTo (count_of world.old.jobs) (jobs_of deps.now) }
    requires before { world.old.jobs_before ≤ count_of world.old.jobs }

    ensures books { OnOk result (IsInBooks world.old world.new handle uses.now (jobs_of deps.now)) }
    ensures starts { IfOk result (IsStartOf world.old run (jobs_of deps.now)) }
    ensures full { IfErr result (λ fault. IsFull fault (count_of world.old.jobs)) }
{
    let later = later_jobs(world, alloc, deps)?;
    let job = match world.jobs.add(deps) {
        Ok(job) => job,
        Err(BookFault::Full) => return Err(PlanFault::Jobs),
        Err(BookFault::NoMemory) => return Err(PlanFault::NoMemory),
    };
    note_all(world, uses, job);
    world.set_handle_to_job(handle, job)?;
    Ok(JobAnswer::Starts(Start {
        kernel: run.kernel,
        guarded: run.guarded,
        binds: run.binds,
        cut: run.cut,
        parallel: run.parallel,
        deps: later,
    }))
}

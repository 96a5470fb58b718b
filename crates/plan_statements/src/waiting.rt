// The statements with `auto`: they wait for what they have to.
ghost use Rattle.std.specs.Prelude.{◌≡◌, ◌<◌, slice_get, vec_len, IfOk, IfErr};
ghost use Rattle.frame_ast.specs.declared.script.Order.TheVariants.{CompleteAuto as CompleteAutoOf, DisposeAuto as DisposeAutoOf};
ghost use Rattle.job_handle.specs.Sets.{jobs_of};
ghost use Rattle.plan_state.specs.declared.state.PlanFault.TheVariants as fault;
ghost use Rattle.plan_state.specs.Accesses.{AreThere};
ghost use Rattle.plan_state.specs.Answers.{Answers, IsReadyFor};
ghost use Rattle.plan_statements.specs.Waiting.{AreWaitedFor, IsBroken, IsCompletable, IsLive, KnowsUsers, is_broken};

use crate::completing::complete_jobs;
use crate::disposing::{container_of, hold_back};
use auto_deps::automatic;
use job_base::{Access, Refusal};
use job_handle::Handle;
use plan_state::{Answer, PlanFault, World};
use std::alloc::Global;

/// `dispose auto`. The handle's name stands for the jobs that have to be waited for.
pub fn dispose_auto(world: &mut World, name: u32, handle: u32) -> Result<Answer, PlanFault>
    requires ready { IsReadyFor world.old (DisposeAutoOf name handle) }
    ensures answers { IfOk result (Answers world.old world.new (DisposeAutoOf name handle)) }
    ensures memory { IfErr result (λ f. f ≡ fault.NoMemory) }
{
    match live_container(world, name) {
        None => {
            world.clear_handle(handle)?;
            Ok(Answer::Refused {
                name,
                refusal: Refusal::Disposed,
            })
        }
        Some(number) => {
            let deps = waited_for(world, number);
            hold_back(world, number);
            world.set_handle(handle, &deps)?;
            Ok(Answer::Nothing)
        }
    }
}

/// `complete auto`: the jobs are completed that a writing use of the container has to wait for.
pub fn complete_auto(world: &mut World, alloc: Global, name: u32) -> Result<Answer, PlanFault>
    requires ready { IsReadyFor world.old (CompleteAutoOf name) }
    ensures answers { IfOk result (Answers world.old world.new (CompleteAutoOf name)) }
    ensures memory { IfErr result (λ f. f ≡ fault.NoMemory) }
{
    match completable(world, name) {
        Err(refusal) => Ok(Answer::Refused { name, refusal }),
        Ok(number) => {
            let jobs = waited_for(world, number);
            complete_jobs(world, alloc, &jobs)
        }
    }
}

/// The container of a name, where it is alive.
fn live_container(world: &World, name: u32) -> Option<u32>
    requires name { name < vec_len world.now.values }
    requires there { AreThere (vec_len world.now.containers) (vec_len world.now.handles) world.now.values.items }
    ensures { IsLive world.now name result }
{
    if world.is_disposed(name) {
        return None;
    }
    let value = world.values[name as usize];
    container_of(value)
}

/// The container of a name, where it may be used once its users ended, or why it may not.
fn completable(world: &World, name: u32) -> Result<u32, Refusal>
    requires name { name < vec_len world.now.values }
    requires there { AreThere (vec_len world.now.containers) (vec_len world.now.handles) world.now.values.items }
    ensures { IsCompletable world.now name result }
{
    if is_stale(world, name) {
        return Err(Refusal::StaleView);
    }
    match live_container(world, name) {
        None => Err(Refusal::Disposed),
        Some(number) => Ok(number),
    }
}

/// Whether a name stands for a view that is stale.
fn is_stale(world: &World, name: u32) -> bool
    requires name { name < vec_len world.now.values }
    requires there { AreThere (vec_len world.now.containers) (vec_len world.now.handles) world.now.values.items }
    ensures { IsBroken world.now name result }
{
    match world.blocked(name, true) {
        None => false,
        Some(refusal) => says_stale(refusal),
    }
}

/// The jobs that a writing use of a container has to wait for.
fn waited_for(world: &World, number: u32) -> Handle
    requires { KnowsUsers world.now (slice_get world.now.containers.items number) }
    ensures { AreWaitedFor world.now (slice_get world.now.containers.items number) (jobs_of result) }
{
    let tag = world.tag_of(number, None);
    automatic(
        &[(tag, Access::Write)],
        world.jobs.nobody(),
        &world.safety,
        &world.jobs,
    )
}

/// Whether a cause is that a view is stale.
fn says_stale(refusal: Refusal) -> bool
    ensures { result ≡ is_broken refusal }
{
    match refusal {
        Refusal::StaleView => true,
        Refusal::Disposed
        | Refusal::NotParallel
        | Refusal::Alias
        | Refusal::Pending(_)
        | Refusal::StoreFull
        | Refusal::Range
        | Refusal::Full
        | Refusal::MissingKey
        | Refusal::PresentKey
        | Refusal::TempInJob
        | Refusal::Busy(_) => false,
    }
}

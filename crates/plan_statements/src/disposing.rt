// The disposals. A container ends at once; its words come back once all jobs that use it are completed.
ghost use Rattle.std.specs.Prelude.{◌≡◌, ◌<◌, Some, IfOk, IfErr, slice_get, vec_len};
ghost use Rattle.frame_ast.specs.declared.script.Order.TheVariants.{Dispose as DisposeOf};
ghost use Rattle.frame_ast.specs.Laws.{AreUpTo};
ghost use Rattle.job_handle.specs.Books.{count_of};
ghost use Rattle.job_handle.specs.Sets.{jobs_of};
ghost use Rattle.plan_state.specs.declared.state.PlanFault.TheVariants as fault;
ghost use Rattle.plan_state.specs.Accesses.{AreThere};
ghost use Rattle.plan_statements.specs.Endings.{CanEnd, CanHold, Disposes, IsDisposable, IsGiven, IsHeldBack, IsReadyToDispose, number_of};
ghost use Rattle.plan_state.specs.Answers.{Answers, IsReadyFor};

use job_base::Refusal;
use job_handle::Handle;
use plan_state::{Answer, PlanFault, Value, World, refusal_of_blocked};

/// `dispose` without `after`. Every user is completed, so the words come back at once.
pub fn dispose(world: &mut World, name: u32) -> Answer
    requires ready { IsReadyToDispose world.old name }
    ensures answers { Disposes world.old world.new name result }
{
    match disposable(world, name, world.jobs.nobody()) {
        Err(refusal) => Answer::Refused { name, refusal },
        Ok(number) => {
            give_back(world, number);
            Answer::Nothing
        }
    }
}

/// `dispose` with `after`. The handle's name stands for the jobs that were named.
pub fn dispose_after(
    world: &mut World,
    name: u32,
    after: &Vec<u32>,
    handle: u32,
) -> Result<Answer, PlanFault>
    requires ready { IsReadyFor world.old (DisposeOf name after.now (Some handle)) }
    ensures answers { IfOk result (Answers world.old world.new (DisposeOf name after.now (Some handle))) }
    ensures memory { IfErr result (λ f. f ≡ fault.NoMemory) }
{
    let mut deps = Handle::empty();
    world.set_to_jobs_of(&mut deps, after);
    match disposable(world, name, &deps) {
        Err(refusal) => {
            world.clear_handle(handle)?;
            Ok(Answer::Refused { name, refusal })
        }
        Ok(number) => {
            hold_back(world, number);
            world.set_handle(handle, &deps)?;
            Ok(Answer::Nothing)
        }
    }
}

/// The container of a name, where it may be disposed once some jobs ended, or why it may not.
fn disposable(world: &World, name: u32, deps: &Handle) -> Result<u32, Refusal>
    requires name { name < vec_len world.now.values }
    requires there { AreThere (vec_len world.now.containers) (vec_len world.now.handles) world.now.values.items }
    requires deps { AreUpTo (count_of world.now.jobs) (jobs_of deps.now) }
    ensures { IsDisposable world.now name (jobs_of deps.now) result }
{
    let value = world.values[name as usize];
    let Some(number) = container_of(value) else {
        return Err(Refusal::Disposed);
    };
    let tag = world.tag_of(number, None);
    match world.safety.check_dispose(&tag, deps, &world.jobs) {
        Ok(()) => Ok(number),
        Err(blocked) => Err(refusal_of_blocked(blocked)),
    }
}

/// A container without pending users ends: its words come back at once.
pub(crate) fn give_back(world: &mut World, number: u32)
    requires { CanEnd world.old (slice_get world.old.containers.items number) }
    ensures { IsGiven world.old world.new number }
{
    let slot = world.containers[number as usize].slot;
    world.safety.release(slot);
    world.store.give(slot);
}

/// A container ends: its words come back once its users are completed, which they may be already.
pub(crate) fn hold_back(world: &mut World, number: u32)
    requires { CanHold world.old (slice_get world.old.containers.items number) }
    ensures { IsHeldBack world.old world.new number }
{
    let slot = world.containers[number as usize].slot;
    let users = world.safety.users(slot);
    world.safety.release(slot);
    world.store.hold(slot, &users);
    world.store.settle(&world.jobs);
}

/// The container that a value stands for, or is a part of.
pub(crate) fn container_of(value: Value) -> Option<u32>
    ensures { result ≡ number_of value }
{
    match value {
        Value::Dead | Value::Jobs(_) => None,
        Value::Whole(of) | Value::Slice { of, .. } | Value::View { of, .. } => Some(of),
    }
}

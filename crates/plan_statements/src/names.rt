// The statements that give a name to what there is already: `slice`, `view`, `copy` and `combine`. And `flush`, which
// does nothing: a job may run as soon as it is scheduled.
ghost use Rattle.std.specs.Prelude.{◌≡◌, ◌+◌, ◌<◌, ◌^◌, ℕ, Some, IfOk, IfErr};
ghost use Rattle.frame_ast.specs.declared.script.Order.TheVariants.{Slice as SliceOf, View as ViewOf, Copy as CopyOf, Combine as CombineOf, Flush as FlushAll};
ghost use Rattle.plan_state.specs.declared.state.PlanFault.TheVariants as fault;
ghost use Rattle.plan_state.specs.declared.state.Planner.{Planner};
ghost use Rattle.plan_state.specs.Accesses.{IsRefusal, IsWholeAlive, length_in, part_by, start_of, view_by};
ghost use Rattle.plan_state.specs.Answers.{Answers, IsReadyFor};

use job_base::Refusal;
use job_handle::Handle;
use kernel_exec::Bind;
use plan_state::{Answer, PlanFault, Value, World};

/// `slice`: `len` elements of an array or of a slice, from `start` on.
pub fn slice(world: &mut World, name: u32, of: u32, start: u32, len: u32) -> Answer
    requires ready { IsReadyFor world.old (SliceOf name of start len) }
    ensures answers { Answers world.old world.new (SliceOf name of start len) result }
{
    match slice_refusal(world, name, of, start, len) {
        Some(refusal) => {
            world.set_value(name, Value::Dead);
            Answer::Refused { name: of, refusal }
        }
        None => {
            let value = take_part(world.values[of as usize], start, len);
            world.set_value(name, value);
            Answer::Nothing
        }
    }
}

/// Why a slice can't be taken: its container is disposed, or the slice ends past its elements.
fn slice_refusal(world: &World, name: u32, of: u32, start: u32, len: u32) -> Option<Refusal>
    requires ready { IsReadyFor world.now (SliceOf name of start len) }
    ensures { (line : ℕ) (p : Planner) → IsRefusal (record p { world = world.now })
        (record { line = line; act = SliceOf name of start len }) of result }
{
    if world.is_disposed(of) {
        return Some(Refusal::Disposed);
    }
    if start + len > length_of(world.bind(world.values[of as usize])) {
        return Some(Refusal::Range);
    }
    None
}

/// `view`: a list as an array, until its views are broken.
pub fn view(world: &mut World, name: u32, of: u32) -> Answer
    requires ready { IsReadyFor world.old (ViewOf name of) }
    ensures answers { Answers world.old world.new (ViewOf name of) result }
{
    if world.is_disposed(of) {
        world.set_value(name, Value::Dead);
        Answer::Refused {
            name: of,
            refusal: Refusal::Disposed,
        }
    } else {
        let value = view_now(world, world.values[of as usize]);
        world.set_value(name, value);
        Answer::Nothing
    }
}

/// A view of a list, as its views are now.
fn view_now(world: &World, value: Value) -> Value
    requires { IsWholeAlive world.now.safety world.now.containers.items value }
    ensures { result ≡ view_by world.now.safety world.now.containers.items value }
{
    match value {
        Value::Whole(of) => {
            let slot = world.containers[of as usize].slot;
            let number = world.safety.view_version(slot);
            Value::View { of, number }
        }
        _ => unreachable!(),
    }
}

/// `copy`: another name for the same.
pub fn copy(world: &mut World, name: u32, of: u32) -> Answer
    requires ready { IsReadyFor world.old (CopyOf name of) }
    ensures answers { Answers world.old world.new (CopyOf name of) result }
{
    let value = world.values[of as usize];
    world.set_value(name, value);
    Answer::Nothing
}

/// `combine`: the handle of several.
pub fn combine(world: &mut World, name: u32, of: &Vec<u32>) -> Result<Answer, PlanFault>
    requires ready { IsReadyFor world.old (CombineOf name of.now) }
    ensures answers { IfOk result (Answers world.old world.new (CombineOf name of.now)) }
    ensures memory { IfErr result (λ f. f ≡ fault.NoMemory) }
{
    let mut jobs = Handle::empty();
    world.set_to_jobs_of(&mut jobs, of);
    world.set_handle(name, &jobs)?;
    Ok(Answer::Nothing)
}

/// `flush`: nothing is left to do, since jobs may run as soon as they are scheduled.
pub fn flush(world: &World) -> Answer
    ensures answers { Answers world.now world.now FlushAll result }
{
    Answer::Nothing
}

/// A part of what a value stands for, from one of its elements on.
fn take_part(value: Value, from: u32, len: u32) -> Value
    requires { start_of value + from < 2 ^ 32 }
    ensures { result ≡ part_by value from len }
{
    match value {
        Value::Dead | Value::Jobs(_) => Value::Dead,
        Value::Whole(of) | Value::View { of, .. } => Value::Slice {
            of,
            start: from,
            len,
        },
        Value::Slice { of, start, .. } => Value::Slice {
            of,
            start: start + from,
            len,
        },
    }
}

/// How many elements an array's words hold.
fn length_of(bind: Bind) -> u32
    requires { (n : ℕ) × (length_in bind ≡ Some n) }
    ensures { length_in bind ≡ Some result }
{
    match bind {
        Bind::Array { at, .. } => at.len,
        _ => unreachable!(),
    }
}

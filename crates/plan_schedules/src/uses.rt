// The containers that a job uses: one use for each name among its arguments.
ghost use Rattle.std.specs.Prelude.{◌≡◌, ℕ, ◌<◌, ◌≤◌, length, vec_len, IfOk, OnOk, Some};
ghost use Rattle.frame_ast.specs.Laws.{AreUpTo};
ghost use Rattle.job_handle.specs.Sets.{jobs_of};
ghost use Rattle.job_handle.specs.Books.{count_of};
ghost use Rattle.plan_state.specs.Stands.{IsThere};
ghost use Rattle.plan_state.specs.Accesses.{AreThere, tag_for};
ghost use Rattle.plan_schedules.specs.Uses.{AreNamesBelow, IsBlockedBy, ForNames, IsUse, number_of_value, is_temp_in};

use frame_ast::kernel::{Param, ParamKind, writes_to};
use frame_ast::script::{Arg, Life};
use job_base::{Access, NoMemory};
use job_handle::Handle;
use plan_state::{Value, World};
use safety_handle::{Blocked, Tag};
use std::alloc::Global;

/// A name among the arguments of a schedule, as a use of its container.
#[derive(Clone, Copy)]
pub(crate) struct NamedUse {
    pub(crate) name: u32,
    /// The number of the container, and 0 where the name stands for none.
    pub(crate) container: u32,
    pub(crate) kind: ParamKind,
    pub(crate) access: Access,
    /// Whether the container lives for one frame.
    pub(crate) is_temp: bool,
    /// None where the name stands for no container.
    pub(crate) tag: Option<Tag>,
    /// Why a job that waits for the named jobs alone may not have it.
    pub(crate) blocked: Option<Blocked>,
}

/// The uses of a schedule's arguments by a job that waits for `named`.
pub(crate) fn uses(
    world: &World,
    alloc: Global,
    params: &[Param],
    args: &[Arg],
    named: &Handle,
) -> Result<Vec<NamedUse>, NoMemory>
    requires each { length args.now ≡ length params.now }
    requires names { AreNamesBelow (vec_len world.now.values) args.now }
    requires there { AreThere (vec_len world.now.containers) (vec_len world.now.handles)
        world.now.values.items }
    requires jobs { AreUpTo (count_of world.now.jobs) (jobs_of named.now) }
    ensures { IfOk result (λ uses. ForNames (IsUse world.now (jobs_of named.now)) params.now args.now uses.items) }
{
    let mut uses = Vec::with_capacity(alloc, args.len())?;
    gather(world, params, args, named, &mut uses)?;
    Ok(uses)
}

/// The same, in a list that has others so far.
pub(crate) fn gather(
    world: &World,
    params: &[Param],
    args: &[Arg],
    named: &Handle,
    uses: &mut Vec<NamedUse>,
) -> Result<(), NoMemory>
    requires each { length args.now ≡ length params.now }
    requires names { AreNamesBelow (vec_len world.now.values) args.now }
    requires there { AreThere (vec_len world.now.containers) (vec_len world.now.handles)
        world.now.values.items }
    requires jobs { AreUpTo (count_of world.now.jobs) (jobs_of named.now) }
    ensures { OnOk result (ForNames (IsUse world.now (jobs_of named.now)) params.now args.now uses.new.items) }
{
    uses.clear();
    for (i, arg) in args.iter().enumerate() {
        match *arg {
            Arg::Name(name) => uses.push(use_of(world, &params[i], name, named))?,
            Arg::Number(_) => {}
        }
    }
    Ok(())
}

/// The use that a parameter makes of the container of a name.
fn use_of(world: &World, param: &Param, name: u32, named: &Handle) -> NamedUse
    requires name { name < vec_len world.now.values }
    requires there { AreThere (vec_len world.now.containers) (vec_len world.now.handles)
        world.now.values.items }
    requires jobs { AreUpTo (count_of world.now.jobs) (jobs_of named.now) }
    ensures { IsUse world.now (jobs_of named.now) param.now name result }
{
    let value = world.values[name as usize];
    let tag = world.tag(value);
    NamedUse {
        name,
        container: number_of(value),
        kind: param.kind,
        access: param.access,
        is_temp: is_temp(world, value),
        tag,
        blocked: blocked_for(world, tag, writes_to(param.access), named),
    }
}

/// Whether a value stands for a container that lives for one frame.
pub(crate) fn is_temp(world: &World, value: Value) -> bool
    requires there { IsThere (vec_len world.now.containers) (vec_len world.now.handles) value }
    ensures { result ≡ is_temp_in world.now.containers.items value }
{
    let number = match value {
        Value::Dead | Value::Jobs(_) => return false,
        Value::Whole(number) => number,
        Value::Slice { of, .. } => of,
        Value::View { of, .. } => of,
    };
    match world.containers[number as usize].life {
        Life::Temp => true,
        Life::TempJob | Life::Persistent => false,
    }
}

/// What the safety book answers to a use that waits for some jobs.
pub(crate) fn blocked_for(
    world: &World,
    tag: Option<Tag>,
    writes: bool,
    named: &Handle,
) -> Option<Blocked>
    requires { AreUpTo (count_of world.now.jobs) (jobs_of named.now) }
    ensures { IsBlockedBy world.now (jobs_of named.now) tag writes result }
{
    let Some(tag) = tag else {
        return Some(Blocked::Disposed);
    };
    let answer = if writes {
        world.safety.check_write(&tag, named, &world.jobs)
    } else {
        world.safety.check_read(&tag, named, &world.jobs)
    };
    match answer {
        Ok(()) => None,
        Err(blocked) => Some(blocked),
    }
}

/// The number of the container of a value, and 0 where it stands for none.
pub(crate) fn number_of(value: Value) -> u32
    ensures { result ≡ number_of_value value }
{
    match value {
        Value::Dead | Value::Jobs(_) => 0,
        Value::Whole(number) => number,
        Value::Slice { of, .. } => of,
        Value::View { of, .. } => of,
    }
}

// The list after `defer` as one more use of a job's: it is read.
ghost use Rattle.std.specs.Prelude.{◌≡◌, ◌<◌, vec_len, IfOk};
ghost use Rattle.std.specs.List.{list_any};
ghost use Rattle.frame_ast.specs.Laws.{AreUpTo};
ghost use Rattle.frame_ast.specs.Schedules.{alias};
ghost use Rattle.job_handle.specs.Sets.{jobs_of};
ghost use Rattle.job_handle.specs.Books.{count_of};
ghost use Rattle.plan_state.specs.Accesses.{AreThere};
ghost use Rattle.plan_schedules.specs.Uses.{given_of};
ghost use Rattle.plan_schedules.specs.Deferring as deferring;
ghost use Rattle.plan_schedules.specs.Deferring.{IsLengthUse, IsListName, IsListAt, length_given};

use crate::causes::{Cause, first_alias, first_with, pending};
use crate::uses::{NamedUse, blocked_for, is_temp, number_of};
use frame_ast::kernel::{ParamKind, writes_to};
use job_base::{Access, NoMemory, Refusal};
use job_handle::Handle;
use kernel_exec::Bind;
use native_list::ListAt;
use plan_state::World;
use std::alloc::Global;

/// The use of the list after `defer` by a job that waits for `named`.
pub(crate) fn length_use(world: &World, name: u32, named: &Handle) -> NamedUse
    requires name { name < vec_len world.now.values }
    requires there { AreThere (vec_len world.now.containers) (vec_len world.now.handles)
        world.now.values.items }
    requires jobs { AreUpTo (count_of world.now.jobs) (jobs_of named.now) }
    ensures { IsLengthUse world.now (jobs_of named.now) name result }
{
    let value = world.values[name as usize];
    let tag = world.tag(value);
    NamedUse {
        name,
        container: number_of(value),
        kind: ParamKind::List,
        access: Access::Read,
        is_temp: is_temp(world, value),
        tag,
        blocked: blocked_for(world, tag, false, named),
    }
}

/// The words of a list.
pub(crate) fn list_at(world: &World, name: u32) -> ListAt
    requires name { name < vec_len world.now.values }
    requires there { AreThere (vec_len world.now.containers) (vec_len world.now.handles)
        world.now.values.items }
    requires list { IsListName world.now name }
    ensures { IsListAt world.now name result }
{
    match world.bind(world.values[name as usize]) {
        Bind::List(at) => at,
        // The name stands for a list: `list`.
        _ => unreachable!(),
    }
}

/// The uses of the arguments and of the list.
pub(crate) fn with_length(
    alloc: Global,
    args: &[NamedUse],
    length: &NamedUse,
) -> Result<Vec<NamedUse>, NoMemory>
    ensures { IfOk result (λ all. all.items ≡ deferring.with_length args.now length.now) }
{
    let mut all = Vec::new(alloc);
    for i in 0..args.len() {
        all.push(args[i])?;
    }
    all.push(*length)?;
    Ok(all)
}

/// Those of them that are noted of the job. An argument of the list uses it already, and may write it.
pub(crate) fn noted_uses(
    args: Vec<NamedUse>,
    all: Vec<NamedUse>,
    length: &NamedUse,
) -> Vec<NamedUse>
    requires { all.items ≡ deferring.with_length args.items length.now }
    ensures { result.items ≡ deferring.noted_uses args.items length.now }
{
    if has_container(&args, length.container) {
        args
    } else {
        all
    }
}

/// The cause for which such a schedule is refused; `all` are the uses of the arguments and of the list. With `auto` no
/// job blocks it.
pub(crate) fn deferred_refusal(
    args: &[NamedUse],
    length: &NamedUse,
    all: &[NamedUse],
    parallel: bool,
    auto: bool,
) -> Option<Cause>
    requires { all.now ≡ deferring.with_length args.now length.now }
    ensures { result ≡ deferring.deferred_refusal args.now length.now parallel auto }
{
    if let Some(cause) = first_with(all, parallel, Refusal::Disposed) {
        return Some(cause);
    }
    if let Some(cause) = first_with(all, parallel, Refusal::StaleView) {
        return Some(cause);
    }
    if let Some(cause) = first_with(all, parallel, Refusal::NotParallel) {
        return Some(cause);
    }
    if let Some(cause) = first_with(all, parallel, Refusal::TempInJob) {
        return Some(cause);
    }
    if let Some(cause) = deferred_alias(args, length) {
        return Some(cause);
    }
    if auto { None } else { pending(all) }
}

/// The first alias among the arguments and the list.
fn deferred_alias(args: &[NamedUse], length: &NamedUse) -> Option<Cause>
    ensures { result ≡ deferring.deferred_alias args.now length.now }
{
    if let Some(cause) = first_alias(args) {
        return Some(cause);
    }
    if has_length_alias(args, length) {
        return Some(Cause {
            refusal: Refusal::Alias,
            name: length.name,
        });
    }
    None
}

/// Whether the list is an alias of an argument.
fn has_length_alias(args: &[NamedUse], length: &NamedUse) -> bool
    ensures { result ≡ list_any (λ a. alias (given_of a) (length_given length.now)) args.now }
{
    for i in 0..args.len() {
        if is_length_alias(&args[i], length) {
            return true;
        }
    }
    false
}

/// The list isn't an alias of itself given as an array.
fn is_length_alias(first: &NamedUse, length: &NamedUse) -> bool
    ensures { result ≡ alias (given_of first.now) (length_given length.now) }
{
    first.container == length.container
        && (writes_to(first.access) || writes_to(length.access))
        && !(first.kind.is_array() && first.name == length.name)
}

/// Whether one of the uses is of that container.
fn has_container(uses: &[NamedUse], container: u32) -> bool
    ensures { result ≡ deferring.has_container uses.now container }
{
    for i in 0..uses.len() {
        if container == uses[i].container {
            return true;
        }
    }
    false
}

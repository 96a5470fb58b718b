// What a job is given for its arguments, by the kinds of its parameters.
ghost use Rattle.std.specs.Prelude.{◌≡◌, ◌<◌, ◌≤◌, length, vec_len, IfOk};
ghost use Rattle.job_base.specs.declared.limits.TheConstants.{MOST_PARAMS};
ghost use Rattle.frame_ast.specs.Lists.{member};
ghost use Rattle.frame_ast.specs.Schedules.{width_by, width_at};
ghost use Rattle.plan_state.specs.Accesses.{AreThere};
ghost use Rattle.plan_schedules.specs.Uses.{IsNameBelow, AreNamesBelow};
ghost use Rattle.plan_schedules.specs.JobBinds.{as_array, as_stream, as_kind, job_bind, job_binds};

use frame_ast::kernel::{Kernel, Param, ParamKind, writes_to};
use frame_ast::script::Arg;
use job_base::NoMemory;
use kernel_exec::Bind;
use plan_state::World;
use std::alloc::Global;

/// The binds of a job's arguments, with the widths of the own-index rule; `waive` are places among the parameters.
pub(crate) fn job_binds(
    world: &World,
    alloc: Global,
    kernel: &Kernel,
    args: &[Arg],
    waive: &[u32],
) -> Result<Vec<Bind>, NoMemory>
    requires each { length args.now ≡ vec_len kernel.now.params }
    requires few { length args.now ≤ MOST_PARAMS }
    requires names { AreNamesBelow (vec_len world.now.values) args.now }
    requires there { AreThere (vec_len world.now.containers) (vec_len world.now.handles)
        world.now.values.items }
    ensures { IfOk result (λ binds. binds.items
        ≡ job_binds world.now kernel.now.parallel waive.now 0 kernel.now.params.items args.now) }
{
    let mut binds = Vec::with_capacity(alloc, args.len())?;
    for i in 0..args.len() {
        let param = &kernel.params[i];
        let width = width_of(kernel.parallel, param, i as u32, waive);
        binds.push(job_bind(world, param.kind, width, args[i]))?;
    }
    Ok(binds)
}

/// What a job is given for an argument of a parameter of that kind.
fn job_bind(world: &World, kind: ParamKind, width: u32, arg: Arg) -> Bind
    requires name { IsNameBelow (vec_len world.now.values) arg }
    requires there { AreThere (vec_len world.now.containers) (vec_len world.now.handles)
        world.now.values.items }
    ensures { result ≡ job_bind world.now kind width arg }
{
    match arg {
        Arg::Number(number) => Bind::Int(number),
        Arg::Name(name) => as_kind(kind, width, world.bind(world.values[name as usize])),
    }
}

/// The width of the own-index rule for a parameter, by its place.
fn width_of(parallel: bool, param: &Param, place: u32, waive: &[u32]) -> u32
    ensures { result ≡ width_at parallel waive.now place param.now }
{
    if parallel && writes_to(param.access) {
        width_by(param, is_waived(place, waive))
    } else {
        0
    }
}

/// The width of a parameter that may be written.
fn width_by(param: &Param, waived: bool) -> u32
    ensures { result ≡ width_by waived param.now param.now.kind }
{
    match param.kind {
        ParamKind::Array => if waived { 0 } else { param.by },
        ParamKind::Stream => 1,
        ParamKind::Int | ParamKind::List | ParamKind::Ref | ParamKind::Map => 0,
    }
}

fn is_waived(place: u32, waive: &[u32]) -> bool
    ensures { result ≡ member place waive.now }
{
    for i in 0..waive.len() {
        if place == waive[i] {
            return true;
        }
    }
    false
}

fn as_kind(kind: ParamKind, width: u32, bind: Bind) -> Bind
    ensures { result ≡ as_kind kind width bind }
{
    match kind {
        ParamKind::Array => as_array(width, bind),
        ParamKind::Stream => as_stream(width, bind),
        ParamKind::Int | ParamKind::List | ParamKind::Ref | ParamKind::Map => bind,
    }
}

/// The elements of an array, a slice, a view or a list.
fn as_array(width: u32, bind: Bind) -> Bind
    ensures { result ≡ as_array width bind }
{
    match bind {
        Bind::Array { at, .. } => Bind::Array { at, own: width },
        Bind::View { at, .. } => Bind::View { at, own: width },
        Bind::List(at) => Bind::View { at, own: width },
        Bind::Int(_) | Bind::Ref(_) | Bind::Map(_) | Bind::Stream { .. } => bind,
    }
}

fn as_stream(width: u32, bind: Bind) -> Bind
    ensures { result ≡ as_stream width bind }
{
    match bind {
        Bind::Stream { at, .. } => Bind::Stream {
            at,
            own: width != 0,
        },
        Bind::Int(_)
        | Bind::Array { .. }
        | Bind::View { .. }
        | Bind::List(_)
        | Bind::Ref(_)
        | Bind::Map(_) => bind,
    }
}

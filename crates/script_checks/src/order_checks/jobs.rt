//! The checks of a schedule.

ghost use Rattle.std.specs.Prelude.{◌≡◌, ℕ, ⊤, ◌&&◌, Some, None, true, [], ◌∷◌, map, length, position, string_bytes, ◌≤◌};
ghost use Rattle.std.specs.Str.{bytes_eq};
ghost use Rattle.job_base.specs.declared.limits.TheConstants.{MOST_PARAMS};
ghost use Rattle.frame_ast.specs.declared.kernel.FaultKind.TheVariants.{KindMismatch, Limit};
ghost use Rattle.frame_ast.specs.Schedules.{is_array, writes_to};
ghost use Rattle.frame_ast.specs.Lists.{first_some};
ghost use Rattle.frame_ast.specs.Accepted.{guard_fits, is_int, kinds_for};
ghost use Rattle.script_text.specs.declared.raw.RawSizes.TheVariants as Sizes;
ghost use Rattle.script_checks.specs.Faults.{is_deferred, use_fault, kernel_fault, arg_fault, args_faults, sizes_faults, sizes_fit, room_fits, takes, unless, waive_fault, waived_fault, limit_fault, signed_fault, scheduled_faults};
ghost use Rattle.script_checks.specs.Spelling.{arg_of, names_with, cut_of, defer_of, param_place};
ghost use Rattle.script_text.specs.Sources.{text_at, number_at, signed_at};
ghost use Rattle.script_checks.specs.Checks.{Checked, among, IsPlace, AreArgs, IsArg, IsDefer, Gives, Decides};
ghost use Rattle.script_checks.specs.Scheduled.{IsBehind};
ghost use Rattle.script_text.specs.Raw as Form;

use crate::checks::{declare, number_within, refuse, resolve, resolve_handles, signed_number};
use crate::{Kernels, OrderFault};
use frame_ast::kernel::{FaultKind, Kernel, ParamKind, writes_to};
use frame_ast::name_kind::{ARRAY_ARGUMENTS, HAS_ELEMENTS, NameKind};
use frame_ast::script::{Arg, NewJob, Order};
use frame_grammar::TokenAt;
use job_base::Access;
use job_base::limits::MOST_INDEXES;
use script_names::Names;
use script_text::{RawArg, RawNumber, RawSizes, Source};
use std::alloc::Global;

// ARGUMENTS

// Whether a name is that of the list after `defer`.
fn is_deferred(source: Source<'_>, sizes: RawSizes, at: TokenAt) -> bool
    ensures { result ≡ is_deferred source.entry sizes at }
{
    match sizes {
        RawSizes::None => false,
        RawSizes::Length(_, _) => false,
        RawSizes::Defer(list, _) => source.text(list) == source.text(at),
    }
}

// The place of a name that fits a parameter of this kind.
fn resolve_for(
    source: Source<'_>,
    names: &Names<'_>,
    deferred: bool,
    kind: ParamKind,
    at: TokenAt,
) -> Result<u32, OrderFault>
    ensures { Decides (use_fault source.entry names.now (kinds_for kind deferred) at)
        (IsPlace source.entry names.now at) result }
{
    match kind {
        ParamKind::Int => resolve(source, names, &[], at),
        ParamKind::Array if deferred => resolve(source, names, &HAS_ELEMENTS, at),
        ParamKind::Array => resolve(source, names, &ARRAY_ARGUMENTS, at),
        ParamKind::List => resolve(source, names, &[NameKind::List], at),
        ParamKind::Ref => resolve(source, names, &[NameKind::Reference], at),
        ParamKind::Map => resolve(source, names, &[NameKind::Map], at),
        ParamKind::Stream => resolve(source, names, &[NameKind::Stream], at),
    }
}

// A number is given for an `int` alone.
fn check_takes_number(kind: ParamKind, at: TokenAt) -> Result<(), OrderFault>
    ensures { Decides (unless (is_int kind) KindMismatch at) (λ _. ⊤) result }
{
    if kind.is_int() {
        Ok(())
    } else {
        refuse(FaultKind::KindMismatch, at)
    }
}

fn number(source: Source<'_>, kind: ParamKind, number: RawNumber) -> Result<i64, OrderFault>
    ensures { Gives (first_some (unless (is_int kind) KindMismatch number.at ∷ signed_fault source.entry number ∷ []))
        (λ z. z ≡ signed_at source.entry number) result }
{
    check_takes_number(kind, number.at)?;
    let value = signed_number(source, number)?;
    Ok(value)
}

fn argument(
    source: Source<'_>,
    names: &Names<'_>,
    sizes: RawSizes,
    kind: ParamKind,
    arg: RawArg,
) -> Result<Arg, OrderFault>
    ensures { Gives (arg_fault source.entry names.now sizes kind arg) (IsArg source.entry names.now arg) result }
{
    match arg {
        RawArg::Name(at) => {
            let deferred = is_deferred(source, sizes, at);
            match resolve_for(source, names, deferred, kind, at) {
                Ok(place) => Ok(Arg::Name(place)),
                Err(fault) => Err(fault),
            }
        }
        RawArg::Number(value) => match number(source, kind, value) {
            Ok(value) => Ok(Arg::Number(value)),
            Err(fault) => Err(fault),
        },
    }
}

// SIZES

fn length_and_batch(
    source: Source<'_>,
    len: TokenAt,
    batch: TokenAt,
) -> Result<(u32, u32), OrderFault>
    ensures { Gives (first_some (limit_fault source.entry 0 MOST_INDEXES len
        ∷ limit_fault source.entry 1 MOST_INDEXES batch ∷ []))
        (λ r. r ≡ (number_at source.entry len, number_at source.entry batch)) result }
{
    let len = number_within(source, 0, MOST_INDEXES, len)?;
    let batch = number_within(source, 1, MOST_INDEXES, batch)?;
    Ok((len, batch))
}

// WHAT A KERNEL TAKES

fn sizes_fit(parallel: bool, sizes: RawSizes) -> bool
    ensures { result ≡ sizes_fit parallel sizes }
{
    match sizes {
        RawSizes::None => !parallel,
        RawSizes::Length(_, _) => parallel,
        RawSizes::Defer(_, _) => parallel,
    }
}

fn room_fits(room: bool, sizes: RawSizes) -> bool
    ensures { result ≡ room_fits room sizes }
{
    match sizes {
        RawSizes::None => true,
        RawSizes::Length(_, _) => true,
        RawSizes::Defer(_, _) => room,
    }
}

fn takes(kernel: &Kernel, at: TokenAt, args: &[RawArg], sizes: RawSizes) -> Result<(), OrderFault>
    ensures { Decides (unless (takes kernel.now args.now sizes) KindMismatch at) (λ _. ⊤) result }
{
    if args.len() == kernel.params.len() && sizes_fit(kernel.parallel, sizes) {
        Ok(())
    } else {
        refuse(FaultKind::KindMismatch, at)
    }
}

fn leaves_room(room: bool, at: TokenAt, sizes: RawSizes) -> Result<(), OrderFault>
    ensures { Decides (unless (room_fits room sizes) Limit at) (λ _. ⊤) result }
{
    if room_fits(room, sizes) {
        Ok(())
    } else {
        refuse(FaultKind::Limit, at)
    }
}

// Whether a kernel, which has room for more or not, takes these arguments and sizes.
fn fitting(
    kernel: &Kernel,
    room: bool,
    at: TokenAt,
    args: &[RawArg],
    sizes: &RawSizes,
) -> Result<(), OrderFault>
    requires { room ≡ guard_fits kernel.now }
    ensures { Gives (kernel_fault kernel.now at args.now sizes.now)
        (λ _. takes kernel.now args.now sizes.now ≡ true) result }
{
    takes(kernel, at, args, *sizes)?;
    leaves_room(room, at, *sizes)?;
    Ok(())
}

// The place of the parameter of this name.
fn param_at(kernel: &Kernel, text: &[u8]) -> Option<usize>
    ensures { result ≡ position (λ p. bytes_eq text.now (string_bytes p.name)) kernel.now.params.items }
{
    kernel
        .params
        .iter()
        .position(|param| text == param.name.as_bytes())
}

// WAIVED NAMES

fn waivable(parallel: bool, kind: ParamKind, access: Access, at: TokenAt) -> Result<(), OrderFault>
    ensures { Decides (unless (parallel && (is_array kind && writes_to access)) KindMismatch at) (λ _. ⊤) result }
{
    if parallel && (kind.is_array() && writes_to(access)) {
        Ok(())
    } else {
        refuse(FaultKind::KindMismatch, at)
    }
}

// The place of a parameter that may be waived: an array of a parallel kernel that is written.
fn waived(source: Source<'_>, kernel: &Kernel, at: TokenAt) -> Result<u32, OrderFault>
    requires { length kernel.now.params.items ≤ MOST_PARAMS }
    ensures { Gives (waive_fault source.entry kernel.now at)
        (λ n. n ≡ param_place kernel.now.params.items (text_at source.entry at)) result }
{
    let Some(place) = param_at(kernel, source.text(at)) else {
        return refuse(FaultKind::UnknownName, at);
    };
    let param = &kernel.params[place];
    waivable(kernel.parallel, param.kind, param.access, at)?;
    Ok(place as u32)
}

fn all_waived(
    alloc: Global,
    source: Source<'_>,
    kernel: &Kernel,
    names: &[TokenAt],
) -> Result<Vec<u32>, OrderFault>
    requires { length kernel.now.params.items ≤ MOST_PARAMS }
    ensures { Gives (first_some (map (waive_fault source.entry kernel.now) names.now))
        (λ places. places.items ≡ map (λ at. param_place kernel.now.params.items
        (text_at source.entry at)) names.now) result }
{
    let mut places = Vec::new(alloc);
    for name in names {
        let place = waived(source, kernel, *name)?;
        places.push(place)?;
    }
    Ok(places)
}

// LISTS

// The arguments of a kernel that takes so many.
fn arguments(
    alloc: Global,
    source: Source<'_>,
    names: &Names<'_>,
    kernel: &Kernel,
    sizes: &RawSizes,
    args: &[RawArg],
) -> Result<Vec<Arg>, OrderFault>
    requires { length args.now ≡ length kernel.now.params.items }
    ensures { Gives (first_some (args_faults source.entry names.now sizes.now kernel.now.params.items args.now))
        (λ given. AreArgs source.entry names.now args.now given.items) result }
{
    let mut given = Vec::new(alloc);
    for (place, arg) in args.iter().enumerate() {
        let kind = kernel.params[place].kind;
        let one = argument(source, names, *sizes, kind, *arg)?;
        given.push(one)?;
    }
    Ok(given)
}

fn list_and_batch(
    source: Source<'_>,
    names: &Names<'_>,
    list: TokenAt,
    batch: TokenAt,
) -> Result<(u32, u32), OrderFault>
    ensures { Gives (first_some (sizes_faults source.entry names.now (Sizes.Defer list batch)))
        (λ r. IsDefer source.entry names.now (Sizes.Defer list batch) (Some r)) result }
{
    let list = resolve(source, names, &[NameKind::List], list)?;
    let batch = number_within(source, 1, MOST_INDEXES, batch)?;
    Ok((list, batch))
}

// The length and the batch, or the list that gives the length and the batch.
fn sizes_of(
    source: Source<'_>,
    names: &Names<'_>,
    sizes: RawSizes,
) -> Result<(Option<(u32, u32)>, Option<(u32, u32)>), OrderFault>
    ensures { Gives (first_some (sizes_faults source.entry names.now sizes))
        (λ r. (r.0 ≡ cut_of source.entry sizes) × IsDefer source.entry names.now sizes r.1) result }
{
    match sizes {
        RawSizes::None => Ok((None, None)),
        RawSizes::Length(len, batch) => match length_and_batch(source, len, batch) {
            Ok(cut) => Ok((Some(cut), None)),
            Err(fault) => Err(fault),
        },
        RawSizes::Defer(list, batch) => match list_and_batch(source, names, list, batch) {
            Ok(defer) => Ok((None, Some(defer))),
            Err(fault) => Err(fault),
        },
    }
}

// SCHEDULES

/// What a schedule's text says.
#[derive(Clone, Copy)]
pub struct Schedule<'a> {
    pub auto: bool,
    pub handle: TokenAt,
    pub kernel: TokenAt,
    pub args: &'a [RawArg],
    pub sizes: RawSizes,
    pub waive: &'a [TokenAt],
    pub after: &'a [TokenAt],
}

/// What stands after a schedule's kernel.
#[derive(Drop)]
pub struct Behind {
    pub args: Vec<Arg>,
    pub cut: Option<(u32, u32)>,
    pub defer: Option<(u32, u32)>,
    pub waive: Vec<u32>,
    pub after: Vec<u32>,
}

// What stands after a known kernel, which has room for more or not.
fn read_behind(
    alloc: Global,
    source: Source<'_>,
    names: &Names<'_>,
    kernel: &Kernel,
    room: bool,
    text: &Schedule<'_>,
) -> Result<Behind, OrderFault>
    requires few { length kernel.now.params.items ≤ MOST_PARAMS }
    requires room { room ≡ guard_fits kernel.now }
    ensures { Gives (first_some (scheduled_faults source.entry names.now (Some kernel.now) text.now.kernel
        text.now.args.now text.now.sizes text.now.waive.now text.now.after.now))
        (IsBehind source.entry names.now kernel.now text.now.args.now text.now.sizes text.now.waive.now
        text.now.after.now) result }
{
    fitting(kernel, room, text.kernel, text.args, &text.sizes)?;
    let args = arguments(alloc, source, names, kernel, &text.sizes, text.args)?;
    let (cut, defer) = sizes_of(source, names, text.sizes)?;
    let waive = all_waived(alloc, source, kernel, text.waive)?;
    let after = resolve_handles(alloc, source, names, text.after)?;
    Ok(Behind {
        args,
        cut,
        defer,
        waive,
        after,
    })
}

#[inline(never)]
pub fn check_schedule(
    alloc: Global,
    source: Source<'_>,
    names: &Names<'_>,
    kernels: &Kernels<'_>,
    text: &Schedule<'_>,
) -> Result<Order, OrderFault>
    ensures { Checked source.entry (among names.now kernels.now) 0 0
        (Form.Schedule text.now.auto text.now.handle text.now.kernel text.now.args.now text.now.sizes
        text.now.waive.now text.now.after.now) result }
{
    let handle = declare(source, names, NameKind::Handle, text.handle)?;
    let Some(place) = kernels.find(source.text(text.kernel)) else {
        return refuse(FaultKind::UnknownName, text.kernel);
    };
    let kernel = kernels.kernel(place);
    let room = kernels.has_room(place);
    let rest = read_behind(alloc, source, names, kernel, room, text)?;
    let job = Box::new(
        alloc,
        NewJob {
            auto: text.auto,
            handle,
            kernel: place,
            args: rest.args,
            cut: rest.cut,
            defer: rest.defer,
            waive: rest.waive,
            after: rest.after,
        },
    )?;
    Ok(Order::Schedule(job))
}

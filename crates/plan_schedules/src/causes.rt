// Why a schedule is refused: its causes one by one, in their order.
ghost use Rattle.std.specs.Prelude.{◌≡◌};
ghost use Rattle.std.specs.List.{list_any};
ghost use Rattle.frame_ast.specs.Schedules.{alias, is_shared};
ghost use Rattle.plan_schedules.specs.Uses.{given_of};
ghost use Rattle.plan_schedules.specs.Causes.{is_disposed, is_stale, has_cause, first_with, alias_of, blocker_number, greatest_blocker, pending_of, refusal_by};

use crate::uses::NamedUse;
use frame_ast::kernel::{ParamKind, writes_to};
use job_base::{JobId, Refusal};
use safety_handle::Blocked;

/// Why a statement is refused, and the name that its line has.
#[derive(Clone, Copy)]
pub(crate) struct Cause {
    pub(crate) refusal: Refusal,
    pub(crate) name: u32,
}

/// The cause for which a schedule with these uses is refused. With `auto` no job blocks it.
pub(crate) fn refusal_of(uses: &[NamedUse], parallel: bool, auto: bool) -> Option<Cause>
    ensures { result ≡ refusal_by uses.now parallel auto }
{
    if let Some(cause) = first_with(uses, parallel, Refusal::Disposed) {
        return Some(cause);
    }
    if let Some(cause) = first_with(uses, parallel, Refusal::StaleView) {
        return Some(cause);
    }
    if let Some(cause) = first_with(uses, parallel, Refusal::NotParallel) {
        return Some(cause);
    }
    if let Some(cause) = first_with(uses, parallel, Refusal::TempInJob) {
        return Some(cause);
    }
    if let Some(cause) = first_alias(uses) {
        return Some(cause);
    }
    if auto { None } else { pending(uses) }
}

/// The first use that is refused for that cause, with its name.
pub(crate) fn first_with(uses: &[NamedUse], parallel: bool, refusal: Refusal) -> Option<Cause>
    ensures { result ≡ first_with refusal (has_cause parallel refusal) uses.now }
{
    for i in 0..uses.len() {
        if has_cause(&uses[i], parallel, refusal) {
            return Some(Cause {
                refusal,
                name: uses[i].name,
            });
        }
    }
    None
}

/// Whether a use is refused for that cause, which is none of several uses.
fn has_cause(one: &NamedUse, parallel: bool, refusal: Refusal) -> bool
    ensures { result ≡ has_cause parallel refusal one.now }
{
    match refusal {
        Refusal::Disposed => is_disposed(one.blocked),
        Refusal::StaleView => is_stale(one.blocked),
        Refusal::NotParallel => parallel && writes_to(one.access) && is_shared(one.kind),
        Refusal::TempInJob => one.is_temp,
        Refusal::Pending(job) => blocker_number(one.blocked) == job.0,
        Refusal::Alias
        | Refusal::StoreFull
        | Refusal::Range
        | Refusal::Full
        | Refusal::MissingKey
        | Refusal::PresentKey
        | Refusal::Busy(_) => false,
    }
}

fn is_disposed(blocked: Option<Blocked>) -> bool
    ensures { result ≡ is_disposed blocked }
{
    match blocked {
        Some(Blocked::Disposed) => true,
        Some(Blocked::StaleView) | Some(Blocked::Pending(_)) | None => false,
    }
}

fn is_stale(blocked: Option<Blocked>) -> bool
    ensures { result ≡ is_stale blocked }
{
    match blocked {
        Some(Blocked::StaleView) => true,
        Some(Blocked::Disposed) | Some(Blocked::Pending(_)) | None => false,
    }
}

/// The number of the job that blocks a use, and 0 where none does.
fn blocker_number(blocked: Option<Blocked>) -> u32
    ensures { result ≡ blocker_number blocked }
{
    match blocked {
        Some(Blocked::Pending(job)) => job.0,
        Some(Blocked::Disposed) | Some(Blocked::StaleView) | None => 0,
    }
}

/// Whether a parallel job may only read what a parameter of that kind is given.
fn is_shared(kind: ParamKind) -> bool
    ensures { result ≡ is_shared kind }
{
    match kind {
        ParamKind::Int | ParamKind::Array | ParamKind::Stream => false,
        ParamKind::List | ParamKind::Ref | ParamKind::Map => true,
    }
}

/// The first use that is an alias of an earlier one.
pub(crate) fn first_alias(uses: &[NamedUse]) -> Option<Cause>
    ensures { result ≡ alias_of uses.now }
{
    for i in 0..uses.len() {
        let one = uses[i];
        if has_alias(&uses[..i], &one) {
            return Some(Cause {
                refusal: Refusal::Alias,
                name: one.name,
            });
        }
    }
    None
}

/// Whether one of these uses has the same container, and one of the two writes.
fn has_alias(before: &[NamedUse], one: &NamedUse) -> bool
    ensures { result ≡ list_any (λ a. alias (given_of a) (given_of one.now)) before.now }
{
    for i in 0..before.len() {
        if is_alias(&before[i], one) {
            return true;
        }
    }
    false
}

fn is_alias(first: &NamedUse, second: &NamedUse) -> bool
    ensures { result ≡ alias (given_of first.now) (given_of second.now) }
{
    first.container == second.container && (writes_to(first.access) || writes_to(second.access))
}

/// The greatest job that blocks one of the uses, with the first use that it blocks.
pub(crate) fn pending(uses: &[NamedUse]) -> Option<Cause>
    ensures { result ≡ pending_of uses.now }
{
    let number = greatest_blocker(uses);
    if number == 0 {
        None
    } else {
        first_with(uses, false, Refusal::Pending(JobId(number)))
    }
}

/// The number of the greatest job that blocks one of the uses, and 0 where none does.
fn greatest_blocker(uses: &[NamedUse]) -> u32
    ensures { result ≡ greatest_blocker uses.now }
{
    let mut greatest = 0;
    for i in 0..uses.len() {
        greatest = blocker_number(uses[i].blocked).max(greatest);
    }
    greatest
}

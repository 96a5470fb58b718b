//! One statement of a file: what it says, and the name that it makes.

ghost use Rattle.std.specs.Prelude.{◌≡◌, ◌≤◌, ◌^◌, ◌++◌, ℕ, length, None, Some, MatchOption, MatchResult, IsTrue, IfOk};
ghost use Rattle.frame_ast.specs.declared.name_kind.NameKind.{NameKind};
ghost use Rattle.frame_ast.specs.Lists.{first_some};
ghost use Rattle.script_text.specs.Raw.{form_of};
ghost use Rattle.script_text.specs.Events.{closing};
ghost use Rattle.script_checks.specs.Faults.{order_faults, made_by};
ghost use Rattle.script_checks.specs.Spelling.{Says, names_after, place_of};
ghost use Rattle.frame_script.specs.Made.{made_place};
ghost use Rattle.frame_script.specs.Files.{literals_of};
ghost use Rattle.script_checks.specs.Checks.{Gives, among, is_plain, valued_form};
ghost use Rattle.frame_script.specs.Walking.{lists_in};

use frame_ast::name_kind::NameKind;
use frame_ast::script::Order;
use frame_grammar::TokenAt;
use job_base::NoMemory;
use script_checks::{Kernels, OrderFault, Valued, check_order, valued_array};
use script_names::Names;
use script_text::{RawOrder, Source};
use std::alloc::Global;

// TO ADD A STATEMENT: 10, the name that it makes, where it makes one.

/// The name that a statement makes, and what it then stands for.
fn name_bound(
    source: Source<'_>,
    names: &Names<'_>,
    raw: &RawOrder<'_>,
) -> Option<(TokenAt, NameKind)>
    ensures { result ≡ made_by source.entry names.now (form_of raw.now) }
{
    match raw {
        RawOrder::Array { name, .. } | RawOrder::Column { name, .. } => {
            Some((*name, NameKind::Array))
        }
        RawOrder::List { name, .. } => Some((*name, NameKind::List)),
        RawOrder::Reference { name, .. } => Some((*name, NameKind::Reference)),
        RawOrder::Map { name, .. } => Some((*name, NameKind::Map)),
        RawOrder::Stream { name, .. } => Some((*name, NameKind::Stream)),
        RawOrder::Slice { name, .. } => Some((*name, NameKind::Slice)),
        RawOrder::View { name, .. } => Some((*name, NameKind::View)),
        RawOrder::Copy { name, of } => match names.get(source.text(*of)) {
            None => None,
            Some((_, kind)) => Some((*name, kind)),
        },
        RawOrder::Combine { name, .. } => Some((*name, NameKind::Handle)),
        RawOrder::Dispose { handle, .. } => match handle {
            None => None,
            Some(handle) => Some((*handle, NameKind::Handle)),
        },
        RawOrder::Schedule { handle, .. } | RawOrder::DisposeAuto { handle, .. } => {
            Some((*handle, NameKind::Handle))
        }
        RawOrder::Set { .. }
        | RawOrder::Add { .. }
        | RawOrder::Put { .. }
        | RawOrder::Remove { .. }
        | RawOrder::Clear { .. }
        | RawOrder::SetCapacity { .. }
        | RawOrder::Complete { .. }
        | RawOrder::Print { .. }
        | RawOrder::Flush
        | RawOrder::Frame
        | RawOrder::Repeat { .. }
        | RawOrder::When { .. } => None,
    }
}

/// The place of the name that a statement makes, where it makes one.
fn place_bound(act: &Order) -> Option<u32>
    ensures { result ≡ made_place act.now }
{
    match act {
        Order::Array { name, .. }
        | Order::Column { name, .. }
        | Order::List { name, .. }
        | Order::Reference { name, .. }
        | Order::Map { name, .. }
        | Order::Stream { name, .. }
        | Order::Slice { name, .. }
        | Order::View { name, .. }
        | Order::Copy { name, .. }
        | Order::Combine { name, .. } => Some(*name),
        Order::Schedule(job) => Some(job.handle),
        Order::Dispose { handle, .. } => *handle,
        Order::DisposeAuto { handle, .. } => Some(*handle),
        Order::Set { .. }
        | Order::Add { .. }
        | Order::Put { .. }
        | Order::Remove { .. }
        | Order::Clear { .. }
        | Order::SetCapacity { .. }
        | Order::Complete { .. }
        | Order::CompleteAuto { .. }
        | Order::Print { .. }
        | Order::Flush
        | Order::Frame
        | Order::When { .. } => None,
    }
}

/// Makes the name that a statement makes, where it makes one and the name isn't known yet; `act` is what the statement
/// says.
// Whether it is known stands in `act`, by which it isn't looked up once more.
pub fn bind_name<'a>(
    source: Source<'a>,
    names: &mut Names<'a>,
    raw: &RawOrder<'_>,
    act: &Order,
) -> Result<(), NoMemory>
    requires { (at : ℕ) (kind : NameKind) → made_by source names.old (form_of raw.now) ≡ Some (at, kind) →
        made_place act.now ≡ Some (place_of source (names_after source names.old (form_of raw.now)) at) }
    ensures { IfOk result (λ _. names.new ≡ names_after source.entry names.old (form_of raw.now)) }
{
    let Some((at, kind)) = name_bound(source, names, raw) else {
        return Ok(());
    };
    let Some(place) = place_bound(act) else {
        unreachable!()
    };
    if place < names.len() {
        return Ok(());
    }
    if names.len() == u32::MAX {
        return Err(NoMemory);
    }
    names.make(source.text(at), kind)
}

// What the text of a statement says, where it is an array with values.
fn as_valued_array<'a>(raw: &RawOrder<'a>) -> Option<Valued<'a>>
    ensures { MatchOption result (closing (form_of raw.now) ≡ None → IsTrue (is_plain raw.now))
        (λ text. form_of raw.now ≡ valued_form text) }
{
    if let RawOrder::Array {
        name,
        len,
        life,
        values: Some(values),
    } = raw
    {
        Some(Valued {
            name: *name,
            len: *len,
            life: *life,
            values: *values,
        })
    } else {
        None
    }
}

/// A count, as a script holds it. A greater one than a `u32` holds is reported as out of memory.
pub fn count_of(len: usize) -> Result<u32, NoMemory>
    ensures { MatchResult result (λ count. count ≡ len) (λ _. 2 ^ 32 ≤ len) }
{
    if len > u32::MAX as usize {
        return Err(NoMemory);
    }
    Ok(len as u32)
}

/// What a statement without a block says. Where it has values, they become one more of the lists.
pub fn check_statement(
    alloc: Global,
    source: Source<'_>,
    names: &Names<'_>,
    kernels: &Kernels<'_>,
    literals: &mut Vec<Vec<i64>>,
    raw: &RawOrder<'_>,
) -> Result<Order, OrderFault>
    requires { closing (form_of raw.now) ≡ None }
    ensures { Gives (first_some (order_faults source.entry (among names.now kernels.now) 0 (form_of raw.now)))
        (λ act. Says source.entry (names_after source.entry names.now (form_of raw.now)) kernels.now
        (length literals.old.items) 0 (form_of raw.now) act
        × (lists_in literals.new ≡ lists_in literals.old ++ literals_of source.entry (form_of raw.now))) result }
{
    match as_valued_array(raw) {
        None => check_order(alloc, source, names, kernels, raw),
        Some(text) => {
            let count = count_of(literals.len())?;
            let (order, list) = valued_array(alloc, source, names, count, text)?;
            literals.push(list)?;
            Ok(order)
        }
    }
}

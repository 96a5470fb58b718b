//! The statements that change containers, and those that end or show them.

ghost use Rattle.std.specs.Prelude.{◌≡◌, true, false};
ghost use Rattle.std.specs.Option.{option_map};
ghost use Rattle.frame_ast.specs.Lists.{first_some};
ghost use Rattle.script_text.specs.Raw.{Dispose, Set, Add, Put, Remove, Clear, SetCapacity, Complete, DisposeAuto, Print};
ghost use Rattle.script_checks.specs.Faults.{as_faults, made_as, use_fault, set_kinds, add_kinds};
ghost use Rattle.script_checks.specs.Spelling.{place_of, names_with};
ghost use Rattle.script_checks.specs.Checks.{Checked, IsPlace, bare, Gives, Decides};

use crate::OrderFault;
use crate::checks::{
    declare, maybe_signed_number, number_within, resolve, resolve_handles, signed_number,
};
use frame_ast::name_kind::{CLEARABLE, CONTAINERS, DISPOSABLE, HAS_ELEMENTS, NameKind, REMOVABLE};
use frame_ast::script::Order;
use frame_grammar::TokenAt;
use job_base::limits::MOST_ELEMENTS;
use script_names::Names;
use script_text::{RawNumber, Source};
use std::alloc::Global;

#[inline(always)]
pub fn put(
    source: Source<'_>,
    names: &Names<'_>,
    name: TokenAt,
    key: RawNumber,
    value: RawNumber,
) -> Result<Order, OrderFault>
    ensures { Checked source.entry (bare names.now) 0 0 (Put name key value) result }
{
    let name = resolve(source, names, &[NameKind::Map], name)?;
    let key = signed_number(source, key)?;
    let value = signed_number(source, value)?;
    Ok(Order::Put { name, key, value })
}

#[inline(always)]
pub fn remove(
    source: Source<'_>,
    names: &Names<'_>,
    name: TokenAt,
    at: RawNumber,
) -> Result<Order, OrderFault>
    ensures { Checked source.entry (bare names.now) 0 0 (Remove name at) result }
{
    let name = resolve(source, names, &REMOVABLE, name)?;
    let at = signed_number(source, at)?;
    Ok(Order::Remove { name, at })
}

pub fn clear(source: Source<'_>, names: &Names<'_>, name: TokenAt) -> Result<Order, OrderFault>
    ensures { Checked source.entry (bare names.now) 0 0 (Clear name) result }
{
    let name = resolve(source, names, &CLEARABLE, name)?;
    Ok(Order::Clear { name })
}

pub fn set_capacity(
    source: Source<'_>,
    names: &Names<'_>,
    name: TokenAt,
    cap: TokenAt,
) -> Result<Order, OrderFault>
    ensures { Checked source.entry (bare names.now) 0 0 (SetCapacity name cap) result }
{
    let name = resolve(source, names, &[NameKind::List], name)?;
    let cap = number_within(source, 0, MOST_ELEMENTS, cap)?;
    Ok(Order::SetCapacity { name, cap })
}

#[inline(always)]
pub fn print(source: Source<'_>, names: &Names<'_>, name: TokenAt) -> Result<Order, OrderFault>
    ensures { Checked source.entry (bare names.now) 0 0 (Print name) result }
{
    let name = resolve(source, names, &CONTAINERS, name)?;
    Ok(Order::Print { name })
}

#[inline(never)]
pub fn dispose(
    alloc: Global,
    source: Source<'_>,
    names: &Names<'_>,
    name: TokenAt,
    after: &[TokenAt],
    handle: Option<TokenAt>,
) -> Result<Order, OrderFault>
    ensures { Checked source.entry (bare names.now) 0 0 (Dispose name after.now handle) result }
{
    let name = resolve(source, names, &DISPOSABLE, name)?;
    let after = resolve_handles(alloc, source, names, after)?;
    let handle = made_as(source, names, handle)?;
    Ok(Order::Dispose {
        name,
        after,
        handle,
    })
}

// The handle after `as`, where there is one.
fn made_as(
    source: Source<'_>,
    names: &Names<'_>,
    handle: Option<TokenAt>,
) -> Result<Option<u32>, OrderFault>
    ensures { Gives (first_some (as_faults source.entry names.now handle))
        (λ place. place ≡ option_map (place_of source.entry
        (names_with source.entry names.now (made_as handle))) handle) result }
{
    match handle {
        None => Ok(None),
        Some(at) => {
            let place = declare(source, names, NameKind::Handle, at)?;
            Ok(Some(place))
        }
    }
}

pub fn dispose_auto(
    source: Source<'_>,
    names: &Names<'_>,
    name: TokenAt,
    handle: TokenAt,
) -> Result<Order, OrderFault>
    ensures { Checked source.entry (bare names.now) 0 0 (DisposeAuto name handle) result }
{
    let name = resolve(source, names, &DISPOSABLE, name)?;
    let handle = declare(source, names, NameKind::Handle, handle)?;
    Ok(Order::DisposeAuto { name, handle })
}

// What a `set` with or without an index takes.
#[inline(always)]
fn settable(
    source: Source<'_>,
    names: &Names<'_>,
    index: &Option<RawNumber>,
    name: TokenAt,
) -> Result<u32, OrderFault>
    ensures { Decides (use_fault source.entry names.now (set_kinds index.now) name)
        (IsPlace source.entry names.now name) result }
{
    match index {
        None => resolve(source, names, &[NameKind::Reference], name),
        Some(_) => resolve(source, names, &HAS_ELEMENTS, name),
    }
}

// What an `add` with or without a second number takes.
#[inline(always)]
fn addable(
    source: Source<'_>,
    names: &Names<'_>,
    second: &Option<RawNumber>,
    name: TokenAt,
) -> Result<u32, OrderFault>
    ensures { Decides (use_fault source.entry names.now (add_kinds second.now) name)
        (IsPlace source.entry names.now name) result }
{
    match second {
        None => resolve(source, names, &[NameKind::List], name),
        Some(_) => resolve(source, names, &[NameKind::Map], name),
    }
}

#[inline(always)]
pub fn set(
    source: Source<'_>,
    names: &Names<'_>,
    name: TokenAt,
    at: Option<RawNumber>,
    value: RawNumber,
) -> Result<Order, OrderFault>
    ensures { Checked source.entry (bare names.now) 0 0 (Set name at value) result }
{
    let name = settable(source, names, &at, name)?;
    let at = maybe_signed_number(source, at)?;
    let value = signed_number(source, value)?;
    Ok(Order::Set { name, at, value })
}

#[inline(always)]
pub fn add(
    source: Source<'_>,
    names: &Names<'_>,
    name: TokenAt,
    first: RawNumber,
    second: Option<RawNumber>,
) -> Result<Order, OrderFault>
    ensures { Checked source.entry (bare names.now) 0 0 (Add name first second) result }
{
    let name = addable(source, names, &second, name)?;
    let first = signed_number(source, first)?;
    let second = maybe_signed_number(source, second)?;
    Ok(Order::Add {
        name,
        first,
        second,
    })
}

pub fn complete(source: Source<'_>, names: &Names<'_>, name: TokenAt) -> Result<Order, OrderFault>
    ensures { Checked source.entry (bare names.now) 0 0 (Complete false name) result }
{
    let name = resolve(source, names, &[NameKind::Handle], name)?;
    Ok(Order::Complete { name })
}

pub fn complete_auto(
    source: Source<'_>,
    names: &Names<'_>,
    name: TokenAt,
) -> Result<Order, OrderFault>
    ensures { Checked source.entry (bare names.now) 0 0 (Complete true name) result }
{
    let name = resolve(source, names, &CONTAINERS, name)?;
    Ok(Order::CompleteAuto { name })
}

/// `complete` with a handle, or with a container.
pub fn complete_either(
    source: Source<'_>,
    names: &Names<'_>,
    auto: bool,
    name: TokenAt,
) -> Result<Order, OrderFault>
    ensures { Checked source.entry (bare names.now) 0 0 (Complete auto name) result }
{
    if auto {
        return complete_auto(source, names, name);
    }
    complete(source, names, name)
}

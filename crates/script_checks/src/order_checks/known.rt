//! The checks of the statements that many lines of long scripts are. A name that such a statement makes is known at
//! once, so it is looked up once.

ghost use Rattle.std.specs.Prelude.{◌≡◌, Some, None, []};
ghost use Rattle.script_text.specs.Raw.{NewArray, NewList, NewReference, NewMap, Slice, View, Dispose};
ghost use Rattle.script_text.specs.Known.{known_form, plain};
ghost use Rattle.frame_ast.specs.declared.script.Life.TheVariants.{Persistent};
ghost use Rattle.script_checks.specs.Faults.{make_fault};
ghost use Rattle.script_checks.specs.Spelling.{place_of, names_with};
ghost use Rattle.script_checks.specs.Checks.{Checked, Makes, bare, Gives};

use super::{changes, makes};
use crate::OrderFault;
use crate::checks::{check_text_length, is_among, number_within, refuse, resolve, signed_number};
use frame_ast::kernel::FaultKind;
use frame_ast::name_kind::{DISPOSABLE, NameKind};
use frame_ast::script::{Life, Order};
use frame_grammar::TokenAt;
use job_base::limits::{MOST_ELEMENTS, MOST_PAIRS};
use script_names::Names;
use script_text::{KnownOrder, RawNumber, Source};
use std::alloc::Global;

// A number without a `-`.
#[inline(always)]
fn plain(at: TokenAt) -> RawNumber
    ensures { result ≡ plain at }
{
    RawNumber { minus: false, at }
}

/// Makes a name, for the first time or again in the same kind. Answers its place.
#[inline(always)]
fn declare_name<'a>(
    source: Source<'a>,
    names: &mut Names<'a>,
    kind: NameKind,
    at: TokenAt,
) -> Result<u32, OrderFault>
    ensures { Gives (make_fault source.entry names.old kind at)
        (λ place. (place ≡ place_of source.entry names.new at)
        × (names.new ≡ names_with source.entry names.old (Some (at, kind)))) result }
{
    let text = source.text(at);
    let (place, known) = names.find_or_make(text, kind)?;
    if !is_among(known, &[kind]) {
        return refuse(FaultKind::KindMismatch, at);
    }
    check_text_length(text, at)?;
    Ok(place)
}

#[inline(always)]
fn array<'a>(
    source: Source<'a>,
    names: &mut Names<'a>,
    name: TokenAt,
    len: TokenAt,
) -> Result<Order, OrderFault>
    ensures { Makes source.entry names.old names.new (NewArray name len Persistent None) result }
{
    let name = declare_name(source, names, NameKind::Array, name)?;
    let len = number_within(source, 0, MOST_ELEMENTS, len)?;
    Ok(Order::Array {
        name,
        len,
        life: Life::Persistent,
        values: None,
    })
}

#[inline(always)]
fn list<'a>(
    source: Source<'a>,
    names: &mut Names<'a>,
    name: TokenAt,
    cap: TokenAt,
) -> Result<Order, OrderFault>
    ensures { Makes source.entry names.old names.new (NewList name cap Persistent) result }
{
    let name = declare_name(source, names, NameKind::List, name)?;
    let cap = number_within(source, 0, MOST_ELEMENTS, cap)?;
    Ok(Order::List {
        name,
        cap,
        life: Life::Persistent,
    })
}

#[inline(always)]
fn reference<'a>(
    source: Source<'a>,
    names: &mut Names<'a>,
    name: TokenAt,
    value: TokenAt,
) -> Result<Order, OrderFault>
    ensures { Makes source.entry names.old names.new (NewReference name Persistent (Some (plain value))) result }
{
    let name = declare_name(source, names, NameKind::Reference, name)?;
    let value = signed_number(source, plain(value))?;
    Ok(Order::Reference {
        name,
        life: Life::Persistent,
        value: Some(value),
    })
}

#[inline(always)]
fn map<'a>(
    source: Source<'a>,
    names: &mut Names<'a>,
    name: TokenAt,
    cap: TokenAt,
) -> Result<Order, OrderFault>
    ensures { Makes source.entry names.old names.new (NewMap name cap Persistent) result }
{
    let name = declare_name(source, names, NameKind::Map, name)?;
    let cap = number_within(source, 0, MOST_PAIRS, cap)?;
    Ok(Order::Map {
        name,
        cap,
        life: Life::Persistent,
    })
}

// Of what it is a slice is looked up before its own name is made.
#[inline(always)]
fn slice<'a>(
    source: Source<'a>,
    names: &mut Names<'a>,
    name: TokenAt,
    of: TokenAt,
    start: TokenAt,
    len: TokenAt,
) -> Result<Order, OrderFault>
    ensures { Makes source.entry names.old names.new (Slice name of start len) result }
{
    let act = makes::slice(source, names, name, of, start, len)?;
    declare_name(source, names, NameKind::Slice, name)?;
    Ok(act)
}

#[inline(always)]
fn view<'a>(
    source: Source<'a>,
    names: &mut Names<'a>,
    name: TokenAt,
    of: TokenAt,
) -> Result<Order, OrderFault>
    ensures { Makes source.entry names.old names.new (View name of) result }
{
    let act = makes::view(source, names, name, of)?;
    declare_name(source, names, NameKind::View, name)?;
    Ok(act)
}

#[inline(always)]
fn dispose(
    alloc: Global,
    source: Source<'_>,
    names: &Names<'_>,
    name: TokenAt,
) -> Result<Order, OrderFault>
    ensures { Checked source.entry (bare names.now) 0 0 (Dispose name [] None) result }
{
    let name = resolve(source, names, &DISPOSABLE, name)?;
    Ok(Order::Dispose {
        name,
        after: Vec::new(alloc),
        handle: None,
    })
}

/// The check of such a statement, whose name is known after it where it makes one.
#[inline(always)]
pub fn check_known<'a>(
    alloc: Global,
    source: Source<'a>,
    names: &mut Names<'a>,
    order: KnownOrder,
) -> Result<Order, OrderFault>
    ensures { Makes source.entry names.old names.new (known_form order) result }
{
    match order {
        KnownOrder::Array { name, len } => array(source, names, name, len),
        KnownOrder::List { name, cap } => list(source, names, name, cap),
        KnownOrder::Reference { name, value } => reference(source, names, name, value),
        KnownOrder::Map { name, cap } => map(source, names, name, cap),
        KnownOrder::Slice {
            name,
            of,
            start,
            len,
        } => slice(source, names, name, of, start, len),
        KnownOrder::View { name, of } => view(source, names, name, of),
        KnownOrder::Set { name, at, value } => {
            changes::set(source, names, name, Some(plain(at)), plain(value))
        }
        KnownOrder::Add { name, value } => changes::add(source, names, name, plain(value), None),
        KnownOrder::Put { name, key, value } => {
            changes::put(source, names, name, plain(key), plain(value))
        }
        KnownOrder::Remove { name, at } => changes::remove(source, names, name, plain(at)),
        KnownOrder::Dispose { name } => dispose(alloc, source, names, name),
        KnownOrder::Print { name } => changes::print(source, names, name),
        KnownOrder::Flush => Ok(Order::Flush),
    }
}

//! The statements that make containers.

ghost use Rattle.std.specs.Prelude.{◌≡◌, ⊤, Some, None, [], map};
ghost use Rattle.frame_ast.specs.Lists.{first_some};
ghost use Rattle.frame_parser.specs.Notes.{events_of};
ghost use Rattle.script_text.specs.Raw.{values_of, NewArray, NewColumn, NewList, NewReference, NewMap, NewStream, Slice, View, Copy, Combine};
ghost use Rattle.frame_ast.specs.declared.name_kind.NameKind.TheVariants.{Array};
ghost use Rattle.script_checks.specs.Faults.{order_faults, count_fault};
ghost use Rattle.script_text.specs.Sources.{signed_at};
ghost use Rattle.script_checks.specs.Spelling.{Says, names_with};
ghost use Rattle.script_checks.specs.Checks.{Checked, bare, valued_form, Gives, Decides};

use crate::OrderFault;
use crate::checks::{
    check_length, declare, is_among, maybe_signed_number, number_within, refuse, resolve,
    resolve_handles, short_column,
};
use crate::values::signed_values;
use frame_ast::kernel::FaultKind;
use frame_ast::name_kind::{CONTAINERS, NameKind, SLICEABLE};
use frame_ast::script::{Life, Order};
use frame_grammar::TokenAt;
use frame_parser::Note;
use job_base::limits::{MOST_ELEMENTS, MOST_PAIRS, MOST_STREAM_INDEXES, MOST_STREAM_ITEMS};
use script_names::Names;
use script_text::{RawNumber, Source, count_values};
use std::alloc::Global;

// An array that is given values has as many as its length says.
fn check_value_count(source: Source<'_>, at: TokenAt, values: &[Note]) -> Result<(), OrderFault>
    ensures { Decides (count_fault source.entry at (Some (values_of (events_of values.now)))) (λ _. ⊤) result }
{
    if source.number(at) == count_values(values) as u64 {
        Ok(())
    } else {
        refuse(FaultKind::KindMismatch, at)
    }
}

/// An array without values.
pub fn array(
    source: Source<'_>,
    names: &Names<'_>,
    name: TokenAt,
    len: TokenAt,
    life: Life,
) -> Result<Order, OrderFault>
    ensures { Checked source.entry (bare names.now) 0 0 (NewArray name len life None) result }
{
    let name = declare(source, names, NameKind::Array, name)?;
    let len = number_within(source, 0, MOST_ELEMENTS, len)?;
    Ok(Order::Array {
        name,
        len,
        life,
        values: None,
    })
}

/// An array with values, which become one more list of them.
#[derive(Clone, Copy)]
pub struct Valued<'a> {
    pub name: TokenAt,
    pub len: TokenAt,
    pub life: Life,
    /// The notes of its values.
    pub values: &'a [Note],
}

/// An array with values, after so many lists of values; and its own list.
#[inline(never)]
pub fn valued_array(
    alloc: Global,
    source: Source<'_>,
    names: &Names<'_>,
    literals: u32,
    text: Valued<'_>,
) -> Result<(Order, Vec<i64>), OrderFault>
    ensures { Gives (first_some (order_faults source.entry (bare names.now) 0 (valued_form text.entry)))
        (λ r. Says source.entry (names_with source.entry names.now (Some (text.entry.name, Array))) [] literals 0
        (valued_form text.entry) r.0
        × (r.1.items ≡ map (signed_at source.entry) (values_of (events_of text.entry.values.now)))) result }
{
    let name = declare(source, names, NameKind::Array, text.name)?;
    check_value_count(source, text.len, text.values)?;
    let len = number_within(source, 0, MOST_ELEMENTS, text.len)?;
    let values = signed_values(alloc, source, text.values, len)?;
    let order = Order::Array {
        name,
        len,
        life: text.life,
        values: Some(literals),
    };
    Ok((order, values))
}

pub fn list(
    source: Source<'_>,
    names: &Names<'_>,
    name: TokenAt,
    cap: TokenAt,
    life: Life,
) -> Result<Order, OrderFault>
    ensures { Checked source.entry (bare names.now) 0 0 (NewList name cap life) result }
{
    let name = declare(source, names, NameKind::List, name)?;
    let cap = number_within(source, 0, MOST_ELEMENTS, cap)?;
    Ok(Order::List { name, cap, life })
}

pub fn reference(
    source: Source<'_>,
    names: &Names<'_>,
    name: TokenAt,
    life: Life,
    value: Option<RawNumber>,
) -> Result<Order, OrderFault>
    ensures { Checked source.entry (bare names.now) 0 0 (NewReference name life value) result }
{
    let name = declare(source, names, NameKind::Reference, name)?;
    let value = maybe_signed_number(source, value)?;
    Ok(Order::Reference { name, life, value })
}

pub fn map(
    source: Source<'_>,
    names: &Names<'_>,
    name: TokenAt,
    cap: TokenAt,
    life: Life,
) -> Result<Order, OrderFault>
    ensures { Checked source.entry (bare names.now) 0 0 (NewMap name cap life) result }
{
    let name = declare(source, names, NameKind::Map, name)?;
    let cap = number_within(source, 0, MOST_PAIRS, cap)?;
    Ok(Order::Map { name, cap, life })
}

pub fn stream(
    source: Source<'_>,
    names: &Names<'_>,
    name: TokenAt,
    count: TokenAt,
    room: TokenAt,
    life: Life,
) -> Result<Order, OrderFault>
    ensures { Checked source.entry (bare names.now) 0 0 (NewStream name count room life) result }
{
    let name = declare(source, names, NameKind::Stream, name)?;
    let count = number_within(source, 0, MOST_STREAM_INDEXES, count)?;
    let room = number_within(source, 0, MOST_STREAM_ITEMS, room)?;
    Ok(Order::Stream {
        name,
        count,
        room,
        life,
    })
}

pub fn slice(
    source: Source<'_>,
    names: &Names<'_>,
    name: TokenAt,
    of: TokenAt,
    start: TokenAt,
    len: TokenAt,
) -> Result<Order, OrderFault>
    ensures { Checked source.entry (bare names.now) 0 0 (Slice name of start len) result }
{
    let name = declare(source, names, NameKind::Slice, name)?;
    let of = resolve(source, names, &SLICEABLE, of)?;
    let start = number_within(source, 0, MOST_ELEMENTS, start)?;
    let len = number_within(source, 0, MOST_ELEMENTS, len)?;
    Ok(Order::Slice {
        name,
        of,
        start,
        len,
    })
}

pub fn view(
    source: Source<'_>,
    names: &Names<'_>,
    name: TokenAt,
    of: TokenAt,
) -> Result<Order, OrderFault>
    ensures { Checked source.entry (bare names.now) 0 0 (View name of) result }
{
    let name = declare(source, names, NameKind::View, name)?;
    let of = resolve(source, names, &[NameKind::List], of)?;
    Ok(Order::View { name, of })
}

#[inline(never)]
pub fn column(
    alloc: Global,
    source: Source<'_>,
    names: &Names<'_>,
    name: TokenAt,
    column: TokenAt,
    life: Life,
) -> Result<Order, OrderFault>
    ensures { Checked source.entry (bare names.now) 0 0 (NewColumn name column life) result }
{
    let name = declare(source, names, NameKind::Array, name)?;
    let text = short_column(source, column)?;
    let column = Vec::from_slice(alloc, text)?;
    Ok(Order::Column { name, column, life })
}

pub fn copy(
    source: Source<'_>,
    names: &Names<'_>,
    name: TokenAt,
    of: TokenAt,
) -> Result<Order, OrderFault>
    ensures { Checked source.entry (bare names.now) 0 0 (Copy name of) result }
{
    let Some((place, kind)) = names.get(source.text(of)) else {
        check_length(source, name)?;
        return refuse(FaultKind::UnknownName, of);
    };
    if !is_among(kind, &CONTAINERS) {
        check_length(source, name)?;
        return refuse(FaultKind::KindMismatch, of);
    }
    let name = declare(source, names, kind, name)?;
    Ok(Order::Copy { name, of: place })
}

#[inline(never)]
pub fn combine(
    alloc: Global,
    source: Source<'_>,
    names: &Names<'_>,
    name: TokenAt,
    of: &[TokenAt],
) -> Result<Order, OrderFault>
    ensures { Checked source.entry (bare names.now) 0 0 (Combine name of.now) result }
{
    let name = declare(source, names, NameKind::Handle, name)?;
    let of = resolve_handles(alloc, source, names, of)?;
    Ok(Order::Combine { name, of })
}

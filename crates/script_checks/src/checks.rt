//! The checks of single tokens: numbers, names that are used, and names that are made.

ghost use Rattle.std.specs.Prelude.{◌≡◌, ℕ, map, ◌<◌, ◌-◌, ◌^◌, ⊤, Some, None, nat_le, length, IfOk, IfErr, MatchResult, min};
ghost use Rattle.std.specs.Option.{option_map};
ghost use Rattle.frame_ast.specs.Lists.{first_some};
ghost use Rattle.script_text.specs.Sources.{text_at, number_at, signed_at, column_at};
ghost use Rattle.frame_ast.specs.Accepted.{is_among};
ghost use Rattle.script_checks.specs.Faults.{limit_fault, signed_fault, handles_faults, column_fault, unless, use_fault, make_fault, long_fault, value_fault};
ghost use Rattle.frame_ast.specs.declared.kernel.FaultKind.TheVariants.{Limit};
ghost use Rattle.job_base.specs.declared.limits.TheConstants.{MOST_NAME_BYTES};
ghost use Rattle.script_checks.specs.Spelling.{place_of, names_with};
ghost use Rattle.script_checks.specs.Checks.{IsPlace, ArePlaces, Gives, Decides};

use crate::OrderFault;
use frame_ast::kernel::FaultKind;
use frame_ast::name_kind::NameKind;
use frame_grammar::TokenAt;
use job_base::limits::{MOST_COLUMN_BYTES, MOST_NAME_BYTES};
use kernel_raw::StaticFault;
use script_names::Names;
use script_text::{RawNumber, Source};
use std::alloc::Global;

/// The refusal by this fault.
pub fn refuse<T>(kind: FaultKind, at: TokenAt) -> Result<T, OrderFault>
    ensures { result ≡ Err (OrderFault.Refused (record { at = at; kind = kind })) }
{
    Err(OrderFault::Refused(StaticFault { at, kind }))
}

/// A Number within limits.
#[inline(always)]
pub fn number_within(
    source: Source<'_>,
    least: u32,
    most: u32,
    at: TokenAt,
) -> Result<u32, OrderFault>
    ensures { Decides (limit_fault source.entry least most at) (λ n. n ≡ number_at source.entry at) result }
{
    let number = source.number(at);
    if number < u64::from(least) || number > u64::from(most) {
        return refuse(FaultKind::Limit, at);
    }
    Ok(number as u32)
}

/// A signed number of 64 bits.
#[inline(always)]
pub fn signed_number(source: Source<'_>, number: RawNumber) -> Result<i64, OrderFault>
    ensures { Decides (signed_fault source.entry number) (λ z. z ≡ signed_at source.entry number) result }
{
    let value = source.number(number.at);
    let value = if number.minus {
        0i64.checked_sub_unsigned(value)
    } else {
        i64::try_from(value).ok()
    };
    match value {
        None => refuse(FaultKind::Limit, number.at),
        Some(value) => Ok(value),
    }
}

/// Whether the kind is among these.
#[inline(always)]
pub fn is_among(kind: NameKind, kinds: &[NameKind]) -> bool
    ensures { result ≡ is_among kind kinds.now }
{
    kinds.iter().any(|known| kind == *known)
}

/// The text of a name that isn't too long.
#[inline(always)]
pub fn check_text_length(text: &[u8], at: TokenAt) -> Result<(), OrderFault>
    ensures { Decides (unless (nat_le (length text.now) MOST_NAME_BYTES) Limit at) (λ _. ⊤) result }
{
    if text.len() > MOST_NAME_BYTES as usize {
        return refuse(FaultKind::Limit, at);
    }
    Ok(())
}

/// A name that isn't too long.
pub fn check_length(source: Source<'_>, at: TokenAt) -> Result<(), OrderFault>
    ensures { Decides (long_fault source.entry at) (λ _. ⊤) result }
{
    check_text_length(source.text(at), at)
}

/// The place of a name that is known, and of one of these kinds.
#[inline(always)]
pub fn resolve(
    source: Source<'_>,
    names: &Names<'_>,
    kinds: &[NameKind],
    at: TokenAt,
) -> Result<u32, OrderFault>
    ensures { Decides (use_fault source.entry names.now kinds.now at) (IsPlace source.entry names.now at) result }
{
    let Some((place, kind)) = names.get(source.text(at)) else {
        return refuse(FaultKind::UnknownName, at);
    };
    if !is_among(kind, kinds) {
        return refuse(FaultKind::KindMismatch, at);
    }
    Ok(place)
}

/// The place of a name that is made, for the first time or again in the same kind.
pub fn declare(
    source: Source<'_>,
    names: &Names<'_>,
    kind: NameKind,
    at: TokenAt,
) -> Result<u32, OrderFault>
    ensures { Gives (make_fault source.entry names.now kind at)
        (λ place. place ≡ place_of source.entry (names_with source.entry names.now (Some (at, kind))) at) result }
{
    let text = source.text(at);
    let Some((place, known)) = names.get(text) else {
        check_text_length(text, at)?;
        return Ok(names.len());
    };
    if !is_among(known, &[kind]) {
        return refuse(FaultKind::KindMismatch, at);
    }
    check_text_length(text, at)?;
    Ok(place)
}

/// A signed number of 64 bits, where one is given.
pub fn maybe_signed_number(
    source: Source<'_>,
    number: Option<RawNumber>,
) -> Result<Option<i64>, OrderFault>
    ensures { Decides (value_fault source.entry number) (λ z. z ≡ option_map (signed_at source.entry) number) result }
{
    match number {
        None => Ok(None),
        Some(number) => match signed_number(source, number) {
            Ok(value) => Ok(Some(value)),
            Err(fault) => Err(fault),
        },
    }
}

/// The places of handles that are known.
pub fn resolve_handles(
    alloc: Global,
    source: Source<'_>,
    names: &Names<'_>,
    handles: &[TokenAt],
) -> Result<Vec<u32>, OrderFault>
    ensures { Gives (first_some (handles_faults source.entry names.now handles.now))
        (λ places. ArePlaces source.entry names.now handles.now places.items) result }
{
    let mut places = Vec::new(alloc);
    for handle in handles {
        let place = resolve(source, names, &[NameKind::Handle], *handle)?;
        places.push(place)?;
    }
    Ok(places)
}

/// The Text of a column, without its quotes, where it isn't too long.
pub fn short_column<'a>(source: Source<'a>, at: TokenAt) -> Result<&'a [u8], OrderFault>
    ensures { Decides (column_fault source.entry at) (λ text. text.now ≡ column_at source.entry at) result }
{
    let text = source.column(at);
    if text.len() > MOST_COLUMN_BYTES as usize {
        return refuse(FaultKind::Limit, at);
    }
    Ok(text)
}

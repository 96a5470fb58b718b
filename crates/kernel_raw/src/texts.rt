//! What the tokens of a kernel say: their kinds, their bytes, their lines, the values of Numbers.

ghost use Rattle.std.specs.Prelude.{◌≡◌, ◌<◌, ◌≤◌, ◌+◌, ◌^◌, min, nat_lt, length};
ghost use Rattle.std.specs.Str.{bytes_eq};
ghost use Rattle.kernel_raw.specs.RawTexts.{kind_at, text_at, line_at, value_at};

use crate::RawKernel;
use frame_grammar::{TokenAt, TokenKind};

/// The kind of the token at a place.
#[inline]
pub fn kind_at(raw: &RawKernel<'_>, at: TokenAt) -> TokenKind
    ensures { result ≡ kind_at raw.now at }
{
    match raw.marks.get(at.index()) {
        Some(mark) => mark.kind(),
        None => TokenKind::End,
    }
}

/// The bytes of the token at a place.
#[inline]
pub fn text_at<'a>(raw: &RawKernel<'a>, at: TokenAt) -> &'a [u8]
    ensures { result.now ≡ text_at raw.now at }
{
    match raw.marks.get(at.index()) {
        Some(mark) => mark.text(raw.source),
        None => &[],
    }
}

/// Whether the token at a place is spelled so.
#[inline]
pub fn is_spelled(raw: &RawKernel<'_>, at: TokenAt, name: &[u8]) -> bool
    ensures { result ≡ bytes_eq (text_at raw.now at) name.now }
{
    match raw.marks.get(at.index()) {
        Some(mark) => mark.is_spelled(raw.source, name),
        None => name.is_empty(),
    }
}

/// The line of the token at a place, counted from 1.
pub fn line_at(raw: &RawKernel<'_>, at: TokenAt) -> u32
    requires { raw.now.line + length raw.now.marks.now < 2 ^ 32 }
    ensures { result ≡ line_at raw.now at }
{
    kernel_text::line_at(raw.marks, raw.line, at)
}

/// The value of the Number at a place, or 2 ^ 64 - 1 where it is greater.
#[inline]
pub fn value_at(raw: &RawKernel<'_>, at: TokenAt) -> u64
    ensures { result ≡ min 18446744073709551615 (value_at raw.now at) }
{
    match raw.marks.get(at.index()) {
        Some(mark) => mark.value(raw.source),
        None => 0,
    }
}

/// Whether the value of the Number at a place is greater than this one, which has more digits than four.
#[inline(always)]
pub fn is_above(raw: &RawKernel<'_>, at: TokenAt, most: u64) -> bool
    requires great { 9999 ≤ most }
    requires fits { most < 18446744073709551615 }
    ensures { result ≡ nat_lt most (value_at raw.now at) }
{
    match raw.marks.get(at.index()) {
        Some(mark) => mark.is_above(raw.source, most),
        None => false,
    }
}

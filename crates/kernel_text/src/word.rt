//! The word that stands at a place of a file.

ghost use Rattle.std.specs.Prelude.{◌≡◌, ◌<◌, ◌≤◌, ◌+◌, ◌↔◌, None, IfSome, ◌∷◌, [], length, drop, slice_index};
ghost use Rattle.std.specs.List.{prefix_len};
ghost use Rattle.std.specs.Char.{is_ascii_digit};
ghost use Rattle.kernel_text.specs.Words.{continues_name, stands_in_text, stays_in_line, is_blank};
ghost use Rattle.kernel_text.specs.declared.word.TheConstants.{KINDS_BEGUN};
ghost use Rattle.kernel_text.specs.Tokens.{front_kind, front_len};
ghost use Rattle.kernel_text.specs.Fronts.{IsOther, IsTokenAt, kind_begun};
ghost use Rattle.frame_grammar.specs.declared.token_kind.TokenKind.TheVariants.{Bad};

use crate::spelling::{pair_symbol, single_symbol, word_kind};
use frame_grammar::TokenKind;
use frame_grammar::TokenKind::{
    Bad as X, CloseBrace, CloseBracket as EndSquare, CloseParen, Colon, Comma, Line, Minus,
    Name as N, Number as D, OpenBrace, OpenBracket as OpenSquare, OpenParen, Percent, Plus,
    Semicolon, Slash, Star,
};

/// What stands at a place of a file.
#[derive(Clone, Copy, Debug, PartialEq, Eq)]
pub struct Front {
    /// The kind of the token that stands there, or none where it is no token but separates tokens.
    pub kind: Option<TokenKind>,
    /// The place after its last byte.
    pub end: usize,
}

/// A token that its first byte tells.
#[derive(Clone, Copy, Debug, PartialEq, Eq)]
pub struct Begun {
    /// Its kind.
    pub kind: TokenKind,
    /// The place after its last byte.
    pub end: usize,
}

/// The kind of the token that begins with each byte: `N` with a letter a name, `D` with a digit a number, and `X`,
/// which is `Bad`, where the byte alone doesn't tell it.
const KINDS_BEGUN: [TokenKind; 256] = [
    X, X, X, X, X, X, X, X, X, X, Line, X, X, X, X, X, // 0x00
    X, X, X, X, X, X, X, X, X, X, X, X, X, X, X, X, // 0x10
    X, X, X, X, X, Percent, X, X, OpenParen, CloseParen, Star, Plus, Comma, Minus, X, Slash, // 0x20
    D, D, D, D, D, D, D, D, D, D, Colon, Semicolon, X, X, X, X, // 0x30
    X, N, N, N, N, N, N, N, N, N, N, N, N, N, N, N, // 0x40
    N, N, N, N, N, N, N, N, N, N, N, OpenSquare, X, EndSquare, X, N, // 0x50
    X, N, N, N, N, N, N, N, N, N, N, N, N, N, N, N, // 0x60
    N, N, N, N, N, N, N, N, N, N, N, OpenBrace, X, CloseBrace, X, X, // 0x70
    X, X, X, X, X, X, X, X, X, X, X, X, X, X, X, X, // 0x80
    X, X, X, X, X, X, X, X, X, X, X, X, X, X, X, X, // 0x90
    X, X, X, X, X, X, X, X, X, X, X, X, X, X, X, X, // 0xA0
    X, X, X, X, X, X, X, X, X, X, X, X, X, X, X, X, // 0xB0
    X, X, X, X, X, X, X, X, X, X, X, X, X, X, X, X, // 0xC0
    X, X, X, X, X, X, X, X, X, X, X, X, X, X, X, X, // 0xD0
    X, X, X, X, X, X, X, X, X, X, X, X, X, X, X, X, // 0xE0
    X, X, X, X, X, X, X, X, X, X, X, X, X, X, X, X, // 0xF0
];

fn kinds_begun() -> &'static [TokenKind]
    ensures { result.now ≡ KINDS_BEGUN }
{
    &KINDS_BEGUN
}

/// The kind of the token that begins with this byte, or `Bad` where the byte alone doesn't tell it.
// By a table: of all tokens half are symbols, which a chain of tests tells last.
#[inline(always)]
fn kind_begun(byte: u8) -> TokenKind
    ensures { result ≡ kind_begun byte }
{
    kinds_begun()[byte as usize]
}

/// Whether a byte continues a name.
pub fn continues_name(byte: u8) -> bool
    ensures { result ≡ continues_name byte }
{
    matches!(kind_begun(byte), TokenKind::Name | TokenKind::Number)
}

fn stands_in_text(byte: u8) -> bool
    ensures { result ≡ stands_in_text byte }
{
    0x20 <= byte && byte <= 0x7E && byte != b'"'
}

/// Whether a byte is a space, a tab or a carriage return.
#[tactic(auto, unfolding(crate::specs::Words::is_blank))]
pub fn is_blank(byte: u8) -> bool
    ensures { result ≡ is_blank (byte ∷ []) }
{
    byte == b' ' || byte == b'\t' || byte == b'\r'
}

/// The place after the bytes that continue a name from a place on.
fn name_end(source: &[u8], from: usize) -> usize
    requires { from ≤ length source.now }
    ensures run { result ≡ from + prefix_len continues_name (drop from source.now) }
    ensures within { result ≤ length source.now }
{
    let mut end = from;
    let mut rest = &source[from..];
    // Four at a turn, with one look at where the file ends.
    while rest.len() >= 4 {
        if !continues_name(rest[0]) {
            return end;
        }
        if !continues_name(rest[1]) {
            return end + 1;
        }
        if !continues_name(rest[2]) {
            return end + 2;
        }
        if !continues_name(rest[3]) {
            return end + 3;
        }
        end += 4;
        rest = &rest[4..];
    }
    for byte in rest {
        if !continues_name(*byte) {
            return end;
        }
        end += 1;
    }
    end
}

/// The place after the digits from a place on.
fn digits_end(source: &[u8], from: usize) -> usize
    requires { from ≤ length source.now }
    ensures run { result ≡ from + prefix_len is_ascii_digit (drop from source.now) }
    ensures within { result ≤ length source.now }
{
    let mut end = from;
    let mut rest = &source[from..];
    // Four at a turn, with one look at where the file ends.
    while rest.len() >= 4 {
        if !rest[0].is_ascii_digit() {
            return end;
        }
        if !rest[1].is_ascii_digit() {
            return end + 1;
        }
        if !rest[2].is_ascii_digit() {
            return end + 2;
        }
        if !rest[3].is_ascii_digit() {
            return end + 3;
        }
        end += 4;
        rest = &rest[4..];
    }
    for byte in rest {
        if !byte.is_ascii_digit() {
            return end;
        }
        end += 1;
    }
    end
}

/// The place of the next line feed, or the end of the file.
// Comments are rare, and in line this loop would take registers from the lexer's.
#[inline(never)]
fn line_end(source: &[u8], from: usize) -> usize
    requires { from ≤ length source.now }
    ensures run { result ≡ from + prefix_len stays_in_line (drop from source.now) }
    ensures within { result ≤ length source.now }
{
    let mut end = from;
    while end < source.len() && source[end] != b'\n' {
        end += 1;
    }
    end
}

/// The place after the bytes that stand in a text from a place on.
fn text_end(source: &[u8], from: usize) -> usize
    requires { from ≤ length source.now }
    ensures run { result ≡ from + prefix_len stands_in_text (drop from source.now) }
    ensures within { result ≤ length source.now }
{
    let mut end = from;
    while end < source.len() && stands_in_text(source[end]) {
        end += 1;
    }
    end
}

/// The text that the quote at this place begins, or the quote alone where it begins none.
// Out of line as `line_end` is: texts are rare.
#[inline(never)]
fn text_at(source: &[u8], place: usize) -> Front
    requires some { place < length source.now }
    requires quote { slice_index source.now place ≡ 34 }
    ensures kind { result.kind ≡ front_kind (drop place source.now) }
    ensures end { result.end ≡ place + front_len (drop place source.now) }
    ensures within { result.end ≤ length source.now }
    ensures some { place < result.end }
{
    let quote = text_end(source, place + 1);
    if quote > place + 1 && quote < source.len() && source[quote] == b'"' {
        Front {
            kind: Some(TokenKind::Text),
            end: quote + 1,
        }
    } else {
        Front {
            kind: Some(TokenKind::Bad),
            end: place + 1,
        }
    }
}

/// The symbol that stands at this place, or the byte alone where none does.
fn symbol_at(source: &[u8], place: usize) -> Front
    requires some { place < length source.now }
    requires other { IsOther (slice_index source.now place) }
    ensures kind { result.kind ≡ front_kind (drop place source.now) }
    ensures end { result.end ≡ place + front_len (drop place source.now) }
    ensures within { result.end ≤ length source.now }
    ensures some { place < result.end }
{
    let next = place + 1;
    if next < source.len()
        && let Some(kind) = pair_symbol(source[place], source[next])
    {
        return Front {
            kind: Some(kind),
            end: next + 1,
        };
    }
    let kind = single_symbol(source[place]).unwrap_or(TokenKind::Bad);
    Front {
        kind: Some(kind),
        end: next,
    }
}

/// What stands at this place, where its first byte alone doesn't tell it.
// Out of line as `line_end` is: of what it tells only `=` stands often.
#[inline(never)]
fn other_at(source: &[u8], place: usize) -> Front
    requires some { place < length source.now }
    requires other { kind_begun (slice_index source.now place) ≡ Bad }
    ensures kind { result.kind ≡ front_kind (drop place source.now) }
    ensures end { result.end ≡ place + front_len (drop place source.now) }
    ensures within { result.end ≤ length source.now }
    ensures some { place < result.end }
{
    match source[place] {
        b' ' | b'\t' | b'\r' => Front {
            kind: None,
            end: place + 1,
        },
        b'#' => Front {
            kind: None,
            end: line_end(source, place + 1),
        },
        b'"' => text_at(source, place),
        _ => symbol_at(source, place),
    }
}

/// The token that stands at this place, where its first byte alone tells what it is, and none where it doesn't.
// In line in the lexer's loop: it has nearly all tokens from here, and then asks neither whether one is there nor
// whether it is `Bad`.
#[inline(always)]
pub fn begun_at(source: &[u8], place: usize) -> Option<Begun>
    requires { place < length source.now }
    ensures token { IfSome result (λ token. IsTokenAt source.now place token.kind token.end) }
    ensures none { result ≡ None ↔ kind_begun (slice_index source.now place) ≡ Bad }
{
    let kind = kind_begun(source[place]);
    if let TokenKind::Name = kind {
        let end = name_end(source, place + 1);
        return Some(Begun {
            kind: word_kind(&source[place..end]),
            end,
        });
    }
    if let TokenKind::Number = kind {
        return Some(Begun {
            kind: TokenKind::Number,
            end: digits_end(source, place + 1),
        });
    }
    if let TokenKind::Bad = kind {
        return None;
    }
    Some(Begun {
        kind,
        end: place + 1,
    })
}

/// What stands at a place of a file: the longest word, or a byte that begins none.
#[inline(always)]
pub fn front_at(source: &[u8], place: usize) -> Front
    requires { place < length source.now }
    ensures kind { result.kind ≡ front_kind (drop place source.now) }
    ensures end { result.end ≡ place + front_len (drop place source.now) }
    ensures within { result.end ≤ length source.now }
    ensures some { place < result.end }
{
    match begun_at(source, place) {
        Some(token) => Front {
            kind: Some(token.kind),
            end: token.end,
        },
        None => other_at(source, place),
    }
}

/// The place after what stands at a place of a file.
///
/// A name is not looked up among the reserved words, as `front_at` does.
pub fn front_end(source: &[u8], place: usize) -> usize
    requires { place < length source.now }
    ensures end { result ≡ place + front_len (drop place source.now) }
    ensures within { result ≤ length source.now }
{
    match kind_begun(source[place]) {
        TokenKind::Number => digits_end(source, place + 1),
        TokenKind::Name => name_end(source, place + 1),
        TokenKind::Bad => other_at(source, place).end,
        _ => place + 1,
    }
}

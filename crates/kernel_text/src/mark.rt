//! Tokens in 32 bits.
//!
//! The tokens of a whole file stand in memory, so each takes as little as it can: a file has fewer than 2^25 bytes, and
//! there are fewer than 2^7 kinds. Where a token ends is read again in the file, and its line is counted.

ghost use Rattle.std.specs.Prelude.{◌≡◌, ◌<◌, ◌≤◌, ◌^◌, ◌+◌, ℕ, List, length, min, nat_lt, slice_get};
ghost use Rattle.std.specs.Str.{bytes_eq};
ghost use Rattle.kernel_text.specs.declared.mark.TheConstants.{KINDS};
ghost use Rattle.kernel_text.specs.Marks.{kind_numbered, kind_of, start_of, IsOfKind, is_line, token_in, tokens_in, lines_in};
ghost use Rattle.kernel_text.specs.Tokens.{token_line, text_of};
ghost use Rattle.kernel_text.specs.Numbers.{value_of};
ghost use Rattle.kernel_text.specs.Letters.{is_letter};

use crate::decimal::{front_value, value_of};
use crate::word::{continues_name, front_end};
use frame_grammar::{HasKind, TokenAt, TokenKind};

/// How many kinds a mark could tell from each other.
const MOST_KINDS: u32 = 128;

/// A token, as it is kept: in 32 bits.
#[derive(Clone, Copy, Debug, PartialEq, Eq)]
pub struct Mark {
    /// The place of its first byte, times 128, and the number of its kind.
    word: u32,
}

/// The number of a kind, counted from 0 in the order of `TokenKind`.
fn number_of(kind: TokenKind) -> u32
    ensures number { kind_numbered result ≡ kind }
    ensures few { result < length KINDS }
{
    kind as u32
}

// TO ADD A STATEMENT: 1, its reserved word, here and in proofs/Marks.

/// The kinds in the order of their numbers.
const KINDS: [TokenKind; 85] = [
    TokenKind::Name,
    TokenKind::Number,
    TokenKind::Text,
    TokenKind::Line,
    TokenKind::End,
    TokenKind::Bad,
    TokenKind::OpenBrace,
    TokenKind::CloseBrace,
    TokenKind::OpenParen,
    TokenKind::CloseParen,
    TokenKind::OpenBracket,
    TokenKind::CloseBracket,
    TokenKind::Comma,
    TokenKind::Semicolon,
    TokenKind::Colon,
    TokenKind::Assign,
    TokenKind::Equal,
    TokenKind::NotEqual,
    TokenKind::Less,
    TokenKind::LessEqual,
    TokenKind::Greater,
    TokenKind::GreaterEqual,
    TokenKind::Plus,
    TokenKind::Minus,
    TokenKind::Star,
    TokenKind::Slash,
    TokenKind::Percent,
    TokenKind::Not,
    TokenKind::AndAnd,
    TokenKind::OrOr,
    TokenKind::DotDot,
    TokenKind::Job,
    TokenKind::Parallel,
    TokenKind::Ro,
    TokenKind::Wo,
    TokenKind::Rw,
    TokenKind::Int,
    TokenKind::Array,
    TokenKind::List,
    TokenKind::Ref,
    TokenKind::Map,
    TokenKind::Stream,
    TokenKind::By,
    TokenKind::Var,
    TokenKind::If,
    TokenKind::Else,
    TokenKind::For,
    TokenKind::In,
    TokenKind::While,
    TokenKind::Begin,
    TokenKind::Write,
    TokenKind::Add,
    TokenKind::Remove,
    TokenKind::Clear,
    TokenKind::TryAdd,
    TokenKind::Len,
    TokenKind::Has,
    TokenKind::Count,
    TokenKind::At,
    TokenKind::Index,
    TokenKind::Column,
    TokenKind::Reference,
    TokenKind::Slice,
    TokenKind::View,
    TokenKind::Copy,
    TokenKind::Set,
    TokenKind::Put,
    TokenKind::SetCapacity,
    TokenKind::Schedule,
    TokenKind::Waive,
    TokenKind::After,
    TokenKind::Combine,
    TokenKind::Complete,
    TokenKind::Dispose,
    TokenKind::As,
    TokenKind::Print,
    TokenKind::Flush,
    TokenKind::Repeat,
    TokenKind::Frame,
    TokenKind::Temp,
    TokenKind::TempJob,
    TokenKind::Persistent,
    TokenKind::Defer,
    TokenKind::Auto,
    TokenKind::When,
];

fn kinds() -> &'static [TokenKind]
    ensures { result.now ≡ KINDS }
{
    &KINDS
}

/// The kind of a number; the first one where there are not so many.
#[inline(always)]
#[tactic(auto, unfolding(crate::specs::Marks::kind_numbered))]
fn kind_numbered(number: u32) -> TokenKind
    ensures { result ≡ kind_numbered number }
{
    match kinds().get(number as usize) {
        Some(kind) => *kind,
        None => TokenKind::Name,
    }
}

/// Whether two texts are the same.
// Names that differ mostly differ in their lengths or their last bytes, so those are looked at first; and many have one
// byte.
pub fn is_same(a: &[u8], b: &[u8]) -> bool
    ensures { result ≡ bytes_eq a.now b.now }
{
    let len = a.len();
    if len != b.len() {
        return false;
    }
    if len == 0 {
        return true;
    }
    if a[len - 1] != b[len - 1] {
        return false;
    }
    len == 1 || a == b
}

impl Mark {
    /// The mark of a token of this kind, whose first byte is below 2^25.
    #[inline(always)]
    pub fn of(kind: TokenKind, start: u32) -> Self
        requires { start < 2 ^ 25 }
        ensures kind { kind_of result ≡ kind }
        ensures start { start_of result ≡ start }
        ensures exact { IsOfKind result }
    {
        Mark {
            word: start * MOST_KINDS + number_of(kind),
        }
    }

    /// Its kind.
    #[inline(always)]
    pub fn kind(self) -> TokenKind
        ensures { result ≡ kind_of self }
    {
        kind_numbered(self.word % MOST_KINDS)
    }

    /// The place of its first byte.
    #[inline(always)]
    pub fn start(self) -> u32
        ensures { result ≡ start_of self }
    {
        self.word / MOST_KINDS
    }

    /// Whether it is the end of a line.
    // By its number alone, so that lines are counted without a look at the kinds.
    #[inline(always)]
    fn is_line(self) -> bool
        ensures { result ≡ is_line (kind_of self) }
    {
        self.word % MOST_KINDS == TokenKind::Line as u32
    }

    /// Whether it is one letter, as its byte and the next one show.
    // Many names are, and what else is asked of them needs no look at where they end.
    #[inline(always)]
    fn is_letter(self, source: &[u8]) -> bool
        ensures { result ≡ is_letter source.now self }
    {
        let start = self.start() as usize;
        start + 1 < source.len()
            && !matches!(self.kind(), TokenKind::End)
            && source[start].is_ascii_alphabetic()
            && !continues_name(source[start + 1])
    }

    /// Its bytes, as far as they lie within the file.
    #[inline(always)]
    pub fn text<'a>(self, source: &'a [u8]) -> &'a [u8]
        ensures { (line : ℕ) → result.now ≡ text_of source.now (token_in source.now line self) }
    {
        if self.is_letter(source) {
            let start = self.start() as usize;
            return &source[start..start + 1];
        }
        self.whole_text(source)
    }

    /// Its bytes, whatever token it is.
    #[inline(never)]
    fn whole_text<'a>(self, source: &'a [u8]) -> &'a [u8]
        ensures { (line : ℕ) → result.now ≡ text_of source.now (token_in source.now line self) }
    {
        let start = self.start() as usize;
        if start >= source.len() || matches!(self.kind(), TokenKind::End) {
            return &[];
        }
        &source[start..front_end(source, start)]
    }

    /// Whether it is spelled so.
    // Names that differ mostly differ in their first bytes, and then the token isn't read again. The bytes of an end,
    // which are none, are no name either, whatever stands there.
    #[inline(always)]
    pub fn is_spelled(self, source: &[u8], name: &[u8]) -> bool
        ensures { (line : ℕ) → result ≡ bytes_eq (text_of source.now (token_in source.now line self)) name.now }
    {
        let start = self.start() as usize;
        if start < source.len() && !name.is_empty() {
            if source[start] != name[0] {
                return false;
            }
            if self.is_letter(source) {
                return name.len() == 1;
            }
        }
        self.is_read(source, name)
    }

    /// Whether it is spelled so, by its bytes up to their end.
    #[inline(never)]
    fn is_read(self, source: &[u8], name: &[u8]) -> bool
        ensures { (line : ℕ) → result ≡ bytes_eq (text_of source.now (token_in source.now line self)) name.now }
    {
        is_same(self.whole_text(source), name)
    }

    /// The value of its digits, or 2 ^ 64 - 1 where it is greater.
    // Numbers are short, and then their digits are read once.
    pub fn value(self, source: &[u8]) -> u64
        ensures { (line : ℕ) →
            result ≡ min 18446744073709551615 (value_of (text_of source.now (token_in source.now line self))) }
    {
        let start = self.start() as usize;
        if start < source.len()
            && matches!(self.kind(), TokenKind::Number)
            && let Some(value) = front_value(&source[start..])
        {
            return value;
        }
        self.read_value(source)
    }

    /// The value of its digits, or 2 ^ 64 - 1 where it is greater, by its bytes up to their end.
    #[inline(never)]
    fn read_value(self, source: &[u8]) -> u64
        ensures { (line : ℕ) →
            result ≡ min 18446744073709551615 (value_of (text_of source.now (token_in source.now line self))) }
    {
        value_of(self.whole_text(source))
    }

    /// Whether the value of its digits is greater than this one, which has more digits than four.
    // Most Numbers have no more than four digits, which two bytes show.
    #[inline(always)]
    pub fn is_above(self, source: &[u8], most: u64) -> bool
        requires great { 9999 ≤ most }
        requires fits { most < 18446744073709551615 }
        ensures { (line : ℕ) → result ≡ nat_lt most (value_of (text_of source.now (token_in source.now line self))) }
    {
        let start = self.start() as usize;
        if start + 4 < source.len()
            && matches!(self.kind(), TokenKind::Number)
            && source[start].is_ascii_digit()
            && !source[start + 4].is_ascii_digit()
        {
            return false;
        }
        self.value(source) > most
    }
}

impl HasKind for Mark {
    ghost kind_of = { λ mark. kind_of mark };

    #[inline(always)]
    fn kind(&self) -> TokenKind {
        kind_numbered(self.word % MOST_KINDS)
    }
}

/// How many of these tokens are the end of a line.
pub fn lines_in(marks: &[Mark]) -> u32
    requires { length marks.now < 2 ^ 32 }
    ensures { result ≡ lines_in marks.now }
{
    let mut lines = 0;
    for mark in marks {
        if mark.is_line() {
            lines += 1;
        }
    }
    lines
}

/// The line of the token at a place among these, of which the first lies on this line. Where none stands there it is 0.
pub fn line_at(marks: &[Mark], line: u32, at: TokenAt) -> u32
    requires { line + length marks.now < 2 ^ 32 }
    ensures { (source : List ℕ) → result ≡ token_line (slice_get (tokens_in source line marks.now) at) }
{
    let place = at.index();
    if place >= marks.len() {
        return 0;
    }
    line + lines_in(&marks[..place])
}

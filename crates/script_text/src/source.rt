//! The bytes of a file and its tokens, and what the token at a place says.

ghost use Rattle.std.specs.Prelude.{◌≡◌, ◌-◌, ◌<◌, ◌^◌, min, length, slice_get};
ghost use Rattle.kernel_text.specs.Tokens.{kinds};
ghost use Rattle.script_text.specs.Places.{IsTest, TestStands};
ghost use Rattle.script_text.specs.Signs.{sign_of, sign_in};

use frame_ast::script::Sign;
use frame_grammar::{TokenAt, TokenKind};
use kernel_text::{Mark, line_at};

/// A file: its bytes, and its tokens.
#[derive(Clone, Copy, Debug)]
pub struct Source<'a> {
    pub bytes: &'a [u8],
    pub marks: &'a [Mark],
}

impl<'a> Source<'a> {
    ghost use Rattle.script_text.specs.Sources.{file_tokens, text_at, line_at, number_at, column_at};

    /// The bytes of the token at a place, none where no token stands there.
    #[inline(always)]
    pub fn text(self, at: TokenAt) -> &'a [u8]
        ensures { result.now ≡ text_at self.entry at }
    {
        match self.marks.get(at.index()) {
            None => &[],
            Some(mark) => mark.text(self.bytes),
        }
    }

    /// The line of the token at a place, counted from 1; 0 where no token stands there.
    ///
    /// It is counted from the first token on. Whoever wants the lines of many tokens has a
    /// `LineCursor`.
    pub fn line(self, at: TokenAt) -> u32
        requires few { length self.marks.now < 2 ^ 32 - 1 }
        ensures { result ≡ line_at self.entry at }
    {
        line_at(self.marks, 1, at)
    }

    /// The value of the Number at a place, or the greatest u64 where it is greater.
    #[inline(always)]
    pub fn number(self, at: TokenAt) -> u64
        ensures { result ≡ min (number_at self.entry at) (2 ^ 64 - 1) }
    {
        match self.marks.get(at.index()) {
            None => 0,
            Some(mark) => mark.value(self.bytes),
        }
    }

    /// The Text at a place, without its quotes.
    pub fn column(self, at: TokenAt) -> &'a [u8]
        ensures { result.now ≡ column_at self.entry at }
    {
        let text = self.text(at);
        if text.len() < 2 {
            &[]
        } else {
            &text[1..text.len() - 1]
        }
    }

    /// The comparison at a place.
    pub fn sign(self, at: TokenAt) -> Sign
        requires { TestStands (kinds (file_tokens self)) at }
        ensures { result ≡ sign_in (slice_get (file_tokens self.entry) at) }
    {
        match self.marks.get(at.index()) {
            None => unreachable!(),
            Some(mark) => sign_of(mark.kind()),
        }
    }
}

// A token of another kind is no comparison.
fn sign_of(kind: TokenKind) -> Sign
    requires { IsTest kind }
    ensures { result ≡ sign_of kind }
{
    match kind {
        TokenKind::Equal => Sign::Eq,
        TokenKind::NotEqual => Sign::Ne,
        TokenKind::Less => Sign::Lt,
        TokenKind::LessEqual => Sign::Le,
        TokenKind::Greater => Sign::Gt,
        TokenKind::GreaterEqual => Sign::Ge,
        _ => unreachable!(),
    }
}

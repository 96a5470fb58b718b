//! What a token of a file is.

use frame_grammar::TokenKind;

/// A token of a file: its kind, the place of its first byte and of the byte after its last one,
/// counted from 0, and its line, counted from 1.
///
/// What is said of a file speaks of its tokens; in memory each is a `Mark`.
#[derive(Clone, Copy, Debug, PartialEq, Eq)]
pub struct Token {
    pub kind: TokenKind,
    pub start: u32,
    pub end: u32,
    pub line: u32,
}

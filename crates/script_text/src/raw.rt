//! The raw form of a statement: what its tokens say before any name is looked up.
//!
//! Tokens are named by their places among those of the file.

use frame_ast::script::Life;
use frame_grammar::TokenAt;
use frame_parser::Note;

/// A signed number: whether `-` stands before it, and its Number.
#[derive(Clone, Copy, Debug, PartialEq, Eq)]
pub struct RawNumber {
    pub minus: bool,
    pub at: TokenAt,
}

/// An argument of a schedule.
#[derive(Clone, Copy, Debug, PartialEq, Eq)]
pub enum RawArg {
    Name(TokenAt),
    Number(RawNumber),
}

/// Over which indexes a schedule's job runs.
#[derive(Clone, Copy, Debug, PartialEq, Eq)]
pub enum RawSizes {
    None,
    /// Two Numbers: the length and the batch.
    Length(TokenAt, TokenAt),
    /// `defer`: the name of a list, and the Number of the batch.
    Defer(TokenAt, TokenAt),
}

// TO ADD A STATEMENT: 6, its raw form, after the one of frame_ast's `Order`.

/// A statement of a script; of `repeat` and `when`, what stands before the brace.
#[derive(Drop)]
pub enum RawOrder<'a> {
    Array {
        name: TokenAt,
        len: TokenAt,
        life: Life,
        /// The notes of its values, as the grammar has them, in order. An array can have a million of them, so they
        /// stay where they are.
        values: Option<&'a [Note]>,
    },
    Column {
        name: TokenAt,
        column: TokenAt,
        life: Life,
    },
    List {
        name: TokenAt,
        cap: TokenAt,
        life: Life,
    },
    Reference {
        name: TokenAt,
        life: Life,
        value: Option<RawNumber>,
    },
    Map {
        name: TokenAt,
        cap: TokenAt,
        life: Life,
    },
    Stream {
        name: TokenAt,
        count: TokenAt,
        room: TokenAt,
        life: Life,
    },
    Slice {
        name: TokenAt,
        of: TokenAt,
        start: TokenAt,
        len: TokenAt,
    },
    View {
        name: TokenAt,
        of: TokenAt,
    },
    Copy {
        name: TokenAt,
        of: TokenAt,
    },
    Set {
        name: TokenAt,
        at: Option<RawNumber>,
        value: RawNumber,
    },
    Add {
        name: TokenAt,
        first: RawNumber,
        second: Option<RawNumber>,
    },
    Put {
        name: TokenAt,
        key: RawNumber,
        value: RawNumber,
    },
    Remove {
        name: TokenAt,
        at: RawNumber,
    },
    Clear {
        name: TokenAt,
    },
    SetCapacity {
        name: TokenAt,
        cap: TokenAt,
    },
    Schedule {
        auto: bool,
        handle: TokenAt,
        kernel: TokenAt,
        args: Vec<RawArg>,
        sizes: RawSizes,
        waive: Vec<TokenAt>,
        after: Vec<TokenAt>,
    },
    Combine {
        name: TokenAt,
        of: Vec<TokenAt>,
    },
    Complete {
        auto: bool,
        name: TokenAt,
    },
    /// With the handle after `as` exactly where there is `after`.
    Dispose {
        name: TokenAt,
        after: Vec<TokenAt>,
        handle: Option<TokenAt>,
    },
    DisposeAuto {
        name: TokenAt,
        handle: TokenAt,
    },
    Print {
        name: TokenAt,
    },
    Flush,
    Frame,
    Repeat {
        count: TokenAt,
    },
    /// With the token of its comparison.
    When {
        name: TokenAt,
        sign: TokenAt,
        value: RawNumber,
    },
}

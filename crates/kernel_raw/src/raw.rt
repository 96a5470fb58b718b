//! The raw form of a kernel: what its tokens say before any name is looked up.

ghost use Rattle.std.specs.Prelude.{◌≡◌, ◌<◌, length, slice_get, IfSome};

use frame_ast::kernel::ParamKind;
use frame_grammar::TokenAt;
use job_base::Access;
use job_base::limits::MOST_NODES;
use kernel_text::Mark;

/// The most nodes that a raw kernel keeps. A kernel may have one fewer, so the last of them is a
/// fault, and no later one is ever looked at.
pub const MOST_KEPT: u32 = MOST_NODES + 1;

/// What a node of a kernel is: an atom other than a parenthesis, an operator, or a statement.
#[derive(Clone, Copy, Debug, PartialEq, Eq)]
pub enum RawForm {
    // Atoms
    Number,
    Index,
    /// `x` as a value
    Name,
    /// `x[e]` as a value
    Element,
    /// `len(x)`
    Length,
    /// `has(x, e)`
    Has,
    /// `count(x, e)`
    Count,
    /// `at(x, e, f)`
    Item,

    // Operators: the token says which
    /// `-e` or `!e`
    Unary,
    /// An operator between two sides.
    Binary,

    // Statements
    /// `var x = e;`
    Var,
    /// `x = e;`
    SetName,
    /// `x[e] = f;`
    SetPlace,
    /// `y = try_add(x, e, f);`
    SetTryAdd,
    /// `y = remove(x, e);`
    SetRemove,
    /// `add(x, e);`
    AddItem,
    /// `add(x, e, f);`
    AddPair,
    /// `remove(x, e);`
    Remove,
    /// `clear(x);`
    Clear,
    /// `write(x, e);`
    Write,
    /// `begin x[e] { .. }`
    Begin,
    /// `if e { .. }`
    If,
    /// `if e { .. } else { .. }`
    IfElse,
    /// `for x in e..f { .. }`
    For,
    /// `while e { .. }`
    While,
}

/// A node. Tokens are given by their places among those of the kernel.
///
/// The nodes of a kernel stand in the order of their tokens: an operator between two sides has the
/// nodes of its left side before it, any other node has all that is under it after it.
#[derive(Clone, Copy, Debug, PartialEq, Eq)]
pub struct RawNode {
    pub form: RawForm,
    /// Its token: the operator, or the first token of a statement or an atom. In `y = try_add(..)`
    /// and `y = remove(..)` that is y.
    pub at: TokenAt,
    /// Its name x; its own token where it has none.
    pub name: TokenAt,
    /// The node of the statement in whose block it stands. None for a statement of the kernel's own
    /// block and for all but statements.
    pub owner: Option<u32>,
    /// How many nodes under it stand before it.
    pub before: u32,
    /// How many nodes under it stand after it.
    pub after: u32,
    /// How many of the nodes after it are of its expressions and not of its blocks.
    pub heads: u32,
    /// How many of the nodes after it are of its first block.
    pub inside: u32,
}

/// A parameter. Tokens are given by their places among those of the kernel.
#[derive(Clone, Copy, Debug, PartialEq, Eq)]
pub struct RawParam {
    pub name: TokenAt,
    pub kind: ParamKind,
    /// That of an `int` is `Read`.
    pub access: Access,
    /// The word `stream` or the word `by`; its name where it has neither.
    pub word: TokenAt,
    /// The Number after `by`.
    pub width: Option<TokenAt>,
}

/// A kernel as its tokens say it.
#[derive(Drop)]
pub struct RawKernel<'a> {
    /// The bytes of the file.
    pub source: &'a [u8],
    /// The tokens among which its parts are given by place.
    pub marks: &'a [Mark],
    /// The line of the first of them, counted from 1.
    pub line: u32,
    pub parallel: bool,
    /// Its name.
    pub name: TokenAt,
    pub params: Vec<RawParam>,
    /// The first nodes of its statements, in the order of their tokens, and no more than MOST_KEPT.
    pub nodes: Vec<RawNode>,
    /// How deep each of them stands among all nodes of the kernel, counted from 1. Empty where none of them stands
    /// deeper than MOST_DEPTH, as in most kernels.
    pub depths: Vec<u32>,
}

/// The node of a number.
#[inline]
pub fn node_at(raw: &RawKernel<'_>, number: usize) -> Option<RawNode>
    ensures node { result ≡ slice_get raw.now.nodes.items number }
    ensures within { IfSome result (λ node. number < length raw.now.nodes.items) }
{
    raw.nodes.get(number).copied()
}

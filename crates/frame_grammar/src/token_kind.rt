//! The kinds of tokens, and what has one.

ghost use Rattle.std.specs.Prelude.{◌≡◌};

/// A token, of which the parser asks its kind alone.
pub trait HasKind {
    ghost use Rattle.frame_grammar.specs.declared.token_kind.TokenKind.{TokenKind};

    ghost kind_of: { Self → TokenKind };

    fn kind(&self) -> TokenKind
        ensures { result ≡ kind_of self.now };
}

impl HasKind for TokenKind {
    ghost kind_of = { λ kind. kind };

    fn kind(&self) -> TokenKind {
        *self
    }
}

/// The kind of a token.
///
/// A name, a number, a text, the end of a line, the end of the file, or a byte that begins no
/// token; and one kind for each symbol and each reserved word. Reserved words are reserved
/// everywhere, in kernels and outside them.
#[derive(Clone, Copy, Debug, PartialEq, Eq)]
pub enum TokenKind {
    /// A letter or `_`, followed by letters, digits and `_`, and no reserved word.
    Name,
    /// Decimal digits.
    Number,
    /// Printable bytes between double quotes.
    Text,
    /// A line feed.
    Line,
    /// The end of the file.
    End,
    /// A byte that begins no token. No production has it.
    Bad,

    // Symbols
    /// `{`
    OpenBrace,
    /// `}`
    CloseBrace,
    /// `(`
    OpenParen,
    /// `)`
    CloseParen,
    /// `[`
    OpenBracket,
    /// `]`
    CloseBracket,
    /// `,`
    Comma,
    /// `;`
    Semicolon,
    /// `:`
    Colon,
    /// `=`
    Assign,
    /// `==`
    Equal,
    /// `!=`
    NotEqual,
    /// `<`
    Less,
    /// `<=`
    LessEqual,
    /// `>`
    Greater,
    /// `>=`
    GreaterEqual,
    /// `+`
    Plus,
    /// `-`
    Minus,
    /// `*`
    Star,
    /// `/`
    Slash,
    /// `%`
    Percent,
    /// `!`
    Not,
    /// `&&`
    AndAnd,
    /// `||`
    OrOr,
    /// `..`
    DotDot,

    // Reserved words of kernels
    /// `job`
    Job,
    /// `parallel`
    Parallel,
    /// `ro`
    Ro,
    /// `wo`
    Wo,
    /// `rw`
    Rw,
    /// `int`
    Int,
    /// `array`
    Array,
    /// `list`
    List,
    /// `ref`
    Ref,
    /// `map`
    Map,
    /// `stream`
    Stream,
    /// `by`
    By,
    /// `var`
    Var,
    /// `if`
    If,
    /// `else`
    Else,
    /// `for`
    For,
    /// `in`
    In,
    /// `while`
    While,
    /// `begin`
    Begin,
    /// `write`
    Write,
    /// `add`
    Add,
    /// `remove`
    Remove,
    /// `clear`
    Clear,
    /// `try_add`
    TryAdd,
    /// `len`
    Len,
    /// `has`
    Has,
    /// `count`
    Count,
    /// `at`
    At,
    /// `index`
    Index,

    // TO ADD A STATEMENT: 1, its reserved word, here, on both lists of kernel_text/src/spelling.rt and in `KINDS` of
    // kernel_text/src/mark.rt.
    // Reserved words of scripts
    /// `column`
    Column,
    /// `reference`
    Reference,
    /// `slice`
    Slice,
    /// `view`
    View,
    /// `copy`
    Copy,
    /// `set`
    Set,
    /// `put`
    Put,
    /// `setcapacity`
    SetCapacity,
    /// `schedule`
    Schedule,
    /// `waive`
    Waive,
    /// `after`
    After,
    /// `combine`
    Combine,
    /// `complete`
    Complete,
    /// `dispose`
    Dispose,
    /// `as`
    As,
    /// `print`
    Print,
    /// `flush`
    Flush,
    /// `repeat`
    Repeat,
    /// `frame`
    Frame,
    /// `temp`
    Temp,
    /// `tempjob`
    TempJob,
    /// `persistent`
    Persistent,
    /// `defer`
    Defer,
    /// `auto`
    Auto,
    /// `when`
    When,
}

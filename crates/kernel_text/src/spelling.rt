//! How the kinds of tokens are spelled: symbols and reserved words.

ghost use Rattle.std.specs.Prelude.{◌≡◌, ◌<◌, ◌∷◌, [], length, filter, unwrap_or, slice_index};
ghost use Rattle.kernel_text.specs.Spellings.{spelling_of, spelled, symbols, reserved_words, is_shaped};
ghost use Rattle.frame_grammar.specs.declared.token_kind.TokenKind.TheVariants.{Name};

use TokenKind as K;
use frame_grammar::TokenKind;

/// How a symbol or a reserved word is spelled; nothing for the kinds that have many spellings.
#[inline(always)]
#[tactic(auto, unfolding(crate::specs::Spellings::spelling_of))]
fn spelling(kind: K) -> &'static [u8]
    ensures { result.now ≡ spelling_of kind }
{
    match kind {
        K::Name | K::Number | K::Text | K::End | K::Bad => b"",
        K::Line => b"\n",
        K::OpenBrace => b"{",
        K::CloseBrace => b"}",
        K::OpenParen => b"(",
        K::CloseParen => b")",
        K::OpenBracket => b"[",
        K::CloseBracket => b"]",
        K::Comma => b",",
        K::Semicolon => b";",
        K::Colon => b":",
        K::Assign => b"=",
        K::Equal => b"==",
        K::NotEqual => b"!=",
        K::Less => b"<",
        K::LessEqual => b"<=",
        K::Greater => b">",
        K::GreaterEqual => b">=",
        K::Plus => b"+",
        K::Minus => b"-",
        K::Star => b"*",
        K::Slash => b"/",
        K::Percent => b"%",
        K::Not => b"!",
        K::AndAnd => b"&&",
        K::OrOr => b"||",
        K::DotDot => b"..",
        K::Job => b"job",
        K::Parallel => b"parallel",
        K::Ro => b"ro",
        K::Wo => b"wo",
        K::Rw => b"rw",
        K::Int => b"int",
        K::Array => b"array",
        K::List => b"list",
        K::Ref => b"ref",
        K::Map => b"map",
        K::Stream => b"stream",
        K::By => b"by",
        K::Var => b"var",
        K::If => b"if",
        K::Else => b"else",
        K::For => b"for",
        K::In => b"in",
        K::While => b"while",
        K::Begin => b"begin",
        K::Write => b"write",
        K::Add => b"add",
        K::Remove => b"remove",
        K::Clear => b"clear",
        K::TryAdd => b"try_add",
        K::Len => b"len",
        K::Has => b"has",
        K::Count => b"count",
        K::At => b"at",
        K::Index => b"index",
        K::Column => b"column",
        K::Reference => b"reference",
        K::Slice => b"slice",
        K::View => b"view",
        K::Copy => b"copy",
        K::Set => b"set",
        K::Put => b"put",
        K::SetCapacity => b"setcapacity",
        K::Schedule => b"schedule",
        K::Waive => b"waive",
        K::After => b"after",
        K::Combine => b"combine",
        K::Complete => b"complete",
        K::Dispose => b"dispose",
        K::As => b"as",
        K::Print => b"print",
        K::Flush => b"flush",
        K::Repeat => b"repeat",
        K::Frame => b"frame",
        K::Temp => b"temp",
        K::TempJob => b"tempjob",
        K::Persistent => b"persistent",
        K::Defer => b"defer",
        K::Auto => b"auto",
        K::When => b"when",
    }
}

/// The first of these kinds that is spelled so.
#[inline(always)]
fn spelled(kinds: &[K], word: &[u8]) -> Option<K>
    ensures { result ≡ spelled kinds.now word.now }
{
    for kind in kinds {
        if spelling(*kind) == word {
            return Some(*kind);
        }
    }
    None
}

/// The word of these that is spelled so, or `Name`; they are the reserved words of so many bytes that begin with its
/// first one.
// In line where they are constants, of which there are three at most: so none is looked up in a table, and each is
// compared in few instructions.
#[inline(always)]
fn kind_among(first: u8, len: usize, kinds: &[K], word: &[u8]) -> K
    requires some { 0 < length word.now }
    requires begun { slice_index word.now 0 ≡ first }
    requires long { length word.now ≡ len }
    requires all { kinds.now ≡ filter (is_shaped len first) reserved_words }
    ensures { result ≡ unwrap_or (spelled reserved_words word.now) Name }
{
    spelled(kinds, word).unwrap_or(K::Name)
}

/// The reserved word of two bytes that is spelled so, or `Name`.
#[inline(always)]
#[tactic(auto, unfolding(crate::specs::Spellings::spelling_of, crate::specs::Spellings::reserved_words))]
fn kind_of_two(word: &[u8]) -> K
    requires { length word.now ≡ 2 }
    ensures { result ≡ unwrap_or (spelled reserved_words word.now) Name }
{
    match word[0] {
        b'a' => kind_among(b'a', 2, &[K::At, K::As], word),
        b'b' => kind_among(b'b', 2, &[K::By], word),
        b'i' => kind_among(b'i', 2, &[K::If, K::In], word),
        b'r' => kind_among(b'r', 2, &[K::Ro, K::Rw], word),
        b'w' => kind_among(b'w', 2, &[K::Wo], word),
        first => kind_among(first, 2, &[], word),
    }
}

/// The reserved word of three bytes that is spelled so, or `Name`.
#[inline(always)]
#[tactic(auto, unfolding(crate::specs::Spellings::spelling_of, crate::specs::Spellings::reserved_words))]
fn kind_of_three(word: &[u8]) -> K
    requires { length word.now ≡ 3 }
    ensures { result ≡ unwrap_or (spelled reserved_words word.now) Name }
{
    match word[0] {
        b'a' => kind_among(b'a', 3, &[K::Add], word),
        b'f' => kind_among(b'f', 3, &[K::For], word),
        b'h' => kind_among(b'h', 3, &[K::Has], word),
        b'i' => kind_among(b'i', 3, &[K::Int], word),
        b'j' => kind_among(b'j', 3, &[K::Job], word),
        b'l' => kind_among(b'l', 3, &[K::Len], word),
        b'm' => kind_among(b'm', 3, &[K::Map], word),
        b'p' => kind_among(b'p', 3, &[K::Put], word),
        b'r' => kind_among(b'r', 3, &[K::Ref], word),
        b's' => kind_among(b's', 3, &[K::Set], word),
        b'v' => kind_among(b'v', 3, &[K::Var], word),
        first => kind_among(first, 3, &[], word),
    }
}

/// The reserved word of four bytes that is spelled so, or `Name`.
#[inline(always)]
#[tactic(auto, unfolding(crate::specs::Spellings::spelling_of, crate::specs::Spellings::reserved_words))]
fn kind_of_four(word: &[u8]) -> K
    requires { length word.now ≡ 4 }
    ensures { result ≡ unwrap_or (spelled reserved_words word.now) Name }
{
    match word[0] {
        b'a' => kind_among(b'a', 4, &[K::Auto], word),
        b'c' => kind_among(b'c', 4, &[K::Copy], word),
        b'e' => kind_among(b'e', 4, &[K::Else], word),
        b'l' => kind_among(b'l', 4, &[K::List], word),
        b't' => kind_among(b't', 4, &[K::Temp], word),
        b'v' => kind_among(b'v', 4, &[K::View], word),
        b'w' => kind_among(b'w', 4, &[K::When], word),
        first => kind_among(first, 4, &[], word),
    }
}

/// The reserved word of five bytes that is spelled so, or `Name`.
#[inline(always)]
#[tactic(auto, unfolding(crate::specs::Spellings::spelling_of, crate::specs::Spellings::reserved_words))]
fn kind_of_five(word: &[u8]) -> K
    requires { length word.now ≡ 5 }
    ensures { result ≡ unwrap_or (spelled reserved_words word.now) Name }
{
    match word[0] {
        b'a' => kind_among(b'a', 5, &[K::Array, K::After], word),
        b'b' => kind_among(b'b', 5, &[K::Begin], word),
        b'c' => kind_among(b'c', 5, &[K::Clear, K::Count], word),
        b'd' => kind_among(b'd', 5, &[K::Defer], word),
        b'f' => kind_among(b'f', 5, &[K::Flush, K::Frame], word),
        b'i' => kind_among(b'i', 5, &[K::Index], word),
        b'p' => kind_among(b'p', 5, &[K::Print], word),
        b's' => kind_among(b's', 5, &[K::Slice], word),
        b'w' => kind_among(b'w', 5, &[K::While, K::Write, K::Waive], word),
        first => kind_among(first, 5, &[], word),
    }
}

/// The reserved word of six bytes that is spelled so, or `Name`.
#[inline(always)]
#[tactic(auto, unfolding(crate::specs::Spellings::spelling_of, crate::specs::Spellings::reserved_words))]
fn kind_of_six(word: &[u8]) -> K
    requires { length word.now ≡ 6 }
    ensures { result ≡ unwrap_or (spelled reserved_words word.now) Name }
{
    match word[0] {
        b'c' => kind_among(b'c', 6, &[K::Column], word),
        b'r' => kind_among(b'r', 6, &[K::Remove, K::Repeat], word),
        b's' => kind_among(b's', 6, &[K::Stream], word),
        first => kind_among(first, 6, &[], word),
    }
}

/// The reserved word of seven bytes that is spelled so, or `Name`.
#[inline(always)]
#[tactic(auto, unfolding(crate::specs::Spellings::spelling_of, crate::specs::Spellings::reserved_words))]
fn kind_of_seven(word: &[u8]) -> K
    requires { length word.now ≡ 7 }
    ensures { result ≡ unwrap_or (spelled reserved_words word.now) Name }
{
    match word[0] {
        b'c' => kind_among(b'c', 7, &[K::Combine], word),
        b'd' => kind_among(b'd', 7, &[K::Dispose], word),
        b't' => kind_among(b't', 7, &[K::TryAdd, K::TempJob], word),
        first => kind_among(first, 7, &[], word),
    }
}

/// The same of more bytes.
#[inline(always)]
#[tactic(auto, unfolding(crate::specs::Spellings::spelling_of, crate::specs::Spellings::reserved_words))]
fn kind_of_many(word: &[u8]) -> K
    requires { 7 < length word.now }
    ensures { result ≡ unwrap_or (spelled reserved_words word.now) Name }
{
    match (word.len(), word[0]) {
        (8, b'c') => kind_among(b'c', 8, &[K::Complete], word),
        (8, b'p') => kind_among(b'p', 8, &[K::Parallel], word),
        (8, b's') => kind_among(b's', 8, &[K::Schedule], word),
        (9, b'r') => kind_among(b'r', 9, &[K::Reference], word),
        (10, b'p') => kind_among(b'p', 10, &[K::Persistent], word),
        (11, b's') => kind_among(b's', 11, &[K::SetCapacity], word),
        (len, first) => kind_among(first, len, &[], word),
    }
}

/// The reserved word that is spelled so, or `Name`.
// By its length and its first byte, which few reserved words share. In line its search would take registers from the
// lexer's loop.
#[inline(never)]
fn searched_kind(word: &[u8]) -> K
    requires { 1 < length word.now }
    ensures { result ≡ unwrap_or (spelled reserved_words word.now) Name }
{
    match word.len() {
        2 => kind_of_two(word),
        3 => kind_of_three(word),
        4 => kind_of_four(word),
        5 => kind_of_five(word),
        6 => kind_of_six(word),
        7 => kind_of_seven(word),
        _ => kind_of_many(word),
    }
}

/// The reserved word that is spelled so, or `Name`.
// No reserved word has one byte, and in kernels nearly all words are names of one letter and `index`.
#[inline(always)]
pub fn word_kind(word: &[u8]) -> K
    requires { 0 < length word.now }
    ensures { result ≡ unwrap_or (spelled reserved_words word.now) Name }
{
    if word.len() == 1 {
        return K::Name;
    }
    if spelling(K::Index) == word {
        return K::Index;
    }
    searched_kind(word)
}

/// The symbol of this one byte.
#[tactic(auto, unfolding(crate::specs::Spellings::spelling_of, crate::specs::Spellings::symbols))]
pub fn single_symbol(byte: u8) -> Option<K>
    ensures { result ≡ spelled symbols (byte ∷ []) }
{
    match byte {
        b'{' => Some(K::OpenBrace),
        b'}' => Some(K::CloseBrace),
        b'(' => Some(K::OpenParen),
        b')' => Some(K::CloseParen),
        b'[' => Some(K::OpenBracket),
        b']' => Some(K::CloseBracket),
        b',' => Some(K::Comma),
        b';' => Some(K::Semicolon),
        b':' => Some(K::Colon),
        b'=' => Some(K::Assign),
        b'<' => Some(K::Less),
        b'>' => Some(K::Greater),
        b'+' => Some(K::Plus),
        b'-' => Some(K::Minus),
        b'*' => Some(K::Star),
        b'/' => Some(K::Slash),
        b'%' => Some(K::Percent),
        b'!' => Some(K::Not),
        _ => None,
    }
}

/// The symbol of these two bytes.
#[tactic(auto, unfolding(crate::specs::Spellings::spelling_of, crate::specs::Spellings::symbols))]
pub fn pair_symbol(first: u8, second: u8) -> Option<K>
    ensures { result ≡ spelled symbols (first ∷ second ∷ []) }
{
    match (first, second) {
        (b'=', b'=') => Some(K::Equal),
        (b'!', b'=') => Some(K::NotEqual),
        (b'<', b'=') => Some(K::LessEqual),
        (b'>', b'=') => Some(K::GreaterEqual),
        (b'&', b'&') => Some(K::AndAnd),
        (b'|', b'|') => Some(K::OrOr),
        (b'.', b'.') => Some(K::DotDot),
        _ => None,
    }
}

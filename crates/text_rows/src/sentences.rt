ghost use Rattle.std.specs.Prelude.{◌<◌, length};
ghost use Rattle.frame_grammar.specs.Sentences.{IsStart};

use frame_grammar::{Nonterminal, TokenKind};
use frame_parser::{ParseError, parse};
use kernel_code::lex;
use row_texts::{row, same, table, unescaped};
use std::alloc::Global;
use std::test::Fail;

/// Where a fault is.
fn place_of(error: ParseError) -> u32 {
    match error {
        ParseError::Syntax(at) => at.place(),
        ParseError::Memory => u32::MAX,
    }
}

/// How many tokens the sentence has that these kinds and an end begin with, or where its fault is.
fn read(alloc: Global, start: Nonterminal, kinds: &[TokenKind]) -> Result<Result<u32, u32>, Fail>
    requires start { IsStart start }
    requires few { length kinds.now < 1000 }
{
    let mut tokens = kinds.to_vec(alloc)?;
    tokens.push(TokenKind::End)?;
    match parse(alloc, start, tokens.as_slice()) {
        Ok(sentence) => Ok(Ok(sentence.read)),
        Err(error) => Ok(Err(place_of(error))),
    }
}

/// The kinds of the tokens of a small file, without its end.
fn kinds_in(alloc: Global, source: &[u8]) -> Result<Vec<TokenKind>, Fail> {
    let mut kinds = Vec::new(alloc);
    if source.len() > 1000 {
        return Err(Fail::new("a long file"));
    }
    for mark in lex(alloc, source)? {
        kinds.push(mark.kind())?;
    }
    let _end = kinds.pop();
    Ok(kinds)
}

/// How many tokens the sentence of a text has, or where its fault is.
fn outcome(alloc: Global, start: Nonterminal, text: &str) -> Result<String, Fail>
    requires start { IsStart start }
{
    let kinds = kinds_in(alloc, &unescaped(alloc, text)?)?;
    if kinds.len() >= 1000 {
        return Err(Fail::new("many tokens"));
    }
    match read(alloc, start, &kinds)? {
        Ok(count) => Ok(format!(in alloc; "{count}")?),
        Err(place) => Ok(format!(in alloc; "fault {place}")?),
    }
}

/// Tries rows of how many tokens a sentence has, its end with them, or at which one its fault is, and the text whose
/// tokens it is.
fn try_rows(alloc: Global, start: Nonterminal, rows: &str) -> Result<(), Fail>
    requires start { IsStart start }
{
    for line in table(rows)?.lines() {
        if let Some((wanted, text)) = row(line)? {
            same(line, &outcome(alloc, start, text)?, wanted)?;
        }
    }
    Ok(())
}

const FILES: &str = r"
1 |
4 | \nflush\n
fault 1 | flush flush
9 | array a 3 temp = -1 2
fault 4 | array a 3 =\n
15 | schedule auto h k() defer l 3 waive y after g h
6 | dispose auto a as d
fault 4 | dispose a after h
11 | when r <= -2 {\nframe\n}
fault 3 | repeat 2 { frame
fault 2 | print x $
10 | job\nk() {\n}\n
";

const KERNELS: &str = r"
6 | job k() { }\n$
12 | parallel k(x: rw array by 4) { }
fault 7 | job k(x: rw list by
fault 9 | job k() { if 1 < 2 <
fault 5 | job k() {
";

// Files are read to their end, and a kernel to its last brace.
#[test]
fn sentences(rt: HostRuntime) -> Result<(), Fail> {
    try_rows(rt.alloc(), Nonterminal::File, FILES)?;
    try_rows(rt.alloc(), Nonterminal::Kernel, KERNELS)
}

use kernel_code::{TokenAt, lex, line_at};
use row_texts::{row, same, table, unescaped};
use std::alloc::Global;
use std::fmt::Write;
use std::test::Fail;

/// The tokens of a small file as a text, each with its kind, its span and its line.
fn tokens_in(alloc: Global, source: &[u8]) -> Result<String, Fail> {
    let mut text = String::new(alloc);
    if source.len() > 1000 {
        return Err(Fail::new("a long file"));
    }
    let marks = lex(alloc, source)?;
    if marks.len() > 2000 {
        return Err(Fail::new("many tokens"));
    }
    for (at, mark) in marks.iter().enumerate() {
        let (kind, start) = (mark.kind(), mark.start() as usize);
        let end = start + mark.text(source).len();
        let line = line_at(&marks, 1, TokenAt::of(at as u32));
        if at > 0 {
            text.push_str(", ")?;
        }
        write!(text, "{kind:?} {start}-{end} {line}")?;
    }
    Ok(text)
}

/// The kinds of the tokens of a small file.
fn kinds_in(alloc: Global, source: &[u8]) -> Result<String, Fail> {
    let mut text = String::new(alloc);
    if source.len() > 1000 {
        return Err(Fail::new("a long file"));
    }
    for mark in lex(alloc, source)? {
        let kind = mark.kind();
        write!(text, "{kind:?} ")?;
    }
    Ok(text)
}

const FILES: &str = r#"
End 0-0 1 |
Name 0-1 1, End 1-1 1 | x
Name 0-1 1, Line 1-2 1, End 2-2 2 | x\n
Line 0-1 1, Line 1-2 2, End 2-2 3 | \n\n
Name 0-1 1, Line 2-3 1, Name 4-5 2, End 5-5 2 | a\r\n\tb
Name 3-4 1, End 4-4 1 | \xEF\xBB\xBFx
Bad 0-1 1, End 1-1 1 | \xEF\xBB
Name 0-1 1, Bad 1-2 1, End 2-2 1 | x\xEF\xBB\xBF
End 10-10 1 | # \xFF "= job
Line 1-2 1, End 3-3 2 | #\n#
Name 0-1 1, LessEqual 1-3 1, Name 3-4 1, End 4-4 1 | a<=b
Equal 0-2 1, Assign 2-3 1, End 3-3 1 | ===
NotEqual 0-2 1, Assign 2-3 1, End 3-3 1 | !==
Number 0-1 1, DotDot 1-3 1, Number 3-4 1, End 4-4 1 | 1..2
Bad 0-1 1, End 1-1 1 | &|.
Bad 0-1 1, End 1-1 1 | |.&
Bad 0-1 1, End 1-1 1 | .&|
AndAnd 0-2 1, DotDot 2-4 1, OrOr 4-6 1, End 6-6 1 | &&..||
AndAnd 0-2 1, AndAnd 2-4 1, Bad 4-5 1, End 5-5 1 | &&&&&
DotDot 0-2 1, Bad 2-3 1, End 3-3 1 | ...
OrOr 0-2 1, Bad 2-3 1, End 3-3 1 | |||
Name 0-1 1, Line 1-2 1, Line 2-3 2, Bad 3-4 3, End 4-4 3 | x\n\n$ y\n
Number 0-1 1, Temp 1-5 1, End 5-5 1 | 4temp
Number 0-1 1, OpenBrace 1-2 1, End 2-2 1 | 3{
Name 0-3 1, Name 4-8 1, Name 9-12 1, End 12-12 1 | _a1 jobs Job
Bad 0-1 1, End 1-1 1 | \x00~\x7F
Bad 0-1 1, End 1-1 1 | ~\x7F\x00
Bad 0-1 1, End 1-1 1 | \x7F\x00~

# Texts, which are closed and printable.
Text 0-5 1, End 5-5 1 | " ~#"
Text 0-3 1, Text 3-6 1, End 6-6 1 | "a""b"
Bad 0-1 1, End 1-1 1 | ""
Bad 0-1 1, End 1-1 1 | "a
Bad 0-1 1, End 1-1 1 | "a\n"
Bad 0-1 1, End 1-1 1 | "a\tb"
Bad 0-1 1, End 1-1 1 | "a\xC3\xA4"
"#;

const WORDS: &str = "
OpenBrace CloseBrace OpenParen CloseParen OpenBracket CloseBracket Comma Semicolon Colon Assign Equal \
    NotEqual Less LessEqual Greater GreaterEqual Plus Minus Star Slash Percent Not AndAnd OrOr DotDot End \
    | { } ( ) [ ] , ; : = == != < <= > >= + - * / % ! && || ..
Job Parallel Ro Wo Rw Int Array List Ref Map Stream By Var If Else For In While Begin Write Add Remove Clear \
    TryAdd Len Has Count At Index End | job parallel ro wo rw int array list ref map stream by var if else \
    for in while begin write add remove clear try_add len has count at index
Column Reference Slice View Copy Set Put SetCapacity Schedule Waive After Combine Complete Dispose As Print \
    Flush Repeat Frame Temp TempJob Persistent Defer Auto When End \
    | column reference slice view copy set put setcapacity schedule waive after combine complete dispose as \
    print flush repeat frame temp tempjob persistent defer auto when
";

#[test]
fn tokens(rt: HostRuntime) -> Result<(), Fail> {
    for line in table(FILES)?.lines() {
        if let Some((wanted, text)) = row(line)? {
            let source = unescaped(rt.alloc(), text)?;
            same(line, &tokens_in(rt.alloc(), &source)?, wanted)?;
        }
    }
    Ok(())
}

#[test]
fn each_symbol_and_reserved_word_has_its_kind(rt: HostRuntime) -> Result<(), Fail> {
    for line in table(WORDS)?.lines() {
        if let Some((wanted, text)) = row(line)? {
            let kinds = kinds_in(rt.alloc(), text.as_bytes())?;
            same(line, kinds.as_str().trim_end(), wanted)?;
        }
    }
    Ok(())
}

ghost use Rattle.std.specs.Prelude.{◌≤◌, length};

use kernel_code::{KernelFault, RawKernel, TokenAt, lex, parse_kernel};
use row_texts::{row, same, table, unescaped};
use std::alloc::Global;
use std::fmt::Write;
use std::test::Fail;

/// The place of a token, or 0 for none.
fn place_or_0(at: Option<TokenAt>) -> u32 {
    match at {
        Some(at) => at.place(),
        None => 0,
    }
}

/// A raw kernel as a text: what it is, its parameters, and its nodes, each with the numbers of the
/// nodes before and behind it, of its expressions and of its first block, and with its owner.
fn told(alloc: Global, raw: &RawKernel) -> Result<String, Fail> {
    let mut text = String::new(alloc);
    let (parallel, name) = (raw.parallel, raw.name.place());
    write!(text, "{parallel} {name}")?;
    for param in &raw.params {
        let (name, kind, access) = (param.name.place(), param.kind, param.access);
        let (word, width) = (param.word.place(), place_or_0(param.width));
        write!(text, ", {name} {kind:?} {access:?} {word} {width}")?;
    }
    for node in &raw.nodes {
        let (form, at, name, before) = (node.form, node.at.place(), node.name.place(), node.before);
        let (after, heads, inside) = (node.after, node.heads, node.inside);
        write!(
            text,
            "; {form:?} {at} {name} {before} {after} {heads} {inside}"
        )?;
        if let Some(owner) = node.owner {
            write!(text, " in {owner}")?;
        }
    }
    Ok(text)
}

/// What a small text begins with: a kernel and the place of the token behind it, or its first fault.
fn parsed(alloc: Global, source: &[u8]) -> Result<String, Fail> {
    let mut text = String::new(alloc);
    if source.len() > 1000 {
        return Err(Fail::new("a long text"));
    }
    let marks = lex(alloc, source)?;
    if marks.is_empty() {
        return Ok(text);
    }
    match parse_kernel(alloc, source, &marks, TokenAt::of(0)) {
        Ok((raw, next)) => {
            let told = told(alloc, &raw)?;
            let next = next.place();
            write!(text, "{told}; next {next}")?;
        }
        Err(KernelFault::Refused { line, kind }) => write!(text, "{line}: {kind:?}")?,
        Err(KernelFault::NoMemory) => write!(text, "no memory")?,
    }
    Ok(text)
}

/// How many nodes the kernel has that a text begins with.
fn count(alloc: Global, source: &[u8]) -> Result<Option<usize>, Fail>
    requires { length source.now ≤ 16777216 }
{
    let marks = lex(alloc, source)?;
    if marks.is_empty() {
        return Ok(None);
    }
    match parse_kernel(alloc, source, &marks, TokenAt::of(0)) {
        Ok((raw, _)) => Ok(Some(raw.nodes.len())),
        Err(_) => Ok(None),
    }
}

/// Tries rows of what a text begins with, and the text.
fn try_rows(alloc: Global, rows: &str) -> Result<(), Fail> {
    for line in table(rows)?.lines() {
        if let Some((wanted, text)) = row(line)? {
            let source = unescaped(alloc, text)?;
            same(line, &parsed(alloc, &source)?, wanted)?;
        }
    }
    Ok(())
}

const KERNELS: &str = "
true 1, 3 Array Read 3 0, 8 Array Write 8 0; SetPlace 14 14 0 5 5 0; Index 16 16 0 0 0 0; \
    Element 19 19 0 1 0 0; Index 21 21 0 0 0 0; Binary 23 23 2 1 0 0; Number 24 24 0 0 0 0; next 27 \
    | parallel scale(x: ro array, y: wo array) { y[index] = x[index] * 3; }
false 1, 3 Array Both 3 0; SetPlace 9 9 0 2 2 0; Number 11 11 0 0 0 0; Number 14 14 0 0 0 0; \
    SetPlace 16 16 0 5 5 0; Number 18 18 0 0 0 0; Element 21 21 0 1 0 0; Number 23 23 0 0 0 0; \
    Binary 25 25 2 1 0 0; Number 26 26 0 0 0 0; SetPlace 28 28 0 2 2 0; Number 30 30 0 0 0 0; \
    Number 33 33 0 0 0 0; next 36 | job edge(a: rw array) { a[1] = 5; a[0] = a[0] + 1; a[2] = 9; }
false 1; IfElse 5 5 0 2 1 0; Number 6 6 0 0 0 0; Clear 11 13 0 0 0 0 in 0; next 18 \
    | job k() { if 1 { } else { clear(x); } }\\n
false 1; IfElse 5 5 0 2 1 1; Number 6 6 0 0 0 0; Clear 8 10 0 0 0 0 in 0; Clear 17 19 0 0 0 0; next 23 \
    | job k() { if 1 { clear(x); } else { } clear(y); }
true 1, 3 Stream Write 6 0; Begin 9 10 0 8 1 7; Index 12 12 0 0 0 0; For 15 16 0 6 4 2 in 0; \
    Number 18 18 0 0 0 0; Index 20 20 0 0 0 0; Binary 21 21 1 1 0 0; Number 22 22 0 0 0 0; \
    Write 24 26 0 1 1 0 in 2; Index 28 28 0 0 0 0; next 34 \
    | parallel emit(s: wo stream) { begin s[index] { for k in 0..index % 4 { write(s, index); } } }
false 1, 3 Map Both 3 0, 8 Ref Write 8 0; Var 14 15 0 1 1 0; Number 17 17 0 0 0 0; SetTryAdd 19 23 0 2 2 0; \
    Number 25 25 0 0 0 0; Number 27 27 0 0 0 0; SetName 30 30 0 1 1 0; Name 32 32 0 0 0 0; \
    AddPair 34 36 0 2 2 0; Number 38 38 0 0 0 0; Number 40 40 0 0 0 0; next 44 \
    | job keys(m: rw map, t: wo ref) { var r = 0; r = try_add(m, 1, 9); t = r; add(m, 3, 3); }
true 1, 3 Int Read 3 0, 7 Array Both 11 12; SetPlace 15 15 0 10 10 0; Number 17 17 0 0 0 0; \
    Unary 20 20 0 5 0 0; Number 22 22 0 0 0 0; Binary 23 23 1 1 0 0; Number 24 24 0 0 0 0; \
    Binary 25 25 3 1 0 0; Number 26 26 0 0 0 0; Binary 28 28 6 2 0 0; Unary 29 29 0 1 0 0; \
    Name 30 30 0 0 0 0; next 33 | parallel k(n: int, x: rw array by 4) { x[0] = -(1 - 2 - 3) || !n; }
false 1; While 5 5 0 7 5 2; Has 6 8 0 4 0 0; Count 10 12 0 3 0 0; Item 14 16 0 2 0 0; Number 18 18 0 0 0 0; \
    Length 20 22 0 0 0 0; SetRemove 28 32 0 1 1 0 in 0; Number 34 34 0 0 0 0; next 39 \
    | job k() { while has(m, count(s, at(s, 0, len(s)))) { y = remove(m, 1); } }
";

/// For each production of kernels a text in which no kernel goes on by it, and the line of the fault.
const FAULTS: &str = r"
1: Syntax | flush
2: Syntax | job\n(
3: Syntax | job k\n\n{
2: Syntax | parallel\njob
2: Syntax | job k(x\n,
2: Syntax | job k(x: int\ny
2: Syntax | job k(x: int,\n)
2: Syntax | job k(x:\narray)
2: Syntax | job k(x: ro\nint)
2: Syntax | job k(x: wo\n)
2: Syntax | job k(x: rw\nby)
2: Syntax | job k(x: rw array by\nx)
2: Syntax | job k(x: rw list\nby 2)
4: Syntax | job k()\n\n\n;
2: Syntax | job k() {\n1;
3: Syntax | job k() { clear(x);\n\n
2: Syntax | job k() { var\n1
2: Syntax | job k() { var x\n;
2: Syntax | job k() { var x = 1\n}
2: Syntax | job k() { x\n;
2: Syntax | job k() { x[1]\n;
2: Syntax | job k() { x =\n;
2: Syntax | job k() { x = try_add(m, 1\n)
2: Syntax | job k() { x = remove(m\n)
2: Syntax | job k() { add(x\n)
2: Syntax | job k() { add(x, 1, 2\n, 3)
2: Syntax | job k() { remove(x, 1\n, 2)
2: Syntax | job k() { clear(x\n, 1)
2: Syntax | job k() { write(s\n)
2: Syntax | job k() { begin s\n(1)
2: Syntax | job k() { begin s[1]\n;
2: Syntax | job k() { if 1\n;
2: Syntax | job k() { if 1 { } else\nif
1: Syntax | job k() { else\n
2: Syntax | job k() { for k\n= 1
2: Syntax | job k() { for k in 1\n, 2
2: Syntax | job k() { for k in 0..\n{
2: Syntax | job k() { while 1\n}
2: Syntax | job k() { x = 1 ||\n;
2: Syntax | job k() { x = 1 &&\n;
2: Syntax | job k() { x = 1 ==\n;
2: Syntax | job k() { x = 1 !=\n;
2: Syntax | job k() { x = 1 <=\n;
2: Syntax | job k() { x = 1 > \n;
2: Syntax | job k() { x = 1 >=\n;
2: Syntax | job k() { x = 1 < 2\n< 3
2: Syntax | job k() { x = 1 +\n;
2: Syntax | job k() { x = 1 -\n;
2: Syntax | job k() { x = 1 *\n;
2: Syntax | job k() { x = 1 /\n;
2: Syntax | job k() { x = 1 %\n;
2: Syntax | job k() { x = -\n;
2: Syntax | job k() { x = !\n;
2: Syntax | job k() { x = (1\n;
2: Syntax | job k() { x = len(\n1)
2: Syntax | job k() { x = has(m\n)
2: Syntax | job k() { x = count(s\n)
2: Syntax | job k() { x = at(s, 1\n)
2: Syntax | job k() { x = y[1\n;
2: Syntax | job k() { x = 1\n& 2; }
2: Syntax | job k() {\nvar index = 1; }
3: Syntax | job k() {\n\n$ }
2: Syntax | job k()\n; $
";

// Kernels have their raw forms, and a fault has the line of its token.
#[test]
fn kernels(rt: HostRuntime) -> Result<(), Fail> {
    try_rows(rt.alloc(), KERNELS)?;
    try_rows(rt.alloc(), FAULTS)
}

/// A kernel with these bytes so many times before a Number, and these behind it.
fn deep(alloc: Global, before: u8, after: &[u8], times: usize) -> Result<Vec<u8>, Fail> {
    let mut text = Vec::new(alloc);
    text.extend_from_slice(b"job k() { x = ")?;
    for _ in 0..times {
        text.push(before)?;
    }
    text.push(b'1')?;
    for _ in 0..times {
        text.extend_from_slice(after)?;
    }
    text.extend_from_slice(b"; }")?;
    Ok(text)
}

#[test]
fn deep_text_is_read(rt: HostRuntime) -> Result<(), Fail> {
    let rows: [(u8, &[u8], usize); 3] = [(b'(', b")", 2), (b'-', b"", 4097), (b'!', b"", 4097)];
    for (before, after, nodes) in rows {
        let text = deep(rt.alloc(), before, after, 1000000)?;
        assert!(rt; text.len() <= 16777216);
        assert!(rt; count(rt.alloc(), &text)? == Some(nodes));
    }
    Ok(())
}

/// How many parameters and nodes the kernels have that stand in the first lines of a small file, one in each.
fn counts(alloc: Global, source: &[u8], lines: usize) -> Result<String, Fail> {
    if source.len() > 2000 {
        return Err(Fail::new("a long file"));
    }
    let marks = lex(alloc, source)?;
    let mut text = String::new(alloc);
    let mut at: u32 = 0;
    for _ in 0..lines {
        if (at as usize) < marks.len()
            && let Ok((raw, next)) = parse_kernel(alloc, source, &marks, TokenAt::of(at))
        {
            let (params, nodes) = (raw.params.len(), raw.nodes.len());
            write!(text, "{params} {nodes}, ")?;
            at = next.place().saturating_add(1);
        }
    }
    Ok(text)
}

#[test]
fn the_kernels_of_a_file_are_read_one_by_one(rt: HostRuntime) -> Result<(), Fail> {
    let source = b"\
parallel scale(x: ro array, y: wo array) { y[index] = x[index] * 3; }
job total(y: ro array, t: wo ref) { var s = 0; for k in 0..len(y) { s = s + y[k]; } t = s; }
job bump(a: rw array) { a[0] = a[0] + 1; }
job peek(a: ro array, t: wo ref) { t = a[0]; }
parallel shift(b: rw array) { b[index + 1] = b[index] + 1; }
job pair(a: ro array, b: rw array) { b[0] = a[0]; }
job both(a: ro array, b: ro array, t: wo ref) { t = a[0] + b[0]; }
parallel emit(s: wo stream) { begin s[index] { for k in 0..index % 4 { write(s, index); } } }
job slow(a: rw array) { var k = 0; while k < 300000 { k = k + 1; } a[0] = 1 / 0; }
job quick(a: rw array) { a[9] = 1; }
job keys(m: rw map, t: wo ref) { var r = 0; r = try_add(m, 1, 9); t = r; add(m, 3, 3); }
parallel push(l: rw list) { add(l, index); }
";
    let wanted = "2 6, 2 12, 1 6, 2 3, 1 8, 2 4, 3 6, 1 9, 1 15, 1 3, 2 10, 1 2, ";
    same("the kernels", &counts(rt.alloc(), source, 12)?, wanted)
}

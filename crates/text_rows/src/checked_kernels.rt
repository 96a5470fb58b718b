use crate::script_faults::repeated;
use frame_ast::kernel::Kernel;
use kernel_code::{KernelFault, TokenAt, check_kernel, lex, parse_kernel};
use row_texts::{row, same, table, unescaped};
use std::alloc::Global;
use std::fmt::Write;
use std::test::Fail;

/// The kernel that a text of less than 100,000 bytes begins with, or its first fault as a line and a kind.
fn checked(
    alloc: Global,
    source: &[u8],
    earlier: &[Kernel],
) -> Result<Result<Kernel, String>, Fail> {
    if source.len() >= 100_000 {
        return Err(Fail::new("a long text"));
    }
    let marks = lex(alloc, source)?;
    if marks.is_empty() {
        return Err(Fail::new("no token"));
    }
    let fault = match parse_kernel(alloc, source, &marks, TokenAt::of(0)) {
        Ok((raw, _)) => match check_kernel(alloc, &raw, earlier) {
            Ok(kernel) => return Ok(Ok(kernel)),
            Err(fault) => fault,
        },
        Err(fault) => fault,
    };
    match fault {
        KernelFault::Refused { line, kind } => Ok(Err(format!(in alloc; "{line}: {kind:?}")?)),
        KernelFault::NoMemory => Err(Fail::new("no memory")),
    }
}

/// The first fault of a text, or how many parameters and locals its kernel has.
fn outcome(alloc: Global, source: &[u8], earlier: &[Kernel]) -> Result<String, Fail> {
    match checked(alloc, source, earlier)? {
        Ok(kernel) => {
            let (params, locals) = (kernel.params.len(), kernel.locals);
            Ok(format!(in alloc; "{params} and {locals}")?)
        }
        Err(told) => Ok(told),
    }
}

/// Tries rows of a first fault, or of how many parameters and locals there are, and the text that they are of.
fn try_rows(alloc: Global, rows: &str) -> Result<(), Fail> {
    for line in table(rows)?.lines() {
        if let Some((wanted, text)) = row(line)? {
            let source = unescaped(alloc, text)?;
            same(line, &outcome(alloc, &source, &[])?, wanted)?;
        }
    }
    Ok(())
}

const FAULTS: &str = r"
# Unknown names
1: UnknownName | job a() { var x = y; }
2: UnknownName | job a() {\nvar x = x; }
2: UnknownName | job a() {\nvar x = index; }
2: UnknownName | job a() { if 1 { var x = 1; }\nvar y = x; }
2: UnknownName | job a() { if 1 { var x = 1; } else {\nvar y = x; } }
1: UnknownName | job a() { for k in 0..k { } }
2: UnknownName | job a() { for k in 0..1 { }\nvar x = k; }
1: UnknownName | job a(m: rw map) { y = remove(m, 1); }

# Names that are taken
2: DuplicateName | job a(x: int,\nx: int) { }
1: DuplicateName | job a(x: int) { var x = 1; }
2: DuplicateName | job a() { var x = 1; if 1 {\nvar x = y; } }
2: DuplicateName | job a() { for k in 0..1 {\nfor k in 0..1 { } } }

# Kinds
1: KindMismatch | job a(x: ro array) { var y = x; }
1: KindMismatch | job a(x: rw stream) { }
1: KindMismatch | job a(x: wo array by 2) { }
1: KindMismatch | parallel a(x: ro array by 2) { }
1: KindMismatch | job a(s: wo stream) { write(s, 1); }
2: KindMismatch | job a(s: wo stream) { begin s[0] {\nbegin s[0] { } } }
1: KindMismatch | job a(r: rw ref, m: rw map) { r = remove(m, 1); }
1: KindMismatch | job a(x: wo array by 99999999999999999999) { }
1: KindMismatch | job a(n: int) { n[0] = 1; }

# Access
2: ReadOfWriteOnly | job a(x: wo array) {\nvar y = x[0]; }
1: ReadOfWriteOnly | job a(m: wo map) { var y = 1; y = remove(m, 1); }
1: WriteOfReadOnly | job a(x: ro array) { x[0] = 1; }
1: WriteOfReadOnly | job a(n: int) { n = 1; }
1: WriteOfReadOnly | job a() { for k in 0..1 { k = 1; } }
1: WriteOfReadOnly | job a(m: ro map) { var y = 1; y = remove(m, 1); }
1: WriteOfReadOnly | job a(n: int, m: rw map) { n = try_add(m, 1, 1); }

# Limits
1: Limit | job a() { var x = 9223372036854775808; }
1: Limit | parallel a(x: wo array by 0) { }
1: Limit | parallel a(x: wo array by 1025) { }

# None
0 and 1 | job a() { var x = 9223372036854775807; }
1 and 0 | parallel a(x: wo array by 1024) { x[index] = index; }
1 and 0 | job a(s: wo stream) { begin s[0] { write(s, 1); } begin s[1] { } }
0 and 3 | job a() { if 1 { var x = 1; } else { var x = 2; } var x = 3; }
2 and 1 | job a(l: ro list, x: wo array) { for k in 0..len(x) { x[k] = l[k] + -1 * 2; } }
";

const LONG_FAULTS: &str = "
2: Limit | job z(a: int, b: int, c: int, d: int, e: int, f: int, g: int, h: int, i: int, j: int, k: int, l: \
    int, m: int, n: int, o: int, p: int,\\nq: int) { }
16 and 0 | job z(a: int, b: int, c: int, d: int, e: int, f: int, g: int, h: int, i: int, j: int, k: int, l: \
    int, m: int, n: int, o: int, p: int) { }
0 and 64 | job a() { var v0 = 1; var v1 = 1; var v2 = 1; var v3 = 1; var v4 = 1; var v5 = 1; var v6 = 1; var v7 \
    = 1; var v8 = 1; var v9 = 1; var v10 = 1; var v11 = 1; var v12 = 1; var v13 = 1; var v14 = 1; var v15 = 1; \
    var v16 = 1; var v17 = 1; var v18 = 1; var v19 = 1; var v20 = 1; var v21 = 1; var v22 = 1; var v23 = 1; var \
    v24 = 1; var v25 = 1; var v26 = 1; var v27 = 1; var v28 = 1; var v29 = 1; var v30 = 1; var v31 = 1; var v32 \
    = 1; var v33 = 1; var v34 = 1; var v35 = 1; var v36 = 1; var v37 = 1; var v38 = 1; var v39 = 1; var v40 = 1; \
    var v41 = 1; var v42 = 1; var v43 = 1; var v44 = 1; var v45 = 1; var v46 = 1; var v47 = 1; var v48 = 1; var \
    v49 = 1; var v50 = 1; var v51 = 1; var v52 = 1; var v53 = 1; var v54 = 1; var v55 = 1; var v56 = 1; var v57 \
    = 1; var v58 = 1; var v59 = 1; var v60 = 1; var v61 = 1; var v62 = 1; var v63 = 1; }
2: Limit | job a() { var v0 = 1; var v1 = 1; var v2 = 1; var v3 = 1; var v4 = 1; var v5 = 1; var v6 = 1; var v7 \
    = 1; var v8 = 1; var v9 = 1; var v10 = 1; var v11 = 1; var v12 = 1; var v13 = 1; var v14 = 1; var v15 = 1; \
    var v16 = 1; var v17 = 1; var v18 = 1; var v19 = 1; var v20 = 1; var v21 = 1; var v22 = 1; var v23 = 1; var \
    v24 = 1; var v25 = 1; var v26 = 1; var v27 = 1; var v28 = 1; var v29 = 1; var v30 = 1; var v31 = 1; var v32 \
    = 1; var v33 = 1; var v34 = 1; var v35 = 1; var v36 = 1; var v37 = 1; var v38 = 1; var v39 = 1; var v40 = 1; \
    var v41 = 1; var v42 = 1; var v43 = 1; var v44 = 1; var v45 = 1; var v46 = 1; var v47 = 1; var v48 = 1; var \
    v49 = 1; var v50 = 1; var v51 = 1; var v52 = 1; var v53 = 1; var v54 = 1; var v55 = 1; var v56 = 1; var v57 \
    = 1; var v58 = 1; var v59 = 1; var v60 = 1; var v61 = 1; var v62 = 1; var v63 = 1; \\nvar w = y; }
";

// Each token has its fault.
#[test]
fn kernels(rt: HostRuntime) -> Result<(), Fail> {
    try_rows(rt.alloc(), FAULTS)?;
    try_rows(rt.alloc(), LONG_FAULTS)
}

// Of texts with a part so many times.
const LENGTHS: &str = r"
0 and 1 | 61 | job a() { var x =\x20 | - | 1; }
0 and 1 | 62 | job a() { var x =\x20 | - | 1; }
1: Limit | 63 | job a() { var x =\x20 | - | 1; }
65: Limit | 5000 | job a() { var x = | \n- | 1; }
0 and 1 | 62 | job a() { var x = 1 | \x20+ 1 | ; }
1: Limit | 63 | job a() { var x = 1 | \x20+ 1 | ; }
0 and 0 | 2048 | job a() {\x20 | if 1 { }\x20 | }
2: Limit | 2048 | job a() {\x20 | if 1 { }\x20 | \nwhile 1 { } }
2050: Limit | 5000 | job a() { | \nif 1 { } | \x20}
0 and 0 | 64 | job\x20 | a | () { }
1: Limit | 65 | job\x20 | a | \n() { }
";

#[test]
fn limits_are_met_at_one_more(rt: HostRuntime) -> Result<(), Fail> {
    let alloc = rt.alloc();
    for line in table(LENGTHS)?.lines() {
        if let Some((wanted, parts)) = row(line)? {
            let source = repeated(alloc, parts)?;
            same(line, &outcome(alloc, &source, &[])?, wanted)?;
        }
    }
    Ok(())
}

/// A sum of 2048 numbers, in parentheses, no number of which stands under more than 11 operators.
fn wide_sum(alloc: Global) -> Result<String, Fail> {
    let mut sum = String::from_str(alloc, "1")?;
    for _ in 0..11 {
        sum = format!(in alloc; "({sum}+{sum})")?;
    }
    Ok(sum)
}

/// Two such sums, and so many numbers behind them.
fn two_sums(alloc: Global, count: u32) -> Result<String, Fail> {
    let sum = wide_sum(alloc)?;
    let mut text = format!(in alloc; "job a() {{ var x =\n{sum}\n+ {sum}")?;
    for _ in 0..count {
        text.push_str(" + 1")?;
    }
    text.push_str("; }")?;
    Ok(text)
}

// The `+` between the two sums is one node too many. Operators behind it can make the first number too deep.
#[test]
fn operators_behind_too_many_nodes_count_in_the_depth_of_the_first(
    rt: HostRuntime,
) -> Result<(), Fail> {
    let alloc = rt.alloc();
    for (count, wanted) in [(50, "3: Limit"), (51, "2: Limit")] {
        let text = two_sums(alloc, count)?;
        same("two sums", &outcome(alloc, text.as_bytes(), &[])?, wanted)?;
    }
    Ok(())
}

// A file has at most 256 kernels, and a name of an earlier one is taken.
#[test]
fn earlier_kernels(rt: HostRuntime) -> Result<(), Fail> {
    let alloc = rt.alloc();
    let mut earlier = Vec::new(alloc);
    for i in 0..256u32 {
        let text = format!(in alloc; "job k{i}() {{ }}")?;
        let Ok(kernel) = checked(alloc, text.as_bytes(), &earlier)? else {
            return Err(Fail::new("it is refused"));
        };
        earlier.push(kernel)?;
        if i == 0 {
            let told = outcome(alloc, b"job\nk0() { }", &earlier)?;
            same("a name that is taken", &told, "2: DuplicateName")?;
        }
    }
    let told = outcome(alloc, b"job\na() { }", &earlier)?;
    same("one kernel too many", &told, "2: Limit")
}

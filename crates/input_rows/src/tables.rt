// Tables, each with what it gives.
use row_texts::{halves, row, same, table, unescaped};
use std::alloc::Global;
use std::fmt::Write;
use std::test::Fail;
use table_in::{Table, TableFault, read_columns, read_table};

/// The values of the first column of that name, or that there is none, or why a text is no table.
fn written(alloc: Global, read: Result<Table, TableFault>, name: &[u8]) -> Result<String, Fail> {
    let mut written = String::new(alloc);
    match read {
        Ok(table) => match table.column(name) {
            Some(values) => {
                for value in values {
                    write!(written, "{value} ")?;
                }
            }
            None => written.push_str("none")?,
        },
        Err(fault) => write!(written, "{fault}")?,
    }
    Ok(written)
}

/// The same of a short text, which is read with all of its columns, and again for this one alone.
fn told(alloc: Global, text: &[u8], name: &[u8]) -> Result<String, Fail> {
    if text.len() >= 100 {
        return Err(Fail::new("a long text"));
    }
    let whole = written(alloc, read_table(alloc, text), name)?;
    let mut asked = Vec::new(alloc);
    asked.push(name.to_vec(alloc)?)?;
    let alone = written(alloc, read_columns(alloc, text, &asked), name)?;
    same("the column alone", &alone, &whole)?;
    Ok(whole)
}

/// The values of the first column of a name, the name, and the text.
const COLUMNS: &str = r#"
2 4 | b | a,b\n1,2\n3,4\n
1 3 | a | a,b\n1,2\n3,4
none | c | a,b\n1,2\n
none |  | a,b\n1,2\n
2 4 | b | a,b\r\n1,2\r\n3,4\r\n
2 4 | b | a,b\r1,2\r3,4
1 2 | a | \n\na\n\n1\n\r\n\n2\n\n
7 | a | \xEF\xBB\xBFa\n7\n
1 | a | "a"\n"1"\n
1 | a "b", | "a ""b"",",c\n1,2\n
5 | a\nb | "a\nb"\n5\n
2 | a | \x20a ,a\n1,2\n
1 | \x20a\x20 | \x20a ,a\n1,2\n
1 | a | a,a\n1,2\n
2 5 | b | a,b,c,b\n1,2,3,4\n4,5,6,7\n
| b | a,b\n
12 -3 | a | a\n  12  \n -3\n
0 7 -7 | a | a\n-0\n007\n-007\n
9223372036854775807 -9223372036854775808 | a | a\n9223372036854775807\n-9223372036854775808\n
1 | a | a\n00000000000000000000000000000001\n
2 |  | a,\n1,2\n

# Spaces round numbers, and ends of lines of each kind.
-2 4 | b | a,b\n 1 ,  -2 \n3,4\n
1 2 | a | a\n\r\n\r1\r\r2

# Numbers of more digits than are sure to fit.
999999999999999999 1000000000000000000 | a | a\n999999999999999999\n1000000000000000000\n
-9223372036854775808 | a | a\n-000000000000000000009223372036854775808\n

# Names in quotes, with plain numbers below them.
2 | c | "a,\nb",c\n1,2\n
1 | a"\nb | "a""\nb",c\n1,2\n
1 | a"b | a"b,c\n1,2\n

# A field in quotes after plain ones, and plain ones after it.
3 6 9 | c | a,b,c\n1,2,3\n"4",5,6\n7,8,9
1 2 3 | a | a\n1\n"2"\n3\n
2 4 6 | b | a,b\n1,2\n"3"," 4"\n5,6
1 3 | a | a,b\n1,2\n\r\n3,"4"
"#;

#[test]
fn reads_columns(rt: HostRuntime) -> Result<(), Fail> {
    let alloc = rt.alloc();
    for line in table(COLUMNS)?.lines() {
        if let Some((wanted, of)) = row(line)? {
            let (name, text) = halves(of).ok_or("a name")?;
            let (name, text) = (unescaped(alloc, name)?, unescaped(alloc, text)?);
            same(line, told(alloc, &text, &name)?.as_str().trim_end(), wanted)?;
        }
    }
    Ok(())
}

/// The fault of a text that is no table, and the text. The record of names is number 1.
const FAULTS: &str = r#"
empty |
empty | \n\r\n\n
empty | \xEF\xBB\xBF
row 3: unequal row | a,b\n1,2\n3\n
row 2: unequal row | a,b\n1,2,3\n
row 2: unequal row | a,b\n\n1\n
row 2: not a number | a,b\n1,x\n1\n
row 2: unequal row | a,b\n1\n1,x\n
row 2: unequal row | a,b\nx\n
row 3: not a number | a\n1\nx\ny\n
row 2: not a number | a\n   \n
row 2: not a number | a\n""\n
row 2: not a number | a\n\n""\n
row 2: not a number | a\n+5\n
row 2: not a number | a\n\t5\n
row 2: not a number | a\n- 5\n
row 2: not a number | a\n--5\n
row 2: not a number | a\n5 5\n
row 2: not a number | a\n-\n
row 2: not a number | a\n9223372036854775808\n
row 2: not a number | a\n-9223372036854775809\n
row 3: not a number | a\n1\n\xFF\n

# A byte-order mark counts at the head alone.
row 2: not a number | a\n\xEF\xBB\xBF7\n
row 3: not a number | a\n1\n\n\xEF\xBB\xBF7\n

# Faults after plain records.
row 3: not a number | a,b\n1,2\n1,\n
row 3: unequal row | a,b\n1,2\n1,2,3\n
row 3: unequal row | a,b\n1,2\n1,2,\n
row 4: not a number | a\n1\n"2"\nx\n
row 3: not a number | a\n1\n"2\n3"\n
row 2: not a number | a\n1-2\n
row 2: not a number | a\n18446744073709551617\n
"#;

#[test]
fn finds_faults(rt: HostRuntime) -> Result<(), Fail> {
    for line in table(FAULTS)?.lines() {
        if let Some((wanted, text)) = row(line)? {
            let text = unescaped(rt.alloc(), text)?;
            same(line, &told(rt.alloc(), &text, b"")?, wanted)?;
        }
    }
    Ok(())
}

#[test]
fn keeps_what_is_asked_for(rt: HostRuntime) -> Result<(), Fail> {
    let alloc = rt.alloc();
    let mut asked = Vec::new(alloc);
    asked.push(b"d".as_slice().to_vec(alloc)?)?;
    asked.push(b"b".as_slice().to_vec(alloc)?)?;
    let table = read_columns(alloc, b"a,b,c\n1,2,3\n\"4\",5,6\n".as_slice(), &asked)?;
    assert!(rt; table.column(b"a".as_slice()).is_none());
    assert!(rt; table.column(b"b".as_slice()) == Some([2i64, 5].as_slice()));
    assert!(rt; table.column(b"c".as_slice()).is_none());
    assert!(rt; table.column(b"d".as_slice()).is_none());
    Ok(())
}

/// Each fault, and how it is told.
const KINDS: [TableFault; 4] = [
    TableFault::Empty,
    TableFault::Unequal { row: 3 },
    TableFault::NotNumber { row: 67_108_864 },
    TableFault::NoMemory,
];

const TEXTS: &str = "empty; row 3: unequal row; row 67108864: not a number; out of memory; ";

#[test]
fn tells_faults(rt: HostRuntime) -> Result<(), Fail> {
    let mut told = String::new(rt.alloc());
    for fault in KINDS {
        write!(told, "{fault}; ")?;
    }
    same("each fault", &told, TEXTS)
}

#[test]
fn takes_a_column(rt: HostRuntime) -> Result<(), Fail> {
    let mut table = Table::none(rt.alloc());
    assert!(rt; table.column(b"a".as_slice()).is_none());
    table.push_column(rt.alloc(), b"a".as_slice(), [7i64, -8].as_slice())?;
    assert!(rt; table.column(b"a".as_slice()) == Some([7i64, -8].as_slice()));
    Ok(())
}

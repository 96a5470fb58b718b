use crate::tables::has_row;
use crate::{row, same, table, unescaped};
use std::fmt::Write;
use std::test::Fail;

const ROWS: &str = r#"
# a comment, and an empty line

2: Syntax | print "x" |
 | x | y
"#;

#[test]
fn rows_and_escapes(rt: HostRuntime) -> Result<(), Fail> {
    let mut told = String::new(rt.alloc());
    for line in table(ROWS)?.lines() {
        if let Some((wanted, text)) = row(line)? {
            write!(told, "[{wanted}][{text}]")?;
        }
    }
    same(ROWS, &told, "[2: Syntax][print \"x\" |][][x | y]")?;
    assert!(rt; !has_row("# a | b\n\nno row\n#|") && has_row("# a | b\n1|2"));
    let bytes = unescaped(rt.alloc(), r"a\n\r\t\x00\x7F\xeF\\\|\q \x2")?;
    assert_eq!(rt; bytes.as_slice(), b"a\n\r\t\x00\x7F\xEF\\|q ".as_slice());
    Ok(())
}

// Frames with a table, at each number of workers.

use crate::frames::{Given, difference, with_kernels};
use crate::texts::{row_of, unescaped};
use std::test::Fail;

const PRINTED: &str = "column p \"price\"
print p
";

const ADDED: &str = "column p \"price\"
reference t
schedule h total(p, t)
complete h
print t
";

const PRICES: &str = "item,price
1,250
2,-30
3,80
";

// What is answered where the file is added up.
const TABLES: &str = r"0 t = 300\n | item,price\n1,250\n2,-30\n3,80\n
0 t = 0\n | item,price\n
4 table refused row 3: not a number\n | item,price\n1,250\nx,80\n
4 table refused row 2: unequal row\n | item,price\n1\n
4 table refused: empty\n |
4 table refused: no column price\n | item,cost\n1,250\n
";

#[test]
fn columns_and_faults(rt: HostRuntime) -> Result<(), Fail> {
    let alloc = rt.alloc();
    let added = with_kernels(alloc, ADDED)?;
    for row in TABLES.lines() {
        let (status, text, table) = row_of(alloc, row)?;
        let table = unescaped(alloc, table)?;
        let given = Given::both(&added, &table);
        let told = difference(&rt, &["s", "t"], &given, status, &text)?;
        assert_eq!(rt; told, None, "{row}");
    }
    let none = "table refused: no column price\n";
    let given = Given::script(&added);
    assert_eq!(rt; difference(&rt, &["s"], &given, 4, none)?, None);
    let printed = with_kernels(alloc, PRINTED)?;
    let given = Given::both(&printed, PRICES);
    let text = "p = [250, -30, 80]\n";
    assert_eq!(rt; difference(&rt, &["s", "t"], &given, 0, text)?, None);
    Ok(())
}

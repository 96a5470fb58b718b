// Rows of tests as lines of a constant. The checker goes through an array of rows one by one, and a row costs it some
// 30 times what a line does.

use std::alloc::Global;
use std::test::Fail;

/// A text in which `\n` stands for the end of a line.
pub fn unescaped(alloc: Global, text: &str) -> Result<String, Fail> {
    Ok(text.replace(alloc, r"\n", "\n")?)
}

/// Of a row `5 a = [1]\n | print a` the status and the text that are wanted, and what they are wanted of.
pub fn row_of(alloc: Global, row: &str) -> Result<(u8, String, &str), Fail> {
    let (want, of) = row.split_once(" |").ok_or("a row without a bar")?;
    let (status, text) = match want.split_once(' ') {
        Some(both) => both,
        None => (want, ""),
    };
    let status = status.parse::<u8>().ok().ok_or("a row without a status")?;
    Ok((status, unescaped(alloc, text)?, of.trim_start()))
}

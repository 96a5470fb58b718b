// Rows of tests as lines of a constant: the lines of a script, and then one that begins with a bar and says what is
// wanted of it. The checker goes through an array of rows one by one, and a row costs it some 30 times what a line
// does.

use std::test::Fail;

/// What is wanted, where a line ends a row of several lines: `| 13 fill 2 a;`.
pub fn wanted_in(line: &str) -> Option<&str> {
    match line.strip_prefix('|') {
        Some(want) => Some(want.trim()),
        None => None,
    }
}

/// One more line of a script.
pub fn push_line(script: &mut String, line: &str) -> Result<(), Fail> {
    script.push_str(line)?;
    script.push_str("\n")?;
    Ok(())
}

//! Calls as rows write them, and what they answer: `put 5 10 | Ok(())`.

use std::alloc::Global;
use std::fmt::Debug;
use std::test::Fail;

/// An answer as rows write it.
pub fn told<T: Debug + Drop>(alloc: Global, answer: T) -> Result<String, Fail> {
    Ok(format!(in alloc; "{answer:?}")?)
}

/// A number of a row.
pub fn number(word: &str) -> Result<i64, Fail> {
    Ok(word.parse::<i64>().ok().ok_or("no number")?)
}

/// A place, an index or a length of a row.
pub fn place(word: &str) -> Result<u32, Fail> {
    Ok(word.parse::<u32>().ok().ok_or("no place")?)
}

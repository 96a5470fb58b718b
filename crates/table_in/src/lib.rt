//! Reads a table of numbers, with a row of column names first.
//!
//! A table is a text of comma-separated values, as the crate `csv` reads it with its default settings: a byte-order
//! mark at the head is skipped, and empty lines give no record. The first record holds the names of the columns, and
//! every later one has a number for each column.
//!
//! The records below the names are mostly plain: digits, a `-` before them, spaces round them, commas between. Those
//! are read where they stand, in one pass over the bytes. From the first other record on, as one with a quote in it or
//! a faulty one, `csv` reads the text record by record: so a table with a field in quotes near its head is read slowly.
//!
//! Who asks for some of the columns gets these alone, which takes less memory: of all others each field is looked at,
//! and none is kept.
#![tactic(auto)]

mod columns;
mod fields;
mod names;
mod numbers;
mod plain;
mod reading;
mod rows;

pub use columns::Table;
pub use reading::{read_columns, read_table};
use thiserror::Error;

/// Why a text is no table. Records are numbered from 1, the record of the names included.
#[derive(Clone, Copy, Debug, PartialEq, Eq, Error)]
pub enum TableFault {
    /// There is no record at all.
    #[error("empty")]
    Empty,
    /// The first faulty record has another number of fields than the first record.
    #[error("row {row}: unequal row")]
    Unequal { row: u32 },
    /// The first faulty record has as many fields, and one of them is no number.
    #[error("row {row}: not a number")]
    NotNumber { row: u32 },
    /// Memory was not found.
    #[error("out of memory")]
    NoMemory,
}

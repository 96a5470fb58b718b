//! Scripts as texts: what the tokens of a file say before any name is looked up.
//!
//! `file_events` reads the events of the grammar of a whole file. From the first one on, `raw_item` says what stands
//! next: a kernel, by where its events end; a statement, put together into its raw form, in which each part is the
//! place of a token; or the end of a block. `known_item` says the same of the statements that many lines are, in less
//! room. A [`Source`] says what the token at a place is: a text, a number, a comparison; a [`LineCursor`] says on which
//! line it lies. A statement with no list takes no memory, and the values of an array stay where the grammar has them,
//! so a file is gone over once, in a time of its length.
//!
//! `specs/Raw` has the raw forms, `specs/Events` which events spell each of them, `specs/Places` that a token of the
//! right kind stands at each place of a file's items, and `specs/Items` what is left of a file at an event.
#![tactic(auto)]

mod build;
mod build_file;
mod build_item;
mod build_kernel;
mod build_scalars;
mod known_orders;
mod line_cursor;
mod raw;
mod source;
mod values;

pub use build_file::file_events;
pub use build_item::{RawItem, raw_item};
pub use known_orders::{KnownItem, KnownOrder, known_item};
pub use line_cursor::LineCursor;
pub use raw::{RawArg, RawNumber, RawOrder, RawSizes};
pub use source::Source;
pub use values::count_values;

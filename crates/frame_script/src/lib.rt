//! Scripts as files: the script that the bytes of a file parse to, or the line and the kind of its first fault.
//!
//! `parse_script` finds the tokens of a file and the events of its grammar, and goes over its items once. A kernel is
//! checked, and known from then on; a statement is checked, its name is known after it, and it is written out; a
//! `repeat` is written out as often as it says, a `when` counts the statements of its block. A file is refused for its
//! first fault: of syntax, else static, else `TooLong`.
//!
//! `specs/Loading` says which script the bytes parse to, and for what they are refused; `specs/Files` the same of the
//! items of a file. `specs/Walking` says what is known between two items, `specs/Writing` what is written by then.
#![tactic(auto)]

mod copies;
mod fault;
mod guard_room;
mod load;
mod walk;
mod walk_kernel;
mod walk_order;
mod written;

pub use fault::LoadFault;
pub use frame_ast::script::{Arg, Order, Script, Sign, Statement};
pub use load::parse_script;

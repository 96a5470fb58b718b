//! The texts that a run prints: the lines of containers, of refusals, of traps and of overdue containers.
//!
//! A run has one [`Outgoing`], which its lines are put into and which calls a sink once for some 65,000 bytes. The
//! contract of each call says which bytes join those that wait: those of the definition in `frame_ast`. After a fault
//! the sink has taken some first part of what waited and of the line, and a fault is answered only where the sink's
//! count of faults rose. A text that comes alone, as that of a refused script, is written to the sink at once.
//!
//! No call but [`Outgoing::new`] takes memory. Numbers of up to four digits are written in place, longer and negative
//! ones by `itoa`.
#![tactic(auto)]

mod cells;
mod container;
mod entries;
mod lines;
mod numbers;
mod outgoing;
mod pairs;
mod refusal;
mod script_refusal;
mod texts;
mod waiting;

pub use outgoing::Outgoing;
pub use script_refusal::print_script_refusal;
pub use texts::{print_parts, print_text};

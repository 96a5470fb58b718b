//! One statement of a file, checked against the names and the kernels that are known before it: its first static fault,
//! or what it says.
//!
//! `check_order` takes a statement without a block, `check_known` one of those that many lines are, `valued_array` an
//! array with values, `check_repeat` and `check_when` what stands before the brace of a block. Each answers the first
//! fault in the order of the statement's tokens (`specs/Faults`), or the statement of a script that the text says
//! (`specs/Spelling`), in which a name is its place among those of the script. `script_names` finds the place of a
//! name; [`Kernels`] finds that of a kernel, in a tree.
#![tactic(auto)]

mod checks;
mod fault;
mod kernels;
mod order_checks;
mod values;

pub use fault::OrderFault;
pub use kernels::Kernels;
pub use order_checks::{
    Comparison, Valued, check_known, check_order, check_repeat, check_when, valued_array,
};

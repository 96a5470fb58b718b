//! Functions of a kernel's tree: how large it is, and copies of it.
//!
//! `size_of` counts the nodes of a checked kernel and its depth. `copy_kernel` copies a kernel, `copy_params` and
//! `copy_statements` its parts, into memory of their own. Each takes a time in the nodes of the kernel, at most
//! `MOST_NODES`; nodes lie at most `MOST_DEPTH` deep, so none needs a deep stack.
#![tactic(auto)]

mod copies;
mod sizes;

pub use copies::{copy_kernel, copy_params, copy_statements};
pub use sizes::{Size, size_of};

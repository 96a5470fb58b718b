//! Kernels as texts, run on binds over flat memory: rows of a text, what it is run on, and what it has to do.
//!
//! `kernel_at` reads a kernel, `fits` tests that binds suit it and stand in the memory, `run` runs its code at an
//! index, and `run_indexes` at indexes that follow one another.
#![tactic(auto)]

mod execution;
mod fit;
mod read;
#[cfg(test)]
mod rows;
#[cfg(test)]
mod tests;

pub use execution::{run, run_indexes};
pub use fit::fits;
pub use read::kernel_at;

//! The containers over flat memory: arrays and references, lists, maps and streams, each as rows of calls and what they
//! give. Tests alone.
//!
//! Rows are lines of constants, as `row_texts` reads them: a call, a bar, and the answer as Rust writes it.
#![tactic(auto)]

#[cfg(test)]
mod arrays;
#[cfg(test)]
mod calls;
#[cfg(test)]
mod lists;
#[cfg(test)]
mod maps;
#[cfg(test)]
mod streams;

//! Sets of jobs, and the book of all jobs of a script: what each of them waits for, and which are completed.
//!
//! A [`Handle`] is a set of jobs in a fixed array of bits, so handles take no memory. The [`JobBook`] keeps one such
//! set for each job, with the job and all its ancestors, so that whether a job waits for another is one test.
//!
//! `specs/Sets` says which set a handle is, and which books of the definitions (`Book` of `frame_ast`, with the
//! dependency set of each job) a `JobBook` stands for. Each call is exact for every book that it stands for.
#![tactic(auto)]

mod book;
mod handle;

pub use book::{BookFault, JobBook};
pub use handle::Handle;

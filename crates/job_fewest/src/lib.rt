//! Of the jobs that a job waits for, the fewest that lead to all the others.
//!
//! A picture of a frame that drew an arrow for each wait would have an arrow from nearly every job to nearly every
//! later one. [`fewest`] leaves out each wait that another one implies: the transitive reduction, for one job at a
//! time. It goes from the latest job down and takes each that none of those taken leads to, so it asks each job once
//! and makes a union only for those that it takes.
//!
//! `specs/Fewest` says what is promised: each answer is of the set, each job of the set is led to by an answer, and no
//! answer leads to another.
#![tactic(auto)]

mod reducing;

pub use reducing::{Reduction, fewest};

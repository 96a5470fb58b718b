//! The books: batches, sets of jobs, the jobs of a script, ranges of words, uses of containers, automatic dependencies
//! and the fewest jobs that lead to others, each as rows of calls and what they give. Tests alone.
//!
//! Rows are lines of constants: the checker goes through an array of calls and answers one by one, and a row of one
//! costs it some 30 times what a line does.
#![tactic(auto)]

#[cfg(test)]
mod automatic;
#[cfg(test)]
mod batches;
#[cfg(test)]
mod containers;
#[cfg(test)]
mod fewest;
#[cfg(test)]
mod jobs;
#[cfg(test)]
mod ranges;
#[cfg(test)]
mod sets;

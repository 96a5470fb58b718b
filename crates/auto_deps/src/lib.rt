//! Automatic dependencies: which jobs a statement has to wait for, so that nothing that uses its containers blocks it.
//!
//! The safety book keeps few jobs of each container: the last that writes it and those that read it since. From the
//! newest of them down, a job is answered unless it happens before the statement anyway: it was completed, the
//! statement waits for it, or it is an ancestor of one that was answered. So the answer is the least that has to be
//! waited for.
//!
//! A job that is answered costs a step for each 64 jobs of the book, and so does a use; no two jobs are ever compared.
//! No memory is taken.
//!
//! `specs/Needs` says which needs of the definitions (`Need` of `frame_ast`) a list of uses is. The answer is the set
//! `automatic` of `frame_ast`, for all uses of the containers that the book stands for.
#![tactic(auto)]

mod choosing;

pub use choosing::automatic;

//! Why a plan does what its script says where the length of a job is deferred: the law that a planner stands on beside
//! those of plan_laws. There is no code here: each function is a law, which does nothing, and its contract says the law
//! over the definitions in `specs/`.
//!
//! A schedule with `defer l BATCH` has the length that list l has where the schedule stands in script order, but a plan
//! fixes the pieces of a job before anything runs. So the job is one of the guarded kernel that job_defer makes, with
//! an index for each element that the list can have. Its last array is the word in which the list keeps its length.
//!
//! `specs/GuardedRuns` says that such a job does at all its indexes what the old kernel does at those below the length.
//! `specs/Deferring` says that so the guarded kernel stands in for the schedule's own, which is what plan_laws asks of
//! the kernel of any schedule.
//!
//! That a planner makes such a job isn't said here, nor which kernels have a guarded one.
#![tactic(auto)]

pub mod laws;

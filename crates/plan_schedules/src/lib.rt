//! The schedules: a job that is refused, or that the segment at hand of a plan starts.
//!
//! A schedule looks at the containers of its arguments (`uses`), finds the first cause for which it is refused
//! (`causes`), gathers what its job waits for (`scheduling`) and what it runs: a copy of its kernel on the words of its
//! arguments (`job_binds`), or with `defer` a guarded copy that reads the length of its list (`deferring`). Then the
//! books have the job (`accepting`).
//!
//! [`schedule`] changes what statements see, and answers a refusal or the job. Each planner that takes the answer goes
//! from the state before the statement to the one after it (`specs/Starts` of plan_state). Why the job does what its
//! schedule says is shown in `plan_laws`.
//!
//! *Cost.* A job costs a set of 4,096 bits, and for each argument a look at the safety book and one at each argument
//! before it. What a schedule without `defer` gathers stands in memory that one schedule leaves to the next
//! ([`Gathered`]), so one that is refused takes none.
#![tactic(auto)]

mod accepting;
mod causes;
mod deferred_uses;
mod deferring;
mod gathered;
mod job_binds;
mod kinds;
mod new_job;
mod note_uses;
mod scheduling;
mod uses;

pub use gathered::Gathered;
pub use kinds::schedule;

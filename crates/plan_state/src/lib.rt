//! What the script's thread knows between two statements, and the plan so far.
//!
//! A [`Planner`] is a [`World`] and a [`Draft`]. The world is what statements see: what names stand for, the containers
//! by their numbers, who uses them and where they lie (`job_handle`, `safety_handle`, `slot_store`). The draft is the
//! plan so far. `specs/Stands` says what they stand for: the state that the script is in, and a plan that does what the
//! script did. `specs/Steps` says how a statement takes the one state to the next, and `specs/Growth` what the plan
//! grows by: a range, a job, and what is waited for.
//!
//! No statement has a draft: it changes the world, and answers what the plan gets. The draft takes it: operations and
//! the end of a segment (`specs/Answers`), or a job, for which it has a copy of the job's kernel (`specs/Starts`,
//! `specs/Copies`). So what has to hold of the plan is argued once, where it grows.
//!
//! Here are the looks and the small changes that statements share: the words of a name, why the script may not use it
//! now, another value for a name. The statements themselves are functions over a world, in `plan_statements` and in
//! `plan_schedules`.
//!
//! How much work an index of a kernel is, is known where no statement repeats others (`works`). Where it is kept, a job
//! of little work is one piece (`specs/Works`).
//!
//! *Cost.* A look costs the same whatever was made or scheduled before, but for the jobs of several names, which are
//! sets of 4,096 bits. The kernels that jobs run are copied and compiled once (`copies`).
#![tactic(auto)]

mod access;
mod answer;
mod blocked;
mod copies;
mod draft;
mod start;
mod state;
mod works;

pub use answer::Answer;
pub use blocked::refusal_of_blocked;
pub use start::{JobAnswer, Start};
pub use state::{Container, Draft, PlanFault, Planner, Value, World};
pub use works::{SMALL_WORK, work_of};

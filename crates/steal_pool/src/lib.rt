//! The workers that run a plan on a board, while the script thread says its lines.
//!
//! The script thread runs the segments one after another ([`plan_run`]). While it waits for jobs it helps: like every
//! worker it takes an open job from its own deque, the newest first, or steals the oldest one of another's, and offers
//! it again where it has more pieces than those that it runs then. It goes on with this job, claim by claim, until all
//! pieces are given out. Each is given once, and up to sixteen small ones, or all that are little work, in one claim
//! ([`piece_claims`]). Who runs which piece and when says nothing of what is printed: the board gives each piece the
//! cells of the run in script order. So what [`run`] promises is proved of the first seat alone.
//!
//! **Cost.** A claim costs its steps at the job's count and a visit of the job ([`piece_run`]); a piece costs the steps
//! of its board and its indexes. A job costs one push and one pop or steal for each worker that comes to it, and a step
//! for each job that depends on it. Nothing is allocated, locked or scanned for a piece or a job. A deque has 24 bytes
//! for each of two pushes a job, so a plan of 4,096 jobs takes 0.2 MB a worker. A worker without a piece looks at each
//! deque some ten times, backing off, and then sleeps ([`idle_workers`]), until a job is offered that nobody looks for;
//! to see whether such a wake-up is needed costs one load a job. A plan without pieces of jobs, or with one place,
//! starts no thread.
//!
//! **What is said is seen.** Before the script thread waits for a job that isn't finished, the lines that wait in the
//! run's buffer are written.
//!
//! **By turns.** Where the caller has threads of his own, as an engine has, they are the workers ([`Turns`]): a call
//! runs one piece or one segment at most, and returns. None waits, sleeps, wakes or starts a thread, so a library that
//! other languages link may have them. Between its turns the script's thread keeps how far it is, a [`Standing`].
//!
//! **That a run ends is not proved**, since threads may wait. It rests on this: whoever may open a job opens each piece
//! before it offers the job (proved: only a seat with none left to open offers one); a deque has room for every job
//! twice (proved), and its worker offers each job once where it opens it and once where it takes it up; what is offered
//! stays in a deque until somebody takes it; who takes up a job goes on until all its pieces are given out, or is the
//! script thread and offered it before; a piece that was given out is run by who got it, and can be begun; the worker
//! of a job's last piece releases what depends on the job before it looks for another piece; a worker ends only where
//! it found none and the script is through; and nobody sleeps while there is something that he looks for.
//!
//! The last of these is so since a worker looks once more after it announced that it will sleep: at all deques, and at
//! whether the script is through, or the script thread at whether its job is finished. Who ends the script, or finishes
//! the job that the script thread sleeps for, wakes all. Who takes up a job sees after that whether it leaves one
//! behind, in its own deque or another's, while others sleep and nobody looks for it, and then wakes one of them; so
//! does the script thread before it goes on with its segments. A worker that opened jobs takes up the newest one
//! itself.
#![tactic(auto)]

mod crew;
mod held;
mod idling;
pub mod laws;
mod pieces;
mod place;
mod queue;
mod room;
mod script;
mod sections;
mod shown_plan;
mod standing;
mod threads;
mod turns;
mod waiting;
mod whole;

pub use crew::Shared;
pub use place::Place;
pub use room::PoolRoom;
pub use sections::join_reports;
pub use shown_plan::{ShowsPlan, may_be_shared};
pub use standing::Standing;
pub use turns::{HelperTurn, ScriptTurn, Turns};
pub use whole::{run, run_lines};

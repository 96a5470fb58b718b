//! Which jobs of a planned frame wait for which, and which of these waits a picture has to draw.
//!
//! A job waits for its dependencies, and for every job that the script had completed before it scheduled the job. That
//! is nearly every earlier job, so [`arrows`] leaves out each wait that another one implies. What is left is marked: a
//! dependency, or a job that nothing but a `complete` in between puts before this one, which is where the script's own
//! thread made the frame wait.
//!
//! It goes along the segments once, with a row of bits for each job: the job and all that comes before it. A job costs
//! a step for each earlier one, and a union for each of its waits. Levels are those of `job_depth`.
//!
//! `specs/Arrows` says what is promised: the arrows of a job are the transitive reduction of all that leads to it,
//! where a job leads to another one if each piece of the one leads to each piece of the other.
#![tactic(auto)]

mod arrow;
mod sets;
mod walk;

pub use arrow::{Arrow, Cause};
pub use walk::arrows;

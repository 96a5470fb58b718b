//! The picture of a planned script: a box for each job and for each refused schedule, and an arrow for each wait that
//! no other waits imply.
//!
//! [`follow_part`] goes along the statements of a section of a script and its plan together, and finds which schedules
//! left a job and which a refusal. [`draw_at`] makes the picture of both, as plain data that `view_text` writes. A
//! script without a `when` is one section ([`follow`], [`draw`]).
//!
//! *Promise.* `specs/Pictures` has what a picture shows of a plan: its boxes are those of the plan's jobs in their
//! order, each with its number, its level and its lines, and after them those of the refused schedules; its arrows are
//! exactly those of `plan_waits`, and one for each schedule that a job blocks. `specs/Stories` has what a story is: its
//! schedules stand in the section, in rising order, none both left a job and was refused, and each refusal is one that
//! the plan says; what is passed by, as the block of a `when` whose test doesn't hold, isn't told of.
//!
//! *Not said.* That the schedule whose lines a job's box has is the one that made this job: a plan has no line of a
//! schedule, so `follow` takes for each schedule the next mark in the plan that may be its own. Nor are the labels of
//! arrows. A refused schedule that a job of an earlier section blocks stands at the top, without an arrow.
//!
//! *Cost.* Each statement and each mark of the plan is looked at once, where lines rise; each arrow compares the
//! containers of its two jobs.
#![tactic(auto)]

mod boxes;
mod chain;
mod contest;
mod drawing;
mod head;
mod labels;
mod links;
mod looks;
mod marks;
mod part;
mod place;
mod refused;
mod story;

pub use drawing::{draw, draw_at};
pub use part::Part;
pub use place::Place;
pub use story::{Refused, Story, follow, follow_part};

//! What is shown of a section's run on a timeline, as the plain data that `trace_text` writes.
//!
//! A section's plan says which jobs and pieces it has; a recorder noted when each piece was run, and by whom. Here the
//! two come together: a slice for each piece of each job, with its indexes and the line of its schedule; the segments
//! of the script's thread, and how long it waited before them; and an arrow for each wait that no others imply
//! (`plan_waits`), from the piece of the one job that was left last to that of the other which was entered first.
//!
//! *Promise.* `specs/Timelines` has what a timeline shows of a plan: each job in its order, under the name of its
//! kernel and with the line that the story of its schedules has for it, and of each job each piece once, with its
//! indexes; each segment once, where the section has jobs; and exactly the arrows of `plan_waits`.
//!
//! *Not said.* Times and workers: they are what was noted, and no contract speaks of a clock or of what threads share.
//! Nor which lines a segment shows.
//!
//! *Cost.* Each piece and each segment is looked at once or twice.
#![tactic(auto)]

mod arrows;
mod ends;
mod jobs;
mod notes;
mod pieces;
mod section;
mod segments;
mod waits;

pub use notes::Notes;
pub use section::{Place, section_trace};

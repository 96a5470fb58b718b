//! A run with a timeline, from the words of the command line to the bytes that are written.
//!
//! `trace_frame` runs a script as `frame_top` does, on a gate that notes when each piece was entered and left; what
//! was noted of a section is made into plain data after it (`trace_view`), and the text of all of it is written once
//! the run has ended (`trace_text`). The lines of the script go to one sink, and the trace to another one.
//!
//! *Promise.* The status and the lines are those of `run_frame`: whoever looks on changes nothing of them. Where the
//! script ran, the whole text of a trace was written, and the trace is of exactly the sections of the script's run,
//! each once, in their order; where that failed the status is another one (`specs/Traced`).
//!
//! *Not said.* Times and workers, of which no contract speaks; and the numbers of sections and arrows.
//!
//! *Cost.* At a piece two readings of the clock and three stores. Some 130 bytes for a piece are written after the run.
#![tactic(auto)]

mod run;
mod top;
mod usage;
mod watch;
mod writing;

pub use top::trace_frame;

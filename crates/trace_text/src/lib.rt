//! The text of a run's timeline, byte for byte, in the Chrome trace event format, which Perfetto and `chrome://tracing`
//! show.
//!
//! What was recorded of a run is plain data: for each section its segments and its jobs, each piece of a job with its
//! worker, and the arrows from what was waited for. The text is a definition of it (`specs/Traces`, and `specs/Events`
//! for each event): an array with one event for each of them, in their order. Row 0 is that of the script's thread,
//! and each other worker has one. Times are in microseconds with three digits after the point.
//!
//! The name of a kernel is written as it is. Those of scripts have letters, digits and `_` alone.
//!
//! *Cost.* Some 130 bytes for an event, in one text.
//!
//! <https://docs.google.com/document/d/1CvAClvFfyA5R-PhYUmn5OOQtYMH4h6I0nSsKchNAySU>
#![tactic(auto)]

mod arrows;
mod data;
mod jobs;
mod segments;
mod times;
mod trace;

pub use data::{
    ArrowTrace, End, JobTrace, Lines, PieceTrace, SectionTrace, SegmentTrace, Stretch, Wait,
};
pub use trace::{TRACE_END, TRACE_HEAD, trace_text};

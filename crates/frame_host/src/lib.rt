//! Frames for a program that has its own loop, its own arrays and its own threads, as an engine has.
//!
//! A script is read once ([`FrameScript`]) and run as often as is wanted, each time with the arrays of a table of its
//! own. A run ([`Frame`]) goes from section to section: a section ends at a `when`, whose test is decided by what was
//! computed before it, and a script without one is one section. The thread that owns the frame makes the section
//! ([`Frame::next`]), hands a helper of it to each thread that is to help ([`FrameSection::helper`]), and takes turns
//! until all segments are run ([`FrameSection::turn`]). Every turn runs a segment or a piece at most, and returns: none
//! waits, sleeps, wakes, locks or starts a thread, so the caller's own threads are the pool. Once the helpers are given
//! back the section ends ([`FrameSection::end`]), and what comes is the next section's frame or the script's answer.
//!
//! *Promise.* The answer of a frame is the status, the text and the report of the script's meaning (`specs/Frames`),
//! whatever threads took which turns in what order. Where a frame isn't begun, it is for the reason for which the
//! program `frame_run` refuses the script with its table, or for want of memory.
//!
//! *Order of calls.* A helper stands for a section of its own, by its type: it can't reach another, and a section ends
//! while nobody else has one. So no call comes at a wrong time but the end, which gives the section back. What a call
//! requires (`IsBetween`, `IsUnderway`) is what the call before it ensures, and nobody else makes a frame or a section.
//!
//! *Cost.* Of each section its plan, its board and its places are made anew, as large as the plan asks for, and all of
//! it before its first piece. A turn takes memory only where the text grows.
#![tactic(auto)]

mod answer;
mod crossing;
mod frame;
mod opening;
mod reading;
mod report;
mod script;
mod section;
mod taking;
mod text;

pub use answer::{FrameAnswer, FrameEnd};
pub use frame::{BeginFault, Frame};
pub use opening::OpenFault;
pub use report::{FirstTrap, FrameReport};
pub use script::FrameScript;
pub use section::{FrameSection, NoHelper};
pub use text::KeptText;

//! A gate that notes when each piece of a section was entered and left, and by which worker.
//!
//! It holds nobody up. Each piece has a slot of its own that is made before the run, and one worker alone writes it; so
//! at a piece there is no lock, no memory is taken, and the clock is all that is asked of the system. What a slot holds
//! is under no contract, as no cell that threads share is: a run is the same through this gate as through every other.
//!
//! *Cost.* A piece costs two readings of the clock and three stores; a slot has 24 bytes.
#![tactic(auto)]

mod recorder;

pub use recorder::{Found, Recorder};

//! Whole frames, by the top call: what `run_frame` answers to worked scripts at 1, 4 and 64 workers, to hostile texts
//! and texts at their limits, to words, tables and files that it refuses, over files and sinks that fail, and where
//! pieces come in each order. Tests alone.
#![tactic(auto)]

#[cfg(test)]
mod bounds;
#[cfg(test)]
mod calls;
#[cfg(test)]
mod faults;
#[cfg(test)]
mod frames;
#[cfg(test)]
mod orders;
#[cfg(test)]
mod pieces;
#[cfg(test)]
mod rows;
#[cfg(test)]
mod scripts;
#[cfg(test)]
mod tables;
#[cfg(test)]
mod texts;
#[cfg(test)]
mod waking;

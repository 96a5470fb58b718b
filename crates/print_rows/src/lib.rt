//! What a run prints, line by line: rows of contents and their texts, reports of depth, and sinks that
//! fail. Tests alone.
#![tactic(auto)]

#[cfg(test)]
mod depths;
#[cfg(test)]
mod rows;

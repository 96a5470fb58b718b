//! Pieces by what they are of.

/// A piece of a plan, by what it is of. A piece goes by its number in calls, and by its place in script order in laws.
#[derive(Clone, Copy, Debug, PartialEq, Eq)]
pub enum Piece {
    /// A segment, by its number from 0.
    OfScript(u32),
    /// The place of a job among the plan's jobs, and which of its pieces, from 0.
    OfJob(u32, u32),
}

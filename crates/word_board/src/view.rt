//! What a seat knows and holds. No value of these types is made: they are what contracts speak of.

use frame_core::Plan;

/// A lease: a piece by its number, and what was stored since it began, the last store first.
///
/// A clause reads an array as a list, of any length.
pub struct Held {
    pub piece: u64,
    pub stores: [(u64, i64); 0],
}

/// A predecessor of a job: the segment that starts it, from 0, or a job that it depends on, from 1.
pub enum Predecessor {
    Segment(u64),
    Job(u64),
}

/// The duty to release a job, by its number, from a predecessor that is finished.
pub struct Duty {
    pub predecessor: Predecessor,
    pub job: u64,
}

/// The kind of a step. `Made` is that of a seat that took none yet.
pub enum Kind {
    Made,
    Load,
    Store,
    Begin,
    End,
    Count,
    Release,
    Open,
    Finished,
}

/// What a seat knows and holds. Pieces and jobs go by their numbers, as in the calls of a board.
pub struct View {
    pub plan: Plan,
    pub lease: Option<Held>,
    /// The job of a piece that it ended and hasn't counted.
    pub owed: Option<u64>,
    pub duties: [Duty; 0],
    /// The pieces of jobs that it may open.
    pub rights: [u64; 0],
    /// The jobs that it saw finished.
    pub seen: [u64; 0],
    /// It is the first seat, which runs the segments.
    pub first: bool,
    /// Of the first seat: how many segments it ended, and whether it opened the next one.
    pub ended: u64,
    pub opened: bool,
    /// How many steps it took, and of the last one the kind, the word, and what was found there or was stored.
    pub steps: u64,
    pub kind: Kind,
    pub word: u64,
    pub found: u64,
}

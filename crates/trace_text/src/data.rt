// What was recorded of a run, as plain data.

/// For how long a worker did something: from nanosecond `from` on, `long` nanoseconds.
#[derive(Clone, Copy, Debug, Default, PartialEq, Eq)]
pub struct Stretch {
    pub worker: u32,
    pub from: u64,
    pub long: u64,
}

/// A piece of a job.
#[derive(Clone, Copy, Debug, PartialEq, Eq)]
pub struct PieceTrace {
    /// From 1.
    pub number: u32,
    /// Its indexes.
    pub first: u32,
    pub count: u32,
    pub ran: Stretch,
}

/// A job of a section, with all of its pieces.
#[derive(Drop)]
pub struct JobTrace {
    pub kernel: String,
    /// Among those of the section, from 1.
    pub number: u32,
    /// That of its schedule, where it is known.
    pub line: Option<u32>,
    pub pieces: Vec<PieceTrace>,
}

/// Which lines of the script a segment runs.
#[derive(Clone, Copy, Debug, PartialEq, Eq)]
pub enum Lines {
    /// Nothing was left of its statements.
    Nothing,
    One(u32),
    Between { first: u32, last: u32 },
}

/// The script's thread waited for so many jobs that it hadn't waited for before.
#[derive(Clone, Copy, Debug, PartialEq, Eq)]
pub struct Wait {
    pub jobs: u32,
    pub waited: Stretch,
}

/// What the script's thread runs between two waits or schedules.
#[derive(Clone, Copy, Debug, PartialEq, Eq)]
pub struct SegmentTrace {
    /// From 1.
    pub number: u32,
    pub lines: Lines,
    /// Before it.
    pub wait: Option<Wait>,
    pub ran: Stretch,
}

/// One end of an arrow: a time at which a worker runs a piece.
#[derive(Clone, Copy, Debug, Default, PartialEq, Eq)]
pub struct End {
    pub worker: u32,
    pub at: u64,
}

/// From a piece of a job to one of a later job that waited for it. The jobs are told by their numbers.
#[derive(Clone, Copy, Debug, PartialEq, Eq)]
pub struct ArrowTrace {
    /// No other arrow of the run has it.
    pub number: u32,
    pub earlier: u32,
    pub later: u32,
    pub from: End,
    pub to: End,
}

/// A section of a run.
#[derive(Drop)]
pub struct SectionTrace {
    /// From 1.
    pub number: u32,
    /// How many jobs earlier sections have: a job's number in the run is that much more.
    pub jobs_before: u32,
    /// When it was planned, where a section was run before it.
    pub planned: Option<Stretch>,
    /// How long it took, where it has no jobs: then the script's thread runs it at one go.
    pub alone: Option<Stretch>,
    pub segments: Vec<SegmentTrace>,
    pub jobs: Vec<JobTrace>,
    pub arrows: Vec<ArrowTrace>,
}

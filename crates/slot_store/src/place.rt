// What a slot stands for, and what is kept of one that is held.
use job_base::Span;
use job_handle::Handle;

/// What a slot stands for now.
#[derive(Clone, Copy)]
pub enum State {
    /// It is given with the next take that comes to it.
    Free,
    /// A container has it, and the words of the slot's range.
    Taken,
    /// Its container was disposed, and jobs may still use the words.
    Held(Handle),
}

/// A slot's state, its version, and the range of words that it has, or had before it was free. Contracts speak of
/// places. What is kept is a `Lot` and a set of jobs, which say the same.
#[derive(Clone, Copy)]
pub struct Place {
    pub(crate) state: State,
    pub(crate) version: u32,
    pub(crate) span: Span,
}

/// A slot that is held, and one of the jobs that it waits for, or 0 where none was sought yet.
#[derive(Clone, Copy)]
pub(crate) struct Waiting {
    pub(crate) slot: u32,
    pub(crate) job: u32,
}

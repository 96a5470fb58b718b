//! What a picture of a section shows, before it is laid out.
ghost use Rattle.std.specs.Prelude.{◌≡◌};
ghost use Rattle.view_text.specs.Places.{is_block};

/// What a box stands for.
#[derive(Clone, Copy, Debug, PartialEq, Eq)]
pub enum Kind {
    Job,
    /// A job of the longest chain.
    Chain,
    /// A schedule that was refused.
    Refused,
}

/// A box.
#[derive(Drop)]
pub struct Node {
    /// The job's number in the script, or the place of the refused schedule among those of the section, from 1.
    pub number: u32,
    pub kind: Kind,
    /// From 1.
    pub level: u32,
    pub lines: Vec<String>,
}

/// Why an arrow is drawn.
#[derive(Clone, Copy, Debug, PartialEq, Eq)]
pub enum Tie {
    /// The later job has the earlier one among its dependencies.
    Depends,
    /// The same, and both are jobs of the longest chain, one after the other.
    DependsOnChain,
    /// The script had completed the earlier job before it scheduled the later one.
    Completed,
    /// The same, and both are jobs of the longest chain.
    CompletedOnChain,
    /// The job blocks the schedule, which is refused.
    Blocks,
}

impl Tie {
    pub(crate) fn is_block(self) -> bool
        ensures { result ≡ is_block self }
    {
        match self {
            Tie::Blocks => true,
            Tie::Depends | Tie::DependsOnChain | Tie::Completed | Tie::CompletedOnChain => false,
        }
    }
}

/// An arrow from a box to another one. A box goes by its kind and its number.
#[derive(Drop)]
pub struct Link {
    /// The number of a job.
    pub from: u32,
    /// The number of a job, and for [`Tie::Blocks`] that of a refused schedule.
    pub to: u32,
    pub tie: Tie,
    /// The containers for which the one waits for the other.
    pub label: String,
}

/// A section.
#[derive(Drop)]
pub struct Picture {
    /// From 1.
    pub number: u32,
    pub head: String,
    /// The greatest level of a box.
    pub levels: u32,
    /// The jobs, in the order of their numbers, and then the refused schedules.
    pub nodes: Vec<Node>,
    pub links: Vec<Link>,
}

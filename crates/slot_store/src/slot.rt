// The names of what the store gives.
use job_base::Span;

/// The number by which the safety system and the store know a container, from 0. A slot is given again once its
/// container's words have come back.
#[derive(Clone, Copy, Debug, PartialEq, Eq)]
pub struct Slot(pub u32);

/// How often a slot was given back or held, from 0. A container is known by its slot and the version at its making, so
/// one that was disposed is known from a later one that has its slot.
///
/// <https://docs.unity3d.com/ScriptReference/Unity.Collections.LowLevel.Unsafe.AtomicSafetyHandle.html>
#[derive(Clone, Copy, Debug, PartialEq, Eq)]
pub struct Version(pub u32);

/// A slot that was taken, with its present version and the words of its range.
#[derive(Clone, Copy, Debug, PartialEq, Eq)]
pub struct Taken {
    pub slot: Slot,
    pub version: Version,
    pub span: Span,
}

/// Why no range was taken. The store is as it was.
#[derive(Clone, Copy, Debug, PartialEq, Eq)]
pub enum StoreFault {
    /// With the words that are live, the range would pass `MOST_LIVE_WORDS`.
    Full,
    /// Memory was not found for the store's own lists.
    NoMemory,
}

//! What the layers of the job runtime share: its numbers, traps and refusals, and what is handed in from outside.
//!
//! A run reads its texts from [`Files`], works on the cells of a [`Mem`], writes to a [`Sink`] and passes a [`Gate`]
//! round each piece. Each of them is a trait that says what its calls mean, so a program hands in files and a terminal,
//! and a test hands in the ones in memory that stand beside the traits.
#![tactic(auto)]

mod counting_gate;
mod files;
mod gate;
pub mod laws;
pub mod limits;
mod mem;
mod order_gate;
mod sink;

pub use counting_gate::CountingGate;
pub use files::{FileFault, Files, MemFiles};
pub use gate::{Gate, OpenGate};
pub use mem::{FlatMem, Mem};
pub use order_gate::OrderGate;
pub use sink::{MemSink, NullSink, Sink, SinkFault};
use std::alloc::{AllocError, AllocFailed};

/// The number of a container, in the order of making from 0.
#[derive(Clone, Copy, Debug, PartialEq, Eq)]
pub struct ContainerId(pub u32);

/// The number of a job: 1 to 4,096, in the order of accepted schedules. A handle is a set of them.
///
/// <https://docs.unity3d.com/ScriptReference/Unity.Jobs.JobHandle.html>
#[derive(Clone, Copy, Debug, PartialEq, Eq)]
pub struct JobId(pub u32);

/// The number of a piece, which is one batch of a job or one segment of the script. Pieces of jobs come first, from 0.
#[derive(Clone, Copy, Debug, PartialEq, Eq)]
pub struct PieceId(pub u32);

/// The number of a cell, from 0.
#[derive(Clone, Copy, Debug, PartialEq, Eq)]
pub struct Word(pub u32);

/// The `len` numbers from `start` on: words of a container, or indexes of a piece.
#[derive(Clone, Copy, Debug, PartialEq, Eq)]
pub struct Span {
    pub start: u32,
    pub len: u32,
}

/// Memory was not found. It is the one answer that no clause ties to a cause.
#[derive(Clone, Copy, Debug, PartialEq, Eq)]
pub struct NoMemory;

impl From<AllocError> for NoMemory {
    fn from(_: AllocError) -> Self {
        NoMemory
    }
}

impl<T: Drop> From<AllocFailed<T>> for NoMemory {
    fn from(_: AllocFailed<T>) -> Self {
        NoMemory
    }
}

/// How a kernel uses a parameter: `ro`, `wo` or `rw`.
///
/// <https://docs.unity3d.com/ScriptReference/Unity.Collections.ReadOnlyAttribute.html>
#[derive(Clone, Copy, Debug, PartialEq, Eq)]
pub enum Access {
    /// It only reads.
    Read,
    /// It only writes. For conflicts it counts as a write.
    Write,
    /// It reads and writes.
    Both,
}

/// Why the run of a kernel ends early. What it stored before stays.
#[derive(Clone, Copy, Debug, PartialEq, Eq)]
pub enum Trap {
    /// A result is no number of 64 bits.
    Overflow,
    /// A division by zero.
    ZeroDivisor,
    /// An index is no place of the container.
    Range,
    /// A place of a restricted container that belongs to another index of the parallel job.
    ///
    /// <https://docs.unity3d.com/ScriptReference/Unity.Collections.NativeDisableParallelForRestrictionAttribute.html>
    OwnIndex,
    /// A list, a map or an index of a stream has no room left.
    Full,
    /// A key that the map doesn't have.
    MissingKey,
    /// A key that the map has already.
    PresentKey,
    /// An index of a stream that was written before.
    Written,
    /// No step is left of the 1,000,000 that one index of a job has.
    Budget,
}

/// Why a statement of a script is refused, in the order of their numbers, from 1 to 12.
///
/// <https://docs.unity3d.com/ScriptReference/Unity.Collections.LowLevel.Unsafe.AtomicSafetyHandle.html>
#[derive(Clone, Copy, Debug, PartialEq, Eq)]
pub enum Refusal {
    /// The container of a value was disposed, or was never made.
    Disposed,
    /// A view of a list that was made before the list's views were broken.
    StaleView,
    /// A list, a reference or a map in a parallel job that doesn't only read it.
    NotParallel,
    /// One container for two parameters of which one writes.
    Alias,
    /// Jobs that the script hasn't completed and the statement doesn't wait for use the container, and one of the two
    /// writes; the greatest of them.
    Pending(JobId),
    /// The words that may be live at once don't suffice.
    StoreFull,
    /// An index, a slice or a capacity is out of range.
    Range,
    /// A list or a map is at its capacity.
    Full,
    /// A key that the map doesn't have.
    MissingKey,
    /// A key that the map has already.
    PresentKey,
    /// A container that lives for one frame, handed to a job.
    TempInJob,
    /// The script asks for contents while jobs aren't completed; the greatest of them.
    Busy(JobId),
}

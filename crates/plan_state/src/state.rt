// What the script's thread knows between two statements.
ghost use Rattle.std.specs.Prelude.{◌≡◌, ◌<◌, ◌^◌, []};
ghost use Rattle.kernel_exec.specs.Binds.{end_of};

use frame_ast::kernel::Kernel;
use frame_ast::script::Life;
use frame_core::{JobPlan, Op, Segment};
use job_base::{JobId, NoMemory};
use job_handle::{Handle, JobBook};
use kernel_bytecode::Code;
use kernel_exec::Bind;
use safety_handle::SafetyBook;
use slot_store::{Slot, SlotStore, Version};
use std::alloc::Global;

/// Why there is no plan.
#[derive(Clone, Copy, Debug, PartialEq, Eq)]
pub enum PlanFault {
    /// More than `MOST_JOBS` jobs.
    Jobs,
    /// More than `MOST_CREATED_WORDS` words are taken in all.
    Words,
    /// Memory was not found.
    NoMemory,
}

impl From<NoMemory> for PlanFault {
    ghost use Rattle.plan_state.specs.declared.state.PlanFault.TheVariants as fault;

    ghost from_gives = { λ _ f. f ≡ fault.NoMemory };

    fn from(_none: NoMemory) -> PlanFault {
        PlanFault::NoMemory
    }
}

/// What a name stands for.
#[derive(Clone, Copy)]
pub enum Value {
    /// No container, or one whose making was refused.
    Dead,
    /// A container, by its number.
    Whole(u32),
    Slice { of: u32, start: u32, len: u32 },
    /// The elements of a list, and how often its views had been broken.
    View { of: u32, number: u32 },
    /// A place among the handles, one for each name of a handle.
    Jobs(u32),
}

/// A container, as it was made; of a list, with the range that it has now.
#[derive(Clone, Copy)]
pub struct Container {
    /// Its kind and its words.
    pub bind: Bind,
    pub slot: Slot,
    pub version: Version,
    pub life: Life,
    pub frame: u32,
    pub name: u32,
    pub line: u32,
    ghost small: { end_of bind < 2 ^ 31 },
}

/// The plan so far.
#[derive(Drop)]
pub struct Draft {
    /// Copies of the script's kernels that jobs have used so far.
    pub kernels: Vec<Kernel>,
    /// The code of each copy, at its place.
    pub codes: Vec<Code>,
    /// What containers were filled with so far, in the order of their use.
    pub literals: Vec<Vec<i64>>,
    pub segments: Vec<Segment>,
    pub jobs: Vec<JobPlan>,
    /// What the segment at hand waits for.
    pub waits: Vec<JobId>,
    /// The operations of the segment at hand.
    pub ops: Vec<Op>,
    /// How many pieces the jobs have together.
    pub pieces: u32,
    /// The first words as the plan finds them: what the sections before it left.
    pub first: Vec<i64>,
    // By the script's kernels: the places of their copies among those here, plain and with the guard of `defer`.
    pub copies_of: Vec<Option<u32>>,
    pub guards_of: Vec<Option<u32>>,
}

impl Draft {
    /// No plan yet, of a script without kernels.
    pub fn none(alloc: Global) -> Draft
        ensures kernels { result.kernels.items ≡ [] }
        ensures codes { result.codes.items ≡ [] }
        ensures literals { result.literals.items ≡ [] }
        ensures segments { result.segments.items ≡ [] }
        ensures jobs { result.jobs.items ≡ [] }
        ensures waits { result.waits.items ≡ [] }
        ensures ops { result.ops.items ≡ [] }
        ensures pieces { result.pieces ≡ 0 }
        ensures first { result.first.items ≡ [] }
        ensures copies { result.copies_of.items ≡ [] }
        ensures guards { result.guards_of.items ≡ [] }
    {
        Draft {
            kernels: Vec::new(alloc),
            codes: Vec::new(alloc),
            literals: Vec::new(alloc),
            segments: Vec::new(alloc),
            jobs: Vec::new(alloc),
            waits: Vec::new(alloc),
            ops: Vec::new(alloc),
            pieces: 0,
            first: Vec::new(alloc),
            copies_of: Vec::new(alloc),
            guards_of: Vec::new(alloc),
        }
    }
}

/// What the script's statements see: names, handles, containers, frames and the books.
#[derive(Drop)]
pub struct World {
    // By name, and by the places that names of handles have.
    pub values: Vec<Value>,
    pub handles: Vec<Handle>,
    // By number, in the order of their making.
    pub containers: Vec<Container>,
    // The `temp` containers of the frame at hand.
    pub temps: Vec<u32>,
    // All `tempjob` containers. Those before `overdue` were made four frames ago or earlier.
    pub tempjobs: Vec<u32>,
    pub overdue: u32,
    pub frame: u32,
    pub jobs: JobBook,
    // How many jobs the sections before have, all completed: a job's number in the script is that much more than in
    // the plan.
    pub jobs_before: u32,
    pub safety: SafetyBook,
    pub store: SlotStore,
    // The words of all ranges taken so far.
    pub created: u32,
    // How many of the next statements are passed by.
    pub passing: u32,
    // By the script's kernels: how much work an index is, where that is known. Empty where each job is cut as its
    // schedule says. No statement changes it.
    pub works: Vec<Option<u32>>,
}

/// What the script's thread knows, and the draft of the plan. A statement changes the one, and what it answers changes
/// the other.
#[derive(Drop)]
pub struct Planner {
    pub world: World,
    pub draft: Draft,
}

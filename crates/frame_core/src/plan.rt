//! A frame as it is run: the pieces of its jobs, and the segments of the script between them.

use batch_cut::Cut;
use frame_ast::NameTexts;
use frame_ast::kernel::Kernel;
use job_base::{JobId, PieceId, Refusal, Span};
use kernel_bytecode::Code;
use kernel_exec::Bind;

/// A planned frame. Its pieces are those of its jobs, numbered from 0, and after them its segments.
///
/// Beyond the words of containers each piece of a job has a word of its own, which `specs/Pieces` names.
#[derive(Drop)]
pub struct Plan {
    pub kernels: Vec<Kernel>,
    /// The code of each kernel, at its place.
    pub codes: Vec<Code>,
    pub names: NameTexts,
    pub literals: Vec<Vec<i64>>,
    /// Job 1 first.
    pub jobs: Vec<JobPlan>,
    pub segments: Vec<Segment>,
    /// The first words as the plan finds them. All others are 0 at first.
    pub first: Vec<i64>,
    /// How many words the containers have.
    pub cells: u32,
    /// How many words there are: `cells`, and one for each piece of a job.
    pub words: u32,
}

/// A job of a plan.
///
/// <https://docs.unity3d.com/ScriptReference/Unity.Jobs.IJobParallelFor.html>
#[derive(Drop)]
pub struct JobPlan {
    /// A place among the plan's kernels.
    pub kernel: u32,
    pub binds: Vec<Bind>,
    /// The cut of the schedule's two numbers, and that of one index into one piece where the kernel isn't parallel.
    pub cut: Cut,
    /// Its pieces are those of the cut and may run at once. Else it is one piece, which runs all indexes in order.
    pub parallel: bool,
    /// What it waits for, beside the segment that starts it.
    pub deps: Vec<JobId>,
    pub first: PieceId,
}

/// Statements of the script that are run one after another, on one thread.
#[derive(Drop)]
pub struct Segment {
    /// The jobs that have to be finished before it.
    pub waits: Vec<JobId>,
    pub ops: Vec<Op>,
    /// The job that is scheduled at its end.
    pub starts: Option<JobId>,
}

/// What is left of a statement when the plan is run.
#[derive(Clone, Copy, Debug, PartialEq, Eq)]
pub struct Op {
    /// The line of the statement.
    pub line: u32,
    /// A place among the plan's names: that of the container, and for a refusal that of the named value.
    pub name: u32,
    pub act: Act,
}

#[derive(Clone, Copy, Debug, PartialEq, Eq)]
pub enum Act {
    /// Gives the words of a new container their first cells: those of a literal, which is as long as the span, or
    /// zeros.
    Fill { span: Span, literal: Option<u32> },
    /// Copies the words of a list to its new range.
    Move { from: Span, to: Span },
    /// The statement is refused, whatever the cells are.
    Say { refusal: Refusal },
    /// `set x i = v`, and of a reference `set x = v`, where i says nothing.
    Set { at: Bind, i: i64, v: i64 },
    /// `add m k v` of a map, and `add l v` of a list, where k says nothing.
    AddTo { at: Bind, k: i64, v: i64 },
    /// `put m k v`
    Put { at: Bind, k: i64, v: i64 },
    /// `remove l i` of a list, and `remove m i` of a map
    Remove { at: Bind, i: i64 },
    Clear { at: Bind },
    Print { at: Bind },
    /// The container that the statement of line `made` made is overdue.
    Report { made: u32 },
}

// What statements left in a plan: the starts of jobs, and refusals with their lines.
ghost use Rattle.std.specs.Prelude.{◌≡◌, ◌++◌, ◌≤◌, ◌<◌, Option, Some, IfOk, IfSome, OnOk, drop, length, slice_get, true};
ghost use Rattle.frame_view.specs.declared.marks.Mark.{Mark};
ghost use Rattle.frame_view.specs.Marks.{fits, next_fit, mark_in, op_marks, start_marks, segment_marks, marks_of};

use frame_core::{Act, Op, Plan, Segment};
use job_base::{JobId, NoMemory, Refusal};
use std::alloc::Global;

/// What a statement left.
#[derive(Clone, Copy, Debug, PartialEq, Eq)]
pub(crate) enum Mark {
    /// A job is started.
    Starts,
    /// The statement of this line is refused. `name` is a place among the names.
    Says {
        line: u32,
        name: u32,
        refusal: Refusal,
    },
}

impl Mark {
    /// Whether a schedule of that line may have left it.
    pub(crate) fn fits(&self, wanted: u32) -> bool
        ensures { result ≡ fits wanted self.now }
    {
        match self {
            Mark::Starts => true,
            Mark::Says { line, .. } => *line == wanted,
        }
    }
}

// The mark of an operation, where it says a refusal.
fn mark_of(op: &Op) -> Option<Mark>
    ensures { result ≡ mark_in op.now.line op.now.name op.now.act }
{
    match op.act {
        Act::Say { refusal } => Some(Mark::Says {
            line: op.line,
            name: op.name,
            refusal,
        }),
        Act::Fill { .. }
        | Act::Move { .. }
        | Act::Set { .. }
        | Act::AddTo { .. }
        | Act::Put { .. }
        | Act::Remove { .. }
        | Act::Clear { .. }
        | Act::Print { .. }
        | Act::Report { .. } => None,
    }
}

// Adds the refusals among some operations.
fn push_refusals(ops: &[Op], marks: &mut Vec<Mark>) -> Result<(), NoMemory>
    ensures { OnOk result (marks.new.items ≡ marks.old.items ++ op_marks ops.now) }
{
    for op in ops {
        if let Some(mark) = mark_of(op) {
            marks.push(mark)?;
        }
    }
    Ok(())
}

// Adds the start of a job, where there is one.
fn push_start(starts: Option<JobId>, marks: &mut Vec<Mark>) -> Result<(), NoMemory>
    ensures { OnOk result (marks.new.items ≡ marks.old.items ++ start_marks starts) }
{
    match starts {
        Some(_) => {
            marks.push(Mark::Starts)?;
            Ok(())
        }
        None => Ok(()),
    }
}

// Adds the marks of a segment.
fn push_marks(segment: &Segment, marks: &mut Vec<Mark>) -> Result<(), NoMemory>
    ensures { OnOk result (marks.new.items ≡ marks.old.items ++ segment_marks segment.now) }
{
    push_refusals(&segment.ops, marks)?;
    push_start(segment.starts, marks)
}

/// The marks of a plan, in script order.
pub(crate) fn marks_of(alloc: Global, plan: &Plan) -> Result<Vec<Mark>, NoMemory>
    ensures { IfOk result (λ marks. marks.items ≡ marks_of plan.now.segments.items) }
{
    let mut marks = Vec::new(alloc);
    for segment in &plan.segments {
        push_marks(segment, &mut marks)?;
    }
    Ok(marks)
}

/// The place of the next mark from a place on that a schedule of that line may have left.
pub(crate) fn next_mark(marks: &[Mark], from: usize, line: u32) -> Option<usize>
    ensures next { result ≡ next_fit line from (drop from marks.now) }
    ensures after { IfSome result (λ i. from ≤ i) }
    ensures within { IfSome result (λ i. i < length marks.now) }
    ensures fits { IfSome result (λ i. (m : Mark) → slice_get marks.now i ≡ Some m → fits line m ≡ true) }
{
    for i in from..marks.len() {
        if marks[i].fits(line) {
            return Some(i);
        }
    }
    None
}

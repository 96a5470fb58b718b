// What became of a script's schedules.
ghost use Rattle.std.specs.Prelude.{◌≡◌, ◌++◌, ◌<◌, ◌≤◌, IfOk, IfSome, IsSome, None, OnOk, Some, drop, if◌then◌else◌, length, slice_get, true};
ghost use Rattle.frame_view.specs.declared.marks.Mark.{Mark};
ghost use Rattle.frame_view.specs.Marks.{fits, next_fit};
ghost use Rattle.frame_view.specs.Stories.{is_schedule, made_by, refused_by, IsStory, IsStoryIn, TellsAll, TellsAllIn};

use crate::looks::is_schedule;
use crate::marks::{Mark, marks_of, next_mark};
use crate::part::{Part, passing_after};
use frame_ast::script::{Script, Statement};
use frame_core::Plan;
use job_base::{NoMemory, Refusal};
use std::alloc::Global;

/// A schedule that was refused.
#[derive(Clone, Copy, Debug, PartialEq, Eq)]
pub struct Refused {
    /// Its place among the script's statements.
    pub at: usize,
    /// The value that the refusal names, as a place among the script's names.
    pub name: u32,
    pub refusal: Refusal,
}

/// The schedules of a script, by what became of them.
#[derive(Drop)]
pub struct Story {
    /// The places of those that made jobs, that of job 1 first.
    pub made: Vec<usize>,
    pub refused: Vec<Refused>,
}

impl Story {
    // Takes down what became of the schedule at a place.
    fn tell(&mut self, at: usize, mark: Mark) -> Result<(), NoMemory>
        ensures made { OnOk result (self.new.made.items ≡ self.old.made.items ++ made_by at mark) }
        ensures refused { OnOk result (self.new.refused.items ≡ self.old.refused.items ++ refused_by at mark) }
    {
        match mark {
            Mark::Starts => {
                self.made.push(at)?;
                Ok(())
            }
            Mark::Says { name, refusal, .. } => {
                self.refused.push(Refused { at, name, refusal })?;
                Ok(())
            }
        }
    }
}

// The place of the next mark from a place on that a statement may have left, where it is a schedule and isn't passed
// by.
fn mark_for(marks: &[Mark], from: usize, statement: &Statement, passing: u32) -> Option<usize>
    ensures schedule { IsSome result → is_schedule statement.now.act ≡ true }
    ensures here { IsSome result → passing ≡ 0 }
    ensures next { passing ≡ 0 → result ≡ (if is_schedule statement.now.act
        then next_fit statement.now.line from (drop from marks.now) else None) }
    ensures within { IfSome result (λ i. i < length marks.now) }
    ensures fits { IfSome result (λ i. (m : Mark) → slice_get marks.now i ≡ Some m
        → fits statement.now.line m ≡ true) }
{
    if passing == 0 && is_schedule(&statement.act) {
        next_mark(marks, from, statement.line)
    } else {
        None
    }
}

/// Goes along some statements of a script and along the plan of them. A schedule leaves one mark in a plan, the start
/// of its job or a refusal of its line; so each takes the next one that may be its own. The block of a `when` among
/// them is passed by, as it is where the `when` is refused.
pub fn follow_part(
    alloc: Global,
    script: &Script,
    part: Part,
    plan: &Plan,
) -> Result<Story, NoMemory>
    ensures story { IfOk result (IsStoryIn script.now part plan.now) }
    ensures all { part.to ≤ length script.now.statements.items → IfOk result (TellsAllIn script.now part plan.now) }
{
    let marks = marks_of(alloc, plan)?;
    let mut story = Story {
        made: Vec::new(alloc),
        refused: Vec::new(alloc),
    };
    let mut next = 0;
    let mut passing = part.passed;
    let to = part.to.min(script.statements.len());
    for at in part.from..to {
        let statement = &script.statements[at];
        if let Some(i) = mark_for(&marks, next, statement, passing) {
            story.tell(at, marks[i])?;
            next = i + 1;
        }
        passing = passing_after(passing, &statement.act);
    }
    Ok(story)
}

/// The same of a script without a `when`, whose plan is of all its statements.
pub fn follow(alloc: Global, script: &Script, plan: &Plan) -> Result<Story, NoMemory>
    ensures story { IfOk result (IsStory script.now plan.now) }
    ensures all { IfOk result (TellsAll script.now plan.now) }
{
    follow_part(alloc, script, Part::whole(script), plan)
}

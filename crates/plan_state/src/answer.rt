// What a statement answers that changes what statements see, and leaves the draft to its caller.
ghost use Rattle.std.specs.Prelude.{◌<◌, ◌^◌, OnOk, vec_len};
ghost use Rattle.plan_state.specs.Answers.{HasTaken, HasFilled, HasOp, HasOps, IsClosed};

use crate::state::Draft;
use frame_core::{Act, Op, Segment};
use job_base::{JobId, NoMemory, Refusal, Span};
use std::alloc::Global;
use std::mem;

/// What a statement adds to the plan.
#[derive(Drop)]
pub enum Answer {
    /// Nothing: nothing is left to do when the plan is run.
    Nothing,
    /// The line of a refusal, whatever the cells are.
    Refused {
        name: u32,
        refusal: Refusal,
    },
    /// One operation. Whether contents allow it is seen when it is run.
    Does {
        name: u32,
        act: Act,
    },
    /// One operation, which fills new words: with zeros, or with these elements.
    Fills {
        name: u32,
        span: Span,
        values: Option<Vec<i64>>,
    },
    /// The end of a segment: what follows waits for these jobs, by their numbers in the plan.
    Waits {
        jobs: Vec<JobId>,
    },
    /// Reports, one for each container that is overdue.
    Reports {
        ops: Vec<Op>,
    },
}

impl Draft {
    /// The segment at hand does what a statement answered, which stands at this line.
    pub fn take(&mut self, alloc: Global, line: u32, answer: Answer) -> Result<(), NoMemory>
        requires few { vec_len self.old.literals < 2 ^ 32 }
        ensures { OnOk result (HasTaken self.old self.new line answer) }
    {
        match answer {
            Answer::Nothing => Ok(()),
            Answer::Refused { name, refusal } => self.push(Op {
                line,
                name,
                act: Act::Say { refusal },
            }),
            Answer::Does { name, act } => self.push(Op { line, name, act }),
            Answer::Fills { name, span, values } => self.fill(line, name, span, values),
            Answer::Waits { jobs } => self.wait_for(alloc, jobs),
            Answer::Reports { ops } => self.push_all(&ops),
        }
    }

    /// The segment at hand fills words. What they are filled with is a literal more of the plan.
    fn fill(
        &mut self,
        line: u32,
        name: u32,
        span: Span,
        values: Option<Vec<i64>>,
    ) -> Result<(), NoMemory>
        requires few { vec_len self.old.literals < 2 ^ 32 }
        ensures { OnOk result (HasFilled self.old self.new line name span values) }
    {
        match values {
            None => self.push(Op {
                line,
                name,
                act: Act::Fill {
                    span,
                    literal: None,
                },
            }),
            Some(values) => {
                let number = self.literals.len() as u32;
                self.literals.push(values)?;
                self.push(Op {
                    line,
                    name,
                    act: Act::Fill {
                        span,
                        literal: Some(number),
                    },
                })
            }
        }
    }

    /// The segment at hand is closed, and the next one waits for these jobs.
    fn wait_for(&mut self, alloc: Global, jobs: Vec<JobId>) -> Result<(), NoMemory>
        ensures { OnOk result (IsClosed self.old self.new jobs.items) }
    {
        let waits = mem::replace(&mut self.waits, jobs);
        let ops = mem::replace(&mut self.ops, Vec::new(alloc));
        self.segments.push(Segment {
            waits,
            ops,
            starts: None,
        })?;
        Ok(())
    }

    /// The segment at hand does some operations more.
    fn push_all(&mut self, ops: &[Op]) -> Result<(), NoMemory>
        ensures { OnOk result (HasOps self.old self.new ops.now) }
    {
        self.ops.extend_from_slice(ops)?;
        Ok(())
    }

    /// The segment at hand does one operation more. All that is pushed is pushed here.
    pub(crate) fn push(&mut self, op: Op) -> Result<(), NoMemory>
        ensures { OnOk result (HasOp self.old self.new op) }
    {
        self.ops.push(op)?;
        Ok(())
    }
}

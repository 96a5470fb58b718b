// What a schedule answers: a refusal, or a job, which the segment at hand starts.
ghost use Rattle.std.specs.Prelude.{◌≡◌, ◌*◌, ◌<◌, ◌≤◌, ◌^◌, IfOk, OnOk, vec_len};
ghost use Rattle.job_base.specs.declared.limits.TheConstants.{MOST_INDEXES, MOST_JOBS, MOST_PIECES};
ghost use Rattle.plan_state.specs.Starts.{HasCopyFor, HasJob, HasTakenJob, IsStarted, MayCopy, MayStart, MayTakeJob};

use crate::state::Draft;
use batch_cut::Cut;
use frame_ast::script::Script;
use frame_core::{Act, JobPlan, Op, Segment};
use job_base::{JobId, NoMemory, PieceId, Refusal};
use kernel_exec::Bind;
use std::alloc::Global;
use std::mem;

/// What the plan needs of a job.
#[derive(Drop)]
pub struct Start {
    /// Its kernel, by the script's.
    pub kernel: u32,
    /// Whether it runs the guarded copy, as it does with `defer`.
    pub guarded: bool,
    pub binds: Vec<Bind>,
    pub cut: Cut,
    /// Whether its pieces may run at once.
    pub parallel: bool,
    /// What it waits for, by the numbers of the plan.
    pub deps: Vec<JobId>,
}

/// What a schedule adds to the plan. It is apart from `Answer`, since a draft takes it only where it has room for a job
/// and the script has its kernel, which no other statement needs to say.
#[derive(Drop)]
pub enum JobAnswer {
    /// The line of a refusal, whatever the cells are.
    Refused { name: u32, refusal: Refusal },
    /// Its job.
    Starts(Start),
}

impl Draft {
    /// The segment at hand does what a schedule of this script answered, which stands at this line.
    pub fn take_job(
        &mut self,
        alloc: Global,
        script: &Script,
        line: u32,
        answer: JobAnswer,
    ) -> Result<(), NoMemory>
        requires may { MayTakeJob script.now self.old answer }
        ensures { OnOk result (HasTakenJob self.old self.new script.now line answer) }
    {
        match answer {
            JobAnswer::Refused { name, refusal } => self.push(Op {
                line,
                name,
                act: Act::Say { refusal },
            }),
            JobAnswer::Starts(start) => self.start(alloc, script, start),
        }
    }

    /// The plan has the copy of its kernel that a job runs, and the segment at hand is closed and starts the job.
    fn start(&mut self, alloc: Global, script: &Script, start: Start) -> Result<(), NoMemory>
        requires may { MayStart script.now self.old start }
        ensures { OnOk result (HasJob self.old self.new script.now start) }
    {
        let kernel = self.copy_for(alloc, script, start.kernel, start.guarded)?;
        let first = PieceId(self.pieces);
        self.start_job(
            alloc,
            JobPlan {
                kernel,
                binds: start.binds,
                cut: start.cut,
                parallel: start.parallel,
                deps: start.deps,
                first,
            },
        )
    }

    /// The place of the copy that a job runs.
    fn copy_for(
        &mut self,
        alloc: Global,
        script: &Script,
        kernel: u32,
        guarded: bool,
    ) -> Result<u32, NoMemory>
        requires may { MayCopy guarded script.now self.old kernel }
        ensures { IfOk result (λ place. HasCopyFor guarded script.now self.old self.new kernel place) }
    {
        if guarded {
            self.guarded_copy_of(alloc, script, kernel)
        } else {
            self.plain_copy_of(alloc, script, kernel)
        }
    }

    /// The segment at hand is closed and starts this job.
    fn start_job(&mut self, alloc: Global, job: JobPlan) -> Result<(), NoMemory>
        requires step { (1 ≤ job.cut.step) × (job.cut.step ≤ MOST_INDEXES) }
        requires indexes { job.cut.n ≤ MOST_PIECES * job.cut.step }
        requires few { vec_len self.old.jobs < MOST_JOBS }
        requires pieces { self.old.pieces ≤ MOST_PIECES * MOST_JOBS }
        ensures { OnOk result (IsStarted self.old self.new job) }
    {
        let pieces = if job.parallel { job.cut.count() } else { 1 };
        let starts = Some(JobId(self.jobs.len() as u32 + 1));
        self.jobs.push(job)?;
        let waits = mem::replace(&mut self.waits, Vec::new(alloc));
        let ops = mem::replace(&mut self.ops, Vec::new(alloc));
        self.segments.push(Segment { waits, ops, starts })?;
        self.pieces += pieces;
        Ok(())
    }
}

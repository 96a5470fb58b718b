//! The run of a job's piece.
ghost use Rattle.std.specs.Prelude.{◌≡◌, ◌<◌, length};
ghost use Rattle.frame_core.specs.declared.piece.Piece.TheVariants.{OfJob};
ghost use Rattle.frame_core.specs.Pieces.{IsPieceOf};
ghost use Rattle.frame_core.specs.Effects.{touches, piece_cells};
ghost use Rattle.frame_core.specs.Rights.{MayReadIn, MayWriteIn};
ghost use Rattle.frame_core.specs.Ordered.{IsWellOrderedPlan};
ghost use Rattle.piece_run.specs.Visits.{IsVisitOf};

use frame_core::{JobPlan, Plan, write_notes};
use job_base::Mem;
use kernel_machine::{Scratch, Visit, begin_visit, execute_span};

/// What the pieces of a job have in common, found once for all of them that are run one after another.
#[derive(Drop)]
pub struct JobVisit<'a> {
    /// The place of the job among the plan's jobs, from 0.
    pub place: u32,
    pub job: &'a JobPlan,
    pub visit: Visit<'a>,
}

/// A visit of the job at place j, for which the scratch is made ready.
pub fn visit_job<'a>(plan: &'a Plan, j: u32, scratch: &mut Scratch) -> JobVisit<'a>
    requires well { IsWellOrderedPlan plan.now }
    requires job { j < length plan.now.jobs.items }
    ensures place { result.place ≡ j }
    ensures visit { IsVisitOf plan.now result scratch.new }
{
    let job = &plan.jobs[j as usize];
    let kernel = &plan.kernels[job.kernel as usize];
    let code = &plan.codes[job.kernel as usize];
    let visit = begin_visit(kernel, code, &job.binds, scratch);
    JobVisit {
        place: j,
        job,
        visit,
    }
}

/// Runs piece i of the job that is visited: its indexes in order, whether the earlier ones trapped or not. How many
/// trapped, and the first of them, stand in the piece's own word afterwards.
pub fn run_visited<M: Mem>(
    plan: &Plan,
    visit: &mut JobVisit<'_>,
    i: u32,
    scratch: &mut Scratch,
    mem: &mut M,
)
    requires well { IsWellOrderedPlan plan.now }
    requires visit { IsVisitOf plan.now visit.old scratch.old }
    requires piece { IsPieceOf plan.now (OfJob visit.old.place i) }
    requires readable { MayReadIn (touches plan.now (OfJob visit.old.place i)) (M.readable mem.old) }
    requires writable { MayWriteIn (touches plan.now (OfJob visit.old.place i)) (M.writable mem.old) }
    ensures cells { M.cells mem.new ≡ piece_cells plan.now (OfJob visit.old.place i) (M.cells mem.old) }

    // The visit goes on.
    ensures place { visit.new.place ≡ visit.old.place }
    ensures visit { IsVisitOf plan.now visit.new scratch.new }
    ensures readable { M.readable mem.new ≡ M.readable mem.old }
    ensures writable { M.writable mem.new ≡ M.writable mem.old }
{
    let span = visit.job.indexes(i);
    let notes = execute_span(&mut visit.visit, &span, scratch, mem);
    write_notes(plan.cells + (visit.job.first.0 + i), &notes, mem);
}

/// Runs piece i of the job at place j, both from 0, on a visit of its own.
pub fn run_piece<M: Mem>(plan: &Plan, j: u32, i: u32, scratch: &mut Scratch, mem: &mut M)
    requires well { IsWellOrderedPlan plan.now }
    requires piece { IsPieceOf plan.now (OfJob j i) }
    requires readable { MayReadIn (touches plan.now (OfJob j i)) (M.readable mem.old) }
    requires writable { MayWriteIn (touches plan.now (OfJob j i)) (M.writable mem.old) }
    ensures cells { M.cells mem.new ≡ piece_cells plan.now (OfJob j i) (M.cells mem.old) }
    ensures readable { M.readable mem.new ≡ M.readable mem.old }
    ensures writable { M.writable mem.new ≡ M.writable mem.old }
{
    let mut visit = visit_job(plan, j, scratch);
    run_visited(plan, &mut visit, i, scratch, mem);
}

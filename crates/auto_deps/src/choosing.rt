// The automatic set of a statement.
ghost use Rattle.std.specs.Prelude.{◌≡◌, ℕ};
ghost use Rattle.frame_ast.specs.Laws.{AreUpTo};
ghost use Rattle.job_handle.specs.Sets.{jobs_of};
ghost use Rattle.job_handle.specs.Books.{count_of};
ghost use Rattle.auto_deps.specs.Needs.{conflicting_with, ForNeeds, IsAutomatic, AreBlockers, LeavesNone, AreApart};

use frame_ast::kernel::writes_to;
use job_base::Access;
use job_handle::{Handle, JobBook};
use safety_handle::{SafetyBook, Tag};

/// The jobs that a statement with these uses has to wait for, beside `after`: the blockers that are no ancestors of
/// another blocker. A use with `Access::Read` is a read, every other a write. Tags that are stale, or of containers
/// that were disposed, count as well; the caller knows that there is none.
pub fn automatic(
    uses: &[(Tag, Access)],
    after: &Handle,
    book: &SafetyBook,
    jobs: &JobBook,
) -> Handle
    requires noted { AreUpTo (count_of jobs.now) (conflicting_with book.now uses.now) }
    requires after { AreUpTo (count_of jobs.now) (jobs_of after.now) }

    // The answer can be waited for.
    ensures known { AreUpTo (count_of jobs.now) (jobs_of result) }

    // The set, and what that says of it.
    ensures set { ForNeeds jobs.now book.now uses.now (IsAutomatic (jobs_of after.now) (jobs_of result)) }
    ensures blocks { ForNeeds jobs.now book.now uses.now (AreBlockers (jobs_of after.now) (jobs_of result)) }
    ensures none_left { ForNeeds jobs.now book.now uses.now (LeavesNone (jobs_of after.now) (jobs_of result)) }
    ensures apart { ForNeeds jobs.now book.now uses.now (AreApart (jobs_of result)) }
{
    let wanted = conflicting(uses, book);
    let mut chosen = Handle::empty();
    let mut before = jobs.before(after);
    while let Some(j) = wanted.latest_outside(&before) {
        let job = Handle::of(j);
        chosen.add_all(&job);
        before.add_all(&jobs.closure(&job));
    }
    chosen
}

// The jobs that stand for those whose use conflicts with one of the uses.
fn conflicting(uses: &[(Tag, Access)], book: &SafetyBook) -> Handle
    ensures { (j : ℕ) → jobs_of result j ≡ conflicting_with book.now uses.now j }
{
    let mut all = Handle::empty();
    let mut jobs = Handle::empty();
    for (tag, access) in uses {
        book.set_to_conflicting(&mut jobs, tag.slot, writes_to(*access));
        all.add_all(&jobs);
    }
    all
}

// Small graphs of jobs, by hand.
ghost use Rattle.std.specs.Prelude.{◌≡◌, ◌≤◌, IfOk, vec_len};
ghost use Rattle.job_base.specs.declared.limits.TheConstants.{MOST_JOBS};
ghost use Rattle.frame_ast.specs.Laws.{AreUpTo};
ghost use Rattle.job_handle.specs.Sets.{jobs_of, HaveOwnJobs};

use crate::sets::{numbers, set_up_to, several, text_of, text_of_jobs};
use job_base::limits::MOST_JOBS;
use job_base::{JobId, NoMemory};
use job_fewest::fewest;
use job_handle::Handle;
use row_texts::{row, same, table};
use std::alloc::Global;
use std::test::Fail;

// The rows of jobs that wait for these.
fn rows_of(alloc: Global, before: &[Vec<u32>]) -> Result<Vec<Handle>, NoMemory>
    ensures few { IfOk result (λ rows. vec_len rows ≤ MOST_JOBS) }
    ensures own { IfOk result (λ rows. HaveOwnJobs (vec_len rows) rows.items) }
{
    let mut rows = Vec::new(alloc);
    for jobs in before {
        let count = rows.len() as u32;
        if count < MOST_JOBS {
            let all = set_up_to(count, jobs);
            let one = Handle::of(JobId(count + 1));
            rows.push(all.combine(&one))?;
        }
    }
    Ok(rows)
}

// The fewest jobs that lead to a set, and what these lead to.
fn fewest_of(alloc: Global, before: &str, wanted: &str) -> Result<String, Fail> {
    let rows = rows_of(alloc, &several(alloc, before)?)?;
    let count = rows.len() as u32;
    let wanted = set_up_to(count, &numbers(alloc, wanted)?);
    let found = fewest(alloc, &wanted, &rows)?;
    let jobs = text_of_jobs(alloc, &found.jobs)?;
    let closure = text_of(alloc, &found.closure, count)?;
    Ok(format!(in alloc; "{jobs} {closure}")?)
}

// All that the jobs 1, 2, .. wait for, and a set; the fewest jobs that lead to it, and what these lead to. No job, a
// chain, a diamond with and without its lower half, two that nothing ties, and a job that waits for another through one
// that isn't wanted.
const GRAPHS: &str = "
 to - | - -
- 1 1,2 to 1,2,3 | 3 1,2,3
- 1 1 1,2,3 to 1,2,3 | 3,2 1,2,3
- 1 1 1,2,3 to 1,2,3,4 | 4 1,2,3,4
- - - to 1,3 | 3,1 1,3
- 1 1,2 - to 1,3,4 | 4,3 1,2,3,4
";

#[test]
fn graphs(rt: HostRuntime) -> Result<(), Fail> {
    for line in table(GRAPHS)?.lines() {
        if let Some((of, wanted)) = row(line)? {
            let (before, jobs) = of.split_once("to ").ok_or("no set")?;
            same(line, &fewest_of(rt.alloc(), before, jobs)?, wanted)?;
        }
    }
    Ok(())
}

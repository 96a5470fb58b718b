//! Which jobs depend on each job, and duties on them.
ghost use Rattle.std.specs.Prelude.{◌≡◌, ◌+◌, ◌<◌, ◌≤◌, ◌^◌, ℕ, suc, nat_eq, true, length, slice_index, if◌then◌else◌, IfOk, OnOk};
ghost use Rattle.frame_core.specs.Ordered.{IsWellOrderedPlan};
ghost use Rattle.lock_board.specs.Layouts.{AreFollowers, NameSome, row, times};

use frame_core::Plan;
use job_base::{JobId, NoMemory};
use std::alloc::{AllocError, Global};

// A row for each of so many jobs, on which none depends.
fn empty_rows(alloc: Global, count: usize) -> Result<Vec<Vec<JobId>>, AllocError>
    ensures size { IfOk result (λ v. length v.items ≡ count) }
    ensures none { IfOk result (λ v. (j e : ℕ) → times e (row v.items j) ≡ 0) }
{
    let mut rows = Vec::with_capacity(alloc, count)?;
    for _ in 0..count {
        rows.push(Vec::new(alloc))?;
    }
    Ok(rows)
}

// Puts a job into the rows of those that it depends on.
fn add_follower(rows: &mut [Vec<JobId>], deps: &[JobId], job: JobId) -> Result<(), AllocError>
    requires deps { NameSome (length rows.old) deps.now }

    ensures { OnOk result ((j e : ℕ) → times e (row rows.new j)
        ≡ times e (row rows.old j) + (if nat_eq job.0 e then times (suc j) deps.now else 0)) }
{
    for i in 0..deps.len() {
        rows[(deps[i].0 - 1) as usize].push(job)?;
    }
    Ok(())
}

/// The jobs that depend on each job, by its place. A job that ends costs these alone, and not a scan of all jobs.
pub fn list_followers(alloc: Global, plan: &Plan) -> Result<Vec<Vec<JobId>>, NoMemory>
    requires well { IsWellOrderedPlan plan.now }

    ensures size { IfOk result (λ v. length v.items ≡ length plan.now.jobs.items) }
    ensures followers { IfOk result (λ v. AreFollowers plan.now v.items) }
{
    let mut rows = empty_rows(alloc, plan.jobs.len())?;
    for d in 0..plan.jobs.len() {
        add_follower(&mut rows, &plan.jobs[d].deps, JobId(d as u32 + 1))?;
    }
    Ok(rows)
}

/// Whether one more duty on each of these jobs can be noted.
pub fn can_add(dues: &[u32], ids: &[JobId]) -> bool
    requires ids { NameSome (length dues.now) ids.now }

    ensures { result ≡ true → (d : ℕ) → 0 < times (suc d) ids.now → slice_index dues.now d + 1 < 2 ^ 32 }
{
    for i in 0..ids.len() {
        if dues[(ids[i].0 - 1) as usize] == u32::MAX {
            return false;
        }
    }
    true
}

/// Adds a duty on each of these jobs, by the places of jobs.
pub fn add_all(dues: &mut [u32], ids: &[JobId])
    requires ids { NameSome (length dues.old) ids.now }
    requires once { (d : ℕ) → times (suc d) ids.now ≤ 1 }
    requires fits { (d : ℕ) → 0 < times (suc d) ids.now → slice_index dues.old d + 1 < 2 ^ 32 }

    ensures { (d : ℕ) → slice_index dues.new d ≡ slice_index dues.old d + times (suc d) ids.now }
{
    for i in 0..ids.len() {
        dues[(ids[i].0 - 1) as usize] += 1;
    }
}

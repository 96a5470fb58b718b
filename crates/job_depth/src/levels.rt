// The level of each job, from the jobs that it waits for directly.
ghost use Rattle.std.specs.Prelude.{◌≡◌, ◌≤◌, ◌<◌, ℕ, ◌+◌, length, nat_lt, IfOk};
ghost use Rattle.job_base.specs.declared.limits.TheConstants.{MOST_JOBS};
ghost use Rattle.frame_core.specs.Ordered.{IsWellOrderedPlan};
ghost use Rattle.job_depth.specs.Direct.{AreWithin, AreFound, IsTop, better, best_among, nothing, number_of};

use frame_core::Plan;
use job_base::{JobId, NoMemory};
use std::alloc::Global;

/// The least job of the highest level among some jobs, and its level, which is 0 where there is none.
#[derive(Clone, Copy, Debug, PartialEq, Eq)]
pub(crate) struct Best {
    pub(crate) level: u32,
    pub(crate) job: Option<JobId>,
}

/// The level of each job, and the job before it on its chain, where there is one. Job 1 comes first.
#[derive(Drop)]
pub(crate) struct Found {
    pub(crate) levels: Vec<u32>,
    pub(crate) before: Vec<Option<JobId>>,
}

impl Best {
    fn none() -> Best
        ensures { result ≡ nothing }
    {
        Best {
            level: 0,
            job: None,
        }
    }

    // Whether its job comes after another one.
    fn is_after(&self, job: JobId) -> bool
        ensures { result ≡ nat_lt job.0 (number_of self.now.job) }
    {
        match self.job {
            Some(own) => job.0 < own.0,
            None => false,
        }
    }

    // The better one of this and another job.
    fn or(self, level: u32, job: JobId) -> Best
        ensures { result ≡ better self level job }
    {
        if self.level < level || (level == self.level && self.is_after(job)) {
            Best {
                level,
                job: Some(job),
            }
        } else {
            self
        }
    }
}

// The best of some jobs, and of those that were looked at before.
fn best_of(levels: &[u32], before: Best, jobs: &[JobId]) -> Best
    requires { AreWithin (length levels.now) jobs.now }
    ensures { result ≡ best_among levels.now before jobs.now }
{
    let mut best = before;
    for id in jobs {
        best = best.or(levels[id.0 as usize - 1], *id);
    }
    best
}

/// Finds the level of each job, in the order in which the segments start them.
pub(crate) fn level_jobs(alloc: Global, plan: &Plan) -> Result<Found, NoMemory>
    requires { IsWellOrderedPlan plan.now }
    ensures { IfOk result (λ found. AreFound plan.now found.levels.items found.before.items) }
{
    let mut levels = Vec::new(alloc);
    let mut before = Vec::new(alloc);
    let mut awaited = Best::none();
    for segment in &plan.segments {
        awaited = best_of(&levels, awaited, &segment.waits);
        if let Some(id) = segment.starts {
            let job = &plan.jobs[id.0 as usize - 1];
            let best = best_of(&levels, awaited, &job.deps);
            levels.push(best.level + 1)?;
            before.push(best.job)?;
        }
    }
    Ok(Found { levels, before })
}

/// The least job of the highest level of all.
pub(crate) fn highest(levels: &[u32]) -> Best
    requires { length levels.now ≤ MOST_JOBS }
    ensures { IsTop levels.now result }
{
    let mut best = Best::none();
    for (j, level) in levels.iter().enumerate() {
        if best.level < *level {
            best = Best {
                level: *level,
                job: Some(JobId(j as u32 + 1)),
            };
        }
    }
    best
}

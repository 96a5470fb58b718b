// Where arrows begin and end.
ghost use Rattle.frame_core.specs.Ordered.{IsCutIn, IsWellOrderedPlan};

use crate::notes::Notes;
use frame_core::{JobPlan, Plan};
use frame_record::Found;
use job_base::{JobId, NoMemory};
use std::alloc::Global;

/// The piece of a job that was entered first, and that which was left last.
#[derive(Clone, Copy)]
pub(crate) struct Ends {
    pub(crate) first: Found,
    pub(crate) last: Found,
}

fn nothing() -> Ends {
    let found = Found {
        worker: 0,
        entered: 0,
        left: 0,
    };
    Ends {
        first: found,
        last: found,
    }
}

// Those of a piece more.
fn with_piece(ends: Ends, found: Found) -> Ends {
    Ends {
        first: if found.entered < ends.first.entered {
            found
        } else {
            ends.first
        },
        last: if found.left > ends.last.left {
            found
        } else {
            ends.last
        },
    }
}

// Those of a job with so many pieces, the first of which is this one.
fn ends_from(notes: Notes<'_>, first: u32, pieces: u32) -> Ends {
    let found = notes.of(first);
    let mut ends = Ends {
        first: found,
        last: found,
    };
    for i in 1..pieces {
        ends = with_piece(ends, notes.of(first.saturating_add(i)));
    }
    ends
}

fn ends_of(notes: Notes<'_>, job: &JobPlan) -> Ends
    requires cut { IsCutIn job.now }
{
    ends_from(notes, job.first.0, job.pieces())
}

/// Those of all jobs of a plan, job 1 first.
pub(crate) fn ends_by_job(
    alloc: Global,
    plan: &Plan,
    notes: Notes<'_>,
) -> Result<Vec<Ends>, NoMemory>
    requires well { IsWellOrderedPlan plan.now }
{
    let mut ends = Vec::with_capacity(alloc, plan.jobs.len())?;
    for j in 0..plan.jobs.len() {
        ends.push(ends_of(notes, &plan.jobs[j]))?;
    }
    Ok(ends)
}

/// Those of a job by its number.
pub(crate) fn ends_at(ends: &[Ends], id: JobId) -> Ends {
    match id.0.checked_sub(1) {
        Some(j) => match ends.get(j as usize) {
            Some(found) => *found,
            None => nothing(),
        },
        None => nothing(),
    }
}

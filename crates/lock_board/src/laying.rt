//! The tables of a plan.
ghost use Rattle.std.specs.Prelude.{◌≡◌, ℕ, suc, ◌<◌, ◌≤◌, IfOk, IfSome, Vec, length, slice_index, Some, slice_get};
ghost use Rattle.std.specs.declared.alloc.Global.{Global};
ghost use Rattle.job_base.specs.declared.JobId.{JobId};
ghost use Rattle.frame_core.specs.declared.touch.Touch.{Touch};
ghost use Rattle.frame_core.specs.Know.{piece_count};
ghost use Rattle.frame_core.specs.Names.{job_pieces, pieces_before};
ghost use Rattle.frame_core.specs.Ordered.{IsWellOrderedPlan};
ghost use Rattle.lock_board.specs.Layouts.{AreEnds, AreJobNumbers, AreSpans, AreStarts, AreWaits, AreWithin, NameJobs, StartJobs};
ghost use Rattle.lock_board.specs.Rooms.{room_of};

use crate::followers::list_followers;
use crate::joining::join;
use crate::layout::Layout;
use frame_core::{Plan, PlanName, Touch, touches};
use job_base::{JobId, NoMemory, PieceId};
use std::alloc::{AllocError, Global};
use std::marker::PhantomData;

// Where the pieces of the first jobs end.
fn find_ends(alloc: Global, plan: &Plan, parts: u32) -> Result<Vec<u32>, AllocError>
    requires well { IsWellOrderedPlan plan.now }
    requires parts { parts ≡ job_pieces plan.now }

    ensures size { IfOk result (λ v. length v.items ≡ suc (length plan.now.jobs.items)) }
    ensures ends { IfOk result (λ v. AreEnds plan.now v.items) }
{
    let mut ends = Vec::with_capacity(alloc, plan.jobs.len() + 1)?;
    for j in 0..plan.jobs.len() {
        ends.push(plan.jobs[j].first.0)?;
    }
    ends.push(parts)?;
    Ok(ends)
}

// Writes the number of a job for each of its pieces.
fn push_job(jobs: &mut Vec<u32>, job: u32, end: u32) -> Result<(), AllocError>
    requires end { length jobs.old.items ≤ end }

    ensures size { IfOk result (λ _. length jobs.new.items ≡ end) }
    ensures new { IfOk result (λ _. (p : ℕ) → length jobs.old.items ≤ p → p < end
        → slice_index jobs.new.items p ≡ job) }
    ensures old { IfOk result (λ _. (p : ℕ) → p < length jobs.old.items
        → slice_index jobs.new.items p ≡ slice_index jobs.old.items p) }
{
    while jobs.len() < end as usize {
        jobs.push(job)?;
    }
    Ok(())
}

// The job of each piece of a job.
fn number_jobs(alloc: Global, plan: &Plan, ends: &[u32]) -> Result<Vec<u32>, AllocError>
    requires well { IsWellOrderedPlan plan.now }
    requires size { length ends.now ≡ suc (length plan.now.jobs.items) }
    requires ends { AreEnds plan.now ends.now }

    ensures size { IfOk result (λ v. length v.items ≡ job_pieces plan.now) }
    ensures jobs { IfOk result (λ v. AreJobNumbers plan.now v.items) }
{
    let mut jobs = Vec::new(alloc);
    for j in 0..plan.jobs.len() {
        push_job(&mut jobs, j as u32 + 1, ends[j + 1])?;
    }
    Ok(jobs)
}

// What each piece touches, in few spans.
fn list_spans(alloc: Global, plan: &Plan, pieces: u32) -> Result<Vec<Vec<Touch>>, NoMemory>
    requires well { IsWellOrderedPlan plan.now }
    requires pieces { pieces ≡ piece_count plan.now }

    ensures size { IfOk result (λ v. length v.items ≡ piece_count plan.now) }
    ensures spans { IfOk result (λ v. AreSpans plan.now v.items) }
    ensures within { IfOk result (λ v. AreWithin plan.now v.items) }
{
    let mut all = Vec::with_capacity(alloc, pieces as usize)?;
    for p in 0..pieces {
        all.push(join(alloc, &touches(alloc, plan, PieceId(p))?)?)?;
    }
    Ok(all)
}

// How many words some spans have together, where that is a number of 64 bits.
fn sum_sizes(spans: &[Touch]) -> Option<usize>
    ensures { IfSome result (λ n. n ≡ room_of spans.now) }
{
    let mut sum = 0usize;
    for i in 0..spans.len() {
        let t = &spans[i];
        sum = sum.checked_add(t.end.saturating_sub(t.from) as usize)?;
    }
    Some(sum)
}

// The most words that the spans of a piece have together.
fn find_room(all: &[Vec<Touch>]) -> Option<usize>
    ensures { IfSome result (λ n. (p : ℕ) (v : Vec Touch Global) → slice_get all.now p ≡ Some v
        → room_of v.items ≤ n) }
{
    let mut room = 0usize;
    for p in 0..all.len() {
        room = room.max(sum_sizes(&all[p])?);
    }
    Some(room)
}

// A copy of a list of jobs.
fn copy_jobs(alloc: Global, ids: &[JobId]) -> Result<Vec<JobId>, AllocError>
    ensures { IfOk result (λ v. v.items ≡ ids.now) }
{
    let mut all = Vec::with_capacity(alloc, ids.len())?;
    for i in 0..ids.len() {
        all.push(ids[i])?;
    }
    Ok(all)
}

// The jobs that each segment waits for.
fn list_waits(alloc: Global, plan: &Plan) -> Result<Vec<Vec<JobId>>, AllocError>
    requires well { IsWellOrderedPlan plan.now }

    ensures size { IfOk result (λ v. length v.items ≡ length plan.now.segments.items) }
    ensures waits { IfOk result (λ v. AreWaits plan.now v.items) }
    ensures jobs { IfOk result (λ v. NameJobs plan.now v.items) }
{
    let mut all = Vec::with_capacity(alloc, plan.segments.len())?;
    for k in 0..plan.segments.len() {
        all.push(copy_jobs(alloc, &plan.segments[k].waits)?)?;
    }
    Ok(all)
}

// The job that each segment starts.
fn list_starts(alloc: Global, plan: &Plan) -> Result<Vec<Option<JobId>>, AllocError>
    requires well { IsWellOrderedPlan plan.now }

    ensures size { IfOk result (λ v. length v.items ≡ length plan.now.segments.items) }
    ensures starts { IfOk result (λ v. AreStarts plan.now v.items) }
    ensures jobs { IfOk result (λ v. StartJobs plan.now v.items) }
{
    let mut all = Vec::with_capacity(alloc, plan.segments.len())?;
    for k in 0..plan.segments.len() {
        all.push(plan.segments[k].starts)?;
    }
    Ok(all)
}

impl<K: PlanName> Layout<K> {
    /// The tables of the plan that K names.
    pub(crate) fn of_plan(alloc: Global, plan: &Plan) -> Result<Layout<K>, NoMemory>
        requires plan { plan.now ≡ K.plan }
        requires well { IsWellOrderedPlan plan.now }
    {
        let parts = plan.job_pieces();
        let ends = find_ends(alloc, plan, parts)?;
        let jobs = number_jobs(alloc, plan, &ends)?;
        let spans = list_spans(alloc, plan, parts + plan.segments.len() as u32)?;
        let Some(room) = find_room(&spans) else {
            return Err(NoMemory);
        };
        let followers = list_followers(alloc, plan)?;
        let waits = list_waits(alloc, plan)?;
        let starts = list_starts(alloc, plan)?;
        Ok(Layout {
            words: plan.words,
            parts,
            ends,
            jobs,
            spans,
            room,
            followers,
            waits,
            starts,
            of: PhantomData,
        })
    }
}

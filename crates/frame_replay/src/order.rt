// Whether a piece may begin.
ghost use Rattle.std.specs.Prelude.{◌≡◌, ◌≢◌, ◌<◌, ℕ, suc, length, true, false, None, Some, MatchBool, slice_index_or};
ghost use Rattle.frame_core.specs.declared.piece.Piece.TheVariants.{OfScript, OfJob};
ghost use Rattle.frame_core.specs.Names.{has_job, is_job};
ghost use Rattle.frame_core.specs.Pieces.{piece_numbered, IsPieceOf};
ghost use Rattle.frame_core.specs.Graphs.{is_predecessor};
ghost use Rattle.frame_core.specs.Know.{piece_count};
ghost use Rattle.frame_core.specs.Ordered.{IsWellOrderedPlan};
ghost use Rattle.frame_replay.specs.declared.state.CoreLease.{CoreLease};

use crate::state::CoreLease;
use frame_core::{Piece, Plan};
use job_base::{JobId, PieceId};

fn has_job(ids: &[JobId], n: u32) -> bool
    ensures { result ≡ has_job ids.now n }
{
    for i in 0..ids.len() {
        if ids[i].0 == n {
            return true;
        }
    }
    false
}

fn is_job(starts: Option<JobId>, n: u32) -> bool
    ensures { result ≡ is_job starts n }
{
    match starts {
        None => false,
        Some(id) => id.0 == n,
    }
}

// Of a segment.
fn precedes_segment(plan: &Plan, x: Piece, k: u32) -> bool
    requires well { IsWellOrderedPlan plan.now }
    requires first { IsPieceOf plan.now x }
    requires piece { k < length plan.now.segments.items }
    ensures { result ≡ is_predecessor plan.now x (OfScript k) }
{
    match x {
        Piece::OfScript(l) => u64::from(l) + 1 == u64::from(k),
        Piece::OfJob(j, _) => has_job(&plan.segments[k as usize].waits, j + 1),
    }
}

// Of a piece of the job at place j.
fn precedes_part(plan: &Plan, x: Piece, j: u32, i: u32) -> bool
    requires well { IsWellOrderedPlan plan.now }
    requires first { IsPieceOf plan.now x }
    requires piece { IsPieceOf plan.now (OfJob j i) }
    ensures { result ≡ is_predecessor plan.now x (OfJob j i) }
{
    match x {
        Piece::OfScript(k) => is_job(plan.segments[k as usize].starts, j + 1),
        Piece::OfJob(d, _) => has_job(&plan.jobs[j as usize].deps, d + 1),
    }
}

// Whether the first piece has to be ended before the second begins.
fn precedes(plan: &Plan, x: Piece, y: Piece) -> bool
    requires well { IsWellOrderedPlan plan.now }
    requires first { IsPieceOf plan.now x }
    requires piece { IsPieceOf plan.now y }
    ensures { result ≡ is_predecessor plan.now x y }
{
    match y {
        Piece::OfScript(k) => precedes_segment(plan, x, k),
        Piece::OfJob(j, i) => precedes_part(plan, x, j, i),
    }
}

// Whether all its predecessors are ended.
pub(crate) fn is_ready(plan: &Plan, ended: &[bool], y: Piece) -> bool
    requires well { IsWellOrderedPlan plan.now }
    requires piece { IsPieceOf plan.now y }
    requires count { length ended.now ≡ piece_count plan.now }
    ensures { MatchBool result ((n : ℕ) → n < piece_count plan.now
        → is_predecessor plan.now (piece_numbered plan.now n) y ≡ true
        → slice_index_or ended.now n false ≡ true) ((n : ℕ) × (n < piece_count plan.now)
        × (is_predecessor plan.now (piece_numbered plan.now n) y ≡ true) × (slice_index_or ended.now n false ≡ false)) }
{
    for n in 0..ended.len() {
        let is_ended = ended[n];
        if !is_ended {
            let x = plan.piece(PieceId(n as u32));
            if precedes(plan, x, y) {
                return false;
            }
        }
    }
    true
}

// Whether the lease is of the piece.
pub(crate) fn is_of(lease: &Option<CoreLease>, p: u32) -> bool
    ensures { MatchBool result ((l : CoreLease) × (lease.now ≡ Some l) × (l.piece ≡ p)) ((l : CoreLease)
        → lease.now ≡ Some l → l.piece ≢ p) }
{
    match lease {
        None => false,
        Some(l) => l.piece == p,
    }
}

// Whether some seat leases the piece.
pub(crate) fn is_leased(leases: &[Option<CoreLease>], p: u32) -> bool
    ensures { MatchBool result ((k : ℕ) × (l : CoreLease) × (slice_index_or leases.now k None ≡ Some l)
        × (l.piece ≡ p)) ((k : ℕ) (l : CoreLease) → slice_index_or leases.now k None ≡ Some l → l.piece ≢ p) }
{
    for k in 0..leases.len() {
        if is_of(&leases[k], p) {
            return true;
        }
    }
    false
}

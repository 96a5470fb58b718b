// The steps of a run.
ghost use Rattle.std.specs.Prelude.{IfOk, OnErr, MatchBool, MatchResult, ◌≡◌, ◌<◌, ℕ, length, List, None, Some, Ok, true, false, if◌then◌else◌, slice_index_or, slice_set};
ghost use Rattle.job_base.specs.Cells.{cells_of};
ghost use Rattle.job_base.specs.declared.limits.TheConstants.{MOST_WORKERS};
ghost use Rattle.merge_laws.specs.Runs.{RunState, start, after, IsLegal, IsEnded, IsKept, MayTake, MayFinish, taken, finished};
ghost use Rattle.frame_core.specs.declared.event.Event.{Event};
ghost use Rattle.frame_core.specs.declared.plan.Plan.{Plan};
ghost use Rattle.frame_core.specs.declared.touch.Touch.{Touch};
ghost use Rattle.frame_core.specs.Pieces.{piece_numbered};
ghost use Rattle.frame_core.specs.Effects.{touches, piece_cells};
ghost use Rattle.frame_core.specs.Graphs.{graph_of, cells_after};
ghost use Rattle.frame_core.specs.Know.{piece_count, writes};
ghost use Rattle.frame_core.specs.Events.{place_numbered, event_of};
ghost use Rattle.frame_core.specs.Ordered.{IsWellOrderedPlan};
ghost use Rattle.frame_replay.specs.declared.state.CoreLease.{CoreLease};
ghost use Rattle.frame_replay.specs.States.{IsState, IsReachedBy, state_after, Refuses, MayTakeNow, LeasesNow, IsSizedFor};

use crate::order::{is_leased, is_of, is_ready};
use crate::state::{CoreLease, CoreState};
use crate::writing::{copy_of, run_on, write_back};
use frame_core::{CoreFault, Event, Piece, Plan, Touch, touches};
use job_base::limits::MOST_WORKERS;
use job_base::{NoMemory, PieceId, Word};
use kernel_machine::Scratch;
use std::alloc::Global;

fn no_leases(alloc: Global) -> Result<Vec<Option<CoreLease>>, NoMemory>
    ensures { IfOk result (λ v. (length v.items ≡ MOST_WORKERS) × ((k : ℕ) → slice_index_or v.items k None ≡ None)) }
{
    let mut leases = Vec::with_capacity(alloc, MOST_WORKERS as usize)?;
    for _ in 0..MOST_WORKERS as usize {
        leases.push(None)?;
    }
    Ok(leases)
}

// The cells that a plan has at first.
fn cells_at_first(alloc: Global, plan: &Plan) -> Result<Vec<i64>, NoMemory>
    requires well { IsWellOrderedPlan plan.now }
    ensures size { IfOk result (λ v. length v.items ≡ plan.now.words) }
    ensures cells { IfOk result (λ v. (graph_of plan.now).first ≡ cells_of v.items) }
{
    let mut cells = Vec::with_capacity(alloc, plan.words as usize)?;
    cells.extend_from_slice(&plan.first)?;
    cells.resize(plan.words as usize, 0)?;
    Ok(cells)
}

impl CoreState {
    /// Nothing is ended or leased, and the cells are those that the plan has at first.
    pub fn start(alloc: Global, plan: &Plan) -> Result<CoreState, NoMemory>
        requires well { IsWellOrderedPlan plan.now }
        ensures { IfOk result (λ c. IsState plan.now c (start (graph_of plan.now))) }
    {
        let pieces = plan.job_pieces() as usize + plan.segments.len();
        let ended = vec![in alloc; false; pieces]?;
        let leases = no_leases(alloc)?;
        let cells = cells_at_first(alloc, plan)?;
        Ok(CoreState {
            ended,
            leases,
            cells,
        })
    }

    /// Whether all pieces are ended.
    pub fn is_ended(&self) -> bool
        ensures { (plan : Plan) (s : RunState) → IsWellOrderedPlan plan → IsState plan self.now s
            → MatchBool result (IsEnded (graph_of plan) s) (IsEnded (graph_of plan) s → ⊥) }
    {
        for p in 0..self.ended.len() {
            if !self.ended[p] {
                return false;
            }
        }
        true
    }

    /// What a word holds.
    pub fn cell(&self, w: Word) -> i64
        ensures value { (plan : Plan) (s : RunState) → IsState plan self.now s → result ≡ s.cells w.0 }
        ensures ended { (plan : Plan) (es : List Event) → IsWellOrderedPlan plan → IsReachedBy plan es self.now
            → IsEnded (graph_of plan) (state_after plan es) → result ≡ cells_after plan w.0 }
    {
        self.word(w.0 as usize)
    }

    fn word(&self, w: usize) -> i64
        ensures { result ≡ cells_of self.now.cells.items w }
    {
        if w < self.cells.len() {
            self.cells[w]
        } else {
            0
        }
    }

    fn may_take(&self, plan: &Plan, seat: u32, p: u32) -> bool
        requires well { IsWellOrderedPlan plan.now }
        requires sized { IsSizedFor plan.now self.now }
        ensures { MatchBool result (MayTakeNow plan.now self.now seat p) (MayTakeNow plan.now self.now seat p → ⊥) }
    {
        if seat >= MOST_WORKERS || p as usize >= self.ended.len() {
            return false;
        }
        if self.ended[p as usize] {
            return false;
        }
        if self.leases[seat as usize].is_some() {
            return false;
        }
        if is_leased(&self.leases, p) {
            return false;
        }
        let piece = plan.piece(PieceId(p));
        if let Piece::OfScript(_) = piece {
            if seat != 0 {
                return false;
            }
        }
        is_ready(plan, &self.ended, piece)
    }

    fn take(&mut self, alloc: Global, plan: &Plan, seat: u32, p: u32) -> Result<(), CoreFault>
        requires well { IsWellOrderedPlan plan.now }
        requires sized { IsSizedFor plan.now self.old }
        ensures step { (s : RunState) → IsState plan.now self.old s
            → MatchResult result (λ _. MayTake (graph_of plan.now) s seat (place_numbered plan.now p)
            × IsState plan.now self.new (taken s seat (place_numbered plan.now p)))
            (λ fault. Refuses fault (MayTake (graph_of plan.now) s seat (place_numbered plan.now p))) }
        ensures same { OnErr result (self.new ≡ self.old) }
    {
        if !self.may_take(plan, seat, p) {
            return Err(CoreFault::Illegal);
        }
        let Ok(local) = copy_of(alloc, &self.cells) else {
            return Err(CoreFault::NoMemory);
        };
        self.leases[seat as usize] = Some(CoreLease { piece: p, local });
        Ok(())
    }

    fn has_lease(&self, seat: u32, p: u32) -> bool
        requires seats { length self.now.leases.items ≡ MOST_WORKERS }
        ensures { MatchBool result (LeasesNow self.now seat p) (LeasesNow self.now seat p → ⊥) }
    {
        if seat >= MOST_WORKERS {
            return false;
        }
        is_of(&self.leases[seat as usize], p)
    }

    // Runs the piece that a seat leases, writes it back and ends it.
    fn settle(&mut self, plan: &Plan, seat: u32, p: u32, spans: &[Touch], scratch: &mut Scratch)
        requires well { IsWellOrderedPlan plan.now }
        requires sized { IsSizedFor plan.now self.old }
        requires lease { LeasesNow self.old seat p }
        requires spans { spans.now ≡ touches plan.now (piece_numbered plan.now p) }
        ensures leases { self.new.leases.items ≡ slice_set self.old.leases.items seat None }
        ensures ended { self.new.ended.items ≡ slice_set self.old.ended.items p true }
        ensures words { length self.new.cells.items ≡ length self.old.cells.items }
        ensures cells { (l : CoreLease) → slice_index_or self.old.leases.items seat None ≡ Some l → (w : ℕ)
            → cells_of self.new.cells.items w ≡ (if writes plan.now p w then piece_cells plan.now
            (piece_numbered plan.now p) (cells_of l.local) w else cells_of self.old.cells.items w) }
    {
        let held = std::mem::replace(&mut self.leases[seat as usize], None);
        if let Some(lease) = held {
            let mut local = lease.local;
            run_on(plan, p, scratch, &mut local);
            write_back(spans, &mut local, &mut self.cells);
            self.ended[p as usize] = true;
        }
    }

    fn finish(&mut self, alloc: Global, plan: &Plan, seat: u32, p: u32) -> Result<(), CoreFault>
        requires well { IsWellOrderedPlan plan.now }
        requires sized { IsSizedFor plan.now self.old }
        ensures step { (s : RunState) → IsState plan.now self.old s
            → MatchResult result (λ _. MayFinish s seat (place_numbered plan.now p)
            × IsState plan.now self.new (finished (graph_of plan.now) s seat (s.lease seat)))
            (λ fault. Refuses fault (MayFinish s seat (place_numbered plan.now p))) }
        ensures same { OnErr result (self.new ≡ self.old) }
    {
        if !self.has_lease(seat, p) {
            return Err(CoreFault::Illegal);
        }
        let Ok(mut scratch) = Scratch::new(alloc) else {
            return Err(CoreFault::NoMemory);
        };
        let Ok(spans) = touches(alloc, plan, PieceId(p)) else {
            return Err(CoreFault::NoMemory);
        };
        self.settle(plan, seat, p, &spans, &mut scratch);
        Ok(())
    }

    /// Does what an event says, where that is legal.
    pub fn step(&mut self, alloc: Global, plan: &Plan, e: Event) -> Result<(), CoreFault>
        requires well { IsWellOrderedPlan plan.now }
        requires state { (s : RunState) × IsState plan.now self.old s }
        ensures step { (s : RunState) → IsState plan.now self.old s
            → MatchResult result (λ _. IsLegal (graph_of plan.now) s (event_of plan.now e)
            × IsState plan.now self.new (after (graph_of plan.now) s (event_of plan.now e)))
            (λ fault. Refuses fault (IsLegal (graph_of plan.now) s (event_of plan.now e))) }
        ensures kept { (s : RunState) → IsState plan.now self.old s → IsKept (graph_of plan.now) s
            → IfOk result (λ _. IsKept (graph_of plan.now) (after (graph_of plan.now) s (event_of plan.now e))) }
        ensures same { OnErr result (self.new ≡ self.old) }
    {
        match e {
            Event::Take { seat, piece } => self.take(alloc, plan, seat, piece.0),
            Event::Steal {
                seat,
                victim: _,
                piece,
            } => self.take(alloc, plan, seat, piece.0),
            Event::Finish { seat, piece } => self.finish(alloc, plan, seat, piece.0),
        }
    }
}

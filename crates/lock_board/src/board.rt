//! What a board is made of, and its making.
ghost use Rattle.std.specs.Prelude.{◌≡◌, ◌≤◌, ◌<◌, ◌+◌, ◌-◌, ℕ, suc, List, IfOk, length, nat_eq, slice_get, slice_index, slice_index_or, Some, pos, false};
ghost use Rattle.job_base.specs.declared.limits.TheConstants.{MOST_WORKERS};
ghost use Rattle.job_base.specs.Cells.{cells_of};
ghost use Rattle.frame_core.specs.Names.{deps_in, job_at, job_pieces, pieces_before};
ghost use Rattle.frame_core.specs.Graphs.{cells_at_first};
ghost use Rattle.frame_core.specs.Ordered.{IsWellOrderedPlan};
ghost use Rattle.frame_core.specs.Know.{new_seat};
ghost use Rattle.lock_board.specs.Seats.{know_of};

use crate::board_name::BoardName;
use crate::content::Content;
use crate::layout::Layout;
use crate::seat::{Held, LockSeat};
use crate::state::State;
use frame_core::{Plan, PlanName};
use job_base::NoMemory;
use std::alloc::{AllocError, Global};
use std::marker::PhantomData;
use std::sync::ledger::Blank;
use std::sync::{Mutex, Wait};

/// A board whose cells and states lie under one lock. Its calls may wait for the lock, by the runtime of their seat.
#[derive(Drop)]
pub struct LockBoard<R: Wait, K: PlanName + BoardName> {
    pub(crate) content: Mutex<Content<K>>,
    pub(crate) layout: Layout<K>,
    pub(crate) of: PhantomData<R>,
}

fn shared_by_threads<T: Send + Sync>(_it: &T) {}

fn sent_to_threads<T: Send>(_it: &T) {}

// A board is shared by threads, and a seat goes to one. Nothing calls it: that it is accepted shows it.
fn crosses<R: Wait + Send + Sync, K: PlanName + BoardName + Send + Sync>(
    board: &LockBoard<R, K>,
    seat: &LockSeat<R, K>,
) {
    shared_by_threads(board);
    sent_to_threads(seat);
}

// How many pieces each job has.
fn count_pieces(alloc: Global, plan: &Plan, ends: &[u32]) -> Result<Vec<u32>, AllocError>
    requires size { length ends.now ≡ suc (length plan.now.jobs.items) }
    requires ends { (j : ℕ) → j < length ends.now → slice_index ends.now j ≡ pieces_before plan.now.jobs.items j }

    ensures size { IfOk result (λ v. length v.items ≡ length plan.now.jobs.items) }
    ensures pieces { IfOk result (λ v. (j : ℕ) → j < length plan.now.jobs.items → slice_index v.items j
        ≡ pieces_before plan.now.jobs.items (suc j) - pieces_before plan.now.jobs.items j) }
{
    let mut all = Vec::with_capacity(alloc, plan.jobs.len())?;
    for j in 0..plan.jobs.len() {
        all.push(ends[j + 1] - ends[j])?;
    }
    Ok(all)
}

// How many predecessors each job has: its segment, and its dependencies.
fn count_predecessors(alloc: Global, plan: &Plan) -> Result<Vec<u32>, AllocError>
    requires well { IsWellOrderedPlan plan.now }

    ensures size { IfOk result (λ v. length v.items ≡ length plan.now.jobs.items) }
    ensures pieces { IfOk result (λ v. (j : ℕ) → j < length plan.now.jobs.items
        → slice_index v.items j ≡ 1 + length (deps_in (job_at plan.now j))) }
{
    let mut all = Vec::with_capacity(alloc, plan.jobs.len())?;
    for j in 0..plan.jobs.len() {
        all.push(1 + plan.jobs[j].deps.len() as u32)?;
    }
    Ok(all)
}

// The cells at first: those of the plan, and 0 for each other word.
fn first_cells(alloc: Global, plan: &Plan) -> Result<Vec<i64>, AllocError>
    requires well { IsWellOrderedPlan plan.now }

    ensures size { IfOk result (λ v. length v.items ≡ plan.now.words) }
    ensures cells { IfOk result (λ v. (w : ℕ) → cells_of v.items w ≡ cells_at_first plan.now w) }
{
    let mut cells = Vec::with_capacity(alloc, plan.words as usize)?;
    cells.extend_from_slice(&plan.first)?;
    cells.resize(plan.words as usize, 0)?;
    Ok(cells)
}

impl<K: PlanName + BoardName> Content<K> {
    // All pieces are closed, and the cells are the plan's first.
    fn new(
        alloc: Global,
        plan: &Plan,
        layout: &Layout<K>,
        token: Blank,
    ) -> Result<Content<K>, NoMemory>
        requires token { token.name ≡ K.board }
        requires plan { plan.now ≡ K.plan }
        requires well { IsWellOrderedPlan plan.now }
    {
        let pieces = layout.parts as usize + plan.segments.len();
        let states = vec![in alloc; State::Closed; pieces]?;
        let cells = first_cells(alloc, plan)?;
        let rests = count_pieces(alloc, plan, &layout.ends)?;
        let waits = count_predecessors(alloc, plan)?;
        let dues = vec![in alloc; 0u32; plan.jobs.len()]?;
        Ok(Content {
            states,
            cells,
            rests,
            waits,
            dues,
            token,
            of: PhantomData,
        })
    }
}

impl Held {
    // What a new seat holds.
    fn new(
        alloc: Global,
        plan: &Plan,
        parts: u32,
        room: usize,
        number: u32,
    ) -> Result<Held, AllocError>
        requires parts { parts ≡ job_pieces plan.now }

        ensures know { IfOk result (λ held. know_of plan.now held ≡ new_seat (nat_eq number 0)) }
        ensures room { IfOk result (λ held. length held.room.items ≡ room) }
        ensures dues { IfOk result (λ held. length held.dues.items ≡ length plan.now.jobs.items) }
        ensures rights { IfOk result (λ held. length held.rights.items ≡ job_pieces plan.now) }
        ensures seen { IfOk result (λ held. length held.seen.items ≡ length plan.now.jobs.items) }
    {
        Ok(Held {
            number,
            lease: None,
            room: vec![in alloc; 0i64; room]?,
            owed: None,
            ended_piece: 0,
            dues: vec![in alloc; 0u32; plan.jobs.len()]?,
            rights: vec![in alloc; false; parts as usize]?,
            seen: vec![in alloc; false; plan.jobs.len()]?,
            first: number == 0,
            ended: 0,
            opened: false,
        })
    }
}

impl<R: Wait + Copy + Drop, K: PlanName + BoardName> LockBoard<R, K> {
    /// A board of the plan that K names, with its seats, of which the first runs the segments. All pieces are closed,
    /// and the cells are the plan's first. The board owns the token, after which K names the board.
    pub fn make(
        rt: R,
        alloc: Global,
        plan: &Plan,
        seats: u32,
        token: Blank,
    ) -> Result<(LockBoard<R, K>, Vec<LockSeat<R, K>>), NoMemory>
        requires token { token.name ≡ K.board }
        requires plan { plan.now ≡ K.plan }
        requires well { IsWellOrderedPlan plan.now }
        requires seats { (1 ≤ seats) × (seats ≤ MOST_WORKERS) }

        ensures count { IfOk result (λ r. length r.1.items ≡ seats) }
        ensures seats { IfOk result (λ r. (k : ℕ) (seat : _) → slice_get r.1.items k ≡ Some seat
            → know_of K.plan seat.held ≡ new_seat (nat_eq k 0)) }
    {
        let layout = Layout::of_plan(alloc, plan)?;
        let content = Content::new(alloc, plan, &layout, token)?;
        let mut all = Vec::with_capacity(alloc, seats as usize)?;
        for number in 0..seats {
            let held = Held::new(alloc, plan, layout.parts, layout.room, number)?;
            all.push(LockSeat {
                rt,
                held,
                of: PhantomData,
            })?;
        }
        let board = LockBoard {
            content: Mutex::new(content),
            layout,
            of: PhantomData,
        };
        Ok((board, all))
    }
}

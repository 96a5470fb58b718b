// Pieces of jobs: opening them, running one, and what follows when a job is finished.
ghost use Rattle.std.specs.Prelude.{◌≡◌, ◌+◌, ◌<◌, ◌≤◌, ℕ, suc, Some, None, IfSome, length, All};
ghost use Rattle.frame_core.specs.declared.piece.Piece.TheVariants.{OfJob};
ghost use Rattle.frame_core.specs.Names.{job_pieces, IsJobOf};
ghost use Rattle.frame_core.specs.Ordered.{IsWellOrderedPlan};
ghost use Rattle.frame_core.specs.Pieces.{IsPieceOf, number_of};
ghost use Rattle.piece_claims.specs.Claims.{AreClaimsOf, IsGiven};
ghost use Rattle.piece_claims.specs.Followers.{AreFollowers, followers_of};
ghost use Rattle.piece_run.specs.Visits.{IsVisitOf};
ghost use Rattle.steal_pool.specs.Crews.{IsCrewOf};
ghost use Rattle.steal_pool.specs.Seats.{IsIdle, IsOn, IsSteady, IsReleased, MayOpenFrom, MayOpenNone, HasDues};

use crate::crew::{Crew, Shared};
use crate::held::run_piece_leased;
use crate::idling::Waking;
use crate::place::Tools;
use crate::queue::Queue;
use frame_core::{Board, Plan};
use job_base::{Gate, JobId, PieceId};
use piece_claims::{Claimed, Claims, Followers};
use piece_run::{JobVisit, visit_job};

// Opens the pieces of a job.
fn open_pieces<B: Board>(plan: &Plan, board: &B, seat: &mut B::Seat, job: JobId)
    requires plan { plan.now ≡ B.plan board.now }
    requires well { IsWellOrderedPlan plan.now }
    requires job { IsJobOf plan.now job }
    requires home { B.home seat.old ≡ B.name board.now }
    requires rights { MayOpenFrom plan.now job.0 0 (B.know seat.old) }
    ensures home { B.home seat.new ≡ B.home seat.old }
    ensures steady { IsSteady (B.know seat.old) (B.know seat.new) }
    ensures none { MayOpenNone (B.know seat.new) }
{
    let entry = &plan.jobs[job.0 as usize - 1];
    let first = entry.first.0;
    for p in first..first + entry.pieces() {
        board.open_piece(seat, PieceId(p));
    }
}

// Opens the pieces of a job, and then offers the job, so that whoever finds it can begin them.
fn open_job<B: Board>(plan: &Plan, board: &B, seat: &mut B::Seat, queue: &mut Queue, job: JobId)
    requires plan { plan.now ≡ B.plan board.now }
    requires well { IsWellOrderedPlan plan.now }
    requires job { IsJobOf plan.now job }
    requires home { B.home seat.old ≡ B.name board.now }
    requires rights { MayOpenFrom plan.now job.0 0 (B.know seat.old) }
    ensures home { B.home seat.new ≡ B.home seat.old }
    ensures steady { IsSteady (B.know seat.old) (B.know seat.new) }
    ensures none { MayOpenNone (B.know seat.new) }
{
    open_pieces(plan, board, seat, job);
    queue.offer::<B>(seat, job);
}

// Ends the duty to release a job, and opens it where nothing is left to wait for.
pub(crate) fn release_job<B: Board>(
    plan: &Plan,
    board: &B,
    seat: &mut B::Seat,
    queue: &mut Queue,
    job: JobId,
)
    requires plan { plan.now ≡ B.plan board.now }
    requires well { IsWellOrderedPlan plan.now }
    requires job { IsJobOf plan.now job }
    requires home { B.home seat.old ≡ B.name board.now }
    requires due { 0 < (B.know seat.old).dues job.0 }
    requires none { MayOpenNone (B.know seat.old) }
    ensures home { B.home seat.new ≡ B.home seat.old }
    ensures released { IsReleased job.0 (B.know seat.old) (B.know seat.new) }
    ensures none { MayOpenNone (B.know seat.new) }
{
    if board.release(seat, job) {
        open_job(plan, board, seat, queue, job);
    }
}

// Releases what depends on a finished job.
fn release_after<B: Board>(
    plan: &Plan,
    board: &B,
    seat: &mut B::Seat,
    queue: &mut Queue,
    followers: &Followers,
    job: JobId,
)
    requires plan { plan.now ≡ B.plan board.now }
    requires well { IsWellOrderedPlan plan.now }
    requires followers { AreFollowers plan.now followers.now }
    requires job { IsJobOf plan.now job }
    requires home { B.home seat.old ≡ B.name board.now }
    requires lease { (B.know seat.old).lease ≡ None }
    requires owed { (B.know seat.old).owed ≡ None }
    requires dues { HasDues (followers_of followers.now job.0) (B.know seat.old) }
    requires none { MayOpenNone (B.know seat.old) }
    ensures home { B.home seat.new ≡ B.home seat.old }
    ensures idle { IsIdle (B.know seat.new) }
    ensures on { IsOn (B.know seat.old) (B.know seat.new) }
{
    let mut rest = followers.of(job);
    while let Some((follower, tail)) = rest.split_first() {
        release_job(plan, board, seat, queue, *follower);
        rest = tail;
    }
}

/// A seat, and whether it ran a piece at least.
pub struct Turn<S> {
    pub seat: S,
    pub ran: bool,
}

// Ends a piece of a job that was run, and counts it.
fn end_piece<W: Waking, B: Board>(
    plan: &Plan,
    board: &B,
    seat: &mut B::Seat,
    queue: &mut Queue,
    shared: &Shared,
)
    requires plan { plan.now ≡ B.plan board.now }
    requires well { IsWellOrderedPlan plan.now }
    requires followers { AreFollowers plan.now shared.now.followers }
    requires home { B.home seat.old ≡ B.name board.now }
    requires owed { (j : ℕ) × ((B.know seat.old).owed ≡ Some (suc j)) × (j < length plan.now.jobs.items) }
    requires lease { (B.know seat.old).lease ≡ None }
    requires dues { (j : ℕ) → (B.know seat.old).dues j ≡ 0 }
    requires none { MayOpenNone (B.know seat.old) }
    ensures home { B.home seat.new ≡ B.home seat.old }
    ensures idle { IsIdle (B.know seat.new) }
    ensures on { IsOn (B.know seat.old) (B.know seat.new) }
{
    if let Some(job) = board.count(seat) {
        release_after(plan, board, seat, queue, &shared.followers, job);
        W::end_job(shared, job);
    }
}

// Runs piece i of the job that is visited, which has number p and is given to this worker, if it is open.
fn run_given_piece<W: Waking, R, B: Board, G: Gate>(
    crew: &Crew<R, B, G>,
    tools: &mut Tools,
    seat: B::Seat,
    visit: &mut JobVisit<'_>,
    p: PieceId,
    i: u32,
) -> Turn<B::Seat>
    requires crew { IsCrewOf crew.now.plan.now (B.plan crew.now.board.now) crew.now.shared.now }
    requires home { B.home seat ≡ B.name crew.now.board.now }
    requires idle { IsIdle (B.know seat) }
    requires visit { IsVisitOf crew.now.plan.now visit.old tools.old.scratch }
    requires piece { IsPieceOf crew.now.plan.now (OfJob visit.old.place i) }
    requires number { p.0 ≡ number_of crew.now.plan.now (OfJob visit.old.place i) }
    requires of_job { p.0 < job_pieces crew.now.plan.now }
    ensures home { B.home result.seat ≡ B.home seat }
    ensures idle { IsIdle (B.know result.seat) }
    ensures on { IsOn (B.know seat) (B.know result.seat) }
    ensures place { visit.new.place ≡ visit.old.place }
    ensures visit { IsVisitOf crew.now.plan.now visit.new tools.new.scratch }
{
    let plan = crew.plan;
    let board = crew.board;
    let mut own = seat;
    if !board.begin(&mut own, p) {
        return Turn {
            seat: own,
            ran: false,
        };
    }
    crew.gate.enter(tools.number, p);
    let mut own = run_piece_leased(plan, board, own, p, visit, i, &mut tools.scratch);
    crew.gate.leave(tools.number, p);
    board.end(&mut own);
    end_piece::<W, B>(plan, board, &mut own, &mut tools.queue, crew.shared);
    Turn {
        seat: own,
        ran: true,
    }
}

// Runs the pieces of a job that are given to this worker, each once, those that are open. What they have in common is
// found once.
fn run_given_pieces<W: Waking, R, B: Board, G: Gate>(
    crew: &Crew<R, B, G>,
    tools: &mut Tools,
    seat: B::Seat,
    claimed: Claimed,
) -> Turn<B::Seat>
    requires crew { IsCrewOf crew.now.plan.now (B.plan crew.now.board.now) crew.now.shared.now }
    requires home { B.home seat ≡ B.name crew.now.board.now }
    requires idle { IsIdle (B.know seat) }
    requires given { IsGiven crew.now.plan.now crew.now.shared.now.claims claimed }
    ensures home { B.home result.seat ≡ B.home seat }
    ensures idle { IsIdle (B.know result.seat) }
    ensures on { IsOn (B.know seat) (B.know result.seat) }
{
    let Claimed {
        piece,
        job,
        place,
        count,
        more: _,
        token: _,
    } = claimed;
    let mut visit = visit_job(crew.plan, job, &mut tools.scratch);
    let mut own = seat;
    let mut any = false;
    for k in 0..count {
        let number = PieceId(piece.0 + k);
        let Turn { seat: next, ran } = run_given_piece::<W, R, B, G>(
            crew,
            tools,
            own,
            &mut visit,
            number,
            place + k,
        );
        own = next;
        any = any || ran;
    }
    Turn {
        seat: own,
        ran: any,
    }
}

// How many offers of jobs without a piece left are let go on the way, before a turn ends without a piece.
const SPENT_OFFERS: u32 = 64;

// The next pieces of the job at hand.
fn at_hand(plan: &Plan, claims: &Claims, most: u32, tools: &mut Tools) -> Option<Claimed>
    requires well { IsWellOrderedPlan plan.now }
    requires claims { AreClaimsOf plan.now claims.now }
    requires most { 0 < most }
    ensures given { IfSome result (IsGiven plan.now claims.now) }
{
    let job = tools.at_hand?;
    match claims.next(plan, job, most) {
        Ok(claimed) => Some(claimed),
        Err(_) => {
            tools.at_hand = None;
            None
        }
    }
}

// Takes up a job that is offered, and offers it again where it has more pieces than those that are answered.
fn take_up<W: Waking, B: Board>(
    plan: &Plan,
    shared: &Shared,
    tools: &mut Tools,
    seat: &B::Seat,
) -> Option<Claimed>
    requires none { MayOpenNone (B.know seat.now) }
    requires well { IsWellOrderedPlan plan.now }
    requires claims { AreClaimsOf plan.now shared.now.claims }
    ensures given { IfSome result (IsGiven plan.now shared.now.claims) }
{
    for _ in 0..SPENT_OFFERS {
        let job = tools.queue.find(tools.number, &shared.thieves)?;
        if let Ok(claimed) = shared.claims.next(plan, job, W::most_pieces()) {
            if claimed.more {
                tools.at_hand = Some(job);
                tools.queue.offer::<B>(seat, job);
            }
            W::leave_search(shared, tools);
            return Some(claimed);
        }
    }
    None
}

// The next pieces of a job that are for this worker to run.
fn next_pieces<W: Waking, B: Board>(
    plan: &Plan,
    shared: &Shared,
    tools: &mut Tools,
    seat: &B::Seat,
) -> Option<Claimed>
    requires none { MayOpenNone (B.know seat.now) }
    requires well { IsWellOrderedPlan plan.now }
    requires claims { AreClaimsOf plan.now shared.now.claims }
    ensures given { IfSome result (IsGiven plan.now shared.now.claims) }
{
    if let Some(claimed) = at_hand(plan, &shared.claims, W::most_pieces(), tools) {
        return Some(claimed);
    }
    take_up::<W, B>(plan, shared, tools, seat)
}

/// Runs pieces of a job, if some are found that are open: of the job at hand, or else of one that it takes up. `W` is
/// who is told of what others can do, and says how many pieces are taken at once.
pub fn help<W: Waking, R, B: Board, G: Gate>(
    crew: &Crew<R, B, G>,
    tools: &mut Tools,
    seat: B::Seat,
) -> Turn<B::Seat>
    requires crew { IsCrewOf crew.now.plan.now (B.plan crew.now.board.now) crew.now.shared.now }
    requires home { B.home seat ≡ B.name crew.now.board.now }
    requires idle { IsIdle (B.know seat) }
    ensures home { B.home result.seat ≡ B.home seat }
    ensures idle { IsIdle (B.know result.seat) }
    ensures on { IsOn (B.know seat) (B.know result.seat) }
{
    match next_pieces::<W, B>(crew.plan, crew.shared, tools, &seat) {
        Some(claimed) => run_given_pieces::<W, R, B, G>(crew, tools, seat, claimed),
        None => Turn { seat, ran: false },
    }
}

// What is run on a seat's lease.
ghost use Rattle.std.specs.Prelude.{◌≡◌, ◌<◌, ◌≤◌, ◌+◌, ◌^◌, Some, length};
ghost use Rattle.frame_core.specs.Reports.{IsReportOf};
ghost use Rattle.frame_core.specs.declared.piece.Piece.TheVariants.{OfScript, OfJob};
ghost use Rattle.frame_core.specs.Names.{job_pieces};
ghost use Rattle.frame_core.specs.Pieces.{IsPieceOf, number_of, piece_numbered};
ghost use Rattle.frame_core.specs.Effects.{piece_cells};
ghost use Rattle.frame_core.specs.Graphs.{before_piece};
ghost use Rattle.frame_core.specs.Output.{plan_traps, segment_lines, segment_refused};
ghost use Rattle.frame_core.specs.Know.{IsStill, reads, writes};
ghost use Rattle.frame_core.specs.Ordered.{IsWellOrderedPlan};
ghost use Rattle.piece_run.specs.Visits.{IsVisitOf};
ghost use Rattle.plan_run.specs.Lines.{segment_cells};
ghost use Rattle.plan_run.specs.Says.{SaysTo};

use frame_core::{Board, Holding, Lease, Plan, Report};
use frame_print::Outgoing;
use job_base::{PieceId, Sink};
use kernel_machine::Scratch;
use piece_run::{JobVisit, run_visited};
use plan_run::run_segment;
use std::marker::Brand;

fn run_piece_as<B: Board, K: Holding>(
    plan: &Plan,
    board: &B,
    seat: B::Seat,
    p: PieceId,
    visit: &mut JobVisit<'_>,
    i: u32,
    scratch: &mut Scratch,
) -> B::Seat
    requires plan { plan.now ≡ B.plan board.now }
    requires well { IsWellOrderedPlan plan.now }
    requires visit { IsVisitOf plan.now visit.old scratch.old }
    requires piece { IsPieceOf plan.now (OfJob visit.old.place i) }
    requires number { p.0 ≡ number_of plan.now (OfJob visit.old.place i) }
    requires is { K.piece ≡ p.0 }
    requires name { B.name board.now ≡ K.name }
    requires home { B.home seat ≡ K.name }
    requires held { B.know seat ≡ K.held }
    requires lease { K.held.lease ≡ Some K.piece }
    requires read { reads (B.plan board.now) K.piece ≡ K.read }
    requires write { writes (B.plan board.now) K.piece ≡ K.write }
    ensures home { B.home result ≡ B.home seat }
    ensures still { IsStill (B.know seat) (B.know result) }
    ensures cells { (B.know result).cells ≡ piece_cells plan.now (piece_numbered plan.now p.0) (B.know seat).cells }
    ensures place { visit.new.place ≡ visit.old.place }
    ensures visit { IsVisitOf plan.now visit.new scratch.new }
{
    let mut lease: Lease<B, K> = Lease::over(board, seat);
    run_visited(plan, visit, i, scratch, &mut lease);
    lease.into_seat()
}

/// Runs piece i of the job that is visited, which has number p, on the seat's lease of it.
pub fn run_piece_leased<B: Board>(
    plan: &Plan,
    board: &B,
    seat: B::Seat,
    p: PieceId,
    visit: &mut JobVisit<'_>,
    i: u32,
    scratch: &mut Scratch,
) -> B::Seat
    requires plan { plan.now ≡ B.plan board.now }
    requires well { IsWellOrderedPlan plan.now }
    requires visit { IsVisitOf plan.now visit.old scratch.old }
    requires piece { IsPieceOf plan.now (OfJob visit.old.place i) }
    requires number { p.0 ≡ number_of plan.now (OfJob visit.old.place i) }
    requires home { B.home seat ≡ B.name board.now }
    requires lease { (B.know seat).lease ≡ Some p.0 }
    ensures home { B.home result ≡ B.home seat }
    ensures still { IsStill (B.know seat) (B.know result) }
    ensures cells { (B.know result).cells ≡ piece_cells plan.now (piece_numbered plan.now p.0) (B.know seat).cells }
    ensures place { visit.new.place ≡ visit.old.place }
    ensures visit { IsVisitOf plan.now visit.new scratch.new }
{
    run_piece_as::<B, Brand>(plan, board, seat, p, visit, i, scratch)
}

/// A seat, and the traps that were counted.
pub struct SegmentRun<S> {
    pub seat: S,
    pub traps: Report,
}

/// What segments came to while their lines were said.
#[derive(Drop)]
pub struct Said {
    /// A write failed.
    pub failed: bool,
    /// How many statements were refused.
    pub refused: u64,
}

fn run_segment_as<B: Board, K: Holding, S: Sink>(
    plan: &Plan,
    board: &B,
    seat: B::Seat,
    i: u32,
    out: &mut Outgoing,
    sink: &mut S,
    said: &mut Said,
) -> SegmentRun<B::Seat>
    requires plan { plan.now ≡ B.plan board.now }
    requires well { IsWellOrderedPlan plan.now }
    requires index { i < length plan.now.segments.items }
    requires few { said.old.refused + segment_refused plan.now i < 2 ^ 64 }
    requires is { K.piece ≡ job_pieces plan.now + i }
    requires name { B.name board.now ≡ K.name }
    requires home { B.home seat ≡ K.name }
    requires held { B.know seat ≡ K.held }
    requires cells { (B.know seat).cells ≡ before_piece plan.now (OfScript i) }
    requires lease { K.held.lease ≡ Some K.piece }
    requires read { reads (B.plan board.now) K.piece ≡ K.read }
    requires write { writes (B.plan board.now) K.piece ≡ K.write }
    ensures home { B.home result.seat ≡ B.home seat }
    ensures still { IsStill (B.know seat) (B.know result.seat) }
    ensures cells { (B.know result.seat).cells ≡ segment_cells plan.now i }
    ensures text { SaysTo S.taken S.faults sink.old out.old said.old.failed sink.new out.new said.new.failed
        (segment_lines plan.now i) }
    ensures later { S.faults sink.old ≤ S.faults sink.new }
    ensures refused { said.new.refused ≡ said.old.refused + segment_refused plan.now i }
    ensures traps { i + 1 ≡ length plan.now.segments.items → IsReportOf (plan_traps plan.now) result.traps }
{
    let mut lease: Lease<B, K> = Lease::over(board, seat);
    let traps = run_segment(
        plan,
        i,
        &mut lease,
        out,
        sink,
        &mut said.failed,
        &mut said.refused,
    );
    SegmentRun {
        seat: lease.into_seat(),
        traps,
    }
}

/// Runs a segment on the seat's lease.
pub fn run_segment_leased<B: Board, S: Sink>(
    plan: &Plan,
    board: &B,
    seat: B::Seat,
    i: u32,
    out: &mut Outgoing,
    sink: &mut S,
    said: &mut Said,
) -> SegmentRun<B::Seat>
    requires plan { plan.now ≡ B.plan board.now }
    requires well { IsWellOrderedPlan plan.now }
    requires index { i < length plan.now.segments.items }
    requires few { said.old.refused + segment_refused plan.now i < 2 ^ 64 }
    requires home { B.home seat ≡ B.name board.now }
    requires lease { (B.know seat).lease ≡ Some (job_pieces plan.now + i) }
    requires cells { (B.know seat).cells ≡ before_piece plan.now (OfScript i) }
    ensures home { B.home result.seat ≡ B.home seat }
    ensures still { IsStill (B.know seat) (B.know result.seat) }
    ensures cells { (B.know result.seat).cells ≡ segment_cells plan.now i }
    ensures text { SaysTo S.taken S.faults sink.old out.old said.old.failed sink.new out.new said.new.failed
        (segment_lines plan.now i) }
    ensures later { S.faults sink.old ≤ S.faults sink.new }
    ensures refused { said.new.refused ≡ said.old.refused + segment_refused plan.now i }
    ensures traps { i + 1 ≡ length plan.now.segments.items → IsReportOf (plan_traps plan.now) result.traps }
{
    run_segment_as::<B, Brand, S>(plan, board, seat, i, out, sink, said)
}

// The traps of a run, counted in the own words of its pieces.
ghost use Rattle.std.specs.Prelude.{◌≡◌, ◌≤◌, ◌<◌, ◌+◌, ◌*◌, List, [], Some};
ghost use Rattle.job_base.specs.declared.Trap.{Trap};
ghost use Rattle.job_base.specs.declared.limits.TheConstants.{MOST_INDEXES};
ghost use Rattle.frame_ast.specs.States.{JobTrap};
ghost use Rattle.frame_core.specs.Reports.{IsReportOf};
ghost use Rattle.frame_core.specs.Names.{job_pieces};
ghost use Rattle.frame_core.specs.Output.{first_traps, plan_traps};
ghost use Rattle.frame_core.specs.Ordered.{IsWellOrderedPlan};
ghost use Rattle.plan_run.specs.Lines.{MayReadOwn, TellAll, NotesPiece};

use frame_core::{Piece, Plan, Report, read_notes};
use job_base::{JobId, Mem, PieceId, Trap};
use kernel_exec::Notes;

/// The report of a run without traps and refused statements.
pub fn no_traps() -> Report
    ensures report { IsReportOf [] result }
    ensures traps { result.traps ≡ 0 }
{
    Report {
        traps: 0,
        refused: 0,
        job: JobId(0),
        index: 0,
        trap: Trap::Overflow,
    }
}

/// The report of the same traps, and of so many refused statements.
pub fn with_refused(report: &Report, refused: u64) -> Report
    ensures traps { (traps : List JobTrap) → IsReportOf traps report.now → IsReportOf traps result }
    ensures refused { result.refused ≡ refused }
{
    Report { refused, ..*report }
}

// The report with the traps of piece p, of which the first one is handed in. Few pieces have any, so this stands apart
// from the loop over all of them.
#[inline(never)]
fn with_traps(plan: &Plan, p: u32, notes: &Notes, first: (u32, Trap), report: &Report) -> Report
    requires well { IsWellOrderedPlan plan.now }
    requires piece { p < job_pieces plan.now }
    requires notes { NotesPiece plan.now p notes.now }
    requires first { notes.now.first ≡ Some first }
    requires few { report.now.traps ≤ MOST_INDEXES * p }
    requires report { IsReportOf (first_traps plan.now p) report.now }
    ensures few { result.traps ≤ MOST_INDEXES * (p + 1) }
    ensures report { IsReportOf (first_traps plan.now (p + 1)) result }
{
    let (index, trap) = first;
    let traps = report.traps + u64::from(notes.count);
    if report.traps > 0 {
        return Report { traps, ..*report };
    }
    let Piece::OfJob(j, _) = plan.piece(PieceId(p)) else {
        unreachable!()
    };
    Report {
        traps,
        refused: report.refused,
        job: JobId(j + 1),
        index,
        trap,
    }
}

// Adds the traps of piece p to the report.
fn add_notes(plan: &Plan, p: u32, notes: &Notes, report: &mut Report)
    requires well { IsWellOrderedPlan plan.now }
    requires piece { p < job_pieces plan.now }
    requires notes { NotesPiece plan.now p notes.now }
    requires few { report.old.traps ≤ MOST_INDEXES * p }
    requires report { IsReportOf (first_traps plan.now p) report.old }
    ensures few { report.new.traps ≤ MOST_INDEXES * (p + 1) }
    ensures report { IsReportOf (first_traps plan.now (p + 1)) report.new }
{
    if let Some(first) = notes.first {
        *report = with_traps(plan, p, notes, first, report);
    }
}

// Reads what the own word of piece p says of its traps.
fn read_piece<M: Mem>(plan: &Plan, p: u32, mem: &mut M) -> Notes
    requires well { IsWellOrderedPlan plan.now }
    requires piece { p < job_pieces plan.now }
    requires readable { MayReadOwn plan.now (M.readable mem.old) }
    requires told { TellAll plan.now (M.cells mem.old) }
    ensures notes { NotesPiece plan.now p result }
    ensures cells { M.cells mem.new ≡ M.cells mem.old }
    ensures readable { M.readable mem.new ≡ M.readable mem.old }
    ensures writable { M.writable mem.new ≡ M.writable mem.old }
{
    read_notes(plan.cells + p, mem)
}

/// Counts the traps of all pieces, and finds the first one.
pub fn count_traps<M: Mem>(plan: &Plan, mem: &mut M) -> Report
    requires well { IsWellOrderedPlan plan.now }
    requires readable { MayReadOwn plan.now (M.readable mem.old) }
    requires told { TellAll plan.now (M.cells mem.old) }
    ensures report { IsReportOf (plan_traps plan.now) result }
    ensures cells { M.cells mem.new ≡ M.cells mem.old }
    ensures readable { M.readable mem.new ≡ M.readable mem.old }
    ensures writable { M.writable mem.new ≡ M.writable mem.old }
{
    let mut report = no_traps();
    for p in 0..plan.job_pieces() {
        let notes = read_piece(plan, p, mem);
        add_notes(plan, p, &notes, &mut report);
    }
    report
}

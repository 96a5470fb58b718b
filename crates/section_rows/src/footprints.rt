// Which words the pieces of a worked plan read and write.
//
// The array `x` of `TOTAL` lies in the words 0 to 3, `y` in 4 to 7, and the reference in 8. After these each piece of a
// job has a word of its own, for its traps.
ghost use Rattle.std.specs.Prelude.{◌<◌};
ghost use Rattle.frame_core.specs.Know.{piece_count};
ghost use Rattle.frame_core.specs.Ordered.{IsWellOrderedPlan};

use frame_core::Plan;
use frame_rows::section_of;
use frame_rows::texts::TOTAL;
use job_base::{PieceId, Word};
use std::alloc::Global;
use std::fmt::Write;
use std::test::Fail;

// The words that a piece reads.
fn tell_read(plan: &Plan, piece: u32, told: &mut String) -> Result<(), Fail>
    requires well { IsWellOrderedPlan plan.now }
    requires piece { piece < piece_count plan.now }
{
    for w in 0..plan.words {
        if plan.reads(PieceId(piece), Word(w)) {
            write!(told, "{w} ")?;
        }
    }
    Ok(())
}

// The words that a piece writes.
fn tell_written(plan: &Plan, piece: u32, told: &mut String) -> Result<(), Fail>
    requires well { IsWellOrderedPlan plan.now }
    requires piece { piece < piece_count plan.now }
{
    for w in 0..plan.words {
        if plan.writes(PieceId(piece), Word(w)) {
            write!(told, " {w}")?;
        }
    }
    Ok(())
}

// Both, of one that is among the pieces of a plan.
fn words_of(alloc: Global, plan: &Plan, piece: u32) -> Result<String, Fail>
    requires well { IsWellOrderedPlan plan.now }
{
    if piece >= plan.job_pieces() + plan.segments.len() as u32 {
        return Err(Fail::new("no such piece"));
    }
    let mut told = String::new(alloc);
    tell_read(plan, piece, &mut told)?;
    write!(told, "to")?;
    tell_written(plan, piece, &mut told)?;
    Ok(told)
}

#[test]
fn footprints(rt: HostRuntime) -> Result<(), Fail> {
    let alloc = rt.alloc();
    let section = section_of(alloc, TOTAL)?;
    let rows: [(u32, &str); 5] = [
        // The first two elements of `y`, and all of `x`.
        (0, "0 1 2 3 4 5 9 to 4 5 9"),
        (1, "0 1 2 3 6 7 10 to 6 7 10"),
        // The second job is one piece.
        (2, "4 5 6 7 8 11 to 8 11"),
        // A segment that prints the reference.
        (6, "8 to"),
        // The last segment looks for traps.
        (7, "9 10 11 to"),
    ];
    for (piece, want) in rows {
        assert_eq!(rt; words_of(alloc, &section.plan, piece)?.as_str(), want);
    }
    Ok(())
}

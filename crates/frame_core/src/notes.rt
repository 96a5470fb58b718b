//! How the own word of a piece says what is noted of its traps.
ghost use Rattle.std.specs.Prelude.{◌≡◌, ◌≤◌, ◌<◌, ◌+◌, ◌++◌, ◌^◌, ◌∷◌, [], ℕ, List, length, pos, IsTrue};
ghost use Rattle.job_base.specs.declared.Trap.{Trap};
ghost use Rattle.job_base.specs.declared.limits.TheConstants.{MOST_INDEXES};
ghost use Rattle.frame_core.specs.Effects.{trap_number, note_of, noted};
ghost use Rattle.kernel_exec.specs.Notes.{IsNoteOf};
ghost use Rattle.frame_core.specs.Laws.{TellsTraps, AreIndexesBelow};

use crate::trap_numbers::{
    BUDGET, FULL, MISSING_KEY, NOTE_UNIT, OVERFLOW, OWN_INDEX, PRESENT_KEY, RANGE, WRITTEN,
    ZERO_DIVISOR,
};
use job_base::{Mem, Trap, Word};
use kernel_exec::Notes;

// The number by which a trap is kept in a word.
fn number_of(trap: Trap) -> u32
    ensures { result ≡ trap_number trap }
{
    match trap {
        Trap::Overflow => OVERFLOW,
        Trap::ZeroDivisor => ZERO_DIVISOR,
        Trap::Range => RANGE,
        Trap::OwnIndex => OWN_INDEX,
        Trap::Full => FULL,
        Trap::MissingKey => MISSING_KEY,
        Trap::PresentKey => PRESENT_KEY,
        Trap::Written => WRITTEN,
        Trap::Budget => BUDGET,
    }
}

// The trap of a number by which one is kept.
fn trap_of(n: u32) -> Trap
    requires { (trap : Trap) × (n ≡ trap_number trap) }
    ensures { (trap : Trap) → n ≡ trap_number trap → result ≡ trap }
{
    match n {
        OVERFLOW => Trap::Overflow,
        ZERO_DIVISOR => Trap::ZeroDivisor,
        RANGE => Trap::Range,
        OWN_INDEX => Trap::OwnIndex,
        FULL => Trap::Full,
        MISSING_KEY => Trap::MissingKey,
        PRESENT_KEY => Trap::PresentKey,
        WRITTEN => Trap::Written,
        BUDGET => Trap::Budget,
        _ => unreachable!(),
    }
}

// What a word notes of some traps.
fn notes_in(word: u64) -> Notes
    requires { (t : ℕ × Trap) × (more : List (ℕ × Trap)) × (word ≡ note_of (t ∷ more))
        × (length (t ∷ more) ≤ MOST_INDEXES) × (t.0 < MOST_INDEXES) }
    ensures { (t : ℕ × Trap) (more : List (ℕ × Trap)) → word ≡ note_of (t ∷ more) → length (t ∷ more) ≤ MOST_INDEXES
        → t.0 < MOST_INDEXES → IsNoteOf (t ∷ more) result }
{
    let first = word / NOTE_UNIT;
    Notes {
        count: (word % NOTE_UNIT) as u32,
        first: Some((
            (first % NOTE_UNIT) as u32,
            trap_of((first / NOTE_UNIT) as u32),
        )),
    }
}

// The word that notes so many traps, of which this is the first.
fn word_of(count: u32, index: u32, trap: Trap) -> i64
    ensures { (more : List (ℕ × Trap)) → count ≡ length more + 1 → result ≡ pos (note_of ((index, trap) ∷ more)) }
{
    let first = u64::from(number_of(trap)) * NOTE_UNIT + u64::from(index);
    (first * NOTE_UNIT + u64::from(count)) as i64
}

/// Reads what a piece's own word says of its traps: the word `cells + p` for piece p.
pub fn read_notes<M: Mem>(own: u32, mem: &mut M) -> Notes
    requires readable { IsTrue (M.readable mem.old own) }
    requires told { (traps : List (ℕ × Trap)) × TellsTraps own traps (M.cells mem.old) × (length traps ≤ MOST_INDEXES)
        × AreIndexesBelow MOST_INDEXES traps }
    ensures note { (traps : List (ℕ × Trap)) → TellsTraps own traps (M.cells mem.old) → length traps ≤ MOST_INDEXES
        → AreIndexesBelow MOST_INDEXES traps → IsNoteOf traps result }
    ensures cells { M.cells mem.new ≡ M.cells mem.old }
    ensures readable { M.readable mem.new ≡ M.readable mem.old }
    ensures writable { M.writable mem.new ≡ M.writable mem.old }
{
    let word = mem.load(Word(own));
    if word <= 0 {
        return Notes::none();
    }
    notes_in(word as u64)
}

/// Notes the traps of a piece in its own word. Without a trap it writes nothing.
pub fn write_notes<M: Mem>(own: u32, notes: &Notes, mem: &mut M)
    requires writable { IsTrue (M.writable mem.old own) }
    ensures cells { (traps : List (ℕ × Trap)) → IsNoteOf traps notes.now
        → M.cells mem.new ≡ noted own traps (M.cells mem.old) }
    ensures readable { M.readable mem.new ≡ M.readable mem.old }
    ensures writable { M.writable mem.new ≡ M.writable mem.old }
{
    if let Some((index, trap)) = notes.first {
        mem.store(Word(own), word_of(notes.count, index, trap));
    }
}

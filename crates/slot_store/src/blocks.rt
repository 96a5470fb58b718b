// First fit over holes, by bounds on their lengths: whole blocks of holes that are too short are passed by at once.
ghost use Rattle.std.specs.Prelude.{◌≡◌, ℕ, ◌*◌, ◌<◌, ◌≤◌, length, slice_index, vec_len, IfOk, IfErr, IfSome, IfNone};
ghost use Rattle.slot_store.specs.Spaces.{AreHoles, AreSmall, len_of, start_of};
ghost use Rattle.slot_store.specs.Blocks.{AreBounded, block_of};
ghost use Rattle.slot_store.specs.declared.blocks.TheConstants.{BLOCKS};

use crate::search::holes_before;
use job_base::{NoMemory, Span};
use std::alloc::Global;

// How many numbers a block has, and how many blocks there are. All numbers past the last but one are in the last.
const BLOCK: u32 = 1_024;

const BLOCKS: usize = 2_048;

/// For each block, a length that no hole exceeds which starts in it. It falls to the greatest such length when the
/// holes of the block are gone through.
#[derive(Drop)]
pub(crate) struct Bounds {
    pub(crate) lens: Vec<u32>,
    ghost all: { vec_len lens ≡ BLOCKS },
}

impl Bounds {
    /// There is no hole.
    pub(crate) fn new(alloc: Global) -> Result<Bounds, NoMemory> {
        Ok(Bounds {
            lens: vec![in alloc; 0; BLOCKS]?,
        })
    }

    /// There is one more hole.
    pub(crate) fn note(&mut self, hole: Span)
        ensures within { hole.len ≤ slice_index self.new.lens.items (block_of hole.start) }
        ensures others { (b : ℕ) → slice_index self.old.lens.items b ≤ slice_index self.new.lens.items b }
    {
        let block = block_of(hole.start);
        if self.lens[block] < hole.len {
            self.lens[block] = hole.len;
        }
    }
}

/// The block of a number.
fn block_of(at: u32) -> usize
    ensures { result ≡ block_of at }
{
    ((at / BLOCK) as usize).min(BLOCKS - 1)
}

/// The first hole that has `len` numbers. Only the blocks from the first hole to the last one are looked at.
pub(crate) fn first_fit(holes: &[Span], bounds: &mut Bounds, len: u32) -> Option<usize>
    requires some { 0 < len }
    requires holes { (top : ℕ) × AreHoles 0 holes.now top }
    requires bounded { AreBounded bounds.old.lens.items holes.now }
    ensures some { IfSome result (λ i. (i < length holes.now) × (len ≤ len_of holes.now i) × AreSmall holes.now len i) }
    ensures none { IfNone result (AreSmall holes.now len (length holes.now)) }
    ensures bounded { AreBounded bounds.new.lens.items holes.now }
{
    if holes.is_empty() {
        return None;
    }
    let first = holes[0];
    let last = holes[holes.len() - 1];
    for block in block_of(first.start)..block_of(last.start) + 1 {
        if let Some(i) = fit_in_block(holes, bounds, block, len) {
            return Some(i);
        }
    }
    None
}

/// The first hole of a block that has `len` numbers.
fn fit_in_block(holes: &[Span], bounds: &mut Bounds, block: usize, len: u32) -> Option<usize>
    requires some { 0 < len }
    requires holes { (top : ℕ) × AreHoles 0 holes.now top }
    requires block { block < BLOCKS }
    requires bounded { AreBounded bounds.old.lens.items holes.now }
    ensures some { IfSome result (λ i. (i < length holes.now) × (len ≤ len_of holes.now i)
        × ((k : ℕ) → k < i → block ≤ block_of (start_of holes.now k) → len_of holes.now k < len)) }
    ensures none { IfNone result ((k : ℕ) → k < length holes.now → block_of (start_of holes.now k) ≡ block
        → len_of holes.now k < len) }
    ensures bounded { AreBounded bounds.new.lens.items holes.now }
{
    if bounds.lens[block] < len {
        return None;
    }
    match seek(holes, block, len) {
        Ok(i) => Some(i),
        Err(most) => {
            bounds.lens[block] = most;
            None
        }
    }
}

/// The first hole of a block that has `len` numbers, or the greatest length of a hole of the block, which is less.
fn seek(holes: &[Span], block: usize, len: u32) -> Result<usize, u32>
    requires some { 0 < len }
    requires holes { (top : ℕ) × AreHoles 0 holes.now top }
    requires block { block < BLOCKS }
    ensures ok { IfOk result (λ i. (i < length holes.now) × (len ≤ len_of holes.now i)
        × ((k : ℕ) → k < i → block ≤ block_of (start_of holes.now k) → len_of holes.now k < len)) }
    ensures err { IfErr result (λ most. (most < len) × ((k : ℕ) → k < length holes.now
        → block_of (start_of holes.now k) ≡ block → len_of holes.now k ≤ most)) }
{
    let first = holes_before(holes, block as u32 * BLOCK);
    let mut most = 0;
    for i in first..holes.len() {
        let hole = holes[i];
        if block < block_of(hole.start) {
            return Err(most);
        }
        if len <= hole.len {
            return Ok(i);
        }
        most = most.max(hole.len);
    }
    Err(most)
}

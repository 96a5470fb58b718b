// Which numbers are in use: a free list of the holes between them, for first fit.
ghost use Rattle.std.specs.Prelude.{◌≡◌, ℕ, ◌+◌, ◌<◌, ◌≤◌, ◌^◌, ◌&&◌, ◌||◌, not, true, ◌∷◌, ◌++◌, [], max, length, take, drop, slice_index_or, slice_set, IfOk, OnOk, vec_len, vec_capacity};
ghost use Rattle.frame_ast.specs.Ranges.{IsFirstFit};
ghost use Rattle.slot_store.specs.Spaces.{AreHoles, AreHoles-prop, AreSmall, has_word, is_live, len_of, start_of, end_of, no_span, rest_after, JoinsBefore, JoinsAfter};
ghost use Rattle.slot_store.specs.Blocks.{AreBounded};

use crate::blocks::{Bounds, first_fit};
use crate::search::holes_before;
use job_base::{NoMemory, Span};
use std::alloc::Global;

/// Numbers from 0 on, each of them live or free.
#[derive(Drop)]
pub(crate) struct FreeSpace {
    // The free numbers below `top`, as ranges: in rising order, none empty, and none that touches another or `top`.
    holes: Vec<Span>,
    // All numbers from here on are free.
    top: u32,
    bounds: Bounds,
    ghost apart: { AreHoles 0 holes.items top } by { AreHoles-prop 0 holes.items top },
    ghost bounded: { AreBounded bounds.lens.items holes.items },
}

impl FreeSpace {
    /// All numbers are free.
    pub(crate) fn new(alloc: Global) -> Result<FreeSpace, NoMemory>
        ensures holes { IfOk result (λ space. space.holes.items ≡ []) }
        ensures top { IfOk result (λ space. space.top ≡ 0) }
    {
        let bounds = Bounds::new(alloc)?;
        Ok(FreeSpace {
            holes: Vec::new(alloc),
            top: 0,
            bounds,
        })
    }

    /// From here on all numbers are free.
    pub(crate) fn top(&self) -> u32
        ensures { result ≡ self.now.top }
    {
        self.top
    }

    /// Makes room for so many calls of `give`, whatever is taken between them.
    pub(crate) fn reserve(&mut self, gives: usize) -> Result<(), NoMemory>
        ensures holes { self.new.holes.items ≡ self.old.holes.items }
        ensures top { self.new.top ≡ self.old.top }
        ensures len { vec_len self.new.holes ≡ vec_len self.old.holes }
        ensures capacity { vec_capacity self.old.holes ≤ vec_capacity self.new.holes }
        ensures room { OnOk result (vec_len self.new.holes + gives ≤ vec_capacity self.new.holes) }
    {
        self.holes.reserve(gives)?;
        Ok(())
    }

    /// Takes the lowest range of `len` numbers that are free. The range starts at the answer.
    pub(crate) fn take(&mut self, len: u32) -> u32
        requires { AreSmall self.old.holes.items len (vec_len self.old.holes) → self.old.top + len < 2 ^ 32 }
        ensures fit { IsFirstFit (is_live self.old.holes.items self.old.top) len result }
        ensures live { (w : ℕ) → is_live self.new.holes.items self.new.top w ≡
            (is_live self.old.holes.items self.old.top w || has_word (record { start = result; len = len }) w) }
        ensures at { result ≤ self.old.top }
        ensures top { self.new.top ≤ max self.old.top (result + len) }
        ensures holes { vec_len self.new.holes ≤ vec_len self.old.holes }
        ensures capacity { vec_capacity self.old.holes ≤ vec_capacity self.new.holes }
    {
        if len == 0 {
            return 0;
        }
        let top = self.top;
        match first_fit(self.holes.as_slice(), &mut self.bounds, len) {
            Some(at) => {
                let hole = self.holes[at];
                cut(&mut self.holes, at, len);
                self.bounds.note(Span {
                    start: hole.start + len,
                    len: hole.len - len,
                });
                hole.start
            }
            None => {
                self.top = top + len;
                top
            }
        }
    }

    /// Numbers that were taken are free again.
    pub(crate) fn give(&mut self, span: Span)
        requires live { (w : ℕ) → has_word span w ≡ true → is_live self.old.holes.items self.old.top w ≡ true }
        requires room { vec_len self.old.holes < vec_capacity self.old.holes }
        ensures live { (w : ℕ) → is_live self.new.holes.items self.new.top w ≡
            (is_live self.old.holes.items self.old.top w && not (has_word span w)) }
        ensures top { self.new.top ≤ self.old.top }
        ensures holes { vec_len self.new.holes ≤ vec_len self.old.holes + 1 }
        ensures capacity { vec_capacity self.old.holes ≤ vec_capacity self.new.holes }
    {
        if span.len == 0 {
            return;
        }
        let top = self.top;
        let end = span.start + span.len;
        let at = holes_before(self.holes.as_slice(), span.start);
        let (from, start) = joined_before(self.holes.as_slice(), at, span.start);
        if end == top {
            self.holes.truncate(from);
            self.top = start;
        } else {
            let (to, last) = joined_after(self.holes.as_slice(), at, end);
            let hole = Span {
                start,
                len: last - start,
            };
            replace(&mut self.holes, from, to, hole);
            self.bounds.note(hole);
        }
    }
}

/// Takes `len` numbers from the front of a hole. The hole is gone where it has no more.
fn cut(holes: &mut Vec<Span>, at: usize, len: u32)
    requires hole { at < vec_len holes.old }
    requires enough { len ≤ len_of holes.old.items at }
    requires fits { end_of holes.old.items at < 2 ^ 32 }
    ensures items { holes.new.items ≡ take at holes.old.items
        ++ (rest_after (slice_index_or holes.old.items at no_span) len ++ drop (at + 1) holes.old.items) }
    ensures len { vec_len holes.new ≤ vec_len holes.old }
    ensures capacity { vec_capacity holes.old ≤ vec_capacity holes.new }
{
    let hole = holes[at];
    if hole.len == len {
        holes.remove(at);
    } else {
        holes[at] = Span {
            start: hole.start + len,
            len: hole.len - len,
        };
    }
}

/// From which hole on, and from which number on, there is one hole once the numbers from `start` on are free.
fn joined_before(holes: &[Span], at: usize, start: u32) -> (usize, u32)
    requires place { at ≤ length holes.now }
    requires fits { (k : ℕ) → k < length holes.now → end_of holes.now k < 2 ^ 32 }
    ensures { JoinsBefore holes.now at start result.0 result.1 }
{
    if at > 0 {
        let hole = holes[at - 1];
        if hole.start + hole.len == start {
            return (at - 1, hole.start);
        }
    }
    (at, start)
}

/// Up to which hole, and up to which number, there is one hole once the numbers below `end` are free.
fn joined_after(holes: &[Span], at: usize, end: u32) -> (usize, u32)
    requires fits { (k : ℕ) → k < length holes.now → end_of holes.now k < 2 ^ 32 }
    ensures { JoinsAfter holes.now at end result.0 result.1 }
{
    if at < holes.len() {
        let hole = holes[at];
        if hole.start == end {
            return (at + 1, hole.start + hole.len);
        }
    }
    (at, end)
}

/// Puts a hole in place of those from `from` on and below `to`.
fn replace(holes: &mut Vec<Span>, from: usize, to: usize, hole: Span)
    requires order { from ≤ to }
    requires few { to ≤ from + 2 }
    requires within { to ≤ vec_len holes.old }
    requires room { vec_len holes.old < vec_capacity holes.old }
    ensures items { holes.new.items ≡ take from holes.old.items ++ hole ∷ drop to holes.old.items }
    ensures len { vec_len holes.new ≤ vec_len holes.old + 1 }
    ensures capacity { vec_capacity holes.old ≤ vec_capacity holes.new }
{
    if from == to {
        match holes.insert(from, hole) {
            Ok(()) => {}
            Err(_) => unreachable!(),
        }
    } else {
        holes[from] = hole;
        if from + 1 < to {
            holes.remove(from + 1);
        }
    }
}

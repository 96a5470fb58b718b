// The words of an index: its mark and its items.
ghost use Rattle.std.specs.Prelude.{◌≡◌, ℕ, ℤ, pos, None, replicate, ◌+◌, ◌*◌, ◌^◌, ◌<◌, ◌≤◌, IfOk};
ghost use Rattle.frame_ast.specs.Contents.{Entries, place_in, words_of};
ghost use Rattle.native_stream.specs.Layout.{mark_word, item_word, end_of};
ghost use Rattle.native_stream.specs.Laws.{ZeroWordsAreUnwritten};
ghost use Rattle.native_stream.specs.Words.{MayUse, is_written, is_written_at, item_count};

use crate::StreamAt;
use job_base::{Mem, Trap, Word};

/// How many words a stream takes. All of them 0 stand for the unwritten stream.
pub fn words_of(count: u32, room: u32) -> u64
    ensures words { result ≡ words_of (Entries room (replicate count None)) }
    ensures number { result ≡ count * (room + 1) }
    ensures unwritten { ZeroWordsAreUnwritten }
{
    u64::from(count) * (u64::from(room) + 1)
}

// The place that a number is, of n.
pub fn place_in(n: u32, i: i64) -> Result<u32, Trap>
    ensures place { result ≡ place_in n i }
    ensures below { IfOk result (λ k. k < n) }
{
    if i < 0 || i >= i64::from(n) {
        Err(Trap::Range)
    } else {
        Ok(i as u32)
    }
}

impl StreamAt {
    // The mark of index k.
    pub(crate) fn mark(&self, k: u32) -> Word
        requires fits { end_of self.now < 2 ^ 32 }
        requires index { k < self.now.count }
        ensures { result.0 ≡ mark_word self.now k }
    {
        Word(self.start + k * (self.room + 1))
    }

    // Place p of the items of index k.
    pub(crate) fn item(&self, k: u32, p: u32) -> Word
        requires fits { end_of self.now < 2 ^ 32 }
        requires index { k < self.now.count }
        requires place { p < self.now.room }
        ensures { result.0 ≡ item_word self.now k p }
    {
        Word(self.start + k * (self.room + 1) + 1 + p)
    }

    // Whether index k is written.
    pub(crate) fn is_written<M: Mem>(&self, mem: &mut M, k: u32) -> bool
        requires fits { end_of self.now < 2 ^ 32 }
        requires index { k < self.now.count }
        requires readable { MayUse self.now k (M.readable mem.old) }
        ensures written { result ≡ is_written_at self.now (M.cells mem.old) k }
        ensures cells { M.cells mem.new ≡ M.cells mem.old }
        ensures readable { M.readable mem.new ≡ M.readable mem.old }
        ensures writable { M.writable mem.new ≡ M.writable mem.old }
    {
        mem.load(self.mark(k)) > 0
    }

    // How many items index k has.
    pub(crate) fn item_count<M: Mem>(&self, mem: &mut M, k: u32) -> u32
        requires fits { end_of self.now < 2 ^ 32 }
        requires index { k < self.now.count }
        requires readable { MayUse self.now k (M.readable mem.old) }
        ensures number { result ≡ item_count self.now (M.cells mem.old) k }
        ensures within { result ≤ self.now.room }
        ensures cells { M.cells mem.new ≡ M.cells mem.old }
        ensures readable { M.readable mem.new ≡ M.readable mem.old }
        ensures writable { M.writable mem.new ≡ M.writable mem.old }
    {
        let mark = mem.load(self.mark(k));
        if mark < 1 {
            0
        } else if mark > i64::from(self.room) {
            self.room
        } else {
            (mark - 1) as u32
        }
    }
}

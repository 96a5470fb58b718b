// The calls that begin an index, add an item to it, or make every index unwritten.
ghost use Rattle.std.specs.Prelude.{◌≡◌, pos, ◌^◌, ◌<◌};
ghost use Rattle.job_base.specs.Forms.{AreAllowed};
ghost use Rattle.native_stream.specs.Layout.{end_of, IsWordForm};
ghost use Rattle.native_stream.specs.Words.{MayUse, MayUseAt, begin_words, write_words, clear_words};
ghost use Rattle.native_stream.specs.Effects.{begin_effect, write_effect, clear_effect};

use crate::StreamAt;
use crate::place::place_in;
use job_base::{Mem, Trap};

impl StreamAt {
    /// Begins index `i`, which then counts as written, with no items. `Range` where `i` is below 0 or not below the
    /// count, else `Written` where it was written. Its end changes no word, and has no call.
    ///
    ///
    /// <https://docs.unity3d.com/Packages/com.unity.collections@2.5/api/Unity.Collections.NativeStream.Writer.BeginForEachIndex.html>
    pub fn begin<M: Mem>(&self, mem: &mut M, i: i64) -> Result<(), Trap>
        requires fits { end_of self.now < 2 ^ 32 }
        requires readable { MayUseAt self.now i (M.readable mem.old) }
        requires writable { MayUseAt self.now i (M.writable mem.old) }
        ensures words { (result, M.cells mem.new) ≡ begin_words self.now (M.cells mem.old) i }
        ensures form { IsWordForm self.now (λ cells. begin_words self.now cells i) (begin_effect i) }
        ensures readable { M.readable mem.new ≡ M.readable mem.old }
        ensures writable { M.writable mem.new ≡ M.writable mem.old }
    {
        match place_in(self.count, i) {
            Ok(k) => {
                if self.is_written(mem, k) {
                    return Err(Trap::Written);
                }
                mem.store(self.mark(k), 1);
                Ok(())
            }
            Err(trap) => Err(trap),
        }
    }

    /// Adds an item to index `i`. `Full` where it has `room` items. An unwritten index is begun by it.
    ///
    ///
    /// <https://docs.unity3d.com/Packages/com.unity.collections@2.5/api/Unity.Collections.NativeStream.Writer.Write.html>
    pub fn write<M: Mem>(&self, mem: &mut M, i: u32, v: i64) -> Result<(), Trap>
        requires fits { end_of self.now < 2 ^ 32 }
        requires index { i < self.now.count }
        requires readable { MayUse self.now i (M.readable mem.old) }
        requires writable { MayUse self.now i (M.writable mem.old) }
        ensures words { (result, M.cells mem.new) ≡ write_words self.now (M.cells mem.old) i v }
        ensures form { IsWordForm self.now (λ cells. write_words self.now cells i v) (write_effect i v) }
        ensures readable { M.readable mem.new ≡ M.readable mem.old }
        ensures writable { M.writable mem.new ≡ M.writable mem.old }
    {
        let n = self.item_count(mem, i);
        if n < self.room {
            mem.store(self.item(i, n), v);
            mem.store(self.mark(i), i64::from(n) + 2);
            Ok(())
        } else {
            Err(Trap::Full)
        }
    }

    /// Makes every index unwritten.
    pub fn clear<M: Mem>(&self, mem: &mut M)
        requires fits { end_of self.now < 2 ^ 32 }
        requires writable { AreAllowed self.now.start (end_of self.now) (M.writable mem.old) }
        ensures words { M.cells mem.new ≡ clear_words self.now (M.cells mem.old) }
        ensures form { IsWordForm self.now (λ cells. (tt, clear_words self.now cells)) clear_effect }
        ensures readable { M.readable mem.new ≡ M.readable mem.old }
        ensures writable { M.writable mem.new ≡ M.writable mem.old }
    {
        for k in 0..self.count {
            mem.store(self.mark(k), 0);
        }
    }
}

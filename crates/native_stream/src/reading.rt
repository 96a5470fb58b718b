// The calls that read the items of an index.
ghost use Rattle.std.specs.Prelude.{◌≡◌, ◌^◌, ◌<◌};
ghost use Rattle.native_stream.specs.Layout.{end_of, IsWordForm};
ghost use Rattle.native_stream.specs.Words.{MayUse, MayUseAt, item_words, items_words, at_words};
ghost use Rattle.native_stream.specs.Effects.{items_effect, at_effect};

use crate::StreamAt;
use crate::place::place_in;
use job_base::{Mem, Trap};

impl StreamAt {
    /// How many items index `i` has; an unwritten one has none. `Range` where `i` is below 0 or not below the count.
    ///
    ///
    /// <https://docs.unity3d.com/Packages/com.unity.collections@2.5/api/Unity.Collections.NativeStream.Reader.BeginForEachIndex.html>
    pub fn items<M: Mem>(&self, mem: &mut M, i: i64) -> Result<u32, Trap>
        requires fits { end_of self.now < 2 ^ 32 }
        requires readable { MayUseAt self.now i (M.readable mem.old) }
        ensures words { result ≡ items_words self.now (M.cells mem.old) i }
        ensures form { IsWordForm self.now (λ cells. (items_words self.now cells i, cells)) (items_effect i) }
        ensures cells { M.cells mem.new ≡ M.cells mem.old }
        ensures readable { M.readable mem.new ≡ M.readable mem.old }
        ensures writable { M.writable mem.new ≡ M.writable mem.old }
    {
        match place_in(self.count, i) {
            Ok(j) => Ok(self.item_count(mem, j)),
            Err(trap) => Err(trap),
        }
    }

    /// Item `k` of index `i`, counted from 0 in the order of their writing. `Range` where `i` is below 0 or not below
    /// the count, or `k` is below 0 or not below the number of items.
    ///
    ///
    /// <https://docs.unity3d.com/Packages/com.unity.collections@2.5/api/Unity.Collections.NativeStream.Reader.Read.html>
    pub fn at<M: Mem>(&self, mem: &mut M, i: i64, k: i64) -> Result<i64, Trap>
        requires fits { end_of self.now < 2 ^ 32 }
        requires readable { MayUseAt self.now i (M.readable mem.old) }
        ensures words { result ≡ at_words self.now (M.cells mem.old) i k }
        ensures form { IsWordForm self.now (λ cells. (at_words self.now cells i k, cells)) (at_effect i k) }
        ensures cells { M.cells mem.new ≡ M.cells mem.old }
        ensures readable { M.readable mem.new ≡ M.readable mem.old }
        ensures writable { M.writable mem.new ≡ M.writable mem.old }
    {
        match place_in(self.count, i) {
            Ok(j) => self.item_of(mem, j, k),
            Err(trap) => Err(trap),
        }
    }

    // Item k of index j.
    fn item_of<M: Mem>(&self, mem: &mut M, j: u32, k: i64) -> Result<i64, Trap>
        requires fits { end_of self.now < 2 ^ 32 }
        requires index { j < self.now.count }
        requires readable { MayUse self.now j (M.readable mem.old) }
        ensures words { result ≡ item_words self.now (M.cells mem.old) j k }
        ensures cells { M.cells mem.new ≡ M.cells mem.old }
        ensures readable { M.readable mem.new ≡ M.readable mem.old }
        ensures writable { M.writable mem.new ≡ M.writable mem.old }
    {
        let n = self.item_count(mem, j);
        match place_in(n, k) {
            Ok(p) => Ok(mem.load(self.item(j, p))),
            Err(trap) => Err(trap),
        }
    }
}

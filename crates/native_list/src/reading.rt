// The length, the elements as an array, and the calls on single elements.
ghost use Rattle.std.specs.Prelude.{◌≡◌, ◌^◌, ◌<◌, ◌≤◌, IsTrue};
ghost use Rattle.native_array.specs.Words.{IsAllowedAt};
ghost use Rattle.native_array.specs.Effects.{get_effect, set_effect};
ghost use Rattle.native_list.specs.Layout.{end_of, IsWordForm};
ghost use Rattle.native_list.specs.Words.{len_words, array_words, get_words, set_words};
ghost use Rattle.native_list.specs.Effects.{len_effect, array_effect};
ghost use Rattle.native_list.specs.Views.{IsViewOf};

use crate::ListAt;
use job_base::{Mem, Trap, Word};
use native_array::ArrayAt;

impl ListAt {
    /// How many elements there are.
    pub fn len<M: Mem>(&self, mem: &mut M) -> u32
        requires readable { IsTrue (M.readable mem.old self.now.start) }
        ensures words { result ≡ len_words self.now (M.cells mem.old) }
        ensures form { IsWordForm self.now (λ cells. (len_words self.now cells, cells)) len_effect }
        ensures within { result ≤ self.now.cap }
        ensures cells { M.cells mem.new ≡ M.cells mem.old }
        ensures readable { M.readable mem.new ≡ M.readable mem.old }
        ensures writable { M.writable mem.new ≡ M.writable mem.old }
    {
        let n = mem.load(Word(self.start));
        if n < 0 {
            0
        } else if n > i64::from(self.cap) {
            self.cap
        } else {
            n as u32
        }
    }

    /// The elements that there are now, as an array in the same words. A later change of the length isn't seen in it.
    ///
    /// <https://docs.unity3d.com/Packages/com.unity.collections@2.5/api/Unity.Collections.NativeList-1.AsArray.html>
    pub fn as_array<M: Mem>(&self, mem: &mut M) -> ArrayAt
        requires fits { end_of self.now < 2 ^ 32 }
        requires readable { IsTrue (M.readable mem.old self.now.start) }
        ensures words { result ≡ array_words self.now (M.cells mem.old) }
        ensures form { IsWordForm self.now (λ cells. (array_words self.now cells, cells)) (array_effect self.now) }
        ensures view { IsViewOf self.now (M.cells mem.old) result }
        ensures within { result.len ≤ self.now.cap }
        ensures cells { M.cells mem.new ≡ M.cells mem.old }
        ensures readable { M.readable mem.new ≡ M.readable mem.old }
        ensures writable { M.writable mem.new ≡ M.writable mem.old }
    {
        let len = self.len(mem);
        ArrayAt {
            start: self.start + 1,
            len,
        }
    }

    /// The element at place `i`. `Range` where `i` is below 0 or not below the length.
    pub fn get<M: Mem>(&self, mem: &mut M, i: i64) -> Result<i64, Trap>
        requires fits { end_of self.now < 2 ^ 32 }
        requires readable_length { IsTrue (M.readable mem.old self.now.start) }
        requires readable { IsAllowedAt (array_words self.now (M.cells mem.old)) i (M.readable mem.old) }
        ensures words { result ≡ get_words self.now (M.cells mem.old) i }
        ensures form { IsWordForm self.now (λ cells. (get_words self.now cells i, cells)) (get_effect i) }
        ensures cells { M.cells mem.new ≡ M.cells mem.old }
        ensures readable { M.readable mem.new ≡ M.readable mem.old }
        ensures writable { M.writable mem.new ≡ M.writable mem.old }
    {
        let array = self.as_array(mem);
        array.get(mem, i)
    }

    /// Sets the element at place `i`. `Range` where `i` is below 0 or not below the length.
    pub fn set<M: Mem>(&self, mem: &mut M, i: i64, v: i64) -> Result<(), Trap>
        requires fits { end_of self.now < 2 ^ 32 }
        requires readable_length { IsTrue (M.readable mem.old self.now.start) }
        requires writable { IsAllowedAt (array_words self.now (M.cells mem.old)) i (M.writable mem.old) }
        ensures words { (result, M.cells mem.new) ≡ set_words self.now (M.cells mem.old) i v }
        ensures form { IsWordForm self.now (λ cells. set_words self.now cells i v) (set_effect i v) }
        ensures readable { M.readable mem.new ≡ M.readable mem.old }
        ensures writable { M.writable mem.new ≡ M.writable mem.old }
    {
        let array = self.as_array(mem);
        array.set(mem, i, v)
    }
}

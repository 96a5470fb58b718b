// The calls that change the length.
ghost use Rattle.std.specs.Prelude.{◌≡◌, ◌^◌, ◌<◌, IsTrue};
ghost use Rattle.native_list.specs.Layout.{end_of, IsWordForm};
ghost use Rattle.native_list.specs.Words.{add_words, remove_words, clear_words};
ghost use Rattle.native_list.specs.Conditions.{MayAdd, MayRemove};
ghost use Rattle.native_list.specs.Effects.{add_effect, remove_effect, clear_effect};

use crate::ListAt;
use job_base::{Mem, Trap, Word};

impl ListAt {
    /// Adds an element at the end. `Full` where the length is the capacity: a list in words never grows.
    ///
    ///
    /// <https://docs.unity3d.com/Packages/com.unity.collections@2.5/api/Unity.Collections.NativeList-1.AddNoResize.html>
    pub fn add<M: Mem>(&self, mem: &mut M, v: i64) -> Result<(), Trap>
        requires fits { end_of self.now < 2 ^ 32 }
        requires readable_length { IsTrue (M.readable mem.old self.now.start) }
        requires writable { MayAdd self.now (M.cells mem.old) (M.writable mem.old) }
        ensures words { (result, M.cells mem.new) ≡ add_words self.now (M.cells mem.old) v }
        ensures form { IsWordForm self.now (λ cells. add_words self.now cells v) (add_effect v) }
        ensures readable { M.readable mem.new ≡ M.readable mem.old }
        ensures writable { M.writable mem.new ≡ M.writable mem.old }
    {
        let len = self.len(mem);
        if len < self.cap {
            mem.store(Word(self.start + 1 + len), v);
            mem.store(Word(self.start), i64::from(len) + 1);
            Ok(())
        } else {
            Err(Trap::Full)
        }
    }

    /// Removes the element at place `i`: the last element is copied there, and the length falls by one. `Range` where
    /// `i` is below 0 or not below the length.
    ///
    ///
    /// <https://docs.unity3d.com/Packages/com.unity.collections@2.5/api/Unity.Collections.NativeList-1.RemoveAtSwapBack.html>
    pub fn remove_swap_back<M: Mem>(&self, mem: &mut M, i: i64) -> Result<(), Trap>
        requires fits { end_of self.now < 2 ^ 32 }
        requires readable_length { IsTrue (M.readable mem.old self.now.start) }
        requires used { MayRemove self.now (M.cells mem.old) i (M.readable mem.old) (M.writable mem.old) }
        ensures words { (result, M.cells mem.new) ≡ remove_words self.now (M.cells mem.old) i }
        ensures form { IsWordForm self.now (λ cells. remove_words self.now cells i) (remove_effect i) }
        ensures readable { M.readable mem.new ≡ M.readable mem.old }
        ensures writable { M.writable mem.new ≡ M.writable mem.old }
    {
        let len = self.len(mem);
        if i < 0 || i >= i64::from(len) {
            return Err(Trap::Range);
        }
        let last = mem.load(Word(self.start + len));
        mem.store(Word(self.start + 1 + i as u32), last);
        mem.store(Word(self.start), i64::from(len) - 1);
        Ok(())
    }

    /// Removes every element.
    pub fn clear<M: Mem>(&self, mem: &mut M)
        requires writable { IsTrue (M.writable mem.old self.now.start) }
        ensures words { M.cells mem.new ≡ clear_words self.now (M.cells mem.old) }
        ensures form { IsWordForm self.now (λ cells. (tt, clear_words self.now cells)) clear_effect }
        ensures readable { M.readable mem.new ≡ M.readable mem.old }
        ensures writable { M.writable mem.new ≡ M.writable mem.old }
    {
        mem.store(Word(self.start), 0);
    }
}

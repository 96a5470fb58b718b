// Arrays: a bounds test, and one load or store.
ghost use Rattle.std.specs.Prelude.{◌≡◌, ◌^◌, ◌<◌, IfOk, IfSome};
ghost use Rattle.frame_ast.specs.Contents.{place_in};
ghost use Rattle.native_array.specs.Layout.{end_of, IsWordForm};
ghost use Rattle.native_array.specs.Words.{IsAllowedAt, get_words, set_words};
ghost use Rattle.native_array.specs.Effects.{get_effect, set_effect};
ghost use Rattle.native_array.specs.Slices.{slice_of, IsPartOf};

use job_base::{Mem, Trap, Word};

/// An array of `len` elements, whose words begin at `start`.
///
/// <https://docs.unity3d.com/ScriptReference/Unity.Collections.NativeArray_1.html>
#[derive(Clone, Copy, Debug, PartialEq, Eq)]
pub struct ArrayAt {
    pub start: u32,
    pub len: u32,
}

impl ArrayAt {
    // The place that a number is.
    fn place(&self, i: i64) -> Result<u32, Trap>
        ensures place { result ≡ place_in self.now.len i }
        ensures below { IfOk result (λ k. k < self.now.len) }
    {
        if i < 0 || i >= i64::from(self.len) {
            Err(Trap::Range)
        } else {
            Ok(i as u32)
        }
    }

    /// The element at place `i`. `Range` where `i` is below 0 or not below the length.
    pub fn get<M: Mem>(&self, mem: &mut M, i: i64) -> Result<i64, Trap>
        requires fits { end_of self.now < 2 ^ 32 }
        requires readable { IsAllowedAt self.now i (M.readable mem.old) }
        ensures words { result ≡ get_words self.now (M.cells mem.old) i }
        ensures form { IsWordForm self.now (λ cells. (get_words self.now cells i, cells)) (get_effect i) }
        ensures cells { M.cells mem.new ≡ M.cells mem.old }
        ensures readable { M.readable mem.new ≡ M.readable mem.old }
        ensures writable { M.writable mem.new ≡ M.writable mem.old }
    {
        match self.place(i) {
            Ok(k) => Ok(mem.load(Word(self.start + k))),
            Err(trap) => Err(trap),
        }
    }

    /// Sets the element at place `i`. `Range` where `i` is below 0 or not below the length.
    pub fn set<M: Mem>(&self, mem: &mut M, i: i64, v: i64) -> Result<(), Trap>
        requires fits { end_of self.now < 2 ^ 32 }
        requires writable { IsAllowedAt self.now i (M.writable mem.old) }
        ensures words { (result, M.cells mem.new) ≡ set_words self.now (M.cells mem.old) i v }
        ensures form { IsWordForm self.now (λ cells. set_words self.now cells i v) (set_effect i v) }
        ensures readable { M.readable mem.new ≡ M.readable mem.old }
        ensures writable { M.writable mem.new ≡ M.writable mem.old }
    {
        match self.place(i) {
            Ok(k) => {
                mem.store(Word(self.start + k), v);
                Ok(())
            }
            Err(trap) => Err(trap),
        }
    }

    /// The `len` elements from `start` on, as an array in the same words. `None` where `start + len` exceeds the
    /// length.
    ///
    /// <https://docs.unity3d.com/ScriptReference/Unity.Collections.NativeArray_1.GetSubArray.html>
    pub fn slice(&self, start: u32, len: u32) -> Option<ArrayAt>
        requires fits { end_of self.now < 2 ^ 32 }
        ensures slice { result ≡ slice_of self.now start len }
        ensures part { IfSome result (λ part. IsPartOf self.now part start len) }
    {
        if start <= self.len && len <= self.len - start {
            Some(ArrayAt {
                start: self.start + start,
                len,
            })
        } else {
            None
        }
    }
}

// References: one load or store.
ghost use Rattle.std.specs.Prelude.{◌≡◌, IsTrue};
ghost use Rattle.native_array.specs.Layout.{IsRefForm};
ghost use Rattle.native_array.specs.Words.{value_words, set_value_words};
ghost use Rattle.native_array.specs.Effects.{value_effect, set_value_effect};

use job_base::{Mem, Word};

/// One value, whose word is `start`.
///
/// <https://docs.unity3d.com/Packages/com.unity.collections@2.5/api/Unity.Collections.NativeReference-1.html>
#[derive(Clone, Copy, Debug, PartialEq, Eq)]
pub struct RefAt {
    pub start: u32,
}

impl RefAt {
    /// The value.
    pub fn value<M: Mem>(&self, mem: &mut M) -> i64
        requires readable { IsTrue (M.readable mem.old self.now.start) }
        ensures words { result ≡ value_words self.now (M.cells mem.old) }
        ensures form { IsRefForm self.now (λ cells. (value_words self.now cells, cells)) value_effect }
        ensures cells { M.cells mem.new ≡ M.cells mem.old }
        ensures readable { M.readable mem.new ≡ M.readable mem.old }
        ensures writable { M.writable mem.new ≡ M.writable mem.old }
    {
        mem.load(Word(self.start))
    }

    /// Sets the value.
    pub fn set_value<M: Mem>(&self, mem: &mut M, v: i64)
        requires writable { IsTrue (M.writable mem.old self.now.start) }
        ensures words { M.cells mem.new ≡ set_value_words self.now (M.cells mem.old) v }
        ensures form { IsRefForm self.now (λ cells. (tt, set_value_words self.now cells v)) (set_value_effect v) }
        ensures readable { M.readable mem.new ≡ M.readable mem.old }
        ensures writable { M.writable mem.new ≡ M.writable mem.old }
    {
        mem.store(Word(self.start), v);
    }
}

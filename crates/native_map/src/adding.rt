// The calls that add a pair or set a value.
ghost use Rattle.std.specs.Prelude.{◌≡◌, ◌+◌, ◌*◌, ◌^◌, ◌<◌};
ghost use Rattle.job_base.specs.Forms.{AreAllowed};
ghost use Rattle.native_map.specs.Table.{places, end_of};
ghost use Rattle.native_map.specs.Words.{add_words_at, put_words, add_words, try_add_words};
ghost use Rattle.native_map.specs.Layout.{IsWordForm};
ghost use Rattle.native_map.specs.Effects.{put_effect, add_effect, try_add_effect};

use crate::MapAt;
use crate::search::Spot;
use job_base::{Mem, Trap, Word};

impl MapAt {
    // A new pair in a free place, unless the map is full.
    fn add_new<M: Mem>(&self, mem: &mut M, p: u64, k: i64, v: i64) -> Result<(), Trap>
        requires fits { end_of self.now < 2 ^ 32 }
        requires readable { AreAllowed self.now.start (end_of self.now) (M.readable mem.old) }
        requires writable { AreAllowed self.now.start (end_of self.now) (M.writable mem.old) }
        requires place { p < places self.now.cap }
        ensures words { (result, M.cells mem.new) ≡ add_words_at self.now (M.cells mem.old) p k v }
        ensures readable { M.readable mem.new ≡ M.readable mem.old }
        ensures writable { M.writable mem.new ≡ M.writable mem.old }
    {
        let count = mem.load(Word(self.start));
        if count >= i64::from(self.cap) {
            return Err(Trap::Full);
        }
        mem.store(self.key(p), k);
        mem.store(self.value(p), v);
        mem.store(self.flag(p), 1);
        mem.store(Word(self.start), count + 1);
        Ok(())
    }

    /// Sets the value of a key, and adds the key where it is absent. `Full` where it is absent and the count is the
    /// capacity.
    pub fn put<M: Mem>(&self, mem: &mut M, k: i64, v: i64) -> Result<(), Trap>
        requires fits { end_of self.now < 2 ^ 32 }
        requires readable { AreAllowed self.now.start (end_of self.now) (M.readable mem.old) }
        requires writable { AreAllowed self.now.start (end_of self.now) (M.writable mem.old) }
        ensures words { (result, M.cells mem.new) ≡ put_words self.now (M.cells mem.old) k v }
        ensures form { IsWordForm self.now (λ cells. put_words self.now cells k v) (put_effect k v) }
        ensures readable { M.readable mem.new ≡ M.readable mem.old }
        ensures writable { M.writable mem.new ≡ M.writable mem.old }
    {
        match self.find(mem, k) {
            Spot::Held(p) => {
                mem.store(self.value(p), v);
                Ok(())
            }
            Spot::Free(p) => self.add_new(mem, p, k, v),
            Spot::Nowhere => Err(Trap::Full),
        }
    }

    /// Adds a key. `PresentKey` where it is present, else `Full` where the count is the capacity.
    pub fn add<M: Mem>(&self, mem: &mut M, k: i64, v: i64) -> Result<(), Trap>
        requires fits { end_of self.now < 2 ^ 32 }
        requires readable { AreAllowed self.now.start (end_of self.now) (M.readable mem.old) }
        requires writable { AreAllowed self.now.start (end_of self.now) (M.writable mem.old) }
        ensures words { (result, M.cells mem.new) ≡ add_words self.now (M.cells mem.old) k v }
        ensures form { IsWordForm self.now (λ cells. add_words self.now cells k v) (add_effect k v) }
        ensures readable { M.readable mem.new ≡ M.readable mem.old }
        ensures writable { M.writable mem.new ≡ M.writable mem.old }
    {
        match self.find(mem, k) {
            Spot::Held(_) => Err(Trap::PresentKey),
            Spot::Free(p) => self.add_new(mem, p, k, v),
            Spot::Nowhere => Err(Trap::Full),
        }
    }

    /// Adds a key and answers true; where it is present nothing changes and the answer is false. `Full` where it is
    /// absent and the count is the capacity.
    pub fn try_add<M: Mem>(&self, mem: &mut M, k: i64, v: i64) -> Result<bool, Trap>
        requires fits { end_of self.now < 2 ^ 32 }
        requires readable { AreAllowed self.now.start (end_of self.now) (M.readable mem.old) }
        requires writable { AreAllowed self.now.start (end_of self.now) (M.writable mem.old) }
        ensures words { (result, M.cells mem.new) ≡ try_add_words self.now (M.cells mem.old) k v }
        ensures form { IsWordForm self.now (λ cells. try_add_words self.now cells k v) (try_add_effect k v) }
        ensures readable { M.readable mem.new ≡ M.readable mem.old }
        ensures writable { M.writable mem.new ≡ M.writable mem.old }
    {
        match self.find(mem, k) {
            Spot::Held(_) => Ok(false),
            Spot::Free(p) => match self.add_new(mem, p, k, v) {
                Ok(()) => Ok(true),
                Err(trap) => Err(trap),
            },
            Spot::Nowhere => Err(Trap::Full),
        }
    }
}

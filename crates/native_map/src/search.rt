// The search for a key, and the calls that look one up.
ghost use Rattle.std.specs.Prelude.{◌≡◌, ◌+◌, ◌*◌, ◌^◌, ◌<◌};
ghost use Rattle.job_base.specs.Forms.{AreAllowed};
ghost use Rattle.native_map.specs.Table.{places, end_of, spot_of, IsWithin};
ghost use Rattle.native_map.specs.Words.{get_words, has_words};
ghost use Rattle.native_map.specs.Layout.{IsWordForm};
ghost use Rattle.native_map.specs.Effects.{get_effect, has_effect};

use crate::MapAt;
use crate::place::{home, next_place};
use job_base::{Mem, Trap};

/// Where the search for a key ended.
pub enum Spot {
    /// The key stands there.
    Held(u64),
    /// Nothing stands there.
    Free(u64),
    /// Every place holds another key. A map's table never comes to that.
    Nowhere,
}

impl MapAt {
    // Searches for a key by linear probing.
    pub(crate) fn find<M: Mem>(&self, mem: &mut M, k: i64) -> Spot
        requires fits { end_of self.now < 2 ^ 32 }
        requires readable { AreAllowed self.now.start (end_of self.now) (M.readable mem.old) }
        ensures spot { result ≡ spot_of self.now (M.cells mem.old) k }
        ensures within { IsWithin (places self.now.cap) result }
        ensures cells { M.cells mem.new ≡ M.cells mem.old }
        ensures readable { M.readable mem.new ≡ M.readable mem.old }
        ensures writable { M.writable mem.new ≡ M.writable mem.old }
    {
        let t = self.places();
        let mut p = home(t, k);
        for _ in 0..t {
            if !self.holds(mem, p) {
                return Spot::Free(p);
            }
            if self.has_at(mem, p, k) {
                return Spot::Held(p);
            }
            p = next_place(t, p);
        }
        Spot::Nowhere
    }

    /// The value of a key. `MissingKey` where the key is absent.
    pub fn get<M: Mem>(&self, mem: &mut M, k: i64) -> Result<i64, Trap>
        requires fits { end_of self.now < 2 ^ 32 }
        requires readable { AreAllowed self.now.start (end_of self.now) (M.readable mem.old) }
        ensures words { result ≡ get_words self.now (M.cells mem.old) k }
        ensures form { IsWordForm self.now (λ cells. (get_words self.now cells k, cells)) (get_effect k) }
        ensures cells { M.cells mem.new ≡ M.cells mem.old }
        ensures readable { M.readable mem.new ≡ M.readable mem.old }
        ensures writable { M.writable mem.new ≡ M.writable mem.old }
    {
        match self.find(mem, k) {
            Spot::Held(p) => Ok(mem.load(self.value(p))),
            Spot::Free(_) => Err(Trap::MissingKey),
            Spot::Nowhere => Err(Trap::MissingKey),
        }
    }

    /// Whether a key is present.
    pub fn has<M: Mem>(&self, mem: &mut M, k: i64) -> bool
        requires fits { end_of self.now < 2 ^ 32 }
        requires readable { AreAllowed self.now.start (end_of self.now) (M.readable mem.old) }
        ensures words { result ≡ has_words self.now (M.cells mem.old) k }
        ensures form { IsWordForm self.now (λ cells. (has_words self.now cells k, cells)) (has_effect k) }
        ensures cells { M.cells mem.new ≡ M.cells mem.old }
        ensures readable { M.readable mem.new ≡ M.readable mem.old }
        ensures writable { M.writable mem.new ≡ M.writable mem.old }
    {
        match self.find(mem, k) {
            Spot::Held(_) => true,
            Spot::Free(_) => false,
            Spot::Nowhere => false,
        }
    }
}

// The calls that remove a pair or all of them.
ghost use Rattle.std.specs.Prelude.{◌≡◌, if◌then◌else◌, ◌+◌, ◌*◌, ◌^◌, ◌<◌};
ghost use Rattle.job_base.specs.Forms.{AreAllowed};
ghost use Rattle.native_map.specs.Table.{places, end_of, next_place};
ghost use Rattle.native_map.specs.Words.{passes, copied, shifted, remove_words, clear_words};
ghost use Rattle.native_map.specs.Layout.{IsWordForm};
ghost use Rattle.native_map.specs.Effects.{remove_effect, clear_effect};

use crate::MapAt;
use crate::place::{distance, home, next_place};
use crate::search::Spot;
use job_base::{Mem, Word};

impl MapAt {
    // Whether the search for the key at place j passes place i.
    fn passes<M: Mem>(&self, mem: &mut M, i: u64, j: u64) -> bool
        requires fits { end_of self.now < 2 ^ 32 }
        requires readable { AreAllowed self.now.start (end_of self.now) (M.readable mem.old) }
        requires over { i < places self.now.cap }
        requires place { j < places self.now.cap }
        ensures passes { result ≡ passes self.now (M.cells mem.old) i j }
        ensures cells { M.cells mem.new ≡ M.cells mem.old }
        ensures readable { M.readable mem.new ≡ M.readable mem.old }
        ensures writable { M.writable mem.new ≡ M.writable mem.old }
    {
        let t = self.places();
        let h = home(t, mem.load(self.key(j)));
        distance(t, h, i) < distance(t, h, j)
    }

    // Moves the pair at place j back into the gap at place i, if the search for its key passes the gap. Answers the
    // place where the gap is then.
    fn move_back<M: Mem>(&self, mem: &mut M, i: u64, j: u64) -> u64
        requires fits { end_of self.now < 2 ^ 32 }
        requires readable { AreAllowed self.now.start (end_of self.now) (M.readable mem.old) }
        requires writable { AreAllowed self.now.start (end_of self.now) (M.writable mem.old) }
        requires gap { i < places self.now.cap }
        requires place { j < places self.now.cap }
        ensures gap { result ≡ (if passes self.now (M.cells mem.old) i j then j else i) }
        ensures cells { M.cells mem.new ≡ (if passes self.now (M.cells mem.old) i j then copied self.now
            (M.cells mem.old) i j else M.cells mem.old) }
        ensures readable { M.readable mem.new ≡ M.readable mem.old }
        ensures writable { M.writable mem.new ≡ M.writable mem.old }
    {
        if self.passes(mem, i, j) {
            let k = mem.load(self.key(j));
            let v = mem.load(self.value(j));
            mem.store(self.key(i), k);
            mem.store(self.value(i), v);
            return j;
        }
        i
    }

    // Frees place p by backward shift deletion.
    fn shift_back<M: Mem>(&self, mem: &mut M, p: u64)
        requires fits { end_of self.now < 2 ^ 32 }
        requires readable { AreAllowed self.now.start (end_of self.now) (M.readable mem.old) }
        requires writable { AreAllowed self.now.start (end_of self.now) (M.writable mem.old) }
        requires place { p < places self.now.cap }
        ensures cells { M.cells mem.new ≡ shifted self.now (places self.now.cap) (M.cells mem.old) p
            (next_place (places self.now.cap) p) }
        ensures readable { M.readable mem.new ≡ M.readable mem.old }
        ensures writable { M.writable mem.new ≡ M.writable mem.old }
    {
        let t = self.places();
        let mut gap = p;
        let mut j = next_place(t, p);
        for _ in 0..t {
            if !self.holds(mem, j) {
                mem.store(self.flag(gap), 0);
                return;
            }
            gap = self.move_back(mem, gap, j);
            j = next_place(t, j);
        }
        mem.store(self.flag(gap), 0);
    }

    /// Removes a key, and answers whether it was present.
    pub fn remove<M: Mem>(&self, mem: &mut M, k: i64) -> bool
        requires fits { end_of self.now < 2 ^ 32 }
        requires readable { AreAllowed self.now.start (end_of self.now) (M.readable mem.old) }
        requires writable { AreAllowed self.now.start (end_of self.now) (M.writable mem.old) }
        ensures words { (result, M.cells mem.new) ≡ remove_words self.now (M.cells mem.old) k }
        ensures form { IsWordForm self.now (λ cells. remove_words self.now cells k) (remove_effect k) }
        ensures readable { M.readable mem.new ≡ M.readable mem.old }
        ensures writable { M.writable mem.new ≡ M.writable mem.old }
    {
        match self.find(mem, k) {
            Spot::Held(p) => {
                let count = mem.load(Word(self.start));
                self.shift_back(mem, p);
                mem.store(Word(self.start), count.wrapping_sub(1));
                true
            }
            Spot::Free(_) => false,
            Spot::Nowhere => false,
        }
    }

    /// Removes every key.
    pub fn clear<M: Mem>(&self, mem: &mut M)
        requires fits { end_of self.now < 2 ^ 32 }
        requires readable { AreAllowed self.now.start (end_of self.now) (M.readable mem.old) }
        requires writable { AreAllowed self.now.start (end_of self.now) (M.writable mem.old) }
        ensures words { M.cells mem.new ≡ clear_words self.now (M.cells mem.old) }
        ensures form { IsWordForm self.now (λ cells. (tt, clear_words self.now cells)) clear_effect }
        ensures readable { M.readable mem.new ≡ M.readable mem.old }
        ensures writable { M.writable mem.new ≡ M.writable mem.old }
    {
        for p in 0..self.places() {
            mem.store(self.flag(p), 0);
        }
        mem.store(Word(self.start), 0);
    }
}

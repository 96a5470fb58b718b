// The places of the table: their number, their words, the circle that they form, and the hash.
ghost use Rattle.std.specs.Prelude.{◌≡◌, ℕ, ℤ, pos, [], ◌+◌, ◌*◌, ◌^◌, ◌<◌, ◌≤◌};
ghost use Rattle.std.specs.Ordering.{int_eq};
ghost use Rattle.std.specs.Int.{IsPowerOfTwo};
ghost use Rattle.job_base.specs.Forms.{AreAllowed};
ghost use Rattle.frame_ast.specs.Contents.{Pairs, words_of};
ghost use Rattle.native_map.specs.Table.{places, map_at, flag_word, key_word, value_word, end_of, next_place, distance, mixed, home, holds, key_at};
ghost use Rattle.native_map.specs.Laws.{ZeroWordsAreEmpty};

use crate::MapAt;
use job_base::{Mem, Word};

// How many places the table has.
pub fn places(cap: u32) -> u64
    ensures places { result ≡ places cap }
    ensures two { 2 ≤ result }
    ensures most { result ≤ 4 * cap + 4 }
{
    (2 * u64::from(cap)).max(2).next_power_of_two()
}

/// How many words a map of this capacity takes. All of them 0 stand for the empty map.
pub fn words_of(cap: u32) -> u64
    ensures words { result ≡ words_of (Pairs cap []) }
    ensures places { result ≡ 3 * places cap + 1 }
    ensures most { result ≤ 12 * cap + 13 }
    ensures empty { ZeroWordsAreEmpty }
{
    3 * places(cap) + 1
}

// The last steps of SplitMix64, <https://prng.di.unimi.it/splitmix64.c>.
#[tactic(auto, unfolding(crate::specs::Table::mixed))]
fn mixed(x: u64) -> u64
    ensures { result ≡ mixed x }
{
    let y = (x ^ (x >> 30)).wrapping_mul(0xbf58_476d_1ce4_e5b9);
    let z = (y ^ (y >> 27)).wrapping_mul(0x94d0_49bb_1331_11eb);
    z ^ (z >> 31)
}

// The home place of a key, where the search for it begins.
#[tactic(auto, unfolding(crate::specs::Table::home), using(crate::proofs::Probing::and_below))]
pub fn home(t: u64, k: i64) -> u64
    requires { 0 < t }
    ensures home { result ≡ home t k }
    ensures below { result < t }
{
    mixed(k.cast_unsigned()) & (t - 1)
}

// The place behind p. A mask goes round the end, with no test.
#[tactic(auto, using(crate::proofs::Masks::next_masked, crate::proofs::Probing::and_below))]
pub fn next_place(t: u64, p: u64) -> u64
    requires power { IsPowerOfTwo t }
    requires within { p < t }
    requires t_fits { t < 2 ^ 64 }
    ensures next { result ≡ next_place t p }
    ensures below { result < t }
{
    (p + 1) & (t - 1)
}

// How many places it is on from a to b.
#[tactic(auto, using(crate::proofs::Masks::distance_masked))]
pub fn distance(t: u64, a: u64, b: u64) -> u64
    requires power { IsPowerOfTwo t }
    requires from { a < t }
    requires to { b < t }
    requires t_fits { t < 2 ^ 32 }
    ensures { result ≡ distance t a b }
{
    (b + (t - a)) & (t - 1)
}

impl MapAt {
    /// A map of at most `cap` keys, whose words begin at `start`.
    pub fn new(start: u32, cap: u32) -> MapAt
        ensures { result ≡ map_at start cap }
    {
        let mask = ((places(cap) - 1) % 4_294_967_296) as u32;
        MapAt { start, cap, mask }
    }

    // How many places the table has.
    pub(crate) fn places(&self) -> u64
        requires fits { end_of self.now < 2 ^ 32 }
        ensures places { result ≡ places self.now.cap }
        ensures two { 2 ≤ result }
        ensures power { IsPowerOfTwo result }
        ensures below { result < 2 ^ 32 }
    {
        u64::from(self.mask) + 1
    }

    // The word that says whether place p holds a pair.
    pub(crate) fn flag(&self, p: u64) -> Word
        requires fits { end_of self.now < 2 ^ 32 }
        requires place { p < places self.now.cap }
        ensures { result.0 ≡ flag_word self.now.start p }
    {
        Word(self.start + (3 * p + 1) as u32)
    }

    pub(crate) fn key(&self, p: u64) -> Word
        requires fits { end_of self.now < 2 ^ 32 }
        requires place { p < places self.now.cap }
        ensures { result.0 ≡ key_word self.now.start p }
    {
        Word(self.start + (3 * p + 2) as u32)
    }

    pub(crate) fn value(&self, p: u64) -> Word
        requires fits { end_of self.now < 2 ^ 32 }
        requires place { p < places self.now.cap }
        ensures { result.0 ≡ value_word self.now.start p }
    {
        Word(self.start + (3 * p + 3) as u32)
    }

    // Whether place p holds a pair.
    pub(crate) fn holds<M: Mem>(&self, mem: &mut M, p: u64) -> bool
        requires fits { end_of self.now < 2 ^ 32 }
        requires readable { AreAllowed self.now.start (end_of self.now) (M.readable mem.old) }
        requires place { p < places self.now.cap }
        ensures holds { result ≡ holds (M.cells mem.old) self.now.start p }
        ensures cells { M.cells mem.new ≡ M.cells mem.old }
        ensures readable { M.readable mem.new ≡ M.readable mem.old }
        ensures writable { M.writable mem.new ≡ M.writable mem.old }
    {
        mem.load(self.flag(p)) != 0
    }

    // Whether the key of place p is k.
    pub(crate) fn has_at<M: Mem>(&self, mem: &mut M, p: u64, k: i64) -> bool
        requires fits { end_of self.now < 2 ^ 32 }
        requires readable { AreAllowed self.now.start (end_of self.now) (M.readable mem.old) }
        requires place { p < places self.now.cap }
        ensures same { result ≡ int_eq (key_at (M.cells mem.old) self.now.start p) k }
        ensures cells { M.cells mem.new ≡ M.cells mem.old }
        ensures readable { M.readable mem.new ≡ M.readable mem.old }
        ensures writable { M.writable mem.new ≡ M.writable mem.old }
    {
        mem.load(self.key(p)) == k
    }
}

//! A hash map from i64 to i64 in the words of a memory, as Unity's `NativeHashMap` is one in native memory.
//!
//! The first word has the count. Behind it stands a table of T places, each of three words (whether it holds a pair,
//! its key, its value), where T is the least power of two that is at least 2 and at least twice the capacity. Words of
//! 0 are the empty map.
//!
//! A key is searched for by linear probing: from its home place on, round the end of the table, up to the key or to a
//! place that holds nothing. The places that it goes through hold pairs and form a cluster. A removal closes its gap by
//! backward shift deletion, so there are no tombstones, and no key becomes hard to find by what was removed before it.
//!
//! The home place is the low bits of a fixed hash, the last steps of SplitMix64
//! (<https://prng.di.unimi.it/splitmix64.c>). It spreads the usual patterns of keys: numbers in order, multiples of a
//! number or of a power of two, two numbers packed into one. At most half of the places hold a pair, so a call is
//! expected to visit one or two places, whatever the capacity. The hash is public and has no seed: keys that were
//! chosen against it can all have one home place, and then a call visits as many places as there are keys. The answers
//! stay the same.
//!
//! Measured on one thread of a server, with capacity 4,096 and 4,096 keys (half of the places), in keys 0, 1, 2 .. and
//! their multiples of 1,000,003, of 8,192, of 2^32 and of a random odd number of 64 bits alike: 12 ns to get the value
//! of a present key (80 million a second), 24 ns where half of the keys looked for are absent, 11 ns to add a key; with
//! 2,048 keys, 32 ns to remove a random key or else add it. `next_after` visits every place, in 25 us.
//!
//! `specs/Layout` says which contents words stand for, `specs/Words` what each call does to the cells, and
//! `specs/Effects` what it does to contents. Each call promises the first exactly, and that it is the word form of the
//! second: it stands for the effect, and reads and changes words of the map alone. No call asks what words stand for.
#![tactic(auto)]

ghost use Rattle.std.specs.Prelude.{◌≡◌};
ghost use Rattle.native_map.specs.Places.{mask_of};

mod adding;
pub mod laws;
mod listing;
mod place;
mod removing;
mod search;

pub use place::words_of;

/// A map of at most `cap` keys, whose words begin at `start`. Which place of its table has which key is private.
///
/// <https://docs.unity3d.com/Packages/com.unity.collections@2.5/api/Unity.Collections.NativeHashMap-2.html>
#[derive(Clone, Copy, Debug, PartialEq, Eq)]
pub struct MapAt {
    pub start: u32,
    pub cap: u32,
    // How many places the table has, less one: worked out once, where the bind is made, and not at each call.
    mask: u32,
    ghost sized: { mask ≡ mask_of cap },
}

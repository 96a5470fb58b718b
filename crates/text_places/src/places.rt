//! A map from texts to places.

ghost use Rattle.std.specs.Prelude.{◌≡◌, ℕ, List, ◌<◌, ◌^◌, Some, None, cond, length, IfOk, OnOk, OnErr};
ghost use Rattle.std.specs.Str.{bytes_eq};
ghost use Rattle.text_places.specs.Places.{Places, bucket_of, first_of, place_of, Separates};

use std::alloc::{AllocError, Global};
use std::collections::BTreeMap;
use std::hash::{FoldHasher, Hasher};
use std::marker::Model;

/// The most buckets that there are.
const MOST_BUCKETS: usize = 1_048_576;

/// A text, and its place.
#[derive(Clone, Copy, Drop)]
pub struct Placed<'a> {
    pub text: &'a [u8],
    pub place: u32,
}

// The bucket of a text, where there are so many: each has as large a part of the lower halves of all hashes.
fn bucket_of(count: usize, text: &[u8]) -> usize
    requires some { 0 < count }
    requires few { count < 2 ^ 32 }
    ensures bucket { result ≡ bucket_of count text.now }
    ensures within { result < count }
{
    let mut hasher = FoldHasher::default();
    hasher.write(text);
    let half = hasher.finish() % (1 << 32);
    ((half * count as u64) >> 32) as usize
}

// The first text of a bucket.
fn first_of<'a>(firsts: &[Option<Placed<'a>>], bucket: usize) -> Option<Placed<'a>>
    requires { bucket < length firsts.now }
    ensures { result ≡ first_of firsts.now bucket }
{
    firsts[bucket]
}

/// Texts, each with its place.
#[derive(Drop)]
pub struct TextPlaces<'a> {
    /// How many buckets there are, once there is a text.
    count: usize,
    /// The first text of each bucket; no bucket before there is a text.
    firsts: Vec<Option<Placed<'a>>>,
    /// The places of the texts in whose bucket an earlier one is.
    others: BTreeMap<&'a [u8], u32>,
}

impl<'a> Model for TextPlaces<'a> {
    ghost Value = { Places };

    ghost view = { λ s. record { firsts = s.firsts.items; others = s.others.entries } };

    ghost invariant = { λ s. Separates s.count s.firsts.items s.others.entries };
}

impl<'a> TextPlaces<'a> {
    /// No texts. They are to stand in so many buckets, but in at least one and at most 1,048,576.
    pub fn new(alloc: Global, buckets: usize) -> Self
        ensures { (text : List ℕ) → place_of result text ≡ None }
    {
        TextPlaces {
            count: buckets.clamp(1, MOST_BUCKETS),
            firsts: Vec::new(alloc),
            others: BTreeMap::new(alloc),
        }
    }

    /// The place of a text.
    pub fn get(&self, text: &[u8]) -> Option<u32>
        ensures { result ≡ place_of self.now text.now }
    {
        if self.firsts.is_empty() {
            return None;
        }
        let first = first_of(&self.firsts, bucket_of(self.firsts.len(), text))?;
        if first.text == text {
            Some(first.place)
        } else {
            self.others.get(text).copied()
        }
    }

    // Sees that there are buckets.
    fn open(&mut self) -> Result<(), AllocError>
        ensures same { (text : List ℕ) → place_of self.new text ≡ place_of self.old text }
        ensures open { IfOk result (λ _. 0 < length self.new.firsts) }
    {
        if self.firsts.is_empty() {
            self.firsts.resize(self.count, None)?;
        }
        Ok(())
    }

    /// Gives a text that has none a place.
    pub fn put(&mut self, text: &'a [u8], place: u32) -> Result<(), AllocError>
        requires new { place_of self.old text.now ≡ None }
        ensures put { OnOk result ((other : List ℕ) →
            place_of self.new other ≡ cond (bytes_eq text.now other) (Some place) (place_of self.old other)) }
        ensures same { OnErr result ((other : List ℕ) → place_of self.new other ≡ place_of self.old other) }
    {
        self.open()?;
        let bucket = bucket_of(self.firsts.len(), text);
        match first_of(&self.firsts, bucket) {
            None => {
                self.firsts[bucket] = Some(Placed { text, place });
            }
            Some(_) => {
                self.others.insert(text, place)?;
            }
        }
        Ok(())
    }
}

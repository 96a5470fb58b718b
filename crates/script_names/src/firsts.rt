//! The first name of each bucket.

ghost use Rattle.std.specs.Prelude.{◌≡◌, ◌<◌, ◌-◌, ◌^◌, length, set, replicate, IfOk, None, Some};
ghost use Rattle.script_names.specs.Index.{first_of};

use job_base::NoMemory;
use std::alloc::Global;
use std::marker::Model;

/// The place of the first name of each bucket. A contract sees the list of them, with none where a bucket has no name.
#[derive(Drop)]
pub struct Firsts {
    /// One more than the place, and 0 where the bucket has no name: so a bucket takes four bytes, and buckets without
    /// a name are zeros.
    places: Vec<u32>,
}

impl Model for Firsts {
    ghost use Rattle.std.specs.Prelude.{ℕ, List, Option, map};
    ghost use Rattle.script_names.specs.Firsts.{place_noted};

    ghost Value = { List (Option ℕ) };

    ghost view = { λ s. map place_noted s.places.items };
}

impl Firsts {
    /// So many buckets, each without a name.
    pub fn none(alloc: Global, count: usize) -> Result<Self, NoMemory>
        ensures { IfOk result (λ firsts. firsts ≡ replicate count None) }
    {
        let mut places = Vec::new(alloc);
        places.resize(count, 0)?;
        Ok(Firsts { places })
    }

    /// How many buckets there are.
    #[inline(always)]
    pub fn len(&self) -> usize
        ensures { result ≡ length self.now }
    {
        self.places.len()
    }

    /// The place of the first name of a bucket.
    #[inline(always)]
    pub fn get(&self, bucket: usize) -> Option<u32>
        requires { bucket < length self.now }
        ensures { result ≡ first_of self.now bucket }
    {
        self.places[bucket].checked_sub(1)
    }

    /// Makes the name at a place the first of a bucket.
    // The place is less than the greatest number, so that one more is a number too.
    #[inline(always)]
    pub fn set(&mut self, bucket: usize, place: u32)
        requires within { bucket < length self.old }
        requires small { place < 2 ^ 32 - 1 }
        ensures { self.new ≡ set self.old bucket (Some place) }
    {
        self.places[bucket] = place + 1;
    }
}

//! Ranges of words for containers, and the slots by which containers are known.
//!
//! A [`SlotStore`] gives each container a slot and a range of words. The range is first fit: the lowest start at which
//! none of its words is live. The slot is the lowest that is free. Both come back at once by [`SlotStore::give`]; or,
//! where jobs may still use the words, they are held by [`SlotStore::hold`], and come back by [`SlotStore::settle`]
//! once those jobs are completed. Until then the words stay live. A slot's version rises when its container ends, so a
//! container that was disposed is known from a later one in the same slot.
//!
//! `specs/Stores` says what a store stands for: the place of each slot (its state, its version, its range), which words
//! are live by them, and the peak. Each call is exact for it. `specs/Spaces` is about its free lists: the holes
//! between live words, in rising order, and in the same way those between slots in use.
//!
//! A slot takes 16 bytes. A held range needs a set of jobs, of 528 bytes: sets stand in a list of their own, by slot,
//! up to the last slot that was ever held. Room for those of all slots is reserved where slots are made, so
//! [`SlotStore::hold`] takes no memory.
//!
//! A take passes by whole blocks of 1,024 words whose holes are too short (`specs/Blocks`), and a settle looks at a
//! held range only where the job that it was seen to wait for was completed since. Measured on one thread of a server
//! that had other work: 15,000 takes past 15,000 holes that are too short, 34 ms; 15,000 takes that each fill a hole,
//! 55 ms; 15,000 gives that each leave one, 3 to 63 ms by their order; 60,000 settles over 4,096 held ranges, 10 ms;
//! 4,096 times a job completed and a settle over 4,096 ranges that are held for all 4,096 jobs, 30 ms from the first
//! job up and 95 ms from the last one down.
#![tactic(auto)]

mod blocks;
mod lot;
mod pending;
mod place;
mod room;
mod search;
mod slot;
mod space;
mod store;

pub use place::{Place, State};
pub use slot::{Slot, StoreFault, Taken, Version};
pub use store::SlotStore;

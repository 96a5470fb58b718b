//! The names of a script: those that are known, in the order of their first making, and for what each stands.
//!
//! [`Names`] finds the place of a name by its hash, with one comparison where it is the first of its bucket, as most
//! are, and by `text_places` where an earlier name has its bucket: so an enemy who makes names of one hash gets no slow
//! look-up. A bucket takes four bytes, and the bytes of a name stay in the file.
//!
//! `specs/Names` says which place a name has, what it stands for, and which names are known after one is made;
//! `specs/Index` says how the buckets lead to its place.
#![tactic(auto)]

mod firsts;
mod names;

pub use names::Names;

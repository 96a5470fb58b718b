//! Streams in the words of a memory, as Unity's `NativeStream` is one in native memory: many indexes, each written
//! once, each with a list of items of its own.
//!
//! Each index has `room` + 1 words: its mark, and then cells for its items. The mark is 0 for an index that is
//! unwritten, and else 1 plus the number of its items. Words of 0 are the unwritten stream. A mark that is none of
//! these counts as the nearest one, so no call leaves the words of its index, whatever stands in them.
//!
//! `specs/Layout` says which contents words stand for, `specs/Words` what each call does to the cells, and
//! `specs/Effects` what it does to contents. Each call promises the first exactly, and that it is the word form of the
//! second: it stands for the effect, and reads and changes words of the stream alone. No call asks what words stand
//! for, and a call on one index needs the words of that index alone.
#![tactic(auto)]

pub mod laws;
mod place;
mod reading;
mod writing;

pub use place::words_of;

/// A stream of `count` indexes with at most `room` items each, whose words begin at `start`.
///
/// <https://docs.unity3d.com/Packages/com.unity.collections@2.5/api/Unity.Collections.NativeStream.html>
#[derive(Clone, Copy, Debug, PartialEq, Eq)]
pub struct StreamAt {
    pub start: u32,
    pub count: u32,
    pub room: u32,
}

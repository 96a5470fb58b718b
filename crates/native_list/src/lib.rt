//! Lists in the words of a memory, as Unity's `NativeList` is one in native memory.
//!
//! The first word has the length. Behind it stand as many cells as the capacity, of which the first are the elements.
//! Words of 0 are the empty list. A length word that is no length of this list counts as the nearest one, so no call
//! leaves the list's words, whatever stands in them.
//!
//! `specs/Layout` says which contents words stand for, `specs/Words` what each call does to the cells, and
//! `specs/Effects` what it does to contents. Each call promises the first exactly, and that it is the word form of the
//! second: it stands for the effect, and reads and changes words of the list alone. No call asks what words stand for.
//! `specs/Views` says what the array of the elements is of the list.
#![tactic(auto)]

mod changing;
pub mod laws;
mod reading;

/// A list of at most `cap` elements, whose words begin at `start`: the length, and then the cells.
///
/// <https://docs.unity3d.com/Packages/com.unity.collections@2.5/api/Unity.Collections.NativeList-1.html>
#[derive(Clone, Copy, Debug, PartialEq, Eq)]
pub struct ListAt {
    pub start: u32,
    pub cap: u32,
}

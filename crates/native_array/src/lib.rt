//! Arrays and references in the words of a memory, as Unity's `NativeArray` and `NativeReference` are in native memory.
//!
//! An array of n elements is n words, a reference is one. Words of 0 are zeros.
//!
//! `specs/Layout` says which contents words stand for, `specs/Words` what each call does to the cells, and
//! `specs/Effects` what it does to contents. Each call promises the first exactly, and that it is the word form of the
//! second: it stands for the effect, and reads and changes words of the container alone. `specs/Slices` says what a
//! slice is of its array.
#![tactic(auto)]

pub mod array;
pub mod laws;
pub mod reference;

pub use array::ArrayAt;
pub use reference::RefAt;

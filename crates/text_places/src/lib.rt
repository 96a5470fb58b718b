//! Texts and the places that they have: a map that a hash leads through, and that no choice of texts makes slow.
//!
//! A text is found in the bucket of its hash, by one comparison. Of the texts of one bucket all but the first stand in
//! a tree, so where an enemy makes many texts of one hash no look-up takes more comparisons than that is deep. The
//! buckets take memory from the first text on.
//!
//! [`TextPlaces`] is for maps that most look-ups don't come to: those of the names whose bucket another name has.
//! `specs/Places` says which place a text has.
#![tactic(auto)]

mod places;

pub use places::TextPlaces;

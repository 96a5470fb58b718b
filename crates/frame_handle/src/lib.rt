//! What a program in another language keeps of a value: a pointer, which is null where there is none.
//!
//! A [`Handle`] owns its value in a block of its own, as a `Box` does, and may be empty. So a call can be given one at
//! any time: what it does with an empty one is its own affair. A handle is two words of any size that C can copy; that
//! C doesn't use a copy twice is the one thing that nothing here can see.
//!
//! *Promise.* What was put in comes out (`value`), once.
#![tactic(auto)]

mod handle;
mod loose;
#[cfg(test)]
mod tests;

pub use handle::Handle;

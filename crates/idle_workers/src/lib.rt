//! Workers that find nothing to do: they search for a while, and then sleep until they are woken. An event count.
//!
//! Who offers work wakes a sleeper with [`IdleWorkers::wake_one`], which is one load where nobody sleeps, or somebody
//! searches already. Who finds nothing says [`search`](IdleWorkers::search), and looks again and again. If it finds
//! something, it calls [`found`](IdleWorkers::found). If it gives up, it *announces* that it will sleep, looks once
//! more at everything, and then either [`stay`](IdleWorkers::stay)s awake or [`sleep`](IdleWorkers::sleep)s.
//!
//! **No wake-up is lost.** All steps are in one order, `SeqCst`. Suppose that work was offered, and take the look at
//! the word that the offerer takes then.
//! - It sees a sleeper, and nobody who searches: then it wakes one, who looks after that.
//! - It sees somebody who searches, or who was woken and isn't up yet. The last one of these either gives up, and looks
//!   at everything after its announcement, so after the offer; or it finds something, and then looks at everything that
//!   is left and wakes another, if anybody sleeps.
//! - It sees nobody who sleeps. Then whoever sleeps later announces it later, and looks after that.
//!
//! Between the announcement and the sleep nothing can slip by: the announcement takes the number of wake-ups so far,
//! each wake-up changes that number in one step with the mark that somebody is woken, and a worker sleeps only while
//! the number is the one that it took. So after each wake-up at least one worker that had announced itself comes up:
//! one that sleeps, or one that isn't asleep yet. (The number has 32 bits. A worker would have to be held up between
//! its announcement and its sleep for just 2^32 wake-ups.)
//!
//! **Nothing of this is proved:** no contract can speak of sleeping and waking. A test runs threads that sleep at once.
//! What is proved is that each call returns, but for `sleep`.
#![tactic(auto)]

#[cfg(test)]
mod tests;
mod word;
mod workers;

pub use workers::IdleWorkers;

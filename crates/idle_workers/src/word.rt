// What the word of an event count has: how many workers search, how many sleep or will, whether one of these was woken
// and isn't up yet, and the number of wake-ups so far, in the lower half, where a sleep is tied to it.

/// One worker that sleeps, or announced that it will.
pub const SLEEPER: u64 = 0x1_0000_0000;

/// One worker that searches.
pub const SEARCHER: u64 = 0x1_0000_0000_0000;

// A worker was woken and isn't up yet.
const WOKEN: u64 = 0x8000_0000_0000_0000;

// All bits but those of the number.
const COUNTS: u64 = 0xFFFF_FFFF_0000_0000;

/// The number of wake-ups so far.
pub fn number(word: u64) -> u32 {
    (word & 0xFFFF_FFFF) as u32
}

/// Whether anybody sleeps, or announced that it will.
pub fn has_sleepers(word: u64) -> bool {
    word & 0xFFFF_0000_0000 != 0
}

// Whether nobody searches, and nobody was woken who isn't up yet.
fn is_unattended(word: u64) -> bool {
    word < SEARCHER
}

/// Whether a wake-up of one is needed: somebody sleeps, and nobody searches or was woken.
pub fn needs_one(word: u64) -> bool {
    has_sleepers(word) && is_unattended(word)
}

/// The word after a wake-up.
pub fn after_wake(word: u64) -> u64 {
    word & COUNTS | WOKEN | u64::from(number(word).wrapping_add(1))
}

/// The word after one who announced itself is up again, and searches.
pub fn after_rise(word: u64) -> u64 {
    (word & !WOKEN).wrapping_add(SEARCHER - SLEEPER)
}

//! Waiting for good.

use std::sync::Wait;
use std::sync::atomic::AtomicU64;

/// Waits for good, asleep: nobody else has the word, so nothing wakes it. It stands where a seat claims what isn't so.
pub fn wait_for_good<R: Wait>(rt: &R) -> ! {
    let never = AtomicU64::new(0);
    for _ in rt.forever() {
        never.park(rt, 0);
    }
    unreachable!()
}

// Those who search and those who sleep.

use crate::word::{SEARCHER, SLEEPER, after_rise, after_wake, has_sleepers, needs_one, number};
use crossbeam_utils::CachePadded;
use std::sync::Wait;
use std::sync::atomic::{AtomicU64, Ordering};

/// What the workers of a pool share to sleep and to be woken. It has room for 32,767 workers.
#[derive(Drop)]
pub struct IdleWorkers {
    word: CachePadded<AtomicU64>,
}

/// What a worker announced: it has to look at everything, and then to stay or to sleep. It can't be dropped.
pub struct Announced {
    number: u32,
}

impl IdleWorkers {
    /// Nobody searches, and nobody sleeps.
    pub fn new() -> IdleWorkers {
        IdleWorkers {
            word: CachePadded::new(AtomicU64::new(0)),
        }
    }

    /// A worker that found nothing begins to search.
    pub fn search(&self) {
        self.word.fetch_add(SEARCHER, Ordering::SeqCst);
    }

    /// A worker that searched has found something. Where the answer is true it was the last one, and somebody sleeps:
    /// then it looks whether anything is left, and wakes another if so.
    pub fn found(&self) -> bool {
        let before = self.word.fetch_sub(SEARCHER, Ordering::SeqCst);
        needs_one(before.wrapping_sub(SEARCHER))
    }

    /// A worker that searched gives up. From now on others count on waking it.
    pub fn announce(&self) -> Announced {
        let before = self
            .word
            .fetch_add(SLEEPER.wrapping_sub(SEARCHER), Ordering::SeqCst);
        Announced {
            number: number(before),
        }
    }

    /// A worker that announced itself has found something after all, and searches again.
    pub fn stay(&self, announced: Announced) {
        let Announced { number: _ } = announced;
        self.rise();
    }

    /// Sleeps, unless there was a wake-up since the announcement. Then the worker searches again.
    pub fn sleep<R: Wait>(&self, rt: &R, announced: Announced) {
        let Announced { number } = announced;
        self.word.park(rt, number);
        self.rise();
    }

    fn rise(&self) {
        self.change(|word| Some(after_rise(word)));
    }

    /// Whether somebody sleeps, and nobody searches or is being woken. One load.
    pub fn is_needed(&self) -> bool {
        needs_one(self.word.load(Ordering::SeqCst))
    }

    /// Work was offered. Wakes one sleeper, unless somebody searches or is being woken.
    pub fn wake_one(&self) {
        if self.change(|word| needs_one(word).then(|| after_wake(word))) {
            self.word.wake_one();
        }
    }

    /// Something happened for which all sleepers look. Wakes them.
    pub fn wake_all(&self) {
        if self.change(|word| has_sleepers(word).then(|| after_wake(word))) {
            self.word.wake_all();
        }
    }

    // Changes the word in one step, where there is something to change. It tries again where others changed it
    // meanwhile.
    fn change<F: Fn(u64) -> Option<u64>>(&self, change: F) -> bool
        requires { F.IsAlwaysCallable change }
    {
        let mut seen = self.word.load(Ordering::SeqCst);
        for _ in 0..u64::MAX {
            let Some(new) = change(seen) else {
                return false;
            };
            match self
                .word
                .compare_exchange(seen, new, Ordering::SeqCst, Ordering::SeqCst)
            {
                Ok(_) => return true,
                Err(found) => seen = found,
            }
        }
        false
    }
}

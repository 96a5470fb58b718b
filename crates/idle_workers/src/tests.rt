// Threads that sleep as soon as they find nothing: all work is done all the same.

use crate::IdleWorkers;
use std::sync::Wait;
use std::sync::atomic::{AtomicBool, AtomicU64, Ordering};
use std::thread;
use std::thread::{Threads, join};

// Work that is nothing but a number.
#[derive(Drop)]
struct Pile {
    idle: IdleWorkers,
    left: AtomicU64,
    done: AtomicU64,
    over: AtomicBool,
}

impl Pile {
    fn take(&self) -> bool {
        let seen = self.left.load(Ordering::SeqCst);
        if seen == 0 {
            return false;
        }
        self.left
            .compare_exchange(seen, seen - 1, Ordering::SeqCst, Ordering::SeqCst)
            .is_ok()
    }

    fn put(&self) {
        self.left.fetch_add(1, Ordering::SeqCst);
        if self.idle.is_needed() {
            self.idle.wake_one();
        }
    }

    fn is_any_left(&self) -> bool {
        self.left.load(Ordering::SeqCst) > 0
    }

    fn is_over(&self) -> bool {
        self.over.load(Ordering::SeqCst)
    }

    fn found(&self) {
        if self.idle.found() && self.is_any_left() {
            self.idle.wake_one();
        }
    }
}

fn work<R: Wait>(rt: &R, pile: &Pile) {
    let mut searching = false;
    for _ in rt.forever() {
        if pile.take() {
            if searching {
                pile.found();
                searching = false;
            }
            pile.done.fetch_add(1, Ordering::SeqCst);
            continue;
        }
        if pile.is_over() {
            return;
        }
        if !searching {
            pile.idle.search();
            searching = true;
        }
        let announced = pile.idle.announce();
        if pile.is_any_left() || pile.is_over() {
            pile.idle.stay(announced);
        } else {
            pile.idle.sleep(rt, announced);
        }
    }
}

fn await_done<R: Wait>(rt: &R, pile: &Pile, count: u64) {
    for _ in rt.forever() {
        if pile.done.load(Ordering::SeqCst) == count {
            return;
        }
        thread::yield_now();
    }
}

// One piece after another, each after the one before it is done, and then many at once.
fn pile_up<R: Wait>(rt: &R, pile: &Pile) {
    for count in 0..ALONE {
        pile.put();
        await_done(rt, pile, count + 1);
    }
    for _ in 0..TOGETHER {
        pile.put();
    }
    await_done(rt, pile, ALONE + TOGETHER);
    pile.over.store(true, Ordering::SeqCst);
    pile.idle.wake_all();
}

const ALONE: u64 = 2_000;

const TOGETHER: u64 = 20_000;

fn run<R: Threads + Wait + Sync>(rt: &R, pile: &Pile) {
    let both = || {
        join(rt, || work(rt, pile), || work(rt, pile));
    };
    let crowd = || {
        join(rt, both, || work(rt, pile));
    };
    join(rt, crowd, || pile_up(rt, pile));
}

#[test]
fn all_work_is_done(rt: HostRuntime) {
    let pile = Pile {
        idle: IdleWorkers::new(),
        left: AtomicU64::new(0),
        done: AtomicU64::new(0),
        over: AtomicBool::new(false),
    };
    run(&rt, &pile);
    assert_eq!(rt; pile.done.load(Ordering::SeqCst), ALONE + TOGETHER);
    assert!(rt; !pile.idle.is_needed());
}

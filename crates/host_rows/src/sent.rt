// A helper that goes to a thread of its own, and is given up there.

use frame_calls::HostHandle;
use frame_calls::status::OVER;
use std::alloc::Global;
use std::test::Fail;
use std::thread::{Threads, join};

const BUMPED: &[u8] = b"parallel bump(a: rw array) { a[index] = a[index] + 1; }\n\
    array a 64\nschedule h bump(a) 64 1\ncomplete h\nprint a\n";

// More turns than a section of 64 pieces takes, also where the other thread has its last piece and is put aside.
const MOST_TURNS: u32 = 1_000_000_000;

// The turns of a helper, which is given up.
fn help_to_the_end(alloc: Global, helper: HostHandle) -> bool {
    let mut own = helper;
    for _turn in 0..MOST_TURNS {
        if frame_calls::help(alloc, &mut own) == OVER {
            frame_calls::close(alloc, &mut own);
            return true;
        }
    }
    false
}

// The turns of the script's thread.
fn turn_to_the_end(alloc: Global, frame: &mut HostHandle) -> bool {
    for _turn in 0..MOST_TURNS {
        if frame_calls::turn(alloc, frame) == OVER {
            return true;
        }
    }
    false
}

// Both at the same time, each on a thread of its own.
fn run_both<R: Threads>(rt: &R, alloc: Global, frame: &mut HostHandle, helper: HostHandle) -> bool {
    let (helped, turned) = join(
        rt,
        move || help_to_the_end(alloc, helper),
        || turn_to_the_end(alloc, frame),
    );
    helped && turned
}

#[test]
fn a_helper_runs_on_another_thread(rt: HostRuntime) -> Result<(), Fail> {
    let alloc = rt.alloc();
    let mut script = HostHandle::empty(alloc);
    let mut columns = HostHandle::empty(alloc);
    let mut frame = HostHandle::empty(alloc);
    let mut helper = HostHandle::empty(alloc);
    let mut line = 0u32;
    assert_eq!(rt; frame_calls::open(alloc, BUMPED, &mut script, &mut line), 0);
    assert_eq!(rt;
        frame_calls::begin(alloc, &mut script, &mut columns, &mut frame),
        0
    );
    assert_eq!(rt; frame_calls::next(alloc, &mut frame, 1), 0);
    assert_eq!(rt; frame_calls::give_helper(alloc, &mut frame, &mut helper), 0);
    assert!(rt; run_both(&rt, alloc, &mut frame, helper));
    assert_eq!(rt; frame_calls::end(alloc, &mut frame), 0);
    Ok(())
}

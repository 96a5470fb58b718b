// Handles as a program in another language uses them: a frame by turns, and calls at a wrong time.

use crate::whole::TRIPLE;
use frame_calls::status::{BUSY, NEXT, NONE, NOT_NOW, OVER};
use frame_calls::{HostHandle, HostReport};
use std::alloc::Global;
use std::test::Fail;

const TESTED: &[u8] = b"parallel rise(a: rw array) { a[index] = a[index] + 1; }\n\
    job first(a: ro array, r: rw ref) { r = a[0]; }\n\
    column a \"a\"\nreference r\nlist l 4\nadd l 7\nadd l 9\narray b 2\ndispose b\n\
    schedule h rise(a) 2 1\nschedule k first(a, r) after h\ncomplete k\n\
    when r > 2 {\nset a 0 = 0\n}\nprint a\n";

const NO_REPORT: HostReport = HostReport {
    refused: 9,
    traps: 9,
    job: 9,
    index: 9,
    trap: 9,
};

// Runs a frame's sections: a helper and the script's thread take turns.
fn run_sections(alloc: Global, frame: &mut HostHandle) -> u8 {
    for _section in 0..3 {
        let mut helper = HostHandle::empty(alloc);
        frame_calls::next(alloc, frame, 2);
        frame_calls::give_helper(alloc, frame, &mut helper);
        for _turn in 0..1000 {
            let status = frame_calls::turn(alloc, frame);
            frame_calls::help(alloc, &mut helper);
            if status == OVER {
                break;
            }
        }
        frame_calls::close(alloc, &mut helper);
        let status = frame_calls::end(alloc, frame);
        if status != NEXT {
            return status;
        }
    }
    NOT_NOW
}

#[test]
fn a_frame_is_run_by_turns_and_read(rt: HostRuntime) -> Result<(), Fail> {
    let alloc = rt.alloc();
    let mut script = HostHandle::empty(alloc);
    let mut columns = HostHandle::empty(alloc);
    let mut frame = HostHandle::empty(alloc);
    let mut line = 0u32;
    assert_eq!(rt; frame_calls::open(alloc, TESTED, &mut script, &mut line), 0);
    assert_eq!(rt;
        frame_calls::add_column(alloc, &mut columns, b"a", &[2, 4]),
        0
    );
    assert_eq!(rt;
        frame_calls::begin(alloc, &mut script, &mut columns, &mut frame),
        0
    );
    assert_eq!(rt; run_sections(alloc, &mut frame), 0);
    let mut out = [0i64; 4];
    let mut len = 0usize;
    assert_eq!(rt;
        frame_calls::read(alloc, &mut frame, b"a", &mut out, &mut len),
        0
    );
    assert_eq!(rt; len, 2);
    assert_eq!(rt; out[..2], *[0i64, 5].as_slice());
    assert_eq!(rt;
        frame_calls::read(alloc, &mut frame, b"r", &mut out, &mut len),
        0
    );
    assert_eq!(rt; out[0], 3);
    assert_eq!(rt;
        frame_calls::read(alloc, &mut frame, b"l", &mut out, &mut len),
        0
    );
    assert_eq!(rt; out[..2], *[7i64, 9].as_slice());
    assert_eq!(rt;
        frame_calls::read(alloc, &mut frame, b"b", &mut out, &mut len),
        NONE
    );
    assert_eq!(rt;
        frame_calls::read(alloc, &mut frame, b"c", &mut out, &mut len),
        NONE
    );
    assert_eq!(rt;
        frame_calls::read(alloc, &mut frame, b"a", &mut out[..1], &mut len),
        7
    );
    let mut text = [0u8; 16];
    assert_eq!(rt;
        frame_calls::text(alloc, &mut frame, &mut text, &mut len),
        0
    );
    assert_eq!(rt; text[..11], *b"a = [0, 5]\n".as_slice());
    let mut report = NO_REPORT;
    assert_eq!(rt; frame_calls::report(alloc, &mut frame, &mut report), 0);
    assert_eq!(rt; report.traps, 0);
    assert_eq!(rt; report.trap, 0);
    Ok(())
}

#[test]
fn a_call_at_a_wrong_time_is_answered(rt: HostRuntime) -> Result<(), Fail> {
    let alloc = rt.alloc();
    let mut script = HostHandle::empty(alloc);
    let mut other = HostHandle::empty(alloc);
    let mut frame = HostHandle::empty(alloc);
    let mut line = 0u32;
    assert_eq!(rt; frame_calls::turn(alloc, &mut frame), NOT_NOW);
    assert_eq!(rt;
        frame_calls::open(alloc, b"array a\n", &mut script, &mut line),
        3
    );
    assert_eq!(rt; line, 1);
    assert_eq!(rt; frame_calls::open(alloc, TRIPLE, &mut script, &mut line), 0);
    assert_eq!(rt;
        frame_calls::open(alloc, TRIPLE, &mut script, &mut line),
        NOT_NOW
    );
    assert_eq!(rt; frame_calls::share(alloc, &mut script, &mut other), 0);
    assert_eq!(rt; frame_calls::end(alloc, &mut script), NOT_NOW);
    frame_calls::close(alloc, &mut script);
    let mut columns = HostHandle::empty(alloc);
    assert_eq!(rt;
        frame_calls::begin(alloc, &mut other, &mut columns, &mut frame),
        0
    );
    assert_eq!(rt; frame_calls::next(alloc, &mut frame, 1), 0);
    assert_eq!(rt; frame_calls::next(alloc, &mut frame, 1), NOT_NOW);
    let mut helper = HostHandle::empty(alloc);
    assert_eq!(rt; frame_calls::give_helper(alloc, &mut frame, &mut helper), 0);
    let mut none = HostHandle::empty(alloc);
    assert_eq!(rt;
        frame_calls::give_helper(alloc, &mut frame, &mut none),
        NONE
    );
    assert_eq!(rt; frame_calls::end(alloc, &mut frame), BUSY);
    let mut report = NO_REPORT;
    assert_eq!(rt;
        frame_calls::report(alloc, &mut frame, &mut report),
        NOT_NOW
    );
    Ok(())
}

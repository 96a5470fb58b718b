// Frames whose pieces are let in in a given order.

use crate::frames::{Given, sink_of, status_of_cut, with_kernels};
use frame_rows::texts::TOTAL;
use job_base::{OrderGate, PieceId};
use std::sync::Wait;
use std::test::Fail;
use std::thread::Threads;

// A worked script, and what it gives in whatever order its pieces come.
#[derive(Clone, Copy)]
struct Frame {
    lines: &'static str,
    status: u8,
    text: &'static str,
}

const ADDED: Frame = Frame {
    lines: TOTAL,
    status: 0,
    text: "t = 30\n",
};

// The last of three pieces is a short one, and traps.
const SHORTENED: Frame = Frame {
    lines: "array x 5 = 1 2 3 4 5
array y 4
schedule h scale(x, y) 5 2
complete h
print y
",
    status: 5,
    text: "y = [3, 6, 9, 12]\ntrap job 1 index 4: range\ntraps 1\n",
};

// Two jobs that trap, the first one late.
const TRAPPED: Frame = Frame {
    lines: "array a 1
array b 1
schedule h1 slow(a)
schedule h2 quick(b)
",
    status: 5,
    text: "trap job 1 index 0: zero-divisor\ntraps 2\n",
};

// Lets a frame's pieces in in this order, and says whether all of them came before their turns ran out.
fn is_kept<R: Threads + Wait + Sync + AllocGlobal>(
    rt: &R,
    workers: &str,
    frame: &Frame,
    order: &[u32],
    turns: u64,
) -> Result<bool, Fail> {
    let alloc = rt.alloc();
    let script = with_kernels(alloc, frame.lines)?;
    let given = Given::script(&script);
    let mut pieces = Vec::new(alloc);
    for piece in order {
        pieces.push(PieceId(*piece))?;
    }
    let gate = OrderGate::new(alloc, pieces, turns)?;
    let mut sink = sink_of(rt)?;
    if status_of_cut(rt, workers, &["s"], &given, &mut sink, &gate)? != frame.status {
        return Err(Fail::new("another status"));
    }
    if sink.bytes() != frame.text.as_bytes() {
        return Err(Fail::new("another text"));
    }
    Ok(gate.kept())
}

// The second job traps first, and the first one is reported. One worker alone may run out of turns.
#[test]
fn the_later_trap_comes_first(rt: HostRuntime) -> Result<(), Fail> {
    for order in [[1, 0], [0, 1]] {
        assert!(rt; is_kept(&rt, "2", &TRAPPED, &order, 10_000_000)?);
        is_kept(&rt, "1", &TRAPPED, &order, 1000)?;
    }
    Ok(())
}

#[test]
fn any_order_gives_the_same(rt: HostRuntime) -> Result<(), Fail> {
    let orders = [
        [0, 1, 2],
        [0, 2, 1],
        [1, 0, 2],
        [1, 2, 0],
        [2, 0, 1],
        [2, 1, 0],
    ];
    for order in orders {
        is_kept(&rt, "4", &ADDED, &order, 1000)?;
        is_kept(&rt, "4", &SHORTENED, &order, 1000)?;
    }
    Ok(())
}

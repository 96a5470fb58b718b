// Workers that sleep are woken when there are pieces again. No clause says so: a worker that is left asleep lets the
// two pieces here wait in vain for each other, or the script for the end of a job.

use crate::frames::{Given, sink_of, status_of};
use job_base::{CountingGate, PieceId};
use std::test::Fail;

// Twice a job that takes long enough for the other workers to go to sleep, and then one of 64 pieces, which has a loop:
// so it isn't little work, and no claim takes all of it.
const SLOW_FIRST: &str =
    "job spin(a: rw array) { var k = 0; while k < 40000 { k = k + 1; } a[0] = k; }
parallel next(x: rw array) { for k in 0..1 { x[index] = x[index] + 1; } }
array a 1
array x 64
schedule h spin(a)
schedule h next(x) 64 1 after h
schedule h spin(a) after h
schedule h next(x) 64 1 after h
complete h
slice s x 62 2
print s
";

// Two pieces of the last job: the first one, and one so far behind it that no claim has both.
const FIRST: PieceId = PieceId(66);

const SECOND: PieceId = PieceId(82);

#[test]
fn sleepers_are_woken(rt: HostRuntime) -> Result<(), Fail> {
    let given = Given::script(SLOW_FIRST);
    for workers in ["2", "4", "64"] {
        for _run in 0..200 {
            let gate = CountingGate::new(FIRST, SECOND, 10_000_000);
            let mut sink = sink_of(&rt)?;
            let status = status_of(&rt, workers, &["s"], &given, &mut sink, &gate)?;
            assert_eq!(rt; status, 0, "at {workers} workers");
            assert_eq!(rt; sink.bytes(), b"s = [2, 2]\n".as_slice());
            assert!(rt; gate.met(), "at {workers} workers one of them slept on");
        }
    }
    Ok(())
}

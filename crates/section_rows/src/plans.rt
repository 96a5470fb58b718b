// What the plans of worked scripts say.
ghost use Rattle.frame_core.specs.Ordered.{IsWellOrderedPlan};

use frame_core::{Act, Op, Plan};
use frame_rows::section_of;
use std::alloc::Global;
use std::fmt::Write;
use std::test::Fail;

// An array that is disposed after a job that reads it, and arrays made before and after that job is completed.
const RECLAIMED: &str = "array a 2 = 1 2
reference t
schedule h peek(a, t)
dispose a after h as d
array b 2 = 8 9
complete d
array c 2
print t
print b
";

const NO_INDEX: &str = "array x 0
array y 4 = 1 1 1 1
reference t
schedule h1 scale(x, y) 0 4
schedule h2 total(y, t) after h1
complete h2
print t
";

const AFTER_ITS_WRITER: &str = "array x 4 = 1 2 3 4
array y 4
reference t
schedule auto h1 scale(x, y) 4 2
schedule auto h2 total(y, t)
complete auto t
print t
";

const AFTER_ITS_READERS: &str = "array a 1 = 5
reference t
reference u
schedule auto w bump(a)
schedule auto r1 peek(a, t)
schedule auto r2 peek(a, u)
schedule auto w2 bump(a)
dispose auto a as d
complete d
print t
print u
";

// How many words each operation of a segment fills, and from which on.
fn tell_fills(ops: &[Op], told: &mut String) -> Result<(), Fail> {
    for op in ops {
        if let Act::Fill { span, literal: _ } = op.act {
            write!(told, "{} from {}; ", span.len, span.start)?;
        }
    }
    Ok(())
}

fn fills_of(alloc: Global, plan: &Plan) -> Result<String, Fail> {
    let mut told = String::new(alloc);
    for segment in &plan.segments {
        tell_fills(&segment.ops, &mut told)?;
    }
    Ok(told)
}

// What each job waits for, how many indexes it has, and its first piece.
fn jobs_of(alloc: Global, plan: &Plan) -> Result<String, Fail> {
    let mut told = String::new(alloc);
    for job in &plan.jobs {
        write!(told, "{} indexes from {:?}", job.cut.n, job.first)?;
        write!(told, " after {:?}; ", job.deps)?;
    }
    Ok(told)
}

#[test]
fn places(rt: HostRuntime) -> Result<(), Fail> {
    let alloc = rt.alloc();
    let section = section_of(alloc, RECLAIMED)?;
    assert_eq!(rt;
        fills_of(alloc, &section.plan)?.as_str(),
        "2 from 0; 1 from 2; 2 from 3; 2 from 0; "
    );
    Ok(())
}

#[test]
fn jobs(rt: HostRuntime) -> Result<(), Fail> {
    let alloc = rt.alloc();
    let rows: [(&str, &str); 3] = [
        (
            NO_INDEX,
            "0 indexes from PieceId(0) after []; 1 indexes from PieceId(1) after [JobId(1)]; ",
        ),
        (
            AFTER_ITS_WRITER,
            "4 indexes from PieceId(0) after []; 1 indexes from PieceId(2) after [JobId(1)]; ",
        ),
        (
            AFTER_ITS_READERS,
            "1 indexes from PieceId(0) after []; 1 indexes from PieceId(1) after [JobId(1)]; \
             1 indexes from PieceId(2) after [JobId(1)]; 1 indexes from PieceId(3) after [JobId(2), JobId(3)]; ",
        ),
    ];
    for (lines, want) in rows {
        let section = section_of(alloc, lines)?;
        assert_eq!(rt; jobs_of(alloc, &section.plan)?.as_str(), want);
    }
    Ok(())
}

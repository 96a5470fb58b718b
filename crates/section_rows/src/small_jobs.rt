// Jobs of little work, cut as their schedules say and not at all.

use frame_plan::{SectionBook, SmallJobs};
use frame_rows::script_in;
use job_base::FlatMem;
use std::alloc::Global;
use std::fmt::Write;
use std::test::Fail;
use table_in::Table;

// An index of `short` has 6 nodes, so 341 of them are little work and 342 aren't. How much work `long` is isn't known.
const SCRIPT: &str = "parallel short(x: rw array) { x[index] = x[index] + 1; }
parallel long(x: rw array) { for k in 0..1 { x[index] = x[index] + 1; } }
array x 342
list l 40
schedule h short(x) 64 1
schedule h short(x) 341 8 after h
schedule h short(x) 342 8 after h
schedule h long(x) 64 1 after h
schedule h short(x) defer l 4 after h
schedule h long(x) defer l 4 after h
schedule h short(x) 8 1 waive x after h
complete h
";

// How many indexes each job of the script has, and how many of them a piece.
fn cuts_of(alloc: Global, small_jobs: SmallJobs) -> Result<String, Fail> {
    let script = script_in(alloc, SCRIPT)?;
    let table = Table::none(alloc);
    let mut cells = FlatMem::new(alloc, 0)?;
    let mut book = SectionBook::new(alloc, &script, &table, small_jobs)?;
    let section = book.next(alloc, &script, &table, None, &mut cells)?;
    let mut told = String::new(alloc);
    for job in &section.plan.jobs {
        write!(told, "{} by {}; ", job.cut.n, job.cut.step)?;
    }
    Ok(told)
}

#[test]
fn little_work_is_one_piece(rt: HostRuntime) -> Result<(), Fail> {
    let rows = [
        (
            SmallJobs::Cut,
            "64 by 1; 341 by 8; 342 by 8; 64 by 1; 40 by 4; 40 by 4; 8 by 1; ",
        ),
        (
            SmallJobs::Whole,
            "64 by 64; 341 by 341; 342 by 8; 64 by 1; 40 by 40; 40 by 4; 8 by 8; ",
        ),
    ];
    for (small_jobs, want) in rows {
        assert_eq!(rt; cuts_of(rt.alloc(), small_jobs)?.as_str(), want);
    }
    Ok(())
}

// Scripts at the limits of what is planned.

use frame_plan::{PlanFault, SectionBook, SmallJobs};
use frame_rows::script_of;
use job_base::FlatMem;
use std::alloc::Global;
use std::test::Fail;
use table_in::Table;

// Why a script has no plan, if it has none.
fn fault_of(alloc: Global, lines: &str) -> Result<Option<PlanFault>, Fail> {
    let script = script_of(alloc, lines)?;
    let table = Table::none(alloc);
    let mut cells = FlatMem::new(alloc, 0)?;
    let mut book = match SectionBook::new(alloc, &script, &table, SmallJobs::Cut) {
        Ok(book) => book,
        Err(fault) => return Ok(Some(fault)),
    };
    book.next(alloc, &script, &table, None, &mut cells)?;
    Ok(None)
}

#[test]
fn limits(rt: HostRuntime) -> Result<(), Fail> {
    let rows: [(&str, Option<PlanFault>); 4] = [
        (
            "array a 1\nrepeat 4096 {\nschedule auto h bump(a)\n}\ncomplete h\n",
            None,
        ),
        (
            "array a 1\nrepeat 4097 {\nschedule auto h bump(a)\n}\ncomplete h\n",
            Some(PlanFault::Jobs),
        ),
        ("repeat 8 {\narray a 1048576\ndispose a\n}\n", None),
        (
            "repeat 8 {\narray a 1048576\ndispose a\n}\narray b 1\n",
            Some(PlanFault::Words),
        ),
    ];
    for (lines, want) in rows {
        assert_eq!(rt; fault_of(rt.alloc(), lines)?, want, "{lines}");
    }
    Ok(())
}

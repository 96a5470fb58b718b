// Scripts with a test at the limits of what is planned. There the text is counted, and not what acts.

use crate::texts::{push_line, wanted_in};
use frame_plan::{PlanFault, SectionBook, SmallJobs};
use frame_rows::script_of;
use std::alloc::Global;
use std::process::Abort;
use std::test::Fail;
use table_in::Table;

// Why a script has no plan, if it has none.
fn fault_of(alloc: Global, lines: &str) -> Result<Option<PlanFault>, Fail> {
    let script = script_of(alloc, lines)?;
    match SectionBook::new(alloc, &script, &Table::none(alloc), SmallJobs::Cut) {
        Ok(_) => Ok(None),
        Err(fault) => Ok(Some(fault)),
    }
}

// All schedules but the first are refused.
const SCHEDULES: &str = "array a 1
repeat 4097 {
schedule h bump(a)
}
| None
array a 1
reference t
repeat 4096 {
schedule h bump(a)
}
when t == 1 {
}
| None
array a 1
reference t
repeat 4097 {
schedule h bump(a)
}
when t == 1 {
}
| Some(Jobs)
array a 1
reference t
when t == 1 {
repeat 4097 {
schedule h bump(a)
}
}
| Some(Jobs)
";

// All arrays but the first are refused.
const ARRAYS: &str = "repeat 9 {
array a 1048576
}
| None
reference t
when t == 1 {
}
repeat 7 {
array a 1048576
}
list l 1048574
| None
reference t
when t == 1 {
}
repeat 7 {
array a 1048576
}
list l 1048575
| Some(Words)
reference t
list l 0
repeat 7 {
array a 1048576
}
when t == 1 {
setcapacity l 1048574
}
| Some(Words)
";

// The limit that is passed first.
const BOTH: &str = "reference t
array a 1
repeat 4097 {
schedule h bump(a)
}
repeat 9 {
array a 1048576
}
when t == 1 {
}
| Some(Jobs)
";

// Rows of scripts, each with its lines and then the fault.
fn compare(rt: &impl Abort, alloc: Global, rows: &str) -> Result<(), Fail> {
    let mut lines = String::new(alloc);
    for line in rows.lines() {
        let Some(want) = wanted_in(line) else {
            push_line(&mut lines, line)?;
            continue;
        };
        let told = format!(in alloc; "{:?}", fault_of(alloc, &lines)?)?;
        assert_eq!(rt; told.as_str(), want, "{lines}");
        lines.clear();
    }
    Ok(())
}

#[test]
fn limits(rt: HostRuntime) -> Result<(), Fail> {
    compare(&rt, rt.alloc(), SCHEDULES)?;
    compare(&rt, rt.alloc(), ARRAYS)?;
    compare(&rt, rt.alloc(), BOTH)
}

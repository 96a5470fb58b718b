// What is planned of each statement where it is accepted, and where it is refused whatever the cells are.

use crate::texts::{push_line, wanted_in};
use frame_core::{Act, Op, Plan, Segment};
use frame_rows::section_with;
use job_base::Refusal;
use std::alloc::Global;
use std::fmt::Write;
use std::process::Abort;
use std::test::Fail;
use table_in::read_table;

// The word for what an operation does.
fn tell_act(act: &Act, told: &mut String) -> Result<(), Fail> {
    match act {
        Act::Fill { span, literal: _ } => write!(told, "fill {}", span.len)?,
        Act::Move { from, to } => write!(told, "move {} to {}", from.len, to.len)?,
        Act::Say { refusal } => write!(told, "{refusal:?}")?,
        Act::Set { .. } => write!(told, "set")?,
        Act::AddTo { .. } => write!(told, "add")?,
        Act::Put { .. } => write!(told, "put")?,
        Act::Remove { .. } => write!(told, "remove")?,
        Act::Clear { .. } => write!(told, "clear")?,
        Act::Print { .. } => write!(told, "print")?,
        Act::Report { made } => write!(told, "report {made}")?,
    }
    Ok(())
}

// Whether an operation says nothing of a container.
fn is_nameless(act: &Act) -> bool {
    matches!(
        act,
        Act::Say {
            refusal: Refusal::StoreFull | Refusal::Range | Refusal::Busy(_)
        }
    )
}

// The line of an operation, what it does, and the name that it speaks of.
fn tell_op(plan: &Plan, op: &Op, told: &mut String) -> Result<(), Fail> {
    write!(told, "{} ", op.line)?;
    tell_act(&op.act, told)?;
    match plan.names.get(op.name as usize) {
        Some(name) if !is_nameless(&op.act) => write!(told, " {name}; ")?,
        _ => write!(told, "; ")?,
    }
    Ok(())
}

// What a segment waits for, its operations, and the job that it starts.
fn tell_segment(plan: &Plan, segment: &Segment, told: &mut String) -> Result<(), Fail> {
    for job in &segment.waits {
        write!(told, "await {}; ", job.0)?;
    }
    for op in &segment.ops {
        tell_op(plan, op, told)?;
    }
    if let Some(job) = segment.starts {
        write!(told, "start {}; ", job.0)?;
    }
    Ok(())
}

// What is planned of the first section of a script, with a table of one column.
fn planned(alloc: Global, lines: &str) -> Result<String, Fail> {
    let table = read_table(alloc, b"price\n5\n6\n")?;
    let section = section_with(alloc, lines, &table)?;
    let mut told = String::new(alloc);
    for segment in &section.plan.segments {
        tell_segment(&section.plan, segment, &mut told)?;
    }
    Ok(told)
}

// Rows of scripts, each with its lines and then what is planned of them.
fn compare(rt: &impl Abort, alloc: Global, rows: &str) -> Result<(), Fail> {
    let mut lines = String::new(alloc);
    for line in rows.lines() {
        let Some(want) = wanted_in(line) else {
            push_line(&mut lines, line)?;
            continue;
        };
        let told = planned(alloc, &lines)?;
        assert_eq!(rt; told.as_str().trim_end(), want, "{lines}");
        lines.clear();
    }
    Ok(())
}

const MAKING: &str = "array a 2 = 1 2
array b 1048576
| 13 fill 2 a; 14 StoreFull;
column p \"price\"
array a 1048574
column q \"price\"
| 13 fill 2 p; 14 fill 1048574 a; 15 StoreFull;
list l 3
list m 1048575
| 13 fill 4 l; 14 StoreFull;
reference t = 5
array a 1048575
reference u
| 13 fill 1 t; 14 fill 1048575 a; 15 StoreFull;
map m 3
array a 1048551
map n 0
| 13 fill 25 m; 14 fill 1048551 a; 15 StoreFull;
stream s 4 2
array a 1048564
stream q 1 0
| 13 fill 12 s; 14 fill 1048564 a; 15 StoreFull;
array a 4
slice v a 1 3
slice w a 2 3
slice x w 0 0
| 13 fill 4 a; 15 Range; 16 Disposed w;
list l 1
view v l
dispose l
view w l
| 13 fill 2 l; 16 Disposed l;
array a 1
copy b a
print b
dispose a
copy c a
print c
| 13 fill 1 a; 15 print b; 18 Disposed c;
";

#[test]
fn making(rt: HostRuntime) -> Result<(), Fail> {
    compare(&rt, rt.alloc(), MAKING)
}

const CHANGING: &str = "array a 1
set a 0 = 7
schedule h bump(a)
set a 0 = 8
| 13 fill 1 a; 14 set a; start 1; 16 Pending(JobId(1)) a; await 1;
reference t
set t = 7
dispose t
set t = 8
| 13 fill 1 t; 14 set t; 16 Disposed t;
list l 2
add l 5
view v l
set v 0 = 6
add l 7
set v 0 = 8
| 13 fill 3 l; 14 add l; 16 set v; 17 add l; 18 StaleView v;
map m 2
add m 5 6
dispose m
add m 6 6
| 13 fill 13 m; 14 add m; 16 Disposed m;
map m 2
put m 5 6
dispose m
put m 6 6
| 13 fill 13 m; 14 put m; 16 Disposed m;
list l 2
remove l 0
dispose l
remove l 0
| 13 fill 3 l; 14 remove l; 16 Disposed l;
map m 2
remove m 5
dispose m
remove m 5
| 13 fill 13 m; 14 remove m; 16 Disposed m;
stream s 1 1
clear s
dispose s
clear s
| 13 fill 2 s; 14 clear s; 16 Disposed s;
list l 1
setcapacity l 2
setcapacity l 1
setcapacity l 1048576
| 13 fill 2 l; 14 move 2 to 3 l; 15 Range; 16 StoreFull;
array a 1
print a
dispose a
print a
| 13 fill 1 a; 14 print a; 16 Disposed a;
array a 1
repeat 2 {
flush
set a 0 = 1
}
| 13 fill 1 a; 16 set a; 16 set a;
";

#[test]
fn changing(rt: HostRuntime) -> Result<(), Fail> {
    compare(&rt, rt.alloc(), CHANGING)
}

const SCHEDULING: &str = "array a 1
schedule h bump(a)
schedule h bump(a)
| 13 fill 1 a; start 1; 15 Pending(JobId(1)) a; await 1;
list l 1
add l 5
view v l
clear l
reference t
schedule h peek(v, t)
| 13 fill 2 l; 14 add l; 16 clear l; 17 fill 1 t; 18 StaleView v;
list l 1
schedule h push(l) 1 1
| 13 fill 2 l; 14 NotParallel l;
array a 1 temp
schedule h bump(a)
| 13 fill 1 a; 14 TempInJob a;
array a 2
slice v a 0 1
schedule h pair(a, v)
| 13 fill 2 a; 15 Alias v;
list l 2
array y 2
schedule h scale(l, y) defer l 1
schedule h scale(l, y) defer l 1
| 13 fill 3 l; 14 fill 2 y; start 1; 16 Pending(JobId(1)) y; await 1;
array a 1
schedule auto h bump(a)
schedule auto h bump(a)
dispose a after h as d
schedule auto h bump(a)
| 13 fill 1 a; start 1; start 2; 17 Disposed a; await 1; await 2;
";

#[test]
fn scheduling(rt: HostRuntime) -> Result<(), Fail> {
    compare(&rt, rt.alloc(), SCHEDULING)
}

const AWAITING: &str = "combine h
complete h
|
array a 1
schedule h bump(a)
complete h
print a
| 13 fill 1 a; start 1; await 1; 16 print a; await 1;
array a 1
schedule h bump(a)
complete auto a
dispose a
complete auto a
| 13 fill 1 a; start 1; await 1; 17 Disposed a; await 1;
array a 1
schedule h bump(a)
dispose a
| 13 fill 1 a; start 1; 15 Pending(JobId(1)) a; await 1;
array a 1
schedule h bump(a)
combine g
dispose a after g as d
dispose a after h as d
print a
| 13 fill 1 a; start 1; 16 Pending(JobId(1)) a; 18 Disposed a; await 1;
array a 1
schedule h bump(a)
dispose auto a as d
dispose auto a as e
| 13 fill 1 a; start 1; 16 Disposed a; await 1;
array a 1 temp
array b 1 tempjob
frame
print a
frame
frame
frame
| 13 fill 1 a; 14 fill 1 b; 16 Disposed a; 19 report 14 b;
reference t
array a 1
schedule h bump(a)
when t == 1 {
print t
}
print t
| 13 fill 1 t; 14 fill 1 a; start 1; 16 Busy(JobId(1)); 19 print t; await 1;
reference t
dispose t
when t == 1 {
flush
}
print t
| 13 fill 1 t; 15 Disposed t; 18 Disposed t;
reference t
when t == 1 {
print t
}
| 13 fill 1 t;
";

#[test]
fn awaiting(rt: HostRuntime) -> Result<(), Fail> {
    compare(&rt, rt.alloc(), AWAITING)
}

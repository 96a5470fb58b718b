//! Whole files: the script that each spells.

use frame_ast::script::{Arg, Order, Script};
use frame_script::{LoadFault, parse_script};
use row_texts::{row, same, table, unescaped};
use std::alloc::Global;
use std::fmt::Write;
use std::test::Fail;

/// The kernels that stand before each text, on three lines.
const KERNELS: &str = "job fill(a: wo array, n: int) { }
parallel scale(x: ro array, y: wo array) { }
job each(l: rw list, r: rw ref, m: rw map, s: wo stream) { }
";

fn write_places(text: &mut String, places: &[u32]) -> Result<(), Fail> {
    write!(text, "[")?;
    for place in places {
        write!(text, " {place}")?;
    }
    write!(text, " ]")?;
    Ok(())
}

fn write_args(text: &mut String, args: &[Arg]) -> Result<(), Fail> {
    for arg in args {
        match arg {
            Arg::Name(name) => write!(text, " {name}")?,
            Arg::Number(number) => write!(text, " ={number}")?,
        }
    }
    Ok(())
}

/// A statement that makes a container or a value.
fn write_making(text: &mut String, order: &Order) -> Result<(), Fail> {
    match order {
        Order::Array {
            name,
            len,
            life,
            values,
        } => write!(text, "array {name} {len} {life:?} {values:?}")?,
        Order::Column { name, column, life } => {
            write!(text, "column {name} {} {life:?}", column.len())?
        }
        Order::List { name, cap, life } => write!(text, "list {name} {cap} {life:?}")?,
        Order::Reference { name, life, value } => {
            write!(text, "reference {name} {life:?} {value:?}")?
        }
        Order::Map { name, cap, life } => write!(text, "map {name} {cap} {life:?}")?,
        Order::Stream {
            name,
            count,
            room,
            life,
        } => write!(text, "stream {name} {count} {room} {life:?}")?,
        Order::Slice {
            name,
            of,
            start,
            len,
        } => write!(text, "slice {name} {of} {start} {len}")?,
        Order::View { name, of } => write!(text, "view {name} {of}")?,
        Order::Copy { name, of } => write!(text, "copy {name} {of}")?,
        _ => write_change(text, order)?,
    }
    Ok(())
}

/// A statement that changes or prints a container.
fn write_change(text: &mut String, order: &Order) -> Result<(), Fail> {
    match order {
        Order::Set { name, at, value } => write!(text, "set {name} {at:?} {value}")?,
        Order::Add {
            name,
            first,
            second,
        } => write!(text, "add {name} {first} {second:?}")?,
        Order::Put { name, key, value } => write!(text, "put {name} {key} {value}")?,
        Order::Remove { name, at } => write!(text, "remove {name} {at}")?,
        Order::Clear { name } => write!(text, "clear {name}")?,
        Order::SetCapacity { name, cap } => write!(text, "setcapacity {name} {cap}")?,
        Order::Print { name } => write!(text, "print {name}")?,
        Order::Flush => write!(text, "flush")?,
        Order::Frame => write!(text, "frame")?,
        Order::When {
            name,
            sign,
            value,
            count,
        } => write!(text, "when {name} {sign:?} {value} {count}")?,
        _ => write_job(text, order)?,
    }
    Ok(())
}

/// A statement about jobs.
fn write_job(text: &mut String, order: &Order) -> Result<(), Fail> {
    match order {
        Order::Schedule(job) => {
            write!(text, "schedule {} {} {}", job.auto, job.handle, job.kernel)?;
            write_args(text, job.args.as_slice())?;
            if let Some((len, batch)) = job.cut {
                write!(text, " cut {len} {batch}")?;
            }
            if let Some((list, batch)) = job.defer {
                write!(text, " defer {list} {batch}")?;
            }
            write_places(text, job.waive.as_slice())?;
            write_places(text, job.after.as_slice())?;
        }
        Order::Combine { name, of } => {
            write!(text, "combine {name}")?;
            write_places(text, of.as_slice())?;
        }
        Order::Complete { name } => write!(text, "complete {name}")?,
        Order::CompleteAuto { name } => write!(text, "complete auto {name}")?,
        Order::Dispose {
            name,
            after,
            handle,
        } => {
            write!(text, "dispose {name}")?;
            write_places(text, after.as_slice())?;
            write!(text, "{handle:?}")?;
        }
        Order::DisposeAuto { name, handle } => write!(text, "dispose auto {name} {handle}")?,
        _ => write!(text, "?")?,
    }
    Ok(())
}

/// The names, the lists of values and the statements, each with its line.
fn shown(alloc: Global, script: &Script) -> Result<String, Fail> {
    let mut text = String::new(alloc);
    for place in 0..script.names.len() {
        if let Some(name) = script.names.get(place) {
            write!(text, "{name} ")?;
        }
    }
    for values in &script.literals {
        write!(text, "(")?;
        for value in values {
            write!(text, " {value}")?;
        }
        write!(text, " ) ")?;
    }
    for statement in &script.statements {
        write!(text, "{}: ", statement.line)?;
        write_making(&mut text, &statement.act)?;
        write!(text, "; ")?;
    }
    Ok(text)
}

/// What a file of less than a million bytes gives: its script, or its refusal.
pub fn outcome(alloc: Global, source: &[u8]) -> Result<String, Fail> {
    if source.len() >= 1_000_000 {
        return Err(Fail::new("a long file"));
    }
    match parse_script(alloc, source) {
        Ok(script) => shown(alloc, &script),
        Err(LoadFault::Refused { line, kind }) => {
            let mut told = String::new(alloc);
            write!(told, "{line}: {kind:?}")?;
            Ok(told)
        }
        Err(LoadFault::NoMemory) => Ok(String::from_str(alloc, "no memory")?),
    }
}

/// What a text gives after the kernels.
fn after_kernels(alloc: Global, text: &[u8]) -> Result<String, Fail> {
    let mut whole = Vec::from_slice(alloc, KERNELS.as_bytes())?;
    whole.extend_from_slice(text)?;
    outcome(alloc, &whole)
}

/// Tries rows of what a text gives after the kernels, without the spaces at its end.
pub fn try_rows(alloc: Global, rows: &str) -> Result<(), Fail> {
    for line in table(rows)?.lines() {
        if let Some((wanted, text)) = row(line)? {
            let told = after_kernels(alloc, &unescaped(alloc, text)?)?;
            same(line, told.as_str().trim_end(), wanted)?;
        }
    }
    Ok(())
}

const STATEMENTS: &str = r#"
|
| \n# nothing\n \t\r\n
a ( -1 7 ) 4: array 0 2 TempJob Some(0); | array a 2 tempjob = -1 7
a b 4: array 0 3 Persistent None; 5: array 1 0 Temp None; | array a 3\narray b 0 temp
c 4: column 0 3 Persistent; | column c "p q" persistent
l 4: list 0 1048576 Persistent; | list l 1048576
r 4: reference 0 Temp Some(-9223372036854775808); | reference r temp = -9223372036854775808
m 4: map 0 4096 Persistent; | map m 4096
s 4: stream 0 65536 1024 Persistent; | stream s 65536 1024
a b c 4: array 0 4 Persistent None; 5: slice 1 0 1 2; 6: slice 2 1 0 1; | array a 4\nslice b a 1 2\nslice c b 0 1
l v w 4: list 0 1 Persistent; 5: view 1 0; 6: copy 2 1; | list l 1\nview v l\ncopy w v
a 4: array 0 1 Persistent None; 5: set 0 Some(-1) 5; | array a 1\nset a -1 = 5
r 4: reference 0 Persistent None; 5: set 0 None 5; | reference r\nset r = 5
5: UnknownName | array a 1\nschedule h scale(a, a) 9 2 waive y after h
l h 4: list 0 1 Persistent; 5: schedule false 1 1 0 0 defer 0 3[ ][ ]; | list l 1\nschedule h scale(l, l) defer l 3
4: flush; 5: frame; | flush\nframe\n
6: flush; 6: flush; 6: flush; 8: frame; | repeat 3 {\n\nflush\n}\nframe
5: flush; 7: frame; 7: frame; 5: flush; 7: frame; 7: frame; | repeat 2 {\nflush\nrepeat 2 {\nframe\n}\n}
r 4: reference 0 Persistent None; 6: when 0 Ne 0 0; 6: when 0 Ne 0 0; | reference r\nrepeat 2 {\nwhen r != 0 {\n}\n}
6: KindMismatch | job late() { }\nschedule h late()\nprint h
"#;

const LONG_STATEMENTS: &str = "
l 4: list 0 1 Persistent; 5: add 0 5 None; 6: remove 0 0; 7: clear 0; 8: setcapacity 0 2; \
    | list l 1\\nadd l 5\\nremove l 0\\nclear l\\nsetcapacity l 2
m 4: map 0 1 Persistent; 5: add 0 5 Some(6); 6: put 0 -5 7; 7: remove 0 5; 8: clear 0; \
    | map m 1\\nadd m 5 6\\nput m -5 7\\nremove m 5\\nclear m
a h 4: array 0 1 Persistent None; 5: schedule false 1 0 0 =-3[ ][ ]; 6: complete 1; 7: print 0; \
    | array a 1\\nschedule h fill(a, -3)\\ncomplete h\\nprint a
a g h 4: array 0 1 Persistent None; 5: combine 1[ ]; 6: schedule true 2 1 0 0 cut 9 2[ 1 ][ 1 1 ]; \
    | array a 1\\ncombine g\\nschedule auto h scale(a, a) 9 2 waive y after g g
l r m s h 4: list 0 1 Persistent; 5: reference 1 Persistent None; 6: map 2 1 Persistent; \
    7: stream 3 1 1 Persistent; 8: schedule false 4 2 0 1 2 3[ ][ ]; \
    | list l 1\\nreference r\\nmap m 1\\nstream s 1 1\\nschedule h each(l, r, m, s)
a d e 4: array 0 1 Persistent None; 5: complete auto 0; 6: dispose auto 0 1; 7: dispose 0[ ]None; \
    8: dispose 0[ 1 1 ]Some(2); 9: combine 1[ 2 ]; \
    | array a 1\\ncomplete auto a\\ndispose auto a as d\\ndispose a\\ndispose a after d d as e\\ncombine d e
a b ( 3 ) ( 4 ) 5: array 0 1 Persistent Some(0); 5: array 0 1 Persistent Some(0); \
    7: array 1 1 Persistent Some(1); | repeat 2 {\\narray a 1 = 3\\n}\\narray b 1 = 4
r l 4: reference 0 Persistent None; 5: when 0 Le -2 3; 7: flush; 7: flush; 9: list 1 1 Persistent; \
    11: print 1; | reference r\\nwhen r <= -2 {\\nrepeat 2 {\\nflush\\n}\\nlist l 1\\n}\\nprint l
r 4: reference 0 Persistent None; 6: when 0 Eq 0 3; 8: flush; 8: flush; 8: flush; 6: when 0 Eq 0 3; \
    8: flush; 8: flush; 8: flush; 12: frame; | reference r\\nrepeat 2 {\\nwhen r == 0 {\\nrepeat 3 {\\n\
    flush\\n}\\n}\\n}\\nframe
a g h d e 4: array 0 1 Persistent None; 5: combine 1[ ]; 7: schedule false 2 1 0 0 cut 9 2[ 1 ][ 1 1 ]; \
    8: combine 3[ 1 2 ]; 9: dispose 0[ 3 ]Some(4); 7: schedule false 2 1 0 0 cut 9 2[ 1 ][ 1 1 ]; \
    8: combine 3[ 1 2 ]; 9: dispose 0[ 3 ]Some(4); \
    | array a 1\\ncombine g\\nrepeat 2 {\\nschedule h scale(a, a) 9 2 waive y after g g\\ncombine d g h\\n\
    dispose a after d as e\\n}
";

// Each statement is read, and as many as there may be.
#[test]
fn statements(rt: HostRuntime) -> Result<(), Fail> {
    let alloc = rt.alloc();
    try_rows(alloc, STATEMENTS)?;
    try_rows(alloc, LONG_STATEMENTS)?;
    match parse_script(
        alloc,
        b"reference r\nrepeat 1024 {\nwhen r == 0 {\nrepeat 62 {\nflush\n}\n}\n}\nrepeat 1023 {\nframe\n}",
    ) {
        Ok(script) => assert!(rt; script.statements.len() == 65_536),
        Err(_) => assert!(rt; false, "refused"),
    }
    Ok(())
}

// What isn't begun, and sections that don't end yet.

use crate::running::{column, open};
use frame_host::{BeginFault, Frame, FrameScript, OpenFault};
use std::test::Fail;

const BUMPED: &str = "parallel bump(a: rw array) { a[index] = a[index] + 1; }
column a \"a\"
schedule h bump(a) 2 1
complete h
print a
";

#[test]
fn a_refused_script_names_its_line(rt: HostRuntime) -> Result<(), Fail> {
    match FrameScript::open(rt.alloc(), b"array a 2\narray\n") {
        Err(OpenFault::Refused { line, .. }) => {
            assert_eq!(rt; line, 2);
            Ok(())
        }
        _ => Err(Fail::new("it isn't refused")),
    }
}

#[test]
fn a_missing_column_names_its_statement(rt: HostRuntime) -> Result<(), Fail> {
    let alloc = rt.alloc();
    let script = open(alloc, BUMPED)?;
    match Frame::begin(alloc, &script, column(alloc, b"b", &[1])?) {
        Err(BeginFault::NoColumn { statement }) => {
            assert_eq!(rt; statement, 0);
            Ok(())
        }
        _ => Err(Fail::new("it is begun")),
    }
}

#[test]
fn a_section_waits_for_its_helpers(rt: HostRuntime) -> Result<(), Fail> {
    let alloc = rt.alloc();
    let script = open(alloc, BUMPED)?;
    let Ok(frame) = Frame::begin(alloc, &script, column(alloc, b"a", &[1, 2])?) else {
        return Err(Fail::new("it isn't begun"));
    };
    let (section, helper) = frame.next(alloc, 1)?.helper(alloc);
    let Ok(helper) = helper else {
        return Err(Fail::new("no helper"));
    };
    let Err(section) = section.end(alloc) else {
        return Err(Fail::new("it ended before it was run"));
    };
    let (section, none) = section.helper(alloc);
    assert!(rt; none.is_err());
    drop(helper);
    drop(section);
    Ok(())
}

// Frames of one script and of several sections.
ghost use Rattle.frame_ast.specs.Accepted.{IsAccepted};
ghost use Rattle.frame_host.specs.Scripts.{tree_of};

use crate::running::{column, open, run_frame};
use frame_host::FrameScript;
use std::alloc::Global;
use std::test::Fail;

const DOUBLED: &str = "parallel double_all(p: rw array) { p[index] = p[index] * 2; }
column p \"price\"
schedule doubled double_all(p) 3 1
complete doubled
print p
";

// The block is run where the first number is above 2.
const TESTED: &str = "parallel rise(a: rw array) { a[index] = a[index] + 1; }
job first(a: ro array, r: rw ref) { r = a[0]; }
column a \"a\"
reference r
schedule h rise(a) 2 1
schedule k first(a, r) after h
complete k
when r > 2 {
set a 0 = 0
}
print a
";

// Runs a script with one column, and compares status and text.
fn answers(
    alloc: Global,
    script: &FrameScript,
    name: &str,
    values: &[i64],
    status: u8,
    text: &str,
) -> Result<bool, Fail>
    requires accepted { IsAccepted (tree_of script.now) }
{
    let table = column(alloc, name.as_bytes(), values)?;
    let answer = run_frame(alloc, script, table, 3)?;
    Ok(answer.status == status && answer.text.as_slice() == text.as_bytes())
}

#[test]
fn a_script_is_read_once_and_run_with_other_numbers(rt: HostRuntime) -> Result<(), Fail> {
    let alloc = rt.alloc();
    let script = open(alloc, DOUBLED)?;
    assert!(rt; answers(alloc, &script, "price", &[3, 5, 7], 0, "p = [6, 10, 14]\n")?);
    assert!(rt; answers(alloc, &script, "price", &[1, 0, -1], 0, "p = [2, 0, -2]\n")?);
    Ok(())
}

#[test]
fn a_test_begins_another_section(rt: HostRuntime) -> Result<(), Fail> {
    let alloc = rt.alloc();
    let script = open(alloc, TESTED)?;
    assert!(rt; answers(alloc, &script, "a", &[2, 4], 0, "a = [0, 5]\n")?);
    assert!(rt; answers(alloc, &script, "a", &[1, 4], 0, "a = [2, 5]\n")?);
    Ok(())
}

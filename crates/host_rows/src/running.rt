// Runs frames by turns on one thread.
ghost use Rattle.std.specs.Prelude.{IfOk};
ghost use Rattle.frame_ast.specs.Accepted.{IsAccepted};
ghost use Rattle.frame_host.specs.Frames.{EndsAs, IsUnderway, columns_in, tree_in};
ghost use Rattle.frame_host.specs.Scripts.{tree_of};

use frame_host::{Frame, FrameAnswer, FrameEnd, FrameScript, FrameSection};
use job_base::limits::MOST_TESTS;
use std::alloc::Global;
use std::test::Fail;
use table_in::Table;

// More turns than any section here has.
const MOST_TURNS: u32 = 10_000;

/// The table of one column.
pub fn column(alloc: Global, name: &[u8], values: &[i64]) -> Result<Table, Fail> {
    let mut table = Table::none(alloc);
    table.push_column(alloc, name, values)?;
    Ok(table)
}

// Runs a section: the script's thread and a helper take turns, where it has a place for one.
fn run_section(alloc: Global, section: FrameSection) -> Result<FrameEnd, Fail>
    requires sound { IsUnderway section }
    ensures { IfOk result (EndsAs (tree_in section.frame) (columns_in section.frame)) }
{
    let (section, helper) = section.helper(alloc);
    let mut section = section;
    let mut helper = helper.ok();
    for _turn in 0..MOST_TURNS {
        let more = section.turn();
        if let Some(helper) = &mut helper {
            helper.turn();
        }
        if !more {
            break;
        }
    }
    drop(helper);
    match section.end(alloc) {
        Ok(end) => Ok(end),
        Err(_) => Err(Fail::new("the section isn't run")),
    }
}

/// Runs a script with these columns, and gives its answer.
pub fn run_frame(
    alloc: Global,
    script: &FrameScript,
    table: Table,
    helpers: u32,
) -> Result<FrameAnswer, Fail>
    requires accepted { IsAccepted (tree_of script.now) }
{
    let Ok(mut frame) = Frame::begin(alloc, script, table) else {
        return Err(Fail::new("the frame isn't begun"));
    };
    for _section in 0..MOST_TESTS + 1 {
        match run_section(alloc, frame.next(alloc, helpers)?)? {
            FrameEnd::Next(next) => frame = next,
            FrameEnd::Over(answer) => return Ok(answer),
            FrameEnd::NoMemory => return Err(Fail::new("no memory for the text")),
        }
    }
    Err(Fail::new("another section"))
}

/// Reads a script.
pub fn open(alloc: Global, source: &str) -> Result<FrameScript, Fail>
    ensures accepted { IfOk result (λ script. IsAccepted (tree_of script)) }
{
    match FrameScript::open(alloc, source.as_bytes()) {
        Ok(script) => Ok(script),
        Err(_) => Err(Fail::new("the script is refused")),
    }
}

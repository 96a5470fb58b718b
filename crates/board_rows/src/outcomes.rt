// Scripts with tests, planned and run section by section, with each test answered both ways.
ghost use Rattle.std.specs.Prelude.{◌≡◌, ◌<◌, true, length, IfOk};
ghost use Rattle.job_base.specs.Cells.{cells_of};
ghost use Rattle.frame_ast.specs.Accepted.{IsAccepted};
ghost use Rattle.frame_ast.specs.Orders.{compares};
ghost use Rattle.plan_statements.specs.Tables.{columns_of};
ghost use Rattle.frame_rows.specs.Between.{IsBetween};

use crate::boards::run_plan;
use frame_ast::script::Script;
use frame_plan::{Section, SectionBook, SmallJobs, Test};
use frame_rows::script_of;
use job_base::{FlatMem, Mem, MemSink, Word};
use std::alloc::Global;
use std::fmt::Write;
use std::sync::Wait;
use std::test::Fail;
use std::thread::Threads;
use table_in::Table;

const MORE: &str = "reference t
array a 1 = 6
schedule h peek(a, t)
complete h
when t > 3 {
set a 0 = 1
print a
}
when t < 3 {
print a
}
print t
";

const LESS: &str = "reference t
array a 1 = 2
schedule h peek(a, t)
complete h
when t > 3 {
set a 0 = 1
print a
}
when t < 3 {
print a
}
print t
";

// A job isn't completed where the test stands.
const BUSY: &str = "reference t
array a 1
schedule h bump(a)
when t == 0 {
print t
}
complete h
print a
";

// What a block would have made that is passed by.
const PASSED: &str = "reference t
when t == 1 {
array b 2
}
print b
";

// Whether a test holds of so many cells.
fn holds(test: &Test, cells: &mut FlatMem, words: u32) -> Result<bool, Fail>
    requires words { length cells.old ≡ words }
    ensures within { IfOk result (λ held. test.now.at.start < words) }
    ensures held { IfOk result (λ held.
        held ≡ compares test.now.sign (cells_of cells.old test.now.at.start) test.now.bound) }
    ensures cells { cells.new ≡ cells.old }
{
    if test.at.start >= words {
        return Err(Fail::new("the test is of no word"));
    }
    let number = cells.load(Word(test.at.start));
    Ok(test.sign.holds(number, test.bound))
}

// How far a script is gone through: its book, the answer to the last test, the cells that were left, and what was told.
#[derive(Drop)]
struct Walk {
    book: SectionBook,
    held: Option<bool>,
    cells: FlatMem,
    told: String,
}

// Plans the next section, runs it and decides its test. The answer says whether there is one.
fn go_on<R: Threads + Wait + Sync>(
    rt: &R,
    alloc: Global,
    script: &Script,
    table: &Table,
    walk: &mut Walk,
    sink: &mut MemSink,
) -> Result<bool, Fail>
    requires here { IsBetween script.now (columns_of table.now) walk.old.book walk.old.held walk.old.cells }
    ensures next { IfOk result (λ more. more ≡ true
        → IsBetween script.now (columns_of table.now) walk.new.book walk.new.held walk.new.cells) }
{
    let section = walk
        .book
        .next(alloc, script, table, walk.held, &mut walk.cells)?;
    write!(walk.told, "{} jobs before", section.jobs_before)?;
    let cells = run_plan(rt, alloc, &section.plan, 2, sink)?;
    walk.cells = cells;
    let Section { plan, test, .. } = section;
    let Some(test) = test else {
        return Ok(false);
    };
    let answer = holds(&test, &mut walk.cells, plan.words)?;
    walk.held = Some(answer);
    walk.book.take_back(plan);
    write!(
        walk.told,
        ", {:?} {} of word {}: {answer}; ",
        test.sign, test.bound, test.at.start
    )?;
    Ok(true)
}

// What the sections of a script test, and the answers.
fn outcomes_with<R: Threads + Wait + Sync>(
    rt: &R,
    alloc: Global,
    script: &Script,
    table: &Table,
    sink: &mut MemSink,
) -> Result<String, Fail>
    requires { IsAccepted script.now }
{
    let book = SectionBook::new(alloc, script, table, SmallJobs::Cut)?;
    let cells = FlatMem::new(alloc, 0)?;
    let mut walk = Walk {
        book,
        held: None,
        cells,
        told: String::new(alloc),
    };
    for _ in 0..8 {
        if !go_on(rt, alloc, script, table, &mut walk, sink)? {
            break;
        }
    }
    Ok(walk.told)
}

// The same of the script that has these lines.
fn outcomes_of<R: Threads + Wait + Sync>(
    rt: &R,
    alloc: Global,
    lines: &str,
    sink: &mut MemSink,
) -> Result<String, Fail> {
    let script = script_of(alloc, lines)?;
    let table = Table::none(alloc);
    outcomes_with(rt, alloc, &script, &table, sink)
}

#[test]
fn tests_are_answered_both_ways(rt: HostRuntime) -> Result<(), Fail> {
    let alloc = rt.alloc();
    let rows: [(&str, &str, &str); 4] = [
        (
            MORE,
            "0 jobs before, Gt 3 of word 0: true; 1 jobs before, Lt 3 of word 0: false; 1 jobs before",
            "a = [1]\nt = 6\n",
        ),
        (
            LESS,
            "0 jobs before, Gt 3 of word 0: false; 1 jobs before, Lt 3 of word 0: true; 1 jobs before",
            "a = [2]\nt = 2\n",
        ),
        (BUSY, "0 jobs before", "refused 16: busy job 1\na = [1]\n"),
        (
            PASSED,
            "0 jobs before, Eq 1 of word 0: false; 0 jobs before",
            "refused 17: disposed b\n",
        ),
    ];
    for (lines, outcomes, output) in rows {
        let mut sink = MemSink::new(alloc, 100, 100, Vec::new(alloc))?;
        assert_eq!(rt;
            outcomes_of(&rt, alloc, lines, &mut sink)?.as_str(),
            outcomes
        );
        assert_eq!(rt; sink.bytes(), output.as_bytes());
    }
    Ok(())
}

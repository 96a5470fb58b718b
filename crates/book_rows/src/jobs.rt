ghost use Rattle.std.specs.Prelude.{◌≡◌};
ghost use Rattle.frame_ast.specs.Laws.{AreUpTo};
ghost use Rattle.job_handle.specs.Sets.{jobs_of};
ghost use Rattle.job_handle.specs.Books.{count_of};

use crate::sets::{completed_in, led_to, numbers, set, several, text_of};
use job_base::JobId;
use job_base::limits::MOST_JOBS;
use job_handle::{BookFault, Handle, JobBook};
use row_texts::{row, same, table};
use std::alloc::Global;
use std::test::Fail;

// The dependency sets of the jobs 1, 2, .., a set, and what it leads to. No job, a chain through another container,
// readers after a writer, two readers, a diamond, and sets over several words.
const BOOKS: &str = "
 from - | -
- 1 2 from 3 | 1,2,3
- 1 1 from 3 | 1,3
- - from 1 | 1
- 1 1 2,3 - from 4 | 1,2,3,4
- 1 1 2,3 - from 2,5 | 1,2,5
";

fn book_of(alloc: Global, all: &[Vec<u32>]) -> Result<JobBook, Fail> {
    let mut book = JobBook::new(alloc);
    for deps in all {
        let deps = set(&book, deps);
        book.add(&deps)?;
    }
    Ok(book)
}

// What a set leads to is what is completed with it, and nothing is completed before.
fn completed_with(alloc: Global, book: &mut JobBook, from: &[u32]) -> Result<String, Fail> {
    let from = set(book, from);
    let to = led_to(alloc, book, &from)?;
    let before = completed_in(alloc, book)?;
    book.complete(&from);
    let after = completed_in(alloc, book)?;
    if before.as_str() != "-" || after.as_str() != to.as_str() {
        return Ok(format!(in alloc; "{to}, completed {before} and then {after}")?);
    }
    Ok(to)
}

#[test]
fn books(rt: HostRuntime) -> Result<(), Fail> {
    let alloc = rt.alloc();
    for line in table(BOOKS)?.lines() {
        if let Some((of, wanted)) = row(line)? {
            let (deps, from) = of.split_once("from ").ok_or("no set")?;
            let mut book = book_of(alloc, &several(alloc, deps)?)?;
            let told = completed_with(alloc, &mut book, &numbers(alloc, from)?)?;
            same(line, &told, wanted)?;
        }
    }
    Ok(())
}

// Each job waits for all earlier ones. The book is full at the 4,097th, and completing the last one completes all.
#[test]
fn a_full_book(rt: HostRuntime) -> Result<(), Fail> {
    let mut book = JobBook::new(rt.alloc());
    let mut all = set(&book, &[]);
    for _ in 0..MOST_JOBS {
        let j = book.add(&all)?;
        let one = Handle::of(j);
        all = all.combine(&one);
    }
    assert!(rt; book.add(&all) == Err(BookFault::Full) && book.count() == MOST_JOBS);
    let last = set(&book, &[MOST_JOBS]);
    let first = set(&book, &[1, 64, 65]);
    assert!(rt; book.depends(&last, JobId(1)));
    assert!(rt; !book.depends(&first, JobId(66)));
    book.complete(&first);
    assert!(rt; book.is_completed(JobId(65)) && !book.is_completed(JobId(66)));
    book.complete(&last);
    for j in 1..MOST_JOBS + 1 {
        assert!(rt; book.is_completed(JobId(j)));
    }
    Ok(())
}

// At the edges of words too.
const SETS: &str = "1
64,65
1,63,128,4032
4033,4096
";

fn set_of(jobs: &[u32]) -> Handle {
    let mut all = Handle::empty();
    for j in jobs {
        if 0 < *j && *j <= MOST_JOBS {
            all = all.combine(&Handle::of(JobId(*j)));
        }
    }
    all
}

// A set has just the jobs that it was made of.
#[test]
fn sets(rt: HostRuntime) -> Result<(), Fail> {
    let alloc = rt.alloc();
    for line in SETS.lines() {
        let all = set_of(&numbers(alloc, line)?);
        same(line, &text_of(alloc, &all, MOST_JOBS)?, line)?;
    }
    Ok(())
}

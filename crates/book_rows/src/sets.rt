// Sets of jobs, as rows write them: `1,3`, and `-` where there is none.
ghost use Rattle.std.specs.Prelude.{◌≤◌};
ghost use Rattle.job_base.specs.declared.limits.TheConstants.{MOST_JOBS};
ghost use Rattle.frame_ast.specs.Laws.{AreUpTo};
ghost use Rattle.job_handle.specs.Sets.{jobs_of};
ghost use Rattle.job_handle.specs.Books.{count_of};

use job_base::JobId;
use job_handle::{Handle, JobBook};
use std::alloc::Global;
use std::fmt::Write;
use std::test::Fail;

/// A number of a row.
pub(crate) fn number(word: &str) -> Result<u32, Fail> {
    Ok(word.parse::<u32>().ok().ok_or("no number")?)
}

/// The numbers of a set.
pub(crate) fn numbers(alloc: Global, set: &str) -> Result<Vec<u32>, Fail> {
    let mut all = Vec::new(alloc);
    if set == "-" {
        return Ok(all);
    }
    for word in set.split(',') {
        all.push(number(word)?)?;
    }
    Ok(all)
}

/// The numbers of several sets: `- 1 1,2`.
pub(crate) fn several(alloc: Global, sets: &str) -> Result<Vec<Vec<u32>>, Fail> {
    let mut all = Vec::new(alloc);
    for set in sets.split_whitespace() {
        all.push(numbers(alloc, set)?)?;
    }
    Ok(all)
}

/// The set of those jobs that are up to a number.
pub(crate) fn set_up_to(count: u32, jobs: &[u32]) -> Handle
    requires { count ≤ MOST_JOBS }
    ensures { AreUpTo count (jobs_of result) }
{
    let mut all = Handle::empty();
    for j in jobs {
        if 0 < *j && *j <= count {
            let one = Handle::of(JobId(*j));
            all = all.combine(&one);
        }
    }
    all
}

/// The set of those jobs that the book has.
pub(crate) fn set(book: &JobBook, jobs: &[u32]) -> Handle
    ensures { AreUpTo (count_of book.now) (jobs_of result) }
{
    set_up_to(book.count(), jobs)
}

// One more job in a row's set.
fn tell_job(told: &mut String, job: u32) -> Result<(), Fail> {
    if !told.is_empty() {
        told.push_str(",")?;
    }
    write!(told, "{job}")?;
    Ok(())
}

// What tells no job is `-`.
fn tell_none(told: &mut String) -> Result<(), Fail> {
    if told.is_empty() {
        told.push_str("-")?;
    }
    Ok(())
}

/// Of the jobs up to a number those that a set has.
pub(crate) fn text_of(alloc: Global, set: &Handle, count: u32) -> Result<String, Fail>
    requires { count ≤ MOST_JOBS }
{
    let mut told = String::new(alloc);
    for j in 1..count + 1 {
        if set.has(JobId(j)) {
            tell_job(&mut told, j)?;
        }
    }
    tell_none(&mut told)?;
    Ok(told)
}

/// The jobs of a book that are completed.
pub(crate) fn completed_in(alloc: Global, book: &JobBook) -> Result<String, Fail> {
    let mut told = String::new(alloc);
    for j in 1..book.count() + 1 {
        if book.is_completed(JobId(j)) {
            tell_job(&mut told, j)?;
        }
    }
    tell_none(&mut told)?;
    Ok(told)
}

/// The jobs of a book that a set leads to.
pub(crate) fn led_to(alloc: Global, book: &JobBook, from: &Handle) -> Result<String, Fail>
    requires { AreUpTo (count_of book.now) (jobs_of from.now) }
{
    let mut told = String::new(alloc);
    for j in 1..book.count() + 1 {
        if book.depends(from, JobId(j)) {
            tell_job(&mut told, j)?;
        }
    }
    tell_none(&mut told)?;
    Ok(told)
}

/// Some jobs in their order.
pub(crate) fn text_of_jobs(alloc: Global, jobs: &[JobId]) -> Result<String, Fail> {
    let mut told = String::new(alloc);
    for job in jobs {
        tell_job(&mut told, job.0)?;
    }
    tell_none(&mut told)?;
    Ok(told)
}

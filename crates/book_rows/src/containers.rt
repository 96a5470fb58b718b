ghost use Rattle.std.specs.Prelude.{◌≡◌, true};
ghost use Rattle.frame_ast.specs.Laws.{AreUpTo};
ghost use Rattle.job_handle.specs.Sets.{jobs_of};
ghost use Rattle.job_handle.specs.Books.{count_of};
ghost use Rattle.safety_handle.specs.Entries.{state_of};

use crate::sets::{numbers, set, text_of};
use job_base::limits::MOST_JOBS;
use job_handle::{BookFault, JobBook};
use row_texts::{row, same, table};
use safety_handle::{Blocked, SafetyBook, Tag};
use slot_store::{Slot, Version};
use std::alloc::Global;
use std::test::Fail;

const SLOT: Slot = Slot(1);

const TAG: Tag = Tag {
    slot: SLOT,
    version: Version(7),
    view: None,
};

// A job is checked, and where nothing blocks it, it is scheduled and noted.
fn schedule(
    book: &mut SafetyBook,
    jobs: &mut JobBook,
    after: &[u32],
    writes: bool,
) -> Result<Result<(), Blocked>, BookFault>
    requires { (state_of book.old 1).live ≡ true }
    ensures { (state_of book.new 1).live ≡ true }
{
    let deps = set(jobs, after);
    let answer = if writes {
        book.check_write(&TAG, &deps, jobs)
    } else {
        book.check_read(&TAG, &deps, jobs)
    };
    if answer.is_ok() {
        let j = jobs.add(&deps)?;
        if writes {
            book.note_write(SLOT, j);
        } else {
            book.note_read(SLOT, j);
        }
    }
    Ok(answer)
}

// What a check says, as a row writes it: the job that is pending, or `free`.
fn text(alloc: Global, answer: Result<(), Blocked>) -> Result<String, Fail> {
    Ok(match answer {
        Ok(()) => String::from_str(alloc, "free")?,
        Err(Blocked::Pending(job)) => format!(in alloc; "{}", job.0)?,
        Err(other) => format!(in alloc; "{other:?}")?,
    })
}

// A statement on the container, and what it waits for: what it says.
fn step(
    alloc: Global,
    book: &mut SafetyBook,
    jobs: &mut JobBook,
    name: &str,
    after: &[u32],
) -> Result<String, Fail>
    requires { (state_of book.old 1).live ≡ true }
    ensures { (state_of book.new 1).live ≡ true }
{
    match name {
        "reads" => text(alloc, schedule(book, jobs, after, false)?),
        "writes" => text(alloc, schedule(book, jobs, after, true)?),
        "disposes" => {
            let after = set(jobs, after);
            text(alloc, book.check_dispose(&TAG, &after, jobs))
        }
        "complete" => {
            let done = set(jobs, after);
            jobs.complete(&done);
            Ok(String::from_str(alloc, "done")?)
        }
        _ => Err(Fail::new("no such statement")),
    }
}

// A script of statements on one container.
fn compare(alloc: Global, script: &str) -> Result<(), Fail> {
    let mut jobs = JobBook::new(alloc);
    let mut book = SafetyBook::new(alloc)?;
    book.enroll(SLOT, Version(7))?;
    for line in table(script)?.lines() {
        if let Some((of, wanted)) = row(line)? {
            let (name, after) = of.split_once(' ').ok_or("no set")?;
            let after = numbers(alloc, after)?;
            let told = step(alloc, &mut book, &mut jobs, name, &after)?;
            same(line, &told, wanted)?;
        }
    }
    Ok(())
}

const WRITERS_THROUGH_ANOTHER_CONTAINER: &str = "
writes - | free
writes - | 1
writes 1 | free
writes 2 | free
complete 3 | done
writes - | free
";

const READERS_SINCE_A_WRITER: &str = "
writes - | free
reads 1 | free
reads 1 | free
writes 3 | 2
writes 2 | 3
complete 3 | done
writes - | 2
reads - | free
writes 2,4 | free
";

const A_CHAIN_THAT_MISSES_ITS_END: &str = "
writes - | free
writes 1 | free
writes - | 2
reads 1 | 2
complete 2 | done
reads - | free
";

const TWO_READERS_AND_A_WRITER: &str = "
reads - | free
reads - | free
writes - | 2
writes 2 | 1
complete 2 | done
writes - | 1
";

const A_DISPOSAL: &str = "
reads - | free
disposes - | 1
disposes 1 | free
";

#[test]
fn scripts(rt: HostRuntime) -> Result<(), Fail> {
    let alloc = rt.alloc();
    compare(alloc, WRITERS_THROUGH_ANOTHER_CONTAINER)?;
    compare(alloc, READERS_SINCE_A_WRITER)?;
    compare(alloc, A_CHAIN_THAT_MISSES_ITS_END)?;
    compare(alloc, TWO_READERS_AND_A_WRITER)?;
    compare(alloc, A_DISPOSAL)
}

fn tag(view: Option<u32>) -> Tag {
    Tag {
        slot: SLOT,
        version: Version(7),
        view,
    }
}

// The slots 0 to 2 with their versions, one after the other: what a tag of slot 1 answers.
#[test]
fn versions_and_views(rt: HostRuntime) -> Result<(), Fail> {
    let jobs = JobBook::new(rt.alloc());
    let mut book = SafetyBook::new(rt.alloc())?;
    let none = set(&jobs, &[]);
    let (first, second) = (tag(Some(0)), tag(Some(1)));
    assert!(rt; book.check_read(&TAG, &none, &jobs) == Err(Blocked::Disposed));
    book.enroll(Slot(2), Version(7))?;
    assert!(rt; book.check_read(&TAG, &none, &jobs) == Err(Blocked::Disposed));
    book.enroll(SLOT, Version(7))?;
    assert!(rt; book.check_write(&TAG, &none, &jobs) == Ok(()));
    assert!(rt; book.check_write(&first, &none, &jobs) == Ok(()));
    book.bump_view(SLOT);
    assert!(rt; book.view_version(SLOT) == 1);
    assert!(rt; book.check_read(&first, &none, &jobs) == Err(Blocked::StaleView));
    assert!(rt; book.check_read(&second, &none, &jobs) == Ok(()));
    assert!(rt; book.check_read(&TAG, &none, &jobs) == Ok(()));
    book.release(SLOT);
    assert!(rt; book.check_read(&first, &none, &jobs) == Err(Blocked::Disposed));
    book.enroll(SLOT, Version(8))?;
    assert!(rt; book.check_dispose(&TAG, &none, &jobs) == Err(Blocked::Disposed));
    assert!(rt; book.view_version(SLOT) == 0);
    Ok(())
}

// The last writer and the readers since, and what conflicts with a use that only reads.
fn users_of(alloc: Global, book: &SafetyBook) -> Result<String, Fail> {
    let users = text_of(alloc, &book.users(SLOT), MOST_JOBS)?;
    let conflicting = text_of(alloc, &book.conflicting(SLOT, false), MOST_JOBS)?;
    let others = text_of(alloc, &book.users(Slot(0)), MOST_JOBS)?;
    Ok(format!(in alloc; "{users} {conflicting} {others}")?)
}

#[test]
fn users(rt: HostRuntime) -> Result<(), Fail> {
    let alloc = rt.alloc();
    let mut jobs = JobBook::new(alloc);
    let mut book = SafetyBook::new(alloc)?;
    same("no container", &users_of(alloc, &book)?, "- - -")?;
    book.enroll(SLOT, Version(7))?;
    same("no user", &users_of(alloc, &book)?, "- - -")?;
    assert!(rt; schedule(&mut book, &mut jobs, &[], true)? == Ok(()));
    assert!(rt; schedule(&mut book, &mut jobs, &[1], false)? == Ok(()));
    assert!(rt; schedule(&mut book, &mut jobs, &[1], false)? == Ok(()));
    same("two readers", &users_of(alloc, &book)?, "1,2,3 1 -")?;
    assert!(rt; schedule(&mut book, &mut jobs, &[2, 3], true)? == Ok(()));
    same("a writer", &users_of(alloc, &book)?, "4 4 -")
}

ghost use Rattle.std.specs.Prelude.{◌≡◌, ℕ, ◌<◌, ◌≤◌, IfOk};
ghost use Rattle.frame_ast.specs.Laws.{AreUpTo};
ghost use Rattle.job_handle.specs.Sets.{jobs_of};
ghost use Rattle.job_handle.specs.Books.{count_of};
ghost use Rattle.auto_deps.specs.Needs.{AreNoted};

use crate::sets::{number, numbers, set, text_of};
use auto_deps::automatic;
use job_base::limits::MOST_JOBS;
use job_base::{Access, JobId, NoMemory};
use job_handle::{Handle, JobBook};
use row_texts::{row, same, table};
use safety_handle::{SafetyBook, Tag};
use slot_store::{Slot, Version};
use std::alloc::Global;
use std::test::Fail;

fn tag(slot: u32) -> Tag {
    Tag {
        slot: Slot(slot),
        version: Version(1),
        view: None,
    }
}

// Three containers that no job uses.
fn containers(alloc: Global) -> Result<SafetyBook, NoMemory>
    ensures { IfOk result (λ book. (n : ℕ) → AreNoted n book) }
{
    let mut book = SafetyBook::new(alloc)?;
    for slot in 0..3u32 {
        book.enroll(Slot(slot), Version(1))?;
    }
    Ok(book)
}

// A job that reads is noted, where nothing blocks it.
fn reads(tag: &Tag, deps: &Handle, j: JobId, book: &mut SafetyBook, jobs: &JobBook) -> bool
    requires deps { AreUpTo (count_of jobs.now) (jobs_of deps.now) }
    requires job { (0 < j.0) × (j.0 ≤ count_of jobs.now) × (j.0 ≤ MOST_JOBS) }
    requires noted { AreNoted (count_of jobs.now) book.old }
    ensures noted { AreNoted (count_of jobs.now) book.new }
{
    let free = book.check_read(tag, deps, jobs).is_ok();
    if free {
        book.note_read(tag.slot, j);
    }
    free
}

// A job that writes is noted, where nothing blocks it.
fn writes(tag: &Tag, deps: &Handle, j: JobId, book: &mut SafetyBook, jobs: &JobBook) -> bool
    requires deps { AreUpTo (count_of jobs.now) (jobs_of deps.now) }
    requires job { (0 < j.0) × (j.0 ≤ count_of jobs.now) × (j.0 ≤ MOST_JOBS) }
    requires noted { AreNoted (count_of jobs.now) book.old }
    ensures noted { AreNoted (count_of jobs.now) book.new }
{
    let free = book.check_write(tag, deps, jobs).is_ok();
    if free {
        book.note_write(tag.slot, j);
    }
    free
}

// A job that waits for its automatic set too. Then nothing blocks a use of it.
fn schedule(
    uses: &[(Tag, Access)],
    after: &Handle,
    book: &mut SafetyBook,
    jobs: &mut JobBook,
) -> Result<Handle, Fail>
    requires after { AreUpTo (count_of jobs.old) (jobs_of after.now) }
    requires noted { AreNoted (count_of jobs.old) book.old }
    ensures noted { AreNoted (count_of jobs.new) book.new }
{
    let answer = automatic(uses, after, book, jobs);
    let deps = after.combine(&answer);
    let j = jobs.add(&deps)?;
    for (tag, access) in uses {
        let free = match access {
            Access::Read => reads(tag, &deps, j, book, jobs),
            Access::Write | Access::Both => writes(tag, &deps, j, book, jobs),
        };
        if !free {
            return Err(Fail::new("a use is blocked"));
        }
    }
    Ok(answer)
}

// The uses of a job, as a row writes them: `read:0,both:2`.
fn uses_of(alloc: Global, row: &str) -> Result<Vec<(Tag, Access)>, Fail> {
    let mut uses = Vec::new(alloc);
    for one in row.split(',') {
        let (access, slot) = one.split_once(':').ok_or("no use")?;
        let access = match access {
            "read" => Access::Read,
            "write" => Access::Write,
            "both" => Access::Both,
            _ => return Err(Fail::new("no such access")),
        };
        uses.push((tag(number(slot)?), access))?;
    }
    Ok(uses)
}

// Schedules a job that waits for these jobs and its automatic set, and gives that.
fn job(
    alloc: Global,
    uses: &str,
    after: &str,
    book: &mut SafetyBook,
    jobs: &mut JobBook,
) -> Result<String, Fail>
    requires noted { AreNoted (count_of jobs.old) book.old }
    ensures noted { AreNoted (count_of jobs.new) book.new }
{
    let uses = uses_of(alloc, uses)?;
    let after = set(jobs, &numbers(alloc, after)?);
    let answer = schedule(&uses, &after, book, jobs)?;
    text_of(alloc, &answer, MOST_JOBS)
}

// A script: the uses of each job and what it waits for, and its automatic set; or a completion.
fn compare(alloc: Global, script: &str) -> Result<(), Fail> {
    let mut jobs = JobBook::new(alloc);
    let mut book = containers(alloc)?;
    for line in table(script)?.lines() {
        if let Some(done) = line.strip_prefix("complete ") {
            let done = set(&jobs, &numbers(alloc, done)?);
            jobs.complete(&done);
        } else if let Some((of, wanted)) = row(line)? {
            let (uses, after) = of.split_once(" after ").ok_or("no set")?;
            let told = job(alloc, uses, after, &mut book, &mut jobs)?;
            same(line, &told, wanted)?;
        }
    }
    Ok(())
}

const TWO_KERNELS_IN_A_ROW: &str = "
read:0,write:1 after - | -
read:1,both:2 after - | 1
complete 2
both:2 after - | -
";

const A_WRITER_TWO_READERS_A_WRITER: &str = "
both:0 after - | -
read:0,both:1 after - | 1
read:0,both:2 after - | 1
both:0 after - | 2,3
both:0 after - | 4
";

const A_BLOCKER_BEFORE_ANOTHER: &str = "
both:0 after - | -
read:0,both:1 after - | 1
both:0,read:1 after - | 2
both:2 after - | -
both:1,read:2 after - | 3,4
";

const WAITED_FOR_AND_COMPLETED: &str = "
both:0 after - | -
both:1 after - | -
read:0,read:1 after 1 | 2
complete 2
read:1 after - | -
";

const READERS: &str = "
read:0 after - | -
read:0 after - | -
read:0 after - | -
write:0 after 2 | 1,3
";

#[test]
fn scripts(rt: HostRuntime) -> Result<(), Fail> {
    let alloc = rt.alloc();
    compare(alloc, TWO_KERNELS_IN_A_ROW)?;
    compare(alloc, A_WRITER_TWO_READERS_A_WRITER)?;
    compare(alloc, A_BLOCKER_BEFORE_ANOTHER)?;
    compare(alloc, WAITED_FOR_AND_COMPLETED)?;
    compare(alloc, READERS)
}

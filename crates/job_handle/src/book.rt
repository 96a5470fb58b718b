// The jobs of a script, each with all that it waits for.
ghost use Rattle.std.specs.Prelude.{◌≡◌, ℕ, ◌+◌, ◌<◌, ◌≤◌, ◌↔◌, IfOk, IfSome, OnOk, OnErr, Err, is_ok, if◌then◌else◌, vec_len, true};
ghost use Rattle.job_base.specs.declared.limits.TheConstants.{MOST_JOBS};
ghost use Rattle.frame_ast.specs.Jobs.{nobody};
ghost use Rattle.job_handle.specs.Sets.{HaveOwnJobs, jobs_of};
ghost use Rattle.job_handle.specs.declared.book.BookFault.TheVariants.{Full};

use crate::handle::Handle;
use job_base::JobId;
use job_base::limits::MOST_JOBS;
use std::alloc::Global;

/// Why a book doesn't take another job.
#[derive(Clone, Copy, Debug, PartialEq, Eq)]
pub enum BookFault {
    /// It has [`MOST_JOBS`] jobs.
    Full,
    /// There is no memory for the row of another one.
    NoMemory,
}

/// The jobs that were scheduled, with the dependency set of each, and those that the script thread has completed.
///
/// It keeps a row for each job: the job and all its ancestors. So one test of a bit answers whether a job waits for
/// another, and the row of a new job is a union of rows.
#[derive(Drop)]
pub struct JobBook {
    // Row j - 1 is that of job j.
    rows: Vec<Handle>,
    completed: Handle,
    // The set without jobs, of which no more than one is ever made: that clears 528 bytes.
    none: Handle,
    ghost nobody: { jobs_of none ≡ nobody },
    ghost own: { HaveOwnJobs (vec_len rows) rows.items },
    ghost few: { vec_len rows ≤ MOST_JOBS },
}

impl JobBook {
    ghost use Rattle.frame_ast.specs.Jobs.{Book, empty_book, ancestors_in, happens_before, with_job, with_completed};
    ghost use Rattle.frame_ast.specs.Laws.{AreUpTo};
    ghost use Rattle.job_handle.specs.Sets.{jobs_of, outside, IsNext};
    ghost use Rattle.job_handle.specs.Books.{count_of, StandsFor};

    /// No job. Memory is taken as jobs come.
    pub fn new(alloc: Global) -> JobBook
        ensures { StandsFor result empty_book }
    {
        JobBook {
            rows: Vec::new(alloc),
            completed: Handle::empty(),
            none: Handle::empty(),
        }
    }

    /// How many jobs there are, at most [`MOST_JOBS`].
    pub fn count(&self) -> u32
        ensures count { result ≡ count_of self.now }
        ensures few { result ≤ MOST_JOBS }
    {
        self.rows.len() as u32
    }

    /// One more job, which waits for the jobs of `deps`. It has the next number.
    pub fn add(&mut self, deps: &Handle) -> Result<JobId, BookFault>
        requires { AreUpTo (count_of self.old) (jobs_of deps.now) }
        ensures full { (result ≡ Err Full) ↔ (count_of self.old ≡ MOST_JOBS) }
        ensures number { IfOk result (λ j. j.0 ≡ count_of self.old + 1) }
        ensures few { IfOk result (λ j. j.0 ≤ MOST_JOBS) }
        ensures count { count_of self.new ≡ (if is_ok result then count_of self.old + 1 else count_of self.old) }
        ensures book { OnOk result ((b : Book) → StandsFor self.old b
            → StandsFor self.new (with_job b (jobs_of deps.now))) }
        ensures same { OnErr result ((b : Book) → StandsFor self.old b → StandsFor self.new b) }
    {
        if self.rows.len() >= MOST_JOBS as usize {
            return Err(BookFault::Full);
        }
        let j = JobId(self.count() + 1);
        let mut row = Handle::empty();
        self.set_to_closure(&mut row, deps);
        row.insert(j);
        match self.rows.push(row) {
            Ok(()) => Ok(j),
            Err(_) => Err(BookFault::NoMemory),
        }
    }

    /// The jobs of `h` and their ancestors become completed.
    ///
    /// <https://docs.unity3d.com/ScriptReference/Unity.Jobs.JobHandle.Complete.html>
    pub fn complete(&mut self, h: &Handle)
        requires { AreUpTo (count_of self.old) (jobs_of h.now) }
        ensures count { count_of self.new ≡ count_of self.old }
        ensures book { (b : Book) → StandsFor self.old b → StandsFor self.new (with_completed b (jobs_of h.now)) }
    {
        let mut all = Handle::empty();
        self.set_to_closure(&mut all, h);
        self.completed.add_all(&all);
    }

    /// The set without jobs, for who waits for none.
    pub fn nobody(&self) -> &Handle
        ensures { jobs_of result.now ≡ nobody }
    {
        &self.none
    }

    /// The jobs that were completed.
    pub fn completed(&self) -> &Handle
        ensures { (b : Book) → StandsFor self.now b → (j : ℕ) → jobs_of result.now j ≡ b.completed j }
    {
        &self.completed
    }

    /// Whether a job of the book was completed.
    pub fn is_completed(&self, j: JobId) -> bool
        requires { (0 < j.0) × (j.0 ≤ count_of self.now) }
        ensures { (b : Book) → StandsFor self.now b → result ≡ b.completed j.0 }
    {
        self.completed.has(j)
    }

    /// The least job of the book after job `from` that is in `h` and wasn't completed, or none.
    pub fn next_open(&self, h: &Handle, from: u32) -> Option<JobId>
        ensures within { IfSome result (λ j. (from < j.0) × (j.0 ≤ count_of self.now)) }
        ensures next { (b : Book) → StandsFor self.now b
            → IsNext (outside (jobs_of h.now) b.completed) from (count_of self.now) result }
    {
        h.next_outside(&self.completed, from, self.count())
    }

    /// Whether a job of the book is in `h`, or an ancestor of a job of it.
    pub fn depends(&self, h: &Handle, j: JobId) -> bool
        requires jobs { AreUpTo (count_of self.now) (jobs_of h.now) }
        requires job { (0 < j.0) × (j.0 ≤ count_of self.now) }
        ensures { (b : Book) → StandsFor self.now b → result ≡ ancestors_in b (jobs_of h.now) j.0 }
    {
        self.is_in_closure(h, j)
    }

    /// The jobs of `h` and all their ancestors. For a statement, make it once.
    pub fn closure(&self, h: &Handle) -> Handle
        requires { AreUpTo (count_of self.now) (jobs_of h.now) }
        ensures all { (b : Book) → StandsFor self.now b → (k : ℕ)
            → jobs_of result k ≡ ancestors_in b (jobs_of h.now) k }
        ensures own { (k : ℕ) → jobs_of h.now k ≡ true → jobs_of result k ≡ true }
    {
        let mut all = Handle::empty();
        self.set_to_closure(&mut all, h);
        all
    }

    /// `closure` in place: a set gets the jobs of `h` and all their ancestors, and no others.
    pub fn set_to_closure(&self, all: &mut Handle, h: &Handle)
        requires { AreUpTo (count_of self.now) (jobs_of h.now) }
        ensures all { (b : Book) → StandsFor self.now b → (k : ℕ)
            → jobs_of all.new k ≡ ancestors_in b (jobs_of h.now) k }
        ensures own { (k : ℕ) → jobs_of h.now k ≡ true → jobs_of all.new k ≡ true }
    {
        // From the newest job down: a row that is taken brings all that it leads to, so a job that is there already
        // adds nothing, and neither does a whole word of them. A job that waits for all earlier ones then takes few
        // rows.
        all.clear();
        let mut left = self.count();
        while let Some(j) = h.latest_up_to(all, left) {
            all.add_all(&self.rows[j.0 as usize - 1]);
            left = j.0 - 1;
        }
    }

    /// Whether a job, 1 to [`MOST_JOBS`], happens before a statement that waits for `after`. Where it was completed or
    /// is one of `after` itself, two tests say so.
    pub fn is_before(&self, after: &Handle, j: JobId) -> bool
        requires jobs { AreUpTo (count_of self.now) (jobs_of after.now) }
        requires job { (0 < j.0) × (j.0 ≤ MOST_JOBS) }
        ensures { (b : Book) → StandsFor self.now b → result ≡ happens_before b (jobs_of after.now) j.0 }
    {
        self.completed.has(j) || after.has(j) || self.is_in_closure(after, j)
    }

    // Whether a job, 1 to `MOST_JOBS`, is in a set or an ancestor of a job of it. Inlined, it would clear a set also
    // where its callers need none.
    #[inline(never)]
    fn is_in_closure(&self, h: &Handle, j: JobId) -> bool
        requires jobs { AreUpTo (count_of self.now) (jobs_of h.now) }
        requires job { (0 < j.0) × (j.0 ≤ MOST_JOBS) }
        ensures { (b : Book) → StandsFor self.now b → result ≡ ancestors_in b (jobs_of h.now) j.0 }
    {
        let mut all = Handle::empty();
        self.set_to_closure(&mut all, h);
        all.has(j)
    }

    /// What happens before a statement that waits for `after`: what was completed, and `after` with its ancestors.
    pub fn before(&self, after: &Handle) -> Handle
        requires { AreUpTo (count_of self.now) (jobs_of after.now) }
        ensures { (b : Book) → StandsFor self.now b → (k : ℕ)
            → jobs_of result k ≡ happens_before b (jobs_of after.now) k }
    {
        let mut all = Handle::empty();
        self.set_to_closure(&mut all, after);
        all.add_all(&self.completed);
        all
    }
}

// A set of jobs in a fixed array.
ghost use Rattle.std.specs.Prelude.{◌≡◌, ℕ, ◌<◌, ◌≤◌, ◌+◌, ◌-◌, ◌*◌, ◌/◌, ◌&&◌, not, false, nat_eq, Some, IfSome, IfNone};
ghost use Rattle.std.specs.Int.{bit_at};
ghost use Rattle.frame_ast.specs.Jobs.{nobody, only, both, greatest};
ghost use Rattle.frame_ast.specs.Laws.{AreUpTo};
ghost use Rattle.job_handle.specs.Extent.{AreWithin};

use job_base::JobId;
use job_base::limits::MOST_JOBS;

// The jobs of a word, a bit for each.
const WORD_JOBS: usize = 64;

// The words of a handle.
const WORDS: usize = 64;

/// A set of jobs, each of them 1 to [`MOST_JOBS`]. Unity's handle stands for a job; this one, like one that was
/// combined, for several.
///
/// <https://docs.unity3d.com/ScriptReference/Unity.Jobs.JobHandle.html>
#[derive(Clone, Copy)]
pub struct Handle {
    // Job j is bit (j - 1) % WORD_JOBS of word (j - 1) / WORD_JOBS.
    words: [u64; WORDS],
    // The words with jobs lie from `low` up to before `high`, so a set of few jobs is gone through in few steps.
    low: usize,
    high: usize,
    ghost few: { (low ≤ 64) × (high ≤ 64) },
    ghost within: { AreWithin words low high },
}

impl Handle {
    ghost use Rattle.job_handle.specs.Sets.{jobs_of, outside, job_numbered, IsLast, IsNext};

    /// No job: the default handle.
    pub fn empty() -> Handle
        ensures { jobs_of result ≡ nobody }
    {
        Handle {
            words: [0; WORDS],
            low: WORDS,
            high: 0,
        }
    }

    /// One job, 1 to [`MOST_JOBS`].
    pub fn of(j: JobId) -> Handle
        requires { (0 < j.0) × (j.0 ≤ MOST_JOBS) }
        ensures { jobs_of result ≡ only j.0 }
    {
        let mut words = [0; WORDS];
        let at = (j.0 - 1) as usize;
        words[at / WORD_JOBS] = 1u64 << (at % WORD_JOBS);
        Handle {
            words,
            low: at / WORD_JOBS,
            high: at / WORD_JOBS + 1,
        }
    }

    /// Whether a job, 1 to [`MOST_JOBS`], is in the set.
    pub fn has(&self, j: JobId) -> bool
        requires { (0 < j.0) × (j.0 ≤ MOST_JOBS) }
        ensures { result ≡ jobs_of self.now j.0 }
    {
        let at = (j.0 - 1) as usize;
        (self.words[at / WORD_JOBS] >> (at % WORD_JOBS)) & 1 == 1
    }

    /// The union: the jobs of both.
    ///
    /// <https://docs.unity3d.com/ScriptReference/Unity.Jobs.JobHandle.CombineDependencies.html>
    pub fn combine(&self, other: &Handle) -> Handle
        ensures { jobs_of result ≡ both (jobs_of self.now) (jobs_of other.now) }
    {
        let mut all = *self;
        all.add_all(other);
        all
    }

    /// The jobs of another set are added: `combine` in place, without a copy of 512 bytes.
    pub fn add_all(&mut self, other: &Handle)
        ensures { jobs_of self.new ≡ both (jobs_of self.old) (jobs_of other.now) }
    {
        self.low = self.low.min(other.low);
        self.high = self.high.max(other.high);
        for i in other.low..other.high {
            self.words[i] |= other.words[i];
        }
    }

    /// No job is left. Like what follows it costs a step for each word that may have jobs, and not for all.
    pub fn clear(&mut self)
        ensures { jobs_of self.new ≡ nobody }
    {
        for i in self.low..self.high {
            self.words[i] = 0;
        }
        self.low = WORDS;
        self.high = 0;
    }

    /// It has the jobs of another set and no others: an assignment without a copy of 528 bytes.
    pub fn set_to(&mut self, other: &Handle)
        ensures { jobs_of self.new ≡ jobs_of other.now }
    {
        self.clear();
        self.add_all(other);
    }

    /// It has one job, 1 to [`MOST_JOBS`], and no other.
    pub fn set_to_job(&mut self, j: JobId)
        requires { (0 < j.0) × (j.0 ≤ MOST_JOBS) }
        ensures { jobs_of self.new ≡ only j.0 }
    {
        self.clear();
        self.insert(j);
    }

    /// A job, 1 to [`MOST_JOBS`], is added.
    pub fn insert(&mut self, j: JobId)
        requires { (0 < j.0) × (j.0 ≤ MOST_JOBS) }
        ensures { jobs_of self.new ≡ both (jobs_of self.old) (only j.0) }
    {
        let at = (j.0 - 1) as usize;
        let word = at / WORD_JOBS;
        self.low = self.low.min(word);
        self.high = self.high.max(word + 1);
        self.words[word] |= 1u64 << (at % WORD_JOBS);
    }

    /// The greatest job that is in this set and not in another one, or none.
    pub fn latest_outside(&self, other: &Handle) -> Option<JobId>
        ensures { (n : ℕ) → AreUpTo n (jobs_of self.now)
            → result ≡ job_numbered (greatest (outside (jobs_of self.now) (jobs_of other.now)) n) }
    {
        self.latest_up_to(other, MOST_JOBS)
    }

    /// The greatest job up to job `to` that is in this set and not in another one, or none. It costs
    /// a step for each word of this set that may have some.
    pub(crate) fn latest_up_to(&self, other: &Handle, to: u32) -> Option<JobId>
        requires { to ≤ MOST_JOBS }
        ensures { IsLast (outside (jobs_of self.now) (jobs_of other.now)) to result }
    {
        let first = (self.low * WORD_JOBS) as u32;
        let mut left = to.min((self.high * WORD_JOBS) as u32);
        while left > first {
            if let Some(j) = self.latest_in_word(other, left) {
                return Some(j);
            }
            left = ((left as usize - 1) / WORD_JOBS * WORD_JOBS) as u32;
        }
        None
    }

    /// The least job after job `from` and up to job `to` that is in this set and not in another one, or none. It costs
    /// a step for each word of this set that may have some.
    pub fn next_outside(&self, other: &Handle, from: u32, to: u32) -> Option<JobId>
        requires { to ≤ MOST_JOBS }
        ensures { IsNext (outside (jobs_of self.now) (jobs_of other.now)) from to result }
    {
        let last = to.min((self.high * WORD_JOBS) as u32);
        let mut at = from.max((self.low * WORD_JOBS) as u32);
        while at < last {
            if let Some(j) = self.next_in_word(other, at) {
                return if j.0 <= to { Some(j) } else { None };
            }
            at = ((at as usize / WORD_JOBS + 1) * WORD_JOBS) as u32;
        }
        None
    }

    // `latest_up_to` among the jobs of one word: that of job `to`.
    fn latest_in_word(&self, other: &Handle, to: u32) -> Option<JobId>
        requires { (0 < to) × (to ≤ MOST_JOBS) }
        ensures some { IfSome result (λ j. IsLast (outside (jobs_of self.now) (jobs_of other.now)) to (Some j)) }
        ensures none { IfNone result ((k : ℕ) → WORD_JOBS * ((to - 1) / WORD_JOBS) < k → k ≤ to
            → outside (jobs_of self.now) (jobs_of other.now) k ≡ false) }
    {
        let at = to as usize - 1;
        let word = at / WORD_JOBS;
        let all = self.word_outside(other, word);
        // Most words have none. They are passed by before a mask is made.
        if all == 0 {
            return None;
        }
        let bits = all & (u64::MAX >> (WORD_JOBS - 1 - at % WORD_JOBS));
        if bits == 0 {
            return None;
        }
        Some(JobId((word * WORD_JOBS) as u32 + highest(bits) + 1))
    }

    // `next_outside` among the jobs of one word: that of job `from` + 1.
    fn next_in_word(&self, other: &Handle, from: u32) -> Option<JobId>
        requires { from < MOST_JOBS }
        ensures some { IfSome result (λ j. IsNext (outside (jobs_of self.now) (jobs_of other.now)) from j.0 (Some j)) }
        ensures none { IfNone result ((k : ℕ) → from < k → k ≤ WORD_JOBS * (from / WORD_JOBS) + WORD_JOBS
            → outside (jobs_of self.now) (jobs_of other.now) k ≡ false) }
    {
        let at = from as usize;
        let word = at / WORD_JOBS;
        let all = self.word_outside(other, word);
        if all == 0 {
            return None;
        }
        let bits = all & (u64::MAX << (at % WORD_JOBS));
        if bits == 0 {
            return None;
        }
        Some(JobId((word * WORD_JOBS) as u32 + bits.trailing_zeros() + 1))
    }

    // The jobs of word `at` that are in this set and not in another one, a bit for each.
    fn word_outside(&self, other: &Handle, at: usize) -> u64
        requires { at < WORDS }
        ensures { (i : ℕ) → i < WORD_JOBS → nat_eq (bit_at result i) 1
            ≡ outside (jobs_of self.now) (jobs_of other.now) (WORD_JOBS * at + i + 1) }
    {
        bits_without(self.words[at], other.words[at])
    }
}

// The bits of a word that another one hasn't.
fn bits_without(bits: u64, others: u64) -> u64
    ensures { (i : ℕ) → i < WORD_JOBS → nat_eq (bit_at result i) 1
        ≡ (nat_eq (bit_at bits i) 1 && not (nat_eq (bit_at others i) 1)) }
{
    bits & !others
}

// The place of the highest bit that is set.
fn highest(bits: u64) -> u32
    requires { 0 < bits }
    ensures { (result < WORD_JOBS) × (bit_at bits result ≡ 1) × ((i : ℕ) → result < i → bit_at bits i ≡ 0) }
{
    u64::BITS - 1 - bits.leading_zeros()
}

//! What a board keeps of its plan.
ghost use Rattle.std.specs.Prelude.{◌≡◌, ◌+◌, ◌<◌, ◌^◌, ℕ, suc, true, length, slice_index, IfSome};
ghost use Rattle.frame_core.specs.Names.{job_pieces};
ghost use Rattle.frame_core.specs.Know.{due_after, due_once, piece_count};
ghost use Rattle.lock_board.specs.Rooms.{HasRoom};
ghost use Rattle.lock_board.specs.Started.{started_by};
ghost use Rattle.lock_board.specs.Layouts.{AreFollowers, AreEnds, AreJobNumbers, AreSpans, AreStarts, AreWaits, AreWithin, NameJobs, ReadsWithin, StartJobs};

use crate::followers::{add_all, can_add};
use frame_core::{PlanName, Touch};
use job_base::JobId;
use std::marker::PhantomData;

/// What a board keeps of its plan, as tables. A board outlives the borrow of its plan, and its calls know of the plan
/// what these say.
#[derive(Drop)]
pub struct Layout<K: PlanName> {
    /// How many cells there are.
    pub(crate) words: u32,
    /// How many pieces the jobs have together.
    pub(crate) parts: u32,
    /// Where the pieces of the first jobs end: one entry more than there are jobs.
    pub(crate) ends: Vec<u32>,
    /// The number of the job of each piece of a job.
    pub(crate) jobs: Vec<u32>,
    /// What each piece touches, in few spans.
    pub(crate) spans: Vec<Vec<Touch>>,
    /// How many cells a seat has room for.
    pub(crate) room: usize,
    /// Of each job those that depend on it.
    pub(crate) followers: Vec<Vec<JobId>>,
    pub(crate) waits: Vec<Vec<JobId>>,
    pub(crate) starts: Vec<Option<JobId>>,
    pub(crate) of: PhantomData<K>,
    pub(crate) ghost words_are: { words ≡ K.plan.words },
    pub(crate) ghost parts_are: { parts ≡ job_pieces K.plan },
    pub(crate) ghost end_count: { length ends.items ≡ length K.plan.jobs.items + 1 },
    pub(crate) ghost ends_are: { AreEnds K.plan ends.items },
    pub(crate) ghost job_count: { length jobs.items ≡ job_pieces K.plan },
    pub(crate) ghost jobs_are: { AreJobNumbers K.plan jobs.items },
    pub(crate) ghost span_count: { length spans.items ≡ piece_count K.plan },
    pub(crate) ghost spans_are: { AreSpans K.plan spans.items },
    pub(crate) ghost within: { AreWithin K.plan spans.items },
    pub(crate) ghost room_is: { HasRoom K.plan room },
    pub(crate) ghost follower_count: { length followers.items ≡ length K.plan.jobs.items },
    pub(crate) ghost followers_are: { AreFollowers K.plan followers.items },
    pub(crate) ghost wait_count: { length waits.items ≡ length K.plan.segments.items },
    pub(crate) ghost waits_are: { AreWaits K.plan waits.items },
    pub(crate) ghost waits_name: { NameJobs K.plan waits.items },
    pub(crate) ghost start_count: { length starts.items ≡ length K.plan.segments.items },
    pub(crate) ghost starts_are: { AreStarts K.plan starts.items },
    pub(crate) ghost reads_within: { ReadsWithin K.plan },
    pub(crate) ghost starts_name: { StartJobs K.plan starts.items },
}

/// Whether one more duty on a job that is started can be noted.
pub(crate) fn can_add_due(dues: &[u32], started: Option<JobId>) -> bool
    requires job { IfSome started (λ id. (0 < id.0) × (id.0 < length dues.now + 1)) }

    ensures { result ≡ true → (j : ℕ) → j < length dues.now → 0 < due_once started (suc j)
        → slice_index dues.now j + 1 < 2 ^ 32 }
{
    match started {
        None => true,
        Some(id) => dues[(id.0 - 1) as usize] < u32::MAX,
    }
}

/// Adds a duty on a job that is started, by the places of jobs.
pub(crate) fn add_due(dues: &mut [u32], started: Option<JobId>)
    requires job { IfSome started (λ id. (0 < id.0) × (id.0 < length dues.old + 1)) }
    requires fits { (j : ℕ) → j < length dues.old → 0 < due_once started (suc j)
        → slice_index dues.old j + 1 < 2 ^ 32 }

    ensures { (j : ℕ) → slice_index dues.new j ≡ slice_index dues.old j + due_once started (suc j) }
{
    match started {
        None => {}
        Some(id) => dues[(id.0 - 1) as usize] += 1,
    }
}

impl<K: PlanName> Layout<K> {
    /// The job that a piece starts, where it is a segment that starts one.
    pub(crate) fn started_by(&self, p: u32) -> Option<JobId>
        requires piece { p < piece_count K.plan }

        ensures job { IfSome result (λ id. (0 < id.0) × (id.0 < length K.plan.jobs.items + 1)) }
        ensures started { (j : ℕ) → due_once result j ≡ started_by K.plan p j }
    {
        if p < self.parts {
            None
        } else {
            self.starts[(p - self.parts) as usize]
        }
    }

    /// Whether one more duty on each job that depends on the job of that number can be noted.
    pub(crate) fn can_add_dues(&self, job: u32, dues: &[u32]) -> bool
        requires job { (0 < job) × (job < length K.plan.jobs.items + 1) }
        requires size { length dues.now ≡ length K.plan.jobs.items }

        ensures { result ≡ true → (d : ℕ) → d < length dues.now → 0 < due_after K.plan job (suc d)
            → slice_index dues.now d + 1 < 2 ^ 32 }
    {
        can_add(dues, &self.followers[(job - 1) as usize])
    }

    /// Adds a duty on each job that depends on the job of that number, by the places of jobs.
    pub(crate) fn add_dues(&self, job: u32, dues: &mut [u32])
        requires job { (0 < job) × (job < length K.plan.jobs.items + 1) }
        requires size { length dues.old ≡ length K.plan.jobs.items }
        requires fits { (d : ℕ) → d < length dues.old → 0 < due_after K.plan job (suc d)
            → slice_index dues.old d + 1 < 2 ^ 32 }

        ensures dues { (d : ℕ) → d < length dues.old
            → slice_index dues.new d ≡ slice_index dues.old d + due_after K.plan job (suc d) }
    {
        add_all(dues, &self.followers[(job - 1) as usize]);
    }
}

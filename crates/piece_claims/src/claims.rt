// Which pieces of a job were given out.
ghost use Rattle.std.specs.Prelude.{◌≡◌, ℕ, ◌+◌, ◌<◌, ◌≤◌, ◌-◌, true, length, IfOk, IfErr};
ghost use Rattle.frame_core.specs.Names.{job_pieces};
ghost use Rattle.frame_core.specs.Know.{is_of};
ghost use Rattle.frame_core.specs.Ordered.{IsWellOrderedPlan};

use crate::view::{Claiming, Looking, Ruled, View};
use atomic_table::{Seat, Table};
use frame_core::{JobPlan, Plan};
use job_base::{JobId, NoMemory, PieceId};
use std::alloc::Global;

/// What shows that a piece was given, and to whom. It has no bytes.
pub type Token = Seat<u8, View>;

/// How many indexes a small piece has at most. What a claim costs counts only where pieces are small.
const SMALL_PIECE: u32 = 64;

/// How many instructions of kernels are little work: some 10 µs. To share so little costs more than it gains, since
/// each worker that comes to a job fetches the words of the job and of its pieces from the others.
const LITTLE_WORK: u64 = 2048;

/// For each job how many of its pieces were given out. So each piece is given to one worker, the first ones first.
#[derive(Drop)]
pub struct Claims {
    pub table: Table<u8, View, usize, Ruled, Global>,
    /// How many workers share the pieces.
    pub workers: u32,
    pub ghost size: { table.shared.table_id.words ≡ table.shared.key },
    pub ghost some: { 0 < workers },
}

/// Pieces of a job that nobody else has, one after another, and whether the job has more of them. They can't be
/// dropped: pieces that were given come to where they are run.
pub struct Claimed {
    /// The first of them.
    pub piece: PieceId,
    /// The place of their job among the plan's jobs, and which of the job's pieces the first one is, both from 0.
    pub job: u32,
    pub place: u32,
    /// How many there are, one at least.
    pub count: u32,
    pub more: bool,
    pub token: Token,
}

// Places of a job that nobody else has.
struct Places {
    first: u64,
    count: u64,
    token: Token,
}

/// Why no piece of a job is given.
#[derive(Drop)]
pub enum Spent {
    /// The number is that of no job.
    NoJob,
    /// All pieces of the job were given out before, as the token saw.
    AllGiven(Token),
}

// How many pieces of a job are claimed at once, where a worker takes so many at most: one, where they are large.
fn most_of(entry: &JobPlan, most: u32) -> u64
    requires some { 0 < most }
    ensures some { 0 < result }
{
    if entry.cut.step > SMALL_PIECE {
        1
    } else {
        u64::from(most)
    }
}

// How many pieces of a job are little work together. An index may be much work where its kernel has a loop.
fn little_of(plan: &Plan, entry: &JobPlan) -> u64 {
    let Some(code) = plan.codes.get(entry.kernel as usize) else {
        return 0;
    };
    if !code.blocks.is_empty() {
        return 0;
    }
    let work = u64::from(entry.cut.step).saturating_mul(code.body.len() as u64);
    LITTLE_WORK / work.max(1)
}

impl Claims {
    ghost use Rattle.piece_claims.specs.Claims.{AreClaimsOf, HasPlaces, IsOwn, IsSpent, SawAll};

    /// Nothing was given out to these workers.
    pub fn of_plan(alloc: Global, plan: &Plan, workers: u32) -> Result<Claims, NoMemory>
        requires some { 0 < workers }
        ensures { IfOk result (AreClaimsOf plan.now) }
    {
        let jobs = plan.jobs.len();
        let counts = vec![in alloc; 0u64; jobs]?;
        let (table, _token) = Table::of_words(alloc, counts.as_slice(), &jobs)?;
        Ok(Claims { table, workers })
    }

    // How many of the places that are left of a job are claimed at once: all, where they are little work. Else it is
    // some half of a worker's share of them, so that what is left evens out what the workers get; a single one leaves
    // none for others.
    fn share_of(&self, left: u64, most: u64, little: u64) -> u64
        requires left { 0 < left }
        requires most { 0 < most }
        ensures some { 0 < result }
        ensures within { result ≤ left }
    {
        if left <= little {
            return left;
        }
        (left / (2 * u64::from(self.workers) - 1)).min(most).max(1)
    }

    // The next places of the job at that index, which has so many. It looks once, and then tries again only where
    // another worker was given places meanwhile.
    fn next_places(&self, job: usize, count: u64, most: u64, little: u64) -> Result<Places, Token>
        requires job { job < self.now.table.shared.key }
        requires most { 0 < most }
        ensures given { IfOk result (λ r. HasPlaces self.now job r.first r.count r.token) }
        ensures some { IfOk result (λ r. 0 < r.count) }
        ensures low { IfOk result (λ r. r.first + r.count ≤ count) }
        ensures none { IfErr result (SawAll self.now job count) }
    {
        let counts = &self.table.shared;
        let (mut place, mut token) = counts.load_new_seat::<Looking>(job);
        while place < count {
            let taken = self.share_of(count - place, most, little);
            let found = counts.compare_exchange::<Claiming>(&mut token, job, place, place + taken);
            if found == place {
                return Ok(Places {
                    first: place,
                    count: taken,
                    token,
                });
            }
            place = found;
        }
        Err(token)
    }

    /// The next pieces of a job, if some are left: one, where a worker takes no more at once, and else no more than
    /// that, or than are little work.
    pub fn next(&self, plan: &Plan, job: JobId, most: u32) -> Result<Claimed, Spent>
        requires well { IsWellOrderedPlan plan.now }
        requires claims { AreClaimsOf plan.now self.now }
        requires most { 0 < most }
        ensures own { IfOk result (IsOwn plan.now self.now) }
        ensures job { IfOk result (λ claimed. claimed.job ≡ job.0 - 1) }
        ensures of_job { IfOk result (λ claimed. (k : ℕ) → k < claimed.count
            → is_of plan.now job.0 (claimed.piece.0 + k) ≡ true) }
        ensures pieces { IfOk result (λ claimed. claimed.piece.0 + claimed.count ≤ job_pieces plan.now) }
        ensures spent { IfErr result (IsSpent plan.now self.now job) }
    {
        if job.0 == 0 || job.0 as usize > plan.jobs.len() {
            return Err(Spent::NoJob);
        }
        let index = job.0 as usize - 1;
        let entry = &plan.jobs[index];
        let count = u64::from(entry.pieces());
        let little = if most > 1 && count > 1 {
            little_of(plan, entry)
        } else {
            0
        };
        match self.next_places(index, count, most_of(entry, most), little) {
            Ok(places) => {
                let Places {
                    first,
                    count: taken,
                    token,
                } = places;
                Ok(Claimed {
                    piece: PieceId(entry.first.0 + first as u32),
                    job: job.0 - 1,
                    place: first as u32,
                    count: taken as u32,
                    more: first + taken < count,
                    token,
                })
            }
            Err(token) => Err(Spent::AllGiven(token)),
        }
    }
}

ghost use Rattle.std.specs.Prelude.{◌≡◌, ℕ, ◌≤◌};
ghost use Rattle.frame_ast.specs.Laws.{AreUpTo};
ghost use Rattle.job_handle.specs.Sets.{jobs_of};
ghost use Rattle.job_handle.specs.Books.{count_of};
ghost use Rattle.slot_store.specs.Places.{users_of};
ghost use Rattle.slot_store.specs.Stores.{place_of, slots_in_use};

use crate::sets::{number, numbers, set};
use job_base::{JobId, Span};
use job_handle::{Handle, JobBook};
use row_texts::{row, same, table};
use slot_store::{SlotStore, StoreFault, Taken};
use std::alloc::Global;
use std::process::Abort;
use std::test::Fail;

// A call. Ranges go by the order in which they were taken, from 0.
#[derive(Drop)]
enum Call {
    // so many words
    Take(u32),
    // which range gets so many words
    Regrow(usize, u32),
    Give(usize),
    // which range is held, and for which jobs
    Hold(usize, Vec<u32>),
    Complete(Vec<u32>),
    Settle,
    // which range is asked for, by its slot and version
    Live(usize),
    Words,
}

// A call as a row writes it.
fn call_of(alloc: Global, row: &str) -> Result<Call, Fail> {
    let words: Vec<&str> = row.split_whitespace().collect(alloc)?;
    match *words {
        ["take", len] => Ok(Call::Take(number(len)?)),
        ["regrow", i, len] => Ok(Call::Regrow(number(i)? as usize, number(len)?)),
        ["give", i] => Ok(Call::Give(number(i)? as usize)),
        ["hold", i, jobs] => Ok(Call::Hold(number(i)? as usize, numbers(alloc, jobs)?)),
        ["complete", jobs] => Ok(Call::Complete(numbers(alloc, jobs)?)),
        ["settle"] => Ok(Call::Settle),
        ["live", i] => Ok(Call::Live(number(i)? as usize)),
        ["words"] => Ok(Call::Words),
        _ => Err(Fail::new("no such call")),
    }
}

// The jobs of each store.
const JOBS: u32 = 4;

// A store, the jobs that its ranges can be held for, and what was taken so far. A count of takes bounds the slots.
#[derive(Drop)]
struct Run {
    store: SlotStore,
    book: JobBook,
    taken: Vec<Taken>,
    takes: u32,
    ghost known: { (s : ℕ) → AreUpTo (count_of book) (users_of (place_of store s).state) },
    ghost few: { slots_in_use store ≤ takes },
}

impl Run {
    fn new(alloc: Global) -> Result<Run, Fail> {
        let mut book = JobBook::new(alloc);
        for _ in 0..JOBS {
            book.add(&Handle::empty())?;
        }
        Ok(Run {
            store: SlotStore::new(alloc)?,
            book,
            taken: Vec::new(alloc),
            takes: 0,
        })
    }

    fn take(&mut self, len: u32, rt: &impl Abort) -> Result<Taken, StoreFault> {
        assert!(rt;
            self.takes < 100_000 && self.store.peak() < 1_000_000_000 && len < 1_000_000_000
        );
        self.takes += 1;
        self.store.take(len)
    }

    // The range that was taken as number `i`.
    fn named(&self, i: usize, rt: &impl Abort) -> Taken {
        assert!(rt; i < self.taken.len());
        self.taken[i]
    }

    fn regrow(&mut self, t: Taken, len: u32, rt: &impl Abort) -> Result<Span, StoreFault> {
        assert!(rt; self.store.live(t.slot, t.version));
        assert!(rt; self.store.peak() < 1_000_000_000 && len < 1_000_000_000);
        self.store.regrow(t.slot, len)
    }

    fn give(&mut self, t: Taken, rt: &impl Abort) {
        assert!(rt; self.store.live(t.slot, t.version) && t.version.0 < 1_000_000);
        self.store.give(t.slot);
    }

    fn hold(&mut self, t: Taken, jobs: &[u32], rt: &impl Abort) {
        assert!(rt; self.store.live(t.slot, t.version) && t.version.0 < 1_000_000);
        let users = set(&self.book, jobs);
        self.store.hold(t.slot, &users);
    }

    fn complete(&mut self, jobs: &[u32]) {
        let done = set(&self.book, jobs);
        self.book.complete(&done);
    }

    // Takes a range, and says its slot, its version and its start.
    fn tell_taken(&mut self, alloc: Global, len: u32, rt: &impl Abort) -> Result<String, Fail> {
        match self.take(len, rt) {
            Ok(taken) => {
                assert!(rt; taken.span.len == len);
                self.taken.push(taken)?;
                let (slot, version) = (taken.slot.0, taken.version.0);
                Ok(format!(in alloc; "{slot} {version} {}", taken.span.start)?)
            }
            Err(StoreFault::Full) => Ok(String::from_str(alloc, "full")?),
            Err(StoreFault::NoMemory) => Err(Fail::new("no memory")),
        }
    }

    // Makes a call, and says what it answers: of a regrown range its start and its length, of the words how many are
    // live and the greatest end of any range so far.
    fn perform(&mut self, alloc: Global, call: &Call, rt: &impl Abort) -> Result<String, Fail> {
        match call {
            Call::Take(len) => return self.tell_taken(alloc, *len, rt),
            Call::Regrow(i, len) => {
                let span = self.regrow(self.named(*i, rt), *len, rt)?;
                return Ok(format!(in alloc; "{} {}", span.start, span.len)?);
            }
            Call::Give(i) => self.give(self.named(*i, rt), rt),
            Call::Hold(i, jobs) => self.hold(self.named(*i, rt), jobs, rt),
            Call::Complete(jobs) => self.complete(jobs),
            Call::Settle => self.store.settle(&self.book),
            Call::Live(i) => {
                let t = self.named(*i, rt);
                let live = self.store.live(t.slot, t.version);
                return Ok(format!(in alloc; "{live}")?);
            }
            Call::Words => {
                let (live, peak) = (self.store.live_words(), self.store.peak());
                return Ok(format!(in alloc; "{live} {peak}")?);
            }
        }
        Ok(String::from_str(alloc, "done")?)
    }
}

// Calls on a new store.
fn compare(rt: &impl Abort, alloc: Global, rows: &str) -> Result<(), Fail> {
    let mut run = Run::new(alloc)?;
    for line in table(rows)?.lines() {
        if let Some((call, wanted)) = row(line)? {
            let told = run.perform(alloc, &call_of(alloc, call)?, rt)?;
            same(line, &told, wanted)?;
        }
    }
    Ok(())
}

// A range that came back is given again with its slot, which has the next version then.
const A_RANGE_THAT_CAME_BACK: &str = "
take 2 | 0 0 0
give 0 | done
live 0 | false
take 2 | 0 1 0
live 1 | true
words | 2 2
";

// A range that is held for a job isn't given before that job is completed.
const A_RANGE_THAT_IS_HELD: &str = "
take 2 | 0 0 0
take 1 | 1 0 2
hold 0 1 | done
settle | done
live 0 | false
take 2 | 2 0 3
words | 5 5
complete 1 | done
settle | done
words | 3 5
take 2 | 0 1 0
words | 5 5
";

// The new range is taken while the old one is live. Slot and version stay.
const REGROWN: &str = "
take 2 | 0 0 0
regrow 0 3 | 2 3
live 0 | true
words | 3 5
take 2 | 1 0 0
words | 5 5
";

// Versions after reuse.
const VERSIONS_AFTER_REUSE: &str = "
take 4 | 0 0 0
give 0 | done
take 4 | 0 1 0
hold 1 - | done
live 1 | false
settle | done
take 4 | 0 2 0
give 2 | done
take 1 | 0 3 0
live 0 | false
live 1 | false
live 2 | false
live 3 | true
";

// An empty range starts at 0, and has no word.
const EMPTY_RANGES: &str = "
take 3 | 0 0 0
take 0 | 1 0 0
words | 3 3
take 1 | 2 0 3
regrow 2 0 | 0 0
words | 3 4
give 1 | done
hold 2 2 | done
settle | done
words | 3 4
take 0 | 1 1 0
complete 2 | done
settle | done
take 1 | 2 1 3
words | 4 4
";

// The last word, and no more. What is refused takes nothing.
const THE_LAST_WORD: &str = "
take 1048575 | 0 0 0
take 2 | full
take 1 | 1 0 1048575
take 1 | full
take 0 | 2 0 0
words | 1048576 1048576
give 0 | done
take 1048576 | full
take 1048575 | 0 1 0
give 1 | done
give 3 | done
take 1048576 | 0 2 0
words | 1048576 1048576
";

// The first hole that is large enough, not the one that fits best; and a hole that fits exactly.
const THE_FIRST_HOLE: &str = "
take 4 | 0 0 0
take 1 | 1 0 4
take 2 | 2 0 5
take 1 | 3 0 7
give 0 | done
give 2 | done
take 2 | 0 1 0
take 3 | 2 1 8
take 2 | 4 0 2
take 2 | 5 0 5
words | 11 11
take 1 | 6 0 11
";

// Holes that touch are one, on either side and at the end.
const HOLES_THAT_TOUCH: &str = "
take 2 | 0 0 0
take 2 | 1 0 2
take 2 | 2 0 4
take 2 | 3 0 6
take 2 | 4 0 8
give 0 | done
give 2 | done
give 1 | done
take 6 | 0 1 0
give 4 | done
give 3 | done
take 9 | 1 1 6
words | 15 15
";

// Held ranges come back in the order of their users, whatever the order in which they were held.
const ORDER_OF_USERS: &str = "
take 2 | 0 0 0
take 2 | 1 0 2
take 2 | 2 0 4
take 2 | 3 0 6
hold 0 1,3 | done
hold 1 2 | done
hold 2 3,4 | done
settle | done
words | 8 8
complete 2 | done
settle | done
words | 6 8
take 2 | 1 1 2
complete 3 | done
settle | done
words | 8 8
complete 4 | done
settle | done
words | 6 8
take 2 | 2 1 4
complete 1 | done
settle | done
take 2 | 0 1 0
words | 8 8
";

#[test]
fn tables(rt: HostRuntime) -> Result<(), Fail> {
    let alloc = rt.alloc();
    compare(&rt, alloc, A_RANGE_THAT_CAME_BACK)?;
    compare(&rt, alloc, A_RANGE_THAT_IS_HELD)?;
    compare(&rt, alloc, REGROWN)?;
    compare(&rt, alloc, VERSIONS_AFTER_REUSE)?;
    compare(&rt, alloc, EMPTY_RANGES)?;
    compare(&rt, alloc, THE_LAST_WORD)?;
    compare(&rt, alloc, THE_FIRST_HOLE)?;
    compare(&rt, alloc, HOLES_THAT_TOUCH)?;
    compare(&rt, alloc, ORDER_OF_USERS)
}

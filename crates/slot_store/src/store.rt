// The store: slots, the ranges of words that they have, and those that are held until jobs are completed.
ghost use Rattle.std.specs.Prelude.{◌≡◌, ℕ, ◌+◌, ◌<◌, ◌≤◌, ◌^◌, ◌&&◌, ◌↔◌, max, nat_eq, true, false, if◌then◌else◌, IfOk, OnOk, OnErr, IsTrue, IfSome, IfNone, vec_len, vec_capacity};
ghost use Rattle.slot_store.specs.Kept.{AreKept, AreWaiting, HaveRoom};
ghost use Rattle.slot_store.specs.Places.{places_in, set_at};

use crate::lot::{Lot, Standing};
use crate::pending::pending_of;
use crate::place::Waiting;
use crate::room::{add_sets, reserve_all};
use crate::slot::{Slot, StoreFault, Taken, Version};
use crate::space::FreeSpace;
use job_base::limits::MOST_LIVE_WORDS;
use job_base::{JobId, NoMemory, Span};
use job_handle::{Handle, JobBook};
use std::alloc::Global;

/// Slots for containers, and the words that they have.
#[derive(Drop)]
pub struct SlotStore {
    // By slot. Slots beyond the last were never taken.
    lots: Vec<Lot>,
    // By slot, for whose sake its range is held. It says nothing where the range isn't. A set has 528 bytes, so none is
    // made for slots past the last that was held.
    users: Vec<Handle>,
    // The set without jobs, which these have.
    none: Handle,
    words: FreeSpace,
    slots: FreeSpace,
    // Each of the first `waiting` waits for a job that isn't in `completed`. The others are to be looked at.
    held: Vec<Waiting>,
    waiting: usize,
    // The jobs that were completed at the last `settle` that found a held slot.
    completed: Handle,
    live_words: u32,
    peak: u32,
    ghost kept: { AreKept (places_in lots.items (set_at users.items none)) words slots held.items live_words
        peak },
    ghost room: { HaveRoom (places_in lots.items (set_at users.items none)) words slots held },
    ghost waits: { AreWaiting (places_in lots.items (set_at users.items none)) held.items waiting completed },
    ghost sets: { vec_len lots ≤ vec_capacity users },
}

impl SlotStore {
    ghost use Rattle.slot_store.specs.Places.{in_use, is_held, is_taken, unused, users_of};
    ghost use Rattle.slot_store.specs.Stores.{IsReady, IsSame, freed, given, held, is_live_word, live_words_of, live_words_settled, peak_of, place_of, places_of, settled, slot_at, slots_in_use, slots_in_use_settled, taken};
    ghost use Rattle.frame_ast.specs.Ranges.{IsFirstFit};
    ghost use Rattle.frame_ast.specs.Jobs.{Book};
    ghost use Rattle.frame_ast.specs.Laws.{AreUpTo};
    ghost use Rattle.job_handle.specs.Books.{StandsFor, count_of};
    ghost use Rattle.job_handle.specs.Sets.{jobs_of};

    /// A store where no slot was taken.
    pub fn new(alloc: Global) -> Result<SlotStore, NoMemory>
        ensures places { IfOk result (λ store. (s : ℕ) → place_of store s ≡ unused) }
        ensures live { IfOk result (λ store. live_words_of store ≡ 0) }
        ensures used { IfOk result (λ store. slots_in_use store ≡ 0) }
        ensures peak { IfOk result (λ store. peak_of store ≡ 0) }
    {
        Ok(SlotStore {
            lots: Vec::new(alloc),
            users: Vec::new(alloc),
            none: Handle::empty(),
            words: FreeSpace::new(alloc)?,
            slots: FreeSpace::new(alloc)?,
            held: Vec::new(alloc),
            waiting: 0,
            completed: Handle::empty(),
            live_words: 0,
            peak: 0,
        })
    }

    /// Takes the lowest range of `len` words of which none is live, and the lowest slot that is free. An empty range
    /// starts at 0.
    pub fn take(&mut self, len: u32) -> Result<Taken, StoreFault>
        requires fits { peak_of self.old + len < 2 ^ 32 }
        requires slots { slots_in_use self.old < 4294967295 }
        ensures full { (result ≡ Err StoreFault.Full) ↔ (MOST_LIVE_WORDS < live_words_of self.old + len) }
        ensures fit { IfOk result (λ t. IsFirstFit (is_live_word self.old) len t.span.start) }
        ensures low { IfOk result (λ t. t.span.start ≤ peak_of self.old) }
        ensures len { IfOk result (λ t. t.span.len ≡ len) }
        ensures free { IfOk result (λ t. in_use (place_of self.old t.slot.0).state ≡ false) }
        ensures lowest { IfOk result (λ t. (s : ℕ) → s < t.slot.0 → in_use (place_of self.old s).state ≡ true) }
        ensures version { IfOk result (λ t. t.version.0 ≡ (place_of self.old t.slot.0).version) }
        ensures places { IfOk result (λ t. (s : ℕ) → place_of self.new s ≡
            (if nat_eq s t.slot.0 then taken t.version.0 t.span else place_of self.old s)) }
        ensures live { IfOk result (λ t. live_words_of self.new ≡ live_words_of self.old + len) }
        ensures used { IfOk result (λ t. slots_in_use self.new ≡ slots_in_use self.old + 1) }
        ensures peak { IfOk result (λ t. peak_of self.new ≡ max (peak_of self.old) (t.span.start + len)) }
        ensures same { OnErr result (IsSame self.old self.new) }
    {
        if self.is_full_for(len) {
            return Err(StoreFault::Full);
        }
        match self.make_room() {
            Ok(()) => Ok(self.take_ready(len)),
            Err(NoMemory) => Err(StoreFault::NoMemory),
        }
    }

    /// Takes a range of `len` words for a slot that is taken, by the rule of `take` and while its old range is still
    /// live. Then the old one comes back.
    pub fn regrow(&mut self, slot: Slot, len: u32) -> Result<Span, StoreFault>
        requires taken { is_taken (place_of self.old slot.0).state ≡ true }
        requires fits { peak_of self.old + len < 2 ^ 32 }
        ensures full { (result ≡ Err StoreFault.Full) ↔ (MOST_LIVE_WORDS < live_words_of self.old + len) }
        ensures fit { IfOk result (λ span. IsFirstFit (is_live_word self.old) len span.start) }
        ensures low { IfOk result (λ span. span.start ≤ peak_of self.old) }
        ensures len { IfOk result (λ span. span.len ≡ len) }
        ensures places { IfOk result (λ span. (s : ℕ) → place_of self.new s ≡
            (if nat_eq s slot.0 then taken (place_of self.old slot.0).version span else place_of self.old s)) }
        ensures live { OnOk result (live_words_of self.new +
            (place_of self.old slot.0).span.len ≡ live_words_of self.old + len) }
        ensures used { OnOk result (slots_in_use self.new ≡ slots_in_use self.old) }
        ensures peak { IfOk result (λ span. peak_of self.new ≡ max (peak_of self.old) (span.start + len)) }
        ensures same { OnErr result (IsSame self.old self.new) }
    {
        if self.is_full_for(len) {
            return Err(StoreFault::Full);
        }
        match self.make_room() {
            Ok(()) => Ok(self.regrow_ready(slot, len)),
            Err(NoMemory) => Err(StoreFault::NoMemory),
        }
    }

    /// A slot that is taken is free again, with the next version, and its range comes back.
    pub fn give(&mut self, slot: Slot)
        requires taken { is_taken (place_of self.old slot.0).state ≡ true }
        requires version { (place_of self.old slot.0).version < 4294967295 }
        ensures places { (s : ℕ) → place_of self.new s ≡
            (if nat_eq s slot.0 then given (place_of self.old slot.0) else place_of self.old s) }
        ensures live { live_words_of self.new + (place_of self.old slot.0).span.len ≡ live_words_of self.old }
        ensures used { slots_in_use self.new + 1 ≡ slots_in_use self.old }
        ensures peak { peak_of self.new ≡ peak_of self.old }
    {
        let at = slot.0 as usize;
        let span = self.lots[at].span;
        self.words.give(span);
        self.slots.give(Span {
            start: slot.0,
            len: 1,
        });
        let lot = &mut self.lots[at];
        lot.set_given();
        self.live_words -= span.len;
    }

    /// The version of a slot that is taken rises at once. Range and slot come back by [`SlotStore::settle`], once the
    /// jobs of `users` are completed.
    pub fn hold(&mut self, slot: Slot, users: &Handle)
        requires taken { is_taken (place_of self.old slot.0).state ≡ true }
        requires version { (place_of self.old slot.0).version < 4294967295 }
        ensures places { (s : ℕ) → place_of self.new s ≡
            (if nat_eq s slot.0 then held (place_of self.old slot.0) users.now else place_of self.old s) }
        ensures live { live_words_of self.new ≡ live_words_of self.old }
        ensures used { slots_in_use self.new ≡ slots_in_use self.old }
        ensures peak { peak_of self.new ≡ peak_of self.old }
    {
        self.have_set(slot);
        self.hold_ready(slot, users);
    }

    /// Each held range whose users are all completed comes back with its slot, and no other. It looks at those that
    /// were held since the last call, and at the others where a job was completed since.
    pub fn settle(&mut self, book: &JobBook)
        requires known { (s : ℕ) → AreUpTo (count_of book.now) (users_of (place_of self.old s).state) }
        ensures places { (b : Book) → StandsFor book.now b → (s : ℕ)
            → place_of self.new s ≡ settled b (place_of self.old s) }
        ensures users { (s j : ℕ) → users_of (place_of self.new s).state j ≡ true
            → users_of (place_of self.old s).state j ≡ true }
        ensures live { (b : Book) → StandsFor book.now b → live_words_of self.new ≡ live_words_settled b self.old }
        ensures used { (b : Book) → StandsFor book.now b → slots_in_use self.new ≡ slots_in_use_settled b self.old }
        ensures fewer { slots_in_use self.new ≤ slots_in_use self.old }
        ensures peak { peak_of self.new ≡ peak_of self.old }
    {
        // Most scripts hold nothing. Then no set of jobs is gone through.
        if self.held.is_empty() {
            return;
        }
        self.note_completed(book);
        self.pass_waiting();
        while self.waiting < self.held.len() {
            self.settle_next();
            self.pass_waiting();
        }
    }

    /// Passes by the held slots that wait for the job that was noted with them.
    fn pass_waiting(&mut self)
        ensures same { IsSame self.old self.new }
        ensures completed { self.new.completed ≡ self.old.completed }
        ensures length { vec_len self.new.held ≡ vec_len self.old.held }
        ensures waiting { self.old.waiting ≤ self.new.waiting }
    {
        let mut passed = self.waiting;
        while passed < self.held.len() {
            let job = self.held[passed].job;
            if job == 0 {
                break;
            }
            if self.completed.has(JobId(job)) {
                break;
            }
            passed += 1;
        }
        self.waiting = passed;
    }

    /// Whether the slot is taken, not held, and has this version.
    pub fn live(&self, slot: Slot, version: Version) -> bool
        ensures { result ≡ (is_taken (place_of self.now slot.0).state
            && nat_eq (place_of self.now slot.0).version version.0) }
    {
        let at = slot.0 as usize;
        if at >= self.lots.len() {
            return false;
        }
        let lot = &self.lots[at];
        match lot.standing {
            Standing::Taken => lot.version == version.0,
            Standing::Free => false,
            Standing::Held => false,
        }
    }

    /// Whether `len` words more are too many at once.
    fn is_full_for(&self, len: u32) -> bool
        ensures { IsTrue result ↔ (MOST_LIVE_WORDS < live_words_of self.now + len) }
    {
        len > MOST_LIVE_WORDS - self.live_words
    }

    /// Makes room for one more range, and for all that are live to come back.
    fn make_room(&mut self) -> Result<(), NoMemory>
        ensures same { IsSame self.old self.new }
        ensures ready { OnOk result (IsReady self.new) }
    {
        self.have_lot()?;
        let most = self.lots.len() + 1;
        reserve_all(&mut self.words, &mut self.slots, &mut self.held, most)
    }

    /// Makes a lot for the next slot, where each has been taken or held.
    fn have_lot(&mut self) -> Result<(), NoMemory>
        ensures same { IsSame self.old self.new }
        ensures known { OnOk result (self.new.slots.top < vec_len self.new.lots) }
    {
        if (self.slots.top() as usize) < self.lots.len() {
            return Ok(());
        }
        self.add_lot()
    }

    // With the lot comes the room for its set. Inlined, a lot would be cleared at each take.
    #[inline(never)]
    fn add_lot(&mut self) -> Result<(), NoMemory>
        ensures same { IsSame self.old self.new }
        ensures known { OnOk result (self.new.slots.top < vec_len self.new.lots) }
    {
        let most = self.lots.len() + 1;
        self.users.reserve(most.saturating_sub(self.users.len()))?;
        self.lots.push(Lot::unused())?;
        Ok(())
    }

    /// Makes a set for a slot that is taken, where it has none.
    fn have_set(&mut self, slot: Slot)
        requires taken { is_taken (place_of self.old slot.0).state ≡ true }
        ensures same { IsSame self.old self.new }
        ensures there { slot.0 < vec_len self.new.users }
    {
        let at = slot.0 as usize;
        if at < self.users.len() {
            return;
        }
        self.add_sets(at);
    }

    // Inlined, a set would be cleared at each hold.
    #[inline(never)]
    fn add_sets(&mut self, at: usize)
        requires { at < vec_len self.old.lots }
        ensures same { IsSame self.old self.new }
        ensures there { at < vec_len self.new.users }
    {
        add_sets(&mut self.users, &self.none, at);
    }

    // The set of a slot.
    fn users_at(&self, at: usize) -> &Handle
        ensures { result.now ≡ set_at self.now.users.items self.now.none at }
    {
        if at < self.users.len() {
            &self.users[at]
        } else {
            &self.none
        }
    }

    /// `take`, once there is room.
    fn take_ready(&mut self, len: u32) -> Taken
        requires ready { IsReady self.old }
        requires few { live_words_of self.old + len ≤ MOST_LIVE_WORDS }
        requires fits { peak_of self.old + len < 2 ^ 32 }
        requires slots { slots_in_use self.old < 4294967295 }
        ensures fit { IsFirstFit (is_live_word self.old) len result.span.start }
        ensures low { result.span.start ≤ peak_of self.old }
        ensures len { result.span.len ≡ len }
        ensures free { in_use (place_of self.old result.slot.0).state ≡ false }
        ensures lowest { (s : ℕ) → s < result.slot.0 → in_use (place_of self.old s).state ≡ true }
        ensures version { result.version.0 ≡ (place_of self.old result.slot.0).version }
        ensures places { (s : ℕ) → place_of self.new s ≡
            (if nat_eq s result.slot.0 then taken result.version.0 result.span else place_of self.old s) }
        ensures live { live_words_of self.new ≡ live_words_of self.old + len }
        ensures used { slots_in_use self.new ≡ slots_in_use self.old + 1 }
        ensures peak { peak_of self.new ≡ max (peak_of self.old) (result.span.start + len) }
    {
        let slot = self.slots.take(1);
        let start = self.words.take(len);
        let span = Span { start, len };
        let lot = &mut self.lots[slot as usize];
        lot.set_taken(span);
        let version = lot.version;
        self.live_words += len;
        self.peak = self.peak.max(start + len);
        Taken {
            slot: Slot(slot),
            version: Version(version),
            span,
        }
    }

    /// `hold`, once the slot has a set.
    fn hold_ready(&mut self, slot: Slot, users: &Handle)
        requires there { slot.0 < vec_len self.old.users }
        requires taken { is_taken (place_of self.old slot.0).state ≡ true }
        requires version { (place_of self.old slot.0).version < 4294967295 }
        ensures places { (s : ℕ) → place_of self.new s ≡
            (if nat_eq s slot.0 then held (place_of self.old slot.0) users.now else place_of self.old s) }
        ensures live { live_words_of self.new ≡ live_words_of self.old }
        ensures used { slots_in_use self.new ≡ slots_in_use self.old }
        ensures peak { peak_of self.new ≡ peak_of self.old }
    {
        let at = slot.0 as usize;
        let waiting = Waiting {
            slot: slot.0,
            job: 0,
        };
        match self.held.push(waiting) {
            Ok(()) => {}
            Err(_) => unreachable!(),
        }
        self.users[at] = *users;
        let lot = &mut self.lots[at];
        lot.set_held();
    }

    /// `regrow`, once there is room.
    fn regrow_ready(&mut self, slot: Slot, len: u32) -> Span
        requires ready { IsReady self.old }
        requires taken { is_taken (place_of self.old slot.0).state ≡ true }
        requires few { live_words_of self.old + len ≤ MOST_LIVE_WORDS }
        requires fits { peak_of self.old + len < 2 ^ 32 }
        ensures fit { IsFirstFit (is_live_word self.old) len result.start }
        ensures low { result.start ≤ peak_of self.old }
        ensures len { result.len ≡ len }
        ensures places { (s : ℕ) → place_of self.new s ≡
            (if nat_eq s slot.0 then taken (place_of self.old slot.0).version result else place_of self.old s) }
        ensures live { live_words_of self.new + (place_of self.old slot.0).span.len ≡ live_words_of self.old + len }
        ensures used { slots_in_use self.new ≡ slots_in_use self.old }
        ensures peak { peak_of self.new ≡ max (peak_of self.old) (result.start + len) }
    {
        let at = slot.0 as usize;
        let old = self.lots[at].span;
        let start = self.words.take(len);
        let span = Span { start, len };
        self.words.give(old);
        let lot = &mut self.lots[at];
        lot.set_taken(span);
        self.live_words = self.live_words + len - old.len;
        self.peak = self.peak.max(start + len);
        span
    }

    /// Notes which jobs are completed now.
    fn note_completed(&mut self, book: &JobBook)
        ensures same { IsSame self.old self.new }
        ensures completed { (b : Book) → StandsFor book.now b → (j : ℕ) → jobs_of self.new.completed j ≡ b.completed j }
    {
        let completed = book.completed();
        self.waiting = self.still_waiting(completed);
        self.completed.set_to(completed);
    }

    /// How many of the first held slots needn't be looked at: where a job was completed since the last call, none.
    fn still_waiting(&self, completed: &Handle) -> usize
        ensures { AreWaiting (places_of self.now) self.now.held.items result completed.now }
    {
        match completed.latest_outside(&self.completed) {
            Some(_) => 0,
            None => self.waiting,
        }
    }

    /// `settle` for the first held slot that is to be looked at.
    fn settle_next(&mut self)
        requires left { self.old.waiting < vec_len self.old.held }
        ensures places { (b : Book) → ((j : ℕ) → jobs_of self.old.completed j ≡ b.completed j)
            → ((s : ℕ) → AreUpTo b.count (users_of (place_of self.old s).state)) → (s : ℕ)
            → settled b (place_of self.new s) ≡ settled b (place_of self.old s) }
        ensures users { (s j : ℕ) → users_of (place_of self.new s).state j ≡ true
            → users_of (place_of self.old s).state j ≡ true }
        ensures completed { self.new.completed ≡ self.old.completed }
        ensures less { vec_len self.new.held + self.old.waiting < vec_len self.old.held + self.new.waiting }
        ensures fewer { slots_in_use self.new ≤ slots_in_use self.old }
        ensures peak { peak_of self.new ≡ peak_of self.old }
    {
        let at = self.waiting;
        let held = self.held[at];
        match self.pending_user(held) {
            Some(job) => self.keep_hold(at, held.slot, job.0),
            None => self.end_hold(at, held.slot),
        }
    }

    /// A user of a held range that isn't completed: the one that was noted, or the latest.
    fn pending_user(&self, held: Waiting) -> Option<JobId>
        requires held { is_held (place_of self.now held.slot).state ≡ true }
        requires noted { 0 < held.job → users_of (place_of self.now held.slot).state held.job ≡ true }
        ensures some { IfSome result (λ j. (0 < j.0) × (users_of (place_of self.now held.slot).state j.0 ≡ true)
            × (jobs_of self.now.completed j.0 ≡ false)) }
        ensures none { IfNone result ((j : ℕ) → users_of (place_of self.now held.slot).state j ≡ true
            → jobs_of self.now.completed j ≡ true) }
    {
        let noted = JobId(held.job);
        if held.job > 0 && !self.completed.has(noted) {
            return Some(noted);
        }
        let users = self.users_at(held.slot as usize);
        pending_of(users, &self.completed, held.job)
    }

    /// The slot waits for a job.
    fn keep_hold(&mut self, at: usize, slot: u32, job: u32)
        requires listed { at < vec_len self.old.held }
        requires first { at ≡ self.old.waiting }
        requires slot { slot ≡ slot_at self.old at }
        requires user { users_of (place_of self.old slot).state job ≡ true }
        requires some { 0 < job }
        requires pending { jobs_of self.old.completed job ≡ false }
        ensures same { IsSame self.old self.new }
        ensures waiting { self.new.waiting ≡ self.old.waiting + 1 }
        ensures length { vec_len self.new.held ≡ vec_len self.old.held }
        ensures completed { self.new.completed ≡ self.old.completed }
    {
        self.held[at] = Waiting { slot, job };
        self.waiting = at + 1;
    }

    /// A held range comes back with its slot.
    fn end_hold(&mut self, at: usize, slot: u32)
        requires listed { at < vec_len self.old.held }
        requires first { at ≡ self.old.waiting }
        requires slot { slot ≡ slot_at self.old at }
        requires held { is_held (place_of self.old slot).state ≡ true }
        ensures places { (s : ℕ) → place_of self.new s ≡
            (if nat_eq s slot then freed (place_of self.old s) else place_of self.old s) }
        ensures waiting { self.new.waiting ≡ self.old.waiting }
        ensures length { vec_len self.new.held + 1 ≡ vec_len self.old.held }
        ensures completed { self.new.completed ≡ self.old.completed }
        ensures fewer { slots_in_use self.new ≤ slots_in_use self.old }
        ensures peak { peak_of self.new ≡ peak_of self.old }
    {
        let place = slot as usize;
        let span = self.lots[place].span;
        self.words.give(span);
        self.slots.give(Span {
            start: slot,
            len: 1,
        });
        self.held.swap_remove(at);
        let lot = &mut self.lots[place];
        lot.set_freed();
        self.live_words -= span.len;
    }

    /// The number of words that are live: those of ranges that were taken and have not come back.
    pub fn live_words(&self) -> u32
        ensures count { result ≡ live_words_of self.now }
        ensures few { result ≤ MOST_LIVE_WORDS }
    {
        self.live_words
    }

    /// The greatest end of any range taken so far, or 0 where none was taken.
    pub fn peak(&self) -> u32
        ensures { result ≡ peak_of self.now }
    {
        self.peak
    }
}

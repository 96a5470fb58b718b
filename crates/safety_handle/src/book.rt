// The entries of all slots.
ghost use Rattle.std.specs.Prelude.{◌≡◌, ◌≢◌, ℕ, ◌+◌, ◌<◌, ◌≤◌, ◌^◌, true, false, slice_get, vec_len, vec_capacity, IfOk, OnOk, OnErr};
ghost use Rattle.frame_ast.specs.Jobs.{nobody};
ghost use Rattle.job_handle.specs.Sets.{jobs_of};

use crate::entry::Entry;
use crate::tag::{Blocked, Tag};
use job_base::limits::{MOST_JOBS, MOST_STATEMENTS};
use job_base::{JobId, NoMemory};
use job_handle::{Handle, JobBook};
use slot_store::{Slot, Version};
use std::alloc::Global;

/// The containers that are live, by slot, with the jobs that use them.
#[derive(Drop)]
pub struct SafetyBook {
    entries: Vec<Entry>,
    // By slot, the set of those that read its container since, where there are some. A set has 528 bytes, so none is
    // made for slots past the last that was read.
    readers: Vec<Handle>,
    // The set without jobs, for these.
    none: Handle,
    ghost nobody: { jobs_of none ≡ nobody },
    ghost room: { vec_len entries ≤ vec_capacity readers },
}

impl SafetyBook {
    ghost use Rattle.frame_ast.specs.Laws.{AreUpTo};
    ghost use Rattle.job_handle.specs.Books.{count_of};
    ghost use Rattle.safety_handle.specs.Uses.{users_of, noted_read, noted_write};
    ghost use Rattle.safety_handle.specs.Entries.{state_of, set_in, no_state, fresh, conflicting_in};
    ghost use Rattle.safety_handle.specs.Checks.{IsAnswer};

    /// No container.
    pub fn new(alloc: Global) -> Result<SafetyBook, NoMemory>
        ensures { IfOk result (λ book. (k : ℕ) → state_of book k ≡ no_state) }
    {
        Ok(SafetyBook {
            entries: Vec::new(alloc),
            readers: Vec::new(alloc),
            none: Handle::empty(),
        })
    }

    /// The slot becomes live with this version, for a container that no job uses. It makes the room that its notes
    /// need.
    pub fn enroll(&mut self, slot: Slot, version: Version) -> Result<(), NoMemory>
        ensures slot { OnOk result (state_of self.new slot.0 ≡ fresh version.0) }
        ensures same { OnErr result (state_of self.new slot.0 ≡ state_of self.old slot.0) }
        ensures others { (k : ℕ) → (k ≢ slot.0) → state_of self.new k ≡ state_of self.old k }
    {
        let at = slot.0 as usize;
        if self.entries.len() <= at {
            self.reach(at)?;
        }
        let entry = &mut self.entries[at];
        entry.begin(version);
        Ok(())
    }

    // Makes entries up to that of a slot, and room for as many sets.
    #[inline(never)]
    fn reach(&mut self, at: usize) -> Result<(), NoMemory>
        requires { at < 2 ^ 32 }
        ensures there { OnOk result (at < vec_len self.new.entries) }
        ensures same { (k : ℕ) → state_of self.new k ≡ state_of self.old k }
    {
        self.readers
            .reserve((at + 1).saturating_sub(self.readers.len()))?;
        while self.entries.len() <= at {
            self.entries.push(Entry::dead())?;
        }
        Ok(())
    }

    // Makes sets up to that of a slot that has an entry. Inlined, one would be cleared at each call.
    #[inline(never)]
    fn add_sets(&mut self, at: usize)
        requires { at < vec_len self.old.entries }
        ensures there { at < vec_len self.new.readers }
        ensures entries { self.new.entries ≡ self.old.entries }
        ensures same { (k : ℕ) → state_of self.new k ≡ state_of self.old k }
    {
        while self.readers.len() <= at {
            match self.readers.push(Handle::empty()) {
                Ok(()) => {}
                Err(_) => unreachable!(),
            }
        }
    }

    // The set of those that read the container since. It says nothing where its entry says that there is none.
    fn readers_of(&self, at: usize) -> &Handle
        ensures { jobs_of result.now ≡ set_in (slice_get self.now.readers.items at) }
    {
        if at < self.readers.len() {
            &self.readers[at]
        } else {
            &self.none
        }
    }

    // The answer to a use of either kind.
    fn check(&self, tag: &Tag, deps: &Handle, jobs: &JobBook, writes: bool) -> Result<(), Blocked>
        requires { AreUpTo (count_of jobs.now) (jobs_of deps.now) }
        ensures { IsAnswer (state_of self.now tag.now.slot.0) tag.now jobs.now (jobs_of deps.now) writes result }
    {
        let at = tag.slot.0 as usize;
        if at < self.entries.len() {
            let entry = &self.entries[at];
            let readers = self.readers_of(at);
            entry.check(tag, readers, deps, jobs, writes)
        } else {
            Err(Blocked::Disposed)
        }
    }

    /// Unity's `CheckReadAndThrow`: whether a use that only reads, and waits for `deps`, may be made now. Writers
    /// conflict with it.
    ///
    ///
    /// <https://docs.unity3d.com/ScriptReference/Unity.Collections.LowLevel.Unsafe.AtomicSafetyHandle.CheckReadAndThrow.html>
    pub fn check_read(&self, tag: &Tag, deps: &Handle, jobs: &JobBook) -> Result<(), Blocked>
        requires { AreUpTo (count_of jobs.now) (jobs_of deps.now) }
        ensures { IsAnswer (state_of self.now tag.now.slot.0) tag.now jobs.now (jobs_of deps.now) false result }
    {
        self.check(tag, deps, jobs, false)
    }

    /// Unity's `CheckWriteAndThrow`: whether a use that writes, and waits for `deps`, may be made now. Every user
    /// conflicts with it.
    ///
    ///
    /// <https://docs.unity3d.com/ScriptReference/Unity.Collections.LowLevel.Unsafe.AtomicSafetyHandle.CheckWriteAndThrow.html>
    pub fn check_write(&self, tag: &Tag, deps: &Handle, jobs: &JobBook) -> Result<(), Blocked>
        requires { AreUpTo (count_of jobs.now) (jobs_of deps.now) }
        ensures { IsAnswer (state_of self.now tag.now.slot.0) tag.now jobs.now (jobs_of deps.now) true result }
    {
        self.check(tag, deps, jobs, true)
    }

    /// Unity's `CheckDeallocateAndThrow`: whether the container may be disposed once `deps` ended. Every user conflicts
    /// with it.
    ///
    ///
    /// <https://docs.unity3d.com/ScriptReference/Unity.Collections.LowLevel.Unsafe.AtomicSafetyHandle.CheckDeallocateAndThrow.html>
    pub fn check_dispose(&self, tag: &Tag, deps: &Handle, jobs: &JobBook) -> Result<(), Blocked>
        requires { AreUpTo (count_of jobs.now) (jobs_of deps.now) }
        ensures { IsAnswer (state_of self.now tag.now.slot.0) tag.now jobs.now (jobs_of deps.now) true result }
    {
        self.check(tag, deps, jobs, true)
    }

    /// The newest job, 1 to [`MOST_JOBS`], reads the container; its check answered Ok. A job that reads it through
    /// several arguments is noted once.
    pub fn note_read(&mut self, slot: Slot, j: JobId)
        requires live { (state_of self.old slot.0).live ≡ true }
        requires job { (0 < j.0) × (j.0 ≤ MOST_JOBS) }
        ensures slot { state_of self.new slot.0 ≡ record (state_of self.old slot.0) {
          latest =
              noted_read (state_of self.old slot.0).latest j.0;
        } }
        ensures others { (k : ℕ) → (k ≢ slot.0) → state_of self.new k ≡ state_of self.old k }
    {
        let at = slot.0 as usize;
        if self.readers.len() <= at {
            self.add_sets(at);
        }
        let readers = &mut self.readers[at];
        let entry = &mut self.entries[at];
        entry.note_read(readers, j);
    }

    /// The newest job, 1 to [`MOST_JOBS`], writes the container; its check answered Ok.
    pub fn note_write(&mut self, slot: Slot, j: JobId)
        requires live { (state_of self.old slot.0).live ≡ true }
        requires job { (0 < j.0) × (j.0 ≤ MOST_JOBS) }
        ensures slot { state_of self.new slot.0 ≡ record (state_of self.old slot.0) {
          latest =
              noted_write (state_of self.old slot.0).latest j.0;
        } }
        ensures others { (k : ℕ) → (k ≢ slot.0) → state_of self.new k ≡ state_of self.old k }
    {
        let entry = &mut self.entries[slot.0 as usize];
        entry.note_write(j);
    }

    /// The jobs that stand for all whose use conflicts: the last writer and, where the use writes, the readers since.
    /// The others were completed, or are ancestors of the last writer.
    pub fn conflicting(&self, slot: Slot, writes: bool) -> Handle
        ensures { jobs_of result ≡ conflicting_in (state_of self.now slot.0).latest writes }
    {
        let mut all = Handle::empty();
        self.set_to_conflicting(&mut all, slot, writes);
        all
    }

    /// `conflicting` in place: a set gets these jobs, and no others.
    pub fn set_to_conflicting(&self, all: &mut Handle, slot: Slot, writes: bool)
        ensures { jobs_of all.new ≡ conflicting_in (state_of self.now slot.0).latest writes }
    {
        let at = slot.0 as usize;
        if at >= self.entries.len() {
            all.clear();
            return;
        }
        let entry = &self.entries[at];
        let readers = self.readers_of(at);
        entry.set_to_conflicting(all, readers, writes);
    }

    /// The last writer and the readers since. Once these are completed, every user is.
    pub fn users(&self, slot: Slot) -> Handle
        ensures { jobs_of result ≡ users_of (state_of self.now slot.0).latest }
    {
        let mut all = Handle::empty();
        self.set_to_users(&mut all, slot);
        all
    }

    /// `users` in place: a set gets these jobs, and no others.
    pub fn set_to_users(&self, all: &mut Handle, slot: Slot)
        ensures { jobs_of all.new ≡ users_of (state_of self.now slot.0).latest }
    {
        self.set_to_conflicting(all, slot, true);
    }

    /// The views of the list are broken. A statement does it once, so at most [`MOST_STATEMENTS`] times after an
    /// `enroll`.
    pub fn bump_view(&mut self, slot: Slot)
        requires live { (state_of self.old slot.0).live ≡ true }
        requires few { (state_of self.old slot.0).view < MOST_STATEMENTS }
        ensures slot { state_of self.new slot.0 ≡ record (state_of self.old slot.0) {
          view =
              (state_of self.old slot.0).view + 1;
        } }
        ensures others { (k : ℕ) → (k ≢ slot.0) → state_of self.new k ≡ state_of self.old k }
    {
        let entry = &mut self.entries[slot.0 as usize];
        entry.break_views();
    }

    /// How often the list's views were broken after the slot's last `enroll`.
    pub fn view_version(&self, slot: Slot) -> u32
        requires { (state_of self.now slot.0).live ≡ true }
        ensures { result ≡ (state_of self.now slot.0).view }
    {
        let entry = &self.entries[slot.0 as usize];
        entry.view()
    }

    /// The container is disposed: the slot is live no longer. Its users are answered as before.
    pub fn release(&mut self, slot: Slot)
        ensures slot { state_of self.new slot.0 ≡ record (state_of self.old slot.0) { live = false } }
        ensures others { (k : ℕ) → (k ≢ slot.0) → state_of self.new k ≡ state_of self.old k }
    {
        let at = slot.0 as usize;
        if at < self.entries.len() {
            let entry = &mut self.entries[at];
            entry.end();
        }
    }
}

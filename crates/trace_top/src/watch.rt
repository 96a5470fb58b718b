// What notes a run, section by section.
ghost use Rattle.std.specs.Prelude.{◌≡◌, ◌≤◌, ◌++◌, List, [], ◌∷◌, length, IfOk, OnOk, Some, false, option_copied};
ghost use Rattle.frame_core.specs.Ordered.{IsWellOrderedPlan};
ghost use Rattle.frame_top.specs.Seen.{SectionAt, section_at};
ghost use Rattle.trace_top.specs.Traced.{AreTraces, HasTraced, IsTraceOf};

use frame_ast::script::Script;
use frame_plan::{Section, SmallJobs};
use frame_record::Recorder;
use frame_top::{Extent, Watch};
use frame_view::{Part, follow_part};
use job_base::NoMemory;
use std::alloc::Global;
use std::rt::Clock;
use trace_text::{SectionTrace, Stretch};
use trace_view::{Notes, Place, section_trace};

/// Notes when the pieces of a run were entered and left, and keeps what is shown of its sections.
#[derive(Drop)]
pub(crate) struct TraceWatch<'a, C> {
    recorder: Recorder<'a, C>,
    alloc: Global,
    sections: Vec<SectionTrace>,
    // How many sections were begun.
    count: u32,
    // When the first of them was about to be run, and when the one at hand was.
    start: u64,
    begun: u64,
    // When it had been run, and when it had been made into what is shown.
    ran: u64,
    ended: u64,
    arrows: u32,
    // Memory for what was noted wasn't found.
    lost: bool,
}

// How many arrows there are after these.
fn arrows_after(before: u32, section: &SectionTrace) -> u32 {
    match u32::try_from(section.arrows.len()) {
        Ok(count) => before.saturating_add(count),
        Err(_) => u32::MAX,
    }
}

impl<'a, C: Clock> TraceWatch<'a, C> {
    /// Of a run of which no section was begun.
    pub(crate) fn new(alloc: Global, clock: &'a C) -> TraceWatch<'a, C>
        ensures sections { result.sections.items ≡ [] }
        ensures found { result.lost ≡ false }
    {
        TraceWatch {
            recorder: Recorder::new(alloc, clock),
            alloc,
            sections: Vec::new(alloc),
            count: 0,
            start: 0,
            begun: 0,
            ran: 0,
            ended: 0,
            arrows: 0,
            lost: false,
        }
    }

    /// What is shown of the sections that were run, and nothing where memory for some of them wasn't found.
    pub(crate) fn sections(&self) -> Option<&[SectionTrace]>
        ensures { (traces : List SectionTrace) → option_copied result ≡ Some traces
            → (self.now.lost ≡ false) × (traces ≡ self.now.sections.items) }
    {
        if self.lost {
            None
        } else {
            Some(&self.sections)
        }
    }

    // Between two sections the next one is planned.
    fn planned(&self, notes: Notes<'_>) -> Option<Stretch> {
        if self.count > 1 {
            Some(notes.stretch(0, self.ended, self.begun))
        } else {
            None
        }
    }

    // What is shown of the section at hand.
    fn trace(
        &self,
        script: &Script,
        extent: Extent,
        section: &Section,
    ) -> Result<SectionTrace, NoMemory>
        requires well { IsWellOrderedPlan section.now.plan }
        requires within { extent.to ≤ length script.now.statements.items }
        ensures traced { IfOk result (IsTraceOf script.now (section_at extent section.now)) }
    {
        let found = self.recorder.noted(self.alloc)?;
        let part = Part::of(script, extent.from, extent.to, extent.held);
        let story = follow_part(self.alloc, script, part, &section.plan)?;
        let notes = Notes {
            found: &found,
            start: self.start,
        };
        let place = Place {
            number: self.count,
            jobs: section.jobs_before,
            arrows: self.arrows,
            planned: self.planned(notes),
            ran: notes.stretch(0, self.begun, self.ran),
        };
        section_trace(self.alloc, script, &section.plan, &story, place, notes)
    }

    // Keeps what is shown of the section at hand.
    fn keep(&mut self, script: &Script, extent: Extent, section: &Section) -> Result<(), NoMemory>
        requires well { IsWellOrderedPlan section.now.plan }
        requires within { extent.to ≤ length script.now.statements.items }
        ensures kept { OnOk result ((earlier : List SectionAt)
            → AreTraces script.now earlier self.old.sections.items
            → AreTraces script.now (earlier ++ section_at extent section.now ∷ []) self.new.sections.items) }
        ensures lost { self.new.lost ≡ self.old.lost }
    {
        let trace = self.trace(script, extent, section)?;
        self.arrows = arrows_after(self.arrows, &trace);
        self.sections.push(trace)?;
        Ok(())
    }
}

impl<'a, C: Clock + Sync> Watch for TraceWatch<'a, C> {
    type Gate = Recorder<'a, C>;

    ghost Saw = { λ script first now sections. HasTraced script now.lost now.sections.items sections };

    ghost Begun = { λ script first now earlier s. HasTraced script now.lost now.sections.items earlier };

    fn begin(
        &mut self,
        alloc: Global,
        _script: &Script,
        _extent: Extent,
        section: &Section,
    ) -> Result<(), NoMemory> {
        let jobs = section.plan.job_pieces();
        let segments = section.plan.segments.len() as u32;
        self.recorder.prepare(alloc, jobs + segments)?;
        self.count = self.count.saturating_add(1);
        self.begun = self.recorder.now();
        if self.count == 1 {
            self.start = self.begun;
        }
        Ok(())
    }

    fn small_jobs(&self) -> SmallJobs {
        SmallJobs::Cut
    }

    fn gate(&self) -> &Recorder<'a, C> {
        &self.recorder
    }

    fn end(&mut self, script: &Script, extent: Extent, section: &Section) {
        self.ran = self.recorder.now();
        if self.keep(script, extent, section).is_err() {
            self.lost = true;
        }
        self.ended = self.recorder.now();
    }
}

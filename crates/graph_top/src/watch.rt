// What draws a run, section by section.
ghost use Rattle.std.specs.Prelude.{◌≡◌, ◌≤◌, ◌++◌, [], ◌∷◌, IfOk, string_bytes};
ghost use Rattle.job_base.specs.declared.limits.TheConstants.{MOST_WORKERS};
ghost use Rattle.graph_top.specs.Drawn.{HasDrawn, head_of};

use crate::drawing::{head_text, section_text};
use frame_ast::script::Script;
use frame_plan::{Section, SmallJobs};
use frame_top::{Extent, Watch};
use frame_view::{Part, Place};
use job_base::{NoMemory, OpenGate};
use std::alloc::{AllocError, Global};

/// Draws each section of a run before it is run.
#[derive(Drop)]
pub(crate) struct DrawingWatch {
    gate: OpenGate,
    workers: u32,
    dot: bool,
    // The number of the next section.
    number: u32,
    text: String,
    ghost some: { 1 ≤ workers },
    ghost most: { workers ≤ MOST_WORKERS },
}

impl DrawingWatch {
    /// Of a run of which no section was begun. The pictures have the levels that the depth report has for so many
    /// workers.
    pub(crate) fn new(alloc: Global, workers: u32, dot: bool) -> Result<DrawingWatch, AllocError>
        requires workers { (1 ≤ workers) × (workers ≤ MOST_WORKERS) }
        ensures workers { IfOk result (λ watch. watch.workers ≡ workers) }
        ensures dot { IfOk result (λ watch. watch.dot ≡ dot) }
        ensures number { IfOk result (λ watch. watch.number ≡ 1) }
        ensures text { IfOk result (λ watch. string_bytes watch.text ≡ head_of dot) }
    {
        let text = head_text(alloc, dot)?;
        Ok(DrawingWatch {
            gate: OpenGate,
            workers,
            dot,
            number: 1,
            text,
        })
    }

    /// The text of what was drawn.
    pub(crate) fn into_text(self) -> String
        ensures { result ≡ self.text }
    {
        self.text
    }
}

impl Watch for DrawingWatch {
    type Gate = OpenGate;

    ghost Saw = { λ script first now sections. (now.workers ≡ first.workers) × (now.dot ≡ first.dot)
        × HasDrawn script now.workers now.dot now.number (string_bytes now.text) sections };

    ghost Begun = { λ script first now earlier s. (now.workers ≡ first.workers) × (now.dot ≡ first.dot)
        × HasDrawn script now.workers now.dot now.number (string_bytes now.text) (earlier ++ s ∷ []) };

    fn begin(
        &mut self,
        alloc: Global,
        script: &Script,
        extent: Extent,
        section: &Section,
    ) -> Result<(), NoMemory> {
        let part = Part::of(script, extent.from, extent.to, extent.held);
        let place = Place {
            number: self.number,
            before: section.jobs_before,
        };
        let text = section_text(
            alloc,
            script,
            part,
            &section.plan,
            place,
            self.workers,
            self.dot,
        )?;
        self.text.push_str(text.as_str())?;
        self.number = self.number.saturating_add(1);
        Ok(())
    }

    fn small_jobs(&self) -> SmallJobs {
        SmallJobs::Cut
    }

    fn gate(&self) -> &OpenGate {
        &self.gate
    }

    fn end(&mut self, _script: &Script, _extent: Extent, _section: &Section) {}
}

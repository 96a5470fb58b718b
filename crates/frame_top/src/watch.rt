// What looks on while a script is run.
ghost use Rattle.std.specs.Prelude.{◌≤◌, ◌++◌, List, [], ◌∷◌, length, OnOk};
ghost use Rattle.frame_ast.specs.declared.script.Script.{Script as ScriptTree};
ghost use Rattle.frame_ast.specs.Accepted.{IsAccepted};
ghost use Rattle.frame_core.specs.Ordered.{IsWellOrderedPlan};
ghost use Rattle.frame_top.specs.Seen.{SectionAt, section_at};

use crate::extent::Extent;
use frame_ast::script::Script;
use frame_plan::{Section, SmallJobs};
use job_base::{Gate, NoMemory};
use std::alloc::Global;

/// What is told of each section of a run before and after it, and gives the gate round its pieces. A run gives the same
/// answer whoever looks on; and it tells of exactly the sections that it runs, each once, in their order.
pub trait Watch {
    type Gate: Gate + Sync;

    /// What is so once it was told that some sections of a script were run: of it as it was before the first one, and
    /// as it is.
    ghost Saw: { ScriptTree → Self → Self → List SectionAt → Type 0 };

    /// The same, and that one section more is about to be run.
    ghost Begun: { ScriptTree → Self → Self → List SectionAt → SectionAt → Type 0 };

    /// A section was planned and is about to be run. Where no memory is found the run ends here, as where the section
    /// itself finds none.
    fn begin(
        &mut self,
        alloc: Global,
        script: &Script,
        extent: Extent,
        section: &Section,
    ) -> Result<(), NoMemory>
        requires accepted { IsAccepted script.now }
        requires well { IsWellOrderedPlan section.now.plan }
        requires within { extent.to ≤ length script.now.statements.items }
        ensures begun { OnOk result ((first : Self) (earlier : List SectionAt) → Saw script.now first self.old earlier
            → Begun script.now first self.new earlier (section_at extent section.now)) };

    /// How jobs of little work are cut: who looks at the pieces gets them as they are scheduled.
    fn small_jobs(&self) -> SmallJobs;

    /// The gate round the pieces of the section that was begun last.
    fn gate(&self) -> &Self::Gate;

    /// The section was run, and each of its pieces was left.
    fn end(&mut self, script: &Script, extent: Extent, section: &Section)
        requires accepted { IsAccepted script.now }
        requires well { IsWellOrderedPlan section.now.plan }
        requires within { extent.to ≤ length script.now.statements.items }
        ensures seen { (first : Self) (earlier : List SectionAt)
            → Begun script.now first self.old earlier (section_at extent section.now)
            → Saw script.now first self.new (earlier ++ section_at extent section.now ∷ []) };
}

/// Looks at nothing but the pieces, through a gate.
#[derive(Drop)]
pub struct GateAlone<'a, G> {
    pub gate: &'a G,
    /// How jobs of little work are cut.
    pub small_jobs: SmallJobs,
}

impl<G: Gate + Sync> Watch for GateAlone<'_, G> {
    type Gate = G;

    ghost Saw = { λ _ _ _ _. Unit {0} };

    ghost Begun = { λ _ _ _ _ _. Unit {0} };

    fn begin(
        &mut self,
        _alloc: Global,
        _script: &Script,
        _extent: Extent,
        _section: &Section,
    ) -> Result<(), NoMemory> {
        Ok(())
    }

    fn small_jobs(&self) -> SmallJobs {
        self.small_jobs
    }

    fn gate(&self) -> &G {
        self.gate
    }

    fn end(&mut self, _script: &Script, _extent: Extent, _section: &Section) {}
}

// A run of a script between two of its sections.
ghost use Rattle.std.specs.Prelude.{◌≡◌, false, None, IfErr, IfOk};
ghost use Rattle.frame_ast.specs.Accepted.{IsAccepted};
ghost use Rattle.plan_statements.specs.Tables.{columns_of};
ghost use Rattle.frame_top.specs.Refusals.{frame_refusal};
ghost use Rattle.frame_stage.specs.Stages.{places_for};
ghost use Rattle.frame_host.specs.Scripts.{IsBeginFault, IsRefusedAs, tree_of};
ghost use Rattle.frame_host.specs.Frames.{IsBetween, IsNew, IsUnderway, columns_in, places_in, plan_in, tree_in};

use crate::script::FrameScript;
use crate::section::FrameSection;
use crate::text::KeptText;
use frame_ast::script::Script;
use frame_plan::{PlanFault, SectionBook, SmallJobs, missing_column};
use frame_stage::{Hold, Stage, Staged, room_for, set_stage};
use frame_top::{Progress, begin_frame, next_section};
use job_base::{FlatMem, NoMemory, OpenGate};
use std::alloc::Global;
use std::mem;
use std::sync::Arc;
use table_in::Table;

/// Why a script isn't run.
#[derive(Clone, Copy, Debug, PartialEq, Eq)]
pub enum BeginFault {
    /// The table lacks the column of the statement at this place, counted from 0.
    NoColumn { statement: u32 },
    /// A limit of the language is passed, or memory wasn't found.
    Plan(PlanFault),
}

/// A run of a script between two of its sections. The next one can be made.
#[derive(Drop)]
pub struct Frame {
    pub(crate) tree: Arc<Script, Global>,
    pub(crate) table: Table,
    pub(crate) book: SectionBook,
    pub(crate) progress: Progress,
    pub(crate) text: KeptText,
}

impl Frame {
    /// A run of the script with these columns, before its first section. `Table::none` and `Table::push_column` make a
    /// table of a program's own arrays; each has a length of its own.
    pub fn begin(alloc: Global, script: &FrameScript, table: Table) -> Result<Frame, BeginFault>
        requires accepted { IsAccepted (tree_of script.now) }
        ensures sound { IfOk result IsBetween }
        ensures script { IfOk result (λ frame. tree_in frame ≡ tree_of script.now) }
        ensures table { IfOk result (λ frame. columns_in frame ≡ table) }
        ensures stands { IfOk result (λ frame. frame_refusal (tree_of script.now) (columns_of table) false ≡ None) }
        ensures fault { IfErr result (IsBeginFault (tree_of script.now) (columns_of table)) }
        ensures refused { IfErr result (IsRefusedAs (tree_of script.now) (columns_of table)) }
    {
        let shown: &Script = &*script.tree;
        if let Some(statement) = missing_column(shown, &table) {
            return Err(BeginFault::NoColumn { statement });
        }
        let book = match SectionBook::new(alloc, shown, &table, SmallJobs::Cut) {
            Ok(book) => book,
            Err(fault) => return Err(BeginFault::Plan(fault)),
        };
        let Ok(progress) = begin_frame(alloc) else {
            return Err(BeginFault::Plan(PlanFault::NoMemory));
        };
        match Arc::try_clone(&script.tree) {
            Ok(tree) => Ok(Frame {
                tree,
                table,
                book,
                progress,
                text: KeptText::new(alloc),
            }),
            Err(_) => Err(BeginFault::Plan(PlanFault::NoMemory)),
        }
    }

    /// Plans the next section, and makes all that its run needs, with a place for each of so many helpers; but for no
    /// more than it has pieces of jobs, nor than 63.
    pub fn next(self, alloc: Global, helpers: u32) -> Result<FrameSection, NoMemory>
        requires sound { IsBetween self }
        ensures sound { IfOk result IsUnderway }
        ensures script { IfOk result (λ section. tree_in section.frame ≡ tree_in self) }
        ensures table { IfOk result (λ section. columns_in section.frame ≡ columns_in self) }
        ensures places { IfOk result (λ section. places_in section ≡ places_for (plan_in section) helpers) }
        ensures begins { IfOk result (λ section. IsNew section) }
    {
        let mut frame = self;
        let section = next_section(
            alloc,
            &frame.tree,
            &frame.table,
            &mut frame.book,
            &mut frame.progress,
        )?;
        let spare = mem::replace(&mut frame.progress.cells, FlatMem::of(Vec::new(alloc)));
        let left = room_for(&section.plan, spare.into_cells())?;
        let Staged {
            stage,
            first,
            others,
        } = set_stage(alloc, section, helpers)?;
        let shown: &Stage = &*stage;
        let turns = shown.turns(&OpenGate);
        let at = turns.begin(&first, &frame.progress.out, &frame.text);
        Ok(FrameSection {
            frame,
            stage: Hold::Alone(stage),
            place: first,
            others,
            at,
            left,
            ended: None,
        })
    }
}

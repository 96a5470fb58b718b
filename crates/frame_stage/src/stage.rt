// What all who run a section share, and its places.
ghost use Rattle.std.specs.Prelude.{◌≡◌, ◌≤◌, ◌+◌, All, IfOk, length};
ghost use Rattle.job_base.specs.declared.limits.TheConstants.{MOST_WORKERS};
ghost use Rattle.frame_core.specs.Ordered.{IsWellOrderedPlan};
ghost use Rattle.steal_pool.specs.Seats.{IsFirst, IsReady};
ghost use Rattle.word_board.specs.Boards.{home_of, know_of, name_of};
ghost use Rattle.frame_stage.specs.Stages.{IsStage, places_for};

use frame_core::Plan;
use frame_plan::Section;
use job_base::limits::MOST_WORKERS;
use job_base::{FlatMem, NoMemory, OpenGate};
use std::alloc::Global;
use steal_pool::laws::rooms_are_ready;
use steal_pool::{Place, PoolRoom, Shared, Turns};
use word_board::{WordBoard, WordSeat};

/// A section, its board, and what the workers of its room share.
#[derive(Drop)]
pub struct Stage {
    pub section: Section,
    pub board: WordBoard,
    pub shared: Shared,
}

/// A stage with its places, the first one that of the script's thread.
#[derive(Drop)]
pub struct Staged {
    pub stage: Box<Stage>,
    pub first: Place<WordSeat>,
    pub others: Vec<Place<WordSeat>>,
}

impl Stage {
    /// The turns of its run.
    pub fn turns<'a>(&'a self, gate: &'a OpenGate) -> Turns<'a, WordBoard, OpenGate>
        ensures plan { result.plan.now ≡ self.now.section.plan }
        ensures board { result.board.now ≡ self.now.board }
        ensures shared { result.shared.now ≡ self.now.shared }
    {
        Turns {
            plan: &self.section.plan,
            board: &self.board,
            gate,
            shared: &self.shared,
        }
    }
}

// How many seats a board needs: one for the script's thread, and one for each helper that can have a piece.
fn seats_for(plan: &Plan, helpers: u32) -> u32
    requires well { IsWellOrderedPlan plan.now }
    ensures seats { result ≡ places_for plan.now helpers + 1 }
    ensures some { 1 ≤ result }
    ensures most { result ≤ MOST_WORKERS }
{
    helpers.min(plan.job_pieces()).min(MOST_WORKERS - 1) + 1
}

/// Sets the stage of a section, for so many helpers and no more than it has pieces.
pub fn set_stage(alloc: Global, section: Section, helpers: u32) -> Result<Staged, NoMemory>
    requires well { IsWellOrderedPlan section.plan }
    ensures section { IfOk result (λ s. s.stage.value.section ≡ section) }
    ensures stage { IfOk result (λ s. IsStage s.stage.value) }
    ensures first { IfOk result (λ s.
        IsFirst home_of know_of (name_of s.stage.value.board) 0 s.first) }
    ensures others { IfOk result (λ s.
        All (IsReady home_of know_of (name_of s.stage.value.board)) s.others.items) }
    ensures places { IfOk result (λ s. length s.others.items ≡ places_for section.plan helpers) }
{
    let seats = seats_for(&section.plan, helpers);
    let (board, made) = WordBoard::make(alloc, &section.plan, seats)?;
    let room = PoolRoom::make(alloc, &section.plan, made)?;
    rooms_are_ready::<WordBoard>();
    let PoolRoom {
        first,
        others,
        shared,
    } = room;
    let stage = Stage {
        section,
        board,
        shared,
    };
    match Box::new(alloc, stage) {
        Ok(stage) => Ok(Staged {
            stage,
            first,
            others,
        }),
        Err(_) => Err(NoMemory),
    }
}

/// Room for the cells that a plan leaves, in a list that is needed no more.
pub fn room_for(plan: &Plan, spare: Vec<i64>) -> Result<FlatMem, NoMemory>
    ensures { IfOk result (λ left. length left ≡ plan.now.words) }
{
    let mut cells = spare;
    cells.resize(plan.words as usize, 0)?;
    Ok(FlatMem::of(cells))
}

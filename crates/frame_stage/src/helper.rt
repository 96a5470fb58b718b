// What a thread has that helps.
ghost use Rattle.std.specs.Prelude.{◌≡◌, ◌↔◌, IsTrue, true};
ghost use Rattle.steal_pool.specs.Seats.{IsIdle, IsReady};
ghost use Rattle.steal_pool.specs.declared.turns.HelperTurn.{HelperTurn};
ghost use Rattle.word_board.specs.Boards.{home_of, know_of, name_of};
ghost use Rattle.frame_stage.specs.Stages.{HasSeenAll, IsHelper, IsStage, SeesAll};

use crate::hold::Part;
use crate::stage::Stage;
use frame_core::Board;
use job_base::{JobId, OpenGate};
use steal_pool::{HelperTurn, Place};
use word_board::WordSeat;

/// A place in the run of one section, for a thread that helps. To give it back is to drop it; its section ends once all
/// of its helpers are given back.
#[derive(Drop)]
pub struct FrameHelper {
    pub stage: Part,
    pub place: Place<WordSeat>,
    /// It saw that each job of its section is finished.
    pub over: bool,
}

// Whether each job of a section is finished, as a seat sees.
fn sees_all(stage: &Stage, seat: &mut WordSeat) -> bool
    requires stage { IsStage stage.now }
    requires home { home_of seat.old ≡ name_of stage.now.board }
    requires idle { IsIdle (know_of seat.old) }
    ensures all { result ≡ true → HasSeenAll stage.now.section.plan seat.new }
    ensures home { home_of seat.new ≡ name_of stage.now.board }
    ensures idle { IsIdle (know_of seat.new) }
{
    for j in 0..stage.section.plan.jobs.len() as u32 {
        if !stage.board.finished(seat, JobId(j + 1)) {
            return false;
        }
    }
    true
}

// The same of the seat of a place.
fn place_sees_all(stage: &Stage, place: &mut Place<WordSeat>) -> bool
    requires stage { IsStage stage.now }
    requires ready { IsReady home_of know_of (name_of stage.now.board) place.old }
    ensures all { result ≡ true → SeesAll stage.now.section.plan place.new }
    ensures ready { IsReady home_of know_of (name_of stage.now.board) place.new }
{
    let Some(seat) = place.seat.take() else {
        unreachable!()
    };
    let mut own = seat;
    let all = sees_all(stage, &mut own);
    place.seat = Some(own);
    all
}

impl FrameHelper {
    /// Runs a piece, if one is found, and returns. It answers `Over` only where it has seen that each job of its
    /// section is finished, and from then on always, so that it can be given back. It looks for that once the script's
    /// thread is through.
    pub fn turn(&mut self) -> HelperTurn
        requires sound { IsHelper self.old }
        ensures over { result ≡ HelperTurn.Over ↔ IsTrue self.new.over }
        ensures always { IsTrue self.old.over → self.new ≡ self.old }
        ensures stage { self.new.stage ≡ self.old.stage }
        ensures sound { IsHelper self.new }
    {
        if self.over {
            return HelperTurn::Over;
        }
        let stage: &Stage = &**self.stage;
        let turns = stage.turns(&OpenGate);
        match turns.helper_turn(&mut self.place) {
            HelperTurn::Ran => HelperTurn::Ran,
            HelperTurn::Idle => HelperTurn::Idle,
            HelperTurn::Over => {
                self.over = place_sees_all(stage, &mut self.place);
                if self.over {
                    HelperTurn::Over
                } else {
                    HelperTurn::Idle
                }
            }
        }
    }
}

fn sent_to_threads<T: Send>(_it: &T) {}

// A helper goes to the thread that helps. Nothing calls this: that it is accepted shows it.
fn crosses(helper: &FrameHelper) {
    sent_to_threads(helper);
}

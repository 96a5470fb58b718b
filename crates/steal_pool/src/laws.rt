//! Laws over the definitions. A function here does nothing: its contract is the law.
ghost use Rattle.steal_pool.specs.Laws.{RoomsAreReady};
ghost use Rattle.steal_pool.specs.Sections.{ReportsAreWithin};

use frame_core::Board;

/// A room that is made of a board's seats, as they were made and in their order, is ready for a run on that board.
pub fn rooms_are_ready<B: Board>()
    ensures { RoomsAreReady B.home B.know }
{}

/// The counts of a report are bounded by its plan, and its first trap is of a job of the plan.
pub fn reports_are_within()
    ensures { ReportsAreWithin }
{}

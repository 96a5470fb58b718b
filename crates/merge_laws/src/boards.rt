//! The rule of a board without locks.

ghost use Rattle.merge_laws.specs.BoardLaws.{BoardsStayRuled, ClosedBoardsAreInScriptOrder, CountdownsNeverRise, LeasedWordsHoldLocalCells, NewBoardsAreRuled, PiecesBeginOnce, RightsComeOnce, StatesGoOneByOne, StatesNeverFall, StepsAreCoreSteps, StepsKeepTheRule, UnblockedPiecesAreReady};

/// A new board meets the rule.
pub fn new_boards_are_ruled()
    ensures { NewBoardsAreRuled }
{}

/// What the countdowns say of a piece is what the merge asks of it.
pub fn unblocked_pieces_are_ready()
    ensures { UnblockedPiecesAreReady }
{}

/// Each atomic step keeps the rule.
pub fn steps_keep_the_rule()
    ensures { StepsKeepTheRule }
{}

/// Each atomic step is a begin, a store or an end of the core, or leaves it.
pub fn steps_are_core_steps()
    ensures { StepsAreCoreSteps }
{}

/// A piece goes from closed to open, to begun, to ended, one state at a step.
pub fn states_go_one_by_one()
    ensures { StatesGoOneByOne }
{}

/// Whatever a board reaches from its opening is ruled.
pub fn boards_stay_ruled()
    ensures { BoardsStayRuled }
{}

/// No state falls again: a piece is opened, begun and ended once at most.
pub fn states_never_fall()
    ensures { StatesNeverFall }
{}

/// Whoever began a piece, nobody begins it again.
pub fn pieces_begin_once()
    ensures { PiecesBeginOnce }
{}

/// No countdown rises again.
pub fn countdowns_never_rise()
    ensures { CountdownsNeverRise }
{}

/// The rights to open a job's pieces come once, by the last release.
pub fn rights_come_once()
    ensures { RightsComeOnce }
{}

/// A leased word holds the lease's local cell, whatever others do.
pub fn leased_words_hold_local_cells()
    ensures { LeasedWordsHoldLocalCells }
{}

/// Where all segments are ended, the cells are those after the run in script order.
pub fn closed_boards_are_in_script_order()
    ensures { ClosedBoardsAreInScriptOrder }
{}

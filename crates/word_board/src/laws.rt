//! Laws over the definitions: what the rule says of the words of a board, between any two steps. A function here does
//! nothing: its contract is the law.
ghost use Rattle.word_board.specs.Laws.{ClosedBoardsAreDone, CountdownsAreExact, LeasedPiecesAreBegun, LeasedWordsHoldTheirCells, NamesTellBoards, OpenPiecesAreReady, PiecesAreLeasedOnce, PiecesToOpenAreClosed, RightsAreHeldOnce};

/// A word that a leased piece reads holds the lease's cell, whatever other seats did.
pub fn leased_words_hold_their_cells()
    ensures { LeasedWordsHoldTheirCells }
{}

/// The state of a leased piece says that it was begun and isn't ended.
pub fn leased_pieces_are_begun()
    ensures { LeasedPiecesAreBegun }
{}

/// No two seats lease one piece.
pub fn pieces_are_leased_once()
    ensures { PiecesAreLeasedOnce }
{}

/// A piece that isn't closed has only ended predecessors.
pub fn open_pieces_are_ready()
    ensures { OpenPiecesAreReady }
{}

/// A piece that some seat may open is closed: no state goes back.
pub fn pieces_to_open_are_closed()
    ensures { PiecesToOpenAreClosed }
{}

/// No two seats may open one piece.
pub fn rights_are_held_once()
    ensures { RightsAreHeldOnce }
{}

/// The countdowns are exact.
pub fn countdowns_are_exact()
    ensures { CountdownsAreExact }
{}

/// Where the first seat ended all segments, the cells are those after the run in script order.
pub fn closed_boards_are_done()
    ensures { ClosedBoardsAreDone }
{}

/// Boards of one name have one table and one plan.
pub fn names_tell_boards()
    ensures { NamesTellBoards }
{}

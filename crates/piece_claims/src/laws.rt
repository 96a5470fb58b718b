//! Laws over the definitions. A function here does nothing: its contract is the law.
ghost use Rattle.piece_claims.specs.Claims.{PiecesAreGivenOnce, SeenPiecesAreGiven};

/// No piece of a job is given to two workers: of the tokens by which pieces are given, no two have one.
pub fn pieces_are_given_once()
    ensures { PiecesAreGivenOnce }
{}

/// What a worker saw given of a job is given: each of these pieces is some token's.
pub fn seen_pieces_are_given()
    ensures { SeenPiecesAreGiven }
{}

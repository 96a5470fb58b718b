//! Names of boards.
ghost use Rattle.std.specs.Prelude.{ℕ};

use std::marker::Brand;

/// Names a board, as the parameter of its type and of its seats' type. The name is that of a token which the board
/// owns and of which there is no other. So there are no two boards of one name, and a seat fits its own board alone.
pub trait BoardName {
    ghost board: { ℕ };
}

impl BoardName for Brand {
    ghost board = { 0 };
}

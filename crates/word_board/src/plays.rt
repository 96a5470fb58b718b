//! The rule of the table, and what each kind of step makes of the view. `specs/Rule` and `specs/Plays` say it.
ghost use Rattle.word_board.specs.Rule.{Holds};
ghost use Rattle.word_board.specs.Views.{fresh_view, opening_view};
ghost use Rattle.word_board.specs.Plays.{Begins, Counts, Ends, Loads, Opens, Releases, Sees, Stores};

use crate::view::View;
use atomic_table::{Play, Split, TableRule};
use frame_core::Plan;

/// The rule of a board, and the view of its first seat.
pub struct Ruled;

impl TableRule<u8, View, Plan> for Ruled {
    ghost holds = { Holds };

    ghost first = { opening_view };
}

/// A seat is cut in two: the one keeps all, the other is new.
pub struct Splitting;

impl Split<View> for Splitting {
    ghost left = { λ v. v };

    ghost right = { fresh_view };
}

/// A load of a leased word.
pub struct Loading;

impl Play<u8, View> for Loading {
    ghost then = { Loads };
}

/// A store into a leased word.
pub struct Storing;

impl Play<u8, View> for Storing {
    ghost then = { Stores };
}

/// A piece is begun, where it was open.
pub struct Beginning;

impl Play<u8, View> for Beginning {
    ghost then = { Begins };
}

/// A leased piece ends.
pub struct Ending;

impl Play<u8, View> for Ending {
    ghost then = { Ends };
}

/// An ended piece is counted.
pub struct Counting;

impl Play<u8, View> for Counting {
    ghost then = { Counts };
}

/// A job is released by one predecessor.
pub struct Releasing;

impl Play<u8, View> for Releasing {
    ghost then = { Releases };
}

/// A piece is opened.
pub struct Opening;

impl Play<u8, View> for Opening {
    ghost then = { Opens };
}

/// A look whether a job is finished.
pub struct Seeing;

impl Play<u8, View> for Seeing {
    ghost then = { Sees };
}

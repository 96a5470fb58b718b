// What is known of the counts of pieces that were given out, and what each step tells. `specs/Given` says it.
ghost use Rattle.piece_claims.specs.Given.{AreGiven, Looks, Takes};
ghost use Rattle.piece_claims.specs.declared.view.View.TheVariants.{Saw};

use atomic_table::{Play, TableRule};

/// What a token knows. No value of it is made: it is what contracts speak of. Jobs go by their places, from 0.
pub enum View {
    /// Of a job: so many of its pieces were given out.
    Saw(u64, u64),
    /// Of a job: its pieces from this place on, from 0, and so many, are given to this token.
    Given(u64, u64, u64),
}

/// The rule of the counts.
pub struct Ruled;

impl TableRule<u8, View, usize> for Ruled {
    ghost holds = { AreGiven };

    ghost first = { λ _. Saw 0 0 };
}

/// A look at a count, by a new token.
pub struct Looking;

impl Play<u8, View> for Looking {
    ghost then = { Looks };
}

/// A count goes up, where it is what was expected.
pub struct Claiming;

impl Play<u8, View> for Claiming {
    ghost then = { Takes };
}

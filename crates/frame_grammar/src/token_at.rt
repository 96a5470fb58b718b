//! The places of tokens.

ghost use Rattle.std.specs.Prelude.{◌≡◌};

use std::marker::Model;

/// A token, told by its place among others, counted from 0.
///
/// A type of its own, so that neither a count nor the number of a name stands where a token is wanted.
#[derive(Clone, Copy, Debug, PartialEq, Eq)]
pub struct TokenAt {
    place: u32,
}

impl Model for TokenAt {
    ghost use Rattle.std.specs.Prelude.{ℕ};

    ghost Value = { ℕ };

    ghost view = { λ s. s.place };

    ghost inverse = { λ place. record { place = place } };
}

impl TokenAt {
    /// The token at a place.
    #[inline(always)]
    pub fn of(place: u32) -> Self
        ensures { result ≡ place }
    {
        TokenAt { place }
    }

    /// Its place.
    #[inline(always)]
    pub fn place(self) -> u32
        ensures { result ≡ self }
    {
        self.place
    }

    /// Its place as an index of a list of tokens.
    #[inline(always)]
    pub fn index(self) -> usize
        ensures { result ≡ self }
    {
        self.place as usize
    }
}

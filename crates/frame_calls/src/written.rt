// The text that was written so far, for the proof alone.
ghost use Rattle.std.specs.Prelude.{◌≡◌, ℕ, List, [], ◌++◌};
ghost use Rattle.std.specs.Borrow.{ftrue};

use std::marker::Model;

/// A part of a text.
#[derive(Clone, Copy, Drop)]
pub struct Part<'a> {
    pub bytes: &'a [u8],
}

/// What was written so far. Only proofs read it: it has no bytes, and its methods do nothing at run time.
#[derive(Drop)]
pub struct Written {
    pub ghost text: { List ℕ },
}

impl Model for Written {
    ghost also_owns = { λ _. ftrue };
}

impl Written {
    /// Nothing.
    pub fn nothing() -> Written
        ensures { result.text ≡ [] }
    {
        Written {}
    }

    /// A part more.
    #[inline(always)]
    pub fn and(&self, _part: &Part<'_>) -> Written
        ensures { result.text ≡ self.now.text ++ _part.now.bytes.now }
    {
        Written {}
    }
}

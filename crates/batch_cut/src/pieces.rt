// The pieces of a cut.
ghost use Rattle.std.specs.Prelude.{◌≡◌, ◌+◌, ◌*◌, ◌<◌, ◌≤◌};
ghost use Rattle.batch_cut.specs.Cuts.{count_of, piece_of, IsCovered};

use job_base::Span;
use job_base::limits::{MOST_INDEXES, MOST_PIECES};

/// The cut of the indexes `0..n` into pieces of `step` indexes, the last of which may be shorter.
#[derive(Clone, Copy, Debug, PartialEq, Eq)]
pub struct Cut {
    pub n: u32,
    pub step: u32,
}

impl Cut {
    /// How many pieces there are: 1 to [`MOST_PIECES`]. No index makes one empty piece.
    pub fn count(&self) -> u32
        requires step { (1 ≤ self.now.step) × (self.now.step ≤ MOST_INDEXES) }
        requires indexes { self.now.n ≤ MOST_PIECES * self.now.step }
        ensures count { result ≡ count_of self.now.n self.now.step }
        ensures few { (1 ≤ result) × (result ≤ MOST_PIECES) }
        ensures cover { IsCovered self.now.n self.now.step result }
    {
        if self.n == 0 {
            1
        } else {
            self.n.div_ceil(self.step)
        }
    }

    /// The indexes of piece k.
    pub fn range(&self, k: u32) -> Span
        requires step { (1 ≤ self.now.step) × (self.now.step ≤ MOST_INDEXES) }
        requires indexes { self.now.n ≤ MOST_PIECES * self.now.step }
        requires piece { k < count_of self.now.n self.now.step }
        ensures piece { result ≡ piece_of self.now.n self.now.step k }
        ensures within { result.start + result.len ≤ self.now.n }
    {
        let start = k * self.step;
        let end = (start + self.step).min(self.n);
        Span {
            start,
            len: end - start,
        }
    }
}

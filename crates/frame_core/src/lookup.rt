//! What the number of a piece names, and the indexes of a job's piece.
ghost use Rattle.std.specs.Prelude.{◌≡◌, ◌<◌, ◌≤◌, ◌+◌, length, Some, slice_get};
ghost use Rattle.frame_core.specs.Names.{pieces_of, indexes_of, pieces_before, job_pieces};
ghost use Rattle.frame_core.specs.Pieces.{piece_numbered};
ghost use Rattle.frame_core.specs.Know.{piece_count};
ghost use Rattle.frame_core.specs.Ordered.{IsCutIn, IsSized, IsWellOrderedPlan};

use crate::piece::Piece;
use crate::plan::{JobPlan, Plan};
use job_base::{PieceId, Span};

impl JobPlan {
    /// How many pieces the job has.
    pub fn pieces(&self) -> u32
        requires cut { IsCutIn self.now }
        ensures { result ≡ pieces_of self.now }
    {
        if self.parallel { self.cut.count() } else { 1 }
    }

    /// The indexes of one of its pieces.
    pub fn indexes(&self, i: u32) -> Span
        requires cut { IsCutIn self.now }
        requires piece { i < pieces_of self.now }
        ensures indexes { result ≡ indexes_of self.now i }
        ensures within { result.start + result.len ≤ self.now.cut.n }
    {
        if self.parallel {
            self.cut.range(i)
        } else {
            Span {
                start: 0,
                len: self.cut.n,
            }
        }
    }
}

impl Plan {
    /// How many pieces the jobs have together. The segments are numbered after them.
    pub fn job_pieces(&self) -> u32
        requires sized { IsSized self.now }
        ensures { result ≡ job_pieces self.now }
    {
        self.words - self.cells
    }

    /// The piece that a number names. It looks among the jobs by halving.
    pub fn piece(&self, p: PieceId) -> Piece
        requires well { IsWellOrderedPlan self.now }
        requires piece { p.0 < piece_count self.now }
        ensures { result ≡ piece_numbered self.now p.0 }
    {
        let parts = self.job_pieces();
        if p.0 >= parts {
            return Piece::OfScript(p.0 - parts);
        }
        let j = self.job_with(p.0);
        Piece::OfJob(j, p.0 - self.jobs[j as usize].first.0)
    }

    // The place of the job that has the piece of that number.
    pub(crate) fn job_with(&self, p: u32) -> u32
        requires well { IsWellOrderedPlan self.now }
        requires piece { p < job_pieces self.now }
        ensures below { result < length self.now.jobs.items }
        ensures from { pieces_before self.now.jobs.items result ≤ p }
        ensures end { p < pieces_before self.now.jobs.items (result + 1) }
    {
        let mut low = 0;
        let mut high = self.jobs.len() as u32;
        while high - low > 1 {
            let middle = low + (high - low) / 2;
            if self.jobs[middle as usize].first.0 <= p {
                low = middle;
            } else {
                high = middle;
            }
        }
        low
    }
}

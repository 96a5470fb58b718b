// How large the pieces are.
ghost use Rattle.std.specs.Prelude.{◌≡◌, ◌*◌, ◌≤◌};
ghost use Rattle.batch_cut.specs.Cuts.{step_of, count_of, IsCovered};

use crate::pieces::Cut;
use job_base::limits::{MOST_INDEXES, MOST_PIECES};

/// Cuts `0..n`, at most [`MOST_INDEXES`] indexes, into pieces of at least `batch` indexes. The pieces are larger than a
/// batch only where there would be more than [`MOST_PIECES`] of them.
///
/// <https://docs.unity3d.com/ScriptReference/Unity.Jobs.IJobParallelFor.html>
pub fn cut(n: u32, batch: u32) -> Cut
    requires indexes { n ≤ MOST_INDEXES }
    requires batch { (1 ≤ batch) × (batch ≤ MOST_INDEXES) }
    ensures indexes { result.n ≡ n }
    ensures step { result.step ≡ step_of n batch }
    ensures met { (1 ≤ result.step) × (result.step ≤ MOST_INDEXES) × (result.n ≤ MOST_PIECES * result.step) }
    ensures cover { IsCovered result.n result.step (count_of result.n result.step) }
{
    Cut {
        n,
        step: batch.max(n.div_ceil(MOST_PIECES)),
    }
}

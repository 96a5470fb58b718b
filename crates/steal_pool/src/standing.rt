// How far the script's thread is in a run by turns.

use frame_core::Report;
use plan_run::no_traps;

/// How far the script's thread is in a run by turns, between two of its turns.
#[derive(Drop)]
pub struct Standing {
    /// The segment that comes next.
    pub(crate) segment: u32,
    /// How many of the jobs that this segment waits for were seen finished, in the order in which it names them.
    pub(crate) waited: usize,
    /// The segment is open.
    pub(crate) opened: bool,
    /// A write failed.
    pub(crate) failed: bool,
    /// How many statements were refused.
    pub(crate) refused: u64,
    /// The traps that the segment before it counted. The last segment counts those of the run.
    pub(crate) last: Report,
}

impl Standing {
    ghost use Rattle.std.specs.Prelude.{◌≡◌, false};

    /// Before the first segment.
    pub(crate) fn first() -> Standing
        ensures segment { result.segment ≡ 0 }
        ensures waited { result.waited ≡ 0 }
        ensures opened { result.opened ≡ false }
        ensures failed { result.failed ≡ false }
        ensures refused { result.refused ≡ 0 }
    {
        Standing {
            segment: 0,
            waited: 0,
            opened: false,
            failed: false,
            refused: 0,
            last: no_traps(),
        }
    }
}

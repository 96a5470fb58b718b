//! Worked plans: one of four pieces, two of which commute, and one in which a word is used again. What the definitions
//! say of them is computed.

ghost use Rattle.merge_laws.specs.DiamondBoard.{DiamondIsRun};
ghost use Rattle.merge_laws.specs.Examples.{DiamondCounts, DiamondIsAPlan, DiamondMerges, DiamondRuns, IllegalRuns};
ghost use Rattle.merge_laws.specs.Reuse.{ReuseIsInOrder};

/// The plan meets every premise of the laws.
pub fn diamond_is_a_plan()
    ensures { DiamondIsAPlan }
{}

/// Its runs have the same cells, in script order and out of it.
pub fn diamond_runs()
    ensures { DiamondRuns }
{}

/// What isn't a legal run of it.
pub fn illegal_runs()
    ensures { IllegalRuns }
{}

/// What its words hold while pieces run.
pub fn diamond_merges()
    ensures { DiamondMerges }
{}

/// What its countdowns are while pieces run.
pub fn diamond_counts()
    ensures { DiamondCounts }
{}

/// The plan runs on a board without locks, by twenty atomic steps from the opening to the end.
pub fn diamond_is_run()
    ensures { DiamondIsRun }
{}

/// A plan in which a word is used again, made step by step, is in order, and isn't where the last segment doesn't wait.
pub fn reuse_is_in_order()
    ensures { ReuseIsInOrder }
{}

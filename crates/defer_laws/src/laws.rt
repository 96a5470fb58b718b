//! Laws over the definitions. A function here does nothing: its contract is the law.
ghost use Rattle.defer_laws.specs.Deferring.{GuardedKernelsStandIn};
ghost use Rattle.defer_laws.specs.GuardedRuns.{GuardedIndexesRunAlike};

/// The guarded kernel, at every index that the list can have, stands in for the kernel of a schedule with `defer`.
pub fn guarded_kernels_stand_in()
    ensures { GuardedKernelsStandIn }
{}

// A STEP

/// All indexes of a guarded kernel do what the indexes of the old one below the length do.
pub fn guarded_indexes_run_alike()
    ensures { GuardedIndexesRunAlike }
{}

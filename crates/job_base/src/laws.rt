// Laws over the definitions. A function here does nothing: its contract is the law.

ghost use Rattle.job_base.specs.Limits.{LimitsAreThese};

/// The limits of the language are these numbers.
pub fn limits_are_these()
    ensures { LimitsAreThese }
{}

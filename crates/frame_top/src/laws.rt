// Laws over the definitions. A function here does nothing: its contract is the law.

ghost use Rattle.frame_top.specs.Statuses.{StatusesAreThese};

/// The exit statuses of the program are these numbers.
pub fn statuses_are_these()
    ensures { StatusesAreThese }
{}

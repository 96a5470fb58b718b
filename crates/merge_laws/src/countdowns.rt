//! The countdowns of a lock-free board: each atomic step leaves them exact.

ghost use Rattle.merge_laws.specs.CountLaws.{BeginsStayExact, CountsStayExact, JoinsStayExact, LooksStayExact, PartEndsStayExact, PartOpeningsStayExact, ReleasesStayExact, SegmentEndsStayExact, SegmentOpeningsStayExact, SplitsStayExact};

/// A count lowers the job's `rest` and settles what was owed. The last one brings the duties.
pub fn counts_stay_exact()
    ensures { CountsStayExact }
{}

/// A release lowers the job's `wait` and ends a duty. The last one brings the rights to open.
pub fn releases_stay_exact()
    ensures { ReleasesStayExact }
{}

/// A piece is begun.
pub fn begins_stay_exact()
    ensures { BeginsStayExact }
{}

/// A job's piece ends, and a count is owed.
pub fn part_ends_stay_exact()
    ensures { PartEndsStayExact }
{}

/// A segment ends, and there is a duty on each job that it starts.
pub fn segment_ends_stay_exact()
    ensures { SegmentEndsStayExact }
{}

/// A job's piece is opened by who has the right.
pub fn part_openings_stay_exact()
    ensures { PartOpeningsStayExact }
{}

/// The next segment is opened by the first participant.
pub fn segment_openings_stay_exact()
    ensures { SegmentOpeningsStayExact }
{}

/// A job is seen finished.
pub fn looks_stay_exact()
    ensures { LooksStayExact }
{}

/// A new participant holds nothing.
pub fn splits_stay_exact()
    ensures { SplitsStayExact }
{}

/// Two participants become one, which holds what both held.
pub fn joins_stay_exact()
    ensures { JoinsStayExact }
{}

//! The laws of planning, over a ledger of who touches and uses what.

ghost use Rattle.merge_laws.specs.PlanLaws.{FirstSegmentsAreInOrder, JobsKeepOrder, LedgersKeepOrder, MovesKeepOrder, NewSegmentsKeepOrder, PartsKeepOrder, PlansAreWellOrdered, ReclaimedWordsAreHeldOnce, ReclaimedWordsAreOrdered, SegmentsKeepOrder};

/// A plan begins with a segment that touches nothing yet.
pub fn first_segments_are_in_order()
    ensures { FirstSegmentsAreInOrder }
{}

/// The segment at hand may do more, in containers whose conflicting users are completed.
pub fn segments_keep_order()
    ensures { SegmentsKeepOrder }
{}

/// A piece of the newest job may be listed, where each older job with a conflicting use is free.
pub fn parts_keep_order()
    ensures { PartsKeepOrder }
{}

/// All pieces of the newest job may be listed, where they are apart.
pub fn jobs_keep_order()
    ensures { JobsKeepOrder }
{}

/// A new segment may begin, which comes after what the script just completed.
pub fn new_segments_keep_order()
    ensures { NewSegmentsKeepOrder }
{}

/// The ledger may go on: a job is enrolled, a container is made, or words come back whose users are all completed.
pub fn ledgers_keep_order()
    ensures { LedgersKeepOrder }
{}

/// A container without pending users may move to other words.
pub fn moves_keep_order()
    ensures { MovesKeepOrder }
{}

/// Pieces in order, each of which keeps to its footprint, are a well ordered plan.
pub fn plans_are_well_ordered()
    ensures { PlansAreWellOrdered }
{}

/// Who touched a word before a container was made there leads to everyone who touches it for this container.
pub fn reclaimed_words_are_ordered()
    ensures { ReclaimedWordsAreOrdered }
{}

/// No two leases hold a word, one for an earlier container and one for a later one.
pub fn reclaimed_words_are_held_once()
    ensures { ReclaimedWordsAreHeldOnce }
{}

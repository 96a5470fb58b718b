// What calls on frames answer beside the statuses of a run.

/// The call isn't one for what its handle has. Nothing was changed.
pub const NOT_NOW: u8 = 10;

/// Of a section: not all of its segments are run. Of a helper: a piece was run.
pub const AGAIN: u8 = 11;

/// A helper found nothing to run. There may be later.
pub const IDLE: u8 = 12;

/// All segments of the section are run. Of a helper: it saw that each job of the section is finished.
pub const OVER: u8 = 13;

/// There is another section.
pub const NEXT: u8 = 14;

/// No turn said yet that all segments are run, or helpers aren't given back.
pub const BUSY: u8 = 15;

/// All places for helpers are given out; or the name has no numbers.
pub const NONE: u8 = 16;

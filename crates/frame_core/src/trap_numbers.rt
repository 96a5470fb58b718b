//! The numbers by which traps are kept in words, in the order of job_base's enum.

pub const OVERFLOW: u32 = 1;

pub const ZERO_DIVISOR: u32 = 2;

pub const RANGE: u32 = 3;

pub const OWN_INDEX: u32 = 4;

pub const FULL: u32 = 5;

pub const MISSING_KEY: u32 = 6;

pub const PRESENT_KEY: u32 = 7;

pub const WRITTEN: u32 = 8;

pub const BUDGET: u32 = 9;

/// A note is a number in this base: above the number of traps stands the index of the first one, above that the number
/// of that trap. A job has fewer indexes.
pub const NOTE_UNIT: u64 = 16_777_216;

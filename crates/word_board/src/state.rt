//! What steps write into the word of a piece, which is 0 while the piece is closed. A piece that was begun is ended
//! where no seat leases it, so its end writes nothing.

pub const OPEN: u64 = 1;

pub const BEGUN: u64 = 2;

//! How the indexes of a parallel job are cut into pieces: at most `MOST_PIECES` batches, of one size but for the last.
#![tactic(auto)]

mod cutting;
mod pieces;

pub use cutting::cut;
pub use pieces::Cut;

//! A board without locks: its cells are used in place, and its pieces are begun, ended, counted, released and opened by
//! single atomic steps on numbered words.
//!
//! *Words.* `atomic_table` has them under one rule. Word 0 is for splits. Then come the cells, which a new board has
//! from its plan, a word for each piece (0 closed, 1 open, 2 begun), and of each job `rest`, its pieces not yet
//! counted, and `wait`, its predecessors not yet released (`specs/Words`). A piece that was begun is ended where no
//! seat leases it (`specs/Rule`): that a piece is ended is told by the count, so its word needn't say so, and one
//! exchange a piece is saved.
//!
//! *Views.* What a seat knows and holds is its view, which exists in proofs alone (`specs/Views`). A seat has four
//! bytes, the number of its piece, since `end` and `count` aren't given it.
//!
//! *Rule.* Words and views together are a moment that `merge_laws` rules (`specs/Rule`). So a leased word holds the
//! lease's cell whatever others do, a piece is leased once, and countdowns are exact (`laws`).
//!
//! *Promise.* `WordBoard` is a `Board` of `frame_core`. Each call says besides what its one step makes of the whole
//! view: how many steps there were, and of the last one the kind, the word and the finding. Where a call has an answer,
//! it is that of the finding.
//!
//! *Cost.* `begin` is one compare-and-exchange, `count` and `release` are one fetch-and-sub, `store` and `open_piece`
//! one store, all others one load, sequentially consistent. `load` and `store` test no index. No call waits, and `make`
//! alone takes memory: 8 bytes a word, twice that until it returns, since the table copies the words that it is made
//! of, and 4 bytes a piece of a job. Its time is linear in words, pieces and dependencies. A first cell is copied
//! twice, by plain loads and stores.
//!
//! *Hostile use.* None: a board is given a well ordered plan, and a call that isn't allowed can't be written, since its
//! condition can't be proved.
#![tactic(auto)]

mod board;
mod calls;
pub mod laws;
mod making;
mod plays;
mod seat;
mod state;
mod steps;
mod view;

pub use board::WordBoard;
pub use seat::WordSeat;
pub use view::{Duty, Held, Kind, Predecessor, View};

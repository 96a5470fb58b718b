//! A board over one lock, to reason with and to test the board without locks against.
//!
//! *What it is for.* `word_board` is what the program runs on. This board keeps the same promise in the plainest way:
//! all of its state is the content of one Mutex, and its type says what holds of it. So the argument that a run is
//! right is read here, and whatever runs on one board has to give the same on the other.
//!
//! *Content.* Under the lock stand the cells, the state of each piece (closed, open, begun by a seat, ended, counted),
//! and of each job how many pieces aren't counted, how many predecessors aren't released, and how many of these are
//! finished. The type of the content keeps the first sentence of the merge: what leased pieces read and write is apart
//! from what others do, and the cells that a piece may begin on are those before it in script order. It keeps too that
//! the counts are exact (`specs/Locked`). So whoever takes the lock finds them true.
//!
//! *Seats.* What a seat knows is what it holds: its lease, with a copy of the cells that the piece may read in a room
//! of the seat's own, the count that it owes, its duties, its rights (`specs/Seats`). `begin` copies the footprint of
//! the piece into the room, `load` and `store` work there, and `end` copies the written words back.
//!
//! *What the lock hides.* A call that locks can't name what it found, and what a seat learnt at one call isn't known of
//! the content at the next. So `end`, `count`, `release` and `open_piece` test under the lock what the seat claims, and
//! `close` that every piece ended. A call whose test fails lets the lock go and waits for good; no test of a seat that
//! is used on its own board fails, and on another one it can't be used ([`BoardName`]). What each call does to the
//! content is said where the content's own method does it ([`Content`]); of the seat it is said as `frame_core::Board`
//! asks.
//!
//! *Not shown.* That a wait for the lock ends: no call holds it while it waits for anything, but no clause says so.
//!
//! *Cost.* Each call but `load` and `store` takes the lock once. The footprint of a piece is cut into few spans, which
//! lie one after another in the room of a seat: so a container that several operations of a segment use lies there
//! once, and is copied once (`specs/Rooms`). `load` and `store` look for the span of their word, `begin` and `end` for
//! that of each word that they copy. `count` goes over the followers of a job that ends, `close` over all pieces and
//! words.
//! `make` alone takes memory: 8 bytes a word for the cells, and for each seat 8 bytes a cell of the largest footprint;
//! 8 bytes a piece and 12 a job; a byte a piece and 5 a job for each seat; 12 bytes a span of a piece and 4 a
//! dependency. Its time is linear in what it makes, but for a piece with many spans: each is compared with those before
//! it.
//!
//! *Hostile use.* None: a board is given a well ordered plan, and a call that isn't allowed can't be written, since its
//! condition can't be proved.
#![tactic(auto)]

mod board;
mod board_name;
mod calls;
mod content;
mod copying;
mod followers;
mod holding;
mod joining;
mod laying;
mod layout;
mod seat;
mod state;
mod waiting;

pub use board::LockBoard;
pub use board_name::BoardName;
pub use content::Content;
pub use layout::Layout;
pub use seat::{Held, LockSeat};
pub use state::State;

//! The steps of a seat on the words of a table, each one atomic instruction. `view` says in one equation what a step
//! makes of the view, `found` what the answer has to do with what was found.
ghost use Rattle.std.specs.Prelude.{◌≡◌, ℕ, suc, ◌+◌, ◌<◌, true, false, Some, None, nat_eq, length};
ghost use Rattle.std.specs.Int.{cast_signed};
ghost use mir.Syntax.{w64};
ghost use Rattle.merge_laws.specs.Countdowns.{begun_state, open_state};
ghost use Rattle.frame_core.specs.Effects.{piece_cells};
ghost use Rattle.frame_core.specs.Graphs.{before_number};
ghost use Rattle.frame_core.specs.Know.{MayBegin, MayOpen, piece_count, reads, writes};
ghost use Rattle.frame_core.specs.Ordered.{IsWellOrderedPlan};
ghost use Rattle.frame_core.specs.Pieces.{piece_numbered};
ghost use Rattle.word_board.specs.declared.view.Kind.TheVariants.{Load};
ghost use Rattle.word_board.specs.Seats.{IsSeatOf, view};
ghost use Rattle.word_board.specs.Views.{begun_view, counted_view, ended_view, fresh_view, know, local_cells, opened_view, released_view, seen_view, stepped, stored_view};
ghost use Rattle.word_board.specs.Words.{cell_word, rest_word, state_word, wait_word};

use crate::plays::{
    Beginning, Counting, Ending, Loading, Opening, Releasing, Ruled, Seeing, Splitting, Storing,
};
use crate::state::{BEGUN, OPEN};
use crate::view::View;
use atomic_table::{Seat, Shared};
use frame_core::Plan;

type Words = Shared<u8, View, Plan, Ruled>;

/// Another seat, which isn't the first and holds nothing. One load of word 0.
pub fn split(board: &Words, seat: &mut Seat<u8, View>) -> Seat<u8, View>
    requires seat { IsSeatOf board.now.table_id board.now.key seat.old }

    ensures fresh { view result ≡ fresh_view (view seat.old) }
    ensures other { IsSeatOf board.now.table_id board.now.key result }
    ensures same { view seat.new ≡ view seat.old }
    ensures seat { IsSeatOf board.now.table_id board.now.key seat.new }
{
    board.split_seat::<Splitting>(seat)
}

/// The cell of a leased word. One load.
pub fn load(board: &Words, seat: &mut Seat<u8, View>, word: u32) -> i64
    requires seat { IsSeatOf board.now.table_id board.now.key seat.old }
    requires lease { (p : ℕ) × ((know (view seat.old)).lease ≡ Some p) × (p < piece_count board.now.key)
        × (reads board.now.key p word ≡ true) }
    requires word { word < board.now.key.words }

    ensures cell { result ≡ (know (view seat.old)).cells word }
    ensures found { result ≡ cast_signed w64 (view seat.new).found }
    ensures view { view seat.new ≡ stepped (view seat.old) Load (cell_word word) (view seat.new).found }
    ensures seat { IsSeatOf board.now.table_id board.now.key seat.new }
{
    board.load::<Loading>(seat, 1 + word as usize).cast_signed()
}

/// Stores into a leased word. One store.
pub fn store(board: &Words, seat: &mut Seat<u8, View>, word: u32, value: i64)
    requires seat { IsSeatOf board.now.table_id board.now.key seat.old }
    requires lease { (p : ℕ) × ((know (view seat.old)).lease ≡ Some p) × (p < piece_count board.now.key)
        × (writes board.now.key p word ≡ true) }
    requires word { word < board.now.key.words }

    ensures found { value ≡ cast_signed w64 (view seat.new).found }
    ensures view { view seat.new ≡ stored_view (view seat.old) word value (cell_word word) (view seat.new).found }
    ensures seat { IsSeatOf board.now.table_id board.now.key seat.new }
{
    board.store::<Storing>(seat, 1 + word as usize, value.cast_unsigned());
}

/// Whether the piece was open. Then it is begun, and the seat leases it. One compare-and-exchange.
pub fn begin(board: &Words, seat: &mut Seat<u8, View>, word: usize, piece: u32) -> bool
    requires seat { IsSeatOf board.now.table_id board.now.key seat.old }
    requires word { word ≡ state_word board.now.key piece }
    requires piece { piece < piece_count board.now.key }
    requires free { (view seat.old).lease ≡ None }
    requires first { MayBegin (know (view seat.old)) (piece_numbered board.now.key piece) }

    ensures found { result ≡ nat_eq (view seat.new).found open_state }
    ensures view { view seat.new ≡ begun_view (view seat.old) piece result word (view seat.new).found }
    ensures seat { IsSeatOf board.now.table_id board.now.key seat.new }
{
    board.compare_exchange::<Beginning>(seat, word, OPEN, BEGUN) == OPEN
}

/// Ends the lease of the piece, whose word stays. One load.
pub fn end(board: &Words, seat: &mut Seat<u8, View>, word: usize, piece: u32)
    requires seat { IsSeatOf board.now.table_id board.now.key seat.old }
    requires word { word ≡ state_word board.now.key piece }
    requires piece { piece < piece_count board.now.key }
    requires lease { (know (view seat.old)).lease ≡ Some piece }
    requires free { (view seat.old).owed ≡ None }
    requires cells { (w : ℕ) → writes board.now.key piece w ≡ true → (know (view seat.old)).cells w
        ≡ piece_cells board.now.key (piece_numbered board.now.key piece) (before_number board.now.key piece) w }

    ensures view { view seat.new ≡ ended_view (view seat.old) (piece_numbered board.now.key piece) word begun_state }
    ensures seat { IsSeatOf board.now.table_id board.now.key seat.new }
{
    board.load::<Ending>(seat, word);
}

/// Whether this was the last piece of the job at a place, from 0. One fetch-and-sub.
pub fn count(board: &Words, seat: &mut Seat<u8, View>, word: usize, job: u32) -> bool
    requires seat { IsSeatOf board.now.table_id board.now.key seat.old }
    requires job { job < length board.now.key.jobs.items }
    requires word { word ≡ rest_word board.now.key job }
    requires owed { (view seat.old).owed ≡ Some (suc job) }

    ensures found { result ≡ nat_eq (view seat.new).found 1 }
    ensures view { view seat.new ≡ counted_view (view seat.old) (suc job) result word (view seat.new).found }
    ensures seat { IsSeatOf board.now.table_id board.now.key seat.new }
{
    board.fetch_sub::<Counting>(seat, word, 1) == 1
}

/// Whether this was the last predecessor of the job at a place, from 0. One fetch-and-sub.
pub fn release(board: &Words, seat: &mut Seat<u8, View>, word: usize, job: u32) -> bool
    requires seat { IsSeatOf board.now.table_id board.now.key seat.old }
    requires job { job < length board.now.key.jobs.items }
    requires word { word ≡ wait_word board.now.key job }
    requires due { 0 < (know (view seat.old)).dues (suc job) }

    ensures found { result ≡ nat_eq (view seat.new).found 1 }
    ensures view { view seat.new ≡ released_view (view seat.old) (suc job) result word (view seat.new).found }
    ensures seat { IsSeatOf board.now.table_id board.now.key seat.new }
{
    board.fetch_sub::<Releasing>(seat, word, 1) == 1
}

/// Opens a piece. One store.
pub fn open_piece(board: &Words, seat: &mut Seat<u8, View>, word: usize, piece: u32)
    requires seat { IsSeatOf board.now.table_id board.now.key seat.old }
    requires word { word ≡ state_word board.now.key piece }
    requires piece { piece < piece_count board.now.key }
    requires may { MayOpen board.now.key (know (view seat.old)) piece (piece_numbered board.now.key piece) }

    ensures view { view seat.new
        ≡ opened_view (view seat.old) piece (piece_numbered board.now.key piece) word open_state }
    ensures seat { IsSeatOf board.now.table_id board.now.key seat.new }
{
    board.store::<Opening>(seat, word, OPEN);
}

/// Whether all pieces of the job at a place, from 0, were counted. One load.
pub fn finished(board: &Words, seat: &mut Seat<u8, View>, word: usize, job: u32) -> bool
    requires seat { IsSeatOf board.now.table_id board.now.key seat.old }
    requires job { job < length board.now.key.jobs.items }
    requires word { word ≡ rest_word board.now.key job }

    ensures found { result ≡ nat_eq (view seat.new).found 0 }
    ensures view { view seat.new ≡ seen_view (view seat.old) (suc job) result word (view seat.new).found }
    ensures seat { IsSeatOf board.now.table_id board.now.key seat.new }
{
    board.load::<Seeing>(seat, word) == 0
}

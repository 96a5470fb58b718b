//! What a board is made of.
ghost use Rattle.std.specs.Prelude.{◌≡◌, ◌^◌, ◌<◌, length};
ghost use Rattle.frame_core.specs.Names.{job_pieces};
ghost use Rattle.word_board.specs.Seats.{AreJobNumbers, ReadsWithin};
ghost use Rattle.word_board.specs.Words.{rest_base, state_base, wait_base, word_count};

use crate::plays::Ruled;
use crate::seat::WordSeat;
use crate::steps;
use crate::view::View;
use atomic_table::Table;
use frame_core::Plan;
use std::alloc::Global;

/// A board whose cells, states and countdowns are atomic words. No call of it waits.
#[derive(Drop)]
pub struct WordBoard {
    pub(crate) table: Table<u8, View, Plan, Ruled, Global>,
    // The number of the job of each piece of a job.
    pub(crate) jobs: Vec<u32>,
    // How many cells there are, and where the words of states, of `rest` and of `wait` begin.
    pub(crate) cells: u32,
    pub(crate) states: usize,
    pub(crate) rests: usize,
    pub(crate) waits: usize,
    pub(crate) ghost size: { table.shared.table_id.words ≡ word_count table.shared.key },
    pub(crate) ghost no_slots: { table.shared.table_id.slots ≡ 0 },
    pub(crate) ghost fits: { word_count table.shared.key < 2 ^ 62 },
    pub(crate) ghost cells_are: { cells ≡ table.shared.key.words },
    pub(crate) ghost states_are: { states ≡ state_base table.shared.key },
    pub(crate) ghost rests_are: { rests ≡ rest_base table.shared.key },
    pub(crate) ghost waits_are: { waits ≡ wait_base table.shared.key },
    pub(crate) ghost jobs_are: { AreJobNumbers table.shared.key jobs.items },
    pub(crate) ghost job_count: { length jobs.items ≡ job_pieces table.shared.key },
    pub(crate) ghost within: { ReadsWithin table.shared.key },
}

impl WordBoard {
    ghost use Rattle.word_board.specs.Boards.{home_of, name_of, view_of};
    ghost use Rattle.word_board.specs.Views.{fresh_view};

    // Another seat, which holds nothing. One load.
    pub(crate) fn split(&self, seat: &mut WordSeat) -> WordSeat
        requires home { home_of seat.old ≡ name_of self.now }

        ensures other { home_of result ≡ name_of self.now }
        ensures new { view_of result ≡ fresh_view (view_of seat.old) }

        // The seat that is split stays as it is.
        ensures home { home_of seat.new ≡ home_of seat.old }
        ensures view { view_of seat.new ≡ view_of seat.old }
    {
        WordSeat {
            token: steps::split(&self.table.shared, &mut seat.token),
            piece: 0,
        }
    }
}

fn shared_by_threads<T: Send + Sync>(_it: &T) {}

fn sent_to_threads<T: Send>(_it: &T) {}

// A board is shared by threads, and a seat goes to one. Nothing calls it: that it is accepted shows it.
fn crosses(board: &WordBoard, seat: &WordSeat) {
    shared_by_threads(board);
    sent_to_threads(seat);
}

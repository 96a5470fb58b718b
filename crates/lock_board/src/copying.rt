//! The places of words in a room, and copies between a room and the cells.
ghost use Rattle.std.specs.Prelude.{◌≡◌, ◌≤◌, ◌<◌, ◌^◌, ℕ, true, false, length, if◌then◌else◌, Some, slice_get, slice_set};
ghost use Rattle.job_base.specs.Cells.{cells_of};
ghost use Rattle.frame_core.specs.declared.touch.Touch.{Touch};
ghost use Rattle.frame_core.specs.Touches.{hits};
ghost use Rattle.lock_board.specs.Rooms.{place_in, room_of};

use frame_core::Touch;

/// The place of a word of a piece that has these spans.
pub fn place_in(spans: &[Touch], w: u32) -> usize
    requires word { hits false spans.now w ≡ true }
    requires fits { room_of spans.now < 2 ^ 64 }

    ensures place { result ≡ place_in spans.now w }
    ensures below { result < room_of spans.now }
{
    let mut at = 0usize;
    for i in 0..spans.len() {
        let t = &spans[i];
        if t.from <= w && w < t.end {
            return at + (w - t.from) as usize;
        }
        at += t.end.saturating_sub(t.from) as usize;
    }
    unreachable!()
}

// Copies the cells of some words of a piece into its room.
fn copy_words_in(spans: &[Touch], from: u32, end: u32, cells: &[i64], room: &mut [i64])
    requires words { (w : ℕ) → from ≤ w → w < end → hits false spans.now w ≡ true }
    requires within { from < end → end ≤ length cells.now }
    requires room { room_of spans.now ≤ length room.old }

    ensures inside { (w : ℕ) → from ≤ w → w < end → cells_of room.new (place_in spans.now w) ≡ cells_of cells.now w }

    // What was copied before stays.
    ensures still { (w : ℕ) → hits false spans.now w ≡ true
        → cells_of room.old (place_in spans.now w) ≡ cells_of cells.now w
        → cells_of room.new (place_in spans.now w) ≡ cells_of cells.now w }
{
    for w in from..end {
        room[place_in(spans, w)] = cells[w as usize];
    }
}

/// Copies the cells of a piece that has these spans into its room.
pub fn copy_in(spans: &[Touch], cells: &[i64], room: &mut [i64])
    requires within { (i : ℕ) (t : Touch) → slice_get spans.now i ≡ Some t → t.from < t.end → t.end ≤ length cells.now }
    requires room { room_of spans.now ≤ length room.old }

    ensures { (w : ℕ) → hits false spans.now w ≡ true
        → cells_of room.new (place_in spans.now w) ≡ cells_of cells.now w }
{
    for i in 0..spans.len() {
        copy_words_in(spans, spans[i].from, spans[i].end, cells, room);
    }
}

// Copies some words of a piece from its room to the cells.
fn copy_words_out(spans: &[Touch], from: u32, end: u32, room: &[i64], cells: &mut [i64])
    requires words { (w : ℕ) → from ≤ w → w < end → hits false spans.now w ≡ true }
    requires within { from < end → end ≤ length cells.old }
    requires room { room_of spans.now ≤ length room.now }

    ensures inside { (w : ℕ) → from ≤ w → w < end → cells_of cells.new w ≡ cells_of room.now (place_in spans.now w) }
    ensures before { (w : ℕ) → w < from → cells_of cells.new w ≡ cells_of cells.old w }
    ensures behind { (w : ℕ) → end ≤ w → cells_of cells.new w ≡ cells_of cells.old w }
{
    for w in from..end {
        cells[w as usize] = room[place_in(spans, w)];
    }
}

/// Copies what a piece that has these spans writes from its room to the cells.
pub fn copy_out(spans: &[Touch], room: &[i64], cells: &mut [i64])
    requires within { (i : ℕ) (t : Touch) → slice_get spans.now i ≡ Some t → t.from < t.end → t.end ≤ length cells.old }
    requires room { room_of spans.now ≤ length room.now }

    ensures { (w : ℕ) → cells_of cells.new w
        ≡ (if hits true spans.now w then cells_of room.now (place_in spans.now w) else cells_of cells.old w) }
{
    for i in 0..spans.len() {
        if spans[i].written {
            copy_words_out(spans, spans[i].from, spans[i].end, room, cells);
        }
    }
}

/// The cell at an index.
pub fn read_cell(cells: &[i64], at: usize) -> i64
    requires { at < length cells.now }
    ensures { result ≡ cells_of cells.now at }
{
    cells[at]
}

/// Writes the cell at an index.
pub fn write_cell(cells: &mut [i64], at: usize, v: i64)
    requires { at < length cells.old }
    ensures { cells.new ≡ slice_set cells.old at v }
{
    cells[at] = v;
}

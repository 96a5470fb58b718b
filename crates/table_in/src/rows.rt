// Records of plain numbers, read in one pass over the bytes.
ghost use Rattle.std.specs.Prelude.{◌≡◌, ◌≤◌, IfOk, IfSome, true, length};
ghost use Rattle.job_base.specs.declared.limits.TheConstants.{MOST_TABLE_BYTES};
ghost use Rattle.table_in.specs.Plain.{EndsLine, IsMarked, RecordAt, RowsAt, rows_after};

use crate::Table;
use crate::plain::{ends_line, read_number};
use std::alloc::AllocError;

/// Where reading goes on: the place in the text, and the number of the next record.
#[derive(Clone, Copy)]
pub struct Stand {
    pub at: usize,
    pub row: u32,
}

#[inline(always)]
fn skip_lines(text: &[u8], from: usize) -> usize
    requires { from ≤ length text.now }
    ensures same { rows_after text.now from ≡ rows_after text.now result }
    ensures ahead { from ≤ result }
    ensures within { result ≤ length text.now }
{
    let mut end = from;
    while end < text.len() && ends_line(text[end]) {
        end += 1;
    }
    end
}

// Whether a record may end here.
fn ends_record(text: &[u8], at: usize) -> bool
    ensures { result ≡ true → EndsLine text.now at }
{
    at >= text.len() || ends_line(text[at])
}

// Reads a record of as many numbers as `values` has places, and answers the place of the byte that ends it.
fn read_record(text: &[u8], from: usize, values: &mut [i64]) -> Option<usize>
    requires { from ≤ length text.now }
    ensures { IfSome result (RecordAt text.now from values.new) }
{
    let mut at = from;
    for i in 0..values.len() {
        let found = read_number(text, at)?;
        values[i] = found.value;
        if i + 1 == values.len() {
            return if ends_record(text, found.end) {
                Some(found.end)
            } else {
                None
            };
        }
        if found.end >= text.len() || text[found.end] != b',' {
            return None;
        }
        at = found.end + 1;
    }
    None
}

/// Adds what is marked of the records from a place on, up to the first that is not of plain numbers, or not of one for
/// each mark. `values` is where the numbers of a record are put meanwhile.
pub fn push_plain_rows(
    table: &mut Table,
    marks: &[bool],
    values: &mut [i64],
    text: &[u8],
    from: usize,
) -> Result<Stand, AllocError>
    requires values { length values.old ≡ length marks.now }
    requires columns { IsMarked marks.now table.old }
    requires within { from ≤ length text.now }
    requires ends { EndsLine text.now from }
    requires small { length text.now ≤ MOST_TABLE_BYTES }
    ensures { IfOk result (λ s. RowsAt text.now from marks.now table.old table.new s.at s.row) }
{
    let mut at = from;
    for row in 2..u32::MAX {
        let start = skip_lines(text, at);
        let Some(end) = read_record(text, start, values) else {
            return Ok(Stand { at, row });
        };
        if row == 2 {
            table.make_room((text.len() - end) / (end - start + 1) + 1)?;
        }
        table.push_marked(values, marks)?;
        at = end;
    }
    Ok(Stand { at, row: u32::MAX })
}

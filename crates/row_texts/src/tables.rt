//! Whether a text is a table.
ghost use Rattle.std.specs.Prelude.{◌≡◌, ◌↔◌, false, IsErr, IfOk};
ghost use Rattle.row_texts.specs.Tables.{next_place, parts, has_row};

use std::test::Fail;

/// Where in its line a byte stands.
#[derive(Clone, Copy)]
enum Place {
    Start,
    Comment,
    Line,
}

// Where the byte after one stands.
fn next_place(place: Place, byte: u8) -> Place
    ensures { result ≡ next_place place byte }
{
    if byte == b'\n' {
        return Place::Start;
    }
    match place {
        Place::Start => if byte == b'#' {
            Place::Comment
        } else {
            Place::Line
        },
        Place::Comment => Place::Comment,
        Place::Line => Place::Line,
    }
}

// Whether a byte parts the halves of a row: it is a bar, and in no comment.
fn parts(place: Place, byte: u8) -> bool
    ensures { result ≡ parts place byte }
{
    match place {
        Place::Comment => false,
        Place::Start => byte == b'|',
        Place::Line => byte == b'|',
    }
}

// Whether a line that is no comment has a bar.
pub(crate) fn has_row(text: &str) -> bool
    ensures { result ≡ has_row text.now }
{
    let mut place = Place::Start;
    let source = text.as_bytes();
    for byte in source {
        if parts(place, *byte) {
            return true;
        }
        place = next_place(place, *byte);
    }
    false
}

/// A table, which has a row. A text with no bar but in comments is none, and fails its test.
pub fn table(text: &str) -> Result<&str, Fail>
    ensures fault { IsErr result ↔ (has_row text.now ≡ false) }
    ensures same { IfOk result (λ t. t.now ≡ text.now) }
{
    if has_row(text) {
        return Ok(text);
    }
    Err(Fail::new("a table without a row"))
}

//! The rows of a table, and what a row comes to.
ghost use Rattle.std.specs.Prelude.{◌≡◌, ◌≢◌, ◌↔◌, true, false, length, IsErr, IfOk, MatchOption};
ghost use Rattle.std.specs.List.{before_first, after_first, position_or_len};
ghost use Rattle.std.specs.Str.{trim};
ghost use Rattle.row_texts.specs.Bars.{is_bar};
ghost use Rattle.row_texts.specs.Rows.{is_blank};

use crate::bars::halves;
use std::test::Fail;

// Whether a line is empty or a comment.
fn is_blank(line: &str) -> bool
    ensures { result ≡ is_blank line.now }
{
    match line.as_bytes() {
        [] => true,
        [first, ..] => *first == b'#',
    }
}

/// The halves of a row. `Ok(None)` of an empty line, and of a comment, which begins with `#`. A line that is neither
/// and has no bar is no row, and fails its test.
pub fn row(line: &str) -> Result<Option<(&str, &str)>, Fail>
    ensures fault { IsErr result
        ↔ ((is_blank line.now ≡ false) × (position_or_len is_bar line.now ≡ length line.now)) }
    ensures row { IfOk result (λ found. MatchOption found (is_blank line.now ≡ true) (λ parts.
        (is_blank line.now ≡ false)
        × (parts.0.now ≡ trim (before_first is_bar line.now))
        × (parts.1.now ≡ trim (after_first is_bar line.now)))) }
{
    if is_blank(line) {
        return Ok(None);
    }
    match halves(line) {
        Some(parts) => Ok(Some(parts)),
        None => Err(Fail::new(format_args!("no row: {line}"))),
    }
}

/// What a row gives has to be what is wanted of it.
pub fn same(line: &str, told: &str, wanted: &str) -> Result<(), Fail>
    ensures { IsErr result ↔ (told.now ≢ wanted.now) }
{
    if told == wanted {
        return Ok(());
    }
    Err(Fail::new(format_args!("`{told}` of: {line}")))
}

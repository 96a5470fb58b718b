//! The halves of a row.
ghost use Rattle.std.specs.Prelude.{◌≡◌, ◌<◌, MatchOption, length};
ghost use Rattle.std.specs.List.{before_first, after_first, position_or_len};
ghost use Rattle.std.specs.Str.{trim};
ghost use Rattle.row_texts.specs.Bars.{is_bar};

/// What stands before the first bar of a line and what stands after it, each without the spaces round it. `None` of a
/// line without a bar, which is no row: an empty one, or a comment.
pub fn halves(line: &str) -> Option<(&str, &str)>
    ensures { MatchOption result (position_or_len is_bar line.now ≡ length line.now) (λ found.
        (position_or_len is_bar line.now < length line.now)
        × (found.0.now ≡ trim (before_first is_bar line.now))
        × (found.1.now ≡ trim (after_first is_bar line.now))) }
{
    match line.split_once('|') {
        Some((before, after)) => Some((before.trim(), after.trim())),
        None => None,
    }
}

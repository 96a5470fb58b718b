// The number that a field holds.
ghost use Rattle.std.specs.Prelude.{◌≡◌, ◌≢◌, ◌↔◌, IsTrue, IfSome, FitsSigned, slice_index};
ghost use Rattle.std.specs.Int.{w64};
ghost use Rattle.table_in.specs.Numbers.{skip_spaces, drop_spaces, signed, number_of};

fn skip_spaces(text: &[u8]) -> &[u8]
    ensures { result.now ≡ skip_spaces text.entry.now }
{
    let mut rest = text;
    while let [b' ', after @ ..] = rest {
        rest = after;
    }
    rest
}

fn drop_spaces(text: &[u8]) -> &[u8]
    ensures { result.now ≡ drop_spaces text.entry.now }
{
    let mut end = text.len();
    while end > 0 && text[end - 1] == b' ' {
        end -= 1;
    }
    &text[..end]
}

fn begins_with_plus(text: &[u8]) -> bool
    ensures { IsTrue result ↔ (slice_index text.now 0 ≡ 43) }
{
    match text {
        [] => false,
        [first, ..] => *first == b'+',
    }
}

fn parsed(text: &[u8]) -> Option<i64>
    requires { slice_index text.now 0 ≢ 43 }
    ensures { result ≡ signed text.now }
{
    match std::str::from_utf8(text) {
        Ok(text) => text.parse::<i64>().ok(),
        Err(_) => None,
    }
}

// A number with no spaces round it. What `parse` takes beside it is a leading `+`.
fn signed(text: &[u8]) -> Option<i64>
    ensures { result ≡ signed text.now }
{
    if begins_with_plus(text) {
        None
    } else {
        parsed(text)
    }
}

#[tactic(auto, unfolding(crate::specs::Numbers::number_of))]
pub fn number_of(field: &[u8]) -> Option<i64>
    ensures value { result ≡ number_of field.now }
    ensures fits { IfSome result (FitsSigned w64) }
{
    signed(drop_spaces(skip_spaces(field)))
}

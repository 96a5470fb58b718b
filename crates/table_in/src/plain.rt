// Numbers are read where they stand in the text, with no copy of their field.
ghost use Rattle.std.specs.Prelude.{◌≡◌, ◌≤◌, ◌<◌, ◌^◌, ◌↔◌, IsTrue, IfSome, FitsSigned, length, slice_index};
ghost use Rattle.std.specs.Int.{w64};
ghost use Rattle.table_in.specs.Plain.{is_line_end, SpacesAt, DigitsAt, NumberAt, number_by};

/// Whether a byte ends a line, and with it a record.
#[inline(always)]
pub fn ends_line(byte: u8) -> bool
    ensures { result ≡ is_line_end byte }
{
    byte == b'\n' || byte == b'\r'
}

// 2 ^ 63 without its last digit: at most this, and one more digit can be read.
const MOST_BEFORE_DIGIT: u64 = 922_337_203_685_477_580;

// The number of some digits, and the place after them.
#[derive(Clone, Copy)]
struct Digits {
    magnitude: u64,
    end: usize,
}

/// A number, and the place after its field.
#[derive(Clone, Copy)]
pub struct Found {
    pub value: i64,
    pub end: usize,
}

#[inline(always)]
fn skip_spaces_at(text: &[u8], from: usize) -> usize
    requires { from ≤ length text.now }
    ensures { SpacesAt text.now from result }
{
    let mut end = from;
    while end < text.len() && text[end] == b' ' {
        end += 1;
    }
    end
}

// Fewer digits always fit, and need no look at the number so far.
const MOST_SURE_DIGITS: usize = 18;

// The digits of a number, where they are few and the text is long enough for a loop whose length is known: it is
// unrolled, and has no test but that of the digit.
#[inline(always)]
fn read_few_digits(text: &[u8], from: usize) -> Option<Digits>
    requires { from ≤ length text.now }
    ensures digits { IfSome result (λ d. DigitsAt text.now from d.magnitude d.end) }
    ensures small { IfSome result (λ d. d.magnitude < 2 ^ 63) }
{
    if text.len() - from < MOST_SURE_DIGITS {
        return None;
    }
    let mut magnitude: u64 = 0;
    for k in 0..MOST_SURE_DIGITS {
        let byte = text[from + k];
        if !byte.is_ascii_digit() {
            return Some(Digits {
                magnitude,
                end: from + k,
            });
        }
        magnitude = magnitude * 10 + (byte - b'0') as u64;
    }
    None
}

// It stops before a digit, where the number would be too large: then no field ends there.
#[inline(never)]
fn read_more_digits(text: &[u8], from: usize) -> Digits
    requires { from ≤ length text.now }
    ensures { DigitsAt text.now from result.magnitude result.end }
{
    let mut magnitude: u64 = 0;
    let mut end = from;
    while end < text.len() && text[end].is_ascii_digit() && magnitude <= MOST_BEFORE_DIGIT {
        magnitude = magnitude * 10 + (text[end] - b'0') as u64;
        end += 1;
    }
    Digits { magnitude, end }
}

#[inline(always)]
fn read_digits(text: &[u8], from: usize) -> Digits
    requires { from ≤ length text.now }
    ensures { DigitsAt text.now from result.magnitude result.end }
{
    match read_few_digits(text, from) {
        Some(digits) => digits,
        None => read_more_digits(text, from),
    }
}

#[inline(always)]
fn signed_of(is_negative: bool, magnitude: u64) -> Option<i64>
    ensures value { result ≡ number_by is_negative magnitude }
    ensures fits { IfSome result (FitsSigned w64) }
{
    if magnitude < 9_223_372_036_854_775_808 {
        let value = magnitude as i64;
        Some(if is_negative { -value } else { value })
    } else if is_negative && magnitude == 9_223_372_036_854_775_808 {
        Some(i64::MIN)
    } else {
        None
    }
}

#[inline(always)]
fn is_at(text: &[u8], place: usize, byte: u8) -> bool
    ensures { IsTrue result ↔ ((place < length text.now) × (slice_index text.now place ≡ byte)) }
{
    place < text.len() && text[place] == byte
}

// A number with a `-` before it or spaces round it, one of many digits, or one near the text's end.
#[inline(never)]
fn read_any_number(text: &[u8], from: usize) -> Option<Found>
    requires { from ≤ length text.now }
    ensures number { IfSome result (λ f. NumberAt text.now from f.value f.end) }
    ensures fits { IfSome result (λ f. FitsSigned w64 f.value) }
{
    let start = skip_spaces_at(text, from);
    let is_negative = is_at(text, start, b'-');
    let first = if is_negative { start + 1 } else { start };
    let digits = read_digits(text, first);
    if digits.end == first {
        return None;
    }
    let end = skip_spaces_at(text, digits.end);
    match signed_of(is_negative, digits.magnitude) {
        Some(value) => Some(Found { value, end }),
        None => None,
    }
}

/// The number that stands from a place on, with the spaces round it. Mostly it is a few digits alone.
#[inline(always)]
pub fn read_number(text: &[u8], from: usize) -> Option<Found>
    requires { from ≤ length text.now }
    ensures number { IfSome result (λ f. NumberAt text.now from f.value f.end) }
    ensures fits { IfSome result (λ f. FitsSigned w64 f.value) }
{
    if let Some(digits) = read_few_digits(text, from) {
        if digits.end > from && !is_at(text, digits.end, b' ') {
            return Some(Found {
                value: digits.magnitude as i64,
                end: digits.end,
            });
        }
    }
    read_any_number(text, from)
}

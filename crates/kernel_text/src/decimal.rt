//! The values of Numbers.

ghost use Rattle.std.specs.Prelude.{◌≡◌, ◌≤◌, min, length, IfSome};
ghost use Rattle.kernel_text.specs.Numbers.{value_of, front_value};
ghost use Rattle.kernel_text.specs.declared.decimal.TheConstants.{PLAIN_DIGITS};

/// So many digits make no more than 64 bits, whatever bytes they are.
const PLAIN_DIGITS: usize = 17;

// The value of so few digits that no step can saturate, which takes half as long.
fn plain_value(digits: &[u8]) -> u64
    requires { length digits.now ≤ PLAIN_DIGITS }
    ensures { result ≡ value_of digits.now }
{
    let mut value: u64 = 0;
    for digit in digits {
        value = value * 10 + u64::from(*digit).saturating_sub(48);
    }
    value
}

fn saturated_value(digits: &[u8]) -> u64
    ensures { result ≡ min 18446744073709551615 (value_of digits.now) }
{
    let mut value: u64 = 0;
    for digit in digits {
        value = value
            .saturating_mul(10)
            .saturating_add(u64::from(digit.saturating_sub(b'0')));
    }
    value
}

/// The value of decimal digits, or 2 ^ 64 - 1 where it is greater.
pub fn value_of(digits: &[u8]) -> u64
    ensures { result ≡ min 18446744073709551615 (value_of digits.now) }
{
    if digits.len() <= PLAIN_DIGITS {
        plain_value(digits)
    } else {
        saturated_value(digits)
    }
}

/// The value of the digits that the bytes begin with, as far as this limit, or none where there is no digit or where
/// there are too many.
// In line where the limit is a constant, the loop is unrolled.
#[inline(always)]
fn value_within(bytes: &[u8], limit: usize) -> Option<u64>
    requires { limit ≡ min (length bytes.now) PLAIN_DIGITS }
    ensures value { result ≡ front_value PLAIN_DIGITS bytes.now }
    ensures fits { IfSome result (λ value. value ≤ 18446744073709551615) }
{
    let mut value: u64 = 0;
    for (len, byte) in bytes[..limit].iter().enumerate() {
        if !byte.is_ascii_digit() {
            return if len == 0 { None } else { Some(value) };
        }
        value = value * 10 + u64::from(*byte - b'0');
    }
    if limit == 0 {
        return None;
    }
    if limit < bytes.len() && bytes[limit].is_ascii_digit() {
        return None;
    }
    Some(value)
}

/// The value of the digits that a file's last bytes begin with, or none where there is no digit.
#[inline(never)]
fn last_value(bytes: &[u8]) -> Option<u64>
    requires { length bytes.now ≤ PLAIN_DIGITS }
    ensures value { result ≡ front_value PLAIN_DIGITS bytes.now }
    ensures fits { IfSome result (λ value. value ≤ 18446744073709551615) }
{
    value_within(bytes, bytes.len())
}

/// The value of the digits that the bytes begin with, or none where there is no digit or where there are too many.
// Where they end is found as they are read.
#[inline(always)]
pub fn front_value(bytes: &[u8]) -> Option<u64>
    ensures value { result ≡ front_value PLAIN_DIGITS bytes.now }
    ensures fits { IfSome result (λ value. value ≤ 18446744073709551615) }
{
    if bytes.len() > PLAIN_DIGITS {
        value_within(bytes, PLAIN_DIGITS)
    } else {
        last_value(bytes)
    }
}

//! Decimal numbers.

ghost use Rattle.std.specs.Prelude.{◌≡◌, ◌≤◌, ◌+◌, ◌<◌, true, length, min};
ghost use Rattle.std.specs.Char.{is_ascii_digit};
ghost use Rattle.std.specs.List.{list_all, prefix_len};
ghost use Rattle.std.specs.Str.Parse.{digits_value};
ghost use Rattle.wire.specs.Numbers.{number_in};

use std::str;

/// The maximum number of digits in a target's numbers.
const MOST_DIGITS: usize = 5;

/// Returns whether all bytes are digits.
pub(crate) fn all_digits(text: &[u8]) -> bool
    ensures { result ≡ list_all is_ascii_digit text.now }
{
    text.iter().all(|b| b.is_ascii_digit())
}

/// Returns the number of digits at the start of a text.
pub(crate) fn digits_length(text: &[u8]) -> usize
    ensures bound { result ≤ length text.now }
    ensures is { result ≡ prefix_len is_ascii_digit text.now }
{
    let mut length = 0;
    for byte in text {
        if !byte.is_ascii_digit() {
            return length;
        }
        length += 1;
    }
    length
}

/// Parses a number of 1 to 5 digits without leading zeros.
pub(crate) fn number_in(text: &str) -> Option<u32>
    ensures { result ≡ number_in text.now }
{
    let digits = text.as_bytes();
    let first = digits.first().copied().unwrap_or(b'0');
    if first == b'0' || digits.len() > MOST_DIGITS || !all_digits(digits) {
        return None;
    }
    text.parse().ok()
}

/// Parses a number of that form from bytes.
pub(crate) fn number_of(text: &[u8]) -> Option<u32>
    ensures { result ≡ number_in text.now }
{
    if !all_digits(text) {
        return None;
    }
    match str::from_utf8(text) {
        Ok(text) => number_in(text),
        Err(_) => None,
    }
}

/// Returns the value of a run of digits, or `most` if the value is greater.
pub(crate) fn capped_value(digits: &[u8], most: u32) -> u64
    requires { list_all is_ascii_digit digits.now ≡ true }
    ensures { result ≡ min (digits_value 10 digits.now) most }
{
    let cap = u64::from(most);
    let mut value = 0;
    for digit in digits {
        value = (10 * value + u64::from(*digit - b'0')).min(cap);
    }
    value
}

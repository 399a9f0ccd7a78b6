//! Numbers written as plain decimal digits.

ghost use Rattle.std.specs.Prelude.{◌≡◌};
ghost use Rattle.std.specs.Char.{is_ascii_digit};
ghost use Rattle.std.specs.List.{list_all};
ghost use Rattle.paper.specs.Digits.{plain_number_in};

/// The maximum number of digits.
const MOST_DIGITS: usize = 5;

/// Returns whether all bytes are digits.
pub fn are_digits(text: &[u8]) -> bool
    ensures { result ≡ list_all is_ascii_digit text.now }
{
    text.iter().all(|b| b.is_ascii_digit())
}

/// Parses a number of 1 to 5 digits, the first of which isn't 0. Returns `None` for any other text.
pub fn plain_number_in(text: &str) -> Option<u32>
    ensures { result ≡ plain_number_in text.now }
{
    let digits = text.as_bytes();
    let first = digits.first().copied().unwrap_or(b'0');
    if first == b'0' || digits.len() > MOST_DIGITS || !are_digits(digits) {
        return None;
    }
    text.parse().ok()
}

//! Numbers in plain notation.

ghost use Rattle.std.specs.Prelude.{◌≡◌, ◌<◌, ◌&&◌, nat_le, position, Some, None, if◌then◌else◌};
ghost use Rattle.std.specs.List.{before_first, after_first};
ghost use Rattle.std.specs.Str.{all_ascii_digits};
ghost use Rattle.std.specs.Str.Parse.{digits_value};
ghost use Rattle.register.specs.Ranges.{is_between};
ghost use Rattle.register.specs.Subjects.{is_plain_number, are_plain_numbers, is_space};

/// Returns the number that the given digits represent, or `None` if there are other bytes or the number exceeds
/// `most`. Stops reading once the number exceeds `most`.
fn number_up_to(most: u32, digits: &[u8]) -> Option<u32>
    requires { most < 10000 }
    ensures { result ≡ (if all_ascii_digits digits.now && nat_le (digits_value 10 digits.now) most then Some (digits_value 10 digits.now) else None) }
{
    let mut so_far = 0;
    for digit in digits {
        if !digit.is_ascii_digit() {
            return None;
        }
        let next = so_far * 10 + u32::from(*digit - b'0');
        if next > most {
            return None;
        }
        so_far = next;
    }
    Some(so_far)
}

/// Returns whether a text consists of digits and represents a number in the given range.
fn is_number_within(low: u32, high: u32, digits: &[u8]) -> bool
    requires { high < 10000 }
    ensures { result ≡ (all_ascii_digits digits.now && is_between low high (digits_value 10 digits.now)) }
{
    match number_up_to(high, digits) {
        Some(n) => low <= n,
        None => false,
    }
}

#[tactic(auto, unfolding(register::specs::Subjects::is_plain_number))]
/// Returns whether a text is a plain number in the given range: digits, the first of which isn't 0. Reads at most
/// five bytes, no matter how long the text is.
pub(crate) fn is_plain_number(low: u32, high: u32, text: &[u8]) -> bool
    requires { high < 10000 }
    ensures { result ≡ is_plain_number low high text.now }
{
    let first = text.first().copied().unwrap_or(0);
    let plain = first != b'0';
    plain && is_number_within(low, high, text)
}

fn first_space(text: &[u8]) -> Option<usize>
    ensures { result ≡ position is_space text.now }
{
    text.iter().position(|b| *b == b' ')
}

/// Splits a text at the first space; returns the part before it and the part after it.
pub(crate) fn parted(text: &[u8]) -> (&[u8], &[u8])
    ensures before { result.0.now ≡ before_first is_space text.now }
    ensures after { result.1.now ≡ after_first is_space text.now }
{
    match first_space(text) {
        Some(place) => (&text[..place], &text[place + 1..]),
        None => (text, &text[text.len()..]),
    }
}

/// Returns whether a text consists of two plain numbers, separated by a space, each within its range.
pub(crate) fn are_plain_numbers(low: u32, high: u32, least: u32, most: u32, text: &[u8]) -> bool
    requires first { high < 10000 }
    requires second { most < 10000 }
    ensures { result ≡ are_plain_numbers low high least most text.now }
{
    let (one, other) = parted(text);
    let is_first = is_plain_number(low, high, one);
    is_first && is_plain_number(least, most, other)
}

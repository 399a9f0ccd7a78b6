//! Words that are numbers.

ghost use Rattle.std.specs.Prelude.{◌≡◌, ◌≤◌, IfOk};
ghost use Rattle.checker.specs.Numbers.{candidate_in, number_in, with_digit};

use crate::problem::BallotsFlaw;

/// Appends a digit to a number, which must not exceed `most`.
fn with_digit(most: u32, number: u32, byte: u8) -> Result<u32, BallotsFlaw>
    ensures is { result ≡ with_digit most number byte }
    ensures few { IfOk result (λ n. n ≤ most) }
{
    if !byte.is_ascii_digit() {
        return Err(BallotsFlaw::NotNumber);
    }
    let more = u64::from(number) * 10 + u64::from(byte - b'0');
    if more > u64::from(most) {
        return Err(BallotsFlaw::TooLarge);
    }
    Ok(more as u32)
}

/// Parses a number that is at most `most`.
pub(crate) fn number_in(most: u32, word: &[u8]) -> Result<u32, BallotsFlaw>
    ensures is { result ≡ number_in most word.now }
    ensures few { IfOk result (λ n. n ≤ most) }
{
    if word.is_empty() {
        return Err(BallotsFlaw::NotNumber);
    }
    let mut number = 0;
    for byte in word {
        number = with_digit(most, number, *byte)?;
    }
    Ok(number)
}

/// Parses a candidate number that is at most `highest`.
pub(crate) fn candidate_in(highest: u8, word: &[u8]) -> Result<u8, BallotsFlaw>
    ensures is { result ≡ candidate_in highest word.now }
    ensures some { IfOk result (λ c. 1 ≤ c) }
    ensures few { IfOk result (λ c. c ≤ highest) }
{
    let number = number_in(255, word)?;
    if number == 0 || number > u32::from(highest) {
        return Err(BallotsFlaw::NoSuchCandidate);
    }
    Ok(number as u8)
}

//! The range of clerks for whom codes are made.

ghost use Rattle.std.specs.Prelude.{◌≡◌, ◌≤◌, ◌+◌, ◌-◌, ◌^◌, IfSome, length, option_map};
ghost use Rattle.std.specs.List.{prefix_len};
ghost use Rattle.codes.specs.Files.{is_no_hyphen};
ghost use Rattle.codes.specs.Making.{clerks_entry, clerks_in, clerks_of};

use crate::reading::clerk_in;

/// A range of clerks: the first and the last.
#[derive(Clone, Copy)]
pub struct ClerkRange {
    pub first: u32,
    pub last: u32,
}

/// Returns the number of bytes before the first hyphen of a text.
fn front_length(text: &[u8]) -> usize
    ensures bound { result ≤ length text.now }
    ensures is { result ≡ prefix_len is_no_hyphen text.now }
{
    let mut length = 0;
    for byte in text {
        if *byte == b'-' {
            return length;
        }
        length += 1;
    }
    length
}

impl ClerkRange {
    /// Returns the number of clerks in the range.
    #[tactic(auto, using(crate::proofs::NumberLemmas::length_numbers))]
    pub fn count(self) -> usize
        ensures is { result ≡ length (clerks_of self) }
        ensures span { result ≡ self.last + 1 - self.first }
        ensures bound { result ≤ 2 ^ 32 }
    {
        (self.last as usize + 1).saturating_sub(self.first as usize)
    }

    /// Returns the range of clerks that a text such as `1-40` names; no number may exceed 999. Returns None if the text names no
    /// range.
    pub fn parse(text: &str) -> Option<ClerkRange>
        ensures is { option_map clerks_entry result ≡ clerks_in text.now }
        ensures bound { IfSome result (λ clerks. clerks.last ≤ 999) }
    {
        let text = text.as_bytes();
        let length = front_length(text);
        let first = clerk_in(&text[..length])?;
        let last = clerk_in(&text[text.len().min(length + 1)..])?;
        if first <= last {
            Some(ClerkRange { first, last })
        } else {
            None
        }
    }
}

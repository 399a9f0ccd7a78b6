//! Lists of at most `MAX_CANDIDATES` numbers, stored in arrays and padded with zeros.

ghost use Rattle.std.specs.Prelude.{◌≡◌, ◌≤◌, length, take};
ghost use Rattle.std.specs.Cmp.Lexicographic.{slice_cmp};
ghost use Rattle.std.specs.Ordering.{nat_cmp};
ghost use Rattle.paper.specs.Columns.{max_candidates};
ghost use Rattle.paper.specs.Padded.{listed, padded, number_of};

use crate::columns::MAX_CANDIDATES;
use std::cmp::Ordering;

/// Returns the list that is stored in an array.
#[tactic(auto, using(crate::proofs::PaddedLists::listed_by_length))]
pub fn list_in(numbers: &[u8; MAX_CANDIDATES]) -> &[u8]
    ensures { result.now ≡ listed numbers.now }
{
    &numbers[..list_len(numbers)]
}

/// Returns how many numbers precede the first 0.
#[tactic(auto, using(crate::proofs::PaddedLists::listed_by_length))]
fn list_len(numbers: &[u8; MAX_CANDIDATES]) -> usize
    ensures is { result ≡ length (listed numbers.now) }
    ensures within { result ≤ max_candidates }
{
    numbers.iter().take_while(|n| **n != 0).count()
}

/// Returns the array that stores a list.
pub fn padded_numbers(list: &[u8]) -> [u8; MAX_CANDIDATES]
    requires { length list.now ≤ max_candidates }
    ensures { result ≡ padded list.now }
{
    let mut numbers = [0; MAX_CANDIDATES];
    numbers[..list.len()].copy_from_slice(list);
    numbers
}

/// Returns the first eight numbers of an array as a single integer that sorts the same way.
fn beginning(numbers: &[u8; MAX_CANDIDATES]) -> u64
    ensures { result ≡ number_of (take 8 numbers.now) }
{
    u64::from_be_bytes([
        numbers[0], numbers[1], numbers[2], numbers[3], numbers[4], numbers[5], numbers[6],
        numbers[7],
    ])
}

/// Compares two arrays. The first eight numbers, which usually decide the result, are compared in one step.
pub fn padded_cmp(numbers: &[u8; MAX_CANDIDATES], others: &[u8; MAX_CANDIDATES]) -> Ordering
    ensures { result ≡ slice_cmp nat_cmp numbers.now others.now }
{
    let (own, other) = (beginning(numbers), beginning(others));
    if own == other {
        return numbers.cmp(others);
    }
    own.cmp(&other)
}

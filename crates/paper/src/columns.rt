//! Sets of candidate numbers.

ghost use Rattle.std.specs.Prelude.{◌≡◌, ℕ, ◌+◌, ◌<◌, ◌≤◌, [], ◌∷◌, ◌++◌, length, nat_eq, nat_lt};
ghost use Rattle.std.specs.List.{list_any, prefix_len};
ghost use Rattle.paper.specs.Columns.{max_candidates, IsCandidateSet, with_column};
ghost use Rattle.paper.specs.Padded.{padded};

use crate::padded::{list_in, padded_numbers};
use std::marker::Model;

/// The maximum number of candidates in a ward; candidates are numbered from 1 to this number.
pub const MAX_CANDIDATES: usize = 30;

/// A set of candidate numbers, from 1 to `MAX_CANDIDATES`, modelled as the list of its numbers in ascending
/// order.
// The numbers, followed by zeros.
#[derive(Clone, Copy, Debug, PartialEq, Eq)]
pub struct Columns {
    numbers: [u8; MAX_CANDIDATES],
}

impl Model for Columns {
    ghost use Rattle.std.specs.Prelude.{◌≡◌, List, ℕ};
    ghost use Rattle.paper.specs.Columns.{IsCandidateSet};
    ghost use Rattle.paper.specs.Padded.{listed, padded};

    ghost Value = { List ℕ };

    ghost view = { λ a. listed a.numbers };

    ghost invariant = { λ a. (padded (listed a.numbers) ≡ a.numbers) × IsCandidateSet (listed a.numbers) };

    ghost inverse = { λ d. record { numbers = padded d } };

    ghost inverse_ok = { λ a h. Prim.rw h.0 };
}

impl Columns {
    /// Returns the empty set.
    pub fn empty() -> Columns
        ensures { result ≡ [] }
    {
        Columns {
            numbers: [0; MAX_CANDIDATES],
        }
    }

    /// Returns the set with a number from 1 to `MAX_CANDIDATES` added.
    pub fn with(self, c: u8) -> Columns
        requires some { 1 ≤ c }
        requires few { c ≤ max_candidates }
        ensures is { result ≡ with_column self c }
        ensures set { IsCandidateSet result }
        // a number greater than all others is appended
        ensures last { IsCandidateSet (self ++ c ∷ []) → result ≡ self ++ c ∷ [] }
    {
        let list = self.as_slice();
        if self.has(c) {
            return self;
        }
        let (below, above) = list.split_at(self.count_below(c));
        Columns {
            numbers: inserted(below, c, above),
        }
    }

    /// Returns how many numbers in the set are less than the given number.
    fn count_below(&self, c: u8) -> usize
        ensures is { result ≡ prefix_len (λ d. nat_lt d c) self.now }
        ensures within { result ≤ length self.now }
    {
        self.as_slice().iter().take_while(|d| **d < c).count()
    }

    /// Returns whether the set contains a number.
    pub fn has(&self, c: u8) -> bool
        ensures is { result ≡ list_any (nat_eq c) self.now }
    {
        self.as_slice().contains(&c)
    }

    /// Returns the size of the set, at most `MAX_CANDIDATES`.
    pub fn len(&self) -> usize
        ensures is { result ≡ length self.now }
        ensures few { result ≤ max_candidates }
    {
        self.as_slice().len()
    }

    /// Returns the numbers of the set, in ascending order.
    pub fn as_slice(&self) -> &[u8]
        ensures is { result.now ≡ self.now }
        ensures set { IsCandidateSet self.now }
    {
        list_in(&self.numbers)
    }
}

/// Returns the array that stores a list, followed by a number and another list.
fn inserted(below: &[u8], c: u8, above: &[u8]) -> [u8; MAX_CANDIDATES]
    requires { length below.now + length above.now < max_candidates }
    ensures { result ≡ padded (below.now ++ c ∷ above.now) }
{
    let mut numbers = padded_numbers(below);
    let at = below.len();
    numbers[at] = c;
    numbers[at + 1..=at + above.len()].copy_from_slice(above);
    numbers
}

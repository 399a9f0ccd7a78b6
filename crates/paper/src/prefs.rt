//! The preferences of a ballot paper.

ghost use Rattle.std.specs.Prelude.{◌≡◌, ℕ, ◌≤◌, length, slice_index, IfSome, IsSome, IsTrue, ◌↔◌, Some, nat_eq, refl};
ghost use Rattle.std.specs.Cmp.{partial_equiv_from_equiv};
ghost use Rattle.std.specs.Cmp.Lexicographic.{pointwise, slice_cmp, nat_list_cmp_total, nat_list_eq_equiv, texts_po, texts_ties};
ghost use Rattle.std.specs.Ordering.{nat_cmp};
ghost use Rattle.paper.specs.Columns.{max_candidates};
ghost use Rattle.paper.specs.Padded.{listed, padded};
ghost use Rattle.paper.specs.Ranking.{IsRanking};

use crate::columns::MAX_CANDIDATES;
use crate::padded::{list_in, padded_cmp, padded_numbers};
use std::cmp::Ordering;
use std::marker::Model;

/// The preferences of a valid ballot paper, modelled as the list of candidate numbers, first preference first, without
/// duplicates. The order is lexicographic: the first difference decides, and a proper prefix of a list sorts before the list.
// One byte per candidate: the numbers, padded with zeros instead of storing a length. No smaller `Copy` type can lend this many
// numbers as a slice.
#[derive(Clone, Copy, Debug)]
pub struct Prefs {
    numbers: [u8; MAX_CANDIDATES],
}

impl Model for Prefs {
    ghost use Rattle.std.specs.Prelude.{◌≡◌, ◌≤◌, List, ℕ, length};
    ghost use Rattle.paper.specs.Ranking.{IsRanking};
    ghost use Rattle.paper.specs.Padded.{listed, padded};

    ghost Value = { List ℕ };

    ghost view = { λ a. listed a.numbers };

    ghost invariant = { λ a. (padded (listed a.numbers) ≡ a.numbers) × (1 ≤ length (listed a.numbers)) × IsRanking (listed a.numbers) };

    ghost inverse = { λ d. record { numbers = padded d } };

    ghost inverse_ok = { λ a h. Prim.rw h.0 };
}

impl Prefs {
    /// Returns the preferences in a list, or `None` if and only if the list is empty, contains a number outside 1 to
    /// `MAX_CANDIDATES`, or contains a number twice.
    #[tactic(auto, using(crate::proofs::Rankings::rankings))]
    pub fn from_slice(list: &[u8]) -> Option<Prefs>
        ensures is { IfSome result (λ prefs. prefs ≡ list.now) }
        ensures when { IsSome result ↔ ((1 ≤ length list.now) × IsRanking list.now) }
    {
        if list.is_empty() || !is_ranking(list) {
            return None;
        }
        Some(Prefs {
            numbers: padded_numbers(list),
        })
    }

    /// Returns the preferences stored in an array, which is padded with zeros.
    pub(crate) fn from_ranking(numbers: [u8; MAX_CANDIDATES]) -> Prefs
        requires whole { padded (listed numbers) ≡ numbers }
        requires some { 1 ≤ length (listed numbers) }
        requires ranking { IsRanking (listed numbers) }
        ensures { result ≡ listed numbers }
    {
        Prefs { numbers }
    }

    /// Returns the first preference.
    pub fn first(&self) -> u8
        ensures is { result ≡ slice_index self.now 0 }
        ensures some { 1 ≤ length self.now }
        ensures ranking { IsRanking self.now }
    {
        self.numbers[0]
    }

    /// Returns the candidate numbers, first preference first.
    pub fn as_slice(&self) -> &[u8]
        ensures is { result.now ≡ self.now }
        ensures some { 1 ≤ length self.now }
        ensures ranking { IsRanking self.now }
    {
        list_in(&self.numbers)
    }
}

impl PartialEq for Prefs {
    ghost eq = { pointwise nat_eq };

    ghost laws = { partial_equiv_from_equiv nat_list_eq_equiv };

    fn eq(&self, other: &Prefs) -> bool {
        self.as_slice() == other.as_slice()
    }
}

impl Eq for Prefs {
    ghost laws = { nat_list_eq_equiv };
}

impl PartialOrd for Prefs {
    ghost partial_cmp = { λ a b. Some (slice_cmp nat_cmp a b) };

    ghost laws = { texts_po };

    fn partial_cmp(&self, other: &Prefs) -> Option<Ordering> {
        Some(self.cmp(other))
    }
}

impl Ord for Prefs {
    ghost cmp = { slice_cmp nat_cmp };

    ghost total = { nat_list_cmp_total };

    ghost matches_partial_cmp = { λ a b. refl };

    ghost matches_eq = { texts_ties };

    // No candidate has the number 0, so the arrays sort in the same order as their lists, and there is no need to find where a
    // list ends.
    fn cmp(&self, other: &Prefs) -> Ordering {
        padded_cmp(&self.numbers, &other.numbers)
    }
}

/// Returns whether a list consists of numbers from 1 to `MAX_CANDIDATES` without duplicates.
#[tactic(auto, using(crate::proofs::Rankings::rankings))]
fn is_ranking(list: &[u8]) -> bool
    ensures is { IsTrue result ↔ IsRanking list.now }
    ensures few { IsTrue result → length list.now ≤ max_candidates }
{
    let mut rest = list;
    while let Some((c, others)) = rest.split_first() {
        if *c == 0 || usize::from(*c) > MAX_CANDIDATES || others.contains(c) {
            return false;
        }
        rest = others;
    }
    true
}

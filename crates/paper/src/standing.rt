//! The status of each candidate during a count, and the next available preference.

ghost use Rattle.std.specs.Prelude.{◌≡◌, ℕ, ◌+◌, ◌<◌, ◌≤◌, nat_eq, not, if◌then◌else◌, slice_index_or, drop, length, IsTrue};
ghost use Rattle.std.specs.List.{list_any, prefix_len};
ghost use Rattle.paper.specs.Columns.{IsColumn};
ghost use Rattle.paper.specs.Standing.{status_of, status_among, AreApart, is_continuing, next_available_of, from_first};

use crate::columns::{Columns, MAX_CANDIDATES};
use std::marker::Model;

/// The status of a candidate number.
#[derive(Clone, Copy, PartialEq, Eq)]
pub enum CandidateStatus {
    /// Neither elected nor excluded.
    Continuing,
    Elected,
    Excluded,
    /// No candidate has this number.
    Absent,
}

/// How many numbers have a status: 0, and every candidate number.
const NUMBERS: usize = MAX_CANDIDATES + 1;

/// A status for each number from 1 to `MAX_CANDIDATES`, modelled as the list of statuses, starting with the status of 0.
/// Any other number is absent.
#[derive(Clone, Copy, PartialEq, Eq)]
pub struct Standing {
    statuses: [CandidateStatus; NUMBERS],
}

impl Model for Standing {
    ghost use Rattle.std.specs.Prelude.{List};
    ghost use Rattle.paper.specs.declared.standing.CandidateStatus.{CandidateStatus};

    ghost Value = { List CandidateStatus };

    ghost use Rattle.std.specs.Prelude.{◌≡◌};
    ghost use Rattle.paper.specs.declared.standing.CandidateStatus.TheVariants.{Absent};
    ghost use Rattle.paper.specs.Standing.{status_of};

    ghost view = { λ a. a.statuses };

    ghost invariant = { λ a. status_of a.statuses 0 ≡ Absent };

    ghost inverse = { λ d. record { statuses = d } };
}

impl Standing {
    /// Returns the standing with the given continuing, elected and excluded candidates. The sets must be disjoint.
    pub fn new(continuing: Columns, elected: Columns, excluded: Columns) -> Standing
        requires elected_apart { AreApart continuing elected }
        requires excluded_apart { AreApart continuing excluded }
        requires ends_apart { AreApart elected excluded }
        ensures each { (c : ℕ) → status_of result c ≡ status_among continuing elected excluded c }
        ensures continuing { (c : ℕ) → is_continuing result c ≡ list_any (nat_eq c) continuing }
    {
        let mut statuses = [CandidateStatus::Absent; NUMBERS];
        give(&mut statuses, &excluded, CandidateStatus::Excluded);
        give(&mut statuses, &elected, CandidateStatus::Elected);
        give(&mut statuses, &continuing, CandidateStatus::Continuing);
        Standing { statuses }
    }

    /// Returns the status of a number.
    pub fn status(&self, c: u8) -> CandidateStatus
        ensures is { result ≡ status_of self.now c }
        ensures other { ¬ IsColumn c → result ≡ CandidateStatus.Absent }
    {
        match self.statuses.get(usize::from(c)) {
            Some(status) => *status,
            None => CandidateStatus::Absent,
        }
    }

    /// Returns whether a number belongs to a continuing candidate.
    pub fn continues(&self, c: u8) -> bool
        ensures is { result ≡ is_continuing self.now c }
        ensures known { IsTrue result → IsColumn c }
    {
        match self.status(c) {
            CandidateStatus::Continuing => true,
            CandidateStatus::Elected => false,
            CandidateStatus::Excluded => false,
            CandidateStatus::Absent => false,
        }
    }
}

/// Sets the status of each number in a set.
fn give(statuses: &mut [CandidateStatus; NUMBERS], numbers: &Columns, status: CandidateStatus)
    ensures each { (c : ℕ) → status_of statuses.new c ≡ (if list_any (nat_eq c) numbers.now then status else status_of statuses.old c) }
    ensures none { status_of statuses.new 0 ≡ status_of statuses.old 0 }
{
    for c in numbers.as_slice() {
        statuses[usize::from(*c)] = status;
    }
}

/// Returns the next available preference ("Transfer of ballot papers"): the first preference for a continuing candidate at
/// or after place `from`, counting from 0.
pub fn next_available(prefs: &[u8], from: usize, standing: &Standing) -> Option<u8>
    ensures { result ≡ next_available_of prefs.now from standing.now }
{
    available_from(prefs, from, standing).first().copied()
}

/// Returns the preferences from the next available one onwards; empty if there is none.
pub fn available_from<'a>(prefs: &'a [u8], from: usize, standing: &Standing) -> &'a [u8]
    ensures { result.now ≡ from_first (is_continuing standing.now) (drop from prefs.now) }
{
    let rest = &prefs[from.min(prefs.len())..];
    &rest[count_passed(rest, standing)..]
}

/// Returns how many preferences are skipped before the first one for a continuing candidate.
fn count_passed(prefs: &[u8], standing: &Standing) -> usize
    ensures is { result ≡ prefix_len (λ c. not (is_continuing standing.now c)) prefs.now }
    ensures within { result ≤ length prefs.now }
{
    prefs
        .iter()
        .take_while(|c| !standing.continues(**c))
        .count()
}

//! Wards and their candidates.
//!
//! The two lists are walked once, side by side: the next ward's candidates are always at the front of the remaining
//! candidates, and none are left over at the end.

ghost use Rattle.std.specs.Prelude.{◌≡◌, ◌==◌, map, take_while};
ghost use Rattle.std.specs.List.{prefix_len};
ghost use Rattle.register.specs.Offices.{MapsAreSorted, ward_entry, candidate_entry};
ghost use Rattle.register.specs.Nominations.{are_enough};
ghost use Rattle.register.specs.StateConditions.{all_nominated};
ghost use Rattle.rowcheck.specs.States.{state_of};
ghost use Rattle.rowcheck.specs.Walks.KeyRanges.{skip_while};
ghost use Rattle.rowcheck.specs.Walks.Nominations.{are_nominated};

use crate::rows::Rows;
use register::wards::is_contested;
use register::{Candidate, Phase, Ward};

fn are_enough(ward: &Ward, candidates: &[Candidate]) -> bool
    ensures { result ≡ are_enough ward.now.phase (ward_entry ward.now) (map candidate_entry candidates.now) }
{
    match ward.phase {
        Phase::Nominations => true,
        Phase::Keying => is_contested(ward, candidates),
        Phase::Sealed => !candidates.is_empty(),
        Phase::Declared => !candidates.is_empty(),
    }
}

fn run_length(ward: u32, candidates: &[Candidate]) -> usize
    ensures { result ≡ prefix_len (λ c. c.ward == ward) candidates.now }
{
    candidates
        .iter()
        .take_while(|candidate| candidate.ward == ward)
        .count()
}

/// Splits the given ward's candidates off the front of the list; returns them and the rest.
fn split_run(ward: u32, candidates: &[Candidate]) -> (&[Candidate], &[Candidate])
    ensures run { result.0.now ≡ take_while (λ c. c.ward == ward) candidates.now }
    ensures rest { result.1.now ≡ skip_while (λ c. c.ward == ward) candidates.now }
{
    candidates.split_at(run_length(ward, candidates))
}

/// Returns whether every ward has the candidates that its phase requires, and there are no other candidates.
fn are_nominated(wards: &[Ward], candidates: &[Candidate]) -> bool
    ensures { result ≡ are_nominated wards.now candidates.now }
{
    let mut left = candidates;
    for ward in wards {
        let (run, rest) = split_run(ward.number, left);
        if !are_enough(ward, run) {
            return false;
        }
        left = rest;
    }
    left.is_empty()
}

/// Returns whether every candidate belongs to an existing ward, and every ward has the candidates that its phase requires:
/// more candidates than seats during keying, at least one candidate once the ward is sealed. This is the second condition
/// on the rows of an office, assuming that its wards and candidates are in key order without duplicates.
pub fn all_nominated(rows: &Rows) -> bool
    requires { MapsAreSorted (state_of rows.now) }
    ensures { result ≡ all_nominated (state_of rows.now) }
{
    are_nominated(&rows.wards, &rows.candidates)
}

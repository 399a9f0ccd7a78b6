//! Batches, the wards to which they belong, and third clerks.

ghost use Rattle.std.specs.Prelude.{◌≡◌, map, option_map, option_copied};
ghost use Rattle.std.specs.List.{list_all};
ghost use Rattle.register.specs.Offices.{MapsAreSorted, ward_entry, candidate_entry, batch_entry, third_entry, batch_at};
ghost use Rattle.register.specs.BatchConditions.{is_polled, is_given_out, is_third_for};
ghost use Rattle.register.specs.StateConditions.{all_given_out};
ghost use Rattle.rowcheck.specs.States.{state_of};

use crate::finding::{batch_at, candidates_of, ward_at};
use crate::rows::Rows;
use register::wards::is_contested;
use register::{Batch, Candidate, Phase, ThirdClerk, Ward};

/// Returns whether a ward exists, is past nominations and is contested.
fn is_polled(ward: Option<&Ward>, candidates: &[Candidate]) -> bool
    ensures { result ≡ is_polled (option_map ward_entry (option_copied ward.entry)) (map candidate_entry candidates.now) }
{
    match ward {
        Some(ward) => {
            let nominating = ward.phase.number() == Phase::Nominations.number();
            !nominating & is_contested(ward, candidates)
        }
        None => false,
    }
}

/// Returns whether a batch has two different clerks and belongs to a contested ward that is past nominations.
fn is_given_out(rows: &Rows, batch: &Batch) -> bool
    requires { MapsAreSorted (state_of rows.now) }
    ensures { result ≡ is_given_out (state_of rows.now) (batch_entry batch.now) }
{
    let one_clerk = batch.first_clerk == batch.second_clerk;
    let ward = ward_at(rows, batch.ward);
    !one_clerk & is_polled(ward, candidates_of(rows, batch.ward))
}

fn are_given_out(rows: &Rows, batches: &[Batch]) -> bool
    requires { MapsAreSorted (state_of rows.now) }
    ensures { result ≡ list_all (λ b. is_given_out (state_of rows.now) (batch_entry b)) batches.now }
{
    batches.iter().all(|batch| is_given_out(rows, batch))
}

/// Returns whether a batch exists and the given third clerk is neither of its two clerks.
fn is_third_for(third: &ThirdClerk, batch: Option<&Batch>) -> bool
    ensures { result ≡ is_third_for (third_entry third.now) (option_map batch_entry (option_copied batch.entry)) }
{
    match batch {
        Some(batch) => {
            let is_first = third.clerk == batch.first_clerk;
            let is_second = third.clerk == batch.second_clerk;
            !is_first & !is_second
        }
        None => false,
    }
}

/// Returns whether a third clerk's batch exists and the third clerk is neither of its two clerks.
fn is_set_right(rows: &Rows, third: &ThirdClerk) -> bool
    requires { MapsAreSorted (state_of rows.now) }
    ensures { result ≡ is_third_for (third_entry third.now) (batch_at (state_of rows.now) third.now.batch) }
{
    is_third_for(third, batch_at(rows, third.batch))
}

fn are_set_right(rows: &Rows, thirds: &[ThirdClerk]) -> bool
    requires { MapsAreSorted (state_of rows.now) }
    ensures { result ≡ list_all (λ t. is_third_for (third_entry t) (batch_at (state_of rows.now) t.batch)) thirds.now }
{
    thirds.iter().all(|third| is_set_right(rows, third))
}

/// Returns whether every batch belongs to a contested ward that is past nominations and has two different clerks, and
/// whether every third clerk belongs to an existing batch and is neither of its two clerks. This is the third condition on
/// the rows of an office, assuming that its tables are in key order without duplicates.
pub fn all_given_out(rows: &Rows) -> bool
    requires { MapsAreSorted (state_of rows.now) }
    ensures { result ≡ all_given_out (state_of rows.now) }
{
    let given_out = are_given_out(rows, &rows.batches);
    given_out & are_set_right(rows, &rows.thirds)
}

//! Wards whose count has begun, and their ballot papers.

ghost use Rattle.std.specs.Prelude.{◌≡◌, ◌++◌, ◌∷◌, [], map, IfOk};
ghost use Rattle.std.specs.List.{list_all};
ghost use Rattle.register.specs.Offices.{MapsAreSorted, ward_entry, batch_entry};
ghost use Rattle.register.specs.Polls.{pile_of, piles_of, is_settled, ballots_in, StandFor, are_bundled};
ghost use Rattle.register.specs.Elections.{election_of, is_counted, is_in_count, is_agreed};
ghost use Rattle.register.specs.StateConditions.{all_agreed};
ghost use Rattle.rowcheck.specs.States.{state_of};
ghost use Rattle.rowcheck.specs.Walks.Polls.{is_settled_for, piles_in};

use crate::finding::{candidates_of, keyings_in, verdicts_of};
use crate::rows::Rows;
use count::Bundles;
use paper::Columns;
use register::agreement::{agreed, count_open, is_keyed};
use register::wards::is_contested;
use register::{Ballots, Batch, Phase, Ward};
use std::alloc::{AllocError, Global};

/// Returns whether a ward in the given phase has been sealed.
fn is_counted(phase: Phase) -> bool
    ensures { result ≡ is_counted phase }
{
    match phase {
        Phase::Nominations | Phase::Keying => false,
        Phase::Sealed | Phase::Declared => true,
    }
}

/// Returns whether a ward has been sealed and its election is contested.
pub(crate) fn is_in_count(rows: &Rows, ward: &Ward) -> bool
    requires { MapsAreSorted (state_of rows.now) }
    ensures { result ≡ is_in_count (election_of (state_of rows.now) (ward_entry ward.now)) }
{
    let contested = is_contested(ward, candidates_of(rows, ward.number));
    is_counted(ward.phase) & contested
}

/// Returns whether a batch is taken and each of its doubtful papers has a verdict.
fn is_settled(rows: &Rows, batch: &Batch) -> bool
    requires { MapsAreSorted (state_of rows.now) }
    ensures { result ≡ is_settled (pile_of (state_of rows.now) (batch_entry batch.now)) }
{
    let keyings = keyings_in(rows, batch, batch.round);
    let papers = agreed(keyings.first, keyings.second, keyings.third);
    let judged = count_open(papers, verdicts_of(rows, batch.number)) == 0;
    is_keyed(papers) & judged
}

/// Returns whether a batch is settled or doesn't belong to the given ward.
fn is_settled_for(rows: &Rows, ward: u32, batch: &Batch) -> bool
    requires { MapsAreSorted (state_of rows.now) }
    ensures { result ≡ is_settled_for (state_of rows.now) ward (batch_entry batch.now) }
{
    if batch.ward != ward {
        return true;
    }
    is_settled(rows, batch)
}

fn are_settled(rows: &Rows, ward: u32, batches: &[Batch]) -> bool
    requires { MapsAreSorted (state_of rows.now) }
    ensures { result ≡ list_all (λ b. is_settled_for (state_of rows.now) ward (batch_entry b)) batches.now }
{
    batches
        .iter()
        .all(|batch| is_settled_for(rows, ward, batch))
}

/// Returns whether every batch of a ward is settled, provided that the ward's count has begun.
fn is_agreed(rows: &Rows, ward: &Ward) -> bool
    requires { MapsAreSorted (state_of rows.now) }
    ensures { result ≡ is_agreed (election_of (state_of rows.now) (ward_entry ward.now)) }
{
    if !is_in_count(rows, ward) {
        return true;
    }
    are_settled(rows, ward.number, &rows.batches)
}

fn are_agreed(rows: &Rows, wards: &[Ward]) -> bool
    requires { MapsAreSorted (state_of rows.now) }
    ensures { result ≡ list_all (λ w. is_agreed (election_of (state_of rows.now) (ward_entry w))) wards.now }
{
    wards.iter().all(|ward| is_agreed(rows, ward))
}

/// Returns whether, in every contested ward that has been sealed, all batches are taken and all their doubtful
/// papers have verdicts. This is the sixth condition on the rows of an office, assuming that its tables are in key
/// order without duplicates.
pub fn all_agreed(rows: &Rows) -> bool
    requires { MapsAreSorted (state_of rows.now) }
    ensures { result ≡ all_agreed (state_of rows.now) }
{
    are_agreed(rows, &rows.wards)
}

/// Adds the papers of a batch to those of its ward. Returns `AllocError` if an allocation fails.
fn add_batch(
    rows: &Rows,
    ballots: &mut Ballots<Bundles>,
    columns: Columns,
    batch: &Batch,
) -> Result<(), AllocError>
    requires { MapsAreSorted (state_of rows.now) }
    ensures { IfOk result (λ _. (piles : _) → StandFor are_bundled ballots.old (ballots_in columns piles)
        → StandFor are_bundled ballots.new (ballots_in columns (piles ++ (pile_of (state_of rows.now) (batch_entry batch.now) ∷ [])))) }
{
    let keyings = keyings_in(rows, batch, batch.round);
    let verdicts = verdicts_of(rows, batch.number);
    ballots.add(
        columns,
        keyings.first,
        keyings.second,
        keyings.third,
        verdicts,
    )
}

/// Returns the papers of those batches that belong to the given ward. Returns `AllocError` if an allocation fails.
fn ballots_among(
    alloc: Global,
    rows: &Rows,
    columns: Columns,
    ward: u32,
    batches: &[Batch],
) -> Result<Ballots<Bundles>, AllocError>
    requires { MapsAreSorted (state_of rows.now) }
    ensures { IfOk result (λ ballots. StandFor are_bundled ballots (ballots_in columns (piles_in (state_of rows.now) ward (map batch_entry batches.now)))) }
{
    let mut ballots = Ballots::new(Bundles::new(alloc));
    for batch in batches {
        if batch.ward == ward {
            add_batch(rows, &mut ballots, columns, batch)?;
        }
    }
    Ok(ballots)
}

/// Returns the papers of a ward, read with the given columns. Returns `AllocError` if an allocation fails.
pub(crate) fn ballots_of(
    alloc: Global,
    rows: &Rows,
    columns: Columns,
    ward: u32,
) -> Result<Ballots<Bundles>, AllocError>
    requires { MapsAreSorted (state_of rows.now) }
    ensures { IfOk result (λ ballots. StandFor are_bundled ballots (ballots_in columns (piles_of (state_of rows.now) ward))) }
{
    ballots_among(alloc, rows, columns, ward, &rows.batches)
}

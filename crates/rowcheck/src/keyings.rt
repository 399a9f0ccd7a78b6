//! Keyed papers, and the batches to which they belong.
//!
//! First, every keyed paper must belong to an existing batch. Then, batch by batch, the papers are read using the batch's columns,
//! and the rounds are checked one by one; each keying is a run of rows.

ghost use Rattle.std.specs.Prelude.{◌≡◌, ◌&&◌, ◌||◌, not, true, nat_le, map, is_some, option_map, IfSome, string_bytes};
ghost use Rattle.std.specs.List.{list_all};
ghost use Rattle.register.specs.Offices.{MapsAreSorted, batch_entry, third_entry, keyed_entry, batch_at};
ghost use Rattle.register.specs.Marks.{is_readable};
ghost use Rattle.register.specs.Agreement.{is_keyed, is_its_clerk, of_three};
ghost use Rattle.register.specs.BatchConditions.{is_whole, are_numbered, is_round_of, are_rounds_to};
ghost use Rattle.register.specs.StateConditions.{all_keyed};
ghost use Rattle.rowcheck.specs.States.{state_of};
ghost use Rattle.rowcheck.specs.Walks.Keyings.{are_keyed_for, is_rightly_keyed};

use crate::finding::{RoundKeyings, candidates_of, has_batch, keyings_in, papers_of, third_at};
use crate::rows::Rows;
use paper::Columns;
use register::agreement::differ;
use register::keyings::is_its_clerk;
use register::marks::{columns_of, is_readable};
use register::{Batch, KeyedPaper, ThirdClerk};

/// Returns whether a batch with the given number exists. The batch `known` is known to exist and isn't looked up.
fn is_there(rows: &Rows, known: Option<u32>, number: u32) -> bool
    requires rise { MapsAreSorted (state_of rows.now) }
    requires known { IfSome known (λ n. is_some (batch_at (state_of rows.now) n) ≡ true) }
    ensures { result ≡ is_some (batch_at (state_of rows.now) number) }
{
    match known {
        Some(known) if known == number => true,
        _ => has_batch(rows, number),
    }
}

/// Returns whether every keyed paper belongs to an existing batch. The papers of a batch are adjacent, so each batch is looked up
/// only once.
fn are_of_batches(rows: &Rows, keyings: &[KeyedPaper]) -> bool
    requires { MapsAreSorted (state_of rows.now) }
    ensures { result ≡ list_all (λ k. is_some (batch_at (state_of rows.now) k.batch)) keyings.now }
{
    let mut known = None;
    for keyed in keyings {
        if !is_there(rows, known, keyed.batch) {
            return false;
        }
        known = Some(keyed.batch);
    }
    true
}

/// Returns whether a paper of a batch is keyed in a round no later than the current one, by one of the batch's clerks, with marks
/// that can be read with the given columns.
fn is_keyed_for(
    batch: &Batch,
    third: &Option<ThirdClerk>,
    columns: Columns,
    keyed: &KeyedPaper,
) -> bool
    ensures { result ≡ (nat_le keyed.now.round batch.now.round
        && (is_its_clerk keyed.now.clerk (batch_entry batch.now) (option_map third_entry third.now) && is_readable columns (string_bytes keyed.now.marks))) }
{
    let in_time = keyed.round <= batch.round;
    let its_clerk = is_its_clerk(keyed.clerk, batch, third);
    in_time & (its_clerk & is_readable(columns, keyed.marks.as_str()))
}

fn are_papers_for(
    batch: &Batch,
    third: &Option<ThirdClerk>,
    columns: Columns,
    papers: &[KeyedPaper],
) -> bool
    ensures { result ≡ list_all (λ k. nat_le k.round batch.now.round
        && (is_its_clerk k.clerk (batch_entry batch.now) (option_map third_entry third.now) && is_readable columns (string_bytes k.marks))) papers.now }
{
    papers
        .iter()
        .all(|keyed| is_keyed_for(batch, third, columns, keyed))
}

/// Returns whether every keyed paper of a batch meets `is_keyed_for`.
fn are_keyed_for(rows: &Rows, batch: &Batch) -> bool
    requires { MapsAreSorted (state_of rows.now) }
    ensures { result ≡ are_keyed_for (state_of rows.now) (batch_entry batch.now) }
{
    let columns = columns_of(candidates_of(rows, batch.ward));
    let third = third_at(rows, batch.number);
    are_papers_for(batch, &third, columns, papers_of(rows, batch.number))
}

#[tactic(auto, unfolding(register::specs::BatchConditions::are_numbered))]
/// Returns whether papers are numbered consecutively from 1.
fn are_numbered(keying: &[KeyedPaper]) -> bool
    ensures { result ≡ are_numbered 1 (map keyed_entry keying.now) }
{
    for (place, keyed) in keying.iter().enumerate() {
        if keyed.paper as usize != place + 1 {
            return false;
        }
    }
    true
}

/// Returns whether a keying is missing or consists of exactly the papers from 1 to `size`, in order.
fn is_whole_if_keyed(size: u32, keying: &[KeyedPaper]) -> bool
    ensures { result ≡ (not (is_keyed (map keyed_entry keying.now)) || is_whole size (map keyed_entry keying.now)) }
{
    if keying.is_empty() {
        return true;
    }
    let full = keying.len() == size as usize;
    full & are_numbered(keying)
}

/// Returns whether every existing keying consists of exactly the papers from 1 to `size`, in order.
fn are_whole(size: u32, keyings: &RoundKeyings) -> bool
    ensures { result ≡ list_all (is_whole size) (of_three (map keyed_entry keyings.now.first.now) (map keyed_entry keyings.now.second.now) (map keyed_entry keyings.now.third.now)) }
{
    let first = is_whole_if_keyed(size, keyings.first);
    let second = is_whole_if_keyed(size, keyings.second);
    first & (second & is_whole_if_keyed(size, keyings.third))
}

/// Returns whether every keying of a round is complete and, if the round is an earlier one, at least two keyings exist and no two are
/// equal.
fn is_round_of(rows: &Rows, batch: &Batch, round: u32) -> bool
    requires { MapsAreSorted (state_of rows.now) }
    ensures { result ≡ is_round_of (state_of rows.now) (batch_entry batch.now) round }
{
    let keyings = keyings_in(rows, batch, round);
    let current = batch.round <= round;
    let whole = are_whole(batch.size, &keyings);
    whole & (current | differ(keyings.first, keyings.second, keyings.third))
}

/// Returns whether every round of a batch, from the current one back to the first, meets the conditions for a state.
fn are_rounds(rows: &Rows, batch: &Batch) -> bool
    requires { MapsAreSorted (state_of rows.now) }
    ensures { result ≡ are_rounds_to (state_of rows.now) (batch_entry batch.now) batch.now.round }
{
    for later in 0..batch.round {
        if !is_round_of(rows, batch, batch.round - later) {
            return false;
        }
    }
    true
}

/// Returns whether the keyed papers and the rounds of a batch meet the conditions for a state.
fn is_rightly_keyed(rows: &Rows, batch: &Batch) -> bool
    requires { MapsAreSorted (state_of rows.now) }
    ensures { result ≡ is_rightly_keyed (state_of rows.now) (batch_entry batch.now) }
{
    let papers = are_keyed_for(rows, batch);
    papers & are_rounds(rows, batch)
}

fn are_rightly_keyed(rows: &Rows, batches: &[Batch]) -> bool
    requires { MapsAreSorted (state_of rows.now) }
    ensures { result ≡ list_all (λ b. is_rightly_keyed (state_of rows.now) (batch_entry b)) batches.now }
{
    batches.iter().all(|batch| is_rightly_keyed(rows, batch))
}

/// Returns whether every keyed paper belongs to an existing batch, one of its rounds and one of its clerks, and has marks that can
/// be read; whether every keying is complete; and whether the keyings of each earlier round differ. This is the fourth condition on
/// the rows of an office, assuming that its tables are in key order without duplicates.
pub fn all_keyed(rows: &Rows) -> bool
    requires { MapsAreSorted (state_of rows.now) }
    ensures { result ≡ all_keyed (state_of rows.now) }
{
    let owned = are_of_batches(rows, &rows.keyings);
    owned & are_rightly_keyed(rows, &rows.batches)
}

//! Finds the entries of an office among its rows, by key.

ghost use Rattle.std.specs.Prelude.{◌≡◌, map, is_some, option_map, option_copied};
ghost use Rattle.std.specs.Ordering.{nat_cmp, ordering_then};
ghost use Rattle.register.specs.Offices.{MapsAreSorted, ward_entry, candidate_entry, batch_entry, third_entry, keyed_entry, judged_entry, lot_entry, ward_at, candidates_of, batch_at, third_at};
ghost use Rattle.register.specs.Offices.{keying_of, verdicts_of, lots_of};
ghost use Rattle.register.specs.Agreement.{of_three, keying_by, keyings_in};
ghost use Rattle.rowcheck.specs.States.{state_of};
ghost use Rattle.rowcheck.specs.Walks.Keyings.{papers_of};

use crate::key_ranges::{Row, run_of};
use crate::rows::Rows;
use register::agreement::{clerks_of, keyings_are_by_clerks};
use register::{Batch, Candidate, DrawnLot, JudgedPaper, KeyedPaper, ThirdClerk, Ward};
use std::cmp::Ordering;

/// The key of a keying: batch, round and clerk.
#[derive(Clone, Copy)]
struct KeyingKey {
    batch: u32,
    round: u32,
    clerk: u32,
}

/// The keyings of a batch in a given round, ordered by clerk number; a missing keying is empty.
#[derive(Clone, Copy)]
pub(crate) struct RoundKeyings<'a> {
    pub(crate) first: &'a [KeyedPaper],
    pub(crate) second: &'a [KeyedPaper],
    pub(crate) third: &'a [KeyedPaper],
}

impl Row<u32> for Ward {
    ghost compared = { λ w number. nat_cmp w.number number };

    fn compared(&self, number: &u32) -> Ordering {
        self.number.cmp(number)
    }
}

impl Row<u32> for Candidate {
    ghost compared = { λ c ward. nat_cmp c.ward ward };

    fn compared(&self, ward: &u32) -> Ordering {
        self.ward.cmp(ward)
    }
}

impl Row<u32> for Batch {
    ghost compared = { λ b number. nat_cmp b.number number };

    fn compared(&self, number: &u32) -> Ordering {
        self.number.cmp(number)
    }
}

impl Row<u32> for ThirdClerk {
    ghost compared = { λ t batch. nat_cmp t.batch batch };

    fn compared(&self, batch: &u32) -> Ordering {
        self.batch.cmp(batch)
    }
}

impl Row<u32> for KeyedPaper {
    ghost compared = { λ k batch. nat_cmp k.batch batch };

    fn compared(&self, batch: &u32) -> Ordering {
        self.batch.cmp(batch)
    }
}

impl Row<KeyingKey> for KeyedPaper {
    ghost compared = { λ k key. ordering_then (nat_cmp k.batch key.batch) (ordering_then (nat_cmp k.round key.round) (nat_cmp k.clerk key.clerk)) };

    fn compared(&self, key: &KeyingKey) -> Ordering {
        let clerks = self.clerk.cmp(&key.clerk);
        let rounds = self.round.cmp(&key.round).then(clerks);
        self.batch.cmp(&key.batch).then(rounds)
    }
}

impl Row<u32> for JudgedPaper {
    ghost compared = { λ v batch. nat_cmp v.batch batch };

    fn compared(&self, batch: &u32) -> Ordering {
        self.batch.cmp(batch)
    }
}

impl Row<u32> for DrawnLot {
    ghost compared = { λ l ward. nat_cmp l.ward ward };

    fn compared(&self, ward: &u32) -> Ordering {
        self.ward.cmp(ward)
    }
}

/// Returns the ward with the given number.
pub fn ward_at(rows: &Rows, number: u32) -> Option<&Ward>
    requires { MapsAreSorted (state_of rows.now) }
    ensures { option_map ward_entry (option_copied result) ≡ ward_at (state_of rows.now) number }
{
    run_of(&rows.wards, &number).first()
}

/// Returns whether a ward with the given number exists.
pub(crate) fn has_ward(rows: &Rows, number: u32) -> bool
    requires { MapsAreSorted (state_of rows.now) }
    ensures { result ≡ is_some (ward_at (state_of rows.now) number) }
{
    ward_at(rows, number).is_some()
}

/// Returns the candidates of a ward, ordered by number.
pub fn candidates_of(rows: &Rows, ward: u32) -> &[Candidate]
    requires { MapsAreSorted (state_of rows.now) }
    ensures { map candidate_entry result.now ≡ candidates_of (state_of rows.now) ward }
{
    run_of(&rows.candidates, &ward)
}

/// Returns the batch with the given number.
pub(crate) fn batch_at(rows: &Rows, number: u32) -> Option<&Batch>
    requires { MapsAreSorted (state_of rows.now) }
    ensures { option_map batch_entry (option_copied result) ≡ batch_at (state_of rows.now) number }
{
    run_of(&rows.batches, &number).first()
}

/// Returns whether a batch with the given number exists.
pub(crate) fn has_batch(rows: &Rows, number: u32) -> bool
    requires { MapsAreSorted (state_of rows.now) }
    ensures { result ≡ is_some (batch_at (state_of rows.now) number) }
{
    batch_at(rows, number).is_some()
}

/// Returns the row for a batch's third clerk, if one is assigned.
fn third_row(rows: &Rows, batch: u32) -> Option<&ThirdClerk>
    requires { MapsAreSorted (state_of rows.now) }
    ensures { option_map third_entry (option_copied result) ≡ third_at (state_of rows.now) batch }
{
    run_of(&rows.thirds, &batch).first()
}

/// Returns the third clerk of a batch, if one is assigned.
pub fn third_at(rows: &Rows, batch: u32) -> Option<ThirdClerk>
    requires { MapsAreSorted (state_of rows.now) }
    ensures { option_map third_entry result ≡ third_at (state_of rows.now) batch }
{
    match third_row(rows, batch) {
        Some(third) => Some(ThirdClerk {
            batch: third.batch,
            clerk: third.clerk,
        }),
        None => None,
    }
}

/// Returns the papers keyed for a batch, in all rounds and by all clerks.
pub(crate) fn papers_of(rows: &Rows, batch: u32) -> &[KeyedPaper]
    requires { MapsAreSorted (state_of rows.now) }
    ensures { map keyed_entry result.now ≡ papers_of (state_of rows.now) batch }
{
    run_of(&rows.keyings, &batch)
}

/// Returns the given clerk's keying of a batch in the given round, in paper order.
pub fn keying_of(rows: &Rows, batch: u32, round: u32, clerk: u32) -> &[KeyedPaper]
    requires { MapsAreSorted (state_of rows.now) }
    ensures { map keyed_entry result.now ≡ keying_of (state_of rows.now) batch round clerk }
{
    let key = KeyingKey {
        batch,
        round,
        clerk,
    };
    run_of(&rows.keyings, &key)
}

/// Returns the given clerk's keying of a batch in the given round, or an empty one if there is no such clerk.
fn keying_by(rows: &Rows, batch: u32, round: u32, clerk: Option<u32>) -> &[KeyedPaper]
    requires { MapsAreSorted (state_of rows.now) }
    ensures { map keyed_entry result.now ≡ keying_by (state_of rows.now) batch round clerk }
{
    match clerk {
        Some(clerk) => keying_of(rows, batch, round, clerk),
        None => &[],
    }
}

/// Returns the keyings of a batch in the given round by its two or three clerks, ordered by clerk number.
pub(crate) fn keyings_in<'a>(rows: &'a Rows, batch: &Batch, round: u32) -> RoundKeyings<'a>
    requires { MapsAreSorted (state_of rows.now) }
    ensures { of_three (map keyed_entry result.first.now) (map keyed_entry result.second.now) (map keyed_entry result.third.now) ≡ keyings_in (state_of rows.now) (batch_entry batch.now) round }
{
    keyings_are_by_clerks();
    let clerks = clerks_of(batch, &third_at(rows, batch.number));
    RoundKeyings {
        first: keying_of(rows, batch.number, round, clerks.first),
        second: keying_of(rows, batch.number, round, clerks.second),
        third: keying_by(rows, batch.number, round, clerks.third),
    }
}

/// Returns the verdicts on the papers of a batch, in paper order.
pub fn verdicts_of(rows: &Rows, batch: u32) -> &[JudgedPaper]
    requires { MapsAreSorted (state_of rows.now) }
    ensures { map judged_entry result.now ≡ verdicts_of (state_of rows.now) batch }
{
    run_of(&rows.verdicts, &batch)
}

/// Returns the lots of a ward, ordered by stage.
pub fn lots_of(rows: &Rows, ward: u32) -> &[DrawnLot]
    requires { MapsAreSorted (state_of rows.now) }
    ensures { map lot_entry result.now ≡ lots_of (state_of rows.now) ward }
{
    run_of(&rows.lots, &ward)
}

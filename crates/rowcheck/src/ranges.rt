//! Checks whether rows are in range.

ghost use Rattle.std.specs.Prelude.{◌≡◌, Bool};
ghost use Rattle.std.specs.List.{list_all};
ghost use Rattle.register.specs.Offices.{ward_entry, candidate_entry, batch_entry, third_entry, keyed_entry, judged_entry, lot_entry, receipt_entry};
ghost use Rattle.register.specs.StateConditions.{is_ward, is_candidate, is_batch, is_third, is_keyed_paper, is_judged_paper, is_lot, is_about, is_receipt, all_in_range};
ghost use Rattle.rowcheck.specs.States.{state_of};

use crate::rows::Rows;
use crate::subjects::{is_clerk_subject, is_office_subject};
use register::ranges::{
    is_batch_number, is_candidate_number, is_clerk, is_id, is_lot_stage, is_name, is_office,
    is_paper_number, is_reply, is_round, is_seat_number, is_ward_number,
};
use register::{Batch, Candidate, DrawnLot, JudgedPaper, KeyedPaper, Receipt, ThirdClerk, Ward};

/// The highest code of a verdict.
const LAST_CODE: u32 = 5;

/// A row whose numbers and texts must be within certain ranges.
trait Ranged {
    ghost is_ranged: { Self → Bool };

    /// Returns whether all of the row's numbers and texts are within range.
    fn is_in_range(&self) -> bool
        ensures { result ≡ is_ranged self.now };
}

impl Ranged for Ward {
    ghost is_ranged = { λ w. is_ward (ward_entry w) };

    fn is_in_range(&self) -> bool {
        let number = is_ward_number(self.number);
        let seats = is_seat_number(self.seats);
        number & (seats & is_name(self.name.as_str()))
    }
}

impl Ranged for Candidate {
    ghost is_ranged = { λ c. is_candidate (candidate_entry c) };

    fn is_in_range(&self) -> bool {
        let ward = is_ward_number(self.ward);
        let number = is_candidate_number(self.number);
        ward & (number & is_name(self.name.as_str()))
    }
}

impl Ranged for Batch {
    ghost is_ranged = { λ b. is_batch (batch_entry b) };

    fn is_in_range(&self) -> bool {
        let number = is_batch_number(self.number);
        let ward = is_ward_number(self.ward);
        let size = is_paper_number(self.size);
        let first = is_clerk(self.first_clerk);
        let second = is_clerk(self.second_clerk);
        number & (ward & (size & (first & (second & is_round(self.round)))))
    }
}

impl Ranged for ThirdClerk {
    ghost is_ranged = { λ t. is_third (third_entry t) };

    fn is_in_range(&self) -> bool {
        let batch = is_batch_number(self.batch);
        batch & is_clerk(self.clerk)
    }
}

impl Ranged for KeyedPaper {
    ghost is_ranged = { λ k. is_keyed_paper (keyed_entry k) };

    fn is_in_range(&self) -> bool {
        let batch = is_batch_number(self.batch);
        let round = is_round(self.round);
        let clerk = is_clerk(self.clerk);
        // the marks are valid UTF-8, as every `String` is
        let _marks = self.marks.as_str();
        batch & (round & (clerk & is_paper_number(self.paper)))
    }
}

impl Ranged for JudgedPaper {
    ghost is_ranged = { λ v. is_judged_paper (judged_entry v) };

    fn is_in_range(&self) -> bool {
        let batch = is_batch_number(self.batch);
        let paper = is_paper_number(self.paper);
        let _marks = self.marks.as_str();
        batch & (paper & (self.code <= LAST_CODE))
    }
}

impl Ranged for DrawnLot {
    ghost is_ranged = { λ l. is_lot (lot_entry l) };

    fn is_in_range(&self) -> bool {
        let ward = is_ward_number(self.ward);
        let stage = is_lot_stage(self.stage);
        ward & (stage & is_candidate_number(self.candidate))
    }
}

/// Returns whether a text can be the subject of a receipt for the given actor.
fn is_about(actor: u32, subject: &str) -> bool
    ensures { result ≡ is_about actor subject.now }
{
    if is_office(actor) {
        return is_office_subject(subject);
    }
    is_clerk(actor) && is_clerk_subject(subject)
}

impl Ranged for Receipt {
    ghost is_ranged = { λ r. is_receipt (receipt_entry r) };

    fn is_in_range(&self) -> bool {
        let about = is_about(self.actor, self.subject.as_str());
        let id = is_id(self.id.as_str());
        about & (id & is_reply(self.reply.as_str()))
    }
}

/// Returns whether all rows of a table are in range.
fn are_in_range<T: Ranged>(rows: &[T]) -> bool
    ensures { result ≡ list_all T.is_ranged rows.now }
{
    rows.iter().all(|row| row.is_in_range())
}

/// Returns whether numbers, names, ids, phases, subjects and replies are in range. This is the first condition on the rows of an
/// office.
pub fn all_in_range(rows: &Rows) -> bool
    ensures { result ≡ all_in_range (state_of rows.now) }
{
    let wards = are_in_range(&rows.wards);
    let candidates = are_in_range(&rows.candidates);
    let batches = are_in_range(&rows.batches);
    let thirds = are_in_range(&rows.thirds);
    let keyings = are_in_range(&rows.keyings);
    let verdicts = are_in_range(&rows.verdicts);
    let lots = are_in_range(&rows.lots);
    let receipts = are_in_range(&rows.receipts);
    wards & (candidates & (batches & (thirds & (keyings & (verdicts & (lots & receipts))))))
}

//! Compares two offices.

ghost use Rattle.std.specs.Prelude.{◌≡◌, true};
ghost use Rattle.rowcheck.specs.States.{state_of};

use crate::rows::Rows;

/// Returns whether the rows of two offices represent the same state. The tabulation of the counts isn't compared,
/// because it is determined by the state.
pub fn are_same(rows: &Rows, others: &Rows) -> bool
    ensures same { result ≡ true → state_of rows.now ≡ state_of others.now }
    ensures whole { state_of rows.now ≡ state_of others.now → result ≡ true }
{
    let wards = rows.wards == others.wards;
    let candidates = rows.candidates == others.candidates;
    let batches = rows.batches == others.batches;
    let thirds = rows.thirds == others.thirds;
    let keyings = rows.keyings == others.keyings;
    let verdicts = rows.verdicts == others.verdicts;
    let lots = rows.lots == others.lots;
    let receipts = rows.receipts == others.receipts;
    wards & (candidates & (batches & (thirds & (keyings & (verdicts & (lots & receipts))))))
}

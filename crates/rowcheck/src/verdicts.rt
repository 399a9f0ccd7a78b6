//! Verdicts, and the doubtful papers on which they decide.

ghost use Rattle.std.specs.Prelude.{◌≡◌, map, is_some};
ghost use Rattle.std.specs.List.{list_all};
ghost use Rattle.register.specs.Offices.{MapsAreSorted, batch_entry, keyed_entry, judged_entry, batch_at, verdicts_of};
ghost use Rattle.register.specs.Agreement.{taken_papers};
ghost use Rattle.register.specs.BatchConditions.{is_verdict_on, is_judged};
ghost use Rattle.register.specs.StateConditions.{all_judged};
ghost use Rattle.rowcheck.specs.States.{state_of};

use crate::finding::{candidates_of, has_batch, keyings_in, verdicts_of};
use crate::rows::Rows;
use paper::Columns;
use register::agreement::{agreed, has_doubtful};
use register::marks::{columns_of, is_valid};
use register::verdicts::is_rejection_code;
use register::{Batch, JudgedPaper, KeyedPaper};

/// The code of a verdict that accepts a paper.
const ACCEPTED: u32 = 0;

fn are_of_batches(rows: &Rows, verdicts: &[JudgedPaper]) -> bool
    requires { MapsAreSorted (state_of rows.now) }
    ensures { result ≡ list_all (λ v. is_some (batch_at (state_of rows.now) v.batch)) verdicts.now }
{
    verdicts.iter().all(|judged| has_batch(rows, judged.batch))
}

/// Returns whether a verdict is on a doubtful paper of the given keying, and either accepts the paper with marks that make
/// it valid, or rejects it without marks.
fn is_verdict_on(columns: Columns, papers: &[KeyedPaper], judged: &JudgedPaper) -> bool
    ensures { result ≡ is_verdict_on columns (map keyed_entry papers.now) (judged_entry judged.now) }
{
    let accepted = judged.code == ACCEPTED;
    let valid = is_valid(columns, judged.marks.as_str());
    let rejected = is_rejection_code(judged.code);
    let unmarked = judged.marks.is_empty();
    let decided = (accepted & valid) | (rejected & unmarked);
    has_doubtful(papers, judged.paper) & decided
}

fn are_verdicts_on(columns: Columns, papers: &[KeyedPaper], verdicts: &[JudgedPaper]) -> bool
    ensures { result ≡ list_all (λ v. is_verdict_on columns (map keyed_entry papers.now) (judged_entry v)) verdicts.now }
{
    verdicts
        .iter()
        .all(|judged| is_verdict_on(columns, papers, judged))
}

/// Returns the agreed papers of a batch, or no papers if the batch isn't taken.
fn taken_papers<'a>(rows: &'a Rows, batch: &Batch) -> &'a [KeyedPaper]
    requires { MapsAreSorted (state_of rows.now) }
    ensures { map keyed_entry result.now ≡ taken_papers (state_of rows.now) (batch_entry batch.now) }
{
    let keyings = keyings_in(rows, batch, batch.round);
    agreed(keyings.first, keyings.second, keyings.third)
}

/// Returns whether every verdict on a paper of a batch is on one of the doubtful papers among the batch's agreed papers.
fn is_judged(rows: &Rows, batch: &Batch) -> bool
    requires { MapsAreSorted (state_of rows.now) }
    ensures { result ≡ is_judged (state_of rows.now) (batch_entry batch.now) (verdicts_of (state_of rows.now) batch.now.number) }
{
    let verdicts = verdicts_of(rows, batch.number);
    if verdicts.is_empty() {
        return true;
    }
    let columns = columns_of(candidates_of(rows, batch.ward));
    are_verdicts_on(columns, taken_papers(rows, batch), verdicts)
}

fn are_judged(rows: &Rows, batches: &[Batch]) -> bool
    requires { MapsAreSorted (state_of rows.now) }
    ensures { result ≡ list_all (λ b. is_judged (state_of rows.now) (batch_entry b) (verdicts_of (state_of rows.now) b.number)) batches.now }
{
    batches.iter().all(|batch| is_judged(rows, batch))
}

/// Returns whether every verdict belongs to an existing batch that is taken, and is on one of its doubtful papers. This is
/// the fifth condition on the rows of an office, assuming that its tables are in key order without duplicates.
pub fn all_judged(rows: &Rows) -> bool
    requires { MapsAreSorted (state_of rows.now) }
    ensures { result ≡ all_judged (state_of rows.now) }
{
    let owned = are_of_batches(rows, &rows.verdicts);
    owned & are_judged(rows, &rows.batches)
}

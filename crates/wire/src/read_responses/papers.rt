//! The JSON for a batch's papers, and how each counts.

ghost use Rattle.std.specs.Prelude.{◌≡◌, IfOk, map};
ghost use Rattle.serde_json.specs.View.{view};
ghost use Rattle.store.specs.Overviews.{paper_view, papers_view};
ghost use Rattle.wire.specs.OfficeReplies.{counted_data, judgement_code, judgement_word, numbers_data, papers_data, preferences_of};
ghost use Rattle.wire.specs.Replies.{list_data};
ghost use Rattle.wire.specs.Serving.{IsReadTold, data_response};

use crate::candidates::candidates_value;
use crate::office_responses::{faulted, refused, valued};
use crate::read_responses::numbers::candidate_numbers_value;
use crate::response::Response;
use office::ReadError;
use register::Judgement;
use serde_json::{Value, json};
use std::alloc::{AllocError, Global};
use store::{CountedPaper, CountedPapers};

/// Returns the preferences of a valid paper, as a list of JSON values; for any other paper, an empty list.
pub(crate) fn preferences_value(alloc: Global, judgement: &Judgement) -> Result<Value, AllocError>
    ensures { IfOk result (λ value. view value ≡ numbers_data (preferences_of judgement.now)) }
{
    match judgement {
        Judgement::Valid(preferences) => candidate_numbers_value(alloc, preferences.as_slice()),
        Judgement::Rejected(_) => candidate_numbers_value(alloc, &[]),
        Judgement::Open => candidate_numbers_value(alloc, &[]),
    }
}

/// Returns the word for how a paper counts.
fn judgement_word(judgement: &Judgement) -> &'static str
    ensures { result.now ≡ judgement_word judgement.now }
{
    match judgement {
        Judgement::Valid(_) => "valid",
        Judgement::Rejected(_) => "rejected",
        Judgement::Open => "open",
    }
}

/// Returns the code of a rejected paper, or 0 for any other.
fn judgement_code(judgement: &Judgement) -> u32
    ensures { result ≡ judgement_code judgement.now }
{
    match judgement {
        Judgement::Valid(_) => 0,
        Judgement::Rejected(code) => *code,
        Judgement::Open => 0,
    }
}

/// Returns a paper, as a JSON value.
fn paper_value(alloc: Global, paper: &CountedPaper) -> Result<Value, AllocError>
    ensures { IfOk result (λ value. view value ≡ counted_data (paper_view paper.now)) }
{
    let preferences = preferences_value(alloc, &paper.judgement)?;
    json!(in alloc; {
        "code": judgement_code(&paper.judgement), "paper": paper.paper, "preferences": preferences, "state": judgement_word(&paper.judgement)
    })
}

/// Returns papers, as a list of JSON values.
fn list_value(alloc: Global, papers: &[CountedPaper]) -> Result<Value, AllocError>
    ensures { IfOk result (λ value. view value ≡ list_data counted_data (map paper_view papers.now)) }
{
    let mut values = Vec::with_capacity(alloc, papers.len())?;
    for paper in papers {
        values.push(paper_value(alloc, paper)?)?;
    }
    Ok(Value::Array(values))
}

/// Returns the papers of a batch, as a JSON value.
fn papers_value(alloc: Global, batch: u32, found: &CountedPapers) -> Result<Value, AllocError>
    ensures { IfOk result (λ value. view value ≡ papers_data batch (papers_view found.now)) }
{
    let candidates = candidates_value(alloc, &found.candidates)?;
    let papers = list_value(alloc, &found.papers)?;
    json!(in alloc; {"batch": batch, "candidates": candidates, "papers": papers})
}

/// Returns the response with the papers of a batch, or with the refusal or fault.
pub(crate) fn answer_papers(
    alloc: Global,
    batch: u32,
    told: Result<CountedPapers, ReadError>,
) -> Response
    ensures { IsReadTold (λ papers. data_response (papers_data batch papers)) papers_view told result }
{
    match told {
        Ok(found) => valued(alloc, papers_value(alloc, batch, &found)),
        Err(ReadError::Refused(why)) => refused(alloc, &why),
        Err(ReadError::Fault(fault)) => faulted(alloc, fault),
    }
}

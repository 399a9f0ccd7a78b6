//! The JSON for the candidates on a batch's papers.

ghost use Rattle.std.specs.Prelude.{◌≡◌, IfOk, map, string_bytes};
ghost use Rattle.serde_json.specs.View.{view};
ghost use Rattle.register.specs.Offices.{candidate_entry};
ghost use Rattle.register.specs.Status.{paper_entry};
ghost use Rattle.wire.specs.Replies.{candidate_data, list_data, paper_body, paper_data};

use register::{BallotPaper, Candidate};
use serde_json::{Value, json};
use std::alloc::{AllocError, Global};

/// Returns a candidate, as a JSON value.
fn candidate_value(alloc: Global, candidate: &Candidate) -> Result<Value, AllocError>
    ensures { IfOk result (λ value. view value ≡ candidate_data (candidate_entry candidate.now)) }
{
    json!(in alloc; {"candidate": candidate.number, "name": candidate.name.as_str()})
}

/// Returns the candidates, as a list of JSON values.
pub(crate) fn candidates_value(alloc: Global, candidates: &[Candidate]) -> Result<Value, AllocError>
    ensures { IfOk result (λ value. view value ≡ list_data candidate_data (map candidate_entry candidates.now)) }
{
    let mut values = Vec::with_capacity(alloc, candidates.len())?;
    for candidate in candidates {
        values.push(candidate_value(alloc, candidate)?)?;
    }
    Ok(Value::Array(values))
}

/// Returns the candidates on a batch's papers, as a JSON value.
fn paper_value(alloc: Global, batch: u32, paper: &BallotPaper) -> Result<Value, AllocError>
    ensures { IfOk result (λ value. view value ≡ paper_data batch (paper_entry paper.now)) }
{
    let candidates = candidates_value(alloc, &paper.candidates)?;
    json!(in alloc; {
        "batch": batch, "candidates": candidates, "name": paper.ward.name.as_str(), "ward": paper.ward.number
    })
}

/// Returns the body for the candidates on a batch's papers.
pub(crate) fn paper_body(
    alloc: Global,
    batch: u32,
    paper: &BallotPaper,
) -> Result<String, AllocError>
    ensures { IfOk result (λ body. string_bytes body ≡ paper_body batch (paper_entry paper.now)) }
{
    paper_value(alloc, batch, paper)?.to_string(alloc)
}

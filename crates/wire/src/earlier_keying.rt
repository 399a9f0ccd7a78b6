//! The JSON for what a clerk keyed for a batch in an earlier round.

ghost use Rattle.std.specs.Prelude.{◌≡◌, IfOk, map, option_map};
ghost use Rattle.serde_json.specs.View.{view};
ghost use Rattle.register.specs.Offices.{keyed_entry};
ghost use Rattle.store.specs.EarlierKeyings.{keyed_round_entry};
ghost use Rattle.wire.specs.Replies.{keyed_data, list_data, marks_data};
ghost use Rattle.wire.specs.Serving.{IsReadTold, earlier_response};
ghost use Rattle.wire.specs.Told.{IsTold};

use crate::office_responses::{faulted, refused, valued};
use crate::request_error::RequestError;
use crate::response::Response;
use office::ReadError;
use register::KeyedPaper;
use serde_json::{Value, json};
use std::alloc::{AllocError, Global};
use store::KeyedRound;

/// Returns the marks of a keyed paper, as a JSON value.
fn marks_value(alloc: Global, keyed: &KeyedPaper) -> Result<Value, AllocError>
    ensures { IfOk result (λ value. view value ≡ marks_data (keyed_entry keyed.now)) }
{
    json!(in alloc; keyed.marks.as_str())
}

/// Returns the marks of keyed papers, as a list of JSON values.
fn papers_value(alloc: Global, papers: &[KeyedPaper]) -> Result<Value, AllocError>
    ensures { IfOk result (λ value. view value ≡ list_data marks_data (map keyed_entry papers.now)) }
{
    let mut values = Vec::with_capacity(alloc, papers.len())?;
    for keyed in papers {
        values.push(marks_value(alloc, keyed)?)?;
    }
    Ok(Value::Array(values))
}

/// Returns one round of a batch, as keyed by a clerk, as a JSON value.
fn keyed_value(alloc: Global, batch: u32, keyed: &KeyedRound) -> Result<Value, AllocError>
    ensures { IfOk result (λ value. view value ≡ keyed_data batch (keyed_round_entry keyed.now)) }
{
    let papers = papers_value(alloc, &keyed.papers)?;
    json!(in alloc; {"batch": batch, "papers": papers, "round": keyed.round})
}

/// Returns the response with what a clerk keyed for a batch in an earlier round, or "not found" if there is no such round.
fn answer_found(alloc: Global, batch: u32, found: Option<KeyedRound>) -> Response
    ensures { IsTold (earlier_response batch (option_map keyed_round_entry found)) result }
{
    match found {
        Some(keyed) => valued(alloc, keyed_value(alloc, batch, &keyed)),
        None => Response::denied(alloc, RequestError::NotFound),
    }
}

/// Returns the response with what a clerk keyed for a batch in an earlier round, or with the refusal or fault.
pub(crate) fn answer_earlier(
    alloc: Global,
    batch: u32,
    told: Result<Option<KeyedRound>, ReadError>,
) -> Response
    ensures { IsReadTold (earlier_response batch) (option_map keyed_round_entry) told result }
{
    match told {
        Ok(found) => answer_found(alloc, batch, found),
        Err(ReadError::Refused(why)) => refused(alloc, &why),
        Err(ReadError::Fault(fault)) => faulted(alloc, fault),
    }
}

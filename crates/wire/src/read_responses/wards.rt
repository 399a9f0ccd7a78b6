//! The JSON for the wards.

ghost use Rattle.std.specs.Prelude.{◌≡◌, [], IfOk, map, unwrap_or};
ghost use Rattle.serde_json.specs.View.{view};
ghost use Rattle.store.specs.Overviews.{ward_view};
ghost use Rattle.wire.specs.OfficeReads.{wards_read_view};
ghost use Rattle.wire.specs.OfficeReplies.{numbers_data, phase_word, ward_data, wards_data};
ghost use Rattle.wire.specs.Replies.{list_data};
ghost use Rattle.wire.specs.Serving.{IsReadTold, data_response};

use crate::office_responses::{faulted, refused, valued};
use crate::read_responses::found::WardsRead;
use crate::read_responses::numbers::candidate_numbers_value;
use crate::response::Response;
use office::ReadError;
use paper::Columns;
use register::Phase;
use serde_json::{Value, json};
use std::alloc::{AllocError, Global};
use store::WardOverview;

/// Returns the word for a phase.
pub(crate) fn phase_word(phase: Phase) -> &'static str
    ensures { result.now ≡ phase_word phase }
{
    match phase {
        Phase::Nominations => "nominations",
        Phase::Keying => "keying",
        Phase::Sealed => "sealed",
        Phase::Declared => "declared",
    }
}

/// Returns the elected candidates, as a list of JSON values; an empty list before the ward is declared.
fn elected_value(alloc: Global, elected: Option<Columns>) -> Result<Value, AllocError>
    ensures { IfOk result (λ value. view value ≡ numbers_data (unwrap_or elected [])) }
{
    match elected {
        Some(elected) => candidate_numbers_value(alloc, elected.as_slice()),
        None => candidate_numbers_value(alloc, &[]),
    }
}

/// Returns a ward, as a JSON value.
pub(crate) fn ward_value(alloc: Global, overview: &WardOverview) -> Result<Value, AllocError>
    ensures { IfOk result (λ value. view value ≡ ward_data (ward_view overview.now)) }
{
    let elected = elected_value(alloc, overview.elected)?;
    let status = overview.status;
    json!(in alloc; {
        "batches": status.batches, "candidates": status.candidates, "differing": status.differing,
        "doubtful_open": status.doubtful_open, "elected": elected, "name": overview.ward.name.as_str(),
        "phase": phase_word(overview.ward.phase), "seats": overview.ward.seats, "stages": status.stages,
        "taken": status.taken, "ward": overview.ward.number
    })
}

/// Returns wards, as a list of JSON values.
fn list_value(alloc: Global, wards: &[WardOverview]) -> Result<Value, AllocError>
    ensures { IfOk result (λ value. view value ≡ list_data ward_data (map ward_view wards.now)) }
{
    let mut values = Vec::with_capacity(alloc, wards.len())?;
    for ward in wards {
        values.push(ward_value(alloc, ward)?)?;
    }
    Ok(Value::Array(values))
}

/// Returns all wards and the number of receipts, as a JSON value.
fn wards_value(alloc: Global, found: &WardsRead) -> Result<Value, AllocError>
    ensures { IfOk result (λ value. view value ≡ wards_data (wards_read_view found.now)) }
{
    let wards = list_value(alloc, &found.wards)?;
    json!(in alloc; {"receipts": found.receipts, "wards": wards})
}

/// Returns the response with all wards, or with the refusal or fault.
pub(crate) fn answer_wards(alloc: Global, told: Result<WardsRead, ReadError>) -> Response
    ensures { IsReadTold (λ wards. data_response (wards_data wards)) wards_read_view told result }
{
    match told {
        Ok(found) => valued(alloc, wards_value(alloc, &found)),
        Err(ReadError::Refused(why)) => refused(alloc, &why),
        Err(ReadError::Fault(fault)) => faulted(alloc, fault),
    }
}

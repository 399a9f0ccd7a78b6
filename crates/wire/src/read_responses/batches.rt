//! The JSON for a ward's batches.

ghost use Rattle.std.specs.Prelude.{◌≡◌, IfOk, map};
ghost use Rattle.serde_json.specs.View.{view};
ghost use Rattle.store.specs.Overviews.{batch_view, clerk_view};
ghost use Rattle.wire.specs.OfficeReplies.{batch_clerk_data, batch_data, batches_data, standing_word};
ghost use Rattle.wire.specs.Replies.{list_data};
ghost use Rattle.wire.specs.Serving.{IsReadTold, data_response};

use crate::office_responses::{faulted, refused, valued};
use crate::response::Response;
use office::ReadError;
use serde_json::{Value, json};
use std::alloc::{AllocError, Global};
use store::{BatchOverview, BatchStanding, ClerkOverview};

/// Returns a clerk of a batch, as a JSON value.
fn clerk_value(alloc: Global, clerk: &ClerkOverview) -> Result<Value, AllocError>
    ensures { IfOk result (λ value. view value ≡ batch_clerk_data (clerk_view clerk.now)) }
{
    json!(in alloc; {"clerk": clerk.clerk, "keyed": clerk.keyed})
}

/// Returns the clerks of a batch, as a list of JSON values.
fn clerks_value(alloc: Global, clerks: &[ClerkOverview]) -> Result<Value, AllocError>
    ensures { IfOk result (λ value. view value ≡ list_data batch_clerk_data (map clerk_view clerks.now)) }
{
    let mut values = Vec::with_capacity(alloc, clerks.len())?;
    for clerk in clerks {
        values.push(clerk_value(alloc, clerk)?)?;
    }
    Ok(Value::Array(values))
}

/// Returns the word for the standing of a batch.
fn standing_word(standing: BatchStanding) -> &'static str
    ensures { result.now ≡ standing_word standing }
{
    match standing {
        BatchStanding::Taken => "taken",
        BatchStanding::Differing => "differing",
        BatchStanding::Waiting => "waiting",
    }
}

/// Returns a batch, as a JSON value.
fn batch_value(alloc: Global, overview: &BatchOverview) -> Result<Value, AllocError>
    ensures { IfOk result (λ value. view value ≡ batch_data (batch_view overview.now)) }
{
    let clerks = clerks_value(alloc, &overview.clerks)?;
    let twin = overview.twin.unwrap_or(0);
    json!(in alloc; {
        "batch": overview.batch.number, "clerks": clerks, "doubtful_open": overview.doubtful_open, "round": overview.batch.round,
        "size": overview.batch.size, "standing": standing_word(overview.standing), "twin": twin
    })
}

/// Returns batches, as a list of JSON values.
fn list_value(alloc: Global, batches: &[BatchOverview]) -> Result<Value, AllocError>
    ensures { IfOk result (λ value. view value ≡ list_data batch_data (map batch_view batches.now)) }
{
    let mut values = Vec::with_capacity(alloc, batches.len())?;
    for batch in batches {
        values.push(batch_value(alloc, batch)?)?;
    }
    Ok(Value::Array(values))
}

/// Returns the batches of a ward, as a JSON value.
fn batches_value(alloc: Global, ward: u32, batches: &[BatchOverview]) -> Result<Value, AllocError>
    ensures { IfOk result (λ value. view value ≡ batches_data ward (map batch_view batches.now)) }
{
    let batches = list_value(alloc, batches)?;
    json!(in alloc; {"batches": batches, "ward": ward})
}

/// Returns the response with the batches of a ward, or with the refusal or fault.
pub(crate) fn answer_batches(
    alloc: Global,
    ward: u32,
    told: Result<Vec<BatchOverview>, ReadError>,
) -> Response
    ensures { IsReadTold (λ batches. data_response (batches_data ward batches)) (λ batches. map batch_view batches.items) told result }
{
    match told {
        Ok(batches) => valued(alloc, batches_value(alloc, ward, &batches)),
        Err(ReadError::Refused(why)) => refused(alloc, &why),
        Err(ReadError::Fault(fault)) => faulted(alloc, fault),
    }
}

//! The JSON for the papers on which a batch's keyings differ.

ghost use Rattle.std.specs.Prelude.{◌≡◌, IfOk};
ghost use Rattle.serde_json.specs.View.{view};
ghost use Rattle.store.specs.Overviews.{differences_view};
ghost use Rattle.wire.specs.OfficeReplies.{differences_data, shifted_clerk, shifted_from};
ghost use Rattle.wire.specs.Serving.{IsReadTold, data_response};

use crate::office_responses::{faulted, refused, valued};
use crate::read_responses::numbers::numbers_value;
use crate::response::Response;
use office::ReadError;
use serde_json::{Value, json};
use std::alloc::{AllocError, Global};
use store::{Differences, Shift};

/// Returns the clerk whose papers are shifted, and the paper from which on they are; 0 if there is no shift.
fn shift_numbers(shift: Option<Shift>) -> (u32, u32)
    ensures { result ≡ (shifted_clerk shift, shifted_from shift) }
{
    match shift {
        Some(shift) => (shift.clerk, shift.paper),
        None => (0, 0),
    }
}

/// Returns the papers on which a batch's keyings differ, and the shift between two of them, as a JSON value.
fn differences_value(alloc: Global, batch: u32, found: &Differences) -> Result<Value, AllocError>
    ensures { IfOk result (λ value. view value ≡ differences_data batch (differences_view found.now)) }
{
    let papers = numbers_value(alloc, &found.papers)?;
    let (clerk, from) = shift_numbers(found.shift);
    json!(in alloc; {
        "batch": batch, "papers": papers, "round": found.batch.round,
        "shifted_clerk": clerk, "shifted_from": from
    })
}

/// Returns the response with the papers that differ, or with the refusal or fault.
pub(crate) fn answer_differences(
    alloc: Global,
    batch: u32,
    told: Result<Differences, ReadError>,
) -> Response
    ensures { IsReadTold (λ differences. data_response (differences_data batch differences)) differences_view told result }
{
    match told {
        Ok(found) => valued(alloc, differences_value(alloc, batch, &found)),
        Err(ReadError::Refused(why)) => refused(alloc, &why),
        Err(ReadError::Fault(fault)) => faulted(alloc, fault),
    }
}

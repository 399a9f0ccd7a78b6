//! The JSON for receipts.

ghost use Rattle.std.specs.Prelude.{◌≡◌, IfOk, map};
ghost use Rattle.serde_json.specs.View.{view};
ghost use Rattle.register.specs.Offices.{receipt_entry};
ghost use Rattle.wire.specs.OfficeReplies.{receipt_data, receipts_data};
ghost use Rattle.wire.specs.Replies.{list_data};
ghost use Rattle.wire.specs.Serving.{IsReadTold, data_response};

use crate::office_responses::{faulted, refused, valued};
use crate::response::Response;
use office::ReadError;
use register::Receipt;
use serde_json::{Value, json};
use std::alloc::{AllocError, Global};

/// Returns a receipt, as a JSON value.
fn receipt_value(alloc: Global, receipt: &Receipt) -> Result<Value, AllocError>
    ensures { IfOk result (λ value. view value ≡ receipt_data (receipt_entry receipt.now)) }
{
    json!(in alloc; {
        "actor": receipt.actor, "id": receipt.id.as_str(), "reply": receipt.reply.as_str(), "subject": receipt.subject.as_str()
    })
}

/// Returns receipts, as a list of JSON values.
fn list_value(alloc: Global, receipts: &[Receipt]) -> Result<Value, AllocError>
    ensures { IfOk result (λ value. view value ≡ list_data receipt_data (map receipt_entry receipts.now)) }
{
    let mut values = Vec::with_capacity(alloc, receipts.len())?;
    for receipt in receipts {
        values.push(receipt_value(alloc, receipt)?)?;
    }
    Ok(Value::Array(values))
}

/// Returns receipts, as a JSON value.
fn receipts_value(alloc: Global, receipts: &[Receipt]) -> Result<Value, AllocError>
    ensures { IfOk result (λ value. view value ≡ receipts_data (map receipt_entry receipts.now)) }
{
    let receipts = list_value(alloc, receipts)?;
    json!(in alloc; {"receipts": receipts})
}

/// Returns the response with receipts, or with the refusal or fault.
pub(crate) fn answer_receipts(alloc: Global, told: Result<Vec<Receipt>, ReadError>) -> Response
    ensures { IsReadTold (λ receipts. data_response (receipts_data receipts)) (λ receipts. map receipt_entry receipts.items) told result }
{
    match told {
        Ok(receipts) => valued(alloc, receipts_value(alloc, &receipts)),
        Err(ReadError::Refused(why)) => refused(alloc, &why),
        Err(ReadError::Fault(fault)) => faulted(alloc, fault),
    }
}

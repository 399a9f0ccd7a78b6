//! The JSON for a clerk's work.

ghost use Rattle.std.specs.Prelude.{◌≡◌, IfOk, map, string_bytes};
ghost use Rattle.serde_json.specs.View.{view};
ghost use Rattle.register.specs.Status.{work_entry};
ghost use Rattle.wire.specs.Replies.{clerk_data, list_data, number_data, work_body, work_data};

use paper::Columns;
use register::Work;
use serde_json::{Value, json};
use std::alloc::{AllocError, Global};

/// Returns the columns of a batch's papers, as a JSON list of numbers.
fn columns_value(alloc: Global, columns: Columns) -> Result<Value, AllocError>
    ensures { IfOk result (λ value. view value ≡ list_data number_data columns) }
{
    let mut values = Vec::with_capacity(alloc, columns.len())?;
    for column in columns.as_slice() {
        values.push(Value::from(*column))?;
    }
    Ok(Value::Array(values))
}

/// Returns a batch of the work, as a JSON value.
fn batch_value(alloc: Global, work: &Work) -> Result<Value, AllocError>
    ensures { IfOk result (λ value. view value ≡ work_data (work_entry work.now)) }
{
    let columns = columns_value(alloc, work.columns)?;
    json!(in alloc; {
        "batch": work.batch, "columns": columns, "keyed": work.keyed,
        "round": work.round, "size": work.size, "ward": work.ward
    })
}

/// Returns the batches of the work, as a list of JSON values.
fn batches_value(alloc: Global, work: &[Work]) -> Result<Value, AllocError>
    ensures { IfOk result (λ value. view value ≡ list_data work_data (map work_entry work.now)) }
{
    let mut values = Vec::with_capacity(alloc, work.len())?;
    for batch in work {
        values.push(batch_value(alloc, batch)?)?;
    }
    Ok(Value::Array(values))
}

/// Returns the work of a clerk, as a JSON value.
fn work_value(alloc: Global, clerk: u32, work: &[Work]) -> Result<Value, AllocError>
    ensures { IfOk result (λ value. view value ≡ clerk_data clerk (map work_entry work.now)) }
{
    let batches = batches_value(alloc, work)?;
    json!(in alloc; {"clerk": clerk, "work": batches})
}

/// Returns the body for the work of a clerk.
pub(crate) fn work_body(alloc: Global, clerk: u32, work: &[Work]) -> Result<String, AllocError>
    ensures { IfOk result (λ body. string_bytes body ≡ work_body clerk (map work_entry work.now)) }
{
    work_value(alloc, clerk, work)?.to_string(alloc)
}

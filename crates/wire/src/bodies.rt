//! The JSON of responses.

ghost use Rattle.std.specs.Prelude.{◌≡◌, IfOk, string_bytes};
ghost use Rattle.serde_json.specs.View.{view};
ghost use Rattle.wire.specs.Replies.{fault_body, fault_data, order_body, order_data, refusal_body, refusal_data, reply_body, reply_data};

use serde_json::{Value, json};
use std::alloc::{AllocError, Global};

/// Returns the body for a reply, as a JSON value.
fn reply_value(alloc: Global, text: &str) -> Result<Value, AllocError>
    ensures { IfOk result (λ value. view value ≡ reply_data text.now) }
{
    json!(in alloc; {"reply": text})
}

/// Returns the body for a reply.
pub(crate) fn reply_body(alloc: Global, text: &str) -> Result<String, AllocError>
    ensures { IfOk result (λ body. string_bytes body ≡ reply_body text.now) }
{
    reply_value(alloc, text)?.to_string(alloc)
}

/// Returns the body for the outcome of an order, as a JSON value.
fn order_value(alloc: Global, status: u8, output: &str, errors: &str) -> Result<Value, AllocError>
    ensures { IfOk result (λ value. view value ≡ order_data status output.now errors.now) }
{
    json!(in alloc; {"errors": errors, "output": output, "status": status})
}

/// Returns the body for the outcome of an order.
pub(crate) fn order_body(
    alloc: Global,
    status: u8,
    output: &str,
    errors: &str,
) -> Result<String, AllocError>
    ensures { IfOk result (λ body. string_bytes body ≡ order_body status output.now errors.now) }
{
    order_value(alloc, status, output, errors)?.to_string(alloc)
}

/// Returns the body for a refusal, as a JSON value.
fn refusal_value(alloc: Global, number: u32, text: &str) -> Result<Value, AllocError>
    ensures { IfOk result (λ value. view value ≡ refusal_data number text.now) }
{
    json!(in alloc; {"refusal": number, "text": text})
}

/// Returns the body for a refusal.
pub(crate) fn refusal_body(alloc: Global, number: u32, text: &str) -> Result<String, AllocError>
    ensures { IfOk result (λ body. string_bytes body ≡ refusal_body number text.now) }
{
    refusal_value(alloc, number, text)?.to_string(alloc)
}

/// Returns the body for a fault, as a JSON value.
fn fault_value(alloc: Global, number: u32) -> Result<Value, AllocError>
    ensures { IfOk result (λ value. view value ≡ fault_data number) }
{
    json!(in alloc; {"fault": number})
}

/// Returns the body for a fault.
pub(crate) fn fault_body(alloc: Global, number: u32) -> Result<String, AllocError>
    ensures { IfOk result (λ body. string_bytes body ≡ fault_body number) }
{
    fault_value(alloc, number)?.to_string(alloc)
}

//! Responses with the office's answer: a reply, a value, a refusal or a fault.

ghost use Rattle.std.specs.Prelude.{◌≡◌, IfOk, false, string_bytes};
ghost use Rattle.serde_json.specs.Data.{Data};
ghost use Rattle.serde_json.specs.View.{view};
ghost use Rattle.serde_json.specs.Written.{compact_text, has_float};
ghost use Rattle.tables.specs.Faults.{fault_number};
ghost use Rattle.wire.specs.Responses.{fault_response, reply_response};
ghost use Rattle.wire.specs.Serving.{data_response, refused_for};
ghost use Rattle.wire.specs.Told.{IsTold};

use crate::bodies::{fault_body, refusal_body, reply_body};
use crate::response::{Content, Response};
use http::StatusCode;
use register::Refusal;
use serde_json::Value;
use std::alloc::{AllocError, Global};
use store::Fault;

/// Returns the response for a reply.
pub(crate) fn replied(alloc: Global, text: &str) -> Response
    ensures { IsTold (reply_response text.now) result }
{
    Response::made(
        alloc,
        StatusCode::OK,
        Content::Json,
        reply_body(alloc, text),
    )
}

/// Returns the JSON of a value, unless building the value failed.
fn value_text(alloc: Global, made: Result<Value, AllocError>) -> Result<String, AllocError>
    ensures { (json : Data) → has_float json ≡ false → IfOk made (λ value. view value ≡ json) → IfOk result (λ text. string_bytes text ≡ compact_text json) }
{
    match made {
        Ok(value) => value.to_string(alloc),
        Err(failed) => Err(failed),
    }
}

/// Returns the response with the JSON of a value, which contains no floats.
pub(crate) fn valued(alloc: Global, made: Result<Value, AllocError>) -> Response
    ensures { (json : Data) → has_float json ≡ false → IfOk made (λ value. view value ≡ json) → IsTold (data_response json) result }
{
    Response::made(
        alloc,
        StatusCode::OK,
        Content::Json,
        value_text(alloc, made),
    )
}

/// Returns the response for a refusal.
pub(crate) fn refused(alloc: Global, why: &Refusal) -> Response
    ensures { IsTold (refused_for why.now) result }
{
    let body = refusal_body(alloc, why.number(), why.text());
    Response::made(alloc, StatusCode::CONFLICT, Content::Json, body)
}

/// Returns the response for a fault.
pub(crate) fn faulted(alloc: Global, fault: Fault) -> Response
    ensures { IsTold (fault_response (fault_number fault)) result }
{
    let body = fault_body(alloc, fault.number());
    Response::made(alloc, StatusCode::SERVICE_UNAVAILABLE, Content::Json, body)
}

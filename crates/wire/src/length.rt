//! The length of a request's body.

ghost use Rattle.std.specs.Prelude.{◌≡◌, ◌<◌, ◌≤◌, IfErr, IfOk, length, map};
ghost use Rattle.std.specs.List.{All};
ghost use Rattle.std.specs.Str.{str_eq_ignore_ascii_case};
ghost use Rattle.httparse.specs.Spans.{IsHeaderWithin, header_bytes};
ghost use Rattle.wire.specs.Lengths.{body_length, length_in, value_listed, values_of};

use crate::digits::{all_digits, capped_value};
use crate::request_error::RequestError;
use httparse::spans::HeaderSpan;

/// The maximum size of a body, in bytes.
pub const MAX_BODY_BYTES: u32 = 1_048_576;

/// Parses the length of a body. Returns `TooLarge` if it exceeds the limit.
fn length_in(text: &[u8]) -> Result<usize, RequestError>
    ensures is { result ≡ length_in text.now }
    ensures fits { IfOk result (λ length. length ≤ MAX_BODY_BYTES) }
{
    if text.is_empty() || !all_digits(text) {
        return Err(RequestError::BadRequest);
    }
    let length = capped_value(text, MAX_BODY_BYTES + 1);
    if length > u64::from(MAX_BODY_BYTES) {
        return Err(RequestError::TooLarge);
    }
    Ok(length as usize)
}

/// Returns whether two header names are equal, ignoring case.
pub(crate) fn is_named(name: &[u8], other: &[u8]) -> bool
    ensures { result ≡ str_eq_ignore_ascii_case name.now other.now }
{
    name.eq_ignore_ascii_case(other)
}

/// Returns the value of the header with the given name, if there is one. Returns `BadRequest` if there are several.
pub(crate) fn value_of<'b>(
    buffer: &'b [u8],
    headers: &[HeaderSpan],
    name: &[u8],
) -> Result<Option<&'b [u8]>, RequestError>
    requires { All (IsHeaderWithin (length buffer.now)) headers.now }
    ensures one { IfOk result (λ found. values_of name.now (map (header_bytes buffer.now) headers.now) ≡ value_listed found) }
    ensures several { IfErr result (λ why. (why ≡ RequestError.BadRequest) × (1 < length (values_of name.now (map (header_bytes buffer.now) headers.now)))) }
{
    let mut found = None;
    for header in headers {
        if is_named(header.name.of(buffer), name) {
            if found.is_some() {
                return Err(RequestError::BadRequest);
            }
            found = Some(header.value.of(buffer));
        }
    }
    Ok(found)
}

/// Returns the length of a body according to the header fields, which refer to a buffer. The length is 0 if none is sent. A
/// transfer coding is an error, and so are two lengths.
pub(crate) fn body_length(buffer: &[u8], headers: &[HeaderSpan]) -> Result<usize, RequestError>
    requires { All (IsHeaderWithin (length buffer.now)) headers.now }
    ensures is { result ≡ body_length (map (header_bytes buffer.now) headers.now) }
    ensures fits { IfOk result (λ length. length ≤ MAX_BODY_BYTES) }
{
    let Ok(None) = value_of(buffer, headers, b"transfer-encoding") else {
        return Err(RequestError::BadRequest);
    };
    match value_of(buffer, headers, b"content-length")? {
        Some(text) => length_in(text),
        None => Ok(0),
    }
}

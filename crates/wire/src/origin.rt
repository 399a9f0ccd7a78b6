//! The origin of a request. A page from another site can't ask for anything.

ghost use Rattle.std.specs.Prelude.{◌≡◌, false, length, map};
ghost use Rattle.std.specs.List.{All};
ghost use Rattle.httparse.specs.Spans.{IsHeaderWithin, header_bytes};
ghost use Rattle.wire.specs.Origins.{origin_setting, is_foreign, is_foreign_header, is_set_origin, is_set_host, is_own_host, is_own_origin, is_own_site};

use crate::length::is_named;
use httparse::spans::HeaderSpan;
use origins::{Origin, is_with_port};

/// Returns whether a value is the origin in the settings.
fn is_set_origin(given: Option<Origin<'_>>, value: &[u8]) -> bool
    ensures { result ≡ is_set_origin (origin_setting given.entry) value.now }
{
    match given {
        Some(origin) => value == origin.text().as_bytes(),
        None => false,
    }
}

/// Returns whether a value is the host of the origin in the settings, with or without the origin's port.
fn is_set_host(given: Option<Origin<'_>>, value: &[u8]) -> bool
    ensures { result ≡ is_set_host (origin_setting given.entry) value.now }
{
    match given {
        Some(origin) => is_with_port(value, origin.authority()),
        None => false,
    }
}

/// Returns whether a value is the origin of a page served by this machine, or the origin in the settings.
fn is_own_origin(given: Option<Origin<'_>>, value: &[u8]) -> bool
    ensures { result ≡ is_own_origin (origin_setting given.entry) value.now }
{
    is_with_port(b"http://127.0.0.1", value)
        || is_with_port(b"http://localhost", value)
        || is_set_origin(given, value)
}

/// Returns whether a value says that the request was sent by a page from the same origin, or by the user directly.
fn is_own_site(value: &[u8]) -> bool
    ensures { result ≡ is_own_site value.now }
{
    value == b"same-origin".as_slice() || value == b"none".as_slice()
}

/// Returns whether a value is a host name without a dot, 127.0.0.1, or the host of the origin in the settings.
fn is_own_host(given: Option<Origin<'_>>, value: &[u8]) -> bool
    ensures { result ≡ is_own_host (origin_setting given.entry) value.now }
{
    !value.contains(&b'.') || is_with_port(b"127.0.0.1", value) || is_set_host(given, value)
}

/// Returns whether a header shows that a page from another site sent the request, or that it was addressed to a foreign host name.
fn is_foreign_header(given: Option<Origin<'_>>, name: &[u8], value: &[u8]) -> bool
    ensures { result ≡ is_foreign_header (origin_setting given.entry) (name.now, value.now) }
{
    if is_named(name, b"origin") {
        return !is_own_origin(given, value);
    }
    if is_named(name, b"sec-fetch-site") {
        return !is_own_site(value);
    }
    is_named(name, b"host") && !is_own_host(given, value)
}

/// Returns whether any of the given headers, which refer to a buffer, is foreign in that sense.
pub(crate) fn is_foreign(given: Option<Origin<'_>>, buffer: &[u8], headers: &[HeaderSpan]) -> bool
    requires { All (IsHeaderWithin (length buffer.now)) headers.now }
    ensures { result ≡ is_foreign (origin_setting given.entry) (map (header_bytes buffer.now) headers.now) }
{
    for header in headers {
        if is_foreign_header(given, header.name.of(buffer), header.value.of(buffer)) {
            return true;
        }
    }
    false
}

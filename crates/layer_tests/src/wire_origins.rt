//! Requests that a browser sends on behalf of foreign pages, and requests that arrive through a proxy.

use super::wire_requests::{BODY, KEYED, NOTHING, asks, asks_of};
use std::alloc::{AllocError, Global};
use std::process::Abort;
use std::test::Fail;
use wire::{HttpSettings, Origin};

/// Headers that a browser sends on behalf of a foreign page, or if the office was reached under a foreign name.
const FOREIGN: [&str; 35] = [
    "Origin: http://evil.example",
    "ORIGIN: http://evil.example",
    "origin:\thttp://evil.example \t",
    "Origin: null",
    "Origin:",
    "Origin: http://127.0.0.1.evil.example",
    "Origin: http://127.0.0.1:",
    "Origin: http://127.0.0.1:123456",
    "Origin: http://127.0.0.1:80a",
    "Origin: http://127.0.0.1:8080/",
    "Origin: http://127.0.0.1 http://localhost",
    "Origin: https://127.0.0.1",
    "Origin: HTTP://127.0.0.1",
    "Origin: http://LOCALHOST",
    "Origin: http://localhost.evil.example",
    "Origin: http://localhost:-1",
    "Origin: http://[::1]",
    "Origin: 127.0.0.1",
    "Origin: http://127.0.0.1\r\nOrigin: http://evil.example",
    "Origin: http://evil.example\r\nOrigin: http://127.0.0.1",
    "Sec-Fetch-Site: cross-site",
    "sec-fetch-SITE: same-site",
    "Sec-Fetch-Site:",
    "Sec-Fetch-Site: None",
    "Sec-Fetch-Site: none, cross-site",
    "Sec-Fetch-Site: none\r\nSec-Fetch-Site: cross-site",
    "Host: evil.example",
    "hOST: evil.example:8080",
    "Host: localhost.",
    "Host: 127.0.0.1.evil.example",
    "Host: 127.0.0.1:",
    "Host: 127.0.0.1:123456",
    "Host: 127.0.0.2:8080",
    "Host: 127.0.0.1\r\nHost: evil.example",
    "Host: 127.0.0.1:8080\r\nOrigin: http://127.0.0.1:8080\r\nSec-Fetch-Site: cross-site",
];

/// Headers that only programs and pages on this machine send.
const OWN: [&str; 20] = [
    "X: y",
    "Origin: http://127.0.0.1",
    "oRIGIN: \t http://127.0.0.1:1 \t",
    "Origin: http://127.0.0.1:99999",
    "Origin: http://localhost",
    "Origin: http://localhost:8080",
    "Sec-Fetch-Site: same-origin",
    "SEC-FETCH-SITE:none",
    "Host:",
    "Host: localhost",
    "Host: localhost:8080",
    "Host: LOCALHOST",
    "Host: [::1]:8080",
    "Host: evil",
    "Host: 127.0.0.1",
    "host:  127.0.0.1:00000 ",
    "Host: 127.0.0.1:8080\r\nHost: localhost",
    "X-Origin: http://evil.example\r\nOrigins: http://evil.example",
    "X-Host: evil.example\r\nReferer: http://evil.example/",
    "Host: 127.0.0.1:8080\r\nOrigin: http://127.0.0.1:8080\r\nSec-Fetch-Site: same-origin",
];

/// The first line of a request, its length header, and what the request asks for.
const CASES: [(&str, &str, &str); 6] = [
    (
        "POST /clerks/4/batches/12/keying",
        "Content-Length: 43",
        KEYED,
    ),
    (
        "POST /clerks/4/batches/12/keying",
        "Content-Length: 42",
        "BadRequest",
    ),
    (
        "POST /clerks/4/batches/12/keying",
        "Content-Length: 1048577",
        "TooLarge",
    ),
    (
        "GET /clerks/4/work",
        "Content-Length: 43",
        "Work { clerk: 4 }",
    ),
    ("PUT /clerks/4/work", "Content-Length: 43", "only Get"),
    ("GET /nothing", "Transfer-Encoding: chunked", "NotFound"),
];

/// Returns a request with the given first line and headers.
fn request_of(alloc: Global, line: &str, first: &str, second: &str) -> Result<String, AllocError> {
    format!(in alloc; "{line} HTTP/1.1\r\n{first}\r\n{second}\r\n\r\n{BODY}")
}

/// Reads a request with the given headers, both in this order and in reverse.
fn asks_both(
    rt: &(impl Abort + AllocGlobal),
    given: HttpSettings<'_>,
    line: &str,
    headers: (&str, &str),
    asked: &str,
) -> Result<(), Fail> {
    let request = request_of(rt.alloc(), line, headers.0, headers.1)?;
    asks_of(rt, given, request.as_bytes(), asked)?;
    let request = request_of(rt.alloc(), line, headers.1, headers.0)?;
    asks_of(rt, given, request.as_bytes(), asked)
}

/// Reads a request with the given additional headers. Either it asks for the same thing as without them, or it is
/// rejected as foreign before anything else is checked, whether it sends a keying or reads.
fn asks_with(
    rt: &(impl Abort + AllocGlobal),
    given: HttpSettings<'_>,
    headers: &str,
    is_foreign: bool,
) -> Result<(), Fail> {
    for (line, length, asked) in &CASES {
        let asked = if is_foreign { "Forbidden" } else { *asked };
        asks_both(rt, given, *line, (*length, headers), asked)?;
    }
    Ok(())
}

/// Headers, whether an office whose origin has a port accepts them, and whether one whose origin has no port does.
const PROXIED: [(&str, bool, bool); 17] = [
    ("Origin: https://count.example.org:8443", true, false),
    ("Origin: https://count.example.org", false, false),
    ("Origin: https://count.example.org:8444", false, false),
    ("Origin: https://count.example.org:84430", false, false),
    ("Origin: http://count.example.org:8443", false, false),
    ("Origin: http://count.example.org", false, true),
    ("Origin: http://count.example.org:80", false, false),
    ("Origin: http://Count.example.org", false, false),
    (
        "Origin: http://count.example.org.evil.example",
        false,
        false,
    ),
    ("Host: count.example.org:8443", true, false),
    ("Host: count.example.org", true, true),
    ("Host: count.example.org:844", false, false),
    ("Host: count.example.or", false, false),
    ("Host: count.example.org:", false, false),
    ("Host: example.org", false, false),
    ("Host: .", false, false),
    ("Host: https://count.example.org", false, false),
];

/// Returns the settings of an office behind a proxy with the given origin.
fn through(origin: Option<Origin<'_>>) -> HttpSettings<'_> {
    HttpSettings {
        origin,
        gate: None,
        public: None,
    }
}

/// Checks which headers are foreign, both for an office without an origin and for one with the given origin.
fn asks_each(
    rt: &(impl Abort + AllocGlobal),
    given: HttpSettings<'_>,
    all: &[&str],
    is_foreign: bool,
) -> Result<(), Fail> {
    for headers in all {
        asks_with(rt, NOTHING, *headers, is_foreign)?;
        asks_with(rt, given, *headers, is_foreign)?;
    }
    Ok(())
}

/// Checks which headers are foreign for an office without an origin, for one whose origin has a port, and for one whose
/// origin has none.
fn asks_proxied(
    rt: &(impl Abort + AllocGlobal),
    with_port: HttpSettings<'_>,
    without: HttpSettings<'_>,
    all: &[(&str, bool, bool)],
) -> Result<(), Fail> {
    for (headers, by_port, by_none) in all {
        asks_with(rt, NOTHING, *headers, true)?;
        asks_with(rt, with_port, *headers, !*by_port)?;
        asks_with(rt, without, *headers, !*by_none)?;
    }
    Ok(())
}

#[test]
fn pages_from_elsewhere_and_through_a_proxy(rt: HostRuntime) -> Result<(), Fail> {
    let with_port = Origin::parse("https://count.example.org:8443");
    let without = Origin::parse("http://count.example.org");
    assert!(rt; with_port.is_some() && without.is_some());
    let with_port = through(with_port);
    let without = through(without);
    asks_each(&rt, with_port, &FOREIGN, true)?;
    asks_each(&rt, with_port, &OWN, false)?;
    asks_proxied(&rt, with_port, without, &PROXIED)?;
    asks(
        &rt,
        b"GET /nothing\r\nOrigin: http://evil.example\r\n\r\n",
        "BadRequest",
    )
}

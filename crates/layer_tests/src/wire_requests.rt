//! What HTTP requests ask for, read from readers that return everything at once, that return one byte at a time, or
//! that fail.

ghost use Rattle.std.specs.Prelude.{◌-◌, ◌^◌, ◌<◌};

use crate::sheet_outputs::is_text;
use std::alloc::{AllocError, Global};
use std::fmt::Write;
use std::io;
use std::io::{ErrorKind, Read};
use std::process::Abort;
use std::test::Fail;
use streams::{Counted, Source};
use wire::{
    ConsoleOrder, FixedPage, HttpRequest, HttpSettings, Keying, ReadFailure, RequestError,
    read_request,
};

/// The longest head, in bytes, the most headers, and the longest body.
const MAX_HEAD_BYTES: usize = 8192;

const MAX_HEADERS: usize = 32;

const MAX_BODY_BYTES: u32 = 1_048_576;

/// A reader that returns its bytes one at a time, and then ends or fails.
#[derive(Drop)]
struct Slow<'a> {
    left: &'a [u8],
    fails: bool,
}

impl<'a> Read for Slow<'a> {
    fn read(&mut self, room: &mut [u8]) -> io::Result<usize> {
        match self.left {
            [] if self.fails => Err(io::Error::from(ErrorKind::BrokenPipe)),
            [byte, others @ ..] if !room.is_empty() => {
                room[0] = *byte;
                self.left = others;
                Ok(1)
            }
            _ => Ok(0),
        }
    }
}

/// Returns a keying, in short form.
fn keying_words(alloc: Global, keying: &Keying) -> Result<String, AllocError> {
    let (clerk, batch, round) = (keying.clerk, keying.batch, keying.round);
    let id = keying.id.as_str();
    let mut text = format!(in alloc; "{clerk} keys {batch} round {round} as {id}:")?;
    for paper in &keying.papers {
        write!(text, " [{}]", paper.as_str())?;
    }
    Ok(text)
}

/// Returns why a request is denied, in short form.
fn rejection_words(alloc: Global, why: &RequestError) -> Result<String, AllocError> {
    match why {
        RequestError::MethodNotAllowed { allowed } => format!(in alloc; "only {allowed:?}"),
        _ => format!(in alloc; "{why:?}"),
    }
}

/// Returns what a clerk or the office is shown, in short form.
fn shown_words(alloc: Global, clerk: &str, what: &FixedPage<'_>) -> Result<String, AllocError> {
    match what {
        FixedPage::Page(page) => {
            let (text, policy) = (page.text, page.policy);
            format!(in alloc; "{clerk} sees {text} by {policy}")
        }
        FixedPage::SignedOut => format!(in alloc; "{clerk} leaves"),
    }
}

/// Returns an order, in short form: its words, and its files.
fn order_words(alloc: Global, order: &ConsoleOrder) -> Result<String, AllocError> {
    let mut text = String::from_str(alloc, "office:")?;
    for word in &order.words {
        write!(text, " {}", word.as_str())?;
    }
    for file in &order.files {
        write!(text, " {}={}", file.name.as_str(), file.text.as_str())?;
    }
    Ok(text)
}

/// Returns what a request asks for, or why it couldn't be read, in short form.
fn words_of(alloc: Global, came: &Result<HttpRequest, ReadFailure>) -> Result<String, AllocError> {
    match came {
        Ok(HttpRequest::Keying(keying)) => keying_words(alloc, keying),
        Ok(HttpRequest::ClerkPage(clerk, what)) => {
            shown_words(alloc, format!(in alloc; "{clerk}")?.as_str(), what)
        }
        Ok(HttpRequest::ConsolePage(what)) => shown_words(alloc, "office", what),
        Ok(HttpRequest::Order(order)) => order_words(alloc, order),
        Ok(HttpRequest::Resource(what)) => format!(in alloc; "{what:?}"),
        Ok(HttpRequest::Public(_, what)) => format!(in alloc; "{what:?}"),
        Ok(HttpRequest::Denied(why)) => rejection_words(alloc, why),
        Err(ReadFailure::Broken) => String::from_str(alloc, "broken"),
        Err(ReadFailure::Memory) => String::from_str(alloc, "memory"),
    }
}

/// The settings of an office without a proxy and without codes.
pub const NOTHING: HttpSettings<'static> = HttpSettings {
    origin: None,
    gate: None,
    public: None,
};

/// Returns what a request to an office with the given settings asks for, in short form.
fn asked_text<R: Source>(
    alloc: Global,
    given: HttpSettings<'_>,
    reader: &mut R,
) -> Result<String, AllocError>
    requires { R.failed reader.old < 2 ^ 64 - 1 }
{
    words_of(alloc, &read_request(alloc, given, reader))
}

/// Checks what a request from the given reader asks for.
fn asks_in<R: Source>(
    rt: &(impl Abort + AllocGlobal),
    given: HttpSettings<'_>,
    reader: &mut R,
    asked: &str,
) -> Result<(), Fail>
    requires { R.failed reader.old < 2 ^ 64 - 1 }
{
    let text = asked_text(rt.alloc(), given, reader)?;
    is_text(rt, text.as_str(), asked);
    Ok(())
}

/// Checks what a request asks for, both when it is read at once and when it is read one byte at a time.
pub fn asks_of(
    rt: &(impl Abort + AllocGlobal),
    given: HttpSettings<'_>,
    request: &[u8],
    asked: &str,
) -> Result<(), Fail> {
    asks_in(rt, given, &mut Counted::new(request), asked)?;
    let slow = Slow {
        left: request,
        fails: false,
    };
    asks_in(rt, given, &mut Counted::new(slow), asked)
}

/// Does the same as `asks_of` for an office without settings.
pub fn asks(rt: &(impl Abort + AllocGlobal), request: &[u8], asked: &str) -> Result<(), Fail> {
    asks_of(rt, NOTHING, request, asked)
}

/// Returns a keying request with the given headers and body.
fn keying(alloc: Global, headers: &str, body: &str) -> Result<String, AllocError> {
    format!(in alloc; "POST /clerks/4/batches/12/keying HTTP/1.1\r\n{headers}\r\n{body}")
}

/// The body of a keying.
pub const BODY: &str = r#"{"id":"h1","round":1,"papers":["1,2,","D"]}"#;

/// What a keying with the body `BODY` asks for.
pub const KEYED: &str = "4 keys 12 round 1 as h1: [1,2,] [D]";

/// First lines of requests, none followed by a valid length.
const TARGETS: [(&str, &str); 23] = [
    ("GET /clerks/4/work HTTP/1.1", "Work { clerk: 4 }"),
    ("GET /clerks/99999/work HTTP/1.0", "Work { clerk: 99999 }"),
    ("GET /wards/7/sheet HTTP/1.1", "Sheet { ward: 7 }"),
    ("GET /wards/7/result HTTP/1.1", "Declaration { ward: 7 }"),
    ("GET /wards/07/sheet HTTP/1.1", "NotFound"),
    ("GET /wards/100000/sheet HTTP/1.1", "NotFound"),
    ("GET /wards/+7/sheet HTTP/1.1", "NotFound"),
    ("GET /wards//sheet HTTP/1.1", "NotFound"),
    ("GET /wards/7/sheet/ HTTP/1.1", "NotFound"),
    ("GET /wards/7/sheet?x HTTP/1.1", "NotFound"),
    ("GET /wards/%37/sheet HTTP/1.1", "NotFound"),
    ("GET /w\u{e4}rds/7/sheet HTTP/1.1", "NotFound"),
    ("POST /nothing HTTP/1.1", "NotFound"),
    ("GET /clerks/4/ HTTP/1.1", "NotFound"),
    ("GET /clerks/4/leave HTTP/1.1", "NotFound"),
    ("GET /clerks/4/batches/12/candidates HTTP/1.1", "NotFound"),
    ("POST /wards/7/sheet HTTP/1.1", "only Get"),
    ("get /wards/7/sheet HTTP/1.1", "only Get"),
    ("GET /clerks/4/batches/12/keying HTTP/1.1", "only Post"),
    ("PUT /clerks/4/batches/12/keying HTTP/1.1", "only Post"),
    ("POST /clerks/4/batches/0/keying HTTP/1.1", "NotFound"),
    ("GET /wards/7/sheet HTTP/2.0", "BadRequest"),
    ("X", "BadRequest"),
];

/// Headers for a keying whose body has 43 bytes.
const LENGTHS: [(&str, &str); 14] = [
    ("Content-Length: 43\r\n", KEYED),
    ("cONTENT-lENGTH:\t0043 \r\nHost: x\r\n", KEYED),
    ("Content-Length: 42\r\n", "BadRequest"),
    ("Content-Length: 44\r\n", "BadRequest"),
    ("", "BadRequest"),
    ("Content-Length:\r\n", "BadRequest"),
    ("Content-Length: +43\r\n", "BadRequest"),
    ("Content-Length: 4 3\r\n", "BadRequest"),
    ("Content-Length: 43\r\nContent-Length: 43\r\n", "BadRequest"),
    (
        "Content-Length: 43\r\nTransfer-Encoding: identity\r\n",
        "BadRequest",
    ),
    ("Transfer-Encoding: chunked\r\n", "BadRequest"),
    ("Content-Length: 1048577\r\n", "TooLarge"),
    (
        "Content-Length: 123456789012345678901234567890\r\n",
        "TooLarge",
    ),
    (
        "Content-Length: 1048577\r\nContent-Length: 1048577\r\n",
        "BadRequest",
    ),
];

/// Bodies for a keying whose header gives their length.
const BODIES: [(&str, &str); 13] = [
    (
        r#" { "papers" : [] , "round" : 4294967295 , "id" : "" } "#,
        "4 keys 12 round 4294967295 as :",
    ),
    (
        r#"{"id":"a","id":"b","round":1,"papers":["\u0044"]}"#,
        "4 keys 12 round 1 as b: [D]",
    ),
    (r#"{"id":"h1","round":1,"papers":[],"x":1}"#, "BadRequest"),
    (r#"{"id":"h1","round":1}"#, "BadRequest"),
    (r#"{"id":"h1","round":"1","papers":[]}"#, "BadRequest"),
    (
        r#"{"id":"h1","round":4294967296,"papers":[]}"#,
        "BadRequest",
    ),
    (r#"{"id":"h1","round":1.0,"papers":[]}"#, "BadRequest"),
    (r#"{"id":"h1","round":-0,"papers":[]}"#, "BadRequest"),
    (r#"{"id":"h1","round":1,"papers":[1]}"#, "BadRequest"),
    (r#"{"id":1,"round":1,"papers":[]}"#, "BadRequest"),
    (r#"["h1",1,[]]"#, "BadRequest"),
    (r#"{"id":"h1","round":1,"papers":[]"#, "BadRequest"),
    ("", "BadRequest"),
];

fn asks_target(rt: &(impl Abort + AllocGlobal), (line, asked): &(&str, &str)) -> Result<(), Fail> {
    let request = format!(in rt.alloc(); "{line}\r\nContent-Length: x\r\n\r\n")?;
    asks(rt, request.as_bytes(), *asked)
}

fn asks_keying(
    rt: &(impl Abort + AllocGlobal),
    headers: &str,
    body: &str,
    asked: &str,
) -> Result<(), Fail> {
    let request = keying(rt.alloc(), headers, body)?;
    asks(rt, request.as_bytes(), asked)
}

fn asks_body(rt: &(impl Abort + AllocGlobal), (body, asked): &(&str, &str)) -> Result<(), Fail> {
    let headers = format!(in rt.alloc(); "Content-Length: {}\r\n", body.len())?;
    asks_keying(rt, headers.as_str(), *body, *asked)
}

#[test]
fn targets_lengths_and_bodies(rt: HostRuntime) -> Result<(), Fail> {
    for case in &TARGETS {
        asks_target(&rt, case)?;
    }
    for (headers, asked) in &LENGTHS {
        asks_keying(&rt, *headers, BODY, *asked)?;
    }
    for case in &BODIES {
        asks_body(&rt, case)?;
    }
    Ok(())
}

/// Returns a text followed by the given number of repetitions of another.
fn repeated(alloc: Global, text: &str, more: &str, times: usize) -> Result<String, AllocError> {
    let mut long = String::from_str(alloc, text)?;
    for _ in 0..times {
        long.push_str(more)?;
    }
    Ok(long)
}

/// Checks what a request asks for if it consists of a text, the given number of repetitions of another, and an end.
fn asks_long(
    rt: &(impl Abort + AllocGlobal),
    text: &str,
    (more, times): (&str, usize),
    end: &str,
    asked: &str,
) -> Result<(), Fail> {
    let mut request = repeated(rt.alloc(), text, more, times)?;
    request.push_str(end)?;
    asks(rt, request.as_bytes(), asked)
}

/// Checks what a request asks for if its head has the given length, the given end, and a single header.
fn asks_long_head(
    rt: &(impl Abort + AllocGlobal),
    (length, end, asked): &(usize, &str, &str),
) -> Result<(), Fail> {
    let begun = "GET /wards/7/sheet HTTP/1.1\r\nA: ";
    let times = length.saturating_sub(begun.len()).saturating_sub(end.len());
    asks_long(rt, begun, ("x", times), *end, *asked)
}

/// The length of a head, its end, and what the request asks for.
const LONG_HEADS: [(usize, &str, &str); 3] = [
    (MAX_HEAD_BYTES, "\r\n\r\n", "Sheet { ward: 7 }"),
    (MAX_HEAD_BYTES + 1, "\r\n\r\n", "BadRequest"),
    (MAX_HEAD_BYTES + 1, "xxxx", "BadRequest"),
];

/// The number of headers, and what a request with them asks for.
const MANY_HEADERS: [(usize, &str); 2] = [
    (MAX_HEADERS, "Sheet { ward: 7 }"),
    (MAX_HEADERS + 1, "BadRequest"),
];

/// Checks that a body of nested brackets is rejected.
fn asks_nested(rt: &(impl Abort + AllocGlobal)) -> Result<(), Fail> {
    let nested = repeated(rt.alloc(), "", "[", 200)?;
    asks_keying(rt, "Content-Length: 200\r\n", nested.as_str(), "BadRequest")
}

/// Returns a keying whose body has the maximum length and consists of spaces.
fn spaces(alloc: Global) -> Result<String, AllocError> {
    let headers = format!(in alloc; "Content-Length: {MAX_BODY_BYTES}\r\n")?;
    let head = keying(alloc, headers.as_str(), "")?;
    repeated(alloc, head.as_str(), " ", MAX_BODY_BYTES as usize)
}

/// Checks that such a keying is rejected. It is read only in one piece; reading it one byte at a time would take too
/// long.
fn asks_spaces(rt: &(impl Abort + AllocGlobal)) -> Result<(), Fail> {
    let request = spaces(rt.alloc())?;
    let mut reader = Counted::new(request.as_bytes());
    asks_in(rt, NOTHING, &mut reader, "BadRequest")
}

#[test]
fn long_heads_and_bodies(rt: HostRuntime) -> Result<(), Fail> {
    for case in &LONG_HEADS {
        asks_long_head(&rt, case)?;
    }
    let line = "GET /wards/7/sheet HTTP/1.1\r\n";
    for (count, asked) in &MANY_HEADERS {
        asks_long(&rt, line, ("A: b\r\n", *count), "\r\n", *asked)?;
    }
    asks_nested(&rt)?;
    asks_spaces(&rt)
}

/// Reads a request when only the given bytes arrive before the reader fails. Unless the request is complete, nothing is
/// asked for, and one failure is counted.
fn breaks_off(rt: &(impl Abort + AllocGlobal), left: &[u8], is_whole: bool) -> Result<(), Fail> {
    let mut reader = Counted::new(Slow { left, fails: true });
    let wanted = if is_whole { KEYED } else { "broken" };
    asks_in(rt, NOTHING, &mut reader, wanted)?;
    assert_eq!(rt; reader.failures(), u64::from(!is_whole));
    Ok(())
}

#[test]
fn a_reader_that_fails(rt: HostRuntime) -> Result<(), Fail> {
    let request = keying(rt.alloc(), "Content-Length: 43\r\n", BODY)?;
    let bytes = request.as_bytes();
    for length in 0..bytes.len() + 1 {
        let (left, is_whole) = (&bytes[..length], length == bytes.len());
        breaks_off(&rt, left, is_whole)?;
        asks(&rt, left, if is_whole { KEYED } else { "BadRequest" })?;
    }
    Ok(())
}

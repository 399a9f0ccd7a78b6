//! The bytes of a response.

ghost use Rattle.std.specs.Prelude.{◌≡◌, IfOk, None, OnErr, length, string_bytes};
ghost use Rattle.wire.specs.Told.{IsTold, IsWritten, told_bytes};
ghost use Rattle.wire.specs.Requests.{has_left, show_entry};
ghost use Rattle.wire.specs.Gates.{page_entry};
ghost use Rattle.wire.specs.Responses.{account_kept_out, code_line, denied_response, fault_response, guard_lines, lines_and_body};
ghost use Rattle.wire.specs.Responses.{media_type, nothing, order_response, phrase, printed_response, realm_of, response_bytes, shown_response, unauthorized_response, waits_response};

use crate::account::Account;
use crate::bodies::order_body;
use crate::request_error::{RequestError, Verb};
use crate::settings::{FixedPage, Page};
use http::StatusCode;
use std::alloc::{AllocError, Global};

/// The media type of a body.
#[derive(Clone, Copy)]
pub(crate) enum Content {
    Text,
    Json,
    Html,
}

/// The bytes of a response. Constant ones need no allocation.
#[derive(Drop)]
pub(crate) enum Bytes {
    Fixed(&'static str),
    Made(String),
}

impl Bytes {
    /// Returns the bytes to write.
    pub(crate) fn as_slice(&self) -> &[u8]
        ensures { result.now ≡ told_bytes self.now }
    {
        match self {
            Bytes::Fixed(text) => text.as_bytes(),
            Bytes::Made(text) => text.as_bytes(),
        }
    }
}

/// A response, ready to be written.
#[derive(Drop)]
pub struct Response {
    pub(crate) status: u16,
    pub(crate) bytes: Bytes,
}

/// The responses to requests rejected before the office is asked.
const BAD_REQUEST: &str =
    "HTTP/1.1 400 Bad Request\r\nContent-Type: application/json\r\nContent-Length: 23\r\nConnection: close\r\n\r\n{\"error\":\"bad request\"}";

const FORBIDDEN: &str =
    "HTTP/1.1 403 Forbidden\r\nContent-Type: application/json\r\nContent-Length: 21\r\nConnection: close\r\n\r\n{\"error\":\"forbidden\"}";

const NOT_FOUND: &str =
    "HTTP/1.1 404 Not Found\r\nContent-Type: application/json\r\nContent-Length: 21\r\nConnection: close\r\n\r\n{\"error\":\"not found\"}";

const ONLY_GET: &str =
    "HTTP/1.1 405 Method Not Allowed\r\nContent-Type: application/json\r\nContent-Length: 30\r\nAllow: GET\r\nConnection: close\r\n\r\n{\"error\":\"method not allowed\"}";

const ONLY_POST: &str =
    "HTTP/1.1 405 Method Not Allowed\r\nContent-Type: application/json\r\nContent-Length: 30\r\nAllow: POST\r\nConnection: close\r\n\r\n{\"error\":\"method not allowed\"}";

const TOO_LARGE: &str =
    "HTTP/1.1 413 Payload Too Large\r\nContent-Type: application/json\r\nContent-Length: 21\r\nConnection: close\r\n\r\n{\"error\":\"too large\"}";

/// The response to a rate-limited client.
const WAITS: &str =
    "HTTP/1.1 429 Too Many Requests\r\nContent-Type: application/json\r\nContent-Length: 32\r\nRetry-After: 60\r\nConnection: close\r\n\r\n{\"error\":\"too many wrong codes\"}";

/// The response when the file of the office is gone or replaced.
const GONE: &str =
    "HTTP/1.1 503 Service Unavailable\r\nContent-Type: application/json\r\nContent-Length: 13\r\nConnection: close\r\n\r\n{\"fault\":113}";

/// The response when a request wasn't recorded a second time.
const UNRECORDED: &str =
    "HTTP/1.1 503 Service Unavailable\r\nContent-Type: application/json\r\nContent-Length: 13\r\nConnection: close\r\n\r\n{\"fault\":112}";

/// The response to an order whose output isn't UTF-8.
const OUTPUT_FAILED: &str =
    "HTTP/1.1 503 Service Unavailable\r\nContent-Type: application/json\r\nContent-Length: 13\r\nConnection: close\r\n\r\n{\"fault\":107}";

/// The response to signing out.
const SIGNED_OUT: &str =
    "HTTP/1.1 200 OK\r\nContent-Type: application/json\r\nContent-Length: 13\r\nClear-Site-Data: \"cookies\"\r\nCache-Control: no-store\r\nConnection: close\r\n\r\n{\"left\":true}";

/// The response to a request without a code or with the wrong one.
const NO_CODE: &str = "{\"error\":\"unauthorized\"}";

/// The response when an allocation failed. It is constant, so it needs no allocation itself.
const NO_MEMORY: &str =
    "HTTP/1.1 503 Service Unavailable\r\nContent-Type: application/json\r\nContent-Length: 13\r\nConnection: close\r\n\r\n{\"fault\":101}";

/// The content security policy of a page printed by an order: the page has its own styles, and no script.
const PRINTED_POLICY: &str =
    "default-src 'none'; style-src 'unsafe-inline'; base-uri 'none'; form-action 'none'; frame-ancestors 'none'";

/// Returns the response to a request with a method that the target doesn't allow.
fn only_text(allowed: Verb) -> &'static str
    ensures { result.now ≡ response_bytes (denied_response (RequestError.MethodNotAllowed allowed)) }
{
    match allowed {
        Verb::Get => ONLY_GET,
        Verb::Post => ONLY_POST,
    }
}

/// Returns the account whose code is missing or wrong, if that is the error.
fn account_kept_out(why: RequestError) -> Option<Account>
    ensures { result ≡ account_kept_out why }
{
    match why {
        RequestError::Unauthorized(account) => Some(account),
        RequestError::WrongCode(account) => Some(account),
        _ => None,
    }
}

/// Returns the response to a rejected request, which is constant unless a code is required.
pub(crate) fn denied_text(why: RequestError) -> &'static str
    requires { account_kept_out why ≡ None }
    ensures { result.now ≡ response_bytes (denied_response why) }
{
    match why {
        RequestError::BadRequest => BAD_REQUEST,
        RequestError::Forbidden => FORBIDDEN,
        RequestError::NotFound => NOT_FOUND,
        RequestError::MethodNotAllowed { allowed } => only_text(allowed),
        RequestError::TooLarge => TOO_LARGE,
        RequestError::Unauthorized(_) => "",
        RequestError::WrongCode(_) => "",
    }
}

/// Returns the status of the response to a rejected request.
fn denied_status(why: RequestError) -> u16
    ensures { result ≡ (denied_response why).status }
{
    match why {
        RequestError::BadRequest => 400,
        RequestError::Unauthorized(_) | RequestError::WrongCode(_) => 401,
        RequestError::Forbidden => 403,
        RequestError::NotFound => 404,
        RequestError::MethodNotAllowed { .. } => 405,
        RequestError::TooLarge => 413,
    }
}

/// Returns the media type of a body.
fn media_type(content: Content) -> &'static str
    ensures { result.now ≡ media_type content }
{
    match content {
        Content::Text => "text/plain; charset=utf-8",
        Content::Json => "application/json",
        Content::Html => "text/html; charset=utf-8",
    }
}

/// Returns the phrase of a status.
fn phrase(status: StatusCode) -> &'static str
    ensures { result.now ≡ phrase status }
{
    match status.canonical_reason() {
        Some(phrase) => phrase,
        None => "",
    }
}

/// Returns the text that identifies an account in a realm.
fn realm_of(alloc: Global, account: Account) -> Result<String, AllocError>
    ensures { IfOk result (λ text. string_bytes text ≡ realm_of account) }
{
    match account {
        Account::Clerk(clerk) => format!(in alloc; "clerk {clerk}"),
        Account::Office => String::from_str(alloc, "office"),
    }
}

#[tactic(auto, unfolding(crate::specs::Responses::code_line))]
/// Returns the header line that requests the code for a realm.
fn code_line(alloc: Global, realm: &str) -> Result<String, AllocError>
    ensures { IfOk result (λ text. string_bytes text ≡ code_line realm.now) }
{
    format!(in alloc; "WWW-Authenticate: Basic realm=\"{realm}\", charset=\"UTF-8\"\r\n")
}

#[tactic(auto, unfolding(crate::specs::Responses::guard_lines))]
/// Returns the header lines that restrict what a page may do in the browser.
fn guard_lines(alloc: Global, policy: &str) -> Result<String, AllocError>
    ensures { IfOk result (λ text. string_bytes text ≡ guard_lines policy.now) }
{
    format!(in alloc;
        "Content-Security-Policy: {policy}\r\nX-Frame-Options: DENY\r\n\
X-Content-Type-Options: nosniff\r\nReferrer-Policy: same-origin\r\n\
Cross-Origin-Opener-Policy: same-origin\r\nCross-Origin-Resource-Policy: same-origin\r\n\
Cache-Control: no-store\r\n"
    )
}

#[tactic(auto, unfolding(crate::specs::Responses::lines_and_body))]
/// Returns a response with a status, additional header lines, an empty line and a body. The only error is a failed allocation.
fn response_with(
    alloc: Global,
    status: StatusCode,
    content: Content,
    beside: &str,
    body: &str,
) -> Result<String, AllocError>
    ensures { IfOk result (λ text. string_bytes text ≡ lines_and_body status (phrase status) (media_type content) (length body.now) beside.now body.now) }
{
    let (code, phrase) = (status.as_u16(), phrase(status));
    let (media_type, size) = (media_type(content), body.len());
    format!(in alloc;
        "HTTP/1.1 {code} {phrase}\r\nContent-Type: {media_type}\r\nContent-Length: {size}\r\n{beside}Connection: close\r\n\r\n{body}"
    )
}

/// Returns a response with a status and a body. The only error is a failed allocation.
pub(crate) fn response_text(
    alloc: Global,
    status: StatusCode,
    content: Content,
    body: &str,
) -> Result<String, AllocError>
    ensures { IfOk result (λ text. string_bytes text ≡ response_bytes (record { status = status; more = nothing; content = content; body = body.now })) }
{
    response_with(alloc, status, content, "", body)
}

/// Returns the response that requests an account's code.
fn unauthorized_text(alloc: Global, account: Account) -> Result<String, AllocError>
    ensures { IfOk result (λ text. string_bytes text ≡ response_bytes (unauthorized_response account)) }
{
    let realm = realm_of(alloc, account)?;
    let beside = code_line(alloc, realm.as_str())?;
    response_with(
        alloc,
        StatusCode::UNAUTHORIZED,
        Content::Json,
        beside.as_str(),
        NO_CODE,
    )
}

/// Returns the response that serves a page.
fn page_response_text(alloc: Global, page: Page<'_>) -> Result<String, AllocError>
    ensures { IfOk result (λ text. string_bytes text ≡ response_bytes (shown_response (show_entry (FixedPage.Page page.entry)))) }
{
    let beside = guard_lines(alloc, page.policy)?;
    response_with(
        alloc,
        StatusCode::OK,
        Content::Html,
        beside.as_str(),
        page.text,
    )
}

impl Response {
    /// Returns the response with the given status and text, or the out-of-memory response if the text couldn't be allocated.
    fn of_text(status: u16, text: Result<String, AllocError>) -> Response
        ensures told { IfOk text (λ made. (result.status ≡ status) × (told_bytes result.bytes ≡ string_bytes made)) }
        ensures memory { OnErr text (IsWritten (fault_response 101) result) }
    {
        match text {
            Ok(text) => Response {
                status,
                bytes: Bytes::Made(text),
            },
            Err(_) => Response::no_memory(),
        }
    }

    /// Returns the response to a rejected request, or the out-of-memory response if a code is required and the allocation fails.
    pub(crate) fn denied(alloc: Global, why: RequestError) -> Response
        ensures { IsTold (denied_response why) result }
    {
        match account_kept_out(why) {
            Some(account) => Response::of_text(401, unauthorized_text(alloc, account)),
            None => Response {
                status: denied_status(why),
                bytes: Bytes::Fixed(denied_text(why)),
            },
        }
    }

    /// Returns the response to a sign-out.
    fn left() -> Response
        ensures { IsWritten (shown_response has_left) result }
    {
        Response {
            status: 200,
            bytes: Bytes::Fixed(SIGNED_OUT),
        }
    }

    /// Returns the response that shows a page or confirms a sign-out; or the out-of-memory response if the allocation fails.
    pub(crate) fn shown(alloc: Global, show: FixedPage<'_>) -> Response
        ensures { IsTold (shown_response (show_entry show.entry)) result }
    {
        match show {
            FixedPage::Page(page) => Response::of_text(200, page_response_text(alloc, page)),
            FixedPage::SignedOut => Response::left(),
        }
    }

    /// Returns the response for a page that an order prints, or the out-of-memory response if the allocation fails.
    pub(crate) fn printed(alloc: Global, text: &str) -> Response
        ensures { IsTold (printed_response text.now) result }
    {
        let policy = PRINTED_POLICY;
        Response::of_text(200, page_response_text(alloc, Page { text, policy }))
    }

    /// Returns the response to a rate-limited client.
    pub(crate) fn waits() -> Response
        ensures { IsWritten waits_response result }
    {
        Response {
            status: 429,
            bytes: Bytes::Fixed(WAITS),
        }
    }

    /// Returns the response when the file of the office is gone or replaced.
    pub(crate) fn gone() -> Response
        ensures { IsWritten (fault_response 113) result }
    {
        Response {
            status: 503,
            bytes: Bytes::Fixed(GONE),
        }
    }

    /// Returns the response when the request wasn't recorded a second time (112).
    pub fn unrecorded() -> Response
        ensures { IsWritten (fault_response 112) result }
    {
        Response {
            status: 503,
            bytes: Bytes::Fixed(UNRECORDED),
        }
    }

    /// Returns the response to an order whose output isn't UTF-8, and so can't be sent (107).
    pub fn output_failed() -> Response
        ensures { IsWritten (fault_response 107) result }
    {
        Response {
            status: 503,
            bytes: Bytes::Fixed(OUTPUT_FAILED),
        }
    }

    /// Returns the out-of-memory response.
    pub(crate) fn no_memory() -> Response
        ensures { IsWritten (fault_response 101) result }
    {
        Response {
            status: 503,
            bytes: Bytes::Fixed(NO_MEMORY),
        }
    }

    /// Returns the response for the outcome of an order: its status, and what it printed. Returns the out-of-memory response if
    /// an allocation failed.
    pub fn of_order(alloc: Global, status: u8, output: &str, errors: &str) -> Response
        ensures { IsTold (order_response status output.now errors.now) result }
    {
        let body = order_body(alloc, status, output, errors);
        Response::made(alloc, StatusCode::OK, Content::Json, body)
    }

    /// Returns a response with a status and a body, or the out-of-memory response if an allocation failed.
    pub(crate) fn made(
        alloc: Global,
        status: StatusCode,
        content: Content,
        body: Result<String, AllocError>,
    ) -> Response
        ensures told { IfOk body (λ text. IsTold (record { status = status; more = nothing; content = content; body = string_bytes text }) result) }
        ensures memory { OnErr body (IsWritten (fault_response 101) result) }
    {
        let Ok(body) = body else {
            return Response::no_memory();
        };
        match response_text(alloc, status, content, body.as_str()) {
            Ok(text) => Response {
                status: status.as_u16(),
                bytes: Bytes::Made(text),
            },
            Err(_) => Response::no_memory(),
        }
    }
}

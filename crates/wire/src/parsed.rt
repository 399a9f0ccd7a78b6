//! A parsed request. The head is parsed once, and the result determines everything except the text of the body.

ghost use Rattle.std.specs.Prelude.{◌≡◌, ◌≤◌, ◌++◌, IfOk, IfSome, List, Some, ℕ, length, map, option_map, take};
ghost use Rattle.httparse.specs.Spans.{IsRequestWithin, header_bytes, span_bytes};
ghost use Rattle.wire.specs.Requests.{Asks, http_request_entry, asked_of, asked_with, ordered_with, reading};
ghost use Rattle.wire.specs.Gates.{HttpSettingsEntry, IsAuthentication, settings_entry, authentication_entry};
ghost use Rattle.wire.specs.Completeness.{IsCompletenessOf};
ghost use Rattle.wire.specs.Parsing.{IsParsed, Says, needed, read_in};
ghost use Rattle.wire.specs.declared.target.Resource.{Resource};

use crate::authentication::{
    Authentication, account_at, authentication_by, authentication_failure,
};
use crate::body::{KeyingBody, keying_of};
use crate::completeness::Completeness;
use crate::console_order::order_of;
use crate::head::{MAX_HEAD_BYTES, MAX_HEADERS};
use crate::length::{MAX_BODY_BYTES, body_length};
use crate::origin::is_foreign;
use crate::request::{HttpRequest, Keying, asked_for, console_at, page_at, public_at, served_at};
use crate::request_error::RequestError;
use crate::settings::{FixedPage, HttpSettings};
use crate::target::{OfficeTarget, Resource, Routes, Target};
use httparse::Status;
use httparse::spans::{EMPTY_HEADER_SPAN, HeaderSpan, RequestSpans, parse_request};
use std::alloc::{AllocError, Global};

/// A parsed head.
#[derive(Clone, Copy)]
pub struct Head {
    /// What is requested, or why the request is rejected.
    pub(crate) wanted: Result<Target, RequestError>,
    /// The authentication; `None` if the request needs no code or comes from another site.
    pub(crate) authentication: Option<Authentication>,
    /// The length of the body in bytes, or why it isn't accepted.
    pub(crate) body: Result<usize, RequestError>,
    /// The length of the head, in bytes.
    pub(crate) size: usize,
}

/// The result of parsing the bytes received so far.
#[derive(Clone, Copy)]
pub enum Parsed {
    /// The head is complete.
    Head(Head),
    /// The head isn't complete yet.
    Partial,
    /// The bytes don't begin with a head, whatever follows them.
    Malformed,
}

/// Parses a clerk's keying of a batch, given the length of its body and the bytes that follow the head.
fn keying_in<'a>(
    alloc: Global,
    clerk: u32,
    batch: u32,
    body: Result<usize, RequestError>,
    behind: &[u8],
) -> Result<HttpRequest<'a>, AllocError>
    ensures { IfOk result (λ asked. http_request_entry asked ≡ asked_with clerk batch body behind.now) }
{
    let size = match body {
        Ok(size) => size,
        Err(why) => return Ok(HttpRequest::Denied(why)),
    };
    if behind.len() < size {
        return Ok(HttpRequest::Denied(RequestError::BadRequest));
    }
    match keying_of(alloc, &behind[..size])? {
        Some(KeyingBody { id, round, papers }) => Ok(HttpRequest::Keying(Keying {
            clerk,
            batch,
            id,
            round,
            papers,
        })),
        None => Ok(HttpRequest::Denied(RequestError::BadRequest)),
    }
}

/// Parses an order from the office, given the length of its body and the bytes that follow the head.
fn order_in<'a>(
    alloc: Global,
    body: Result<usize, RequestError>,
    behind: &[u8],
) -> Result<HttpRequest<'a>, AllocError>
    ensures { IfOk result (λ asked. http_request_entry asked ≡ ordered_with body behind.now) }
{
    let size = match body {
        Ok(size) => size,
        Err(why) => return Ok(HttpRequest::Denied(why)),
    };
    if behind.len() < size {
        return Ok(HttpRequest::Denied(RequestError::BadRequest));
    }
    match order_of(alloc, &behind[..size])? {
        Some(order) => Ok(HttpRequest::Order(order)),
        None => Ok(HttpRequest::Denied(RequestError::BadRequest)),
    }
}

impl Head {
    /// Returns what the head in a buffer says, given the spans of its parts.
    pub(crate) fn found(
        settings: HttpSettings<'_>,
        routes: &Routes,
        read: &[u8],
        headers: &[HeaderSpan],
        spans: RequestSpans,
    ) -> Head
        requires { IsRequestWithin read.now headers.now spans }
        ensures { Says (settings_entry settings.entry) (map (header_bytes read.now) (take spans.headers headers.now)) (span_bytes read.now spans.method)
            (span_bytes read.now spans.path) spans.len result }
    {
        let headers = &headers[..spans.headers];
        let (body, size) = (body_length(read, headers), spans.len);
        if is_foreign(settings.origin, read, headers) {
            return Head {
                wanted: Err(RequestError::Forbidden),
                authentication: None,
                body,
                size,
            };
        }
        let target = spans.path.of(read);
        let account = account_at(settings.gate, target);
        let why = authentication_failure(settings.gate, account, read, headers);
        let authentication = authentication_by(settings.gate, account, why);
        let wanted = match why {
            Some(why) => Err(why),
            None => asked_for(spans.method.of(read), served_at(settings, routes, target)),
        };
        Head {
            wanted,
            authentication,
            body,
            size,
        }
    }

    /// Returns what this head and the bytes after it ask for. The only error is a failed allocation.
    pub(crate) fn asked_with<'a>(
        &self,
        alloc: Global,
        settings: HttpSettings<'a>,
        behind: &[u8],
    ) -> Result<HttpRequest<'a>, AllocError>
        ensures { IfOk result (λ asked. http_request_entry asked ≡ asked_of (settings_entry settings.entry).gate (settings_entry settings.entry).public self.now.wanted self.now.body behind.now) }
    {
        match self.wanted {
            Ok(Target::Keying { clerk, batch }) => {
                keying_in(alloc, clerk, batch, self.body, behind)
            }
            Ok(Target::Page { clerk }) => Ok(page_at(settings.gate, clerk)),
            Ok(Target::Leave { clerk }) => Ok(HttpRequest::ClerkPage(clerk, FixedPage::SignedOut)),
            Ok(Target::Resource(what)) => Ok(HttpRequest::Resource(what)),
            Ok(Target::Office(OfficeTarget::ConsolePage)) => Ok(console_at(settings.gate)),
            Ok(Target::Office(OfficeTarget::Leave)) => Ok(HttpRequest::ConsolePage(
                FixedPage::SignedOut,
            )),
            Ok(Target::Office(OfficeTarget::Orders)) => order_in(alloc, self.body, behind),
            Ok(Target::Public(what)) => Ok(public_at(settings.public, what)),
            Err(why) => Ok(HttpRequest::Denied(why)),
        }
    }

    /// Returns the resource to read, if the request is a read.
    fn reading(&self) -> Option<Resource>
        ensures { result ≡ read_in self.now.wanted }
    {
        match self.wanted {
            Ok(Target::Resource(what)) => Some(what),
            _ => None,
        }
    }

    /// Returns how many bytes after the head are needed to know what is requested: the length of the body for a keying or an
    /// order, otherwise 0.
    fn needed(&self) -> usize
        ensures { result ≡ needed self.now.wanted self.now.body }
    {
        match self.wanted {
            Ok(Target::Keying { .. } | Target::Office(OfficeTarget::Orders)) => match self.body {
                Ok(size) => size,
                Err(_) => 0,
            },
            _ => 0,
        }
    }
}

/// Parses the head of a request, given the bytes received so far. Allocates nothing.
///
/// Once there are as many bytes as a head may have, further bytes don't change the result.
pub fn parse(settings: HttpSettings<'_>, routes: &Routes, got: &[u8]) -> Parsed
    ensures is { IsParsed (settings_entry settings.entry) got.now result }
    ensures lasts { MAX_HEAD_BYTES ≤ length got.now → (more : List ℕ) → IsParsed (settings_entry settings.entry) (got.now ++ more) result }
{
    let mut headers = [EMPTY_HEADER_SPAN; MAX_HEADERS];
    let front = &got[..got.len().min(MAX_HEAD_BYTES)];
    match parse_request(front, &mut headers) {
        Ok(Status::Complete(spans)) => Parsed::Head(Head::found(
            settings, routes, front, &headers, spans,
        )),
        Ok(Status::Partial) if got.len() < MAX_HEAD_BYTES => Parsed::Partial,
        Ok(Status::Partial) => Parsed::Malformed,
        Err(_) => Parsed::Malformed,
    }
}

impl Parsed {
    /// Returns whether the request is complete once `come` bytes of it have been received.
    ///
    /// What a complete request asks for doesn't depend on the bytes that follow it.
    pub fn completeness_of(&self, come: usize) -> Completeness
        ensures { (its : HttpSettingsEntry) (got : List ℕ) → length got ≡ come → IsParsed its got self.now → IsCompletenessOf its got result }
    {
        match self {
            Parsed::Head(head) => {
                let whole = head.size.saturating_add(head.needed());
                if come < whole {
                    Completeness::AtLeast(whole)
                } else {
                    Completeness::Complete
                }
            }
            Parsed::Partial => Completeness::AtLeast(come.saturating_add(1)),
            Parsed::Malformed => Completeness::Complete,
        }
    }

    /// Returns the authentication of the request: the account whose code it needs, and whether the code it carries is wrong.
    /// `None` if it needs no code, comes from another site, or has no complete head.
    pub fn authentication(&self) -> Option<Authentication>
        ensures { (its : HttpSettingsEntry) (got : List ℕ) → IsParsed its got self.now → IsAuthentication its got (option_map authentication_entry result) }
    {
        match self {
            Parsed::Head(head) => head.authentication,
            Parsed::Partial => None,
            Parsed::Malformed => None,
        }
    }

    /// Returns the resource that the request reads, if it is a read.
    pub fn reading(&self) -> Option<Resource>
        ensures reads { (its : HttpSettingsEntry) (got : List ℕ) → IsParsed its got self.now → IfSome result (λ what. Asks its got (reading what)) }
        ensures each { (its : HttpSettingsEntry) (got : List ℕ) → IsParsed its got self.now → (what : Resource) → Asks its got (reading what) → result ≡ Some what }
    {
        match self {
            Parsed::Head(head) => head.reading(),
            Parsed::Partial => None,
            Parsed::Malformed => None,
        }
    }

    /// Returns what the request asks for, given the bytes that were parsed. The only error is a failed allocation.
    pub fn asked<'a>(
        &self,
        alloc: Global,
        settings: HttpSettings<'a>,
        got: &[u8],
    ) -> Result<HttpRequest<'a>, AllocError>
        ensures { IsParsed (settings_entry settings.entry) got.now self.now → IfOk result (λ asked. Asks (settings_entry settings.entry) got.now (http_request_entry asked)) }
    {
        match self {
            Parsed::Head(head) => {
                head.asked_with(alloc, settings, &got[head.size.min(got.len())..])
            }
            Parsed::Partial => Ok(HttpRequest::Denied(RequestError::BadRequest)),
            Parsed::Malformed => Ok(HttpRequest::Denied(RequestError::BadRequest)),
        }
    }

    /// Returns how many bytes of the body are still missing once `come` bytes of the request have been received. The length of
    /// the body is the length stated in the head, or 1 MiB if that isn't accepted. Returns 0 if there is no complete head.
    ///
    /// The server reads that many more bytes before it closes the connection. Otherwise the system would reset the connection,
    /// and a proxy would report the reset instead of the response.
    pub fn body_to_come(&self, come: usize) -> usize
        ensures { (its : HttpSettingsEntry) (got : List ℕ) → IsParsed its got self.now → result ≤ MAX_BODY_BYTES }
    {
        match self {
            Parsed::Head(head) => match head.body {
                Ok(size) => size.saturating_sub(come.saturating_sub(head.size)),
                Err(_) => MAX_BODY_BYTES as usize,
            },
            Parsed::Partial => 0,
            Parsed::Malformed => 0,
        }
    }
}

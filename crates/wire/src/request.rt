//! What a request asks for.

ghost use Rattle.std.specs.Prelude.{◌≡◌, ◌≢◌, ◌-◌, ◌^◌, ◌<◌, ◌++◌, IfErr, IfOk, IfSome, List, Ok, OnOk, option_map, ℕ};
ghost use Rattle.wire.specs.Requests.{Asks, AsksByHolder, AsksOneThing, ShowEntry, DeniesForeign, FailsAfter, IsUnread, IsIncomplete};
ghost use Rattle.wire.specs.Requests.{MissesBytes, DependsOnOwnBytes, http_request_entry, asked_for, asked_of, console_at, page_at, public_at, verb_of, verb_text};
ghost use Rattle.wire.specs.Gates.{GateEntry, HttpSettingsEntry, gate_entry, served_with_gate, needs_public, public_entry};
ghost use Rattle.wire.specs.Gates.{settings_entry, needs_gate, needs_office, reading_needs_gate, reading_needs_office, served_at};
ghost use Rattle.wire.specs.PublicRequests.{AsksInPublic};
ghost use Rattle.wire.specs.Targets.{NamesOnlyItsPath, named_by};
ghost use Rattle.wire.specs.Serving.{IsConsoleAlike, IsDeniedAlike, IsShownAlike};
ghost use Rattle.wire.specs.declared.request_error.RequestError.{RequestError};

use crate::body::read_body;
use crate::console_order::ConsoleOrder;
use crate::head::{MAX_HEAD_BYTES, MAX_HEADERS, read_head};
use crate::parsed::Head;
use crate::public_target::PublicTarget;
use crate::read_failure::ReadFailure;
use crate::request_error::{RequestError, Verb};
use crate::settings::{FixedPage, Gate, HttpSettings, Public};
use crate::target::{OfficeTarget, Resource, Routes, Target};
use httparse::spans::EMPTY_HEADER_SPAN;
use std::alloc::Global;
use streams::Source;

/// A clerk's keying of a batch in a round: its id, and the marks text of each paper. The numbers of the clerk and the batch
/// have 1 to 5 digits, and the round is any 32-bit number. Whether they are in range is checked when the keying is handled.
#[derive(Drop)]
pub struct Keying {
    pub clerk: u32,
    pub batch: u32,
    pub id: String,
    pub round: u32,
    pub papers: Vec<String>,
}

/// What a request asks the server to do.
#[derive(Drop)]
pub enum HttpRequest<'a> {
    /// Nothing. The request is rejected, and the office isn't asked.
    Denied(RequestError),
    /// To show a clerk a page that doesn't depend on the state of the office.
    ClerkPage(u32, FixedPage<'a>),
    /// To record a clerk's keying.
    Keying(Keying),
    /// To read a resource.
    Resource(Resource),
    /// To show the office its console, or that it is signed out.
    ConsolePage(FixedPage<'a>),
    /// To carry out an order from the office.
    Order(ConsoleOrder),
    /// To show something in public.
    Public(Public<'a>, PublicTarget),
}

impl Verb {
    /// Returns the name of the method.
    pub(crate) fn text(self) -> &'static str
        ensures { result.now ≡ verb_text self }
    {
        match self {
            Verb::Get => "GET",
            Verb::Post => "POST",
        }
    }
}

impl Resource {
    /// Returns whether the resource is served only at a gate.
    fn needs_gate(&self) -> bool
        ensures { result ≡ reading_needs_gate self.now }
    {
        match self {
            Resource::Work { .. } => false,
            Resource::Candidates { .. } => true,
            Resource::Keyed { .. } => true,
            Resource::Sheet { .. } => false,
            Resource::Declaration { .. } => false,
            Resource::Office(_) => true,
        }
    }

    /// Returns whether the resource is served only if the office has a code.
    fn needs_office(&self) -> bool
        ensures { result ≡ reading_needs_office self.now }
    {
        matches!(self, Resource::Office(_))
    }
}

impl Target {
    /// Returns the only method allowed for the target.
    pub(crate) fn verb(&self) -> Verb
        ensures { result ≡ verb_of self.now }
    {
        match self {
            Target::Keying { .. } | Target::Office(OfficeTarget::Orders) => Verb::Post,
            Target::Page { .. } | Target::Leave { .. } | Target::Resource(_) => Verb::Get,
            Target::Public(_) => Verb::Get,
            Target::Office(OfficeTarget::ConsolePage | OfficeTarget::Leave) => Verb::Get,
        }
    }

    /// Returns whether the target is served only at a gate.
    fn needs_gate(&self) -> bool
        ensures { result ≡ needs_gate self.now }
    {
        match self {
            Target::Keying { .. } => false,
            Target::Page { .. } => true,
            Target::Leave { .. } => true,
            Target::Resource(what) => what.needs_gate(),
            Target::Office(_) => true,
            Target::Public(_) => false,
        }
    }

    /// Returns whether the target is served only if the office has a code.
    fn needs_office(&self) -> bool
        ensures { result ≡ needs_office self.now }
    {
        match self {
            Target::Keying { .. } => false,
            Target::Page { .. } => false,
            Target::Leave { .. } => false,
            Target::Resource(what) => what.needs_office(),
            Target::Office(_) => true,
            Target::Public(_) => false,
        }
    }

    /// Returns whether the target is served only if something is shown in public.
    fn needs_public(&self) -> bool
        ensures { result ≡ needs_public self.now }
    {
        matches!(self, Target::Public(_))
    }
}

/// Returns what a target names, if it is served with the given gate, or without one.
fn served_with_gate(gate: Option<Gate<'_>>, routes: &Routes, target: &[u8]) -> Option<Target>
    ensures { result ≡ served_with_gate (option_map gate_entry gate.entry) (named_by target.now) }
{
    let there = routes.named_by(target)?;
    let is_served = match gate {
        Some(gate) => !there.needs_office() || gate.codes.has_office(),
        None => !there.needs_gate(),
    };
    if is_served { Some(there) } else { None }
}

/// Returns what a target names, if it is served under the given settings.
pub(crate) fn served_at(
    settings: HttpSettings<'_>,
    routes: &Routes,
    target: &[u8],
) -> Option<Target>
    ensures { result ≡ served_at (settings_entry settings.entry).gate (settings_entry settings.entry).public (named_by target.now) }
{
    let there = served_with_gate(settings.gate, routes, target)?;
    if there.needs_public() && settings.public.is_none() {
        return None;
    }
    Some(there)
}

/// Returns what is requested, if the target allows the method; otherwise why the request is rejected.
pub(crate) fn asked_for(method: &[u8], there: Option<Target>) -> Result<Target, RequestError>
    ensures { result ≡ asked_for method.now there }
{
    let Some(there) = there else {
        return Err(RequestError::NotFound);
    };
    let allowed = there.verb();
    if method == allowed.text().as_bytes() {
        Ok(there)
    } else {
        Err(RequestError::MethodNotAllowed { allowed })
    }
}

/// Returns the request to show a clerk the gate's page; without a gate, the request is rejected.
pub(crate) fn page_at<'a>(gate: Option<Gate<'a>>, clerk: u32) -> HttpRequest<'a>
    ensures { http_request_entry result ≡ page_at (option_map gate_entry gate.entry) clerk }
{
    match gate {
        Some(gate) => HttpRequest::ClerkPage(clerk, FixedPage::Page(gate.page)),
        None => HttpRequest::Denied(RequestError::NotFound),
    }
}

/// Returns the request to show the gate's console; without a gate, the request is rejected.
pub(crate) fn console_at<'a>(gate: Option<Gate<'a>>) -> HttpRequest<'a>
    ensures { http_request_entry result ≡ console_at (option_map gate_entry gate.entry) }
{
    match gate {
        Some(gate) => HttpRequest::ConsolePage(FixedPage::Page(gate.console)),
        None => HttpRequest::Denied(RequestError::NotFound),
    }
}

/// Returns the request to show something in public; if nothing is shown in public, the request is rejected.
pub(crate) fn public_at<'a>(public: Option<Public<'a>>, what: PublicTarget) -> HttpRequest<'a>
    ensures { http_request_entry result ≡ public_at (option_map public_entry public.entry) what }
{
    match public {
        Some(shown) => HttpRequest::Public(shown, what),
        None => HttpRequest::Denied(RequestError::NotFound),
    }
}

/// Reads the rest of a request, given its parsed head and the bytes after it, and returns what the request asks for.
fn read_body_after<'a, R: Source>(
    alloc: Global,
    settings: HttpSettings<'a>,
    reader: &mut R,
    head: &Head,
    behind: &[u8],
) -> Result<HttpRequest<'a>, ReadFailure>
    requires { R.failed reader.old < 2 ^ 64 - 1 }
    ensures asks { IfSome (R.held reader.old) (λ left. IfOk result (λ asked. http_request_entry asked
        ≡ asked_of (settings_entry settings.entry).gate (settings_entry settings.entry).public head.now.wanted head.now.body
        (behind.now ++ left))) }
    ensures ok { OnOk result (R.failed reader.new ≡ R.failed reader.old) }
    ensures err { IfErr result (IsUnread (R.failed reader.old) (R.failed reader.new)) }
    ensures wanting { IfErr result (FailsAfter (R.held reader.old) (R.held reader.new) (λ got. MissesBytes head.now.wanted head.now.body (behind.now ++ got))) }
    ensures untouched { ((clerk batch : ℕ) → head.now.wanted ≢ Ok (Target.Keying clerk batch)) → head.now.wanted ≢ Ok (Target.Office OfficeTarget.Orders) → reader.new ≡ reader.old }
{
    let (Ok(Target::Keying { .. } | Target::Office(OfficeTarget::Orders)), Ok(size)) = (
        head.wanted,
        head.body,
    ) else {
        return Ok(head.asked_with(alloc, settings, behind)?);
    };
    match read_body(alloc, reader, behind, size)? {
        Some(body) => Ok(head.asked_with(alloc, settings, &body)?),
        None => Ok(HttpRequest::Denied(RequestError::BadRequest)),
    }
}

/// Reads a request and returns what it asks for.
fn read_from_head<'a, R: Source>(
    alloc: Global,
    settings: HttpSettings<'a>,
    reader: &mut R,
) -> Result<HttpRequest<'a>, ReadFailure>
    requires { R.failed reader.old < 2 ^ 64 - 1 }
    ensures asks { IfSome (R.held reader.old) (λ bytes. IfOk result (λ asked. Asks (settings_entry settings.entry) bytes (http_request_entry asked))) }
    ensures ok { OnOk result (R.failed reader.new ≡ R.failed reader.old) }
    ensures err { IfErr result (IsUnread (R.failed reader.old) (R.failed reader.new)) }
    ensures wanting { IfErr result (FailsAfter (R.held reader.old) (R.held reader.new) (IsIncomplete (settings_entry settings.entry))) }
{
    let mut buffer = [0; MAX_HEAD_BYTES];
    let mut headers = [EMPTY_HEADER_SPAN; MAX_HEADERS];
    let Some(front) = read_head(reader, &mut buffer, &mut headers)? else {
        return Ok(HttpRequest::Denied(RequestError::BadRequest));
    };
    let routes = Routes::new(alloc)?;
    let read = &buffer[..front.filled];
    let head = Head::found(settings, &routes, read, &headers, front.spans);
    read_body_after(alloc, settings, reader, &head, &read[front.spans.len..])
}

/// Reads a request and returns what it asks for under the given settings: the origin of pages that come through a proxy, the
/// gate, and what is shown in public, if any.
///
/// A request is `Forbidden`, whatever it asks for, if a header shows that a page from another site sent it or that it was
/// addressed to a foreign host name. At a gate, a request whose target begins with a clerk's number, such as `/clerks/4/`, is
/// accepted only with that clerk's code. A request whose target begins with `/office/` is accepted only with the office's code,
/// if the office has one. Otherwise it is `Unauthorized` or `WrongCode`, whatever it asks for. So only the holder of a clerk's
/// code can ask for anything under that clerk's number, and only the holder of the office's code can ask for anything on the
/// console. No other request is checked this way. The response to a rejected request is the same in every state of the office,
/// and so are the responses to a `ClerkPage` and a `ConsolePage`. What is shown in public needs no code, and is served only if
/// the settings have it.
///
/// Returns `Broken` only if the source fails while the bytes read so far don't determine what is requested; the source's
/// failure count is then one higher. Once the request is known, nothing more is read, because the client may be waiting for its
/// response. Some of the bytes after the request may have been read already.
///
/// What is requested depends only on the target. A target names something if and only if the target is its path. That path is
/// one of the eight routes of this crate, with numbers of 1 to 5 digits without leading zeros. Or it is `/office/`,
/// `/office/leave`, `/office/orders` or the path of one of the console's reads; or `/`, `/screen`, `/screen/wards` or the path
/// of a ward's page. Any other target names nothing.
pub fn read_request<'a, R: Source>(
    alloc: Global,
    settings: HttpSettings<'a>,
    reader: &mut R,
) -> Result<HttpRequest<'a>, ReadFailure>
    requires { R.failed reader.old < 2 ^ 64 - 1 }
    ensures asks { IfSome (R.held reader.old) (λ bytes. IfOk result (λ asked. Asks (settings_entry settings.entry) bytes (http_request_entry asked))) }
    ensures ok { OnOk result (R.failed reader.new ≡ R.failed reader.old) }
    ensures err { IfErr result (IsUnread (R.failed reader.old) (R.failed reader.new)) }
    ensures wanting { IfErr result (FailsAfter (R.held reader.old) (R.held reader.new) (IsIncomplete (settings_entry settings.entry))) }
    ensures one { (bytes : List ℕ) → AsksOneThing (settings_entry settings.entry) bytes }
    ensures foreign { (its : HttpSettingsEntry) (bytes : List ℕ) → DeniesForeign its bytes }
    ensures others { (its : HttpSettingsEntry) (bytes : List ℕ) → DependsOnOwnBytes its bytes }
    ensures held { (its : HttpSettingsEntry) (bytes : List ℕ) → AsksByHolder its bytes }
    ensures alike { (why : RequestError) → IsDeniedAlike why }
    ensures shown { (show : ShowEntry) → IsShownAlike show }
    ensures console { (show : ShowEntry) → IsConsoleAlike show }
    ensures public { (its : HttpSettingsEntry) (bytes : List ℕ) → AsksInPublic its bytes }
    ensures targets { (target : List ℕ) → NamesOnlyItsPath target }
{
    read_from_head(alloc, settings, reader)
}

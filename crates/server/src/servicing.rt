//! How a connection is serviced: its request is received and, once complete, processed; then its response is sent.

ghost use Rattle.std.specs.Prelude.{◌≡◌, ◌≢◌, ◌⊎◌, ◌++◌, ℕ, [], Err, IfOk, IfSome, List, None, Ok, Some, false, true};
ghost use Rattle.sqlite.specs.Held.{state};
ghost use Rattle.connections.specs.Streams.{Receives, HasFailed, HasTaken, stream_of};
ghost use Rattle.connections.specs.Clients.{IsOf, IsSent};
ghost use Rattle.connections.specs.Closing.{EndsFor, IsSentWhole};
ghost use Rattle.connections.specs.declared.removed.CloseReason.{CloseReason};
ghost use Rattle.wire.specs.Gates.{HttpSettingsEntry, settings_entry};
ghost use Rattle.wire.specs.Parsing.{IsParsed};
ghost use Rattle.wire.specs.Responses.{fault_response};
ghost use Rattle.wire.specs.Serving.{IsPut, IsServed};
ghost use Rattle.wire.specs.Told.{IsWritten};
ghost use Rattle.server.specs.RecordChanges.{served_view};
ghost use Rattle.server.specs.Settings.{settings_by};
ghost use Rattle.server.specs.Servicing.{Services, IsCompleteFor, FailsOnlyAsLost, IsSameClient, HasSentNothing, answer_of};
ghost use Rattle.office.specs.Answers.{IsReadAt, WhenOpenAt};
ghost use Rattle.wire.specs.Requests.{Asks, http_request_entry, reading};
ghost use Rattle.wire.specs.declared.target.Resource.{Resource};
ghost use Rattle.codes.specs.RateLimits.{limit_entry};
ghost use Rattle.server.specs.Reads.{IsRead, IsNoFault, served_office, memory_entry};
ghost use Rattle.server.specs.Endings.{EndsIn};
ghost use Rattle.server.specs.Exchanges.{ChangesNothing, HasAnswered, IsGoneResponse, IsUnrecordedResponse, IsWaitResponse, RespondsToClient, ServesAsked, ServesClient, Exchange};

use crate::console_order::answer_console;
use crate::order_arrival::receive_message;
use crate::order_response::answer_order;
use crate::served_file::ServedFile;
use crate::server_settings::ServerSettings;
use crate::server_state::ServerState;
use connections::{
    Client, CloseReason, Listener, PendingResponse, ReadProgress, Stream, VecSink, deliver,
};
use desk::Recorder;
use office::Office;
use sqlite::Alter;
use std::alloc::Global;
use streams::Broken;
use wire::{
    Completeness, HandledKeying, HttpRequest, HttpSettings, MAX_HEAD_BYTES, Parsed, Resource,
    Response, Routes, Served, handle_keying, parse, respond, write_gone_response,
    write_no_memory_response, write_response, write_unrecorded_response, write_wait_response,
};

/// The status of a response that reports a fault, which isn't cached.
const FAULT: u16 = 503;

/// The outcome of servicing a connection.
#[derive(Clone, Copy)]
pub enum Serviced {
    /// More of its request is still to arrive, or more of its response is still to be sent.
    Waits,
    /// Its request has just been processed, and more of its response is still to be sent.
    Served,
    /// It should be closed, for the given reason.
    Leaves(CloseReason),
}

/// Receives the body of a request whose head has been parsed, until there are `wanted` bytes in total. Returns whether the
/// request is complete.
fn receive_body<L: Stream>(
    client: &mut Client<L>,
    parsed: Parsed,
    wanted: usize,
) -> Result<bool, CloseReason>
    requires { client.old.answer ≡ None }
    ensures receives { Receives (stream_of L.held L.taken L.failed) client.old.stream client.new.stream client.old.got.items client.new.got.items }
    ensures same { IsSameClient client.old client.new × (client.new.answer ≡ None) }
    ensures come { (its : HttpSettingsEntry) → ((more : List ℕ) → IsParsed its (client.old.got.items ++ more) parsed) → result ≡ Ok true
        → IsCompleteFor its (L.held client.new.stream) client.new.got.items parsed }
    ensures broken { result ≡ Err CloseReason.Broken → HasFailed (L.failed client.new.stream) }
    ensures lost { FailsOnlyAsLost result }
{
    match client.receive(wanted)? {
        ReadProgress::Ended => Ok(true),
        ReadProgress::Waits => Ok(false),
        ReadProgress::Enough => {
            let got = client.got.as_slice();
            match parsed.completeness_of(got.len()) {
                Completeness::Complete => Ok(true),
                Completeness::AtLeast(_) => Ok(false),
            }
        }
    }
}

/// Receives a client's request. Returns its parsed head once the request is complete or the client stops sending.
fn receive_request<L: Stream>(
    client: &mut Client<L>,
    settings: HttpSettings<'_>,
    routes: &Routes,
) -> Result<Option<Parsed>, CloseReason>
    requires { client.old.answer ≡ None }
    ensures receives { Receives (stream_of L.held L.taken L.failed) client.old.stream client.new.stream client.old.got.items client.new.got.items }
    ensures same { IsSameClient client.old client.new × (client.new.answer ≡ None) }
    ensures come { IfOk result (λ found. IfSome found (λ parsed. IsCompleteFor (settings_entry settings.entry) (L.held client.new.stream) client.new.got.items parsed)) }
    ensures broken { result ≡ Err CloseReason.Broken → HasFailed (L.failed client.new.stream) }
    ensures lost { FailsOnlyAsLost result }
{
    let received = client.receive(MAX_HEAD_BYTES)?;
    let got = client.got.as_slice();
    let parsed = parse(settings, routes, got);
    match parsed.completeness_of(got.len()) {
        Completeness::Complete => Ok(Some(parsed)),
        Completeness::AtLeast(wanted) => match received {
            ReadProgress::Ended => Ok(Some(parsed)),
            ReadProgress::Waits => Ok(None),
            ReadProgress::Enough => {
                if receive_body(client, parsed, wanted)? {
                    Ok(Some(parsed))
                } else {
                    Ok(None)
                }
            }
        },
    }
}

/// Returns whether a response was written completely and isn't a fault.
fn may_be_cached(served: Served) -> bool
    ensures { result ≡ true → IsNoFault served }
{
    match served {
        Served::Answered(status) => status != FAULT,
        Served::ReadFailed => false,
        Served::WriteFailed => false,
    }
}

/// Processes a request in the office. Returns the response, none of which has been sent yet, and whether it is complete and not
/// a fault. If an allocation fails, the response is truncated.
fn response_to<S: Alter>(
    alloc: Global,
    asked: HttpRequest<'_>,
    office: &mut Office<S>,
) -> (Vec<u8>, bool)
    ensures answers { HasAnswered (state S.Store) office.old (http_request_entry asked.entry) result.0.items office.new }
    ensures read { result.1 ≡ true → WhenOpenAt (state S.Store) office.old office.new
        (λ s. (what : Resource) → http_request_entry asked.entry ≡ reading what → IsRead s what result.0.items) }
    ensures only { ChangesNothing (http_request_entry asked.entry) → WhenOpenAt (state S.Store) office.old office.new (λ s. IsReadAt s office.new.closed (state S.Store office.new.held)) }
{
    let mut writer = VecSink::new(alloc);
    let served = respond(alloc, asked, &mut writer, office);
    let is_cacheable = may_be_cached(served);
    (writer.into_bytes(), is_cacheable)
}

/// Returns the response to a read; none of it has been sent yet. If the response is cached, returns the cached one; otherwise
/// asks the office, and caches its response.
fn answer_reading<S: Alter, R: Recorder>(
    what: Resource,
    office: &mut Office<S>,
    kept: &mut ServerState<R>,
) -> PendingResponse
    ensures served { (its : HttpSettingsEntry) (number moment : ℕ) (got : List ℕ) → Asks its got (reading what)
        → ServesClient its (served_view (state S.Store) R.found R.failed) (served_office office.old (memory_entry kept.old))
        (record { listener = Listener.Clients; number = number; moment = moment; got = got; answer = result.bytes.items }) (served_office office.new (memory_entry kept.new)) }
    ensures limit { limit_entry kept.new.limit ≡ limit_entry kept.old.limit }
    ensures same { R.records kept.new.recorder ≡ R.records kept.old.recorder }
    ensures untold { result.sent ≡ 0 }
{
    if !office.is_closed() {
        if let Some(bytes) = kept.reads.get(kept.alloc, what) {
            return PendingResponse { bytes, sent: 0 };
        }
    }
    let (bytes, is_cacheable) = response_to(kept.alloc, HttpRequest::Resource(what), office);
    if !is_cacheable {
        return PendingResponse { bytes, sent: 0 };
    }
    kept.reads.keep(kept.alloc, what, bytes.as_slice());
    PendingResponse { bytes, sent: 0 }
}

/// Returns a response in memory; none of it has been sent yet. If an allocation fails, the response is truncated.
fn written(alloc: Global, response: &Response) -> PendingResponse
    ensures put { EndsIn result.bytes.items (λ old new served. IsPut old new response.now served) }
    ensures untold { result.sent ≡ 0 }
{
    let mut writer = VecSink::new(alloc);
    let _ = write_response(&mut writer, response);
    PendingResponse {
        bytes: writer.into_bytes(),
        sent: 0,
    }
}

/// Returns the office's response to a request; none of it has been sent yet, and it isn't cached.
fn answer_uncached<S: Alter>(
    alloc: Global,
    asked: HttpRequest<'_>,
    office: &mut Office<S>,
) -> PendingResponse
    ensures answers { HasAnswered (state S.Store) office.old (http_request_entry asked.entry) result.bytes.items office.new }
    ensures only { ChangesNothing (http_request_entry asked.entry) → WhenOpenAt (state S.Store) office.old office.new (λ s. IsReadAt s office.new.closed (state S.Store office.new.held)) }
    ensures untold { result.sent ≡ 0 }
{
    let (bytes, _) = response_to(alloc, asked, office);
    PendingResponse { bytes, sent: 0 }
}

/// Returns the response to a client that needn't wait, given the bytes received from it; none of the response has been sent yet.
/// The cache is emptied before a keying or an order, and if an allocation for the request fails.
///
/// A keying that the office accepts is recorded. If recording it fails, it remains in effect, but the response says that it wasn't
/// recorded (112). If the record has already failed, the response says so too, and the office isn't asked.
fn answer_request<A: ServedFile, S: Alter, R: Recorder>(
    server_settings: ServerSettings<'_, A>,
    parsed: Parsed,
    got: &[u8],
    office: &mut Office<S>,
    kept: &mut ServerState<R>,
) -> PendingResponse
    requires { IsParsed (settings_entry server_settings.http) got.now parsed }
    ensures served { (number moment : ℕ) → ServesAsked (settings_by A.whole (R.records kept.old.recorder) server_settings.entry)
        (served_view (state S.Store) R.found R.failed) (served_office office.old (memory_entry kept.old))
        (record { listener = Listener.Clients; number = number; moment = moment; got = got.now; answer = result.bytes.items }) (served_office office.new (memory_entry kept.new)) }
    ensures limit { limit_entry kept.new.limit ≡ limit_entry kept.old.limit }
    ensures same { R.records kept.new.recorder ≡ R.records kept.old.recorder }
    ensures untold { result.sent ≡ 0 }
{
    let Ok(asked) = parsed.asked(kept.alloc, server_settings.http, got) else {
        kept.reads.empty();
        return no_memory_response(kept.alloc);
    };
    match asked {
        HttpRequest::Resource(what) => answer_reading(what, office, kept),
        HttpRequest::Keying(keying) => {
            kept.reads.empty();
            if kept.recorder.has_failed() {
                return unrecorded_response(kept.alloc);
            }
            let HandledKeying { response, accepted } = handle_keying(kept.alloc, office, keying);
            match accepted {
                None => written(kept.alloc, &response),
                Some(request) => match kept.recorder.record(&request) {
                    Ok(()) => written(kept.alloc, &response),
                    Err(Broken) => unrecorded_response(kept.alloc),
                },
            }
        }
        HttpRequest::Order(order) => {
            kept.reads.empty();
            let recorder = &mut kept.recorder;
            let response = answer_console(kept.alloc, server_settings, &order, office, recorder);
            written(kept.alloc, &response)
        }
        // a page, or a rejection: the office stays as it is
        other => answer_uncached(kept.alloc, other, office),
    }
}

/// Returns the response to a client that must wait; none of it has been sent yet.
fn wait_response(alloc: Global) -> PendingResponse
    ensures told { (exchange : Exchange) → exchange.answer ≡ result.bytes.items → IsWaitResponse exchange }
    ensures untold { result.sent ≡ 0 }
{
    let mut writer = VecSink::new(alloc);
    let _ = write_wait_response(&mut writer);
    PendingResponse {
        bytes: writer.into_bytes(),
        sent: 0,
    }
}

/// Returns the response when the file of the office is gone or replaced; none of it has been sent yet.
fn gone_response(alloc: Global) -> PendingResponse
    ensures told { (exchange : Exchange) → exchange.answer ≡ result.bytes.items → IsGoneResponse exchange }
    ensures untold { result.sent ≡ 0 }
{
    let mut writer = VecSink::new(alloc);
    let _ = write_gone_response(&mut writer);
    PendingResponse {
        bytes: writer.into_bytes(),
        sent: 0,
    }
}

/// Returns the response when a keying wasn't recorded a second time; none of it has been sent yet.
fn unrecorded_response(alloc: Global) -> PendingResponse
    ensures told { (exchange : Exchange) → exchange.answer ≡ result.bytes.items → IsUnrecordedResponse exchange }
    ensures untold { result.sent ≡ 0 }
{
    let mut writer = VecSink::new(alloc);
    let _ = write_unrecorded_response(&mut writer);
    PendingResponse {
        bytes: writer.into_bytes(),
        sent: 0,
    }
}

/// Returns the response when an allocation for a request failed; none of it has been sent yet.
fn no_memory_response(alloc: Global) -> PendingResponse
    ensures told { EndsIn result.bytes.items (IsServed (IsWritten (fault_response 101))) }
    ensures untold { result.sent ≡ 0 }
{
    let mut writer = VecSink::new(alloc);
    let _ = write_no_memory_response(&mut writer);
    PendingResponse {
        bytes: writer.into_bytes(),
        sent: 0,
    }
}

/// Returns whether the file of the office is gone or replaced and the request isn't a read of an open office.
fn is_without_file<A: ServedFile>(served_file: &A, parsed: Parsed, is_closed: bool) -> bool
    ensures unknown { result ≡ true → A.whole served_file.now ≡ Some true → ⊥ }
    ensures reads_none { result ≡ true → is_closed ≡ false → (its : HttpSettingsEntry) (got : List ℕ) → IsParsed its got parsed → (what : Resource) → Asks its got (reading what) → ⊥ }
{
    if is_closed {
        return !served_file.is_whole();
    }
    match parsed.reading() {
        Some(_) => false,
        None => !served_file.is_whole(),
    }
}

/// A client's request, ready to be processed: its parsed head, its bytes, and the clock's current time.
#[derive(Clone, Copy)]
struct ReceivedRequest<'a> {
    parsed: Parsed,
    got: &'a [u8],
    moment: u64,
}

/// Returns the response to a client; none of it has been sent yet. If the client's code is wrong and the rate limit is reached,
/// the response says that the client must wait. If the file of the office is gone or replaced, the response says so, unless the
/// request is a read of an open office. In both cases nothing else is done. Otherwise the request is processed and, if its code
/// is wrong, the code is counted.
fn answer_client<A: ServedFile, S: Alter, R: Recorder>(
    server_settings: ServerSettings<'_, A>,
    due: ReceivedRequest<'_>,
    office: &mut Office<S>,
    kept: &mut ServerState<R>,
) -> PendingResponse
    requires { IsParsed (settings_entry server_settings.http) due.got.now due.parsed }
    ensures meets { (number : ℕ) → RespondsToClient (settings_by A.whole (R.records kept.old.recorder) server_settings.entry)
        (served_view (state S.Store) R.found R.failed) (served_office office.old (memory_entry kept.old))
        (record { listener = Listener.Clients; number = number; moment = due.entry.moment; got = due.entry.got.now; answer = result.bytes.items }) (served_office office.new (memory_entry kept.new)) }
    ensures same { R.records kept.new.recorder ≡ R.records kept.old.recorder }
    ensures untold { result.sent ≡ 0 }
{
    let ReceivedRequest {
        parsed,
        got,
        moment,
    } = due;
    let authentication = parsed.authentication();
    if kept.must_wait(authentication, moment) {
        return wait_response(kept.alloc);
    }
    if is_without_file(server_settings.served_file, parsed, office.is_closed()) {
        return gone_response(kept.alloc);
    }
    let answer = answer_request(server_settings, parsed, got, office, kept);
    kept.count_if_wrong(authentication, moment);
    answer
}

/// Reads and discards the rest of a client's request, once the whole response has been sent.
fn drop_rest<L: Stream>(client: &mut Client<L>) -> Serviced
    requires { IsSentWhole client.old }
    ensures is { (start : L) → IsOf (stream_of L.held L.taken L.failed) start client.old → IsOf (stream_of L.held L.taken L.failed) start client.new }
    ensures same { IsSameClient client.old client.new × (client.new.answer ≡ client.old.answer) }
    ensures waits { (result ≡ Serviced.Waits) ⊎ (result ≡ Serviced.Leaves CloseReason.Done) }
{
    match client.drop_unread() {
        Ok(false) => Serviced::Waits,
        // The whole response has been sent, even if the stream fails now.
        Ok(true) | Err(Broken) => Serviced::Leaves(CloseReason::Done),
    }
}

/// Sends more of the response, if there is one.
fn send_more<L: Stream>(client: &mut Client<L>) -> Serviced
    ensures is { (start : L) → IsOf (stream_of L.held L.taken L.failed) start client.old → IsOf (stream_of L.held L.taken L.failed) start client.new }
    ensures same { IsSameClient client.old client.new }
    ensures belongs { answer_of client.new ≡ answer_of client.old }
    ensures leaves { (why : CloseReason) → result ≡ Serviced.Leaves why → EndsFor (stream_of L.held L.taken L.failed) why client.new }
    ensures apart { result ≢ Serviced.Served }
{
    let Some(answer) = &mut client.answer else {
        return Serviced::Waits;
    };
    match deliver(&mut client.stream, answer) {
        Ok(true) => drop_rest(client),
        Ok(false) => Serviced::Waits,
        Err(Broken) => Serviced::Leaves(CloseReason::Broken),
    }
}

/// Stores a client's response, and sends as much of it as the client accepts now.
fn begin_answer<L: Stream>(
    alloc: Global,
    client: Client<L>,
    answer: PendingResponse,
    unread: usize,
) -> (Client<L>, Serviced)
    requires { IsSent (stream_of L.held L.taken L.failed) client.stream answer.bytes.items answer.sent }
    ensures is { (start : L) → IsOf (stream_of L.held L.taken L.failed) start result.0 }
    ensures same { IsSameClient client result.0 }
    ensures belongs { answer_of result.0 ≡ Some answer.bytes.items }
    ensures leaves { (why : CloseReason) → result.1 ≡ Serviced.Leaves why → EndsFor (stream_of L.held L.taken L.failed) why result.0 }
    ensures apart { result.1 ≢ Serviced.Waits }
{
    let mut client = client;
    client.got = Vec::new(alloc);
    client.answer = Some(answer);
    client.unread_body_bytes = unread;
    match send_more(&mut client) {
        Serviced::Waits => (client, Serviced::Served),
        Serviced::Served => (client, Serviced::Served),
        Serviced::Leaves(why) => (client, Serviced::Leaves(why)),
    }
}

/// Services an order that has no response yet: receives its message and, once the message is complete, processes it.
fn service_order<L: Stream, A: ServedFile, S: Alter, R: Recorder>(
    server_settings: ServerSettings<'_, A>,
    now: u64,
    client: Client<L>,
    office: &mut Office<S>,
    kept: &mut ServerState<R>,
) -> (Client<L>, Serviced)
    requires listener { client.listener ≡ Listener.Orders }
    requires fresh { HasTaken (L.taken client.stream) [] }
    requires unanswered { client.answer ≡ None }
    ensures is { (start : L) → IsOf (stream_of L.held L.taken L.failed) start client → IsOf (stream_of L.held L.taken L.failed) start result.0 }
    ensures same { IsSameClient client result.0 }
    ensures turn { Services (settings_by A.whole (R.records kept.old.recorder) server_settings.entry) (stream_of L.held L.taken L.failed)
        (served_view (state S.Store) R.found R.failed) now result.1 client result.0
        (served_office office.old (memory_entry kept.old)) (served_office office.new (memory_entry kept.new)) }
    ensures records_same { R.records kept.new.recorder ≡ R.records kept.old.recorder }
    ensures leaves { (why : CloseReason) → result.1 ≡ Serviced.Leaves why → EndsFor (stream_of L.held L.taken L.failed) why result.0 }
{
    let mut client = client;
    match receive_message(&mut client) {
        Ok(true) => {
            kept.reads.empty();
            let Client {
                listener,
                stream,
                number,
                since,
                got,
                ..
            } = client;
            let (stream, answer) = answer_order(
                kept.alloc,
                server_settings,
                got.as_slice(),
                stream,
                office,
                &mut kept.recorder,
            );
            let client = Client {
                listener,
                stream,
                number,
                since,
                got,
                answer: None,
                unread_body_bytes: 0,
            };
            begin_answer(kept.alloc, client, answer, 0)
        }
        Ok(false) => (client, Serviced::Waits),
        Err(why) => (client, Serviced::Leaves(why)),
    }
}

/// Services a connection at a given time, in milliseconds of a clock, as far as possible without blocking: receives more of its
/// request, processes the request once it is complete, and sends more of its response. Returns the connection and the outcome.
///
/// The bytes received are the connection's own, from the first one on, and the response answers exactly those bytes. No other
/// connection is affected.
pub fn service<L: Stream, A: ServedFile, S: Alter, R: Recorder>(
    server_settings: ServerSettings<'_, A>,
    now: u64,
    client: Client<L>,
    office: &mut Office<S>,
    kept: &mut ServerState<R>,
) -> (Client<L>, Serviced)
    requires untold { HasSentNothing (stream_of L.held L.taken L.failed) client }
    ensures is { (start : L) → IsOf (stream_of L.held L.taken L.failed) start client → IsOf (stream_of L.held L.taken L.failed) start result.0 }
    ensures same { IsSameClient client result.0 }
    ensures turn { Services (settings_by A.whole (R.records kept.old.recorder) server_settings.entry) (stream_of L.held L.taken L.failed)
        (served_view (state S.Store) R.found R.failed) now result.1 client result.0
        (served_office office.old (memory_entry kept.old)) (served_office office.new (memory_entry kept.new)) }
    ensures records_same { R.records kept.new.recorder ≡ R.records kept.old.recorder }
    ensures leaves { (why : CloseReason) → result.1 ≡ Serviced.Leaves why → EndsFor (stream_of L.held L.taken L.failed) why result.0 }
{
    let mut client = client;
    if client.answer.is_some() {
        let told = send_more(&mut client);
        return (client, told);
    }
    let Listener::Clients = client.listener else {
        return service_order(server_settings, now, client, office, kept);
    };
    match receive_request(&mut client, server_settings.http, &kept.routes) {
        Ok(Some(parsed)) => {
            let got = client.got.as_slice();
            let unread = parsed.body_to_come(got.len());
            let due = ReceivedRequest {
                parsed,
                got,
                moment: now,
            };
            let answer = answer_client(server_settings, due, office, kept);
            begin_answer(kept.alloc, client, answer, unread)
        }
        Ok(None) => (client, Serviced::Waits),
        Err(why) => (client, Serviced::Leaves(why)),
    }
}

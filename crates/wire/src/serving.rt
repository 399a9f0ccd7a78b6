//! One connection: a request is read and processed in the office, and the response is written.

ghost use Rattle.std.specs.Prelude.{◌≡◌, ◌≢◌, ◌+◌, ◌-◌, ◌^◌, ◌<◌, false, true};
ghost use Rattle.sqlite.specs.State.{HasCleanDisk};
ghost use Rattle.sqlite.specs.Held.{state};
ghost use Rattle.register.specs.Offices.{OfficeState};
ghost use Rattle.store.specs.StateTables.{IsAt};
ghost use Rattle.wire.specs.Requests.{HasRead, IsIncomplete, http_request_entry};
ghost use Rattle.wire.specs.Gates.{settings_entry};
ghost use Rattle.wire.specs.Responses.{fault_response, waits_response};
ghost use Rattle.wire.specs.Told.{IsTold, IsWritten};
ghost use Rattle.wire.specs.Serving.{IsPut, IsServed, OnAnswered, OnReadFailed, OnWriteFailed, Readies, Serves, ServesClosed, closed_response};

use crate::answering::answer;
use crate::read_failure::ReadFailure;
use crate::request::{HttpRequest, read_request};
use crate::response::Response;
use crate::settings::HttpSettings;
use office::Office;
use sqlite::Alter;
use std::alloc::Global;
use streams::{Sink, Source, put_all};

/// How serving a connection ended.
#[derive(Clone, Copy, Debug, PartialEq, Eq)]
pub enum Served {
    /// A complete response with this status was written.
    Answered(u16),
    /// The reader failed: nothing was written, and the office wasn't asked.
    ReadFailed,
    /// The writer failed: only a prefix of the response was written.
    WriteFailed,
}

/// Writes a response.
///
/// Returns `WriteFailed` only if the writer failed; the writer's failure count is then one higher, and a prefix of the response
/// was written.
pub fn write_response<W: Sink>(writer: &mut W, response: &Response) -> Served
    requires { W.failed writer.old < 2 ^ 64 - 1 }
    ensures puts { IsPut (W.taken writer.old) (W.taken writer.new) response.now result }
    ensures answered { OnAnswered result (W.failed writer.new ≡ W.failed writer.old) }
    ensures failed { OnWriteFailed result (W.failed writer.new ≡ W.failed writer.old + 1) }
{
    match put_all(writer, response.bytes.as_slice()) {
        Ok(()) => Served::Answered(response.status),
        Err(_) => Served::WriteFailed,
    }
}

/// Writes the response that tells the client to wait because the limit on wrong codes is reached.
///
/// Returns `WriteFailed` only if the writer failed; the writer's failure count is then one higher, and a prefix of the response
/// was written.
pub fn write_wait_response<W: Sink>(writer: &mut W) -> Served
    requires { W.failed writer.old < 2 ^ 64 - 1 }
    ensures told { IsServed (IsWritten waits_response) (W.taken writer.old) (W.taken writer.new) result }
    ensures answered { OnAnswered result (W.failed writer.new ≡ W.failed writer.old) }
    ensures write_failed { OnWriteFailed result (W.failed writer.new ≡ W.failed writer.old + 1) }
{
    write_response(writer, &Response::waits())
}

/// Writes the response saying that the file of the office is gone or replaced (113).
///
/// Returns `WriteFailed` only if the writer failed; the writer's failure count is then one higher, and a prefix of the response
/// was written.
pub fn write_gone_response<W: Sink>(writer: &mut W) -> Served
    requires { W.failed writer.old < 2 ^ 64 - 1 }
    ensures told { IsServed (IsWritten (fault_response 113)) (W.taken writer.old) (W.taken writer.new) result }
    ensures answered { OnAnswered result (W.failed writer.new ≡ W.failed writer.old) }
    ensures write_failed { OnWriteFailed result (W.failed writer.new ≡ W.failed writer.old + 1) }
{
    write_response(writer, &Response::gone())
}

/// Writes the response saying that the request wasn't recorded a second time (112).
///
/// Returns `WriteFailed` only if the writer failed; the writer's failure count is then one higher, and a prefix of the response
/// was written.
pub fn write_unrecorded_response<W: Sink>(writer: &mut W) -> Served
    requires { W.failed writer.old < 2 ^ 64 - 1 }
    ensures told { IsServed (IsWritten (fault_response 112)) (W.taken writer.old) (W.taken writer.new) result }
    ensures answered { OnAnswered result (W.failed writer.new ≡ W.failed writer.old) }
    ensures write_failed { OnWriteFailed result (W.failed writer.new ≡ W.failed writer.old + 1) }
{
    write_response(writer, &Response::unrecorded())
}

/// Writes the response saying that an allocation failed (101).
///
/// Returns `WriteFailed` only if the writer failed; the writer's failure count is then one higher, and a prefix of the response
/// was written.
pub fn write_no_memory_response<W: Sink>(writer: &mut W) -> Served
    requires { W.failed writer.old < 2 ^ 64 - 1 }
    ensures told { IsServed (IsWritten (fault_response 101)) (W.taken writer.old) (W.taken writer.new) result }
    ensures answered { OnAnswered result (W.failed writer.new ≡ W.failed writer.old) }
    ensures write_failed { OnWriteFailed result (W.failed writer.new ≡ W.failed writer.old + 1) }
{
    write_response(writer, &Response::no_memory())
}

/// Processes a request in the office and writes the response.
///
/// Returns `WriteFailed` only if the writer failed; the writer's failure count is then one higher, a prefix of the response was
/// written, and the office's answer remains valid. A closed office stays as it is.
pub fn respond<W: Sink, S: Alter>(
    alloc: Global,
    asked: HttpRequest<'_>,
    writer: &mut W,
    office: &mut Office<S>,
) -> Served
    requires { W.failed writer.old < 2 ^ 64 - 1 }
    ensures served { HasCleanDisk (state S.Store office.new.held) → office.old.closed ≡ false → (s : OfficeState) → IsAt s (state S.Store office.old.held)
        → IsServed (λ response. Readies s (http_request_entry asked.entry) response office.new.closed (state S.Store office.new.held)) (W.taken writer.old) (W.taken writer.new) result }
    ensures put { result ≢ Served.ReadFailed }
    ensures answered { OnAnswered result (W.failed writer.new ≡ W.failed writer.old) }
    ensures write_failed { OnWriteFailed result (W.failed writer.new ≡ W.failed writer.old + 1) }
    ensures closed { office.old.closed ≡ true → office.new ≡ office.old }
    ensures closed_served { office.old.closed ≡ true → IsServed (IsTold (closed_response (http_request_entry asked.entry))) (W.taken writer.old) (W.taken writer.new) result }
    ensures clean { HasCleanDisk (state S.Store office.new.held) → HasCleanDisk (state S.Store office.old.held) }
{
    let response = answer(alloc, office, asked);
    write_response(writer, &response)
}

/// Serves one connection: reads a request, processes it in the office, and writes the response.
///
/// `Answered`: the response to the request in the reader's bytes was written completely, the office is in the state after the
/// request, and neither the reader nor the writer failed. After a fault of the office, the response is that fault (503). The
/// office is then as it was; or it is closed, and a stop leaves the state before the request or, if the request was accepted,
/// the state after it. The response is 101 (503) if an allocation failed. If that was for the request, it wasn't sent to the
/// office; if it was for the response, the office is in the state after the request. If it was in the office, it is a fault
/// like any other.
///
/// Returns `ReadFailed` only if the reader failed while the bytes read so far didn't determine what is requested; the reader's
/// failure count is then one higher. There is no response to a failed read: nothing was written, and the office is as it was.
/// Returns `WriteFailed` only if the writer failed; its failure count is then one higher, and the reader's is unchanged. A
/// prefix of the response was written, the write isn't repeated, and the office's answer remains valid. A closed office
/// responds to everything it is asked with the fault for a closed office, 104 (503), and stays as it is. The response to a
/// rejected request, such as one from a page on another site, is the same in every state, and so is a page that is shown.
pub fn serve_one<R: Source, W: Sink, S: Alter>(
    alloc: Global,
    settings: HttpSettings<'_>,
    reader: &mut R,
    writer: &mut W,
    office: &mut Office<S>,
) -> Served
    requires reads { R.failed reader.old < 2 ^ 64 - 1 }
    requires writes { W.failed writer.old < 2 ^ 64 - 1 }
    ensures served { HasCleanDisk (state S.Store office.new.held) → office.old.closed ≡ false → (s : OfficeState) → IsAt s (state S.Store office.old.held)
        → Serves (settings_entry settings.entry) (R.held reader.old) (W.taken writer.old) (W.taken writer.new) s result office.new.closed (state S.Store office.new.held) }
    ensures read_failed { OnReadFailed result ((R.failed reader.new ≡ R.failed reader.old + 1) × (writer.new ≡ writer.old) × (office.new ≡ office.old)) }
    ensures wanting { OnReadFailed result (HasRead (R.held reader.old) (R.held reader.new) (IsIncomplete (settings_entry settings.entry))) }
    ensures answered { OnAnswered result ((R.failed reader.new ≡ R.failed reader.old) × (W.failed writer.new ≡ W.failed writer.old)) }
    ensures write_failed { OnWriteFailed result ((R.failed reader.new ≡ R.failed reader.old) × (W.failed writer.new ≡ W.failed writer.old + 1)) }
    ensures closed { office.old.closed ≡ true → office.new ≡ office.old }
    ensures closed_served { office.old.closed ≡ true → ServesClosed (settings_entry settings.entry) (R.held reader.old) (W.taken writer.old) (W.taken writer.new) result }
    ensures clean { HasCleanDisk (state S.Store office.new.held) → HasCleanDisk (state S.Store office.old.held) }
{
    match read_request(alloc, settings, reader) {
        Ok(asked) => respond(alloc, asked, writer, office),
        Err(ReadFailure::Memory) => write_no_memory_response(writer),
        Err(ReadFailure::Broken) => Served::ReadFailed,
    }
}

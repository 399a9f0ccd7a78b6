//! An open connection, from a client or for an order.

ghost use Rattle.std.specs.Prelude.{◌≡◌, ℕ, ◌<◌, ◌≤◌, ◌+◌, ◌⊎◌, [], IsSome, None, Ok, true, false, length, max, vec_capacity, vec_len};
ghost use Rattle.std.specs.Io.KnownBytes.{IsAtEnd};
ghost use Rattle.connections.specs.Streams.{Delivers, Receives, HasTaken, failed_after, stream_of};
ghost use Rattle.connections.specs.Removals.{removed_of};
ghost use Rattle.connections.specs.Clients.{IsCaused, IsNew, IsOf, IsSameButReceived, chunk, idle_after_put, idle_after_wait, idle_after_once};

use crate::removed::{CloseReason, Removed};
use crate::stream::{Received, Stream};
use std::alloc::{AllocError, Global};
use streams::Broken;

/// The number of bytes to read at once.
const CHUNK: usize = 16384;

/// The listener that accepted a connection, which determines what the connection sends.
#[derive(Clone, Copy)]
pub enum Listener {
    /// Clients, which send requests over HTTP.
    Clients,
    /// Orders, which the program sends to the server.
    Orders,
}

/// An accepted connection, with its listener and its stream.
#[derive(Drop)]
pub struct Accepted<L> {
    pub listener: Listener,
    pub stream: L,
}

/// A response, and how many of its bytes have been sent.
#[derive(Drop)]
pub struct PendingResponse {
    pub bytes: Vec<u8>,
    pub sent: usize,
}

/// An open connection: its listener, its stream, its number in the order of acceptance, and when its current time limit began,
/// in milliseconds. It keeps the bytes received, the response once there is one, and how many bytes of the request are still to
/// come after the response, which are read and discarded.
#[derive(Drop)]
pub struct Client<L> {
    pub listener: Listener,
    pub stream: L,
    pub number: u64,
    pub since: u64,
    pub got: Vec<u8>,
    pub answer: Option<PendingResponse>,
    pub unread_body_bytes: usize,
}

/// How far a request has been read.
#[derive(Clone, Copy)]
pub enum ReadProgress {
    /// The requested number of bytes has arrived.
    Enough,
    /// Fewer bytes have arrived, and more may come.
    Waits,
    /// The connection sends nothing more.
    Ended,
}

/// Why nothing more can be received: the stream or an allocation failed.
#[derive(Clone, Copy)]
pub enum ReceiveError {
    Stream,
    Memory,
}

impl From<Broken> for ReceiveError {
    ghost use Rattle.connections.specs.declared.client.ReceiveError.{ReceiveError};

    ghost from_gives = { λ _ lost. lost ≡ ReceiveError.Stream };

    fn from(_broken: Broken) -> ReceiveError {
        ReceiveError::Stream
    }
}

impl From<AllocError> for ReceiveError {
    ghost use Rattle.connections.specs.declared.client.ReceiveError.{ReceiveError};

    ghost from_gives = { λ _ lost. lost ≡ ReceiveError.Memory };

    fn from(_error: AllocError) -> ReceiveError {
        ReceiveError::Memory
    }
}

/// Appends the bytes that have arrived, with a single read. Reads nothing if the allocation fails.
fn receive_once<L: Stream>(stream: &mut L, got: &mut Vec<u8>) -> Result<Received, ReceiveError>
    ensures receives { Receives (stream_of L.held L.taken L.failed) stream.old stream.new got.old.items got.new.items }
    ensures more { result ≡ Ok Received.Nothing → got.new.items ≡ got.old.items }
    ensures bytes { (n : ℕ) → result ≡ Ok (Received.Bytes n) → length got.old.items < length got.new.items }
    ensures end { result ≡ Ok Received.End → IsAtEnd (L.held stream.new) }
    ensures few { length got.new.items ≤ length got.old.items + chunk }
    ensures cause { IsCaused result (L.failed stream.old) (L.failed stream.new) (vec_capacity got.new < vec_len got.new + chunk) }
    ensures idle { L.idle stream.new ≡ idle_after_once result (L.idle stream.old) }
{
    if got.reserve(CHUNK).is_err() {
        return Err(ReceiveError::Memory);
    }
    let mut room = [0; CHUNK];
    match stream.fetch(&mut room) {
        Ok(Received::Bytes(count)) => match got.extend_from_slice(&room[..count]) {
            Ok(()) => Ok(Received::Bytes(count)),
            Err(_) => unreachable!(),
        },
        Ok(Received::Nothing) => Ok(Received::Nothing),
        Ok(Received::End) => Ok(Received::End),
        Err(Broken) => Err(ReceiveError::Stream),
    }
}

/// Receives the bytes that have arrived, until there are `wanted` bytes in total or no more have arrived. Receives fewer than
/// `CHUNK` bytes beyond that, so that a client that keeps sending doesn't delay the others.
fn receive_up_to<L: Stream>(
    stream: &mut L,
    got: &mut Vec<u8>,
    wanted: usize,
) -> Result<ReadProgress, ReceiveError>
    ensures receives { Receives (stream_of L.held L.taken L.failed) stream.old stream.new got.old.items got.new.items }
    ensures enough { result ≡ Ok ReadProgress.Enough → wanted ≤ length got.new.items }
    ensures waits { result ≡ Ok ReadProgress.Waits → length got.new.items < wanted }
    ensures ended { result ≡ Ok ReadProgress.Ended → IsAtEnd (L.held stream.new) }
    ensures few { length got.new.items < max (length got.old.items + 1) (wanted + chunk) }
    ensures cause { IsCaused result (L.failed stream.old) (L.failed stream.new) (vec_capacity got.new < vec_len got.new + chunk) }
    ensures idle { L.idle stream.new ≡ idle_after_wait result (L.idle stream.old) }
{
    while got.len() < wanted {
        match receive_once(stream, got)? {
            Received::Bytes(_) => {}
            Received::Nothing => return Ok(ReadProgress::Waits),
            Received::End => return Ok(ReadProgress::Ended),
        }
    }
    Ok(ReadProgress::Enough)
}

/// Sends the rest of a response, until all of it has been sent or the stream accepts no more for now. Returns whether all of it
/// has been sent.
pub fn deliver<L: Stream>(stream: &mut L, answer: &mut PendingResponse) -> Result<bool, Broken>
    ensures delivers { Delivers (stream_of L.held L.taken L.failed) stream.old stream.new answer.old.bytes.items answer.old.sent answer.new.sent }
    ensures same { answer.new.bytes.items ≡ answer.old.bytes.items }
    ensures all { result ≡ Ok true → length answer.new.bytes.items ≤ answer.new.sent }
    ensures some { result ≡ Ok false → answer.new.sent < length answer.new.bytes.items }
    ensures failed { L.failed stream.new ≡ failed_after result (L.failed stream.old) }
    ensures idle { L.idle stream.new ≡ idle_after_put result (L.idle stream.old) }
{
    while answer.sent < answer.bytes.len() {
        match stream.put(&answer.bytes[answer.sent..])? {
            0 => return Ok(false),
            count => answer.sent += count,
        }
    }
    Ok(true)
}

/// Reads and discards up to `unread_body_bytes` bytes from a stream, as far as they have arrived, and decreases the count
/// accordingly. Returns whether there are none left to come.
fn drop_bytes<L: Stream>(stream: &mut L, unread_body_bytes: &mut usize) -> Result<bool, Broken>
    ensures untold { L.taken stream.new ≡ L.taken stream.old }
    ensures less { unread_body_bytes.new ≤ unread_body_bytes.old }
    ensures all { result ≡ Ok true → (unread_body_bytes.new ≡ 0) ⊎ IsAtEnd (L.held stream.new) }
    ensures failed { L.failed stream.new ≡ failed_after result (L.failed stream.old) }
    ensures idle { L.idle stream.new ≡ idle_after_put result (L.idle stream.old) }
{
    let mut room = [0; CHUNK];
    while *unread_body_bytes > 0 {
        match stream.fetch(&mut room)? {
            Received::Bytes(count) => *unread_body_bytes = unread_body_bytes.saturating_sub(count),
            Received::Nothing => return Ok(false),
            Received::End => return Ok(true),
        }
    }
    Ok(true)
}

impl<L: Stream> Client<L> {
    /// Returns a connection that has just been accepted; nothing has been read from it yet.
    pub fn new(alloc: Global, accepted: Accepted<L>, number: u64, since: u64) -> Client<L>
        requires { HasTaken (L.taken accepted.stream) [] }
        ensures new { IsNew accepted number since result }
        ensures is { IsOf (stream_of L.held L.taken L.failed) accepted.stream result }
    {
        let Accepted { listener, stream } = accepted;
        Client {
            listener,
            stream,
            number,
            since,
            got: Vec::new(alloc),
            answer: None,
            unread_body_bytes: 0,
        }
    }

    /// Converts the connection to a removed one, with the given reason.
    pub fn into_removed(self, why: CloseReason) -> Removed<L>
    where
        L: Drop,
        ensures { result ≡ removed_of self why }
    {
        let Client { stream, number, .. } = self;
        Removed {
            number,
            stream,
            why,
        }
    }

    /// Receives more from a connection that has no response yet, until there are `wanted` bytes in total or no more have
    /// arrived. Receives fewer than 16,384 bytes beyond that.
    pub fn receive(&mut self, wanted: usize) -> Result<ReadProgress, ReceiveError>
        requires { self.old.answer ≡ None }
        ensures receives { Receives (stream_of L.held L.taken L.failed) self.old.stream self.new.stream self.old.got.items self.new.got.items }
        ensures is { (start : L) → IsOf (stream_of L.held L.taken L.failed) start self.old → IsOf (stream_of L.held L.taken L.failed) start self.new }
        ensures same { IsSameButReceived self.old self.new × (self.new.answer ≡ None) }
        ensures enough { result ≡ Ok ReadProgress.Enough → wanted ≤ length self.new.got.items }
        ensures waits { result ≡ Ok ReadProgress.Waits → length self.new.got.items < wanted }
        ensures ended { result ≡ Ok ReadProgress.Ended → IsAtEnd (L.held self.new.stream) }
        ensures few { length self.new.got.items < max (length self.old.got.items + 1) (wanted + chunk) }
        ensures cause { IsCaused result (L.failed self.old.stream) (L.failed self.new.stream) (vec_capacity self.new.got < vec_len self.new.got + chunk) }
        ensures idle { L.idle self.new.stream ≡ idle_after_wait result (L.idle self.old.stream) }
    {
        receive_up_to(&mut self.stream, &mut self.got, wanted)
    }

    /// Reads and discards the rest of the request, as far as it has arrived, on a connection that has its response. Returns
    /// whether nothing more will come.
    pub fn drop_unread(&mut self) -> Result<bool, Broken>
        requires { IsSome self.old.answer }
        ensures is { (start : L) → IsOf (stream_of L.held L.taken L.failed) start self.old → IsOf (stream_of L.held L.taken L.failed) start self.new }
        ensures same { IsSameButReceived self.old self.new × (self.new.answer ≡ self.old.answer) × (self.new.got ≡ self.old.got) }
        ensures less { self.new.unread_body_bytes ≤ self.old.unread_body_bytes }
        ensures all { result ≡ Ok true → (self.new.unread_body_bytes ≡ 0) ⊎ IsAtEnd (L.held self.new.stream) }
        ensures failed { L.failed self.new.stream ≡ failed_after result (L.failed self.old.stream) }
        ensures idle { L.idle self.new.stream ≡ idle_after_put result (L.idle self.old.stream) }
    {
        drop_bytes(&mut self.stream, &mut self.unread_body_bytes)
    }
}

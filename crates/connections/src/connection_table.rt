//! The table of open connections.

ghost use Rattle.std.specs.Prelude.{◌≡◌, ◌<◌, ◌≤◌, ◌+◌, ◌-◌, ◌^◌, [], ◌∷◌, ◌++◌, IfNone, IfOk, IfSome, OnErr, insert, length, min, remove, slice_index_or, vec_capacity};
ghost use Rattle.connections.specs.Streams.{HasTaken, stream_of};
ghost use Rattle.connections.specs.Clients.{IsNew, IsOf};
ghost use Rattle.connections.specs.Tables.{AreUnseen, HasWaitedLongest, answer_bytes, bytes_held, count_at, earlier, is_among, most_clients, place_in};
ghost use Rattle.connections.specs.declared.client.Client.{Client};

use crate::client::{Accepted, Client, Listener, PendingResponse};
use crate::stream::Stream;
use std::alloc::{AllocError, Global};

/// The maximum number of open connections.
pub const MAX_CLIENTS: usize = 512;

/// The maximum number of bytes that all open connections together hold in memory.
pub const MAX_BUFFERED_BYTES: usize = 64 << 20;

/// Returns the length of a response, or 0 if there is none.
fn answer_len(answer: &Option<PendingResponse>) -> usize
    ensures { result ≡ answer_bytes answer.now }
{
    match answer {
        Some(answer) => answer.bytes.len(),
        None => 0,
    }
}

/// Returns the number of bytes that the given connections hold in memory, or the type's maximum if there are more.
pub fn bytes_held<L>(clients: &[Client<L>]) -> usize
    ensures { result ≡ min (bytes_held clients.now) (2 ^ 64 - 1) }
{
    let mut held = 0usize;
    for client in clients {
        held = held.saturating_add(client.got.len());
        held = held.saturating_add(answer_len(&client.answer));
    }
    held
}

/// Returns whether a rule applies to connections from the given listener: clients always count, orders only if they are included.
fn is_among(orders_too: bool, listener: Listener) -> bool
    ensures { result ≡ is_among orders_too listener }
{
    match listener {
        Listener::Clients => true,
        Listener::Orders => orders_too,
    }
}

/// Returns the earlier of two connections, each given by its place and the time at which its time limit began; or the first
/// one, if the second doesn't count.
fn earlier(
    found: Option<(usize, u64)>,
    is_among: bool,
    place: usize,
    since: u64,
) -> Option<(usize, u64)>
    ensures { result ≡ earlier found is_among place since }
{
    match found {
        found if !is_among => found,
        Some((_, first)) if first <= since => found,
        _ => Some((place, since)),
    }
}

/// Returns the place of the connection that has been waiting longest since its time limit began, among the clients and, if
/// included, the orders. Returns `None` if there is no such connection.
pub fn longest_waiting<L>(clients: &[Client<L>], orders_too: bool) -> Option<usize>
    ensures some { IfSome result (λ place. (place < length clients.now) × ((client : Client L) → HasWaitedLongest orders_too clients.now (slice_index_or clients.now place client))) }
    ensures none { IfNone result (AreUnseen orders_too clients.now) }
{
    let mut found = None;
    for (place, client) in clients.iter().enumerate() {
        found = earlier(
            found,
            is_among(orders_too, client.listener),
            place,
            client.since,
        );
    }
    match found {
        Some((place, _)) => Some(place),
        None => None,
    }
}

/// Returns the place of the connection with the given number; `None` if the table doesn't contain it.
pub fn place_of_number<L>(clients: &[Client<L>], number: u64) -> Option<usize>
    ensures place { result ≡ place_in clients.now number }
    ensures within { IfSome result (λ place. place < length clients.now) }
    ensures his { IfSome result (λ place. (client : Client L) → (slice_index_or clients.now place client).number ≡ number) }
{
    clients.iter().position(|client| client.number == number)
}

/// Returns the number of clients that a connection from the given listener counts as.
fn count_at(listener: Listener) -> u64
    ensures { result ≡ count_at listener }
{
    match listener {
        Listener::Clients => 1,
        Listener::Orders => 0,
    }
}

/// The open connections in order of acceptance, the number of connections ever accepted, and how many of those were clients.
/// The table has capacity for the maximum number of open connections.
#[derive(Drop)]
pub struct ConnectionTable<L> {
    pub clients: Vec<Client<L>>,
    pub came: u64,
    pub counted: u64,
    pub ghost places: { most_clients ≤ vec_capacity clients },
}

impl<L: Stream> ConnectionTable<L> {
    /// Returns an empty table. The only error is a failed allocation.
    pub fn new(alloc: Global) -> Result<ConnectionTable<L>, AllocError>
        ensures { IfOk result (λ table. (table.clients.items ≡ []) × (table.came ≡ 0) × (table.counted ≡ 0)) }
    {
        let clients = Vec::with_capacity(alloc, MAX_CLIENTS)?;
        Ok(ConnectionTable {
            clients,
            came: 0,
            counted: 0,
        })
    }

    /// Adds an accepted connection, with the next number.
    pub fn add(&mut self, alloc: Global, accepted: Accepted<L>, now: u64)
        requires came { self.old.came < 2 ^ 64 - 1 }
        requires counted { self.old.counted + count_at accepted.listener < 2 ^ 64 }
        requires fresh { HasTaken (L.taken accepted.stream) [] }
        requires place { length self.old.clients.items < most_clients }
        ensures came { self.new.came ≡ self.old.came + 1 }
        ensures counted { self.new.counted ≡ self.old.counted + count_at accepted.listener }
        ensures entered { (client : Client L) × (self.new.clients.items ≡ self.old.clients.items ++ client ∷ []) × IsNew accepted self.old.came now client
            × IsOf (stream_of L.held L.taken L.failed) accepted.stream client }
    {
        let counted = count_at(accepted.listener);
        let client = Client::new(alloc, accepted, self.came, now);
        self.came += 1;
        self.counted += counted;
        match self.clients.push(client) {
            Ok(()) => {}
            Err(_) => unreachable!(),
        }
    }

    /// Removes the connection at a place, and returns it.
    pub fn remove_at(&mut self, place: usize) -> Client<L>
        requires { place < length self.old.clients.items }
        ensures client { result ≡ slice_index_or self.old.clients.items place result }
        ensures clients { self.new.clients.items ≡ remove self.old.clients.items place }
        ensures came { self.new.came ≡ self.old.came }
        ensures counted { self.new.counted ≡ self.old.counted }
    {
        self.clients.remove(place)
    }

    /// Puts a connection back in the place that it was removed from.
    pub fn put_back_at(&mut self, place: usize, client: Client<L>)
        requires within { place ≤ length self.old.clients.items }
        requires place { length self.old.clients.items < most_clients }
        ensures clients { self.new.clients.items ≡ insert self.old.clients.items place client }
        ensures came { self.new.came ≡ self.old.came }
        ensures counted { self.new.counted ≡ self.old.counted }
    {
        match self.clients.insert(place, client) {
            Ok(()) => {}
            Err(_) => unreachable!(),
        }
    }
}

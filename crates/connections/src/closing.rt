//! Which connections are closed before they have their response: those that have timed out, those closed to make room for
//! another, and all of them at the end.

ghost use Rattle.std.specs.Prelude.{◌≡◌, ◌⊎◌, ◌≤◌, ◌<◌, ◌-◌, [], false, length, true};
ghost use Rattle.std.specs.List.{All};
ghost use Rattle.connections.specs.Tables.{bytes_held, is_among, most_bytes, most_clients};
ghost use Rattle.connections.specs.Closing.{AreClosedByRule, IsClosed, IsClosedAt, IsFull, IsClosedByRule, IsClosedForBytes, IsEvicted};
ghost use Rattle.connections.specs.Closing.{IsWithin, ClosesOne, byte_limit_rule, eviction_rule, grace, timeout_rule, timeout};

use crate::connection_table::{
    ConnectionTable, MAX_BUFFERED_BYTES, MAX_CLIENTS, bytes_held, longest_waiting,
};
use crate::network::Network;
use crate::removed::CloseReason;

/// How long a connection may take to send its request, and then again to accept its response, in milliseconds.
pub const TIMEOUT: u64 = 30_000;

/// How long a new connection is protected from being closed to make room, in milliseconds.
const GRACE: u64 = 1_000;

/// A rule for closing the connections that have been waiting longest: whether it also applies to orders; the minimum waiting
/// time and the current time, both in milliseconds; and the reason for closing.
#[derive(Clone, Copy)]
pub struct Rule {
    pub orders_too: bool,
    pub least: u64,
    pub now: u64,
    pub why: CloseReason,
}

/// Returns the rule for connections that have timed out: clients and orders.
fn timeout_rule(now: u64) -> Rule
    ensures { result ≡ timeout_rule now }
{
    Rule {
        orders_too: true,
        least: TIMEOUT,
        now,
        why: CloseReason::TimedOut,
    }
}

/// Returns the rule for making room: it closes only clients, and only those that have been waiting for at least a second.
fn eviction_rule(now: u64) -> Rule
    ensures { result ≡ eviction_rule now }
{
    Rule {
        orders_too: false,
        least: GRACE,
        now,
        why: CloseReason::Evicted,
    }
}

/// Returns the rule for too many bytes in memory: it closes clients, and optionally orders too.
fn byte_limit_rule(orders_too: bool) -> Rule
    ensures { result ≡ byte_limit_rule orders_too }
{
    Rule {
        orders_too,
        least: 0,
        now: 0,
        why: CloseReason::Evicted,
    }
}

/// Closes the connection at a place, for the given reason.
fn close_at<D: Network>(
    network: &mut D,
    table: &mut ConnectionTable<D::Stream>,
    place: usize,
    why: CloseReason,
)
    requires { place < length table.old.clients.items }
    ensures closed { IsClosedAt why place table.old.clients.items (D.known network.old) table.new.clients.items (D.known network.new) }
    ensures came { table.new.came ≡ table.old.came }
    ensures counted { table.new.counted ≡ table.old.counted }
{
    network.close(table.remove_at(place).into_removed(why));
}

/// Closes the connection that has been waiting longest among those that a rule applies to, if its waiting time reaches the
/// rule's minimum. Returns whether a connection was closed.
fn close_one<D: Network>(
    network: &mut D,
    table: &mut ConnectionTable<D::Stream>,
    rule: Rule,
) -> bool
    ensures go { ClosesOne (IsClosedByRule rule) result (D.known network.old) (D.known network.new) table.old table.new }
    ensures nobody { result ≡ false → All (λ client. is_among rule.orders_too client.listener ≡ true → rule.now - client.since < rule.least) table.old.clients.items }
{
    let Some(place) = longest_waiting(table.clients.as_slice(), rule.orders_too) else {
        return false;
    };
    if rule.now.saturating_sub(table.clients[place].since) < rule.least {
        return false;
    }
    close_at(network, table, place, rule.why);
    true
}

/// Closes the connections that have timed out.
pub fn close_timed_out<D: Network>(
    network: &mut D,
    table: &mut ConnectionTable<D::Stream>,
    now: u64,
)
    ensures go { AreClosedByRule (IsClosedByRule (timeout_rule now)) (D.known network.old) (D.known network.new) table.old table.new }
    ensures all { length table.old.clients.items ≤ most_clients → All (λ client. now - client.since < timeout) table.new.clients.items }
{
    for turn in 0..MAX_CLIENTS {
        if !close_one(network, table, timeout_rule(now)) {
            return;
        }
    }
}

/// Closes the client that has been waiting longest, or an order if there is no client. Returns whether a connection was closed.
fn close_one_for_bytes<D: Network>(network: &mut D, table: &mut ConnectionTable<D::Stream>) -> bool
    requires { most_bytes < bytes_held table.old.clients.items }
    ensures go { ClosesOne IsClosedForBytes result (D.known network.old) (D.known network.new) table.old table.new }
    ensures nobody { result ≡ false → table.old.clients.items ≡ [] }
{
    close_one(network, table, byte_limit_rule(false))
        || close_one(network, table, byte_limit_rule(true))
}

/// Closes the connections that have been waiting longest, clients first, until the bytes in memory are within the limit.
pub fn keep_within<D: Network>(network: &mut D, table: &mut ConnectionTable<D::Stream>)
    ensures go { AreClosedByRule IsClosedForBytes (D.known network.old) (D.known network.new) table.old table.new }
    ensures within { length table.old.clients.items ≤ most_clients → bytes_held table.new.clients.items ≤ most_bytes }
{
    for turn in 0..MAX_CLIENTS {
        if bytes_held(table.clients.as_slice()) <= MAX_BUFFERED_BYTES {
            return;
        }
        let _ = close_one_for_bytes(network, table);
    }
}

/// Returns whether the table is full.
fn is_full<L>(table: &ConnectionTable<L>) -> bool
    ensures full { result ≡ true → IsFull table.now }
    ensures spare { result ≡ false → length table.now.clients.items < most_clients }
{
    table.clients.len() >= MAX_CLIENTS || bytes_held(table.clients.as_slice()) >= MAX_BUFFERED_BYTES
}

/// Closes a client to make room for the next connection, for which the system has no room. Returns whether a client was closed.
pub fn evict_one<D: Network>(
    network: &mut D,
    table: &mut ConnectionTable<D::Stream>,
    now: u64,
) -> bool
    ensures go { ClosesOne (IsClosedByRule (eviction_rule now)) result (D.known network.old) (D.known network.new) table.old table.new }
    ensures nobody { result ≡ false → All (λ client. is_among false client.listener ≡ true → now - client.since < grace) table.old.clients.items }
{
    close_one(network, table, eviction_rule(now))
}

/// Makes room in the table for another connection, and returns whether there is room. If the table is full and clients may be
/// closed, closes the client that has been waiting longest, provided that it has waited for at least a second. Orders are never
/// closed to make room.
pub fn evict_if_full<D: Network>(
    network: &mut D,
    table: &mut ConnectionTable<D::Stream>,
    lets_go: bool,
    now: u64,
) -> bool
    ensures go { AreClosedByRule (IsEvicted now) (D.known network.old) (D.known network.new) table.old table.new }
    ensures table { result ≡ true → length table.new.clients.items < most_clients }
    ensures only { (table.new ≡ table.old) ⊎ IsFull table.old }
    ensures denied { result ≡ false → IsFull table.old }
    ensures nobody { result ≡ false → IsWithin table.old → lets_go ≡ true → All (λ client. is_among false client.listener ≡ true → now - client.since < grace) table.old.clients.items }
{
    if !is_full(table) {
        return true;
    }
    if !lets_go {
        return false;
    }
    if !evict_one(network, table, now) {
        return false;
    }
    table.clients.len() < MAX_CLIENTS
}

/// Closes all connections.
pub fn close_all<D: Network>(network: &mut D, table: &mut ConnectionTable<D::Stream>)
    ensures go { AreClosedByRule IsClosed (D.known network.old) (D.known network.new) table.old table.new }
    ensures none { table.new.clients.items ≡ [] }
{
    while !table.clients.is_empty() {
        close_at(network, table, 0, CloseReason::Closing);
    }
}

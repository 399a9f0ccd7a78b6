//! The server: connections are accepted and serviced concurrently, and their requests are processed one at a time.

ghost use Rattle.std.specs.Prelude.{◌≡◌, ◌≢◌, ◌≤◌, ◌*◌, ◌<◌, ◌++◌, ⊤, ℕ, Bool, [], false, IfSome, List, Ok, OnOk, Option, Some, is_some, length, true};
ghost use Rattle.std.specs.Duration.{as_nanos};
ghost use Rattle.std.specs.List.{list_all};
ghost use Rattle.sqlite.specs.State.{HasCleanDisk};
ghost use Rattle.sqlite.specs.Held.{state};
ghost use Rattle.register.specs.Machine.{after};
ghost use Rattle.register.specs.Offices.{empty_office};
ghost use Rattle.register.specs.declared.command.Request.{Request};
ghost use Rattle.store.specs.StateTables.{IsAt};
ghost use Rattle.connections.specs.Streams.{stream_of};
ghost use Rattle.connections.specs.Clients.{IsOf};
ghost use Rattle.connections.specs.Closing.{IsWithin};
ghost use Rattle.connections.specs.Traces.{Trace};
ghost use Rattle.connections.specs.Tables.{most_clients};
ghost use Rattle.wire.specs.Gates.{settings_entry};
ghost use Rattle.server.specs.Blind.{RecordedServersAnswerAsSeen, ServersAnswerAsSeen};
ghost use Rattle.server.specs.Exchanges.{Exchange, KeepsExchanges, KeepsInRecord};
ghost use Rattle.server.specs.RecordChanges.{change_of, served_view};
ghost use Rattle.server.specs.ServedConnections.{IsSound};
ghost use Rattle.server.specs.Reads.{served_office, memory_entry};
ghost use Rattle.server.specs.Settings.{ServerSettingsEntry, settings_by, settings_in};
ghost use Rattle.server.specs.Servicing.{HasSentNothing, LooksAtGate, WasServiced};
ghost use Rattle.server.specs.Servers.{GoesOn, IsCalled, IsEndedBy, IsRound, IsSettled, IsUnfailed, OnMoved, ServesConnections, ServesFrom, ServesRecorded, is_idle};

use crate::blind::{recorded_servers_answer_as_seen, servers_answer_as_seen};
use crate::serve_error::ServeError;
use crate::served_file::ServedFile;
use crate::server_settings::ServerSettings;
use crate::server_state::ServerState;
use crate::servicing::{Serviced, service};
use connections::closing::{
    TIMEOUT, close_all, close_timed_out, evict_if_full, evict_one, keep_within,
};
use connections::connection_table::{longest_waiting, place_of_number};
use connections::{AcceptOutcome, Client, CloseReason, ConnectionTable, Listener, Network};
use desk::{NoRecord, Recorder};
use office::Office;
use sqlite::Alter;
use std::alloc::{AllocError, Global};
use std::time::Duration;
use streams::Broken;
use wire::Routes;

/// The maximum duration of the next wait, in milliseconds, while there may be a pending connection that no event reports.
const RECHECK_MILLIS: u64 = 1_000;

/// The maximum number of connections to accept before servicing the open ones.
const ACCEPTS_PER_ROUND: usize = 64;

/// The maximum number of rounds.
const ROUNDS: u64 = u64::MAX;

/// Returns the clock's current time if there is a gate, and therefore a limit on wrong codes; otherwise 0.
fn time_if_gated<D: Network, A>(
    network: &mut D,
    server_settings: ServerSettings<'_, A>,
) -> Result<u64, Broken>
    ensures { LooksAtGate (is_some (settings_entry server_settings.entry.http).gate) result (D.known network.old) (D.known network.new) }
{
    match server_settings.http.gate {
        Some(_) => network.now(),
        None => Ok(0),
    }
}

/// Services an open connection at a given time. Returns the connection and, if it should be closed, the reason. Its time limit
/// restarts after its request has been processed, however long that took. If there is a gate and the clock fails, the
/// connection isn't serviced.
fn service_one<D: Network, A: ServedFile, S: Alter, R: Recorder>(
    network: &mut D,
    server_settings: ServerSettings<'_, A>,
    client: Client<D::Stream>,
    office: &mut Office<S>,
    kept: &mut ServerState<R>,
) -> (Client<D::Stream>, Result<Option<CloseReason>, Broken>)
    requires untold { HasSentNothing (stream_of D.Stream.held D.Stream.taken D.Stream.failed) client }
    ensures is { (start : D.Stream) → IsOf (stream_of D.Stream.held D.Stream.taken D.Stream.failed) start client → IsOf (stream_of D.Stream.held D.Stream.taken D.Stream.failed) start result.0 }
    ensures same { (result.0.listener ≡ client.listener) × (result.0.number ≡ client.number) }
    ensures went { WasServiced (is_some (settings_in A.whole server_settings.entry).clients.gate) (settings_by A.whole (R.records kept.old.recorder) server_settings.entry)
        (stream_of D.Stream.held D.Stream.taken D.Stream.failed) (served_view (state S.Store) R.found R.failed) result.1
        (D.known network.old) (D.known network.new) client result.0 (served_office office.old (memory_entry kept.old)) (served_office office.new (memory_entry kept.new)) }
    ensures records_same { R.records kept.new.recorder ≡ R.records kept.old.recorder }
{
    let Ok(now) = time_if_gated(network, server_settings) else {
        return (client, Err(Broken));
    };
    let (mut client, serviced) = service(server_settings, now, client, office, kept);
    match serviced {
        Serviced::Waits => (client, Ok(None)),
        Serviced::Served => match network.now() {
            Ok(later) => {
                client.since = later;
                (client, Ok(None))
            }
            Err(Broken) => (client, Err(Broken)),
        },
        Serviced::Leaves(why) => (client, Ok(Some(why))),
    }
}

/// Puts a connection that was serviced back in its place, and closes others until the bytes in memory are within the limit. If
/// there is a reason to close the connection, closes it instead.
fn settle<D: Network>(
    network: &mut D,
    table: &mut ConnectionTable<D::Stream>,
    place: usize,
    client: Client<D::Stream>,
    reason: Option<CloseReason>,
)
    requires place { (place ≤ length table.old.clients.items) × (length table.old.clients.items < most_clients) }
    requires within { IsWithin table.old }
    ensures settles { IsSettled reason place client (D.known network.old) (D.known network.new) table.old table.new }
    ensures within { IsWithin table.new }
{
    match reason {
        Some(why) => {
            network.close(client.into_removed(why));
        }
        None => {
            table.put_back_at(place, client);
            keep_within(network, table);
        }
    }
}

/// Services each ready connection that is still open, in the order in which the network reports them. Connections that are done
/// or lost are closed. If the clock fails, the connection stays in the table.
fn service_ready<D: Network, A: ServedFile, S: Alter, R: Recorder>(
    network: &mut D,
    server_settings: ServerSettings<'_, A>,
    table: &mut ConnectionTable<D::Stream>,
    office: &mut Office<S>,
    kept: &mut ServerState<R>,
) -> Result<(), Broken>
    requires sound { IsSound (settings_by A.whole (R.records kept.old.recorder) server_settings) (stream_of D.Stream.held D.Stream.taken D.Stream.failed) table.old }
    requires within { IsWithin table.old }
    ensures goes_on { ServesFrom (settings_by A.whole (R.records kept.old.recorder) server_settings.entry) (stream_of D.Stream.held D.Stream.taken D.Stream.failed)
        (served_view (state S.Store) R.found R.failed) (D.known network.old) (D.known network.new) table.old table.new
        (served_office office.old (memory_entry kept.old)) (served_office office.new (memory_entry kept.new)) }
    ensures came { table.new.came ≡ table.old.came }
    ensures counted { table.new.counted ≡ table.old.counted }
    ensures within { OnOk result (IsWithin table.new) }
    ensures called { IsCalled result (D.known network.old) (D.known network.new) }
    ensures records_same { R.records kept.new.recorder ≡ R.records kept.old.recorder }
{
    for _ in 0..u64::MAX {
        let Some(number) = network.next_ready() else {
            return Ok(());
        };
        let Some(place) = place_of_number(table.clients.as_slice(), number) else {
            continue;
        };
        let client = table.remove_at(place);
        let (client, next) = service_one(network, server_settings, client, office, kept);
        let Ok(reason) = next else {
            table.put_back_at(place, client);
            return Err(Broken);
        };
        settle(network, table, place, client, reason);
    }
    Ok(())
}

/// Accepts the next pending connection if there is room, or if room can be made. The connection may be for an order; or from a
/// client, unless the maximum number of clients has been accepted. If no connection was accepted, returns the maximum duration
/// of the next wait, in milliseconds.
fn accept_one<D: Network>(
    alloc: Global,
    network: &mut D,
    table: &mut ConnectionTable<D::Stream>,
    most: u64,
    now: u64,
) -> Option<u64>
    requires { IsWithin table.old }
    ensures goes_on { (settings : ServerSettingsEntry) → GoesOn settings (stream_of D.Stream.held D.Stream.taken D.Stream.failed) [] (D.known network.old) (D.known network.new) table.old table.new }
    ensures trace { (gated : Bool) → Trace gated (stream_of D.Stream.held D.Stream.taken D.Stream.failed) [] (Some now) (Some now)
        (D.known network.old) (D.known network.new) table.old.clients.items table.new.clients.items }
    ensures few { table.old.counted ≤ most → table.new.counted ≤ most }
    ensures within { IsWithin table.new }
    ensures look { IfSome result (λ look. look ≤ TIMEOUT) }
    ensures called { IsUnfailed (D.known network.old) (D.known network.new) }
{
    if table.came == u64::MAX || !network.has_pending() {
        return Some(TIMEOUT);
    }
    let clients_too = table.counted < most;
    if !evict_if_full(network, table, clients_too, now) {
        return Some(RECHECK_MILLIS);
    }
    match network.accept(table.came, clients_too) {
        AcceptOutcome::One(accepted) => {
            table.add(alloc, accepted, now);
            None
        }
        AcceptOutcome::Nobody => Some(TIMEOUT),
        AcceptOutcome::NotNow => Some(RECHECK_MILLIS),
        AcceptOutcome::Full => {
            if evict_one(network, table, now) {
                None
            } else {
                Some(RECHECK_MILLIS)
            }
        }
    }
}

/// Accepts pending connections, and returns the maximum duration of the next wait, in milliseconds.
fn accept_pending<D: Network>(
    alloc: Global,
    network: &mut D,
    table: &mut ConnectionTable<D::Stream>,
    most: u64,
    now: u64,
) -> u64
    requires { IsWithin table.old }
    ensures goes_on { (settings : ServerSettingsEntry) → GoesOn settings (stream_of D.Stream.held D.Stream.taken D.Stream.failed) [] (D.known network.old) (D.known network.new) table.old table.new }
    ensures trace { (gated : Bool) → Trace gated (stream_of D.Stream.held D.Stream.taken D.Stream.failed) [] (Some now) (Some now)
        (D.known network.old) (D.known network.new) table.old.clients.items table.new.clients.items }
    ensures few { table.old.counted ≤ most → table.new.counted ≤ most }
    ensures within { IsWithin table.new }
    ensures look { result ≤ TIMEOUT }
    ensures called { IsUnfailed (D.known network.old) (D.known network.new) }
{
    for _ in 0..ACCEPTS_PER_ROUND {
        if let Some(look) = accept_one(alloc, network, table, most, now) {
            return look;
        }
    }
    0
}

/// Returns the maximum duration of the next wait: `look` milliseconds, or less if a time limit expires sooner.
fn pause<L>(table: &ConnectionTable<L>, look: u64, now: u64) -> Duration
    ensures { as_nanos result ≤ look * 1_000_000 }
{
    match longest_waiting(table.clients.as_slice(), true) {
        Some(place) => {
            let waited = now.saturating_sub(table.clients[place].since);
            Duration::from_millis(look.min(TIMEOUT.saturating_sub(waited)))
        }
        None => Duration::from_millis(look),
    }
}

/// The settings of a server, and the maximum number of clients to accept.
struct RoundSettings<'a, A> {
    server_settings: ServerSettings<'a, A>,
    most: u64,
}

impl<A> Clone for RoundSettings<'_, A> {
    ghost is_clone = { λ x y. y ≡ x };

    ghost is_infallible = { λ _. ⊤ };

    fn clone(&self) -> Result<Self, AllocError> {
        Ok(*self)
    }
}

impl<A> Copy for RoundSettings<'_, A> {}

/// Ends a round: closes the connections that have timed out, accepts pending ones, and waits for events. Returns whether all
/// clients have been accepted and all connections are closed.
fn end_round<D: Network>(
    alloc: Global,
    network: &mut D,
    table: &mut ConnectionTable<D::Stream>,
    most: u64,
) -> Result<bool, Broken>
    requires { IsWithin table.old }
    ensures goes_on { (settings : ServerSettingsEntry) → GoesOn settings (stream_of D.Stream.held D.Stream.taken D.Stream.failed) [] (D.known network.old) (D.known network.new) table.old table.new }
    ensures trace { (gated : Bool) (from : Option ℕ) → (to : Option ℕ) × Trace gated (stream_of D.Stream.held D.Stream.taken D.Stream.failed) [] from to
        (D.known network.old) (D.known network.new) table.old.clients.items table.new.clients.items }
    ensures few { table.old.counted ≤ most → table.new.counted ≤ most }
    ensures within { OnOk result (IsWithin table.new) }
    ensures all { result ≡ Ok true → (most ≤ table.new.counted) × (table.new.clients.items ≡ []) }
    ensures round { IsRound result (D.known network.old) (D.known network.new) }
{
    let now = network.now()?;
    close_timed_out(network, table, now);
    let look = accept_pending(alloc, network, table, most, now);
    if table.counted >= most && table.clients.is_empty() {
        return Ok(true);
    }
    network.wait(pause(table, look, now))?;
    Ok(false)
}

/// Returns whether a connection is a client's, and has no response that is still to be sent.
fn is_idle<L>(client: &Client<L>) -> bool
    ensures { result ≡ is_idle client.now }
{
    match client.listener {
        Listener::Clients => client.answer.is_none(),
        Listener::Orders => false,
    }
}

/// Returns whether all of these connections are idle.
fn are_idle<L>(clients: &[Client<L>]) -> bool
    ensures { result ≡ list_all is_idle clients.now }
{
    for client in clients {
        if !is_idle(client) {
            return false;
        }
    }
    true
}

/// Returns whether a new office has taken the place of the one that is served, and all of these connections are idle.
fn has_moved<A: ServedFile, L>(served_file: &A, clients: &[Client<L>]) -> bool
    ensures idle { result ≡ true → list_all is_idle clients.now ≡ true }
    ensures moved { result ≡ true → A.moved served_file.now }
    ensures gone { result ≡ true → A.whole served_file.now ≢ Some true }
{
    served_file.has_moved() && are_idle(clients)
}

/// Serves in rounds, until all clients have been accepted and all connections are closed, or until a new office has taken the place
/// of the one that is served and all connections are idle. Each round begins by servicing the connections that are ready.
fn serve_rounds<D: Network, A: ServedFile, S: Alter, R: Recorder>(
    network: &mut D,
    serving: RoundSettings<'_, A>,
    table: &mut ConnectionTable<D::Stream>,
    office: &mut Office<S>,
    kept: &mut ServerState<R>,
) -> Result<(), ServeError>
    requires sound { IsSound (settings_by A.whole (R.records kept.old.recorder) serving.server_settings) (stream_of D.Stream.held D.Stream.taken D.Stream.failed) table.old }
    requires within { IsWithin table.old }
    ensures goes_on { ServesFrom (settings_by A.whole (R.records kept.old.recorder) serving.entry.server_settings) (stream_of D.Stream.held D.Stream.taken D.Stream.failed)
        (served_view (state S.Store) R.found R.failed) (D.known network.old) (D.known network.new) table.old table.new
        (served_office office.old (memory_entry kept.old)) (served_office office.new (memory_entry kept.new)) }
    ensures few { table.old.counted ≤ serving.entry.most → table.new.counted ≤ serving.entry.most }
    ensures all { OnOk result (serving.entry.most ≤ table.new.counted) }
    ensures none { OnOk result (table.new.clients.items ≡ []) }
    ensures idle { OnMoved result (list_all is_idle table.new.clients.items ≡ true) }
    ensures moved { OnMoved result (A.moved serving.entry.server_settings.served_file.now) }
    ensures gone { OnMoved result ((settings_in A.whole serving.entry.server_settings).whole ≢ Some true) }
    ensures ended { IsEndedBy (D.known network.old) (D.known network.new) result }
{
    for round in 0..ROUNDS {
        let Ok(()) = service_ready(network, serving.server_settings, table, office, kept) else {
            return Err(ServeError::Network);
        };
        if has_moved(
            serving.server_settings.served_file,
            table.clients.as_slice(),
        ) {
            return Err(ServeError::Moved);
        }
        match end_round(kept.alloc, network, table, serving.most) {
            Ok(true) => return Ok(()),
            Ok(false) => {}
            Err(Broken) => return Err(ServeError::Network),
        }
    }
    Err(ServeError::Rounds)
}

/// Serves the connections of a network under the given settings: the origin of a proxy, the gate, and what is shown in public,
/// if any. Serves until the given number of clients have been accepted and all connections are closed, or indefinitely if no
/// number is given. Orders are accepted too, before clients, and don't count. Serving also ends once a new office has taken the
/// place of this one; but first every response is sent, and every order that has been accepted gets one, or its connection is
/// closed early.
///
/// Requests are received concurrently, and responses are sent concurrently. A request is processed once all of it has arrived,
/// whether it is from a client or an order; all requests are processed in the same office. At most 512 connections are open at
/// once, with 64 MiB of requests and responses. If there are more, the next one stays pending, and the client that has been
/// waiting longest is closed to make room, provided that it has waited for a second. A connection has half a minute to send its
/// request, and another half minute to accept its response. A connection that is closed early gets no response. One that can't
/// be accepted now is accepted later.
///
/// At the gate, a request with its clerk's code is accepted, however many wrong codes have been sent. Once 6,000 wrong codes
/// have been sent within a minute, a request with a wrong code must wait for the rest of that minute. Times are those of the
/// network's clock.
///
/// The bytes received from a connection are its own, from the first one on, and what is sent to it is the response to exactly
/// those bytes. An open office is changed only by clerks' keyings, at most one per client, and by the requests of orders.
/// Whenever the program stops, what is left is the state after the requests that were answered and at most one other. Each
/// request is answered as the office's state machine says for the state in which it is processed. A closed office stays as it
/// is.
///
/// A connection is closed as timed out only once half a minute has passed, by the network's clock, since it was accepted or its
/// request was processed. It is closed to make room only while the table is full, or if the system has no room for another.
/// Connections that are still open when serving ends are closed last; if serving ends without a failure, there are none.
///
/// What a clerk sees of the office determines what is sent under that clerk's number, apart from faults and from the responses
/// saying that the client must wait, that the file is gone, or that the record failed.
///
/// Each request that the office accepts is recorded, and flushed, before it is acknowledged. Suppose that the record led to the
/// office's state at the beginning. Then whatever a stop leaves of the record leads to the state after the accepted requests of a
/// prefix, which contains each earlier request, each one that was answered, and at most one more. So the record and the office
/// differ by at most one request. If recording never failed and the office is still open, the record leads to exactly the office's
/// state again. A request whose recording failed isn't acknowledged (112), although it remains in effect. From then on no other is
/// sent to the office: a clerk's keying gets 503 with fault 112, and an order for a job prints this fault. Reads continue. The
/// recorder is returned.
///
/// The error says why serving ended early: the network or its clock failed, the table couldn't be allocated, the number of
/// rounds reached its maximum, or a new office took the place of this one. The last is reported only if the served file says so.
/// What was answered before remains valid. The connections that are still open then are closed.
pub fn serve_recorded<D: Network, A: ServedFile, S: Alter, R: Recorder>(
    alloc: Global,
    network: &mut D,
    server_settings: ServerSettings<'_, A>,
    connections: Option<u64>,
    office: &mut Office<S>,
    recorder: R,
) -> (Result<(), ServeError>, R)
    ensures served { ServesRecorded (settings_by A.whole (R.records recorder) server_settings.entry) (stream_of D.Stream.held D.Stream.taken D.Stream.failed)
        (served_view (state S.Store) R.found R.failed) (D.known network.old) (D.known network.new) connections office.old office.new recorder result.0 result.1 }
    ensures recorded { HasCleanDisk (state S.Store office.new.held) → office.old.closed ≡ false → (earlier : List Request) → IsAt (after empty_office earlier) (state S.Store office.old.held)
        → (exchanges : List Exchange) × (kept : KeepsExchanges (state S.Store) (settings_by A.whole (R.records recorder) server_settings.entry) earlier exchanges office.new.closed
        (state S.Store office.new.held))
        × KeepsInRecord (change_of R.found R.failed recorder result.1) office.new.closed earlier kept.answered kept.last }
    ensures ended { IsEndedBy (D.known network.old) (D.known network.new) result.0 }
    ensures closed { office.old.closed ≡ true → office.new ≡ office.old }
    ensures clean { HasCleanDisk (state S.Store office.new.held) → HasCleanDisk (state S.Store office.old.held) }
    ensures moved { OnMoved result.0 (A.moved server_settings.entry.served_file.now) }
    // What is sent to each clerk depends only on what that clerk sees.
    ensures blind { RecordedServersAnswerAsSeen (stream_of D.Stream.held D.Stream.taken D.Stream.failed) (served_view (state S.Store) R.found R.failed) }
{
    recorded_servers_answer_as_seen::<D, S, R>();
    let most = connections.unwrap_or(u64::MAX);
    let Ok(mut table) = ConnectionTable::new(alloc) else {
        return (Err(ServeError::Memory), recorder);
    };
    let Ok(routes) = Routes::new(alloc) else {
        return (Err(ServeError::Memory), recorder);
    };
    let mut kept = ServerState::new(alloc, routes, recorder);
    let serving = RoundSettings {
        server_settings,
        most,
    };
    let ended = serve_rounds(network, serving, &mut table, office, &mut kept);
    close_all(network, &mut table);
    (ended, kept.into_recorder())
}

/// Serves like [`serve_recorded`], without a second record.
pub fn serve_connections<D: Network, A: ServedFile, S: Alter>(
    alloc: Global,
    network: &mut D,
    server_settings: ServerSettings<'_, A>,
    connections: Option<u64>,
    office: &mut Office<S>,
) -> Result<(), ServeError>
    ensures served { ServesConnections (settings_in A.whole server_settings.entry) (stream_of D.Stream.held D.Stream.taken D.Stream.failed) (state S.Store)
        (D.known network.old) (D.known network.new) connections office.old office.new result }
    ensures ended { IsEndedBy (D.known network.old) (D.known network.new) result }
    ensures closed { office.old.closed ≡ true → office.new ≡ office.old }
    ensures clean { HasCleanDisk (state S.Store office.new.held) → HasCleanDisk (state S.Store office.old.held) }
    ensures moved { OnMoved result (A.moved server_settings.entry.served_file.now) }
    // What is sent to each clerk depends only on what that clerk sees.
    ensures blind { ServersAnswerAsSeen (stream_of D.Stream.held D.Stream.taken D.Stream.failed) (state S.Store) }
{
    servers_answer_as_seen::<D, S>();
    let (ended, NoRecord) = serve_recorded(
        alloc,
        network,
        server_settings,
        connections,
        office,
        NoRecord,
    );
    ended
}

//! The poller, which reports which connections are ready and whether another one is pending.

ghost use Rattle.std.specs.Prelude.{◌≡◌, ◌+◌, ◌<◌, ◌⊎◌, IfNone, IfOk, IfSome, None, true};
ghost use Rattle.connections.specs.declared.client.Listener.{Listener};
ghost use Rattle.connections.specs.declared.network.AcceptOutcome.{AcceptOutcome};
ghost use Rattle.connections.specs.Tables.{IsWanted};
ghost use Rattle.sockets.specs.Pollers.{ComesByListener, IsAtListener, IsWatched, clients_of, has_pending, orders_of, other_address};
ghost use Rattle.sockets.specs.Pollers.{is_known_waiting, is_reported, known_after, known_at, known_everywhere, may_be_pending, reported};
ghost use Rattle.sockets.specs.declared.poller.Waiting.{Waiting};

use crate::accept_error::outcome_of_error;
use crate::loopback::{Address, Loopback};
use crate::socket::Socket;
use connections::{AcceptOutcome, Accepted, Listener};
use mio::event::Source;
use mio::net::UnixListener;
use mio::{Events, Interest, Poll, Token};
use std::alloc::Global;
use std::io;
use std::io::ErrorKind;
use std::net::Net;
use std::time::Duration;
use streams::Broken;

/// The maximum number of events that the system reports at once.
const EVENTS: usize = 1024;

/// The tokens of the listeners: at 127.0.0.1, at [::1], and for orders. The tokens of connections follow.
const IPV4: usize = 0;

const IPV6: usize = 1;

const ORDERS: usize = 2;

/// Returns the token of the connection with the given number; `None` if there are no more tokens.
fn token_of(number: u64) -> Option<Token>
    ensures { IfSome result (λ token. token.0 ≡ number + 3) }
{
    Some(Token(usize::try_from(number.checked_add(3)?).ok()?))
}

/// Returns the number of the connection with the given token; `None` for the token of a listener.
fn number_of(token: Token) -> Option<u64>
    ensures some { IfSome result (λ number. token.0 ≡ number + 3) }
    ensures none { IfNone result (token.0 < 3) }
{
    (token.0 as u64).checked_sub(3)
}

/// What is known about pending connections at a listener: there are none until an event reports one; there may be one; or an
/// event has reported one.
#[derive(Clone, Copy)]
pub enum Waiting {
    Nobody,
    Unknown,
    Somebody,
}

impl Waiting {
    /// Returns whether a connection might be pending.
    fn may_be(self) -> bool
        ensures { result ≡ is_known_waiting self }
    {
        match self {
            Waiting::Nobody => false,
            Waiting::Unknown | Waiting::Somebody => true,
        }
    }

    /// Returns what is known after the listener has returned the given outcome.
    fn after(self, outcome: &AcceptOutcome<Socket>) -> Waiting
        ensures { result ≡ known_after self outcome.now }
    {
        match outcome {
            AcceptOutcome::Nobody => Waiting::Nobody,
            AcceptOutcome::One(_) | AcceptOutcome::NotNow => Waiting::Unknown,
            AcceptOutcome::Full => self,
        }
    }
}

/// What is known about pending connections at each listener: at 127.0.0.1, at [::1], and for orders.
#[derive(Clone, Copy)]
pub struct Pending {
    ipv4: Waiting,
    ipv6: Waiting,
    orders: Waiting,
}

impl Pending {
    /// Returns a value in which the same is known about every listener.
    fn everywhere(waiting: Waiting) -> Pending
        ensures { result ≡ known_everywhere waiting }
    {
        Pending {
            ipv4: waiting,
            ipv6: waiting,
            orders: waiting,
        }
    }

    /// Returns what is known about the listener at an address.
    fn at(self, address: Address) -> Waiting
        ensures { result ≡ known_at self address }
    {
        match address {
            Address::Ipv4 => self.ipv4,
            Address::Ipv6 => self.ipv6,
        }
    }

    /// Records what is known about the listener at an address.
    fn set(&mut self, address: Address, waiting: Waiting)
        ensures set { known_at self.new address ≡ waiting }
        ensures other { known_at self.new (other_address address) ≡ known_at self.old (other_address address) }
        ensures orders { self.new.orders ≡ self.old.orders }
    {
        match address {
            Address::Ipv4 => self.ipv4 = waiting,
            Address::Ipv6 => self.ipv6 = waiting,
        }
    }

    /// Records that an event was reported for the listener with the given token.
    fn report(&mut self, token: usize)
        ensures { self.new ≡ reported token self.old }
    {
        match token {
            IPV4 => self.ipv4 = Waiting::Somebody,
            IPV6 => self.ipv6 = Waiting::Somebody,
            _ => self.orders = Waiting::Somebody,
        }
    }

    /// Returns whether a connection might be pending at any listener.
    fn may_be(self) -> bool
        ensures { result ≡ may_be_pending self }
    {
        self.ipv4.may_be() || self.ipv6.may_be() || self.orders.may_be()
    }

    /// Returns whether an event reported a connection at any listener.
    fn is_reported(self) -> bool
        ensures { result ≡ is_reported self }
    {
        matches!(self.ipv4, Waiting::Somebody)
            || matches!(self.ipv6, Waiting::Somebody)
            || matches!(self.orders, Waiting::Somebody)
    }
}

/// The listeners, and the registry of the sockets of accepted connections.
#[derive(Drop)]
pub struct Poller {
    poll: Poll,
    events: Events,
    told: usize,
    clients: Loopback,
    next: Address,
    orders: Option<UnixListener>,
    pending: Pending,
}

/// Registers a listener, if there is one.
fn watch_listener<S: Source + Drop>(
    poll: &Poll,
    listener: Option<S>,
    token: usize,
) -> io::Result<Option<S>>
    ensures { IfOk result (IsWatched S.keeps listener) }
{
    match listener {
        None => Ok(None),
        Some(mut listener) => {
            poll.registry()
                .register(&mut listener, Token(token), Interest::READABLE)?;
            Ok(Some(listener))
        }
    }
}

/// Registers the listeners at both loopback addresses.
fn watch_clients(poll: &Poll, clients: Loopback) -> io::Result<Loopback>
    ensures { IfOk result (λ watched. watched ≡ clients) }
{
    let Loopback { mut ipv4, ipv6 } = clients;
    poll.registry()
        .register(&mut ipv4, Token(IPV4), Interest::READABLE)?;
    let ipv6 = watch_listener(poll, ipv6, IPV6)?;
    Ok(Loopback { ipv4, ipv6 })
}

impl Poller {
    /// Registers the listeners for clients and, if there is one, the listener for orders. No connection has been accepted yet.
    pub fn new(
        net: &impl Net,
        alloc: Global,
        clients: Loopback,
        orders: Option<UnixListener>,
    ) -> io::Result<Poller>
        ensures { IfOk result (λ poller. (clients_of poller ≡ clients) × (orders_of poller ≡ orders)) }
    {
        let poll = Poll::new(net)?;
        let events = Events::with_capacity(alloc, EVENTS)?;
        let clients = watch_clients(&poll, clients)?;
        let orders = watch_listener(&poll, orders, ORDERS)?;
        Ok(Poller {
            poll,
            events,
            told: 0,
            clients,
            next: Address::Ipv4,
            orders,
            pending: Pending::everywhere(Waiting::Unknown),
        })
    }

    /// Registers the socket of a connection. If that fails, the connection is closed.
    fn watched<S: Source + Drop>(&self, mut stream: S, number: u64) -> io::Result<S>
        ensures { IfOk result (λ watched. S.keeps stream watched) }
    {
        let Some(token) = token_of(number) else {
            return Err(io::Error::from(ErrorKind::InvalidInput));
        };
        let both = Interest::READABLE | Interest::WRITABLE;
        self.poll.registry().register(&mut stream, token, both)?;
        Ok(stream)
    }

    /// Asks the listener for orders for its next connection.
    fn order_pending(&self, number: u64) -> AcceptOutcome<Socket>
        ensures { IsAtListener Listener.Orders result }
    {
        let Some(orders) = &self.orders else {
            return AcceptOutcome::Nobody;
        };
        let accepted = match orders.accept() {
            Ok((stream, _)) => self.watched(stream, number),
            Err(error) => Err(error),
        };
        match accepted {
            Ok(stream) => AcceptOutcome::One(Accepted {
                listener: Listener::Orders,
                stream: Socket::Order(stream),
            }),
            Err(error) => outcome_of_error(&error),
        }
    }

    /// Returns the next connection for an order, if one might be pending.
    fn next_order(&mut self, number: u64) -> AcceptOutcome<Socket>
        ensures { IsAtListener Listener.Orders result }
    {
        if !self.pending.orders.may_be() {
            return AcceptOutcome::Nobody;
        }
        let outcome = self.order_pending(number);
        self.pending.orders = self.pending.orders.after(&outcome);
        outcome
    }

    /// Asks the listener at the given address for its next client.
    fn client_pending(&self, address: Address, number: u64) -> AcceptOutcome<Socket>
        ensures { IsAtListener Listener.Clients result }
    {
        let Some(clients) = self.clients.at(address) else {
            return AcceptOutcome::Nobody;
        };
        let accepted = match clients.accept() {
            Ok((stream, _)) => self.watched(stream, number),
            Err(error) => Err(error),
        };
        match accepted {
            Ok(stream) => AcceptOutcome::One(Accepted {
                listener: Listener::Clients,
                stream: Socket::Client(stream),
            }),
            Err(error) => outcome_of_error(&error),
        }
    }

    /// Returns the next client at an address, if one might be pending there.
    fn client_at(&mut self, address: Address, number: u64) -> AcceptOutcome<Socket>
        ensures at_door { IsAtListener Listener.Clients result }
        ensures turn { self.new.next ≡ self.old.next }
    {
        let known = self.pending.at(address);
        if !known.may_be() {
            return AcceptOutcome::Nobody;
        }
        let outcome = self.client_pending(address, number);
        self.pending.set(address, known.after(&outcome));
        outcome
    }

    /// Returns the next client at either address. The addresses take turns, so that many clients at one of them can't starve
    /// those at the other.
    fn next_client(&mut self, number: u64) -> AcceptOutcome<Socket>
        ensures at_door { IsAtListener Listener.Clients result }
        ensures in_turn { self.new.next ≡ other_address self.old.next }
    {
        let first = self.next;
        self.next = first.other();
        match self.client_at(first, number) {
            AcceptOutcome::Nobody => self.client_at(first.other(), number),
            outcome => outcome,
        }
    }

    /// Returns the next order; or the next client, if no order is pending and `clients_too` is set.
    fn next_at(&mut self, number: u64, clients_too: bool) -> AcceptOutcome<Socket>
        ensures wanted { IsWanted clients_too result }
        ensures by_door { ComesByListener result }
    {
        match self.next_order(number) {
            AcceptOutcome::Nobody if clients_too => self.next_client(number),
            outcome => outcome,
        }
    }

    /// Registers the listeners again, so that the next wait reports each listener with a pending connection, even if it was
    /// reported before.
    fn watch_anew(&mut self) -> io::Result<()>
        ensures clients { clients_of self.new ≡ clients_of self.old }
        ensures orders { orders_of self.new ≡ orders_of self.old }
    {
        let registry = self.poll.registry();
        registry.reregister(&mut self.clients.ipv4, Token(IPV4), Interest::READABLE)?;
        if let Some(ipv6) = &mut self.clients.ipv6 {
            registry.reregister(ipv6, Token(IPV6), Interest::READABLE)?;
        }
        if let Some(orders) = &mut self.orders {
            registry.reregister(orders, Token(ORDERS), Interest::READABLE)?;
        }
        Ok(())
    }

    /// Returns the outcome of an attempt to accept a connection, but `Nobody` instead of `Full` unless an event has reported a
    /// pending connection. The system reports `Full` even if no connection is pending; the next wait reports whether there is
    /// one.
    fn noted(&mut self, outcome: AcceptOutcome<Socket>) -> AcceptOutcome<Socket>
        ensures same { (result ≡ outcome) ⊎ ((outcome ≡ AcceptOutcome.Full) × (result ≡ AcceptOutcome.Nobody)) }
        ensures seen { is_reported self.old.pending ≡ true → result ≡ outcome }
    {
        if !matches!(&outcome, AcceptOutcome::Full) || self.pending.is_reported() {
            return outcome;
        }
        if self.watch_anew().is_err() {
            return outcome;
        }
        self.pending = Pending::everywhere(Waiting::Nobody);
        AcceptOutcome::Nobody
    }
}

impl Poller {
    /// Waits until a connection is ready or pending, but no longer than `most`.
    pub(crate) fn wait(&mut self, most: Duration) -> Result<(), Broken> {
        self.told = 0;
        match self.poll.poll(&mut self.events, Some(most)) {
            Ok(()) => Ok(()),
            Err(_) => Err(Broken),
        }
    }

    /// Returns the number of the next ready connection; `None` once all have been reported.
    pub(crate) fn next_ready(&mut self) -> Option<u64> {
        for _ in 0..EVENTS {
            let event = self.events.iter().nth(self.told)?;
            self.told = self.told.saturating_add(1);
            match number_of(event.token()) {
                Some(number) => return Some(number),
                None => self.pending.report(event.token().0),
            }
        }
        None
    }

    /// Accepts the next pending connection and assigns it the given number.
    pub(crate) fn accept(&mut self, number: u64, clients_too: bool) -> AcceptOutcome<Socket>
        ensures { IsWanted clients_too result }
    {
        let outcome = self.next_at(number, clients_too);
        self.noted(outcome)
    }

    /// Returns whether a connection might be pending.
    pub(crate) fn has_pending(&self) -> bool
        ensures { result ≡ has_pending self.now }
    {
        self.pending.may_be()
    }
}

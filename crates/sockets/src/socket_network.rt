//! A network of sockets.

ghost use Rattle.std.specs.Prelude.{◌≡◌, None};
ghost use Rattle.connections.specs.Tables.{with_removed};
ghost use Rattle.sockets.specs.Pollers.{has_pending, unknown};

use crate::poller::Poller;
use crate::socket::Socket;
use connections::{AcceptOutcome, Network, Removed};
use std::time::{Clock, Duration};
use streams::Broken;

/// A poller, and a clock.
#[derive(Drop)]
pub struct SocketNetwork<C> {
    pub poller: Poller,
    pub clock: C,
}

impl<C: Clock> Network for SocketNetwork<C> {
    type Stream = Socket;

    ghost known = { λ _. unknown };

    ghost pending = { λ network. has_pending network.poller };

    fn now(&mut self) -> Result<u64, Broken> {
        match self.clock.monotonic() {
            Ok(since) => Ok(u64::try_from(since.as_millis()).unwrap_or(u64::MAX)),
            Err(_) => Err(Broken),
        }
    }

    fn wait(&mut self, most: Duration) -> Result<(), Broken> {
        self.poller.wait(most)
    }

    fn next_ready(&mut self) -> Option<u64> {
        self.poller.next_ready()
    }

    fn accept(&mut self, number: u64, clients_too: bool) -> AcceptOutcome<Socket> {
        self.poller.accept(number, clients_too)
    }

    fn close(&mut self, removed: Removed<Socket>)
        ensures { unknown ≡ with_removed unknown removed }
    {
        drop(removed);
    }

    fn has_pending(&self) -> bool {
        self.poller.has_pending()
    }
}

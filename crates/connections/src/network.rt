//! The network, which accepts connections, reports which ones are ready, and closes them.

ghost use Rattle.std.specs.Prelude.{◌≡◌, Bool};
ghost use Rattle.connections.specs.Tables.{NetworkEntry, IsUnsent, IsWanted, after_accept, after_look, after_ready, after_wait, with_removed};

use crate::client::Accepted;
use crate::removed::Removed;
use crate::stream::Stream;
use std::time::Duration;
use streams::Broken;

/// The outcome of asking a listener for a connection.
#[derive(Drop)]
pub enum AcceptOutcome<L> {
    /// The next connection.
    One(Accepted<L>),
    /// No connection is pending, or none that may be accepted now.
    Nobody,
    /// The next connection failed before it was accepted. Another one may be pending.
    NotNow,
    /// The system has no descriptor or memory left for another connection. Closing a connection makes room; one may be pending.
    Full,
}

/// A network accepts connections from clients and for orders, and reports which ones are ready. Readiness isn't a guarantee: a
/// connection that was reported may have nothing to read. A connection that ends is handed back, with the reason, and closed. A
/// network also has a clock.
pub trait Network {
    type Stream: Stream + Drop;

    /// What is known about the network.
    ghost known: { Self → NetworkEntry Self.Stream };

    /// Whether a connection might be pending.
    ghost pending: { Self → Bool };

    /// Returns the clock's current time, in milliseconds.
    fn now(&mut self) -> Result<u64, Broken>
        ensures { known self.new ≡ after_look result (known self.old) };

    /// Waits until a connection is ready or pending, but no longer than `most`.
    fn wait(&mut self, most: Duration) -> Result<(), Broken>
        ensures { known self.new ≡ after_wait result (known self.old) };

    /// Returns the number of the next ready connection; `None` once all have been reported.
    fn next_ready(&mut self) -> Option<u64>
        ensures { known self.new ≡ after_ready result (known self.old) };

    /// Accepts the next pending connection and assigns it the given number. Orders come first, and clients are accepted only if
    /// `clients_too` is set.
    fn accept(&mut self, number: u64, clients_too: bool) -> AcceptOutcome<Self::Stream>
        ensures fresh { IsUnsent Self.Stream.taken result }
        ensures wanted { IsWanted clients_too result }
        ensures known { known self.new ≡ after_accept result (known self.old) };

    /// Takes back the stream of a removed connection, and closes it.
    fn close(&mut self, removed: Removed<Self::Stream>)
        ensures { known self.new ≡ with_removed (known self.old) removed };

    /// Returns whether a connection might be pending.
    fn has_pending(&self) -> bool
        ensures { result ≡ pending self.now };
}

//! The sockets of this machine as streams, and the listeners that accept connections.
//!
//! [`Loopback`](loopback) listens on both loopback addresses, a [`Socket`](socket) is one connection, and [`Poller`](poller)
//! reports which connections are ready and whether another one is pending. [`SocketNetwork`](socket_network) adds a clock.
//! Nothing is guaranteed about what a socket reads or accepts, which address is bound, or what the system reports. So a
//! connection that is reported as ready may have nothing to read; a call on it then returns immediately.
#![tactic(auto)]

mod accept_error;
mod loopback;
mod poller;
mod socket;
mod socket_network;

pub use loopback::Loopback;
pub use poller::Poller;
pub use socket::Socket;
pub use socket_network::SocketNetwork;

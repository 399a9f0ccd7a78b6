//! The listeners on one port, at this machine's loopback addresses.

ghost use Rattle.std.specs.Prelude.{◌≡◌, Some, option_map};
ghost use Rattle.sockets.specs.declared.loopback.Address.{Address};
ghost use Rattle.sockets.specs.Errors.{has_no_ipv6, loopback_of};
ghost use Rattle.sockets.specs.Pollers.{other_address};

use crate::accept_error::{EADDRNOTAVAIL, EAFNOSUPPORT, errno};
use mio::net::TcpListener;
use std::io;
use std::net::{Ipv4Addr, Ipv6Addr, Net, SocketAddr};

/// A loopback address: 127.0.0.1 or [::1].
#[derive(Clone, Copy)]
pub(crate) enum Address {
    Ipv4,
    Ipv6,
}

/// The listeners on a port: at 127.0.0.1 and, if the machine has that address, at [::1].
#[derive(Drop)]
pub struct Loopback {
    pub ipv4: TcpListener,
    pub ipv6: Option<TcpListener>,
}

impl Address {
    /// Returns the other address.
    pub(crate) fn other(self) -> Address
        ensures { result ≡ other_address self }
    {
        match self {
            Address::Ipv4 => Address::Ipv6,
            Address::Ipv6 => Address::Ipv4,
        }
    }
}

/// Returns whether binding [::1] failed because the machine has no such address, so that no other program can bind it either.
///
/// Either the kernel has no IPv6 (EAFNOSUPPORT), or the loopback interface has no such address (EADDRNOTAVAIL). A service
/// manager that denies IPv6 to this program alone also causes the first error, and then another program can bind the address;
/// our service file doesn't do that.
fn has_no_ipv6(error: &io::Error) -> bool
    ensures { result ≡ has_no_ipv6 error.now }
{
    matches!(errno(error), EAFNOSUPPORT | EADDRNOTAVAIL)
}

impl Loopback {
    /// Returns the listeners on a port that is bound at 127.0.0.1, given the result of binding [::1].
    ///
    /// If the machine has no such address, there is only one listener. On any other error, returns that error, and the listener
    /// at 127.0.0.1 is closed.
    pub fn new(ipv4: TcpListener, ipv6: io::Result<TcpListener>) -> io::Result<Loopback>
        ensures { result ≡ loopback_of ipv4 ipv6 }
    {
        match ipv6 {
            Ok(ipv6) => Ok(Loopback {
                ipv4,
                ipv6: Some(ipv6),
            }),
            Err(error) if has_no_ipv6(&error) => Ok(Loopback { ipv4, ipv6: None }),
            Err(error) => Err(error),
        }
    }

    /// Binds a port at both addresses. Fails if the port is in use at either of them.
    ///
    /// A browser that opens `http://localhost` may try either address, and would send a clerk's code to any program that holds
    /// the other one. A socket at [::1] accepts no IPv4 connections, so no socket option is needed.
    pub fn bind(net: &impl Net, port: u16) -> io::Result<Loopback> {
        let ipv4 = TcpListener::bind(net, SocketAddr::from((Ipv4Addr::LOCALHOST, port)))?;
        let ipv6 = TcpListener::bind(net, SocketAddr::from((Ipv6Addr::LOCALHOST, port)));
        Loopback::new(ipv4, ipv6)
    }

    /// Returns the listener at an address, if there is one.
    pub(crate) fn at(&self, address: Address) -> Option<&TcpListener>
        ensures ipv4 { address ≡ Address.Ipv4 → option_map (λ l. l.now) result ≡ Some self.now.ipv4 }
        ensures ipv6 { address ≡ Address.Ipv6 → option_map (λ l. l.now) result ≡ self.now.ipv6 }
    {
        match address {
            Address::Ipv4 => Some(&self.ipv4),
            Address::Ipv6 => self.ipv6.as_ref(),
        }
    }
}

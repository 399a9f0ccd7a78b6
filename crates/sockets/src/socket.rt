//! A socket as a stream whose calls never block.

ghost use Rattle.std.specs.Prelude.{◌≡◌, ◌⊎◌, ◌<◌, ℕ, None, Ok, IfOk};

use connections::{Received, Stream};
use mio::net::{TcpStream, UnixStream};
use std::io;
use std::io::{ErrorKind, Read, Write};
use streams::Broken;

/// The socket of a connection, from a client or for an order.
#[derive(Drop)]
pub enum Socket {
    Client(TcpStream),
    Order(UnixStream),
}

/// Returns the result of a read. If the read would block, no bytes have arrived yet.
fn came(read: io::Result<usize>) -> Result<Received, Broken>
    ensures { (n : ℕ) → result ≡ Ok (Received.Bytes n) → (0 < n) × (read ≡ Ok n) }
{
    match read {
        Ok(0) => Ok(Received::End),
        Ok(count) => Ok(Received::Bytes(count)),
        Err(error) if error.kind() == ErrorKind::WouldBlock => Ok(Received::Nothing),
        Err(_) => Err(Broken),
    }
}

/// Returns the number of bytes that a write accepted, or 0 if it would block.
fn took(written: io::Result<usize>) -> Result<usize, Broken>
    ensures { IfOk result (λ n. (n ≡ 0) ⊎ (written ≡ Ok n)) }
{
    match written {
        Ok(count) => Ok(count),
        Err(error) if error.kind() == ErrorKind::WouldBlock => Ok(0),
        Err(_) => Err(Broken),
    }
}

impl Stream for Socket {
    ghost held = { λ _. None };

    ghost taken = { λ _. None };

    ghost failed = { λ _. None };

    ghost idle = { λ _. None };

    fn fetch(&mut self, room: &mut [u8]) -> Result<Received, Broken> {
        match self {
            Socket::Client(stream) => came(stream.read(room)),
            Socket::Order(stream) => came(stream.read(room)),
        }
    }

    fn put(&mut self, bytes: &[u8]) -> Result<usize, Broken> {
        match self {
            Socket::Client(stream) => took(stream.write(bytes)),
            Socket::Order(stream) => took(stream.write(bytes)),
        }
    }
}

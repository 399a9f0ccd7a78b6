//! Why the system didn't provide a connection.

ghost use Rattle.std.specs.Prelude.{◌≡◌};
ghost use Rattle.sockets.specs.Errors.{errno_of, is_out_of_room, outcome_of};

use crate::socket::Socket;
use connections::AcceptOutcome;
use std::io;

/// The error numbers of Linux that this crate distinguishes.
const ENOMEM: u32 = 12;

const ENFILE: u32 = 23;

const EMFILE: u32 = 24;

const ENOSPC: u32 = 28;

const ENOBUFS: u32 = 105;

const EAGAIN: u32 = 11;

pub(crate) const EAFNOSUPPORT: u32 = 97;

pub(crate) const EADDRNOTAVAIL: u32 = 99;

/// Returns the error's number on Linux, or 0 if the error doesn't come from the system.
pub(crate) fn errno(error: &io::Error) -> u32
    ensures { result ≡ errno_of error.now }
{
    match error.raw_os_error() {
        Some(code) => code.unsigned_abs(),
        None => 0,
    }
}

/// Returns whether the system has no descriptor or memory left for another connection.
///
/// Either the machine (ENFILE) or this process (EMFILE) is out of file descriptors, or out of memory (ENOMEM, ENOBUFS), or no
/// more sockets can be polled (ENOSPC).
fn is_out_of_room(error: &io::Error) -> bool
    ensures { result ≡ is_out_of_room error.now }
{
    matches!(errno(error), ENOMEM | ENFILE | EMFILE | ENOSPC | ENOBUFS)
}

/// Returns the meaning of an error from a listener.
///
/// Either no connection is pending (EAGAIN); or the system has no room for another connection, and closing one makes room; or,
/// for any other error, such as ECONNABORTED, the next connection failed.
pub(crate) fn outcome_of_error(error: &io::Error) -> AcceptOutcome<Socket>
    ensures { result ≡ outcome_of error.now }
{
    if errno(error) == EAGAIN {
        return AcceptOutcome::Nobody;
    }
    if is_out_of_room(error) {
        return AcceptOutcome::Full;
    }
    AcceptOutcome::NotNow
}

//! The socket next to a database, through which orders are sent to the program that serves the office.
//!
//! The socket's name is the database's name followed by `-serve`, and only the owner of the database may use the socket. A
//! program that serves a database has locked it (`file_lock.rt`), so a socket that already exists was left behind by a stop.

use mio::net::UnixListener;
use std::fs::{self, File, Files};
use std::io::{self, ErrorKind};
use std::net::Net;
use std::os::fd::{AsFd, AsRawFd};
use std::os::unix::fs::{FileTypeExt, MetadataExt};
use std::os::unix::net::{self, SocketAddr, UnixStream};

/// The suffix that is appended to a database's name to form the name of its socket.
const ENDING: &str = "-serve";

/// The permissions of the socket: only its owner may use it.
const RIGHTS: u32 = 0o600;

/// The permission bits of a mode.
const ALL_RIGHTS: u32 = 0o777;

/// The highest descriptor of the standard streams, which are 0 to 2.
const LAST_STREAM: i32 = 2;

/// The maximum number of connections waiting to be accepted.
const QUEUE: i32 = 128;

/// Returns whether a database belongs to this program's user. If root made a socket next to another user's database, only root
/// could use it; if that user could use it too, the user's orders would be performed with root's permissions.
fn is_own(rt: &HostRuntime, database: &str) -> io::Result<bool> {
    Ok(fs::metadata(rt, database)?.uid() == libc::geteuid())
}

/// The socket of a database that is served.
#[derive(Drop)]
pub struct OrderSocket {
    path: String,
}

/// Returns the result of the system call that has just returned the given status.
fn checked(status: i32) -> io::Result<()> {
    match status {
        0 => Ok(()),
        _ => Err(io::Error::from_raw_os_error(os::errno())),
    }
}

/// Returns the path of a database's socket.
fn path_of(rt: &HostRuntime, database: &str) -> io::Result<String> {
    Ok(format!(in rt.alloc(); "{database}{ENDING}")?)
}

/// Returns the mode of the socket at a path; `None` if nothing exists there. Fails if something other than a socket is there,
/// such as a link; if the socket belongs to another user; or if it can't be examined.
fn mode_at(rt: &HostRuntime, database: &str, path: &str) -> io::Result<Option<u32>> {
    let found = match fs::symlink_metadata(rt, path) {
        Ok(found) => found,
        Err(error) if error.kind() == ErrorKind::NotFound => return Ok(None),
        Err(error) => return Err(error),
    };
    let owner = fs::metadata(rt, database)?.uid();
    if found.file_type().is_socket() && found.uid() == owner {
        Ok(Some(found.mode()))
    } else {
        Err(ErrorKind::AlreadyExists.into())
    }
}

/// Returns the text that says why there is no socket.
pub fn reason_of(error: &io::Error) -> &'static str {
    match error.kind() {
        ErrorKind::AlreadyExists => "something else is at its path, or somebody else's",
        ErrorKind::InvalidInput => "its path is too long",
        ErrorKind::Unsupported => "the database belongs to another account",
        ErrorKind::PermissionDenied => "its folder can't be written",
        _ => "it can't be made",
    }
}

impl OrderSocket {
    /// Creates the socket of a locked database, and listens on it. A socket left behind by a stop is removed first.
    ///
    /// A socket's file gets the permissions that its descriptor has when the socket is bound, and no client can connect before
    /// the socket listens.
    pub fn listen(rt: &HostRuntime, database: &str) -> io::Result<(OrderSocket, UnixListener)> {
        if !is_own(rt, database)? {
            return Err(ErrorKind::Unsupported.into());
        }
        let path = path_of(rt, database)?;
        if mode_at(rt, database, path.as_str())?.is_some() {
            fs::remove_file(rt, path.as_str())?;
        }
        let address = SocketAddr::from_pathname(path.as_str())?;
        let socket = rt.unix_socket()?;
        checked(libc::fchmod(socket.as_raw_fd(), RIGHTS))?;
        rt.bind_unix(socket.as_fd(), &address)?;
        let order_socket = OrderSocket { path };
        let listening = checked(libc::net::listen(socket.as_raw_fd(), QUEUE));
        let listener = net::UnixListener::from(socket);
        let unblocked = listener.set_nonblocking(true);
        match listening.and(unblocked) {
            Ok(()) => Ok((order_socket, UnixListener::from_std(listener))),
            Err(error) => {
                order_socket.remove(rt);
                Err(error)
            }
        }
    }

    /// Removes the socket. The database must be locked.
    pub fn remove(&self, rt: &HostRuntime) {
        let _ = fs::remove_file(rt, self.path.as_str());
    }
}

/// Opens those descriptors of the standard streams that were closed. Otherwise a socket could get one of them, and output would
/// be sent to its peer.
pub fn reserved_descriptors(rt: &HostRuntime) -> io::Result<Vec<File>> {
    let mut held = Vec::new(rt.alloc());
    for _ in 0..=LAST_STREAM {
        let nothing = File::open(rt, "/dev/null")?;
        if nothing.as_raw_fd() > LAST_STREAM {
            break;
        }
        held.push(nothing)?;
    }
    Ok(held)
}

/// Returns whether a program serves a database. The connection made to find out is closed immediately.
pub fn is_served(rt: &HostRuntime, database: &str) -> bool {
    reach(rt, database).is_some()
}

/// Connects to the program that serves a database; returns `None` if no program does.
///
/// The socket must belong to the owner of the database, and be accessible only to that owner: anything could arrive through
/// another socket, and it would be printed.
pub fn reach(rt: &HostRuntime, database: &str) -> Option<UnixStream> {
    let path = path_of(rt, database).ok()?;
    let mode = mode_at(rt, database, path.as_str()).ok()??;
    if mode & ALL_RIGHTS != RIGHTS {
        return None;
    }
    let streams = reserved_descriptors(rt).ok()?;
    let stream = UnixStream::connect(rt, path.as_str()).ok();
    drop(streams);
    stream
}

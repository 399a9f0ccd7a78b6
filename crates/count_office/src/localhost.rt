//! This machine as a host: a port at its loopback addresses, and the socket next to the database that is served.
//!
//! No contract can say what a socket or a file contains, so nothing is promised here. `serving.rt` states what is served on any
//! host.

ghost use Rattle.std.specs.Prelude.{◌≡◌, ◌≢◌, None, ℕ};
ghost use Rattle.sockets.specs.declared.socket.Socket.{Socket};
ghost use Rattle.sockets.specs.Pollers.{unknown};

use crate::LockedDatabase;
use crate::codes_file::read_codes;
use crate::file_watch::FileWatch;
use crate::host::{Host, Opened};
use crate::moved_note::has_note;
use crate::notices::{tell_no_record_note, tell_recording, tell_serving};
use crate::order_socket::{OrderSocket, reason_of, reserved_descriptors};
use crate::record_note::note_recording;
use crate::served_file::LocalFile;
use codes::{Codes, CodesError};
use desk::Failure;
use mio::net::{TcpListener, UnixListener};
use server::FileNumbers;
use sockets::{Loopback, Poller, SocketNetwork};
use std::alloc::{AllocError, Global};
use std::cell::Cell;
use std::fs::File;
use std::io;
use std::io::{ErrorKind, Write};
use std::os::fd::AsFd;
use store::Fault;

/// This machine, the database that is served, the socket next to it, and the standard streams that are held open while serving.
#[derive(Drop)]
pub struct Localhost<'a> {
    place: LockedDatabase<'a>,
    socket: Option<OrderSocket>,
    streams: Option<Vec<File>>,
}

/// Whether the network of an office has been opened, so that it may have been served. Also what is left of an office that was served and
/// has moved: whether there was one, and the listeners on its port, which stay open. So no other program gets the port, and clients that
/// connect meanwhile are served by the new office. And whether the note that an order isn't recorded was looked for.
#[derive(Drop)]
pub struct Succession {
    pub is_open: Cell<bool>,
    pub has_moved: Cell<bool>,
    pub is_noted: Cell<bool>,
    pub listeners: Cell<Option<Loopback>>,
}

impl Succession {
    /// Returns the listeners on a port at this machine's loopback addresses: those that were left, or new ones. Keeps them open until
    /// they are closed here, if the system has room for other descriptors of them.
    fn listeners_at(&self, rt: &HostRuntime, port: u16) -> io::Result<Loopback> {
        let clients = match self.listeners.take() {
            Some(clients) => clients,
            None => Loopback::bind(rt, port)?,
        };
        self.listeners.set(duplicate(&clients).ok());
        Ok(clients)
    }

    /// Closes the listeners that were kept open.
    fn close(&self) {
        self.listeners.set(None);
    }
}

/// Returns another descriptor of a listener.
fn duplicate_one(listener: &TcpListener) -> io::Result<TcpListener> {
    Ok(TcpListener::from(listener.as_fd().try_clone_to_owned()?))
}

/// Returns the same listeners, with other descriptors.
fn duplicate(clients: &Loopback) -> io::Result<Loopback> {
    let ipv4 = duplicate_one(&clients.ipv4)?;
    let ipv6 = match &clients.ipv6 {
        Some(ipv6) => Some(duplicate_one(ipv6)?),
        None => None,
    };
    Ok(Loopback { ipv4, ipv6 })
}

/// Listens on a port at this machine's loopback addresses and, if there is one, on the socket for orders next to the database.
/// Fails if the port is in use at either address. No contract can say which addresses are bound; `tools/try both-addresses`
/// tests it.
fn listen<'a>(
    place: LockedDatabase<'a>,
    port: u32,
    orders: Option<UnixListener>,
) -> io::Result<SocketNetwork<&'a HostRuntime>> {
    let rt = place.rt;
    let Ok(port) = u16::try_from(port) else {
        return Err(io::Error::from(ErrorKind::InvalidInput));
    };
    let clients = place.succession.listeners_at(rt, port)?;
    let poller = Poller::new(rt, rt.alloc(), clients, orders)?;
    Ok(SocketNetwork { poller, clock: rt })
}

/// Returns the failure to print when the network can't be opened.
fn listening_failure(error: &io::Error) -> Failure {
    match error.kind() {
        ErrorKind::OutOfMemory => Failure::Office(Fault::Memory),
        _ => Failure::Output,
    }
}

/// Prints to the error output that there is no socket for orders. The office is served even if this can't be printed.
fn warn_no_socket(rt: &HostRuntime, error: &io::Error) {
    let mut stderr = rt.stderr();
    let why = reason_of(error);
    let _ = writeln!(stderr, "no socket for orders next to the database: {why}");
}

/// Returns the numbers, separated by commas.
fn list_of(alloc: Global, numbers: &[u32]) -> Result<String, AllocError> {
    let mut list = String::new(alloc);
    for number in numbers {
        if !list.is_empty() {
            list.push_str(", ")?;
        }
        list.push_str(format!(in alloc; "{number}")?.as_str())?;
    }
    Ok(list)
}

/// Prints a line to standard error if any clerks' codes are weak. The office is served even if this can't be printed.
fn warn_of_weak(rt: &HostRuntime, codes: &Codes) {
    let weak = codes.weak_clerks();
    if weak.is_empty() {
        return;
    }
    if let Ok(clerks) = list_of(rt.alloc(), weak) {
        let mut stderr = rt.stderr();
        let _ = writeln!(
            stderr,
            "codes of clerks {clerks} are short, and may be guessed: make new ones with 'count-office DB codes FILE 1-40'"
        );
    }
}

/// Opens the network on a port, and looks up the file of the locked database, and whether another office has taken its place.
fn open_at<'a>(
    place: LockedDatabase<'a>,
    port: u32,
    orders: Option<UnixListener>,
) -> Result<Opened<SocketNetwork<&'a HostRuntime>, LocalFile<'a>>, Failure> {
    let rt = place.rt;
    let network = match listen(place, port, orders) {
        Ok(network) => network,
        Err(error) => return Err(listening_failure(&error)),
    };
    let Ok((device, inode)) = place.lock.numbers() else {
        return Err(Failure::Office(Fault::Store));
    };
    let Some(file_watch) = FileWatch::of(rt, place.found, place.lock) else {
        return Err(Failure::FileGone);
    };
    let Ok(has_moved) = has_note(rt, place.found.database()) else {
        return Err(Failure::Office(Fault::Store));
    };
    let is_moved = Cell::new(has_moved);
    Ok(Opened {
        network,
        served_file: LocalFile {
            rt,
            file_watch,
            second: place.second,
            is_moved,
        },
        file: FileNumbers { device, inode },
    })
}

impl<'a> Localhost<'a> {
    /// Returns this machine as a host, for a locked database.
    pub fn at(place: LockedDatabase<'a>) -> Localhost<'a> {
        Localhost {
            place,
            socket: None,
            streams: None,
        }
    }

    /// Creates the order socket next to the database. If that fails, prints a line to the error output; then no orders can be
    /// sent to the server.
    fn listen_for_orders(&mut self) -> Option<UnixListener> {
        let rt = self.place.rt;
        match OrderSocket::listen(rt, self.place.found.database()) {
            Ok((socket, orders)) => {
                self.socket = Some(socket);
                Some(orders)
            }
            Err(error) => {
                warn_no_socket(rt, &error);
                None
            }
        }
    }

    /// Prints which office is served now, if it took the place of one that was served.
    fn tell_if_successor(&self) {
        if self.place.is_successor {
            tell_serving(self.place.rt, self.place.path);
        }
    }

    /// Prints in which file the requests are recorded, if there is a second record, and writes the note that says so.
    fn begin_recording(&self) {
        let LockedDatabase { rt, found, .. } = self.place;
        if let Some(record) = self.place.second {
            tell_recording(rt, found.database(), record);
            if note_recording(rt, found.database(), record).is_err() {
                tell_no_record_note(rt, found.database());
            }
        }
    }

    /// Prints what is served now, and where it is recorded, unless another office has taken its place.
    fn tell_opened(&self, is_moved: bool) {
        if !is_moved {
            self.begin_recording();
            self.tell_if_successor();
        }
    }

    /// Removes the socket next to the database, and closes the streams that were held open.
    fn clear(&mut self) {
        if let Some(socket) = self.socket.take() {
            socket.remove(self.place.rt);
        }
        self.streams = None;
    }
}

impl<'a> Host for Localhost<'a> {
    type Sockets = SocketNetwork<&'a HostRuntime>;

    type OfficeFile = LocalFile<'a>;

    ghost known = { λ _ _. unknown };

    ghost codes_at = { λ _ _. None };

    ghost file = { λ _. None };

    fn read_codes(&self, path: &str) -> Result<Codes, CodesError> {
        let codes = read_codes(self.place.rt, path)?;
        warn_of_weak(self.place.rt, &codes);
        Ok(codes)
    }

    fn open(
        &mut self,
        port: u32,
    ) -> Result<Opened<SocketNetwork<&'a HostRuntime>, LocalFile<'a>>, Failure> {
        match reserved_descriptors(self.place.rt) {
            Ok(streams) => self.streams = Some(streams),
            Err(error) => return Err(listening_failure(&error)),
        }
        let orders = self.listen_for_orders();
        let opened = open_at(self.place, port, orders);
        match &opened {
            Ok(opened) => {
                self.place.succession.is_open.set(true);
                self.tell_opened(opened.served_file.is_moved.get());
            }
            Err(_) => {
                self.clear();
                self.place.succession.close();
            }
        }
        opened
    }

    fn close(&mut self, port: u32, opened: Opened<SocketNetwork<&'a HostRuntime>, LocalFile<'a>>)
        ensures known { unknown {L = Socket} ≡ unknown }
        ensures others { (other : ℕ) → other ≢ port → unknown {L = Socket} ≡ unknown }
    {
        let _ = port;
        let succession = self.place.succession;
        if opened.served_file.is_moved.get() {
            succession.has_moved.set(true);
        } else {
            succession.close();
        }
        drop(opened);
        self.clear();
    }
}

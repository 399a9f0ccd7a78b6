//! An order for a database. It is performed on the file, or sent to the program that serves it; or it waits while another
//! program has locked the file.

ghost use Rattle.std.specs.Prelude.{◌≡◌, ◌-◌, ◌^◌, ◌<◌, OnErr, Some};

use crate::file_lock::FileLock;
use crate::localhost::{Localhost, Succession};
use crate::moved_note::moved_to;
use crate::notices::{
    LockHolder, tell_if_moved, tell_if_unrecorded, warn_foreign_log, warn_if_open_to_others,
    warn_waited, warn_waiting,
};
use crate::order_client::{OrderReply, Sent, print_reply, send_order};
use crate::order_files::{OrderFiles, read_order_and_files};
use crate::path_state::{PathKind, PathState};
use crate::record_note::forget_recording;
use crate::record_remark::{record_kept, tell_kept};
use crate::screen::Screen;
use crate::{
    LockedDatabase, close, dispatch_order, is_busy, order_socket, takes_second, wants_progress,
};
use desk::{Failure, Order, ProgressSink, Task, tell_failure};
use sqlite::{Connection, Wary};
use std::alloc::{AllocError, Global};
use std::fs;
use std::io::{self, ErrorKind, IsTerminal};
use std::time::{Clock, Duration};
use store::Fault;
use store::fault::fault_of;
use streams::{Counted, Sink};

/// The maximum number of pauses between attempts to perform an order whose file is locked. They add up to ten seconds.
const PAUSES: u32 = 1000;

/// The duration of a pause, in milliseconds.
const PAUSE: u64 = 10;

/// The number of pauses after which the program tells a person at a terminal what the order is waiting for.
const PAUSES_UNSEEN: u32 = 50;

/// An order, its words starting with DB, the path of its database, and that of a second record, which is empty if there is none. Also
/// whether the database is that of a new office that takes the place of one that was served, and what is left of that one.
#[derive(Clone, Copy)]
pub struct OrderRun<'a> {
    pub rt: &'a HostRuntime,
    pub path: &'a str,
    pub words: &'a [&'a str],
    pub order: &'a Order<'a>,
    pub second: &'a str,
    pub is_successor: bool,
    pub succession: &'a Succession,
}

/// Prints, once, that an order isn't recorded which could have a second record and has none, if the office was served with one.
fn note_unrecorded(place: LockedDatabase<'_>, order: &Order<'_>) {
    let is_open = place.second.is_none() && takes_second(order);
    if is_open && !place.succession.is_noted.replace(true) {
        tell_if_unrecorded(place.rt, place.found.database());
    }
}

/// Removes the note that the office in a locked database is served with a second record, if it was served with one and that has ended by
/// itself.
fn forget_if_ended(place: LockedDatabase<'_>, status: u8) {
    if status == 0 && place.second.is_some() && place.succession.is_open.get() {
        forget_recording(place.rt, place.found.database());
    }
}

/// Opens the locked database at a path, performs an order on it, and closes it. If the order fails, nothing is left that didn't
/// exist before. Returns an error if another program has the file open; nothing has been printed then.
///
/// Two phases of writing depend on the contract of `sqlite`: `Connection::open_from` creates the log if it doesn't exist, and
/// recovers what it contains; `close` copies the log. The contract of `perform` covers everything in between.
fn open_and_perform<O: Sink, E: Sink>(
    place: LockedDatabase<'_>,
    order: &Order<'_>,
    out: &mut O,
    err: &mut E,
) -> Result<u8, LockHolder>
    requires out { O.failed out.old < 2 ^ 64 - 1 }
    requires err { E.failed err.old < 2 ^ 64 - 1 }
    ensures { OnErr result ((out.new ≡ out.old) × (err.new ≡ err.old)) }
{
    let rt = place.rt;
    match Connection::open_from(rt, place.path, false, Wary) {
        Ok(conn) => {
            if place.found.has_foreign_log(rt) {
                drop(conn);
                return Ok(refuse_log(rt, place.path, err));
            }
            tell_if_moved(rt, place.found.database());
            note_unrecorded(place, order);
            let mut host = Localhost::at(place);
            let (status, conn) = dispatch_order(place, &mut host, order, conn, out, err);
            if status != 0 {
                place.found.remove_created(rt);
            }
            forget_if_ended(place, status);
            let _ = close(conn);
            Ok(status)
        }
        Err((error, left)) if is_busy(&error) => {
            drop(left);
            Err(LockHolder::Program)
        }
        Err((error, left)) => {
            place.found.remove_created(rt);
            drop(left);
            Ok(tell_failure(Failure::Office(fault_of(error)), err))
        }
    }
}

/// Prints fault 102, followed by a line saying that the log of a database belongs to another user.
fn refuse_log<E: Sink>(rt: &HostRuntime, path: &str, err: &mut E) -> u8
    requires { E.failed err.old < 2 ^ 64 - 1 }
{
    let status = tell_failure(Failure::Office(Fault::Store), err);
    warn_foreign_log(rt, path);
    status
}

/// Returns why an order must not open anything at a path; `None` if it may. Only `init` creates an office, and only if no log
/// contains anything; for any other order, there is no office at the path.
fn why_unopened(kind: PathKind, order: &Order<'_>) -> Option<Fault>
    ensures alone { kind ≡ PathKind.LogAlone → result ≡ Some Fault.WrongDatabase }
    ensures unseen { kind ≡ PathKind.LogUnreadable → result ≡ Some Fault.Store }
{
    match kind {
        PathKind::Taken => None,
        PathKind::Free | PathKind::Empty if matches!(order, Order::Perform(Task::Init)) => None,
        PathKind::Free | PathKind::Empty | PathKind::LogAlone => Some(Fault::WrongDatabase),
        PathKind::LogUnreadable => Some(Fault::Store),
    }
}

/// Prints a reply, with progress if a person is watching.
fn print_watched<O: Sink, E: Sink>(
    request: OrderRun<'_>,
    reply: OrderReply,
    out: &mut O,
    err: &mut E,
) -> u8
    requires out { O.failed out.old < 2 ^ 64 - 1 }
    requires err { E.failed err.old < 2 ^ 64 - 1 }
{
    match request.order {
        Order::Perform(task) if wants_progress(request.rt, task) => {
            let mut watched = ProgressSink::new(out, request.rt.stderr());
            print_reply(request.rt.alloc(), reply, &mut watched, err)
        }
        _ => print_reply(request.rt.alloc(), reply, out, err),
    }
}

/// Reads the parts of an order that are sent to a server, unless they have been read before or no program serves the database.
fn read_order_files(
    request: OrderRun<'_>,
    database: &str,
    brought: &mut Option<OrderFiles>,
) -> Result<(), Fault> {
    if brought.is_none() && order_socket::is_served(request.rt, database) {
        *brought = Some(read_order_and_files(request.rt, request.words, request.order)?);
    }
    Ok(())
}

/// Sends the parts of an order to the program that serves the database, and prints the reply. After a copy or a switch, prints where the
/// second record is, if the office is served with one. Returns what became of sending; the status if there was a reply.
fn send_and_print<O: Sink, E: Sink>(
    request: OrderRun<'_>,
    database: &str,
    order_files: &OrderFiles,
    out: &mut O,
    err: &mut E,
) -> Result<u8, LockHolder>
    requires out { O.failed out.old < 2 ^ 64 - 1 }
    requires err { E.failed err.old < 2 ^ 64 - 1 }
    ensures { OnErr result ((out.new ≡ out.old) × (err.new ≡ err.old)) }
{
    let rt = request.rt;
    let kept = record_kept(rt, database, request.order);
    let status = match send_order(rt, database, order_files) {
        Sent::Replying(reply) => print_watched(request, reply, out, err),
        Sent::Unread => return Err(LockHolder::Order),
        Sent::Failed(fault) => return Ok(tell_failure(Failure::Office(fault), err)),
    };
    if let Some(kept) = kept {
        tell_kept(rt, request.order, status, kept.as_str());
    }
    Ok(status)
}

/// Sends an order to the program that has locked the order's database, and returns the status. The order's files are read
/// before the connection is made, however long that takes. Returns an error if the program doesn't serve the database, or no
/// longer does; nothing has been printed then.
fn hand_over<O: Sink, E: Sink>(
    request: OrderRun<'_>,
    database: &str,
    brought: &mut Option<OrderFiles>,
    out: &mut O,
    err: &mut E,
) -> Result<u8, LockHolder>
    requires out { O.failed out.old < 2 ^ 64 - 1 }
    requires err { E.failed err.old < 2 ^ 64 - 1 }
    ensures { OnErr result ((out.new ≡ out.old) × (err.new ≡ err.old)) }
{
    if let Err(fault) = read_order_files(request, database, brought) {
        return Ok(tell_failure(Failure::Office(fault), err));
    }
    let Some(order_files) = brought else {
        return Err(LockHolder::Order);
    };
    // The program that serves the database doesn't append to the second record of an order.
    if !request.second.is_empty() {
        return Ok(tell_failure(Failure::BeingServed, err));
    }
    send_and_print(request, database, &*order_files, out, err)
}

/// Returns whether the error means that another order has locked the database or has just created it.
fn is_locked_by_other(rt: &HostRuntime, database: &str, error: &io::Error) -> bool {
    match error.kind() {
        ErrorKind::WouldBlock => true,
        ErrorKind::AlreadyExists => {
            fs::symlink_metadata(rt, database).is_ok_and(|found| found.is_file())
        }
        _ => false,
    }
}

/// Returns the path of an order's second record, if there is one.
fn second_of<'a>(request: OrderRun<'a>) -> Option<&'a str> {
    if request.second.is_empty() {
        None
    } else {
        Some(request.second)
    }
}

/// Performs an order on the locked database at a path. Returns an error if another program has the file open; nothing has been
/// printed then.
fn perform_locked<O: Sink, E: Sink>(
    request: OrderRun<'_>,
    found: &PathState,
    lock: &FileLock,
    brought: &Option<OrderFiles>,
    out: &mut O,
    err: &mut E,
) -> Result<u8, LockHolder>
    requires out { O.failed out.old < 2 ^ 64 - 1 }
    requires err { E.failed err.old < 2 ^ 64 - 1 }
    ensures { OnErr result ((out.new ≡ out.old) × (err.new ≡ err.old)) }
{
    let place = LockedDatabase {
        rt: request.rt,
        path: request.path,
        found,
        lock,
        brought,
        second: second_of(request),
        is_successor: request.is_successor,
        succession: request.succession,
    };
    open_and_perform(place, request.order, out, err)
}

/// Locks the database that was found and performs an order on it, or sends the order to the program that serves it. Returns an
/// error if another program has locked the file; nothing has been printed then.
fn lock_and_perform<O: Sink, E: Sink>(
    request: OrderRun<'_>,
    found: &PathState,
    brought: &mut Option<OrderFiles>,
    out: &mut O,
    err: &mut E,
) -> Result<u8, LockHolder>
    requires out { O.failed out.old < 2 ^ 64 - 1 }
    requires err { E.failed err.old < 2 ^ 64 - 1 }
    ensures { OnErr result ((out.new ≡ out.old) × (err.new ≡ err.old)) }
{
    let rt = request.rt;
    match found.hold(rt) {
        Ok(lock) => {
            let done = perform_locked(request, found, &lock, &*brought, out, err);
            drop(lock);
            done
        }
        Err(error) if is_locked_by_other(rt, found.database(), &error) => {
            hand_over(request, found.database(), brought, out, err)
        }
        Err(error) if error.kind() == ErrorKind::OutOfMemory => {
            Ok(tell_failure(Failure::Office(Fault::Memory), err))
        }
        Err(_) => Ok(tell_failure(Failure::Office(Fault::Store), err)),
    }
}

/// Checks what is at the path of an order's database, and performs the order if it may be performed there. Returns an error if
/// another program has locked the file; nothing has been printed then.
fn attempt<O: Sink, E: Sink>(
    request: OrderRun<'_>,
    brought: &mut Option<OrderFiles>,
    out: &mut O,
    err: &mut E,
) -> Result<u8, LockHolder>
    requires out { O.failed out.old < 2 ^ 64 - 1 }
    requires err { E.failed err.old < 2 ^ 64 - 1 }
    ensures { OnErr result ((out.new ≡ out.old) × (err.new ≡ err.old)) }
{
    let Ok(found) = PathState::at(request.rt, request.path) else {
        return Ok(tell_failure(Failure::Office(Fault::Memory), err));
    };
    if let Some(fault) = why_unopened(found.kind, request.order) {
        return Ok(tell_failure(Failure::Office(fault), err));
    }
    if found.has_foreign_log(request.rt) {
        return Ok(refuse_log(request.rt, request.path, err));
    }
    lock_and_perform(request, &found, brought, out, err)
}

/// Performs an order on the database at a path, and returns its status. While another program has locked the file and doesn't
/// serve it, the order waits, for at most ten seconds. After that, the order fails with fault 102, and the program prints what
/// has locked the file.
fn perform_with_retries<O: Sink, E: Sink>(request: OrderRun<'_>, out: &mut O, err: &mut E) -> u8
    requires out { O.failed out.old < 2 ^ 64 - 1 }
    requires err { E.failed err.old < 2 ^ 64 - 1 }
{
    let OrderRun { rt, path, .. } = request;
    warn_if_open_to_others(rt, path);
    let mut brought = None;
    let mut holder = LockHolder::Order;
    for pauses in 0..=PAUSES {
        match attempt(request, &mut brought, out, err) {
            Ok(status) => return status,
            Err(found) => holder = found,
        }
        if pauses == PAUSES_UNSEEN {
            warn_waiting(rt, path, holder);
        }
        rt.sleep(Duration::from_millis(PAUSE));
    }
    let status = tell_failure(Failure::Office(Fault::Store), err);
    warn_waited(rt, path, holder);
    status
}

/// Performs an order on the database at a path, without a second record, and prints nothing but what the order itself prints. Returns its status; `None` if
/// another program has locked the file for half a second.
pub fn perform_quietly<O: Sink, E: Sink>(
    request: OrderRun<'_>,
    out: &mut O,
    err: &mut E,
) -> Option<u8>
    requires out { O.failed out.old < 2 ^ 64 - 1 }
    requires err { E.failed err.old < 2 ^ 64 - 1 }
{
    let request = OrderRun {
        second: "",
        ..request
    };
    let mut brought = None;
    for _ in 0..PAUSES_UNSEEN {
        if let Ok(status) = attempt(request, &mut brought, out, err) {
            return Some(status);
        }
        request.rt.sleep(Duration::from_millis(PAUSE));
    }
    None
}

/// A new office that took the place of one that was served: the path of its database, and that of its second record, which is empty if
/// there is none.
#[derive(Drop)]
struct Successor {
    path: String,
    second: String,
}

/// Returns the path of another second record; an empty one if there is none.
fn numbered(alloc: Global, path: &str, number: u64) -> Result<String, AllocError> {
    if path.is_empty() {
        return Ok(String::new(alloc));
    }
    format!(in alloc; "{path}-{number}")
}

impl Successor {
    /// Returns the office that took the place of the one at a path, or the failure if no note says so. The second record of the order's
    /// first office gives the name of its own, together with its number.
    fn find(request: OrderRun<'_>, path: &str, number: u64) -> Result<Successor, Failure> {
        let rt = request.rt;
        let found = fs::canonicalize(rt, path).and_then(|database| moved_to(rt, database.as_str()));
        let path = match found {
            Ok(Some(path)) => path,
            Err(error) if error.kind() == ErrorKind::OutOfMemory => {
                return Err(Failure::Office(Fault::Memory));
            }
            _ => return Err(Failure::FileGone),
        };
        match numbered(rt.alloc(), request.second, number) {
            Ok(second) => Ok(Successor { path, second }),
            Err(AllocError) => Err(Failure::Office(Fault::Memory)),
        }
    }

    /// Returns the order for this office.
    fn run<'a>(&'a self, request: OrderRun<'a>) -> OrderRun<'a> {
        OrderRun {
            path: self.path.as_str(),
            second: self.second.as_str(),
            is_successor: true,
            ..request
        }
    }
}

/// Prints a failure to the error output, and returns the status.
fn tell_unfollowed(rt: &HostRuntime, failure: Failure) -> u8 {
    tell_failure(failure, &mut Counted::new(rt.stderr()))
}

/// Performs an order on the database at a path, with outputs of its own, and returns its status.
fn perform_anew(request: OrderRun<'_>) -> u8 {
    let (stdout, stderr) = (request.rt.stdout(), request.rt.stderr());
    let (is_out, is_err) = (stdout.is_terminal(), stderr.is_terminal());
    let mut out = Screen::new(Counted::new(stdout), is_out);
    let mut err = Screen::new(Counted::new(stderr), is_err);
    perform_with_retries(request, &mut out, &mut err)
}

/// Performs an order on the database at a path, and returns its status. If the order serves an office and a new one takes its place,
/// serves that one, and so on; the status is that of the last one. If there is a second record FILE, the next offices have theirs in
/// FILE-2, FILE-3 and so on.
pub fn perform_and_follow<O: Sink, E: Sink>(request: OrderRun<'_>, out: &mut O, err: &mut E) -> u8
    requires out { O.failed out.old < 2 ^ 64 - 1 }
    requires err { E.failed err.old < 2 ^ 64 - 1 }
{
    let OrderRun { rt, succession, .. } = request;
    let mut status = perform_with_retries(request, out, err);
    let mut successor: Option<Successor> = None;
    for number in 2..u64::MAX {
        if !succession.has_moved.replace(false) {
            return status;
        }
        let last = match &successor {
            Some(last) => last.path.as_str(),
            None => request.path,
        };
        let new = match Successor::find(request, last, number) {
            Ok(new) => new,
            Err(failure) => return tell_unfollowed(rt, failure),
        };
        status = perform_anew(new.run(request));
        successor = Some(new);
    }
    status
}

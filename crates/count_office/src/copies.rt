//! Copying an office to new files on this machine: an office opened by an order, or one that is being served.

ghost use Rattle.std.specs.Prelude.{◌≡◌, ◌-◌, ◌^◌, ◌<◌, IsSomeAnd};
ghost use Rattle.sqlite.specs.Closing.{IsCopied};
ghost use Rattle.sqlite.specs.Held.{state};
ghost use Rattle.sqlite.specs.State.{HasCleanDisk};
ghost use Rattle.sqlite_wal.specs.Reads.{AreClean};
ghost use Rattle.tables.specs.Reading.{OnlyReads};
ghost use Rattle.office.specs.Answers.{IsReadAt, WhenOpenAt};
ghost use Rattle.desk.specs.Pages.{Tells, outputs_of};
ghost use Rattle.server.specs.ServedOrders.{IsCopyTold};
ghost use Rattle.count_office.specs.Done.{EndsCopy};

use crate::new_file::NewFile;
use crate::{close, is_busy};
use desk::{CopyState, Failure, copy_office, copy_open, tell_failure};
use office::Office;
use sqlite::{Alter, Connection, FileStore, Files, Wary};
use sqlite_disk::Disk;
use store::Fault;
use store::fault::fault_of;
use streams::Sink;

/// Makes a copy of the office at a path where nothing exists yet. Only reads the office.
pub fn copy<S: Alter, O: Sink, E: Sink>(
    rt: &HostRuntime,
    mut conn: Connection<S>,
    path: &str,
    out: &mut O,
    err: &mut E,
) -> (u8, Connection<S>)
    requires out { O.failed out.old < 2 ^ 64 - 1 }
    requires err { E.failed err.old < 2 ^ 64 - 1 }
    ensures { OnlyReads (state S.Store conn) (state S.Store result.1) }
{
    let new_file = match NewFile::make(rt, path) {
        Ok(new_file) => new_file,
        Err(failure) => return (tell_failure(failure, err), conn),
    };
    match Connection::open_from(rt, path, false, Wary) {
        Ok(made) => {
            let status = fill(rt, &new_file, &mut conn, made, out, err);
            (status, conn)
        }
        Err((error, left)) => {
            if !is_busy(&error) {
                new_file.clear(rt);
            }
            drop(left);
            (tell_failure(failure_of(error), err), conn)
        }
    }
}

/// Returns the failure to print if a copy can't be made. An out-of-memory error is reported as such.
pub fn failure_of(error: sqlite::Error) -> Failure {
    match fault_of(error) {
        Fault::Memory => Failure::Office(Fault::Memory),
        _ => Failure::CopyFailed,
    }
}

/// Returns why the copy must not be written to the files that were made for it; `None` if it may be. Either another program has
/// since made an office in them, which is left there; or the files can't be examined.
pub fn why_not_begun(rt: &HostRuntime, new_file: &NewFile) -> Option<Failure> {
    match new_file.hold_none(rt) {
        Ok(true) => None,
        Ok(false) => Some(Failure::CopyTaken),
        Err(_) => {
            new_file.clear(rt);
            Some(Failure::CopyFailed)
        }
    }
}

/// Closes the files that were made for a copy, depending on what is known about their contents. If no copy is reported, removes
/// them while they are still locked. With status 0, the database file alone is the copy.
pub fn finish<D: Disk + Drop, E: Sink>(
    rt: &HostRuntime,
    new_file: &NewFile,
    made: Connection<FileStore<D>>,
    status: u8,
    state: CopyState,
    err: &mut E,
) -> u8
    requires { status ≡ 0 → E.failed err.old < 2 ^ 64 - 1 }
    ensures other { ¬ (status ≡ 0) → (result ≡ status) × (err.new ≡ err.old) }
    ensures whole { status ≡ 0 → EndsCopy E.taken E.failed err.old err.new result }
{
    match state {
        CopyState::Whole => {}
        CopyState::Untouched | CopyState::Unknown => new_file.remove(rt),
    }
    if status != 0 {
        let _ = close(made);
        return status;
    }
    closed_copy(made, err).0
}

/// Copies the office on an open connection to the files that were made for the copy, and closes them.
fn fill<S: Alter, D: Disk + Drop, O: Sink, E: Sink>(
    rt: &HostRuntime,
    new_file: &NewFile,
    conn: &mut Connection<S>,
    mut made: Connection<FileStore<D>>,
    out: &mut O,
    err: &mut E,
) -> u8
    requires out { O.failed out.old < 2 ^ 64 - 1 }
    requires err { E.failed err.old < 2 ^ 64 - 1 }
    ensures { OnlyReads (state S.Store conn.old) (state S.Store conn.new) }
{
    if let Some(failure) = why_not_begun(rt, new_file) {
        return tell_failure(failure, err);
    }
    let (status, state) = copy_office(rt.alloc(), conn, &mut made, out, err);
    finish(rt, new_file, made, status, state, err)
}

/// Copies an open office, which stays open, to the files that were made for the copy, and closes them.
fn fill_open<S: Alter, D: Disk + Drop, O: Sink, E: Sink>(
    rt: &HostRuntime,
    new_file: &NewFile,
    office: &mut Office<S>,
    mut made: Connection<FileStore<D>>,
    out: &mut O,
    err: &mut E,
) -> u8
    requires out { O.failed out.old < 2 ^ 64 - 1 }
    requires err { E.failed err.old < 2 ^ 64 - 1 }
    ensures told { let outputs = outputs_of O.taken O.failed E.taken E.failed in Tells (outputs out.old err.old) (outputs out.new err.new) result
        (λ _ page. WhenOpenAt (state S.Store) office.old office.new (λ s. IsCopyTold s page)) }
    ensures stays { WhenOpenAt (state S.Store) office.old office.new (λ s. IsReadAt s office.new.closed (state S.Store office.new.held)) }
    ensures clean { HasCleanDisk (state S.Store office.new.held) → HasCleanDisk (state S.Store office.old.held) }
{
    if let Some(failure) = why_not_begun(rt, new_file) {
        return tell_failure(failure, err);
    }
    let (status, state) = copy_open(rt.alloc(), office, &mut made, out, err);
    finish(rt, new_file, made, status, state, err)
}

/// Makes a copy of the open office at a path where nothing exists yet. The office stays open and is only read.
pub fn copy_served<S: Alter, O: Sink, E: Sink>(
    rt: &HostRuntime,
    office: &mut Office<S>,
    path: &str,
    out: &mut O,
    err: &mut E,
) -> u8
    requires out { O.failed out.old < 2 ^ 64 - 1 }
    requires err { E.failed err.old < 2 ^ 64 - 1 }
    ensures told { let outputs = outputs_of O.taken O.failed E.taken E.failed in Tells (outputs out.old err.old) (outputs out.new err.new) result
        (λ _ page. WhenOpenAt (state S.Store) office.old office.new (λ s. IsCopyTold s page)) }
    ensures stays { WhenOpenAt (state S.Store) office.old office.new (λ s. IsReadAt s office.new.closed (state S.Store office.new.held)) }
    ensures clean { HasCleanDisk (state S.Store office.new.held) → HasCleanDisk (state S.Store office.old.held) }
{
    let new_file = match NewFile::make(rt, path) {
        Ok(new_file) => new_file,
        Err(failure) => return tell_failure(failure, err),
    };
    match Connection::open_from(rt, path, false, Wary) {
        Ok(made) => fill_open(rt, &new_file, office, made, out, err),
        Err((error, left)) => {
            if !is_busy(&error) {
                new_file.clear(rt);
            }
            drop(left);
            tell_failure(failure_of(error), err)
        }
    }
}

/// Closes a copy, which completes its database file, and returns the status: 0; or 3 if the log can't be copied into the
/// database file, which is reported.
fn closed_copy<D: Disk + Drop, E: Sink>(
    made: Connection<FileStore<D>>,
    err: &mut E,
) -> (u8, Option<Files<D>>)
    requires { E.failed err.old < 2 ^ 64 - 1 }
    ensures ends { EndsCopy E.taken E.failed err.old err.new result.0 }
    ensures alone { result.0 ≡ 0 → IsSomeAnd result.1 (λ files. AreClean D.Disk files.log files.db → IsCopied made files) }
{
    match close(made) {
        Some(files) => (0, Some(files)),
        None => (tell_failure(Failure::CopyFailed, err), None),
    }
}

//! Makes a new office from the journal of another, in new files on this machine. The other is an office that an order opened, or one
//! that is being served.

ghost use Rattle.std.specs.Prelude.{◌≡◌, ◌-◌, ◌^◌, ◌<◌, IfOk};
ghost use Rattle.sqlite.specs.Held.{state};
ghost use Rattle.sqlite.specs.Steps.{IsEmpty, over_memory};
ghost use Rattle.tables.specs.Reading.{OnlyReads};
ghost use Rattle.office.specs.Answers.{IsReadAt, WhenOpenAt};
ghost use Rattle.desk.specs.Mends.{IsMendPage};
ghost use Rattle.desk.specs.Pages.{Tells, outputs_of};
ghost use Rattle.count_office.specs.Done.{EndsCopy, IsReadingTold};

use crate::copies::{failure_of, finish, why_not_begun};
use crate::is_busy;
use crate::moved_note::{has_note, write_note};
use crate::new_file::NewFile;
use desk::{CopyState, Failure, MendOrder, MendTrial, mend_open, tell_failure};
use office::Office;
use sqlite::{Alter, Connection, FileStore, MemStore, Wary};
use sqlite_disk::Disk;
use std::alloc::{AllocError, Global};
use std::io::ErrorKind;
use store::Fault;
use streams::Sink;

/// This machine, and the database of the office from whose journal a new one is made.
#[derive(Clone, Copy)]
pub struct OldOffice<'a> {
    pub rt: &'a HostRuntime,
    pub database: &'a str,
}

/// Returns why the new office can't take the place of the old one, if it is to do so: another one has already done that.
fn why_not_moved(old: OldOffice<'_>, asked: &MendOrder<'_>) -> Option<Failure> {
    if !asked.takes_over {
        return None;
    }
    match has_note(old.rt, old.database) {
        Ok(false) => None,
        Ok(true) => Some(Failure::CopyTaken),
        Err(error) if error.kind() == ErrorKind::OutOfMemory => {
            Some(Failure::Office(Fault::Memory))
        }
        Err(_) => Some(Failure::CopyFailed),
    }
}

/// Writes the note that the new office has taken the place of the old one, if it is to do so, and returns the status. If the note can't
/// be written, removes the new office.
fn move_office<E: Sink>(
    old: OldOffice<'_>,
    new_file: &NewFile,
    asked: &MendOrder<'_>,
    err: &mut E,
) -> u8
    requires { E.failed err.old < 2 ^ 64 - 1 }
    ensures { EndsCopy E.taken E.failed err.old err.new result }
{
    if !asked.takes_over {
        return 0;
    }
    match write_note(old.rt, old.database, new_file.database()) {
        Ok(()) => 0,
        Err(_) => {
            new_file.remove(old.rt);
            tell_failure(Failure::CopyFailed, err)
        }
    }
}

/// Closes the files of a new office, as those of a copy. With status 0, the new office is whole, and has then taken the place of the
/// old one if it is to do so.
fn finish_mended<D: Disk + Drop, E: Sink>(
    old: OldOffice<'_>,
    new_file: &NewFile,
    asked: &MendOrder<'_>,
    made: Connection<FileStore<D>>,
    printed: (u8, CopyState),
    err: &mut E,
) -> u8
    requires { printed.0 ≡ 0 → E.failed err.old < 2 ^ 64 - 1 }
    ensures other { ¬ (printed.0 ≡ 0) → (result ≡ printed.0) × (err.new ≡ err.old) }
    ensures whole { printed.0 ≡ 0 → EndsCopy E.taken E.failed err.old err.new result }
{
    let (status, state) = printed;
    let closed = finish(old.rt, new_file, made, status, state, err);
    if closed != 0 {
        return closed;
    }
    move_office(old, new_file, asked, err)
}

/// Returns two empty databases in memory.
fn trial_in_memory(alloc: Global) -> Result<MendTrial<MemStore>, AllocError>
    ensures { IfOk result (λ trial. IsEmpty (state over_memory trial.journal) × IsEmpty (state over_memory trial.mended)) }
{
    let journal = Connection::open_in_memory(alloc)?;
    let mended = Connection::open_in_memory(alloc)?;
    Ok(MendTrial { journal, mended })
}

/// Makes a new office from the journal of an open one, which stays open, in the files that were made for it. Closes those files.
fn fill_mended<S: Alter, D: Disk + Drop, O: Sink, E: Sink>(
    old: OldOffice<'_>,
    new_file: &NewFile,
    office: &mut Office<S>,
    asked: &MendOrder<'_>,
    mut made: Connection<FileStore<D>>,
    out: &mut O,
    err: &mut E,
) -> u8
    requires out { O.failed out.old < 2 ^ 64 - 1 }
    requires err { E.failed err.old < 2 ^ 64 - 1 }
    ensures told { let outputs = outputs_of O.taken O.failed E.taken E.failed in Tells (outputs out.old err.old) (outputs out.new err.new) result
        (λ _ page. WhenOpenAt (state S.Store) office.old office.new (λ s. IsMendPage s asked.now page)) }
    ensures stays { WhenOpenAt (state S.Store) office.old office.new (λ s. IsReadAt s office.new.closed (state S.Store office.new.held)) }
    ensures reads { OnlyReads (state S.Store office.old.held) (state S.Store office.new.held) }
{
    let rt = old.rt;
    if let Some(failure) = why_not_begun(rt, new_file) {
        return tell_failure(failure, err);
    }
    let trial = match trial_in_memory(rt.alloc()) {
        Ok(trial) => trial,
        Err(AllocError) => {
            new_file.clear(rt);
            return tell_failure(Failure::Office(Fault::Memory), err);
        }
    };
    let (status, state, tried) = mend_open(rt.alloc(), office, asked, trial, &mut made, out, err);
    let MendTrial {
        journal: _,
        mended: _,
    } = tried;
    finish_mended(old, new_file, asked, made, (status, state), err)
}

/// Makes a new office from the journal of an open one, at a path where nothing exists yet. The open one stays open and is only read.
/// With status 0, the new office has taken the place of the open one if the order asks for it.
pub fn mend_served<S: Alter, O: Sink, E: Sink>(
    old: OldOffice<'_>,
    office: &mut Office<S>,
    asked: &MendOrder<'_>,
    path: &str,
    out: &mut O,
    err: &mut E,
) -> u8
    requires out { O.failed out.old < 2 ^ 64 - 1 }
    requires err { E.failed err.old < 2 ^ 64 - 1 }
    ensures told { let outputs = outputs_of O.taken O.failed E.taken E.failed in Tells (outputs out.old err.old) (outputs out.new err.new) result
        (λ _ page. WhenOpenAt (state S.Store) office.old office.new (λ s. IsMendPage s asked.now page)) }
    ensures stays { WhenOpenAt (state S.Store) office.old office.new (λ s. IsReadAt s office.new.closed (state S.Store office.new.held)) }
    ensures reads { OnlyReads (state S.Store office.old.held) (state S.Store office.new.held) }
{
    let rt = old.rt;
    if let Some(failure) = why_not_moved(old, asked) {
        return tell_failure(failure, err);
    }
    let new_file = match NewFile::make(rt, path) {
        Ok(new_file) => new_file,
        Err(failure) => return tell_failure(failure, err),
    };
    match Connection::open_from(rt, path, false, Wary) {
        Ok(made) => fill_mended(old, &new_file, office, asked, made, out, err),
        Err((error, left)) => {
            if !is_busy(&error) {
                new_file.clear(rt);
            }
            drop(left);
            tell_failure(failure_of(error), err)
        }
    }
}

/// Makes a new office from the journal of the office in a connection's database, which is only read.
pub fn mend<S: Alter, O: Sink, E: Sink>(
    old: OldOffice<'_>,
    conn: Connection<S>,
    asked: &MendOrder<'_>,
    out: &mut O,
    err: &mut E,
) -> (u8, Connection<S>)
    requires out { O.failed out.old < 2 ^ 64 - 1 }
    requires err { E.failed err.old < 2 ^ 64 - 1 }
    ensures told { let outputs = outputs_of O.taken O.failed E.taken E.failed in Tells (outputs out.old err.old) (outputs out.new err.new) result.0
        (λ _ page. IsReadingTold (λ s. IsMendPage s asked.now) page (state S.Store conn) (state S.Store result.1)) }
    ensures reads { OnlyReads (state S.Store conn) (state S.Store result.1) }
{
    match Office::open_from(old.rt.alloc(), conn) {
        Ok(mut office) => {
            let status = mend_served(old, &mut office, asked, asked.path, out, err);
            (status, office.into_connection())
        }
        Err((fault, conn)) => (tell_failure(Failure::Office(fault), err), conn),
    }
}

//! Lines on the error output for the person who gave an order, in addition to what the order prints. The order is performed
//! even if these lines can't be written.

use crate::moved_note::moved_to;
use crate::record_note::{RECORDING, recorded_in};
use crate::record_place::{disk_warning, room_warning};
use crate::second_file::SecondFault;
use desk::RecordFault;
use std::fs;
use std::io::{IsTerminal, Write};
use std::os::unix::fs::MetadataExt;

/// The permission bits that let the group and others read or write a file.
const RIGHTS_OF_OTHERS: u32 = 0o066;

/// What has locked a database and prevents other orders from opening it.
#[derive(Clone, Copy)]
pub enum LockHolder {
    /// Another order of this program, which may be `serve`.
    Order,
    /// Another program, using SQLite's locks.
    Program,
}

impl LockHolder {
    /// Returns the text that describes the holder; it follows a database's path and a colon.
    fn text(self) -> &'static str {
        match self {
            LockHolder::Order => "another order holds it",
            LockHolder::Program => "another program has it open",
        }
    }
}

/// Prints which office took the place of the one in a database, if a note says so. The database must be locked, so that this doesn't
/// change before an order is performed on it.
pub fn tell_if_moved(rt: &HostRuntime, database: &str) {
    if let Ok(Some(new)) = moved_to(rt, database) {
        let mut stderr = rt.stderr();
        let _ = writeln!(stderr, "note: {new} took the place of this office");
    }
}

/// Prints which office is served now, after the one that was served has moved.
pub fn tell_serving(rt: &HostRuntime, path: &str) {
    let mut stderr = rt.stderr();
    let _ = writeln!(stderr, "serving {path} now");
}

/// Prints why the file of a second record can't be used.
pub fn tell_second_unusable(rt: &HostRuntime, path: &str, why: SecondFault) {
    let mut stderr = rt.stderr();
    let why = why.text();
    let _ = writeln!(stderr, "{path}: {why}");
}

/// Prints that a request was accepted, but not recorded, and what to do.
pub fn tell_second_failed(rt: &HostRuntime, path: &str, fault: RecordFault) {
    let mut stderr = rt.stderr();
    let _ = writeln!(
        stderr,
        "{path}: {fault}; nothing more is accepted until you start again with a new file"
    );
}

/// Prints a line that warns if the second record of the office in a database is on the office's own disk.
pub fn warn_if_on_one_disk(rt: &HostRuntime, database: &str, record: &str) {
    if let Ok(warning) = disk_warning(rt, database, record) {
        let _ = rt.stderr().write_all(warning.as_bytes());
    }
}

/// Prints a line that warns if little room is left on the disk of a second record.
fn warn_if_little_room(rt: &HostRuntime, record: &str) {
    if let Ok(warning) = room_warning(rt, record) {
        let _ = rt.stderr().write_all(warning.as_bytes());
    }
}

/// Prints in which file the requests are recorded that the office in a database accepts while it is served, and whether that is on the
/// office's own disk, or little room is left there.
pub fn tell_recording(rt: &HostRuntime, database: &str, record: &str) {
    let mut stderr = rt.stderr();
    let _ = writeln!(stderr, "recording in {record} now");
    warn_if_on_one_disk(rt, database, record);
    warn_if_little_room(rt, record);
}

/// Prints that there is no note of the second record next to a database.
pub fn tell_no_record_note(rt: &HostRuntime, database: &str) {
    let mut stderr = rt.stderr();
    let _ = writeln!(
        stderr,
        "{database}{RECORDING} can't be written, so an order after a stop won't say that it isn't recorded"
    );
}

/// Prints that an order which is performed alone isn't recorded, if a note says that the office in a database was served with a second
/// record.
pub fn tell_if_unrecorded(rt: &HostRuntime, database: &str) {
    if let Ok(Some(record)) = recorded_in(rt, database) {
        let mut stderr = rt.stderr();
        let _ = writeln!(
            stderr,
            "note: this office was served with the second record {record}, which lacks what is done without --second; to stop keeping it, delete {database}{RECORDING}"
        );
    }
}

/// Prints where the second record of an office is, and the lines that warn, after the office was copied.
pub fn tell_record(rt: &HostRuntime, place: &str, warnings: &str) {
    let mut stderr = rt.stderr();
    let _ = write!(stderr, "second record: {place}\n{warnings}");
}

/// Prints where the second record of an office is whose place another one has taken.
pub fn tell_record_until_switch(rt: &HostRuntime, place: &str) {
    let mut stderr = rt.stderr();
    let _ = writeln!(
        stderr,
        "second record until now: {place}; the new office begins its own next to it"
    );
}

/// Prints what an order is waiting for, if the error output is a terminal.
pub fn warn_waiting(rt: &HostRuntime, path: &str, holder: LockHolder) {
    let mut stderr = rt.stderr();
    if stderr.is_terminal() {
        let why = holder.text();
        let _ = writeln!(stderr, "waiting for {path}: {why}");
    }
}

/// Prints what an order has waited for in vain.
pub fn warn_waited(rt: &HostRuntime, path: &str, holder: LockHolder) {
    let mut stderr = rt.stderr();
    let why = holder.text();
    let _ = writeln!(stderr, "waited ten seconds for {path}: {why}");
}

/// Prints that the log of a database belongs to a user who may not write to the database.
pub fn warn_foreign_log(rt: &HostRuntime, path: &str) {
    let mut stderr = rt.stderr();
    let _ = writeln!(
        stderr,
        "{path}-wal doesn't belong to the owner of {path}, so it isn't read"
    );
}

/// Returns whether users other than its owner may read or write a file; false if it doesn't exist.
fn is_open_to_others(rt: &HostRuntime, path: &str) -> bool {
    fs::metadata(rt, path).is_ok_and(|found| found.mode() & RIGHTS_OF_OTHERS != 0)
}

/// If the permissions of a database or its log let other users read or write it, prints a line that says so, provided that the
/// error output is a terminal.
pub fn warn_if_open_to_others(rt: &HostRuntime, path: &str) {
    let mut stderr = rt.stderr();
    if !stderr.is_terminal() {
        return;
    }
    let Ok(log) = format!(in rt.alloc(); "{path}-wal") else {
        return;
    };
    if is_open_to_others(rt, path) || is_open_to_others(rt, log.as_str()) {
        let _ = writeln!(
            stderr,
            "{path} is open to other accounts on this machine; 'chmod 600 {path} {log}' closes it"
        );
    }
}

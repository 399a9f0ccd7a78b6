//! The file of a copy or of a mended office. It is created only if nothing has that name yet, and removed again if none results.

use crate::file_lock::FileLock;
use crate::path_state::{ENDINGS, MIN_OFFICE, RIGHTS, is_no_file, length_at};
use desk::Failure;
use std::fs;
use std::io::{self, ErrorKind};
use store::Fault;

/// The file of a copy or of a mended office, which this program has created and keeps locked; and its log, which `sqlite` creates with the file's
/// permissions when it opens the file.
#[derive(Drop)]
pub struct NewFile {
    database: String,
    log: String,
    lock: FileLock,
}

/// Returns why a file wasn't created.
fn failure_of(error: &io::Error) -> Failure {
    match error.kind() {
        ErrorKind::AlreadyExists => Failure::CopyTaken,
        ErrorKind::OutOfMemory => Failure::Office(Fault::Memory),
        _ => Failure::CopyFailed,
    }
}

/// Checks that nothing, not even a link, has the name of a database followed by an ending.
fn has_none(rt: &HostRuntime, path: &str, ending: &str) -> Result<(), Failure> {
    let Ok(name) = format!(in rt.alloc(); "{path}{ending}") else {
        return Err(Failure::Office(Fault::Memory));
    };
    match fs::symlink_metadata(rt, name.as_str()) {
        Ok(_) => Err(Failure::CopyTaken),
        Err(error) if error.kind() == ErrorKind::NotFound => Ok(()),
        Err(error) => Err(failure_of(&error)),
    }
}

impl NewFile {
    /// Creates the file of a copy at a path where nothing exists, not even a link, with permissions for its owner only. If
    /// something already exists (`CopyTaken`), or the file can't be created, nothing is left behind. Refuses a name that
    /// `sqlite` treats as a log, or as something other than a file, and the name of a note that an office has moved.
    pub fn make(rt: &HostRuntime, path: &str) -> Result<NewFile, Failure> {
        if is_no_file(path) || ENDINGS.iter().any(|ending| path.ends_with(*ending)) {
            return Err(Failure::CopyFailed);
        }
        for ending in ENDINGS {
            has_none(rt, path, ending)?;
        }
        let (Ok(database), Ok(log)) = (
            String::from_str(rt.alloc(), path),
            format!(in rt.alloc(); "{path}-wal"),
        ) else {
            return Err(Failure::Office(Fault::Memory));
        };
        let lock = FileLock::make(rt, path, RIGHTS).map_err(|error| failure_of(&error))?;
        Ok(NewFile {
            database,
            log,
            lock,
        })
    }

    /// Returns the path of the file.
    pub fn database(&self) -> &str {
        self.database.as_str()
    }

    /// Returns whether the two files together are too short for an office, as they are when `sqlite` has just opened them. If
    /// so, no other program has made an office in them. Fails if their length can't be determined.
    pub fn hold_none(&self, rt: &HostRuntime) -> io::Result<bool> {
        let database = length_at(rt, self.database.as_str())?.unwrap_or(0);
        let log = length_at(rt, self.log.as_str())?.unwrap_or(0);
        Ok(database.saturating_add(log) < MIN_OFFICE)
    }

    /// Removes both files. They must be known to contain nothing but the copy.
    pub fn remove(&self, rt: &HostRuntime) {
        let _ = fs::remove_file(rt, self.log.as_str());
        let _ = fs::remove_file(rt, self.database.as_str());
    }

    /// Removes both files if they are known to be too short, together, for an office.
    pub fn clear(&self, rt: &HostRuntime) {
        if matches!(self.hold_none(rt), Ok(true)) {
            self.remove(rt);
        }
    }
}

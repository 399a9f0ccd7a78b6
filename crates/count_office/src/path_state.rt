//! What exists at a database's path before an order. An order that creates nothing leaves nothing there.
//!
//! `sqlite` creates both files when it opens them: DB, and its log next to it. If DB is missing or empty, `sqlite` creates a
//! new log, whatever the old one contains. So only `init` may open such a file, and only if no log contains anything.

ghost use Rattle.std.specs.Prelude.{◌≡◌, ◌≢◌, ◌≤◌, None, IfSome};

use crate::file_lock::FileLock;
use crate::moved_note::{MOVED, has_note};
use std::alloc::{AllocError, Global};
use std::fs;
use std::io::{self, ErrorKind};
use std::os::unix::fs::MetadataExt;

/// The minimum size of a log that contains a page. The smallest page has 512 bytes.
const MIN_LOG: u64 = 512;

/// The maximum size of the log that `sqlite` creates before it writes the first page of a database. An `init` that was stopped
/// at that point may be repeated.
const MAX_BEGUN_LOG: u64 = 41;

/// If a database and its log have fewer bytes than this in total, they contain no office: each of the eleven tables, and each
/// of their keys, occupies at least one 4096-byte page.
pub const MIN_OFFICE: u64 = 22 * 4096;

/// `sqlite` treats a file of at most this many bytes as empty.
const MAX_EMPTY: u64 = 1;

/// The permissions of a new database: only its owner may use it, from the moment it is created. `sqlite` gives the log the same
/// permissions.
pub const RIGHTS: u32 = 0o600;

/// The permission bits that let the group and others write to a file.
const WRITING_BY_OTHERS: u32 = 0o022;

/// The user id of root.
const ROOT: u32 = 0;

/// The suffixes that are appended to a database's name to form the names of other files. These are the log of `sqlite`, the journal
/// that other programs using SQLite play back into a database, and the note that another office took its place.
pub const ENDINGS: [&str; 3] = [LOG, JOURNAL, MOVED];

const LOG: &str = "-wal";

const JOURNAL: &str = "-journal";

/// More endings of names that belong to an office: of its socket, of its other note, of notes that are being written, and of a file that
/// other programs using SQLite create.
const MORE_ENDINGS: [&str; 5] = [
    "-serve",
    "-recording",
    "-recording-unfinished",
    "-moved-unfinished",
    "-shm",
];

/// Returns whether `sqlite` treats a name as something other than a file.
pub fn is_no_file(path: &str) -> bool {
    path == ":memory:" || path.starts_with("file:")
}

/// Returns whether a name is that of something other than a file, or of a file that may belong to an office.
pub fn is_reserved(path: &str) -> bool {
    is_no_file(path)
        || ENDINGS.iter().any(|ending| path.ends_with(*ending))
        || MORE_ENDINGS.iter().any(|ending| path.ends_with(*ending))
}

/// Returns the length of the file at a path; `None` if there is no file. Fails if it can't be examined.
pub fn length_at(rt: &HostRuntime, path: &str) -> io::Result<Option<u64>> {
    match fs::metadata(rt, path) {
        Ok(found) => Ok(Some(found.len())),
        Err(error) if error.kind() == ErrorKind::NotFound => Ok(None),
        Err(error) => Err(error),
    }
}

/// Returns the length of the file at a path; `None` if there is no file. For a file that can't be examined, returns the maximum
/// length, so that it isn't treated as empty.
fn greatest_length_at(rt: &HostRuntime, path: &str) -> Option<u64> {
    length_at(rt, path).unwrap_or(Some(u64::MAX))
}

/// Returns the length of the file with a log's name; `None` if nothing has that name. For a link or a directory, returns the
/// maximum length. Fails if it can't be examined.
fn log_length_at(rt: &HostRuntime, path: &str) -> io::Result<Option<u64>> {
    match fs::symlink_metadata(rt, path) {
        Ok(found) if found.is_file() => Ok(Some(found.len())),
        Ok(_) => Ok(Some(u64::MAX)),
        Err(error) if error.kind() == ErrorKind::NotFound => Ok(None),
        Err(error) => Err(error),
    }
}

/// What exists at a database's path before an order.
#[derive(Clone, Copy)]
pub enum PathKind {
    /// Nothing, and nothing with the name of a log.
    Free,
    /// A file that is treated as empty, and no log except one that `sqlite` has just begun. They can't contain an office.
    Empty,
    /// No file, or an empty one; and next to it a log that may contain something, or a note that another office took its place.
    LogAlone,
    /// No file, or an empty one; and whatever has the log's name can't be examined.
    LogUnreadable,
    /// A file that may contain an office, or that can't be examined.
    Taken,
}

/// Returns the kind of a path, given the lengths of the database and its logs.
fn kind_of(database: Option<u64>, log: Option<u64>, journal: Option<u64>) -> PathKind
    ensures free { result ≡ PathKind.Free → (database ≡ None) × (log ≡ None) × (journal ≡ None) }
    ensures empty { result ≡ PathKind.Empty → IfSome log (λ length. length ≤ 41) × (journal ≡ None) }
    ensures none { IfSome database (λ length. length ≤ 1) → result ≢ PathKind.Taken }
{
    match (database, log, journal) {
        (None, None, None) => PathKind::Free,
        (None, _, _) => PathKind::LogAlone,
        (Some(length), _, _) if length > MAX_EMPTY => PathKind::Taken,
        (Some(_), None, None) => PathKind::Empty,
        (Some(_), Some(begun), None) if begun <= MAX_BEGUN_LOG => PathKind::Empty,
        (Some(_), _, _) => PathKind::LogAlone,
    }
}

/// Returns the kind of a path, given the length of the database, and the lengths of its logs or the errors from examining them.
fn kind_with_log(
    database: Option<u64>,
    log: &io::Result<Option<u64>>,
    journal: &io::Result<Option<u64>>,
) -> PathKind
    ensures none { IfSome database (λ length. length ≤ 1) → result ≢ PathKind.Taken }
{
    match (log, journal) {
        (Ok(log), Ok(journal)) => kind_of(database, *log, *journal),
        _ => match database {
            Some(length) if length > MAX_EMPTY => PathKind::Taken,
            _ => PathKind::LogUnreadable,
        },
    }
}

/// The path of a database file, with links resolved, and the path of its log; and what existed there.
#[derive(Drop)]
pub struct PathState {
    database: String,
    log: String,
    has_log: bool,
    pub kind: PathKind,
}

/// Returns a path with links resolved, or the path itself if nothing exists there.
fn real_path(rt: &HostRuntime, alloc: Global, path: &str) -> Result<String, AllocError> {
    match fs::canonicalize(rt, path) {
        Ok(real) => String::from_str(alloc, real.as_str()),
        Err(_) => String::from_str(alloc, path),
    }
}

impl PathState {
    /// Returns what currently exists at a path.
    pub fn at(rt: &HostRuntime, path: &str) -> Result<PathState, AllocError> {
        let database = real_path(rt, rt.alloc(), path)?;
        let log = format!(in rt.alloc(); "{database}{LOG}")?;
        let journal = format!(in rt.alloc(); "{database}{JOURNAL}")?;
        let log_length = log_length_at(rt, log.as_str());
        let kind = kind_with_log(
            greatest_length_at(rt, database.as_str()),
            &log_length,
            &log_length_at(rt, journal.as_str()),
        );
        let kind = match kind {
            PathKind::Free | PathKind::Empty
                if !matches!(has_note(rt, database.as_str()), Ok(false)) => { PathKind::LogAlone }
            kind => kind,
        };
        Ok(PathState {
            database,
            log,
            has_log: !matches!(log_length, Ok(None)),
            kind,
        })
    }

    /// Returns the path of the database, with links resolved.
    pub fn database(&self) -> &str {
        self.database.as_str()
    }

    /// Returns the path of the log.
    pub fn log(&self) -> &str {
        self.log.as_str()
    }

    /// Returns whether the log belongs to a user, other than root, who may not write to the database. That user can't have
    /// created the log with an order, so its contents aren't the office's.
    pub fn has_foreign_log(&self, rt: &HostRuntime) -> bool {
        let (Ok(database), Ok(log)) = (
            fs::metadata(rt, self.database.as_str()),
            fs::symlink_metadata(rt, self.log.as_str()),
        ) else {
            return false;
        };
        log.uid() != database.uid() && log.uid() != ROOT && database.mode() & WRITING_BY_OTHERS == 0
    }

    /// Locks the database. If nothing existed there, creates its file.
    pub fn hold(&self, rt: &HostRuntime) -> io::Result<FileLock> {
        let path = self.database.as_str();
        match self.kind {
            PathKind::Free if is_no_file(path) => Err(ErrorKind::Unsupported.into()),
            PathKind::Free => FileLock::make(rt, path, RIGHTS),
            _ => FileLock::take(rt, path),
        }
    }

    /// Removes those of the two files that didn't exist before, provided that nothing has been stored in them. The database
    /// must be locked, so that no other order is using it.
    pub fn remove_created(&self, rt: &HostRuntime) {
        let database = greatest_length_at(rt, self.database.as_str()).unwrap_or(0);
        let log = match log_length_at(rt, self.log.as_str()) {
            Ok(length) => length.unwrap_or(0),
            Err(_) => u64::MAX,
        };
        let is_made = matches!(self.kind, PathKind::Free)
            && database.saturating_add(log) < MIN_OFFICE;
        if is_made || (!self.has_log && log < MIN_LOG) {
            let _ = fs::remove_file(rt, self.log.as_str());
        }
        if is_made {
            let _ = fs::remove_file(rt, self.database.as_str());
        }
    }
}

//! Whether the files of an office that is being served are still at their paths.
//!
//! `sqlite` writes through the descriptors that it opened. If a file is removed or replaced, `sqlite` continues to write to a
//! file without a path, and everything confirmed after that is lost when the program ends. The descriptors don't reveal this,
//! so the paths are checked.
//!
//! Neither file gets shorter while the office is served. A checkpoint writes pages into the database, and the log is then
//! overwritten in place; the log is truncated only when the office is opened and when it is closed.

ghost use Rattle.std.specs.Prelude.{◌≡◌, ◌≤◌, true};

use crate::file_lock::FileLock;
use crate::path_state::PathState;
use desk::{Failure, tell_failure};
use std::cell::Cell;
use std::fs;
use std::os::unix::fs::MetadataExt;
use streams::Counted;

/// A file's device and inode numbers, which identify it, and its length.
#[derive(Clone, Copy)]
struct Seen {
    device: u64,
    inode: u64,
    length: u64,
}

/// The database and the log of an open office, as last seen.
#[derive(Drop)]
pub struct FileWatch<'a> {
    found: &'a PathState,
    database: Cell<Seen>,
    log: Cell<Seen>,
    is_told: Cell<bool>,
}

/// Returns the identity and the length of the file at a path; `None` if there is no file, if it is a link, or if it can't be
/// examined.
fn seen_at(rt: &HostRuntime, path: &str) -> Option<Seen> {
    let found = fs::symlink_metadata(rt, path).ok()?;
    if !found.is_file() {
        return None;
    }
    Some(Seen {
        device: found.dev(),
        inode: found.ino(),
        length: found.len(),
    })
}

/// Returns whether a file is the one seen before and hasn't been truncated.
fn continues(before: Seen, now: Seen) -> bool
    ensures { result ≡ true → (now.device ≡ before.device) × (now.inode ≡ before.inode) × (before.length ≤ now.length) }
{
    now.device == before.device && now.inode == before.inode && now.length >= before.length
}

/// Checks again whether the file at a path is the one last seen there and hasn't been truncated.
fn is_still_at(rt: &HostRuntime, path: &str, last: &Cell<Seen>) -> bool {
    let Some(now) = seen_at(rt, path) else {
        return false;
    };
    let is_same = continues(last.get(), now);
    if is_same {
        last.set(now);
    }
    is_same
}

impl<'a> FileWatch<'a> {
    /// Returns a watch on the files of an office that has just been opened; `None` if the files no longer exist or aren't the
    /// locked ones.
    pub fn of(rt: &HostRuntime, found: &'a PathState, lock: &FileLock) -> Option<FileWatch<'a>> {
        let database = seen_at(rt, found.database())?;
        let log = seen_at(rt, found.log())?;
        let (device, inode) = lock.numbers().ok()?;
        if database.device != device || database.inode != inode {
            return None;
        }
        Some(FileWatch {
            found,
            database: Cell::new(database),
            log: Cell::new(log),
            is_told: Cell::new(false),
        })
    }

    /// Returns the path of the database.
    pub fn database(&self) -> &str {
        self.found.database()
    }

    /// Returns whether both files are still at their paths, are the same files, and haven't been truncated since the last
    /// check. The first time that this isn't so, prints a line to the error output.
    pub fn is_whole(&self, rt: &HostRuntime) -> bool {
        let is_whole = is_still_at(rt, self.found.database(), &self.database)
            && is_still_at(rt, self.found.log(), &self.log);
        if !is_whole && !self.is_told.get() {
            let _ = tell_failure(Failure::FileGone, &mut Counted::new(rt.stderr()));
        }
        self.is_told.set(!is_whole);
        is_whole
    }
}

//! A database file that this program locks before `sqlite` opens it, and keeps locked until it is closed.
//!
//! `sqlite` checks that a file is the one at its path before it takes its own lock, but not again afterwards. In between,
//! another program that created the file, but no office in it, may remove it. `sqlite` would then continue to use a file
//! without a path. So each order first takes its own lock, and then checks the path. A program that removes a file also holds
//! that lock.

use os::RangeLock;
use std::fs::{self, File, OpenOptions};
use std::io::{self, ErrorKind};
use std::os::fd::AsRawFd;
use std::os::unix::fs::{MetadataExt, OpenOptionsExt};

/// The byte to lock: the one after the bytes that SQLite locks, on a page that no database uses.
const LOCKED: u64 = (1 << 30) + 512;

/// The highest descriptor of the standard streams. Files that `sqlite` opens never get such a descriptor: one of the streams
/// may have been closed, and output to it would be written to the file.
const LAST_STREAM: i32 = 2;

/// The file of a database, locked by this program.
#[derive(Drop)]
pub struct FileLock {
    file: File,
}

impl FileLock {
    /// Locks the file at a path. Fails if the file can't be locked, if another program has locked it, if the path no longer
    /// leads to the file, or if another path leads to it too.
    pub fn take(rt: &HostRuntime, path: &str) -> io::Result<FileLock> {
        // Pipes and devices aren't opened, because opening them may block.
        if !fs::symlink_metadata(rt, path)?.is_file() {
            return Err(ErrorKind::Unsupported.into());
        }
        let lock = FileLock::opened(rt, path, OpenOptions::new().read(true).write(true))?;
        lock.lock()?;
        let (own, named) = (lock.file.metadata()?, fs::symlink_metadata(rt, path)?);
        if own.dev() == named.dev() && own.ino() == named.ino() && own.nlink() == 1 {
            Ok(lock)
        } else {
            Err(ErrorKind::Unsupported.into())
        }
    }

    /// Creates a file at a path where nothing exists, not even a link, and locks it. If the file can't be locked, it is
    /// removed, unless another program has locked it.
    pub fn make(rt: &HostRuntime, path: &str, mode: u32) -> io::Result<FileLock> {
        let mut options = OpenOptions::new();
        options.read(true).write(true).create_new(true).mode(mode);
        let lock = FileLock::opened(rt, path, &options)?;
        match lock.lock() {
            Ok(()) => Ok(lock),
            Err(error) => {
                if error.kind() != ErrorKind::WouldBlock {
                    lock.remove_empty(rt, path);
                }
                Err(error)
            }
        }
    }

    /// Returns the file's device and inode numbers.
    pub fn numbers(&self) -> io::Result<(u64, u64)> {
        let found = self.file.metadata()?;
        Ok((found.dev(), found.ino()))
    }

    fn opened(rt: &HostRuntime, path: &str, options: &OpenOptions) -> io::Result<FileLock> {
        let file = options.open(rt, path)?;
        if file.as_raw_fd() > LAST_STREAM {
            return Ok(FileLock { file });
        }
        let file = file.try_clone()?;
        Ok(FileLock { file })
    }

    fn lock(&self) -> io::Result<()> {
        match os::try_lock_range(self.file.as_raw_fd(), RangeLock::Exclusive, LOCKED, 1) {
            0 => Ok(()),
            _ => Err(io::Error::from_raw_os_error(os::errno())),
        }
    }

    /// Removes the file from the path where it was created, if it can be locked now and is empty.
    fn remove_empty(&self, rt: &HostRuntime, path: &str) {
        let is_locked_and_empty = self.lock().is_ok()
            && self.file.metadata().is_ok_and(|found| found.len() == 0);
        if is_locked_and_empty {
            let _ = fs::remove_file(rt, path);
        }
    }
}

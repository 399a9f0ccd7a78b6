//! How much room is left on the disk of a second record.
//!
//! No library that the program may use has a call that asks a disk for its room, and no other program may be started. So the room is tried
//! out: zeros are written to a file next to the record, by the same user, until there are 16 MB, or a write fails because the disk is full.
//!
//! - The file is named as the record, followed by `.room`. It is made only if nothing has that name, and its name is removed before anything
//!   is written. So the system frees its room whenever it is closed, also if the program is stopped. A stop just between these two calls
//!   leaves an empty file. It isn't removed, because nobody knows whose it is; while it is there, the room isn't known.
//! - Nothing is flushed, and the file is cut before it is closed, since some systems write what a file still has when it is closed. So
//!   hardly any of it reaches the medium: what fails is to reserve the room. A disk that is mounted with `sync` does write it all. It may be
//!   slow, so no more is tried out once a quarter of a second has passed or, while there is less than 1 MB, a second.
//! - If fewer than 16 MB are left, the disk is full for a moment, and another program may find it so. Therefore only the program that
//!   appends to the record tries out its room, and never while it appends.
//!
//! The line of a keying of 100 papers has 1 to 2 KB. So 16 MB are room for at least 8,000 of them, and 1 MB for some 500.

use std::alloc::{AllocError, Global};
use std::fs::{self, File, OpenOptions};
use std::io::{self, ErrorKind, Write};
use std::os::unix::fs::OpenOptionsExt;
use std::time::Instant;

/// The suffix that is appended to a record's name to form the name of the file that is filled.
const ENDING: &str = ".room";

/// The permissions of that file.
const RIGHTS: u32 = 0o600;

/// The number of bytes that are written at once, which are 4 KB. Most systems reserve room in steps of that size.
const BLOCK: usize = 4096;

/// The number of KB that are written at once.
const BLOCK_KILOBYTES: u32 = 4;

/// The number of times that so much is written, at most: 16 MB in all.
const MOST_BLOCKS: u32 = 4096;

/// The number of KB in a MB, and below which little room is left.
const MEGABYTE: u32 = 1024;

/// The number of milliseconds after which no more is written, once there is room enough.
const PATIENCE: u128 = 250;

/// The number of milliseconds after which no more is written at all.
const MOST_PATIENCE: u128 = 1000;

/// How much room is left on a disk, in KB of 1024 bytes.
#[derive(Clone, Copy)]
pub enum Room {
    /// At least so much. It is 16 MB, unless the disk was slow.
    AtLeast(u32),
    /// So much, rounded down to a multiple of 4.
    Exactly(u32),
    /// It isn't known: the file can't be made, or its name can't be removed, or a write fails although the disk isn't full.
    Unknown,
}

impl Room {
    /// Returns the words for the room next to the record at a path.
    pub fn words(self, alloc: Global, record: &str) -> Result<String, AllocError> {
        match self {
            Room::AtLeast(kilobytes) if kilobytes < MEGABYTE => {
                format!(in alloc; "room for at least {kilobytes} KB")
            }
            Room::AtLeast(kilobytes) => {
                let megabytes = kilobytes / MEGABYTE;
                format!(in alloc; "room for at least {megabytes} MB")
            }
            Room::Exactly(kilobytes) => format!(in alloc; "room for {kilobytes} KB"),
            Room::Unknown => {
                format!(in alloc; "room not known, because {record}{ENDING} can't be used")
            }
        }
    }

    /// Returns the line that warns that little room is left for the record at a path; an empty text if that isn't so, or isn't known.
    pub fn warning(self, alloc: Global, record: &str) -> Result<String, AllocError> {
        match self {
            Room::Exactly(kilobytes) if kilobytes < MEGABYTE => {
                format!(in alloc;
                    "warning: the disk of {record} has room for {kilobytes} KB, and once it is full, nothing more is accepted; make room there, or use a file on another disk\n"
                )
            }
            _ => Ok(String::new(alloc)),
        }
    }
}

/// Returns whether a write failed because the disk is full, or the user's share of it.
fn is_full(error: &io::Error) -> bool {
    matches!(
        error.kind(),
        ErrorKind::StorageFull | ErrorKind::QuotaExceeded
    )
}

/// Returns whether trying out has taken too long, given when it began and the number of KB that were written; false if the clock fails.
fn is_slow(rt: &HostRuntime, begun: Instant, kilobytes: u32) -> bool {
    let patience = if kilobytes < MEGABYTE {
        MOST_PATIENCE
    } else {
        PATIENCE
    };
    matches!(begun.elapsed(rt), Ok(passed) if passed.as_millis() >= patience)
}

/// Writes zeros up to 16 MB, or until the disk is full, or was slow. Returns how much room there was.
fn fill<W: Write>(rt: &HostRuntime, file: &mut W) -> Room {
    let Ok(begun) = Instant::now(rt) else {
        return Room::Unknown;
    };
    let zeros = [0; BLOCK];
    for blocks in 0..MOST_BLOCKS {
        let written = (blocks + 1) * BLOCK_KILOBYTES;
        match file.write_all(&zeros) {
            Ok(()) if is_slow(rt, begun, written) => return Room::AtLeast(written),
            Ok(()) => {}
            Err(error) if is_full(&error) => return Room::Exactly(blocks * BLOCK_KILOBYTES),
            Err(_) => return Room::Unknown,
        }
    }
    Room::AtLeast(MOST_BLOCKS * BLOCK_KILOBYTES)
}

/// Makes a file for this user alone, if nothing has its name, and removes that name. Only the opened file is left.
fn make_nameless(rt: &HostRuntime, path: &str) -> io::Result<File> {
    let file = OpenOptions::new()
        .write(true)
        .create_new(true)
        .mode(RIGHTS)
        .open(rt, path)?;
    fs::remove_file(rt, path)?;
    Ok(file)
}

/// Returns how much room is left on the disk of the second record at a path. Nobody may be appending to the record.
pub fn room_next_to(rt: &HostRuntime, record: &str) -> Room {
    let Ok(path) = format!(in rt.alloc(); "{record}{ENDING}") else {
        return Room::Unknown;
    };
    let mut file = match make_nameless(rt, path.as_str()) {
        Ok(file) => file,
        // A full disk may have no room for a name either.
        Err(error) if is_full(&error) => return Room::Exactly(0),
        Err(_) => return Room::Unknown,
    };
    let room = fill(rt, &mut file);
    let _ = file.set_len(0);
    room
}

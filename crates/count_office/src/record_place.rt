//! The place of an office's second record: its path, when its last line was written, how much room is left there, and whether it is on the
//! disk of the office.

use crate::disk_room::room_next_to;
use crate::timed_record::clock_text;
use std::alloc::{AllocError, Global};
use std::fs::{self, Metadata};
use std::os::unix::fs::MetadataExt;

/// Returns whether two files are on the same disk, or partition of one; false if either can't be examined.
fn are_on_one_disk(rt: &HostRuntime, one: &str, other: &str) -> bool {
    match (fs::metadata(rt, one), fs::metadata(rt, other)) {
        (Ok(one), Ok(other)) => one.dev() == other.dev(),
        _ => false,
    }
}

/// Returns the line that warns that the second record of the office in a database is on the office's own disk; an empty text if it isn't.
pub fn disk_warning(rt: &HostRuntime, database: &str, record: &str) -> Result<String, AllocError> {
    let alloc = rt.alloc();
    if !are_on_one_disk(rt, database, record) {
        return Ok(String::new(alloc));
    }
    format!(in alloc;
        "warning: {record} is on the same disk as the office, so losing that disk loses both; use a file on another disk\n"
    )
}

/// Returns the path of a file from the root, or as it was given if that can't be found out.
fn whole_path(rt: &HostRuntime, path: &str) -> Result<String, AllocError> {
    match fs::canonicalize(rt, path) {
        Ok(whole) => String::from_str(rt.alloc(), whole.as_str()),
        Err(_) => String::from_str(rt.alloc(), path),
    }
}

/// Returns the line that warns that little room is left on the disk of a second record; an empty text if that isn't so, or isn't known.
pub fn room_warning(rt: &HostRuntime, record: &str) -> Result<String, AllocError> {
    let path = whole_path(rt, record)?;
    room_next_to(rt, path.as_str()).warning(rt.alloc(), record)
}

/// Returns the words for the time at which a file was last written, after a comma; an empty text if that was before 1970.
fn time_words(alloc: Global, found: &Metadata) -> Result<String, AllocError> {
    let Ok(seconds) = u64::try_from(found.mtime()) else {
        return Ok(String::new(alloc));
    };
    let time = clock_text(alloc, seconds)?;
    format!(in alloc; ", last line {}", time.as_str())
}

/// Returns the lines on the second record of the office in a database: where it is, when its last line was written, and how much room is
/// left there. A line each warns if it is on the office's own disk, and if little room is left.
///
/// The first line is `second record: /media/stick/town.script, last line 21:04:07 UTC, room for at least 16 MB`.
pub fn record_lines(rt: &HostRuntime, database: &str, record: &str) -> Result<String, AllocError> {
    let alloc = rt.alloc();
    let path = whole_path(rt, record)?;
    let Ok(found) = fs::metadata(rt, record) else {
        return format!(in alloc;
            "second record: {}, which can't be examined now\n",
            path.as_str()
        );
    };
    let time = time_words(alloc, &found)?;
    let room = room_next_to(rt, path.as_str());
    let words = room.words(alloc, path.as_str())?;
    let shared = disk_warning(rt, database, record)?;
    let little = room.warning(alloc, record)?;
    format!(in alloc;
        "second record: {}{}, {}\n{}{}",
        path.as_str(),
        time.as_str(),
        words.as_str(),
        shared.as_str(),
        little.as_str()
    )
}

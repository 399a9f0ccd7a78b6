//! A note next to a database: a small file whose content is an absolute path, as a line.
//!
//! The note's name is the database's name followed by an ending. Only its owner may read or write it. It is written whole or not at all,
//! while the database is locked.

use crate::codes_file::write_new;
use std::fs::{self, File, Metadata};
use std::io::{self, ErrorKind};
use std::os::unix::fs::MetadataExt;
use std::path::Path;

/// The maximum size of a note, in bytes. It is greater than the length of any path.
const MAX_NOTE: u64 = 8192;

/// The permission bits that let the group and others write to a file.
const WRITING_BY_OTHERS: u32 = 0o022;

/// The user id of root.
const ROOT: u32 = 0;

/// The endings that are appended to a database's name to form the name of its note: of a whole note, and of one that is being written.
#[derive(Clone, Copy)]
pub struct NoteEndings {
    pub whole: &'static str,
    pub unfinished: &'static str,
}

/// Returns the path of a database's note.
fn note_of(rt: &HostRuntime, database: &str, endings: NoteEndings) -> io::Result<String> {
    let ending = endings.whole;
    Ok(format!(in rt.alloc(); "{database}{ending}")?)
}

/// Returns what is at a path, which may be a link; `None` if nothing is.
fn found_at(rt: &HostRuntime, path: &str) -> io::Result<Option<Metadata>> {
    match fs::symlink_metadata(rt, path) {
        Ok(found) => Ok(Some(found)),
        Err(error) if error.kind() == ErrorKind::NotFound => Ok(None),
        Err(error) => Err(error),
    }
}

/// Returns whether something, which may be a link, has the name of a database's note. Fails if that can't be examined.
pub fn is_noted(rt: &HostRuntime, database: &str, endings: NoteEndings) -> io::Result<bool> {
    Ok(found_at(rt, note_of(rt, database, endings)?.as_str())?.is_some())
}

/// Returns whether a note can have been written by an order for this database: it is a file of the database's owner, or of root, that
/// nobody else may write to.
fn is_genuine(rt: &HostRuntime, database: &str, note: &Metadata) -> io::Result<bool> {
    let is_own = note.uid() == ROOT || note.uid() == fs::metadata(rt, database)?.uid();
    let is_apart = note.mode() & WRITING_BY_OTHERS == 0;
    Ok(is_own && is_apart && note.is_file() && note.len() <= MAX_NOTE)
}

/// Returns the path in a database's note; `None` if there is no note. Fails if the note can't be read, or isn't one that an order wrote.
pub fn noted_path(
    rt: &HostRuntime,
    database: &str,
    endings: NoteEndings,
) -> io::Result<Option<String>> {
    let note = note_of(rt, database, endings)?;
    let Some(found) = found_at(rt, note.as_str())? else {
        return Ok(None);
    };
    if !is_genuine(rt, database, &found)? {
        return Err(ErrorKind::PermissionDenied.into());
    }
    let text = fs::read_to_string(rt, note.as_str())?;
    match text.strip_suffix("\n") {
        Some(path) if path.starts_with("/") => Ok(Some(String::from_str(rt.alloc(), path)?)),
        _ => Err(ErrorKind::InvalidData.into()),
    }
}

/// Flushes the names in the folder of a file, whose path is absolute, to the disk.
pub fn flush_folder(rt: &HostRuntime, path: &str) -> io::Result<()> {
    match Path::new(path).parent() {
        Some(folder) => File::open(rt, folder)?.sync_all(),
        None => Err(ErrorKind::InvalidInput.into()),
    }
}

/// Writes the note of a locked database, with the absolute path of a file that exists. If that fails, there is no note.
pub fn note_path(
    rt: &HostRuntime,
    database: &str,
    endings: NoteEndings,
    path: &str,
) -> io::Result<()> {
    let note = note_of(rt, database, endings)?;
    let ending = endings.unfinished;
    let unfinished = format!(in rt.alloc(); "{database}{ending}")?;
    let path = fs::canonicalize(rt, path)?;
    let text = format!(in rt.alloc(); "{}\n", path.as_str())?;
    flush_folder(rt, path.as_str())?;
    // A stop may have left one.
    let _ = fs::remove_file(rt, unfinished.as_str());
    write_new(rt, unfinished.as_str(), text.as_bytes())?;
    let written = fs::rename(rt, unfinished.as_str(), note.as_str()).and_then(|_| flush_folder(
        rt,
        note.as_str(),
    ));
    if written.is_err() {
        let _ = fs::remove_file(rt, unfinished.as_str());
        let _ = fs::remove_file(rt, note.as_str());
    }
    written
}

/// Removes the note of a locked database, if there is one.
pub fn remove_note(rt: &HostRuntime, database: &str, endings: NoteEndings) {
    if let Ok(note) = note_of(rt, database, endings) {
        let _ = fs::remove_file(rt, note.as_str());
    }
}

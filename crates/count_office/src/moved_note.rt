//! The note next to a database whose office has been replaced by a new one, which says where that is.
//!
//! The note's name is the database's name followed by `-moved`. Its content is the absolute path of the new office, as a line.

use crate::path_note::{NoteEndings, is_noted, note_path, noted_path};
use std::io;

/// The suffix that is appended to a database's name to form the name of its note.
pub const MOVED: &str = "-moved";

/// The endings of the note.
const ENDINGS: NoteEndings = NoteEndings {
    whole: MOVED,
    unfinished: "-moved-unfinished",
};

/// Returns whether something, which may be a link, has the name of a database's note. Fails if that can't be examined.
pub fn has_note(rt: &HostRuntime, database: &str) -> io::Result<bool> {
    is_noted(rt, database, ENDINGS)
}

/// Returns the path of the office that took the place of the one in a database; `None` if there is no note. Fails if the note can't
/// be read, or isn't one that an order wrote.
pub fn moved_to(rt: &HostRuntime, database: &str) -> io::Result<Option<String>> {
    noted_path(rt, database, ENDINGS)
}

/// Writes the note of a locked database that has none: the office in the file at another path takes its place. If that fails, there is
/// no note.
pub fn write_note(rt: &HostRuntime, database: &str, new: &str) -> io::Result<()> {
    note_path(rt, database, ENDINGS, new)
}

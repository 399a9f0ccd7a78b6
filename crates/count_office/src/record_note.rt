//! The note next to a database that is served with a second record, which says where that is.
//!
//! The note's name is the database's name followed by `-recording`. Its content is the absolute path of the record, as a line. It is
//! there from the opening of the network until serving ends by itself. So it stays if serving was stopped, and then an order that is
//! performed alone can say that it isn't recorded.

use crate::path_note::{NoteEndings, note_path, noted_path, remove_note};
use std::io;

/// The suffix that is appended to a database's name to form the name of its note.
pub const RECORDING: &str = "-recording";

/// The endings of the note.
const ENDINGS: NoteEndings = NoteEndings {
    whole: RECORDING,
    unfinished: "-recording-unfinished",
};

/// Returns the path of the second record with which the office in a database is served, or was served when that was stopped; `None` if
/// there is no note. Fails if the note can't be read, or isn't one that an order wrote.
pub fn recorded_in(rt: &HostRuntime, database: &str) -> io::Result<Option<String>> {
    noted_path(rt, database, ENDINGS)
}

/// Writes the note of a locked database: it is served with the second record at a path. A note that a stop has left is replaced.
/// Anything else that has the note's name stays; then, and if writing fails, there is no note.
pub fn note_recording(rt: &HostRuntime, database: &str, record: &str) -> io::Result<()> {
    recorded_in(rt, database)?;
    note_path(rt, database, ENDINGS, record)
}

/// Removes the note of a locked database, if there is one.
pub fn forget_recording(rt: &HostRuntime, database: &str) {
    if let Ok(Some(_)) = recorded_in(rt, database) {
        remove_note(rt, database, ENDINGS);
    }
}

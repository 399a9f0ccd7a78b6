//! The file of a second record on this machine, best on another disk than the database. A line is appended to it for each request that
//! the office accepts.
//!
//! Nothing is known about what a disk really keeps; the contracts of `desk` say what is promised if it keeps what was flushed.

ghost use Rattle.std.specs.Prelude.{⊤};
ghost use Rattle.count_office.specs.Records.{kept_here};

use crate::codes_file::write_new;
use crate::path_note::flush_folder;
use crate::path_state::is_reserved;
use desk::DurableSink;
use std::fs::{self, File, OpenOptions};
use std::io::{self, ErrorKind, Read, Seek, SeekFrom, Write};
use std::os::unix::fs::MetadataExt;
use streams::Broken;

/// The permission bits that let the group and others write to a file.
const WRITING_BY_OTHERS: u32 = 0o022;

/// The reason why a file can't be used as a second record.
#[derive(Clone, Copy, Debug, PartialEq, Eq, Drop)]
pub enum SecondFault {
    /// There is no such file.
    Missing,
    /// The file can't be read and written, or isn't a regular one.
    Unusable,
    /// Others than its owner may write to the file.
    Writable,
    /// The last line of the file was cut by a stop.
    Cut,
    /// The file has a name that belongs to an office, or that isn't a file's.
    Reserved,
    /// A new file was to be made, but something has its name already.
    Taken,
    /// A new file was to be made, but it can't be written.
    Unwritten,
}

impl SecondFault {
    /// Returns what is wrong with the file, and what to do.
    pub fn text(self) -> &'static str {
        match self {
            SecondFault::Missing => "there is no such file; the order journal prints one",
            SecondFault::Unusable => "it can't be read and written",
            SecondFault::Writable => "others than its owner may write to it",
            SecondFault::Cut => {
                "its last line was cut by a stop; begin a new file with the order journal"
            }
            SecondFault::Reserved => "a file of an office may have this name; choose another",
            SecondFault::Taken => "something is there already; name a new file",
            SecondFault::Unwritten => "it can't be written",
        }
    }
}

/// Returns why a call for a file failed.
fn fault_of(error: &io::Error) -> SecondFault {
    match error.kind() {
        ErrorKind::NotFound => SecondFault::Missing,
        _ => SecondFault::Unusable,
    }
}

/// Returns why a file wasn't made.
fn fault_in_making(error: &io::Error) -> SecondFault {
    match error.kind() {
        ErrorKind::AlreadyExists => SecondFault::Taken,
        _ => SecondFault::Unwritten,
    }
}

/// Flushes the name of a file to the disk.
fn flush_name(rt: &HostRuntime, path: &str) -> io::Result<()> {
    flush_folder(rt, fs::canonicalize(rt, path)?.as_str())
}

/// Returns whether a file that isn't empty ends with something other than a newline.
fn is_cut(file: &mut File) -> io::Result<bool> {
    if file.metadata()?.len() == 0 {
        return Ok(false);
    }
    let mut byte = [0];
    file.seek(SeekFrom::End(-1))?;
    file.read_exact(&mut byte)?;
    Ok(byte[0] != b'\n')
}

/// The file of a second record, opened for appending; and the path at which it has to stay, with the device and inode numbers that
/// identify it. Nothing is known about its bytes.
#[derive(Drop)]
pub struct SecondFile<'a> {
    rt: &'a HostRuntime,
    path: &'a str,
    file: File,
    device: u64,
    inode: u64,
}

impl<'a> SecondFile<'a> {
    /// Creates a file that only its owner may read and write, with a text that ends with a newline, flushes it, and opens it. If that
    /// fails, no file is left.
    pub fn create(
        rt: &'a HostRuntime,
        path: &'a str,
        text: &[u8],
    ) -> Result<SecondFile<'a>, SecondFault> {
        if is_reserved(path) {
            return Err(SecondFault::Reserved);
        }
        write_new(rt, path, text).map_err(|error| fault_in_making(&error))?;
        let opened = match flush_name(rt, path) {
            Ok(()) => SecondFile::open(rt, path),
            Err(_) => Err(SecondFault::Unwritten),
        };
        if opened.is_err() {
            let _ = fs::remove_file(rt, path);
        }
        opened
    }

    /// Opens an existing file, to which only its owner may write, and whose last line is whole. Doesn't open pipes and devices, because
    /// opening them may block.
    pub fn open(rt: &'a HostRuntime, path: &'a str) -> Result<SecondFile<'a>, SecondFault> {
        if is_reserved(path) {
            return Err(SecondFault::Reserved);
        }
        let found = fs::metadata(rt, path).map_err(|error| fault_of(&error))?;
        if !found.is_file() {
            return Err(SecondFault::Unusable);
        }
        if found.mode() & WRITING_BY_OTHERS != 0 {
            return Err(SecondFault::Writable);
        }
        let mut file = OpenOptions::new()
            .read(true)
            .append(true)
            .open(rt, path)
            .map_err(|error| fault_of(&error))?;
        match is_cut(&mut file) {
            Ok(false) => SecondFile::of(rt, path, file).map_err(|error| fault_of(&error)),
            Ok(true) => Err(SecondFault::Cut),
            Err(error) => Err(fault_of(&error)),
        }
    }

    /// Returns a file that was opened at a path.
    fn of(rt: &'a HostRuntime, path: &'a str, file: File) -> io::Result<SecondFile<'a>> {
        let found = file.metadata()?;
        Ok(SecondFile {
            rt,
            path,
            file,
            device: found.dev(),
            inode: found.ino(),
        })
    }

    /// Returns whether the file is still at its path: it wasn't removed, renamed or replaced, and its disk wasn't taken out.
    fn is_at_path(&self) -> bool {
        match fs::metadata(self.rt, self.path) {
            Ok(found) => found.dev() == self.device && found.ino() == self.inode,
            Err(_) => false,
        }
    }
}

impl DurableSink for SecondFile<'_> {
    ghost kept = { λ file. kept_here file };

    ghost broken = { λ _. ⊤ };

    fn append(&mut self, bytes: &[u8]) -> Result<(), Broken> {
        match self.file.write_all(bytes) {
            Ok(()) => Ok(()),
            Err(_) => Err(Broken),
        }
    }

    // A file without a path still accepts and flushes bytes, but nobody finds it after a loss.
    fn flush(&mut self) -> Result<(), Broken> {
        match self.file.sync_data() {
            Ok(()) if self.is_at_path() => Ok(()),
            _ => Err(Broken),
        }
    }
}

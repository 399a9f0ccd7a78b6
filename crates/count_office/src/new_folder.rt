//! The folder in which results are published. It is made whole or not at all, and only if nothing has its name yet.
//!
//! Its files are first written to a folder next to it, which only its owner may open. Once all of them are on the disk, everyone may
//! read them, and the folder gets its name in one step. A stop before that leaves the unfinished folder.

ghost use Rattle.std.specs.Prelude.{◌≡◌, IfErr, None};
ghost use Rattle.desk.specs.Publications.{folder_failure};
ghost use Rattle.desk.specs.declared.publishing.FolderFault.{FolderFault};

use crate::path_note::flush_folder;
use crate::path_state::is_reserved;
use desk::{Failure, FolderFault, PublicFolder};
use std::fs::{self, DirBuilder, File, OpenOptions, Permissions};
use std::io::{self, ErrorKind, Write};
use std::os::unix::fs::{DirBuilderExt, OpenOptionsExt, PermissionsExt};
use store::Fault;

/// The suffix of the name of a folder that isn't finished.
const UNFINISHED: &str = ".part";

/// The permissions of a folder that isn't finished: only its owner may open it.
const RIGHTS_UNFINISHED: u32 = 0o700;

/// The permissions of a public folder: everyone may open it.
const RIGHTS_OF_FOLDER: u32 = 0o755;

/// The permissions of a public file: everyone may read it.
const RIGHTS_OF_FILE: u32 = 0o644;

/// A folder that this program has made, and the names of the files that it has put into it. Nothing is known about what a disk really
/// keeps.
#[derive(Drop)]
pub struct NewFolder<'a> {
    rt: &'a HostRuntime,
    path: String,
    unfinished: String,
    names: Vec<String>,
    is_named: bool,
    is_public: bool,
}

/// Returns why a call failed.
fn fault_of(error: &io::Error) -> FolderFault {
    match error.kind() {
        ErrorKind::OutOfMemory => FolderFault::Memory,
        _ => FolderFault::Unwritten,
    }
}

/// Returns the failure to print for a folder that wasn't made.
fn failure_of(fault: FolderFault) -> Failure
    ensures { result ≡ folder_failure fault }
{
    match fault {
        FolderFault::Taken => Failure::CopyTaken,
        FolderFault::Memory => Failure::Office(Fault::Memory),
        FolderFault::Unwritten => Failure::CopyFailed,
    }
}

/// Checks that nothing, not even a link, is at a path.
fn has_none(rt: &HostRuntime, path: &str) -> Result<(), FolderFault> {
    match fs::symlink_metadata(rt, path) {
        Ok(_) => Err(FolderFault::Taken),
        Err(error) if error.kind() == ErrorKind::NotFound => Ok(()),
        Err(error) => Err(fault_of(&error)),
    }
}

/// Writes a text to a new file at a path where nothing is, lets everyone read it, and flushes it.
fn write_public(rt: &HostRuntime, path: &str, text: &str) -> io::Result<()> {
    let mut file = OpenOptions::new()
        .write(true)
        .create_new(true)
        .mode(RIGHTS_OF_FILE)
        .open(rt, path)?;
    let written = file
        .write_all(text.as_bytes())
        .and_then(|_| file.set_permissions(Permissions::from_mode(RIGHTS_OF_FILE)))
        .and_then(|_| file.sync_all());
    if written.is_err() {
        let _ = fs::remove_file(rt, path);
    }
    written
}

impl<'a> NewFolder<'a> {
    /// Makes an unfinished folder next to a path where nothing exists. If something already exists there (`CopyTaken`), if the name may
    /// be that of a file of an office, or if the unfinished folder can't be made, such as after a stop that left one (`CopyFailed`),
    /// nothing is left behind.
    pub fn make(rt: &'a HostRuntime, path: &str) -> Result<NewFolder<'a>, Failure>
        ensures { IfErr result (λ failure. (fault : FolderFault) × (failure ≡ folder_failure fault)) }
    {
        let path = path.trim_end_matches('/');
        if let Err(fault) = has_none(rt, path) {
            return Err(failure_of(fault));
        }
        if is_reserved(path) {
            return Err(failure_of(FolderFault::Unwritten));
        }
        match NewFolder::begin(rt, path) {
            Ok(folder) => Ok(folder),
            Err(error) => Err(failure_of(fault_of(&error))),
        }
    }

    fn begin(rt: &'a HostRuntime, path: &str) -> io::Result<NewFolder<'a>> {
        if path.is_empty() {
            return Err(ErrorKind::InvalidInput.into());
        }
        let unfinished = format!(in rt.alloc(); "{path}{UNFINISHED}")?;
        let path = String::from_str(rt.alloc(), path)?;
        DirBuilder::new()
            .mode(RIGHTS_UNFINISHED)
            .create(rt, unfinished.as_str())?;
        Ok(NewFolder {
            rt,
            path,
            unfinished,
            names: Vec::new(rt.alloc()),
            is_named: false,
            is_public: false,
        })
    }

    /// Writes a file, and keeps its name.
    fn write(&mut self, name: &str, text: &str) -> io::Result<()> {
        let kept = String::from_str(self.rt.alloc(), name)?;
        let path = format!(in self.rt.alloc(); "{}/{name}", self.unfinished)?;
        self.names.push(kept)?;
        let written = write_public(self.rt, path.as_str(), text);
        if written.is_err() {
            let _ = self.names.pop();
        }
        written
    }

    /// Lets everyone open the folder, and flushes it.
    fn open_to_all(&self) -> io::Result<()> {
        let folder = File::open(self.rt, self.unfinished.as_str())?;
        folder.set_permissions(Permissions::from_mode(RIGHTS_OF_FOLDER))?;
        folder.sync_all()
    }

    /// Gives the folder its name, and flushes that.
    fn name(&mut self) -> io::Result<()> {
        fs::rename(self.rt, self.unfinished.as_str(), self.path.as_str())?;
        self.is_named = true;
        let named = fs::canonicalize(self.rt, self.path.as_str())?;
        flush_folder(self.rt, named.as_str())
    }

    /// Removes a file of the unfinished folder.
    fn remove(&self, name: &str) {
        if let Ok(path) = format!(in self.rt.alloc(); "{}/{name}", self.unfinished) {
            let _ = fs::remove_file(self.rt, path.as_str());
        }
    }

    /// Takes its name from the folder again, if it has it. Returns whether the folder is unfinished then.
    fn take_name(&self) -> bool {
        !self.is_named || fs::rename(self.rt, self.path.as_str(), self.unfinished.as_str()).is_ok()
    }

    /// Removes the folder and the files that were put into it, unless it was published. If it has its name already, it loses that
    /// first, so that nobody sees a part of it there; if it can't lose it, it stays whole.
    pub fn close(self) {
        if self.is_public || !self.take_name() {
            return;
        }
        for name in &self.names {
            self.remove(name.as_str());
        }
        let _ = fs::remove_dir(self.rt, self.unfinished.as_str());
    }
}

impl PublicFolder for NewFolder<'_> {
    ghost held = { λ _. None };

    fn put(&mut self, name: &str, text: &str) -> Result<(), FolderFault> {
        self.write(name, text).map_err(|error| fault_of(&error))
    }

    fn publish(&mut self) -> Result<(), FolderFault> {
        self.open_to_all().map_err(|error| fault_of(&error))?;
        has_none(self.rt, self.path.as_str())?;
        self.name().map_err(|error| fault_of(&error))?;
        self.is_public = true;
        Ok(())
    }
}

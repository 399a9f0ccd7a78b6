//! What an order for a served office needs from this machine in addition to the office: the file of a copy or of a new office, and
//! memory for replaying a journal.

ghost use Rattle.std.specs.Prelude.{◌≡◌, ◌-◌, ◌<◌, ⊤, IfOk, None};
ghost use Rattle.std.specs.Path.{path_buf_bytes, path_bytes};
ghost use Rattle.count_office.specs.CopyPaths.{copy_path, folder_of};

use crate::copies::copy_served;
use crate::file_watch::FileWatch;
use crate::mends::{OldOffice, mend_served};
use crate::publishing::publish_served;
use crate::record_place::record_lines;
use crate::seconds::second_served;
use desk::{Failure, Folder, MendOrder, PublishOrder, journal_open, tell_failure};
use office::Office;
use server::{Destination, ServedFile};
use sqlite::{Alter, Connection};
use std::alloc::{AllocError, Global};
use std::cell::Cell;
use std::path::{Path, PathBuf};
use store::Fault;
use streams::Sink;

/// This machine, the files of the office that is being served, the path of its second record, if there is one, and whether a new office has taken its place.
#[derive(Drop)]
pub struct LocalFile<'a> {
    pub rt: &'a HostRuntime,
    pub file_watch: FileWatch<'a>,
    pub second: Option<&'a str>,
    pub is_moved: Cell<bool>,
}

/// Returns the folder of a file.
fn folder_of(file: &str) -> Path<'_>
    ensures { path_bytes result ≡ folder_of file.now }
{
    Path::new(file).parent().unwrap_or(Path::new(""))
}

/// Returns the path of a copy, of a new office or of published results. If no folder is given, as with the console, it is next to the
/// database.
fn path_of_copy(alloc: Global, database: &str, to: Destination<'_>) -> Result<PathBuf, AllocError>
    ensures { IfOk result (λ path. path_buf_bytes path ≡ copy_path database.now to.entry.folder.now to.entry.path.now) }
{
    let folder = if to.folder.is_empty() {
        folder_of(database)
    } else {
        Path::new(to.folder)
    };
    folder.join(alloc, to.path)
}

impl LocalFile<'_> {
    /// Records that a new office has taken the place of this one, if it was to do so and the order ended with status 0.
    fn learn_if_moved(&self, asked: &MendOrder<'_>, status: u8) {
        if asked.takes_over && status == 0 {
            self.is_moved.set(true);
        }
    }
}

impl ServedFile for LocalFile<'_> {
    ghost whole = { λ _. None };

    ghost moved = { λ _. ⊤ };

    ghost ended = { λ _ _ _ _. ⊤ };

    ghost published = { λ _ _ _ _ _. ⊤ };

    ghost described = { λ _ _. ⊤ };

    fn is_whole(&self) -> bool {
        !self.is_moved.get() && self.file_watch.is_whole(self.rt)
    }

    // Only this program can have moved the office since it opened it, because it has locked it. So nothing is looked up.
    fn has_moved(&self) -> bool {
        self.is_moved.get()
    }

    fn copy<S: Alter, O: Sink, E: Sink>(
        &self,
        office: &mut Office<S>,
        to: Destination<'_>,
        out: &mut O,
        err: &mut E,
    ) -> u8 {
        match path_of_copy(self.rt.alloc(), self.file_watch.database(), to) {
            Ok(path) => copy_served(self.rt, office, path.as_str(), out, err),
            Err(AllocError) => tell_failure(Failure::Office(Fault::Memory), err),
        }
    }

    fn journal<S: Alter, O: Sink, E: Sink>(
        &self,
        office: &mut Office<S>,
        out: &mut O,
        err: &mut E,
    ) -> u8 {
        match Connection::open_in_memory(self.rt.alloc()) {
            Ok(blank) => {
                let (status, _) = journal_open(self.rt.alloc(), office, blank, out, err);
                status
            }
            Err(_) => tell_failure(Failure::Office(Fault::Memory), err),
        }
    }

    fn mend<S: Alter, O: Sink, E: Sink>(
        &self,
        office: &mut Office<S>,
        asked: &MendOrder<'_>,
        to: Destination<'_>,
        out: &mut O,
        err: &mut E,
    ) -> u8 {
        match path_of_copy(self.rt.alloc(), self.file_watch.database(), to) {
            Ok(path) => {
                let old = OldOffice {
                    rt: self.rt,
                    database: self.file_watch.database(),
                };
                let status = mend_served(old, office, asked, path.as_str(), out, err);
                self.learn_if_moved(asked, status);
                status
            }
            Err(AllocError) => tell_failure(Failure::Office(Fault::Memory), err),
        }
    }

    fn publish<S: Alter, O: Sink, E: Sink>(
        &self,
        office: &mut Office<S>,
        asked: PublishOrder<'_>,
        to: Destination<'_>,
        out: &mut O,
        err: &mut E,
    ) -> u8 {
        match path_of_copy(self.rt.alloc(), self.file_watch.database(), to) {
            Ok(path) => {
                let there = PublishOrder {
                    path: path.as_str(),
                    ..asked
                };
                publish_served(self.rt, office, there, out, err)
            }
            Err(AllocError) => tell_failure(Failure::Office(Fault::Memory), err),
        }
    }

    fn second<S: Alter, F: Folder, O: Sink, E: Sink>(
        &self,
        office: &mut Office<S>,
        folder: &F,
        path: &str,
        out: &mut O,
        err: &mut E,
    ) -> u8 {
        second_served(self.rt.alloc(), folder, office, path, out, err)
    }

    fn record_text(&self, alloc: Global) -> Result<String, AllocError> {
        match self.second {
            Some(record) => record_lines(self.rt, self.file_watch.database(), record),
            None => String::from_str(alloc, "no second record\n"),
        }
    }
}

//! The program `check-count`, which checks a published folder, or a stage sheet or a declaration against the ballots of its ward, and
//! counts ballots. It needs nothing from an office but the texts, as printed by `ballots` and by `sheet` or `result`, or the folder
//! that `publish` made.
//!
//! ```text
//! check-count results
//! check-count ballots.txt sheet.txt
//! check-count --count ballots.txt --lot 3:4
//! ```
//!
//! Its output and exit status are those of [`run`] in `checker`; this crate only supplies this machine's arguments, files and outputs.
#![tactic(auto)]

use checker::{ArgumentsFault, InputFiles, NotRead, run};
use std::fs::{File, Metadata};
use std::io::{Error, ErrorKind, Read};
use std::os::unix::fs::MetadataExt;
use std::process::ExitCode;
use std::{env, fs};
use streams::Counted;

/// The path that names standard input.
const STANDARD_INPUT: &str = "-";

/// The most bytes of a file in a folder: 1 GiB.
const MOST_BYTES: u64 = 1 << 30;

/// The files of this machine, including its standard input.
#[derive(Clone, Copy)]
struct LocalFiles<'a> {
    rt: &'a HostRuntime,
}

impl LocalFiles<'_> {
    /// Returns the bytes of standard input, read to its end.
    fn standard_input(&self) -> Result<Vec<u8>, Error> {
        let mut bytes = Vec::new(self.rt.alloc());
        let mut input = self.rt.stdin();
        input.read_to_end(&mut bytes)?;
        Ok(bytes)
    }

    /// Returns the names in a folder, in order.
    fn names_in(&self, path: &str) -> Result<Vec<String>, Error> {
        let mut names = Vec::new(self.rt.alloc());
        for entry in fs::read_dir(self.rt, path)? {
            names.push(String::from_str(self.rt.alloc(), entry?.file_name())?)?;
        }
        names.sort_unstable();
        Ok(names)
    }

    /// Returns the bytes of a file, given what is known of what was at its path before it was opened. Reading stops after one byte
    /// more than a file may have.
    fn opened_bytes(&self, file: File, there: &Metadata) -> Result<Vec<u8>, Error> {
        let opened = file.metadata()?;
        if opened.dev() != there.dev() || opened.ino() != there.ino() {
            return Err(Error::from(ErrorKind::NotFound));
        }
        let mut bytes = Vec::new(self.rt.alloc());
        file.take(MOST_BYTES + 1).read_to_end(&mut bytes)?;
        Ok(bytes)
    }

    /// Returns the bytes of the file at a path, unless it is a link, a folder, a device or the like, or too large.
    fn file_at(&self, path: &str) -> Result<Vec<u8>, Error> {
        // what is opened has to be the very file that was found there, so a link put in its place isn't followed
        let there = fs::symlink_metadata(self.rt, path)?;
        if !there.is_file() {
            return Err(Error::from(ErrorKind::Unsupported));
        }
        let bytes = self.opened_bytes(fs::open(self.rt, path)?, &there)?;
        if bytes.len() as u64 > MOST_BYTES {
            return Err(Error::from(ErrorKind::FileTooLarge));
        }
        Ok(bytes)
    }

    /// Returns the bytes of the file with the given name in a folder.
    fn file_in(&self, path: &str, name: &str) -> Result<Vec<u8>, Error> {
        let path = format!(in self.rt.alloc(); "{path}/{name}")?;
        self.file_at(path.as_str())
    }

    /// Returns a reason why something wasn't read.
    fn because(&self, why: &str) -> NotRead {
        match String::from_str(self.rt.alloc(), why) {
            Ok(why) => NotRead::Because(why),
            Err(_) => NotRead::Memory,
        }
    }

    /// Returns the reason why a file wasn't read.
    fn unread(&self, error: Error) -> NotRead {
        if error.kind() == ErrorKind::OutOfMemory {
            return NotRead::Memory;
        }
        match error.to_string(self.rt.alloc()) {
            Ok(why) => NotRead::Because(why),
            Err(_) => NotRead::Memory,
        }
    }
}

impl InputFiles for LocalFiles<'_> {
    fn read(&self, path: &str) -> Result<Vec<u8>, NotRead> {
        let read = if path == STANDARD_INPUT {
            self.standard_input()
        } else {
            fs::read(self.rt, path)
        };
        match read {
            Ok(bytes) => Ok(bytes),
            Err(error) => Err(self.unread(error)),
        }
    }

    fn names(&self, path: &str) -> Result<Vec<String>, NotRead> {
        match self.names_in(path) {
            Ok(names) => Ok(names),
            Err(error) if error.kind() == ErrorKind::NotADirectory => Err(self.because(
                "it is not a folder; to check a sheet, give its path after that of the ballots",
            )),
            Err(error) => Err(self.unread(error)),
        }
    }

    fn read_inside(&self, path: &str, name: &str) -> Result<Vec<u8>, NotRead> {
        match self.file_in(path, name) {
            Ok(bytes) => Ok(bytes),
            Err(error) if error.kind() == ErrorKind::Unsupported => {
                Err(self.because("it is a link, a folder or the like"))
            }
            Err(error) => Err(self.unread(error)),
        }
    }
}

/// Returns the arguments after the program's name.
fn words(rt: &HostRuntime) -> Result<Vec<String>, ArgumentsFault> {
    let all = match env::args(rt) {
        Ok(all) => all,
        Err(error) if error.kind() == ErrorKind::OutOfMemory => return Err(ArgumentsFault::Memory),
        Err(_) => return Err(ArgumentsFault::NotUtf8),
    };
    match all.skip(1).collect(rt.alloc()) {
        Ok(words) => Ok(words),
        Err(_) => Err(ArgumentsFault::Memory),
    }
}

fn main(rt: HostRuntime) -> ExitCode {
    let folder = LocalFiles { rt: &rt };
    let mut out = Counted::new(rt.stdout());
    let mut err = Counted::new(rt.stderr());
    ExitCode::from(run(rt.alloc(), &words(&rt), &folder, &mut out, &mut err))
}

//! Checking a folder in which an election was published.

ghost use Rattle.std.specs.Prelude.{◌≡◌, IfOk, IfErr};
ghost use Rattle.checker.specs.FolderChecks.{IsFolderChecked, IsFoundChecked};
ghost use Rattle.checker.specs.InputFiles.{AreNamesUnreadBy};

use crate::folder_comparison::are_same;
use crate::folder_election::{MakeFault, made_files};
use crate::folder_faults::difference_lines;
use crate::folder_files::{FolderFile, files_in};
use crate::folder_unmade::unmade_lines;
use crate::input_files::{InputFiles, NotRead};
use std::alloc::{AllocError, Global};

/// The outcome of checking a folder.
#[derive(Drop)]
pub enum FolderChecked {
    /// The folder has exactly the files that are published of the election that its ballots give; `files` is their number.
    Confirmed { files: usize },
    /// It hasn't, or that isn't known. There is a line for each file that isn't right, and one for the reason why no ward was
    /// counted, if none was.
    Differs { lines: String },
}

/// Returns the outcome, given the files in a folder.
fn checked_files(alloc: Global, found: &[FolderFile]) -> Result<FolderChecked, AllocError>
    ensures { IfOk result (IsFoundChecked found.now) }
{
    let lines = match made_files(alloc, found) {
        Ok(files) if are_same(found, &files) => {
            return Ok(FolderChecked::Confirmed { files: files.len() });
        }
        Ok(files) => difference_lines(alloc, found, &files)?,
        Err(MakeFault::Memory) => return Err(AllocError),
        Err(fault) => unmade_lines(alloc, found, &fault)?,
    };
    Ok(FolderChecked::Differs { lines })
}

/// Checks the folder at the given path: whether it has exactly the files that are published of an election, with the ballots. The
/// title and the wards that aren't sealed are read from its `index.html`. Each sealed ward is counted from its ballots, with the lots
/// recorded in them. All files are made again from that, and compared with those in the folder byte for byte. So each folder that an
/// office published with the ballots is confirmed, and no other.
///
/// The error is that the names in the folder can't be read, or a failed allocation.
pub fn check_folder<F: InputFiles>(
    alloc: Global,
    files: &F,
    path: &str,
) -> Result<FolderChecked, NotRead>
    ensures ok { IfOk result (IsFolderChecked (F.held files.now) path.now) }
    ensures err { IfErr result (AreNamesUnreadBy (F.held files.now) path.now) }
{
    let names = match files.names(path) {
        Ok(names) => names,
        Err(why) => return Err(why),
    };
    let Ok(found) = files_in(alloc, files, path, &names) else {
        return Err(NotRead::Memory);
    };
    match checked_files(alloc, &found) {
        Ok(checked) => Ok(checked),
        Err(AllocError) => Err(NotRead::Memory),
    }
}

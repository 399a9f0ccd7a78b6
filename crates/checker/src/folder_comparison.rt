//! The comparison of a folder's files with those that are made again.

ghost use Rattle.std.specs.Prelude.{◌≡◌, map};
ghost use Rattle.std.specs.List.{list_all};
ghost use Rattle.publication.specs.Files.{file_entry};
ghost use Rattle.checker.specs.FolderViews.{are_same, has_name, has_text, is_file, is_found, is_named};

use crate::folder_files::{FileContent, FolderFile};
use publication::PublishedFile;

/// Returns whether a file was read, and has the given text.
fn has_text(text: &str, content: &FileContent) -> bool
    ensures { result ≡ has_text text.now content.now }
{
    match content {
        FileContent::Bytes(bytes) => bytes.as_slice() == text.as_bytes(),
        FileContent::Unread(_) => false,
    }
}

/// Returns whether a file of a folder has the name and the text of the given one.
fn is_file(file: &PublishedFile, found: &FolderFile) -> bool
    ensures { result ≡ is_file (file_entry file.now) found.now }
{
    found.name.as_str() == file.name.as_str() && has_text(file.text.as_str(), &found.content)
}

/// Returns whether the given file is among those of a folder.
fn is_found(found: &[FolderFile], file: &PublishedFile) -> bool
    ensures { result ≡ is_found found.now (file_entry file.now) }
{
    found.iter().any(|each| is_file(file, each))
}

/// Returns whether a file has the given name.
fn has_name(name: &str, file: &PublishedFile) -> bool
    ensures { result ≡ has_name name.now (file_entry file.now) }
{
    file.name.as_str() == name
}

/// Returns whether a file of a folder has the name of one of the given files.
pub(crate) fn is_named(files: &[PublishedFile], found: &FolderFile) -> bool
    ensures { result ≡ is_named (map file_entry files.now) found.now }
{
    for file in files {
        if has_name(found.name.as_str(), file) {
            return true;
        }
    }
    false
}

/// Returns whether each of the given files is in a folder.
fn are_found(found: &[FolderFile], files: &[PublishedFile]) -> bool
    ensures { result ≡ list_all (is_found found.now) (map file_entry files.now) }
{
    for file in files {
        if !is_found(found, file) {
            return false;
        }
    }
    true
}

/// Returns whether each file of a folder has the name of one of the given files.
fn are_named(files: &[PublishedFile], found: &[FolderFile]) -> bool
    ensures { result ≡ list_all (is_named (map file_entry files.now)) found.now }
{
    found.iter().all(|each| is_named(files, each))
}

/// Returns whether a folder has exactly the given files.
pub(crate) fn are_same(found: &[FolderFile], files: &[PublishedFile]) -> bool
    ensures { result ≡ are_same found.now (map file_entry files.now) }
{
    are_found(found, files) && are_named(files, found)
}

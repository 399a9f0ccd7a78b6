//! The files of a folder, as they are read.

ghost use Rattle.std.specs.Prelude.{◌≡◌, map, option_copied, string_bytes, IfOk};
ghost use Rattle.std.specs.List.{All};
ghost use Rattle.checker.specs.FolderViews.{IsContent, IsFileIn, bytes_named, bytes_or, name_of};

use crate::input_files::{InputFiles, NotRead};
use std::alloc::{AllocError, Global};

/// The content of a file in a folder.
#[derive(Drop)]
pub(crate) enum FileContent {
    /// The bytes of the file.
    Bytes(Vec<u8>),
    /// The reason why it can't be read.
    Unread(String),
}

/// A file in a folder.
#[derive(Drop)]
pub(crate) struct FolderFile {
    pub(crate) name: String,
    pub(crate) content: FileContent,
}

/// Returns the content of a file in the folder at the given path.
fn content_of<F: InputFiles>(files: &F, path: &str, name: &str) -> Result<FileContent, AllocError>
    ensures { IfOk result (λ content. IsContent (F.held files.now) path.now name.now content) }
{
    match files.read_inside(path, name) {
        Ok(bytes) => Ok(FileContent::Bytes(bytes)),
        Err(NotRead::Because(why)) => Ok(FileContent::Unread(why)),
        Err(NotRead::Memory) => Err(AllocError),
    }
}

/// Reads a file in the folder at the given path.
fn file_in<F: InputFiles>(
    alloc: Global,
    files: &F,
    path: &str,
    name: &str,
) -> Result<FolderFile, AllocError>
    ensures name { IfOk result (λ file. name_of file ≡ name.now) }
    ensures content { IfOk result (λ file. IsFileIn (F.held files.now) path.now file) }
{
    let content = content_of(files, path, name)?;
    let name = String::from_str(alloc, name)?;
    Ok(FolderFile { name, content })
}

/// Reads the files with the given names in the folder at the given path. The only error is a failed allocation.
pub(crate) fn files_in<F: InputFiles>(
    alloc: Global,
    files: &F,
    path: &str,
    names: &[String],
) -> Result<Vec<FolderFile>, AllocError>
    ensures names { IfOk result (λ found. map name_of found.items ≡ map string_bytes names.now) }
    ensures contents { IfOk result (λ found. All (IsFileIn (F.held files.now) path.now) found.items) }
{
    let mut found = Vec::new(alloc);
    for name in names {
        found.push(file_in(alloc, files, path, name.as_str())?)?;
    }
    Ok(found)
}

/// Returns the bytes of a file, if it was read.
fn bytes_of(content: &FileContent) -> Option<&[u8]>
    ensures { option_copied result ≡ bytes_or content.now None }
{
    match content {
        FileContent::Bytes(bytes) => Some(bytes.as_slice()),
        FileContent::Unread(_) => None,
    }
}

/// Returns the bytes of the file with the given name; `None` if there is none, or if it can't be read.
pub(crate) fn bytes_in<'a>(found: &'a [FolderFile], name: &str) -> Option<&'a [u8]>
    ensures { option_copied result ≡ bytes_named name.now found.now }
{
    for file in found {
        if file.name.as_str() != name {
            continue;
        }
        if let Some(bytes) = bytes_of(&file.content) {
            return Some(bytes);
        }
    }
    None
}

//! The files of a folder.

ghost use Rattle.std.specs.Prelude.{◌≡◌, ◌++◌, ◌∷◌, [], map, OnOk, string_bytes};
ghost use Rattle.publication.specs.Files.{file, file_entry};

use std::alloc::AllocError;

/// A file of a folder: its name, in which there is no slash, and its text.
#[derive(Drop)]
pub struct PublishedFile {
    pub name: String,
    pub text: String,
}

/// Appends a file.
pub fn push_file(
    files: &mut Vec<PublishedFile>,
    name: String,
    text: String,
) -> Result<(), AllocError>
    ensures { OnOk result (map file_entry files.new.items ≡ map file_entry files.old.items ++ file (string_bytes name) (string_bytes text) ∷ []) }
{
    files.push(PublishedFile { name, text })?;
    Ok(())
}

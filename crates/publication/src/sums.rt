//! The file SHA256SUMS, which `sha256sum -c` reads.

ghost use Rattle.std.specs.Prelude.{◌≡◌, ◌++◌, map, IfOk, OnOk, string_bytes};
ghost use Rattle.std.specs.List.{flat_map};
ghost use Rattle.publication.specs.Files.{file_entry};
ghost use Rattle.publication.specs.Sums.{sum_line, sums};

use crate::files::PublishedFile;
use crate::joining::joined;
use hex::encode;
use sha2::{Digest, Sha256};
use std::alloc::{AllocError, Global};

/// Returns the line of a file: its SHA-256 in 64 hexadecimal digits, two spaces, and its name.
fn sum_line(alloc: Global, file: &PublishedFile) -> Result<String, AllocError>
    ensures { IfOk result (λ line. string_bytes line ≡ sum_line (file_entry file.now)) }
{
    let digest = Sha256::digest(file.text.as_bytes());
    let digits = encode(alloc, digest.as_slice())?;
    joined(alloc, &[digits.as_str(), "  ", file.name.as_str(), "\n"])
}

/// Appends the lines of files.
fn push_sum_lines(
    alloc: Global,
    text: &mut String,
    files: &[PublishedFile],
) -> Result<(), AllocError>
    ensures { OnOk result (string_bytes text.new ≡ string_bytes text.old ++ flat_map sum_line (map file_entry files.now)) }
{
    for file in files {
        let line = sum_line(alloc, file)?;
        text.push_str(line.as_str())?;
    }
    Ok(())
}

/// Returns the lines of files, in order.
pub fn sums_text(alloc: Global, files: &[PublishedFile]) -> Result<String, AllocError>
    ensures { IfOk result (λ text. string_bytes text ≡ sums (map file_entry files.now)) }
{
    let mut text = String::new(alloc);
    push_sum_lines(alloc, &mut text, files)?;
    Ok(text)
}

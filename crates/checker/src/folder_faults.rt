//! What is wrong with the files of a folder, a line for each file.
//!
//! Nothing guarantees how a line reads. What matters is that there are lines unless the folder is confirmed.

use crate::differences::first_difference;
use crate::folder_comparison::is_named;
use crate::folder_files::{FileContent, FolderFile, bytes_in};
use crate::terminal_escaping::shown;
use hex::encode;
use publication::PublishedFile;
use sha2::{Digest, Sha256};
use std::alloc::{AllocError, Global};

/// The name of the file with the sums.
pub(crate) const SUMS: &str = "SHA256SUMS";

/// Appends a line about the file with the given name, which may come from anyone.
pub(crate) fn push_line(
    alloc: Global,
    lines: &mut String,
    name: &str,
    words: &str,
) -> Result<(), AllocError> {
    let name = shown(alloc, name)?.as_str().replace(alloc, "\n", "?")?;
    lines.push_str(name.as_str())?;
    lines.push_str(": ")?;
    lines.push_str(words)?;
    lines.push_str("\n")
}

/// Returns whether a line of the sums is about the file with the given name.
fn is_line_of(line: &str, name: &str) -> bool {
    match line.split_once("  ") {
        Some((_, listed)) => listed == name,
        None => false,
    }
}

/// Returns what is wrong with the sum of a file; `None` if the sums list it.
fn sum_fault(
    alloc: Global,
    sums: &str,
    name: &str,
    bytes: &[u8],
) -> Result<Option<&'static str>, AllocError> {
    let digest = encode(alloc, Sha256::digest(bytes).as_slice())?;
    let mut is_listed = false;
    for line in sums.lines() {
        if !is_line_of(line, name) {
            continue;
        }
        if line.starts_with(digest.as_str()) {
            return Ok(None);
        }
        is_listed = true;
    }
    if is_listed {
        Ok(Some("its SHA-256 isn't the one in SHA256SUMS"))
    } else {
        Ok(Some("it isn't in SHA256SUMS"))
    }
}

/// Appends a line about a file whose sum isn't listed.
pub(crate) fn push_sum_fault(
    alloc: Global,
    lines: &mut String,
    sums: &str,
    name: &str,
    bytes: &[u8],
) -> Result<(), AllocError> {
    match sum_fault(alloc, sums, name, bytes)? {
        None => Ok(()),
        Some(fault) => push_line(alloc, lines, name, fault),
    }
}

/// Appends a line about a file whose bytes aren't those of the file that was made again.
fn push_difference(
    alloc: Global,
    lines: &mut String,
    sums: &str,
    file: &PublishedFile,
    bytes: &[u8],
) -> Result<(), AllocError> {
    let name = file.name.as_str();
    let line = first_difference(bytes, file.text.as_bytes());
    match sum_fault(alloc, sums, name, bytes)? {
        None => {
            let words = format!(in alloc; "line {line} differs from what the ballots give")?;
            push_line(alloc, lines, name, words.as_str())
        }
        Some(fault) => {
            let words = format!(in alloc;
                "line {line} differs from what the ballots give, and {fault}"
            )?;
            push_line(alloc, lines, name, words.as_str())
        }
    }
}

/// Appends a line about a file of the published election, if it isn't in the folder as it should be.
fn push_fault(
    alloc: Global,
    lines: &mut String,
    sums: &str,
    found: &[FolderFile],
    file: &PublishedFile,
) -> Result<(), AllocError> {
    let name = file.name.as_str();
    match found.iter().find(|each| each.name.as_str() == name) {
        None => push_line(alloc, lines, name, "is missing"),
        Some(each) => match &each.content {
            FileContent::Bytes(_) if name == SUMS => Ok(()),
            FileContent::Bytes(bytes) if bytes.as_slice() == file.text.as_bytes() => {
                push_sum_fault(alloc, lines, sums, name, bytes)
            }
            FileContent::Bytes(bytes) => push_difference(alloc, lines, sums, file, bytes),
            FileContent::Unread(why) => push_unread(alloc, lines, name, why.as_str()),
        },
    }
}

/// Appends a line about a file that can't be read.
pub(crate) fn push_unread(
    alloc: Global,
    lines: &mut String,
    name: &str,
    why: &str,
) -> Result<(), AllocError> {
    let words = format!(in alloc; "can't be read: {why}")?;
    push_line(alloc, lines, name, words.as_str())
}

/// Appends a line about the sums, given that they have the sum of each other file.
fn push_sums_fault(
    alloc: Global,
    lines: &mut String,
    found: &[FolderFile],
    files: &[PublishedFile],
) -> Result<(), AllocError> {
    let (Some(bytes), Some(file)) = (bytes_in(found, SUMS), files.last()) else {
        return Ok(());
    };
    let line = first_difference(bytes, file.text.as_bytes());
    let words = format!(in alloc; "line {line} differs from the sums of the files")?;
    push_line(alloc, lines, SUMS, words.as_str())
}

/// Returns the sums in a folder; empty if there are none.
pub(crate) fn sums_in(found: &[FolderFile]) -> &str {
    let Some(bytes) = bytes_in(found, SUMS) else {
        return "";
    };
    match str::from_utf8(bytes) {
        Ok(text) => text,
        Err(_) => "",
    }
}

/// Returns the lines about files that aren't those that were made again.
pub(crate) fn difference_lines(
    alloc: Global,
    found: &[FolderFile],
    files: &[PublishedFile],
) -> Result<String, AllocError> {
    let mut lines = String::new(alloc);
    let sums = sums_in(found);
    for file in files {
        push_fault(alloc, &mut lines, sums, found, file)?;
    }
    for each in found {
        if !is_named(files, each) {
            push_line(
                alloc,
                &mut lines,
                each.name.as_str(),
                "doesn't belong to the folder",
            )?;
        }
    }
    if lines.is_empty() {
        push_sums_fault(alloc, &mut lines, found, files)?;
    }
    Ok(lines)
}

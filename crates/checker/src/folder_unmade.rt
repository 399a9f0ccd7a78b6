//! What is wrong with a folder whose files can't be made again: the sums of its files, and the reason.
//!
//! Nothing guarantees how a line reads, as for the other faults of a folder.

use crate::folder_election::{MakeFault, ballots_name};
use crate::folder_faults::{SUMS, push_line, push_sum_fault, push_unread, sums_in};
use crate::folder_files::{FileContent, FolderFile};
use crate::folder_wards::WardFault;
use std::alloc::{AllocError, Global};

/// Appends a line about a file that can't be read, or whose sum isn't listed.
fn push_found_fault(
    alloc: Global,
    lines: &mut String,
    sums: &str,
    file: &FolderFile,
) -> Result<(), AllocError> {
    let name = file.name.as_str();
    match &file.content {
        FileContent::Unread(why) => push_unread(alloc, lines, name, why.as_str()),
        FileContent::Bytes(_) if name == SUMS => Ok(()),
        FileContent::Bytes(bytes) => push_sum_fault(alloc, lines, sums, name, bytes),
    }
}

/// Appends a line about each listed file that isn't in the folder.
fn push_missing(
    alloc: Global,
    lines: &mut String,
    sums: &str,
    found: &[FolderFile],
) -> Result<(), AllocError> {
    for line in sums.lines() {
        let Some((_, name)) = line.split_once("  ") else {
            continue;
        };
        if !found.iter().any(|file| file.name.as_str() == name) {
            push_line(alloc, lines, name, "is missing")?;
        }
    }
    Ok(())
}

/// Returns why a ward can't be made again from its ballots.
fn ward_words(alloc: Global, fault: &WardFault) -> Result<String, AllocError> {
    match fault {
        WardFault::Ballots(problem) => format!(in alloc; "can't be counted: {problem}"),
        WardFault::EarlyLot { stage } => format!(in alloc;
            "a lot is recorded for stage {stage}, which the count on the sheet hasn't reached"
        ),
        WardFault::OtherForm { line } => {
            format!(in alloc; "line {line} isn't written as the order ballots writes it")
        }
    }
}

/// Appends a line with the reason why the files can't be made again.
fn push_reason(alloc: Global, lines: &mut String, fault: &MakeFault) -> Result<(), AllocError> {
    match fault {
        MakeFault::Memory => Err(AllocError),
        MakeFault::NoIndex => push_line(
            alloc,
            lines,
            "index.html",
            "can't be read, so no ward was counted",
        ),
        MakeFault::NotIndex => push_line(
            alloc,
            lines,
            "index.html",
            "isn't a page of all wards, so no ward was counted",
        ),
        MakeFault::NoBallots => lines.push_str(
            "there are no ballots in the folder, so no ward was counted: only the sums were checked\n",
        ),
        MakeFault::WardMissing { ward } => {
            let name = ballots_name(alloc, *ward)?;
            push_line(
                alloc,
                lines,
                name.as_str(),
                "can't be read, so no file was compared",
            )
        }
        MakeFault::Ward { ward, fault } => {
            let name = ballots_name(alloc, *ward)?;
            let words = ward_words(alloc, fault)?;
            push_line(alloc, lines, name.as_str(), words.as_str())
        }
    }
}

/// Returns the lines about a folder whose files can't be made again.
pub(crate) fn unmade_lines(
    alloc: Global,
    found: &[FolderFile],
    fault: &MakeFault,
) -> Result<String, AllocError> {
    let mut lines = String::new(alloc);
    let sums = sums_in(found);
    for file in found {
        push_found_fault(alloc, &mut lines, sums, file)?;
    }
    push_missing(alloc, &mut lines, sums, found)?;
    push_reason(alloc, &mut lines, fault)?;
    Ok(lines)
}

//! The files of the folder in which an election is published.

ghost use Rattle.std.specs.Prelude.{◌≡◌, ◌↔◌, ◌++◌, ◌∷◌, [], bytes_eq, false, map, IfOk, OnOk, string_bytes, true, Err};
ghost use Rattle.std.specs.List.{IsDistinct, flat_map};
ghost use Rattle.publication.specs.Election.{are_in_order, election_entry, ward_entry};
ghost use Rattle.publication.specs.Files.{file, file_entry, names};
ghost use Rattle.publication.specs.Folder.{index_file, part_file, published, summed_files, ward_files, ward_page_file};
ghost use Rattle.publication.specs.Pages.{are_pages};
ghost use Rattle.publication.specs.Parts.{part_entry};
ghost use Rattle.publication.specs.Sums.{ArePinned};

use crate::check_page::check_page;
use crate::election::{PublishedElection, WardTexts, are_in_order};
use crate::fault::PublishFault;
use crate::files::{PublishedFile, push_file};
use crate::links::{index_links, ward_links};
use crate::pages::{are_pages, linked};
use crate::parts::{WardPart, ward_file, ward_parts};
use crate::results::all_results;
use crate::sums::sums_text;
use std::alloc::{AllocError, Global};

/// Appends a file with a fixed name.
fn push_named(
    alloc: Global,
    files: &mut Vec<PublishedFile>,
    name: &str,
    text: String,
) -> Result<(), AllocError>
    ensures { OnOk result (map file_entry files.new.items ≡ map file_entry files.old.items ++ file name.now (string_bytes text) ∷ []) }
{
    push_file(files, String::from_str(alloc, name)?, text)
}

/// Appends the page of a ward.
fn push_ward_page(
    alloc: Global,
    files: &mut Vec<PublishedFile>,
    ward: &WardTexts,
) -> Result<(), AllocError>
    ensures { OnOk result (map file_entry files.new.items ≡ map file_entry files.old.items ++ ward_page_file (ward_entry ward.now) ∷ []) }
{
    let name = ward_file(alloc, ward.number, ".html")?;
    let links = ward_links(alloc, ward)?;
    let page = linked(alloc, links.as_str(), ward.page)?;
    push_file(files, name, page)
}

/// Appends a file of a ward.
fn push_part(
    alloc: Global,
    files: &mut Vec<PublishedFile>,
    number: u8,
    part: &WardPart,
) -> Result<(), AllocError>
    ensures { OnOk result (map file_entry files.new.items ≡ map file_entry files.old.items ++ part_file number (part_entry part.now) ∷ []) }
{
    let name = ward_file(alloc, number, part.ending)?;
    push_file(files, name, String::from_str(alloc, part.text)?)
}

/// Appends the given files of a ward.
fn push_parts(
    alloc: Global,
    files: &mut Vec<PublishedFile>,
    number: u8,
    parts: &[WardPart],
) -> Result<(), AllocError>
    ensures { OnOk result (map file_entry files.new.items ≡ map file_entry files.old.items ++ map (part_file number) (map part_entry parts.now)) }
{
    for part in parts {
        push_part(alloc, files, number, part)?;
    }
    Ok(())
}

/// Appends the files of a ward.
fn push_ward(
    alloc: Global,
    files: &mut Vec<PublishedFile>,
    ward: &WardTexts,
) -> Result<(), AllocError>
    ensures { OnOk result (map file_entry files.new.items ≡ map file_entry files.old.items ++ ward_files (ward_entry ward.now)) }
{
    push_ward_page(alloc, files, ward)?;
    let parts = ward_parts(alloc, ward)?;
    push_parts(alloc, files, ward.number, &parts)
}

/// Appends the files of wards.
fn push_wards(
    alloc: Global,
    files: &mut Vec<PublishedFile>,
    wards: &[WardTexts],
) -> Result<(), AllocError>
    ensures { OnOk result (map file_entry files.new.items ≡ map file_entry files.old.items ++ flat_map ward_files (map ward_entry wards.now)) }
{
    for ward in wards {
        push_ward(alloc, files, ward)?;
    }
    Ok(())
}

/// Appends the page of all wards.
fn push_index(
    alloc: Global,
    files: &mut Vec<PublishedFile>,
    election: &PublishedElection,
) -> Result<(), AllocError>
    ensures { OnOk result (map file_entry files.new.items ≡ map file_entry files.old.items ++ index_file (election_entry election.now) ∷ []) }
{
    let links = index_links(alloc, election.wards)?;
    let page = linked(alloc, links.as_str(), election.index)?;
    push_named(alloc, files, "index.html", page)
}

/// Returns the files that SHA256SUMS lists.
fn summed_files(
    alloc: Global,
    election: &PublishedElection,
) -> Result<Vec<PublishedFile>, AllocError>
    ensures { IfOk result (λ files. map file_entry files.items ≡ summed_files (election_entry election.now)) }
{
    let mut files = Vec::new(alloc);
    push_index(alloc, &mut files, election)?;
    push_wards(alloc, &mut files, election.wards)?;
    push_named(
        alloc,
        &mut files,
        "results.json",
        all_results(alloc, election)?,
    )?;
    push_named(
        alloc,
        &mut files,
        "check.html",
        check_page(alloc, election.title)?,
    )?;
    Ok(files)
}

/// Returns all files.
fn all_files(alloc: Global, election: &PublishedElection) -> Result<Vec<PublishedFile>, AllocError>
    ensures { IfOk result (λ files. map file_entry files.items ≡ published (election_entry election.now)) }
{
    let mut files = summed_files(alloc, election)?;
    let sums = sums_text(alloc, &files)?;
    push_named(alloc, &mut files, "SHA256SUMS", sums)?;
    Ok(files)
}

/// Returns the files of the folder in which an election is published, in order; no two have the same name.
///
/// `NotAPage` if a page doesn't end as pages do, whatever else fails; otherwise `WardOrder` if the wards aren't in ascending order of
/// their numbers; otherwise `Memory` if an allocation fails.
pub fn published_files(
    alloc: Global,
    election: &PublishedElection,
) -> Result<Vec<PublishedFile>, PublishFault>
    ensures files { IfOk result (λ files. map file_entry files.items ≡ published (election_entry election.now)) }
    ensures names { IfOk result (λ files. IsDistinct bytes_eq (names (map file_entry files.items))) }
    ensures pinned { OnOk result (ArePinned (summed_files (election_entry election.now))) }
    ensures pages { (result ≡ Err PublishFault.NotAPage) ↔ (are_pages (election_entry election.now) ≡ false) }
    ensures order { (result ≡ Err PublishFault.WardOrder) ↔ ((are_pages (election_entry election.now) ≡ true) × (are_in_order (map ward_entry election.now.wards.now) ≡ false)) }
{
    if !are_pages(election) {
        return Err(PublishFault::NotAPage);
    }
    if !are_in_order(election.wards) {
        return Err(PublishFault::WardOrder);
    }
    match all_files(alloc, election) {
        Ok(files) => Ok(files),
        Err(AllocError) => Err(PublishFault::Memory),
    }
}

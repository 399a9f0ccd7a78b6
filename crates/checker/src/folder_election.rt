//! The election published in a folder, made again from its ballots.

ghost use Rattle.std.specs.Prelude.{◌≡◌, ◌++◌, ◌∷◌, [], map, true, codes, option_copied, string_bytes, IfOk, IfErr, List, OnOk};
ghost use Rattle.std.specs.List.{All};
ghost use Rattle.std.specs.Str.{is_utf8};
ghost use Rattle.publication.specs.Election.{are_in_order, ascend_from, ward_entry};
ghost use Rattle.publication.specs.Files.{FileEntry, file_entry};
ghost use Rattle.publication.specs.Folder.{published};
ghost use Rattle.publication.specs.Pages.{are_pages};
ghost use Rattle.publication.specs.Parts.{ward_file};
ghost use Rattle.sheet.specs.Index.{listed};
ghost use Rattle.checker.specs.Folders.{ArePublished, FolderWard, IsOfficeFolder, IsPublishedFolder, IsUnsealedText, SealedEntry, UnsealedEntry};
ghost use Rattle.checker.specs.Folders.{is_sealed, is_unsealed, listed_of, ward_of};
ghost use Rattle.checker.specs.FolderViews.{AreFound};
ghost use Rattle.checker.specs.FolderWards.{AreMadeAs, HasTexts, IsAppended, IsElectionMade, IsGiven, IsMadeAs, IsMadeFrom, IsWardMade, OkUnless};
ghost use Rattle.checker.specs.FolderWards.{made_election, page_of, row_listed, told_texts};
ghost use Rattle.checker.specs.IndexPage.{page_entry, row_entry};
ghost use Rattle.checker.specs.Tokens.{Text};

use crate::folder_files::{FolderFile, bytes_in};
use crate::folder_index::{IndexPage, IndexRow, index_page};
use crate::folder_texts::{SealedTexts, published_texts};
use crate::folder_unsealed::{shown_text, unsealed_ward};
use crate::folder_wards::{Progress, SealedWard, WardFault, sealed_ward};
use crate::problem::Problem;
use itoa::Buffer;
use publication::{PublishFault, PublishedElection, PublishedFile, WardTexts, published_files};
use sheet::{ListedWard, WardStanding, index_text};
use std::alloc::{AllocError, Global};

/// The wards of an election, as the page of all wards lists them, and the texts of those that are sealed.
#[derive(Drop)]
pub(crate) struct FolderElection {
    pub(crate) listed: Vec<ListedWard>,
    pub(crate) sealed: Vec<SealedTexts>,
}

/// The reason why an election can't be made again.
#[derive(Clone, Copy)]
pub(crate) enum MakeFault {
    /// An allocation failed.
    Memory,
    /// There is no page of all wards that can be read.
    NoIndex,
    /// The file `index.html` isn't a page of all wards, in the order of their numbers.
    NotIndex,
    /// No ballots are published, though there are sealed wards.
    NoBallots,
    /// There are no ballots of this ward that can be read, though others are published.
    WardMissing { ward: u8 },
    /// This ward can't be made again from its ballots.
    Ward { ward: u8, fault: WardFault },
}

/// Returns the name of a ward's file with the given ending.
fn ward_file(alloc: Global, ward: u8, ending: &str) -> Result<String, AllocError>
    ensures { IfOk result (λ name. string_bytes name ≡ ward_file ward ending.now) }
{
    let mut name = String::from_str(alloc, "ward-")?;
    name.push_str(Buffer::new().format(ward))?;
    name.push_str(ending)?;
    Ok(name)
}

/// Returns the name of the file with a ward's ballots.
pub(crate) fn ballots_name(alloc: Global, ward: u8) -> Result<String, AllocError>
    ensures { IfOk result (λ name. string_bytes name ≡ ward_file ward (codes "-ballots.txt")) }
{
    ward_file(alloc, ward, "-ballots.txt")
}

/// Appends a ward that isn't sealed, as it is listed.
fn push_listed(election: &mut FolderElection, ward: ListedWard) -> Result<(), AllocError>
    ensures listed { OnOk result (election.new.listed.items ≡ election.old.listed.items ++ ward ∷ []) }
    ensures sealed { OnOk result (election.new.sealed ≡ election.old.sealed) }
{
    election.listed.push(ward)?;
    Ok(())
}

/// Appends a ward that isn't sealed.
fn push_unsealed(
    alloc: Global,
    election: &mut FolderElection,
    row: &IndexRow,
    is_keying: bool,
) -> Result<(), MakeFault>
    ensures made { OnOk result ((title : Text) → IsElectionMade title election.old → IsElectionMade title election.new) }
    ensures again { (title : Text) (ward : UnsealedEntry) → IsUnsealedText ward → row_entry row.now ≡ row_listed (listed_of (is_unsealed ward)) → is_keying ≡ ward.is_keying
        → OkUnless MakeFault.Memory result (λ done. IsAppended title election.old election.new (is_unsealed ward)) }
{
    let ward = unsealed_ward(alloc, row, is_keying)?;
    match push_listed(election, ward) {
        Ok(()) => Ok(()),
        Err(_) => Err(MakeFault::Memory),
    }
}

/// Appends a sealed ward that was made again.
fn push_made(election: &mut FolderElection, made: SealedWard) -> Result<(), AllocError>
    ensures made { OnOk result ((title : Text) → IsWardMade title made → IsElectionMade title election.old → IsElectionMade title election.new) }
    ensures again { OnOk result ((title : Text) (ward : SealedEntry) → IsMadeAs title ward made → IsAppended title election.old election.new (is_sealed ward)) }
{
    let SealedWard { texts, listed } = made;
    election.listed.push(listed)?;
    election.sealed.push(texts)?;
    Ok(())
}

/// Appends a sealed ward, made again from its ballots.
fn push_sealed(
    alloc: Global,
    title: &str,
    election: &mut FolderElection,
    ballots: &[u8],
    progress: Progress,
) -> Result<(), WardFault>
    ensures made { OnOk result (IsElectionMade title.now election.old → IsElectionMade title.now election.new) }
    ensures again { (ward : SealedEntry) → IsMadeFrom ward ballots.now progress.entry.is_declared (option_copied progress.entry.sheet)
        → OkUnless (WardFault.Ballots Problem.Memory) result (λ done. IsAppended title.now election.old election.new (is_sealed ward)) }
{
    let made = sealed_ward(alloc, title, ballots, progress)?;
    match push_made(election, made) {
        Ok(()) => Ok(()),
        Err(_) => Err(WardFault::Ballots(Problem::Memory)),
    }
}

/// Returns the reason why an election can't be made again, given the reason for a ward.
fn ward_fault(ward: u8, fault: WardFault) -> MakeFault
    ensures { fault ≡ WardFault.Ballots Problem.Memory → result ≡ MakeFault.Memory }
{
    match fault {
        WardFault::Ballots(Problem::Memory) => MakeFault::Memory,
        _ => MakeFault::Ward { ward, fault },
    }
}

/// Appends the sealed ward with the given number, made again from its ballots in the folder.
fn push_from(
    alloc: Global,
    title: &str,
    found: &[FolderFile],
    election: &mut FolderElection,
    ward: u8,
    is_declared: bool,
) -> Result<(), MakeFault>
    ensures made { OnOk result (IsElectionMade title.now election.old → IsElectionMade title.now election.new) }
    ensures again { (entry : SealedEntry) → HasTexts found.now entry → ward ≡ (ward_of entry).number → is_declared ≡ entry.is_declared
        → OkUnless MakeFault.Memory result (λ done. IsAppended title.now election.old election.new (is_sealed entry)) }
{
    let (Ok(ballots), Ok(sheet)) = (
        ballots_name(alloc, ward),
        ward_file(alloc, ward, "-sheet.txt"),
    ) else {
        return Err(MakeFault::Memory);
    };
    let Some(ballots) = bytes_in(found, ballots.as_str()) else {
        return Err(MakeFault::WardMissing { ward });
    };
    let sheet = bytes_in(found, sheet.as_str());
    let progress = Progress { is_declared, sheet };
    match push_sealed(alloc, title, election, ballots, progress) {
        Ok(()) => Ok(()),
        Err(fault) => Err(ward_fault(ward, fault)),
    }
}

/// Appends the ward of a row.
fn push_row(
    alloc: Global,
    title: &str,
    found: &[FolderFile],
    election: &mut FolderElection,
    row: &IndexRow,
) -> Result<(), MakeFault>
    ensures made { OnOk result (IsElectionMade title.now election.old → IsElectionMade title.now election.new) }
    ensures again { (ward : FolderWard) → IsGiven found.now ward → row_entry row.now ≡ row_listed (listed_of ward)
        → OkUnless MakeFault.Memory result (λ done. IsAppended title.now election.old election.new ward) }
{
    match row.standing {
        WardStanding::Nominations => push_unsealed(alloc, election, row, false),
        WardStanding::Keying => push_unsealed(alloc, election, row, true),
        WardStanding::Sealed => push_from(alloc, title, found, election, row.number, false),
        WardStanding::Declared => push_from(alloc, title, found, election, row.number, true),
    }
}

/// Returns the wards of the given rows.
fn election_of(
    alloc: Global,
    title: &str,
    found: &[FolderFile],
    rows: &[IndexRow],
) -> Result<FolderElection, MakeFault>
    ensures made { IfOk result (IsElectionMade title.now) }
    ensures again { (wards : List FolderWard) → All (IsGiven found.now) wards → map row_entry rows.now ≡ map (λ ward. row_listed (listed_of ward)) wards
        → OkUnless MakeFault.Memory result (AreMadeAs title.now wards) }
{
    let mut election = FolderElection {
        listed: Vec::new(alloc),
        sealed: Vec::new(alloc),
    };
    for row in rows {
        match push_row(alloc, title, found, &mut election, row) {
            Ok(()) => {}
            Err(fault) => return Err(fault),
        }
    }
    Ok(election)
}

/// Returns whether wards are in ascending order of their numbers, and none appears twice.
fn are_in_order(wards: &[ListedWard]) -> bool
    ensures { result ≡ ascend_from 0 (map (λ ward. (listed ward).number) wards.now) }
{
    let mut least: u32 = 0;
    for ward in wards {
        if ward.number < least || ward.number > 255 {
            return false;
        }
        least = ward.number + 1;
    }
    true
}

/// Returns the texts of wards, to be published.
fn texts_of<'a>(alloc: Global, wards: &'a [SealedTexts]) -> Result<Vec<WardTexts<'a>>, AllocError>
    ensures { IfOk result (λ texts. map ward_entry texts.items ≡ map told_texts wards.entry.now) }
{
    let mut texts = Vec::new(alloc);
    for ward in wards {
        texts.push(published_texts(ward))?;
    }
    Ok(texts)
}

/// Returns the reason why files weren't made.
fn unmade(fault: PublishFault) -> MakeFault
    ensures { fault ≡ PublishFault.Memory → result ≡ MakeFault.Memory }
{
    match fault {
        PublishFault::Memory => MakeFault::Memory,
        PublishFault::NotAPage | PublishFault::WardOrder => MakeFault::NotIndex,
    }
}

/// Returns the files that are published of an election under the given title.
fn files_of(
    alloc: Global,
    title: &str,
    election: &FolderElection,
) -> Result<Vec<PublishedFile>, MakeFault>
    ensures made { IfOk result (λ files. map file_entry files.items ≡ published (made_election title.now election.now)) }
    ensures again { are_pages (made_election title.now election.now) ≡ true → are_in_order (map told_texts election.now.sealed.items) ≡ true
        → IfErr result (λ fault. fault ≡ MakeFault.Memory) }
{
    let Ok(index) = index_text(alloc, title, &election.listed) else {
        return Err(MakeFault::Memory);
    };
    let Ok(wards) = texts_of(alloc, &election.sealed) else {
        return Err(MakeFault::Memory);
    };
    let published = PublishedElection {
        title,
        index: index.as_str(),
        wards: &wards,
    };
    match published_files(alloc, &published) {
        Ok(files) => Ok(files),
        Err(fault) => Err(unmade(fault)),
    }
}

/// Returns the files of the election that a page of all wards and the ballots in a folder describe.
fn files_for(
    alloc: Global,
    found: &[FolderFile],
    page: &IndexPage,
) -> Result<Vec<PublishedFile>, MakeFault>
    ensures made { IfOk result (λ files. IsPublishedFolder (map file_entry files.items)) }
    ensures again { (title : Text) (wards : List FolderWard) (files : List FileEntry) → is_utf8 title ≡ true → All (IsGiven found.now) wards
        → page_entry page.now ≡ page_of title wards → ArePublished title wards files → OkUnless MakeFault.Memory result (λ made. map file_entry made.items ≡ files) }
{
    let title = shown_text(alloc, page.title)?;
    let text = title.as_str();
    let election = election_of(alloc, text, found, &page.rows)?;
    if !are_in_order(&election.listed) {
        return Err(MakeFault::NotIndex);
    }
    match files_of(alloc, text, &election) {
        Ok(files) => Ok(files),
        Err(fault) => Err(fault),
    }
}

/// Returns whether there are ballots in a folder.
fn has_ballots(found: &[FolderFile]) -> bool {
    found
        .iter()
        .any(|file| file.name.as_str().ends_with("-ballots.txt"))
}

/// Returns the reason why an election can't be made again, which for a ward without ballots may be that there are none at all.
fn told_fault(found: &[FolderFile], fault: MakeFault) -> MakeFault
    ensures { fault ≡ MakeFault.Memory → result ≡ MakeFault.Memory }
{
    match fault {
        MakeFault::WardMissing { .. } if !has_ballots(found) => MakeFault::NoBallots,
        _ => fault,
    }
}

/// Returns the files of the election published in a folder, made again from its ballots.
pub(crate) fn made_files(
    alloc: Global,
    found: &[FolderFile],
) -> Result<Vec<PublishedFile>, MakeFault>
    ensures made { IfOk result (λ files. IsPublishedFolder (map file_entry files.items)) }
    ensures again { (files : List FileEntry) → AreFound found.now files → IsOfficeFolder files → OkUnless MakeFault.Memory result (λ made. map file_entry made.items ≡ files) }
{
    let Some(bytes) = bytes_in(found, "index.html") else {
        return Err(MakeFault::NoIndex);
    };
    let page = match index_page(alloc, bytes) {
        Ok(Some(page)) => page,
        Ok(None) => return Err(MakeFault::NotIndex),
        Err(AllocError) => return Err(MakeFault::Memory),
    };
    match files_for(alloc, found, &page) {
        Ok(files) => Ok(files),
        Err(fault) => Err(told_fault(found, fault)),
    }
}

//! Publishing the results of the office: the files of a folder, made from the texts of all sealed wards at one state.

ghost use Rattle.std.specs.Prelude.{◌≡◌, [], ◌∷◌, ◌++◌, ◌-◌, ◌^◌, ◌<◌, true, IfErr, IfOk, OnOk, length, map, option_map, string_bytes};
ghost use Rattle.std.specs.Option.{option_copied};
ghost use Rattle.sqlite.specs.Held.{state};
ghost use Rattle.register.specs.Elections.{election_of, is_counted, is_declared};
ghost use Rattle.register.specs.Offices.{ward_at, ward_entry};
ghost use Rattle.register.specs.StateConditions.{IsState};
ghost use Rattle.tables.specs.Reading.{OnlyReads};
ghost use Rattle.office.specs.Answers.{IsReadAt, WhenOpenAt};
ghost use Rattle.office.specs.Index.{index_of};
ghost use Rattle.office.specs.Sheets.{text_answer};
ghost use Rattle.publication.specs.Election.{ward_entry as text_entry};
ghost use Rattle.publication.specs.Files.{file_entry};
ghost use Rattle.publication.specs.Folder.{published};
ghost use Rattle.published_office.specs.OfficeFolder.{election_published, published_of, texts_of, wards_published};
ghost use Rattle.desk.specs.Pages.{Tells, failed, outputs_of, page_of, replied};
ghost use Rattle.desk.specs.Publications.{FailsFolder, HoldsPublished, IsPublished, IsPublishedAs, IsTextIf, IsUnmade, Publishes, PutsFiles, Reads};
ghost use Rattle.desk.specs.Publications.{election_read, folder_failure, published_text, sealed_entry, unmade_failure, ward_of_overview, ward_published};
ghost use Rattle.desk.specs.declared.lines.Failure.{Failure};

use crate::lines::{LineOutcome, tell};
use crate::orders::PublishOrder;
use office::{Office, ReadError, WardText};
use publication::{PublishFault, PublishedElection, PublishedFile, WardTexts, published_files};
use register::Phase;
use sqlite::Alter;
use std::alloc::{AllocError, Global};
use store::{CopyFault, Fault, WardOverview};
use streams::Sink;

// ---- the folder

/// The reason why nothing was published in a folder.
#[derive(Clone, Copy)]
pub enum FolderFault {
    /// Something has the name of the folder already.
    Taken,
    /// An allocation failed.
    Memory,
    /// The folder can't be written.
    Unwritten,
}

/// A folder into which files are put, and which is then made public, whole or not at all.
pub trait PublicFolder {
    ghost use Rattle.std.specs.Prelude.{IfErr, OnOk, Option};
    ghost use Rattle.desk.specs.Publications.{FailsFolder, FolderEntry, GoesPublic, PutsFile};

    /// The files that were put into the folder, whether it is public, and the fault of a call that failed, if that is known.
    ghost held: { Self → Option FolderEntry };

    /// Puts a file with a name and a text into the folder, which isn't public. After a fault, the file may be in it or not.
    fn put(&mut self, name: &str, text: &str) -> Result<(), FolderFault>
        ensures ok { OnOk result (PutsFile (held self.old) (held self.new) name.now text.now) }
        ensures err { IfErr result (FailsFolder (held self.old) (held self.new)) };

    /// Makes the folder public, with the files that were put into it and no others. After a fault, it isn't public.
    fn publish(&mut self) -> Result<(), FolderFault>
        ensures ok { OnOk result (GoesPublic (held self.old) (held self.new)) }
        ensures err { IfErr result (FailsFolder (held self.old) (held self.new)) };
}

/// Returns the outcome for a folder in which nothing was published.
fn unpublished(fault: FolderFault) -> LineOutcome
    ensures { page_of result ≡ failed (folder_failure fault) }
{
    match fault {
        FolderFault::Taken => LineOutcome::Uncopied(CopyFault::Taken),
        FolderFault::Memory => LineOutcome::Failed(Fault::Memory),
        FolderFault::Unwritten => LineOutcome::Uncopied(CopyFault::Copy(Fault::Store)),
    }
}

/// Puts files into a folder, in order.
fn put_files<F: PublicFolder>(folder: &mut F, files: &[PublishedFile]) -> Result<(), FolderFault>
    ensures ok { OnOk result (PutsFiles (F.held folder.old) (F.held folder.new) (map file_entry files.now)) }
    ensures err { IfErr result (FailsFolder (F.held folder.old) (F.held folder.new)) }
{
    for file in files {
        folder.put(file.name.as_str(), file.text.as_str())?;
    }
    Ok(())
}

/// Puts files into a folder, in order, and makes it public.
fn publish_files<F: PublicFolder>(
    folder: &mut F,
    files: &[PublishedFile],
) -> Result<(), FolderFault>
    ensures ok { OnOk result (Publishes (F.held folder.old) (F.held folder.new) (map file_entry files.now)) }
    ensures err { IfErr result (FailsFolder (F.held folder.old) (F.held folder.new)) }
{
    put_files(folder, files)?;
    folder.publish()
}

// ---- the texts

/// The texts of a sealed ward that are published.
#[derive(Drop)]
pub(crate) struct SealedWard {
    number: u8,
    name: String,
    page: String,
    sheet: String,
    declaration: Option<String>,
    table: String,
    results: String,
    ballots: Option<String>,
}

/// Reads a text of a ward. The error is that of a failed allocation or a failed store.
fn text_of<S: Alter>(office: &mut Office<S>, ward: u32, text: WardText<'_>) -> Result<String, Fault>
    ensures { Reads (state S.Store) office.old office.new result (λ s told. text_answer text.entry s ward ≡ Ok (string_bytes told)) }
{
    match office.text(ward, text) {
        Ok(told) => Ok(told),
        Err(ReadError::Fault(fault)) => Err(fault),
        Err(ReadError::Refused(_)) => Err(Fault::Store),
    }
}

/// Reads a text of a ward if it is wanted, and returns `None` otherwise.
fn text_if<S: Alter>(
    office: &mut Office<S>,
    is_wanted: bool,
    ward: u32,
    text: WardText<'_>,
) -> Result<Option<String>, Fault>
    ensures { Reads (state S.Store) office.old office.new result (λ s told. IsTextIf is_wanted (text_answer text.entry s ward) (option_map string_bytes told)) }
{
    if !is_wanted {
        return Ok(None);
    }
    match text_of(office, ward, text) {
        Ok(told) => Ok(Some(told)),
        Err(fault) => Err(fault),
    }
}

/// Returns whether a ward in this phase is declared.
fn is_declared_in(phase: Phase) -> bool
    ensures { result ≡ is_declared phase }
{
    matches!(phase, Phase::Declared)
}

/// Reads the texts of a sealed ward that are published.
fn sealed_ward<S: Alter>(
    office: &mut Office<S>,
    overview: &WardOverview,
    asked: PublishOrder<'_>,
) -> Result<SealedWard, Fault>
    ensures { Reads (state S.Store) office.old office.new result (λ s ward. IsState s → ward_at s overview.now.ward.number ≡ Some (ward_entry overview.now.ward)
        → is_counted overview.now.ward.phase ≡ true
        → sealed_entry ward ≡ texts_of asked.entry.title.now asked.entry.with_ballots (election_of s (ward_entry overview.now.ward))) }
{
    let ward = overview.ward.number;
    let name: Result<String, AllocError> = overview.ward.name.clone();
    let (Ok(number), Ok(name)) = (u8::try_from(ward), name) else {
        return Err(Fault::Memory);
    };
    let is_declared = is_declared_in(overview.ward.phase);
    let page = text_of(office, ward, WardText::Page(asked.title))?;
    let sheet = text_of(office, ward, WardText::Sheet)?;
    let declaration = text_if(office, is_declared, ward, WardText::Declaration)?;
    let table = text_of(office, ward, WardText::Table)?;
    let results = text_of(office, ward, WardText::Results)?;
    let ballots = text_if(office, asked.with_ballots, ward, WardText::Ballots)?;
    Ok(SealedWard {
        number,
        name,
        page,
        sheet,
        declaration,
        table,
        results,
        ballots,
    })
}

/// Returns whether the results of a ward in this phase are published: it is sealed.
fn is_published_in(phase: Phase) -> bool
    ensures { result ≡ is_counted phase }
{
    matches!(phase, Phase::Sealed | Phase::Declared)
}

/// Appends the texts of a ward.
fn keep_ward(wards: &mut Vec<SealedWard>, ward: SealedWard) -> Result<(), Fault>
    ensures ok { OnOk result (map sealed_entry wards.new.items ≡ map sealed_entry wards.old.items ++ sealed_entry ward ∷ []) }
    ensures err { IfErr result (λ fault. fault ≡ Fault.Memory) }
{
    match wards.push(ward) {
        Ok(()) => Ok(()),
        Err(_) => Err(Fault::Memory),
    }
}

/// Reads the texts of a ward that are published, if it is sealed, and appends them.
fn push_ward<S: Alter>(
    office: &mut Office<S>,
    wards: &mut Vec<SealedWard>,
    overview: &WardOverview,
    asked: PublishOrder<'_>,
) -> Result<(), Fault>
    ensures { Reads (state S.Store) office.old office.new result (λ s _. IsState s → ward_at s overview.now.ward.number ≡ Some (ward_entry overview.now.ward)
        → map sealed_entry wards.new.items ≡ map sealed_entry wards.old.items ++ ward_published asked.entry.title.now asked.entry.with_ballots s (ward_entry overview.now.ward)) }
{
    if !is_published_in(overview.ward.phase) {
        return Ok(());
    }
    let ward = sealed_ward(office, overview, asked)?;
    keep_ward(wards, ward)
}

/// Reads the texts of all sealed wards that are published, given the overviews of all wards.
fn sealed_wards<S: Alter>(
    alloc: Global,
    office: &mut Office<S>,
    overviews: &[WardOverview],
    asked: PublishOrder<'_>,
) -> Result<Vec<SealedWard>, Fault>
    ensures { Reads (state S.Store) office.old office.new result (λ s wards. map ward_of_overview overviews.now ≡ s.wards
        → map sealed_entry wards.items ≡ wards_published asked.entry.title.now asked.entry.with_ballots s) }
{
    let mut wards = Vec::new(alloc);
    for overview in overviews {
        push_ward(office, &mut wards, overview, asked)?;
    }
    Ok(wards)
}

/// Reads the overviews of all wards. The error is that of a failed allocation or a failed store.
fn overviews_of<S: Alter>(office: &mut Office<S>) -> Result<Vec<WardOverview>, Fault>
    ensures { Reads (state S.Store) office.old office.new result (λ s wards. map ward_of_overview wards.items ≡ s.wards) }
{
    match office.wards() {
        Ok(wards) => Ok(wards),
        Err(ReadError::Fault(fault)) => Err(fault),
        Err(ReadError::Refused(_)) => Err(Fault::Store),
    }
}

/// Reads the page of all wards. The error is that of a failed allocation or a failed store.
fn index_of<S: Alter>(office: &mut Office<S>, title: &str) -> Result<String, Fault>
    ensures { Reads (state S.Store) office.old office.new result (λ s told. string_bytes told ≡ index_of title.now s) }
{
    match office.index(title) {
        Ok(told) => Ok(told),
        Err(ReadError::Fault(fault)) => Err(fault),
        Err(ReadError::Refused(_)) => Err(Fault::Store),
    }
}

/// What is published of an office, as it was read: the page of all wards, and the texts of each sealed ward.
#[derive(Drop)]
pub(crate) struct ReadElection {
    index: String,
    wards: Vec<SealedWard>,
}

/// Reads what is published of an open office, all of it at the same state. The office stays open.
fn read_election<S: Alter>(
    alloc: Global,
    office: &mut Office<S>,
    asked: PublishOrder<'_>,
) -> Result<ReadElection, Fault>
    ensures { Reads (state S.Store) office.old office.new result (λ s found. election_read asked.entry.title.now found ≡ election_published asked.entry.title.now asked.entry.with_ballots s) }
{
    let index = index_of(office, asked.title)?;
    let overviews = overviews_of(office)?;
    let wards = sealed_wards(alloc, office, &overviews, asked)?;
    Ok(ReadElection { index, wards })
}

// ---- the files

/// Returns a text, if there is one.
fn text_in<'a>(text: &'a Option<String>) -> Option<&'a str>
    ensures { option_copied result ≡ option_map string_bytes text.entry.now }
{
    match text {
        Some(text) => Some(text.as_str()),
        None => None,
    }
}

/// Returns the texts of a ward, to be published.
fn texts_of_ward<'a>(ward: &'a SealedWard) -> WardTexts<'a>
    ensures { text_entry result ≡ sealed_entry ward.entry.now }
{
    WardTexts {
        number: ward.number,
        name: ward.name.as_str(),
        page: ward.page.as_str(),
        sheet: ward.sheet.as_str(),
        declaration: text_in(&ward.declaration),
        table: ward.table.as_str(),
        results: ward.results.as_str(),
        ballots: text_in(&ward.ballots),
    }
}

/// Returns the texts of wards, to be published.
fn texts_of_wards<'a>(
    alloc: Global,
    wards: &'a [SealedWard],
) -> Result<Vec<WardTexts<'a>>, AllocError>
    ensures { IfOk result (λ texts. map text_entry texts.items ≡ map sealed_entry wards.entry.now) }
{
    let mut texts = Vec::new(alloc);
    for ward in wards {
        texts.push(texts_of_ward(ward))?;
    }
    Ok(texts)
}

/// Returns the outcome if the files can't be made: out of memory, or that the folder isn't written. The pages of an office end as pages
/// do, and its wards are in order.
fn unmade(fault: PublishFault) -> LineOutcome
    ensures { page_of result ≡ failed (unmade_failure fault) }
{
    match fault {
        PublishFault::Memory => LineOutcome::Failed(Fault::Memory),
        PublishFault::NotAPage => LineOutcome::Uncopied(CopyFault::Copy(Fault::Store)),
        PublishFault::WardOrder => LineOutcome::Uncopied(CopyFault::Copy(Fault::Store)),
    }
}

/// Returns the files of the folder, or the outcome if they can't be made.
fn files_of(
    alloc: Global,
    asked: PublishOrder<'_>,
    found: &ReadElection,
) -> Result<Vec<PublishedFile>, LineOutcome>
    ensures ok { IfOk result (λ files. map file_entry files.items ≡ published (election_read asked.entry.title.now found.now)) }
    ensures err { IfErr result (λ outcome. (failure : Failure) × (page_of outcome ≡ failed failure) × IsUnmade (election_read asked.entry.title.now found.now) failure) }
{
    let texts = match texts_of_wards(alloc, &found.wards) {
        Ok(texts) => texts,
        Err(AllocError) => return Err(LineOutcome::Failed(Fault::Memory)),
    };
    let election = PublishedElection {
        title: asked.title,
        index: found.index.as_str(),
        wards: &texts,
    };
    match published_files(alloc, &election) {
        Ok(files) => Ok(files),
        Err(fault) => Err(unmade(fault)),
    }
}

// ---- the order

#[tactic(auto, unfolding(crate::specs::Publications::published_text))]
/// Returns the line that says how many wards and files were published, without its newline.
fn published_text(alloc: Global, wards: usize, files: usize) -> Result<String, AllocError>
    ensures { IfOk result (λ text. string_bytes text ≡ published_text wards files) }
{
    format!(in alloc; "published {wards} wards, {files} files")
}

/// Publishes the files of what was read in a folder, and returns the outcome.
fn published<F: PublicFolder>(
    alloc: Global,
    asked: PublishOrder<'_>,
    found: &ReadElection,
    folder: &mut F,
) -> LineOutcome
    ensures { let found_entry = election_read asked.entry.title.now found.now in let files = published found_entry in IsPublishedAs (IsUnmade found_entry)
        (replied (published_text (length found_entry.wards) (length files))) files (page_of result) (F.held folder.old) (F.held folder.new) }
{
    let files = match files_of(alloc, asked, found) {
        Ok(files) => files,
        Err(outcome) => return outcome,
    };
    let text = match published_text(alloc, found.wards.len(), files.len()) {
        Ok(text) => text,
        Err(AllocError) => return LineOutcome::Failed(Fault::Memory),
    };
    match publish_files(folder, &files) {
        Ok(()) => LineOutcome::Replied(text),
        Err(fault) => unpublished(fault),
    }
}

/// Publishes the results of an open office, which stays open, in a folder. Returns the outcome.
fn published_open<S: Alter, F: PublicFolder>(
    alloc: Global,
    office: &mut Office<S>,
    asked: PublishOrder<'_>,
    folder: &mut F,
) -> LineOutcome
    ensures published { WhenOpenAt (state S.Store) office.old office.new (λ s. IsPublished s asked.entry (page_of result) (F.held folder.old) (F.held folder.new)) }
    ensures holds { HoldsPublished (page_of result) (F.held folder.old) (F.held folder.new) }
    ensures stays { WhenOpenAt (state S.Store) office.old office.new (λ s. IsReadAt s office.new.closed (state S.Store office.new.held)) }
    ensures reads { OnlyReads (state S.Store office.old.held) (state S.Store office.new.held) }
{
    match read_election(alloc, office, asked) {
        Ok(found) => published(alloc, asked, &found, folder),
        Err(fault) => LineOutcome::Failed(fault),
    }
}

/// Publishes the results of an open office, which stays open, in a folder. Prints how many wards and files that has, and returns the
/// status.
///
/// The folder gets the page of all wards, and the digests of all other files. Each sealed ward has its page, stage sheet, table and
/// results; its declaration if it is declared; and its ballots if the order asks for them. All of them show the office at one and the
/// same state: the one at which it is open. With status 0, exactly these files were put into the folder, which is public.
///
/// If something has the name of the folder already, the failure is 109; if the folder can't be written, 110. Then it isn't public. If an
/// allocation fails, or the store while the office is being read, that is reported as usual, and nothing was done to the folder. There is
/// no other failure. The office is only read, whatever the outcome.
pub fn publish_open<S: Alter, F: PublicFolder, O: Sink, E: Sink>(
    alloc: Global,
    office: &mut Office<S>,
    asked: PublishOrder<'_>,
    folder: &mut F,
    out: &mut O,
    err: &mut E,
) -> u8
    requires out { O.failed out.old < 2 ^ 64 - 1 }
    requires err { E.failed err.old < 2 ^ 64 - 1 }
    ensures published { let outputs = outputs_of O.taken O.failed E.taken E.failed in Tells (outputs out.old err.old) (outputs out.new err.new) result
        (λ _ page. HoldsPublished page (F.held folder.old) (F.held folder.new)
        × WhenOpenAt (state S.Store) office.old office.new (λ s. IsPublished s asked.entry page (F.held folder.old) (F.held folder.new))) }
    ensures whole { result ≡ 0 → WhenOpenAt (state S.Store) office.old office.new
        (λ s. Publishes (F.held folder.old) (F.held folder.new) (published_of asked.entry.title.now asked.entry.with_ballots s)) }
    ensures stays { WhenOpenAt (state S.Store) office.old office.new (λ s. IsReadAt s office.new.closed (state S.Store office.new.held)) }
    ensures reads { OnlyReads (state S.Store office.old.held) (state S.Store office.new.held) }
{
    let outcome = published_open(alloc, office, asked, folder);
    tell(None, &outcome, out, err)
}

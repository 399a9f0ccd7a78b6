//! A sealed ward of a folder, made again from its ballots.

ghost use Rattle.std.specs.Prelude.{◌≡◌, bytes_eq, false, option_copied, IfErr, IfOk, List, None, Some};
ghost use Rattle.sheet.specs.Entries.{shown};
ghost use Rattle.sheet.specs.Sheet.{sheet};
ghost use Rattle.sheet.specs.Wards.{CanBePrinted};
ghost use Rattle.checker.specs.Counts.{IsWardCount, lots_in};
ghost use Rattle.checker.specs.Folders.{AreShown, IsSealed, MayEnd, SealedEntry, early_lot, ward_of};
ghost use Rattle.checker.specs.FolderWards.{AreShownBy, HasStages, IsCountMade, IsMadeAs, IsMadeFrom, IsReadingMade, IsWardMade, MayShow, OkUnless};
ghost use Rattle.count.specs.declared.stages.Stage.{Stage};
ghost use Rattle.checker.specs.Values.{ballots_of};
ghost use Rattle.checker.specs.declared.counting.WardCount.{WardCount};

use crate::ballot_counts::{lots_in, surpluses_in};
use crate::counting::{WardCount, count_of};
use crate::differences::first_difference;
use crate::file_content::WardBallots;
use crate::folder_texts::{SealedTexts, listed_ward, sealed_texts};
use crate::problem::Problem;
use crate::reading::read;
use crate::wards::{Election, candidates_of, ward_in};
use count::{CountEnd, Stage};
use sheet::{CountShown, ListedWard, Ward, sheet_text};
use std::alloc::{AllocError, Global};

/// A sealed ward: its texts, and what the page of all wards lists of it.
#[derive(Drop)]
pub(crate) struct SealedWard {
    pub(crate) texts: SealedTexts,
    pub(crate) listed: ListedWard,
}

/// How far a ward is: whether it is declared, and the content of its stage sheet, if that was read.
#[derive(Clone, Copy)]
pub(crate) struct Progress<'a> {
    pub(crate) is_declared: bool,
    pub(crate) sheet: Option<&'a [u8]>,
}

/// The reason why a ward can't be made again from its ballots.
#[derive(Clone, Copy)]
pub(crate) enum WardFault {
    /// The ballots or their lots have a problem, or an allocation failed.
    Ballots(Problem),
    /// A lot is recorded for stage `stage`, which is later than the next one after those that the sheet shows.
    EarlyLot { stage: u8 },
    /// The ballots aren't written as an office writes them. The first line that differs is `line`, counted from 1.
    OtherForm { line: u64 },
}

/// Returns the problem of a count that ends as given, if the ward's count can't end so; `None` if it can.
fn end_problem(end: CountEnd, is_declared: bool) -> Option<Problem>
    ensures none { result ≡ None → MayEnd is_declared end }
    ensures may { MayEnd is_declared end → result ≡ None }
{
    match end {
        CountEnd::Finished => None,
        CountEnd::LotNeeded { stage, among } => {
            if is_declared {
                Some(Problem::LotNeeded { stage, among })
            } else {
                None
            }
        }
        CountEnd::LotNotAmong { stage } => Some(Problem::LotNotAmong { stage }),
    }
}

/// Returns how many stages a stage sheet shows by its lines. It is confirmed later, since the sheet is made again.
fn stages_told(sheet: &[u8]) -> usize {
    match str::from_utf8(sheet) {
        Ok(text) => text
            .lines()
            .filter(|line| line.starts_with("Stage "))
            .count(),
        Err(_) => usize::MAX,
    }
}

/// Returns the first stages, at most the given number of them.
fn first_stages(all: &[Stage], done: usize) -> &[Stage]
    ensures { AreShown false all.now result.now }
{
    if all.len() <= done {
        return all;
    }
    &all[..done]
}

/// Returns whether the given text is the sheet of the given stages.
fn is_sheet(alloc: Global, ward: &Ward, stages: &[Stage], text: &[u8]) -> Result<bool, AllocError>
    requires { CanBePrinted ward.now }
    ensures { IfOk result (λ same. same ≡ bytes_eq (sheet (shown ward.now) stages.now) text.now) }
{
    let sheet = sheet_text(alloc, ward, stages)?;
    Ok(sheet.as_bytes() == text)
}

/// Returns the first stages of a count that isn't declared whose sheet is the given text. If there are none, the text isn't the ward's
/// sheet, and has lines for as many stages.
fn open_stages<'a>(
    alloc: Global,
    ward: &Ward,
    all: &'a [Stage],
    text: &[u8],
) -> Result<&'a [Stage], AllocError>
    requires ward { CanBePrinted ward.now }
    requires stages { HasStages ward.now.poll all.now }
    ensures { IfOk result (λ stages. AreShownBy (shown ward.now) false (Some text.now) all.now stages.now) }
{
    for done in 0..all.len() {
        let stages = &all[..done];
        if is_sheet(alloc, ward, stages, text)? {
            return Ok(stages);
        }
    }
    if is_sheet(alloc, ward, all, text)? {
        return Ok(all);
    }
    Ok(first_stages(all, stages_told(text)))
}

/// Returns the stages that the texts of a ward show: the first ones of its count, and all of them if it is declared.
fn shown_stages<'a>(
    alloc: Global,
    ward: &Ward,
    all: &'a [Stage],
    progress: Progress,
) -> Result<&'a [Stage], AllocError>
    requires ward { CanBePrinted ward.now }
    requires stages { HasStages ward.now.poll all.now }
    ensures { IfOk result (λ stages. AreShownBy (shown ward.now) progress.entry.is_declared (option_copied progress.entry.sheet) all.now stages.now) }
{
    if progress.is_declared {
        return Ok(all);
    }
    match progress.sheet {
        Some(text) => open_stages(alloc, ward, all, text),
        None => Ok(all),
    }
}

/// Returns the stage of the first lot that can't have been drawn yet when the given stages are done; `None` if there is none.
fn early_lot(stages: &[Stage], lots: &[(u8, u8)]) -> Option<u8>
    ensures { result ≡ early_lot stages.now lots.now }
{
    for lot in lots {
        if stages.len() + 1 < usize::from(lot.0) {
            return Some(lot.0);
        }
    }
    None
}

/// Returns the stages that the texts of a counted ward show.
///
/// The fault is that its count can't end as it does, that a recorded lot can't have been drawn by then, or that an allocation failed.
fn stages_in<'a>(
    alloc: Global,
    election: &Election,
    count: &'a WardCount,
    progress: Progress,
) -> Result<&'a [Stage], WardFault>
    requires ward { CanBePrinted election.now.ward }
    requires stages { HasStages election.now.ward.poll count.now.stages.items }
    ensures may { let e = election.now in IfOk result (λ stages. MayShow (lots_in e.ward.poll e.lots.now) progress.entry.is_declared count.now stages.now) }
    ensures shows { IfOk result (λ stages. AreShownBy (shown election.now.ward) progress.entry.is_declared (option_copied progress.entry.sheet) count.now.stages.items stages.now) }
    ensures only { let e = election.now in (others : List Stage) → MayShow (lots_in e.ward.poll e.lots.now) progress.entry.is_declared count.now others
        → option_copied progress.entry.sheet ≡ Some (sheet (shown e.ward) others) → IfErr result (λ fault. fault ≡ WardFault.Ballots Problem.Memory) }
{
    match end_problem(count.end, progress.is_declared) {
        Some(problem) => return Err(WardFault::Ballots(problem)),
        None => {}
    }
    let Ok(stages) = shown_stages(alloc, &election.ward, &count.stages, progress) else {
        return Err(WardFault::Ballots(Problem::Memory));
    };
    match early_lot(stages, lots_in(election)) {
        Some(stage) => Err(WardFault::EarlyLot { stage }),
        None => Ok(stages),
    }
}

/// Counts a ward, and makes it again.
fn counted_ward(
    alloc: Global,
    title: &str,
    election: &Election,
    progress: Progress,
) -> Result<SealedWard, WardFault>
    requires { CanBePrinted election.now.ward }
    ensures ok { let e = election.now in
        IfOk result (IsCountMade title.now (shown e.ward) e.bundles.now e.lots.now progress.entry.is_declared (option_copied progress.entry.sheet)) }
    ensures only { let e = election.now in (count : WardCount) (stages : List Stage) → IsWardCount e.ward.poll (shown e.ward) e.bundles.now e.lots.now count
        → MayShow (lots_in e.ward.poll e.lots.now) progress.entry.is_declared count stages → option_copied progress.entry.sheet ≡ Some (sheet (shown e.ward) stages)
        → IfErr result (λ fault. fault ≡ WardFault.Ballots Problem.Memory) }
{
    let count = match count_of(alloc, election) {
        Ok(count) => count,
        Err(problem) => return Err(WardFault::Ballots(problem)),
    };
    let is_declared = progress.is_declared;
    let stages = stages_in(alloc, election, &count, progress)?;
    let Ok(surpluses) = surpluses_in(alloc, election, &count, stages.len()) else {
        return Err(WardFault::Ballots(Problem::Memory));
    };
    let shown = CountShown {
        stages,
        lots: lots_in(election),
        surpluses: &surpluses,
    };
    let Ok(texts) = sealed_texts(alloc, title, election, &shown, count.elected, is_declared) else {
        return Err(WardFault::Ballots(Problem::Memory));
    };
    match listed_ward(alloc, &election.ward, &count.elected, is_declared) {
        Ok(listed) => Ok(SealedWard { texts, listed }),
        Err(_) => Err(WardFault::Ballots(Problem::Memory)),
    }
}

/// Counts the ward in a file of ballots, and makes it again.
fn ward_from(
    alloc: Global,
    title: &str,
    told: &WardBallots,
    progress: Progress,
) -> Result<SealedWard, WardFault>
    ensures ok { IfOk result (IsReadingMade title.now (ballots_of told.now) progress.entry.is_declared (option_copied progress.entry.sheet)) }
    ensures only { (ward : SealedEntry) → IsSealed ward → ward.reading ≡ ballots_of told.now → progress.entry.is_declared ≡ ward.is_declared
        → option_copied progress.entry.sheet ≡ Some (sheet (ward_of ward) ward.stages) → IfErr result (λ fault. fault ≡ WardFault.Ballots Problem.Memory) }
{
    let Ok(candidates) = candidates_of(alloc, &told.withdrawn, &told.names.names) else {
        return Err(WardFault::Ballots(Problem::Memory));
    };
    let election = Election {
        ward: ward_in(told, &candidates),
        bundles: &told.bundles,
        lots: &told.comments.lots,
    };
    counted_ward(alloc, title, &election, progress)
}

/// Returns whether a text has the given bytes.
fn are_bytes(text: &str, bytes: &[u8]) -> bool
    ensures { result ≡ bytes_eq text.now bytes.now }
{
    text.as_bytes() == bytes
}

/// Makes a sealed ward again under the given title, from its ballots, which have to be written as an office writes them.
pub(crate) fn sealed_ward(
    alloc: Global,
    title: &str,
    ballots: &[u8],
    progress: Progress,
) -> Result<SealedWard, WardFault>
    ensures ok { IfOk result (IsWardMade title.now) }
    ensures again { (ward : SealedEntry) → IsMadeFrom ward ballots.now progress.entry.is_declared (option_copied progress.entry.sheet)
        → OkUnless (WardFault.Ballots Problem.Memory) result (IsMadeAs title.now ward) }
{
    let told = match read(alloc, ballots) {
        Ok(told) => told,
        Err(problem) => return Err(WardFault::Ballots(problem)),
    };
    let made = ward_from(alloc, title, &told, progress)?;
    if are_bytes(made.texts.ballots.as_str(), ballots) {
        return Ok(made);
    }
    let line = first_difference(ballots, made.texts.ballots.as_bytes());
    Err(WardFault::OtherForm { line })
}

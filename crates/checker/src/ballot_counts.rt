//! The count of a file of ballots, and the texts of that count.

ghost use Rattle.std.specs.Prelude.{◌≡◌, length, option_map, string_bytes, IfOk, IfErr};
ghost use Rattle.sheet.specs.Entries.{shown};
ghost use Rattle.sheet.specs.Wards.{CanBePrinted};
ghost use Rattle.checker.specs.Counts.{IsCountedText, IsLotLine, IsNoLotLine, IsReadingText, IsReadingUncounted, IsUncounted};
ghost use Rattle.checker.specs.Counts.{IsWardCount, IsWardText, IsWardUncounted, declaration_asked, is_finished, lots_in, page_asked, surpluses_in, text_of, text_shown};
ghost use Rattle.checker.specs.Reading.{read};
ghost use Rattle.checker.specs.RecordViews.{ward_told};
ghost use Rattle.checker.specs.Records.{read_records};
ghost use Rattle.checker.specs.Values.{ballots_of};

use crate::counting::{WardCount, count_of};
use crate::file_content::WardBallots;
use crate::lot_lines::lot_line;
use crate::lots::lots_of;
use crate::problem::Problem;
use crate::reading::read;
use crate::records::read_records;
use crate::records_ward::RecordsWard;
use crate::wards::{Election, candidates_of, numbers_of, ward_in};
use count::CountEnd;
use sheet::{
    CountShown, PassedOn, ballots_text, declaration_text, page_text, results_text, sheet_text,
    spreadsheet_text, surpluses_of,
};
use std::alloc::{AllocError, Global};

/// A text of the count of a ward, as an office prints it.
#[derive(Clone, Copy)]
pub enum CountText<'a> {
    /// The stage sheet.
    Sheet,
    /// The declaration of a finished count; empty until then.
    Declaration,
    /// The page for a browser, with the given title; it shows the ward as declared if its count is finished.
    Page(&'a str),
    /// The table of the stages for a spreadsheet.
    Table,
    /// The result as JSON; it says that the ward is declared if its count is finished.
    Results,
    /// The ballots and the lots.
    Ballots,
}

/// A text of a count, which may be waiting for a lot.
#[derive(Drop)]
pub struct CountedText {
    /// The text, covering the stages so far.
    pub text: String,
    /// The line about the lot that the count is waiting for; `None` if the count is finished.
    pub lot_needed: Option<String>,
}

/// The reason why ballots aren't counted.
#[derive(Clone, Copy)]
pub enum CountProblem {
    /// A second lot is given for stage `stage`.
    LotTwice { stage: u8 },
    /// The ballots or their lots have a problem, or an allocation failed.
    Ballots(Problem),
}

/// Returns whether the count is finished.
fn is_finished(end: CountEnd) -> bool
    ensures { result ≡ is_finished end }
{
    match end {
        CountEnd::Finished => true,
        CountEnd::LotNeeded { .. } | CountEnd::LotNotAmong { .. } => false,
    }
}

/// Returns the lots of a contested ward; none for an uncontested one.
pub(crate) fn lots_in<'a>(election: &Election<'a>) -> &'a [(u8, u8)]
    ensures { result.now ≡ lots_in election.now.ward.poll election.now.lots.now }
{
    match election.ward.poll {
        None => &[],
        Some(_) => election.lots,
    }
}

/// Returns the declaration of a finished count; empty until then.
fn declared(alloc: Global, election: &Election, count: &WardCount) -> Result<String, AllocError>
    requires { CanBePrinted election.now.ward }
    ensures { IfOk result (λ told. string_bytes told ≡ text_shown declaration_asked (shown election.now.ward) election.now.bundles.now election.now.lots.now count.now) }
{
    if !is_finished(count.end) {
        return Ok(String::new(alloc));
    }
    declaration_text(alloc, &election.ward, count.elected)
}

/// Returns the papers that passed on with each surplus at the given number of stages of a ward's count; none for an uncontested
/// ward.
pub(crate) fn surpluses_in(
    alloc: Global,
    election: &Election,
    count: &WardCount,
    stages: usize,
) -> Result<Vec<PassedOn>, AllocError>
    requires ward { CanBePrinted election.now.ward }
    requires counted { IsWardCount election.now.ward.poll (shown election.now.ward) election.now.bundles.now election.now.lots.now count.now }
    ensures { IfOk result (λ found. found.items ≡ surpluses_in election.now.ward.poll (shown election.now.ward) election.now.bundles.now election.now.lots.now stages) }
{
    // called for its postcondition alone: the count is the ward's
    let _ = count.stages.len();
    match election.ward.poll {
        None => Ok(Vec::new(alloc)),
        Some(_) => {
            let ward = &election.ward;
            let (bundles, lots) = (election.bundles, election.lots);
            surpluses_of(alloc, numbers_of(ward), ward.seats, bundles, lots, stages)
        }
    }
}

/// Returns the page of the count of a ward.
fn page_of(
    alloc: Global,
    election: &Election,
    count: &WardCount,
    title: &str,
) -> Result<String, AllocError>
    requires ward { CanBePrinted election.now.ward }
    requires counted { IsWardCount election.now.ward.poll (shown election.now.ward) election.now.bundles.now election.now.lots.now count.now }
    ensures { IfOk result (λ told. string_bytes told ≡ text_shown (page_asked title.now) (shown election.now.ward) election.now.bundles.now election.now.lots.now count.now) }
{
    let surpluses = surpluses_in(alloc, election, count, count.stages.len())?;
    let shown = CountShown {
        stages: &count.stages,
        lots: lots_in(election),
        surpluses: &surpluses,
    };
    page_text(alloc, &election.ward, title, is_finished(count.end), &shown)
}

/// Returns a text of the count of a ward.
fn text_of(
    alloc: Global,
    election: &Election,
    count: &WardCount,
    text: &CountText,
) -> Result<String, AllocError>
    requires ward { CanBePrinted election.now.ward }
    requires counted { IsWardCount election.now.ward.poll (shown election.now.ward) election.now.bundles.now election.now.lots.now count.now }
    ensures { IfOk result (λ told. string_bytes told ≡ text_shown (text_of text.now) (shown election.now.ward) election.now.bundles.now election.now.lots.now count.now) }
{
    let ward = &election.ward;
    match text {
        CountText::Sheet => sheet_text(alloc, ward, &count.stages),
        CountText::Declaration => declared(alloc, election, count),
        CountText::Page(title) => page_of(alloc, election, count, *title),
        CountText::Table => spreadsheet_text(alloc, ward, &count.stages),
        CountText::Results => {
            let is_declared = is_finished(count.end);
            results_text(alloc, ward, is_declared, &count.stages, lots_in(election))
        }
        CountText::Ballots => ballots_text(alloc, ward, election.bundles, lots_in(election)),
    }
}

/// Returns the line about the lot that a count is waiting for, if any.
fn lot_needed(alloc: Global, election: &Election, end: CountEnd) -> Result<Option<String>, Problem>
    ensures ok { IfOk result (λ line. IsLotLine (shown election.now.ward) end (option_map string_bytes line)) }
    ensures err { IfErr result (λ problem. IsNoLotLine end problem) }
{
    match end {
        CountEnd::Finished => Ok(None),
        CountEnd::LotNeeded { stage, among } => match lot_line(
            alloc,
            &election.ward,
            stage,
            &among,
        ) {
            Ok(line) => Ok(Some(line)),
            Err(_) => Err(Problem::Memory),
        },
        CountEnd::LotNotAmong { stage } => Err(Problem::LotNotAmong { stage }),
    }
}

/// Counts a ward, and returns a text of its count.
fn counted(alloc: Global, election: &Election, text: &CountText) -> Result<CountedText, Problem>
    requires { CanBePrinted election.now.ward }
    ensures ok { IfOk result (λ counted. IsWardText election.now.ward.poll (shown election.now.ward) election.now.bundles.now election.now.lots.now (text_of text.now) counted) }
    ensures err { IfErr result (λ problem. IsWardUncounted election.now.ward.poll (shown election.now.ward) election.now.bundles.now election.now.lots.now problem) }
{
    let count = count_of(alloc, election)?;
    let lot_needed = lot_needed(alloc, election, count.end)?;
    match text_of(alloc, election, &count, text) {
        Ok(text) => Ok(CountedText { text, lot_needed }),
        Err(_) => Err(Problem::Memory),
    }
}

/// Counts the ward in a file, with further lots, and returns a text of its count.
fn counted_as(
    alloc: Global,
    told: &WardBallots,
    added: &[(u8, u8)],
    text: &CountText,
) -> Result<CountedText, CountProblem>
    ensures ok { IfOk result (λ counted. IsReadingText (ballots_of told.now) added.now (text_of text.now) counted) }
    ensures err { IfErr result (λ problem. IsReadingUncounted (ballots_of told.now) added.now problem) }
{
    let lots = lots_of(alloc, &told.comments.lots, added)?;
    let Ok(candidates) = candidates_of(alloc, &told.withdrawn, &told.names.names) else {
        return Err(CountProblem::Ballots(Problem::Memory));
    };
    let election = Election {
        ward: ward_in(told, &candidates),
        bundles: &told.bundles,
        lots: &lots,
    };
    match counted(alloc, &election, text) {
        Ok(counted) => Ok(counted),
        Err(problem) => Err(CountProblem::Ballots(problem)),
    }
}

/// Counts the ballots of a ward, and returns a text of the count: the stage sheet, the declaration, the page, the table, the
/// result as JSON, or the ballots and lots. It is the text that an office prints for a ward with exactly these papers and lots.
///
/// The ballots are read as for [`check`](crate::check). The further lots, each a stage, counted from 1, and a candidate, are added to
/// those that the file records; no two may be for the same stage. If a lot is needed but missing, the text covers the stages so far,
/// and a line names the stage and the tied candidates.
pub fn count_ballots(
    alloc: Global,
    ballots: &[u8],
    added: &[(u8, u8)],
    text: &CountText,
) -> Result<CountedText, CountProblem>
    ensures ok { IfOk result (λ counted. IsCountedText (read ballots.now) added.now (text_of text.now) counted) }
    ensures err { IfErr result (λ problem. IsUncounted (read ballots.now) added.now problem) }
{
    let told = match read(alloc, ballots) {
        Ok(told) => told,
        Err(problem) => return Err(CountProblem::Ballots(problem)),
    };
    match counted_as(alloc, &told, added, text) {
        Ok(counted) => Ok(counted),
        Err(problem) => Err(problem),
    }
}

/// Counts the cast-vote records of a ward, and returns a text of the count, as [`count_ballots`] does.
///
/// The records are comma-separated values. The first line names the columns; if the first column is `count`, it contains the number
/// of papers that each line represents. If no candidates are given, each other column is for a candidate, and a line contains the
/// ranks that a paper gives to the candidates. Its preferences are then the candidates with ranks 1, 2, 3, .., for as long as each
/// rank is given to exactly one candidate. If candidates are given, each other column is for a rank, and a line contains the
/// candidates, by number or by name. Its preferences are then those before the first empty field. A paper with no first preference,
/// or with several, is rejected.
pub fn count_records(
    alloc: Global,
    ward: &RecordsWard,
    records: &[u8],
    added: &[(u8, u8)],
    text: &CountText,
) -> Result<CountedText, CountProblem>
    ensures ok { IfOk result (λ counted. IsCountedText (read_records (ward_told ward.now) records.now) added.now (text_of text.now) counted) }
    ensures err { IfErr result (λ problem. IsUncounted (read_records (ward_told ward.now) records.now) added.now problem) }
{
    let told = match read_records(alloc, ward, records) {
        Ok(told) => told,
        Err(problem) => return Err(CountProblem::Ballots(problem)),
    };
    match counted_as(alloc, &told, added, text) {
        Ok(counted) => Ok(counted),
        Err(problem) => Err(problem),
    }
}

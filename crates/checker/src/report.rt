//! The outcome of running the program, as text and exit status.

ghost use Rattle.std.specs.Prelude.{◌≡◌, IfOk, option_map, string_bytes};
ghost use Rattle.checker.specs.Pages.{page_told};
ghost use Rattle.checker.specs.Reports.{checked_status, checked_text, counted_page, differing, folder_page, hindered_status, hindered_text, lot_text, page_of, page_with, should_be_text};
ghost use Rattle.checker.specs.Reports.{tied_text, too_long_text, uncounted_status, uncounted_text, unread_text, words_text};

use crate::ballot_counts::{CountProblem, CountedText};
use crate::differences::Checked;
use crate::folder_checking::FolderChecked;
use crate::help::{COUNT_HELP, HELP};
use crate::hints::{Hint, hint_text};
use crate::problem::Problem;
use crate::remedies::remedy;
use crate::requests::WordsFlaw;
use crate::terminal_escaping::shown;
use itoa::Buffer;
use paper::Columns;
use std::alloc::{AllocError, Global};

/// The text is the one that results from the ballots, the count is finished, or help is requested.
const WELL: u8 = 0;

/// The text differs, or the count is waiting for a lot.
const DIFFERS: u8 = 1;

/// The arguments or the ballots aren't understood, or the count can't be finished.
const NOT_CHECKED: u8 = 2;

/// A file can't be read, an allocation fails, or an output fails.
pub(crate) const FAILED: u8 = 3;

/// The outcome of running the program.
#[derive(Drop)]
pub enum Report {
    /// Help is requested.
    Help,
    /// Help on counting is requested.
    CountHelp,
    /// The arguments of a check aren't understood.
    BadArguments,
    /// The arguments of a count aren't understood.
    Misread(WordsFlaw),
    /// An argument isn't UTF-8.
    NotUtf8,
    /// The file at `path` can't be read; `why` is the reason.
    NotRead {
        path: String,
        why: String,
    },
    /// The check had the outcome `checked`, and the text has the invisible difference `hint`, if any.
    Checked {
        checked: Checked,
        hint: Option<Hint>,
    },
    /// A folder was checked.
    Folder(FolderChecked),
    /// The check wasn't possible because of the given problem.
    Hindered(Problem),
    /// The ballots were counted.
    Counted(CountedText),
    /// The ballots weren't counted, for the given reason.
    NotCounted(CountProblem),
}

/// Returns the message about the line at which the text should have ended.
fn too_long_text(alloc: Global, line: u64, hint: Option<Hint>) -> Result<String, AllocError>
    ensures { IfOk result (λ text. string_bytes text ≡ too_long_text line hint) }
{
    let hint = hint_text(hint);
    format!(in alloc; "line {line} differs: the text should end before it\n{hint}")
}

/// Returns the message about the first line that differs, and what it should be.
fn should_be_text(
    alloc: Global,
    line: u64,
    should_be: &str,
    hint: Option<Hint>,
) -> Result<String, AllocError>
    ensures { IfOk result (λ text. string_bytes text ≡ should_be_text line should_be.now hint) }
{
    let hint = hint_text(hint);
    let should_be = shown(alloc, should_be)?;
    format!(in alloc; "line {line} differs, and should be:\n{should_be}{hint}")
}

/// Returns the message about the first difference of a text.
fn differing(
    alloc: Global,
    line: u64,
    should_be: &str,
    hint: Option<Hint>,
) -> Result<String, AllocError>
    ensures { IfOk result (λ text. string_bytes text ≡ differing line should_be.now hint) }
{
    if should_be.is_empty() {
        return too_long_text(alloc, line, hint);
    }
    should_be_text(alloc, line, should_be, hint)
}

/// Returns the outcome of a check, in words.
fn checked_text(alloc: Global, checked: &Checked, hint: Option<Hint>) -> Result<String, AllocError>
    ensures { IfOk result (λ text. string_bytes text ≡ checked_text checked.now hint) }
{
    match checked {
        Checked::Sheet => String::from_str(
            alloc,
            "the text is the stage sheet that these ballots, rejected papers and lots give\n",
        ),
        Checked::Declaration => String::from_str(
            alloc,
            "the text is the declaration that these ballots, rejected papers and lots give\n",
        ),
        Checked::Differs { line, should_be } => differing(alloc, *line, should_be.as_str(), hint),
    }
}

/// Returns the numbers of the tied candidates, each after a space.
fn tied_text(alloc: Global, among: &Columns) -> Result<String, AllocError>
    ensures { IfOk result (λ text. string_bytes text ≡ tied_text among.now) }
{
    let mut text = String::new(alloc);
    for c in among.as_slice() {
        text.push(' ')?;
        text.push_str(Buffer::new().format(*c))?;
    }
    Ok(text)
}

/// Returns the message about a missing lot, with the tied candidates.
fn lot_text(alloc: Global, problem: &Problem, among: &Columns) -> Result<String, AllocError>
    ensures { IfOk result (λ text. string_bytes text ≡ lot_text problem.now among.now) }
{
    let tied = tied_text(alloc, among)?;
    format!(in alloc; "error: {problem}, where these are tied:{tied}\n")
}

/// Returns the message about the problem that prevented a check.
fn hindered_text(alloc: Global, problem: &Problem) -> Result<String, AllocError>
    ensures { IfOk result (λ text. string_bytes text ≡ hindered_text problem.now) }
{
    match problem {
        Problem::LotNeeded { among, .. } => lot_text(alloc, problem, among),
        _ => format!(in alloc; "error: {problem}\n"),
    }
}

/// Returns the message about a flaw in a request to count ballots, and what to do about it.
fn words_text(flaw: WordsFlaw) -> &'static str
    ensures { result.now ≡ words_text flaw }
{
    match flaw {
        WordsFlaw::NoBallots => "error: give the path of the ballots; --help says more\n",
        WordsFlaw::SecondBallots => {
            "error: give one path, that of the ballots; --help says more\n"
        }
        WordsFlaw::UnknownOption => "error: there is no such option; --help says more\n",
        WordsFlaw::SecondText => {
            "error: give one of --declaration, --page, --table, --results and --ballots; --help says more\n"
        }
        WordsFlaw::NoValue => "error: the last option needs a value; --help says more\n",
        WordsFlaw::Lot => {
            "error: give a lot as its stage and its candidate, such as --lot 3:4; --help says more\n"
        }
        WordsFlaw::TitleAlone => {
            "error: only a page has a title: add --page; --help says more\n"
        }
        WordsFlaw::SecondTime => "error: an option is given a second time; --help says more\n",
        WordsFlaw::Seats => {
            "error: give the seats of the ward, 1 to 15, such as --seats 3; --help says more\n"
        }
        WordsFlaw::Candidates => {
            "error: give the names of the candidates, at most 30 of 1 to 1000 bytes, such as --candidate Ann --candidate Bob; --help says more\n"
        }
        WordsFlaw::HalfWard => {
            "error: cast-vote records need --seats and --name; --help says more\n"
        }
    }
}

/// Returns the message about a file that can't be read.
fn unread_text(alloc: Global, path: &str, why: &str) -> Result<String, AllocError>
    ensures { IfOk result (λ text. string_bytes text ≡ unread_text path.now why.now) }
{
    let path = shown(alloc, path)?;
    format!(in alloc; "error: {path} can't be read: {why}\n")
}

/// Returns the message that says why ballots weren't counted, and what to do about it.
fn uncounted_text(alloc: Global, problem: &CountProblem) -> Result<String, AllocError>
    ensures { IfOk result (λ text. string_bytes text ≡ uncounted_text problem.now) }
{
    match problem {
        CountProblem::LotTwice { stage } => {
            format!(in alloc;
                "error: a lot for stage {stage} is given a second time: give one, in the ballots or by --lot\n"
            )
        }
        CountProblem::Ballots(problem) => {
            let mut text = hindered_text(alloc, problem)?;
            text.push_str(remedy(problem))?;
            Ok(text)
        }
    }
}

/// Returns the exit status for the outcome of a check.
fn checked_status(checked: &Checked) -> u8
    ensures { result ≡ checked_status checked.now }
{
    match checked {
        Checked::Sheet | Checked::Declaration => WELL,
        Checked::Differs { .. } => DIFFERS,
    }
}

/// Returns the exit status for a problem that prevented a check.
fn hindered_status(problem: &Problem) -> u8
    ensures { result ≡ hindered_status problem.now }
{
    match problem {
        Problem::Memory => FAILED,
        _ => NOT_CHECKED,
    }
}

/// Returns the exit status for the reason why ballots weren't counted.
fn uncounted_status(problem: &CountProblem) -> u8
    ensures { result ≡ uncounted_status problem.now }
{
    match problem {
        CountProblem::LotTwice { .. } => NOT_CHECKED,
        CountProblem::Ballots(problem) => hindered_status(problem),
    }
}

/// The text for the output, the text for the error output, and the exit status.
#[derive(Drop)]
pub(crate) struct Page {
    pub(crate) out: String,
    pub(crate) err: String,
    pub(crate) status: u8,
}

/// Returns the page for the given text and status. The text goes to the output if the status is 0, otherwise to the error output.
fn page_with(alloc: Global, status: u8, text: String) -> Page
    ensures { page_told result ≡ page_with status (string_bytes text) }
{
    let none = String::new(alloc);
    if status == WELL {
        return Page {
            out: text,
            err: none,
            status,
        };
    }
    Page {
        out: none,
        err: text,
        status,
    }
}

/// Returns the page for the given fixed text and status; `AllocError` if an allocation fails.
fn page_of_text(alloc: Global, status: u8, text: &str) -> Result<Page, AllocError>
    ensures { IfOk result (λ page. page_told page ≡ page_with status text.now) }
{
    Ok(page_with(alloc, status, String::from_str(alloc, text)?))
}

/// Returns the page for a text of a count, with the line about the lot that the count is waiting for.
fn counted_page(alloc: Global, counted: CountedText) -> Page
    ensures { page_told result ≡ counted_page (string_bytes counted.text) (option_map string_bytes counted.lot_needed) }
{
    let CountedText { text, lot_needed } = counted;
    match lot_needed {
        None => Page {
            out: text,
            err: String::new(alloc),
            status: WELL,
        },
        Some(line) => Page {
            out: text,
            err: line,
            status: DIFFERS,
        },
    }
}

/// Returns the page for the outcome of checking a folder.
fn folder_page(alloc: Global, checked: FolderChecked) -> Result<Page, AllocError>
    ensures { IfOk result (λ page. page_told page ≡ folder_page checked) }
{
    match checked {
        FolderChecked::Confirmed { files } => {
            let text = format!(in alloc;
                "each of the {files} files is the one that the ballots, rejected papers and lots in the folder give\n"
            )?;
            Ok(page_with(alloc, WELL, text))
        }
        FolderChecked::Differs { lines } => Ok(page_with(alloc, DIFFERS, lines)),
    }
}

/// Returns the page for an outcome; `AllocError` if an allocation fails.
pub(crate) fn page_of(alloc: Global, report: Report) -> Result<Page, AllocError>
    ensures { IfOk result (λ page. page_told page ≡ page_of report) }
{
    match report {
        Report::Help => page_of_text(alloc, WELL, HELP),
        Report::CountHelp => page_of_text(alloc, WELL, COUNT_HELP),
        Report::BadArguments => page_of_text(
            alloc,
            NOT_CHECKED,
            "error: give the path of a folder, or those of the ballots and the sheet; --help says more\n",
        ),
        Report::Misread(flaw) => page_of_text(alloc, NOT_CHECKED, words_text(flaw)),
        Report::NotUtf8 => page_of_text(alloc, NOT_CHECKED, "error: a word is not UTF-8\n"),
        Report::NotRead { path, why } => {
            let text = unread_text(alloc, path.as_str(), why.as_str())?;
            Ok(page_with(alloc, FAILED, text))
        }
        Report::Checked { checked, hint } => {
            let text = checked_text(alloc, &checked, hint)?;
            Ok(page_with(alloc, checked_status(&checked), text))
        }
        Report::Folder(checked) => folder_page(alloc, checked),
        Report::Hindered(problem) => {
            let text = hindered_text(alloc, &problem)?;
            Ok(page_with(alloc, hindered_status(&problem), text))
        }
        Report::Counted(counted) => Ok(counted_page(alloc, counted)),
        Report::NotCounted(problem) => {
            let text = uncounted_text(alloc, &problem)?;
            Ok(page_with(alloc, uncounted_status(&problem), text))
        }
    }
}

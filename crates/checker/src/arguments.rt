//! The request in the program's arguments, and its outcome.

ghost use Rattle.std.specs.Prelude.{◌≡◌, ◌-◌, ◌^◌, ◌<◌, map, string_bytes, IfOk, IfErr};
ghost use Rattle.checker.specs.Arguments.{IsAnswer, IsCheckOutcome, IsCountFileOutcome, IsCountOutcome, IsFilesOutcome, IsFolderOutcome, IsOutcome, IsPageFor, IsTextOutcome, IsUnreadFile};
ghost use Rattle.checker.specs.Arguments.{asked, check_asked, count_asked, is_help, is_help_alone, words_told};
ghost use Rattle.checker.specs.InputFiles.{Holds};
ghost use Rattle.checker.specs.Outputs.{PrintsSomeReport, outputs_of};
ghost use Rattle.checker.specs.RequestViews.{request_told};

use crate::ballot_counts::{count_ballots, count_records};
use crate::checking::check;
use crate::folder_checking::check_folder;
use crate::hints::hint_of;
use crate::input_files::{InputFiles, NotRead};
use crate::printing::print_report;
use crate::problem::Problem;
use crate::report::Report;
use crate::requests::{CountRequest, count_request};
use std::alloc::Global;
use streams::Sink;

/// The reason why the program's arguments can't be read.
#[derive(Clone, Copy)]
pub enum ArgumentsFault {
    /// An argument isn't UTF-8.
    NotUtf8,
    /// An allocation failed.
    Memory,
}

/// Returns the bytes of a file, or the outcome of the program if the file can't be read.
fn bytes_of<F: InputFiles>(alloc: Global, folder: &F, path: &str) -> Result<Vec<u8>, Report>
    ensures ok { IfOk result (λ bytes. Holds (F.held folder.now) path.now bytes.items) }
    ensures err { IfErr result (λ told. IsUnreadFile (F.held folder.now) path.now told) }
{
    let why = match folder.read(path) {
        Ok(bytes) => return Ok(bytes),
        Err(NotRead::Because(why)) => why,
        Err(NotRead::Memory) => return Err(Report::Hindered(Problem::Memory)),
    };
    match String::from_str(alloc, path) {
        Ok(path) => Err(Report::NotRead { path, why }),
        Err(_) => Err(Report::Hindered(Problem::Memory)),
    }
}

/// Returns the outcome of checking a text against ballots.
fn checked(alloc: Global, ballots: &[u8], text: &[u8]) -> Report
    ensures { IsCheckOutcome ballots.now text.now result }
{
    match check(alloc, ballots, text) {
        Ok(checked) => Report::Checked {
            checked,
            hint: hint_of(text),
        },
        Err(problem) => Report::Hindered(problem),
    }
}

/// Returns the outcome of checking a file's text against ballots.
fn checked_file<F: InputFiles>(alloc: Global, folder: &F, ballots: &[u8], path: &str) -> Report
    ensures { IsTextOutcome (F.held folder.now) ballots.now path.now result }
{
    match bytes_of(alloc, folder, path) {
        Ok(text) => checked(alloc, ballots, &text),
        Err(told) => told,
    }
}

/// Returns the outcome of checking one file against the ballots in another.
fn checked_files<F: InputFiles>(alloc: Global, folder: &F, ballots: &str, text: &str) -> Report
    ensures { IsFilesOutcome (F.held folder.now) ballots.now text.now result }
{
    match bytes_of(alloc, folder, ballots) {
        Ok(bytes) => checked_file(alloc, folder, &bytes, text),
        Err(told) => told,
    }
}

/// Returns the outcome of checking a folder.
fn checked_folder<F: InputFiles>(alloc: Global, folder: &F, path: &str) -> Report
    ensures { IsFolderOutcome (F.held folder.now) path.now result }
{
    let why = match check_folder(alloc, folder, path) {
        Ok(checked) => return Report::Folder(checked),
        Err(NotRead::Because(why)) => why,
        Err(NotRead::Memory) => return Report::Hindered(Problem::Memory),
    };
    match String::from_str(alloc, path) {
        Ok(path) => Report::NotRead { path, why },
        Err(_) => Report::Hindered(Problem::Memory),
    }
}

/// Returns whether the argument asks for help.
fn is_help(word: &str) -> bool
    ensures { result ≡ is_help word.now }
{
    word == "--help" || word == "-h"
}

/// Returns the outcome of a request to check.
fn check_answer<F: InputFiles>(alloc: Global, words: &[String], folder: &F) -> Report
    ensures { IsAnswer (F.held folder.now) (check_asked (map string_bytes words.now)) result }
{
    match words {
        [word] => {
            if is_help(word.as_str()) {
                Report::Help
            } else {
                checked_folder(alloc, folder, word.as_str())
            }
        }
        [ballots, text] => checked_files(alloc, folder, ballots.as_str(), text.as_str()),
        _ => Report::BadArguments,
    }
}

/// Returns the outcome of counting ballots.
fn counted(alloc: Global, ballots: &[u8], request: &CountRequest) -> Report
    ensures { IsCountOutcome ballots.now (request_told request.now) result }
{
    let counted = match &request.ward {
        None => count_ballots(alloc, ballots, &request.lots, &request.text),
        Some(ward) => count_records(alloc, ward, ballots, &request.lots, &request.text),
    };
    match counted {
        Ok(counted) => Report::Counted(counted),
        Err(problem) => Report::NotCounted(problem),
    }
}

/// Returns the outcome of counting a file of ballots.
fn counted_file<F: InputFiles>(alloc: Global, folder: &F, request: &CountRequest) -> Report
    ensures { IsCountFileOutcome (F.held folder.now) (request_told request.now) result }
{
    match bytes_of(alloc, folder, request.ballots) {
        Ok(ballots) => counted(alloc, &ballots, request),
        Err(told) => told,
    }
}

/// Returns whether help on counting is requested.
fn is_help_alone(words: &[String]) -> bool
    ensures { result ≡ is_help_alone (map string_bytes words.now) }
{
    match words {
        [word] => is_help(word.as_str()),
        _ => false,
    }
}

/// Returns the outcome of a request to count.
fn count_answer<F: InputFiles>(alloc: Global, words: &[String], folder: &F) -> Report
    ensures { IsAnswer (F.held folder.now) (count_asked (map string_bytes words.now)) result }
{
    if is_help_alone(words) {
        return Report::CountHelp;
    }
    match count_request(alloc, words) {
        Ok(Ok(request)) => counted_file(alloc, folder, &request),
        Ok(Err(flaw)) => Report::Misread(flaw),
        Err(_) => Report::Hindered(Problem::Memory),
    }
}

/// Returns the outcome of a request.
fn answer<F: InputFiles>(alloc: Global, words: &[String], folder: &F) -> Report
    ensures { IsAnswer (F.held folder.now) (asked (map string_bytes words.now)) result }
{
    let [word, others @ ..] = words else {
        return Report::BadArguments;
    };
    if word.as_str() == "--count" {
        return count_answer(alloc, others, folder);
    }
    check_answer(alloc, words, folder)
}

/// Returns the outcome for the program's arguments, or for the failure to read them.
fn outcome_of<F: InputFiles>(
    alloc: Global,
    words: &Result<Vec<String>, ArgumentsFault>,
    folder: &F,
) -> Report
    ensures { IsOutcome (F.held folder.now) (words_told (λ given. map string_bytes given.items) words.now) result }
{
    match words {
        Ok(words) => answer(alloc, words, folder),
        Err(ArgumentsFault::NotUtf8) => Report::NotUtf8,
        Err(ArgumentsFault::Memory) => Report::Hindered(Problem::Memory),
    }
}

/// Executes the request in the program's arguments, prints its outcome, and returns the exit status.
///
/// The arguments for a check are `--help`, or the paths of the ballots and of the text that is checked against them. The status is 0
/// if the text is the sheet or the declaration that results from the ballots; `out` then says which. It is 1 if the text differs.
///
/// With one path, a folder is checked, as by [`check_folder`]. The status is 0 if it is confirmed, and otherwise 1; `err` then has a
/// line for each file that isn't right.
///
/// The arguments for a count are `--count`, followed by `--help`, or by the path of the ballots, the option for a text other than
/// the sheet, and lots. The text is printed to `out`. The status is 0 if the count is finished. It is 1 if a lot is needed: the text
/// then covers the stages so far, and `err` names the stage and the tied candidates.
///
/// The status is 0 for help, 2 if the arguments or the ballots aren't understood or can't be counted, and 3 if a file can't be read
/// or an allocation fails; the reason is printed to `err`. It is also 3 if one of the two outputs fails; that output has then
/// accepted a prefix.
pub fn run<F: InputFiles, O: Sink, E: Sink>(
    alloc: Global,
    words: &Result<Vec<String>, ArgumentsFault>,
    folder: &F,
    out: &mut O,
    err: &mut E,
) -> u8
    requires out { O.failed out.old < 2 ^ 64 - 1 }
    requires err { E.failed err.old < 2 ^ 64 - 1 }
    ensures { let outputs = outputs_of O.taken O.failed E.taken E.failed in
        PrintsSomeReport (outputs out.old err.old) (outputs out.new err.new) result (λ page. IsPageFor (F.held folder.now) (words_told (λ given. map string_bytes given.items) words.now) page) }
{
    print_report(alloc, outcome_of(alloc, words, folder), out, err)
}

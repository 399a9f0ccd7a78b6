//! Checking a text against ballots.

ghost use Rattle.std.specs.Prelude.{◌≡◌, IfOk, IfErr};
ghost use Rattle.sheet.specs.Entries.{shown};
ghost use Rattle.sheet.specs.Sheet.{declaration, sheet};
ghost use Rattle.sheet.specs.Wards.{CanBePrinted};
ghost use Rattle.checker.specs.Checks.{IsChecked, IsProblem, IsWardCheck, IsWardProblem, problem_of};
ghost use Rattle.checker.specs.Differences.{IsComparison};
ghost use Rattle.checker.specs.Values.{ballots_of};
ghost use Rattle.checker.specs.Wards.{ward_told};

use crate::counting::count_of;
use crate::differences::{Checked, comparison};
use crate::file_content::WardBallots;
use crate::problem::Problem;
use crate::reading::read;
use crate::wards::{Election, candidates_of, ward_in};
use count::{CountEnd, Stage};
use paper::Columns;
use sheet::{Ward, declaration_text, sheet_text};
use std::alloc::{AllocError, Global};

/// Compares a text with the sheet and the declaration of a ward, given its stages and its elected candidates.
fn compared(
    alloc: Global,
    ward: &Ward,
    stages: &[Stage],
    elected: Columns,
    text: &[u8],
) -> Result<Checked, AllocError>
    requires { CanBePrinted ward.now }
    ensures { IfOk result (λ checked. IsComparison text.now (sheet (shown ward.now) stages.now) (declaration (shown ward.now) elected) checked) }
{
    let sheet = sheet_text(alloc, ward, stages)?;
    let declaration = declaration_text(alloc, ward, elected)?;
    comparison(alloc, text, sheet.as_str(), declaration.as_str())
}

/// Returns the reason why the count isn't finished; `None` if it is.
fn problem_of(end: CountEnd) -> Option<Problem>
    ensures { result ≡ problem_of end }
{
    match end {
        CountEnd::Finished => None,
        CountEnd::LotNeeded { stage, among } => Some(Problem::LotNeeded { stage, among }),
        CountEnd::LotNotAmong { stage } => Some(Problem::LotNotAmong { stage }),
    }
}

/// Counts a ward, and compares a text with its sheet and its declaration.
fn checked_for(alloc: Global, election: &Election, text: &[u8]) -> Result<Checked, Problem>
    requires { CanBePrinted election.now.ward }
    ensures ok { let e = election.now in IfOk result (λ checked. IsWardCheck e.ward.poll (shown e.ward) e.bundles.now e.lots.now text.now checked) }
    ensures err { let e = election.now in IfErr result (λ problem. IsWardProblem e.ward.poll (shown e.ward) e.bundles.now e.lots.now problem) }
{
    let count = count_of(alloc, election)?;
    if let Some(problem) = problem_of(count.end) {
        return Err(problem);
    }
    match compared(alloc, &election.ward, &count.stages, count.elected, text) {
        Ok(checked) => Ok(checked),
        Err(_) => Err(Problem::Memory),
    }
}

/// Counts the ward in a file, and compares a text with its sheet and its declaration.
fn checked_as(alloc: Global, told: &WardBallots, text: &[u8]) -> Result<Checked, Problem>
    ensures ok { let ward = ward_told (ballots_of told.now) in IfOk result (λ checked. IsWardCheck ward.poll ward told.now.bundles told.now.comments.lots.items text.now checked) }
    ensures err { let ward = ward_told (ballots_of told.now) in IfErr result (λ problem. IsWardProblem ward.poll ward told.now.bundles told.now.comments.lots.items problem) }
{
    let Ok(candidates) = candidates_of(alloc, &told.withdrawn, &told.names.names) else {
        return Err(Problem::Memory);
    };
    let election = Election {
        ward: ward_in(told, &candidates),
        bundles: &told.bundles,
        lots: &told.comments.lots,
    };
    checked_for(alloc, &election, text)
}

/// Checks a text against the ballots of its ward. It must be exactly the stage sheet of the finished count of the given ballots,
/// rejected papers and lots, or the declaration of the candidates elected by that count.
///
/// The ballots are read as printed by `ballots`, or as written by other counting programs. Without our own comments, the ward has
/// number 1, no rejected papers and no lots. A text that differs is compared with the sheet or the declaration, whichever shares the
/// longer prefix with it, or with the sheet if the prefixes are equally long.
///
/// A `Problem` is the first line of the ballots that isn't understood, the reason why the count can't be finished, or a failed
/// allocation. It says nothing about the text.
pub fn check(alloc: Global, ballots: &[u8], text: &[u8]) -> Result<Checked, Problem>
    ensures ok { IfOk result (λ checked. IsChecked ballots.now text.now checked) }
    ensures err { IfErr result (λ problem. IsProblem ballots.now problem) }
{
    let told = read(alloc, ballots)?;
    match checked_as(alloc, &told, text) {
        Ok(checked) => Ok(checked),
        Err(problem) => Err(problem),
    }
}

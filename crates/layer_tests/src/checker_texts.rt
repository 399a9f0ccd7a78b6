//! Texts checked against ballots by a direct call: the report on each, and the texts of an uncontested ward. (The rest
//! of the output on ballots and texts is covered by examples/transcripts/checks.txt.)

use crate::sheet_outputs::{candidates_of, is_text};
use checker::{Checked, Problem, check};
use count::Bundles;
use sheet::{Ward, ballots_text, can_be_printed, sheet_text};
use std::alloc::{AllocError, Global};
use std::process::Abort;
use std::test::Fail;

pub(crate) const BALLOTS: &str = r#"3 2
4 1 2 0
2 1 3 0
1 2 0
2 3 0
0
"Ann"
"Bob"
"Cy"
"Harbour"
# Ward 7
# Rejected 1: 0, 2: 0, 3: 0, 4: 0, 5: 0
"#;

pub(crate) const SHEET: &str = "Ward 7 Harbour
Seats 2, valid 9, quota 4.00000
Rejected 1: 0, 2: 0, 3: 0, 4: 0, 5: 0
Stage 1: first preferences
 1       6.00000 E Ann
 2       1.00000 - Bob
 3       2.00000 - Cy
         0.00000 non-transferable
         0.00000 lost by fractions
Stage 2: surplus of 1
 1       4.00000 e Ann
 2       2.33332 - Bob
 3       2.66666 - Cy
         0.00000 non-transferable
         0.00002 lost by fractions
Stage 3: exclusion of 2, last vacancies
 1       4.00000 e Ann
 2       2.33332 x Bob
 3       2.66666 E Cy
         0.00000 non-transferable
         0.00002 lost by fractions
";

pub(crate) const DECLARATION: &str = "Ward 7 Harbour
Elected
 1 Ann
 3 Cy
";

/// Returns the result of a check, in words.
fn words_of(alloc: Global, came: &Result<Checked, Problem>) -> Result<String, AllocError> {
    match came {
        Ok(Checked::Sheet) => String::from_str(alloc, "the sheet"),
        Ok(Checked::Declaration) => String::from_str(alloc, "the declaration"),
        Ok(Checked::Differs { line, should_be }) => {
            format!(in alloc; "line {line}: {}", should_be.as_str())
        }
        Err(problem) => format!(in alloc; "{problem}"),
    }
}

/// Returns the report on a text and ballots, in words.
fn told(alloc: Global, ballots: &[u8], text: &[u8]) -> Result<String, AllocError> {
    words_of(alloc, &check(alloc, ballots, text))
}

/// Checks the report on a text and ballots.
fn tells(
    rt: &(impl Abort + AllocGlobal),
    ballots: &str,
    text: &str,
    wanted: &str,
) -> Result<(), Fail> {
    let told = told(rt.alloc(), ballots.as_bytes(), text.as_bytes())?;
    is_text(rt, told.as_str(), wanted);
    Ok(())
}

/// Texts, and the report on each with the ballots.
const CHECKS: [(&str, &str); 4] = [
    (SHEET, "the sheet"),
    (DECLARATION, "the declaration"),
    (
        "Ward 7 Harbour\nElected\n 1 Ann\n 2 Bob\n",
        "line 4:  3 Cy\n",
    ),
    ("", "line 1: Ward 7 Harbour\n"),
];

/// Returns the ballots of an uncontested ward, which has no papers.
fn ballots_of(alloc: Global, ward: &Ward) -> Result<String, Fail> {
    if !can_be_printed(ward) {
        return Err(Fail::from("no ward that can be printed"));
    }
    Ok(ballots_text(alloc, ward, &Bundles::new(alloc), &[])?)
}

/// Returns the sheet of an uncontested ward.
fn sheet_of(alloc: Global, ward: &Ward) -> Result<String, Fail> {
    if !can_be_printed(ward) {
        return Err(Fail::from("no ward that can be printed"));
    }
    Ok(sheet_text(alloc, ward, &[])?)
}

/// Checks the sheet of an uncontested ward against its ballots.
fn prints_and_checks(
    rt: &(impl Abort + AllocGlobal),
    candidates: &[(u8, String)],
) -> Result<(), Fail> {
    let ward = Ward {
        number: 99,
        name: "Harbour # 7",
        seats: 3,
        candidates,
        poll: None,
    };
    let ballots = ballots_of(rt.alloc(), &ward)?;
    let sheet = sheet_of(rt.alloc(), &ward)?;
    tells(rt, ballots.as_str(), sheet.as_str(), "the sheet")
}

/// The candidates of an uncontested ward.
const NAMED: [(u8, &str); 3] = [(1, "Ann"), (3, "B. \"Bob\" \\ Brün # 3"), (6, "Cy")];

#[test]
fn texts_are_checked(rt: HostRuntime) -> Result<(), Fail> {
    for (text, words) in &CHECKS {
        tells(&rt, BALLOTS, *text, *words)?;
    }
    tells(&rt, "3 0\n", "", "line 1 of the ballots: no seats")?;
    prints_and_checks(&rt, &candidates_of(rt.alloc(), &NAMED)?)?;
    prints_and_checks(&rt, &[])
}

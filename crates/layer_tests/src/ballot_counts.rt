//! Ballots counted by a direct call: each text, a lot that is needed, lots that are added, and ballots that can't be
//! counted. (The figures are those of `tools/try recount`, which counts in a different language; the rest of the output
//! is covered by examples/checking.sh.)

use crate::checker_texts::{BALLOTS, DECLARATION, SHEET};
use crate::sheet_outputs::is_text;
use checker::{CountProblem, CountText, CountedText, RecordsWard, count_ballots, count_records};
use paper::MAX_CANDIDATES;
use std::alloc::{AllocError, Global};
use std::process::Abort;
use std::test::Fail;

/// The ballots of an election for one seat, with two candidates tied at the second stage.
pub(crate) const TIED: &str = r#"3 1
2 1 0
1 2 0
1 3 0
0
"Ann"
"Bob"
"Cy"
"Harbour"
"#;

/// The sheet up to the stage at which the count needs a lot.
pub(crate) const TIED_SHEET: &str = "Ward 1 Harbour
Seats 1, valid 4, quota 3.00000
Rejected 1: 0, 2: 0, 3: 0, 4: 0, 5: 0
Stage 1: first preferences
 1       2.00000 - Ann
 2       1.00000 - Bob
 3       1.00000 - Cy
         0.00000 non-transferable
         0.00000 lost by fractions
";

/// The line about the lot that the count waits for.
pub(crate) const TIED_LINE: &str = "lot needed at stage 2 among 2 Bob, 3 Cy\n";

/// The sheet if the lot falls on the third candidate.
const DRAWN_SHEET: &str = "Ward 1 Harbour
Seats 1, valid 4, quota 3.00000
Rejected 1: 0, 2: 0, 3: 0, 4: 0, 5: 0
Stage 1: first preferences
 1       2.00000 - Ann
 2       1.00000 - Bob
 3       1.00000 - Cy
         0.00000 non-transferable
         0.00000 lost by fractions
Stage 2: exclusion of 3
 1       2.00000 - Ann
 2       1.00000 - Bob
 3       0.00000 x Cy
         1.00000 non-transferable
         0.00000 lost by fractions
Stage 3: exclusion of 2, last vacancies
 1       2.00000 E Ann
 2       1.00000 x Bob
 3       0.00000 x Cy
         1.00000 non-transferable
         0.00000 lost by fractions
";

/// The ballots with that lot, as an office prints them.
const DRAWN_BALLOTS: &str = r#"3 1
2 1 0
1 2 0
1 3 0
0
"Ann"
"Bob"
"Cy"
"Harbour"
# Ward 1
# Rejected 1: 0, 2: 0, 3: 0, 4: 0, 5: 0
# Lot at stage 2: 3
"#;

/// The table for a ward whose count needs no lot.
const TABLE: &str =
    r#""candidate","name","Stage 1: first preferences","Stage 1 gained","Stage 1 lost","Stage 1 standing","Stage 2: surplus of 1","Stage 2 gained","Stage 2 lost","Stage 2 standing","Stage 3: exclusion of 2, last vacancies","Stage 3 gained","Stage 3 lost","Stage 3 standing"
"1","Ann","6.00000","6.00000","0.00000","elected","4.00000","0.00000","2.00000","elected","4.00000","0.00000","0.00000","elected"
"2","Bob","1.00000","1.00000","0.00000","continuing","2.33332","1.33332","0.00000","continuing","2.33332","0.00000","0.00000","excluded"
"3","Cy","2.00000","2.00000","0.00000","continuing","2.66666","0.66666","0.00000","continuing","2.66666","0.00000","0.00000","elected"
"","non-transferable","0.00000","0.00000","0.00000","","0.00000","0.00000","0.00000","","0.00000","0.00000","0.00000",""
"","lost by fractions","0.00000","0.00000","0.00000","","0.00002","0.00002","0.00000","","0.00002","0.00000","0.00000",""
"#;

/// The result of that ward as JSON.
const RESULTS: &str =
    r#"{"ward":7,"name":"Harbour","seats":2,"declared":true,"contested":true,"valid":9,"rejected":[0,0,0,0,0],"quota":"4.00000","candidates":[{"number":1,"name":"Ann","elected":true,"elected_at":1,"excluded_at":null},{"number":2,"name":"Bob","elected":false,"elected_at":null,"excluded_at":3},{"number":3,"name":"Cy","elected":true,"elected_at":3,"excluded_at":null}],"stages":[{"stage":1,"action":"first preferences","of":null,"votes":["6.00000","1.00000","2.00000"],"non_transferable":"0.00000","lost":"0.00000"},{"stage":2,"action":"surplus","of":1,"votes":["4.00000","2.33332","2.66666"],"non_transferable":"0.00000","lost":"0.00002"},{"stage":3,"action":"exclusion, last vacancies","of":2,"votes":["4.00000","2.33332","2.66666"],"non_transferable":"0.00000","lost":"0.00002"}],"lots":[]}
"#;

/// Two candidates for three seats, and no papers; a name with a quotation mark, a backslash and a tab.
const HOSTILE: &str = "2 3\n0\n\"A\\\"n\\\\n\"\n\"B\tob\"\n\"Harbour\"\n";

/// Its result as JSON.
const HOSTILE_RESULTS: &str =
    r#"{"ward":1,"name":"Harbour","seats":3,"declared":true,"contested":false,"valid":null,"rejected":null,"quota":null,"candidates":[{"number":1,"name":"A\"n\\n","elected":true,"elected_at":null,"excluded_at":null},{"number":2,"name":"B\tob","elected":true,"elected_at":null,"excluded_at":null}],"stages":[],"lots":[]}
"#;

/// Two candidates for three seats, and no papers.
const UNCONTESTED: &str = "2 3\n0\n\"Ann\"\n\"Bob\"\n\"Harbour\"\n";

/// Ballots, the lots added to them, and a kind of text; then the expected text, and the line about a lot that is
/// needed.
const COUNTED: [(&str, &[(u8, u8)], CountText, &str, &str); 13] = [
    (BALLOTS, &[], CountText::Sheet, SHEET, ""),
    (BALLOTS, &[], CountText::Declaration, DECLARATION, ""),
    (BALLOTS, &[], CountText::Table, TABLE, ""),
    (BALLOTS, &[], CountText::Results, RESULTS, ""),
    (HOSTILE, &[], CountText::Results, HOSTILE_RESULTS, ""),
    (BALLOTS, &[], CountText::Ballots, BALLOTS, ""),
    (TIED, &[], CountText::Sheet, TIED_SHEET, TIED_LINE),
    (TIED, &[], CountText::Declaration, "", TIED_LINE),
    (TIED, &[(3, 2)], CountText::Sheet, TIED_SHEET, TIED_LINE),
    (TIED, &[(2, 3)], CountText::Sheet, DRAWN_SHEET, ""),
    (TIED, &[(2, 3)], CountText::Ballots, DRAWN_BALLOTS, ""),
    (DRAWN_BALLOTS, &[], CountText::Sheet, DRAWN_SHEET, ""),
    (
        UNCONTESTED,
        &[(2, 1)],
        CountText::Declaration,
        "Ward 1 Harbour\nElected\n 1 Ann\n 2 Bob\n",
        "",
    ),
];

/// Ballots, the lots added to them, and why they can't be counted.
const NOT_COUNTED: [(&str, &[(u8, u8)], &str); 7] = [
    ("3 0\n", &[], "line 1 of the ballots: no seats"),
    (
        TIED,
        &[(2, 1)],
        "the lot for stage 2 names none of the tied",
    ),
    (
        TIED,
        &[(3, 2), (2, 3)],
        "a lot is recorded for stage 3, and none is drawn there",
    ),
    (
        TIED,
        &[(1, 2)],
        "a lot is recorded for stage 1, and none is drawn there",
    ),
    (TIED, &[(2, 3), (2, 3)], "two lots at stage 2"),
    (DRAWN_BALLOTS, &[(2, 2)], "two lots at stage 2"),
    (
        "1 1\n1 1 0\n0\n\"Ann\"\n\"Harbour\"\n",
        &[],
        "no more candidates than seats",
    ),
];

/// Counts ballots, which must succeed.
fn counted(
    alloc: Global,
    ballots: &str,
    lots: &[(u8, u8)],
    text: &CountText,
) -> Result<CountedText, Fail> {
    match count_ballots(alloc, ballots.as_bytes(), lots, text) {
        Ok(counted) => Ok(counted),
        Err(_) => Err(Fail::from("not counted")),
    }
}

/// Checks the text printed for the given ballots, and the line about a lot that is needed.
fn counts(
    rt: &(impl Abort + AllocGlobal),
    (ballots, lots, text, wanted, line): &(&str, &[(u8, u8)], CountText, &str, &str),
) -> Result<(), Fail> {
    let counted = counted(rt.alloc(), *ballots, *lots, text)?;
    is_text(rt, counted.text.as_str(), *wanted);
    match &counted.lot_needed {
        None => is_text(rt, "", *line),
        Some(told) => is_text(rt, told.as_str(), *line),
    }
    Ok(())
}

/// Returns, in words, why ballots can't be counted.
fn words_of(alloc: Global, problem: &CountProblem) -> Result<String, AllocError> {
    match problem {
        CountProblem::LotTwice { stage } => format!(in alloc; "two lots at stage {stage}"),
        CountProblem::Ballots(problem) => format!(in alloc; "{problem}"),
    }
}

/// Returns why ballots can't be counted.
fn problem_of(alloc: Global, ballots: &str, lots: &[(u8, u8)]) -> Result<CountProblem, Fail> {
    match count_ballots(alloc, ballots.as_bytes(), lots, &CountText::Sheet) {
        Ok(text) => {
            drop(text);
            Err(Fail::from("counted"))
        }
        Err(problem) => Ok(problem),
    }
}

/// Checks that the given ballots can't be counted, and why.
fn refuses(
    rt: &(impl Abort + AllocGlobal),
    (ballots, lots, wanted): &(&str, &[(u8, u8)], &str),
) -> Result<(), Fail> {
    let problem = problem_of(rt.alloc(), *ballots, *lots)?;
    let words = words_of(rt.alloc(), &problem)?;
    is_text(rt, words.as_str(), *wanted);
    Ok(())
}

/// The surpluses on the page of `BALLOTS`, and on one without any.
const SURPLUSES: &str = r##"<h2>Surpluses</h2>
<ul>
<li>Stage 2, surplus of 1 <bdi>Ann</bdi>, 2.00000 of 6.00000 votes: 6 papers received at 1.00000 pass on at 0.33333.</li>
</ul>
"##;

const NO_SURPLUS: &str = "<h2>Surpluses</h2>\n<p>No surplus was transferred.</p>\n";

/// Checks that the page of the given ballots has its title and the given surpluses, and whether it says that the result is declared.
fn shows_page(
    rt: &(impl Abort + AllocGlobal),
    ballots: &str,
    declared: bool,
    surpluses: &str,
) -> Result<(), Fail> {
    let text = CountText::Page("A <title>");
    let page = counted(rt.alloc(), ballots, &[], &text)?;
    assert!(rt; page.text.as_str().starts_with("<!DOCTYPE html>\n"));
    assert!(rt;
        page.text
            .as_str()
            .contains("<p class=\"title\" dir=\"auto\">A &lt;title&gt;</p>\n")
    );
    assert!(rt; page.text.as_str().contains("<strong>Declared</strong>") == declared);
    assert!(rt; page.text.as_str().contains(surpluses));
    Ok(())
}

/// A ward's cast-vote records, with a byte order mark, carriage returns and an empty line. One paper has no first preference, and
/// two have several.
const RECORDS: &str = "\u{feff}count,\"Ann \"\"A\"\", jr.\",Bob,Cy\r
4,1,2,\r
\r
2,1,,2\r
1,,1,\r
2,,,1\r
1,,2,\r
2,1,1,2\r
";

/// The ballots that result from `RECORDS`.
const RECORDED: &str = r#"3 2
4 1 2 0
2 1 3 0
1 2 0
2 3 0
0
"Ann \"A\", jr."
"Bob"
"Cy"
"Harbour"
# Ward 1
# Rejected 1: 1, 2: 2, 3: 0, 4: 0, 5: 0
"#;

/// Records that can't be read, and the first faulty line of each.
const NOT_RECORDS: [(&str, &str); 11] = [
    (
        "",
        "line 1 of the ballots: the file ends before the line of its columns",
    ),
    ("Ann,", "line 1 of the ballots: a column has no name"),
    (
        "Rank 1,Rank 2",
        "line 1 of the ballots: a column may be of something other than a candidate",
    ),
    ("Ann", "line 1 of the ballots: a single column"),
    (
        "Ann,B\"ob",
        "line 1 of the ballots: a field is not in quotation marks as a whole",
    ),
    (
        "Ann,\"Bob",
        "line 1 of the ballots: a quotation mark is not closed",
    ),
    (
        "Ann,Bob,Cy\n1,2",
        "line 2 of the ballots: another number of fields than columns",
    ),
    (
        "Ann,Bob,Cy\n1,2,x",
        "line 2 of the ballots: a field is not a rank",
    ),
    (
        "Ann,Bob,Cy\n1,2,\n1,02,",
        "line 3 of the ballots: a field is not a rank",
    ),
    (
        "count,Ann,Bob,Cy\n0,1,2,",
        "line 2 of the ballots: no papers",
    ),
    (
        "count,Ann,Bob,Cy\n,1,2,",
        "line 2 of the ballots: a word is not a number",
    ),
];

/// The candidates of that ward, ordered by number.
const CANDIDATES: [&str; 3] = ["Ann \"A\", jr.", "Bob", "Cy"];

/// The same records with one column per rank, and candidates by number and by name. A paper that gives the same rank to
/// several candidates can't be written this way; two papers without a first preference replace those.
const RANKED: &str = "count,rank1,Rank 2,rank 3
4,1,Bob,
2,\"Ann \"\"A\"\", jr.\",3,
1,Bob,,
2,3,,
1,,\"1\",
2,,,
";

/// The ballots that result from `RANKED`.
const RANKED_BALLOTS: &str = r#"3 2
4 1 2 0
2 1 3 0
1 2 0
2 3 0
0
"Ann \"A\", jr."
"Bob"
"Cy"
"Harbour"
# Ward 1
# Rejected 1: 3, 2: 0, 3: 0, 4: 0, 5: 0
"#;

/// Records for these candidates that can't be read, and the first faulty line of each.
const NOT_RANKED: [(&str, &str); 8] = [
    (
        "rank1,rank3\n",
        "line 1 of the ballots: a column is not that of the next rank",
    ),
    (
        "Ann,Bob\n",
        "line 1 of the ballots: a column is not that of the next rank",
    ),
    ("count\n", "line 1 of the ballots: a single column"),
    (
        "rank1,rank2\n1,2\n1,4\n",
        "line 3 of the ballots: a field names no candidate",
    ),
    (
        "rank1,rank2\nBob,2\n",
        "line 2 of the ballots: a candidate twice",
    ),
    (
        "rank1,rank2\n1,2,3\n",
        "line 2 of the ballots: another number of fields than columns",
    ),
    (
        "rank1,rank2\n1\n",
        "line 2 of the ballots: another number of fields than columns",
    ),
    (
        "rank1,rank2\n1,\"2\n",
        "line 2 of the ballots: a quotation mark is not closed",
    ),
];

/// Counts a ward's records, and returns the result in words.
fn recorded(
    alloc: Global,
    candidates: &[&str],
    records: &str,
    text: &CountText,
) -> Result<String, Fail> {
    if candidates.len() > MAX_CANDIDATES {
        return Err(Fail::from("too many candidates"));
    }
    let ward = RecordsWard {
        seats: 2,
        name: "Harbour",
        candidates: Vec::from_slice(alloc, candidates)?,
    };
    match count_records(alloc, &ward, records.as_bytes(), &[], text) {
        Ok(counted) => {
            let CountedText { text, lot_needed } = counted;
            drop(lot_needed);
            Ok(text)
        }
        Err(problem) => Ok(words_of(alloc, &problem)?),
    }
}

/// Checks that the given candidates' records are counted as the given ballots.
fn counts_as(
    rt: &(impl Abort + AllocGlobal),
    candidates: &[&str],
    records: &str,
    ballots: &str,
) -> Result<(), Fail> {
    let told = recorded(rt.alloc(), candidates, records, &CountText::Ballots)?;
    is_text(rt, told.as_str(), ballots);
    let sheet = recorded(rt.alloc(), candidates, records, &CountText::Sheet)?;
    let wanted = counted(rt.alloc(), ballots, &[], &CountText::Sheet)?;
    is_text(rt, sheet.as_str(), wanted.text.as_str());
    Ok(())
}

/// Checks that records are counted in the same way as the ballots made from them.
fn counts_records(rt: &(impl Abort + AllocGlobal)) -> Result<(), Fail> {
    counts_as(rt, &[], RECORDS, RECORDED)?;
    counts_as(rt, &CANDIDATES, RANKED, RANKED_BALLOTS)?;
    for (records, flaw) in &NOT_RECORDS {
        let told = recorded(rt.alloc(), &[], *records, &CountText::Sheet)?;
        is_text(rt, told.as_str(), *flaw);
    }
    for (records, flaw) in &NOT_RANKED {
        let told = recorded(rt.alloc(), &CANDIDATES, *records, &CountText::Sheet)?;
        is_text(rt, told.as_str(), *flaw);
    }
    let told = recorded(
        rt.alloc(),
        &["Ann", "1"],
        "rank1,rank2\n1,2\n",
        &CountText::Sheet,
    )?;
    is_text(
        rt,
        told.as_str(),
        "line 2 of the ballots: a field may name several candidates",
    );
    Ok(())
}

#[test]
fn ballots_are_counted(rt: HostRuntime) -> Result<(), Fail> {
    for case in &COUNTED {
        counts(&rt, case)?;
    }
    for case in &NOT_COUNTED {
        refuses(&rt, case)?;
    }
    shows_page(&rt, BALLOTS, true, SURPLUSES)?;
    shows_page(&rt, TIED, false, NO_SURPLUS)?;
    counts_records(&rt)
}

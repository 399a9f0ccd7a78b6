//! The stages of a ward as a table for a spreadsheet, byte for byte.

use crate::sheet_outputs::{candidates_of, is_text, three_stages};
use count::Stage;
use sheet::{Ward, can_be_printed, spreadsheet_text};
use std::process::Abort;
use std::test::Fail;

/// A name may contain a quotation mark and a comma, and may begin the way a formula does.
const HARBOUR: &str =
    r#""candidate","name","Stage 1: first preferences","Stage 1 gained","Stage 1 lost","Stage 1 standing","Stage 2: surplus of 1","Stage 2 gained","Stage 2 lost","Stage 2 standing","Stage 3: exclusion of 2, last vacancies","Stage 3 gained","Stage 3 lost","Stage 3 standing"
"1","Ann","6.00000","6.00000","0.00000","elected","4.00000","0.00000","2.00000","elected","4.00000","0.00000","0.00000","elected"
"2","Bob ""the"" =, jr.","1.00000","1.00000","0.00000","continuing","2.33332","1.33332","0.00000","continuing","2.33332","0.00000","0.00000","excluded"
"3","'=Cy","2.00000","2.00000","0.00000","continuing","2.66666","0.66666","0.00000","continuing","2.66666","0.00000","0.00000","elected"
"","non-transferable","0.00000","0.00000","0.00000","","0.00000","0.00000","0.00000","","0.00000","0.00000","0.00000",""
"","lost by fractions","0.00000","0.00000","0.00000","","0.00002","0.00002","0.00000","","0.00002","0.00000","0.00000",""
"#;

/// No stage has been counted, and each of the bytes that start a formula begins a name.
const NAMES: &str = r#""candidate","name"
"1","'+1"
"2","'-1"
"3","'@a"
"4","'＝1"
"5","'Ann"
"","non-transferable"
"","lost by fractions"
"#;

/// Prints the table of a ward with the given candidates, and compares it with the expected one.
fn tabulates(
    rt: &(impl Abort + AllocGlobal),
    candidates: &[(u8, String)],
    stages: &[Stage],
    table: &str,
) -> Result<(), Fail> {
    let ward = Ward {
        number: 7,
        name: "Harbour",
        seats: 2,
        candidates,
        poll: None,
    };
    assert!(rt; can_be_printed(&ward));
    let text = spreadsheet_text(rt.alloc(), &ward, stages)?;
    is_text(rt, text.as_str(), table);
    Ok(())
}

/// Does the same as `tabulates` for candidates with the given numbers and names.
fn tabulates_named(
    rt: &(impl Abort + AllocGlobal),
    named: &[(u8, &str)],
    stages: &[Stage],
    table: &str,
) -> Result<(), Fail> {
    let candidates = candidates_of(rt.alloc(), named)?;
    tabulates(rt, &candidates, stages, table)
}

#[test]
fn spreadsheets(rt: HostRuntime) -> Result<(), Fail> {
    tabulates_named(
        &rt,
        &[(1, "Ann"), (2, "Bob \"the\" =, jr."), (3, "=Cy")],
        &three_stages(),
        HARBOUR,
    )?;
    tabulates_named(
        &rt,
        &[(1, "+1"), (2, "-1"), (3, "@a"), (4, "＝1"), (5, "'Ann")],
        &[],
        NAMES,
    )
}

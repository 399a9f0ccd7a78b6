//! How marks are read, and how papers are judged.

use crate::sheet_outputs::is_text;
use paper::{
    CandidateStatus, Columns, Keyed, MarkFault, Marked, Marks, Prefs, Rejection, Standing,
    available_from, judge, next_available,
};
use std::process::Abort;
use std::test::Fail;

fn three() -> Columns {
    Columns::empty().with(3).with(1).with(2).with(1)
}

/// Returns the paper with columns 1, 2 and 3 that a text describes, and checks that the paper is printed as the same text.
fn keyed(rt: &(impl Abort + AllocGlobal), text: &str) -> Result<Keyed, Fail> {
    let keyed = Marks::read(text.as_bytes(), three())?;
    let again = keyed.text(rt.alloc())?;
    is_text(rt, again.as_str(), text);
    Ok(keyed)
}

fn marked(rt: &(impl Abort + AllocGlobal), text: &str) -> Result<Marked, Fail> {
    match keyed(rt, text)? {
        Keyed::Marked(marked) => Ok(marked),
        Keyed::Doubtful => Err(Fail::from("doubtful")),
    }
}

/// The judgement on each text: the preferences, or the code of the rejection.
const JUDGED: [(&str, &[u8], u32); 6] = [
    ("1,3,", &[1], 0),
    ("1,2,2", &[1], 0),
    ("2,1,3", &[2, 1, 3], 0),
    ("99,1,10", &[2], 0),
    ("1,1,", &[], 2),
    (",2,", &[], 1),
];

/// Judges a paper, and checks the preferences or the code.
fn is_judged(rt: &impl Abort, paper: &Marked, (text, wanted, code): &(&str, &[u8], u32)) {
    match judge(paper) {
        Ok(prefs) => assert!(rt; prefs.as_slice() == *wanted, "{text}"),
        Err(why) => assert!(rt; why.number() == *code, "{text}"),
    }
}

/// Checks that a text is that of a doubtful paper.
fn is_doubtful(rt: &(impl Abort + AllocGlobal), text: &str) -> Result<(), Fail> {
    let keyed = keyed(rt, text)?;
    assert!(rt; matches!(keyed, Keyed::Doubtful));
    Ok(())
}

#[test]
fn papers_are_judged(rt: HostRuntime) -> Result<(), Fail> {
    for case in &JUDGED {
        let paper = marked(&rt, case.0)?;
        is_judged(&rt, &paper, case);
    }
    // A count holds millions of these values in memory.
    assert!(&rt; std::mem::size_of::<Prefs>() == 30);
    is_doubtful(&rt, "D")
}

/// Returns the fault in a text.
fn fault_of(text: &[u8], columns: Columns) -> Option<MarkFault> {
    Marks::read(text, columns).err()
}

/// Texts of a paper with columns 1, 2 and 3, with the fault in each and that fault's number.
const FAULTS: [(&str, MarkFault, u32); 9] = [
    ("1,2", MarkFault::FieldCount, 1),
    ("", MarkFault::FieldCount, 1),
    ("x,,", MarkFault::NotANumber, 2),
    ("01,,", MarkFault::NotANumber, 2),
    ("D,,", MarkFault::NotANumber, 2),
    ("1000x,,", MarkFault::NotANumber, 2),
    ("100,,", MarkFault::TooLarge, 3),
    ("0,100,", MarkFault::NotANumber, 2),
    ("100,0,", MarkFault::TooLarge, 3),
];

/// Checks the fault in a text.
fn has_fault(rt: &impl Abort, (text, fault, number): &(&str, MarkFault, u32)) {
    let found = fault_of(text.as_bytes(), three());
    assert!(rt; found == Some(*fault), "at {text}");
    assert!(rt; fault.number() == *number, "at {text}");
}

/// Checks the result of reading a paper without columns.
fn has_no_columns(rt: &impl Abort) {
    let none = Columns::empty();
    assert!(rt; fault_of(b"", none) == Some(MarkFault::FieldCount));
    assert!(rt; matches!(Marks::read(b"D", none), Ok(Keyed::Doubtful)));
}

#[test]
fn texts_with_faults(rt: HostRuntime) {
    for case in &FAULTS {
        has_fault(&rt, case);
    }
    has_no_columns(&rt);
}

/// Returns a standing in which candidates 2 and 4 continue, 1 is elected, and 3 is excluded.
fn standing() -> Standing {
    Standing::new(
        Columns::empty().with(2).with(4),
        Columns::empty().with(1),
        Columns::empty().with(3),
    )
}

/// The preferences searched for the next available one.
const PREFS: &[u8] = &[1, 3, 4, 5, 2];

/// The place at which the search through those preferences starts, and the next available one; 0 if there is none.
const NEXT: [(usize, u8); 5] = [(0, 4), (2, 4), (3, 2), (5, 0), (9, 0)];

/// The status of some candidates.
const STANDING: [(u8, CandidateStatus); 5] = [
    (1, CandidateStatus::Elected),
    (2, CandidateStatus::Continuing),
    (3, CandidateStatus::Excluded),
    (5, CandidateStatus::Absent),
    (200, CandidateStatus::Absent),
];

/// Checks which preference is the next available one.
fn is_next(rt: &impl Abort, standing: &Standing, (from, wanted): &(usize, u8)) {
    let next = next_available(PREFS, *from, standing).unwrap_or(0);
    assert!(rt; next == *wanted, "from {from}: {next}");
}

/// Checks the status of a candidate.
fn stands(rt: &impl Abort, standing: &Standing, (c, status): &(u8, CandidateStatus)) {
    assert!(rt; standing.status(*c) == *status, "at {c}");
    let is_continuing = *status == CandidateStatus::Continuing;
    assert!(rt; standing.continues(*c) == is_continuing, "at {c}");
}

#[test]
fn next_available_preferences(rt: HostRuntime) {
    let standing = standing();
    for case in &NEXT {
        is_next(&rt, &standing, case);
    }
    assert_eq!(&rt; available_from(PREFS, 1, &standing).len(), 3);
    for case in &STANDING {
        stands(&rt, &standing, case);
    }
}

/// The texts of the errors, ordered by number.
const TEXTS: &str =
    "wrong number of fields|not a number|number over 99|no first preference|more than one first preference|\
    no official mark|voter identifiable|void for uncertainty";

#[test]
fn errors_print_their_texts(rt: HostRuntime) -> Result<(), Fail> {
    let (fields, digits, over) = (
        MarkFault::FieldCount,
        MarkFault::NotANumber,
        MarkFault::TooLarge,
    );
    let (none, several) = (
        Rejection::NoFirstPreference,
        Rejection::SeveralFirstPreferences,
    );
    let (mark, voter, void) = (
        Rejection::NoOfficialMark,
        Rejection::VoterIdentifiable,
        Rejection::VoidForUncertainty,
    );
    let told = format!(in rt.alloc();
        "{fields}|{digits}|{over}|{none}|{several}|{mark}|{voter}|{void}"
    )?;
    is_text(&rt, told.as_str(), TEXTS);
    Ok(())
}

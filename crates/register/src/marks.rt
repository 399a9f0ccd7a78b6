//! The columns of a ward's ballot papers, and how marks are read with them.

ghost use Rattle.std.specs.Prelude.{◌≡◌, ℕ, Ok, ◌+◌, ◌^◌, ◌<◌, length, map, string_bytes};
ghost use Rattle.register.specs.Offices.{OfficeState, candidate_entry, candidates_of};
ghost use Rattle.register.specs.StateConditions.{IsState};
ghost use Rattle.register.specs.Marks.{columns_of, is_readable, is_judged_valid, is_valid, marks_objection, first_bad_marks};

use crate::candidates::Candidate;
use crate::ranges::is_candidate_number;
use crate::refusal::Reason;
use paper::{Columns, Keyed, Marks, judge};

/// Returns the columns of a ward's ballot papers: the numbers of its candidates, in ascending order. Numbers out of range,
/// which no candidate in an office has, are omitted.
pub fn columns_of(candidates: &[Candidate]) -> Columns
    ensures is { result ≡ columns_of (map candidate_entry candidates.now) }
    ensures of_a_ward { (s : OfficeState) (ward : ℕ) → IsState s → columns_of (candidates_of s ward) ≡ map (λ c. c.number) (candidates_of s ward) }
{
    let mut columns = Columns::empty();
    for candidate in candidates {
        if is_candidate_number(candidate.number) {
            columns = columns.with(candidate.number as u8);
        }
    }
    columns
}

/// Returns whether a marks text can be read with the given columns.
pub fn is_readable(columns: Columns, marks: &str) -> bool
    ensures { result ≡ is_readable columns marks.now }
{
    Marks::read(marks.as_bytes(), columns).is_ok()
}

/// Returns whether a marks text can be read with the given columns and makes the paper valid.
pub fn is_valid(columns: Columns, marks: &str) -> bool
    ensures { result ≡ is_valid columns marks.now }
{
    match Marks::read(marks.as_bytes(), columns) {
        Ok(keyed) => is_keyed_valid(&keyed),
        Err(_) => false,
    }
}

/// Returns whether a paper is valid as keyed; a doubtful paper isn't.
fn is_keyed_valid(keyed: &Keyed) -> bool
    ensures { result ≡ is_judged_valid (Ok keyed.now) }
{
    match keyed {
        Keyed::Marked(marked) => judge(marked).is_ok(),
        Keyed::Doubtful => false,
    }
}

/// Returns the objection to the marks on a paper, if they can't be read.
pub(crate) fn marks_objection(columns: Columns, paper: u32, marks: &str) -> Option<Reason>
    ensures { result ≡ marks_objection columns paper marks.now }
{
    match Marks::read(marks.as_bytes(), columns) {
        Ok(_) => None,
        Err(fault) => Some(Reason::BadMarks {
            paper,
            fault: fault.number(),
        }),
    }
}

#[tactic(auto, unfolding(crate::specs::Marks::first_bad_marks))]
/// Returns the objection to the marks on papers that are numbered from 1. It names the first paper whose marks can't be
/// read.
pub(crate) fn first_bad_marks(columns: Columns, papers: &[String]) -> Option<Reason>
    requires { length papers.now < 2 ^ 32 }
    ensures { result ≡ first_bad_marks columns 1 (map string_bytes papers.now) }
{
    for (place, marks) in papers.iter().enumerate() {
        let objection = marks_objection(columns, place as u32 + 1, marks.as_str());
        if objection.is_some() {
            return objection;
        }
    }
    None
}

//! What a clerk keyed from a ballot paper, and how that is written as text.

ghost use Rattle.std.specs.Prelude.{◌≡◌, ℕ, ◌+◌, ◌≤◌, ◌++◌, length, IfOk, OnOk, string_bytes};
ghost use Rattle.std.specs.List.{zip};
ghost use Rattle.paper.specs.Bearers.{AreBearers, one_more};
ghost use Rattle.paper.specs.MarksText.{ReadsBack, field_text, spelling};
ghost use Rattle.paper.specs.Marking.{IsMarking, candidates_of, marks_of};
ghost use Rattle.paper.specs.Padded.{padded};

use crate::columns::{Columns, MAX_CANDIDATES};
use std::alloc::{AllocError, Global};
use std::fmt::Write;
use std::marker::Model;

/// The number of marks that matter for the preferences: 0, and one for each preference.
pub(crate) const NUMBERS: usize = MAX_CANDIDATES + 1;

/// The marks on a ballot paper, in ascending order of candidate numbers: each candidate's number with the mark in the
/// candidate's field, from 1 to 99, or 0 if the field is empty.
#[derive(Clone, Copy, Debug, PartialEq, Eq)]
pub struct Marked {
    columns: Columns,
    marks: [u8; MAX_CANDIDATES],
}

impl Model for Marked {
    ghost use Rattle.paper.specs.Marking.{Marking};

    ghost Value = { Marking };

    ghost use Rattle.std.specs.Prelude.{◌≡◌};
    ghost use Rattle.std.specs.List.{zip};
    ghost use Rattle.paper.specs.Marking.{IsMarking, candidates_of, marks_of};
    ghost use Rattle.paper.specs.Padded.{padded};

    ghost view = { λ a. zip a.columns a.marks };

    ghost invariant = { λ a. (candidates_of (zip a.columns a.marks) ≡ a.columns) × (padded (marks_of (zip a.columns a.marks)) ≡ a.marks) × IsMarking (zip a.columns a.marks) };

    ghost inverse = { λ m. record { columns = candidates_of m; marks = padded (marks_of m) } };

    ghost inverse_ok = { λ a h. Prim.rw (h.0, h.1) };
}

/// A ballot paper as keyed by a clerk.
#[derive(Clone, Copy, Debug, PartialEq, Eq)]
pub enum Keyed {
    /// The clerk leaves the decision on the paper to the returning officer.
    Doubtful,
    Marked(Marked),
}

impl Keyed {
    /// Returns the only text that parses as this paper. Returns `AllocError` if an allocation fails.
    pub fn text(&self, alloc: Global) -> Result<String, AllocError>
        ensures is { IfOk result (λ text. string_bytes text ≡ spelling self.now) }
        ensures reads_back { ReadsBack self.now }
    {
        match self {
            Keyed::Doubtful => String::from_str(alloc, "D"),
            Keyed::Marked(marked) => marked.text(alloc),
        }
    }
}

impl Marked {
    /// Returns the fields of the columns, in order and separated by commas. Returns `AllocError` if an allocation fails.
    fn text(&self, alloc: Global) -> Result<String, AllocError>
        ensures is { IfOk result (λ text. string_bytes text ≡ spelling (Keyed.Marked self.now)) }
        ensures marking { IsMarking self.now }
    {
        let mut text = String::new(alloc);
        for (i, mark) in self.marks[..self.columns.len()].iter().enumerate() {
            push_field(&mut text, i, *mark)?;
        }
        Ok(text)
    }

    /// Returns the paper with the given marks in the given columns, in order.
    pub(crate) fn new(columns: Columns, marks: [u8; MAX_CANDIDATES]) -> Marked
        requires columns { candidates_of (zip columns marks) ≡ columns }
        requires marks { padded (marks_of (zip columns marks)) ≡ marks }
        requires marking { IsMarking (zip columns marks) }
        ensures { result ≡ zip columns marks }
    {
        Marked { columns, marks }
    }

    /// Returns which candidates have each mark, from 0 to the highest that a preference can have.
    pub(crate) fn bearers(&self) -> [Bearers; NUMBERS]
        ensures is { AreBearers self.now result }
        ensures marking { IsMarking self.now }
    {
        let mut bearers = [Bearers::Nobody; NUMBERS];
        for (i, c) in self.columns.as_slice().iter().enumerate() {
            let n = usize::from(self.marks[i]);
            if n < NUMBERS {
                bearers[n] = bearers[n].and(*c);
            }
        }
        bearers
    }
}

/// Appends a field to a text; every field except the first is preceded by a comma.
fn push_field(text: &mut String, i: usize, mark: u8) -> Result<(), AllocError>
    ensures { OnOk result (string_bytes text.new ≡ string_bytes text.old ++ field_text i mark) }
{
    if i > 0 {
        text.push(',')?;
    }
    if mark > 0 {
        write!(text, "{mark}")?;
    }
    Ok(())
}

/// The candidates who have a particular mark.
#[derive(Clone, Copy, PartialEq, Eq)]
pub(crate) enum Bearers {
    Nobody,
    One(u8),
    Several,
}

impl Bearers {
    /// Returns the bearers with another candidate added.
    fn and(self, c: u8) -> Bearers
        ensures { result ≡ one_more self c }
    {
        match self {
            Bearers::Nobody => Bearers::One(c),
            Bearers::One(_) => Bearers::Several,
            Bearers::Several => Bearers::Several,
        }
    }
}

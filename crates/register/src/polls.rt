//! The ballot papers of a ward: which are valid, and why the others are rejected.

ghost use Rattle.std.specs.Prelude.{◌≡◌, ⊤, ℕ, List, ◌++◌, ◌∷◌, [], ◌==◌, Ok, Some, find, map, fold, IfOk};
ghost use Rattle.std.specs.List.{flat_map};
ghost use Rattle.paper.specs.MarksText.{reading};
ghost use Rattle.paper.specs.Preferences.{rejection_of};
ghost use Rattle.register.specs.Offices.{keyed_entry, judged_entry};
ghost use Rattle.register.specs.Agreement.{of_three};
ghost use Rattle.register.specs.Walks.{and_rejected};
ghost use Rattle.register.specs.Polls.{Pile, StandFor, are_listed, are_bundled, by_rejection, by_reading, by_verdict, judgement_on, judgements_on, preferences_by, ballots_in, ballots_by};

use crate::agreement::{agreed, are_taken, count_open};
use crate::keyings::KeyedPaper;
use crate::verdicts::{ACCEPTED, JudgedPaper};
use count::Bundles;
use paper::{Columns, Keyed, Marked, Marks, Prefs, judge};
use std::alloc::{AllocError, Global};
use votes::{MAX_PAPERS, Votes};

/// The number of rejection codes; the codes run from 1 to this number.
pub const REJECTIONS: usize = 5;

/// The judgement on a keyed ballot paper.
#[derive(Clone, Copy)]
pub enum Judgement {
    /// Valid, with these preferences.
    Valid(Prefs),
    /// Rejected, with this code: 1 for no first preference, 2 for more than one, 3 for no official mark, 4 for voter identifiable,
    /// 5 for void for uncertainty.
    Rejected(u32),
    /// Awaiting a verdict.
    Open,
}

/// A collection of valid papers' preferences, filled one paper at a time.
pub trait KeepsPapers {
    // The collection contains the given papers, added in the given order.
    ghost holds: { Self → List (List ℕ) → Type 0 };

    /// Adds a paper. Returns `AllocError` if an allocation fails or the number of papers would exceed `MAX_PAPERS`, the most an
    /// office can have; after that, the papers added earlier can't be relied on.
    fn keep(&mut self, paper: Prefs) -> Result<(), AllocError>
        ensures { IfOk result (λ _. (papers : List (List ℕ)) → holds self.old papers → holds self.new (papers ++ paper ∷ [])) };
}

// Stores each paper separately, in the order in which it was added.
impl KeepsPapers for Vec<Prefs> {
    ghost holds = { are_listed };

    fn keep(&mut self, paper: Prefs) -> Result<(), AllocError> {
        self.push(paper)?;
        Ok(())
    }
}

// Stores each distinct paper once, with its number of copies.
impl KeepsPapers for Bundles {
    ghost holds = { are_bundled };

    fn keep(&mut self, paper: Prefs) -> Result<(), AllocError> {
        if self.papers() >= MAX_PAPERS {
            return Err(AllocError);
        }
        self.add(paper)
    }
}

/// A collection that discards the papers, for callers that need only the numbers of rejected papers.
#[derive(Drop)]
pub struct NoPapers;

impl KeepsPapers for NoPapers {
    ghost holds = { λ kept papers. ⊤ };

    fn keep(&mut self, _paper: Prefs) -> Result<(), AllocError> {
        Ok(())
    }
}

/// The ballot papers in a ward's taken batches: the preferences of each valid paper, ordered by batch and number, and the number of
/// papers rejected with each code from 1 to 5. Also records whether every batch is taken and every doubtful paper has a verdict.
#[derive(Drop)]
pub struct Ballots<P> {
    pub papers: P,
    pub rejected: [u32; REJECTIONS],
    pub settled: bool,
}

/// The totals of a ward's ballot papers: how many are valid, how many are rejected with each code from 1 to 5, and the quota
/// ("Quota"). Also records whether every batch is taken and every doubtful paper has a verdict.
#[derive(Clone, Copy)]
pub struct PollTally {
    pub valid: u32,
    pub rejected: [u32; REJECTIONS],
    pub quota: Votes,
    pub settled: bool,
}

/// Judges a paper according to its marks.
fn by_marks(marked: &Marked) -> Judgement
    ensures { result ≡ by_rejection marked.now (rejection_of marked.now) }
{
    match judge(marked) {
        Ok(prefs) => Judgement::Valid(prefs),
        Err(rejection) => Judgement::Rejected(rejection.number()),
    }
}

/// Returns the judgement on a paper as it was keyed; a doubtful paper is left open.
fn by_keyed(keyed: &Keyed) -> Judgement
    ensures { result ≡ by_reading Judgement.Open (Ok keyed.now) }
{
    match keyed {
        Keyed::Marked(marked) => by_marks(marked),
        Keyed::Doubtful => Judgement::Open,
    }
}

/// Judges a paper according to the marks text with which it is accepted.
fn by_text(columns: Columns, marks: &str) -> Judgement
    ensures { result ≡ by_reading Judgement.Open (reading columns marks.now) }
{
    match Marks::read(marks.as_bytes(), columns) {
        Ok(keyed) => by_keyed(&keyed),
        Err(_) => Judgement::Open,
    }
}

/// Judges a paper according to its verdict: by the marks with which it is accepted, or as rejected.
fn by_verdict(columns: Columns, judged: &JudgedPaper) -> Judgement
    ensures { result ≡ by_verdict columns (Some (judged_entry judged.now)) }
{
    if judged.code == ACCEPTED {
        return by_text(columns, judged.marks.as_str());
    }
    Judgement::Rejected(judged.code)
}

/// Judges the paper with the given number according to its verdict in the given list; without a verdict, the paper is open.
fn by_verdicts(columns: Columns, verdicts: &[JudgedPaper], paper: u32) -> Judgement
    ensures { result ≡ by_verdict columns (find (λ v. v.paper == paper) (map judged_entry verdicts.now)) }
{
    for judged in verdicts {
        if judged.paper == paper {
            return by_verdict(columns, judged);
        }
    }
    Judgement::Open
}

/// Judges the paper with the given number as keyed or, if it is doubtful, according to its verdict. Only doubtful papers are looked
/// up in the list of verdicts.
fn by_keyed_or_verdicts(
    columns: Columns,
    verdicts: &[JudgedPaper],
    paper: u32,
    keyed: &Keyed,
) -> Judgement
    ensures { result ≡ by_reading (by_verdict columns (find (λ v. v.paper == paper) (map judged_entry verdicts.now))) (Ok keyed.now) }
{
    match keyed {
        Keyed::Marked(marked) => by_marks(marked),
        Keyed::Doubtful => by_verdicts(columns, verdicts, paper),
    }
}

/// Judges a keyed paper according to its marks or, if it is doubtful, according to its verdict.
pub fn judgement_on(columns: Columns, verdicts: &[JudgedPaper], keyed: &KeyedPaper) -> Judgement
    ensures { result ≡ judgement_on columns (map judged_entry verdicts.now) (keyed_entry keyed.now) }
{
    match Marks::read(keyed.marks.as_str().as_bytes(), columns) {
        Ok(read) => by_keyed_or_verdicts(columns, verdicts, keyed.paper, &read),
        Err(_) => Judgement::Open,
    }
}

impl<P: KeepsPapers> Ballots<P> {
    /// Returns the ballots of a ward before any batch is added. The papers will be collected in `papers`, which must be empty.
    /// Allocates nothing.
    pub fn new(papers: P) -> Ballots<P>
        requires { P.holds papers [] }
        ensures { (columns : _) → StandFor P.holds result (ballots_in columns []) }
    {
        Ballots {
            papers,
            rejected: [0; REJECTIONS],
            settled: true,
        }
    }

    /// Adds the papers of a batch, given its three clerks' keyings in the current round and the verdicts on its papers. The keyings
    /// are ordered by clerk number; a missing one is empty. A batch that isn't taken adds no papers and leaves the ward unsettled.
    /// Returns `AllocError` if an allocation fails; after that, the papers added earlier can't be relied on.
    pub fn add(
        &mut self,
        columns: Columns,
        first: &[KeyedPaper],
        second: &[KeyedPaper],
        third: &[KeyedPaper],
        verdicts: &[JudgedPaper],
    ) -> Result<(), AllocError>
        ensures { IfOk result (λ _. (piles : _) → StandFor P.holds self.old (ballots_in columns piles)
            → StandFor P.holds self.new (ballots_in columns (piles ++ (record {
              keyings = of_three (map keyed_entry first.now) (map keyed_entry second.now) (map keyed_entry third.now);
              verdicts = map judged_entry verdicts.now;
            } ∷ [])))) }
    {
        let papers = agreed(first, second, third);
        let judged = count_open(papers, verdicts) == 0;
        self.settled &= are_taken(first, second, third) & judged;
        self.count_each(columns, verdicts, papers)
    }

    /// Adds one paper of a settled batch, given how it was keyed and the verdicts on the batch's papers. Returns `AllocError` if an
    /// allocation fails; after that, the papers added earlier can't be relied on.
    pub fn add_settled(
        &mut self,
        columns: Columns,
        verdicts: &[JudgedPaper],
        keyed: &KeyedPaper,
    ) -> Result<(), AllocError>
        ensures { IfOk result (λ _. (js : _) → StandFor P.holds self.old (ballots_by js)
            → StandFor P.holds self.new (ballots_by (js ++ judgement_on columns (map judged_entry verdicts.now) (keyed_entry keyed.now) ∷ []))) }
    {
        self.count(judgement_on(columns, verdicts, keyed))
    }

    /// Adds each paper of a keying to the totals, according to its judgement.
    fn count_each(
        &mut self,
        columns: Columns,
        verdicts: &[JudgedPaper],
        keying: &[KeyedPaper],
    ) -> Result<(), AllocError>
        ensures papers { IfOk result (λ _. (papers : List (List ℕ)) → P.holds self.old.papers papers
            → P.holds self.new.papers (papers ++ flat_map preferences_by (judgements_on columns (map judged_entry verdicts.now) (map keyed_entry keying.now)))) }
        ensures rejected { IfOk result (λ _. self.new.rejected ≡ fold and_rejected self.old.rejected (judgements_on columns (map judged_entry verdicts.now) (map keyed_entry keying.now))) }
        ensures settled { self.new.settled ≡ self.old.settled }
    {
        for keyed in keying {
            self.count(judgement_on(columns, verdicts, keyed))?;
        }
        Ok(())
    }

    /// Adds a paper to the totals, according to its judgement.
    fn count(&mut self, judgement: Judgement) -> Result<(), AllocError>
        ensures papers { IfOk result (λ _. (papers : List (List ℕ)) → P.holds self.old.papers papers → P.holds self.new.papers (papers ++ preferences_by judgement)) }
        ensures rejected { IfOk result (λ _. self.new.rejected ≡ and_rejected self.old.rejected judgement) }
        ensures settled { self.new.settled ≡ self.old.settled }
    {
        match judgement {
            Judgement::Valid(prefs) => {
                self.papers.keep(prefs)?;
                Ok(())
            }
            Judgement::Rejected(code) => self.reject(code),
            Judgement::Open => Ok(()),
        }
    }

    /// Increments the number of papers rejected with the given code. The number can't overflow in an office, which has at most 9999
    /// batches of 500 papers.
    fn reject(&mut self, code: u32) -> Result<(), AllocError>
        ensures papers { self.new.papers ≡ self.old.papers }
        ensures rejected { IfOk result (λ _. self.new.rejected ≡ and_rejected self.old.rejected (Judgement.Rejected code)) }
        ensures settled { self.new.settled ≡ self.old.settled }
    {
        if code < 1 || code as usize > REJECTIONS {
            return Ok(());
        }
        let place = code as usize - 1;
        match self.rejected[place].checked_add(1) {
            Some(more) => {
                self.rejected[place] = more;
                Ok(())
            }
            None => Err(AllocError),
        }
    }
}

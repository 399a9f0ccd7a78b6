//! The papers that pass on with each surplus of a count, by the value at which they were received.

ghost use Rattle.std.specs.Prelude.{◌≡◌, ◌+◌, ◌≤◌, ◌++◌, [], length, reverse, Some, IfOk, OnOk};
ghost use Rattle.votes.specs.Units.{max_papers};
ghost use Rattle.count.specs.Advance.{Advances};
ghost use Rattle.count.specs.Bundles.{papers_of};
ghost use Rattle.count.specs.Law.Contest.{contest_for, IsContest, newest_votes as newest_votes_of};
ghost use Rattle.count.specs.Law.Due.{drawn, due_after, lot_for};
ghost use Rattle.sheet.specs.Surpluses.{AdvancesIfDue, all_held, all_placed as all_placed_in, count_above as count_above_in, papers_in, passed_next};
ghost use Rattle.sheet.specs.Surpluses.{surplus_by as surplus_by_action, surpluses_of as surpluses_in, with_papers, with_placed};

use crate::stage::votes_of;
use count::{
    Action, BundleBook, Bundles, CountBook, Placed, Stage, bundles_can_be_counted, count_to,
};
use paper::Columns;
use std::alloc::{AllocError, Global};
use votes::{Votes, quota};

/// Papers of a candidate that pass on with the surplus, and that were received at one value ("Transfer values").
#[derive(Clone, Copy)]
pub struct PassedOn {
    /// The stage, counted from 1.
    pub stage: u64,
    /// The candidate whose surplus is transferred.
    pub candidate: u8,
    /// The surplus.
    pub surplus: Votes,
    /// The candidate's votes before the transfer.
    pub votes: Votes,
    /// How many papers there are, with or without a next available preference.
    pub papers: u32,
    /// The value at which the candidate received each of them.
    pub received: Votes,
    /// The value at which each of them passes on.
    pub passed: Votes,
}

/// Returns how many of the groups were received at a higher value.
fn count_above(groups: &[PassedOn], value: Votes) -> usize
    ensures is { result ≡ count_above_in groups.now value }
    ensures within { result ≤ length groups.now }
{
    groups
        .iter()
        .take_while(|group| value.units() < group.received.units())
        .count()
}

/// Returns a group with more papers.
fn grown(group: &PassedOn, papers: u32) -> PassedOn
    requires { group.now.papers + papers ≤ max_papers }
    ensures { result ≡ record group.now { papers = group.now.papers + papers } }
{
    PassedOn {
        stage: group.stage,
        candidate: group.candidate,
        surplus: group.surplus,
        votes: group.votes,
        papers: group.papers + papers,
        received: group.received,
        passed: group.passed,
    }
}

/// Adds papers to the group of their value.
fn add_papers(groups: &mut Vec<PassedOn>, more: PassedOn) -> Result<(), AllocError>
    requires { papers_in groups.old.items + more.papers ≤ max_papers }
    ensures { OnOk result (groups.new.items ≡ with_papers groups.old.items more) }
{
    let place = count_above(groups, more.received);
    if let Some(group) = groups.get(place) {
        if group.received.units() == more.received.units() {
            let grown = grown(group, more.papers);
            groups[place] = grown;
            return Ok(());
        }
    }
    groups.insert(place, more)?;
    Ok(())
}

/// Adds the papers of a bundle, given their place before and after the transfer, if the candidate held them.
fn add_placed(
    groups: &mut Vec<PassedOn>,
    of: &PassedOn,
    papers: u32,
    at: &Placed,
    to: &Placed,
) -> Result<(), AllocError>
    requires { papers_in groups.old.items + papers ≤ max_papers }
    ensures is { OnOk result (groups.new.items ≡ with_placed of.now papers groups.old.items at.now to.now) }
    ensures few { OnOk result (papers_in groups.new.items ≤ papers_in groups.old.items + papers) }
{
    if at.holder != of.candidate {
        return Ok(());
    }
    let more = PassedOn {
        stage: of.stage,
        candidate: of.candidate,
        surplus: of.surplus,
        votes: of.votes,
        papers,
        received: at.value,
        passed: to.value,
    };
    add_papers(groups, more)
}

/// Returns the papers that the candidate held, given the places of the bundles before and after the transfer.
fn all_placed(
    alloc: Global,
    of: &PassedOn,
    before: &[Placed],
    after: &[Placed],
    bundles: &Bundles,
) -> Result<Vec<PassedOn>, AllocError>
    ensures { IfOk result (λ groups. groups.items ≡ all_placed_in of.now [] before.now after.now bundles.now) }
{
    let _few = bundles.papers();
    let mut groups = Vec::new(alloc);
    let mut rest = before;
    let mut later = after;
    for (_, papers) in bundles.iter() {
        let Some((at, others)) = rest.split_first() else {
            return Ok(groups);
        };
        let Some((to, more)) = later.split_first() else {
            return Ok(groups);
        };
        add_placed(&mut groups, of, *papers, at, to)?;
        rest = others;
        later = more;
    }
    Ok(groups)
}

/// Returns the candidate that the lot for the given stage names.
fn lot_at(lots: &[(u8, u8)], stage: u64) -> Option<u8>
    ensures { result ≡ lot_for lots.now stage }
{
    lots.iter()
        .find(|lot| u64::from(lot.0) == stage)
        .map(|lot| lot.1)
}

/// Returns the given candidate's votes after the newest stage; 0 before the first.
fn newest_votes(stages: &[Stage], c: u8) -> Votes
    ensures { result ≡ newest_votes_of (reverse stages.now) c }
{
    match stages.split_last() {
        None => Votes::from_units(0),
        Some((newest, _)) => votes_of(newest, c),
    }
}

/// Returns the candidate whose surplus an action transfers.
fn surplus_by(action: Action) -> Option<u8>
    ensures { result ≡ surplus_by_action action }
{
    match action {
        Action::Surplus(c) => Some(c),
        Action::First | Action::Exclude(_) | Action::ExcludeLast(_) => None,
    }
}

/// Adds the stage that is due.
fn advance(book: &mut BundleBook, lot: Option<u8>) -> Result<(), AllocError>
    ensures same { book.new.contest ≡ book.old.contest }
    ensures ok { OnOk result (Advances book.old.contest book.old.history lot book.new.history) }
{
    match book.advance(lot) {
        Ok(()) => Ok(()),
        Err(_) => Err(AllocError),
    }
}

/// Adds the stage that transfers the surplus of the candidate, and returns the papers that pass on with it.
fn transferred(
    alloc: Global,
    book: &mut BundleBook,
    bundles: &Bundles,
    quota: Votes,
    lot: Option<u8>,
    c: u8,
) -> Result<Vec<PassedOn>, AllocError>
    requires papers { book.old.contest.papers ≡ papers_of bundles.now }
    requires quota { quota ≡ book.old.contest.quota }
    requires due { drawn book.old.contest book.old.history lot (due_after book.old.contest book.old.history) ≡ Some (Action.Surplus c) }
    ensures same { book.new.contest ≡ book.old.contest }
    ensures ok { OnOk result (Advances book.old.contest book.old.history lot book.new.history) }
    ensures is { IfOk result (λ groups. groups.items ≡ all_held book.old.contest book.old.history bundles.now c) }
{
    let stages = book.stages();
    let votes = newest_votes(stages, c);
    let of = PassedOn {
        stage: stages.len() as u64 + 1,
        candidate: c,
        surplus: Votes::from_units(votes.units().saturating_sub(quota.units())),
        votes,
        papers: 0,
        received: Votes::from_units(0),
        passed: Votes::from_units(0),
    };
    // called for its postcondition: it tells the proof that these are the bundles of the book
    let _ = bundles.len();
    let before = Vec::from_slice(alloc, book.places())?;
    advance(book, lot)?;
    all_placed(alloc, &of, &before, book.places(), bundles)
}

/// Adds the next stage with the recorded lots, if there is one, and the papers that pass on with a surplus at that stage.
fn add_next(
    alloc: Global,
    found: &mut Vec<PassedOn>,
    book: &mut BundleBook,
    bundles: &Bundles,
    quota: Votes,
    lots: &[(u8, u8)],
) -> Result<(), AllocError>
    requires papers { book.old.contest.papers ≡ papers_of bundles.now }
    requires quota { quota ≡ book.old.contest.quota }
    ensures same { book.new.contest ≡ book.old.contest }
    ensures ok { OnOk result (AdvancesIfDue book.old.contest lots.now book.old.history book.new.history) }
    ensures is { OnOk result (found.new.items ≡ found.old.items ++ passed_next book.old.contest lots.now bundles.now book.old.history) }
{
    let lot = lot_at(lots, book.stages().len() as u64 + 1);
    let Ok(action) = book.action_by(lot) else {
        return Ok(());
    };
    match surplus_by(action) {
        None => advance(book, lot),
        Some(c) => {
            let mut groups = transferred(alloc, book, bundles, quota, lot, c)?;
            found.append(&mut groups)
        }
    }
}

/// Returns the papers that passed on with each surplus at the first stages of a count, at most the given number of stages; for
/// each surplus, by the value at which they were received, the highest first. All papers of the candidate are among them, with or
/// without a next available preference. A lot is a stage, counted from 1, and the candidate that it names.
///
/// Returns none if no count can be held with these bundles. `AllocError` if an allocation fails.
pub fn surpluses_of(
    alloc: Global,
    candidates: Columns,
    seats: u8,
    bundles: &Bundles,
    lots: &[(u8, u8)],
    stages: usize,
) -> Result<Vec<PassedOn>, AllocError>
    ensures is { IfOk result (λ found. IsContest (contest_for candidates seats (papers_of bundles.now)) → found.items ≡ surpluses_in candidates seats bundles.now lots.now stages) }
    ensures none { IfOk result (λ found. ¬ (IsContest (contest_for candidates seats (papers_of bundles.now))) → found.items ≡ []) }
{
    let mut found = Vec::new(alloc);
    if !bundles_can_be_counted(&candidates, seats, bundles) {
        return Ok(found);
    }
    let mut book = BundleBook::new(alloc, candidates, seats, bundles)?;
    // counts nothing: it tells the proof that the stages of a count are the only correct ones
    count_to(&mut book, lots, 0)?;
    let quota = quota(bundles.papers(), seats);
    for _ in 0..stages {
        add_next(alloc, &mut found, &mut book, bundles, quota, lots)?;
    }
    Ok(found)
}

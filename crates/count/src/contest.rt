//! Checking whether a count can be held.

ghost use Rattle.std.specs.Prelude.{◌≡◌, ◌↔◌, ◌≤◌, ◌<◌, true, length, IsTrue};
ghost use Rattle.votes.specs.Units.{max_seats};
ghost use Rattle.std.specs.List.{AllByRecursion};
ghost use Rattle.paper.specs.Standing.{is_continuing};
ghost use Rattle.count.specs.Law.Contest.{contest_for, AreForCandidates, IsContest};
ghost use Rattle.count.specs.Bundles.{papers_of};

use crate::bundles::Bundles;
use paper::{Columns, Prefs, Standing};
use votes::{MAX_PAPERS, MAX_SEATS};

/// Returns whether all preferences on the paper are for continuing candidates.
fn is_for(standing: &Standing, preferences: &[u8]) -> bool
    ensures { IsTrue result ↔ AllByRecursion (λ c. is_continuing standing.now c ≡ true) preferences.now }
{
    for c in preferences {
        if !standing.continues(*c) {
            return false;
        }
    }
    true
}

/// Returns whether all preferences on all papers are for candidates, with one lookup each, in the standing in which all candidates
/// continue.
fn are_for_candidates(candidates: &Columns, papers: &[Prefs]) -> bool
    ensures { IsTrue result ↔ AreForCandidates candidates.now papers.now }
{
    let standing = Standing::new(*candidates, Columns::empty(), Columns::empty());
    for paper in papers {
        if !is_for(&standing, paper.as_slice()) {
            return false;
        }
    }
    true
}

/// Returns whether all preferences on all papers of the given bundles are for candidates. Checks each list once.
fn lists_are_for_candidates(candidates: &Columns, bundles: &Bundles) -> bool
    ensures { IsTrue result ↔ AreForCandidates candidates.now (papers_of bundles.now) }
{
    let standing = Standing::new(*candidates, Columns::empty(), Columns::empty());
    for (list, _) in bundles.iter() {
        if !is_for(&standing, list.as_slice()) {
            return false;
        }
    }
    true
}

/// Returns whether there are 1 to `MAX_SEATS` seats, and more candidates than seats.
fn is_contested(candidates: &Columns, seats: u8) -> bool
    ensures { IsTrue result ↔ ((1 ≤ seats) × (seats ≤ max_seats) × (seats < length candidates.now)) }
{
    if seats < 1 || seats > MAX_SEATS {
        return false;
    }
    candidates.len() > usize::from(seats)
}

/// Returns whether a count can be held: 1 to `MAX_SEATS` seats, more candidates than seats, at most `MAX_PAPERS` papers,
/// and preferences only for candidates. These limits are the office's own; within them the "Quota" and all votes are exact.
#[tactic(auto, using(crate::proofs::ContestLemmas::contests))]
pub fn can_be_counted(candidates: &Columns, seats: u8, papers: &[Prefs]) -> bool
    ensures { IsTrue result ↔ IsContest (contest_for candidates.now seats papers.now) }
{
    if !is_contested(candidates, seats) || papers.len() > MAX_PAPERS as usize {
        return false;
    }
    let _set = candidates.as_slice();
    are_for_candidates(candidates, papers)
}

/// Returns whether a count can be held on the papers of bundles, which are at most `MAX_PAPERS`. Checks each list once.
#[tactic(auto, using(crate::proofs::ContestLemmas::contests))]
pub fn bundles_can_be_counted(candidates: &Columns, seats: u8, bundles: &Bundles) -> bool
    ensures { IsTrue result ↔ IsContest (contest_for candidates.now seats (papers_of bundles.now)) }
{
    if !is_contested(candidates, seats) {
        return false;
    }
    let _set = candidates.as_slice();
    let _few = bundles.papers();
    lists_are_for_candidates(candidates, bundles)
}

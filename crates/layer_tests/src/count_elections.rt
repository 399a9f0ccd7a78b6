//! Worked elections, stage by stage; lots; and allocations that fail.

mod begun;
mod books;
mod bundles;
mod kept;
mod lots;
mod refused;
mod tabulations;
mod worked;

use count::{Bundles, Stage};
use paper::{Columns, Prefs};
use std::alloc::{AllocError, Global};
use std::process::Abort;
use std::test::Fail;
use votes::{MAX_PAPERS, Votes};
use worked::{Expected, Worked};

/// Checks a condition on a worked election.
fn holds(rt: &impl Abort, worked: &Worked, what: &str, is_so: bool) {
    assert!(rt; is_so, "{}: {what}", worked.name);
}

/// Checks a condition on the bundle with the given list and number of papers.
fn holds_of_list(rt: &impl Abort, list: &Prefs, papers: u32, is_so: bool) {
    assert!(rt; is_so, "{list:?}: {papers}");
}

/// Returns the candidates 1 to `n`.
fn first_columns(n: u8) -> Columns {
    let mut columns = Columns::empty();
    for c in 1..=n {
        if c <= 30 {
            columns = columns.with(c);
        }
    }
    columns
}

/// Returns the given set with more numbers added.
fn with_all(mut columns: Columns, more: &[u8]) -> Columns {
    for c in more {
        if *c >= 1 && *c <= 30 {
            columns = columns.with(*c);
        }
    }
    columns
}

/// Returns the preferences of a list.
fn prefs_of(list: &[u8]) -> Result<Prefs, &'static str> {
    Prefs::from_slice(list).ok_or("no ranking")
}

/// Returns the papers of the given groups.
fn papers_of(alloc: Global, groups: &[(u32, &[u8])]) -> Result<Vec<Prefs>, Fail> {
    let mut papers = Vec::new(alloc);
    for (count, list) in groups {
        let prefs = prefs_of(*list)?;
        for _ in 0..*count {
            papers.push(prefs)?;
        }
    }
    Ok(papers)
}

/// Adds a paper. Returns `AllocError` if an allocation fails, or if there are too many papers.
fn add(bundles: &mut Bundles, paper: Prefs) -> Result<(), AllocError> {
    if bundles.papers() < MAX_PAPERS {
        return bundles.add(paper);
    }
    Err(AllocError)
}

/// Returns the given papers as bundles, added one by one from last to first.
fn bundled(alloc: Global, papers: &[Prefs]) -> Result<Bundles, AllocError> {
    let mut bundles = Bundles::new(alloc);
    for paper in papers.iter().rev() {
        add(&mut bundles, *paper)?;
    }
    Ok(bundles)
}

/// Returns the papers of the given groups as bundles.
pub fn bundles_of(alloc: Global, groups: &[(u32, &[u8])]) -> Result<Bundles, Fail> {
    let papers = papers_of(alloc, groups)?;
    Ok(bundled(alloc, &papers)?)
}

/// Returns whether the votes begin with the given numbers of units.
fn are_units(votes: &[Votes], units: &[u64]) -> bool {
    for (votes, units) in votes.iter().zip(units) {
        if votes.units() != *units {
            return false;
        }
    }
    true
}

/// Returns whether the figures of a stage are the expected ones.
fn has_figures(stage: &Stage, expected: &Expected) -> bool {
    let sums = (stage.non_transferable.units(), stage.lost.units());
    sums == expected.sums && are_units(&stage.votes, expected.votes)
}

/// Returns whether a stage is the expected one.
fn records(stage: &Stage, expected: &Expected) -> bool {
    let has_figures = has_figures(stage, expected);
    stage.action == expected.action && stage.elected.as_slice() == expected.elected && has_figures
}

/// Checks that a stage of a worked election is the expected one.
fn record_one(rt: &impl Abort, worked: &Worked, stage: &Stage, expected: &Expected) {
    assert!(rt; records(stage, expected), "{}: {stage:?}", worked.name);
}

/// Checks that the given stages are all of a worked election's, and that each is as expected.
fn record_all(rt: &impl Abort, worked: &Worked, stages: &[Stage], expected: &[Expected]) {
    let are_all = stages.len() == expected.len();
    holds(rt, worked, "how many stages are recorded", are_all);
    for (stage, expected) in stages.iter().zip(expected) {
        record_one(rt, worked, stage, expected);
    }
}

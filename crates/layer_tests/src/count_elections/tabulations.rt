//! Counts read back from their tabulation alone.

use super::books::standing;
use super::worked::Worked;
use super::{bundles_of, first_columns, record_all};
use count::{Bundles, NextStage, StoredCount};
use register::tabulations::count_of;
use register::{PlacedBundle, Tabulation};
use std::alloc::{AllocError, Global};
use std::process::Abort;
use std::test::Fail;
use votes::ONE_VOTE;

/// Returns the tabulation of a worked election with the given places and stages.
fn tabulated(
    alloc: Global,
    worked: &Worked,
    bundles: &Bundles,
    stood: &NextStage,
) -> Result<Tabulation, AllocError> {
    let candidates = first_columns(worked.candidates);
    let mut rows = Tabulation::empty(alloc);
    rows.add(alloc, 7, &candidates, bundles, &stood.places, &stood.stages)?;
    Ok(rows)
}

/// Returns the count read back from a tabulation.
fn read_back(alloc: Global, worked: &Worked, rows: &Tabulation) -> Result<StoredCount, Fail> {
    let (candidates, seats) = (first_columns(worked.candidates), u32::from(worked.seats));
    match count_of(alloc, candidates, seats, &rows.bundles, &rows.figures)? {
        Some(kept) => Ok(kept),
        None => Err(Fail::from("the rows of a count weren't read back")),
    }
}

/// Checks that the count that was read back equals the original after the given number of stages.
fn is_as_it_stood(
    rt: &impl Abort,
    worked: &Worked,
    kept: &StoredCount,
    stood: &NextStage,
    stages: usize,
) {
    let expected = &worked.stages[..stages.min(worked.stages.len())];
    record_all(rt, worked, kept.stages(), expected);
    let is_so = kept.stages().len() == stages && kept.places() == stood.places.as_slice();
    assert!(rt; is_so, "{}: {stages}", worked.name);
}

/// Tabulates a worked election after the given number of stages, and reads it back.
fn is_read_back(
    rt: &impl Abort,
    alloc: Global,
    worked: &Worked,
    bundles: &Bundles,
    stages: usize,
) -> Result<(), Fail> {
    let stood = standing(rt, alloc, worked, bundles, stages)?;
    let rows = tabulated(alloc, worked, bundles, &stood)?;
    let kept = read_back(alloc, worked, &rows)?;
    is_as_it_stood(rt, worked, &kept, &stood, stages);
    Ok(())
}

/// Does the same as `is_read_back` after each stage of a worked election.
pub fn is_read_back_at_each(rt: &impl Abort, alloc: Global, worked: &Worked) -> Result<(), Fail> {
    let bundles = bundles_of(alloc, worked.papers)?;
    for stages in 1..=worked.stages.len() {
        is_read_back(rt, alloc, worked, &bundles, stages)?;
    }
    Ok(())
}

/// A bundle's list, its number of papers, and its holder; and whether a count can have such a bundle.
const BUNDLES: [(&[u8], u32, u32, bool); 6] = [
    (&[1, 2], 1, 1, true),
    (&[1, 1], 1, 1, false),
    (&[1, 31], 1, 1, false),
    (&[1, 2], 0, 1, false),
    (&[1, 2], 1, 31, false),
    (&[1, 2], 1, 257, false),
];

/// Returns a bundle of the given papers.
fn placed(
    alloc: Global,
    list: &[u8],
    papers: u32,
    holder: u32,
) -> Result<PlacedBundle, AllocError> {
    Ok(PlacedBundle {
        ward: 7,
        list: Vec::from_slice(alloc, list)?,
        papers,
        holder,
        value: ONE_VOTE,
    })
}

/// Returns whether a count with the given bundle alone can be read back.
fn has_count(alloc: Global, bundle: PlacedBundle) -> Result<bool, AllocError> {
    let found = count_of(alloc, first_columns(3), 1, &[bundle], &[])?;
    Ok(found.is_some())
}

/// Checks that a count with the given bundle alone is read back if and only if a count can have that bundle.
fn may_have(
    rt: &impl Abort,
    alloc: Global,
    (list, papers, holder, may_be): &(&[u8], u32, u32, bool),
) -> Result<(), Fail> {
    let bundle = placed(alloc, *list, *papers, *holder)?;
    let found = has_count(alloc, bundle)?;
    assert!(rt; found == *may_be, "{list:?} {papers} {holder}");
    Ok(())
}

#[test]
fn rows_of_no_count_are_not_read_back(rt: HostRuntime) -> Result<(), Fail> {
    for case in &BUNDLES {
        may_have(&rt, rt.alloc(), case)?;
    }
    Ok(())
}

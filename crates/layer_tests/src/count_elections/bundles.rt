//! Bundles of equal papers.

use super::{add, holds_of_list, prefs_of};
use count::Bundles;
use paper::Prefs;
use std::alloc::{AllocError, Global};
use std::process::Abort;
use std::test::Fail;
use votes::MAX_PAPERS;

/// Papers, in the order in which they are added.
static SCATTERED: [&[u8]; 15] = [
    &[2, 3],
    &[1, 2, 3],
    &[5],
    &[1, 2, 3],
    &[4],
    &[1, 2, 3],
    &[2, 3],
    &[3],
    &[1, 2, 3],
    &[1, 4],
    &[1, 2, 3],
    &[4],
    &[1, 2, 3],
    &[2, 3],
    &[1, 2, 3],
];

/// The lists of those papers, in order, each with the number of its papers.
static BUNDLES: [(&[u8], u32); 6] = [
    (&[1, 2, 3], 7),
    (&[1, 4], 1),
    (&[2, 3], 3),
    (&[3], 1),
    (&[4], 2),
    (&[5], 1),
];

/// Adds a paper with the given list.
fn add_list(bundles: &mut Bundles, list: &[u8]) -> Result<(), Fail> {
    let list = prefs_of(list)?;
    Ok(add(bundles, list)?)
}

/// Returns the bundles of the scattered papers, added one by one.
fn scattered(alloc: Global) -> Result<Bundles, Fail> {
    let mut bundles = Bundles::new(alloc);
    for list in &SCATTERED {
        add_list(&mut bundles, *list)?;
    }
    Ok(bundles)
}

/// Adds up to 7 equal papers. Returns `AllocError` if an allocation fails, or if there are too many papers.
fn add_several(bundles: &mut Bundles, list: Prefs, papers: u32) -> Result<(), AllocError> {
    if papers >= 1 && papers <= 7 && bundles.papers() <= MAX_PAPERS - 7 {
        return bundles.add_papers(list, papers);
    }
    Err(AllocError)
}

/// Adds the given number of equal papers in one call, and then again in another.
fn add_twice(bundles: &mut Bundles, list: &[u8], papers: u32) -> Result<(), Fail> {
    let list = prefs_of(list)?;
    add_several(bundles, list, papers)?;
    Ok(add_several(bundles, list, papers)?)
}

/// Returns bundles to which each of the expected ones has been added twice.
fn doubled(alloc: Global) -> Result<Bundles, Fail> {
    let mut bundles = Bundles::new(alloc);
    for (list, papers) in &BUNDLES {
        add_twice(&mut bundles, *list, *papers)?;
    }
    Ok(bundles)
}

/// Returns whether a bundle has the expected list, and `times` times the expected number of papers.
fn is_bundle(list: &Prefs, papers: u32, expected: &(&[u8], u32), times: u64) -> bool {
    let wanted = times.saturating_mul(u64::from(expected.1));
    list.as_slice() == expected.0 && u64::from(papers) == wanted
}

/// Checks that the given bundles are the six expected ones, with `times` times their papers.
fn are_bundles(rt: &impl Abort, bundles: &Bundles, times: u64) {
    let papers = u64::from(bundles.papers());
    let are_six = papers == times.saturating_mul(15) && bundles.len() == 6;
    assert!(rt; are_six, "{papers} papers");
    for ((list, papers), expected) in bundles.iter().zip(&BUNDLES) {
        holds_of_list(rt, list, *papers, is_bundle(list, *papers, expected, times));
    }
}

/// Checks that each bundle is found by its index.
fn is_found(rt: &impl Abort, bundles: &Bundles) {
    assert!(rt; bundles.len() > 4);
    let (list, papers) = bundles.get(4);
    holds_of_list(rt, list, papers, is_bundle(list, papers, &BUNDLES[4], 1));
}

#[test]
fn equal_papers_are_kept_once(rt: HostRuntime) -> Result<(), Fail> {
    let bundles = scattered(rt.alloc())?;
    are_bundles(&rt, &bundles, 1);
    is_found(&rt, &bundles);
    are_bundles(&rt, &doubled(rt.alloc())?, 2);
    Ok(())
}

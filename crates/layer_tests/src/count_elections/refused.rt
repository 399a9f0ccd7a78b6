//! Allocations that fail, one at a time, under `rt try --test --fail-alloc N`; each failed call is repeated.

ghost use Rattle.std.specs.Prelude.{◌≡◌, []};

use super::begun::{Counting, by_parcels, on_bundles};
use super::worked::{Worked, elections};
use super::{add, papers_of};
use count::{AdvanceError, Bundles, CountBook, Due};
use paper::Prefs;
use std::alloc::Global;
use std::process::Abort;
use std::test::Fail;

/// Counts the next stage.
fn advance<B: CountBook>(book: &mut B) -> Result<(), AdvanceError> {
    book.advance(None)
}

/// Returns whether a book has the given number of stages, and `due` comes next.
fn stands_at<B: CountBook>(book: &B, stages: usize, due: &Due) -> bool {
    book.stages().len() == stages && book.due() == *due
}

/// Counts a stage. If an allocation fails, the book must be unchanged, and the stage is counted again.
fn advance_again<B: CountBook>(rt: &impl Abort, book: &mut B, stages: usize) {
    let due = book.due();
    if advance(book) == Err(AdvanceError::Memory) {
        assert!(rt; stands_at(book, stages, &due) && advance(book).is_ok());
    }
    assert!(rt;
        book.stages().len() == stages.saturating_add(1),
        "after {stages}"
    );
}

/// Adds a paper. If an allocation fails, the bundles must be unchanged, and the paper is added again.
fn add_again(rt: &impl Abort, bundles: &mut Bundles, paper: Prefs) {
    let (papers, len) = (bundles.papers(), bundles.len());
    if add(bundles, paper).is_err() {
        assert!(rt; bundles.papers() == papers && bundles.len() == len);
        assert!(rt; add(bundles, paper).is_ok());
    }
}

/// Counts a number of stages, which must be all the stages of the count.
#[derive(Drop)]
struct AdvancesAgain {
    stages: usize,
}

impl Counting for AdvancesAgain {
    fn count<B: CountBook>(&self, rt: &impl Abort, book: &mut B) -> Result<(), Fail> {
        for stages in 0..self.stages {
            advance_again(rt, book, stages);
        }
        assert!(rt; book.due() == Due::Finished);
        Ok(())
    }
}

/// Returns the election in which a surplus contains papers at two different values.
fn with_surpluses() -> Result<&'static Worked, &'static str> {
    elections().get(1).ok_or("no such election")
}

#[test]
fn a_refused_growth_leaves_the_book(rt: HostRuntime) -> Result<(), Fail> {
    let worked = with_surpluses()?;
    let stages = worked.stages.len();
    by_parcels(&rt, rt.alloc(), worked, &AdvancesAgain { stages })
}

/// Returns the election's papers as bundles. If an allocation fails, the paper is added again.
fn bundled_again(rt: &impl Abort, alloc: Global, worked: &Worked) -> Result<Bundles, Fail> {
    let papers = papers_of(alloc, worked.papers)?;
    let mut bundles = Bundles::new(alloc);
    for paper in &papers {
        add_again(rt, &mut bundles, *paper);
    }
    Ok(bundles)
}

#[test]
fn a_refused_growth_leaves_the_bundles(rt: HostRuntime) -> Result<(), Fail> {
    let worked = with_surpluses()?;
    let stages = worked.stages.len();
    let bundles = bundled_again(&rt, rt.alloc(), worked)?;
    on_bundles(&rt, rt.alloc(), worked, &bundles, &AdvancesAgain { stages })
}

//! New books for worked elections.
//!
//! Tests are generic over the count, so their proofs are short and don't depend on how a count stores its papers.

ghost use Rattle.std.specs.Prelude.{◌≡◌, [], IfOk};
ghost use Rattle.count.specs.Bundles.{papers_of};
ghost use Rattle.count.specs.Law.Contest.{IsContest, contest_for};

use super::worked::Worked;
use super::{bundles_of, first_columns, papers_of};
use count::{BundleBook, Bundles, CountBook, ParcelBook, bundles_can_be_counted, can_be_counted};
use paper::{Columns, Prefs};
use std::alloc::{AllocError, Global};
use std::process::Abort;
use std::test::Fail;

/// A test of a new book.
pub trait Counting {
    fn count<B: CountBook>(&self, rt: &impl Abort, book: &mut B) -> Result<(), Fail>
        requires { B.history book.old ≡ [] };
}

/// Runs the test with a book that has the given papers in parcels.
fn on_papers<C: Counting>(
    rt: &impl Abort,
    alloc: Global,
    worked: &Worked,
    papers: &[Prefs],
    counting: &C,
) -> Result<(), Fail> {
    let candidates = first_columns(worked.candidates);
    assert!(rt; can_be_counted(&candidates, worked.seats, papers));
    let mut book = ParcelBook::new(alloc, candidates, worked.seats, papers)?;
    counting.count(rt, &mut book)
}

/// Runs the test with a book that stores its papers in parcels.
pub fn by_parcels<C: Counting>(
    rt: &impl Abort,
    alloc: Global,
    worked: &Worked,
    counting: &C,
) -> Result<(), Fail> {
    let papers = papers_of(alloc, worked.papers)?;
    on_papers(rt, alloc, worked, &papers, counting)
}

/// Returns a new book. If an allocation fails, creates the book again.
fn begin_again(
    alloc: Global,
    candidates: Columns,
    seats: u8,
    bundles: &Bundles,
) -> Result<BundleBook<'_>, AllocError>
    requires { IsContest (contest_for candidates seats (papers_of bundles.now)) }
    ensures { IfOk result (λ book. book ≡ record { contest = contest_for candidates seats (papers_of bundles.now); history = []; bundles = bundles.now }) }
{
    if let Ok(book) = BundleBook::new(alloc, candidates, seats, bundles) {
        return Ok(book);
    }
    BundleBook::new(alloc, candidates, seats, bundles)
}

/// Runs the test with a book that has the given papers in bundles.
pub fn on_bundles<C: Counting>(
    rt: &impl Abort,
    alloc: Global,
    worked: &Worked,
    bundles: &Bundles,
    counting: &C,
) -> Result<(), Fail> {
    let candidates = first_columns(worked.candidates);
    assert!(rt; bundles_can_be_counted(&candidates, worked.seats, bundles));
    let mut book = begin_again(alloc, candidates, worked.seats, bundles)?;
    counting.count(rt, &mut book)
}

/// Runs the test with a book that stores its papers in bundles.
pub fn by_bundles<C: Counting>(
    rt: &impl Abort,
    alloc: Global,
    worked: &Worked,
    counting: &C,
) -> Result<(), Fail> {
    let bundles = bundles_of(alloc, worked.papers)?;
    on_bundles(rt, alloc, worked, &bundles, counting)
}

//! The same elections counted by both kinds of book: with papers in parcels, and with equal papers in bundles.

ghost use Rattle.std.specs.Prelude.{◌≡◌, [], map, reverse, IfOk};
ghost use Rattle.count.specs.Books.{placed};
ghost use Rattle.count.specs.Bundles.{papers_of};
ghost use Rattle.count.specs.Law.Contest.{IsContest, contest_for};
ghost use Rattle.count.specs.Law.Places.{place as place_of};
ghost use Rattle.count.specs.Law.Right.{IsRight, IsRightForSome};

use super::begun::{Counting, by_bundles, by_parcels};
use super::kept::goes_on_from_what_was_kept;
use super::tabulations::is_read_back_at_each;
use super::worked::{Expected, Worked, elections};
use super::{bundles_of, first_columns, holds, holds_of_list, record_all, with_all};
use count::{
    BundleBook, Bundles, CountBook, CountEnd, Due, NextStage, Placed, Stage, StoredCount,
    bundles_can_be_counted, count_to, due_by, run_count,
};
use paper::{Columns, Prefs};
use std::alloc::{AllocError, Global};
use std::process::Abort;
use std::test::Fail;

/// The expected state of a count after a number of stages: the elected candidates, and the next stage.
#[derive(Drop)]
struct ComesTo<'a> {
    worked: &'a Worked,
    stages: usize,
    elected: Columns,
    next: &'a Expected,
}

impl<'a> Counting for ComesTo<'a> {
    fn count<B: CountBook>(&self, rt: &impl Abort, book: &mut B) -> Result<(), Fail> {
        let worked = self.worked;
        count_to(book, worked.lots, self.stages)?;
        let found = book.stages().len();
        holds(rt, worked, "how many stages", found == self.stages);
        holds(rt, worked, "the elected", book.elected() == self.elected);
        let next = Due::Act(self.next.action);
        holds(rt, worked, "what is due", due_by(book, worked.lots) == next);
        Ok(())
    }
}

/// Counts a worked election up to each of its stages in turn, and checks which stage is next.
fn goes_to_each(rt: &impl Abort, alloc: Global, worked: &Worked) -> Result<(), Fail> {
    let mut elected = Columns::empty();
    for (stages, next) in worked.stages.iter().enumerate() {
        let comes_to = ComesTo {
            worked,
            stages,
            elected,
            next,
        };
        by_parcels(rt, alloc, worked, &comes_to)?;
        elected = with_all(elected, next.elected);
    }
    Ok(())
}

/// Counts a worked election to its end from its current stage.
fn ends_as_worked<B: CountBook>(rt: &impl Abort, book: &mut B, worked: &Worked) -> Result<(), Fail>
    requires { IsRight (B.contest book.old) worked.now.lots.now (B.history book.old) }
{
    let end = run_count(book, worked.lots)?;
    holds(rt, worked, "its end", end == CountEnd::Finished);
    record_all(rt, worked, book.stages(), worked.stages);
    Ok(())
}

/// A count with the stages of the worked election.
#[derive(Drop)]
struct ComesAsWorked<'a> {
    worked: &'a Worked,
}

impl<'a> Counting for ComesAsWorked<'a> {
    fn count<B: CountBook>(&self, rt: &impl Abort, book: &mut B) -> Result<(), Fail> {
        ends_as_worked(rt, book, self.worked)
    }
}

/// Returns a book of the given bundles after the given number of stages.
fn counted<'a>(
    alloc: Global,
    candidates: Columns,
    worked: &Worked,
    bundles: &'a Bundles,
    stages: usize,
) -> Result<BundleBook<'a>, AllocError>
    requires { IsContest (contest_for candidates worked.now.seats (papers_of bundles.now)) }
{
    let mut book = BundleBook::new(alloc, candidates, worked.seats, bundles)?;
    count_to(&mut book, worked.lots, stages)?;
    Ok(book)
}

/// Returns the places of a book's bundles, and its stages.
fn stands(alloc: Global, book: &BundleBook<'_>) -> Result<NextStage, AllocError> {
    let places = Vec::from_slice(alloc, book.places())?;
    let stages = Vec::from_slice(alloc, book.stages())?;
    Ok(NextStage { places, stages })
}

/// Returns the places of a worked election's bundles, and its stages, after the given number of stages.
pub fn standing(
    rt: &impl Abort,
    alloc: Global,
    worked: &Worked,
    bundles: &Bundles,
    stages: usize,
) -> Result<NextStage, Fail> {
    let candidates = first_columns(worked.candidates);
    assert!(rt; bundles_can_be_counted(&candidates, worked.seats, bundles));
    let book = counted(alloc, candidates, worked, bundles, stages)?;
    Ok(stands(alloc, &book)?)
}

/// The bundles of the first worked election after its second stage: a list, the number of papers with it, their holder,
/// and the value of each in units.
const PLACES: [(&[u8], u32, u8, u64); 4] = [
    (&[1, 2], 4, 2, 33333),
    (&[1, 3], 2, 3, 33333),
    (&[2], 1, 2, 100000),
    (&[3], 2, 3, 100000),
];

/// Returns whether papers are in the place with the given holder and value.
fn are_with(placed: &Placed, holder: u8, units: u64) -> bool {
    placed.holder == holder && placed.value.units() == units
}

/// Returns whether a bundle is in the expected place.
fn lies_as(list: &Prefs, papers: u32, placed: &Placed, expected: &(&[u8], u32, u8, u64)) -> bool {
    let are_there = are_with(placed, expected.2, expected.3);
    list.as_slice() == expected.0 && papers == expected.1 && are_there
}

/// Checks that each bundle is in its expected place.
fn lie_as(rt: &impl Abort, bundles: &Bundles, places: &[Placed]) {
    assert!(rt; places.len() == PLACES.len());
    for (((list, papers), placed), expected) in bundles.iter().zip(places).zip(&PLACES) {
        holds_of_list(rt, list, *papers, lies_as(list, *papers, placed, expected));
    }
}

#[test]
fn bundles_lie_where_their_papers_do(rt: HostRuntime) -> Result<(), Fail> {
    let worked = elections().first().ok_or("no such election")?;
    let bundles = bundles_of(rt.alloc(), worked.papers)?;
    let stood = standing(&rt, rt.alloc(), worked, &bundles, 2)?;
    lie_as(&rt, &bundles, &stood.places);
    Ok(())
}

/// Returns a resumed book. If an allocation fails, resumes it again.
fn resume_again<'a>(
    alloc: Global,
    candidates: Columns,
    seats: u8,
    bundles: &'a Bundles,
    places: &[Placed],
    stages: &[Stage],
) -> Result<BundleBook<'a>, AllocError>
    requires contest { IsContest (contest_for candidates seats (papers_of bundles.now)) }
    requires right { IsRightForSome (contest_for candidates seats (papers_of bundles.now)) (reverse stages.now) }
    requires places { places.now ≡ map (λ b. placed (place_of (contest_for candidates seats (papers_of bundles.now)) (reverse stages.now) b.0)) bundles.now }
    ensures { IfOk result (λ book. book ≡ record { contest = contest_for candidates seats (papers_of bundles.now); history = reverse stages.now; bundles = bundles.now }) }
{
    if let Ok(book) = BundleBook::resume(alloc, candidates, seats, bundles, places, stages) {
        return Ok(book);
    }
    BundleBook::resume(alloc, candidates, seats, bundles, places, stages)
}

/// Resumes a worked election after the given number of stages, and counts it to its end.
fn goes_on_from(
    rt: &impl Abort,
    alloc: Global,
    worked: &Worked,
    bundles: &Bundles,
    stages: usize,
) -> Result<(), Fail> {
    let candidates = first_columns(worked.candidates);
    assert!(rt; bundles_can_be_counted(&candidates, worked.seats, bundles));
    let mut stood = BundleBook::new(alloc, candidates, worked.seats, bundles)?;
    count_to(&mut stood, worked.lots, stages)?;
    let (places, made) = (stood.places(), stood.stages());
    holds(rt, worked, "how many places", places.len() == bundles.len());
    let mut book = resume_again(alloc, candidates, worked.seats, bundles, places, made)?;
    holds(rt, worked, "where it starts", book.stages().len() == stages);
    ends_as_worked(rt, &mut book, worked)
}

/// Does the same as `goes_on_from` at each stage of a worked election.
fn goes_on_from_each(rt: &impl Abort, alloc: Global, worked: &Worked) -> Result<(), Fail> {
    let bundles = bundles_of(alloc, worked.papers)?;
    for stages in 0..worked.stages.len() {
        goes_on_from(rt, alloc, worked, &bundles, stages)?;
    }
    Ok(())
}

#[test]
fn counts_go_on_from_each_stage(rt: HostRuntime) -> Result<(), Fail> {
    for worked in elections() {
        goes_on_from_each(&rt, rt.alloc(), worked)?;
    }
    Ok(())
}

/// Counts a worked election with both kinds of book.
fn both_books_count(rt: &impl Abort, alloc: Global, worked: &Worked) -> Result<(), Fail> {
    let comes_as_worked = ComesAsWorked { worked };
    by_parcels(rt, alloc, worked, &comes_as_worked)?;
    by_bundles(rt, alloc, worked, &comes_as_worked)
}

#[test]
fn worked_elections_are_counted(rt: HostRuntime) -> Result<(), Fail> {
    for worked in elections() {
        goes_to_each(&rt, rt.alloc(), worked)?;
        both_books_count(&rt, rt.alloc(), worked)?;
        goes_on_from_what_was_kept::<StoredCount>(&rt, rt.alloc(), worked)?;
        is_read_back_at_each(&rt, rt.alloc(), worked)?;
    }
    Ok(())
}

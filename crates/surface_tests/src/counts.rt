//! The functions of `count`: both kinds of book, their stages, and what comes next.

ghost use Rattle.std.specs.Prelude.{◌≡◌, map, reverse, length, ◌<◌};
ghost use Rattle.count.specs.Books.{placed};
ghost use Rattle.count.specs.Bundles.{papers_of};
ghost use Rattle.count.specs.Law.Contest.{IsContest, contest_for};
ghost use Rattle.count.specs.Law.Places.{place as place_of};
ghost use Rattle.count.specs.Law.Right.{IsRight, IsRightForSome};

use count::{
    Action, AdvanceError, BundleBook, Bundles, CountBook, CountEnd, Due, Kind, ParcelBook, Placed,
    Stage, bundles_can_be_counted, can_be_counted, run_count,
};
use paper::{Columns, Prefs};
use std::alloc::{AllocError, Global};
use std::process::Abort;
use std::test::Fail;

fn stages<B: CountBook>(book: &B) -> &[Stage] {
    book.stages()
}

fn due<B: CountBook>(book: &B) -> Due {
    book.due()
}

fn advance<B: CountBook>(book: &mut B, lot: Option<u8>) -> Result<(), AdvanceError> {
    book.advance(lot)
}

fn run<B: CountBook>(book: &mut B, lots: &[(u8, u8)]) -> Result<CountEnd, AllocError>
    requires { IsRight (B.contest book.old) lots.now (B.history book.old) }
{
    run_count(book, lots)
}

fn resume<'a>(
    alloc: Global,
    candidates: Columns,
    seats: u8,
    bundles: &'a Bundles,
    places: &[Placed],
    stages: &[Stage],
) -> Result<BundleBook<'a>, AllocError>
    requires contest { IsContest (contest_for candidates seats (papers_of bundles.now)) }
    requires right { IsRightForSome (contest_for candidates seats (papers_of bundles.now)) (reverse stages.now) }
    requires places { places.now ≡ map (λ b. placed (place_of (contest_for candidates seats (papers_of bundles.now)) (reverse stages.now) b.0)) bundles.now }
{
    BundleBook::resume(alloc, candidates, seats, bundles, places, stages)
}

fn place(book: &BundleBook<'_>, i: usize) -> Placed
    requires { i < length book.now.bundles }
{
    book.place(i)
}

/// Returns the stage of a lot for a surplus, and the tied candidates.
fn tied_for_surplus(due: &Due) -> Option<(u8, Columns)> {
    match due {
        Due::Lot {
            stage,
            kind: Kind::Surplus,
            among,
        } => Some((*stage, *among)),
        _ => None,
    }
}

/// Returns the candidate that an action concerns; 0 if there is none.
fn candidate_of(action: Action) -> u8 {
    match action {
        Action::First => 0,
        Action::Surplus(c) => c,
        Action::Exclude(c) => c,
        Action::ExcludeLast(c) => c,
    }
}

/// Returns two candidates.
fn two() -> Columns {
    Columns::empty().with(1).with(2)
}

/// Returns how a count of the given papers ends with parcels, and how a count of no papers ends with bundles: with no
/// papers, each waits for a lot.
fn ends(rt: &impl Abort, alloc: Global, papers: &[Prefs]) -> Result<(CountEnd, CountEnd), Fail> {
    let candidates = two();
    assert!(rt; can_be_counted(&candidates, 1, papers));
    let mut by_parcels = ParcelBook::new(alloc, candidates, 1, papers)?;
    let bundles = Bundles::new(alloc);
    assert!(rt; bundles_can_be_counted(&candidates, 1, &bundles));
    let mut by_bundles = BundleBook::new(alloc, candidates, 1, &bundles)?;
    Ok((run(&mut by_parcels, &[])?, run(&mut by_bundles, &[])?))
}

/// Adds one paper, and returns the number of papers, the number of bundles, and the number of papers in the first bundle.
fn added(alloc: Global, paper: Prefs) -> Result<(u32, usize, u32), AllocError> {
    let mut bundles = Bundles::new(alloc);
    bundles.add(paper)?;
    let (papers, len) = (bundles.papers(), bundles.len());
    if len == 0 {
        return Ok((papers, len, 0));
    }
    let (_, equal) = bundles.get(0);
    Ok((papers, len, equal))
}

#[test]
fn counts_keep_their_calls(rt: HostRuntime) -> Result<(), Fail> {
    let (by_parcels, by_bundles) = ends(&rt, rt.alloc(), &[])?;
    let among = two();
    assert_eq!(&rt; by_parcels, CountEnd::LotNeeded { stage: 2, among });
    assert_eq!(&rt; by_bundles, by_parcels);
    let paper = Prefs::from_slice(&[2]).ok_or("no ranking")?;
    assert_eq!(&rt; added(rt.alloc(), paper)?, (1, 1, 1));
    assert_eq!(&rt; candidate_of(Action::Surplus(2)), 2);
    assert!(&rt; tied_for_surplus(&Due::Finished).is_none());
    Ok(())
}

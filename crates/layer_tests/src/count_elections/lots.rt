//! Lots passed to `advance`, and recorded lots.

ghost use Rattle.std.specs.Prelude.{◌≡◌, []};

use super::begun::{Counting, by_parcels};
use super::worked::{Worked, elections};
use crate::sheet_outputs::is_text;
use count::{
    Action, AdvanceError, CountBook, CountEnd, Due, TiedFor, count_to, due_by, dues_to, run_count,
};
use paper::Columns;
use std::alloc::Global;
use std::process::Abort;
use std::test::Fail;

/// Returns the election that needs a lot for an exclusion: four papers for candidate 1, two for 2, and two for 3.
fn tied() -> Result<&'static Worked, &'static str> {
    elections().get(4).ok_or("no such election")
}

/// Returns the lot that the tied election needs.
fn tied_lot() -> Due {
    Due::Lot {
        stage: 2,
        kind: TiedFor::Exclusion,
        among: Columns::empty().with(2).with(3),
    }
}

/// Lots passed to `advance` in turn, and the result of each call; some stages need no lot, or a different one.
const ADVANCES: [(Option<u8>, Result<(), AdvanceError>); 6] = [
    (Some(9), Ok(())),
    (None, Err(AdvanceError::LotNeeded)),
    (Some(1), Err(AdvanceError::LotNotAmong)),
    (Some(3), Ok(())),
    (None, Ok(())),
    (None, Err(AdvanceError::Finished)),
];

/// Checks the result of `advance` with the given lot.
fn answers<B: CountBook>(
    rt: &impl Abort,
    book: &mut B,
    lot: Option<u8>,
    answer: &Result<(), AdvanceError>,
) {
    assert!(rt; book.advance(lot) == *answer, "lot {lot:?}");
}

/// Checks the result of each call to `advance`, and that the count is then finished.
#[derive(Drop)]
struct TakesLots;

impl Counting for TakesLots {
    fn count<B: CountBook>(&self, rt: &impl Abort, book: &mut B) -> Result<(), Fail> {
        for (lot, answer) in &ADVANCES {
            answers(rt, book, *lot, answer);
        }
        assert!(rt; book.stages().len() == 3 && book.due() == Due::Finished);
        Ok(())
    }
}

#[test]
fn lots_are_asked_for(rt: HostRuntime) -> Result<(), Fail> {
    by_parcels(&rt, rt.alloc(), tied()?, &TakesLots)
}

/// Recorded lots, how a count with them ends, and what comes next after its second stage, if it has one.
type Recorded = (&'static [(u8, u8)], &'static str, Due);

/// The cases that are tested.
const LOTS: [Recorded; 4] = [
    (&[], "lot needed at 2", Due::Finished),
    (&[(3, 2)], "lot needed at 2", Due::Finished),
    (&[(2, 1)], "lot not among at 2", Due::Finished),
    (&[(2, 3)], "finished", Due::Act(Action::ExcludeLast(2))),
];

/// Returns how a count ended, in words.
fn end_text(end: CountEnd) -> &'static str {
    match end {
        CountEnd::Finished => "finished",
        CountEnd::LotNeeded { stage: 2, .. } => "lot needed at 2",
        CountEnd::LotNotAmong { stage: 2 } => "lot not among at 2",
        _ => "another end",
    }
}

/// Checks how a count with recorded lots ends.
#[derive(Drop)]
struct Ends<'a> {
    lots: &'a [(u8, u8)],
    end: &'a str,
}

impl<'a> Counting for Ends<'a> {
    fn count<B: CountBook>(&self, rt: &impl Abort, book: &mut B) -> Result<(), Fail> {
        let end = run_count(book, self.lots)?;
        is_text(rt, end_text(end), self.end);
        Ok(())
    }
}

/// Checks what comes next after the first stage of a count with recorded lots.
#[derive(Drop)]
struct DueSecond<'a> {
    lots: &'a [(u8, u8)],
    next: Due,
}

impl<'a> Counting for DueSecond<'a> {
    fn count<B: CountBook>(&self, rt: &impl Abort, book: &mut B) -> Result<(), Fail> {
        count_to(book, self.lots, 1)?;
        assert!(rt; due_by(book, self.lots) == self.next);
        Ok(())
    }
}

/// Checks what comes next before each of three stages and after them; `last` has the last two values, if the count
/// reaches them.
#[derive(Drop)]
struct DueAtEach<'a> {
    alloc: Global,
    lots: &'a [(u8, u8)],
    last: Option<[Due; 2]>,
}

impl<'a> Counting for DueAtEach<'a> {
    fn count<B: CountBook>(&self, rt: &impl Abort, book: &mut B) -> Result<(), Fail> {
        let told = dues_to(self.alloc, book, self.lots, 3)?;
        assert!(rt; are_due(&told, self.last));
        Ok(())
    }
}

/// Returns whether the given values of `Due` are the four expected ones: the first two in every case, and the last two
/// if they are given.
fn are_due(told: &[Due], last: Option<[Due; 2]>) -> bool {
    let first = [Due::Act(Action::First), tied_lot()];
    let ends = match last {
        Some(last) => told.ends_with(&last),
        None => true,
    };
    ends && told.starts_with(&first) && told.len() == 4
}

/// Checks how a count with recorded lots ends.
fn decide(
    rt: &impl Abort,
    alloc: Global,
    tied: &Worked,
    (lots, end, later): &Recorded,
) -> Result<(), Fail> {
    let (lots, end, comes_there) = (*lots, *end, *end == "finished");
    by_parcels(rt, alloc, tied, &Ends { lots, end })?;
    let drawn = Due::Act(Action::Exclude(3));
    let next = if comes_there { drawn } else { tied_lot() };
    by_parcels(rt, alloc, tied, &DueSecond { lots, next })?;
    let last = if comes_there {
        Some([*later, Due::Finished])
    } else {
        None
    };
    by_parcels(rt, alloc, tied, &DueAtEach { alloc, lots, last })
}

#[test]
fn recorded_lots_decide(rt: HostRuntime) -> Result<(), Fail> {
    let tied = tied()?;
    for case in &LOTS {
        decide(&rt, rt.alloc(), tied, case)?;
    }
    Ok(())
}

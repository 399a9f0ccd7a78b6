//! Counts resumed from their stored state.

use super::worked::{Expected, Worked};
use super::{bundles_of, first_columns, holds, record_one, with_all};
use count::{Due, NextStage, Placed, Stage, StoredCount};
use paper::Columns;
use std::alloc::Global;
use std::process::Abort;
use std::test::Fail;
use votes::{ONE_VOTE, Votes};

/// A stored count of a worked election. Tests are generic over it, so their proofs are short and don't depend on what is stored.
pub trait KeptCase: Sized {
    /// Returns the count before its first stage.
    fn begun(alloc: Global, worked: &Worked) -> Result<Self, Fail>;

    /// Returns the count after the next stage, resumed from what is stored, or `None` if there is no next stage.
    fn following(&self, alloc: Global, worked: &Worked) -> Result<Option<Self>, Fail>;

    /// Returns the most recent stage.
    fn newest(&self) -> Option<&Stage>;

    /// Returns the elected candidates.
    fn those_elected(&self) -> Columns;

    /// Returns whether nothing remains to be done.
    fn is_finished(&self, worked: &Worked) -> bool;
}

/// Returns the stored count after a stage.
fn resumed(alloc: Global, worked: &Worked, next: NextStage) -> Result<StoredCount, Fail> {
    let bundles = bundles_of(alloc, worked.papers)?;
    let NextStage { places, stages } = next;
    let candidates = first_columns(worked.candidates);
    match StoredCount::resume(candidates, worked.seats, bundles, places, stages) {
        Some(kept) => Ok(kept),
        None => Err(Fail::from("what was kept is of no count")),
    }
}

impl KeptCase for StoredCount {
    fn begun(alloc: Global, worked: &Worked) -> Result<Self, Fail> {
        let bundles = bundles_of(alloc, worked.papers)?;
        let candidates = first_columns(worked.candidates);
        Ok(StoredCount::begin(alloc, candidates, worked.seats, bundles)?)
    }

    fn following(&self, alloc: Global, worked: &Worked) -> Result<Option<Self>, Fail> {
        match self.next_stage(alloc, worked.lots)? {
            Some(next) => Ok(Some(resumed(alloc, worked, next)?)),
            None => Ok(None),
        }
    }

    fn newest(&self) -> Option<&Stage> {
        self.stages().last()
    }

    fn those_elected(&self) -> Columns {
        self.elected()
    }

    fn is_finished(&self, worked: &Worked) -> bool {
        matches!(self.due_by(worked.lots), Due::Finished)
    }
}

/// Checks that the most recent stage of a stored count is the expected one.
fn has_recorded<K: KeptCase>(rt: &impl Abort, worked: &Worked, kept: &K, expected: &Expected) {
    match kept.newest() {
        Some(stage) => record_one(rt, worked, stage, expected),
        None => holds(rt, worked, "the newest stage", false),
    }
}

/// Counts the next stage, which must be the expected one, with the given candidates elected after it.
fn gone_on<K: KeptCase + Drop>(
    rt: &impl Abort,
    alloc: Global,
    worked: &Worked,
    kept: &K,
    (expected, elected): (&Expected, Columns),
) -> Result<K, Fail> {
    let next = kept.following(alloc, worked)?.ok_or("no stage is due")?;
    has_recorded(rt, worked, &next, expected);
    holds(rt, worked, "those elected", next.those_elected() == elected);
    Ok(next)
}

/// Checks that nothing remains to be done.
fn is_at_its_end<K: KeptCase + Drop>(
    rt: &impl Abort,
    alloc: Global,
    worked: &Worked,
    kept: &K,
) -> Result<(), Fail> {
    holds(rt, worked, "nothing is due", kept.is_finished(worked));
    let is_last = kept.following(alloc, worked)?.is_none();
    holds(rt, worked, "no stage follows", is_last);
    Ok(())
}

/// Counts a worked election stage by stage, each resumed from what was stored after the preceding stage.
pub fn goes_on_from_what_was_kept<K: KeptCase + Drop>(
    rt: &impl Abort,
    alloc: Global,
    worked: &Worked,
) -> Result<(), Fail> {
    let mut kept = K::begun(alloc, worked)?;
    let mut elected = Columns::empty();
    for expected in worked.stages {
        elected = with_all(elected, expected.elected);
        kept = gone_on(rt, alloc, worked, &kept, (expected, elected))?;
    }
    is_at_its_end(rt, alloc, worked, &kept)
}

/// Returns whether a count with two papers in the given place can be resumed.
fn are_taken_up(alloc: Global, holder: u8, units: u64) -> Result<bool, Fail> {
    let bundles = bundles_of(alloc, &[(2, &[1])])?;
    let mut places = Vec::new(alloc);
    let value = Votes::from_units(units);
    places.push(Placed { holder, value })?;
    let kept = StoredCount::resume(first_columns(3), 1, bundles, places, Vec::new(alloc));
    Ok(kept.is_some())
}

/// The papers' holder, their value in units, and whether the count can be resumed.
const PLACES: [(u8, u64, bool); 3] = [
    (30, ONE_VOTE, true),
    (31, ONE_VOTE, false),
    (1, ONE_VOTE + 1, false),
];

#[test]
fn places_that_no_count_has_are_not_taken_up(rt: HostRuntime) -> Result<(), Fail> {
    for (holder, units, wanted) in &PLACES {
        let found = are_taken_up(rt.alloc(), *holder, *units)?;
        assert!(rt; found == *wanted, "{holder} {units}");
    }
    Ok(())
}

//! The status of a ward, its next step, and the overviews of all wards, based on the cached batches.

ghost use Rattle.std.specs.Prelude.{◌≡◌, [], ◌∷◌, ◌++◌, List, map, option_map, Some, IfOk};
ghost use Rattle.sqlite.specs.Held.{state};
ghost use Rattle.register.specs.Offices.{BatchEntry, OfficeState, WardEntry, ward_at, ward_entry};
ghost use Rattle.register.specs.Elections.{election_of};
ghost use Rattle.register.specs.Agreement.{batches_of};
ghost use Rattle.register.specs.Status.{status_at, status_entry, status_of};
ghost use Rattle.register.specs.NextSteps.{next_at, next_of, step_entry};
ghost use Rattle.register.specs.Tabulated.{IsCountedWard};
ghost use Rattle.store.specs.Overviews.{batch_view, ward_view, ward_view_of, ward_views};
ghost use Rattle.store.specs.Tallies.{IsTally};
ghost use Rattle.store.specs.Loads.{Loads, IsOpen};
ghost use Rattle.store.specs.Memories.{AreKnown, KnowsAll, StaysKnown, views_in, views_of, tally_at};

use crate::batch_cache::{CachedBatch, copy_overview};
use crate::overviews::batches::{BatchOverview, BatchStanding};
use crate::overviews::wards::WardOverview;
use crate::status::{Tally, both};
use crate::storage::Store;
use register::{CountedWard, NextStep, Phase, Status, Ward};
use sqlite::Alter;
use std::alloc::{AllocError, Global};
use tables::Fault;

/// Appends the overview of a batch to `found` if the batch belongs to the given ward.
fn put_own(
    alloc: Global,
    found: &mut Vec<BatchOverview>,
    one: &CachedBatch,
    ward: u32,
) -> Result<(), AllocError>
    ensures { IfOk result (λ _. map batch_view found.new.items ≡ map batch_view found.old.items ++ views_in (one.now ∷ []) ward) }
{
    if one.overview.batch.ward != ward {
        return Ok(());
    }
    found.push(copy_overview(alloc, &one.overview)?)?;
    Ok(())
}

/// Returns the overviews of a ward's batches, without their twins.
fn overviews_in(
    alloc: Global,
    known: &[CachedBatch],
    ward: u32,
) -> Result<Vec<BatchOverview>, AllocError>
    ensures { IfOk result (λ found. map batch_view found.items ≡ views_in known.now ward) }
{
    let mut found = Vec::new(alloc);
    for one in known {
        put_own(alloc, &mut found, one, ward)?;
    }
    Ok(found)
}

/// Returns the tally of a batch with the given overview.
fn tally_by(overview: &BatchOverview) -> Tally
    ensures { result ≡ tally_at overview.now.standing overview.now.doubtful_open }
{
    match overview.standing {
        BatchStanding::Taken => Tally {
            taken: 1,
            differing: 0,
            doubtful_open: overview.doubtful_open,
        },
        BatchStanding::Differing => Tally {
            taken: 0,
            differing: 1,
            doubtful_open: overview.doubtful_open,
        },
        BatchStanding::Waiting => Tally {
            taken: 0,
            differing: 0,
            doubtful_open: overview.doubtful_open,
        },
    }
}

/// Returns the tally of the batches with the given overviews.
fn tally_among(overviews: &[BatchOverview]) -> Tally
    ensures { (s : OfficeState) (bs : List BatchEntry) → map batch_view overviews.now ≡ views_of s bs → IsTally s bs result }
{
    let mut tally = Tally {
        taken: 0,
        differing: 0,
        doubtful_open: 0,
    };
    for overview in overviews {
        tally = both(tally, tally_by(overview));
    }
    tally
}

impl<S: Alter> Store<S> {
    /// Returns the status of a ward whose batches have the given overviews.
    fn status_by(&mut self, ward: &Ward, batches: &[BatchOverview]) -> Result<Status, Fault>
        ensures { Loads S.Store self.old self.new result (λ s found.
            map batch_view batches.now ≡ views_of s (batches_of s ward.now.number)
            → status_entry found ≡ status_of s (ward_entry ward.now)) }
    {
        let candidates = self.list_candidates(ward.number)?;
        let tally = tally_among(batches);
        Ok(Status {
            ward: ward.number,
            phase: ward.phase,
            candidates: candidates.len(),
            batches: batches.len(),
            taken: tally.taken,
            differing: tally.differing,
            doubtful_open: tally.doubtful_open,
            stages: ward.done,
        })
    }

    /// Returns the status of a ward, from the cached batches.
    fn ward_status_by(&mut self, known: &[CachedBatch], ward: &Ward) -> Result<Status, Fault>
        requires { IsOpen S.Store self.old }
        ensures { Loads S.Store self.old self.new result (λ s found. KnowsAll s known.now → status_entry found ≡ status_of s (ward_entry ward.now)) }
    {
        let Ok(batches) = overviews_in(self.allocator(), known, ward.number) else {
            return Err(Fault::Memory);
        };
        self.status_by(ward, &batches)
    }

    /// Returns the overview of a ward, from the cached batches.
    fn ward_overview_by(&mut self, known: &[CachedBatch], ward: Ward) -> Result<WardOverview, Fault>
        requires { IsOpen S.Store self.old }
        ensures { Loads S.Store self.old self.new result (λ s found. ward_at s ward.number ≡ Some (ward_entry ward) → KnowsAll s known.now → ward_view found ≡ ward_view_of s (ward_entry ward)) }
    {
        let status = self.ward_status_by(known, &ward)?;
        let declared = self.declared_in(&ward)?;
        Ok(WardOverview {
            ward,
            status,
            elected: declared.0,
            candidates: declared.1,
        })
    }

    /// Returns the overviews of the given wards, which are all the wards of an office, from the cached batches.
    fn ward_overviews_by(
        &mut self,
        known: &[CachedBatch],
        wards: Vec<Ward>,
    ) -> Result<Vec<WardOverview>, Fault>
        requires { IsOpen S.Store self.old }
        ensures { Loads S.Store self.old self.new result (λ s found. map ward_entry wards.items ≡ s.wards → KnowsAll s known.now → map ward_view found.items ≡ ward_views s) }
    {
        let mut found = Vec::new(self.allocator());
        for ward in wards {
            let overview = self.ward_overview_by(known, ward)?;
            if found.push(overview).is_err() {
                return Err(Fault::Memory);
            }
        }
        Ok(found)
    }

    /// Returns the same result as `load_wards`, from the cache, after refreshing it.
    pub(crate) fn wards_with(
        &mut self,
        known: &mut Vec<CachedBatch>,
    ) -> Result<Vec<WardOverview>, Fault>
        ensures loads { Loads S.Store self.old self.new result (λ s found. AreKnown s known.old.items → map ward_view found.items ≡ ward_views s) }
        ensures stays { StaysKnown (state S.Store self.old) (state S.Store self.new) known.old.items known.new.items }
    {
        self.refresh(known)?;
        let wards = self.all_wards()?;
        let found = self.ward_overviews_by(known, wards)?;
        Ok(found)
    }

    /// Returns the status of the ward with the given number, if there is one, from the cached batches.
    fn status_at_by(&mut self, known: &[CachedBatch], ward: u32) -> Result<Option<Status>, Fault>
        ensures { Loads S.Store self.old self.new result (λ s found. KnowsAll s known.now → option_map status_entry found ≡ status_at s ward) }
    {
        let found = self.find_ward(ward)?;
        match found {
            Some(ward) => {
                let status = self.ward_status_by(known, &ward)?;
                Ok(Some(status))
            }
            None => Ok(None),
        }
    }

    /// Returns the same result as `load_status`, from the cache, after refreshing it.
    pub(crate) fn status_with(
        &mut self,
        known: &mut Vec<CachedBatch>,
        ward: u32,
    ) -> Result<Option<Status>, Fault>
        ensures loads { Loads S.Store self.old self.new result (λ s found. AreKnown s known.old.items → option_map status_entry found ≡ status_at s ward) }
        ensures stays { StaysKnown (state S.Store self.old) (state S.Store self.new) known.old.items known.new.items }
    {
        self.refresh(known)?;
        let found = self.status_at_by(known, ward)?;
        Ok(found)
    }

    /// Returns the next step in the given ward, which was found with its count, from the cached batches.
    fn step_by(&mut self, known: &[CachedBatch], found: CountedWard) -> Result<NextStep, Fault>
        requires { IsOpen S.Store self.old }
        ensures { Loads S.Store self.old self.new result (λ s step. (w : WardEntry) → IsCountedWard (election_of s w) found → KnowsAll s known.now → step_entry step ≡ next_of s w) }
    {
        match found.ward.phase {
            Phase::Keying => {
                let status = self.ward_status_by(known, &found.ward)?;
                Ok(NextStep::Papers(status))
            }
            Phase::Nominations | Phase::Sealed | Phase::Declared => self.step_in(found),
        }
    }

    /// Returns the next step in the ward with the given number, if there is one, from the cached batches.
    fn next_by(&mut self, known: &[CachedBatch], ward: u32) -> Result<Option<NextStep>, Fault>
        ensures { Loads S.Store self.old self.new result (λ s found. KnowsAll s known.now → option_map step_entry found ≡ next_at s ward) }
    {
        let found = self.load_counted(ward)?;
        match found {
            Some(counted) => {
                let step = self.step_by(known, counted)?;
                Ok(Some(step))
            }
            None => Ok(None),
        }
    }

    /// Returns the same result as `load_next`, from the cache, after refreshing it.
    pub(crate) fn next_with(
        &mut self,
        known: &mut Vec<CachedBatch>,
        ward: u32,
    ) -> Result<Option<NextStep>, Fault>
        ensures loads { Loads S.Store self.old self.new result (λ s found. AreKnown s known.old.items → option_map step_entry found ≡ next_at s ward) }
        ensures stays { StaysKnown (state S.Store self.old) (state S.Store self.new) known.old.items known.new.items }
    {
        self.refresh(known)?;
        let found = self.next_by(known, ward)?;
        Ok(found)
    }
}

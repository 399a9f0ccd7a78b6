//! A count that resumes from stored data.

ghost use Rattle.std.specs.Prelude.{◌≡◌, ◌+◌, ◌*◌, ◌<◌, ◌≤◌, ◌↔◌, [], reverse, length, IfOk, IfSome, IsSome, IsTrue};
ghost use Rattle.std.specs.List.{AllByRecursion};
ghost use Rattle.votes.specs.Units.{one_vote, max_units};
ghost use Rattle.count.specs.Bundles.{bundled, papers_of};
ghost use Rattle.count.specs.StoredCounts.{IsStoredCountOf, places_after};
ghost use Rattle.count.specs.Law.Contest.{Contest, History, IsContest};
ghost use Rattle.count.specs.Law.Count.{with_next, due_by as due_by_lots};
ghost use Rattle.count.specs.Law.Due.{next_action as next_action_of};
ghost use Rattle.count.specs.Law.Elected.{elected_after};
ghost use Rattle.count.specs.Inside.Holdings.{newest_lost as newest_lost_of};
ghost use Rattle.count.specs.Inside.Placing.{IsSound};

use crate::bundle_act::acted_on_bundles;
use crate::bundles::Bundles;
use crate::due::{due_with, elected_with, next_action};
use crate::parcel_figures::newest_lost;
use crate::placed::Placed;
use crate::places::no_places;
use crate::stages::{Due, Stage};
use crate::terms::{Terms, terms_on};
use paper::{Columns, MAX_CANDIDATES};
use std::alloc::{AllocError, Global};
use std::marker::Model;
use votes::ONE_VOTE;

/// The outcome of adding a stage.
#[derive(Drop)]
pub struct NextStage {
    /// The place of each bundle after the stage, in the order of the bundles.
    pub places: Vec<Placed>,
    /// All stages, the new one last.
    pub stages: Vec<Stage>,
}

/// A stored count, from which counting resumes: its bundles, their places, and the stages so far. No stage is counted again. Faulty
/// storage may return anything, so only the ranges of the stored data are required, and these are checked. The results are correct
/// if the stored data is that of a count.
#[derive(Drop)]
pub struct StoredCount {
    terms: Terms,
    bundles: Bundles,
    places: Vec<Placed>,
    stages: Vec<Stage>,
}

impl Model for StoredCount {
    ghost use Rattle.count.specs.StoredCounts.{StoredCountEntry};
    ghost use Rattle.count.specs.Inside.Resuming.{IsInRange};

    ghost Value = { StoredCountEntry };

    ghost view = { λ a. record { candidates = a.terms.candidates; seats = a.terms.seats; bundles = a.bundles; places = a.places.items; stages = a.stages.items } };

    ghost invariant = { λ a. IsInRange a.terms a.bundles a.places.items a.stages.items };
}

impl StoredCount {
    /// Returns a count before its first stage, in which the bundles have no holder and no value.
    pub fn begin(
        alloc: Global,
        candidates: Columns,
        seats: u8,
        bundles: Bundles,
    ) -> Result<StoredCount, AllocError>
        ensures is { IfOk result (λ kept. (contest : Contest) → IsContest contest → contest.candidates ≡ candidates
            → contest.seats ≡ seats → bundles ≡ bundled contest.papers → IsStoredCountOf contest [] kept) }
    {
        let places = no_places(alloc, &bundles)?;
        Ok(StoredCount {
            terms: terms_on(candidates, seats, &bundles),
            bundles,
            places,
            stages: Vec::new(alloc),
        })
    }

    /// Returns a stored count, or `None` if its data is out of range for any count. This means more stages than a count can have, a
    /// holder above `MAX_CANDIDATES`, a value above one vote, or a loss at the newest stage above one vote per paper. Allocates
    /// nothing.
    pub fn resume(
        candidates: Columns,
        seats: u8,
        bundles: Bundles,
        places: Vec<Placed>,
        stages: Vec<Stage>,
    ) -> Option<StoredCount>
        ensures is { IfSome result (λ kept. kept ≡ record { candidates = candidates; seats = seats; bundles = bundles; places = places.items; stages = stages.items }) }
        ensures some { (contest : Contest) (history : History)
            → IsStoredCountOf contest history (record { candidates = candidates; seats = seats; bundles = bundles; places = places.items; stages = stages.items }) → IsSome result }
    {
        let terms = terms_on(candidates, seats, &bundles);
        if !is_in_range(&candidates, &bundles, &places, &stages) {
            return None;
        }
        Some(StoredCount {
            terms,
            bundles,
            places,
            stages,
        })
    }

    /// Returns the candidates.
    pub fn candidates(&self) -> Columns
        ensures { result ≡ self.now.candidates }
    {
        self.terms.candidates
    }

    /// Returns the bundles.
    pub fn bundles(&self) -> &Bundles
        ensures { result.now ≡ self.now.bundles }
    {
        &self.bundles
    }

    /// Returns the place of each bundle, in the order of the bundles.
    pub fn places(&self) -> &[Placed]
        ensures { result.now ≡ self.now.places }
    {
        &self.places
    }

    /// Returns the stages so far.
    pub fn stages(&self) -> &[Stage]
        ensures { result.now ≡ self.now.stages }
    {
        &self.stages
    }

    /// Returns what is due given the recorded lots: the next action, or the lot that the count is waiting for, or nothing.
    pub fn due_by(&self, lots: &[(u8, u8)]) -> Due
        ensures { (contest : Contest) (history : History) → IsStoredCountOf contest history self.now → result ≡ due_by_lots contest lots.now history }
    {
        due_with(&self.terms, &self.stages, lots)
    }

    /// Returns the elected candidates.
    pub fn elected(&self) -> Columns
        ensures { (contest : Contest) (history : History) → IsStoredCountOf contest history self.now → result ≡ elected_after contest history }
    {
        elected_with(&self.terms, &self.stages)
    }

    /// Returns the outcome of the stage that is due given the recorded lots. That stage is the only one that can follow. `None`
    /// if and only if no action is due. `AllocError` if an allocation fails.
    pub fn next_stage(
        &self,
        alloc: Global,
        lots: &[(u8, u8)],
    ) -> Result<Option<NextStage>, AllocError>
        ensures is { IfOk result (λ found. IfSome found (λ next. (contest : Contest) (history : History) → IsStoredCountOf contest history self.now
            → (next.places.items ≡ places_after contest (with_next contest lots.now history) self.now.bundles) × (next.stages.items ≡ reverse (with_next contest lots.now history)))) }
        ensures some { IfOk result (λ found. (contest : Contest) (history : History) → IsStoredCountOf contest history self.now → IsSome found ↔ IsSome (next_action_of contest lots.now history)) }
    {
        match next_action(&self.terms, &self.stages, lots) {
            None => Ok(None),
            Some(action) => {
                let (places, stages) = acted_on_bundles(
                    alloc,
                    &self.terms,
                    &self.bundles,
                    &self.places,
                    &self.stages,
                    &action,
                )?;
                Ok(Some(NextStage { places, stages }))
            }
        }
    }
}

/// Returns whether the holder is a possible candidate number or 0, and the value is at most one vote.
fn is_sound(at: &Placed) -> bool
    ensures { IsTrue result ↔ IsSound at.now }
{
    usize::from(at.holder) <= MAX_CANDIDATES && at.value.units() <= ONE_VOTE
}

/// Returns whether all places are sound.
fn are_sound(places: &[Placed]) -> bool
    ensures { IsTrue result ↔ AllByRecursion IsSound places.now }
{
    for at in places {
        if !is_sound(at) {
            return false;
        }
    }
    true
}

/// Returns whether stored data is in range for a count with the given candidates and bundles: its places are sound, there are no
/// more stages than possible, and the loss is at most one vote per paper.
fn is_in_range(candidates: &Columns, bundles: &Bundles, places: &[Placed], stages: &[Stage]) -> bool
    ensures sound { IsTrue result → AllByRecursion IsSound places.now }
    ensures few { IsTrue result → length stages.now < 255 }
    ensures lost { IsTrue result → newest_lost_of (reverse stages.now) ≤ max_units }
    ensures when { AllByRecursion IsSound places.now → length stages.now ≤ length candidates.now + 1
        → newest_lost_of (reverse stages.now) ≤ one_vote * length (papers_of bundles.now) → IsTrue result }
{
    if stages.len() > candidates.len() + 1 {
        return false;
    }
    if newest_lost(stages) > ONE_VOTE * u64::from(bundles.papers()) {
        return false;
    }
    are_sound(places)
}

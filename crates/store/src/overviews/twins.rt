//! Twins: batches that are taken with exactly the same papers, found from the cached batches. The papers of two batches
//! are read and compared only if their checksums are equal.

ghost use Rattle.std.specs.Prelude.{◌≡◌, ◌++◌, true, map, find, Some, List, ℕ, option_map, string_bytes, IfOk};
ghost use Rattle.std.specs.Option.{option_to_list};
ghost use Rattle.std.specs.Str.{bytes_eq};
ghost use Rattle.sqlite.specs.Held.{state};
ghost use Rattle.register.specs.Offices.{BatchEntry, batch_entry};
ghost use Rattle.register.specs.Agreement.{is_taken};
ghost use Rattle.store.specs.Overviews.{batch_view, batch_view_of, batch_views, batch_views_at, is_twin, pile_in, pile_text_of, twin_of};
ghost use Rattle.store.specs.Loads.{Loads, IsOpen};
ghost use Rattle.store.specs.Memories.{batch_view_in, row_of, same_sum, may_be_twin, AreKnown, IsKnown, KnowsAll, StaysKnown};

use crate::batch_cache::{CachedBatch, copy_overview};
use crate::overviews::batches::BatchOverview;
use crate::storage::Store;
use register::Batch;
use sqlite::Alter;
use std::alloc::AllocError;
use tables::Fault;

/// Returns whether both checksums exist and are equal.
fn same_sum(one: Option<u64>, other: Option<u64>) -> bool
    ensures { result ≡ same_sum one other }
{
    match (one, other) {
        (Some(one), Some(other)) => one == other,
        (Some(_), None) | (None, _) => false,
    }
}

/// Returns whether two batches may be twins, judging by their cache entries.
fn may_be_twin(one: &CachedBatch, other: &CachedBatch) -> bool
    ensures { result ≡ may_be_twin one.now other.now }
{
    (other.overview.batch.number != one.overview.batch.number) & same_sum(one.pile, other.pile)
}

/// Returns whether both texts exist and are equal.
fn same_texts(one: &Option<String>, other: &Option<String>) -> bool
    ensures { (a b : List ℕ) → option_map string_bytes one.now ≡ Some a → option_map string_bytes other.now ≡ Some b → result ≡ bytes_eq a b }
{
    match (one, other) {
        (Some(one), Some(other)) => one.as_str() == other.as_str(),
        (Some(_), None) | (None, _) => false,
    }
}

/// Appends an overview to others if there is one to append.
fn put_some(
    found: &mut Vec<BatchOverview>,
    overview: Option<BatchOverview>,
) -> Result<(), AllocError>
    ensures { IfOk result (λ _. map batch_view found.new.items ≡ map batch_view found.old.items ++ option_to_list (option_map batch_view overview)) }
{
    match overview {
        Some(overview) => {
            found.push(overview)?;
            Ok(())
        }
        None => Ok(()),
    }
}

impl<S: Alter> Store<S> {
    /// Returns the agreed papers of a batch, as one text; `None` if the batch isn't taken.
    fn pile_of(&mut self, batch: &Batch) -> Result<Option<String>, Fault>
        ensures { Loads S.Store self.old self.new result (λ s found. option_map string_bytes found ≡ pile_in s (batch_entry batch.now)) }
    {
        let keyings = self.keyings_of(batch)?;
        let papers = self.pile_in(batch, &keyings)?;
        Ok(papers)
    }

    /// Returns whether two taken batches have the same papers and their wards have the same candidate numbers.
    fn have_same_papers(&mut self, one: &Batch, other: &Batch) -> Result<bool, Fault>
        ensures { Loads S.Store self.old self.new result (λ s found. is_taken s (batch_entry one.now) ≡ true → is_taken s (batch_entry other.now) ≡ true
            → found ≡ bytes_eq (pile_text_of s (batch_entry one.now)) (pile_text_of s (batch_entry other.now))) }
    {
        let own = self.pile_of(one)?;
        let others = self.pile_of(other)?;
        Ok(same_texts(&own, &others))
    }

    /// Returns whether another batch is a twin of a taken batch. The cache entries of both are compared first.
    fn is_twin(&mut self, one: &CachedBatch, other: &CachedBatch) -> Result<bool, Fault>
        requires { IsOpen S.Store self.old }
        ensures { Loads S.Store self.old self.new result (λ s found. IsKnown s one.now → is_taken s (row_of one.now) ≡ true → IsKnown s other.now
            → found ≡ is_twin s (row_of one.now) (row_of other.now)) }
    {
        if !may_be_twin(one, other) {
            return Ok(false);
        }
        let same = self.have_same_papers(&one.overview.batch, &other.overview.batch)?;
        Ok(same)
    }

    /// Returns the number of the first batch in `known` that is a twin of the given taken batch.
    fn find_twin(&mut self, known: &[CachedBatch], one: &CachedBatch) -> Result<Option<u32>, Fault>
        requires { IsOpen S.Store self.old }
        ensures { Loads S.Store self.old self.new result (λ s found. IsKnown s one.now → is_taken s (row_of one.now) ≡ true → AreKnown s known.now
            → found ≡ option_map (λ (b : BatchEntry). b.number) (find (is_twin s (row_of one.now)) (map row_of known.now))) }
    {
        for other in known {
            let is_twin = self.is_twin(one, other)?;
            if is_twin {
                return Ok(Some(other.overview.batch.number));
            }
        }
        Ok(None)
    }

    /// Returns the number of a batch's twin, if it has one, from the cached batches.
    fn twin_of(&mut self, known: &[CachedBatch], one: &CachedBatch) -> Result<Option<u32>, Fault>
        requires { IsOpen S.Store self.old }
        ensures { Loads S.Store self.old self.new result (λ s found. KnowsAll s known.now → IsKnown s one.now → found ≡ twin_of s (row_of one.now)) }
    {
        match one.pile {
            Some(_) => self.find_twin(known, one),
            None => Ok(None),
        }
    }

    /// Returns the overview of a batch with its twin, from the cached batches.
    fn with_twin(
        &mut self,
        known: &[CachedBatch],
        one: &CachedBatch,
    ) -> Result<BatchOverview, Fault>
        requires { IsOpen S.Store self.old }
        ensures { Loads S.Store self.old self.new result (λ s found. KnowsAll s known.now → IsKnown s one.now → batch_view found ≡ batch_view_of s (row_of one.now)) }
    {
        let twin = self.twin_of(known, one)?;
        match copy_overview(self.allocator(), &one.overview) {
            Ok(overview) => Ok(BatchOverview { twin, ..overview }),
            Err(_) => Err(Fault::Memory),
        }
    }

    /// Returns the result of `with_twin` if the batch belongs to the given ward, otherwise `None`.
    fn with_twin_in(
        &mut self,
        known: &[CachedBatch],
        one: &CachedBatch,
        ward: u32,
    ) -> Result<Option<BatchOverview>, Fault>
        requires { IsOpen S.Store self.old }
        ensures { Loads S.Store self.old self.new result (λ s found. KnowsAll s known.now → IsKnown s one.now
            → option_map batch_view found ≡ batch_view_in s ward (row_of one.now)) }
    {
        if one.overview.batch.ward != ward {
            return Ok(None);
        }
        let overview = self.with_twin(known, one)?;
        Ok(Some(overview))
    }

    /// Returns the overviews of the batches of a ward, from the cached batches.
    fn ward_batches_by(
        &mut self,
        known: &[CachedBatch],
        ward: u32,
    ) -> Result<Vec<BatchOverview>, Fault>
        requires { IsOpen S.Store self.old }
        ensures { Loads S.Store self.old self.new result (λ s found. KnowsAll s known.now → map batch_view found.items ≡ batch_views s ward) }
    {
        let mut found = Vec::new(self.allocator());
        for one in known {
            let overview = self.with_twin_in(known, one, ward)?;
            let Ok(()) = put_some(&mut found, overview) else {
                return Err(Fault::Memory);
            };
        }
        Ok(found)
    }

    /// Returns the overviews of the batches of the ward with the given number, ordered by batch number, from the cached
    /// batches; `None` if there is no such ward.
    fn batches_by(
        &mut self,
        known: &[CachedBatch],
        ward: u32,
    ) -> Result<Option<Vec<BatchOverview>>, Fault>
        ensures { Loads S.Store self.old self.new result (λ s found. KnowsAll s known.now
            → option_map (λ batches. map batch_view batches.items) found ≡ batch_views_at s ward) }
    {
        let found = self.find_ward(ward)?;
        match found {
            Some(ward) => {
                let batches = self.ward_batches_by(known, ward.number)?;
                Ok(Some(batches))
            }
            None => Ok(None),
        }
    }

    /// Returns the same result as `load_batches`, from the cache, after refreshing it.
    pub(crate) fn batches_with(
        &mut self,
        known: &mut Vec<CachedBatch>,
        ward: u32,
    ) -> Result<Option<Vec<BatchOverview>>, Fault>
        ensures loads { Loads S.Store self.old self.new result (λ s found. AreKnown s known.old.items
            → option_map (λ batches. map batch_view batches.items) found ≡ batch_views_at s ward) }
        ensures stays { StaysKnown (state S.Store self.old) (state S.Store self.new) known.old.items known.new.items }
    {
        self.refresh(known)?;
        let found = self.batches_by(known, ward)?;
        Ok(found)
    }
}

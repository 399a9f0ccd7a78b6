//! The cache of batches, refreshed from the tables.

ghost use Rattle.std.specs.Prelude.{◌≡◌, map, option_map, string_bytes};
ghost use Rattle.sqlite.specs.Held.{state};
ghost use Rattle.register.specs.Offices.{batch_entry};
ghost use Rattle.store.specs.Overviews.{batch_view};
ghost use Rattle.store.specs.Loads.{Loads, IsOpen};
ghost use Rattle.store.specs.Memories.{checksum, known_of, known_view, AreKnown, KnowsAll, StaysKnown};

use crate::batch_cache::{CachedBatch, checksum_of, copy_known, known_at, next_place};
use crate::overviews::batches::BatchOverview;
use crate::storage::Store;
use register::Batch;
use sqlite::Alter;
use tables::Fault;

/// Returns the cache entry of a batch with the given overview and, if it is taken, the given papers.
fn known_with(overview: BatchOverview, papers: &Option<String>) -> CachedBatch
    ensures { known_view result ≡ record { view = batch_view overview; pile = option_map checksum (option_map string_bytes papers.now) } }
{
    CachedBatch {
        overview,
        pile: checksum_of(papers),
    }
}

impl<S: Alter> Store<S> {
    /// Reads the cache entry of a batch from the tables.
    fn read_known(&mut self, batch: Batch) -> Result<CachedBatch, Fault>
        ensures { Loads S.Store self.old self.new result (λ s found. known_view found ≡ known_of s (batch_entry batch)) }
    {
        let keyings = self.keyings_of(&batch)?;
        let papers = self.pile_in(&batch, &keyings)?;
        let overview = self.batch_overview(batch, &keyings)?;
        Ok(known_with(overview, &papers))
    }

    /// Returns a copy of a batch's cache entry if it is at the given index; otherwise reads the entry.
    fn known_or_read(
        &mut self,
        known: &[CachedBatch],
        place: usize,
        batch: Batch,
    ) -> Result<CachedBatch, Fault>
        requires { IsOpen S.Store self.old }
        ensures { Loads S.Store self.old self.new result (λ s found. AreKnown s known.now → known_view found ≡ known_of s (batch_entry batch)) }
    {
        let Some(one) = known_at(known, place, &batch) else {
            return self.read_known(batch);
        };
        match copy_known(self.allocator(), one) {
            Ok(copy) => Ok(copy),
            Err(_) => Err(Fault::Memory),
        }
    }

    /// Returns the cache entries of the given batches in the same order, reading those that are missing.
    fn all_known(
        &mut self,
        known: &[CachedBatch],
        batches: Vec<Batch>,
    ) -> Result<Vec<CachedBatch>, Fault>
        requires { IsOpen S.Store self.old }
        ensures { Loads S.Store self.old self.new result (λ s found. AreKnown s known.now → map known_view found.items ≡ map (known_of s) (map batch_entry batches.items)) }
    {
        let mut found = Vec::new(self.allocator());
        let mut place = 0;
        for batch in batches {
            place = next_place(known, place, batch.number);
            let one = self.known_or_read(known, place, batch)?;
            if found.push(one).is_err() {
                return Err(Fault::Memory);
            }
        }
        Ok(found)
    }

    /// Returns the cache entry of every batch: the existing one, or else one newly read.
    fn refreshed(&mut self, known: &[CachedBatch]) -> Result<Vec<CachedBatch>, Fault>
        ensures { Loads S.Store self.old self.new result (λ s found. AreKnown s known.now → KnowsAll s found.items) }
    {
        let batches = self.all_batches()?;
        let found = self.all_known(known, batches)?;
        Ok(found)
    }

    /// Refreshes the cache so that it contains every batch. Reads the rows of all batches, and the papers of those that
    /// weren't cached.
    pub(crate) fn refresh(&mut self, known: &mut Vec<CachedBatch>) -> Result<(), Fault>
        ensures refreshes { Loads S.Store self.old self.new result (λ s _. AreKnown s known.old.items → KnowsAll s known.new.items) }
        ensures stays { StaysKnown (state S.Store self.old) (state S.Store self.new) known.old.items known.new.items }
    {
        let found = self.refreshed(known)?;
        *known = found;
        Ok(())
    }
}

//! Overviews of the batches of a ward, read from the tables.

ghost use Rattle.std.specs.Prelude.{◌≡◌, ℕ, map, option_map, None, IfOk, IfErr, string_bytes};
ghost use Rattle.register.specs.Offices.{OfficeState, batch_entry, judged_entry};
ghost use Rattle.tables.specs.declared.fault.Fault.{Fault};
ghost use Rattle.store.specs.Keyings.{keyings_by};
ghost use Rattle.store.specs.Overviews.{standing_by, clerk_view, pile_in, batch_view, batch_view_with, batch_views, batch_views_at};
ghost use Rattle.store.specs.Piles.{KeyingsAre, view_by, read_view, read_view_of, overview_in};
ghost use Rattle.store.specs.Loads.{Loads, IsOpen};

use crate::overviews::clerks::{ClerkOverview, clerk_list};
use crate::overviews::piles::{ReadBatch, all_paired, numbers_by_pile, pile_text};
use crate::storage::Store;
use crate::views::papers::Keyings;
use register::agreement::{clerks_of, count_open, is_keyed};
use register::marks::columns_of;
use register::{Batch, JudgedPaper};
use sqlite::Alter;
use std::alloc::Global;
use tables::Fault;

/// The standing of a batch, based on the keyings of its current round.
#[derive(Clone, Copy, PartialEq, Eq)]
pub enum BatchStanding {
    /// Two of the keyings are equal.
    Taken,
    /// There are at least two keyings, no two of which are equal.
    Differing,
    /// There are fewer than two keyings.
    Waiting,
}

/// A batch, with its two or three clerks ordered by number; its standing; and, once it is taken, how many of its
/// doubtful papers have no verdict. `twin` is the number of the first other batch that is taken with exactly the same
/// papers and whose ward has the same candidate numbers.
#[derive(Drop)]
pub struct BatchOverview {
    pub batch: Batch,
    pub clerks: Vec<ClerkOverview>,
    pub standing: BatchStanding,
    pub doubtful_open: usize,
    pub twin: Option<u32>,
}

/// Returns the standing of a batch with the given keyings of its current round.
fn standing_by(keyings: &Keyings) -> BatchStanding
    ensures { result ≡ standing_by (keyings_by keyings.now) }
{
    if is_keyed(keyings.agreed()) {
        BatchStanding::Taken
    } else if keyings.differ() {
        BatchStanding::Differing
    } else {
        BatchStanding::Waiting
    }
}

/// Returns the overview of a batch, without its twin, from its clerks, its keyings and the verdicts on its papers.
fn overview_by(
    batch: Batch,
    clerks: Vec<ClerkOverview>,
    keyings: &Keyings,
    verdicts: &[JudgedPaper],
) -> BatchOverview
    ensures { batch_view result ≡ view_by (batch_entry batch) (map clerk_view clerks.items) (keyings_by keyings.now) (map judged_entry verdicts.now) }
{
    BatchOverview {
        batch,
        clerks,
        standing: standing_by(keyings),
        doubtful_open: count_open(keyings.agreed(), verdicts),
        twin: None,
    }
}

/// Returns the overviews of a ward's batches, from the data read for all batches. The only error is `Memory`.
fn overviews_among(alloc: Global, read: Vec<ReadBatch>) -> Result<Vec<BatchOverview>, Fault>
    ensures is { IfOk result (λ found. (s : OfficeState) (ward : ℕ) → map read_view read.items ≡ map (read_view_of s ward) s.batches → map batch_view found.items ≡ batch_views s ward) }
    ensures cause { IfErr result (λ f. f ≡ Fault.Memory) }
{
    let Ok(numbers) = numbers_by_pile(alloc, &read) else {
        return Err(Fault::Memory);
    };
    let Ok(found) = all_paired(alloc, &numbers, read) else {
        return Err(Fault::Memory);
    };
    Ok(found)
}

impl<S: Alter> Store<S> {
    /// Returns the overview of a batch with the given keyings, without its twin.
    pub(crate) fn batch_overview(
        &mut self,
        batch: Batch,
        keyings: &Keyings,
    ) -> Result<BatchOverview, Fault>
        requires { IsOpen S.Store self.old }
        ensures { Loads S.Store self.old self.new result (λ s found. KeyingsAre s (batch_entry batch) keyings.now → batch_view found ≡ batch_view_with s (batch_entry batch) None) }
    {
        let Ok(numbers) = clerk_list(self.allocator(), clerks_of(&batch, &keyings.third_clerk))
        else {
            return Err(Fault::Memory);
        };
        let clerks = self.clerk_overviews(&batch, &numbers)?;
        let verdicts = self.list_verdicts(batch.number)?;
        Ok(overview_by(batch, clerks, keyings, &verdicts))
    }

    /// Returns the overview of a batch in the given ward; `None` for a batch in any other ward.
    fn overview_in(
        &mut self,
        batch: Batch,
        keyings: &Keyings,
        ward: u32,
    ) -> Result<Option<BatchOverview>, Fault>
        requires { IsOpen S.Store self.old }
        ensures { Loads S.Store self.old self.new result (λ s found. KeyingsAre s (batch_entry batch) keyings.now → option_map batch_view found ≡ overview_in s ward (batch_entry batch)) }
    {
        if batch.ward != ward {
            return Ok(None);
        }
        let overview = self.batch_overview(batch, keyings)?;
        Ok(Some(overview))
    }

    /// Returns the agreed papers of a batch with the given keyings, as one text; `None` if the batch isn't taken.
    pub(crate) fn pile_in(
        &mut self,
        batch: &Batch,
        keyings: &Keyings,
    ) -> Result<Option<String>, Fault>
        requires { IsOpen S.Store self.old }
        ensures { Loads S.Store self.old self.new result (λ s found. KeyingsAre s (batch_entry batch.now) keyings.now → option_map string_bytes found ≡ pile_in s (batch_entry batch.now)) }
    {
        let papers = keyings.agreed();
        if !is_keyed(papers) {
            return Ok(None);
        }
        let candidates = self.list_candidates(batch.ward)?;
        let Ok(text) = pile_text(self.allocator(), &columns_of(&candidates), papers) else {
            return Err(Fault::Memory);
        };
        Ok(Some(text))
    }

    /// Reads the data about a batch that the overviews of the given ward need.
    fn read_batch(&mut self, batch: Batch, ward: u32) -> Result<ReadBatch, Fault>
        ensures { Loads S.Store self.old self.new result (λ s found. read_view found ≡ read_view_of s ward (batch_entry batch)) }
    {
        let number = batch.number;
        let keyings = self.keyings_of(&batch)?;
        let pile = self.pile_in(&batch, &keyings)?;
        let overview = self.overview_in(batch, &keyings, ward)?;
        Ok(ReadBatch {
            number,
            pile,
            overview,
        })
    }

    /// Reads the given batches in order, each as `read_batch` does.
    fn read_batches(&mut self, batches: Vec<Batch>, ward: u32) -> Result<Vec<ReadBatch>, Fault>
        requires { IsOpen S.Store self.old }
        ensures { Loads S.Store self.old self.new result (λ s found. map read_view found.items ≡ map (read_view_of s ward) (map batch_entry batches.items)) }
    {
        let mut found = Vec::new(self.allocator());
        for batch in batches {
            let read = self.read_batch(batch, ward)?;
            if found.push(read).is_err() {
                return Err(Fault::Memory);
            }
        }
        Ok(found)
    }

    /// Returns the overviews of the batches of a ward.
    fn ward_batches(&mut self, ward: u32) -> Result<Vec<BatchOverview>, Fault>
        ensures { Loads S.Store self.old self.new result (λ s found. map batch_view found.items ≡ batch_views s ward) }
    {
        let batches = self.all_batches()?;
        let read = self.read_batches(batches, ward)?;
        let found = overviews_among(self.allocator(), read)?;
        Ok(found)
    }

    /// Returns the overviews of the batches of the ward with the given number, ordered by batch number; `None` if there
    /// is no such ward. The batches of all wards are read once, one after another, each with its keyings of the current
    /// round, because a batch's twin may belong to another ward. The papers of taken batches are held in memory as
    /// texts, which are compared to find twins. Changes nothing, and doesn't add to the states that a stop may leave
    /// behind. Returns `Memory` or `Store` if a row can't be read.
    pub fn load_batches(&mut self, ward: u32) -> Result<Option<Vec<BatchOverview>>, Fault>
        ensures { Loads S.Store self.old self.new result (λ s found. option_map (λ batches. map batch_view batches.items) found ≡ batch_views_at s ward) }
    {
        let found = self.find_ward(ward)?;
        match found {
            Some(ward) => {
                let batches = self.ward_batches(ward.number)?;
                Ok(Some(batches))
            }
            None => Ok(None),
        }
    }
}

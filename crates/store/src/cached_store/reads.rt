//! Reads through a store with a cache, which return the same results as reads through the store alone. If there is a
//! cache, it is refreshed first, and the status of a ward, its next step, and the overviews of wards and of batches are
//! taken from it.

ghost use Rattle.std.specs.Prelude.{◌≡◌, map, option_map, IfOk, IfErr, OnOk, IsTrue};
ghost use Rattle.sqlite.specs.State.{HasCleanDisk};
ghost use Rattle.sqlite.specs.Held.{state};
ghost use Rattle.register.specs.Offices.{OfficeState, receipt_entry, ward_at};
ghost use Rattle.register.specs.Elections.{election_of};
ghost use Rattle.register.specs.Status.{columns_at, paper_at, paper_entry, status_at, status_entry, work_entry, work_of};
ghost use Rattle.register.specs.NextSteps.{next_at, step_entry};
ghost use Rattle.register.specs.Repeats.{is_kept_otherwise};
ghost use Rattle.tables.specs.Reading.{OnlyReads, FailsBy};
ghost use Rattle.store.specs.EarlierKeyings.{earlier_at, keyed_round_entry};
ghost use Rattle.store.specs.Elections.{IsCountedInFor, IsSheetFor};
ghost use Rattle.store.specs.Loads.{Loads};
ghost use Rattle.store.specs.StateTables.{IsAt};
ghost use Rattle.store.specs.Overviews.{batch_view, batch_views_at, differences_at, differences_view, doubtful_at, doubtful_papers_view, papers_at, papers_view, receipts_of, ward_view, ward_views};

use crate::cached_store::CachedStore;
use crate::earlier_keyings::KeyedRound;
use crate::overviews::batches::BatchOverview;
use crate::overviews::differences::Differences;
use crate::overviews::doubtful::DoubtfulPapers;
use crate::overviews::papers::CountedPapers;
use crate::overviews::wards::WardOverview;
use paper::Columns;
use register::{BallotPaper, CountedWard, NextStep, Receipt, Request, Status, WardSheet, Work};
use sqlite::Alter;
use tables::Fault;

impl<S: Alter> CachedStore<S> {
    /// Returns the same result as `Store::load_columns`.
    pub fn load_columns(&mut self, batch: u32) -> Result<Option<Columns>, Fault>
        ensures { Loads S.Store self.old self.new result (λ s found. found ≡ columns_at s batch) }
    {
        self.store.load_columns(batch)
    }

    /// Returns the same result as `Store::load_work`.
    pub fn load_work(&mut self, clerk: u32) -> Result<Vec<Work>, Fault>
        ensures { Loads S.Store self.old self.new result (λ s found. map work_entry found.items ≡ work_of s clerk) }
    {
        self.store.load_work(clerk)
    }

    /// Returns the same result as `Store::load_paper`.
    pub fn load_paper(&mut self, clerk: u32, batch: u32) -> Result<Option<BallotPaper>, Fault>
        ensures { Loads S.Store self.old self.new result (λ s found. option_map paper_entry found ≡ paper_at s clerk batch) }
    {
        self.store.load_paper(clerk, batch)
    }

    /// Returns the same result as `Store::load_earlier_keying`.
    pub fn load_earlier_keying(
        &mut self,
        clerk: u32,
        batch: u32,
    ) -> Result<Option<Option<KeyedRound>>, Fault>
        ensures { Loads S.Store self.old self.new result (λ s found. option_map (option_map keyed_round_entry) found ≡ earlier_at s clerk batch) }
    {
        self.store.load_earlier_keying(clerk, batch)
    }

    /// Returns the same result as `Store::load_sheet`.
    pub fn load_sheet(&mut self, ward: u32) -> Result<Option<WardSheet>, Fault>
        ensures { Loads S.Store self.old self.new result (λ s found. IsSheetFor (option_map (election_of s) (ward_at s ward)) found) }
    {
        self.store.load_sheet(ward)
    }

    /// Returns the same result as `Store::load_counted`.
    pub fn load_counted(&mut self, ward: u32) -> Result<Option<CountedWard>, Fault>
        ensures { Loads S.Store self.old self.new result (λ s found. IsCountedInFor (option_map (election_of s) (ward_at s ward)) found) }
    {
        self.store.load_counted(ward)
    }

    /// Returns the same result as `Store::load_doubtful`.
    pub fn load_doubtful(&mut self, ward: u32) -> Result<Option<DoubtfulPapers>, Fault>
        ensures { Loads S.Store self.old self.new result (λ s found. option_map doubtful_papers_view found ≡ doubtful_at s ward) }
    {
        self.store.load_doubtful(ward)
    }

    /// Returns the same result as `Store::load_differences`.
    pub fn load_differences(&mut self, batch: u32) -> Result<Option<Differences>, Fault>
        ensures { Loads S.Store self.old self.new result (λ s found. option_map differences_view found ≡ differences_at s batch) }
    {
        self.store.load_differences(batch)
    }

    /// Returns the same result as `Store::load_batch_papers`.
    pub fn load_batch_papers(&mut self, batch: u32) -> Result<Option<CountedPapers>, Fault>
        ensures { Loads S.Store self.old self.new result (λ s found. option_map papers_view found ≡ papers_at s batch) }
    {
        self.store.load_batch_papers(batch)
    }

    /// Returns the same result as `Store::load_receipts`.
    pub fn load_receipts(&mut self, actor: Option<u32>) -> Result<Vec<Receipt>, Fault>
        ensures { Loads S.Store self.old self.new result (λ s found. map receipt_entry found.items ≡ receipts_of s actor) }
    {
        self.store.load_receipts(actor)
    }

    /// Returns the same result as `Store::load_differs_from_stored`.
    pub fn load_differs_from_stored(&mut self, request: &Request) -> Result<bool, Fault>
        ensures shows { HasCleanDisk (state S.Store self.new) → (s : OfficeState) → IsAt s (state S.Store self.old) → IfOk result (λ found. found ≡ is_kept_otherwise s request.now) }
        ensures cause { HasCleanDisk (state S.Store self.new) → (s : OfficeState) → IsAt s (state S.Store self.old) → IfErr result (FailsBy (state S.Store self.old) (state S.Store self.new)) }
        ensures reads { OnlyReads (state S.Store self.old) (state S.Store self.new) }
        ensures keeps { HasCleanDisk (state S.Store self.new) → (s : OfficeState) → IsAt s (state S.Store self.old) → IsAt s (state S.Store self.new) }
    {
        self.store.load_differs_from_stored(request)
    }

    /// Returns the same result as `Store::load_wards`.
    pub fn load_wards(&mut self) -> Result<Vec<WardOverview>, Fault>
        ensures { Loads S.Store self.old self.new result (λ s found. map ward_view found.items ≡ ward_views s) }
    {
        match &mut self.cache {
            Some(known) => self.store.wards_with(known),
            None => self.store.load_wards(),
        }
    }

    /// Returns the same result as `Store::load_batches`.
    pub fn load_batches(&mut self, ward: u32) -> Result<Option<Vec<BatchOverview>>, Fault>
        ensures { Loads S.Store self.old self.new result (λ s found. option_map (λ batches. map batch_view batches.items) found ≡ batch_views_at s ward) }
    {
        match &mut self.cache {
            Some(known) => self.store.batches_with(known, ward),
            None => self.store.load_batches(ward),
        }
    }

    /// Returns the same result as `Store::load_status`.
    pub fn load_status(&mut self, ward: u32) -> Result<Option<Status>, Fault>
        ensures { Loads S.Store self.old self.new result (λ s found. option_map status_entry found ≡ status_at s ward) }
    {
        match &mut self.cache {
            Some(known) => self.store.status_with(known, ward),
            None => self.store.load_status(ward),
        }
    }

    /// Returns the same result as `Store::load_next`.
    pub fn load_next(&mut self, ward: u32) -> Result<Option<NextStep>, Fault>
        ensures { Loads S.Store self.old self.new result (λ s found. option_map step_entry found ≡ next_at s ward) }
    {
        match &mut self.cache {
            Some(known) => self.store.next_with(known, ward),
            None => self.store.load_next(ward),
        }
    }
}

//! The stored count of a ward, read from its tabulation alone.

ghost use Rattle.std.specs.Prelude.{◌≡◌, true, map, option_map};
ghost use Rattle.register.specs.Offices.{ward_at};
ghost use Rattle.register.specs.Elections.{election_of};
ghost use Rattle.register.specs.Tabulated.{placed_entry, figure_entry, has_stages, IsCount};
ghost use Rattle.store.specs.Elections.{bundles_at, figures_at, election_in, WasFound, IsStoredCount, IsCountIfBegunFor};
ghost use Rattle.store.specs.Loads.{Loads};

use crate::entries::bundles::PlacedBundles;
use crate::entries::figures::StageFigures;
use crate::storage::Store;
use count::StoredCount;
use register::marks::columns_of;
use register::tabulations::{count_of, tabulations_are_ordered};
use register::wards::is_contested;
use register::{Count, CountedWard, PlacedBundle, StageFigure};
use sqlite::Alter;
use tables::Fault;
use tables::finding::entries_beginning;
use tables::value_conversion::number;

impl<S: Alter> Store<S> {
    /// Returns the bundles of a ward, ordered by list.
    fn list_bundles(&mut self, ward: u32) -> Result<Vec<PlacedBundle>, Fault>
        ensures { Loads S.Store self.old self.new result (λ s found. map placed_entry found.items ≡ bundles_at s ward) }
    {
        entries_beginning::<PlacedBundles, S>(self.alloc, &mut self.conn, &[number(ward)])
    }

    /// Returns the figures for a ward's stages, ordered by stage and candidate.
    fn list_figures(&mut self, ward: u32) -> Result<Vec<StageFigure>, Fault>
        ensures { Loads S.Store self.old self.new result (λ s found. map figure_entry found.items ≡ figures_at s ward) }
    {
        entries_beginning::<StageFigures, S>(self.alloc, &mut self.conn, &[number(ward)])
    }

    /// Returns the stored data of the count of a ward that has a stage. Returns `None` if no count has this tabulation,
    /// which never happens in an office.
    fn read_stored_count(&mut self, contest: &CountedWard) -> Result<Option<StoredCount>, Fault>
        ensures { Loads S.Store self.old self.new result
            (λ s found. WasFound s contest.now → has_stages (election_in s contest.now) ≡ true → IsStoredCount (election_in s contest.now) found) }
    {
        tabulations_are_ordered();
        let bundles = self.list_bundles(contest.ward.number)?;
        let figures = self.list_figures(contest.ward.number)?;
        match count_of(
            self.allocator(),
            columns_of(&contest.candidates),
            contest.ward.seats,
            &bundles,
            &figures,
        ) {
            Ok(kept) => Ok(kept),
            Err(_) => Err(Fault::Memory),
        }
    }

    /// Returns the count of a ward that has a stage, from its tabulation and its lots.
    pub(crate) fn stored_count(&mut self, contest: &CountedWard) -> Result<Option<Count>, Fault>
        ensures { Loads S.Store self.old self.new result
            (λ s found. WasFound s contest.now → has_stages (election_in s contest.now) ≡ true → IsCount (election_in s contest.now) found) }
    {
        let found = self.read_stored_count(contest)?;
        let lots = self.load_lots(contest.ward.number)?;
        match found {
            Some(kept) => Ok(Some(Count { kept, lots })),
            None => Ok(None),
        }
    }

    /// Returns the stored count of the ward with the given number, from its tabulation and its lots; no papers are
    /// read. Returns `None` unless the ward exists, is contested and has a stage done. Changes nothing, and doesn't add
    /// to the states that a stop may leave behind. Returns `Memory` or `Store` if a row can't be read.
    pub fn load_book(&mut self, ward: u32) -> Result<Option<Count>, Fault>
        ensures { Loads S.Store self.old self.new result (λ s found. IsCountIfBegunFor (option_map (election_of s) (ward_at s ward)) found) }
    {
        let found = self.find_contest(ward)?;
        let Some(contest) = found else {
            return Ok(None);
        };
        if !is_contested(&contest.ward, &contest.candidates) {
            return Ok(None);
        }
        if contest.ward.done == 0 {
            return Ok(None);
        }
        let count = self.stored_count(&contest)?;
        Ok(count)
    }
}

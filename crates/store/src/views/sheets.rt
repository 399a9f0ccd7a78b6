//! The data from which the declaration and the stage sheet of a ward are written.

ghost use Rattle.std.specs.Prelude.{◌≡◌, true, option_map};
ghost use Rattle.register.specs.Offices.{ward_at};
ghost use Rattle.register.specs.Polls.{piles_of, ballots_in};
ghost use Rattle.register.specs.Elections.{election_of, is_in_count as is_in_count_of};
ghost use Rattle.store.specs.Elections.{IsInCount, election_in, WasFound, IsCountedInFor, IsSheet, IsSheetFor};
ghost use Rattle.store.specs.Loads.{Loads};

use crate::storage::Store;
use paper::Columns;
use register::elections::is_in_count;
use register::marks::columns_of;
use register::polls::REJECTIONS;
use register::{CountedWard, NoPapers, WardSheet};
use sqlite::Alter;
use tables::Fault;

impl<S: Alter> Store<S> {
    /// Returns the ward with the given number, if there is one, with everything that its declaration needs. The count
    /// is included if the ward is in count; once a stage has been done, it is read from the tabulation, and no papers
    /// are read. Changes nothing, and doesn't add to the states that a stop may leave behind. Returns `Memory` or
    /// `Store` if a row can't be read.
    pub fn load_counted(&mut self, ward: u32) -> Result<Option<CountedWard>, Fault>
        ensures { Loads S.Store self.old self.new result (λ s found. IsCountedInFor (option_map (election_of s) (ward_at s ward)) found) }
    {
        let found = self.find_contest(ward)?;
        let Some(contest) = found else {
            return Ok(None);
        };
        if !is_in_count(&contest.ward, &contest.candidates) {
            return Ok(Some(contest));
        }
        let counted = self.contested_count(contest)?;
        if counted.is_none() {
            return Err(Fault::Store);
        }
        Ok(counted)
    }

    /// Returns how many papers are rejected, by code, in a ward in count with the given columns. The papers are read
    /// row by row and aren't kept in memory.
    fn rejected_of(&mut self, ward: u32, columns: Columns) -> Result<[u32; REJECTIONS], Fault>
        ensures { Loads S.Store self.old self.new result (λ s rejected. IsInCount s ward → rejected ≡ (ballots_in columns (piles_of s ward)).rejected) }
    {
        let ballots = self.ward_ballots(NoPapers, ward, columns, true)?;
        Ok(ballots.rejected)
    }

    /// Returns the count of a ward in count that has a stage, from the tabulation alone; and how many of its papers are
    /// rejected. Returns `None` if no count has this tabulation, which never happens in an office.
    fn resume_sheet(&mut self, contest: CountedWard) -> Result<Option<WardSheet>, Fault>
        ensures { Loads S.Store self.old self.new result
            (λ s found. WasFound s contest → is_in_count_of (election_in s contest) ≡ true → (contest.ward.done ≡ 0 → ⊥) → IsSheet (election_in s contest) found) }
    {
        let columns = columns_of(&contest.candidates);
        let rejected = self.rejected_of(contest.ward.number, columns)?;
        let found = self.resume_count(contest)?;
        match found {
            Some(counted) => Ok(Some(WardSheet { counted, rejected })),
            None => Ok(None),
        }
    }

    /// Returns the data for the sheet of a ward in count. If no stage has been done, the papers are read once for both
    /// the count and the rejected papers.
    fn sheet_in_count(&mut self, contest: CountedWard) -> Result<Option<WardSheet>, Fault>
        ensures { Loads S.Store self.old self.new result
            (λ s found. WasFound s contest → is_in_count_of (election_in s contest) ≡ true → IsSheet (election_in s contest) found) }
    {
        if contest.ward.done == 0 {
            self.begin_sheet(contest)
        } else {
            self.resume_sheet(contest)
        }
    }

    /// Returns the data for the stage sheet of the ward with the given number, if there is one: the result of
    /// `load_counted`, and how many of the ward's papers are rejected, counted from the papers. Changes nothing, and
    /// doesn't add to the states that a stop may leave behind. Returns `Memory` or `Store` if a row can't be read.
    pub fn load_sheet(&mut self, ward: u32) -> Result<Option<WardSheet>, Fault>
        ensures { Loads S.Store self.old self.new result (λ s found. IsSheetFor (option_map (election_of s) (ward_at s ward)) found) }
    {
        let found = self.find_contest(ward)?;
        let Some(contest) = found else {
            return Ok(None);
        };
        if !is_in_count(&contest.ward, &contest.candidates) {
            return Ok(Some(WardSheet {
                counted: contest,
                rejected: [0; REJECTIONS],
            }));
        }
        let sheet = self.sheet_in_count(contest)?;
        if sheet.is_none() {
            return Err(Fault::Store);
        }
        Ok(sheet)
    }
}

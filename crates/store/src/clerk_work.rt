//! A clerk's work, and the text on the papers the clerk keys, read from the tables.

ghost use Rattle.std.specs.Prelude.{◌≡◌, if◌then◌else◌, map, filter, option_map, Some, None};
ghost use Rattle.register.specs.declared.phase.Phase.TheVariants.{Keying};
ghost use Rattle.register.specs.Offices.{ward_entry, batch_entry};
ghost use Rattle.register.specs.CommandInputs.{is_in_phase};
ghost use Rattle.register.specs.Status.{work_entry, is_work, work_on, work_of, paper_entry, paper_for, paper_at};
ghost use Rattle.store.specs.Loads.{Loads, IsOpen};

use crate::storage::Store;
use register::keyings::is_its_clerk;
use register::marks::columns_of;
use register::{BallotPaper, Batch, Phase, Ward, Work};
use sqlite::Alter;
use tables::Fault;

/// Returns whether a ward was found and is in keying.
fn is_in_keying(ward: &Option<Ward>) -> bool
    ensures { result ≡ is_in_phase Keying (option_map ward_entry ward.now) }
{
    match ward {
        Some(ward) => ward.phase.number() == Phase::Keying.number(),
        None => false,
    }
}

impl<S: Alter> Store<S> {
    /// Returns a batch as a clerk's work.
    fn work_on(&mut self, batch: &Batch, clerk: u32) -> Result<Work, Fault>
        ensures { Loads S.Store self.old self.new result (λ s work. work_entry work ≡ work_on s clerk (batch_entry batch.now)) }
    {
        let candidates = self.list_candidates(batch.ward)?;
        let keyed = self.has_keyed(batch.number, batch.round, clerk)?;
        Ok(Work {
            batch: batch.number,
            ward: batch.ward,
            columns: columns_of(&candidates),
            size: batch.size,
            round: batch.round,
            keyed,
        })
    }

    /// Returns a batch as a clerk's work, if the clerk keys it.
    fn own_work(&mut self, batch: &Batch, clerk: u32) -> Result<Option<Work>, Fault>
        requires { IsOpen S.Store self.old }
        ensures { Loads S.Store self.old self.new result
            (λ s found. option_map work_entry found ≡ (if is_work s clerk (batch_entry batch.now) then Some (work_on s clerk (batch_entry batch.now)) else None)) }
    {
        let third = self.find_third(batch.number)?;
        if !is_its_clerk(clerk, batch, &third) {
            return Ok(None);
        }
        let ward = self.find_ward(batch.ward)?;
        if !is_in_keying(&ward) {
            return Ok(None);
        }
        let work = self.work_on(batch, clerk)?;
        Ok(Some(work))
    }

    /// Returns a clerk's work among the given batches, which are read one after another.
    fn work_in(&mut self, batches: &[Batch], clerk: u32) -> Result<Vec<Work>, Fault>
        requires { IsOpen S.Store self.old }
        ensures { Loads S.Store self.old self.new result (λ s found. map work_entry found.items ≡ map (work_on s clerk) (filter (is_work s clerk) (map batch_entry batches.now))) }
    {
        let mut found = Vec::new(self.allocator());
        for batch in batches {
            if let Some(work) = self.own_work(batch, clerk)? {
                if found.push(work).is_err() {
                    return Err(Fault::Memory);
                }
            }
        }
        Ok(found)
    }

    /// Returns the work of a clerk (1 to 999): the clerk's batches in wards that are in keying, ordered by number. Each
    /// includes the columns of its papers, and whether the clerk has keyed its current round. All batches are read at
    /// once. Then the third clerk of each is read, and, for each of the clerk's own batches, its ward, the candidates
    /// there, and the first paper of the clerk's keying. Changes nothing, and doesn't add to the states that a stop may
    /// leave behind. Returns `Memory` or `Store` if a row can't be read.
    pub fn load_work(&mut self, clerk: u32) -> Result<Vec<Work>, Fault>
        ensures { Loads S.Store self.old self.new result (λ s found. map work_entry found.items ≡ work_of s clerk) }
    {
        let batches = self.all_batches()?;
        let found = self.work_in(&batches, clerk)?;
        Ok(found)
    }

    /// Returns the text on a batch's ballot papers, for one of its clerks.
    fn own_paper(&mut self, batch: &Batch, clerk: u32) -> Result<Option<BallotPaper>, Fault>
        requires { IsOpen S.Store self.old }
        ensures { Loads S.Store self.old self.new result (λ s found. option_map paper_entry found ≡ paper_for s clerk (batch_entry batch.now)) }
    {
        let third = self.find_third(batch.number)?;
        if !is_its_clerk(clerk, batch, &third) {
            return Ok(None);
        }
        let found = self.find_ward(batch.ward)?;
        let Some(ward) = found else {
            return Ok(None);
        };
        let candidates = self.list_candidates(ward.number)?;
        Ok(Some(BallotPaper { ward, candidates }))
    }

    /// Returns the text on the ballot papers of the batch with the given number, for one of its clerks: its ward, and
    /// the candidates there. Returns `None` if there is no such batch or it isn't the clerk's. Changes nothing, and
    /// doesn't add to the states that a stop may leave behind. Returns `Memory` or `Store` if a row can't be read.
    pub fn load_paper(&mut self, clerk: u32, batch: u32) -> Result<Option<BallotPaper>, Fault>
        ensures { Loads S.Store self.old self.new result (λ s found. option_map paper_entry found ≡ paper_at s clerk batch) }
    {
        let found = self.find_batch(batch)?;
        match found {
            Some(batch) => {
                let paper = self.own_paper(&batch, clerk)?;
                Ok(paper)
            }
            None => Ok(None),
        }
    }
}

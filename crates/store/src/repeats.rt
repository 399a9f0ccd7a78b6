//! Compares a repeated request with the data stored for it.

ghost use Rattle.std.specs.Prelude.{◌≡◌, not, ◌&&◌, map, IfOk, IfErr, string_bytes};
ghost use Rattle.std.specs.List.{list_any};
ghost use Rattle.sqlite.specs.State.{HasCleanDisk};
ghost use Rattle.sqlite.specs.Held.{state};
ghost use Rattle.register.specs.Offices.{OfficeState, ward_at, candidate_at, batch_at, third_at, keying_of, verdict_at, lots_of};
ghost use Rattle.register.specs.Agreement.{is_third_clerk};
ghost use Rattle.register.specs.Verdicts.{judged_as};
ghost use Rattle.register.specs.Repeats.{is_there, is_ward_of, has_other_name, has_withdrawn, is_batch_of, is_keying_otherwise, is_verdict_otherwise, is_drawn, is_kept_otherwise};
ghost use Rattle.tables.specs.Reading.{OnlyReads, FailsBy};
ghost use Rattle.store.specs.StateTables.{IsAt};
ghost use Rattle.store.specs.Loads.{Loads};

use crate::storage::Store;
use register::keyings::is_third_clerk;
use register::repeats::{
    has_other_name, has_texts, has_withdrawn, is_batch_of, is_drawn, is_judged_alike, is_ward_of,
};
use register::{
    BatchCommand, CandidateCommand, Command, CountCommand, KeyingCommand, Request, VerdictCommand,
    WardCommand,
};
use sqlite::Alter;
use tables::Fault;

/// The actor number of the office itself.
const OFFICE: u32 = 0;

impl<S: Alter> Store<S> {
    /// Returns whether the ward with the given number has a different number of seats or a different name.
    fn ward_differs(&mut self, ward: u32, seats: u32, name: &str) -> Result<bool, Fault>
        ensures { Loads S.Store self.old self.new result (λ s found. found ≡ not (is_there (is_ward_of seats name.now) (ward_at s ward))) }
    {
        let found = self.find_ward(ward)?;
        Ok(!is_ward_of(&found, seats, name))
    }

    /// Returns whether a candidate with the given number has withdrawn from a ward.
    fn candidate_withdrew(&mut self, ward: u32, candidate: u32) -> Result<bool, Fault>
        ensures { Loads S.Store self.old self.new result (λ s found. found ≡ has_withdrawn s ward candidate) }
    {
        let receipts = self.list_receipts(OFFICE)?;
        match has_withdrawn(self.alloc, &receipts, ward, candidate) {
            Ok(found) => Ok(found),
            Err(_) => Err(Fault::Memory),
        }
    }

    /// Returns whether a candidate of a ward has a different name and no candidate with that number has withdrawn. The
    /// receipts are read only if the name differs.
    fn candidate_differs(&mut self, ward: u32, candidate: u32, name: &str) -> Result<bool, Fault>
        ensures { Loads S.Store self.old self.new result (λ s found. found ≡ (is_there (has_other_name name.now) (candidate_at s ward candidate) && not (has_withdrawn s ward candidate))) }
    {
        let found = self.find_candidate(ward, candidate)?;
        if !has_other_name(&found, name) {
            return Ok(false);
        }
        Ok(!self.candidate_withdrew(ward, candidate)?)
    }

    /// Returns whether a batch has a different ward or size, or a different first or second clerk.
    fn batch_differs(
        &mut self,
        batch: u32,
        ward: u32,
        size: u32,
        clerks: (u32, u32),
    ) -> Result<bool, Fault>
        ensures { Loads S.Store self.old self.new result (λ s found. found ≡ not (is_there (is_batch_of ward size clerks.0 clerks.1) (batch_at s batch))) }
    {
        let found = self.find_batch(batch)?;
        Ok(!is_batch_of(&found, ward, size, clerks.0, clerks.1))
    }

    /// Returns whether a batch has a different third clerk.
    fn third_differs(&mut self, batch: u32, clerk: u32) -> Result<bool, Fault>
        ensures { Loads S.Store self.old self.new result (λ s found. found ≡ not (is_third_clerk clerk (third_at s batch))) }
    {
        let found = self.find_third(batch)?;
        Ok(!is_third_clerk(clerk, &found))
    }

    /// Returns whether the stored keying has different papers from the command's.
    fn keying_differs(&mut self, clerk: u32, command: &KeyingCommand) -> Result<bool, Fault>
        ensures { Loads S.Store self.old self.new result (λ s found. found ≡ is_keying_otherwise s clerk command.now) }
    {
        let papers = self.list_keying(command.batch, command.round, clerk)?;
        Ok(!has_texts(&papers, &command.papers))
    }

    /// Returns whether the verdict on a paper differs.
    fn verdict_differs(&mut self, command: &VerdictCommand) -> Result<bool, Fault>
        ensures { Loads S.Store self.old self.new result (λ s found. found ≡ is_verdict_otherwise s command.now) }
    {
        let found = self.find_verdict(command.batch, command.paper)?;
        Ok(!is_judged_alike(&found, command))
    }

    /// Returns whether the lot drawn in a ward at the given stage fell on a different candidate.
    fn lot_differs(&mut self, ward: u32, stage: u32, candidate: u32) -> Result<bool, Fault>
        ensures { Loads S.Store self.old self.new result (λ s found. found ≡ not (list_any (is_drawn stage candidate) (lots_of s ward))) }
    {
        let lots = self.list_lots(ward)?;
        Ok(!is_drawn(&lots, stage, candidate))
    }

    /// Returns whether a repeated request differs from the data stored for it. Nothing is read if the request's subject
    /// contains the whole request. Changes nothing, and doesn't add to the states that a stop may leave behind. Returns
    /// `Memory` or `Store` if a row can't be read.
    pub fn load_differs_from_stored(&mut self, request: &Request) -> Result<bool, Fault>
        ensures shows { HasCleanDisk (state S.Store self.new) → (s : OfficeState) → IsAt s (state S.Store self.old) → IfOk result (λ found. found ≡ is_kept_otherwise s request.now) }
        ensures cause { HasCleanDisk (state S.Store self.new) → (s : OfficeState) → IsAt s (state S.Store self.old) → IfErr result (FailsBy (state S.Store self.old) (state S.Store self.new)) }
        ensures reads { OnlyReads (state S.Store self.old) (state S.Store self.new) }
        ensures keeps { HasCleanDisk (state S.Store self.new) → (s : OfficeState) → IsAt s (state S.Store self.old) → IsAt s (state S.Store self.new) }
    {
        match &request.command {
            Command::Ward(WardCommand::Add { ward, seats, name }) => {
                self.ward_differs(*ward, *seats, name.as_str())
            }
            Command::Ward(WardCommand::Close { .. }) => Ok(false),
            Command::Candidate(
                CandidateCommand::Add {
                    ward,
                    candidate,
                    name,
                },
            ) => self.candidate_differs(*ward, *candidate, name.as_str()),
            Command::Candidate(CandidateCommand::Withdraw { .. }) => Ok(false),
            Command::Batch(
                BatchCommand::Add {
                    batch,
                    ward,
                    size,
                    first_clerk,
                    second_clerk,
                },
            ) => self.batch_differs(*batch, *ward, *size, (*first_clerk, *second_clerk)),
            Command::Batch(BatchCommand::Again { .. }) => Ok(false),
            Command::Batch(BatchCommand::Third { batch, clerk }) => {
                self.third_differs(*batch, *clerk)
            }
            Command::Keying(keying) => self.keying_differs(request.actor, keying),
            Command::Verdict(judged) => self.verdict_differs(judged),
            Command::Count(
                CountCommand::Lot {
                    ward,
                    stage,
                    candidate,
                },
            ) => self.lot_differs(*ward, *stage, *candidate),
            Command::Count(CountCommand::Seal { .. }) => Ok(false),
            Command::Count(CountCommand::Advance { .. }) => Ok(false),
            Command::Count(CountCommand::Declare { .. }) => Ok(false),
        }
    }
}

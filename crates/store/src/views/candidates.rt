//! Candidates, read for a request, and a ward with its candidates.

ghost use Rattle.std.specs.Prelude.{◌≡◌, map, option_map};
ghost use Rattle.register.specs.Offices.{candidate_entry, ward_at, candidate_at, candidates_of};
ghost use Rattle.register.specs.CommandInputs.{empty_input, input_entries};
ghost use Rattle.store.specs.Elections.{IsContestAt};
ghost use Rattle.store.specs.Loads.{Loads};

use crate::entries::candidates::Candidates;
use crate::storage::Store;
use register::{Candidate, CommandInput, CountedWard};
use sqlite::Alter;
use tables::Fault;
use tables::finding::{entries_beginning, find_entry};
use tables::value_conversion::number;

impl<S: Alter> Store<S> {
    /// Returns the candidate with the given number in the given ward, if there is one.
    pub(crate) fn find_candidate(
        &mut self,
        ward: u32,
        candidate: u32,
    ) -> Result<Option<Candidate>, Fault>
        ensures { Loads S.Store self.old self.new result (λ s found. option_map candidate_entry found ≡ candidate_at s ward candidate) }
    {
        find_entry::<Candidates, S>(&mut self.conn, &[number(ward), number(candidate)])
    }

    /// Returns the candidates of a ward, ordered by number.
    pub(crate) fn list_candidates(&mut self, ward: u32) -> Result<Vec<Candidate>, Fault>
        ensures { Loads S.Store self.old self.new result (λ s found. map candidate_entry found.items ≡ candidates_of s ward) }
    {
        entries_beginning::<Candidates, S>(self.alloc, &mut self.conn, &[number(ward)])
    }

    /// Returns the ward with the given number and its candidates, if there is one. Its count isn't read.
    pub(crate) fn find_contest(&mut self, ward: u32) -> Result<Option<CountedWard>, Fault>
        ensures { Loads S.Store self.old self.new result (λ s. IsContestAt s ward) }
    {
        let found = self.find_ward(ward)?;
        let Some(ward) = found else {
            return Ok(None);
        };
        let candidates = self.list_candidates(ward.number)?;
        Ok(Some(CountedWard {
            ward,
            candidates,
            count: None,
        }))
    }

    /// Returns the input for a command that needs a ward and its candidates.
    pub(crate) fn contest_part(&mut self, ward: u32) -> Result<CommandInput, Fault>
        ensures { Loads S.Store self.old self.new result (λ s part. input_entries part ≡ record empty_input { ward = ward_at s ward; candidates = candidates_of s ward }) }
    {
        let part = self.ward_part(ward)?;
        let candidates = self.list_candidates(ward)?;
        Ok(CommandInput { candidates, ..part })
    }

    /// Returns the input for a command that needs a ward and one of its candidates.
    pub(crate) fn candidate_part(
        &mut self,
        ward: u32,
        candidate: u32,
    ) -> Result<CommandInput, Fault>
        ensures { Loads S.Store self.old self.new result (λ s part. input_entries part ≡ record empty_input { ward = ward_at s ward; candidate = candidate_at s ward candidate }) }
    {
        let part = self.ward_part(ward)?;
        let candidate = self.find_candidate(ward, candidate)?;
        Ok(CommandInput { candidate, ..part })
    }
}

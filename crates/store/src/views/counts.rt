//! The inputs for commands about a ward's count, read for a request.

ghost use Rattle.std.specs.Prelude.{◌≡◌, ◌≤◌, true, Option, MatchOption, option_map, IfOk, IfErr, IsOk};
ghost use Rattle.votes.specs.Units.{max_seats};
ghost use Rattle.register.specs.Offices.{ward_at, candidate_at};
ghost use Rattle.register.specs.Elections.{ElectionEntry, election_of, has_count, due_of, elected_of};
ghost use Rattle.register.specs.Counts.{poll_for, due_for, elected_for};
ghost use Rattle.register.specs.CommandInputs.{empty_input, input_entries};
ghost use Rattle.register.specs.Tabulated.{has_stages};
ghost use Rattle.store.specs.Elections.{IsFoundFor, polled_part, counted_part, election_in, WasFound, IsWardCount, IsBegun, IsCounted, IsCountedFor, IsCountIfExists};
ghost use Rattle.store.specs.Loads.{Loads};

use crate::storage::Store;
use count::Due;
use register::elections::{Progress, elections_are_fair};
use register::marks::columns_of;
use register::wards::is_contested;
use register::{CommandInput, CountedWard, Election, WardSheet};
use sqlite::Alter;
use std::alloc::Global;
use tables::Fault;

/// Returns the input for a command that needs the poll of an election, if there is one. It fails only if the ward has
/// no seats or too many, which never happens in an office.
fn polled(alloc: Global, found: Option<Election>) -> Result<CommandInput, Fault>
    ensures part { IfOk result (λ part. (entry : Option ElectionEntry) → IsFoundFor found entry → input_entries part ≡ polled_part entry) }
    ensures cause { IfErr result (λ f. f ≡ Fault.Store) }
    ensures some { MatchOption found (IsOk result) (λ election. 1 ≤ election.ward.seats → election.ward.seats ≤ max_seats → IsOk result) }
{
    let Some(election) = found else {
        return Ok(CommandInput::empty(alloc));
    };
    let Some(poll) = election.poll() else {
        return Err(Fault::Store);
    };
    let Election { ward, .. } = election;
    Ok(CommandInput {
        ward: Some(ward),
        poll: Some(poll),
        ..CommandInput::empty(alloc)
    })
}

/// Returns the progress of a ward's count. The count of an uncontested ward is finished, and all its candidates are
/// elected.
fn progress_of(found: &CountedWard) -> Progress
    ensures { (e : ElectionEntry) → IsWardCount e found.now → (result.due ≡ due_of e) × (result.elected ≡ elected_of e) }
{
    match &found.count {
        Some(count) => count.progress(),
        None => Progress {
            due: Due::Finished,
            elected: columns_of(&found.candidates),
        },
    }
}

/// Returns the input for a command that needs the count of a ward, if there is one: what it requires next, the elected
/// candidates, and the count itself.
fn counted(alloc: Global, found: Option<CountedWard>) -> CommandInput
    ensures part { (entry : Option ElectionEntry) → IsCountedFor entry found → input_entries result ≡ counted_part entry }
    ensures count { (entry : Option ElectionEntry) → IsCountedFor entry found → IsCountIfExists entry result.count }
{
    let Some(found) = found else {
        return CommandInput::empty(alloc);
    };
    let progress = progress_of(&found);
    let CountedWard { ward, count, .. } = found;
    CommandInput {
        ward: Some(ward),
        due: Some(progress.due),
        elected: progress.elected,
        count,
        ..CommandInput::empty(alloc)
    }
}

impl<S: Alter> Store<S> {
    /// Returns the input for the command that seals a ward: the ward, and the poll of its papers.
    pub(crate) fn seal_part(&mut self, ward: u32) -> Result<CommandInput, Fault>
        ensures { Loads S.Store self.old self.new result (λ s part. input_entries part ≡ record empty_input { ward = ward_at s ward; poll = poll_for s (ward_at s ward) }) }
    {
        let found = self.find_election(ward)?;
        let part = polled(self.allocator(), found)?;
        Ok(part)
    }

    /// Returns the count of a contested ward before its first stage, begun from its papers, and how many of the papers
    /// are rejected. Returns `None` if the ward has too many seats, which never happens in an office.
    pub(crate) fn begin_sheet(&mut self, contest: CountedWard) -> Result<Option<WardSheet>, Fault>
        ensures { Loads S.Store self.old self.new result
            (λ s found. WasFound s contest → has_count (election_in s contest) ≡ true → contest.ward.done ≡ 0 → IsBegun (election_in s contest) found) }
    {
        elections_are_fair();
        let election = self.ward_election(contest)?;
        match election.begin(self.allocator()) {
            Ok(begun) => Ok(begun),
            Err(_) => Err(Fault::Memory),
        }
    }

    /// Returns the count of a contested ward that has a stage, as it was stored, from the tabulation alone. Returns
    /// `None` if no count has this tabulation, which never happens in an office.
    pub(crate) fn resume_count(
        &mut self,
        contest: CountedWard,
    ) -> Result<Option<CountedWard>, Fault>
        ensures { Loads S.Store self.old self.new result
            (λ s found. WasFound s contest → has_stages (election_in s contest) ≡ true → IsCounted (election_in s contest) found) }
    {
        let found = self.stored_count(&contest)?;
        match found {
            Some(count) => Ok(Some(CountedWard {
                count: Some(count),
                ..contest
            })),
            None => Ok(None),
        }
    }

    /// Returns the count of a contested ward: begun from its papers if no stage has been done, otherwise read from the
    /// tabulation alone.
    pub(crate) fn contested_count(
        &mut self,
        contest: CountedWard,
    ) -> Result<Option<CountedWard>, Fault>
        ensures { Loads S.Store self.old self.new result
            (λ s found. WasFound s contest → has_count (election_in s contest) ≡ true → IsCounted (election_in s contest) found) }
    {
        if contest.ward.done != 0 {
            return self.resume_count(contest);
        }
        let begun = self.begin_sheet(contest)?;
        match begun {
            Some(sheet) => Ok(Some(sheet.counted)),
            None => Ok(None),
        }
    }

    /// Returns the ward with the given number, if there is one, and its count if it is contested.
    fn find_count(&mut self, ward: u32) -> Result<Option<CountedWard>, Fault>
        ensures { Loads S.Store self.old self.new result (λ s found. IsCountedFor (option_map (election_of s) (ward_at s ward)) found) }
    {
        let found = self.find_contest(ward)?;
        let Some(contest) = found else {
            return Ok(None);
        };
        if !is_contested(&contest.ward, &contest.candidates) {
            return Ok(Some(contest));
        }
        let count = self.contested_count(contest)?;
        if count.is_none() {
            return Err(Fault::Store);
        }
        Ok(count)
    }

    /// Returns the input for a command that needs the progress of a ward's count: the ward, what the count requires
    /// next, the elected candidates, and the count itself.
    pub(crate) fn count_part(&mut self, ward: u32) -> Result<CommandInput, Fault>
        ensures { Loads S.Store self.old self.new result
            (λ s part. (input_entries part ≡ record empty_input { ward = ward_at s ward; due = due_for s (ward_at s ward); elected = elected_for s (ward_at s ward) })
            × IsCountIfExists (option_map (election_of s) (ward_at s ward)) part.count) }
    {
        let found = self.find_count(ward)?;
        Ok(counted(self.allocator(), found))
    }

    /// Returns the input for the command about a lot: the progress of the ward's count, and the candidate.
    pub(crate) fn lot_part(&mut self, ward: u32, candidate: u32) -> Result<CommandInput, Fault>
        ensures { Loads S.Store self.old self.new result
            (λ s part. input_entries part ≡ record empty_input {
              ward = ward_at s ward;
              candidate = candidate_at s ward candidate;
              due = due_for s (ward_at s ward);
              elected = elected_for s (ward_at s ward);
            }) }
    {
        let part = self.count_part(ward)?;
        let candidate = self.find_candidate(ward, candidate)?;
        Ok(CommandInput { candidate, ..part })
    }
}

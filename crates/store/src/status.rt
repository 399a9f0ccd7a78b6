//! The status of a ward, its next step, its papers, and the columns of a batch's papers, read from the tables.

ghost use Rattle.std.specs.Prelude.{◌≡◌, ◌+◌, ◌-◌, ◌^◌, true, min, if◌then◌else◌, [], ◌∷◌, map, option_map, IfOk};
ghost use Rattle.sqlite.specs.State.{HasCleanDisk};
ghost use Rattle.sqlite.specs.Held.{state};
ghost use Rattle.register.specs.Offices.{OfficeState, WardEntry, ward_entry, batch_entry, candidates_of};
ghost use Rattle.register.specs.Marks.{columns_of};
ghost use Rattle.std.specs.List.Sorted.{IsPermutation};
ghost use Rattle.count.specs.Bundles.{papers_of};
ghost use Rattle.register.specs.Polls.{piles_of, ballots_in, StandFor, are_listed, are_bundled};
ghost use Rattle.register.specs.Status.{status_entry, status_of, status_at, columns_at};
ghost use Rattle.register.specs.Elections.{ElectionEntry, due_of, election_of, is_counted};
ghost use Rattle.register.specs.NextSteps.{next_at, next_of, step_entry};
ghost use Rattle.register.specs.Tabulated.{IsCountedWard};
ghost use Rattle.store.specs.StateTables.{IsAt};
ghost use Rattle.store.specs.Tallies.{IsTally, tally_by};
ghost use Rattle.store.specs.Loads.{Loads, IsOpen};

use crate::storage::Store;
use crate::views::papers::Keyings;
use count::{Bundles, Due, bundles_count_alike};
use paper::{Columns, Prefs};
use register::agreement::{count_open, is_keyed};
use register::counts::stage_after;
use register::marks::columns_of;
use register::{Ballots, Batch, CountedWard, JudgedPaper, NextStep, Phase, Status, Ward};
use sqlite::Alter;
use tables::Fault;

/// A tally of batches: how many are taken, how many differ, and how many doubtful papers in the taken batches have no
/// verdict.
#[derive(Clone, Copy)]
pub(crate) struct Tally {
    pub(crate) taken: usize,
    pub(crate) differing: usize,
    pub(crate) doubtful_open: usize,
}

/// Returns 1 if the condition holds and 0 otherwise.
fn count_of(it_is: bool) -> usize
    ensures { result ≡ (if it_is then 1 else 0) }
{
    if it_is { 1 } else { 0 }
}

/// Returns the sum of two tallies, saturating at the largest number. No office reaches that number: there are at most
/// 9999 batches of 500 papers.
pub(crate) fn both(some: Tally, others: Tally) -> Tally
    ensures taken { result.taken ≡ min (some.taken + others.taken) (2 ^ 64 - 1) }
    ensures differing { result.differing ≡ min (some.differing + others.differing) (2 ^ 64 - 1) }
    ensures doubtful_open { result.doubtful_open ≡ min (some.doubtful_open + others.doubtful_open) (2 ^ 64 - 1) }
{
    Tally {
        taken: some.taken.saturating_add(others.taken),
        differing: some.differing.saturating_add(others.differing),
        doubtful_open: some.doubtful_open.saturating_add(others.doubtful_open),
    }
}

/// Returns the tally of a batch, from its keyings and the verdicts on its papers.
fn tally_by(keyings: &Keyings, verdicts: &[JudgedPaper]) -> Tally
    ensures { result ≡ tally_by keyings.now verdicts.now }
{
    let papers = keyings.agreed();
    Tally {
        taken: count_of(is_keyed(papers)),
        differing: count_of(keyings.differ()),
        doubtful_open: count_open(papers, verdicts),
    }
}

/// Returns what the count of a sealed ward requires next. The count of an uncontested ward is finished.
fn due_in(counted: &CountedWard) -> Due
    ensures { (e : ElectionEntry) → IsCountedWard e counted.now → is_counted e.ward.phase ≡ true → result ≡ due_of e }
{
    match &counted.count {
        Some(count) => count.progress().due,
        None => Due::Finished,
    }
}

impl<S: Alter> Store<S> {
    /// Returns the tally of a batch.
    fn tally_of(&mut self, batch: &Batch) -> Result<Tally, Fault>
        ensures { Loads S.Store self.old self.new result (λ s. IsTally s (batch_entry batch.now ∷ [])) }
    {
        let papers = self.papers_of(batch)?;
        Ok(tally_by(&papers.keyings, &papers.verdicts))
    }

    /// Returns the tally of the given batches, which are read one after another.
    fn tally_all(&mut self, batches: &[Batch]) -> Result<Tally, Fault>
        requires { IsOpen S.Store self.old }
        ensures { Loads S.Store self.old self.new result (λ s. IsTally s (map batch_entry batches.now)) }
    {
        let mut tally = Tally {
            taken: 0,
            differing: 0,
            doubtful_open: 0,
        };
        for batch in batches {
            let one = self.tally_of(batch)?;
            tally = both(tally, one);
        }
        Ok(tally)
    }

    /// Returns the status of a ward.
    pub(crate) fn ward_status(&mut self, ward: &Ward) -> Result<Status, Fault>
        ensures { Loads S.Store self.old self.new result (λ s found. status_entry found ≡ status_of s (ward_entry ward.now)) }
    {
        let candidates = self.list_candidates(ward.number)?;
        let batches = self.list_batches(ward.number)?;
        let tally = self.tally_all(&batches)?;
        Ok(Status {
            ward: ward.number,
            phase: ward.phase,
            candidates: candidates.len(),
            batches: batches.len(),
            taken: tally.taken,
            differing: tally.differing,
            doubtful_open: tally.doubtful_open,
            stages: ward.done,
        })
    }

    /// Returns the status of the ward with the given number, if there is one. Its batches are read one after another,
    /// each with its keyings of the current round and the verdicts on its papers. Changes nothing, and doesn't add to
    /// the states that a stop may leave behind. Returns `Memory` or `Store` if a row can't be read.
    pub fn load_status(&mut self, ward: u32) -> Result<Option<Status>, Fault>
        ensures { Loads S.Store self.old self.new result (λ s found. option_map status_entry found ≡ status_at s ward) }
    {
        let found = self.find_ward(ward)?;
        match found {
            Some(ward) => {
                let status = self.ward_status(&ward)?;
                Ok(Some(status))
            }
            None => Ok(None),
        }
    }

    /// Returns the next step in the given ward, which was found with its count. If the ward's papers are still being
    /// keyed, they are read to find that step.
    pub(crate) fn step_in(&mut self, found: CountedWard) -> Result<NextStep, Fault>
        requires { IsOpen S.Store self.old }
        ensures { Loads S.Store self.old self.new result (λ s step. (w : WardEntry) → IsCountedWard (election_of s w) found → step_entry step ≡ next_of s w) }
    {
        match found.ward.phase {
            Phase::Nominations => Ok(NextStep::Nominations {
                candidates: found.candidates.len(),
                seats: found.ward.seats,
            }),
            Phase::Keying => {
                let status = self.ward_status(&found.ward)?;
                Ok(NextStep::Papers(status))
            }
            Phase::Sealed => Ok(NextStep::Count {
                stage: stage_after(found.ward.done),
                due: due_in(&found),
                candidates: found.candidates,
            }),
            Phase::Declared => Ok(NextStep::Nothing),
        }
    }

    /// Returns the next step in the ward with the given number, if there is one. Once the ward is sealed and has a
    /// stage, no papers are read. Changes nothing, and doesn't add to the states that a stop may leave behind. Returns
    /// `Memory` or `Store` if a row can't be read.
    pub fn load_next(&mut self, ward: u32) -> Result<Option<NextStep>, Fault>
        ensures { Loads S.Store self.old self.new result (λ s found. option_map step_entry found ≡ next_at s ward) }
    {
        let found = self.load_counted(ward)?;
        match found {
            Some(counted) => {
                let step = self.step_in(counted)?;
                Ok(Some(step))
            }
            None => Ok(None),
        }
    }

    /// Returns the ballots of a ward: the preferences of each valid paper in taken batches, ordered by batch and paper;
    /// and how many papers are rejected for each of the five reasons. Changes nothing, and doesn't add to the states
    /// that a stop may leave behind. Returns `Memory` or `Store` if a row can't be read.
    pub fn load_papers(&mut self, ward: u32) -> Result<Ballots<Vec<Prefs>>, Fault>
        ensures { Loads S.Store self.old self.new result (λ s found. StandFor are_listed found (ballots_in (columns_of (candidates_of s ward)) (piles_of s ward))) }
    {
        let none = Vec::new(self.allocator());
        self.find_ballots(none, ward)
    }

    /// Returns the ballots of a ward with equal papers bundled: each list of preferences, with the number of valid
    /// papers that have it. They are the papers that `load_papers` returns, up to their order. Changes nothing, and
    /// doesn't add to the states that a stop may leave behind. Returns `Memory` or `Store` if a row can't be read.
    pub fn load_bundles(&mut self, ward: u32) -> Result<Ballots<Bundles>, Fault>
        ensures loads { Loads S.Store self.old self.new result (λ s found. StandFor are_bundled found (ballots_in (columns_of (candidates_of s ward)) (piles_of s ward))) }
        ensures same { HasCleanDisk (state S.Store self.new) → (s : OfficeState) → IsAt s (state S.Store self.old)
            → IfOk result (λ found. IsPermutation (ballots_in (columns_of (candidates_of s ward)) (piles_of s ward)).papers (papers_of found.papers)) }
    {
        bundles_count_alike();
        let none = Bundles::new(self.allocator());
        self.find_ballots(none, ward)
    }

    /// Returns the columns of the papers of the batch with the given number, if there is one. Changes nothing, and
    /// doesn't add to the states that a stop may leave behind. Returns `Memory` or `Store` if a row can't be read.
    pub fn load_columns(&mut self, batch: u32) -> Result<Option<Columns>, Fault>
        ensures { Loads S.Store self.old self.new result (λ s found. found ≡ columns_at s batch) }
    {
        let found = self.find_batch(batch)?;
        match found {
            Some(batch) => {
                let candidates = self.list_candidates(batch.ward)?;
                Ok(Some(columns_of(&candidates)))
            }
            None => Ok(None),
        }
    }
}

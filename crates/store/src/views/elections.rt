//! The papers and lots on which the count of a ward is based, read from the tables.

ghost use Rattle.std.specs.Prelude.{◌≡◌, ◌++◌, ◌∷◌, [], true, map, option_map, IfOk, IfErr};
ghost use Rattle.register.specs.Offices.{ward_entry, candidate_entry, batch_entry, lot_entry, ward_at, candidates_of, lots_of};
ghost use Rattle.register.specs.Marks.{columns_of};
ghost use Rattle.register.specs.Polls.{pile_of, piles_of, ballots_in, StandFor};
ghost use Rattle.register.specs.Elections.{IsElection, lot_pair, election_of};
ghost use Rattle.store.specs.Elections.{pile_by, is_counted_with, election_in, WasFound, IsInCount, IsFoundFor};
ghost use Rattle.store.specs.Loads.{Loads, IsOpen};

use crate::entries::lots::Lots;
use crate::storage::Store;
use crate::views::papers::{BatchPapers, Keyings};
use count::Bundles;
use paper::Columns;
use register::elections::{is_in_count, lot_pairs, settled_papers_suffice};
use register::marks::columns_of;
use register::{Ballots, Batch, Candidate, CountedWard, DrawnLot, Election, KeepsPapers, Ward};
use sqlite::Alter;
use tables::Fault;
use tables::finding::entries_beginning;
use tables::value_conversion::number;

/// Adds the papers of a batch to those of other batches. The only error is `Memory`, after which those can't be used.
fn add_papers<P: KeepsPapers>(
    ballots: &mut Ballots<P>,
    columns: Columns,
    papers: &BatchPapers,
) -> Result<(), Fault>
    ensures adds { IfOk result (λ _. (piles : _) → StandFor P.holds ballots.old (ballots_in columns piles) → StandFor P.holds ballots.new (ballots_in columns (piles ++ pile_by papers.now ∷ []))) }
    ensures cause { IfErr result (λ f. f ≡ Fault.Memory) }
{
    let Keyings {
        first,
        second,
        third,
        ..
    } = &papers.keyings;
    match ballots.add(columns, first, second, third, &papers.verdicts) {
        Ok(()) => Ok(()),
        Err(_) => Err(Fault::Memory),
    }
}

/// Returns whether a ward was found and is in count with the given candidates.
fn is_found_in_count(found: &Option<Ward>, candidates: &[Candidate]) -> bool
    ensures { result ≡ is_counted_with (option_map ward_entry found.now) (map candidate_entry candidates.now) }
{
    match found {
        Some(ward) => is_in_count(ward, candidates),
        None => false,
    }
}

impl<S: Alter> Store<S> {
    /// Returns the lots for the count of a ward, ordered by stage.
    pub(crate) fn list_lots(&mut self, ward: u32) -> Result<Vec<DrawnLot>, Fault>
        ensures { Loads S.Store self.old self.new result (λ s found. map lot_entry found.items ≡ lots_of s ward) }
    {
        entries_beginning::<Lots, S>(self.alloc, &mut self.conn, &[number(ward)])
    }

    /// Returns the lots for the count of a ward: each stage and the candidate drawn, ordered by stage. Changes nothing,
    /// and doesn't add to the states that a stop may leave behind. Returns `Memory` or `Store` if a row can't be read.
    pub fn load_lots(&mut self, ward: u32) -> Result<Vec<(u8, u8)>, Fault>
        ensures { Loads S.Store self.old self.new result (λ s found. found.items ≡ map lot_pair (lots_of s ward)) }
    {
        let lots = self.list_lots(ward)?;
        match lot_pairs(self.allocator(), &lots) {
            Ok(Some(pairs)) => Ok(pairs),
            Ok(None) => Err(Fault::Store),
            Err(_) => Err(Fault::Memory),
        }
    }

    /// Returns the ballots of the given batches, which are read one after another and added to `kept`, an empty
    /// collection.
    fn ballots_of<P: KeepsPapers + Drop>(
        &mut self,
        kept: P,
        columns: Columns,
        batches: &[Batch],
    ) -> Result<Ballots<P>, Fault>
        requires none { P.holds kept [] }
        requires is_open { IsOpen S.Store self.old }
        ensures { Loads S.Store self.old self.new result (λ s ballots. StandFor P.holds ballots (ballots_in columns (map (pile_of s) (map batch_entry batches.now)))) }
    {
        let mut ballots = Ballots::new(kept);
        for batch in batches {
            let papers = self.papers_of(batch)?;
            add_papers(&mut ballots, columns, &papers)?;
        }
        Ok(ballots)
    }

    /// Returns the ballots of a ward with the given columns. If the ward is in count, its papers are read as those of
    /// settled batches; otherwise the keyings of all clerks are read, one batch after another.
    pub(crate) fn ward_ballots<P: KeepsPapers + Drop>(
        &mut self,
        kept: P,
        ward: u32,
        columns: Columns,
        in_count: bool,
    ) -> Result<Ballots<P>, Fault>
        requires { P.holds kept [] }
        ensures { Loads S.Store self.old self.new result (λ s ballots. (in_count ≡ true → IsInCount s ward) → StandFor P.holds ballots (ballots_in columns (piles_of s ward))) }
    {
        settled_papers_suffice();
        let batches = self.list_batches(ward)?;
        if in_count {
            let settled = self.settled_ballots(kept, columns, &batches)?;
            return Ok(settled);
        }
        let ballots = self.ballots_of(kept, columns, &batches)?;
        Ok(ballots)
    }

    /// Returns the ballots of the ward with the given number, added to `kept`, an empty collection. The columns are
    /// those of the ward's candidates.
    pub(crate) fn find_ballots<P: KeepsPapers + Drop>(
        &mut self,
        kept: P,
        ward: u32,
    ) -> Result<Ballots<P>, Fault>
        requires { P.holds kept [] }
        ensures { Loads S.Store self.old self.new result (λ s ballots. StandFor P.holds ballots (ballots_in (columns_of (candidates_of s ward)) (piles_of s ward))) }
    {
        let found = self.find_ward(ward)?;
        let candidates = self.list_candidates(ward)?;
        let in_count = is_found_in_count(&found, &candidates);
        let columns = columns_of(&candidates);
        let ballots = self.ward_ballots(kept, ward, columns, in_count)?;
        Ok(ballots)
    }

    /// Returns the election in the given ward, which was found with its candidates.
    pub(crate) fn ward_election(&mut self, contest: CountedWard) -> Result<Election, Fault>
        ensures { Loads S.Store self.old self.new result (λ s found. WasFound s contest → IsElection found (election_in s contest)) }
    {
        let in_count = is_in_count(&contest.ward, &contest.candidates);
        let columns = columns_of(&contest.candidates);
        let none = Bundles::new(self.allocator());
        let ballots = self.ward_ballots(none, contest.ward.number, columns, in_count)?;
        let lots = self.load_lots(contest.ward.number)?;
        Ok(Election {
            ward: contest.ward,
            candidates: contest.candidates,
            ballots,
            lots,
        })
    }

    /// Returns the election in the ward with the given number, if there is one.
    pub(crate) fn find_election(&mut self, ward: u32) -> Result<Option<Election>, Fault>
        ensures { Loads S.Store self.old self.new result (λ s found. IsFoundFor found (option_map (election_of s) (ward_at s ward))) }
    {
        let found = self.find_contest(ward)?;
        match found {
            Some(contest) => {
                let election = self.ward_election(contest)?;
                Ok(Some(election))
            }
            None => Ok(None),
        }
    }
}

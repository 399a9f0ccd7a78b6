//! What a ward's count depends on: the ward, its candidates, its ballot papers, and the lots drawn.

ghost use Rattle.std.specs.Prelude.{◌≡◌, ℕ, List, ◌&&◌, ◌+◌, ◌≤◌, true, length, map, sum_by, [], Some, IfOk, IfSome, IsSome};
ghost use Rattle.std.specs.List.{list_all};
ghost use Rattle.votes.specs.Units.{max_seats, max_papers};
ghost use Rattle.count.specs.Bundles.{papers_of};
ghost use Rattle.count.specs.Law.Contest.{contest_for, IsContest};
ghost use Rattle.register.specs.Agreement.{batches_of};
ghost use Rattle.register.specs.Polls.{all_rejected, poll_of, poll_entry, piles_of, ballots_in, ballots_by, settled_judgements};
ghost use Rattle.register.specs.Offices.{WardEntry, OfficeState, MapsAreSorted, ward_entry, candidate_entry, lot_entry, ward_at, candidates_of};
ghost use Rattle.register.specs.Nominations.{is_contested};
ghost use Rattle.register.specs.Elections.{ElectionEntry, IsElection, lot_pair, election_of, has_count, is_counted, is_in_count, contest_of, due_of, elected_of};
ghost use Rattle.register.specs.StateConditions.{all_in_range, all_keyed, is_lot, IsState};
ghost use Rattle.register.specs.Tabulated.{IsCount, IsCountOf};

use crate::candidates::Candidate;
use crate::counts::DrawnLot;
use crate::marks::columns_of;
use crate::phase::Phase;
use crate::polls::{Ballots, PollTally, REJECTIONS};
use crate::ranges::{is_candidate_number, is_lot_stage};
use crate::wards::{Ward, is_contested};
use count::{BundleBook, Bundles, Due, StoredCount, bundles_can_be_counted};
use paper::Columns;
use std::alloc::{AllocError, Global};
use votes::{MAX_SEATS, quota};

/// The election in a ward: its candidates, ordered by number; the ballot papers in its taken batches; and the recorded lots,
/// ordered by stage, each consisting of a stage (counted from 1) and the candidate drawn.
#[derive(Drop)]
pub struct Election {
    pub ward: Ward,
    pub candidates: Vec<Candidate>,
    pub ballots: Ballots<Bundles>,
    pub lots: Vec<(u8, u8)>,
}

/// A ward's count, resumed from its stored stages, with the recorded lots, ordered by stage, each consisting of a stage
/// (counted from 1) and the candidate drawn.
#[derive(Drop)]
pub struct Count {
    pub kept: StoredCount,
    pub lots: Vec<(u8, u8)>,
}

/// A ward, its candidates and, if it is in count, its count.
#[derive(Drop)]
pub struct CountedWard {
    pub ward: Ward,
    pub candidates: Vec<Candidate>,
    pub count: Option<Count>,
}

/// The contents of a stage sheet: a ward with its count, and how many of its ballot papers are rejected with each code from
/// 1 to 5.
#[derive(Drop)]
pub struct WardSheet {
    pub counted: CountedWard,
    pub rejected: [u32; REJECTIONS],
}

/// The progress of a count: what is due, given the recorded lots, and which candidates have been elected in the completed
/// stages.
#[derive(Clone, Copy)]
pub struct Progress {
    pub due: Due,
    pub elected: Columns,
}

/// The laws of an office's elections, for use by callers. They hold if numbers are in range, keyings are complete and entries
/// are in key order. Then every contested ward has an election that can be counted, and no ward exceeds the limits on seats
/// and papers. In a state, once every batch of a ward is settled, the ward's valid and rejected papers together make up all
/// the papers in its batches.
pub fn elections_are_fair()
    ensures fair { (s : OfficeState) (w : WardEntry) → all_in_range s ≡ true → all_keyed s ≡ true → MapsAreSorted s → ward_at s w.number ≡ Some w
        → is_contested w (candidates_of s w.number) ≡ true → IsContest (contest_of (election_of s w)) }
    ensures few { (s : OfficeState) (w : WardEntry) → all_in_range s ≡ true → all_keyed s ≡ true → MapsAreSorted s → ward_at s w.number ≡ Some w
        → (1 ≤ w.seats) × (w.seats ≤ max_seats) × (length (election_of s w).ballots.papers ≤ max_papers) }
    ensures adds_up { (s : OfficeState) (w : WardEntry) → IsState s → (election_of s w).ballots.settled ≡ true
        → length (election_of s w).ballots.papers + all_rejected (election_of s w).ballots.rejected ≡ sum_by (λ b. b.size) (batches_of s w.number) }
{}

/// The law of the papers in a ward that is in count: they consist of one settled keying per batch. In a state, every batch
/// of such a ward is settled. If only two clerks key a batch, the keying used is that of the clerk with the lower number.
pub fn settled_papers_suffice()
    ensures { (s : OfficeState) (w : WardEntry) (columns : List ℕ) → IsState s → ward_at s w.number ≡ Some w → is_in_count (election_of s w) ≡ true
        → ballots_in columns (piles_of s w.number) ≡ ballots_by (settled_judgements s columns (batches_of s w.number)) }
{}

/// Returns whether a ward with the given candidates is in count: it has been sealed, and its election is contested.
pub fn is_in_count(ward: &Ward, candidates: &[Candidate]) -> bool
    ensures { result ≡ (is_counted ward.now.phase && is_contested (ward_entry ward.now) (map candidate_entry candidates.now)) }
{
    match ward.phase {
        Phase::Nominations | Phase::Keying => false,
        Phase::Sealed | Phase::Declared => is_contested(ward, candidates),
    }
}

#[tactic(auto, unfolding(crate::specs::StateConditions::is_lot))]
/// Returns a lot in the form used by the count: its stage, counted from 1, and its candidate. Returns `None` if a number is
/// out of range, which never happens in an office.
fn lot_pair(lot: &DrawnLot) -> Option<(u8, u8)>
    ensures is { IfSome result (λ pair. pair ≡ lot_pair (lot_entry lot.now)) }
    ensures some { is_lot (lot_entry lot.now) ≡ true → IsSome result }
{
    if is_lot_stage(lot.stage) & is_candidate_number(lot.candidate) {
        return Some((lot.stage as u8, lot.candidate as u8));
    }
    None
}

/// Returns lots in the form used by the count, in the same order. Returns `None` if a number is out of range, which never
/// happens in an office. Returns `AllocError` if an allocation fails.
pub fn lot_pairs(alloc: Global, lots: &[DrawnLot]) -> Result<Option<Vec<(u8, u8)>>, AllocError>
    ensures is { IfOk result (λ found. IfSome found (λ pairs. pairs.items ≡ map lot_pair (map lot_entry lots.now))) }
    ensures some { IfOk result (λ found. list_all is_lot (map lot_entry lots.now) ≡ true → IsSome found) }
{
    let mut pairs = Vec::new(alloc);
    for lot in lots {
        let Some(pair) = lot_pair(lot) else {
            return Ok(None);
        };
        pairs.push(pair)?;
    }
    Ok(Some(pairs))
}

/// Returns a new book of the given bundles if they form a contest that can be counted; the bundles of every contested ward
/// of an office do. Returns `AllocError` if an allocation fails.
pub fn book_of<'a>(
    alloc: Global,
    columns: Columns,
    seats: u32,
    bundles: &'a Bundles,
) -> Result<Option<BundleBook<'a>>, AllocError>
    ensures is { IfOk result (λ found. IfSome found (λ book. book ≡ record { contest = contest_for columns seats (papers_of bundles.now); history = []; bundles = bundles.now })) }
    ensures some { IfOk result (λ found. IsContest (contest_for columns seats (papers_of bundles.now)) → IsSome found) }
{
    if seats > u32::from(MAX_SEATS) {
        return Ok(None);
    }
    let seats = seats as u8;
    if !bundles_can_be_counted(&columns, seats, bundles) {
        return Ok(None);
    }
    let book = BundleBook::new(alloc, columns, seats, bundles)?;
    Ok(Some(book))
}

impl Count {
    /// Returns the progress of the count of a contested ward. Allocates nothing.
    pub fn progress(&self) -> Progress
        ensures { (e : ElectionEntry) → IsCountOf e self.now → has_count e ≡ true → (result.due ≡ due_of e) × (result.elected ≡ elected_of e) }
    {
        Progress {
            due: self.kept.due_by(&self.lots),
            elected: self.kept.elected(),
        }
    }

    /// Returns the number of valid papers. Allocates nothing.
    pub fn valid(&self) -> u32
        ensures { (e : ElectionEntry) → IsCountOf e self.now → result ≡ length e.ballots.papers }
    {
        self.kept.bundles().papers()
    }
}

impl Election {
    /// Returns the poll of the ward, or `None` if its number of seats is 0 or exceeds the limit, which never happens in an
    /// office. Allocates nothing.
    pub fn poll(&self) -> Option<PollTally>
        ensures is { IfSome result (λ poll. (e : ElectionEntry) → IsElection self.now e → poll_entry poll ≡ poll_of e.ward.seats e.ballots) }
        ensures some { 1 ≤ self.now.ward.seats → self.now.ward.seats ≤ max_seats → IsSome result }
    {
        if self.ward.seats < 1 || self.ward.seats > u32::from(MAX_SEATS) {
            return None;
        }
        let valid = self.ballots.papers.papers();
        Some(PollTally {
            valid,
            rejected: self.ballots.rejected,
            quota: quota(valid, self.ward.seats as u8),
            settled: self.ballots.settled,
        })
    }

    /// Returns the ward with its count at the start, with no completed stages, and how many of its papers are rejected.
    /// Returns `None` if its number of seats exceeds the limit, which never happens in an office. Returns `AllocError` if an
    /// allocation fails.
    pub fn begin(self, alloc: Global) -> Result<Option<WardSheet>, AllocError>
        ensures same { IfOk result (λ found. IfSome found (λ begun. (begun.counted.ward ≡ self.ward) × (begun.counted.candidates ≡ self.candidates))) }
        ensures is { IfOk result (λ found. IfSome found (λ begun. (e : ElectionEntry) → IsElection self e → e.ward.done ≡ 0 → IsContest (contest_of e) → IsCount e begun.counted.count)) }
        ensures rejected { IfOk result (λ found. IfSome found (λ begun. (e : ElectionEntry) → IsElection self e → begun.rejected ≡ e.ballots.rejected)) }
        ensures some { IfOk result (λ found. self.ward.seats ≤ max_seats → IsSome found) }
    {
        if self.ward.seats > u32::from(MAX_SEATS) {
            return Ok(None);
        }
        let seats = self.ward.seats as u8;
        let columns = columns_of(&self.candidates);
        let rejected = self.ballots.rejected;
        let kept = StoredCount::begin(alloc, columns, seats, self.ballots.papers)?;
        let count = Count {
            kept,
            lots: self.lots,
        };
        let counted = CountedWard {
            ward: self.ward,
            candidates: self.candidates,
            count: Some(count),
        };
        Ok(Some(WardSheet { counted, rejected }))
    }
}

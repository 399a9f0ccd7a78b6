//! The counts of wards: the completed stages, the lots drawn, and the tabulation.
//!
//! The stages of a count, and what is due before each of them, are determined by its papers and lots. Each count is therefore
//! recounted, once, and compared with the rows. The resulting bundles and figures are kept for `is_tabulated`.

ghost use Rattle.std.specs.Prelude.{◌≡◌, ◌≤◌, ◌<◌, true, [], map, slice_get, option_copied, is_some, IfOk, IfSome, OnOk};
ghost use Rattle.std.specs.List.{list_all, flat_map, AllByRecursion};
ghost use Rattle.count.specs.Law.Contest.{IsContest};
ghost use Rattle.register.specs.Offices.{MapsAreSorted, ward_entry, candidate_entry, ward_at};
ghost use Rattle.register.specs.Elections.{ElectionEntry, IsElectionFrom, election_of, has_count, contest_of, stages_of};
ghost use Rattle.register.specs.Elections.{is_declared, has_finished, is_among, is_right_so_far, is_uncounted, is_counted_right};
ghost use Rattle.register.specs.StateConditions.{is_lot, all_in_range, all_keyed, all_counted};
ghost use Rattle.register.specs.Tabulated.{bundles_in, figures_in, tabulation_of, tabulation_entries};
ghost use Rattle.rowcheck.specs.States.{state_of};
ghost use Rattle.rowcheck.specs.Walks.Counts.{IsFair, is_drawn_by, IsOnBundlesOf, HasCounted, IsAdded};

use crate::finding::{candidates_of, has_ward, lots_of};
use crate::polls::{ballots_of, is_in_count};
use crate::rows::Rows;
use count::{BundleBook, Bundles, CountBook, Due, dues_to};
use paper::Columns;
use register::elections::{book_of, elections_are_fair, lot_pairs};
use register::marks::columns_of;
use register::ranges::LAST_LOT_STAGE;
use register::{Ballots, Candidate, DrawnLot, Phase, Tabulation, Ward};
use std::alloc::{AllocError, Global};

/// The number of stages to recount if the rows claim more stages than a count can have.
const TOO_MANY: u32 = LAST_LOT_STAGE + 1;

/// Returns how many stages to recount if the rows claim `done`: `done` itself or, if no count has that many, one more than any
/// count can have.
fn stages_asked(done: u32) -> u32
    ensures few { done ≤ 31 → result ≡ done }
    ensures many { 31 < done → result ≡ 32 }
{
    if done < TOO_MANY {
        return done;
    }
    TOO_MANY
}

/// Returns whether a lot is due and the given candidate is one of those tied.
fn is_among(candidate: u8, due: Option<&Due>) -> bool
    ensures { result ≡ is_among candidate (option_copied due.entry) }
{
    match due {
        Some(Due::Lot { among, .. }) => among.as_slice().contains(&candidate),
        Some(Due::Act(_)) | Some(Due::Finished) | None => false,
    }
}

/// Returns whether a lot is for a stage that needs one and names one of the tied candidates.
fn is_drawn_by(dues: &[Due], lot: (u8, u8)) -> bool
    ensures { result ≡ is_drawn_by dues.now lot }
{
    let (stage, candidate) = lot;
    let place = (stage as usize).saturating_sub(1);
    is_among(candidate, dues.get(place))
}

fn are_drawn_by(dues: &[Due], lots: &[(u8, u8)]) -> bool
    ensures { result ≡ list_all (is_drawn_by dues.now) lots.now }
{
    lots.iter().all(|lot| is_drawn_by(dues, *lot))
}

/// Returns whether nothing more is due after the given number of stages.
fn is_finished_at(dues: &[Due], done: u32) -> bool
    ensures { result ≡ has_finished (slice_get dues.now done) }
{
    match dues.get(done as usize) {
        Some(Due::Finished) => true,
        Some(Due::Act(_)) | Some(Due::Lot { .. }) | None => false,
    }
}

/// Returns whether a ward is declared.
fn is_declared(phase: Phase) -> bool
    ensures { result ≡ is_declared phase }
{
    phase.number() == Phase::Declared.number()
}

/// Counts, in a new book, as many stages as a ward claims to be done, or as many as there are. Returns whether there are as many
/// stages as the ward claims, every lot was needed and, if the ward is declared, nothing more is due. Returns `AllocError` if an
/// allocation fails.
fn count_done(
    alloc: Global,
    ward: &Ward,
    lots: &[(u8, u8)],
    book: &mut BundleBook<'_>,
) -> Result<bool, AllocError>
    requires { book.old.history ≡ [] }
    ensures same { book.new.contest ≡ book.old.contest }
    ensures is { IfOk result (λ yes. (e : ElectionEntry) → IsOnBundlesOf e (ward_entry ward.now) lots.now book.old.contest → yes ≡ is_right_so_far e) }
    ensures counted { IfOk result (λ yes. (e : ElectionEntry) → IsOnBundlesOf e (ward_entry ward.now) lots.now book.old.contest → yes ≡ true → book.new.history ≡ stages_of e) }
{
    let asked = stages_asked(ward.done);
    let dues = dues_to(alloc, book, lots, asked as usize)?;
    let counted = book.stages().len() == ward.done as usize;
    let drawn = are_drawn_by(&dues, lots);
    let finished = is_finished_at(&dues, ward.done);
    Ok(counted & (drawn & (!is_declared(ward.phase) | finished)))
}

/// Adds the bundles and figures of a ward's count to the tabulation, if any stage has been done. Returns `AllocError` if an
/// allocation fails.
fn add_stages(
    alloc: Global,
    ward: &Ward,
    columns: &Columns,
    bundles: &Bundles,
    book: &BundleBook<'_>,
    tabulation: &mut Tabulation,
) -> Result<(), AllocError>
    ensures { OnOk result ((e : ElectionEntry) → HasCounted e (ward_entry ward.now) columns.now bundles.now book.now
        → IsAdded e (tabulation_entries tabulation.old) (tabulation_entries tabulation.new)) }
{
    if ward.done == 0 {
        return Ok(());
    }
    // the clauses of `len` tell the prover that the lists are distinct, so these are the book's bundles
    let _ = bundles.len();
    tabulation.add(
        alloc,
        ward.number,
        columns,
        bundles,
        book.places(),
        book.stages(),
    )
}

/// Adds the completed stages of a ward's count to the tabulation. Returns whether the count is correct: it has as many stages as
/// the ward claims, every lot was needed and, if the ward is declared, nothing more is due. Returns `AllocError` if an allocation
/// fails.
fn add_from_ballots(
    alloc: Global,
    ward: &Ward,
    candidates: &[Candidate],
    ballots: &Ballots<Bundles>,
    lots: &[(u8, u8)],
    tabulation: &mut Tabulation,
) -> Result<bool, AllocError>
    ensures is { IfOk result (λ yes. (e : ElectionEntry) → IsElectionFrom e (ward_entry ward.now) (map candidate_entry candidates.now) ballots.now lots.now
        → IsContest (contest_of e) → yes ≡ is_right_so_far e) }
    ensures added { IfOk result (λ yes. (e : ElectionEntry) → IsElectionFrom e (ward_entry ward.now) (map candidate_entry candidates.now) ballots.now lots.now
        → IsContest (contest_of e) → has_count e ≡ true → yes ≡ true → IsAdded e (tabulation_entries tabulation.old) (tabulation_entries tabulation.new)) }
{
    let columns = columns_of(candidates);
    let Some(mut book) = book_of(alloc, columns, ward.seats, &ballots.papers)? else {
        return Ok(false);
    };
    if !count_done(alloc, ward, lots, &mut book)? {
        return Ok(false);
    }
    add_stages(alloc, ward, &columns, &ballots.papers, &book, tabulation)?;
    Ok(true)
}

/// Looks up the papers and lots of a ward in count and calls `add_from_ballots`. Returns `AllocError` if an allocation fails.
fn add_in_count(
    alloc: Global,
    rows: &Rows,
    ward: &Ward,
    tabulation: &mut Tabulation,
) -> Result<bool, AllocError>
    requires rise { MapsAreSorted (state_of rows.now) }
    requires in_range { list_all is_lot (state_of rows.now).lots ≡ true }
    requires contested { has_count (election_of (state_of rows.now) (ward_entry ward.now)) ≡ true }
    requires fair { IsContest (contest_of (election_of (state_of rows.now) (ward_entry ward.now))) }
    ensures is { IfOk result (λ yes. yes ≡ is_right_so_far (election_of (state_of rows.now) (ward_entry ward.now))) }
    ensures added { IfOk result (λ yes. yes ≡ true → IsAdded (election_of (state_of rows.now) (ward_entry ward.now)) (tabulation_entries tabulation.old) (tabulation_entries tabulation.new)) }
{
    let candidates = candidates_of(rows, ward.number);
    let ballots = ballots_of(alloc, rows, columns_of(candidates), ward.number)?;
    match lot_pairs(alloc, lots_of(rows, ward.number))? {
        Some(lots) => add_from_ballots(alloc, ward, candidates, &ballots, &lots, tabulation),
        None => Ok(false),
    }
}

/// Returns whether a ward has no completed stages and no recorded lots.
fn is_uncounted(rows: &Rows, ward: &Ward) -> bool
    requires { MapsAreSorted (state_of rows.now) }
    ensures { result ≡ is_uncounted (election_of (state_of rows.now) (ward_entry ward.now)) }
{
    let undrawn = lots_of(rows, ward.number).is_empty();
    (ward.done == 0) & undrawn
}

/// Adds the completed stages of a ward's count to the tabulation. Returns whether the count is correct; a ward without a count
/// must have no completed stages and no lots. Returns `AllocError` if an allocation fails.
fn add_count(
    alloc: Global,
    rows: &Rows,
    ward: &Ward,
    tabulation: &mut Tabulation,
) -> Result<bool, AllocError>
    requires rise { MapsAreSorted (state_of rows.now) }
    requires in_range { list_all is_lot (state_of rows.now).lots ≡ true }
    requires fair { IsFair (state_of rows.now) (ward_entry ward.now) }
    ensures is { IfOk result (λ yes. yes ≡ is_counted_right (election_of (state_of rows.now) (ward_entry ward.now))) }
    ensures added { IfOk result (λ yes. yes ≡ true → IsAdded (election_of (state_of rows.now) (ward_entry ward.now)) (tabulation_entries tabulation.old) (tabulation_entries tabulation.new)) }
{
    if is_in_count(rows, ward) {
        return add_in_count(alloc, rows, ward, tabulation);
    }
    Ok(is_uncounted(rows, ward))
}

/// Returns the tabulation of the given wards' counts if all of them are correct, or `None` if any of them isn't. Returns
/// `AllocError` if an allocation fails.
fn tabulation_in(
    alloc: Global,
    rows: &Rows,
    wards: &[Ward],
) -> Result<Option<Tabulation>, AllocError>
    requires rise { MapsAreSorted (state_of rows.now) }
    requires in_range { list_all is_lot (state_of rows.now).lots ≡ true }
    requires fair { AllByRecursion (λ w. IsFair (state_of rows.now) (ward_entry w)) wards.now }
    ensures is { IfOk result (λ found. is_some found ≡ list_all (λ w. is_counted_right (election_of (state_of rows.now) (ward_entry w))) wards.now) }
    ensures bundles { IfOk result (λ found. IfSome found (λ t. (tabulation_entries t).bundles ≡ flat_map (λ w. bundles_in (election_of (state_of rows.now) (ward_entry w))) wards.now)) }
    ensures figures { IfOk result (λ found. IfSome found (λ t. (tabulation_entries t).figures ≡ flat_map (λ w. figures_in (election_of (state_of rows.now) (ward_entry w))) wards.now)) }
{
    let mut tabulation = Tabulation::empty(alloc);
    for ward in wards {
        if !add_count(alloc, rows, ward, &mut tabulation)? {
            return Ok(None);
        }
    }
    Ok(Some(tabulation))
}

fn are_of_wards(rows: &Rows, lots: &[DrawnLot]) -> bool
    requires { MapsAreSorted (state_of rows.now) }
    ensures { result ≡ list_all (λ l. is_some (ward_at (state_of rows.now) l.ward)) lots.now }
{
    lots.iter().all(|lot| has_ward(rows, lot.ward))
}

/// Returns the tabulation of the counts of all wards, for comparison by `is_tabulated`. Returns `None` unless all lots belong to
/// existing wards and the counts match what the rows claim.
///
/// In each contested ward that has been sealed, counting its papers with its lots must yield the completed stages. Each of its
/// lots must be for a stage, no later than the next one, that needed or needs a lot, and must name one of the tied candidates. If
/// the ward is declared, the count must be finished. In any other ward, no stage may be done and no lot recorded. This is the
/// seventh condition on the rows of an office, assuming that its tables are in key order without duplicates and meet the first
/// and fourth conditions. Returns `AllocError` if an allocation fails.
pub fn all_counted(alloc: Global, rows: &Rows) -> Result<Option<Tabulation>, AllocError>
    requires rise { MapsAreSorted (state_of rows.now) }
    requires in_range { all_in_range (state_of rows.now) ≡ true }
    requires keyed { all_keyed (state_of rows.now) ≡ true }
    ensures is { IfOk result (λ found. is_some found ≡ all_counted (state_of rows.now)) }
    ensures counted { IfOk result (λ found. IfSome found (λ t. tabulation_entries t ≡ tabulation_of (state_of rows.now))) }
{
    if !are_of_wards(rows, &rows.lots) {
        return Ok(None);
    }
    elections_are_fair();
    tabulation_in(alloc, rows, &rows.wards)
}

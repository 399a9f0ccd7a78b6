//! Sorting papers by holder, into parcels of equal value.

ghost use Rattle.std.specs.Prelude.{◌≡◌, ℕ, ◌+◌, ◌<◌, ◌≤◌, List, vec_len, OnOk, IfOk};
ghost use Rattle.std.specs.List.{sum_by};
ghost use Rattle.paper.specs.Columns.{max_candidates};
ghost use Rattle.votes.specs.Units.{one_vote};
ghost use Rattle.paper.specs.Standing.{is_continuing};
ghost use Rattle.count.specs.Law.Places.{first_of};
ghost use Rattle.count.specs.Inside.Holdings.{holder_count, total_at, total_of, total, AreNumbered, OnlyColumns, IsTransferRule, new_value, at_passed, total_passed};
ghost use Rattle.count.specs.Books.{AreRankings};
ghost use Rattle.count.specs.declared.parcel.TransferRule.TheVariants.{AsReceived};

use crate::parcel::{Holding, Parcel, TransferRule};
use paper::{MAX_CANDIDATES, Prefs, Standing, available_from};
use std::alloc::{AllocError, Global};
use votes::{ONE_VOTE, Votes, transfer_value};

/// The number of holders: each possible candidate number, and 0 for no one.
pub const HOLDERS: usize = MAX_CANDIDATES + 1;

/// Returns the first preference, or 0 if there is none.
pub fn first_preference(rest: &[u8]) -> u8
    ensures { result ≡ first_of rest.now }
{
    match rest.first() {
        Some(c) => *c,
        None => 0,
    }
}

/// Returns empty holdings: one for no one, and one for each number.
fn empty_holdings<'a>(alloc: Global) -> Result<Vec<Holding<'a>>, AllocError>
    ensures len { IfOk result (λ holdings. vec_len holdings ≡ holder_count) }
    ensures numbered { IfOk result (λ holdings. AreNumbered 0 holdings.items) }
    ensures empty { IfOk result (λ holdings. (f : ℕ → List ℕ → ℕ → ℕ) → total f holdings.items ≡ 0) }
{
    let mut holdings = Vec::with_capacity(alloc, HOLDERS)?;
    for holder in 0..HOLDERS as u8 {
        holdings.push(Holding {
            holder,
            parcels: Vec::new(alloc),
        })?;
    }
    Ok(holdings)
}

/// Starts a parcel with the given paper.
fn start_parcel<'a>(
    alloc: Global,
    parcels: &mut Vec<Parcel<'a>>,
    value: Votes,
    rest: &'a [u8],
) -> Result<(), AllocError>
    requires { value ≤ one_vote }
    ensures { OnOk result ((f : List ℕ → ℕ → ℕ) → total_of f parcels.new.items ≡ total_of f parcels.old.items + f rest.now value) }
{
    let mut papers = Vec::new(alloc);
    papers.push(rest)?;
    parcels.push(Parcel { value, papers })?;
    Ok(())
}

/// Adds a paper to the last parcel if it has the same value, otherwise to a new parcel.
fn add_paper<'a>(
    alloc: Global,
    parcels: &mut Vec<Parcel<'a>>,
    value: Votes,
    rest: &'a [u8],
) -> Result<(), AllocError>
    requires { value ≤ one_vote }
    ensures { OnOk result ((f : List ℕ → ℕ → ℕ) → total_of f parcels.new.items ≡ total_of f parcels.old.items + f rest.now value) }
{
    let count = parcels.len();
    if count > 0 {
        let last = &mut parcels[count - 1];
        if last.value == value {
            last.papers.push(rest)?;
            return Ok(());
        }
    }
    start_parcel(alloc, parcels, value, rest)?;
    Ok(())
}

/// Credits a paper to the candidate who is its first preference, or to no one.
fn give<'a>(
    alloc: Global,
    holdings: &mut Vec<Holding<'a>>,
    value: Votes,
    rest: &'a [u8],
) -> Result<(), AllocError>
    requires len { vec_len holdings.old ≡ holder_count }
    requires numbered { AreNumbered 0 holdings.old.items }
    requires known { first_of rest.now ≤ max_candidates }
    requires small { value ≤ one_vote }
    ensures len { OnOk result (vec_len holdings.new ≡ holder_count) }
    ensures numbered { OnOk result (AreNumbered 0 holdings.new.items) }
    ensures given { OnOk result ((f : ℕ → List ℕ → ℕ → ℕ) → total f holdings.new.items ≡ total f holdings.old.items + f (first_of rest.now) rest.now value) }
{
    let holding = &mut holdings[usize::from(first_preference(rest))];
    add_paper(alloc, &mut holding.parcels, value, rest)?;
    Ok(())
}

/// Passes papers on to their next available preferences, at the given value.
#[tactic(auto, using(crate::proofs::ParcelTotals::known_holders))]
fn pass_papers<'a>(
    alloc: Global,
    holdings: &mut Vec<Holding<'a>>,
    papers: &[&'a [u8]],
    value: Votes,
    standing: &Standing,
) -> Result<(), AllocError>
    requires known { OnlyColumns (is_continuing standing.now) }
    requires len { vec_len holdings.old ≡ holder_count }
    requires numbered { AreNumbered 0 holdings.old.items }
    requires small { value ≤ one_vote }
    ensures len { OnOk result (vec_len holdings.new ≡ holder_count) }
    ensures numbered { OnOk result (AreNumbered 0 holdings.new.items) }
    ensures passed { OnOk result ((f : ℕ → List ℕ → ℕ → ℕ)
        → total f holdings.new.items ≡ total f holdings.old.items + total_at (at_passed f (is_continuing standing.now) AsReceived) value papers.now) }
{
    for paper in papers {
        give(alloc, holdings, value, available_from(paper, 1, standing))?;
    }
    Ok(())
}

/// Returns the value of a paper after it is passed on.
pub fn value_by(rule: &TransferRule, value: Votes) -> Votes
    requires rule { IsTransferRule rule.now }
    requires small { value ≤ one_vote }
    ensures is { result ≡ new_value rule.now value }
    ensures small { result ≤ one_vote }
{
    match rule {
        TransferRule::AsReceived => value,
        TransferRule::Share { surplus, credited } => transfer_value(*surplus, value, *credited),
    }
}

/// Passes on all parcels of a holding.
fn pass_parcels<'a>(
    alloc: Global,
    holdings: &mut Vec<Holding<'a>>,
    parcels: &[Parcel<'a>],
    standing: &Standing,
    rule: &TransferRule,
) -> Result<(), AllocError>
    requires known { OnlyColumns (is_continuing standing.now) }
    requires len { vec_len holdings.old ≡ holder_count }
    requires numbered { AreNumbered 0 holdings.old.items }
    requires rule { IsTransferRule rule.now }
    ensures len { OnOk result (vec_len holdings.new ≡ holder_count) }
    ensures numbered { OnOk result (AreNumbered 0 holdings.new.items) }
    ensures passed { OnOk result ((f : ℕ → List ℕ → ℕ → ℕ) → total f holdings.new.items ≡ total f holdings.old.items + total_of (at_passed f (is_continuing standing.now) rule.now) parcels.now) }
{
    for parcel in parcels {
        let value = value_by(rule, parcel.value);
        pass_papers(alloc, holdings, &parcel.papers, value, standing)?;
    }
    Ok(())
}

/// Returns the holdings of the given candidate's papers after they are passed on.
pub fn pass_on<'a>(
    alloc: Global,
    holdings: &[Holding<'a>],
    c: u8,
    standing: &Standing,
    rule: &TransferRule,
) -> Result<Vec<Holding<'a>>, AllocError>
    requires known { OnlyColumns (is_continuing standing.now) }
    requires rule { IsTransferRule rule.now }
    ensures { IfOk result (λ moved. (f : ℕ → List ℕ → ℕ → ℕ) → total f moved.items ≡ total_passed f c (is_continuing standing.now) rule.now holdings.now) }
{
    let mut moved = empty_holdings(alloc)?;
    for holding in holdings {
        if holding.holder == c {
            pass_parcels(alloc, &mut moved, &holding.parcels, standing, rule)?;
        }
    }
    Ok(moved)
}

/// Returns the holdings when each paper is credited to its first preference, as one vote.
#[tactic(auto, using(crate::proofs::FirstLemmas::first_facts))]
pub fn first_holdings<'a>(
    alloc: Global,
    papers: &'a [Prefs],
) -> Result<Vec<Holding<'a>>, AllocError>
    ensures dealt { IfOk result (λ holdings. (f : ℕ → List ℕ → ℕ → ℕ) → total f holdings.items ≡ sum_by (λ paper. f (first_of paper) paper one_vote) papers.now) }
    ensures rankings { IfOk result (λ _. AreRankings papers.now) }
{
    let mut holdings = empty_holdings(alloc)?;
    for prefs in papers {
        give(
            alloc,
            &mut holdings,
            Votes::from_units(ONE_VOTE),
            prefs.as_slice(),
        )?;
    }
    Ok(holdings)
}

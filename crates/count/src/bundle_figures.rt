//! The worth of the papers of bundles, and the stage recorded from it.

ghost use Rattle.std.specs.Prelude.{◌≡◌, ℕ, ◌+◌, ◌*◌, ◌≤◌, [], ◌∷◌, map, reverse, length, slice_index};
ghost use Rattle.std.specs.List.{AllByRecursion};
ghost use Rattle.votes.specs.Units.{max_units};
ghost use Rattle.paper.specs.Columns.{max_candidates};
ghost use Rattle.count.specs.Law.Contest.{numbers};
ghost use Rattle.count.specs.Law.Count.{begun};
ghost use Rattle.count.specs.Inside.Holdings.{holder_count, newest_lost as newest_lost_of};
ghost use Rattle.count.specs.StoredCounts.{places_after};
ghost use Rattle.count.specs.Inside.Placing.{contest_on, IsDueInBook, IsSound, IsFigured, value_of, value_to, worth_placed, votes_from as votes_from_of, lost_from as lost_from_of};

use crate::bundles::Bundles;
use crate::elected::is_transferred_with;
use crate::parcel_figures::newest_lost;
use crate::placed::Placed;
use crate::sorting_papers::HOLDERS;
use crate::stages::{Action, Stage};
use crate::terms::Terms;
use paper::{Columns, MAX_CANDIDATES};
use votes::Votes;

/// Returns the worth of all papers, in units.
fn worth(bundles: &Bundles, places: &[Placed]) -> u64
    requires { worth_placed value_of places.now bundles.now ≤ max_units }
    ensures { result ≡ worth_placed value_of places.now bundles.now }
{
    let mut sum = 0u64;
    let mut rest = places;
    for (_, papers) in bundles.iter() {
        if let Some((at, others)) = rest.split_first() {
            sum += u64::from(*papers) * at.value.units();
            rest = others;
        }
    }
    sum
}

/// Adds the worth of papers at one place to their holder's sum.
fn add_worth(sums: &mut [u64; HOLDERS], at: &Placed, papers: u32)
    requires holder { at.now.holder ≤ max_candidates }
    requires fits { slice_index sums.old at.now.holder + papers * at.now.value ≤ max_units }
    ensures size { length sums.new ≡ holder_count }
    ensures each { (h : ℕ) → h ≤ max_candidates → slice_index sums.new h ≡ slice_index sums.old h + papers * value_to h at.now }
{
    sums[usize::from(at.holder)] += u64::from(papers) * at.value.units();
}

/// Returns the worth of each holder's papers, in units, by number; index 0 is the worth of the papers that no one holds.
fn sums(bundles: &Bundles, places: &[Placed]) -> [u64; HOLDERS]
    requires sound { AllByRecursion IsSound places.now }
    requires small { (h : ℕ) → worth_placed (value_to h) places.now bundles.now ≤ max_units }
    ensures size { length result ≡ holder_count }
    ensures each { (h : ℕ) → h ≤ max_candidates → slice_index result h ≡ worth_placed (value_to h) places.now bundles.now }
{
    let mut sums = [0u64; HOLDERS];
    let mut rest = places;
    for (_, papers) in bundles.iter() {
        if let Some((at, others)) = rest.split_first() {
            add_worth(&mut sums, at, *papers);
            rest = others;
        }
    }
    sums
}

/// Returns the votes of a candidate, given the worth of each holder's papers: exactly the quota once the surplus is
/// transferred.
fn votes_from(
    quota: Votes,
    stages: &[Stage],
    action: &Action,
    sums: &[u64; HOLDERS],
    c: u8,
) -> Votes
    requires few { c ≤ max_candidates }
    ensures { result ≡ votes_from_of quota (reverse stages.now) action.now sums.now c }
{
    if is_transferred_with(stages, action, c) {
        return quota;
    }
    Votes::from_units(sums[usize::from(c)])
}

/// Returns the votes for all candidate numbers, given the worth of each holder's papers.
fn all_votes_from(
    quota: Votes,
    stages: &[Stage],
    action: &Action,
    sums: &[u64; HOLDERS],
) -> [Votes; MAX_CANDIDATES]
    ensures { result ≡ map (votes_from_of quota (reverse stages.now) action.now sums.now) numbers }
{
    let mut votes = [Votes::from_units(0); MAX_CANDIDATES];
    for i in 0..MAX_CANDIDATES {
        votes[i] = votes_from(quota, stages, action, sums, i as u8 + 1);
    }
    votes
}

/// Returns the loss by fractions after the action, which moved bundles to new places; a surplus leaves the quota with its candidate.
fn lost_from(
    quota: Votes,
    bundles: &Bundles,
    stages: &[Stage],
    action: &Action,
    places: &[Placed],
    moved: &[Placed],
) -> Votes
    requires lost { newest_lost_of (reverse stages.now) ≤ max_units }
    requires old { worth_placed value_of places.now bundles.now ≤ max_units }
    requires new { worth_placed value_of moved.now bundles.now ≤ max_units }
    ensures { result ≡ lost_from_of quota (reverse stages.now) action.now (worth_placed value_of places.now bundles.now) (worth_placed value_of moved.now bundles.now) }
{
    let before = newest_lost(stages);
    match action {
        Action::First | Action::Exclude(_) | Action::ExcludeLast(_) => Votes::from_units(before),
        Action::Surplus(_) => {
            let given = worth(bundles, places).saturating_sub(worth(bundles, moved));
            Votes::from_units(before + given.saturating_sub(quota.units()))
        }
    }
}

/// Returns the stage of the action, which moved bundles to new places: its figures, but not its newly elected candidates.
pub fn figured(
    terms: &Terms,
    bundles: &Bundles,
    stages: &[Stage],
    action: &Action,
    places: &[Placed],
    moved: &[Placed],
) -> Stage
    requires sound { AllByRecursion IsSound places.now }
    requires sound_moved { AllByRecursion IsSound moved.now }
    requires lost { newest_lost_of (reverse stages.now) ≤ max_units }
    ensures { IsDueInBook (contest_on terms.now bundles.now) (reverse stages.now) bundles.now places.now action.now
        → moved.now ≡ places_after (contest_on terms.now bundles.now) (begun action.now [] ∷ reverse stages.now) bundles.now
        → IsFigured (contest_on terms.now bundles.now) (reverse stages.now) action.now result }
{
    let _few = bundles.papers();
    let sums = sums(bundles, moved);
    Stage {
        action: *action,
        votes: all_votes_from(terms.quota, stages, action, &sums),
        elected: Columns::empty(),
        non_transferable: Votes::from_units(sums[0]),
        lost: lost_from(terms.quota, bundles, stages, action, places, moved),
    }
}

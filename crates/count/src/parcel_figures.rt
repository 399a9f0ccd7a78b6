//! What a stage records.

ghost use Rattle.std.specs.Prelude.{◌≡◌, ℕ, ◌+◌, ◌-◌, ◌<◌, ◌≤◌, ◌||◌, [], ◌∷◌, List, map, reverse, vec_len, vec_capacity};
ghost use Rattle.paper.specs.Columns.{max_candidates};
ghost use Rattle.votes.specs.Units.{max_units};
ghost use Rattle.count.specs.Law.Contest.{numbers};
ghost use Rattle.count.specs.Law.Elected.{is_transferred as is_transferred_of, transfers as transfers_of};
ghost use Rattle.count.specs.Inside.Holdings.{total_of, total, worth as worth_of, worth_to as worth_to_of, votes_with as votes_with_of, AreSmall};
ghost use Rattle.count.specs.Inside.Holdings.{lost_with as lost_with_of, newest_non_transferable, newest_lost as newest_lost_of};
ghost use Rattle.count.specs.Inside.BookInvariants.{Records};

use crate::elected::{is_transferred_with, newest_votes};
use crate::moving::passes_on;
use crate::parcel::{Holding, Parcel};
use crate::stage_adding::add_stage;
use crate::stages::{Action, Stage};
use crate::terms::Terms;
use paper::{Columns, MAX_CANDIDATES};
use votes::Votes;

/// Returns the worth of the papers of the given parcels, in units.
fn worth_of_parcels(parcels: &[Parcel]) -> u64
    requires { total_of (λ rest v. v) parcels.now ≤ max_units }
    ensures { result ≡ total_of (λ rest v. v) parcels.now }
{
    let mut sum = 0u64;
    for parcel in parcels {
        sum += parcel.value.units() * parcel.papers.len() as u64;
    }
    sum
}

/// Returns the worth of the papers that one holder has in the given holdings, in units.
fn worth_to(holder: u8, holdings: &[Holding]) -> u64
    requires { worth_of holdings.now ≤ max_units }
    ensures { result ≡ worth_to_of holder holdings.now }
{
    let mut sum = 0u64;
    for holding in holdings {
        if holding.holder == holder {
            sum += worth_of_parcels(&holding.parcels);
        }
    }
    sum
}

/// Returns the total worth of the papers of the given holdings, in units.
fn worth(holdings: &[Holding]) -> u64
    requires { worth_of holdings.now ≤ max_units }
    ensures { result ≡ worth_of holdings.now }
{
    let mut sum = 0u64;
    for holding in holdings {
        sum += worth_of_parcels(&holding.parcels);
    }
    sum
}

/// Returns the votes of the given candidate after the action has moved papers: exactly the quota once the surplus is transferred,
/// otherwise the sum of the votes kept and received.
fn votes_with(quota: Votes, stages: &[Stage], action: &Action, moved: &[Holding], c: u8) -> Votes
    requires some { 1 ≤ c }
    requires few { c ≤ max_candidates }
    requires small { AreSmall (reverse stages.now) moved.now }
    ensures { result ≡ votes_with_of quota (reverse stages.now) action.now moved.now c }
{
    if is_transferred_with(stages, action, c) {
        return quota;
    }
    let given = worth_to(c, moved);
    if passes_on(action, c) {
        return Votes::from_units(given);
    }
    Votes::from_units(given + newest_votes(stages, c).units())
}

/// Returns the votes for all candidate numbers after the action has moved papers.
fn all_votes(
    quota: Votes,
    stages: &[Stage],
    action: &Action,
    moved: &[Holding],
) -> [Votes; MAX_CANDIDATES]
    requires { AreSmall (reverse stages.now) moved.now }
    ensures { result ≡ map (votes_with_of quota (reverse stages.now) action.now moved.now) numbers }
{
    let mut votes = [Votes::from_units(0); MAX_CANDIDATES];
    for i in 0..MAX_CANDIDATES {
        votes[i] = votes_with(quota, stages, action, moved, i as u8 + 1);
    }
    votes
}

/// Returns the non-transferable votes after the action has moved papers.
fn non_transferable_with(stages: &[Stage], moved: &[Holding]) -> Votes
    requires { AreSmall (reverse stages.now) moved.now }
    ensures { result ≡ newest_non_transferable (reverse stages.now) + worth_to_of 0 moved.now }
{
    let given = worth_to(0, moved);
    match stages.split_last() {
        None => Votes::from_units(given),
        Some((newest, _)) => Votes::from_units(newest.non_transferable.units() + given),
    }
}

/// Returns the loss by fractions over all stages so far.
pub fn newest_lost(stages: &[Stage]) -> u64
    ensures { result ≡ newest_lost_of (reverse stages.now) }
{
    match stages.split_last() {
        None => 0,
        Some((newest, _)) => newest.lost.units(),
    }
}

/// Returns the loss by fractions after the action has moved papers; a surplus adds the part that exceeds the values transferred.
fn lost_with(quota: Votes, stages: &[Stage], action: &Action, moved: &[Holding]) -> Votes
    requires column { (c : ℕ) → action.now ≡ Action.Surplus c → (1 ≤ c) × (c ≤ max_candidates) }
    requires small { AreSmall (reverse stages.now) moved.now }
    ensures { result ≡ lost_with_of quota (reverse stages.now) action.now moved.now }
{
    let before = newest_lost(stages);
    match action {
        Action::First | Action::Exclude(_) | Action::ExcludeLast(_) => Votes::from_units(before),
        Action::Surplus(c) => {
            let surplus = newest_votes(stages, *c)
                .units()
                .saturating_sub(quota.units());
            Votes::from_units(before + surplus.saturating_sub(worth(moved)))
        }
    }
}

/// Appends the stage of an action to the earlier ones; there must be room.
pub fn add_parcel_stage(terms: &Terms, stages: &mut Vec<Stage>, action: &Action, moved: &[Holding])
    requires room { vec_len stages.old < vec_capacity stages.old }
    requires column { (c : ℕ) → action.now ≡ Action.Surplus c → (1 ≤ c) × (c ≤ max_candidates) }
    requires small { AreSmall (reverse stages.old.items) moved.now }
    ensures { Records terms.now (reverse stages.old.items) action.now moved.now (reverse stages.new.items) }
{
    let stage = Stage {
        action: *action,
        votes: all_votes(terms.quota, stages, action, moved),
        elected: Columns::empty(),
        non_transferable: non_transferable_with(stages, moved),
        lost: lost_with(terms.quota, stages, action, moved),
    };
    add_stage(terms, stages, stage);
}

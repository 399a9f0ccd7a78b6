//! The places of bundles of equal papers after a stage, in a new vector.

ghost use Rattle.std.specs.Prelude.{◌≡◌, ℕ, ◌-◌, ◌<◌, ◌≤◌, ◌==◌, [], ◌∷◌, not, map, reverse, length, IfOk, IfSome, IsSome};
ghost use Rattle.std.specs.List.{prefix_len, AllByRecursion};
ghost use Rattle.votes.specs.Units.{one_vote, max_units};
ghost use Rattle.paper.specs.Columns.{max_candidates};
ghost use Rattle.paper.specs.Standing.{is_continuing, from_first};
ghost use Rattle.count.specs.Law.Count.{begun};
ghost use Rattle.count.specs.Law.Contest.{newest_votes as newest_votes_of};
ghost use Rattle.count.specs.Inside.Holdings.{IsTransferRule, OnlyColumns};
ghost use Rattle.count.specs.StoredCounts.{places_after};
ghost use Rattle.count.specs.Inside.Placing.{contest_on, IsDueInBook, IsSound, nowhere, first_places, passed_at, passed_places as passed_places_of};

use crate::bundles::Bundles;
use crate::elected::{newest_votes, standing};
use crate::moving::surplus_rule;
use crate::parcel::TransferRule;
use crate::placed::Placed;
use crate::sorting_papers::{first_preference, value_by};
use crate::stages::{Action, Stage};
use crate::terms::Terms;
use paper::{MAX_CANDIDATES, Prefs, Standing, available_from};
use std::alloc::{AllocError, Global};
use votes::{MAX_PAPERS, ONE_VOTE, Votes};

/// The maximum number of units that can be credited: one vote for each of `MAX_PAPERS` papers.
const MAX_UNITS: u64 = ONE_VOTE * MAX_PAPERS as u64;

/// Returns the places of all bundles before the first stage: no holder, no value. `AllocError` if an allocation fails.
pub fn no_places(alloc: Global, bundles: &Bundles) -> Result<Vec<Placed>, AllocError>
    ensures { IfOk result (λ none. none.items ≡ map (λ b. nowhere) bundles.now) }
{
    let mut none = Vec::with_capacity(alloc, bundles.len())?;
    for _ in bundles.iter() {
        none.push(Placed {
            holder: 0,
            value: Votes::from_units(0),
        })?;
    }
    Ok(none)
}

/// Returns the number of preferences before the one for the given candidate.
fn count_before(preferences: &[u8], c: u8) -> usize
    ensures is { result ≡ prefix_len (λ d. not (d == c)) preferences.now }
    ensures within { result ≤ length preferences.now }
{
    preferences.iter().take_while(|d| **d != c).count()
}

/// Returns the preferences starting with the one for the given candidate; empty if there is none.
fn from_holder<'a>(preferences: &'a [u8], c: u8) -> &'a [u8]
    ensures { result.now ≡ from_first (λ d. d == c) preferences.now }
{
    &preferences[count_before(preferences, c)..]
}

/// Returns the place of equal papers after the given candidate's papers are passed on. If the candidate holds them, they move to
/// their next available preference, at the value that the rule computes from theirs; otherwise they stay.
fn passed_place(
    list: &Prefs,
    at: &Placed,
    c: u8,
    standing: &Standing,
    rule: &TransferRule,
) -> Placed
    requires rule { IsTransferRule rule.now }
    requires small { at.now.value ≤ one_vote }
    ensures { result ≡ passed_at (is_continuing standing.now) rule.now c list.now at.now }
{
    if at.holder != c {
        return *at;
    }
    let rest = available_from(from_holder(list.as_slice(), c), 1, standing);
    Placed {
        holder: first_preference(rest),
        value: value_by(rule, at.value),
    }
}

/// Returns the places of all bundles after the given candidate's papers are passed on. `AllocError` if an allocation fails.
fn passed_places(
    alloc: Global,
    bundles: &Bundles,
    places: &[Placed],
    c: u8,
    standing: &Standing,
    rule: &TransferRule,
) -> Result<Vec<Placed>, AllocError>
    requires rule { IsTransferRule rule.now }
    requires sound { AllByRecursion IsSound places.now }
    requires known { OnlyColumns (is_continuing standing.now) }
    ensures is { IfOk result (λ passed. passed.items ≡ passed_places_of (is_continuing standing.now) rule.now c places.now bundles.now) }
    ensures sound { IfOk result (λ passed. AllByRecursion IsSound passed.items) }
{
    let mut passed = Vec::with_capacity(alloc, places.len())?;
    let mut rest = places;
    for (list, _) in bundles.iter() {
        if let Some((at, others)) = rest.split_first() {
            passed.push(passed_place(list, at, c, standing, rule))?;
            rest = others;
        }
    }
    Ok(passed)
}

/// Returns the places of all bundles when each is credited to its first preference, one vote per paper. `AllocError` if an
/// allocation fails.
fn dealt_places(alloc: Global, bundles: &Bundles) -> Result<Vec<Placed>, AllocError>
    ensures is { IfOk result (λ dealt. dealt.items ≡ first_places bundles.now) }
    ensures sound { IfOk result (λ dealt. AllByRecursion IsSound dealt.items) }
{
    let mut dealt = Vec::with_capacity(alloc, bundles.len())?;
    for (prefs, _) in bundles.iter() {
        dealt.push(Placed {
            holder: prefs.first(),
            value: Votes::from_units(ONE_VOTE),
        })?;
    }
    Ok(dealt)
}

/// Returns the share of the candidate's credited votes that is transferred with the surplus. `None` if the candidate has no more
/// than the quota, or more than one vote for each of `MAX_PAPERS` papers.
fn share_of(quota: Votes, stages: &[Stage], c: u8) -> Option<TransferRule>
    ensures rule { IfSome result IsTransferRule }
    ensures is { IfSome result (λ rule. rule ≡ TransferRule.Share (newest_votes_of (reverse stages.now) c - quota) (newest_votes_of (reverse stages.now) c)) }
    ensures some { 0 < quota → 1 ≤ c → c ≤ max_candidates → quota < newest_votes_of (reverse stages.now) c → newest_votes_of (reverse stages.now) c ≤ max_units → IsSome result }
{
    if c < 1 || usize::from(c) > MAX_CANDIDATES || quota.units() < 1 {
        return None;
    }
    let credited = newest_votes(stages, c);
    if credited.units() <= quota.units() || credited.units() > MAX_UNITS {
        return None;
    }
    Some(surplus_rule(quota, credited))
}

/// Returns the places of all bundles after a surplus is transferred; unchanged if there is none. `AllocError` if an allocation fails.
fn places_by_surplus(
    alloc: Global,
    terms: &Terms,
    bundles: &Bundles,
    places: &[Placed],
    stages: &[Stage],
    c: u8,
) -> Result<Vec<Placed>, AllocError>
    requires sound { AllByRecursion IsSound places.now }
    ensures is { IfOk result (λ moved. IsDueInBook (contest_on terms.now bundles.now) (reverse stages.now) bundles.now places.now (Action.Surplus c)
        → moved.items ≡ places_after (contest_on terms.now bundles.now) (begun (Action.Surplus c) [] ∷ reverse stages.now) bundles.now) }
    ensures sound { IfOk result (λ moved. AllByRecursion IsSound moved.items) }
{
    match share_of(terms.quota, stages, c) {
        None => {
            let moved = Vec::from_slice(alloc, places)?;
            Ok(moved)
        }
        Some(rule) => {
            let standing = standing(terms, stages);
            let moved = passed_places(alloc, bundles, places, c, &standing, &rule)?;
            Ok(moved)
        }
    }
}

/// Returns the places of all bundles after the given action; the old ones are unchanged. `AllocError` if an allocation fails.
pub fn moved_places(
    alloc: Global,
    terms: &Terms,
    bundles: &Bundles,
    places: &[Placed],
    stages: &[Stage],
    action: &Action,
) -> Result<Vec<Placed>, AllocError>
    requires sound { AllByRecursion IsSound places.now }
    ensures is { IfOk result (λ moved. IsDueInBook (contest_on terms.now bundles.now) (reverse stages.now) bundles.now places.now action.now
        → moved.items ≡ places_after (contest_on terms.now bundles.now) (begun action.now [] ∷ reverse stages.now) bundles.now) }
    ensures sound { IfOk result (λ moved. AllByRecursion IsSound moved.items) }
{
    match action {
        Action::First => {
            let moved = dealt_places(alloc, bundles)?;
            Ok(moved)
        }
        Action::Surplus(c) => {
            let moved = places_by_surplus(alloc, terms, bundles, places, stages, *c)?;
            Ok(moved)
        }
        Action::Exclude(c) => {
            let standing = standing(terms, stages);
            let rule = TransferRule::AsReceived;
            let moved = passed_places(alloc, bundles, places, *c, &standing, &rule)?;
            Ok(moved)
        }
        Action::ExcludeLast(_) => {
            let moved = Vec::from_slice(alloc, places)?;
            Ok(moved)
        }
    }
}

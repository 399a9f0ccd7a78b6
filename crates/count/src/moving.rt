//! Moving papers from their holders for an action.

ghost use Rattle.std.specs.Prelude.{◌≡◌, ℕ, ◌+◌, ◌-◌, ◌<◌, ◌≤◌, List, not, reverse, vec_len, vec_capacity, IfOk, OnOk};
ghost use Rattle.std.specs.List.{filter};
ghost use Rattle.votes.specs.Units.{max_units};
ghost use Rattle.count.specs.Advance.{IsDue};
ghost use Rattle.count.specs.Inside.Holdings.{total, passes_on as passes_on_of, kept_by, IsTransferRule};
ghost use Rattle.count.specs.Books.{contest_of, AreRankings};
ghost use Rattle.count.specs.Inside.BookInvariants.{IsMovedBy, IsBook};

use crate::elected::{newest_votes, standing};
use crate::parcel::{Holding, TransferRule};
use crate::sorting_papers::{first_holdings, pass_on};
use crate::stages::{Action, Stage};
use crate::terms::Terms;
use paper::Prefs;
use std::alloc::{AllocError, Global};
use votes::Votes;

/// Returns the rule for the values of papers transferred from a surplus: each value is multiplied by the ratio of the surplus to the
/// votes credited, and rounded down.
pub fn surplus_rule(quota: Votes, credited: Votes) -> TransferRule
    requires some { 0 < quota }
    requires above { quota < credited }
    requires few { credited ≤ max_units }
    ensures is { result ≡ TransferRule.Share (credited - quota) credited }
    ensures rule { IsTransferRule result }
{
    let surplus = Votes::from_units(credited.units() - quota.units());
    TransferRule::Share { surplus, credited }
}

/// Returns the holdings of the papers that the due action moves, with their new holders and values.
pub fn moved_by<'a>(
    alloc: Global,
    terms: &Terms,
    papers: &'a [Prefs],
    holdings: &[Holding<'a>],
    stages: &[Stage],
    action: &Action,
) -> Result<Vec<Holding<'a>>, AllocError>
    requires book { IsBook (contest_of terms.now papers.now) (reverse stages.now) holdings.now }
    requires due { IsDue (contest_of terms.now papers.now) (reverse stages.now) action.now }
    ensures moved { IfOk result (λ moved. IsMovedBy (contest_of terms.now papers.now) (reverse stages.now) action.now holdings.now moved.items) }
    ensures rankings { OnOk result (AreRankings papers.now) }
{
    match action {
        Action::First => {
            let moved = first_holdings(alloc, papers)?;
            Ok(moved)
        }
        Action::Surplus(c) => {
            let rule = surplus_rule(terms.quota, newest_votes(stages, *c));
            let moved = pass_on(alloc, holdings, *c, &standing(terms, stages), &rule)?;
            Ok(moved)
        }
        Action::Exclude(c) => {
            let moved = pass_on(
                alloc,
                holdings,
                *c,
                &standing(terms, stages),
                &TransferRule::AsReceived,
            )?;
            Ok(moved)
        }
        Action::ExcludeLast(_) => Ok(Vec::new(alloc)),
    }
}

/// Returns whether the action passes on the given holder's papers.
pub fn passes_on(action: &Action, holder: u8) -> bool
    ensures { result ≡ passes_on_of action.now holder }
{
    match action {
        Action::Surplus(c) | Action::Exclude(c) => *c == holder,
        Action::First | Action::ExcludeLast(_) => false,
    }
}

/// Removes the holdings whose papers the action passes on.
fn leave_out<'a>(holdings: &mut Vec<Holding<'a>>, action: &Action)
    ensures kept { holdings.new.items ≡ filter (λ holding. not (passes_on_of action.now holding.holder)) holdings.old.items }
    ensures capacity { vec_capacity holdings.new ≡ vec_capacity holdings.old }
    ensures len { vec_len holdings.new ≤ vec_len holdings.old }
{
    holdings.retain(|holding| !passes_on(action, holding.holder));
}

/// Replaces the holdings whose papers the action passed on with the new ones.
pub fn replace<'a>(holdings: &mut Vec<Holding<'a>>, action: &Action, moved: Vec<Holding<'a>>)
    requires { vec_len holdings.old + vec_len moved ≤ vec_capacity holdings.old }
    ensures { (f : ℕ → List ℕ → ℕ → ℕ) → total f holdings.new.items ≡ total f moved.entry.items + total (kept_by f action.now) holdings.old.items }
{
    let mut moved = moved;
    leave_out(holdings, action);
    let _ = holdings.append(&mut moved);
}

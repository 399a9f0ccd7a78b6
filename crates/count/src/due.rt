//! What is due after given stages.

ghost use Rattle.std.specs.Prelude.{◌≡◌, ℕ, ◌<◌, List, [], length, reverse, IfOk, IfErr, Some};
ghost use Rattle.count.specs.Law.Count.{due_by};
ghost use Rattle.count.specs.Law.Due.{due_after, drawn, next_action as next_action_of, exclusion as exclusion_of, action_on as action_on_of, among as among_of, due_for as due_for_of};
ghost use Rattle.count.specs.Law.Elected.{elected_after};
ghost use Rattle.count.specs.Advance.{refusal};
ghost use Rattle.count.specs.Books.{contest_of};

use crate::book::AdvanceError;
use crate::count_to_end::lot_at;
use crate::elected::{continuing, elected, vacancies, with_surplus};
use crate::stages::{Action, Due, Stage, TiedFor};
use crate::terms::Terms;
use crate::ties::{highest, lowest};
use paper::Columns;

/// Returns the exclusion of the given candidate.
fn exclusion(terms: &Terms, stages: &[Stage], c: u8) -> Action
    ensures { result ≡ exclusion_of (contest_of terms.now []) (reverse stages.now) c }
{
    if continuing(terms, stages).len().saturating_sub(1) == vacancies(terms, stages) {
        return Action::ExcludeLast(c);
    }
    Action::Exclude(c)
}

/// Returns the action on the given candidate, depending on why the group was chosen.
fn action_on(terms: &Terms, stages: &[Stage], kind: TiedFor, c: u8) -> Action
    ensures { result ≡ action_on_of (contest_of terms.now []) (reverse stages.now) kind c }
{
    match kind {
        TiedFor::Surplus => Action::Surplus(c),
        TiedFor::Exclusion => exclusion(terms, stages, c),
    }
}

/// Returns the action on the only candidate of a group, or otherwise a lot among its members.
#[tactic(auto, using(crate::proofs::Law::DueLemmas::among_sizes))]
fn among(terms: &Terms, stages: &[Stage], kind: TiedFor, group: &Columns) -> Due
    requires few { length stages.now < 255 }
    ensures { result ≡ among_of (contest_of terms.now []) (reverse stages.now) kind group.now }
{
    if group.len() == 1 {
        return Due::Act(action_on(terms, stages, kind, group.as_slice()[0]));
    }
    Due::Lot {
        stage: stages.len() as u8 + 1,
        kind,
        among: *group,
    }
}

/// Returns what is due while vacancies remain, given the group of candidates with a surplus.
#[tactic(auto, using(crate::proofs::Law::DueLemmas::due_sizes))]
fn due_for(terms: &Terms, stages: &[Stage], group: &Columns) -> Due
    requires few { length stages.now < 255 }
    ensures { result ≡ due_for_of (contest_of terms.now []) (reverse stages.now) group.now }
{
    if group.len() == 0 {
        let others = continuing(terms, stages);
        return among(terms, stages, TiedFor::Exclusion, &lowest(stages, &others));
    }
    among(terms, stages, TiedFor::Surplus, &highest(stages, group))
}

/// Returns what is due after the given stages. Doesn't read the papers.
pub fn due(terms: &Terms, stages: &[Stage]) -> Due
    requires few { length stages.now < 255 }
    ensures { (papers : List (List ℕ)) → result ≡ due_after (contest_of terms.now papers) (reverse stages.now) }
{
    match stages.split_last() {
        None => Due::Act(Action::First),
        Some((newest, _)) => {
            if vacancies(terms, stages) == 0 {
                return Due::Finished;
            }
            let group = with_surplus(&elected(terms, stages), terms.quota, newest);
            due_for(terms, stages, &group)
        }
    }
}

/// Returns the elected candidates. Doesn't read the papers.
pub fn elected_with(terms: &Terms, stages: &[Stage]) -> Columns
    ensures { (papers : List (List ℕ)) → result ≡ elected_after (contest_of terms.now papers) (reverse stages.now) }
{
    elected(terms, stages)
}

/// Returns the action that is due, given the lot. Doesn't read the papers.
pub fn action_by(terms: &Terms, stages: &[Stage], lot: Option<u8>) -> Result<Action, AdvanceError>
    requires few { length stages.now < 255 }
    ensures ok { IfOk result (λ a. (papers : List (List ℕ)) → drawn (contest_of terms.now papers) (reverse stages.now) lot (due_after (contest_of terms.now papers) (reverse stages.now)) ≡ Some a) }
    ensures err { IfErr result (λ e. (papers : List (List ℕ)) → refusal lot (due_after (contest_of terms.now papers) (reverse stages.now)) ≡ Some e) }
{
    match due(terms, stages) {
        Due::Act(action) => Ok(action),
        Due::Finished => Err(AdvanceError::Finished),
        Due::Lot { kind, among, .. } => match lot {
            None => Err(AdvanceError::LotNeeded),
            Some(c) => {
                if among.has(c) {
                    return Ok(action_on(terms, stages, kind, c));
                }
                Err(AdvanceError::LotNotAmong)
            }
        },
    }
}

/// Returns the next action with the recorded lots, if there is one. Doesn't read the papers.
#[tactic(auto, using(crate::proofs::Law::CountLemmas::refused_none))]
pub fn next_action(terms: &Terms, stages: &[Stage], lots: &[(u8, u8)]) -> Option<Action>
    requires few { length stages.now < 255 }
    ensures { (papers : List (List ℕ)) → result ≡ next_action_of (contest_of terms.now papers) lots.now (reverse stages.now) }
{
    match action_by(terms, stages, lot_at(lots, stages.len() as u8 + 1)) {
        Ok(action) => Some(action),
        Err(_) => None,
    }
}

/// Returns what is due, given the recorded lots. Doesn't read the papers.
pub fn due_with(terms: &Terms, stages: &[Stage], lots: &[(u8, u8)]) -> Due
    requires few { length stages.now < 255 }
    ensures { (papers : List (List ℕ)) → result ≡ due_by (contest_of terms.now papers) lots.now (reverse stages.now) }
{
    match next_action(terms, stages, lots) {
        Some(action) => Due::Act(action),
        None => due(terms, stages),
    }
}

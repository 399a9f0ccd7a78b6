//! The candidates who, after given stages, have reached the quota, are elected, continue or have a surplus.

ghost use Rattle.std.specs.Prelude.{◌≡◌, ℕ, ◌≤◌, Bool, ◌&&◌, ◌||◌, not, [], reverse, nat_lt, nat_eq};
ghost use Rattle.paper.specs.Columns.{max_candidates};
ghost use Rattle.paper.specs.Standing.{is_continuing as continues_of};
ghost use Rattle.std.specs.List.{list_any, filter};
ghost use Rattle.count.specs.Law.Contest.{Contest, votes_at, newest_votes as newest_votes_of};
ghost use Rattle.count.specs.Law.Elected.{transfers as transfers_of, excludes as excludes_of, is_transferred as is_transferred_of, is_excluded as is_excluded_of};
ghost use Rattle.count.specs.Law.Elected.{has_reached as has_reached_of, with_quota as with_quota_of, undecided as undecided_of, undecided_fill as fill_of};
ghost use Rattle.count.specs.Law.Elected.{elected_after, continuing_after, is_continuing as is_continuing_of, vacancies_after};
ghost use Rattle.count.specs.Inside.Holdings.{OnlyColumns};
ghost use Rattle.count.specs.Books.{contest_of};

use crate::stages::{Action, Stage};
use crate::terms::Terms;
use paper::{Columns, Standing};
use votes::Votes;

/// Returns the given candidate's votes after the given stage.
pub fn votes_after(stage: &Stage, c: u8) -> Votes
    requires some { 1 ≤ c }
    requires few { c ≤ max_candidates }
    ensures { result ≡ votes_at stage.now c }
{
    stage.votes[usize::from(c - 1)]
}

/// Returns the given candidate's votes after the newest stage; 0 before the first.
pub fn newest_votes(stages: &[Stage], c: u8) -> Votes
    requires some { 1 ≤ c }
    requires few { c ≤ max_candidates }
    ensures { result ≡ newest_votes_of (reverse stages.now) c }
{
    match stages.split_last() {
        None => Votes::from_units(0),
        Some((newest, _)) => votes_after(newest, c),
    }
}

/// Returns whether the given candidate's votes reached the quota at some stage.
fn has_reached(terms: &Terms, stages: &[Stage], c: u8) -> bool
    requires some { 1 ≤ c }
    requires few { c ≤ max_candidates }
    ensures { result ≡ has_reached_of (contest_of terms.now []) (reverse stages.now) c }
{
    stages.iter().any(|stage| terms.quota.units() <= votes_after(stage, c).units())
}

impl Action {
    /// Returns whether the action excludes the given candidate.
    pub fn excludes(&self, c: u8) -> bool
        ensures { result ≡ excludes_of self.now c }
    {
        match self {
            Action::First | Action::Surplus(_) => false,
            Action::Exclude(d) | Action::ExcludeLast(d) => *d == c,
        }
    }

    /// Returns whether the action transfers the given candidate's surplus.
    fn transfers(&self, c: u8) -> bool
        ensures { result ≡ transfers_of self.now c }
    {
        match self {
            Action::Surplus(d) => *d == c,
            Action::First | Action::Exclude(_) | Action::ExcludeLast(_) => false,
        }
    }
}

/// Returns whether the given candidate has been excluded.
pub fn is_excluded(stages: &[Stage], c: u8) -> bool
    ensures { result ≡ is_excluded_of (reverse stages.now) c }
{
    stages.iter().any(|stage| stage.action.excludes(c))
}

/// Returns whether the given candidate's surplus has been transferred.
fn is_transferred(stages: &[Stage], c: u8) -> bool
    ensures { result ≡ is_transferred_of (reverse stages.now) c }
{
    stages.iter().any(|stage| stage.action.transfers(c))
}

/// Returns whether the given candidate's surplus has been transferred by the given stages or by the given action.
pub fn is_transferred_with(stages: &[Stage], action: &Action, c: u8) -> bool
    ensures { result ≡ (transfers_of action.now c || is_transferred_of (reverse stages.now) c) }
{
    if action.transfers(c) {
        return true;
    }
    is_transferred(stages, c)
}

/// Returns the members of the set that pass the test.
pub fn those<F: Fn(u8) -> bool>(set: &Columns, passes: F) -> Columns
    requires { (c : ℕ) → 1 ≤ c → c ≤ max_candidates → F.pre passes c }
    ensures { (test : ℕ → Bool) → ((c : ℕ) (passed : Bool) → 1 ≤ c → c ≤ max_candidates → F.post passes c passed → passed ≡ test c) → result ≡ filter test set.now }
{
    let mut chosen = Columns::empty();
    for c in set.as_slice() {
        if passes(*c) {
            chosen = chosen.with(*c);
        }
    }
    chosen
}

/// Returns whether a member of the set passes the test.
pub fn has_one<F: Fn(u8) -> bool>(set: &Columns, passes: F) -> bool
    requires { (c : ℕ) → 1 ≤ c → c ≤ max_candidates → F.pre passes c }
    ensures { (test : ℕ → Bool) → ((c : ℕ) (passed : Bool) → 1 ≤ c → c ≤ max_candidates → F.post passes c passed → passed ≡ test c) → result ≡ list_any test set.now }
{
    for c in set.as_slice() {
        if passes(*c) {
            return true;
        }
    }
    false
}

/// Returns the candidates who have reached the quota.
fn with_quota(terms: &Terms, stages: &[Stage]) -> Columns
    ensures { result ≡ with_quota_of (contest_of terms.now []) (reverse stages.now) }
{
    those(&terms.candidates, |c| has_reached(terms, stages, c))
}

/// Returns whether the given candidate has neither reached the quota nor been excluded.
fn is_undecided(terms: &Terms, stages: &[Stage], c: u8) -> bool
    requires some { 1 ≤ c }
    requires few { c ≤ max_candidates }
    ensures { result ≡ (not (has_reached_of (contest_of terms.now []) (reverse stages.now) c) && not (is_excluded_of (reverse stages.now) c)) }
{
    if has_reached(terms, stages, c) {
        return false;
    }
    !is_excluded(stages, c)
}

/// Returns the candidates who have neither reached the quota nor been excluded.
fn undecided(terms: &Terms, stages: &[Stage]) -> Columns
    ensures { result ≡ undecided_of (contest_of terms.now []) (reverse stages.now) }
{
    those(&terms.candidates, |c| is_undecided(terms, stages, c))
}

/// Returns whether there are as many undecided candidates as remaining seats.
fn undecided_fill(terms: &Terms, stages: &[Stage]) -> bool
    ensures { result ≡ fill_of (contest_of terms.now []) (reverse stages.now) }
{
    with_quota(terms, stages).len() + undecided(terms, stages).len() == usize::from(terms.seats)
}

/// Returns whether the candidate is elected, given whether the undecided candidates fill the seats.
fn is_elected(terms: &Terms, stages: &[Stage], fill: bool, c: u8) -> bool
    requires some { 1 ≤ c }
    requires few { c ≤ max_candidates }
    ensures { result ≡ (has_reached_of (contest_of terms.now []) (reverse stages.now) c || (fill && not (is_excluded_of (reverse stages.now) c))) }
{
    if has_reached(terms, stages, c) {
        return true;
    }
    if fill {
        return !is_excluded(stages, c);
    }
    false
}

/// Returns the elected candidates.
pub fn elected(terms: &Terms, stages: &[Stage]) -> Columns
    ensures { result ≡ elected_after (contest_of terms.now []) (reverse stages.now) }
{
    let fill = undecided_fill(terms, stages);
    those(&terms.candidates, |c| is_elected(terms, stages, fill, c))
}

/// Returns whether the candidate continues, given whether the undecided candidates fill the seats.
fn is_continuing(terms: &Terms, stages: &[Stage], fill: bool, c: u8) -> bool
    requires some { 1 ≤ c }
    requires few { c ≤ max_candidates }
    ensures { result ≡ (not (has_reached_of (contest_of terms.now []) (reverse stages.now) c || (fill && not (is_excluded_of (reverse stages.now) c))) && not (is_excluded_of (reverse stages.now) c)) }
{
    if is_elected(terms, stages, fill, c) {
        return false;
    }
    !is_excluded(stages, c)
}

/// Returns the continuing candidates: neither elected nor excluded.
pub fn continuing(terms: &Terms, stages: &[Stage]) -> Columns
    ensures { result ≡ continuing_after (contest_of terms.now []) (reverse stages.now) }
{
    let fill = undecided_fill(terms, stages);
    those(&terms.candidates, |c| is_continuing(terms, stages, fill, c))
}

/// Returns the standing of the candidates, as far as the next available preference depends on it: which of them continue.
#[tactic(auto, using(crate::proofs::ColumnLemmas::only_columns))]
pub fn standing(terms: &Terms, stages: &[Stage]) -> Standing
    ensures is { (c : ℕ) → continues_of result c ≡ is_continuing_of (contest_of terms.now []) (reverse stages.now) c }
    ensures known { OnlyColumns (continues_of result) }
{
    Standing::new(
        continuing(terms, stages),
        Columns::empty(),
        Columns::empty(),
    )
}

/// Returns the number of remaining seats.
pub fn vacancies(terms: &Terms, stages: &[Stage]) -> usize
    ensures { result ≡ vacancies_after (contest_of terms.now []) (reverse stages.now) }
{
    usize::from(terms.seats).saturating_sub(elected(terms, stages).len())
}

/// Returns the elected candidates with more than the quota after the given stage.
pub fn with_surplus(elected: &Columns, quota: Votes, newest: &Stage) -> Columns
    ensures { result ≡ filter (λ c. nat_lt quota (votes_at newest.now c)) elected.now }
{
    those(elected, |c| quota.units() < votes_after(newest, c).units())
}

/// Returns the members of `set` that aren't in `others`.
pub fn without(set: &Columns, others: &Columns) -> Columns
    ensures { result ≡ filter (λ c. not (list_any (nat_eq c) others.now)) set.now }
{
    those(set, |c| !others.has(c))
}

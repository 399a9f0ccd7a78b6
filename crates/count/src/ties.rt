//! The members of a group with the most votes, or the fewest.

ghost use Rattle.std.specs.Prelude.{◌≡◌, ℕ, ◌≤◌, reverse};
ghost use Rattle.std.specs.List.{list_any};
ghost use Rattle.paper.specs.Columns.{max_candidates};
ghost use Rattle.count.specs.Law.Due.{is_above as is_above_of, highest as highest_of, lowest as lowest_of};

use crate::elected::{has_one, those, votes_after};
use crate::stages::Stage;
use paper::Columns;

/// Returns whether `c` had more votes than `d` at the most recent stage at which they differed.
fn is_above(stages: &[Stage], c: u8, d: u8) -> bool
    requires some { 1 ≤ c }
    requires few { c ≤ max_candidates }
    requires some_other { 1 ≤ d }
    requires few_other { d ≤ max_candidates }
    ensures { result ≡ is_above_of (reverse stages.now) c d }
{
    let mut rest = stages;
    while let Some((newest, before)) = rest.split_last() {
        let of_c = votes_after(newest, c).units();
        let of_d = votes_after(newest, d).units();
        if of_c != of_d {
            return of_d < of_c;
        }
        rest = before;
    }
    false
}

/// Returns whether a member of the group is above the given candidate.
fn has_above(stages: &[Stage], group: &Columns, c: u8) -> bool
    requires some { 1 ≤ c }
    requires few { c ≤ max_candidates }
    ensures { result ≡ list_any (λ d. is_above_of (reverse stages.now) d c) group.now }
{
    has_one(group, |d| is_above(stages, d, c))
}

/// Returns whether the given candidate is above a member of the group.
fn has_below(stages: &[Stage], group: &Columns, c: u8) -> bool
    requires some { 1 ≤ c }
    requires few { c ≤ max_candidates }
    ensures { result ≡ list_any (λ d. is_above_of (reverse stages.now) c d) group.now }
{
    has_one(group, |d| is_above(stages, c, d))
}

/// Returns the members of the group with no other member above them.
pub fn highest(stages: &[Stage], group: &Columns) -> Columns
    ensures { result ≡ highest_of (reverse stages.now) group.now }
{
    those(group, |c| !has_above(stages, group, c))
}

/// Returns the members of the group that are above no other member.
pub fn lowest(stages: &[Stage], group: &Columns) -> Columns
    ensures { result ≡ lowest_of (reverse stages.now) group.now }
{
    those(group, |c| !has_below(stages, group, c))
}

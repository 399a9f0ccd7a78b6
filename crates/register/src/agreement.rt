//! The keyings of a batch's papers: a batch is taken once two of them agree.

ghost use Rattle.std.specs.Prelude.{◌≡◌, ℕ, length, map, option_map};
ghost use Rattle.std.specs.List.{filter};
ghost use Rattle.register.specs.Offices.{OfficeState, BatchEntry, batch_entry, third_entry, keyed_entry, judged_entry, keying_of};
ghost use Rattle.register.specs.Agreement.{is_keyed, of_three, same_marks, agreed, are_taken, differ, clerks, clerk_list, clerks_of, keying_by, keyings_in, is_doubtful, has_doubtful};
ghost use Rattle.register.specs.Agreement.{has_verdict, is_open};
ghost use Rattle.register.specs.Polls.{lower_clerk};

use crate::batches::{Batch, ThirdClerk};
use crate::keyings::KeyedPaper;
use crate::verdicts::JudgedPaper;

/// Returns whether a keying exists.
pub fn is_keyed(keying: &[KeyedPaper]) -> bool
    ensures { result ≡ is_keyed (map keyed_entry keying.now) }
{
    !keying.is_empty()
}

#[tactic(auto, unfolding(crate::specs::Agreement::same_marks))]
/// Returns whether two keyings have the same marks on each paper.
fn same_marks(first: &[KeyedPaper], second: &[KeyedPaper]) -> bool
    ensures { result ≡ same_marks (map keyed_entry first.now) (map keyed_entry second.now) }
{
    if first.len() != second.len() {
        return false;
    }
    for (place, keyed) in first.iter().enumerate() {
        if keyed.marks.as_str() != second[place].marks.as_str() {
            return false;
        }
    }
    true
}

#[tactic(auto, using(crate::proofs::AgreedLemmas::agreed_three))]
/// Returns the first of three clerks' keyings in a round, ordered by clerk number, that equals a later one: the agreed papers of
/// the batch. A missing keying is empty; if no two keyings are equal, the result is empty, too.
pub fn agreed<'a>(
    first: &'a [KeyedPaper],
    second: &'a [KeyedPaper],
    third: &'a [KeyedPaper],
) -> &'a [KeyedPaper]
    ensures { map keyed_entry result.now ≡ agreed (of_three (map keyed_entry first.now) (map keyed_entry second.now) (map keyed_entry third.now)) }
{
    if is_keyed(first) & (same_marks(first, second) | same_marks(first, third)) {
        return first;
    }
    if is_keyed(second) & same_marks(second, third) {
        return second;
    }
    &[]
}

/// Returns whether a batch is taken, given the keyings of its current round: at least two keyings exist and are equal.
pub fn are_taken(first: &[KeyedPaper], second: &[KeyedPaper], third: &[KeyedPaper]) -> bool
    ensures { result ≡ are_taken (of_three (map keyed_entry first.now) (map keyed_entry second.now) (map keyed_entry third.now)) }
{
    is_keyed(agreed(first, second, third))
}

/// Returns how many of three keyings exist.
fn count_keyed(first: &[KeyedPaper], second: &[KeyedPaper], third: &[KeyedPaper]) -> u32
    ensures { result ≡ length (of_three (map keyed_entry first.now) (map keyed_entry second.now) (map keyed_entry third.now)) }
{
    u32::from(is_keyed(first)) + u32::from(is_keyed(second)) + u32::from(is_keyed(third))
}

/// Returns whether the keyings of a round differ: at least two exist, and no two are equal.
pub fn differ(first: &[KeyedPaper], second: &[KeyedPaper], third: &[KeyedPaper]) -> bool
    ensures { result ≡ differ (of_three (map keyed_entry first.now) (map keyed_entry second.now) (map keyed_entry third.now)) }
{
    2 <= count_keyed(first, second, third) && !are_taken(first, second, third)
}

/// The clerks who key a batch, ordered by number.
#[derive(Clone, Copy)]
pub struct Clerks {
    pub first: u32,
    pub second: u32,
    pub third: Option<u32>,
}

/// Returns the clerks who key a batch: its two clerks, and the third clerk if one is assigned.
pub fn clerks_of(batch: &Batch, third: &Option<ThirdClerk>) -> Clerks
    ensures { clerk_list result ≡ clerks (batch_entry batch.now) (option_map third_entry third.now) }
{
    let (low, high) = if batch.first_clerk < batch.second_clerk {
        (batch.first_clerk, batch.second_clerk)
    } else {
        (batch.second_clerk, batch.first_clerk)
    };
    match third {
        Some(third) if third.clerk < low => Clerks {
            first: third.clerk,
            second: low,
            third: Some(high),
        },
        Some(third) if third.clerk < high => Clerks {
            first: low,
            second: third.clerk,
            third: Some(high),
        },
        Some(third) => Clerks {
            first: low,
            second: high,
            third: Some(third.clerk),
        },
        None => Clerks {
            first: low,
            second: high,
            third: None,
        },
    }
}

/// The law of a batch's keyings, for use by callers: in each round, the keyings of the batch's clerks, taken one by one, are the
/// keyings of the batch.
pub fn keyings_are_by_clerks()
    ensures { (s : OfficeState) (b : BatchEntry) (round : ℕ) (c : Clerks) → clerk_list c ≡ clerks_of s b
        → of_three (keying_of s b.number round c.first) (keying_of s b.number round c.second) (keying_by s b.number round c.third) ≡ keyings_in s b round }
{}

/// Returns the lower-numbered of the two clerks first assigned to a batch.
pub fn lower_clerk(batch: &Batch) -> u32
    ensures { result ≡ lower_clerk (batch_entry batch.now) }
{
    if batch.first_clerk < batch.second_clerk {
        batch.first_clerk
    } else {
        batch.second_clerk
    }
}

/// Returns whether a paper is keyed as doubtful.
pub fn is_doubtful(keyed: &KeyedPaper) -> bool
    ensures { result ≡ is_doubtful (keyed_entry keyed.now) }
{
    keyed.marks.as_str() == "D"
}

/// Returns whether a keying has a doubtful paper with the given number.
pub fn has_doubtful(keying: &[KeyedPaper], paper: u32) -> bool
    ensures { result ≡ has_doubtful (map keyed_entry keying.now) paper }
{
    for keyed in keying {
        if keyed.paper == paper {
            return is_doubtful(keyed);
        }
    }
    false
}

/// Returns whether any of the given verdicts is on the paper with the given number.
fn has_verdict(verdicts: &[JudgedPaper], paper: u32) -> bool
    ensures { result ≡ has_verdict (map judged_entry verdicts.now) paper }
{
    for judged in verdicts {
        if judged.paper == paper {
            return true;
        }
    }
    false
}

/// Returns how many papers of a keying are doubtful and have no verdict in the given list.
pub fn count_open(keying: &[KeyedPaper], verdicts: &[JudgedPaper]) -> usize
    ensures { result ≡ length (filter (is_open (map judged_entry verdicts.now)) (map keyed_entry keying.now)) }
{
    let mut open = 0;
    for keyed in keying {
        if is_doubtful(keyed) && !has_verdict(verdicts, keyed.paper) {
            open += 1;
        }
    }
    open
}

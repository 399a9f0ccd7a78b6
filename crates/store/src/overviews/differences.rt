//! The papers on which the keyings of a batch differ, read from the tables.

ghost use Rattle.std.specs.Prelude.{◌≡◌, ◌∷◌, [], ◌&&◌, map, filter, option_map, IfOk, IfErr};
ghost use Rattle.register.specs.Offices.{batch_entry, keyed_entry};
ghost use Rattle.register.specs.Agreement.{is_keyed, differ};
ghost use Rattle.tables.specs.declared.fault.Fault.{Fault};
ghost use Rattle.store.specs.Keyings.{keyings_by};
ghost use Rattle.store.specs.Overviews.{has_alike, differs_in, differing_among, differing_papers, differences_view, differences_by, differences_of, differences_at};
ghost use Rattle.store.specs.Overviews.{agree_along, apart_in, earlier_shift, shift_among, shift_between, shift_in};
ghost use Rattle.store.specs.Loads.{Loads};

use crate::storage::Store;
use crate::views::papers::Keyings;
use register::agreement::is_keyed;
use register::{Batch, KeyedPaper};
use sqlite::Alter;
use std::alloc::{AllocError, Global};
use tables::Fault;

/// Two keyings agree from a paper on, once the papers that this clerk keyed are moved up by one. Somebody may have left out that
/// paper or keyed it twice.
#[derive(Clone, Copy, Drop)]
pub struct Shift {
    pub paper: u32,
    pub clerk: u32,
}

/// A batch, whether its keyings differ, the numbers of the papers on which keyings of its current round differ, and a shift
/// between two of them, if there is one.
#[derive(Drop)]
pub struct Differences {
    pub batch: Batch,
    pub differs: bool,
    pub papers: Vec<u32>,
    pub shift: Option<Shift>,
}

/// The number of papers that must agree after a shift.
const MIN_SHIFTED: usize = 3;

/// Returns whether `keying` has the same paper as `keyed`, with the same marks.
fn has_alike(keyed: &KeyedPaper, keying: &[KeyedPaper]) -> bool
    ensures { result ≡ has_alike (keyed_entry keyed.now) (map keyed_entry keying.now) }
{
    for other in keying {
        if other.paper == keyed.paper && other.marks.as_str() == keyed.marks.as_str() {
            return true;
        }
    }
    false
}

#[tactic(auto, using(crate::proofs::OverviewLemmas::apart_two))]
/// Returns whether at least one of the other two keyings exists and has different marks on the paper.
fn differs_in(keyed: &KeyedPaper, second: &[KeyedPaper], third: &[KeyedPaper]) -> bool
    ensures { result ≡ differs_in (filter is_keyed (map keyed_entry second.now ∷ map keyed_entry third.now ∷ [])) (keyed_entry keyed.now) }
{
    (is_keyed(second) & !has_alike(keyed, second)) | (is_keyed(third) & !has_alike(keyed, third))
}

/// Returns the numbers of the papers in one keying on which at least one of the other two has different marks. A keying
/// that doesn't exist is ignored.
fn differing_among(
    alloc: Global,
    keying: &[KeyedPaper],
    second: &[KeyedPaper],
    third: &[KeyedPaper],
) -> Result<Vec<u32>, AllocError>
    ensures { IfOk result (λ papers. papers.items ≡ differing_among (filter is_keyed (map keyed_entry second.now ∷ map keyed_entry third.now ∷ [])) (map keyed_entry keying.now)) }
{
    let mut papers = Vec::new(alloc);
    for keyed in keying {
        if differs_in(keyed, second, third) {
            papers.push(keyed.paper)?;
        }
    }
    Ok(papers)
}

#[tactic(auto, using(crate::proofs::OverviewLemmas::apart_three))]
/// Returns the numbers of the papers on which the given keyings differ: those on which another keying has different
/// marks from the first existing one.
fn differing_papers(alloc: Global, keyings: &Keyings) -> Result<Vec<u32>, AllocError>
    ensures { IfOk result (λ papers. papers.items ≡ differing_papers (keyings_by keyings.now)) }
{
    let Keyings {
        first,
        second,
        third,
        ..
    } = keyings;
    if is_keyed(first) {
        differing_among(alloc, first, second, third)
    } else {
        differing_among(alloc, second, third, &[])
    }
}

/// Returns whether the papers of two keyings have the same marks, one by one, as far as both have papers.
fn agree_along(first: &[KeyedPaper], second: &[KeyedPaper]) -> bool
    ensures { result ≡ agree_along (map keyed_entry first.now) (map keyed_entry second.now) }
{
    for (place, keyed) in first.iter().enumerate() {
        match second.get(place) {
            Some(other) => {
                if keyed.marks.as_str() != other.marks.as_str() {
                    return false;
                }
            }
            None => return true,
        }
    }
    true
}

/// Returns two keyings from the first paper on which they have different marks; both are empty if there is none.
fn apart_in<'a>(
    first: &'a [KeyedPaper],
    second: &'a [KeyedPaper],
) -> (&'a [KeyedPaper], &'a [KeyedPaper])
    ensures { (map keyed_entry result.0.now, map keyed_entry result.1.now) ≡ apart_in (map keyed_entry first.now) (map keyed_entry second.now) }
{
    for (place, keyed) in first.iter().enumerate() {
        match second.get(place) {
            Some(other) => {
                if keyed.marks.as_str() != other.marks.as_str() {
                    return (&first[place..], &second[place..]);
                }
            }
            None => return (&[], &[]),
        }
    }
    (&[], &[])
}

/// Returns the shift of two keyings that start with a paper on which they differ, if there is one.
fn shift_in(first: &[KeyedPaper], second: &[KeyedPaper]) -> Option<Shift>
    ensures { result ≡ shift_in (map keyed_entry first.now, map keyed_entry second.now) }
{
    let (one, ones) = first.split_first()?;
    let (other, others) = second.split_first()?;
    if ones.len() < MIN_SHIFTED || others.len() < MIN_SHIFTED {
        return None;
    }
    if agree_along(ones, second) {
        return Some(Shift {
            paper: one.paper,
            clerk: one.clerk,
        });
    }
    if agree_along(first, others) {
        return Some(Shift {
            paper: other.paper,
            clerk: other.clerk,
        });
    }
    None
}

/// Returns from where on two keyings agree once the papers of one clerk are moved up by one, if they do.
fn shift_between(first: &[KeyedPaper], second: &[KeyedPaper]) -> Option<Shift>
    ensures { result ≡ shift_between (map keyed_entry first.now) (map keyed_entry second.now) }
{
    let (first, second) = apart_in(first, second);
    shift_in(first, second)
}

#[tactic(auto, using(crate::proofs::OverviewLemmas::shift_of_three))]
/// Returns the shift between the first two of the given keyings that agree so. A keying that doesn't exist is ignored.
fn shift_among(keyings: &Keyings) -> Option<Shift>
    ensures { result ≡ shift_among (keyings_by keyings.now) }
{
    let Keyings {
        first,
        second,
        third,
        ..
    } = keyings;
    match shift_between(first, second) {
        Some(shift) => Some(shift),
        None => match shift_between(first, third) {
            Some(shift) => Some(shift),
            None => shift_between(second, third),
        },
    }
}

/// Returns a batch, and where the given keyings of its current round differ. The only error is `Memory`.
fn differences_by(alloc: Global, batch: Batch, keyings: &Keyings) -> Result<Differences, Fault>
    ensures is { IfOk result (λ found. differences_view found ≡ differences_by (batch_entry batch) (keyings_by keyings.now)) }
    ensures cause { IfErr result (λ f. f ≡ Fault.Memory) }
{
    let Ok(papers) = differing_papers(alloc, keyings) else {
        return Err(Fault::Memory);
    };
    Ok(Differences {
        batch,
        differs: keyings.differ(),
        papers,
        shift: shift_among(keyings),
    })
}

impl<S: Alter> Store<S> {
    /// Returns where the keyings of a batch differ.
    fn batch_differences(&mut self, batch: Batch) -> Result<Differences, Fault>
        ensures { Loads S.Store self.old self.new result (λ s found. differences_view found ≡ differences_of s (batch_entry batch)) }
    {
        let keyings = self.keyings_of(&batch)?;
        let found = differences_by(self.allocator(), batch, &keyings)?;
        Ok(found)
    }

    /// Returns the batch with the given number, if there is one, and whether its keyings differ. Also returns the
    /// numbers of the papers on which keyings of its current round differ, ordered by paper, and a shift between two of
    /// them, if there is one; both even if two of three keyings are equal. Changes nothing, and doesn't add to the
    /// states that a stop may leave behind. Returns `Memory` or `Store` if a row can't be read.
    pub fn load_differences(&mut self, batch: u32) -> Result<Option<Differences>, Fault>
        ensures { Loads S.Store self.old self.new result (λ s found. option_map differences_view found ≡ differences_at s batch) }
    {
        let found = self.find_batch(batch)?;
        match found {
            Some(batch) => {
                let differences = self.batch_differences(batch)?;
                Ok(Some(differences))
            }
            None => Ok(None),
        }
    }
}

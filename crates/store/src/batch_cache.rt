//! What an open office keeps in memory about its batches: the overview of each batch, without its twin, and a checksum
//! of its papers, used to find twins.
//!
//! Each entry of the cache includes the row of its batch. It stays correct as long as no request changes anything else
//! about that batch: its third clerk, its keyings, its verdicts, or the candidates of its ward. `forget` removes the
//! entries that an effect may change, before the effect is stored. An entry is used only if the batch still has the
//! same row.

ghost use Rattle.std.specs.Prelude.{◌≡◌, ◌==◌, not, true, false, IfOk, IfSome, option_map, string_bytes};
ghost use Rattle.std.specs.List.{filter, list_all};
ghost use Rattle.register.specs.Offices.{BatchEntry, OfficeState, ReceiptEntry, batch_entry};
ghost use Rattle.register.specs.Effects.{effect_entry, with_change};
ghost use Rattle.store.specs.Overviews.{batch_view};
ghost use Rattle.store.specs.Memories.{checksum, known_of, known_view, AreKnown, is_about, concerns};

use crate::overviews::batches::BatchOverview;
use register::{Batch, Effect, KeyedPaper};
use std::alloc::{AllocError, Global};

/// The initial value of a checksum, and the factor by which it is multiplied before each byte is added.
const BEGINNING: u64 = 14695981039346656037;

const FACTOR: u64 = 1099511628211;

/// A cached batch: its overview, without its twin, and, if the batch is taken, the checksum of its papers.
#[derive(Drop)]
pub(crate) struct CachedBatch {
    pub(crate) overview: BatchOverview,
    pub(crate) pile: Option<u64>,
}

/// The batches that an effect may affect.
#[derive(Clone, Copy)]
enum AffectedBatches {
    Nothing,
    Batch(u32),
    Ward(u32),
    All,
}

#[tactic(auto, unfolding(crate::specs::Memories::checksum))]
/// Returns the checksum of a text.
fn checksum(text: &str) -> u64
    ensures { result ≡ checksum text.now }
{
    let mut sum = BEGINNING;
    for byte in text.as_bytes() {
        sum = sum.wrapping_mul(FACTOR).wrapping_add(u64::from(*byte));
    }
    sum
}

/// Returns the checksum of a text, if there is one.
pub(crate) fn checksum_of(text: &Option<String>) -> Option<u64>
    ensures { result ≡ option_map checksum (option_map string_bytes text.now) }
{
    match text {
        Some(text) => Some(checksum(text.as_str())),
        None => None,
    }
}

/// Returns a copy of the row of a batch.
fn copy_batch(batch: &Batch) -> Batch
    ensures { result ≡ batch.now }
{
    Batch {
        number: batch.number,
        ward: batch.ward,
        size: batch.size,
        first_clerk: batch.first_clerk,
        second_clerk: batch.second_clerk,
        round: batch.round,
    }
}

/// Returns a copy of an overview.
pub(crate) fn copy_overview(
    alloc: Global,
    overview: &BatchOverview,
) -> Result<BatchOverview, AllocError>
    ensures { IfOk result (λ copy. batch_view copy ≡ batch_view overview.now) }
{
    Ok(BatchOverview {
        batch: copy_batch(&overview.batch),
        clerks: Vec::from_slice(alloc, &overview.clerks)?,
        standing: overview.standing,
        doubtful_open: overview.doubtful_open,
        twin: overview.twin,
    })
}

/// Returns a copy of a cache entry.
pub(crate) fn copy_known(alloc: Global, known: &CachedBatch) -> Result<CachedBatch, AllocError>
    ensures { IfOk result (λ copy. known_view copy ≡ known_view known.now) }
{
    Ok(CachedBatch {
        overview: copy_overview(alloc, &known.overview)?,
        pile: known.pile,
    })
}

/// Returns the first index, starting from `from`, of an entry whose batch has the given number or a higher one. An
/// index is only a hint about where to look.
pub(crate) fn next_place(known: &[CachedBatch], from: usize, number: u32) -> usize {
    for place in from..known.len() {
        if known[place].overview.batch.number >= number {
            return place;
        }
    }
    known.len()
}

/// Returns the entry at index `place` if the row of its batch equals `batch`.
pub(crate) fn known_at<'a>(
    known: &'a [CachedBatch],
    place: usize,
    batch: &Batch,
) -> Option<&'a CachedBatch>
    ensures { (s : OfficeState) → AreKnown s known.now → IfSome result (λ one. known_view one.now ≡ known_of s (batch_entry batch.now)) }
{
    let one = known.get(place)?;
    if one.overview.batch == *batch {
        Some(one)
    } else {
        None
    }
}

/// Removes the entry of the batch with the given number.
fn forget_batch(known: &mut Vec<CachedBatch>, number: u32)
    ensures { known.new.items ≡ filter (λ k. not (k.overview.batch.number == number)) known.old.items }
{
    known.retain(|one| one.overview.batch.number != number);
}

/// Removes the entries of a ward's batches.
fn forget_ward(known: &mut Vec<CachedBatch>, ward: u32)
    ensures { known.new.items ≡ filter (λ k. not (k.overview.batch.ward == ward)) known.old.items }
{
    known.retain(|one| one.overview.batch.ward != ward);
}

/// Returns whether all the given papers belong to the batch with the given number.
fn are_of(papers: &[KeyedPaper], number: u32) -> bool
    ensures { result ≡ list_all (λ k. k.batch == number) papers.now }
{
    papers.iter().all(|paper| paper.batch == number)
}

/// Returns the number of the batch to which all the given papers belong, if there is one.
fn batch_of(papers: &[KeyedPaper]) -> Option<u32>
    ensures { IfSome result (λ number. list_all (λ k. k.batch == number) papers.now ≡ true) }
{
    let number = papers.first()?.batch;
    if are_of(papers, number) {
        Some(number)
    } else {
        None
    }
}

/// Returns a set of batches that includes every batch the effect may affect.
fn affected_batches(effect: &Effect) -> AffectedBatches
    ensures { (b : BatchEntry) → concerns result b ≡ false → is_about (effect_entry effect.now) b ≡ false }
{
    match effect {
        Effect::CandidateAdded(candidate) => AffectedBatches::Ward(candidate.ward),
        Effect::CandidateWithdrawn { ward, .. } => AffectedBatches::Ward(*ward),
        Effect::ThirdSet(third) => AffectedBatches::Batch(third.batch),
        Effect::PapersKeyed(papers) => match batch_of(papers) {
            Some(number) => AffectedBatches::Batch(number),
            None => AffectedBatches::All,
        },
        Effect::PaperJudged(judged) => AffectedBatches::Batch(judged.batch),
        Effect::WardAdded(_)
        | Effect::WardMoved { .. }
        | Effect::BatchAdded(_)
        | Effect::BatchReopened { .. }
        | Effect::StageCounted { .. }
        | Effect::LotDrawn(_) => AffectedBatches::Nothing,
    }
}

/// Removes all entries that the effect may change.
pub(crate) fn forget(known: &mut Vec<CachedBatch>, effect: &Effect)
    ensures { (s : OfficeState) (r : ReceiptEntry) → AreKnown s known.old.items
        → AreKnown (with_change (record { effect = effect_entry effect.now; receipt = r }) s) known.new.items }
{
    match affected_batches(effect) {
        AffectedBatches::Nothing => {}
        AffectedBatches::Batch(number) => forget_batch(known, number),
        AffectedBatches::Ward(ward) => forget_ward(known, ward),
        AffectedBatches::All => known.clear(),
    }
}

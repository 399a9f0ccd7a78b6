//! The papers of taken batches as texts, and which batches have the same papers.

ghost use Rattle.std.specs.Prelude.{◌≡◌, ◌∷◌, [], ◌++◌, not, ◌==◌, ℕ, List, map, find, if◌then◌else◌, IfOk, option_map, string_bytes};
ghost use Rattle.std.specs.List.{flat_map};
ghost use Rattle.std.specs.Fmt.{decimal};
ghost use Rattle.std.specs.Str.{bytes_eq};
ghost use Rattle.register.specs.Offices.{keyed_entry};
ghost use Rattle.store.specs.Overviews.{in_a_line, candidate_lines, paper_lines, pile_text, batch_view};
ghost use Rattle.store.specs.Piles.{read_view, numbers_under, numbers_with, twin_under, paired, all_paired};

use crate::overviews::batches::BatchOverview;
use paper::Columns;
use register::KeyedPaper;
use std::alloc::{AllocError, Global};
use std::collections::HashMap;

/// The data read for a batch: its number; its papers as one text, if it is taken; and its overview without its twin, if
/// it belongs to the requested ward.
#[derive(Drop)]
pub(crate) struct ReadBatch {
    pub(crate) number: u32,
    pub(crate) pile: Option<String>,
    pub(crate) overview: Option<BatchOverview>,
}

/// Appends a line to a text.
fn put_line(text: &mut String, line: &str) -> Result<(), AllocError>
    ensures { IfOk result (λ _. string_bytes text.new ≡ string_bytes text.old ++ in_a_line line.now) }
{
    text.push_str(line)?;
    text.push_str("\n")
}

/// Appends candidate numbers to a text, one per line.
fn put_numbers(alloc: Global, text: &mut String, numbers: &[u8]) -> Result<(), AllocError>
    ensures { IfOk result (λ _. string_bytes text.new ≡ string_bytes text.old ++ candidate_lines numbers.now) }
{
    for number in numbers {
        let told = format!(in alloc; "{number}")?;
        put_line(text, told.as_str())?;
    }
    Ok(())
}

/// Appends the marks of papers to a text, one paper per line.
fn put_papers(text: &mut String, papers: &[KeyedPaper]) -> Result<(), AllocError>
    ensures { IfOk result (λ _. string_bytes text.new ≡ string_bytes text.old ++ paper_lines (map keyed_entry papers.now)) }
{
    for keyed in papers {
        put_line(text, keyed.marks.as_str())?;
    }
    Ok(())
}

#[tactic(auto, unfolding(crate::specs::Overviews::pile_text))]
/// Returns the papers of a batch and the numbers of its ward's candidates as one text. Two such texts are equal if and
/// only if the candidate numbers and all papers are equal.
pub(crate) fn pile_text(
    alloc: Global,
    columns: &Columns,
    papers: &[KeyedPaper],
) -> Result<String, AllocError>
    ensures { IfOk result (λ text. string_bytes text ≡ pile_text columns.now (map keyed_entry papers.now)) }
{
    let mut text = String::new(alloc);
    put_numbers(alloc, &mut text, columns.as_slice())?;
    put_line(&mut text, "")?;
    put_papers(&mut text, papers)?;
    Ok(text)
}

/// Appends a batch's number to the group of those that have the same pile.
fn put_under(
    alloc: Global,
    numbers: &mut HashMap<String, Vec<u32>>,
    pile: &str,
    number: u32,
) -> Result<(), AllocError>
    ensures { IfOk result (λ _. (q : List ℕ) → numbers_under numbers.new q ≡ numbers_under numbers.old q ++ (if bytes_eq q pile.now then number ∷ [] else [])) }
{
    let pile = String::from_str(alloc, pile)?;
    numbers.entry(pile)?.or_default().push(number)?;
    Ok(())
}

/// Appends the number of a batch to its group if the batch is taken.
fn put_batch(
    alloc: Global,
    numbers: &mut HashMap<String, Vec<u32>>,
    batch: &ReadBatch,
) -> Result<(), AllocError>
    ensures { IfOk result (λ _. (q : List ℕ) → numbers_under numbers.new q ≡ numbers_under numbers.old q ++ numbers_with (read_view batch.now ∷ []) q) }
{
    match &batch.pile {
        Some(pile) => put_under(alloc, numbers, pile.as_str(), batch.number),
        None => Ok(()),
    }
}

/// Returns the numbers of the given batches, in order, grouped by their piles.
pub(crate) fn numbers_by_pile(
    alloc: Global,
    batches: &[ReadBatch],
) -> Result<HashMap<String, Vec<u32>>, AllocError>
    ensures { IfOk result (λ numbers. (q : List ℕ) → numbers_under numbers q ≡ numbers_with (map read_view batches.now) q) }
{
    let mut numbers = HashMap::new(alloc);
    for batch in batches {
        put_batch(alloc, &mut numbers, batch)?;
    }
    Ok(numbers)
}

/// Returns the first of the given numbers that isn't `number`.
fn first_other(numbers: &[u32], number: u32) -> Option<u32>
    ensures { result ≡ find (λ n. not (n == number)) numbers.now }
{
    for other in numbers {
        if *other != number {
            return Some(*other);
        }
    }
    None
}

/// Returns the first other batch with the same pile as the given one, if there is one.
fn twin_under(
    numbers: &HashMap<String, Vec<u32>>,
    pile: &Option<String>,
    number: u32,
) -> Option<u32>
    ensures { result ≡ twin_under (numbers_under numbers.now) number (option_map string_bytes pile.now) }
{
    let Some(pile) = pile else {
        return None;
    };
    let Some(group) = numbers.get(pile.as_str()) else {
        return None;
    };
    first_other(group, number)
}

/// Returns the overview of a batch, with its twin, which is looked up in `numbers`.
fn paired(numbers: &HashMap<String, Vec<u32>>, batch: ReadBatch) -> Option<BatchOverview>
    ensures { option_map batch_view result ≡ paired (numbers_under numbers.now) (read_view batch) }
{
    let ReadBatch {
        number,
        pile,
        overview,
    } = batch;
    let twin = twin_under(numbers, &pile, number);
    match overview {
        Some(overview) => Some(BatchOverview { twin, ..overview }),
        None => None,
    }
}

/// Returns the overviews of the given batches, in order, each with its twin.
pub(crate) fn all_paired(
    alloc: Global,
    numbers: &HashMap<String, Vec<u32>>,
    batches: Vec<ReadBatch>,
) -> Result<Vec<BatchOverview>, AllocError>
    ensures { IfOk result (λ found. map batch_view found.items ≡ all_paired (numbers_under numbers.now) (map read_view batches.items)) }
{
    let mut found = Vec::new(alloc);
    for batch in batches {
        if let Some(overview) = paired(numbers, batch) {
            found.push(overview)?;
        }
    }
    Ok(found)
}

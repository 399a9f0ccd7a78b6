//! Our own comments: the number of the ward, the number of rejected papers for each code, and the lots.

ghost use Rattle.std.specs.Prelude.{◌≡◌, ◌∷◌, [], map, option_map, IfOk, OnOk, codes};
ghost use Rattle.checker.specs.BallotsComments.{code_in, codes_in, count_in, is_drawn, is_end, is_word, lot_in, rejected_counts_in, small_in, told_once, ward_in};
ghost use Rattle.checker.specs.BallotsComments.{with_comment, with_kind, with_lot, with_other, with_rejected, with_ward, with_words};
ghost use Rattle.checker.specs.Outcomes.{outcome};
ghost use Rattle.checker.specs.Values.{remarks_of};

use crate::file_content::Comments;
use crate::foreign_comments::skip_foreign;
use crate::numbers::number_in;
use crate::problem::BallotsFlaw;
use crate::tokens::{Separator, pieces_of};
use std::alloc::{AllocError, Global};

/// Returns whether the word equals the given text.
pub(crate) fn is_word(text: &str, word: &[u8]) -> bool
    ensures { result ≡ is_word text.now word.now }
{
    word == text.as_bytes()
}

/// Parses a number that fits in one byte.
pub(crate) fn small_in(word: &[u8]) -> Option<u8>
    ensures { result ≡ small_in word.now }
{
    match number_in(255, word) {
        Ok(number) => Some(number as u8),
        Err(_) => None,
    }
}

/// Parses a number that fits in four bytes.
fn count_in(word: &[u8]) -> Option<u32>
    ensures { result ≡ count_in word.now }
{
    match number_in(u32::MAX, word) {
        Ok(number) => Some(number),
        Err(_) => None,
    }
}

/// Parses a ward number.
fn ward_in(words: &[&[u8]]) -> Option<u8>
    ensures { result ≡ ward_in (map (λ w. w.now) words.now) }
{
    match words {
        [number] => small_in(number),
        _ => None,
    }
}

/// Returns whether there are no words.
fn is_end(words: &[&[u8]]) -> bool
    ensures { result ≡ is_end (map (λ w. w.now) words.now) }
{
    match words {
        [] => true,
        _ => false,
    }
}

/// Parses the number of rejected papers for a code, and returns it with the remaining words.
fn code_in<'a, 'b>(code: &str, words: &'b [&'a [u8]]) -> Option<(u32, &'b [&'a [u8]])>
    ensures { option_map (λ told. (told.0, map (λ w. w.now) told.1.now)) result ≡ code_in code.now (map (λ w. w.now) words.now) }
{
    let [told, papers, others @ ..] = words else {
        return None;
    };
    if !is_word(code, told) {
        return None;
    }
    Some((count_in(papers)?, others))
}

/// Parses the number of rejected papers for each code.
fn rejected_counts_in(words: &[&[u8]]) -> Option<[u32; 5]>
    ensures { result ≡ rejected_counts_in (map (λ w. w.now) words.now) }
{
    let (first, words) = code_in("1", words)?;
    let (second, words) = code_in("2", words)?;
    let (third, words) = code_in("3", words)?;
    let (fourth, words) = code_in("4", words)?;
    let (fifth, words) = code_in("5", words)?;
    if !is_end(words) {
        return None;
    }
    Some([first, second, third, fourth, fifth])
}

/// Parses a stage and the candidate that its lot names.
fn lot_in(words: &[&[u8]]) -> Option<(u8, u8)>
    ensures { result ≡ lot_in (map (λ w. w.now) words.now) }
{
    let [at, stage, k, c] = words else {
        return None;
    };
    if !(is_word("at", at) && is_word("stage", stage)) {
        return None;
    }
    Some((small_in(k)?, small_in(c)?))
}

/// Returns whether a lot is recorded for the given stage.
pub(crate) fn is_drawn(stage: u8, lots: &[(u8, u8)]) -> bool
    ensures { result ≡ is_drawn stage lots.now }
{
    for lot in lots {
        if lot.0 == stage {
            return true;
        }
    }
    false
}

/// Stores the content of a comment if it was understood and no earlier comment had the same subject.
fn keep_once<T: Copy>(
    kept: &mut Option<T>,
    told: Option<T>,
    flaw: BallotsFlaw,
) -> Result<(), BallotsFlaw>
    ensures { outcome result kept.new ≡ told_once flaw kept.old told }
{
    if told.is_none() {
        return Err(flaw);
    }
    if kept.is_some() {
        return Err(BallotsFlaw::Twice);
    }
    *kept = told;
    Ok(())
}

impl Comments {
    /// Stores the ward number from a comment, if it contains one.
    fn take_ward(&mut self, ward: Option<u8>) -> Result<(), BallotsFlaw>
        ensures { outcome result (remarks_of self.new) ≡ with_ward (remarks_of self.old) ward }
    {
        keep_once(&mut self.ward, ward, BallotsFlaw::Ward)
    }

    /// Stores the numbers of rejected papers from a comment, if it contains them.
    fn take_rejected(&mut self, rejected: Option<[u32; 5]>) -> Result<(), BallotsFlaw>
        ensures { outcome result (remarks_of self.new) ≡ with_rejected (remarks_of self.old) rejected }
    {
        keep_once(&mut self.rejected, rejected, BallotsFlaw::Rejected)
    }

    /// Stores the lot from a comment, if it contains one.
    fn take_lot(&mut self, lot: Option<(u8, u8)>) -> Result<Result<(), BallotsFlaw>, AllocError>
        ensures { IfOk result (λ told. outcome told (remarks_of self.new) ≡ with_lot (remarks_of self.old) lot) }
    {
        let Some((stage, candidate)) = lot else {
            return Ok(Err(BallotsFlaw::Lot));
        };
        if is_drawn(stage, &self.lots) {
            return Ok(Err(BallotsFlaw::Twice));
        }
        self.lots.push((stage, candidate))?;
        Ok(Ok(()))
    }

    /// Processes a comment that isn't one of ours.
    fn take_other(&self, line: &[u8]) -> Result<(), BallotsFlaw>
        ensures { outcome result (remarks_of self.now) ≡ with_other (remarks_of self.now) line.now }
    {
        skip_foreign(line)
    }

    /// Processes a comment line, given the word for its kind and the remaining words.
    fn take_kind(
        &mut self,
        line: &[u8],
        kind: &[u8],
        words: &[&[u8]],
    ) -> Result<Result<(), BallotsFlaw>, AllocError>
        ensures { IfOk result (λ told. outcome told (remarks_of self.new) ≡ with_kind (remarks_of self.old) line.now kind.now (map (λ w. w.now) words.now)) }
    {
        if is_word("Ward", kind) {
            return Ok(self.take_ward(ward_in(words)));
        }
        if is_word("Rejected", kind) {
            return Ok(self.take_rejected(rejected_counts_in(words)));
        }
        if is_word("Lot", kind) {
            return self.take_lot(lot_in(words));
        }
        Ok(self.take_other(line))
    }

    /// Processes the words of a comment line.
    fn take_words(
        &mut self,
        line: &[u8],
        words: &[&[u8]],
    ) -> Result<Result<(), BallotsFlaw>, AllocError>
        ensures { IfOk result (λ told. outcome told (remarks_of self.new) ≡ with_words (remarks_of self.old) line.now (map (λ w. w.now) words.now)) }
    {
        let [sign, kind, others @ ..] = words else {
            return Ok(self.take_other(line));
        };
        if !is_word("#", sign) {
            return Ok(self.take_other(line));
        }
        self.take_kind(line, kind, others)
    }

    /// Processes a comment on a separate line.
    pub(crate) fn take(
        &mut self,
        alloc: Global,
        line: &[u8],
    ) -> Result<Result<(), BallotsFlaw>, AllocError>
        ensures { IfOk result (λ told. outcome told (remarks_of self.new) ≡ with_comment (remarks_of self.old) line.now) }
    {
        let words = pieces_of(alloc, Separator::Mark, line)?;
        self.take_words(line, &words)
    }
}

//! Compares a repeated request, which has the same id as the original, with what the state has stored about the original.
//!
//! A receipt contains only the id and the subject of its request. Whether a repeated request is identical to the original
//! is therefore determined from the entry that the original created. Once a candidate has withdrawn, there is no entry
//! left to compare with.

ghost use Rattle.std.specs.Prelude.{◌≡◌, map, option_map, string_bytes, IfOk};
ghost use Rattle.std.specs.List.{list_any};
ghost use Rattle.register.specs.Offices.{ward_entry, candidate_entry, batch_entry, keyed_entry, judged_entry, lot_entry, receipt_entry};
ghost use Rattle.register.specs.declared.candidates.CandidateCommand.TheVariants.{Withdraw};
ghost use Rattle.register.specs.Candidates.{subject_of};
ghost use Rattle.register.specs.Verdicts.{judged_as};
ghost use Rattle.register.specs.Repeats.{is_there, is_ward_of, has_other_name, has_subject, is_batch_of, has_texts, is_judged_alike, is_drawn};

use crate::batches::Batch;
use crate::candidates::{Candidate, CandidateCommand, subject_of};
use crate::counts::DrawnLot;
use crate::keyings::KeyedPaper;
use crate::receipt::Receipt;
use crate::verdicts::{ACCEPTED, JudgedPaper, Verdict, VerdictCommand};
use crate::wards::Ward;
use std::alloc::{AllocError, Global};

/// Returns whether a ward exists and has the given number of seats and the given name.
pub fn is_ward_of(found: &Option<Ward>, seats: u32, name: &str) -> bool
    ensures { result ≡ is_there (is_ward_of seats name.now) (option_map ward_entry found.now) }
{
    match found {
        Some(ward) => (ward.seats == seats) & (ward.name.as_str() == name),
        None => false,
    }
}

/// Returns whether a candidate exists and has a different name.
pub fn has_other_name(found: &Option<Candidate>, name: &str) -> bool
    ensures { result ≡ is_there (has_other_name name.now) (option_map candidate_entry found.now) }
{
    match found {
        Some(candidate) => candidate.name.as_str() != name,
        None => false,
    }
}

/// Returns whether any of the given receipts has the given subject.
fn has_subject(receipts: &[Receipt], subject: &str) -> bool
    ensures { result ≡ list_any (has_subject subject.now) (map receipt_entry receipts.now) }
{
    for receipt in receipts {
        if receipt.subject.as_str() == subject {
            return true;
        }
    }
    false
}

/// Returns whether a candidate with the given number has withdrawn from a ward, according to the returning officer's
/// receipts. Returns `AllocError` if an allocation fails.
pub fn has_withdrawn(
    alloc: Global,
    receipts: &[Receipt],
    ward: u32,
    candidate: u32,
) -> Result<bool, AllocError>
    ensures { IfOk result (λ found. found ≡ list_any (has_subject (subject_of (Withdraw ward candidate))) (map receipt_entry receipts.now)) }
{
    let subject = subject_of(alloc, &CandidateCommand::Withdraw { ward, candidate })?;
    Ok(has_subject(receipts, &subject))
}

/// Returns whether a batch exists, belongs to the given ward, has the given size and is assigned to the two given clerks.
pub fn is_batch_of(
    found: &Option<Batch>,
    ward: u32,
    size: u32,
    first_clerk: u32,
    second_clerk: u32,
) -> bool
    ensures { result ≡ is_there (is_batch_of ward size first_clerk second_clerk) (option_map batch_entry found.now) }
{
    match found {
        Some(batch) => {
            let clerks = (batch.first_clerk == first_clerk) & (batch.second_clerk == second_clerk);
            (batch.ward == ward) & ((batch.size == size) & clerks)
        }
        None => false,
    }
}

#[tactic(auto, unfolding(crate::specs::Repeats::has_texts))]
/// Returns whether a keying consists of exactly the given marks texts, one per paper, in order.
pub fn has_texts(keying: &[KeyedPaper], texts: &[String]) -> bool
    ensures { result ≡ has_texts (map keyed_entry keying.now) (map string_bytes texts.now) }
{
    if keying.len() != texts.len() {
        return false;
    }
    for (place, keyed) in keying.iter().enumerate() {
        if keyed.marks.as_str() != texts[place].as_str() {
            return false;
        }
    }
    true
}

/// Returns whether a verdict exists and has the same code and marks as the command's verdict.
pub fn is_judged_alike(found: &Option<JudgedPaper>, command: &VerdictCommand) -> bool
    ensures { result ≡ is_there (is_judged_alike (judged_as command.now.batch command.now.paper command.now.verdict)) (option_map judged_entry found.now) }
{
    let Some(judged) = found else {
        return false;
    };
    match &command.verdict {
        Verdict::Accept(marks) => {
            (judged.code == ACCEPTED) & (judged.marks.as_str() == marks.as_str())
        }
        Verdict::Reject(code) => (judged.code == *code) & (judged.marks.as_str() == ""),
    }
}

/// Returns whether one of the given lots is for the given stage and names the given candidate.
pub fn is_drawn(lots: &[DrawnLot], stage: u32, candidate: u32) -> bool
    ensures { result ≡ list_any (is_drawn stage candidate) (map lot_entry lots.now) }
{
    for lot in lots {
        if (lot.stage == stage) & (lot.candidate == candidate) {
            return true;
        }
    }
    false
}

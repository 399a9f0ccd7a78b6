//! The status of a ward's election, in one line.

ghost use Rattle.std.specs.Prelude.{◌≡◌, IfOk, string_bytes};
ghost use Rattle.sqlite.specs.Held.{state};
ghost use Rattle.register.specs.Status.{status_entry};
ghost use Rattle.tables.specs.Reading.{OnlyReads};
ghost use Rattle.office.specs.Reads.{status_answer};
ghost use Rattle.office.specs.Answers.{WhenOpenAt};
ghost use Rattle.desk.specs.Parts.{IsFound};
ghost use Rattle.desk.specs.Pages.{page_of, replied};
ghost use Rattle.desk.specs.WardStatus.{batch_words, count_words, phase_word, status_text, ward_words};

use crate::lines::LineOutcome;
use office::{Office, ReadError};
use register::{Phase, Status};
use sqlite::Alter;
use std::alloc::{AllocError, Global};
use store::Fault;

pub(crate) fn phase_word(phase: Phase) -> &'static str
    ensures { result.now ≡ phase_word phase }
{
    match phase {
        Phase::Nominations => "nominations",
        Phase::Keying => "keying",
        Phase::Sealed => "sealed",
        Phase::Declared => "declared",
    }
}

#[tactic(auto, unfolding(crate::specs::WardStatus::ward_words))]
/// Returns the number and phase of the ward, and how many candidates it has.
fn ward_words(alloc: Global, status: &Status) -> Result<String, AllocError>
    ensures { IfOk result (λ text. string_bytes text ≡ ward_words (status_entry status.now)) }
{
    let (ward, phase) = (status.ward, phase_word(status.phase));
    let candidates = status.candidates;
    format!(in alloc; "ward {ward} {phase}: {candidates} candidates")
}

#[tactic(auto, unfolding(crate::specs::WardStatus::batch_words))]
/// Returns how many batches the ward has, how many of them are taken, and how many differ.
fn batch_words(alloc: Global, status: &Status) -> Result<String, AllocError>
    ensures { IfOk result (λ text. string_bytes text ≡ batch_words (status_entry status.now)) }
{
    let (batches, taken, differing) = (status.batches, status.taken, status.differing);
    format!(in alloc; "{batches} batches, {taken} taken, {differing} differing")
}

#[tactic(auto, unfolding(crate::specs::WardStatus::count_words))]
/// Returns how many doubtful papers are open, and how many stages have been counted.
fn count_words(alloc: Global, status: &Status) -> Result<String, AllocError>
    ensures { IfOk result (λ text. string_bytes text ≡ count_words (status_entry status.now)) }
{
    let (doubtful, stages) = (status.doubtful_open, status.stages);
    format!(in alloc; "{doubtful} doubtful open, {stages} stages")
}

#[tactic(auto, unfolding(crate::specs::WardStatus::status_text))]
/// Returns the status line of a ward, without its newline.
pub(crate) fn status_text(alloc: Global, status: &Status) -> Result<String, AllocError>
    ensures { IfOk result (λ text. string_bytes text ≡ status_text (status_entry status.now)) }
{
    let ward = ward_words(alloc, status)?;
    let batches = batch_words(alloc, status)?;
    let count = count_words(alloc, status)?;
    format!(in alloc; "{ward}, {batches}, {count}")
}

/// Returns a ward's status in words, or the reason why it isn't available.
pub(crate) fn ward_status_of<S: Alter>(
    alloc: Global,
    office: &mut Office<S>,
    ward: u32,
) -> LineOutcome
    ensures found { WhenOpenAt (state S.Store) office.old office.new
        (λ s. IsFound s (λ status. replied (status_text status)) (status_answer s ward) (page_of result) office.new.closed (state S.Store office.old.held) (state S.Store office.new.held)) }
    ensures same { OnlyReads (state S.Store office.old.held) (state S.Store office.new.held) }
{
    match office.status(ward) {
        Ok(status) => match status_text(alloc, &status) {
            Ok(text) => LineOutcome::Replied(text),
            Err(_) => LineOutcome::Failed(Fault::Memory),
        },
        Err(ReadError::Refused(refusal)) => LineOutcome::Refused(refusal),
        Err(ReadError::Fault(fault)) => LineOutcome::Failed(fault),
    }
}

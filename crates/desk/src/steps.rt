//! What comes next in a ward's election, in one line with the candidates' names.

ghost use Rattle.std.specs.Prelude.{◌≡◌, ◌++◌, IfOk, map, string_bytes};
ghost use Rattle.sqlite.specs.Held.{state};
ghost use Rattle.register.specs.Offices.{candidate_entry};
ghost use Rattle.register.specs.Status.{status_entry};
ghost use Rattle.register.specs.NextSteps.{step_entry};
ghost use Rattle.tables.specs.Reading.{OnlyReads};
ghost use Rattle.office.specs.Reads.{next_answer};
ghost use Rattle.office.specs.Answers.{WhenOpenAt};
ghost use Rattle.desk.specs.Parts.{IsFound};
ghost use Rattle.desk.specs.Pages.{page_of, replied};
ghost use Rattle.desk.specs.Steps.{action_words, all_named, due_words, lot_words, named, named_behind, nominations_words, papers_words, seal_words, step_text, step_words, taken_words};

use crate::candidate_names::candidate_in;
use crate::lines::LineOutcome;
use count::{Action, Due, TiedFor};
use office::{Office, ReadError};
use paper::Columns;
use register::{Candidate, NextStep, Status};
use sqlite::Alter;
use std::alloc::{AllocError, Global};
use store::Fault;

// ---- candidates

#[tactic(auto, unfolding(crate::specs::Steps::named))]
/// Returns a number and the name of the candidate with that number: `3 Cy`.
fn named(alloc: Global, candidates: &[Candidate], number: u8) -> Result<String, AllocError>
    ensures { IfOk result (λ text. string_bytes text ≡ named (map candidate_entry candidates.now) number) }
{
    match candidate_in(candidates, u32::from(number)) {
        Some(candidate) => {
            let name = candidate.name.as_str();
            format!(in alloc; "{number} {name}")
        }
        None => format!(in alloc; "{number}"),
    }
}

/// Appends another candidate to a list: `, 3 Cy`.
fn put_named(
    alloc: Global,
    text: &mut String,
    candidates: &[Candidate],
    number: u8,
) -> Result<(), AllocError>
    ensures { IfOk result (λ _. string_bytes text.new ≡ string_bytes text.old ++ named_behind (map candidate_entry candidates.now) number) }
{
    let told = named(alloc, candidates, number)?;
    text.push_str(", ")?;
    text.push_str(told.as_str())
}

#[tactic(auto, unfolding(crate::specs::Steps::all_named))]
/// Returns a list of candidates: `2 Bob, 3 Cy`.
fn all_named(
    alloc: Global,
    candidates: &[Candidate],
    numbers: &Columns,
) -> Result<String, AllocError>
    ensures { IfOk result (λ text. string_bytes text ≡ all_named (map candidate_entry candidates.now) numbers.now) }
{
    let Some((first, others)) = numbers.as_slice().split_first() else {
        return Ok(String::new(alloc));
    };
    let mut text = named(alloc, candidates, *first)?;
    for number in others {
        put_named(alloc, &mut text, candidates, *number)?;
    }
    Ok(text)
}

// ---- what is due in a count

#[tactic(auto, unfolding(crate::specs::Steps::action_words))]
/// Returns what a stage does, and which candidate it concerns.
fn action_words(
    alloc: Global,
    candidates: &[Candidate],
    action: Action,
) -> Result<String, AllocError>
    ensures { IfOk result (λ text. string_bytes text ≡ action_words (map candidate_entry candidates.now) action) }
{
    match action {
        Action::First => String::from_str(alloc, "first preferences"),
        Action::Surplus(c) => {
            let whose = named(alloc, candidates, c)?;
            format!(in alloc; "surplus of {whose}")
        }
        Action::Exclude(c) => {
            let who = named(alloc, candidates, c)?;
            format!(in alloc; "exclusion of {who}")
        }
        Action::ExcludeLast(c) => {
            let who = named(alloc, candidates, c)?;
            format!(in alloc; "exclusion of {who}, last vacancies")
        }
    }
}

/// Returns what a lot decides.
fn lot_words(kind: TiedFor) -> &'static str
    ensures { result.now ≡ lot_words kind }
{
    match kind {
        TiedFor::Surplus => "whose surplus comes first",
        TiedFor::Exclusion => "who is excluded",
    }
}

#[tactic(auto, unfolding(crate::specs::Steps::due_words))]
/// Returns the stage that is due, the lot that it needs, or that no stage is due.
fn due_words(
    alloc: Global,
    stage: u32,
    candidates: &[Candidate],
    due: Due,
) -> Result<String, AllocError>
    ensures { IfOk result (λ text. string_bytes text ≡ due_words stage (map candidate_entry candidates.now) due) }
{
    match due {
        Due::Act(action) => {
            let action = action_words(alloc, candidates, action)?;
            format!(in alloc; "stage {stage} comes next, {action}")
        }
        Due::Lot { stage, kind, among } => {
            let (decides, tied) = (lot_words(kind), all_named(alloc, candidates, &among)?);
            format!(in alloc; "stage {stage} waits for a lot that decides {decides}: {tied}")
        }
        Due::Finished => {
            String::from_str(alloc, "the count is finished, the declaration comes next")
        }
    }
}

// ---- what comes next

#[tactic(auto, unfolding(crate::specs::Steps::nominations_words))]
/// Returns how many candidates there are for how many seats, before nominations close.
fn nominations_words(alloc: Global, candidates: usize, seats: u32) -> Result<String, AllocError>
    ensures { IfOk result (λ text. string_bytes text ≡ nominations_words candidates seats) }
{
    format!(in alloc;
        "{candidates} candidates for {seats} seats so far, the close of nominations comes next"
    )
}

#[tactic(auto, unfolding(crate::specs::Steps::seal_words))]
/// Returns what the seal of a ward is waiting for. The seal is due once all batches are taken and all their doubtful papers have
/// a verdict.
fn seal_words(status: &Status) -> &'static str
    ensures { result.now ≡ seal_words (status_entry status.now) }
{
    if status.batches == 0 {
        "no batch is given out yet"
    } else if status.taken == status.batches && status.doubtful_open == 0 {
        "the seal comes next"
    } else {
        "the seal comes once all are taken and judged"
    }
}

#[tactic(auto, unfolding(crate::specs::Steps::taken_words))]
/// Returns how many batches of a ward are taken, and how many differ.
fn taken_words(alloc: Global, status: &Status) -> Result<String, AllocError>
    ensures { IfOk result (λ text. string_bytes text ≡ taken_words (status_entry status.now)) }
{
    let (taken, batches, differing) = (status.taken, status.batches, status.differing);
    format!(in alloc; "{taken} of {batches} batches taken, {differing} differing")
}

#[tactic(auto, unfolding(crate::specs::Steps::papers_words))]
/// Returns the state of a ward's papers before its seal.
fn papers_words(alloc: Global, status: &Status) -> Result<String, AllocError>
    ensures { IfOk result (λ text. string_bytes text ≡ papers_words (status_entry status.now)) }
{
    let taken = taken_words(alloc, status)?;
    let (open, seal) = (status.doubtful_open, seal_words(status));
    format!(in alloc; "{taken}, {open} doubtful open, {seal}")
}

#[tactic(auto, unfolding(crate::specs::Steps::step_words))]
/// Returns the words for what comes next.
fn step_words(alloc: Global, step: &NextStep) -> Result<String, AllocError>
    ensures { IfOk result (λ text. string_bytes text ≡ step_words (step_entry step.now)) }
{
    match step {
        NextStep::Nominations { candidates, seats } => {
            nominations_words(alloc, *candidates, *seats)
        }
        NextStep::Papers(status) => papers_words(alloc, status),
        NextStep::Count {
            stage,
            due,
            candidates,
        } => due_words(alloc, *stage, candidates, *due),
        NextStep::Nothing => String::from_str(alloc, "declared, nothing is left to do"),
    }
}

#[tactic(auto, unfolding(crate::specs::Steps::step_text))]
/// Returns the line that says what comes next in a ward's election, without its newline.
fn step_text(alloc: Global, ward: u32, step: &NextStep) -> Result<String, AllocError>
    ensures { IfOk result (λ text. string_bytes text ≡ step_text ward (step_entry step.now)) }
{
    let words = step_words(alloc, step)?;
    format!(in alloc; "ward {ward}: {words}")
}

/// Returns the words for what comes next in a ward's election, or the reason why they aren't available.
pub(crate) fn next_of<S: Alter>(alloc: Global, office: &mut Office<S>, ward: u32) -> LineOutcome
    ensures found { WhenOpenAt (state S.Store) office.old office.new
        (λ s. IsFound s (λ step. replied (step_text ward step)) (next_answer s ward) (page_of result) office.new.closed (state S.Store office.old.held) (state S.Store office.new.held)) }
    ensures same { OnlyReads (state S.Store office.old.held) (state S.Store office.new.held) }
{
    match office.next_step(ward) {
        Ok(step) => match step_text(alloc, ward, &step) {
            Ok(text) => LineOutcome::Replied(text),
            Err(_) => LineOutcome::Failed(Fault::Memory),
        },
        Err(ReadError::Refused(refusal)) => LineOutcome::Refused(refusal),
        Err(ReadError::Fault(fault)) => LineOutcome::Failed(fault),
    }
}

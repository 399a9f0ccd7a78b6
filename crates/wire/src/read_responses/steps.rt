//! The JSON for the next step in a ward.

ghost use Rattle.std.specs.Prelude.{◌≡◌, IfOk};
ghost use Rattle.serde_json.specs.View.{view};
ghost use Rattle.register.specs.Status.{status_entry};
ghost use Rattle.register.specs.NextSteps.{step_entry};
ghost use Rattle.wire.specs.OfficeReplies.{action_candidate, action_word, due_data, lot_data, lot_word, papers_word, stage_data, step_data, word_data};

use crate::read_responses::numbers::candidate_numbers_value;
use count::{Action, Due, TiedFor};
use paper::Columns;
use register::{NextStep, Status};
use serde_json::{Value, json};
use std::alloc::{AllocError, Global};

/// Returns a step that needs no further details, as a JSON value.
fn word_value(alloc: Global, word: &str) -> Result<Value, AllocError>
    ensures { IfOk result (λ value. view value ≡ word_data word.now) }
{
    json!(in alloc; {"step": word})
}

/// Returns the word for the next step of keying.
fn papers_word(status: &Status) -> &'static str
    ensures { result.now ≡ papers_word (status_entry status.now) }
{
    if status.batches == 0 {
        return "batches";
    }
    if status.taken == status.batches && status.doubtful_open == 0 {
        return "seal";
    }
    "papers"
}

/// Returns the word for what a stage does.
fn action_word(action: Action) -> &'static str
    ensures { result.now ≡ action_word action }
{
    match action {
        Action::First => "first",
        Action::Surplus(_) => "surplus",
        Action::Exclude(_) => "exclusion",
        Action::ExcludeLast(_) => "last exclusion",
    }
}

/// Returns the candidate that a stage concerns, or 0.
fn action_candidate(action: Action) -> u8
    ensures { result ≡ action_candidate action }
{
    match action {
        Action::First => 0,
        Action::Surplus(candidate) => candidate,
        Action::Exclude(candidate) => candidate,
        Action::ExcludeLast(candidate) => candidate,
    }
}

/// Returns the next stage of a count, as a JSON value.
fn stage_value(alloc: Global, stage: u32, action: Action) -> Result<Value, AllocError>
    ensures { IfOk result (λ value. view value ≡ stage_data stage action) }
{
    let (word, candidate) = (action_word(action), action_candidate(action));
    json!(in alloc; {"action": word, "candidate": candidate, "stage": stage, "step": "stage"})
}

/// Returns the word for what a lot decides.
fn lot_word(kind: TiedFor) -> &'static str
    ensures { result.now ≡ lot_word kind }
{
    match kind {
        TiedFor::Surplus => "surplus",
        TiedFor::Exclusion => "exclusion",
    }
}

/// Returns a lot that must be drawn next, as a JSON value.
fn lot_value(alloc: Global, stage: u8, kind: TiedFor, among: &Columns) -> Result<Value, AllocError>
    ensures { IfOk result (λ value. view value ≡ lot_data stage kind among.now) }
{
    let tied = candidate_numbers_value(alloc, among.as_slice())?;
    json!(in alloc; {"decides": lot_word(kind), "stage": stage, "step": "lot", "tied": tied})
}

/// Returns what comes next in a count, as a JSON value.
fn due_value(alloc: Global, stage: u32, due: Due) -> Result<Value, AllocError>
    ensures { IfOk result (λ value. view value ≡ due_data stage due) }
{
    match due {
        Due::Act(action) => stage_value(alloc, stage, action),
        Due::Lot { stage, kind, among } => lot_value(alloc, stage, kind, &among),
        Due::Finished => word_value(alloc, "declaration"),
    }
}

/// Returns the next step in a ward, as a JSON value.
pub(crate) fn step_value(alloc: Global, next: &NextStep) -> Result<Value, AllocError>
    ensures { IfOk result (λ value. view value ≡ step_data (step_entry next.now)) }
{
    match next {
        NextStep::Nominations { .. } => word_value(alloc, "nominations"),
        NextStep::Papers(status) => word_value(alloc, papers_word(status)),
        NextStep::Count { stage, due, .. } => due_value(alloc, *stage, *due),
        NextStep::Nothing => word_value(alloc, "nothing"),
    }
}

//! Judged papers, and the command that judges a paper.

ghost use Rattle.std.specs.Prelude.{◌≡◌, IfOk, string_bytes};
ghost use Rattle.register.specs.Reasons.{first_reason};
ghost use Rattle.register.specs.CommandInputs.{input_entries};
ghost use Rattle.register.specs.Effects.{effect_entry};
ghost use Rattle.register.specs.Verdicts.{is_in_range, is_rejection_code, is_verdict, verdict_objection, objections, subject_of, reply_to, effect_of};

use crate::agreement::{agreed, are_taken, has_doubtful};
use crate::decision::Effect;
use crate::marks::{columns_of, is_valid, marks_objection};
use crate::phase::Phase;
use crate::ranges::{is_batch_number, is_between, is_office, is_paper_number};
use crate::refusal::Reason;
use crate::view::CommandInput;
use crate::wards::is_in_phase;
use paper::Columns;
use std::alloc::{AllocError, Global};

/// A doubtful ballot paper as judged by the returning officer: its batch (1 to 9999), its number within the batch (1 to
/// 500), and the verdict. The verdict is either code 0 with the marks with which the paper is accepted, or a rejection
/// code (3 to 5) without marks.
#[derive(PartialEq, Drop)]
pub struct JudgedPaper {
    pub batch: u32,
    pub paper: u32,
    pub code: u32,
    pub marks: String,
}

/// The returning officer's decision on a doubtful paper.
#[derive(Debug, Drop)]
pub enum Verdict {
    /// Accepted, with these marks.
    Accept(String),
    /// Rejected with this code: 3 for no official mark, 4 for voter identifiable, 5 for void for uncertainty.
    Reject(u32),
}

/// The office's command for a paper in a batch: records this verdict on the paper.
#[derive(Debug, Drop)]
pub struct VerdictCommand {
    pub batch: u32,
    pub paper: u32,
    pub verdict: Verdict,
}

/// The code of an accepted paper.
pub(crate) const ACCEPTED: u32 = 0;

/// The lowest code with which the returning officer may reject a paper.
const FIRST_REJECTION: u32 = 3;

/// The highest code with which the returning officer may reject a paper.
const LAST_REJECTION: u32 = 5;

/// Returns whether the command's numbers are in range and the actor may send it.
fn is_in_range(actor: u32, command: &VerdictCommand) -> bool
    ensures { result ≡ is_in_range actor command.now }
{
    let office = is_office(actor);
    let number = is_batch_number(command.batch);
    office & (number & is_paper_number(command.paper))
}

/// Returns whether the returning officer may reject a paper with the given code: 3 to 5.
pub fn is_rejection_code(code: u32) -> bool
    ensures { result ≡ is_rejection_code code }
{
    is_between(FIRST_REJECTION, LAST_REJECTION, code)
}

/// Returns the objection to the marks in an accepting verdict, if they can't be read.
fn verdict_objection(columns: Columns, paper: u32, verdict: &Verdict) -> Option<Reason>
    ensures { result ≡ verdict_objection columns paper verdict.now }
{
    match verdict {
        Verdict::Accept(marks) => marks_objection(columns, paper, marks.as_str()),
        Verdict::Reject(_) => None,
    }
}

/// Returns whether a verdict is permitted: an accepted paper must be valid according to its marks, and a rejection must
/// have a permitted code.
fn is_verdict(columns: Columns, verdict: &Verdict) -> bool
    ensures { result ≡ is_verdict columns verdict.now }
{
    match verdict {
        Verdict::Accept(marks) => is_valid(columns, marks.as_str()),
        Verdict::Reject(code) => is_rejection_code(*code),
    }
}

/// Returns the objection to the command or, if there are several, the one with the lowest number.
pub(crate) fn objection_to(
    actor: u32,
    command: &VerdictCommand,
    part: &CommandInput,
) -> Option<Reason>
    ensures { result ≡ first_reason (objections actor command.now (input_entries part.now)) }
{
    if !is_in_range(actor, command) {
        return Some(Reason::NumberOutOfRange);
    }
    if part.batch.is_none() {
        return Some(Reason::NoSuchBatch);
    }
    if !is_in_phase(Phase::Keying, &part.ward) {
        return Some(Reason::WrongPhase);
    }
    let columns = columns_of(&part.candidates);
    if let Some(reason) = verdict_objection(columns, command.paper, &command.verdict) {
        return Some(reason);
    }
    let papers = agreed(&part.first, &part.second, &part.third);
    if !are_taken(&part.first, &part.second, &part.third) {
        return Some(Reason::NotTaken);
    }
    if !has_doubtful(papers, command.paper) {
        return Some(Reason::NotDoubtful);
    }
    if part.verdict.is_some() {
        return Some(Reason::AlreadyJudged);
    }
    if !is_verdict(columns, &command.verdict) {
        return Some(Reason::BadVerdict);
    }
    None
}

#[tactic(auto, unfolding(crate::specs::Verdicts::subject_of))]
/// Returns the subject of the receipt for the command.
pub(crate) fn subject_of(alloc: Global, command: &VerdictCommand) -> Result<String, AllocError>
    ensures { IfOk result (λ text. string_bytes text ≡ subject_of command.now) }
{
    let (batch, paper) = (command.batch, command.paper);
    format!(in alloc; "judge {batch} {paper}")
}

#[tactic(auto, unfolding(crate::specs::Verdicts::reply_to))]
/// Returns the reply to an accepted command, which reports the verdict.
pub(crate) fn reply_to(alloc: Global, command: &VerdictCommand) -> Result<String, AllocError>
    ensures { IfOk result (λ text. string_bytes text ≡ reply_to command.now) }
{
    let (batch, paper) = (command.batch, command.paper);
    match &command.verdict {
        Verdict::Accept(_) => format!(in alloc; "batch {batch} paper {paper} accepted"),
        Verdict::Reject(code) => format!(in alloc; "batch {batch} paper {paper} rejected {code}"),
    }
}

/// Returns the effect of the command on the state: the paper is either accepted with these marks, or rejected with this
/// code and without marks.
pub(crate) fn effect_of(alloc: Global, command: &VerdictCommand) -> Result<Effect, AllocError>
    ensures { IfOk result (λ effect. effect_entry effect ≡ effect_of command.now) }
{
    let (code, marks) = match &command.verdict {
        Verdict::Accept(marks) => (ACCEPTED, marks.clone()?),
        Verdict::Reject(code) => (*code, String::new(alloc)),
    };
    Ok(Effect::PaperJudged(JudgedPaper {
        batch: command.batch,
        paper: command.paper,
        code,
        marks,
    }))
}

//! Candidates, and the commands for them.

ghost use Rattle.std.specs.Prelude.{◌≡◌, ◌&&◌, IfOk, string_bytes};
ghost use Rattle.register.specs.Reasons.{first_reason};
ghost use Rattle.register.specs.Ranges.{is_office, is_ward_number, is_candidate_number};
ghost use Rattle.register.specs.CommandInputs.{input_entries};
ghost use Rattle.register.specs.Effects.{effect_entry};
ghost use Rattle.register.specs.Candidates.{is_in_range, objections, subject_of, reply_to, effect_of};

use crate::decision::Effect;
use crate::phase::Phase;
use crate::ranges::{is_candidate_number, is_name, is_office, is_ward_number};
use crate::refusal::Reason;
use crate::view::CommandInput;
use crate::wards::phase_objection;
use std::alloc::{AllocError, Global};

/// A candidate: the ward (1 to 99), the candidate's number in that ward (1 to 30), and the name.
#[derive(PartialEq, Drop)]
pub struct Candidate {
    pub ward: u32,
    pub number: u32,
    pub name: String,
}

/// The office's commands for candidates.
#[derive(Debug, Drop)]
pub enum CandidateCommand {
    /// Adds a candidate with this number and name to this ward.
    Add {
        ward: u32,
        candidate: u32,
        name: String,
    },
    /// Withdraws the candidate with this number from this ward. The number can then be used again.
    Withdraw {
        ward: u32,
        candidate: u32,
    },
}

/// Returns whether the actor is the office and both numbers are in range.
fn is_office_on(actor: u32, ward: u32, candidate: u32) -> bool
    ensures { result ≡ (is_office actor && (is_ward_number ward && is_candidate_number candidate)) }
{
    let office = is_office(actor);
    let number = is_ward_number(ward);
    office & (number & is_candidate_number(candidate))
}

/// Returns whether the command's numbers are in range and the actor may send it.
fn is_in_range(actor: u32, command: &CandidateCommand) -> bool
    ensures { result ≡ is_in_range actor command.now }
{
    match command {
        CandidateCommand::Add {
            ward,
            candidate,
            ..
        } => is_office_on(actor, *ward, *candidate),
        CandidateCommand::Withdraw { ward, candidate } => is_office_on(actor, *ward, *candidate),
    }
}

/// Returns the objection to a command or, if there are several, the one with the lowest number.
pub(crate) fn objection_to(
    actor: u32,
    command: &CandidateCommand,
    part: &CommandInput,
) -> Option<Reason>
    ensures { result ≡ first_reason (objections actor command.now (input_entries part.now)) }
{
    if !is_in_range(actor, command) {
        return Some(Reason::NumberOutOfRange);
    }
    match command {
        CandidateCommand::Add { name, .. } => {
            if !is_name(name.as_str()) {
                return Some(Reason::BadName);
            }
            if let Some(reason) = phase_objection(Phase::Nominations, &part.ward) {
                return Some(reason);
            }
            if part.candidate.is_some() {
                return Some(Reason::CandidateExists);
            }
            None
        }
        CandidateCommand::Withdraw { .. } => {
            if let Some(reason) = phase_objection(Phase::Nominations, &part.ward) {
                return Some(reason);
            }
            if part.candidate.is_none() {
                return Some(Reason::NoSuchCandidate);
            }
            None
        }
    }
}

#[tactic(auto, unfolding(crate::specs::Candidates::subject_of))]
/// Returns the subject of the receipt for a command.
pub(crate) fn subject_of(alloc: Global, command: &CandidateCommand) -> Result<String, AllocError>
    ensures { IfOk result (λ text. string_bytes text ≡ subject_of command.now) }
{
    match command {
        CandidateCommand::Add {
            ward,
            candidate,
            ..
        } => format!(in alloc; "candidate {ward} {candidate}"),
        CandidateCommand::Withdraw { ward, candidate } => {
            format!(in alloc; "withdraw {ward} {candidate}")
        }
    }
}

#[tactic(auto, unfolding(crate::specs::Candidates::reply_to))]
/// Returns the reply to an accepted command.
pub(crate) fn reply_to(
    alloc: Global,
    command: &CandidateCommand,
    part: &CommandInput,
) -> Result<String, AllocError>
    ensures { IfOk result (λ text. string_bytes text ≡ reply_to command.now (input_entries part.now)) }
{
    match command {
        CandidateCommand::Add {
            ward,
            candidate,
            ..
        } => format!(in alloc; "candidate {candidate} of ward {ward} added"),
        CandidateCommand::Withdraw { ward, candidate } => {
            format!(in alloc; "candidate {candidate} of ward {ward} withdrawn")
        }
    }
}

/// Returns the effect of a command on the state. Returns `AllocError` if an allocation fails.
pub(crate) fn effect_of(
    command: &CandidateCommand,
    part: &CommandInput,
) -> Result<Effect, AllocError>
    ensures { IfOk result (λ effect. effect_entry effect ≡ effect_of command.now (input_entries part.now)) }
{
    match command {
        CandidateCommand::Add {
            ward,
            candidate,
            name,
        } => Ok(Effect::CandidateAdded(Candidate {
            ward: *ward,
            number: *candidate,
            name: name.clone()?,
        })),
        CandidateCommand::Withdraw { ward, candidate } => Ok(Effect::CandidateWithdrawn {
            ward: *ward,
            candidate: *candidate,
        }),
    }
}

//! The name and the subject of an order.

ghost use Rattle.std.specs.Prelude.{◌≡◌, ◌==◌, ◌&&◌, IfOk, string_bytes};
ghost use Rattle.std.specs.Str.{bytes_eq};
ghost use Rattle.register.specs.Machine.{subject_of};
ghost use Rattle.register.specs.Wards.{subject_of as ward_subject};
ghost use Rattle.register.specs.Candidates.{subject_of as candidate_subject};
ghost use Rattle.register.specs.Batches.{subject_of as batch_subject};
ghost use Rattle.register.specs.Counts.{subject_of as count_subject};
ghost use Rattle.mending.specs.Changes.{takes_place_of};
ghost use Rattle.mending.specs.Names.{order_name};

use register::{BatchCommand, CandidateCommand, Command, CountCommand, Request, WardCommand};
use std::alloc::{AllocError, Global};

/// The actor of the office's own orders.
const OFFICE: u32 = 0;

#[tactic(auto, unfolding(crate::specs::Names::order_name))]
/// Returns the name of an order: its id, preceded by the clerk's number and a colon if a clerk sent it.
pub(crate) fn order_name(alloc: Global, order: &Request) -> Result<String, AllocError>
    ensures { IfOk result (λ name. string_bytes name ≡ order_name order.now) }
{
    let (actor, id) = (order.actor, order.id.as_str());
    if actor == OFFICE {
        return String::from_str(alloc, id);
    }
    format!(in alloc; "{actor}:{id}")
}

#[tactic(auto, unfolding(register::specs::Wards::subject_of))]
/// Returns the subject of a command for a ward.
fn ward_subject(alloc: Global, command: &WardCommand) -> Result<String, AllocError>
    ensures { IfOk result (λ text. string_bytes text ≡ ward_subject command.now) }
{
    match command {
        WardCommand::Add { ward, .. } => format!(in alloc; "ward {ward}"),
        WardCommand::Close { ward } => format!(in alloc; "close {ward}"),
    }
}

#[tactic(auto, unfolding(register::specs::Candidates::subject_of))]
/// Returns the subject of a command for a candidate.
fn candidate_subject(alloc: Global, command: &CandidateCommand) -> Result<String, AllocError>
    ensures { IfOk result (λ text. string_bytes text ≡ candidate_subject command.now) }
{
    match command {
        CandidateCommand::Add {
            ward,
            candidate,
            ..
        } => format!(in alloc; "candidate {ward} {candidate}"),
        CandidateCommand::Withdraw { ward, candidate } => {
            format!(in alloc; "withdraw {ward} {candidate}")
        }
    }
}

#[tactic(auto, unfolding(register::specs::Batches::subject_of))]
/// Returns the subject of a command for a batch.
fn batch_subject(alloc: Global, command: &BatchCommand) -> Result<String, AllocError>
    ensures { IfOk result (λ text. string_bytes text ≡ batch_subject command.now) }
{
    match command {
        BatchCommand::Add { batch, .. } => format!(in alloc; "batch {batch}"),
        BatchCommand::Again { batch } => format!(in alloc; "again {batch}"),
        BatchCommand::Third { batch, .. } => format!(in alloc; "third {batch}"),
    }
}

#[tactic(auto, unfolding(register::specs::Counts::subject_of))]
/// Returns the subject of a command for a count.
fn count_subject(alloc: Global, command: &CountCommand) -> Result<String, AllocError>
    ensures { IfOk result (λ text. string_bytes text ≡ count_subject command.now) }
{
    match command {
        CountCommand::Seal { ward } => format!(in alloc; "seal {ward}"),
        CountCommand::Advance { ward } => format!(in alloc; "advance {ward}"),
        CountCommand::Lot { ward, stage, .. } => format!(in alloc; "lot {ward} {stage}"),
        CountCommand::Declare { ward } => format!(in alloc; "declare {ward}"),
    }
}

#[tactic(auto, unfolding(register::specs::Keyings::subject_of, register::specs::Verdicts::subject_of))]
/// Returns the subject of a command, as in the receipt of its order. Fails if an allocation fails.
pub fn subject_of(alloc: Global, command: &Command) -> Result<String, AllocError>
    ensures { IfOk result (λ text. string_bytes text ≡ subject_of command.now) }
{
    match command {
        Command::Ward(command) => ward_subject(alloc, command),
        Command::Candidate(command) => candidate_subject(alloc, command),
        Command::Batch(command) => batch_subject(alloc, command),
        Command::Keying(keying) => {
            let (batch, round) = (keying.batch, keying.round);
            format!(in alloc; "key {batch} {round}")
        }
        Command::Verdict(verdict) => {
            let (batch, paper) = (verdict.batch, verdict.paper);
            format!(in alloc; "judge {batch} {paper}")
        }
        Command::Count(command) => count_subject(alloc, command),
    }
}

/// Returns whether the other order may replace this one: both must have the same actor and the same subject.
pub(crate) fn takes_place_of(
    alloc: Global,
    order: &Request,
    other: &Request,
) -> Result<bool, AllocError>
    ensures { IfOk result (λ takes. takes ≡ takes_place_of order.now other.now) }
{
    let subject = subject_of(alloc, &order.command)?;
    let other_subject = subject_of(alloc, &other.command)?;
    Ok((order.actor == other.actor) & (subject.as_str() == other_subject.as_str()))
}

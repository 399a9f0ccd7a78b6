//! Batches of ballot papers, and the commands for them.

ghost use Rattle.std.specs.Prelude.{◌≡◌, IfOk, option_map, string_bytes};
ghost use Rattle.register.specs.Reasons.{first_reason};
ghost use Rattle.register.specs.Offices.{batch_entry};
ghost use Rattle.register.specs.CommandInputs.{input_entries, passes};
ghost use Rattle.register.specs.Effects.{effect_entry};
ghost use Rattle.register.specs.Batches.{is_in_last_round, is_in_range, next_round, third_objections, objections, subject_of, reply_to, effect_of};

use crate::agreement::differ;
use crate::decision::Effect;
use crate::keyings::is_its_clerk;
use crate::phase::Phase;
use crate::ranges::{
    LAST_ROUND, is_batch_number, is_clerk, is_office, is_paper_number, is_ward_number,
};
use crate::refusal::Reason;
use crate::view::CommandInput;
use crate::wards::is_in_phase;
use std::alloc::{AllocError, Global};

/// A batch of ballot papers. Its number (1 to 9999) is unique across all wards. It also has its ward (1 to 99), its number of
/// papers (1 to 500), the two clerks (1 to 999) assigned to key it, and its current round (1 to 99).
#[derive(PartialEq, Drop)]
pub struct Batch {
    pub number: u32,
    pub ward: u32,
    pub size: u32,
    pub first_clerk: u32,
    pub second_clerk: u32,
    pub round: u32,
}

/// A third clerk (1 to 999), who keys a batch (1 to 9999) in its current round and in later rounds.
#[derive(PartialEq, Drop)]
pub struct ThirdClerk {
    pub batch: u32,
    pub clerk: u32,
}

/// The office's commands for batches.
#[derive(Debug, Drop)]
pub enum BatchCommand {
    /// Assigns a batch of `size` papers in this ward to two clerks. The batch starts in its first round.
    Add {
        batch: u32,
        ward: u32,
        size: u32,
        first_clerk: u32,
        second_clerk: u32,
    },
    /// Opens another round of a batch whose keyings differ.
    Again {
        batch: u32,
    },
    /// Assigns a batch whose keyings differ to a third clerk, in addition to its two clerks. The batch is taken as soon as any
    /// two keyings agree.
    Third {
        batch: u32,
        clerk: u32,
    },
}

/// Returns whether a batch is in the last round.
fn is_in_last_round(batch: &Batch) -> bool
    ensures { result ≡ is_in_last_round (batch_entry batch.now) }
{
    LAST_ROUND <= batch.round
}

/// Returns whether a batch exists and is in the last round.
fn is_last(batch: &Option<Batch>) -> bool
    ensures { result ≡ passes is_in_last_round (option_map batch_entry batch.now) }
{
    match batch {
        Some(batch) => is_in_last_round(batch),
        None => false,
    }
}

/// Returns whether the command's numbers are in range and the actor may send it. A batch in the last round can't be keyed again.
fn is_in_range(actor: u32, command: &BatchCommand, part: &CommandInput) -> bool
    ensures { result ≡ is_in_range actor command.now (input_entries part.now) }
{
    let office = is_office(actor);
    match command {
        BatchCommand::Add {
            batch,
            ward,
            size,
            first_clerk,
            second_clerk,
        } => {
            let numbers = is_batch_number(*batch)
                & (is_ward_number(*ward) & is_paper_number(*size));
            let clerks = is_clerk(*first_clerk) & is_clerk(*second_clerk);
            office & (numbers & clerks)
        }
        BatchCommand::Again { batch } => {
            let number = is_batch_number(*batch);
            office & (number & !is_last(&part.batch))
        }
        BatchCommand::Third { batch, clerk } => {
            let number = is_batch_number(*batch);
            office & (number & is_clerk(*clerk))
        }
    }
}

/// Returns the objection to assigning a third clerk to a batch, given that the numbers are in range.
fn third_objection(clerk: u32, part: &CommandInput) -> Option<Reason>
    ensures { result ≡ first_reason (third_objections clerk (input_entries part.now)) }
{
    let Some(batch) = &part.batch else {
        return Some(Reason::NoSuchBatch);
    };
    if !is_in_phase(Phase::Keying, &part.ward) {
        return Some(Reason::WrongPhase);
    }
    if is_its_clerk(clerk, batch, &part.third_clerk) {
        return Some(Reason::SameClerk);
    }
    if !differ(&part.first, &part.second, &part.third) {
        return Some(Reason::NoDifference);
    }
    if part.third_clerk.is_some() {
        return Some(Reason::ThirdSet);
    }
    None
}

/// Returns the objection to a command or, if there are several, the one with the lowest number.
pub(crate) fn objection_to(
    actor: u32,
    command: &BatchCommand,
    part: &CommandInput,
) -> Option<Reason>
    ensures { result ≡ first_reason (objections actor command.now (input_entries part.now)) }
{
    if !is_in_range(actor, command, part) {
        return Some(Reason::NumberOutOfRange);
    }
    match command {
        BatchCommand::Add {
            first_clerk,
            second_clerk,
            ..
        } => {
            if part.ward.is_none() {
                return Some(Reason::NoSuchWard);
            }
            if part.batch.is_some() {
                return Some(Reason::BatchExists);
            }
            if !is_in_phase(Phase::Keying, &part.ward) {
                return Some(Reason::WrongPhase);
            }
            if first_clerk == second_clerk {
                return Some(Reason::SameClerk);
            }
            None
        }
        BatchCommand::Again { .. } => {
            if part.batch.is_none() {
                return Some(Reason::NoSuchBatch);
            }
            if !is_in_phase(Phase::Keying, &part.ward) {
                return Some(Reason::WrongPhase);
            }
            if !differ(&part.first, &part.second, &part.third) {
                return Some(Reason::NoDifference);
            }
            None
        }
        BatchCommand::Third { clerk, .. } => third_objection(*clerk, part),
    }
}

/// Returns the round after the current one, but at most the last round.
fn next_round(batch: &Option<Batch>) -> u32
    ensures { result ≡ next_round (option_map batch_entry batch.now) }
{
    match batch {
        Some(batch) if is_in_last_round(batch) => batch.round,
        Some(batch) => batch.round + 1,
        None => 1,
    }
}

#[tactic(auto, unfolding(crate::specs::Batches::subject_of))]
/// Returns the subject of the receipt for a command.
pub(crate) fn subject_of(alloc: Global, command: &BatchCommand) -> Result<String, AllocError>
    ensures { IfOk result (λ text. string_bytes text ≡ subject_of command.now) }
{
    match command {
        BatchCommand::Add { batch, .. } => format!(in alloc; "batch {batch}"),
        BatchCommand::Again { batch } => format!(in alloc; "again {batch}"),
        BatchCommand::Third { batch, .. } => format!(in alloc; "third {batch}"),
    }
}

#[tactic(auto, unfolding(crate::specs::Batches::reply_to))]
/// Returns the reply to an accepted command. If the command reopens a batch, the reply includes the new round.
pub(crate) fn reply_to(
    alloc: Global,
    command: &BatchCommand,
    part: &CommandInput,
) -> Result<String, AllocError>
    ensures { IfOk result (λ text. string_bytes text ≡ reply_to command.now (input_entries part.now)) }
{
    match command {
        BatchCommand::Add { batch, .. } => format!(in alloc; "batch {batch} added"),
        BatchCommand::Again { batch } => {
            let round = next_round(&part.batch);
            format!(in alloc; "batch {batch} round {round} open")
        }
        BatchCommand::Third { batch, clerk } => {
            format!(in alloc; "batch {batch} third clerk {clerk}")
        }
    }
}

/// Returns the effect of a command on the state. A new batch starts in its first round.
pub(crate) fn effect_of(command: &BatchCommand, part: &CommandInput) -> Effect
    ensures { effect_entry result ≡ effect_of command.now (input_entries part.now) }
{
    match command {
        BatchCommand::Add {
            batch,
            ward,
            size,
            first_clerk,
            second_clerk,
        } => Effect::BatchAdded(Batch {
            number: *batch,
            ward: *ward,
            size: *size,
            first_clerk: *first_clerk,
            second_clerk: *second_clerk,
            round: 1,
        }),
        BatchCommand::Again { batch } => Effect::BatchReopened {
            batch: *batch,
            round: next_round(&part.batch),
        },
        BatchCommand::Third { batch, clerk } => Effect::ThirdSet(ThirdClerk {
            batch: *batch,
            clerk: *clerk,
        }),
    }
}

//! Keyed papers, and the command that clerks send.

ghost use Rattle.std.specs.Prelude.{◌≡◌, IfOk, IfNone, map, option_map, string_bytes};
ghost use Rattle.register.specs.Reasons.{first_reason};
ghost use Rattle.register.specs.Offices.{batch_entry, third_entry, keyed_entry};
ghost use Rattle.register.specs.Agreement.{is_third_clerk, is_its_clerk};
ghost use Rattle.register.specs.CommandInputs.{input_entries};
ghost use Rattle.register.specs.Effects.{effect_entry};
ghost use Rattle.register.specs.Keyings.{is_in_range, IsNumbered, objections, subject_of, reply_to, effect_of, papers_from};

use crate::agreement::is_keyed;
use crate::batches::{Batch, ThirdClerk};
use crate::decision::Effect;
use crate::marks::{columns_of, first_bad_marks};
use crate::phase::Phase;
use crate::ranges::{is_batch_number, is_clerk, is_round};
use crate::refusal::Reason;
use crate::view::CommandInput;
use crate::wards::is_in_phase;
use std::alloc::{AllocError, Global};

/// A ballot paper as keyed by a clerk (1 to 999): its batch (1 to 9999), the round (1 to 99), its number within the batch
/// (1 to 500), and its marks text.
#[derive(PartialEq, Drop)]
pub struct KeyedPaper {
    pub batch: u32,
    pub round: u32,
    pub clerk: u32,
    pub paper: u32,
    pub marks: String,
}

/// The clerks' only command: it records a keying of a batch in a round, with one marks text per paper, in paper order.
#[derive(Debug, Drop)]
pub struct KeyingCommand {
    pub batch: u32,
    pub round: u32,
    pub papers: Vec<String>,
}

/// Returns whether the command's numbers are in range and the actor may send it.
fn is_in_range(actor: u32, command: &KeyingCommand) -> bool
    ensures { result ≡ is_in_range actor command.now }
{
    let clerk = is_clerk(actor);
    let number = is_batch_number(command.batch);
    clerk & (number & is_round(command.round))
}

/// Returns whether a clerk is the third clerk of a batch that has one.
pub fn is_third_clerk(clerk: u32, third: &Option<ThirdClerk>) -> bool
    ensures { result ≡ is_third_clerk clerk (option_map third_entry third.now) }
{
    match third {
        Some(third) => clerk == third.clerk,
        None => false,
    }
}

/// Returns whether a clerk is assigned to a batch, as one of its two clerks or as its third clerk.
pub fn is_its_clerk(clerk: u32, batch: &Batch, third: &Option<ThirdClerk>) -> bool
    ensures { result ≡ is_its_clerk clerk (batch_entry batch.now) (option_map third_entry third.now) }
{
    clerk == batch.first_clerk || clerk == batch.second_clerk || is_third_clerk(clerk, third)
}

/// Returns the objection to the command or, if there are several, the one with the lowest number.
pub(crate) fn objection_to(
    actor: u32,
    command: &KeyingCommand,
    part: &CommandInput,
) -> Option<Reason>
    ensures is { result ≡ first_reason (objections actor command.now (input_entries part.now)) }
    ensures numbered { IfNone result (IsNumbered command.now) }
{
    if !is_in_range(actor, command) {
        return Some(Reason::NumberOutOfRange);
    }
    let Some(batch) = &part.batch else {
        return Some(Reason::NoSuchBatch);
    };
    if !is_in_phase(Phase::Keying, &part.ward) {
        return Some(Reason::WrongPhase);
    }
    if !is_its_clerk(actor, batch, &part.third_clerk) {
        return Some(Reason::NotItsClerk);
    }
    if batch.round != command.round {
        return Some(Reason::NotThisRound);
    }
    if is_keyed(&part.own) {
        return Some(Reason::AlreadyKeyed);
    }
    if batch.size as usize != command.papers.len() {
        return Some(Reason::WrongPaperCount);
    }
    first_bad_marks(columns_of(&part.candidates), &command.papers)
}

#[tactic(auto, unfolding(crate::specs::Keyings::subject_of))]
/// Returns the subject of the receipt for the command.
pub(crate) fn subject_of(alloc: Global, command: &KeyingCommand) -> Result<String, AllocError>
    ensures { IfOk result (λ text. string_bytes text ≡ subject_of command.now) }
{
    let (batch, round) = (command.batch, command.round);
    format!(in alloc; "key {batch} {round}")
}

#[tactic(auto, unfolding(crate::specs::Keyings::reply_to))]
/// Returns the reply to an accepted command. It doesn't depend on what other clerks have keyed.
pub(crate) fn reply_to(alloc: Global, command: &KeyingCommand) -> Result<String, AllocError>
    ensures { IfOk result (λ text. string_bytes text ≡ reply_to command.now) }
{
    let (batch, round) = (command.batch, command.round);
    format!(in alloc; "batch {batch} round {round} keyed")
}

#[tactic(auto, unfolding(crate::specs::Keyings::papers_from))]
/// Returns the papers of a clerk's keying, numbered from 1.
fn keyed_papers(
    alloc: Global,
    actor: u32,
    command: &KeyingCommand,
) -> Result<Vec<KeyedPaper>, AllocError>
    requires { IsNumbered command.now }
    ensures { IfOk result (λ papers. map keyed_entry papers.items ≡ papers_from command.now.batch command.now.round actor 1 (map string_bytes command.now.papers.items)) }
{
    let mut papers = Vec::with_capacity(alloc, command.papers.len())?;
    for (place, marks) in command.papers.iter().enumerate() {
        papers.push(KeyedPaper {
            batch: command.batch,
            round: command.round,
            clerk: actor,
            paper: place as u32 + 1,
            marks: marks.clone()?,
        })?;
    }
    Ok(papers)
}

/// Returns the effect of the command on the state. Returns `AllocError` if an allocation fails.
pub(crate) fn effect_of(
    alloc: Global,
    actor: u32,
    command: &KeyingCommand,
) -> Result<Effect, AllocError>
    requires { IsNumbered command.now }
    ensures { IfOk result (λ effect. effect_entry effect ≡ effect_of actor command.now) }
{
    Ok(Effect::PapersKeyed(keyed_papers(alloc, actor, command)?))
}

//! Wards, and the commands for them.

ghost use Rattle.std.specs.Prelude.{◌≡◌, IfOk, map, option_map, string_bytes};
ghost use Rattle.register.specs.Reasons.{first_reason};
ghost use Rattle.register.specs.Offices.{ward_entry, candidate_entry};
ghost use Rattle.register.specs.CommandInputs.{input_entries, is_in_phase, phase_objections};
ghost use Rattle.register.specs.Effects.{effect_entry};
ghost use Rattle.register.specs.Nominations.{is_contested};
ghost use Rattle.register.specs.Wards.{is_in_range, is_to_be_polled, objections, subject_of, reply_to, effect_of};

use crate::candidates::Candidate;
use crate::decision::Effect;
use crate::phase::Phase;
use crate::ranges::{is_name, is_office, is_seat_number, is_ward_number};
use crate::refusal::Reason;
use crate::view::CommandInput;
use std::alloc::{AllocError, Global};

/// A ward: its number (1 to 99), its number of seats (1 to 15), its phase, the number of completed stages in its count (0 to 31),
/// and its name.
#[derive(PartialEq, Drop)]
pub struct Ward {
    pub number: u32,
    pub seats: u32,
    pub phase: Phase,
    pub done: u32,
    pub name: String,
}

/// The office's commands for wards.
#[derive(Debug, Drop)]
pub enum WardCommand {
    /// Adds a ward with this number, this number of seats and this name. Its nominations are open.
    Add { ward: u32, seats: u32, name: String },
    /// Closes the nominations of this ward. The ward is polled if it has more candidates than seats.
    Close { ward: u32 },
}

/// Returns whether the command's numbers are in range and the actor may send it.
fn is_in_range(actor: u32, command: &WardCommand) -> bool
    ensures { result ≡ is_in_range actor command.now }
{
    match command {
        WardCommand::Add { ward, seats, .. } => {
            let office = is_office(actor);
            let number = is_ward_number(*ward);
            office & (number & is_seat_number(*seats))
        }
        WardCommand::Close { ward } => {
            let office = is_office(actor);
            office & is_ward_number(*ward)
        }
    }
}

/// Returns whether a ward exists and is in the given phase.
pub(crate) fn is_in_phase(phase: Phase, ward: &Option<Ward>) -> bool
    ensures { result ≡ is_in_phase phase (option_map ward_entry ward.now) }
{
    match ward {
        Some(ward) => ward.phase.number() == phase.number(),
        None => false,
    }
}

/// Returns the objection to a command that requires a ward in the given phase: there is no such ward, or it is in another phase.
pub(crate) fn phase_objection(phase: Phase, ward: &Option<Ward>) -> Option<Reason>
    ensures { result ≡ first_reason (phase_objections phase (option_map ward_entry ward.now)) }
{
    if ward.is_none() {
        return Some(Reason::NoSuchWard);
    }
    if !is_in_phase(phase, ward) {
        return Some(Reason::WrongPhase);
    }
    None
}

/// Returns whether a ward is contested: it has more candidates than seats.
pub fn is_contested(ward: &Ward, candidates: &[Candidate]) -> bool
    ensures { result ≡ is_contested (ward_entry ward.now) (map candidate_entry candidates.now) }
{
    (ward.seats as usize) < candidates.len()
}

/// Returns whether a ward requires a poll: it exists and is contested.
fn is_to_be_polled(ward: &Option<Ward>, candidates: &[Candidate]) -> bool
    ensures { result ≡ is_to_be_polled (option_map ward_entry ward.now) (map candidate_entry candidates.now) }
{
    match ward {
        Some(ward) => is_contested(ward, candidates),
        None => false,
    }
}

/// Returns the objection to a command or, if there are several, the one with the lowest number.
pub(crate) fn objection_to(actor: u32, command: &WardCommand, part: &CommandInput) -> Option<Reason>
    ensures { result ≡ first_reason (objections actor command.now (input_entries part.now)) }
{
    if !is_in_range(actor, command) {
        return Some(Reason::NumberOutOfRange);
    }
    match command {
        WardCommand::Add { name, .. } => {
            if !is_name(name.as_str()) {
                return Some(Reason::BadName);
            }
            if part.ward.is_some() {
                return Some(Reason::WardExists);
            }
            None
        }
        WardCommand::Close { .. } => {
            if let Some(reason) = phase_objection(Phase::Nominations, &part.ward) {
                return Some(reason);
            }
            if part.candidates.is_empty() {
                return Some(Reason::NoCandidates);
            }
            None
        }
    }
}

#[tactic(auto, unfolding(crate::specs::Wards::subject_of))]
/// Returns the subject of the receipt for a command.
pub(crate) fn subject_of(alloc: Global, command: &WardCommand) -> Result<String, AllocError>
    ensures { IfOk result (λ text. string_bytes text ≡ subject_of command.now) }
{
    match command {
        WardCommand::Add { ward, .. } => format!(in alloc; "ward {ward}"),
        WardCommand::Close { ward } => format!(in alloc; "close {ward}"),
    }
}

#[tactic(auto, unfolding(crate::specs::Wards::reply_to))]
/// Returns the reply to an accepted command. If the command closes a ward's nominations, the reply says whether the ward will be
/// polled.
pub(crate) fn reply_to(
    alloc: Global,
    command: &WardCommand,
    part: &CommandInput,
) -> Result<String, AllocError>
    ensures { IfOk result (λ text. string_bytes text ≡ reply_to command.now (input_entries part.now)) }
{
    match command {
        WardCommand::Add { ward, .. } => format!(in alloc; "ward {ward} added"),
        WardCommand::Close { ward } => {
            if is_to_be_polled(&part.ward, &part.candidates) {
                return format!(in alloc; "ward {ward} polled");
            }
            format!(in alloc; "ward {ward} uncontested")
        }
    }
}

/// Returns the effect of a command on the state. When nominations close, a contested ward enters keying, and an uncontested one is
/// sealed. Returns `AllocError` if an allocation fails.
pub(crate) fn effect_of(command: &WardCommand, part: &CommandInput) -> Result<Effect, AllocError>
    ensures { IfOk result (λ effect. effect_entry effect ≡ effect_of command.now (input_entries part.now)) }
{
    match command {
        WardCommand::Add { ward, seats, name } => Ok(Effect::WardAdded(Ward {
            number: *ward,
            seats: *seats,
            phase: Phase::Nominations,
            done: 0,
            name: name.clone()?,
        })),
        WardCommand::Close { ward } => {
            let polled = is_to_be_polled(&part.ward, &part.candidates);
            Ok(Effect::WardMoved {
                ward: *ward,
                phase: if polled { Phase::Keying } else { Phase::Sealed },
            })
        }
    }
}

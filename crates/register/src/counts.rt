//! The count of a ward, and the commands for it.

ghost use Rattle.std.specs.Prelude.{◌≡◌, nat_eq, IfOk, option_map, string_bytes};
ghost use Rattle.std.specs.List.{list_any};
ghost use Rattle.register.specs.Reasons.{first_reason};
ghost use Rattle.register.specs.Offices.{ward_entry};
ghost use Rattle.register.specs.Polls.{poll_entry, all_rejected};
ghost use Rattle.register.specs.CommandInputs.{input_entries};
ghost use Rattle.register.specs.Effects.{effect_entry};
ghost use Rattle.register.specs.Elections.{has_finished, is_among};
ghost use Rattle.register.specs.Additions.{IsAddedBy};
ghost use Rattle.register.specs.Counts.{is_in_range, is_ready, lot_objection, waits_at, phase_for, own_objections, objections};
ghost use Rattle.register.specs.Counts.{subject_of, stage_after, next_stage, poll_told, action_told, reply_to, effect_of};

use crate::additions;
use crate::decision::Effect;
use crate::phase::Phase;
use crate::polls::PollTally;
use crate::ranges::{LAST_LOT_STAGE, is_candidate_number, is_lot_stage, is_office, is_ward_number};
use crate::refusal::Reason;
use crate::tabulations::Addition;
use crate::texts::listed;
use crate::view::CommandInput;
use crate::wards::{Ward, phase_objection};
use count::Due;
use paper::Columns;
use std::alloc::{AllocError, Global};

/// A drawn lot: the ward (1 to 99), the stage of the ward's count (2 to 31), and the candidate drawn (1 to 30), whose surplus
/// is transferred next or who is excluded.
#[derive(PartialEq, Drop)]
pub struct DrawnLot {
    pub ward: u32,
    pub stage: u32,
    pub candidate: u32,
}

/// The office's commands for the count of a ward.
#[derive(Debug, Drop)]
pub enum CountCommand {
    /// Seals the ward: all papers have been keyed and judged, and the count can begin.
    Seal {
        ward: u32,
    },
    /// Counts the next stage.
    Advance {
        ward: u32,
    },
    /// Records that this candidate was drawn by lot for this stage, counted from 1.
    Lot {
        ward: u32,
        stage: u32,
        candidate: u32,
    },
    /// Declares the result.
    Declare {
        ward: u32,
    },
}

/// Returns whether the command's numbers are in range and the actor may send it.
fn is_in_range(actor: u32, command: &CountCommand) -> bool
    ensures { result ≡ is_in_range actor command.now }
{
    let office = is_office(actor);
    match command {
        CountCommand::Seal { ward } => office & is_ward_number(*ward),
        CountCommand::Advance { ward } => office & is_ward_number(*ward),
        CountCommand::Lot {
            ward,
            stage,
            candidate,
        } => {
            let numbers = is_lot_stage(*stage) & is_candidate_number(*candidate);
            office & (is_ward_number(*ward) & numbers)
        }
        CountCommand::Declare { ward } => office & is_ward_number(*ward),
    }
}

/// Returns whether every batch is taken and every doubtful paper has a verdict.
fn is_ready(poll: &Option<PollTally>) -> bool
    ensures { result ≡ is_ready (option_map poll_entry poll.now) }
{
    match poll {
        Some(poll) => poll.settled,
        None => false,
    }
}

/// Returns whether no vacancy remains.
fn has_finished(due: &Option<Due>) -> bool
    ensures { result ≡ has_finished due.now }
{
    match due {
        Some(Due::Finished) => true,
        Some(Due::Act(_)) | Some(Due::Lot { .. }) | None => false,
    }
}

/// Returns the objection to counting a stage if the count is waiting for a lot.
fn lot_objection(due: &Option<Due>) -> Option<Reason>
    ensures { result ≡ lot_objection due.now }
{
    match due {
        Some(Due::Lot { stage, among, .. }) => Some(Reason::LotNeeded {
            stage: *stage,
            among: *among,
        }),
        Some(Due::Act(_)) | Some(Due::Finished) | None => None,
    }
}

/// Returns whether the count is waiting for a lot at the given stage.
fn waits_at(stage: u32, due: &Option<Due>) -> bool
    ensures { result ≡ waits_at stage due.now }
{
    match due {
        Some(Due::Lot { stage: due, .. }) => u32::from(*due) == stage,
        Some(Due::Act(_)) | Some(Due::Finished) | None => false,
    }
}

/// Returns whether a candidate is in a set.
fn is_one_of(candidate: u32, columns: &Columns) -> bool
    ensures { result ≡ list_any (nat_eq candidate) columns.now }
{
    for column in columns.as_slice() {
        if candidate == u32::from(*column) {
            return true;
        }
    }
    false
}

/// Returns whether the count is waiting for a lot and the given candidate is one of those tied.
fn is_among(candidate: u32, due: &Option<Due>) -> bool
    ensures { result ≡ is_among candidate due.now }
{
    match due {
        Some(Due::Lot { among, .. }) => is_one_of(candidate, among),
        Some(Due::Act(_)) | Some(Due::Finished) | None => false,
    }
}

/// Returns the phase that a command requires of the ward.
fn phase_for(command: &CountCommand) -> Phase
    ensures { result ≡ phase_for command.now }
{
    match command {
        CountCommand::Seal { .. } => Phase::Keying,
        CountCommand::Advance { .. } => Phase::Sealed,
        CountCommand::Lot { .. } => Phase::Sealed,
        CountCommand::Declare { .. } => Phase::Sealed,
    }
}

/// Returns the objection to a command, given that its numbers are in range and its ward is in the required phase.
fn own_objection_to(command: &CountCommand, part: &CommandInput) -> Option<Reason>
    ensures { result ≡ first_reason (own_objections command.now (input_entries part.now)) }
{
    match command {
        CountCommand::Seal { .. } => {
            if is_ready(&part.poll) {
                return None;
            }
            Some(Reason::NotReady)
        }
        CountCommand::Advance { .. } => {
            if has_finished(&part.due) {
                return Some(Reason::CountFinished);
            }
            lot_objection(&part.due)
        }
        CountCommand::Lot {
            stage,
            candidate,
            ..
        } => {
            if part.candidate.is_none() {
                return Some(Reason::NoSuchCandidate);
            }
            if !waits_at(*stage, &part.due) {
                return Some(Reason::NoSuchLot);
            }
            if !is_among(*candidate, &part.due) {
                return Some(Reason::NotAmong);
            }
            None
        }
        CountCommand::Declare { .. } => {
            if has_finished(&part.due) {
                return None;
            }
            Some(Reason::CountNotFinished)
        }
    }
}

/// Returns the objection to a command or, if there are several, the one with the lowest number.
pub(crate) fn objection_to(
    actor: u32,
    command: &CountCommand,
    part: &CommandInput,
) -> Option<Reason>
    ensures { result ≡ first_reason (objections actor command.now (input_entries part.now)) }
{
    if !is_in_range(actor, command) {
        return Some(Reason::NumberOutOfRange);
    }
    if let Some(reason) = phase_objection(phase_for(command), &part.ward) {
        return Some(reason);
    }
    own_objection_to(command, part)
}

#[tactic(auto, unfolding(crate::specs::Counts::subject_of))]
/// Returns the subject of the receipt for a command.
pub(crate) fn subject_of(alloc: Global, command: &CountCommand) -> Result<String, AllocError>
    ensures { IfOk result (λ text. string_bytes text ≡ subject_of command.now) }
{
    match command {
        CountCommand::Seal { ward } => format!(in alloc; "seal {ward}"),
        CountCommand::Advance { ward } => format!(in alloc; "advance {ward}"),
        CountCommand::Lot { ward, stage, .. } => format!(in alloc; "lot {ward} {stage}"),
        CountCommand::Declare { ward } => format!(in alloc; "declare {ward}"),
    }
}

/// Returns the number of the stage (1 to 31) after `done` stages (0 to 31), but at most the last stage that a count can have.
pub fn stage_after(done: u32) -> u32
    ensures { result ≡ stage_after done }
{
    if LAST_LOT_STAGE <= done {
        done
    } else {
        done + 1
    }
}

/// Returns the number of the stage that follows the completed stages of a ward.
fn next_stage(ward: &Option<Ward>) -> u32
    ensures { result ≡ next_stage (option_map ward_entry ward.now) }
{
    match ward {
        Some(ward) => stage_after(ward.done),
        None => 1,
    }
}

/// Returns the total number of papers rejected, with any of the five codes.
fn all_rejected(poll: &PollTally) -> u64
    ensures { result ≡ all_rejected poll.now.rejected }
{
    let [first, second, third, fourth, fifth] = poll.rejected;
    let others = u64::from(third) + (u64::from(fourth) + u64::from(fifth));
    u64::from(first) + (u64::from(second) + others)
}

/// Returns the part of a reply that reports the poll.
fn poll_told(alloc: Global, poll: &Option<PollTally>) -> Result<String, AllocError>
    ensures { IfOk result (λ text. string_bytes text ≡ poll_told (option_map poll_entry poll.now)) }
{
    match poll {
        Some(poll) => {
            let (valid, rejected, quota) = (poll.valid, all_rejected(poll), poll.quota);
            format!(in alloc; " sealed: {valid} valid, {rejected} rejected, quota {quota}")
        }
        None => Ok(String::new(alloc)),
    }
}

/// Returns the part of a reply that reports the next action.
fn action_told(alloc: Global, due: &Option<Due>) -> Result<String, AllocError>
    ensures { IfOk result (λ text. string_bytes text ≡ action_told due.now) }
{
    match due {
        Some(Due::Act(action)) => format!(in alloc; "{action}"),
        Some(Due::Lot { .. }) | Some(Due::Finished) | None => Ok(String::new(alloc)),
    }
}

#[tactic(auto, unfolding(crate::specs::Counts::reply_to))]
/// Returns the reply to an accepted command, which reports the poll of the sealed ward, the stage counted, the lot, or the
/// candidates elected.
pub(crate) fn reply_to(
    alloc: Global,
    command: &CountCommand,
    part: &CommandInput,
) -> Result<String, AllocError>
    ensures { IfOk result (λ text. string_bytes text ≡ reply_to command.now (input_entries part.now)) }
{
    match command {
        CountCommand::Seal { ward } => {
            let poll = poll_told(alloc, &part.poll)?;
            format!(in alloc; "ward {ward}{poll}")
        }
        CountCommand::Advance { ward } => {
            let stage = next_stage(&part.ward);
            let action = action_told(alloc, &part.due)?;
            format!(in alloc; "ward {ward} stage {stage} {action}")
        }
        CountCommand::Lot {
            ward,
            stage,
            candidate,
        } => format!(in alloc; "lot at ward {ward} stage {stage}: candidate {candidate}"),
        CountCommand::Declare { ward } => {
            let elected = listed(alloc, &part.elected)?;
            format!(in alloc; "ward {ward} declared: {elected}")
        }
    }
}

/// Returns the effect of a command on the state: a ward enters another phase, another stage of its count is done, or a lot is
/// drawn.
pub(crate) fn effect_of(command: &CountCommand, part: &CommandInput) -> Effect
    ensures { effect_entry result ≡ effect_of command.now (input_entries part.now) }
{
    match command {
        CountCommand::Seal { ward } => Effect::WardMoved {
            ward: *ward,
            phase: Phase::Sealed,
        },
        CountCommand::Advance { ward } => Effect::StageCounted {
            ward: *ward,
            done: next_stage(&part.ward),
        },
        CountCommand::Lot {
            ward,
            stage,
            candidate,
        } => Effect::LotDrawn(DrawnLot {
            ward: *ward,
            stage: *stage,
            candidate: *candidate,
        }),
        CountCommand::Declare { ward } => Effect::WardMoved {
            ward: *ward,
            phase: Phase::Declared,
        },
    }
}

/// Returns what an accepted command adds to the tabulation: an Advance adds the next stage of the given count; any other
/// command adds nothing. If a stage is due, a count is always given; if no stage is due, nothing is added. Returns
/// `AllocError` if an allocation fails.
pub(crate) fn addition_of(
    alloc: Global,
    command: &CountCommand,
    part: &CommandInput,
) -> Result<Addition, AllocError>
    ensures { IfOk result (λ addition. IsAddedBy command.now part.now.count addition) }
{
    match (command, &part.count) {
        (CountCommand::Advance { ward }, Some(count)) => additions::addition_of(
            alloc, *ward, count,
        ),
        (_, _) => Ok(Addition::none(alloc)),
    }
}

//! Decides requests, given a view of the state.

ghost use Rattle.std.specs.Prelude.{◌≡◌, ℕ, ◌==◌, true, false, List, None, IfOk, IfNone, string_bytes};
ghost use Rattle.register.specs.Reasons.{first_reason};
ghost use Rattle.register.specs.Ranges.{is_office};
ghost use Rattle.register.specs.Offices.{OfficeState, empty_office};
ghost use Rattle.register.specs.StateConditions.{IsState};
ghost use Rattle.register.specs.Effects.{effect_entry};
ghost use Rattle.register.specs.Seen.{seen_by};
ghost use Rattle.register.specs.CommandInputs.{input_entries};
ghost use Rattle.register.specs.declared.command.Request.{Request};
ghost use Rattle.register.specs.Status.{paper_at, work_of};
ghost use Rattle.register.specs.Machine.{objections, IsNumbered, subject_of, reply_to, effect_of, judged, ruling_at, step, state_after, after, accepted_of, RepeatGetsSameReply};
ghost use Rattle.register.specs.Tabulated.{AddsWhatIsCounted};
ghost use Rattle.register.specs.Additions.{IsAddedFor, DecidesAddition, AddsNoMore};
ghost use Rattle.register.specs.WorkedOffice.{WardRows, NominationRows, KeyedRows, ThirdRows, UncontestedRows, RepeatRows};
ghost use Rattle.register.specs.Views.{IsViewOf, decided_on, ruling_of, outcome_of, IsToldAlike, IsAdvanced};

use crate::command::Command;
use crate::decision::{Change, Decision, Effect};
use crate::ranges::is_id;
use crate::receipt::Receipt;
use crate::refusal::{Reason, Refusal};
use crate::tabulations::Addition;
use crate::view::{CommandInput, View};
use crate::{batches, candidates, counts, keyings, verdicts, wards};
use std::alloc::{AllocError, Global};

/// Returns the objection to a command or, if there are several, the one with the lowest number.
fn objection_to(actor: u32, command: &Command, part: &CommandInput) -> Option<Reason>
    ensures is { result ≡ first_reason (objections actor command.now (input_entries part.now)) }
    ensures numbered { IfNone result (IsNumbered command.now) }
{
    match command {
        Command::Ward(command) => wards::objection_to(actor, command, part),
        Command::Candidate(command) => candidates::objection_to(actor, command, part),
        Command::Batch(command) => batches::objection_to(actor, command, part),
        Command::Keying(command) => keyings::objection_to(actor, command, part),
        Command::Verdict(command) => verdicts::objection_to(actor, command, part),
        Command::Count(command) => counts::objection_to(actor, command, part),
    }
}

/// Returns the subject of the receipt for a command.
fn subject_of(alloc: Global, command: &Command) -> Result<String, AllocError>
    ensures { IfOk result (λ text. string_bytes text ≡ subject_of command.now) }
{
    match command {
        Command::Ward(command) => wards::subject_of(alloc, command),
        Command::Candidate(command) => candidates::subject_of(alloc, command),
        Command::Batch(command) => batches::subject_of(alloc, command),
        Command::Keying(command) => keyings::subject_of(alloc, command),
        Command::Verdict(command) => verdicts::subject_of(alloc, command),
        Command::Count(command) => counts::subject_of(alloc, command),
    }
}

/// Returns the reply to an accepted command.
fn reply_to(alloc: Global, command: &Command, part: &CommandInput) -> Result<String, AllocError>
    ensures { IfOk result (λ text. string_bytes text ≡ reply_to command.now (input_entries part.now)) }
{
    match command {
        Command::Ward(command) => wards::reply_to(alloc, command, part),
        Command::Candidate(command) => candidates::reply_to(alloc, command, part),
        Command::Batch(command) => batches::reply_to(alloc, command, part),
        Command::Keying(command) => keyings::reply_to(alloc, command),
        Command::Verdict(command) => verdicts::reply_to(alloc, command),
        Command::Count(command) => counts::reply_to(alloc, command, part),
    }
}

/// Returns the effect of a command on the state. Returns `AllocError` if an allocation fails.
fn effect_of(
    alloc: Global,
    actor: u32,
    command: &Command,
    part: &CommandInput,
) -> Result<Effect, AllocError>
    requires { IsNumbered command.now }
    ensures { IfOk result (λ effect. effect_entry effect ≡ effect_of actor command.now (input_entries part.now)) }
{
    match command {
        Command::Ward(command) => wards::effect_of(command, part),
        Command::Candidate(command) => candidates::effect_of(command, part),
        Command::Batch(command) => Ok(batches::effect_of(command, part)),
        Command::Keying(command) => keyings::effect_of(alloc, actor, command),
        Command::Verdict(command) => verdicts::effect_of(alloc, command),
        Command::Count(command) => Ok(counts::effect_of(command, part)),
    }
}

/// Returns what a command adds to the tabulation of the counts: an Advance adds its stage; any other command adds nothing.
fn addition_of(
    alloc: Global,
    command: &Command,
    part: &CommandInput,
) -> Result<Addition, AllocError>
    ensures { IfOk result (λ addition. IsAddedFor command.now part.now.count addition) }
{
    match command {
        Command::Count(command) => counts::addition_of(alloc, command, part),
        Command::Ward(_) => Ok(Addition::none(alloc)),
        Command::Candidate(_) => Ok(Addition::none(alloc)),
        Command::Batch(_) => Ok(Addition::none(alloc)),
        Command::Keying(_) => Ok(Addition::none(alloc)),
        Command::Verdict(_) => Ok(Addition::none(alloc)),
    }
}

/// Returns a refusal with the given reason.
fn refused(alloc: Global, reason: Reason) -> Result<Decision, AllocError>
    ensures { IfOk result (λ decision. decision ≡ Decision.Refused reason) }
{
    Ok(Decision::Refused(Refusal::new(alloc, reason)?))
}

/// Accepts a command to which there is no objection; returns its change and reply.
fn accepted(
    alloc: Global,
    view: &View<'_>,
    command: &Command,
    subject: String,
) -> Result<Decision, AllocError>
    requires { IsNumbered command.now }
    ensures ruling { IfOk result (λ decision. string_bytes subject ≡ subject_of command.now
        → ruling_of decision ≡ judged view.now.actor view.now.id.now command.now (input_entries view.now.part) None) }
    ensures adds { IfOk result (λ decision. DecidesAddition command.now view.now.part.count decision) }
{
    let effect = effect_of(alloc, view.actor, command, &view.part)?;
    let addition = addition_of(alloc, command, &view.part)?;
    let reply = reply_to(alloc, command, &view.part)?;
    let receipt = Receipt {
        actor: view.actor,
        id: String::from_str(alloc, view.id)?,
        subject,
        reply: reply.clone()?,
    };
    Ok(Decision::Accepted(
        Change {
            effect,
            addition,
            receipt,
        },
        reply,
    ))
}

#[tactic(auto, unfolding(crate::specs::Machine::decided))]
/// Decides a command, given a view.
fn decided(alloc: Global, view: &View<'_>, command: &Command) -> Result<Decision, AllocError>
    ensures ruling { IfOk result (λ decision. ruling_of decision ≡ decided_on view.now command.now) }
    ensures adds { IfOk result (λ decision. DecidesAddition command.now view.now.part.count decision) }
{
    if !is_id(view.id) {
        return refused(alloc, Reason::BadId);
    }
    let subject = subject_of(alloc, command)?;
    if let Some(receipt) = &view.receipt {
        if receipt.subject.as_str() != subject.as_str() {
            return refused(alloc, Reason::IdUsed);
        }
        return Ok(Decision::Kept(receipt.reply.clone()?));
    }
    if let Some(reason) = objection_to(view.actor, command, &view.part) {
        return refused(alloc, reason);
    }
    accepted(alloc, view, command, subject)
}

/// Decides a request, given the part of the state that it needs.
///
/// A bad id is refused first. If the id has a receipt, the request gets the original reply, or is refused if the receipt has a
/// different subject. If there are several objections to a new request, it is refused because of the one with the lowest number.
/// The reply to a keying reveals nothing about another clerk's keying. An accepted Advance adds the next stage to the ward's
/// stages and leaves the earlier ones unchanged; an accepted Lot or Declare leaves all of them unchanged. Returns `AllocError`
/// if an allocation fails; in that case, nothing is decided.
///
/// The old tabulation of the counts and the addition of an accepted request together make up the new tabulation, up to the order
/// of the entries. An Advance adds the figures of the next stage. At the first stage, it also adds all bundles of the ward; at a
/// later stage, it adds exactly the bundles whose papers have moved. No other request adds anything.
///
/// The decision for a clerk, or for any actor other than the office, depends only on what that actor sees of the state: the
/// wards and their phases, the candidates, the batches, and the actor's own keyings and receipts. A request from such an actor
/// doesn't change what any other clerk sees.
pub fn decide(alloc: Global, view: &View<'_>, command: &Command) -> Result<Decision, AllocError>
    ensures on_view { IfOk result (λ decision. ruling_of decision ≡ decided_on view.now command.now) }
    ensures decides { IfOk result (λ decision. (s : OfficeState) → IsViewOf s command.now view.now → outcome_of s decision ≡ step s view.now.actor view.now.id.now command.now) }
    ensures told_alike { IfOk result (λ decision. IsToldAlike command.now (ruling_of decision)) }
    ensures kept_again { (s : OfficeState) → RepeatGetsSameReply view.now.actor view.now.id.now command.now (step s view.now.actor view.now.id.now command.now) }
    ensures stays_a_state { (s : OfficeState) → IsState s → IsState (state_after s (step s view.now.actor view.now.id.now command.now)) }
    ensures advances { (s : OfficeState) → IsState s → IsAdvanced s command.now (step s view.now.actor view.now.id.now command.now) }
    ensures tabulates { IfOk result (λ decision. (s : OfficeState) → IsState s → IsViewOf s command.now view.now → AddsWhatIsCounted s decision) }
    ensures adds { IfOk result (λ decision. (s : OfficeState) → IsState s → IsViewOf s command.now view.now → AddsNoMore s command.now decision) }
    ensures blind { is_office view.now.actor ≡ false → IfOk result (λ decision. (s : OfficeState) → IsViewOf s command.now view.now
        → ruling_of decision ≡ ruling_at (seen_by view.now.actor s) view.now.actor view.now.id.now command.now) }
    ensures unseen { is_office view.now.actor ≡ false → (s : OfficeState) (clerk : ℕ) → (view.now.actor == clerk) ≡ false
        → seen_by clerk (state_after s (step s view.now.actor view.now.id.now command.now)) ≡ seen_by clerk s }
    ensures seen_alone { is_office view.now.actor ≡ false → (s : OfficeState) → IsState s
        → seen_by view.now.actor (state_after s (step s view.now.actor view.now.id.now command.now))
        ≡ state_after (seen_by view.now.actor s) (step (seen_by view.now.actor s) view.now.actor view.now.id.now command.now) }
{
    decided(alloc, view, command)
}

/// Any list of requests leads from the empty office, or from any state, to a state. Processing only the
/// accepted requests, in the same order, leads to the same state.
pub fn lists_make_states()
    ensures from_empty { (requests : List Request) → IsState (after empty_office requests) }
    ensures from_state { (s : OfficeState) (requests : List Request) → IsState s → IsState (after s requests) }
    ensures of_accepted { (s : OfficeState) (requests : List Request) → after s (accepted_of s requests) ≡ after s requests }
{}

/// A clerk's work depends only on what the clerk sees; the only keyings that affect it are the clerk's own.
pub fn work_is_seen()
    ensures { (s : OfficeState) (clerk : ℕ) → work_of (seen_by clerk s) clerk ≡ work_of s clerk }
{}

/// The ballot paper text of a batch depends only on what its clerk sees: wards, candidates and batches.
pub fn paper_is_seen()
    ensures { (s : OfficeState) (clerk batch : ℕ) → paper_at (seen_by clerk s) clerk batch ≡ paper_at s clerk batch }
{}

/// An example office, worked out by hand, request by request, starting with the empty office: each reply, and the resulting
/// state. A ward is added once. Three candidates contest its two seats, and its batches are assigned. Two clerks' keyings of a
/// batch agree, and its doubtful paper is judged; or they differ, and the batch is keyed again, or by a third clerk as well. In
/// a ward with as many candidates as seats, all candidates are elected. A repeated request is compared with what the state has
/// stored about the original.
pub fn rows_are_worked()
    ensures wards { WardRows }
    ensures nominations { NominationRows }
    ensures keyings { KeyedRows }
    ensures third { ThirdRows }
    ensures uncontested { UncontestedRows }
    ensures repeats { RepeatRows }
{}

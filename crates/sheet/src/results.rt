//! The result of a ward as JSON.

ghost use Rattle.std.specs.Prelude.{◌≡◌, ◌≤◌, ◌++◌, ◌∷◌, codes, map, string_bytes, Some, IfOk, OnOk};
ghost use Rattle.json.specs.Json.{boolean, document, string};
ghost use Rattle.json.specs.Print.{print};
ghost use Rattle.json.specs.Token.{key};
ghost use Rattle.json.specs.Tree.{json_tokens};
ghost use Rattle.sheet.specs.Entries.{shown};
ghost use Rattle.sheet.specs.Results.{action_word as action_word_of, array_of, candidate_result, concerned as concerned_in, elected_at as elected_at_of, excluded_at as excluded_at_of};
ghost use Rattle.sheet.specs.Results.{if_contested as if_contested_of, is_elected as is_elected_of, list_members, lot_result, members_part, paper_members};
ghost use Rattle.sheet.specs.Results.{quota as quota_of_poll, rejected_papers, results, stage_number, stage_result, stages_result, valid_papers, value, votes_result, ward_members, ward_result, whole};
ghost use Rattle.sheet.specs.Wards.{CanBePrinted, HasFewPapers};
ghost use Rattle.votes.specs.Units.{max_seats};

use crate::chart::{elected_place, excluded_place};
use crate::stage::{is_elected_at, votes_of};
use crate::ward::{Poll, Ward};
use count::{Action, Stage};
use json::Writer;
use std::alloc::{AllocError, Global};
use votes::{Votes, quota};

/// Writes a value in votes; `AllocError` if an allocation fails.
fn write_value(alloc: Global, out: &mut Writer, units: Votes) -> Result<(), AllocError>
    ensures before { OnOk result (out.new.before ≡ out.old.before) }
    ensures tokens { OnOk result (out.new.tokens ≡ out.old.tokens ++ json_tokens (value units)) }
{
    out.string(format!(in alloc; "{units}")?.as_str())
}

/// Writes a member that is a whole number; `AllocError` if an allocation fails.
fn put_number(out: &mut Writer, name: &str, number: u64) -> Result<(), AllocError>
    ensures before { OnOk result (out.new.before ≡ out.old.before) }
    ensures tokens { OnOk result (out.new.tokens ≡ out.old.tokens ++ key name.now ∷ json_tokens (whole number)) }
{
    out.key(name)?;
    out.u64(number)
}

/// Writes a member that is a text; `AllocError` if an allocation fails.
fn put_text(out: &mut Writer, name: &str, text: &str) -> Result<(), AllocError>
    ensures before { OnOk result (out.new.before ≡ out.old.before) }
    ensures tokens { OnOk result (out.new.tokens ≡ out.old.tokens ++ key name.now ∷ json_tokens (string text.now)) }
{
    out.key(name)?;
    out.string(text)
}

/// Writes a member that is true or false; `AllocError` if an allocation fails.
fn put_flag(out: &mut Writer, name: &str, flag: bool) -> Result<(), AllocError>
    ensures before { OnOk result (out.new.before ≡ out.old.before) }
    ensures tokens { OnOk result (out.new.tokens ≡ out.old.tokens ++ key name.now ∷ json_tokens (boolean flag)) }
{
    out.key(name)?;
    out.boolean(flag)
}

/// Writes a member that is a value in votes; `AllocError` if an allocation fails.
fn put_value(alloc: Global, out: &mut Writer, name: &str, units: Votes) -> Result<(), AllocError>
    ensures before { OnOk result (out.new.before ≡ out.old.before) }
    ensures tokens { OnOk result (out.new.tokens ≡ out.old.tokens ++ key name.now ∷ json_tokens (value units)) }
{
    out.key(name)?;
    write_value(alloc, out, units)
}

/// Writes a member that is the number of a stage, or null; `AllocError` if an allocation fails.
fn put_stage(out: &mut Writer, name: &str, stage: Option<u64>) -> Result<(), AllocError>
    ensures before { OnOk result (out.new.before ≡ out.old.before) }
    ensures tokens { OnOk result (out.new.tokens ≡ out.old.tokens ++ key name.now ∷ json_tokens (stage_number stage)) }
{
    out.key(name)?;
    match stage {
        None => out.null(),
        Some(k) => out.u64(k),
    }
}

/// Writes the number of valid papers, or null for an uncontested ward; `AllocError` if an allocation fails.
fn write_valid_papers(out: &mut Writer, poll: Option<Poll>) -> Result<(), AllocError>
    ensures before { OnOk result (out.new.before ≡ out.old.before) }
    ensures tokens { OnOk result (out.new.tokens ≡ out.old.tokens ++ json_tokens (valid_papers poll)) }
{
    match poll {
        None => out.null(),
        Some(poll) => out.u64(u64::from(poll.valid)),
    }
}

/// Writes the number of rejected papers for each code, 1 to 5, or null for an uncontested ward; `AllocError` if an allocation fails.
fn write_rejected_papers(out: &mut Writer, poll: Option<Poll>) -> Result<(), AllocError>
    ensures before { OnOk result (out.new.before ≡ out.old.before) }
    ensures tokens { OnOk result (out.new.tokens ≡ out.old.tokens ++ json_tokens (rejected_papers poll)) }
{
    let Some(poll) = poll else {
        return out.null();
    };
    out.begin_array()?;
    out.u64(u64::from(poll.rejected[0]))?;
    out.u64(u64::from(poll.rejected[1]))?;
    out.u64(u64::from(poll.rejected[2]))?;
    out.u64(u64::from(poll.rejected[3]))?;
    out.u64(u64::from(poll.rejected[4]))?;
    out.end_array()
}

/// Writes the quota, or null for an uncontested ward; `AllocError` if an allocation fails.
fn write_quota(
    alloc: Global,
    out: &mut Writer,
    seats: u8,
    poll: Option<Poll>,
) -> Result<(), AllocError>
    requires some_seats { 1 ≤ seats }
    requires few_seats { seats ≤ max_seats }
    requires few_papers { HasFewPapers poll }
    ensures before { OnOk result (out.new.before ≡ out.old.before) }
    ensures tokens { OnOk result (out.new.tokens ≡ out.old.tokens ++ json_tokens (quota_of_poll seats poll)) }
{
    match poll {
        None => out.null(),
        Some(poll) => write_value(alloc, out, quota(poll.valid, seats)),
    }
}

/// Returns whether a candidate is elected. In an uncontested ward, all are.
fn is_elected(poll: Option<Poll>, stages: &[Stage], c: u8) -> bool
    ensures { result ≡ is_elected_of poll stages.now c }
{
    match poll {
        None => true,
        Some(_) => is_elected_at(stages, c),
    }
}

/// Returns the number of the stage at which a candidate was elected.
fn elected_at(stages: &[Stage], c: u8) -> Option<u64>
    ensures { result ≡ elected_at_of stages.now c }
{
    match elected_place(stages, c) {
        None => None,
        Some(place) => Some(place as u64 + 1),
    }
}

/// Returns the number of the stage at which a candidate was excluded.
fn excluded_at(stages: &[Stage], c: u8) -> Option<u64>
    ensures { result ≡ excluded_at_of stages.now c }
{
    match excluded_place(stages, c) {
        None => None,
        Some(place) => Some(place as u64 + 1),
    }
}

/// Writes a candidate: number, name, and the stage of election or exclusion; `AllocError` if an allocation fails.
fn write_candidate(
    out: &mut Writer,
    poll: Option<Poll>,
    stages: &[Stage],
    candidate: &(u8, String),
) -> Result<(), AllocError>
    ensures before { OnOk result (out.new.before ≡ out.old.before) }
    ensures tokens { OnOk result (out.new.tokens ≡ out.old.tokens ++ json_tokens (candidate_result poll stages.now (candidate.now.0, string_bytes candidate.now.1))) }
{
    let (c, name) = candidate;
    out.begin_object()?;
    put_number(out, "number", u64::from(*c))?;
    put_text(out, "name", name.as_str())?;
    put_flag(out, "elected", is_elected(poll, stages, *c))?;
    put_stage(out, "elected_at", elected_at(stages, *c))?;
    put_stage(out, "excluded_at", excluded_at(stages, *c))?;
    out.end_object()
}

/// Writes the candidates; `AllocError` if an allocation fails.
fn write_candidates(out: &mut Writer, ward: &Ward, stages: &[Stage]) -> Result<(), AllocError>
    ensures before { OnOk result (out.new.before ≡ out.old.before) }
    ensures tokens { OnOk result (out.new.tokens ≡ out.old.tokens ++ json_tokens (array_of (map (candidate_result ward.now.poll stages.now) (shown ward.now).candidates))) }
{
    out.begin_array()?;
    for candidate in ward.candidates {
        write_candidate(out, ward.poll, stages, candidate)?;
    }
    out.end_array()
}

/// Returns what was done at a stage.
fn action_word(action: Action) -> &'static str
    ensures { result.now ≡ action_word_of action }
{
    match action {
        Action::First => "first preferences",
        Action::Surplus(_) => "surplus",
        Action::Exclude(_) => "exclusion",
        Action::ExcludeLast(_) => "exclusion, last vacancies",
    }
}

/// Writes the number of the candidate whom an action concerns, or null; `AllocError` if an allocation fails.
fn put_concerned(out: &mut Writer, action: Action) -> Result<(), AllocError>
    ensures before { OnOk result (out.new.before ≡ out.old.before) }
    ensures tokens { OnOk result (out.new.tokens ≡ out.old.tokens ++ key (codes "of") ∷ json_tokens (concerned_in action)) }
{
    out.key("of")?;
    match action {
        Action::First => out.null(),
        Action::Surplus(c) | Action::Exclude(c) | Action::ExcludeLast(c) => out.u64(u64::from(c)),
    }
}

/// Writes the votes of the candidates at a stage; `AllocError` if an allocation fails.
fn write_votes(
    alloc: Global,
    out: &mut Writer,
    ward: &Ward,
    stage: &Stage,
) -> Result<(), AllocError>
    ensures before { OnOk result (out.new.before ≡ out.old.before) }
    ensures tokens { OnOk result (out.new.tokens ≡ out.old.tokens ++ json_tokens (array_of (votes_result (shown ward.now).candidates stage.now))) }
{
    out.begin_array()?;
    for candidate in ward.candidates {
        write_value(alloc, out, votes_of(stage, candidate.0))?;
    }
    out.end_array()
}

/// Writes the stage with the given number; `AllocError` if an allocation fails.
fn write_stage(
    alloc: Global,
    out: &mut Writer,
    ward: &Ward,
    k: u64,
    stage: &Stage,
) -> Result<(), AllocError>
    ensures before { OnOk result (out.new.before ≡ out.old.before) }
    ensures tokens { OnOk result (out.new.tokens ≡ out.old.tokens ++ json_tokens (stage_result (shown ward.now).candidates k stage.now)) }
{
    out.begin_object()?;
    put_number(out, "stage", k)?;
    put_text(out, "action", action_word(stage.action))?;
    put_concerned(out, stage.action)?;
    out.key("votes")?;
    write_votes(alloc, out, ward, stage)?;
    put_value(alloc, out, "non_transferable", stage.non_transferable)?;
    put_value(alloc, out, "lost", stage.lost)?;
    out.end_object()
}

/// Writes all stages; `AllocError` if an allocation fails.
fn write_stages(
    alloc: Global,
    out: &mut Writer,
    ward: &Ward,
    stages: &[Stage],
) -> Result<(), AllocError>
    ensures before { OnOk result (out.new.before ≡ out.old.before) }
    ensures tokens { OnOk result (out.new.tokens ≡ out.old.tokens ++ json_tokens (array_of (stages_result (shown ward.now).candidates 1 stages.now))) }
{
    out.begin_array()?;
    for k in 0..stages.len() {
        write_stage(alloc, out, ward, k as u64 + 1, &stages[k])?;
    }
    out.end_array()
}

/// Writes a lot: its stage and candidate; `AllocError` if an allocation fails.
fn write_lot(out: &mut Writer, lot: (u8, u8)) -> Result<(), AllocError>
    ensures before { OnOk result (out.new.before ≡ out.old.before) }
    ensures tokens { OnOk result (out.new.tokens ≡ out.old.tokens ++ json_tokens (lot_result lot)) }
{
    out.begin_object()?;
    put_number(out, "stage", u64::from(lot.0))?;
    put_number(out, "candidate", u64::from(lot.1))?;
    out.end_object()
}

/// Writes the lots in order; `AllocError` if an allocation fails.
fn write_lots(out: &mut Writer, lots: &[(u8, u8)]) -> Result<(), AllocError>
    ensures before { OnOk result (out.new.before ≡ out.old.before) }
    ensures tokens { OnOk result (out.new.tokens ≡ out.old.tokens ++ json_tokens (array_of (map lot_result lots.now))) }
{
    out.begin_array()?;
    for lot in lots {
        write_lot(out, *lot)?;
    }
    out.end_array()
}

/// Writes the members about the ward and the status of its result; `AllocError` if an allocation fails.
fn write_ward(out: &mut Writer, ward: &Ward, is_declared: bool) -> Result<(), AllocError>
    ensures before { OnOk result (out.new.before ≡ out.old.before) }
    ensures tokens { OnOk result (out.new.tokens ≡ out.old.tokens ++ members_part (ward_members (shown ward.now) is_declared)) }
{
    put_number(out, "ward", u64::from(ward.number))?;
    put_text(out, "name", ward.name)?;
    put_number(out, "seats", u64::from(ward.seats))?;
    put_flag(out, "declared", is_declared)?;
    put_flag(out, "contested", ward.poll.is_some())
}

/// Writes the members about the papers; `AllocError` if an allocation fails.
fn write_papers(alloc: Global, out: &mut Writer, ward: &Ward) -> Result<(), AllocError>
    requires { CanBePrinted ward.now }
    ensures before { OnOk result (out.new.before ≡ out.old.before) }
    ensures tokens { OnOk result (out.new.tokens ≡ out.old.tokens ++ members_part (paper_members (shown ward.now))) }
{
    out.key("valid")?;
    write_valid_papers(out, ward.poll)?;
    out.key("rejected")?;
    write_rejected_papers(out, ward.poll)?;
    out.key("quota")?;
    write_quota(alloc, out, ward.seats, ward.poll)
}

/// Writes the members that are lists; `AllocError` if an allocation fails.
fn write_lists(
    alloc: Global,
    out: &mut Writer,
    ward: &Ward,
    stages: &[Stage],
    lots: &[(u8, u8)],
) -> Result<(), AllocError>
    ensures before { OnOk result (out.new.before ≡ out.old.before) }
    ensures tokens { OnOk result (out.new.tokens ≡ out.old.tokens ++ members_part (list_members (shown ward.now) stages.now lots.now)) }
{
    out.key("candidates")?;
    write_candidates(out, ward, stages)?;
    out.key("stages")?;
    write_stages(alloc, out, ward, stages)?;
    out.key("lots")?;
    write_lots(out, lots)
}

/// Returns the given list if the ward is contested, or else an empty one.
fn if_contested<T>(poll: Option<Poll>, list: &[T]) -> &[T]
    ensures { result.now ≡ if_contested_of poll list.now }
{
    match poll {
        None => &[],
        Some(_) => list,
    }
}

/// Writes the result of a ward; `AllocError` if an allocation fails.
fn write_results(
    alloc: Global,
    out: &mut Writer,
    ward: &Ward,
    is_declared: bool,
    stages: &[Stage],
    lots: &[(u8, u8)],
) -> Result<(), AllocError>
    requires { CanBePrinted ward.now }
    ensures before { OnOk result (out.new.before ≡ out.old.before) }
    ensures tokens { OnOk result (out.new.tokens ≡ out.old.tokens ++ json_tokens (ward_result (shown ward.now) is_declared stages.now lots.now)) }
{
    out.begin_object()?;
    write_ward(out, ward, is_declared)?;
    write_papers(alloc, out, ward)?;
    let stages = if_contested(ward.poll, stages);
    write_lists(alloc, out, ward, stages, if_contested(ward.poll, lots))?;
    out.end_object()
}

/// Returns the result of a ward as one line of JSON: its papers, the quota, the candidates, the stages and the lots. Figures are
/// text, as on the stage sheet. For an uncontested ward, the stages and the lots aren't read.
///
/// A reader of JSON finds exactly this value in the text, whatever the names are. The only error is a failed allocation.
pub fn results_text(
    alloc: Global,
    ward: &Ward,
    is_declared: bool,
    stages: &[Stage],
    lots: &[(u8, u8)],
) -> Result<String, AllocError>
    requires { CanBePrinted ward.now }
    ensures text { IfOk result (λ text. string_bytes text ≡ results (shown ward.now) is_declared stages.now lots.now) }
    ensures reads_back { OnOk result (document (print (json_tokens (ward_result (shown ward.now) is_declared stages.now lots.now)))
        ≡ Some (ward_result (shown ward.now) is_declared stages.now lots.now)) }
{
    let mut out = Writer::new(Vec::new(alloc));
    write_results(alloc, &mut out, ward, is_declared, stages, lots)?;
    let mut text = String::from_utf8(out.into_inner()).unwrap();
    text.push_str("\n")?;
    Ok(text)
}

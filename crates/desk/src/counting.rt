//! Counting a ward's stages in one order.

ghost use Rattle.std.specs.Prelude.{◌≡◌, ◌∷◌, [], ◌-◌, ◌^◌, ◌<◌, ℕ, Bool, false, map};
ghost use Rattle.sqlite.specs.State.{HasCleanDisk};
ghost use Rattle.sqlite.specs.Held.{state};
ghost use Rattle.clap.specs.Words.{Text};
ghost use Rattle.store.specs.StateTables.{KeepsConnection};
ghost use Rattle.office.specs.Answers.{WhenOpenAt};
ghost use Rattle.desk.specs.Orders.{sent_as};
ghost use Rattle.desk.specs.Pages.{Tells, outputs_of, page_at_rest, page_of};
ghost use Rattle.desk.specs.Parts.{ComesToRecorded, IsCountedBy, IsStageBy};
ghost use Rattle.desk.specs.Records.{IsRecorded, StaysOnceFailed};
ghost use Rattle.desk.specs.Requests.{advances, id_at, most_advances};

use crate::lines::{LineOutcome, tell};
use crate::record::Recorder;
use office::{Answer, Office};
use register::{Reason, Refusal, Request};
use sqlite::Alter;
use streams::{Broken, Sink};

/// Returns the outcome of a refused request for another stage. If the count has stopped at a lot or at its end, the outcome is a
/// reply, not a refusal. After the first request, a ward in another phase is one that has been declared in the meantime.
fn outcome_of_refused_stage(is_first: bool, refusal: Refusal) -> LineOutcome
    ensures { page_of result ≡ page_at_rest is_first refusal }
{
    match refusal.reason() {
        Reason::CountFinished => LineOutcome::CountFinished,
        Reason::LotNeeded { .. } => LineOutcome::LotNeeded(refusal),
        Reason::WrongPhase if !is_first => LineOutcome::CountFinished,
        _ => LineOutcome::Refused(refusal),
    }
}

/// Requests another stage, as the first request of an order or as a later one. Returns the outcome, and whether the count
/// continues after it, which it does if the request was accepted, now or earlier, and acknowledged. An accepted request is
/// recorded. If the record has failed, or fails now, the request is not acknowledged.
fn stage_of<S: Alter, R: Recorder>(
    office: &mut Office<S>,
    is_first: bool,
    request: &Request,
    recorder: &mut R,
) -> (LineOutcome, bool)
    ensures told { WhenOpenAt (state S.Store) office.old office.new (λ s. (answered : ℕ)
        × IsStageBy (R.failed recorder.new) (state S.Store office.old.held) office.new.closed (state S.Store office.new.held) is_first s request.now (page_of result.0) answered result.1
        × (R.failed recorder.old ≡ false → IsRecorded s (request.now ∷ []) answered (R.found recorder.old) (R.found recorder.new) (R.failed recorder.new))) }
    ensures same { R.records recorder.new ≡ R.records recorder.old }
    ensures untouched { StaysOnceFailed R.failed recorder.old recorder.new (state S.Store office.old.held) (state S.Store office.new.held) }
    ensures keeps_connection { KeepsConnection (state S.Store office.old.held) (state S.Store office.new.held) }
    ensures clean { HasCleanDisk (state S.Store office.new.held) → HasCleanDisk (state S.Store office.old.held) }
{
    if recorder.has_failed() {
        return (LineOutcome::Unrecorded, false);
    }
    match office.handle(request.actor, request.id.as_str(), &request.command) {
        Ok(Answer::Done(reply)) => match recorder.record(request) {
            Ok(()) => (LineOutcome::Replied(reply), true),
            Err(Broken) => (LineOutcome::Unrecorded, false),
        },
        Ok(Answer::Kept(reply)) => (LineOutcome::Replied(reply), true),
        Ok(Answer::Refused(refusal)) => (outcome_of_refused_stage(is_first, refusal), false),
        Err(fault) => (LineOutcome::Failed(fault), false),
    }
}

/// Returns the id of the first of the given requests.
fn first_id(requests: &[Request]) -> &str
    ensures { (ward : ℕ) (id : Text) → map sent_as requests.now ≡ advances ward id most_advances → result.now ≡ id_at id 1 }
{
    match requests.first() {
        Some(request) => request.id.as_str(),
        None => "",
    }
}

/// Counts stage by stage with the requests of an order, records each accepted one, and prints each reply. The count ends after the first request that isn't
/// accepted, now or earlier. If it has stopped at a lot or at its end, a line says so too, with status 0. Any other refusal is
/// printed as usual, with status 1, and a fault with status 3. An output that fails also ends the count, with status 3.
/// Every stage whose reply was printed remains counted.
pub(crate) fn count_stages<S: Alter, R: Recorder, O: Sink, E: Sink>(
    office: &mut Office<S>,
    line: Option<usize>,
    requests: &[Request],
    recorder: &mut R,
    out: &mut O,
    err: &mut E,
) -> u8
    requires out { O.failed out.old < 2 ^ 64 - 1 }
    requires err { E.failed err.old < 2 ^ 64 - 1 }
    ensures counted { let outputs = outputs_of O.taken O.failed E.taken E.failed in Tells (outputs out.old err.old) (outputs out.new err.new) result
        (λ cut page. WhenOpenAt (state S.Store) office.old office.new (λ s. (keep : Bool) (ward : ℕ) (id : Text) → map sent_as requests.now ≡ advances ward id most_advances
        → ComesToRecorded cut page (λ own answered. R.failed recorder.old ≡ false → IsRecorded s own answered (R.found recorder.old) (R.found recorder.new) (R.failed recorder.new))
        (IsCountedBy (R.failed recorder.new) (state S.Store office.old.held) office.new.closed (state S.Store office.new.held) keep line s ward id))) }
    ensures same { R.records recorder.new ≡ R.records recorder.old }
    ensures untouched { StaysOnceFailed R.failed recorder.old recorder.new (state S.Store office.old.held) (state S.Store office.new.held) }
    ensures keeps_connection { KeepsConnection (state S.Store office.old.held) (state S.Store office.new.held) }
    ensures clean { HasCleanDisk (state S.Store office.new.held) → HasCleanDisk (state S.Store office.old.held) }
{
    let first = first_id(requests);
    for request in requests {
        let is_first = request.id.as_str() == first;
        let (outcome, more) = stage_of(office, is_first, request, recorder);
        let status = tell(line, &outcome, out, err);
        if status != 0 {
            return status;
        }
        if !more {
            return 0;
        }
    }
    0
}

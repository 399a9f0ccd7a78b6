//! Sending requests to an office, and their outcomes.

ghost use Rattle.std.specs.Prelude.{◌≡◌, ◌∷◌, [], ◌-◌, ◌^◌, ◌<◌, ℕ, Ok, false, string_bytes};
ghost use Rattle.sqlite.specs.State.{HasCleanDisk};
ghost use Rattle.sqlite.specs.Held.{state};
ghost use Rattle.register.specs.Repeats.{is_kept_otherwise};
ghost use Rattle.tables.specs.Reading.{OnlyReads};
ghost use Rattle.store.specs.StateTables.{KeepsConnection};
ghost use Rattle.office.specs.Answers.{WhenOpenAt};
ghost use Rattle.desk.specs.Headline.{IsAnsweredBy, IsSentBy};
ghost use Rattle.desk.specs.Pages.{Tells, goes_on, outputs_of, page_for, page_kept, page_of, combined_status};
ghost use Rattle.desk.specs.Parts.{ComesToRecorded, IsFound, IsOver};
ghost use Rattle.desk.specs.Records.{IsRecorded, StaysOnceFailed};

use crate::lines::{LineOutcome, tell};
use crate::record::Recorder;
use office::{Answer, Office, ReadError};
use register::{Reply, Request};
use sqlite::Alter;
use store::Fault;
use streams::{Broken, Sink};

/// Returns true if an order continues after output with this status: after status 0, and with `keep_going` also after a refusal.
pub(crate) fn goes_on(keep_going: bool, status: u8) -> bool
    ensures { result ≡ goes_on keep_going status }
{
    status == 0 || (keep_going && status == 1)
}

/// Returns the combined status of a sequence after another status: the last nonzero one, or 0.
pub(crate) fn combined_status(before: u8, status: u8) -> u8
    ensures { result ≡ combined_status before status }
{
    if status == 0 { before } else { status }
}

/// Returns the outcome of a request that was accepted earlier: its reply, with a note if the stored content differs from the
/// request's. If reading the stored content fails, the fault replaces the reply.
fn kept_before<S: Alter>(office: &mut Office<S>, request: &Request, reply: Reply) -> LineOutcome
    ensures found { WhenOpenAt (state S.Store) office.old office.new
        (λ s. IsFound s (page_kept (string_bytes request.now.id) (string_bytes reply)) (Ok (is_kept_otherwise s request.now)) (page_of result)
        office.new.closed (state S.Store office.old.held) (state S.Store office.new.held)) }
    ensures same { OnlyReads (state S.Store office.old.held) (state S.Store office.new.held) }
{
    match office.differs_from_stored(request) {
        Ok(false) => LineOutcome::Replied(reply),
        Ok(true) => match request.id.clone() {
            Ok(id) => LineOutcome::Noted { reply, id },
            Err(_) => LineOutcome::Failed(Fault::Memory),
        },
        Err(ReadError::Refused(refusal)) => LineOutcome::Refused(refusal),
        Err(ReadError::Fault(fault)) => LineOutcome::Failed(fault),
    }
}

/// Sends a request to an office, records it if the office accepts it, and returns its outcome. If the record has failed, or fails
/// now, the request is not acknowledged. Once it has failed, the office isn't asked.
fn outcome_of<S: Alter, R: Recorder>(
    office: &mut Office<S>,
    request: &Request,
    recorder: &mut R,
) -> LineOutcome
    ensures told { WhenOpenAt (state S.Store) office.old office.new (λ s. (answered : ℕ)
        × IsAnsweredBy (state S.Store office.old.held) office.new.closed (state S.Store office.new.held) (R.failed recorder.new) page_for s request.now answered (page_of result)
        × (R.failed recorder.old ≡ false → IsRecorded s (request.now ∷ []) answered (R.found recorder.old) (R.found recorder.new) (R.failed recorder.new))) }
    ensures same { R.records recorder.new ≡ R.records recorder.old }
    ensures untouched { StaysOnceFailed R.failed recorder.old recorder.new (state S.Store office.old.held) (state S.Store office.new.held) }
    ensures keeps_connection { KeepsConnection (state S.Store office.old.held) (state S.Store office.new.held) }
    ensures clean { HasCleanDisk (state S.Store office.new.held) → HasCleanDisk (state S.Store office.old.held) }
{
    if recorder.has_failed() {
        return LineOutcome::Unrecorded;
    }
    match office.handle(request.actor, request.id.as_str(), &request.command) {
        Ok(Answer::Done(reply)) => match recorder.record(request) {
            Ok(()) => LineOutcome::Replied(reply),
            Err(Broken) => LineOutcome::Unrecorded,
        },
        Ok(Answer::Kept(reply)) => kept_before(office, request, reply),
        Ok(Answer::Refused(refusal)) => LineOutcome::Refused(refusal),
        Err(fault) => LineOutcome::Failed(fault),
    }
}

/// Sends requests to an office one after another and prints each reply, with a note if a request was accepted earlier with
/// different content. An accepted request is recorded before its reply is printed. The sequence ends at the first fault, which is
/// printed too, as is a record that fails; at the first output that fails; and, without `keep_going`, at the first refusal. If the
/// requests come from a line of a script, a refusal or fault is printed after the line number. The status is the last nonzero one,
/// or 0.
pub(crate) fn send_all<S: Alter, R: Recorder, O: Sink, E: Sink>(
    office: &mut Office<S>,
    keep_going: bool,
    line: Option<usize>,
    requests: &[Request],
    recorder: &mut R,
    out: &mut O,
    err: &mut E,
) -> u8
    requires out { O.failed out.old < 2 ^ 64 - 1 }
    requires err { E.failed err.old < 2 ^ 64 - 1 }
    ensures sent { let outputs = outputs_of O.taken O.failed E.taken E.failed in Tells (outputs out.old err.old) (outputs out.new err.new) result
        (λ cut page. WhenOpenAt (state S.Store) office.old office.new (λ s. ComesToRecorded cut page
        (λ own answered. R.failed recorder.old ≡ false → IsRecorded s own answered (R.found recorder.old) (R.found recorder.new) (R.failed recorder.new))
        (λ course. IsSentBy (R.failed recorder.new) (state S.Store office.old.held) office.new.closed (state S.Store office.new.held) keep_going line page_for
        (IsOver office.new.closed (state S.Store office.new.held)) s requests.now course))) }
    ensures same { R.records recorder.new ≡ R.records recorder.old }
    ensures untouched { StaysOnceFailed R.failed recorder.old recorder.new (state S.Store office.old.held) (state S.Store office.new.held) }
    ensures keeps_connection { KeepsConnection (state S.Store office.old.held) (state S.Store office.new.held) }
    ensures clean { HasCleanDisk (state S.Store office.new.held) → HasCleanDisk (state S.Store office.old.held) }
{
    let mut ends = 0;
    for request in requests {
        let status = tell(line, &outcome_of(office, request, recorder), out, err);
        if !goes_on(keep_going, status) {
            return status;
        }
        ends = combined_status(ends, status);
    }
    ends
}

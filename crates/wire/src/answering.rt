//! Asking the office on behalf of a request, and building the response.

ghost use Rattle.std.specs.Prelude.{◌≡◌, IfSome, None, false, map, true, string_bytes};
ghost use Rattle.register.specs.Status.{paper_entry, work_entry};
ghost use Rattle.sqlite.specs.State.{HasCleanDisk};
ghost use Rattle.sqlite.specs.Held.{state};
ghost use Rattle.register.specs.Offices.{OfficeState};
ghost use Rattle.store.specs.StateTables.{IsAt};
ghost use Rattle.tables.specs.Faults.{fault_number};
ghost use Rattle.office.specs.Answers.{is_done, told};
ghost use Rattle.wire.specs.Requests.{http_request_entry, reading};
ghost use Rattle.wire.specs.Responses.{fault_response, text_response};
ghost use Rattle.wire.specs.Serving.{AcceptsKeying, IsHandedOn, IsReadTold, Readies, closed_response, keying_entry, paper_response, told_response, work_response};
ghost use Rattle.wire.specs.Told.{IsTold};

use crate::candidates::paper_body;
use crate::earlier_keying::answer_earlier;
use crate::office_responses::{faulted, refused, replied};
use crate::public::answer_public;
use crate::read_responses::answer_office;
use crate::request::{HttpRequest, Keying};
use crate::request_error::RequestError;
use crate::response::{Content, Response};
use crate::target::Resource;
use crate::work::work_body;
use http::StatusCode;
use office::{Answer, Office, ReadError};
use register::{BallotPaper, Command, KeyingCommand, Request, Work};
use sqlite::Alter;
use std::alloc::Global;
use store::Fault;

/// Returns the response with the office's answer to a keying.
fn answered(alloc: Global, answer: &Answer) -> Response
    ensures { IsTold (told_response (told answer.now)) result }
{
    match answer {
        Answer::Done(reply) => replied(alloc, reply.as_str()),
        Answer::Kept(reply) => replied(alloc, reply.as_str()),
        Answer::Refused(why) => refused(alloc, why),
    }
}

/// A clerk's keying that was sent to the office: the response, and the request, if the office accepted it just now.
#[derive(Drop)]
pub struct HandledKeying {
    pub response: Response,
    pub accepted: Option<Request>,
}

/// Returns whether an answer is the reply to a request that was accepted just now.
fn is_done(answer: &Answer) -> bool
    ensures { result ≡ is_done (told answer.now) }
{
    match answer {
        Answer::Done(_) => true,
        Answer::Kept(_) => false,
        Answer::Refused(_) => false,
    }
}

/// Sends a clerk's keying to the office. Returns the response and, if the office accepted the keying just now, the request that
/// was sent; the response is then the reply. No request is returned if the keying was accepted earlier or is refused, or after a
/// fault. A closed office stays as it is.
pub fn handle_keying<S: Alter>(
    alloc: Global,
    office: &mut Office<S>,
    keying: Keying,
) -> HandledKeying
    ensures answers { HasCleanDisk (state S.Store office.new.held) → office.old.closed ≡ false → (s : OfficeState) → IsAt s (state S.Store office.old.held)
        → Readies s (http_request_entry (HttpRequest.Keying keying)) result.response office.new.closed (state S.Store office.new.held) }
    ensures accepts { HasCleanDisk (state S.Store office.new.held) → office.old.closed ≡ false → (s : OfficeState) → IsAt s (state S.Store office.old.held)
        → AcceptsKeying s keying.clerk keying.batch (keying_entry keying) result.response result.accepted office.new.closed (state S.Store office.new.held) }
    ensures handed { IfSome result.accepted (λ request. IsHandedOn keying.clerk keying.batch (keying_entry keying) request) }
    ensures closed { office.old.closed ≡ true → office.new ≡ office.old }
    ensures closed_told { office.old.closed ≡ true → IsTold (fault_response (fault_number Fault.Closed)) result.response }
    ensures closed_none { office.old.closed ≡ true → result.accepted ≡ None }
    ensures clean { HasCleanDisk (state S.Store office.new.held) → HasCleanDisk (state S.Store office.old.held) }
{
    let Keying {
        clerk,
        batch,
        id,
        round,
        papers,
    } = keying;
    let request = Request {
        actor: clerk,
        id,
        command: Command::Keying(KeyingCommand {
            batch,
            round,
            papers,
        }),
    };
    match office.handle(request.actor, request.id.as_str(), &request.command) {
        Ok(answer) => {
            let response = answered(alloc, &answer);
            if is_done(&answer) {
                let accepted = Some(request);
                return HandledKeying { response, accepted };
            }
            HandledKeying {
                response,
                accepted: None,
            }
        }
        Err(fault) => HandledKeying {
            response: faulted(alloc, fault),
            accepted: None,
        },
    }
}

/// Sends a clerk's keying to the office and returns the response. A closed office stays as it is.
pub fn answer_keying<S: Alter>(alloc: Global, office: &mut Office<S>, keying: Keying) -> Response
    ensures answers { HasCleanDisk (state S.Store office.new.held) → office.old.closed ≡ false → (s : OfficeState) → IsAt s (state S.Store office.old.held)
        → Readies s (http_request_entry (HttpRequest.Keying keying)) result office.new.closed (state S.Store office.new.held) }
    ensures closed { office.old.closed ≡ true → office.new ≡ office.old }
    ensures closed_told { office.old.closed ≡ true → IsTold (fault_response (fault_number Fault.Closed)) result }
    ensures clean { HasCleanDisk (state S.Store office.new.held) → HasCleanDisk (state S.Store office.old.held) }
{
    let HandledKeying { response, .. } = handle_keying(alloc, office, keying);
    response
}

/// Returns the response with a ward's stage sheet or declaration, or with the refusal or fault.
fn answer_text(alloc: Global, told: Result<String, ReadError>) -> Response
    ensures { IsReadTold text_response string_bytes told result }
{
    match told {
        Ok(text) => Response::made(alloc, StatusCode::OK, Content::Text, Ok(text)),
        Err(ReadError::Refused(why)) => refused(alloc, &why),
        Err(ReadError::Fault(fault)) => faulted(alloc, fault),
    }
}

/// Returns the response with a clerk's work, or with the refusal or fault.
fn answer_work(alloc: Global, clerk: u32, told: Result<Vec<Work>, ReadError>) -> Response
    ensures { IsReadTold (work_response clerk) (λ work. map work_entry work.items) told result }
{
    match told {
        Ok(work) => {
            let body = work_body(alloc, clerk, &work);
            Response::made(alloc, StatusCode::OK, Content::Json, body)
        }
        Err(ReadError::Refused(why)) => refused(alloc, &why),
        Err(ReadError::Fault(fault)) => faulted(alloc, fault),
    }
}

/// Returns the response with the candidates of a batch, or with the refusal or fault.
fn answer_paper(alloc: Global, batch: u32, told: Result<BallotPaper, ReadError>) -> Response
    ensures { IsReadTold (paper_response batch) paper_entry told result }
{
    match told {
        Ok(paper) => {
            let body = paper_body(alloc, batch, &paper);
            Response::made(alloc, StatusCode::OK, Content::Json, body)
        }
        Err(ReadError::Refused(why)) => refused(alloc, &why),
        Err(ReadError::Fault(fault)) => faulted(alloc, fault),
    }
}

/// Reads a resource from the office, and returns the response.
fn answer_reading<S: Alter>(alloc: Global, office: &mut Office<S>, what: Resource) -> Response
    ensures answers { HasCleanDisk (state S.Store office.new.held) → office.old.closed ≡ false → (s : OfficeState) → IsAt s (state S.Store office.old.held)
        → Readies s (reading what) result office.new.closed (state S.Store office.new.held) }
    ensures closed { office.old.closed ≡ true → office.new ≡ office.old }
    ensures closed_told { office.old.closed ≡ true → IsTold (fault_response (fault_number Fault.Closed)) result }
    ensures clean { HasCleanDisk (state S.Store office.new.held) → HasCleanDisk (state S.Store office.old.held) }
{
    match what {
        Resource::Work { clerk } => answer_work(alloc, clerk, office.work(clerk)),
        Resource::Candidates { clerk, batch } => {
            answer_paper(alloc, batch, office.paper(clerk, batch))
        }
        Resource::Keyed { clerk, batch } => {
            answer_earlier(alloc, batch, office.earlier_keying(clerk, batch))
        }
        Resource::Sheet { ward } => answer_text(alloc, office.sheet(ward)),
        Resource::Declaration { ward } => answer_text(alloc, office.result(ward)),
        Resource::Office(read) => answer_office(alloc, office, read),
    }
}

/// Processes a request in the office and returns the response. Orders aren't carried out here; the response to an order is "not
/// found".
pub(crate) fn answer<S: Alter>(
    alloc: Global,
    office: &mut Office<S>,
    asked: HttpRequest<'_>,
) -> Response
    ensures answers { HasCleanDisk (state S.Store office.new.held) → office.old.closed ≡ false → (s : OfficeState) → IsAt s (state S.Store office.old.held)
        → Readies s (http_request_entry asked.entry) result office.new.closed (state S.Store office.new.held) }
    ensures closed { office.old.closed ≡ true → office.new ≡ office.old }
    ensures closed_told { office.old.closed ≡ true → IsTold (closed_response (http_request_entry asked.entry)) result }
    ensures clean { HasCleanDisk (state S.Store office.new.held) → HasCleanDisk (state S.Store office.old.held) }
{
    match asked {
        HttpRequest::Denied(why) => Response::denied(alloc, why),
        HttpRequest::ClerkPage(_, show) => Response::shown(alloc, show),
        HttpRequest::Keying(keying) => answer_keying(alloc, office, keying),
        HttpRequest::Resource(what) => answer_reading(alloc, office, what),
        HttpRequest::ConsolePage(show) => Response::shown(alloc, show),
        HttpRequest::Order(_) => Response::denied(alloc, RequestError::NotFound),
        HttpRequest::Public(shown, what) => answer_public(alloc, office, shown, what),
    }
}

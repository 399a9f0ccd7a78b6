//! The answers of the office.

ghost use Rattle.std.specs.Prelude.{◌≡◌, Some};

use register::Refusal;
use register::decision::Reply;
use store::Fault;

/// The answer to a request.
#[derive(Drop)]
pub enum Answer {
    /// The request was accepted just now and is stored: stopping the program doesn't undo it.
    Done(Reply),
    /// The request was accepted earlier under the same id. This is the original reply.
    Kept(Reply),
    /// Nothing changed, for this reason.
    Refused(Refusal),
}

/// The reason why a read returns no value.
#[derive(Drop)]
pub enum ReadError {
    /// The state has no such value, for this reason.
    Refused(Refusal),
    /// The read failed with this fault.
    Fault(Fault),
}

/// The answers to a list of requests, in order, up to the first fault; and that fault, if there is one.
#[derive(Drop)]
pub struct RunOutcome {
    pub answers: Vec<Answer>,
    pub fault: Option<Fault>,
}

impl RunOutcome {
    /// Returns the outcome of a run that ended with a fault.
    pub(crate) fn stopped(answers: Vec<Answer>, fault: Fault) -> RunOutcome
        ensures answers { result.answers ≡ answers }
        ensures fault { result.fault ≡ Some fault }
    {
        RunOutcome {
            answers,
            fault: Some(fault),
        }
    }
}

//! What a clerk may learn about other clerks' work.

ghost use Rattle.std.specs.Prelude.{◌≡◌, false};
ghost use Rattle.laws.specs.Blindness.{AlikeOfficesAnswerAlike, ClerksAreBlind, DecidedByObserved, IsUnobserved, OwnAreObserved, SeenIsAlike, SeenIsObserved};
ghost use Rattle.laws.specs.Blindness.{is_shown_command, may_observe};

use register::ranges::is_office;
use register::{Command, CountCommand, Request};

/// The law of blind keying, for lists of requests. A clerk *observes* their own requests, and those changes made by the
/// office's requests that clerks can see: changes to wards, phases, candidates, batches, rounds and third clerks. A clerk
/// observes nothing of another clerk's requests.
///
/// What a clerk sees after any list of requests, and the decisions on their own requests, follow from what they saw at first
/// and what they have observed since. So consider two offices that look identical to a clerk, and any list of requests to
/// each. If the clerk makes the same observations in both, their requests get the same replies in both offices, and the two
/// offices still look identical to them in the end, no matter what other clerks keyed.
///
/// To a teller, this means: if your colleagues had keyed anything else, and the office had still made the same changes, you
/// would have read exactly the same text, character for character. The law doesn't say that the office's changes tell you
/// nothing: if a batch is reopened, you know that its keyings differed. Nor does it cover faults, response times, what is
/// published about a sealed ward, or requests that are rejected before they reach the office.
pub fn clerks_are_blind()
    ensures itself { SeenIsAlike }
    ensures alike { AlikeOfficesAnswerAlike }
    ensures seen { SeenIsObserved }
    ensures decided { DecidedByObserved }
    ensures own { OwnAreObserved }
    ensures blind { ClerksAreBlind }
{}

/// Returns whether clerks may see the change made by an office command.
fn is_shown(command: &Command) -> bool
    ensures { result ≡ is_shown_command command.now }
{
    match command {
        Command::Ward(_) => true,
        Command::Candidate(_) => true,
        Command::Batch(_) => true,
        Command::Keying(_) => false,
        Command::Verdict(_) => false,
        Command::Count(CountCommand::Seal { .. }) => true,
        Command::Count(CountCommand::Advance { .. }) => false,
        Command::Count(CountCommand::Lot { .. }) => false,
        Command::Count(CountCommand::Declare { .. }) => true,
    }
}

/// Returns whether a clerk may observe a request: it is the clerk's own, or it is from the office and clerks may see the
/// change that its command makes. A clerk observes nothing of any other request, in any state.
pub fn may_observe(clerk: u32, request: &Request) -> bool
    ensures is { result ≡ may_observe clerk request.now }
    ensures unobserved { result ≡ false → IsUnobserved clerk request.now }
{
    request.actor == clerk || (is_office(request.actor) && is_shown(&request.command))
}

//! The functions of `register`: each command, and the decision on it.

use register::{Command, CommandInput, Decision, Request, Verdict, View, decide};
use std::alloc::{AllocError, Global};
use std::process::Abort;
use std::test::Fail;

fn decision_on(alloc: Global, view: &View<'_>, command: &Command) -> Result<Decision, AllocError> {
    decide(alloc, view, command)
}

/// Returns the machine's view of an empty office, for a request with the given id.
fn view_of(alloc: Global, id: &str) -> View<'_> {
    View {
        actor: 0,
        id,
        receipt: None,
        part: CommandInput::empty(alloc),
    }
}

/// Returns a refusal's number and the length of its text in bytes; `None` if the request is accepted or is a repetition.
fn refusal_in(decision: &Decision) -> Option<(u32, usize)> {
    match decision {
        Decision::Accepted(_, _) => None,
        Decision::Kept(_) => None,
        Decision::Refused(refusal) => Some((refusal.number(), refusal.text().len())),
    }
}

fn request(id: String, command: Command) -> Request {
    Request {
        actor: 0,
        id,
        command,
    }
}

/// Returns the commands made up only of numbers.
fn commands() -> [Command; 10] {
    [
        Command::withdraw(7, 1),
        Command::close_nominations(7),
        Command::add_batch(12, 7, 2, 4, 9),
        Command::again(12),
        Command::third(12, 5),
        Command::adjudicate(12, 2, Verdict::Reject(3)),
        Command::seal(7),
        Command::advance(7),
        Command::lot(7, 2, 1),
        Command::declare(7),
    ]
}

/// Returns the commands that include texts.
fn texts(alloc: Global) -> Result<[Command; 3], AllocError> {
    Ok([
        Command::add_ward(7, 2, String::from_str(alloc, "Harbour")?),
        Command::add_candidate(7, 1, String::from_str(alloc, "Ann")?),
        Command::key(12, 1, Vec::new(alloc)),
    ])
}

/// Returns the number of the refusal of a command with a bad id, and the length of the refusal's text.
fn refused(alloc: Global, command: &Command) -> Result<Option<(u32, usize)>, AllocError> {
    let decision = decision_on(alloc, &view_of(alloc, "BAD"), command)?;
    Ok(refusal_in(&decision))
}

#[test]
fn commands_keep_their_calls(rt: HostRuntime) -> Result<(), Fail> {
    for command in &commands() {
        assert_eq!(&rt; refused(rt.alloc(), command)?, Some((1, 6)));
    }
    for command in &texts(rt.alloc())? {
        assert_eq!(&rt; refused(rt.alloc(), command)?, Some((1, 6)));
    }
    let id = String::from_str(rt.alloc(), "w1")?;
    assert_eq!(&rt; request(id, Command::seal(7)).actor, 0);
    Ok(())
}

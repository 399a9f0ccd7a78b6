//! A list of requests that an office processes in one call.

use super::disks::Disks;
use super::steps::Step;
use super::test_host::{TestHost, expect, lasting};
use register::{Command, Request, WardCommand};
use std::alloc::{AllocError, Global};
use std::process::Abort;
use std::test::Fail;

/// Returns a request by the given actor, with the given id.
fn asked(alloc: Global, actor: u32, id: &str, command: WardCommand) -> Result<Request, AllocError> {
    Ok(Request {
        actor,
        id: String::from_str(alloc, id)?,
        command: Command::Ward(command),
    })
}

/// Returns the command that adds ward 7, with two seats.
fn harbour(alloc: Global) -> Result<WardCommand, AllocError> {
    Ok(WardCommand::Add {
        ward: 7,
        seats: 2,
        name: String::from_str(alloc, "Harbour")?,
    })
}

/// The answers: to the office, for this command, for its repetition, and for the same command under a different id; to
/// a clerk, because only the office may send it; and to the office, for closing a ward without candidates.
const ANSWERS: &str = "done: ward 7 added
kept: ward 7 added
refused 6: ward exists
refused 3: number out of range
refused 12: no candidates
";

const STATUS: &str =
    "ward 7 nominations: 0 candidates, 0 batches, 0 taken, 0 differing, 0 doubtful open, 0 stages\n";

fn is_answered_in_turn<M: TestHost + Drop>(rt: &(impl Abort + AllocGlobal)) -> Result<(), Fail> {
    let alloc = rt.alloc();
    let requests = vec![in alloc;
        asked(alloc, 0, "w1", harbour(alloc)?)?,
        asked(alloc, 0, "w1", harbour(alloc)?)?,
        asked(alloc, 0, "w2", harbour(alloc)?)?,
        asked(alloc, 4, "w3", harbour(alloc)?)?,
        asked(alloc, 0, "n1", WardCommand::Close { ward: 7 })?,
    ]?;
    let cases = [
        (Step::List(requests.as_slice()), (0, ANSWERS, "")),
        (Step::Order(&["DB", "status", "7"]), (0, STATUS, "")),
    ];
    let host: M = lasting(alloc);
    expect(rt, host, &cases)?;
    Ok(())
}

#[test]
fn a_list_is_answered_in_turn(rt: HostRuntime) -> Result<(), Fail> {
    is_answered_in_turn::<Disks>(&rt)
}

//! Outputs that fail: they accept a prefix, acknowledged requests remain done, no further requests are sent, and the
//! same order, repeated, produces its whole output. (It is proved that this holds at every byte; here is one case of
//! each kind.)

use super::disks::Disks;
use super::steps::{OutputLimits, Step};
use super::test_host::{Act, TestHost, expect, run_parts};
use std::process::Abort;
use std::test::Fail;

/// The fault for an output that fails.
const BROKEN: &str = "fault 107: socket or output\n";

/// Returns outputs that accept at most `out` and `err` bytes.
fn limits(out: usize, err: usize) -> OutputLimits {
    OutputLimits { out, err }
}

const WARD: &[&str] = &["DB", "ward", "7", "2", "Harbour", "--id", "w1"];

const PIER: &[&str] = &["DB", "ward", "7", "3", "Pier", "--id", "w2"];

const IMPORT: &[&str] = &["DB", "import-candidates", "FILE", "--id", "c"];

const NAMES: &[u8] = b"ward,candidate,name\n7,1,Ann\n7,2,Bob\n";

/// The output for two candidates.
const BOTH: &str = "candidate 1 of ward 7 added\ncandidate 2 of ward 7 added\n";

/// The ward's status after only one of them was added.
const ONE: &str =
    "ward 7 nominations: 1 candidates, 0 batches, 0 taken, 0 differing, 0 doubtful open, 0 stages\n";

const STATUS: &[&str] = &["DB", "status", "7"];

fn has_taken_a_beginning<M: TestHost + Drop>(rt: &(impl Abort + AllocGlobal)) -> Result<(), Fail> {
    let every = usize::MAX;
    let cases = [
        // A reply is cut off: the ward was added.
        (
            Step::BreakingOrder(WARD, b"", limits(5, every)),
            (3, "ward ", BROKEN),
        ),
        (Step::Order(WARD), (0, "ward 7 added\n", "")),
        // A reply is cut off, as is the fault's message.
        (
            Step::BreakingOrder(WARD, b"", limits(0, 4)),
            (3, "", "faul"),
        ),
        // A refusal is cut off.
        (
            Step::BreakingOrder(PIER, b"", limits(every, 8)),
            (3, "", "refused "),
        ),
        (Step::Order(PIER), (1, "", "refused 6: ward exists\n")),
        // An import is cut off within its first line, so that the second candidate isn't added, and then within its
        // second line.
        (
            Step::BreakingOrder(IMPORT, NAMES, limits(27, every)),
            (3, "candidate 1 of ward 7 added", BROKEN),
        ),
        (Step::Order(STATUS), (0, ONE, "")),
        (
            Step::BreakingOrder(IMPORT, NAMES, limits(31, every)),
            (3, "candidate 1 of ward 7 added\ncan", BROKEN),
        ),
        (Step::FileOrder(IMPORT, NAMES), (0, BOTH, "")),
        // An order that needs a socket.
        (Step::Order(&["DB", "serve", "8080", "2"]), (3, "", BROKEN)),
    ];
    let host: M = run_parts(rt, &[Act::Typed("$ init\noffice ready\n")])?;
    expect(rt, host, &cases)?;
    Ok(())
}

#[test]
fn an_output_that_breaks_has_taken_a_beginning(rt: HostRuntime) -> Result<(), Fail> {
    has_taken_a_beginning::<Disks>(&rt)
}
